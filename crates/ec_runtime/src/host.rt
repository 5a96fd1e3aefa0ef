//! The hosts of a call.

ghost use Rattle.std.specs.Prelude.{◌≡◌, ◌≤◌, ◌^◌, true, IsSome, MatchOption, IfSome};
ghost use Rattle.ec_arguments.specs.Rules.{fits_place};
ghost use Rattle.ec_convert.specs.Host.{given_host};
ghost use Rattle.ec_convert.specs.declared.host.HostPlace.{HostPlace};
ghost use Rattle.ec_runtime.specs.Fitting.{IsFit};
ghost use Rattle.ec_runtime.specs.Places.{place_view};

use ec_convert::{HostPlace, is_typed};

/// A host whose symbols are types, and whose numbers are those that a call may have.
#[derive(Clone, Copy, Debug)]
pub struct Host {
    pub(crate) place: HostPlace,
    ghost typed: { IsSome (given_host place) },
    ghost bounded: { place.count ≤ 2 ^ 24 },
    ghost sized: { place.size ≤ 2 ^ 24 },
}

impl Host {
    /// The host of a place, or `None` where a symbol is no type, or where there are more than 2^24 elements or bytes in
    /// one.
    pub fn new(place: HostPlace) -> Option<Host>
        ensures { MatchOption result (IsFit place → ⊥)
            (λ host. (host.place ≡ place) × IsFit place) }
    {
        if is_typed(&place) && place.count <= 1 << 24 && place.size <= 1 << 24 {
            Some(Host { place })
        } else {
            None
        }
    }

    /// The place.
    pub fn place(&self) -> HostPlace
        ensures { result ≡ self.now.place }
    {
        self.place
    }
}

/// A place in a list of arguments that cuts is the place of a host.
pub fn places_that_fit()
    ensures { (p : HostPlace) → fits_place (place_view p) ≡ true → IsFit p }
{}
