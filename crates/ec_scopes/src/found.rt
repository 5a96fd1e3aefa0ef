//! Violations, of which the first is kept.

ghost use Rattle.std.specs.Prelude.{◌≡◌};
ghost use Rattle.ec_language.specs.First as first;
ghost use Rattle.ec_scopes.specs.Entries.{found_view};

use ec_base::Stop;

/// A fault or a limit, with the number of its place.
#[derive(Clone, Copy, Debug, PartialEq, Eq)]
pub struct Found {
    pub place: u64,
    pub stop: Stop,
}

/// Where a stop stands among those of one place: faults by their numbers, and then limits.
fn rank(stop: Stop) -> u32
    ensures { result ≡ first.rank stop }
{
    match stop {
        Stop::Refused(kind, _) => kind.number(),
        Stop::Limit(kind) => 100 + kind.number(),
        Stop::OutOfMemory => 200,
    }
}

/// Whether the first violation comes before the second.
pub(crate) fn comes_before(a: Found, b: Found) -> bool
    ensures { result ≡ first.comes_before (found_view a) (found_view b) }
{
    a.place < b.place || (a.place == b.place && rank(a.stop) < rank(b.stop))
}
