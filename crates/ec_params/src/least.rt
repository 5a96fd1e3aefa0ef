//! Of faults at one place, that of the lowest number.
#![tactic(auto, unfolding(crate::specs::Least::least))]

ghost use Rattle.std.specs.Prelude.{◌≡◌, [], ◌∷◌};
ghost use Rattle.ec_host_defs.specs.Faults.{fault_unless};
ghost use Rattle.ec_params.specs.Least as spec;

use ec_base::FaultKind;

/// The fault of the lower number, if there is one.
pub(crate) fn lower_of(a: Option<FaultKind>, b: Option<FaultKind>) -> Option<FaultKind>
    ensures { result ≡ spec.lower_of a b }
{
    match (a, b) {
        (Some(left), Some(right)) => { if right.number() < left.number() { b } else { a } }
        (Some(_), None) => a,
        (None, _) => b,
    }
}

/// A fault, unless the test passes.
pub(crate) fn fault_unless(passes: bool, kind: FaultKind) -> Option<FaultKind>
    ensures { result ≡ spec.least (fault_unless passes kind) }
{
    if passes { None } else { Some(kind) }
}

/// This fault alone.
pub(crate) fn only(kind: FaultKind) -> Option<FaultKind>
    ensures { result ≡ spec.least (kind ∷ []) }
{
    Some(kind)
}

/// No fault.
pub(crate) fn nothing() -> Option<FaultKind>
    ensures { result ≡ spec.least [] }
{
    None
}
