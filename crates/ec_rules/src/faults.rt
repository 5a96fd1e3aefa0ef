//! How a rule speaks of a fault.
#![tactic(auto, using(ec_scopes::proofs::Steps::noting), unfolding(ec_typing_defs::specs::Worlds::chain, ec_typing_defs::specs::Worlds::pure, ec_typing_defs::specs::Worlds::ask, ec_typing_defs::specs::Worlds::note, ec_typing_defs::specs::Worlds::demand, ec_typing_defs::specs::Worlds::keep_within, ec_typing_defs::specs::Operands::typed))]

ghost use Rattle.std.specs.Prelude.{◌≡◌};
ghost use Rattle.ec_scopes.specs.Entries.{place_view, type_view};
ghost use Rattle.ec_scopes.specs.Seen.{world_of, IsDone, Does};
ghost use Rattle.ec_ctypes.specs.views.Types.{ty_view};
ghost use Rattle.ec_typing_defs.specs.Worlds as world;
ghost use Rattle.ec_typing_defs.specs.Operands as rule;
ghost use Rattle.ec_rules.specs.Seen.{operand_view};

use crate::operand::Operand;
use ec_base::FaultKind;
use ec_ctypes::Ty;
use ec_scopes::{Checker, Place};

/// A fault, and nothing is known.
pub(crate) fn fault(checker: &mut Checker, at: Place, kind: FaultKind) -> Operand
    ensures { IsDone (world.chain (world.note (place_view at) kind) (λ _. world.pure rule.unknown)
        (world_of checker.old)) checker.old checker.new (operand_view result) }
{
    checker.note(at, kind);
    Operand::unknown()
}

/// A value of the type that the rules of C give, or F14.
pub(crate) fn typed(checker: &mut Checker, at: Place, ty: Option<Ty>) -> Operand
    ensures { IsDone (rule.typed (place_view at) (type_view ty) (world_of checker.old))
        checker.old checker.new (operand_view result) }
{
    if ty.is_none() {
        checker.note(at, FaultKind::F14);
    }
    Operand::computed(ty)
}

/// The type, where the test holds.
pub(crate) fn allowed(test: bool, ty: Ty) -> Option<Ty>
    ensures { type_view result ≡ rule.allowed test (ty_view ty) }
{
    if test { Some(ty) } else { None }
}
