//! What statements ask of an operand (ISO/IEC 9899:1999, 6.8).
#![tactic(auto, using(ec_scopes::proofs::Steps::noting), unfolding(ec_typing_defs::specs::Worlds::chain, ec_typing_defs::specs::Worlds::pure, ec_typing_defs::specs::Worlds::ask, ec_typing_defs::specs::Worlds::note, ec_typing_defs::specs::Worlds::demand, ec_typing_defs::specs::Worlds::keep_within, ec_typing_defs::specs::Statements::condition_rule, ec_typing_defs::specs::Statements::return_rule, ec_typing_defs::specs::Statements::return_nothing))]

ghost use Rattle.std.specs.Prelude.{◌≡◌};
ghost use Rattle.ec_ctypes.specs.views.Types.{ty_view};
ghost use Rattle.ec_scopes.specs.Entries.{place_view, type_view};
ghost use Rattle.ec_scopes.specs.Seen.{world_of, IsDone};
ghost use Rattle.ec_typing_defs.specs.Statements as rule;
ghost use Rattle.ec_rules.specs.Seen.{operand_view};

use crate::operand::Operand;
use ec_base::FaultKind;
use ec_ctypes::Ty;
use ec_scopes::{Checker, Place};
use ec_type_rules::{is_assignable, is_scalar, is_void};

/// A condition is a scalar, or F14 (ISO/IEC 9899:1999, 6.8.4.1, 1; 6.8.5, 2).
pub fn condition_rule(checker: &mut Checker, at: Place, o: &Operand)
    ensures { IsDone (rule.condition_rule (place_view at) (operand_view o.now)
        (world_of checker.old)) checker.old checker.new tt }
{
    if let Some(ty) = &o.ty {
        checker.demand(at, FaultKind::F14, is_scalar(ty));
    }
}

/// `return` with a value, which the result may take as by assignment, or F14 (ISO/IEC 9899:1999, 6.8.6.4, 1 and 3).
pub fn return_rule(checker: &mut Checker, at: Place, to: &Option<Ty>, o: &Operand)
    ensures { IsDone (rule.return_rule (place_view at) (type_view to.now) (operand_view o.now)
        (world_of checker.old)) checker.old checker.new tt }
{
    if let Some(expected) = to {
        if let Some(from) = &o.ty {
            let returns = !is_void(expected) && is_assignable(expected, from, o.is_null());
            checker.demand(at, FaultKind::F14, returns);
        }
    }
}

/// `return` alone stands in a function without a result, or F14 (ISO/IEC 9899:1999, 6.8.6.4, 1).
pub fn return_nothing(checker: &mut Checker, at: Place, to: &Option<Ty>)
    ensures { IsDone (rule.return_nothing (place_view at) (type_view to.now)
        (world_of checker.old)) checker.old checker.new tt }
{
    if let Some(ty) = to {
        checker.demand(at, FaultKind::F14, is_void(ty));
    }
}
