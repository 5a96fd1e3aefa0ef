//! Expressions as values (ISO/IEC 9899:1999, 6.3.2.1).
#![tactic(auto, using(ec_scopes::proofs::Steps::noting), unfolding(ec_typing_defs::specs::Worlds::chain, ec_typing_defs::specs::Worlds::pure, ec_typing_defs::specs::Worlds::ask, ec_typing_defs::specs::Worlds::note, ec_typing_defs::specs::Worlds::demand, ec_typing_defs::specs::Worlds::keep_within, ec_typing_defs::specs::Operands::value_rule))]

ghost use Rattle.std.specs.Prelude.{◌≡◌};
ghost use Rattle.ec_scopes.specs.Entries.{place_view, type_view};
ghost use Rattle.ec_scopes.specs.Seen.{world_of, IsDone, Does};
ghost use Rattle.ec_typing_defs.specs.Operands as rule;
ghost use Rattle.ec_rules.specs.Seen.{operand_view};

use crate::faults::fault;
use crate::operand::Operand;
use ec_base::FaultKind;
use ec_scopes::{Checker, Place};
use ec_type_rules::{decayed, is_array, is_structure};

/// An expression as a value: an array is a pointer to its first element, and a struct has to be complete, or F14.
pub fn value_rule(checker: &mut Checker, at: Place, o: Operand) -> Operand
    ensures { IsDone (rule.value_rule (place_view at) (operand_view o) (world_of checker.old))
        checker.old checker.new (operand_view result) }
{
    let Operand {
        ty,
        is_target,
        constant,
        is_global,
        is_fixed,
        literal,
        ..
    } = o;
    match ty {
        None => Operand::unknown(),
        Some(ty) => {
            if is_structure(&ty) && !checker.is_complete(&ty) {
                return fault(checker, at, FaultKind::F14);
            }
            let is_fixed = (is_fixed && !is_target) || (is_global && is_array(&ty));
            Operand {
                ty: Some(decayed(ty)),
                is_place: false,
                is_target: false,
                constant,
                is_global: false,
                is_fixed,
                literal,
            }
        }
    }
}
