//! Names (ISO/IEC 9899:1999, 6.5.1).
#![tactic(auto, using(ec_scopes::proofs::Steps::noting), unfolding(ec_typing_defs::specs::Worlds::chain, ec_typing_defs::specs::Worlds::pure, ec_typing_defs::specs::Worlds::ask, ec_typing_defs::specs::Worlds::note, ec_typing_defs::specs::Worlds::demand, ec_typing_defs::specs::Worlds::keep_within, ec_typing_defs::specs::Operands::named_by, ec_typing_defs::specs::Operands::name_rule))]

ghost use Rattle.std.specs.Prelude.{◌≡◌};
ghost use Rattle.ec_scopes.specs.Entries.{place_view, type_view};
ghost use Rattle.ec_scopes.specs.Seen.{world_of, IsDone, Does};
ghost use Rattle.ec_typing_defs.specs.Operands as rule;
ghost use Rattle.ec_rules.specs.Seen.{operand_view};

use crate::declared::copy_type;
use crate::faults::fault;
use crate::operand::Operand;
use ec_base::{FaultKind, OutOfMemory};
use ec_ctypes::Ty;
use ec_known::is_known_function;
use ec_scopes::{Checker, Entry, Place};

/// A name: an object is a place, and a function is no value here. F11 of a name that is not in scope.
pub fn name_rule(checker: &mut Checker, at: Place, name: &[u8]) -> Result<Operand, OutOfMemory>
    ensures { Does operand_view (rule.name_rule (place_view at) name.now (world_of checker.old))
        checker.old result checker.new }
{
    match checker.look_up(name) {
        Some(Entry::Object { is_global, ty, .. }) => {
            Ok(Operand::object(*is_global, copy_type(checker.alloc(), ty)?))
        }
        Some(Entry::Function { .. }) => Ok(fault(checker, at, FaultKind::F14)),
        None => predefined(checker, at, name),
    }
}

/// A name that is known without a declaration.
fn predefined(checker: &mut Checker, at: Place, name: &[u8]) -> Result<Operand, OutOfMemory>
    ensures { Does operand_view (rule.predefined (place_view at) name.now (world_of checker.old))
        checker.old result checker.new }
{
    if name == b"sqlca".as_slice() {
        Ok(Operand::object(true, Some(Ty::Struct(1))))
    } else if name == b"NULL".as_slice() {
        Operand::null_pointer(checker.alloc())
    } else if name == b"true".as_slice() {
        Ok(Operand::integer(Ty::Int, 1))
    } else if name == b"false".as_slice() {
        Ok(Operand::integer(Ty::Int, 0))
    } else if is_known_function(name) {
        Ok(fault(checker, at, FaultKind::F14))
    } else {
        Ok(fault(checker, at, FaultKind::F11))
    }
}
