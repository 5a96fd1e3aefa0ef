//! Members (ISO/IEC 9899:1999, 6.5.2.3).
#![tactic(auto, using(ec_scopes::proofs::Steps::noting), unfolding(ec_typing_defs::specs::Worlds::chain, ec_typing_defs::specs::Worlds::pure, ec_typing_defs::specs::Worlds::ask, ec_typing_defs::specs::Worlds::note, ec_typing_defs::specs::Worlds::demand, ec_typing_defs::specs::Worlds::keep_within, ec_typing_defs::specs::Operands::member_rule, ec_typing_defs::specs::Operands::arrow_rule))]

ghost use Rattle.std.specs.Prelude.{◌≡◌, Some, option_map};
ghost use Rattle.ec_ctypes.specs.views.Types.{ty_view};
ghost use Rattle.ec_scopes.specs.Entries.{place_view, type_view};
ghost use Rattle.ec_scopes.specs.Seen.{world_of, IsDone, Does};
ghost use Rattle.std.specs.Option.{option_copied};
ghost use Rattle.ec_typing_defs.specs.Worlds as world;
ghost use Rattle.ec_typing_defs.specs.Operands as rule;
ghost use Rattle.ec_rules.specs.Seen.{operand_view};

use crate::declared::copy_type;
use crate::faults::fault;
use crate::operand::Operand;
use ec_base::{FaultKind, OutOfMemory};
use ec_ctypes::Ty;
use ec_scopes::{Checker, Members, Place};
use ec_type_rules::Constant;

/// `.` of a struct: F14 of another type, F11 where there is no such member.
pub fn member_rule(
    checker: &mut Checker,
    at: Place,
    o: Operand,
    name: &[u8],
) -> Result<Operand, OutOfMemory>
    ensures { Does operand_view (rule.member_rule (place_view at) (operand_view o) name.now
        (world_of checker.old)) checker.old result checker.new }
{
    let is_place = o.is_place;
    match o.ty {
        None => Ok(Operand::unknown()),
        Some(Ty::Struct(number)) => member_in(checker, at, is_place, name, number),
        Some(_) => Ok(fault(checker, at, FaultKind::F14)),
    }
}

/// `->` of a pointer to a struct: F14 of another type, F11 where there is no such member.
pub fn arrow_rule(
    checker: &mut Checker,
    at: Place,
    o: Operand,
    name: &[u8],
) -> Result<Operand, OutOfMemory>
    ensures { Does operand_view (rule.arrow_rule (place_view at) (operand_view o) name.now
        (world_of checker.old)) checker.old result checker.new }
{
    match o.ty {
        None => Ok(Operand::unknown()),
        Some(Ty::Ptr(to)) => match to.into_inner() {
            Ty::Struct(number) => member_in(checker, at, true, name, number),
            _ => Ok(fault(checker, at, FaultKind::F14)),
        },
        Some(_) => Ok(fault(checker, at, FaultKind::F14)),
    }
}

/// The member of a struct of this number. The member of a place is one.
fn member_in(
    checker: &mut Checker,
    at: Place,
    of_place: bool,
    name: &[u8],
    number: u32,
) -> Result<Operand, OutOfMemory>
    ensures { Does operand_view (rule.member_in (place_view at) of_place name.now (Some number)
        (world_of checker.old)) checker.old result checker.new }
{
    match member_type(checker, number, name) {
        Some(ty) => Ok(Operand {
            ty: copy_type(checker.alloc(), ty)?,
            is_place: of_place,
            is_target: false,
            constant: Constant::Variable,
            is_global: false,
            is_fixed: false,
            literal: None,
        }),
        None => Ok(fault(checker, at, FaultKind::F11)),
    }
}

/// The type of the member, if the struct is complete and has it.
fn member_type<'a>(checker: &'a Checker, number: u32, name: &[u8]) -> Option<&'a Option<Ty>>
    ensures { option_map type_view (option_copied result)
        ≡ rule.member_type name.now (world.members_of number (world_of checker.now)) }
{
    match checker.members_of(number) {
        Some(Members::Listed(members)) => {
            let table = members.get();
            table.get(name)
        }
        _ => None,
    }
}
