//! Assignments (ISO/IEC 9899:1999, 6.5.2.4, 6.5.3.1, 6.5.16).
#![tactic(auto, using(ec_scopes::proofs::Steps::noting), unfolding(ec_typing_defs::specs::Worlds::chain, ec_typing_defs::specs::Worlds::pure, ec_typing_defs::specs::Worlds::ask, ec_typing_defs::specs::Worlds::note, ec_typing_defs::specs::Worlds::demand, ec_typing_defs::specs::Worlds::keep_within, ec_typing_defs::specs::Operands::assign_rule, ec_typing_defs::specs::Operands::compound_rule, ec_typing_defs::specs::Operands::bump_rule, ec_typing_defs::specs::Operands::typed))]

ghost use Rattle.std.specs.Prelude.{◌≡◌, ◌&&◌, not};
ghost use Rattle.ec_ctypes.specs.views.Types.{ty_view};
ghost use Rattle.ec_scopes.specs.Entries.{place_view, type_view};
ghost use Rattle.ec_scopes.specs.Seen.{world_of, IsDone, Does};
ghost use Rattle.ec_typing_defs.specs.Types as types;
ghost use Rattle.ec_typing_defs.specs.Worlds as world;
ghost use Rattle.ec_typing_defs.specs.Operands as rule;
ghost use Rattle.ec_rules.specs.Seen.{operand_view};

use crate::binary::to_complete;
use crate::faults::{allowed, typed};
use crate::operand::Operand;
use ec_base::FaultKind;
use ec_ctypes::{BinOp, Ty};
use ec_scopes::{Checker, Place};
use ec_type_rules::{is_array, is_assignable, is_compound, is_counter};

/// Whether the operand may be assigned to: it is a place, and no array.
fn may_be_set(is_place: bool, ty: &Ty) -> bool
    ensures { result ≡ (is_place && not (types.is_array (ty_view ty.now))) }
{
    is_place && !is_array(ty)
}

/// What an assignment to an object of this type gives: F14 unless it is allowed. Nothing more is said of an array.
fn assigned(checker: &mut Checker, at: Place, allows: bool, ty: Ty) -> Operand
    ensures { IsDone (rule.assigned (place_view at) allows (ty_view ty) (world_of checker.old))
        checker.old checker.new (operand_view result) }
{
    if is_array(&ty) {
        Operand::unknown()
    } else {
        typed(checker, at, allowed(allows, ty))
    }
}

/// `=`: F15 speaks of the place alone, F14 of the types alone (ISO/IEC 9899:1999, 6.5.16).
pub fn assign_rule(checker: &mut Checker, at: Place, a: Operand, b: Operand) -> Operand
    ensures { IsDone (rule.assign_rule (place_view at) (operand_view a) (operand_view b)
        (world_of checker.old)) checker.old checker.new (operand_view result) }
{
    let is_place = a.is_place;
    let is_null = b.is_null();
    match a.ty {
        None => Operand::unknown(),
        Some(s) => {
            checker.demand(at, FaultKind::F15, may_be_set(is_place, &s));
            match b.ty {
                None => Operand::unknown(),
                Some(t) => {
                    let allows = is_assignable(&s, &t, is_null);
                    assigned(checker, at, allows, s)
                }
            }
        }
    }
}

/// `+=` and its like (ISO/IEC 9899:1999, 6.5.16.2).
pub fn compound_rule(checker: &mut Checker, at: Place, op: BinOp, a: Operand, b: Operand) -> Operand
    ensures { IsDone (rule.compound_rule (place_view at) op (operand_view a) (operand_view b)
        (world_of checker.old)) checker.old checker.new (operand_view result) }
{
    let is_place = a.is_place;
    match a.ty {
        None => Operand::unknown(),
        Some(s) => {
            checker.demand(at, FaultKind::F15, may_be_set(is_place, &s));
            match b.ty {
                None => Operand::unknown(),
                Some(t) => {
                    let allows = allows_compound(checker, op, &s, &t);
                    assigned(checker, at, allows, s)
                }
            }
        }
    }
}

/// Whether a compound assignment may be made to an object of the first type.
fn allows_compound(checker: &Checker, op: BinOp, to: &Ty, from: &Ty) -> bool
    ensures { result ≡ types.is_compound (world.is_complete (world_of checker.now)) op
        (ty_view to.now) (ty_view from.now) }
{
    is_compound(op, to, to_complete(checker, to), from)
}

/// `++` and `--`, before or behind (ISO/IEC 9899:1999, 6.5.2.4, 6.5.3.1).
pub fn bump_rule(checker: &mut Checker, at: Place, o: Operand) -> Operand
    ensures { IsDone (rule.bump_rule (place_view at) (operand_view o) (world_of checker.old))
        checker.old checker.new (operand_view result) }
{
    let is_place = o.is_place;
    match o.ty {
        None => Operand::unknown(),
        Some(ty) => {
            checker.demand(at, FaultKind::F15, may_be_set(is_place, &ty));
            let allows = allows_count(checker, &ty);
            assigned(checker, at, allows, ty)
        }
    }
}

/// Whether `++` and `--` may be used on an object of this type.
fn allows_count(checker: &Checker, ty: &Ty) -> bool
    ensures { result ≡ types.is_counter (world.is_complete (world_of checker.now))
        (ty_view ty.now) }
{
    is_counter(ty, to_complete(checker, ty))
}
