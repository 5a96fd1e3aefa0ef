//! Binary operators and elements (ISO/IEC 9899:1999, 6.5.2.1, 6.5.5 to 6.5.14).
#![tactic(auto, using(ec_scopes::proofs::Steps::noting), unfolding(ec_typing_defs::specs::Worlds::chain, ec_typing_defs::specs::Worlds::pure, ec_typing_defs::specs::Worlds::ask, ec_typing_defs::specs::Worlds::note, ec_typing_defs::specs::Worlds::demand, ec_typing_defs::specs::Worlds::keep_within, ec_typing_defs::specs::Operands::binary_rule, ec_typing_defs::specs::Operands::index_rule))]

ghost use Rattle.std.specs.Prelude.{◌≡◌};
ghost use Rattle.ec_scopes.specs.Entries.{place_view, type_view};
ghost use Rattle.ec_scopes.specs.Seen.{world_of, IsDone, Does};
ghost use Rattle.ec_ctypes.specs.views.Types.{ty_view};
ghost use Rattle.ec_type_rules.specs.Views.{constant_view, points_to};
ghost use Rattle.ec_typing_defs.specs.Types as types;
ghost use Rattle.ec_typing_defs.specs.Worlds as world;
ghost use Rattle.ec_typing_defs.specs.Operands as rule;
ghost use Rattle.ec_rules.specs.Seen.{operand_view};

use crate::faults::{fault, typed};
use crate::operand::Operand;
use ec_base::FaultKind;
use ec_ctypes::{BinOp, Ty};
use ec_scopes::{Checker, Place};
use ec_type_rules::{Constant, Value, binary_constant, binary_type, element_type};

/// A binary operator (ISO/IEC 9899:1999, 6.5.5 to 6.5.14): F14 of types that it doesn't take.
pub fn binary_rule(checker: &mut Checker, at: Place, op: BinOp, a: Operand, b: Operand) -> Operand
    ensures { IsDone (rule.binary_rule (place_view at) op (operand_view a) (operand_view b)
        (world_of checker.old)) checker.old checker.new (operand_view result) }
{
    let left_null = a.is_null();
    let right_null = b.is_null();
    match (a.ty, b.ty) {
        (Some(s), Some(t)) => {
            let constant = operation_constant(op, &s, &t, a.constant, b.constant);
            let ty = operation_type(checker, op, s, left_null, t, right_null);
            let mut answer = typed(checker, at, ty);
            answer.constant = constant;
            answer
        }
        _ => Operand::unknown(),
    }
}

/// The type of an operation on values of these types.
fn operation_type(
    checker: &Checker,
    op: BinOp,
    left: Ty,
    left_null: bool,
    right: Ty,
    right_null: bool,
) -> Option<Ty>
    ensures { type_view result ≡ types.binary_type (world.is_complete (world_of checker.now)) op
        (ty_view left) left_null (ty_view right) right_null }
{
    let left_complete = to_complete(checker, &left);
    let right_complete = to_complete(checker, &right);
    binary_type(
        op,
        Value {
            ty: left,
            is_null: left_null,
            to_complete: left_complete,
        },
        Value {
            ty: right,
            is_null: right_null,
            to_complete: right_complete,
        },
    )
}

/// Whether this points to an object of a complete type.
pub(crate) fn to_complete(checker: &Checker, ty: &Ty) -> bool
    ensures { result ≡ points_to (world.is_complete (world_of checker.now)) (ty_view ty.now) }
{
    match ty {
        Ty::Ptr(to) => checker.is_complete(to.get()),
        _ => false,
    }
}

/// What an operation is as a constant.
fn operation_constant(op: BinOp, s: &Ty, t: &Ty, x: Constant, y: Constant) -> Constant
    ensures { constant_view result ≡ rule.operation_constant op (ty_view s.now) (ty_view t.now)
        (constant_view x) (constant_view y) }
{
    match (s.arith(), t.arith()) {
        (Some(a), Some(b)) => binary_constant(op, a, b, x, y),
        (Some(_), None) => Constant::Variable,
        (None, Some(_)) => Constant::Variable,
        (None, None) => Constant::Variable,
    }
}

/// `[` and `]` (ISO/IEC 9899:1999, 6.5.2.1): F14 of types that they don't take.
pub fn index_rule(checker: &mut Checker, at: Place, a: Operand, b: Operand) -> Operand
    ensures { IsDone (rule.index_rule (place_view at) (operand_view a) (operand_view b)
        (world_of checker.old)) checker.old checker.new (operand_view result) }
{
    match (a.ty, b.ty) {
        (Some(s), Some(t)) => match element_of(checker, s, t) {
            Some(of) => Operand::object(false, Some(of)),
            None => fault(checker, at, FaultKind::F14),
        },
        _ => Operand::unknown(),
    }
}

/// The type of an element, where a pointer and an integer stand at `[` and `]`, in either order.
fn element_of(checker: &Checker, left: Ty, right: Ty) -> Option<Ty>
    ensures { type_view result ≡ types.element_type (world.is_complete (world_of checker.now))
        (ty_view left) (ty_view right) }
{
    let left_complete = to_complete(checker, &left);
    let right_complete = to_complete(checker, &right);
    element_type(
        Value {
            ty: left,
            is_null: false,
            to_complete: left_complete,
        },
        Value {
            ty: right,
            is_null: false,
            to_complete: right_complete,
        },
    )
}
