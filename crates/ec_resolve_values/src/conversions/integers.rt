//! Operators over two integers (ISO/IEC 9899:1999, 6.3.1.8, 6.5.5 to 6.5.14).

ghost use Rattle.std.specs.Prelude.{◌≡◌, option_map};
ghost use Rattle.ec_meaning_defs.specs.resolved.Resolved.{Exp};
ghost use Rattle.ec_resolving_defs.specs.Conversions as form;
ghost use Rattle.ec_values.specs.Operations.{comparison_view, operation_view};
ghost use Rattle.ec_typing_defs.specs.Types as types;
ghost use Rattle.ec_resolve_values.specs.conversions.Forms.{joined_by, operated_integers};

use crate::conversions::conversion::widening;
use crate::conversions::joined::Joined;
use ec_code::Binary;
use ec_ctypes::{Arith, BinOp, promote, usual};
use ec_values::{Comparison, IntegerOperator, Operation};

/// The comparison that an operator is (ISO/IEC 9899:1999, 6.5.8 and 6.5.9).
pub(crate) fn comparison_of(op: BinOp) -> Option<Comparison>
    ensures { option_map comparison_view result ≡ form.comparison_of op }
{
    match op {
        BinOp::Eq => Some(Comparison::Equal),
        BinOp::Ne => Some(Comparison::Unequal),
        BinOp::Lt => Some(Comparison::Less),
        BinOp::Gt => Some(Comparison::Greater),
        BinOp::Le => Some(Comparison::AtMost),
        BinOp::Ge => Some(Comparison::AtLeast),
        BinOp::Or => None,
        BinOp::And => None,
        BinOp::BitOr => None,
        BinOp::BitXor => None,
        BinOp::BitAnd => None,
        BinOp::Shl => None,
        BinOp::Shr => None,
        BinOp::Add => None,
        BinOp::Sub => None,
        BinOp::Mul => None,
        BinOp::Div => None,
        BinOp::Rem => None,
    }
}

/// The operation of an operator on integers, of which the left one has this type once it is converted.
pub(crate) fn operation_in(op: BinOp, ty: Arith) -> Option<Operation>
    ensures { option_map operation_view result ≡ form.operation_in op ty }
{
    match op {
        BinOp::Add => Some(Operation::Integers(ty, IntegerOperator::Plus)),
        BinOp::Sub => Some(Operation::Integers(ty, IntegerOperator::Minus)),
        BinOp::Mul => Some(Operation::Integers(ty, IntegerOperator::Times)),
        BinOp::Div => Some(Operation::Integers(ty, IntegerOperator::Divided)),
        BinOp::Rem => Some(Operation::Integers(ty, IntegerOperator::Remainder)),
        BinOp::BitAnd => Some(Operation::Integers(ty, IntegerOperator::BitsAnd)),
        BinOp::BitOr => Some(Operation::Integers(ty, IntegerOperator::BitsOr)),
        BinOp::BitXor => Some(Operation::Integers(ty, IntegerOperator::BitsXor)),
        BinOp::Shl => Some(Operation::ShiftLeft(ty)),
        BinOp::Shr => Some(Operation::ShiftRight(ty)),
        BinOp::Eq => Some(Operation::Compare(Comparison::Equal)),
        BinOp::Ne => Some(Operation::Compare(Comparison::Unequal)),
        BinOp::Lt => Some(Operation::Compare(Comparison::Less)),
        BinOp::Gt => Some(Operation::Compare(Comparison::Greater)),
        BinOp::Le => Some(Operation::Compare(Comparison::AtMost)),
        BinOp::Ge => Some(Operation::Compare(Comparison::AtLeast)),
        BinOp::And => None,
        BinOp::Or => None,
    }
}

/// Whether the operator is `<<` or `>>`.
fn is_shift(op: BinOp) -> bool
    ensures { result ≡ types.is_shift op }
{
    matches!(op, BinOp::Shl | BinOp::Shr)
}

/// The type to which the left operand is converted: the common type, but a shift promotes it alone (ISO/IEC 9899:1999,
/// 6.5.7).
pub(crate) fn left_type(op: BinOp, a: Arith, b: Arith) -> Arith
    ensures { result ≡ form.left_type op a b }
{
    if is_shift(op) {
        promote(a)
    } else {
        usual(a, b)
    }
}

/// The type to which the right operand is converted.
pub(crate) fn right_type(op: BinOp, a: Arith, b: Arith) -> Arith
    ensures { result ≡ form.right_type op a b }
{
    if is_shift(op) {
        promote(b)
    } else {
        usual(a, b)
    }
}

/// A binary operator over integers of these types.
pub(crate) fn integers(op: BinOp, a: Arith, b: Arith) -> Option<Joined>
    ensures { (x y : Exp) → joined_by result x y ≡ form.integers_exp op a x b y }
{
    match op {
        BinOp::And => Some(Joined::plain(Binary::Both)),
        BinOp::Or => Some(Joined::plain(Binary::Either)),
        _ => operated(op, a, b),
    }
}

/// The operation of an operator on both operands, converted.
fn operated(op: BinOp, a: Arith, b: Arith) -> Option<Joined>
    ensures { (x y : Exp) → joined_by result x y ≡ operated_integers op a x b y }
{
    let to = left_type(op, a, b);
    match operation_in(op, to) {
        Some(operation) => Some(Joined {
            left: widening(a, to),
            right: widening(b, right_type(op, a, b)),
            step: Binary::Operate(operation),
        }),
        None => None,
    }
}
