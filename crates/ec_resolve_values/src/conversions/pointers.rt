//! Operators over pointers (ISO/IEC 9899:1999, 6.5.6, 6.5.8, 6.5.9, 6.5.13 and 6.5.14).

ghost use Rattle.std.specs.Prelude.{◌≡◌, option_map};
ghost use Rattle.ec_meaning_defs.specs.resolved.Resolved.{Exp};
ghost use Rattle.ec_resolving_defs.specs.Conversions as form;
ghost use Rattle.ec_values.specs.Operations.{operation_view};
ghost use Rattle.ec_resolve_values.specs.conversions.Forms.{converted, joined_by};

use crate::conversions::conversion::{Conversion, to_pointer};
use crate::conversions::integers::comparison_of;
use crate::conversions::joined::Joined;
use ec_code::Binary;
use ec_ctypes::{Arith, BinOp};
use ec_values::Operation;

/// A comparison of two values that are converted so.
fn compared(op: BinOp, left: Conversion, right: Conversion) -> Option<Joined>
    ensures { (x y : Exp) → joined_by result x y
        ≡ form.compared (form.comparison_of op) (converted left x) (converted right y) }
{
    match comparison_of(op) {
        Some(comparison) => Some(Joined {
            left,
            right,
            step: Binary::Operate(Operation::Compare(comparison)),
        }),
        None => None,
    }
}

/// Over two pointers, of which the first leads to objects of this size.
pub(crate) fn of_pointers(op: BinOp, size: u64) -> Option<Joined>
    ensures { (x y : Exp) → joined_by result x y ≡ form.pointers_exp op size x y }
{
    match op {
        BinOp::And => Some(Joined::plain(Binary::Both)),
        BinOp::Or => Some(Joined::plain(Binary::Either)),
        BinOp::Sub => Some(Joined::plain(Binary::Operate(Operation::PointersApart(size)))),
        _ => compared(op, Conversion::Kept, Conversion::Kept),
    }
}

/// Over a pointer to objects of this size and an integer, which moves it or is a null pointer.
pub(crate) fn of_pointer(op: BinOp, size: u64, right: Arith) -> Option<Joined>
    ensures { (x y : Exp) → joined_by result x y ≡ form.pointer_exp op size x right y }
{
    match op {
        BinOp::And => Some(Joined::plain(Binary::Both)),
        BinOp::Or => Some(Joined::plain(Binary::Either)),
        BinOp::Add => Some(Joined::plain(Binary::Operate(Operation::PointerPlus(size)))),
        BinOp::Sub => Some(Joined::plain(Binary::Operate(Operation::PointerMinus(size)))),
        _ => compared(op, Conversion::Kept, to_pointer(right)),
    }
}

/// Over an integer, which moves it or is a null pointer, and a pointer to objects of this size.
pub(crate) fn of_reversed(op: BinOp, size: u64, left: Arith) -> Option<Joined>
    ensures { (x y : Exp) → joined_by result x y ≡ form.reversed_exp op size left x y }
{
    match op {
        BinOp::And => Some(Joined::plain(Binary::Both)),
        BinOp::Or => Some(Joined::plain(Binary::Either)),
        BinOp::Add => Some(Joined::plain(Binary::Operate(Operation::PlusPointer(size)))),
        _ => compared(op, to_pointer(left), Conversion::Kept),
    }
}

/// What `+=` or `-=` does to a pointer to objects of this size.
pub(crate) fn pointer_step(op: BinOp, size: u64) -> Option<Operation>
    ensures { option_map operation_view result ≡ form.pointer_step op size }
{
    match op {
        BinOp::Add => Some(Operation::PointerPlus(size)),
        BinOp::Sub => Some(Operation::PointerMinus(size)),
        _ => None,
    }
}
