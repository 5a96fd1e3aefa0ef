//! Operators over values that are known as far as operators have to know them (ISO/IEC 9899:1999, 6.5.2.1, 6.5.3.3, 6.5.5
//! to 6.5.14).

ghost use Rattle.std.specs.Prelude.{◌≡◌};
ghost use Rattle.ec_meaning_defs.specs.resolved.Resolved.{Exp};
ghost use Rattle.ec_resolve_values.specs.conversions.Forms.{joined_by, prefixed_by};
ghost use Rattle.ec_resolve_values.specs.conversions.Scalars.{binary_of, element_of, unary_of};

use crate::conversions::integers::integers;
use crate::conversions::joined::Joined;
use crate::conversions::pointers::{of_pointer, of_pointers, of_reversed};
use crate::conversions::prefix::{Prefix, sign};
use crate::conversions::scalar::Scalar;
use ec_code::Binary;
use ec_ctypes::{BinOp, UnOp};
use ec_values::Operation;

/// A binary operator over two values, or `None` where it takes no such values.
pub fn binary(op: BinOp, left: Option<Scalar>, right: Option<Scalar>) -> Option<Joined>
    ensures { (x y : Exp) → joined_by result x y ≡ binary_of op left x right y }
{
    match (left, right) {
        (Some(Scalar::Integer(a)), Some(Scalar::Integer(b))) => integers(op, a, b),
        (Some(Scalar::Pointer(size)), Some(Scalar::Pointer(_))) => of_pointers(op, size),
        (Some(Scalar::Pointer(size)), Some(Scalar::Integer(b))) => of_pointer(op, size, b),
        (Some(Scalar::Integer(a)), Some(Scalar::Pointer(size))) => of_reversed(op, size, a),
        (Some(_), None) => None,
        (None, Some(_)) => None,
        (None, None) => None,
    }
}

/// The address of an element, where a pointer and an integer stand at `[` and `]`, in either order; `None` of other values.
pub fn element(left: Option<Scalar>, right: Option<Scalar>) -> Option<Joined>
    ensures { (x y : Exp) → joined_by result x y ≡ element_of left x right y }
{
    match (left, right) {
        (Some(Scalar::Pointer(size)), Some(Scalar::Integer(_))) => {
            Some(Joined::plain(Binary::Operate(Operation::PointerPlus(size))))
        }
        (Some(Scalar::Integer(_)), Some(Scalar::Pointer(size))) => {
            Some(Joined::plain(Binary::Operate(Operation::PlusPointer(size))))
        }
        (Some(Scalar::Integer(_)), Some(Scalar::Integer(_))) => None,
        (Some(Scalar::Pointer(_)), Some(Scalar::Pointer(_))) => None,
        (Some(_), None) => None,
        (None, Some(_)) => None,
        (None, None) => None,
    }
}

/// `+`, `-`, `~` or `!` of a value, or `None` where it takes no such value.
pub fn unary(op: UnOp, of: Option<Scalar>) -> Option<Prefix>
    ensures { (e : Exp) → prefixed_by result e ≡ unary_of op of e }
{
    match of {
        Some(Scalar::Integer(a)) => sign(op, a),
        Some(Scalar::Pointer(_)) => match op {
            UnOp::Not => Some(Prefix::Inverted),
            _ => None,
        },
        None => None,
    }
}
