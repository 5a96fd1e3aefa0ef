//! Assignments (ISO/IEC 9899:1999, 6.5.2.4, 6.5.3.1 and 6.5.16).

ghost use Rattle.std.specs.Prelude.{◌≡◌};
ghost use Rattle.ec_ctypes.specs.views.Types.{ty_view};
ghost use Rattle.ec_memory_defs.specs.Memory.{pointer_type, scalar_type};
ghost use Rattle.ec_meaning_defs.specs.resolved.Resolved.{Exp};
ghost use Rattle.ec_resolving_defs.specs.Conversions as form;
ghost use Rattle.ec_typing_defs.specs.Worlds.{World};
ghost use Rattle.ec_resolve_values.specs.conversions.Forms.{joined_by};
ghost use Rattle.ec_resolve_values.specs.conversions.Scalars.{bumped_of, compound_of, struct_size, updated_integer};

use crate::conversions::conversion::{Conversion, integer_kind, type_conversion, widening};
use crate::conversions::integers::{left_type, operation_in, right_type};
use crate::conversions::joined::Joined;
use crate::conversions::pointers::pointer_step;
use crate::conversions::scalar::Scalar;
use ec_code::{Binary, Update};
use ec_ctypes::{Arith, BinOp, Ty};
use ec_memory_defs::Kind;

/// A value of the second type is stored at a place of the first, or `None` where the place has no scalar type and is no
/// struct. A struct, whose size is given, is copied.
pub fn assignment(to: &Ty, size: u64, from: &Ty) -> Option<Joined>
    ensures { (w : World) (x y : Exp) → size ≡ struct_size w (ty_view to.now)
        → joined_by result x y ≡ form.assigned w (ty_view to.now) x (ty_view from.now) y }
{
    match to {
        Ty::Struct(_) => Some(Joined::plain(Binary::Copy(size))),
        _ => stored(to, from),
    }
}

/// A value of the second type is stored at a place of the first, which is no struct.
fn stored(to: &Ty, from: &Ty) -> Option<Joined>
    ensures { (x y : Exp) → joined_by result x y ≡ form.stored_scalar
        (scalar_type (ty_view to.now)) x (form.as_type (ty_view from.now) (ty_view to.now) y) }
{
    match Kind::of(to) {
        Some(kind) => Some(Joined {
            left: Conversion::Kept,
            right: type_conversion(from, to),
            step: Binary::Store(kind),
        }),
        None => None,
    }
}

/// `op=`, `++` and `--` of a value by another, or `None` where there is no such operation. `gives_old` says whether the old
/// value is the answer.
pub fn compound(
    op: BinOp,
    gives_old: bool,
    to: Option<Scalar>,
    by: Option<Scalar>,
) -> Option<Joined>
    ensures { (x y : Exp) → joined_by result x y ≡ compound_of op gives_old to x by y }
{
    match (to, by) {
        (Some(Scalar::Integer(a)), Some(Scalar::Integer(b))) => updated(op, gives_old, a, b),
        (Some(Scalar::Pointer(size)), Some(Scalar::Integer(_))) => moved(op, gives_old, size),
        (Some(_), Some(Scalar::Pointer(_))) => None,
        (Some(_), None) => None,
        (None, Some(_)) => None,
        (None, None) => None,
    }
}

/// `op=` of an integer by another.
fn updated(op: BinOp, gives_old: bool, a: Arith, b: Arith) -> Option<Joined>
    ensures { (x y : Exp) → joined_by result x y ≡ updated_integer op gives_old a x b y }
{
    let to = left_type(op, a, b);
    match operation_in(op, to) {
        Some(operation) => Some(Joined {
            left: Conversion::Kept,
            right: widening(b, right_type(op, a, b)),
            step: Binary::Update(Update {
                kind: integer_kind(a),
                widened: integer_kind(to),
                operation,
                gives_old,
            }),
        }),
        None => None,
    }
}

/// `+=` and `-=` of a pointer to objects of this size.
fn moved(op: BinOp, gives_old: bool, size: u64) -> Option<Joined>
    ensures { (x y : Exp) → joined_by result x y ≡ form.updated pointer_type pointer_type
        (form.pointer_step op size) gives_old x y }
{
    match pointer_step(op, size) {
        Some(operation) => Some(Joined::plain(Binary::Update(Update {
            kind: Kind::Ptr,
            widened: Kind::Ptr,
            operation,
            gives_old,
        }))),
        None => None,
    }
}

/// `++` and `--`, which add and subtract an `int` 1: before their operand they give the new value, behind it the old one.
pub fn bump(before: bool, up: bool, of: Option<Scalar>) -> Option<Joined>
    ensures { (x y : Exp) → joined_by result x y
        ≡ bumped_of before up of x y }
{
    let op = if up { BinOp::Add } else { BinOp::Sub };
    compound(op, !before, of, Some(Scalar::Integer(Arith::Int)))
}
