//! What operators take and give (ISO/IEC 9899:1999, 6.5.2.1, 6.5.2.4, 6.5.3.3, 6.5.5 to 6.5.14, 6.5.16.2).

ghost use Rattle.std.specs.Prelude.{◌≡◌, Bool};
ghost use Rattle.ec_ctypes.specs.declared.types.arith.Arith.{Arith};
ghost use Rattle.ec_ctypes.specs.trees.Types.{TyData, arithmetic};
ghost use Rattle.ec_ctypes.specs.Sizes.{IsNoInteger};
ghost use Rattle.ec_ctypes.specs.views.Types.{ty_view};
ghost use Rattle.ec_typing_defs.specs.Types as rule;
ghost use Rattle.ec_type_rules.specs.Views.{type_view, points_to, complete_target, IsPointer, Tells};

use crate::types::compatible::{are_alike, is_pointer, same_type};
use crate::types::forms::pointed_to;
use ec_ctypes::{Arith, BinOp, Ty, promote, usual};

/// A value as an operand.
#[derive(Debug, Drop)]
pub struct Value {
    pub ty: Ty,
    /// Whether it is the integer constant 0, which is a null pointer (ISO/IEC 9899:1999, 6.3.2.3, 3).
    pub is_null: bool,
    /// Whether it points to an object of a complete type.
    pub to_complete: bool,
}

/// Whether the operator is `&&` or `||`.
fn is_logical(op: BinOp) -> bool
    ensures { result ≡ rule.is_logical op }
{
    matches!(op, BinOp::And | BinOp::Or)
}

/// Whether the operator is `==` or `!=`.
fn is_equality(op: BinOp) -> bool
    ensures { result ≡ rule.is_equality op }
{
    matches!(op, BinOp::Eq | BinOp::Ne)
}

/// Whether the operator is `<`, `>`, `<=` or `>=`.
fn is_relation(op: BinOp) -> bool
    ensures { result ≡ rule.is_relation op }
{
    matches!(op, BinOp::Lt | BinOp::Gt | BinOp::Le | BinOp::Ge)
}

/// Whether the operator is `<<` or `>>`.
fn is_shift(op: BinOp) -> bool
    ensures { result ≡ rule.is_shift op }
{
    matches!(op, BinOp::Shl | BinOp::Shr)
}

/// Whether the operator is `+`.
fn is_addition(op: BinOp) -> bool
    ensures { result ≡ rule.is_addition op }
{
    matches!(op, BinOp::Add)
}

/// Whether the operator is `-`.
fn is_subtraction(op: BinOp) -> bool
    ensures { result ≡ rule.is_subtraction op }
{
    matches!(op, BinOp::Sub)
}

/// Whether the operator answers 0 or 1, which is an `int`.
fn is_truth(op: BinOp) -> bool
    ensures { result ≡ rule.is_truth op }
{
    is_logical(op) || is_equality(op) || is_relation(op)
}

/// The type of an operation on integers: `int` of a truth, the promoted left one of a shift, and else the common type
/// (ISO/IEC 9899:1999, 6.3.1.8, 6.5.7, 3).
fn integer_operation(op: BinOp, a: Arith, b: Arith) -> Arith
    ensures { result ≡ rule.integer_operation op a b }
{
    if is_truth(op) {
        Arith::Int
    } else if is_shift(op) {
        promote(a)
    } else {
        usual(a, b)
    }
}

/// The type of an operation on two pointers (ISO/IEC 9899:1999, 6.5.6, 3; 6.5.8, 2; 6.5.9, 2).
fn pointers_operation(op: BinOp, s: &Ty, t: &Ty, s_complete: bool) -> Option<Ty>
    ensures { (complete : TyData → Bool) → s_complete ≡ complete (ty_view s.now)
        → type_view result ≡ rule.pointers_operation complete op (ty_view s.now) (ty_view t.now) }
{
    if is_logical(op) {
        Some(Ty::Int)
    } else if is_equality(op) {
        only_if(are_alike(s, t), Ty::Int)
    } else if is_relation(op) {
        only_if(same_type(s, t), Ty::Int)
    } else {
        only_if(
            is_subtraction(op) && same_type(s, t) && s_complete,
            Ty::Long,
        )
    }
}

/// The type, if the test holds.
fn only_if(test: bool, ty: Ty) -> Option<Ty>
    ensures { type_view result ≡ rule.only_if test (ty_view ty) }
{
    if test { Some(ty) } else { None }
}

/// The type of an operation on a pointer and an integer. The pointer is moved over objects of a complete type alone
/// (ISO/IEC 9899:1999, 6.5.6, 2 and 3).
fn pointer_operation(op: BinOp, left: Value, right_null: bool) -> Option<Ty>
    requires { IsPointer left.ty }
    ensures { (complete : TyData → Bool) (b : Arith) → Tells complete left → type_view result
        ≡ rule.binary_type complete op (ty_view left.ty) left.is_null (arithmetic b) right_null }
{
    if is_logical(op) {
        Some(Ty::Int)
    } else if is_equality(op) {
        only_if(right_null, Ty::Int)
    } else if is_addition(op) || is_subtraction(op) {
        only_if(left.to_complete, left.ty)
    } else {
        None
    }
}

/// The type of an operation on an integer and a pointer (ISO/IEC 9899:1999, 6.5.6, 2).
fn reversed_operation(op: BinOp, left_null: bool, right: Value) -> Option<Ty>
    requires { IsPointer right.ty }
    ensures { (complete : TyData → Bool) (a : Arith) → Tells complete right → type_view result
        ≡ rule.binary_type complete op (arithmetic a) left_null (ty_view right.ty) right.is_null }
{
    if is_logical(op) {
        Some(Ty::Int)
    } else if is_equality(op) {
        only_if(left_null, Ty::Int)
    } else if is_addition(op) {
        only_if(right.to_complete, right.ty)
    } else {
        None
    }
}

/// The type of a binary operation on these values, or `None` where C gives it none (ISO/IEC 9899:1999, 6.5.5 to 6.5.14).
pub fn binary_type(op: BinOp, left: Value, right: Value) -> Option<Ty>
    ensures { (complete : TyData → Bool) → Tells complete left → Tells complete right
        → type_view result ≡ rule.binary_type complete op (ty_view left.ty) left.is_null
        (ty_view right.ty) right.is_null }
{
    match (left.ty.arith(), right.ty.arith()) {
        (Some(a), Some(b)) => Some(integer_operation(op, a, b).into()),
        (None, Some(_)) if is_pointer(&left.ty) => pointer_operation(op, left, right.is_null),
        (Some(_), None) if is_pointer(&right.ty) => reversed_operation(op, left.is_null, right),
        (None, None) => of_pointers(op, &left.ty, &right.ty, left.to_complete),
        _ => None,
    }
}

/// The type of an operation on values that are no integers: both are pointers, or there is none.
fn of_pointers(op: BinOp, left: &Ty, right: &Ty, to_complete: bool) -> Option<Ty>
    requires left { IsNoInteger left.now }
    requires right { IsNoInteger right.now }
    ensures { (complete : TyData → Bool) (m n : Bool)
        → to_complete ≡ points_to complete (ty_view left.now) → type_view result
        ≡ rule.binary_type complete op (ty_view left.now) m (ty_view right.now) n }
{
    match (left, right) {
        (Ty::Ptr(s), Ty::Ptr(t)) => pointers_operation(op, s.get(), t.get(), to_complete),
        _ => None,
    }
}

/// Whether a compound assignment may be made to an object of the first type (ISO/IEC 9899:1999, 6.5.16.2, 1 and 2).
/// `to_complete` says whether the object points to a complete type.
pub fn is_compound(op: BinOp, to: &Ty, to_complete: bool, from: &Ty) -> bool
    ensures { (complete : TyData → Bool) → to_complete ≡ points_to complete (ty_view to.now)
        → result ≡ rule.is_compound complete op (ty_view to.now) (ty_view from.now) }
{
    match (to.arith(), from.arith()) {
        (Some(_), Some(_)) => true,
        (None, Some(_)) => (is_addition(op) || is_subtraction(op)) && to_complete,
        _ => false,
    }
}

/// Whether `++` and `--` may be used on an object of this type (ISO/IEC 9899:1999, 6.5.2.4, 1; 6.5.3.1, 1).
/// `to_complete` says whether the object points to a complete type.
pub fn is_counter(ty: &Ty, to_complete: bool) -> bool
    ensures { (complete : TyData → Bool) → to_complete ≡ points_to complete (ty_view ty.now)
        → result ≡ rule.is_counter complete (ty_view ty.now) }
{
    match ty.arith() {
        Some(_) => true,
        None => to_complete,
    }
}

/// The type of `+`, `-` and `~` of a value of this type, or `None` where it is no integer (ISO/IEC 9899:1999, 6.5.3.3,
/// 1 to 4).
pub fn sign_type(ty: &Ty) -> Option<Ty>
    ensures { type_view result ≡ rule.sign_type (ty_view ty.now) }
{
    match ty.arith() {
        Some(a) => Some(promote(a).into()),
        None => None,
    }
}

/// The type of the element where a pointer and an integer stand at `[` and `]`, in either order, or `None` where C gives
/// it none (ISO/IEC 9899:1999, 6.5.2.1, 1).
pub fn element_type(left: Value, right: Value) -> Option<Ty>
    ensures { (complete : TyData → Bool) → Tells complete left → Tells complete right
        → type_view result ≡ rule.element_type complete (ty_view left.ty) (ty_view right.ty) }
{
    match (left.ty.arith(), right.ty.arith()) {
        (None, Some(_)) => complete_target(left),
        (Some(_), None) => complete_target(right),
        _ => None,
    }
}

/// What the value points to, if its type is complete.
fn complete_target(value: Value) -> Option<Ty>
    ensures { (complete : TyData → Bool) → Tells complete value
        → type_view result ≡ complete_target complete (ty_view value.ty) }
{
    if value.to_complete {
        pointed_to(value.ty)
    } else {
        None
    }
}
