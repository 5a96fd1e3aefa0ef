//! Which types are compatible, and which values go to which objects (ISO/IEC 9899:1999, 6.2.7, 6.5.4, 6.5.16.1).

ghost use Rattle.std.specs.Prelude.{◌≡◌};
ghost use Rattle.ec_ctypes.specs.views.Types.{ty_view};
ghost use Rattle.ec_typing_defs.specs.Types as rule;
ghost use Rattle.ec_type_rules.specs.Views.{are_alike, is_pointer};

use crate::types::forms::{is_scalar, is_void};
use ec_ctypes::{Arith, Ty};

/// Whether two integer types are compatible: they have one rank, and both are signed or neither is. So `long` and
/// `long long` are not (ISO/IEC 9899:1999, 6.2.7, 1).
pub fn same_arith(a: Arith, b: Arith) -> bool
    ensures { result ≡ rule.same_arith a b }
{
    a.rank() == b.rank()
        && if a.is_signed() {
            b.is_signed()
        } else {
            !b.is_signed()
        }
}

/// Whether two types are compatible: they are one type, array lengths included (ISO/IEC 9899:1999, 6.2.7, 1).
pub fn same_type(a: &Ty, b: &Ty) -> bool
    ensures { result ≡ rule.same_type (ty_view a.now) (ty_view b.now) }
{
    match (a, b) {
        (Ty::Void, Ty::Void) => true,
        (Ty::Ptr(s), Ty::Ptr(t)) => same_type(s.get(), t.get()),
        (Ty::Array(s, m), Ty::Array(t, n)) => m == n && same_type(s.get(), t.get()),
        (Ty::Struct(j), Ty::Struct(k)) => j == k,
        _ => match (a.arith(), b.arith()) {
            (Some(s), Some(t)) => same_arith(s, t),
            _ => false,
        },
    }
}

/// Whether two pointers may be assigned to one another and compared: they point to one type, or one of them to `void`.
pub(crate) fn are_alike(s: &Ty, t: &Ty) -> bool
    ensures { result ≡ are_alike (ty_view s.now) (ty_view t.now) }
{
    same_type(s, t) || is_void(s) || is_void(t)
}

/// Whether a value of the second type may be assigned to an object of the first (ISO/IEC 9899:1999, 6.5.16.1, 1).
/// `is_null` says whether the value is the integer constant 0, which is a null pointer.
pub fn is_assignable(to: &Ty, from: &Ty, is_null: bool) -> bool
    ensures { result ≡ rule.is_assignable (ty_view to.now) (ty_view from.now) is_null }
{
    match (to, from) {
        (Ty::Ptr(s), Ty::Ptr(t)) => are_alike(s.get(), t.get()),
        (Ty::Struct(j), Ty::Struct(k)) => j == k,
        _ => match (to.arith(), from.arith()) {
            (Some(_), Some(_)) => true,
            (Some(a), None) => is_pointer(from) && same_arith(a, Arith::Bool),
            (None, Some(_)) => is_pointer(to) && is_null,
            (None, None) => false,
        },
    }
}

/// Whether it is a pointer.
pub(crate) fn is_pointer(ty: &Ty) -> bool
    ensures { result ≡ is_pointer (ty_view ty.now) }
{
    matches!(ty, Ty::Ptr(_))
}

/// Whether a value of the second type may be cast to the first (ISO/IEC 9899:1999, 6.5.4, 2).
pub fn may_be_cast(to: &Ty, from: &Ty) -> bool
    ensures { result ≡ rule.may_be_cast (ty_view to.now) (ty_view from.now) }
{
    is_void(to) || (is_scalar(to) && is_scalar(from))
}
