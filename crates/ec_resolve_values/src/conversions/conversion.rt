//! Conversions of values whose types are known (ISO/IEC 9899:1999, 6.3).

ghost use Rattle.std.specs.Prelude.{◌≡◌};
ghost use Rattle.ec_ctypes.specs.views.Types.{ty_view};
ghost use Rattle.ec_memory_defs.specs.Kinds.{kind_type};
ghost use Rattle.ec_memory_defs.specs.Memory.{integer_type};
ghost use Rattle.ec_meaning_defs.specs.resolved.Resolved.{Exp};
ghost use Rattle.ec_resolving_defs.specs.Conversions as form;
ghost use Rattle.ec_type_rules.specs.Views.{type_view};
ghost use Rattle.ec_resolve_values.specs.conversions.Forms.{converted, type_of_kind};

use ec_ctypes::{Arith, Ty, promote};
use ec_memory_defs::Kind;
use ec_type_rules::same_arith;

/// How a value becomes one of another type.
#[derive(Clone, Copy, Debug, PartialEq, Eq)]
pub enum Conversion {
    /// It stays as it is.
    Kept,
    /// From the first scalar type to the second.
    Made(Kind, Kind),
    /// It becomes none, since one of the types isn't known.
    Missing,
}

/// The scalar type that an integer type is.
pub fn integer_kind(ty: Arith) -> Kind
    ensures { kind_type result ≡ integer_type ty }
{
    match ty {
        Arith::Bool => Kind::Bool,
        Arith::Char => Kind::Char,
        Arith::UChar => Kind::UChar,
        Arith::Short => Kind::Short,
        Arith::UShort => Kind::UShort,
        Arith::Int => Kind::Int,
        Arith::UInt => Kind::UInt,
        Arith::Long => Kind::Long,
        Arith::ULong => Kind::ULong,
        Arith::LLong => Kind::LLong,
        Arith::ULLong => Kind::ULLong,
    }
}

/// The integer type that a scalar type is, or `None` of a pointer.
fn integer_of(kind: Kind) -> Option<Arith>
    ensures { type_of_kind result ≡ kind_type kind }
{
    match kind {
        Kind::Bool => Some(Arith::Bool),
        Kind::Char => Some(Arith::Char),
        Kind::UChar => Some(Arith::UChar),
        Kind::Short => Some(Arith::Short),
        Kind::UShort => Some(Arith::UShort),
        Kind::Int => Some(Arith::Int),
        Kind::UInt => Some(Arith::UInt),
        Kind::Long => Some(Arith::Long),
        Kind::ULong => Some(Arith::ULong),
        Kind::LLong => Some(Arith::LLong),
        Kind::ULLong => Some(Arith::ULLong),
        Kind::Ptr => None,
    }
}

/// Whether two scalar types are one. All pointers are.
fn is_same_kind(a: Kind, b: Kind) -> bool
    ensures { result ≡ form.same_kind (kind_type a) (kind_type b) }
{
    match (integer_of(a), integer_of(b)) {
        (Some(s), Some(t)) => same_arith(s, t),
        (Some(_), None) => false,
        (None, Some(_)) => false,
        (None, None) => true,
    }
}

/// A value of the first scalar type as one of the second. A conversion to its own type is none.
pub fn scalar_conversion(from: Kind, to: Kind) -> Conversion
    ensures { (e : Exp) → converted result e ≡ form.converted_to (kind_type from) (kind_type to) e }
{
    if is_same_kind(from, to) {
        Conversion::Kept
    } else {
        Conversion::Made(from, to)
    }
}

/// A value of the first integer type as one of the second.
pub fn widening(from: Arith, to: Arith) -> Conversion
    ensures { (e : Exp) → converted result e ≡ form.as_arith from to e }
{
    if same_arith(from, to) {
        Conversion::Kept
    } else {
        Conversion::Made(integer_kind(from), integer_kind(to))
    }
}

/// A value of an integer type as a pointer.
pub(crate) fn to_pointer(from: Arith) -> Conversion
    ensures { (e : Exp) → converted result e ≡ form.as_pointer from e }
{
    Conversion::Made(integer_kind(from), Kind::Ptr)
}

/// A value of the first type as one of the second, as by assignment or by a cast (ISO/IEC 9899:1999, 6.3.1, 6.3.2.3 and
/// 6.5.16.1, 2). A struct stays as it is.
pub fn type_conversion(from: &Ty, to: &Ty) -> Conversion
    ensures { (e : Exp) → converted result e ≡ form.as_type (ty_view from.now) (ty_view to.now) e }
{
    match (Kind::of(from), Kind::of(to)) {
        (Some(from), Some(to)) => scalar_conversion(from, to),
        (Some(_), None) => Conversion::Kept,
        (None, Some(_)) => Conversion::Kept,
        (None, None) => Conversion::Kept,
    }
}

/// The same, where each type may be unknown.
pub fn known_conversion(from: &Option<Ty>, to: &Option<Ty>) -> Conversion
    ensures { (e : Exp)
        → converted result e ≡ form.as_known_type (type_view from.now) (type_view to.now) e }
{
    match (from, to) {
        (Some(from), Some(to)) => type_conversion(from, to),
        (Some(_), None) => Conversion::Missing,
        (None, Some(_)) => Conversion::Missing,
        (None, None) => Conversion::Missing,
    }
}

/// An argument of a format: its integer type is promoted (ISO/IEC 9899:1999, 6.5.2.2, 6).
pub fn promotion(ty: &Option<Ty>) -> Conversion
    ensures { (e : Exp) → converted result e ≡ form.promoted_value (type_view ty.now) e }
{
    match ty {
        Some(ty) => match ty.arith() {
            Some(a) => widening(a, promote(a)),
            None => Conversion::Kept,
        },
        None => Conversion::Kept,
    }
}
