//! The forms of types (ISO/IEC 9899:1999, 6.2.5).

ghost use Rattle.std.specs.Prelude.{◌≡◌};
ghost use Rattle.ec_ctypes.specs.trees.Types.{array};
ghost use Rattle.ec_ctypes.specs.views.Types.{ty_view};
ghost use Rattle.ec_typing_defs.specs.Types as rule;
ghost use Rattle.ec_type_rules.specs.Views.{type_view};

use ec_ctypes::{Arith, Ty};

/// Whether it is `void`.
pub fn is_void(ty: &Ty) -> bool
    ensures { result ≡ rule.is_void (ty_view ty.now) }
{
    matches!(ty, Ty::Void)
}

/// Whether it is an integer or a pointer (ISO/IEC 9899:1999, 6.2.5, 21).
pub fn is_scalar(ty: &Ty) -> bool
    ensures { result ≡ rule.is_scalar (ty_view ty.now) }
{
    !matches!(ty, Ty::Void | Ty::Array(_, _) | Ty::Struct(_))
}

/// Whether it is a struct.
pub fn is_structure(ty: &Ty) -> bool
    ensures { result ≡ rule.is_structure (ty_view ty.now) }
{
    matches!(ty, Ty::Struct(_))
}

/// Whether it is an array.
pub fn is_array(ty: &Ty) -> bool
    ensures { result ≡ rule.is_array (ty_view ty.now) }
{
    matches!(ty, Ty::Array(_, _))
}

/// Whether it is `char` or `unsigned char`.
pub fn is_character(a: Arith) -> bool
    ensures { result ≡ rule.is_character a }
{
    matches!(a, Arith::Char | Arith::UChar)
}

/// Whether it is an array of characters (ISO/IEC 9899:1999, 6.7.8, 14).
pub fn is_char_array(ty: &Ty) -> bool
    ensures { result ≡ rule.is_char_array (ty_view ty.now) }
{
    match ty {
        Ty::Array(of, _) => is_character_type(of.get()),
        _ => false,
    }
}

// Whether the type is one of a character.
fn is_character_type(ty: &Ty) -> bool
    ensures { result ≡ rule.is_char_array (array (ty_view ty.now) 0) }
{
    matches!(ty, Ty::Char | Ty::UChar)
}

/// The type as that of a value: an array is a pointer to its first element (ISO/IEC 9899:1999, 6.3.2.1, 3).
pub fn decayed(ty: Ty) -> Ty
    ensures { ty_view result ≡ rule.decayed (ty_view ty) }
{
    match ty {
        Ty::Array(of, _) => Ty::Ptr(of),
        other => other,
    }
}

/// What a pointer points to, or `None` of any other type.
pub fn pointed_to(ty: Ty) -> Option<Ty>
    ensures { type_view result ≡ rule.pointed_to (ty_view ty) }
{
    match ty {
        Ty::Ptr(to) => Some(to.into_inner()),
        _ => None,
    }
}

/// The number of a struct, or `None` of any other type.
pub fn struct_number(ty: &Ty) -> Option<u32>
    ensures { result ≡ rule.struct_number (ty_view ty.now) }
{
    match ty {
        Ty::Struct(number) => Some(*number),
        _ => None,
    }
}
