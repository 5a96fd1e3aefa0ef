//! What one element of a host is.

ghost use Rattle.std.specs.Prelude.{◌≡◌, map, option_map, slice_get};
ghost use Rattle.std.specs.Option.{option_copied};
ghost use Rattle.ec_ctypes.specs.views.Types.{ty_view, member_view, struct_view, structs_view};
ghost use Rattle.ec_host_defs.specs.Elements as spec;

use ec_base::Name;
use ec_ctypes::{StructDef, Structs, Sym, Ty};

/// The struct of this number.
pub(crate) fn definition(structs: &Structs, id: u32) -> Option<&StructDef>
    ensures { option_map struct_view (option_copied result)
        ≡ slice_get (structs_view structs.now) id }
{
    definition_at(structs.as_slice(), id)
}

/// The struct at this place.
fn definition_at(definitions: &[StructDef], id: u32) -> Option<&StructDef>
    ensures { option_copied result ≡ slice_get definitions.now id }
{
    definitions.get(id as usize)
}

/// Characters, so many.
fn char_symbol(ty: &Ty, count: u64) -> Option<(Sym, u64)>
    ensures { result ≡ spec.char_symbol (ty_view ty.now) count }
{
    match ty {
        Ty::Char => Some((Sym::Char, count)),
        Ty::UChar => Some((Sym::UnsignedChar, count)),
        Ty::Void => None,
        Ty::Bool => None,
        Ty::Short => None,
        Ty::UShort => None,
        Ty::Int => None,
        Ty::UInt => None,
        Ty::Long => None,
        Ty::ULong => None,
        Ty::LLong => None,
        Ty::ULLong => None,
        Ty::Ptr(_) => None,
        Ty::Array(_, _) => None,
        Ty::Struct(_) => None,
    }
}

/// How many elements an array has.
fn array_length(ty: &Ty) -> Option<u64>
    ensures { result ≡ spec.array_length (ty_view ty.now) }
{
    match ty {
        Ty::Array(_, count) => Some(*count),
        Ty::Void => None,
        Ty::Bool => None,
        Ty::Char => None,
        Ty::UChar => None,
        Ty::Short => None,
        Ty::UShort => None,
        Ty::Int => None,
        Ty::UInt => None,
        Ty::Long => None,
        Ty::ULong => None,
        Ty::LLong => None,
        Ty::ULLong => None,
        Ty::Ptr(_) => None,
        Ty::Struct(_) => None,
    }
}

/// How many characters a VARCHAR with these members holds.
fn capacity(members: &[(Name, Ty)]) -> Option<u64>
    ensures { result ≡ spec.capacity (map member_view members.now) }
{
    match members {
        [_, second, rest @ ..] => {
            if rest.is_empty() {
                array_length(&second.1)
            } else {
                None
            }
        }
        [_] => None,
        [] => None,
    }
}

/// A VARCHAR of this capacity.
fn varchar_symbol(capacity: Option<u64>) -> Option<(Sym, u64)>
    ensures { result ≡ spec.varchar_symbol capacity }
{
    match capacity {
        Some(count) => {
            if count == 0 {
                None
            } else {
                Some((Sym::Varchar, count))
            }
        }
        None => None,
    }
}

/// A struct, which is an element if a VARCHAR made it.
fn struct_symbol(definition: &StructDef) -> Option<(Sym, u64)>
    ensures { result ≡ spec.struct_symbol (struct_view definition.now) }
{
    if definition.varchar {
        varchar_symbol(capacity(definition.members.as_slice()))
    } else {
        None
    }
}

/// The symbol of a type that is one element of a host, and the length of its text, which is 0 for a pointer to one and for
/// what is no text (PostgreSQL manual, "Using Host Variables"). `None` comes exactly where it is no element.
pub fn symbol_of(structs: &Structs, ty: &Ty) -> Option<(Sym, u64)>
    ensures { result ≡ spec.symbol_of (structs_view structs.now) (ty_view ty.now) }
{
    match ty {
        Ty::Void => None,
        Ty::Bool => Some((Sym::Bool, 0)),
        Ty::Char => Some((Sym::Char, 1)),
        Ty::UChar => Some((Sym::UnsignedChar, 1)),
        Ty::Short => Some((Sym::Short, 0)),
        Ty::UShort => Some((Sym::UnsignedShort, 0)),
        Ty::Int => Some((Sym::Int, 0)),
        Ty::UInt => Some((Sym::UnsignedInt, 0)),
        Ty::Long => Some((Sym::Long, 0)),
        Ty::ULong => Some((Sym::UnsignedLong, 0)),
        Ty::LLong => Some((Sym::LongLong, 0)),
        Ty::ULLong => Some((Sym::UnsignedLongLong, 0)),
        Ty::Ptr(to) => char_symbol(to.get(), 0),
        Ty::Array(of, count) => chars_symbol(of.get(), *count),
        Ty::Struct(id) => match definition(structs, *id) {
            Some(definition) => struct_symbol(definition),
            None => None,
        },
    }
}

/// An array of characters, so many.
fn chars_symbol(of: &Ty, count: u64) -> Option<(Sym, u64)>
    ensures { result ≡ spec.array_symbol (ty_view of.now) count }
{
    if count == 0 {
        None
    } else {
        char_symbol(of, count)
    }
}

/// Whether a type is one element of a host.
pub fn is_element(structs: &Structs, ty: &Ty) -> bool
    ensures { result ≡ spec.is_element (structs_view structs.now) (ty_view ty.now) }
{
    match symbol_of(structs, ty) {
        Some(_) => true,
        None => false,
    }
}

/// The number of a struct that stands for its members: one that no VARCHAR made.
pub fn plain_struct(structs: &Structs, ty: &Ty) -> Option<u32>
    ensures { result ≡ spec.plain_struct (structs_view structs.now) (ty_view ty.now) }
{
    match ty {
        Ty::Struct(id) => match definition(structs, *id) {
            Some(definition) => plain_number(*id, definition.varchar),
            None => None,
        },
        Ty::Void => None,
        Ty::Bool => None,
        Ty::Char => None,
        Ty::UChar => None,
        Ty::Short => None,
        Ty::UShort => None,
        Ty::Int => None,
        Ty::UInt => None,
        Ty::Long => None,
        Ty::ULong => None,
        Ty::LLong => None,
        Ty::ULLong => None,
        Ty::Ptr(_) => None,
        Ty::Array(_, _) => None,
    }
}

/// The number of a struct, unless a VARCHAR made it.
fn plain_number(id: u32, varchar: bool) -> Option<u32>
    ensures { result ≡ spec.plain_if varchar id }
{
    if varchar { None } else { Some(id) }
}

/// Whether a type is that of an indicator.
pub fn is_indicator(ty: &Ty) -> bool
    ensures { result ≡ spec.is_indicator (ty_view ty.now) }
{
    match ty {
        Ty::Short | Ty::Int | Ty::Long | Ty::LLong => true,
        Ty::Void => false,
        Ty::Bool => false,
        Ty::Char => false,
        Ty::UChar => false,
        Ty::UShort => false,
        Ty::UInt => false,
        Ty::ULong => false,
        Ty::ULLong => false,
        Ty::Ptr(_) => false,
        Ty::Array(_, _) => false,
        Ty::Struct(_) => false,
    }
}

/// Whether a value of this type names a text: characters, a pointer to them, or a VARCHAR.
pub fn is_text(structs: &Structs, ty: &Ty) -> bool
    ensures { result ≡ spec.is_text (structs_view structs.now) (ty_view ty.now) }
{
    match ty {
        Ty::Ptr(_) => is_element(structs, ty),
        Ty::Array(_, _) => is_element(structs, ty),
        Ty::Struct(_) => is_element(structs, ty),
        Ty::Void => false,
        Ty::Bool => false,
        Ty::Char => false,
        Ty::UChar => false,
        Ty::Short => false,
        Ty::UShort => false,
        Ty::Int => false,
        Ty::UInt => false,
        Ty::Long => false,
        Ty::ULong => false,
        Ty::LLong => false,
        Ty::ULLong => false,
    }
}
