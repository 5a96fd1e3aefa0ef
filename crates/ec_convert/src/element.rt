//! What the elements of a host hold.

ghost use Rattle.std.specs.Prelude.{◌≡◌, ◌≤◌, ◌^◌, true, option_map, IfSome};
ghost use Rattle.ec_ctypes.specs.Arithmetic.{is_signed};
ghost use Rattle.ec_memory_defs.specs.Memory.{integer_type};
ghost use Rattle.ec_memory_defs.specs.Kinds.{kind_type};
ghost use Rattle.ec_transfer_defs.specs.Hosts.{holding, of_length, indicator_type};
ghost use Rattle.ec_convert.specs.Elements.{held_by};
ghost use Rattle.ec_convert.specs.Pieces.{IsBounded};

use ec_ctypes::{Arith, Sym};
use ec_memory_defs::Kind;

/// What one element of a host holds.
#[derive(Clone, Copy, Debug, PartialEq, Eq)]
pub(crate) enum Element {
    /// A value of an integer type.
    Integer(Arith),
    /// A truth value.
    Truth,
    /// A char array of so many bytes.
    Characters(u64),
    /// A pointer to a text.
    Pointed,
    /// A VARCHAR of so many bytes, with its length before it.
    Counted(u64),
}

/// What the elements of a symbol hold, or `None` where it is no type.
pub(crate) fn element_of(sym: Sym, size: u64) -> Option<Element>
    ensures holding { option_map held_by result ≡ holding sym size }
    ensures bounded { size ≤ 2 ^ 24 → IfSome result (λ element. IsBounded (held_by element)) }
{
    match sym {
        Sym::Char | Sym::UnsignedChar => Some(text_element(size)),
        Sym::Short => Some(Element::Integer(Arith::Short)),
        Sym::UnsignedShort => Some(Element::Integer(Arith::UShort)),
        Sym::Int => Some(Element::Integer(Arith::Int)),
        Sym::UnsignedInt => Some(Element::Integer(Arith::UInt)),
        Sym::Long => Some(Element::Integer(Arith::Long)),
        Sym::UnsignedLong => Some(Element::Integer(Arith::ULong)),
        Sym::LongLong => Some(Element::Integer(Arith::LLong)),
        Sym::UnsignedLongLong => Some(Element::Integer(Arith::ULLong)),
        Sym::Bool => Some(Element::Truth),
        Sym::Varchar => Some(Element::Counted(size)),
        _ => None,
    }
}

/// A char array of this length, or a pointer where it is 0.
fn text_element(size: u64) -> Element
    ensures holding { held_by result ≡ of_length size }
    ensures bounded { IsBounded (held_by result) }
{
    if size == 0 {
        Element::Pointed
    } else {
        Element::Characters(size)
    }
}

/// The type of an indicator, or `None` where its symbol is none that it may have.
pub(crate) fn indicator_kind(sym: Sym) -> Option<Arith>
    ensures kind { result ≡ indicator_type sym }
    ensures signed { IfSome result (λ kind. is_signed kind ≡ true) }
{
    match sym {
        Sym::Short => Some(Arith::Short),
        Sym::Int => Some(Arith::Int),
        Sym::Long => Some(Arith::Long),
        Sym::LongLong => Some(Arith::LLong),
        _ => None,
    }
}

/// An integer type in one byte.
pub(crate) fn kind_of(ty: Arith) -> Kind
    ensures { kind_type result ≡ integer_type ty }
{
    match ty {
        Arith::Bool => Kind::Bool,
        Arith::Char => Kind::Char,
        Arith::UChar => Kind::UChar,
        Arith::Short => Kind::Short,
        Arith::UShort => Kind::UShort,
        Arith::Int => Kind::Int,
        Arith::UInt => Kind::UInt,
        Arith::Long => Kind::Long,
        Arith::ULong => Kind::ULong,
        Arith::LLong => Kind::LLong,
        Arith::ULLong => Kind::ULLong,
    }
}
