//! The scalar types in one byte.

ghost use Rattle.std.specs.Prelude.{◌≡◌};
ghost use Rattle.std.specs.Option.{option_map};
ghost use Rattle.ec_ctypes.specs.views.Types.{ty_view};
ghost use Rattle.ec_memory_defs.specs.Kinds.{kind_type};
ghost use Rattle.ec_memory_defs.specs.Memory.{scalar_type};

use ec_ctypes::Ty;

/// A scalar type, whose values are loaded and stored (ISO/IEC 9899:1999, 6.2.5): an integer type, or a pointer to
/// anything.
#[derive(Clone, Copy, Debug, PartialEq, Eq)]
pub enum Kind {
    Bool,
    Char,
    UChar,
    Short,
    UShort,
    Int,
    UInt,
    Long,
    ULong,
    LLong,
    ULLong,
    Ptr,
}

impl Kind {
    /// The kind of a type, or `None` where it is no scalar type.
    pub fn of(ty: &Ty) -> Option<Kind>
        ensures { option_map kind_type result ≡ scalar_type (ty_view ty.now) }
    {
        match ty {
            Ty::Bool => Some(Kind::Bool),
            Ty::Char => Some(Kind::Char),
            Ty::UChar => Some(Kind::UChar),
            Ty::Short => Some(Kind::Short),
            Ty::UShort => Some(Kind::UShort),
            Ty::Int => Some(Kind::Int),
            Ty::UInt => Some(Kind::UInt),
            Ty::Long => Some(Kind::Long),
            Ty::ULong => Some(Kind::ULong),
            Ty::LLong => Some(Kind::LLong),
            Ty::ULLong => Some(Kind::ULLong),
            Ty::Ptr(_) => Some(Kind::Ptr),
            Ty::Void | Ty::Array(_, _) | Ty::Struct(_) => None,
        }
    }
}
