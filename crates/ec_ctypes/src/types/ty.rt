ghost use Rattle.std.specs.Prelude.{◌≡◌};

use crate::types::Arith;
use ec_base::{Boxed, List, Name};

/// A type of C (ISO/IEC 9899:1999, 6.2.5).
#[derive(Debug, Drop)]
pub enum Ty {
    Void,
    Bool,
    Char,
    UChar,
    Short,
    UShort,
    Int,
    UInt,
    Long,
    ULong,
    LLong,
    ULLong,
    Ptr(Boxed<Ty>),
    /// The type of the elements, and how many there are.
    Array(Boxed<Ty>, u64),
    /// By its number in the list of the program's structs.
    Struct(u32),
}

/// A struct of a program.
#[derive(Debug, Drop)]
pub struct StructDef {
    pub tag: Option<Name>,
    /// Whether a VARCHAR made it.
    pub varchar: bool,
    /// Its members, in order. There are none where the program never lists them.
    pub members: List<(Name, Ty)>,
}

impl From<Arith> for Ty {
    ghost use Rattle.ec_ctypes.specs.trees.Types.{arithmetic};
    ghost use Rattle.ec_ctypes.specs.views.Types.{ty_view};

    ghost from_gives = { λ t ty. ty_view ty ≡ arithmetic t };

    fn from(t: Arith) -> Ty {
        match t {
            Arith::Bool => Ty::Bool,
            Arith::Char => Ty::Char,
            Arith::UChar => Ty::UChar,
            Arith::Short => Ty::Short,
            Arith::UShort => Ty::UShort,
            Arith::Int => Ty::Int,
            Arith::UInt => Ty::UInt,
            Arith::Long => Ty::Long,
            Arith::ULong => Ty::ULong,
            Arith::LLong => Ty::LLong,
            Arith::ULLong => Ty::ULLong,
        }
    }
}

impl Ty {
    ghost use Rattle.std.specs.Prelude.{MatchOption};
    ghost use Rattle.ec_ctypes.specs.Sizes.{IsInteger, IsNoInteger};

    /// The integer type that this is, or `None` of any other type.
    pub fn arith(&self) -> Option<Arith>
        ensures { MatchOption result (IsNoInteger self.now) (IsInteger self.now) }
    {
        match self {
            Ty::Bool => Some(Arith::Bool),
            Ty::Char => Some(Arith::Char),
            Ty::UChar => Some(Arith::UChar),
            Ty::Short => Some(Arith::Short),
            Ty::UShort => Some(Arith::UShort),
            Ty::Int => Some(Arith::Int),
            Ty::UInt => Some(Arith::UInt),
            Ty::Long => Some(Arith::Long),
            Ty::ULong => Some(Arith::ULong),
            Ty::LLong => Some(Arith::LLong),
            Ty::ULLong => Some(Arith::ULLong),
            Ty::Void => None,
            Ty::Ptr(_) => None,
            Ty::Array(_, _) => None,
            Ty::Struct(_) => None,
        }
    }
}
