//! What an operator has to know of a value.

ghost use Rattle.std.specs.Prelude.{◌≡◌};
ghost use Rattle.ec_ctypes.specs.views.Types.{ty_view};
ghost use Rattle.ec_typing_defs.specs.Worlds.{World};
ghost use Rattle.ec_resolve_values.specs.conversions.Scalars.{scalar_in, target_size};

use ec_ctypes::{Arith, Ty};

/// A scalar value, as an operator knows it.
#[derive(Clone, Copy, Debug, PartialEq, Eq)]
pub enum Scalar {
    /// A number of this type.
    Integer(Arith),
    /// A pointer to objects of so many bytes.
    Pointer(u64),
}

impl Scalar {
    /// A value of this type, or `None` where the type is no scalar. `size` is that of the objects that a pointer leads to.
    pub fn of(ty: &Ty, size: u64) -> Option<Scalar>
        ensures { (w : World) → size ≡ target_size w (ty_view ty.now)
            → result ≡ scalar_in w (ty_view ty.now) }
    {
        match ty {
            Ty::Void => None,
            Ty::Bool => Some(Scalar::Integer(Arith::Bool)),
            Ty::Char => Some(Scalar::Integer(Arith::Char)),
            Ty::UChar => Some(Scalar::Integer(Arith::UChar)),
            Ty::Short => Some(Scalar::Integer(Arith::Short)),
            Ty::UShort => Some(Scalar::Integer(Arith::UShort)),
            Ty::Int => Some(Scalar::Integer(Arith::Int)),
            Ty::UInt => Some(Scalar::Integer(Arith::UInt)),
            Ty::Long => Some(Scalar::Integer(Arith::Long)),
            Ty::ULong => Some(Scalar::Integer(Arith::ULong)),
            Ty::LLong => Some(Scalar::Integer(Arith::LLong)),
            Ty::ULLong => Some(Scalar::Integer(Arith::ULLong)),
            Ty::Ptr(_) => Some(Scalar::Pointer(size)),
            Ty::Array(_, _) => None,
            Ty::Struct(_) => None,
        }
    }
}
