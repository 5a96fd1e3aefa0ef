ghost use Rattle.std.specs.Prelude.{◌≡◌, ◌↔◌, IfOk, IsTrue};
ghost use Rattle.ec_ctypes.specs.views.Types.{ty_view};

use crate::types::Ty;
use ec_base::{Boxed, OutOfMemory};
use std::alloc::Global;

/// A copy of a type.
pub fn copy_ty(alloc: Global, ty: &Ty) -> Result<Ty, OutOfMemory>
    ensures { IfOk result (λ copy. copy ≡ ty.now) }
{
    Ok(match ty {
        Ty::Void => Ty::Void,
        Ty::Bool => Ty::Bool,
        Ty::Char => Ty::Char,
        Ty::UChar => Ty::UChar,
        Ty::Short => Ty::Short,
        Ty::UShort => Ty::UShort,
        Ty::Int => Ty::Int,
        Ty::UInt => Ty::UInt,
        Ty::Long => Ty::Long,
        Ty::ULong => Ty::ULong,
        Ty::LLong => Ty::LLong,
        Ty::ULLong => Ty::ULLong,
        Ty::Ptr(to) => Ty::Ptr(Boxed::new(alloc, copy_ty(alloc, to.get())?)?),
        Ty::Array(of, count) => Ty::Array(Boxed::new(alloc, copy_ty(alloc, of.get())?)?, *count),
        Ty::Struct(id) => Ty::Struct(*id),
    })
}

/// Whether two types are one.
pub fn same_ty(a: &Ty, b: &Ty) -> bool
    ensures { IsTrue result ↔ (ty_view a.now ≡ ty_view b.now) }
{
    match (a, b) {
        (Ty::Void, Ty::Void) => true,
        (Ty::Ptr(a), Ty::Ptr(b)) => same_ty(a.get(), b.get()),
        (Ty::Array(a, m), Ty::Array(b, n)) => m == n && same_ty(a.get(), b.get()),
        (Ty::Struct(a), Ty::Struct(b)) => a == b,
        _ => match (a.arith(), b.arith()) {
            (Some(a), Some(b)) => a == b,
            _ => false,
        },
    }
}
