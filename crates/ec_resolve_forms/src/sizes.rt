//! Sizes of types, and values as operators know them.

ghost use Rattle.std.specs.Prelude.{◌≡◌};
ghost use Rattle.ec_ctypes.specs.views.Types.{ty_view};
ghost use Rattle.ec_resolve_values.specs.conversions.Scalars.{scalar_in, struct_size, target_size};
ghost use Rattle.ec_resolving_defs.specs.Conversions.{size_in, size_or_none};
ghost use Rattle.ec_scopes.specs.Seen.{world_of};
ghost use Rattle.ec_resolve_forms.specs.Readings.{shape_by};

use ec_ctypes::Ty;
use ec_resolve_values::conversions::Scalar;
use ec_scopes::{Checker, Measure};

/// The size of what is measured so. What is larger than the limit has none.
fn size_by(measure: Measure) -> u64
    ensures { result ≡ size_or_none (shape_by measure) }
{
    match measure {
        Measure::Unknown => 0,
        Measure::Within(shape) => shape.size,
        Measure::TooLarge => 0,
    }
}

/// The size of a type in bytes, 0 where it has none.
pub fn size_of(checker: &Checker, ty: &Ty) -> u64
    ensures { result ≡ size_in (world_of checker.now) (ty_view ty.now) }
{
    size_by(checker.shape(ty))
}

/// The size of the objects that a pointer leads to, 0 of any other type.
fn target_size(checker: &Checker, ty: &Ty) -> u64
    ensures { result ≡ target_size (world_of checker.now) (ty_view ty.now) }
{
    match ty {
        Ty::Ptr(to) => size_of(checker, to.get()),
        _ => 0,
    }
}

/// The size of a struct, 0 of any other type.
pub(crate) fn struct_size(checker: &Checker, ty: &Ty) -> u64
    ensures { result ≡ struct_size (world_of checker.now) (ty_view ty.now) }
{
    match ty {
        Ty::Struct(_) => size_of(checker, ty),
        _ => 0,
    }
}

/// A value of this type, as operators know it.
pub(crate) fn scalar_of(checker: &Checker, ty: &Ty) -> Option<Scalar>
    ensures { result ≡ scalar_in (world_of checker.now) (ty_view ty.now) }
{
    let size = target_size(checker, ty);
    Scalar::of(ty, size)
}
