//! The types of parameters and results, as the checks have them (ISO/IEC 9899:1999, 6.7.5.3 and 6.9.1).
#![tactic(auto, using(ec_scopes::proofs::Steps::noting), unfolding(ec_typing_defs::specs::Worlds::chain, ec_typing_defs::specs::Worlds::pure, ec_typing_defs::specs::Worlds::ask, ec_typing_defs::specs::Programs::result_rule, ec_typing_defs::specs::Programs::plain_param))]

ghost use Rattle.std.specs.Prelude.{◌≡◌, map, IfOk};
ghost use Rattle.ec_ctypes.specs.views.Types.{ty_view};
ghost use Rattle.ec_memory_defs.specs.Kinds.{kind_type};
ghost use Rattle.ec_resolving_defs.specs.Programs as form;
ghost use Rattle.ec_resolving_defs.specs.Statements.{size_of_type};
ghost use Rattle.ec_scopes.specs.Entries.{place_view, type_view};
ghost use Rattle.ec_scopes.specs.Seen.{world_of, Does, IsDone};
ghost use Rattle.ec_typing_defs.specs.Programs as rule;
ghost use Rattle.ec_typing_defs.specs.Statements as checked;
ghost use Rattle.ec_resolve_parts.specs.Types.{types_view};

use ec_base::{Boxed, FaultKind, List, OutOfMemory};
use ec_ctypes::Ty;
use ec_memory_defs::Kind;
use ec_resolve_forms::size_of;
use ec_rules::{complete_rule, declared_type, within_rule};
use ec_scopes::{Checker, Place};
use ec_type_rules::{is_structure, is_void};
use std::alloc::Global;

/// The type, or `void` where there is none.
pub(crate) fn type_or_void(ty: Option<Ty>) -> Ty
    ensures { ty_view result ≡ checked.type_or_void (type_view ty) }
{
    match ty {
        Some(ty) => ty,
        None => Ty::Void,
    }
}

/// The size of the type in bytes, 0 where there is none.
pub fn size_of_type(checker: &Checker, ty: &Option<Ty>) -> u64
    ensures { result ≡ size_of_type (world_of checker.now) (type_view ty.now) }
{
    match ty {
        Some(ty) => size_of(checker, ty),
        None => 0,
    }
}

fn may_be_result(ty: &Option<Ty>) -> bool
    ensures { result ≡ rule.may_be_result (type_view ty.now) }
{
    match ty {
        Some(ty) => !is_structure(ty),
        None => true,
    }
}

fn may_be_param(ty: &Option<Ty>) -> bool
    ensures { result ≡ rule.may_be_param (type_view ty.now) }
{
    match ty {
        Some(ty) => !(is_structure(ty) || is_void(ty)),
        None => true,
    }
}

/// The type, if it may be taken.
fn kept(ty: Option<Ty>, fits: bool) -> Option<Ty>
    ensures { type_view result ≡ rule.kept (type_view ty) fits }
{
    if fits { ty } else { None }
}

/// A result is no struct by value, which ISO C would allow.
pub fn result_rule(checker: &mut Checker, at: Place, ty: Option<Ty>) -> Option<Ty>
    ensures { IsDone (rule.result_rule (place_view at) (type_view ty) (world_of checker.old))
        checker.old checker.new (type_view result) }
{
    let fits = may_be_result(&ty);
    checker.demand(at, FaultKind::F14, fits);
    kept(ty, fits)
}

/// A parameter is no struct by value, which ISO C would allow, and not void.
fn plain_param(checker: &mut Checker, at: Place, ty: Option<Ty>) -> Option<Ty>
    ensures { IsDone (rule.plain_param (place_view at) (type_view ty) (world_of checker.old))
        checker.old checker.new (type_view result) }
{
    let fits = may_be_param(&ty);
    checker.demand(at, FaultKind::F14, fits);
    kept(ty, fits)
}

fn pointer_to(alloc: Global, ty: Option<Ty>) -> Result<Option<Ty>, OutOfMemory>
    ensures { IfOk result (λ made. type_view made ≡ rule.pointer_to (type_view ty)) }
{
    match ty {
        None => Ok(None),
        Some(ty) => Ok(Some(Ty::Ptr(Boxed::new(alloc, ty)?))),
    }
}

/// A parameter that is written as an array of these is a pointer to its elements, whose type is complete (ISO/IEC 9899:1999,
/// 6.7.5.2, 1 and 6.7.5.3, 7).
fn array_param(
    checker: &mut Checker,
    at: Place,
    element: Option<Ty>,
) -> Result<Option<Ty>, OutOfMemory>
    ensures { Does type_view (rule.array_param (place_view at) (type_view element)
        (world_of checker.old)) checker.old result checker.new }
{
    within_rule(checker, at, &element);
    let ty = complete_rule(checker, at, element);
    pointer_to(checker.alloc(), ty)
}

/// The type of a parameter, where these are the lengths behind its name.
pub fn param_type(
    checker: &mut Checker,
    at: Place,
    ty: Option<Ty>,
    stars: u32,
    sizes: &[Option<u64>],
) -> Result<Option<Ty>, OutOfMemory>
    ensures { Does type_view (rule.param_type (place_view at) (type_view ty) stars sizes.now
        (world_of checker.old)) checker.old result checker.new }
{
    match sizes {
        [] => {
            let whole = declared_type(checker.alloc(), ty, stars, sizes)?;
            Ok(plain_param(checker, at, whole))
        }
        [_, inner @ ..] => {
            let element = declared_type(checker.alloc(), ty, stars, inner)?;
            array_param(checker, at, element)
        }
    }
}

/// The scalar type of a parameter: that of a pointer where it has none, which has a fault.
fn parameter_kind(ty: &Option<Ty>) -> Kind
    ensures { kind_type result ≡ form.parameter_kind (type_view ty.now) }
{
    match ty {
        None => Kind::Ptr,
        Some(ty) => match Kind::of(ty) {
            Some(kind) => kind,
            None => Kind::Ptr,
        },
    }
}

/// The scalar types of parameters.
pub fn parameter_kinds(alloc: Global, types: &[Option<Ty>]) -> Result<List<Kind>, OutOfMemory>
    ensures { IfOk result (λ kinds. map kind_type kinds
        ≡ map form.parameter_kind (types_view types.now)) }
{
    let mut kinds = List::with_capacity(alloc, types.len())?;
    for ty in types {
        kinds.push(parameter_kind(ty))?;
    }
    Ok(kinds)
}
