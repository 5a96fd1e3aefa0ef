//! The types of references, by the declarations that their variables denote.

ghost use Rattle.std.specs.Prelude.{◌≡◌, ◌+◌, map, take, drop, option_map, option_and_then, slice_get, IfOk};
ghost use Rattle.std.specs.Option.{option_copied};
ghost use Rattle.ec_ctypes.specs.views.Checked.{name_view};
ghost use Rattle.ec_ctypes.specs.views.Exprs.{expr_view};
ghost use Rattle.ec_ctypes.specs.views.Types.{ty_view, structs_view};
ghost use Rattle.ec_host_defs.specs.Programs as spec;
ghost use Rattle.ec_params.specs.Scenes.{program_of};

use crate::known::Known;
use crate::numbers::Numbers;
use ec_base::{Name, OutOfMemory};
use ec_ctypes::{Expr, Ty};

/// What the hosts of a statement are looked at with.
#[derive(Clone, Copy)]
pub(crate) struct Scene<'a> {
    pub structs: &'a Known<'a>,
    /// The types of the declarations by their numbers.
    pub names: &'a [(u32, Ty)],
    /// The numbers of those in a section.
    pub hosts: &'a Numbers,
    /// The numbers of functions.
    pub functions: &'a Numbers,
    /// The declarations that the variables of the statement denote, in the order of its tree.
    pub denoted: &'a [Option<u32>],
}

/// What an array holds, or a pointer points to.
fn element_of(ty: &Ty) -> Option<&Ty>
    ensures { option_map ty_view (option_copied result) ≡ spec.element_of (ty_view ty.now) }
{
    match ty {
        Ty::Ptr(to) => Some(to.get()),
        Ty::Array(of, _) => Some(of.get()),
        Ty::Void => None,
        Ty::Bool => None,
        Ty::Char => None,
        Ty::UChar => None,
        Ty::Short => None,
        Ty::UShort => None,
        Ty::Int => None,
        Ty::UInt => None,
        Ty::Long => None,
        Ty::ULong => None,
        Ty::LLong => None,
        Ty::ULLong => None,
        Ty::Struct(_) => None,
    }
}

/// The type of a member of what has this type.
fn member_type<'a>(structs: &'a Known<'_>, name: &Name, ty: &Ty) -> Option<&'a Ty>
    ensures { option_map ty_view (option_copied result)
        ≡ spec.member_type (structs_view structs.now) name.now (ty_view ty.now) }
{
    match ty {
        Ty::Struct(id) => structs.member(*id, name),
        Ty::Void => None,
        Ty::Bool => None,
        Ty::Char => None,
        Ty::UChar => None,
        Ty::Short => None,
        Ty::UShort => None,
        Ty::Int => None,
        Ty::UInt => None,
        Ty::Long => None,
        Ty::ULong => None,
        Ty::LLong => None,
        Ty::ULLong => None,
        Ty::Ptr(_) => None,
        Ty::Array(_, _) => None,
    }
}

/// The type of a member of what a pointer of this type points to.
fn pointed_member<'a>(structs: &'a Known<'_>, name: &Name, ty: &Ty) -> Option<&'a Ty>
    ensures { option_map ty_view (option_copied result)
        ≡ option_and_then (spec.member_type (structs_view structs.now) name.now)
        (spec.element_of (ty_view ty.now)) }
{
    match element_of(ty) {
        Some(inner) => member_type(structs, name, inner),
        None => None,
    }
}

/// The type of a reference, by that of its variable (ISO/IEC 9899:1999, 6.5.2.1 and 6.5.2.3).
fn type_along<'a>(structs: &'a Known<'_>, ty: &'a Ty, reference: &Expr) -> Option<&'a Ty>
    ensures { option_map ty_view (option_copied result)
        ≡ spec.type_along (structs_view structs.now) (ty_view ty.now) (expr_view reference.now) }
{
    match reference {
        Expr::Name(_) => Some(ty),
        Expr::Index(of, _) => match type_along(structs, ty, of.get()) {
            Some(inner) => element_of(inner),
            None => None,
        },
        Expr::Member(of, name) => match type_along(structs, ty, of.get()) {
            Some(inner) => member_type(structs, name, inner),
            None => None,
        },
        Expr::Arrow(of, name) => match type_along(structs, ty, of.get()) {
            Some(inner) => pointed_member(structs, name, inner),
            None => None,
        },
        _ => None,
    }
}

/// The type of the declaration of this number.
fn declared_type(names: &[(u32, Ty)], number: u32) -> Option<&Ty>
    ensures { option_map ty_view (option_copied result)
        ≡ option_map (λ n. n.1) (slice_get (map name_view names.now) number) }
{
    match names.get(number as usize) {
        Some(name) => Some(&name.1),
        None => None,
    }
}

/// The type of a variable. A function has none as a host.
fn variable_type<'a>(scene: Scene<'a>, variable: Option<u32>) -> Option<&'a Ty>
    ensures { option_map ty_view (option_copied result)
        ≡ spec.variable_type (program_of scene.entry) variable }
{
    match variable {
        Some(number) => {
            if scene.functions.has(number) {
                None
            } else {
                declared_type(scene.names, number)
            }
        }
        None => None,
    }
}

/// The variable of a reference, by what the names in it denote.
pub(crate) fn variable_of(denoted: &[Option<u32>]) -> Option<u32>
    ensures { result ≡ spec.variable_of denoted.now }
{
    match denoted {
        [variable, ..] => *variable,
        [] => None,
    }
}

/// The type of a reference, by what the names in it denote.
pub(crate) fn reference_type<'a>(
    scene: Scene<'a>,
    reference: &Expr,
    denoted: &[Option<u32>],
) -> Option<&'a Ty>
    ensures { option_map ty_view (option_copied result)
        ≡ spec.reference_type (program_of scene.entry) (expr_view reference.now) denoted.now }
{
    match variable_type(scene, variable_of(denoted)) {
        Some(ty) => type_along(scene.structs, ty, reference),
        None => None,
    }
}

/// Whether a variable is declared in a section.
pub(crate) fn is_host(scene: Scene<'_>, variable: Option<u32>) -> bool
    ensures { result ≡ spec.is_host (program_of scene.entry) variable }
{
    match variable {
        Some(number) => scene.hosts.has(number),
        None => false,
    }
}

/// Whether each of these denotes a declaration.
fn all_some(denoted: &[Option<u32>]) -> bool
    ensures { result ≡ spec.all_some denoted.now }
{
    for declaration in denoted {
        if declaration.is_none() {
            return false;
        }
    }
    true
}

/// Whether the indexes of a reference are variables.
pub(crate) fn has_variable_indexes(denoted: &[Option<u32>]) -> bool
    ensures { result ≡ spec.has_variable_indexes denoted.now }
{
    match denoted {
        [_, indexes @ ..] => all_some(indexes),
        [] => true,
    }
}

/// A sum, where it can be counted.
pub(crate) fn sum(a: usize, b: usize) -> Result<usize, OutOfMemory>
    ensures { IfOk result (λ n. n ≡ a + b) }
{
    match a.checked_add(b) {
        Some(n) => Ok(n),
        // Out of reach, which isn't proved: a source has at most 2^22 tokens, so it has fewer names.
        None => Err(OutOfMemory),
    }
}

/// How many names stand in a reference.
pub(crate) fn names_count(reference: &Expr) -> Result<usize, OutOfMemory>
    ensures { IfOk result (λ n. n ≡ spec.names_count (expr_view reference.now)) }
{
    match reference {
        Expr::Name(_) => Ok(1),
        Expr::Index(of, index) => {
            let front = names_count(of.get())?;
            let rest = names_count(index.get())?;
            sum(front, rest)
        }
        Expr::Member(of, _) => names_count(of.get()),
        Expr::Arrow(of, _) => names_count(of.get()),
        _ => Ok(0),
    }
}

/// What is left behind so many.
pub(crate) fn behind(denoted: &[Option<u32>], at: usize) -> &[Option<u32>]
    ensures { result.now ≡ drop at denoted.now }
{
    if at <= denoted.len() {
        &denoted[at..]
    } else {
        &denoted[denoted.len()..]
    }
}

/// So many of the first.
fn front(denoted: &[Option<u32>], count: usize) -> &[Option<u32>]
    ensures { result.now ≡ take count denoted.now }
{
    if count <= denoted.len() {
        &denoted[..count]
    } else {
        denoted
    }
}

/// So many from this place on.
pub(crate) fn part(denoted: &[Option<u32>], at: usize, count: usize) -> &[Option<u32>]
    ensures { result.now ≡ take count (drop at denoted.now) }
{
    front(behind(denoted, at), count)
}
