//! The types that the values of hosts may have.
#![tactic(auto, using(crate::proofs::Lowest::lowest))]

ghost use Rattle.std.specs.Prelude.{◌≡◌, IfOk, is_some, option_map};
ghost use Rattle.std.specs.Option.{option_copied};
ghost use Rattle.ec_ctypes.specs.views.Types.{ty_view, structs_view};
ghost use Rattle.ec_host_defs.specs.Faults as spec;
ghost use Rattle.ec_host_defs.specs.Leaves as hosts;
ghost use Rattle.ec_params.specs.Least.{least};
ghost use Rattle.ec_params.specs.Shapes.{role_view};

use crate::known::Known;
use crate::least::{fault_unless, lower_of, only};
use ec_base::{FaultKind, OutOfMemory};
use ec_ctypes::{Structs, Ty};
use ec_leaves::{is_element, is_text};
use std::alloc::Global;

/// What a host is for.
#[derive(Clone, Copy, Debug)]
pub(crate) enum Role {
    /// A name or a text.
    Text,
    /// A value that is sent.
    Input,
    /// Where an answer is stored.
    Output,
    /// An index or a count of a descriptor.
    Number,
    /// An item of a descriptor.
    Item,
}

/// Whether a type is that of a host.
fn has_leaves(alloc: Global, structs: &Known<'_>, ty: &Ty) -> Result<bool, OutOfMemory>
    ensures { IfOk result (λ has. has
        ≡ is_some (hosts.leaves (structs_view structs.now) (ty_view ty.now))) }
{
    let tally = structs.tally(alloc, ty)?;
    Ok(tally.is_some())
}

/// Whether a value of this type may stand there.
fn suits_role(alloc: Global, structs: &Known<'_>, role: Role, ty: &Ty) -> Result<bool, OutOfMemory>
    ensures { IfOk result (λ suits. suits
        ≡ spec.suits_role (structs_view structs.now) (role_view role) (ty_view ty.now)) }
{
    match role {
        Role::Text => Ok(is_text(structs.all(), ty)),
        Role::Input => has_leaves(alloc, structs, ty),
        Role::Output => has_leaves(alloc, structs, ty),
        Role::Number => Ok(is_element(structs.all(), ty)),
        Role::Item => Ok(is_element(structs.all(), ty)),
    }
}

/// Whether this is an array, but none of characters.
fn is_plain_array(structs: &Structs, ty: &Ty) -> bool
    ensures { result ≡ spec.is_plain_array (structs_view structs.now) (ty_view ty.now) }
{
    match ty {
        Ty::Array(_, _) => !is_element(structs, ty),
        Ty::Void => false,
        Ty::Bool => false,
        Ty::Char => false,
        Ty::UChar => false,
        Ty::Short => false,
        Ty::UShort => false,
        Ty::Int => false,
        Ty::UInt => false,
        Ty::Long => false,
        Ty::ULong => false,
        Ty::LLong => false,
        Ty::ULLong => false,
        Ty::Ptr(_) => false,
        Ty::Struct(_) => false,
    }
}

/// Whether this is an array that is sent.
fn is_array_input(structs: &Structs, role: Role, ty: &Ty) -> bool
    ensures { result
        ≡ spec.is_array_input (structs_view structs.now) (role_view role) (ty_view ty.now) }
{
    match role {
        Role::Input => is_plain_array(structs, ty),
        Role::Text => false,
        Role::Output => false,
        Role::Number => false,
        Role::Item => false,
    }
}

/// The first fault of a value of this type.
fn type_fault(
    alloc: Global,
    structs: &Known<'_>,
    role: Role,
    ty: &Ty,
) -> Result<Option<FaultKind>, OutOfMemory>
    ensures { IfOk result (λ fault. fault
        ≡ least (spec.value_faults (structs_view structs.now) (role_view role) (Some
        (ty_view ty.now)))) }
{
    let suits = suits_role(alloc, structs, role, ty)?;
    let fault = fault_unless(suits, FaultKind::F22);
    let array = fault_unless(!is_array_input(structs.all(), role, ty), FaultKind::F24);
    Ok(lower_of(fault, array))
}

/// The first fault of a value: F22 where its type may not stand there or it has none, F24 of an array that is sent.
pub(crate) fn value_fault(
    alloc: Global,
    structs: &Known<'_>,
    role: Role,
    ty: Option<&Ty>,
) -> Result<Option<FaultKind>, OutOfMemory>
    ensures { IfOk result (λ fault. fault ≡ least (spec.value_faults (structs_view structs.now)
        (role_view role) (option_map ty_view (option_copied ty.entry)))) }
{
    match ty {
        Some(ty) => type_fault(alloc, structs, role, ty),
        None => Ok(only(FaultKind::F22)),
    }
}
