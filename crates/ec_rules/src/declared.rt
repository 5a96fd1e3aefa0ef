//! The types of declarators (ISO/IEC 9899:1999, 6.7.5), and what is asked of them.
#![tactic(auto, using(ec_scopes::proofs::Steps::noting), unfolding(ec_typing_defs::specs::Worlds::chain, ec_typing_defs::specs::Worlds::pure, ec_typing_defs::specs::Worlds::ask, ec_typing_defs::specs::Worlds::note, ec_typing_defs::specs::Worlds::demand, ec_typing_defs::specs::Worlds::keep_within, ec_typing_defs::specs::Operands::length_rule, ec_typing_defs::specs::Operands::within_rule, ec_typing_defs::specs::Operands::complete_rule))]

ghost use Rattle.std.specs.Prelude.{◌≡◌, IfOk};
ghost use Rattle.ec_ctypes.specs.views.Types.{ty_view};
ghost use Rattle.ec_scopes.specs.Entries.{place_view, type_view};
ghost use Rattle.ec_scopes.specs.Seen.{world_of, IsDone, Does};
ghost use Rattle.ec_type_rules.specs.Views.{constant_view};
ghost use Rattle.ec_typing_defs.specs.Operands as rule;
ghost use Rattle.ec_typing_defs.specs.Worlds.{is_complete};
ghost use Rattle.ec_rules.specs.Seen.{operand_view, array_completeness};

use crate::operand::Operand;
use ec_base::{Boxed, FaultKind, LimitKind, OutOfMemory};
use ec_ctypes::{Ty, copy_ty};
use ec_scopes::{Checker, Place};
use ec_type_rules::Constant;
use std::alloc::Global;

/// A copy of a type, if there is one.
pub fn copy_type(alloc: Global, ty: &Option<Ty>) -> Result<Option<Ty>, OutOfMemory>
    ensures { IfOk result (λ copy. copy ≡ ty.now) }
{
    match ty {
        Some(ty) => Ok(Some(copy_ty(alloc, ty)?)),
        None => Ok(None),
    }
}

/// The type that a declarator makes of a type: so many stars, and array lengths, the first outermost. A length is 0
/// where it is left out, and `None` where it has a fault, as then the type has.
pub fn declared_type(
    alloc: Global,
    ty: Option<Ty>,
    stars: u32,
    lengths: &[Option<u64>],
) -> Result<Option<Ty>, OutOfMemory>
    ensures { IfOk result (λ made. type_view made
        ≡ rule.declared_type (type_view ty) stars lengths.now) }
{
    match ty {
        None => Ok(None),
        Some(ty) => arrays(alloc, pointers(alloc, ty, stars)?, lengths),
    }
}

/// A pointer to the type, so many times.
fn pointers(alloc: Global, ty: Ty, stars: u32) -> Result<Ty, OutOfMemory>
    ensures { IfOk result (λ made. ty_view made ≡ rule.pointers stars (ty_view ty)) }
{
    let mut made = ty;
    let mut left = stars;
    while left > 0 {
        made = Ty::Ptr(Boxed::new(alloc, made)?);
        left -= 1;
    }
    Ok(made)
}

/// An array of arrays of the type.
fn arrays(alloc: Global, ty: Ty, lengths: &[Option<u64>]) -> Result<Option<Ty>, OutOfMemory>
    ensures { IfOk result (λ made. type_view made ≡ rule.arrays (ty_view ty) lengths.now) }
{
    let mut made = Some(ty);
    let mut left = lengths.len();
    while left > 0 {
        left -= 1;
        made = array_of(alloc, lengths[left], made)?;
    }
    Ok(made)
}

/// An array of so many elements of the type, if both are known.
fn array_of(alloc: Global, length: Option<u64>, ty: Option<Ty>) -> Result<Option<Ty>, OutOfMemory>
    ensures { IfOk result (λ made. type_view made ≡ rule.array_of length (type_view ty)) }
{
    match (length, ty) {
        (Some(length), Some(ty)) => Ok(Some(Ty::Array(Boxed::new(alloc, ty)?, length))),
        _ => Ok(None),
    }
}

/// An element has a complete type, or F14, also where the length of its array has a fault (ISO/IEC 9899:1999, 6.7.5.2, 1).
pub fn elements_rule(
    checker: &mut Checker,
    at: Place,
    ty: &Option<Ty>,
    stars: u32,
    lengths: &[Option<u64>],
)
    ensures { IsDone (rule.elements_rule (place_view at) (type_view ty.now) stars lengths.now
        (world_of checker.old)) checker.old checker.new tt }
{
    if let Some(ty) = ty {
        let complete = has_complete_elements(checker, ty, stars, lengths);
        checker.demand(at, FaultKind::F14, complete);
    }
}

/// Whether the elements of arrays of so many pointers to the type are complete, as far as their types are known.
fn has_complete_elements(checker: &Checker, ty: &Ty, stars: u32, lengths: &[Option<u64>]) -> bool
    ensures { result ≡ rule.has_complete_elements (is_complete (world_of checker.now))
        (rule.pointers stars (ty_view ty.now)) lengths.now }
{
    let mut element = Some(are_pointers_complete(checker, ty, stars));
    let mut complete = true;
    let mut left = lengths.len();
    while left > 0 {
        left -= 1;
        complete = complete && element.unwrap_or(true);
        element = completeness_of_array(lengths[left], element);
    }
    complete
}

/// Whether so many pointers to the type are complete.
#[tactic(auto, using(crate::proofs::Pointers::pointers_complete))]
fn are_pointers_complete(checker: &Checker, ty: &Ty, stars: u32) -> bool
    ensures { result ≡ is_complete (world_of checker.now) (rule.pointers stars (ty_view ty.now)) }
{
    match stars {
        0 => checker.is_complete(ty),
        _ => true,
    }
}

/// Whether an array of so many elements is complete, where it is known of these, and if its length has no fault.
fn completeness_of_array(length: Option<u64>, element: Option<bool>) -> Option<bool>
    ensures { result ≡ array_completeness length element }
{
    match (length, element) {
        (Some(length), Some(element)) => Some(length > 0 && element),
        _ => None,
    }
}

/// The length of an array is an integer constant expression of 1 or more, or F19 (ISO/IEC 9899:1999, 6.7.5.2, 1).
pub fn length_rule(
    checker: &mut Checker,
    at: Place,
    o: &Operand,
) -> Result<Option<u64>, OutOfMemory>
    ensures { Does (λ length. length) (rule.length_rule (place_view at) (operand_view o.now)
        (world_of checker.old)) checker.old result checker.new }
{
    match &o.ty {
        None => Ok(None),
        Some(_) => {
            let length = positive(o.constant)?;
            if length.is_none() {
                checker.note(at, FaultKind::F19);
            }
            Ok(length)
        }
    }
}

/// The value of a constant of 1 or more. That no constant expression has one above 2^64, since each lies in its type,
/// isn't proved.
fn positive(constant: Constant) -> Result<Option<u64>, OutOfMemory>
    ensures { IfOk result (λ length. length ≡ rule.positive (constant_view constant)) }
{
    match constant {
        Constant::Known(value) if value > i128::from(u64::MAX) => Err(OutOfMemory),
        Constant::Known(value) if value > 0 => Ok(Some(value as u64)),
        _ => Ok(None),
    }
}

/// L1: no array in this type is larger than the limit.
pub fn within_rule(checker: &mut Checker, at: Place, ty: &Option<Ty>)
    ensures { IsDone (rule.within_rule (place_view at) (type_view ty.now) (world_of checker.old))
        checker.old checker.new tt }
{
    if let Some(ty) = ty {
        let small = checker.arrays_within(ty);
        checker.keep_within(at, LimitKind::L1, small);
    }
}

/// An object, a member or the element of a parameter has a complete type, or F14 (ISO/IEC 9899:1999, 6.7, 7; 6.7.2.1, 2; 6.7.5.2, 1).
pub fn complete_rule(checker: &mut Checker, at: Place, ty: Option<Ty>) -> Option<Ty>
    ensures { IsDone (rule.complete_rule (place_view at) (type_view ty) (world_of checker.old))
        checker.old checker.new (type_view result) }
{
    match ty {
        Some(ty) if !checker.is_complete(&ty) => {
            checker.note(at, FaultKind::F14);
            None
        }
        other => other,
    }
}
