//! How many leaves hosts have, and whether they are indicators, without making them.

ghost use Rattle.std.specs.Prelude.{◌≡◌, ◌+◌, ◌==◌, ℕ, [], IfOk, Some, map, option_map, List as Sequence, Option as Maybe};
ghost use Rattle.ec_ctypes.specs.views.Types.{ty_view, member_view, structs_view};
ghost use Rattle.ec_host_defs.specs.Faults as faults;
ghost use Rattle.ec_host_defs.specs.Leaves.{LeafData};
ghost use Rattle.ec_leaves.specs.Seen.{leaf_view};
ghost use Rattle.ec_params.specs.Tallies as spec;

use crate::indicators::{all_indicators, is_pointer};
use ec_base::{List, Name, OutOfMemory};
use ec_ctypes::{StructDef, Structs, Ty};
use ec_leaves::{Leaf, is_element, is_indicator, plain_struct};
use std::alloc::Global;

/// What is known of the leaves of a host.
#[derive(Clone, Copy, Debug)]
pub(crate) struct Tally {
    /// How many there are. The greatest number stands for all above it, too.
    pub count: u64,
    /// Whether all are of an indicator's type.
    pub indicators: bool,
}

/// The greatest number that is counted.
const MOST: u64 = 18_446_744_073_709_551_615;

/// So many in all.
fn joined_count(a: u64, b: u64) -> u64
    ensures { result ≡ spec.counted (a + b) }
{
    match a.checked_add(b) {
        Some(count) => count,
        None => MOST,
    }
}

/// One behind the other.
fn joined(a: Tally, b: Tally) -> Tally
    ensures { result ≡ spec.joined a b }
{
    Tally {
        count: joined_count(a.count, b.count),
        indicators: a.indicators && b.indicators,
    }
}

/// One behind the other, where both have leaves.
fn both(a: Option<Tally>, b: Option<Tally>) -> Option<Tally>
    ensures { result ≡ spec.both_tallies a b }
{
    match a {
        Some(left) => match b {
            Some(right) => Some(joined(left, right)),
            None => None,
        },
        None => None,
    }
}

/// That of one element of this type.
fn element_tally(ty: &Ty) -> Tally
    ensures { result ≡ spec.element_tally (ty_view ty.now) }
{
    Tally {
        count: 1,
        indicators: is_indicator(ty),
    }
}

/// That of a struct, if it is among the structs so far. What is no struct has no leaves.
fn struct_tally(tallies: &[Option<Tally>], id: Option<u32>) -> Option<Option<Tally>>
    ensures { result ≡ spec.struct_tally tallies.now id }
{
    match id {
        Some(number) => match tallies.get(number as usize) {
            Some(tally) => Some(*tally),
            None => None,
        },
        None => Some(None),
    }
}

/// That of a member of this type, by the structs so far.
fn member_tally(structs: &Structs, tallies: &[Option<Tally>], ty: &Ty) -> Option<Option<Tally>>
    ensures { result ≡ spec.member_tally (structs_view structs.now) tallies.now (ty_view ty.now) }
{
    if is_element(structs, ty) {
        Some(Some(element_tally(ty)))
    } else {
        struct_tally(tallies, plain_struct(structs, ty))
    }
}

/// That of a struct with these members, by the structs so far.
fn members_tally(
    structs: &Structs,
    tallies: &[Option<Tally>],
    members: &[(Name, Ty)],
) -> Option<Option<Tally>>
    ensures { result ≡ spec.members_tally (structs_view structs.now) tallies.now
        (Some spec.no_leaves) (map member_view members.now) }
{
    let mut all = Some(Tally {
        count: 0,
        indicators: true,
    });
    for member in members {
        match member_tally(structs, tallies, &member.1) {
            Some(tally) => all = both(all, tally),
            None => return None,
        }
    }
    Some(all)
}

/// Those of structs, up to the first that holds one that isn't among those so far.
pub(crate) fn tallies_of(
    alloc: Global,
    structs: &Structs,
    definitions: &[StructDef],
) -> Result<List<Option<Tally>>, OutOfMemory>
    ensures { IfOk result (λ tallies. tallies
        ≡ spec.with_tallies (structs_view structs.now) [] (structs_view definitions.now)) }
{
    let mut tallies = List::new(alloc);
    for definition in definitions {
        match members_tally(structs, tallies.as_slice(), definition.members.as_slice()) {
            Some(tally) => tallies.push(tally)?,
            None => return Ok(tallies),
        }
    }
    Ok(tallies)
}

/// That of an array of elements of this type, but of none of pointers.
fn elements_tally(of: &Ty) -> Option<Tally>
    ensures { result ≡ spec.elements_tally (ty_view of.now) }
{
    if is_pointer(of) {
        None
    } else {
        Some(element_tally(of))
    }
}

/// That of an array of this type.
fn array_tally(structs: &Structs, tallies: &[Option<Tally>], of: &Ty) -> Option<Option<Tally>>
    ensures { result ≡ spec.array_tally (structs_view structs.now) tallies.now (ty_view of.now) }
{
    if is_element(structs, of) {
        Some(elements_tally(of))
    } else {
        struct_tally(tallies, plain_struct(structs, of))
    }
}

/// That of what is no element.
fn other_tally(structs: &Structs, tallies: &[Option<Tally>], ty: &Ty) -> Option<Option<Tally>>
    ensures { result ≡ spec.other_tally (structs_view structs.now) tallies.now (ty_view ty.now) }
{
    match ty {
        Ty::Array(of, _) => array_tally(structs, tallies, of.get()),
        Ty::Struct(_) => struct_tally(tallies, plain_struct(structs, ty)),
        Ty::Void => Some(None),
        Ty::Bool => Some(None),
        Ty::Char => Some(None),
        Ty::UChar => Some(None),
        Ty::Short => Some(None),
        Ty::UShort => Some(None),
        Ty::Int => Some(None),
        Ty::UInt => Some(None),
        Ty::Long => Some(None),
        Ty::ULong => Some(None),
        Ty::LLong => Some(None),
        Ty::ULLong => Some(None),
        Ty::Ptr(_) => Some(None),
    }
}

/// That of a host of this type, by the tallies of the structs, if that of its struct is among them.
pub(crate) fn known_tally(
    structs: &Structs,
    tallies: &[Option<Tally>],
    ty: &Ty,
) -> Option<Option<Tally>>
    ensures { result ≡ spec.known_tally (structs_view structs.now) tallies.now (ty_view ty.now) }
{
    if is_element(structs, ty) {
        Some(Some(element_tally(ty)))
    } else {
        other_tally(structs, tallies, ty)
    }
}

/// That of these leaves.
pub(crate) fn leaves_tally(leaves: &Option<List<Leaf>>) -> Option<Tally>
    ensures { result ≡ spec.leaves_tally (option_map (map leaf_view) leaves.now) }
{
    match leaves {
        Some(list) => Some(Tally {
            count: list.len() as u64,
            indicators: all_indicators(list.as_slice()),
        }),
        None => None,
    }
}

/// Whether a host has leaves, and all are of an indicator's type.
pub(crate) fn are_indicators(tally: Option<Tally>) -> bool
    ensures { (found : Maybe (Sequence LeafData)) → tally ≡ spec.leaves_tally found
        → result ≡ faults.are_indicators found }
{
    match tally {
        Some(tally) => tally.indicators,
        None => false,
    }
}

/// Whether two hosts have as many leaves, where both have leaves. There is no memory for more leaves than are counted.
pub(crate) fn same_count(a: Option<Tally>, b: Option<Tally>) -> Result<bool, OutOfMemory>
    ensures { (own inner : Maybe (Sequence LeafData)) → a ≡ spec.leaves_tally own
        → b ≡ spec.leaves_tally inner → IfOk result (λ same. same
        ≡ faults.same_count (faults.leaf_count own) (faults.leaf_count inner)) }
{
    match a {
        Some(left) => match b {
            Some(right) => equal_counts(left.count, right.count),
            None => Ok(true),
        },
        None => Ok(true),
    }
}

/// Whether two counts are of one number. It can't be told of those above the greatest that is counted.
fn equal_counts(a: u64, b: u64) -> Result<bool, OutOfMemory>
    ensures { (m n : ℕ) → a ≡ spec.counted m → b ≡ spec.counted n
        → IfOk result (λ same. same ≡ (m == n)) }
{
    if a == MOST && b == MOST {
        // Out of reach, which isn't proved: a type is at most 2^24 bytes large (L1), and each leaf has a byte of its own.
        return Err(OutOfMemory);
    }
    Ok(a == b)
}
