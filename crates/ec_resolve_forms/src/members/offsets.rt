//! Where the members of a struct stand (ISO/IEC 9899:1999, 6.7.2.1).

ghost use Rattle.std.specs.Prelude.{◌≡◌, IfOk, Some, is_some, slice_get};
ghost use Rattle.std.specs.Int.{next_multiple_of};
ghost use Rattle.ec_ctypes.specs.Layout.{no_members, with_member};
ghost use Rattle.ec_ctypes.specs.views.Types.{ty_view};
ghost use Rattle.ec_scopes.specs.Entries.{named_view, type_view};
ghost use Rattle.ec_scopes.specs.Seen.{world_of};
ghost use Rattle.ec_typing_defs.specs.Expressions.{typed_members};
ghost use Rattle.ec_typing_defs.specs.Worlds.{shape_in, shapes_in};
ghost use Rattle.ec_resolve_forms.specs.members.Offsets.{is_untyped_at, offset_by, offset_from, offset_in, passed, passed_at, passed_shape};

use ec_base::OutOfMemory;
use ec_ctypes::{Shape, Ty};
use ec_scopes::{Checker, Measure, Members, Table};

/// The greatest size of a type, in bytes.
const LIMIT: u64 = 16_777_216;

/// What is found where a member is passed on the way to the one that is looked for.
#[derive(Clone, Copy)]
pub(crate) enum Passed {
    /// It is the one, and stands at this offset.
    Here(u64),
    /// It is another, and these are the members so far.
    Behind(Shape),
    /// It has no size, so nothing is known of what stands here and behind it.
    Nowhere,
}

/// The shape of a type, if it has one. There is no memory for one of more than 2^24 bytes.
fn shape_of(checker: &Checker, ty: &Ty) -> Result<Option<Shape>, OutOfMemory>
    ensures { IfOk result (λ shape. shape ≡ shape_in (world_of checker.now) (ty_view ty.now)) }
{
    match checker.shape(ty) {
        Measure::Unknown => Ok(None),
        Measure::Within(shape) => Ok(Some(shape)),
        // Out of reach, which isn't proved: an object of such a type is beyond L1.
        Measure::TooLarge => Err(OutOfMemory),
    }
}

/// Where a member of this alignment starts behind so many bytes. There is no memory behind more than 2^24 of them.
fn start(used: u64, align: u64) -> Result<u64, OutOfMemory>
    ensures { IfOk result (λ offset. offset ≡ next_multiple_of used align) }
{
    if used > LIMIT || align == 0 || align > 8 {
        // Out of reach, which isn't proved: shapes are within L1, and aligned to at most 8.
        return Err(OutOfMemory);
    }
    Ok(used.next_multiple_of(align))
}

/// The members so far, and one more behind them.
fn joined(before: Shape, member: Shape) -> Result<Shape, OutOfMemory>
    ensures { IfOk result (λ all. all ≡ with_member before member) }
{
    let offset = start(before.size, member.align)?;
    match offset.checked_add(member.size) {
        Some(size) => Ok(Shape {
            size,
            align: before.align.max(member.align),
        }),
        // Out of reach, which isn't proved: both are within L1.
        None => Err(OutOfMemory),
    }
}

/// A member of this shape is passed, which may be the one that is looked for.
fn pass_shape(before: Shape, is_named: bool, shape: Option<Shape>) -> Result<Passed, OutOfMemory>
    ensures { IfOk result (λ found. found ≡ passed_shape before is_named shape) }
{
    match shape {
        None => Ok(Passed::Nowhere),
        Some(shape) => {
            if is_named {
                Ok(Passed::Here(start(before.size, shape.align)?))
            } else {
                Ok(Passed::Behind(joined(before, shape)?))
            }
        }
    }
}

/// A member of this name and type is passed on the way to the one of another name.
fn pass(
    checker: &Checker,
    before: Shape,
    name: &[u8],
    title: &[u8],
    ty: &Option<Ty>,
) -> Result<Passed, OutOfMemory>
    ensures { IfOk result (λ found. found ≡ passed (shapes_in (world_of checker.now)) before
        name.now (title.now, type_view ty.now)) }
{
    match ty {
        None => Ok(Passed::Nowhere),
        Some(ty) => {
            let shape = shape_of(checker, ty)?;
            pass_shape(before, title == name, shape)
        }
    }
}

/// The member of this number is passed, if there is one.
fn pass_at(
    checker: &Checker,
    before: Shape,
    name: &[u8],
    members: &Table<Option<Ty>>,
    i: usize,
) -> Result<Passed, OutOfMemory>
    ensures { IfOk result (λ found. found ≡ passed_at (shapes_in (world_of checker.now)) before
        name.now (slice_get (named_view type_view members.now) i)) }
{
    match members.name_at(i) {
        None => Ok(Passed::Nowhere),
        Some(title) => match members.value_at(i) {
            None => Ok(Passed::Nowhere),
            Some(ty) => pass(checker, before, name, title, ty),
        },
    }
}

/// The offset of the member of this name, unless a member on the way to it has no size.
fn offset_from(
    checker: &Checker,
    members: &Table<Option<Ty>>,
    name: &[u8],
) -> Result<Option<u64>, OutOfMemory>
    ensures { IfOk result (λ offset. offset ≡ offset_from (shapes_in (world_of checker.now))
        no_members name.now (named_view type_view members.now)) }
{
    let mut before = Shape { size: 0, align: 1 };
    for i in 0..members.len() {
        let found = pass_at(checker, before, name, members, i)?;
        match found {
            Passed::Here(offset) => return Ok(Some(offset)),
            Passed::Nowhere => return Ok(None),
            Passed::Behind(more) => before = more,
        }
    }
    Ok(None)
}

/// Whether there is no member of this number, or it has no type.
fn is_untyped(members: &Table<Option<Ty>>, i: usize) -> bool
    ensures { result ≡ is_untyped_at (slice_get (named_view type_view members.now) i) }
{
    match members.value_at(i) {
        Some(Some(_)) => false,
        Some(None) => true,
        None => true,
    }
}

/// Whether each member has a type.
fn are_typed(members: &Table<Option<Ty>>) -> bool
    ensures { result ≡ is_some (typed_members (named_view type_view members.now)) }
{
    for i in 0..members.len() {
        if is_untyped(members, i) {
            return false;
        }
    }
    true
}

/// The offset of the member of this name among these, if each of them has a type.
fn offset_among(
    checker: &Checker,
    members: &Table<Option<Ty>>,
    name: &[u8],
) -> Result<Option<u64>, OutOfMemory>
    ensures { IfOk result (λ offset. offset ≡ offset_by (shapes_in (world_of checker.now))
        name.now (named_view type_view members.now)) }
{
    if are_typed(members) {
        offset_from(checker, members, name)
    } else {
        Ok(None)
    }
}

/// The offset of the member of this name in the struct of this number, found by a walk over its members.
fn walked_offset(checker: &Checker, number: u32, name: &[u8]) -> Result<Option<u64>, OutOfMemory>
    ensures { IfOk result (λ offset. offset
        ≡ offset_in (world_of checker.now) (Some number) name.now) }
{
    match checker.members_of(number) {
        Some(Members::Listed(members)) => {
            let members = members.get();
            offset_among(checker, members, name)
        }
        Some(Members::Unlisted) => Ok(None),
        Some(Members::Begun) => Ok(None),
        None => Ok(None),
    }
}

/// The offset of the member of this name in the struct of this number, if there is such a struct, it is complete, and the
/// member is one of it.
#[tactic(auto, using(crate::proofs::members_lemmas::Passing::kept_offset))]
pub(crate) fn offset_in(
    checker: &Checker,
    number: Option<u32>,
    name: &[u8],
) -> Result<Option<u64>, OutOfMemory>
    ensures { IfOk result (λ offset. offset ≡ offset_in (world_of checker.now) number name.now) }
{
    match number {
        None => Ok(None),
        Some(number) => match checker.offset(number, name) {
            Some(offset) => Ok(Some(offset)),
            None => walked_offset(checker, number, name),
        },
    }
}
