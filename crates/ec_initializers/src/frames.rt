//! What is left to be initialized.

ghost use Rattle.std.specs.Prelude.{◌≡◌, IfOk};
ghost use Rattle.ec_ctypes.specs.views.Types.{ty_view};
ghost use Rattle.ec_typing_defs.specs.Initializers as rule;
ghost use Rattle.ec_initializers.specs.Frames.{frames_view, frame_taken, frame_view, frame_begun, taken_view, next_by, shared_members};

use ec_base::{List, OutOfMemory};
use ec_ctypes::{Ty, copy_ty};
use ec_rules::copy_type;
use ec_scopes::{Shared, Table};
use std::alloc::Global;

/// A part of an object of which some elements or members are left.
#[derive(Drop)]
pub enum Frame {
    /// Elements of this type, and how many are left.
    Elements(Ty, u64),
    /// Any number of elements of this type, and how many were begun.
    Any(Ty, u64),
    /// The members of a struct behind so many.
    Members(Shared<Table<Option<Ty>>>, usize),
    /// A struct whose members are not listed.
    NoMembers,
}

/// The parts that are left, of which the last is the innermost.
pub type Frames = List<Frame>;

/// What comes next in a part: the type of an element or a member, and what is left behind it.
#[derive(Drop)]
pub struct Taken {
    pub part: Option<Ty>,
    pub rest: Frame,
}

fn next_element(alloc: Global, ty: Ty, left: u64) -> Result<Option<Taken>, OutOfMemory>
    ensures { IfOk result
        (λ taken. taken_view taken ≡ frame_taken (rule.elements_left (ty_view ty) left)) }
{
    if left == 0 {
        return Ok(None);
    }
    let part = copy_ty(alloc, &ty)?;
    Ok(Some(Taken {
        part: Some(part),
        rest: Frame::Elements(ty, left - 1),
    }))
}

fn any_element(alloc: Global, ty: Ty, begun: u64) -> Result<Option<Taken>, OutOfMemory>
    ensures { IfOk result
        (λ taken. taken_view taken ≡ frame_taken (rule.any_elements (ty_view ty) begun)) }
{
    if begun == u64::MAX {
        // Out of reach, which isn't proved: each element takes a token, of which a source has at most 2^22.
        return Err(OutOfMemory);
    }
    let part = copy_ty(alloc, &ty)?;
    Ok(Some(Taken {
        part: Some(part),
        rest: Frame::Any(ty, begun + 1),
    }))
}

fn next_member(
    alloc: Global,
    members: Shared<Table<Option<Ty>>>,
    at: usize,
) -> Result<Option<Taken>, OutOfMemory>
    ensures { IfOk result (λ taken. taken_view taken ≡ frame_taken (shared_members members at)) }
{
    if at == usize::MAX {
        // Out of reach, which isn't proved: a struct has fewer members than its source has tokens.
        return Err(OutOfMemory);
    }
    let part = match members.get().value_at(at) {
        None => return Ok(None),
        Some(ty) => copy_type(alloc, ty)?,
    };
    Ok(Some(Taken {
        part,
        rest: Frame::Members(members, at + 1),
    }))
}

/// What comes next in a part, if something is left of it.
pub fn take_next(alloc: Global, frame: Frame) -> Result<Option<Taken>, OutOfMemory>
    ensures { IfOk result (λ taken. taken_view taken ≡ frame_taken (frame_view frame)) }
{
    match frame {
        Frame::Elements(ty, left) => next_element(alloc, ty, left),
        Frame::Any(ty, begun) => any_element(alloc, ty, begun),
        Frame::Members(members, at) => next_member(alloc, members, at),
        Frame::NoMembers => Ok(None),
    }
}

/// The next element or member, with its type if it has one, which is taken out of what is left.
pub fn next_part(alloc: Global, frames: &mut Frames) -> Result<Option<Option<Ty>>, OutOfMemory>
    ensures { IfOk result (λ part. next_by part (frames_view frames.new)
        ≡ rule.next_part (frames_view frames.old)) }
{
    while let Some(frame) = frames.pop() {
        if let Some(Taken { part, rest }) = take_next(alloc, frame)? {
            frames.push(rest)?;
            return Ok(Some(part));
        }
    }
    Ok(None)
}

// How many elements were begun, where their number is unknown.
fn begun_in(frame: &Frame) -> u64
    ensures { result ≡ frame_begun (frame_view frame.now) }
{
    match frame {
        Frame::Any(_, begun) => *begun,
        _ => 0,
    }
}

/// How many elements of an object of unknown length were begun: the outermost part tells.
pub fn elements_begun(frames: &[Frame]) -> u64
    ensures { result ≡ rule.elements_begun (frames_view frames.now) }
{
    match frames {
        [] => 0,
        [outermost, ..] => begun_in(outermost),
    }
}
