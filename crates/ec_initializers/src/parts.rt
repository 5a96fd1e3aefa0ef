//! Where an expression of a list goes (ISO/IEC 9899:1999, 6.7.8, 17 to 20).
#![tactic(auto, using(ec_scopes::proofs::Steps::noting), unfolding(ec_typing_defs::specs::Worlds::chain, ec_typing_defs::specs::Worlds::pure, ec_typing_defs::specs::Worlds::ask, ec_typing_defs::specs::Worlds::note, ec_typing_defs::specs::Worlds::demand, ec_typing_defs::specs::Initializers::part_rule, ec_typing_defs::specs::Initializers::slot_rule))]

ghost use Rattle.std.specs.Prelude.{◌≡◌, false, IfOk};
ghost use Rattle.ec_ctypes.specs.views.Types.{ty_view};
ghost use Rattle.ec_ctypes.specs.trees.Types.{array, structure};
ghost use Rattle.ec_scopes.specs.Entries.{place_view};
ghost use Rattle.ec_scopes.specs.Seen.{world_of, Does};
ghost use Rattle.ec_rules.specs.Seen.{operand_view};
ghost use Rattle.ec_typing_defs.specs.Initializers as rule;
ghost use Rattle.ec_typing_defs.specs.Initializers.{members_left};
ghost use Rattle.ec_typing_defs.specs.Types.{is_scalar};
ghost use Rattle.ec_typing_defs.specs.Worlds.{members_of};
ghost use Rattle.ec_initializers.specs.Frames.{frame_view, frames_view, known_frames, gone_to, Opens, OpensMembers};
ghost use Rattle.ec_initializers.specs.Slots.{slot_view};

use crate::frames::{Frame, Frames, next_part};
use ec_base::{FaultKind, List, OutOfMemory};
use ec_ctypes::{Ty, copy_ty};
use ec_rules::{Operand, is_whole, suits_rule};
use ec_scopes::{Checker, Members, Place, Shared, Table};
use std::alloc::Global;

// More parts than stand one in another in any program.
const MAX_DEPTH: u64 = 1 << 32;

// The members of the struct of this number, if they are listed.
fn members_frame(checker: &Checker, k: u32) -> Result<Frame, OutOfMemory>
    ensures { IfOk result (λ frame. frame_view frame
        ≡ members_left (rule.member_types (members_of k (world_of checker.now)))) }
{
    match checker.members_of(k) {
        Some(Members::Listed(members)) => Ok(Frame::Members(members.share()?, 0)),
        Some(Members::Begun) => Ok(Frame::NoMembers),
        Some(Members::Unlisted) => Ok(Frame::NoMembers),
        None => Ok(Frame::NoMembers),
    }
}

/// All parts of an object of this type.
pub fn parts_of(checker: &Checker, ty: &Ty) -> Result<Frames, OutOfMemory>
    ensures { IfOk result
        (λ frames. frames_view frames ≡ rule.parts_of (world_of checker.now) (ty_view ty.now)) }
{
    let alloc = checker.alloc();
    let mut frames = List::new(alloc);
    match ty {
        Ty::Void => {}
        Ty::Array(of, 0) => frames.push(Frame::Any(copy_ty(alloc, of.get())?, 0))?,
        Ty::Array(of, n) => frames.push(Frame::Elements(copy_ty(alloc, of.get())?, *n))?,
        Ty::Struct(k) => frames.push(members_frame(checker, *k)?)?,
        _ => frames.push(Frame::Elements(copy_ty(alloc, ty)?, 1))?,
    }
    Ok(frames)
}

// The first of these members, which is gone into.
fn open_members(
    alloc: Global,
    members: &Shared<Table<Option<Ty>>>,
    frames: &mut Frames,
) -> Result<Option<Ty>, OutOfMemory>
    ensures { IfOk result (λ first. OpensMembers members.now (frames_view frames.old) first
        (frames_view frames.new)) }
{
    match members.get().value_at(0) {
        None => Ok(None),
        Some(None) => Ok(None),
        Some(Some(ty)) => {
            let first = copy_ty(alloc, ty)?;
            frames.push(Frame::Members(members.share()?, 1))?;
            Ok(Some(first))
        }
    }
}

// The first member of a struct, which is gone into.
fn open_struct(checker: &Checker, k: u32, frames: &mut Frames) -> Result<Option<Ty>, OutOfMemory>
    ensures { IfOk result (λ first. Opens (world_of checker.now) (structure k)
        (frames_view frames.old) first (frames_view frames.new)) }
{
    match checker.members_of(k) {
        Some(Members::Listed(members)) => open_members(checker.alloc(), members, frames),
        Some(Members::Begun) => Ok(None),
        Some(Members::Unlisted) => Ok(None),
        None => Ok(None),
    }
}

// The first element of an array, which is gone into.
fn open_array(
    checker: &Checker,
    of: Ty,
    count: u64,
    frames: &mut Frames,
) -> Result<Option<Ty>, OutOfMemory>
    ensures { IfOk result (λ first. Opens (world_of checker.now) (array (ty_view of) count)
        (frames_view frames.old) first (frames_view frames.new)) }
{
    let first = copy_ty(checker.alloc(), &of)?;
    if count == 0 {
        frames.push(Frame::Any(of, 1))?;
    } else {
        frames.push(Frame::Elements(of, count - 1))?;
    }
    Ok(Some(first))
}

/// The first part of an object of this type, which is gone into, if there is one with a type.
pub fn open_first(checker: &Checker, ty: Ty, frames: &mut Frames) -> Result<Option<Ty>, OutOfMemory>
    requires { is_scalar (ty_view ty) ≡ false }
    ensures { IfOk result (λ first. Opens (world_of checker.now) (ty_view ty)
        (frames_view frames.old) first (frames_view frames.new)) }
{
    match ty {
        Ty::Array(of, count) => open_array(checker, of.into_inner(), count, frames),
        Ty::Struct(k) => open_struct(checker, k, frames),
        _ => Ok(None),
    }
}

// Where an expression goes that stands where an object of this type begins: to it as a whole, or into it, at most so
// many parts deep. It is the type that it initializes, if there is one.
fn go_in(
    checker: &Checker,
    depth: u64,
    o: &Operand,
    ty: Ty,
    frames: &mut Frames,
) -> Result<Option<Ty>, OutOfMemory>
    ensures { IfOk result (λ gone. gone_to gone (frames_view frames.new)
        ≡ rule.going_in depth (world_of checker.now) (operand_view o.now) (ty_view ty)
        (frames_view frames.old)) }
{
    let mut left = depth;
    let mut here = ty;
    while left > 0 {
        if is_whole(o, &here) {
            return Ok(Some(here));
        }
        match open_first(checker, here, frames)? {
            Some(first) => here = first,
            None => return Ok(None),
        }
        left -= 1;
    }
    Ok(None)
}

// An expression with a type goes to the next part, or into it; F14 where no part is left (ISO/IEC 9899:1999, 6.7.8, 2).
fn go_to(
    checker: &mut Checker,
    at: Place,
    frames: Frames,
    o: &Operand,
) -> Result<Option<Frames>, OutOfMemory>
    ensures { Does known_frames (rule.go_to (place_view at) (operand_view o.now)
        (rule.next_part (frames_view frames))
        (world_of checker.old)) checker.old result checker.new }
{
    let mut rest = frames;
    match next_part(checker.alloc(), &mut rest)? {
        None => {
            checker.note(at, FaultKind::F14);
            Ok(Some(List::new(checker.alloc())))
        }
        Some(None) => Ok(None),
        Some(Some(ty)) => match go_in(checker, MAX_DEPTH, o, ty, &mut rest)? {
            None => Ok(None),
            Some(ty) => {
                suits_rule(checker, at, o, &ty);
                Ok(Some(rest))
            }
        },
    }
}

/// One expression of a list goes to the next part, or into it, if it is known which parts are left.
pub fn part_rule(
    checker: &mut Checker,
    at: Place,
    frames: Option<Frames>,
    o: &Operand,
) -> Result<Option<Frames>, OutOfMemory>
    ensures { Does known_frames (rule.part_rule (place_view at) (known_frames frames)
        (operand_view o.now) (world_of checker.old)) checker.old result checker.new }
{
    match (frames, &o.ty) {
        (Some(frames), Some(_)) => go_to(checker, at, frames, o),
        _ => Ok(None),
    }
}

/// The part that braces in a list initialize, with its type if that is known, and what is left behind it.
#[derive(Drop)]
pub struct Slot {
    pub ty: Option<Ty>,
    pub rest: Option<Frames>,
}

// The next part is the one; F14 where no part is left.
fn slot_of(checker: &mut Checker, at: Place, frames: Frames) -> Result<Slot, OutOfMemory>
    ensures { Does slot_view (rule.slot_of (place_view at) (rule.next_part (frames_view frames))
        (world_of checker.old)) checker.old result checker.new }
{
    let mut rest = frames;
    match next_part(checker.alloc(), &mut rest)? {
        None => {
            checker.note(at, FaultKind::F14);
            Ok(Slot {
                ty: None,
                rest: Some(List::new(checker.alloc())),
            })
        }
        Some(None) => Ok(Slot {
            ty: None,
            rest: None,
        }),
        Some(Some(ty)) => Ok(Slot {
            ty: Some(ty),
            rest: Some(rest),
        }),
    }
}

/// The part that braces in a list initialize, if it is known which parts are left.
pub fn slot_rule(
    checker: &mut Checker,
    at: Place,
    frames: Option<Frames>,
) -> Result<Slot, OutOfMemory>
    ensures { Does slot_view (rule.slot_rule (place_view at) (known_frames frames)
        (world_of checker.old)) checker.old result checker.new }
{
    match frames {
        None => Ok(Slot {
            ty: None,
            rest: None,
        }),
        Some(frames) => slot_of(checker, at, frames),
    }
}
