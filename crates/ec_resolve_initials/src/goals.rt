//! Where an expression of a list goes, and a list in braces (ISO/IEC 9899:1999, 6.7.8, 17 to 20).

ghost use Rattle.std.specs.Prelude.{◌≡◌, [], false, IfOk, Some, option_map};
ghost use Rattle.ec_ctypes.specs.views.Types.{ty_view};
ghost use Rattle.ec_resolving_defs.specs.Initializers as of;
ghost use Rattle.ec_rules.specs.Seen.{operand_view};
ghost use Rattle.ec_scopes.specs.Entries.{type_view};
ghost use Rattle.ec_scopes.specs.Seen.{world_of};
ghost use Rattle.ec_typing_defs.specs.Initializers as rule;
ghost use Rattle.ec_typing_defs.specs.Types.{is_scalar};
ghost use Rattle.ec_initializers.specs.Frames.{frames_view, gone_to, known_frames, Opens};
ghost use Rattle.ec_resolve_initials.specs.Left.{frames_behind, frames_by, goal_view, left_view, opened_spots, slot_at, slot_in, slot_place, slot_view, typed_frames};
ghost use Rattle.ec_resolve_initials.specs.Spots.{next_place, spots_view};

use crate::left::{Left, Next, next_part};
use crate::spots::{Spots, open_spot, shape_of};
use ec_base::{List, OutOfMemory, beside};
use ec_ctypes::Ty;
use ec_initializers::{Frames, open_first};
use ec_rules::{Operand, is_whole};
use ec_scopes::Checker;
use std::alloc::Global;

/// More parts than stand one in another in any program.
const MAX_DEPTH: u64 = 1 << 32;

/// The first part of an object of this type that begins here, which is gone into, if there is one with a type.
fn open_part(
    checker: &Checker,
    ty: Ty,
    offset: u64,
    frames: &mut Frames,
    spots: &mut Spots,
) -> Result<Option<Ty>, OutOfMemory>
    requires { is_scalar (ty_view ty) ≡ false }
    ensures frames { IfOk result (λ first. Opens (world_of checker.now) (ty_view ty)
        (frames_view frames.old) first (frames_view frames.new)) }
    ensures spots { IfOk result (λ first. spots_view spots.new
        ≡ opened_spots (world_of checker.now) offset (type_view first) (spots_view spots.old)) }
{
    match open_first(checker, ty, frames)? {
        None => Ok(None),
        Some(first) => {
            let shape = shape_of(checker, &first);
            let (first, ()) = beside(first, open_spot(spots, offset, shape))?;
            Ok(Some(first))
        }
    }
}

/// Where an expression goes that stands where an object of this type begins: to it as a whole, or into it, at most so
/// many parts deep. It is the type that it initializes, if there is one.
fn go_in(
    checker: &Checker,
    depth: u64,
    o: &Operand,
    ty: Ty,
    offset: u64,
    frames: &mut Frames,
    spots: &mut Spots,
) -> Result<Option<Ty>, OutOfMemory>
    ensures frames { IfOk result (λ gone. gone_to gone (frames_view frames.new)
        ≡ rule.going_in depth (world_of checker.now) (operand_view o.now) (ty_view ty)
        (frames_view frames.old)) }
    ensures spots { IfOk result (λ _. spots_view spots.new
        ≡ of.spots_in depth (world_of checker.now) (operand_view o.now) offset (ty_view ty)
        (spots_view spots.old)) }
{
    let mut left = depth;
    let mut here = ty;
    while left > 0 {
        if is_whole(o, &here) {
            return Ok(Some(here));
        }
        match open_part(checker, here, offset, frames, spots)? {
            Some(first) => here = first,
            None => return Ok(None),
        }
        left -= 1;
    }
    Ok(None)
}

/// Where an expression goes: the type that it initializes, the offset, and what is left behind it.
#[derive(Drop)]
pub struct Aim {
    pub ty: Option<Ty>,
    pub offset: u64,
    pub rest: Left,
}

/// What is left behind an expression, if it went to a part of a known type and has one itself.
fn kept(frames: Frames, gone: &Option<Ty>, o: &Operand) -> Option<Frames>
    ensures { known_frames result ≡ typed_frames (operand_view o.now).type
        (option_map (λ q. q.1) (gone_to gone.now (frames_view frames))) }
{
    match (&o.ty, gone) {
        (Some(_), Some(_)) => Some(frames),
        (Some(_), None) => None,
        (None, Some(_)) => None,
        (None, None) => None,
    }
}

/// An expression goes to a part of this type, or into it.
fn aim_into(
    checker: &Checker,
    ty: Ty,
    offset: u64,
    left_frames: Frames,
    left_spots: Spots,
    o: &Operand,
) -> Result<Aim, OutOfMemory>
    ensures goal { IfOk result (λ aim. goal_view aim
        ≡ of.goal_by (world_of checker.now) (operand_view o.now)
        (offset, spots_view left_spots) (Some (Some (ty_view ty), frames_view left_frames))) }
    ensures frames { IfOk result (λ aim. known_frames aim.rest.frames
        ≡ typed_frames (operand_view o.now).type (frames_by (world_of checker.now)
        (operand_view o.now) (Some (Some (ty_view ty), frames_view left_frames)))) }
{
    let mut frames = left_frames;
    let mut spots = left_spots;
    let gone = go_in(checker, MAX_DEPTH, o, ty, offset, &mut frames, &mut spots)?;
    let frames = kept(frames, &gone, o);
    Ok(Aim {
        ty: gone,
        offset,
        rest: Left { frames, spots },
    })
}

/// An expression goes to this part, or into it, if its type is known.
fn aim_at(
    checker: &Checker,
    next: Next,
    frames: Frames,
    spots: Spots,
    o: &Operand,
) -> Result<Aim, OutOfMemory>
    ensures goal { IfOk result (λ aim. goal_view aim
        ≡ of.goal_by (world_of checker.now) (operand_view o.now)
        (next.offset, spots_view spots) (Some (type_view next.ty, frames_view frames))) }
    ensures frames { IfOk result (λ aim. known_frames aim.rest.frames
        ≡ typed_frames (operand_view o.now).type (frames_by (world_of checker.now)
        (operand_view o.now) (Some (type_view next.ty, frames_view frames)))) }
{
    let Next { ty, offset } = next;
    match ty {
        None => Ok(Aim {
            ty: None,
            offset,
            rest: Left {
                frames: None,
                spots,
            },
        }),
        Some(ty) => aim_into(checker, ty, offset, frames, spots, o),
    }
}

/// No part is left: only an expression that has a type leaves that known.
fn none_left(alloc: Global, o: &Operand) -> Option<Frames>
    ensures { known_frames result ≡ typed_frames (operand_view o.now).type (Some []) }
{
    match o.ty {
        Some(_) => Some(List::new(alloc)),
        None => None,
    }
}

/// An expression goes to the next part, or into it.
fn aim_among(
    checker: &Checker,
    left_frames: Frames,
    left_spots: Spots,
    o: &Operand,
) -> Result<Aim, OutOfMemory>
    ensures goal { IfOk result (λ aim. goal_view aim
        ≡ of.goal_by (world_of checker.now) (operand_view o.now)
        (of.next_spot (world_of checker.now) (frames_view left_frames) (spots_view left_spots))
        (rule.next_part (frames_view left_frames))) }
    ensures frames { IfOk result (λ aim. known_frames aim.rest.frames
        ≡ frames_behind (operand_view o.now) (Some (frames_view left_frames))
        (world_of checker.now)) }
{
    let mut frames = left_frames;
    let mut spots = left_spots;
    match next_part(checker, &mut frames, &mut spots)? {
        None => Ok(Aim {
            ty: None,
            offset: 0,
            rest: Left {
                frames: none_left(checker.alloc(), o),
                spots: List::new(checker.alloc()),
            },
        }),
        Some(next) => aim_at(checker, next, frames, spots, o),
    }
}

/// Where an expression of a list goes, if it is known which parts are left.
pub fn aim_of(checker: &Checker, left: Left, o: &Operand) -> Result<Aim, OutOfMemory>
    ensures goal { IfOk result (λ aim. goal_view aim
        ≡ of.goal_of (operand_view o.now) (left_view left) (world_of checker.now)) }
    ensures frames { IfOk result (λ aim. known_frames aim.rest.frames
        ≡ frames_behind (operand_view o.now) (known_frames left.frames)
        (world_of checker.now)) }
{
    let Left { frames, spots } = left;
    match frames {
        None => Ok(Aim {
            ty: None,
            offset: 0,
            rest: Left {
                frames: None,
                spots: List::new(checker.alloc()),
            },
        }),
        Some(frames) => aim_among(checker, frames, spots, o),
    }
}

/// The part that braces in a list initialize: its type if that is known, its offset, and what is left behind it.
#[derive(Drop)]
pub struct Slot {
    pub ty: Option<Ty>,
    pub offset: u64,
    pub rest: Left,
}

/// Braces initialize this part, and what is left behind it is known if its type is.
fn slot_at(next: Next, frames: Frames, spots: Spots) -> Slot
    ensures slot { slot_view result ≡ slot_at (Some (type_view next.ty, frames_view frames)) }
    ensures place { slot_place result ≡ next_place next.offset (spots_view spots) }
{
    let Next { ty, offset } = next;
    match ty {
        None => Slot {
            ty: None,
            offset,
            rest: Left {
                frames: None,
                spots,
            },
        },
        Some(ty) => Slot {
            ty: Some(ty),
            offset,
            rest: Left {
                frames: Some(frames),
                spots,
            },
        },
    }
}

/// The next part is the one.
fn slot_among(
    checker: &Checker,
    left_frames: Frames,
    left_spots: Spots,
) -> Result<Slot, OutOfMemory>
    ensures slot { IfOk result (λ slot. slot_view slot
        ≡ slot_at (rule.next_part (frames_view left_frames))) }
    ensures place { IfOk result (λ slot. slot_place slot
        ≡ of.next_spot (world_of checker.now) (frames_view left_frames)
        (spots_view left_spots)) }
{
    let mut frames = left_frames;
    let mut spots = left_spots;
    match next_part(checker, &mut frames, &mut spots)? {
        None => Ok(Slot {
            ty: None,
            offset: 0,
            rest: Left {
                frames: Some(List::new(checker.alloc())),
                spots,
            },
        }),
        Some(next) => Ok(slot_at(next, frames, spots)),
    }
}

/// The part that braces in a list initialize, if it is known which parts are left.
pub fn slot_of(checker: &Checker, left: Left) -> Result<Slot, OutOfMemory>
    ensures slot { IfOk result (λ slot. slot_view slot ≡ slot_in (known_frames left.frames)) }
    ensures place { IfOk result (λ slot. slot_place slot
        ≡ of.next_in (world_of checker.now) (known_frames left.frames)
        (spots_view left.spots)) }
{
    let Left { frames, spots } = left;
    match frames {
        None => Ok(Slot {
            ty: None,
            offset: 0,
            rest: Left {
                frames: None,
                spots: List::new(checker.alloc()),
            },
        }),
        Some(frames) => slot_among(checker, frames, spots),
    }
}
