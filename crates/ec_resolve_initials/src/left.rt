//! What is left to be initialized, with its place, and what comes next of it (ISO/IEC 9899:1999, 6.7.8, 17).

ghost use Rattle.std.specs.Prelude.{◌≡◌, ◌∷◌, IfOk};
ghost use Rattle.ec_resolving_defs.specs.Initializers as of;
ghost use Rattle.ec_scopes.specs.Entries.{type_view};
ghost use Rattle.ec_scopes.specs.Seen.{world_of};
ghost use Rattle.ec_typing_defs.specs.Initializers as rule;
ghost use Rattle.ec_initializers.specs.Frames.{frame_view, frames_view};
ghost use Rattle.ec_resolve_initials.specs.Left.{next_by, offset_by};
ghost use Rattle.ec_resolve_initials.specs.Spots.{next_place, spots_view};

use crate::spots::{Spots, part_shape, take_spot};
use ec_base::{OutOfMemory, beside};
use ec_ctypes::Ty;
use ec_initializers::{Frames, Taken, take_next};
use ec_scopes::Checker;

/// What is left to be initialized, if it is known which parts these are, and where it stands.
#[derive(Drop)]
pub struct Left {
    pub frames: Option<Frames>,
    pub spots: Spots,
}

/// The part that comes next: its type, if it has one, and its offset.
#[derive(Drop)]
pub struct Next {
    pub ty: Option<Ty>,
    pub offset: u64,
}

/// Of the innermost part nothing is left.
fn drop_spot(spots: &mut Spots)
    ensures { spots_view spots.new ≡ of.behind_spot (spots_view spots.old) }
{
    let _done = spots.pop();
}

/// What comes next in the innermost part, which is then done.
fn take(
    checker: &Checker,
    taken: Taken,
    frames: &mut Frames,
    spots: &mut Spots,
) -> Result<Next, OutOfMemory>
    ensures ty { IfOk result (λ next. type_view next.ty ≡ type_view taken.part) }
    ensures frames { IfOk result (λ _. frames_view frames.new
        ≡ frame_view taken.rest ∷ frames_view frames.old) }
    ensures spots { IfOk result (λ next. next_place next.offset (spots_view spots.new)
        ≡ of.take_spot (of.part_shape (world_of checker.now) (type_view taken.part))
        (spots_view spots.old)) }
{
    let Taken { part: ty, rest } = taken;
    let shape = part_shape(checker, &ty);
    let pushed = frames.push(rest);
    let (ty, ()) = beside(ty, pushed)?;
    let (ty, offset) = beside(ty, take_spot(spots, shape))?;
    Ok(Next { ty, offset })
}

/// The next element or member, which is taken out of what is left.
pub fn next_part(
    checker: &Checker,
    frames: &mut Frames,
    spots: &mut Spots,
) -> Result<Option<Next>, OutOfMemory>
    ensures frames { IfOk result (λ next. next_by next (frames_view frames.new)
        ≡ rule.next_part (frames_view frames.old)) }
    ensures spots { IfOk result (λ next. next_place (offset_by next) (spots_view spots.new)
        ≡ of.next_spot (world_of checker.now) (frames_view frames.old) (spots_view spots.old)) }
{
    while let Some(frame) = frames.pop() {
        if let Some(taken) = take_next(checker.alloc(), frame)? {
            let next = take(checker, taken, frames, spots)?;
            return Ok(Some(next));
        }
        drop_spot(spots);
    }
    spots.clear();
    Ok(None)
}
