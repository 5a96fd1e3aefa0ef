//! Initializers in their order.
#![tactic(auto, using(ec_scopes::proofs::Steps::noting, ec_ctypes::specs::declared::tree::decl::Init::the_lemmas), unfolding(ec_typing_defs::specs::Worlds::chain, ec_typing_defs::specs::Worlds::pure, ec_typing_defs::specs::Worlds::ask))]

ghost use Rattle.std.specs.Prelude.{◌≡◌};
ghost use Rattle.ec_ctypes.specs.views.Exprs.{expr_view, init_view, inits_view};
ghost use Rattle.ec_scopes.specs.Entries.{place_view, type_view};
ghost use Rattle.ec_scopes.specs.Seen.{world_of, Does};
ghost use Rattle.ec_rules.specs.Seen.{operand_view};
ghost use Rattle.ec_typing_defs.specs.Initializers as rule;
ghost use Rattle.ec_initializers.specs.Frames.{known_frames};

use crate::braces::{braced_frames, braces_rule, completed_by, completed_in_braces};
use crate::frames::Frames;
use crate::parts::{Slot, part_rule, slot_rule};
use ec_base::OutOfMemory;
use ec_ctypes::{Expr, Init, Ty};
use ec_rules::{Operand, fixed_rule, suits_rule, value_rule};
use ec_scopes::{Checker, Place};
use ec_walk::expr;

// An expression as a value, which is known before the program runs where it has to be.
fn init_value(
    checker: &mut Checker,
    at: Place,
    is_global: bool,
    e: &Expr,
) -> Result<Operand, OutOfMemory>
    ensures { Does operand_view (rule.init_value (place_view at) is_global (expr_view e.now)
        (world_of checker.old)) checker.old result checker.new }
{
    let found = expr(checker, at, e)?;
    let o = value_rule(checker, at, found);
    fixed_rule(checker, at, is_global, &o);
    Ok(o)
}

// One expression of a list goes to the next part or into it; braces initialize the next part.
#[cycle(filling)]
fn fill_part(
    checker: &mut Checker,
    at: Place,
    is_global: bool,
    frames: Option<Frames>,
    init: &Init,
) -> Result<Option<Frames>, OutOfMemory>
    ensures { Does known_frames (rule.fill_part (place_view at) is_global (known_frames frames)
        (init_view init.now) (world_of checker.old)) checker.old result checker.new }
{
    match init {
        Init::One(e) => {
            let o = init_value(checker, at, is_global, e)?;
            part_rule(checker, at, frames, &o)
        }
        Init::Many(list) => {
            let Slot { ty, rest } = slot_rule(checker, at, frames)?;
            braces_rule(checker, at, &ty, list.as_slice());
            let inner = braced_frames(checker, &ty, list.as_slice())?;
            let _left = fill(checker, at, is_global, inner, list.as_slice())?;
            Ok(rest)
        }
    }
}

// The list initializes these parts: what is left of them.
#[cycle(filling)]
fn fill(
    checker: &mut Checker,
    at: Place,
    is_global: bool,
    frames: Option<Frames>,
    list: &[Init],
) -> Result<Option<Frames>, OutOfMemory>
    ensures { Does known_frames (rule.fill (place_view at) is_global (known_frames frames)
        (inits_view list.now) (world_of checker.old)) checker.old result checker.new }
{
    let mut rest = frames;
    for init in list {
        rest = fill_part(checker, at, is_global, rest, init)?;
    }
    Ok(rest)
}

// One expression initializes an object of this type: its type, with its length.
fn single_by(
    checker: &mut Checker,
    at: Place,
    ty: Option<Ty>,
    o: Operand,
) -> Result<Option<Ty>, OutOfMemory>
    ensures { Does type_view (rule.single_by (place_view at) (type_view ty) (operand_view o)
        (world_of checker.old)) checker.old result checker.new }
{
    match ty {
        None => Ok(None),
        Some(ty) => {
            suits_rule(checker, at, &o, &ty);
            completed_by(checker.alloc(), ty, &o)
        }
    }
}

/// What initializes an object of this type, at file level or not: its type, with the length that it may give it. What may
/// not initialize it is F14, and what is not known before the program runs, at file level, F19. The one error is want of
/// memory.
pub fn initializer(
    checker: &mut Checker,
    at: Place,
    is_global: bool,
    ty: Option<Ty>,
    init: &Init,
) -> Result<Option<Ty>, OutOfMemory>
    ensures { Does type_view (rule.initializer (place_view at) is_global (type_view ty)
        (init_view init.now) (world_of checker.old)) checker.old result checker.new }
{
    match init {
        Init::One(e) => {
            let o = init_value(checker, at, is_global, e)?;
            single_by(checker, at, ty, o)
        }
        Init::Many(list) => {
            braces_rule(checker, at, &ty, list.as_slice());
            let frames = braced_frames(checker, &ty, list.as_slice())?;
            let rest = fill(checker, at, is_global, frames, list.as_slice())?;
            completed_in_braces(checker.alloc(), ty, list.as_slice(), rest)
        }
    }
}
