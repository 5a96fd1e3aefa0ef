//! Initializers in their order (ISO/IEC 9899:1999, 6.7.8, 19).
#![tactic(auto, using(ec_ctypes::specs::declared::tree::decl::Init::the_lemmas))]

ghost use Rattle.std.specs.Prelude.{◌≡◌, ◌∷◌, [], IfOk};
ghost use Rattle.ec_ctypes.specs.views.Exprs.{expr_view, init_view, inits_view};
ghost use Rattle.ec_ctypes.specs.trees.Exprs.{many, one};
ghost use Rattle.ec_resolve_forms.specs.Seen.{from, mapped, IsReached, Reaches};
ghost use Rattle.ec_resolving_defs.specs.Initializers as of;
ghost use Rattle.ec_rules.specs.Seen.{operand_view};
ghost use Rattle.ec_scopes.specs.Entries.{place_view, type_view};
ghost use Rattle.ec_resolve_statements.specs.Filled.{filled_behind, initialized_view, single_type};
ghost use Rattle.ec_initializers.specs.Frames.{known_frames};
ghost use Rattle.ec_resolve_initials.specs.Left.{left_view};
ghost use Rattle.ec_resolve_values.specs.initial_parts.Parts.{parts_view};

use crate::initial_values::init_value;
use ec_base::{List, OutOfMemory};
use ec_ctypes::{Expr, Init, Ty, copy_ty};
use ec_initializers::{Frames, braced_frames, completed_by, completed_in_braces};
use ec_resolve_forms::Resolver;
use ec_resolve_initials::{Left, Parts, Spot, aim_of, slot_of, store_at};
use ec_rules::Operand;
use ec_scopes::Place;
use std::alloc::Global;

/// All parts of an object that begins at an offset.
fn left_at(alloc: Global, frames: Option<Frames>, offset: u64) -> Result<Left, OutOfMemory>
    ensures { IfOk result (λ left. left_view left
        ≡ of.left (known_frames frames) (of.spot_at offset ∷ [])) }
{
    let mut spots = List::new(alloc);
    spots.push(Spot::at(offset))?;
    Ok(Left { frames, spots })
}

/// One expression of a list goes to the next part, or into it.
fn fill_one(
    resolver: &mut Resolver,
    at: Place,
    is_global: bool,
    left: Left,
    e: &Expr,
    parts: &mut Parts,
) -> Result<Left, OutOfMemory>
    ensures { IfOk result (λ rest. IsReached
        (mapped (filled_behind (parts_view parts.old))
        (from (of.fill_part (place_view at) is_global (left_view left) (one (expr_view e.now)))
        resolver.old))
        resolver.new (left_view rest, parts_view parts.new)) }
{
    let f = init_value(resolver, at, is_global, e)?;
    let aim = aim_of(&resolver.checker, left, &f.operand)?;
    store_at(resolver, aim.offset, &aim.ty, e, f, parts)?;
    Ok(aim.rest)
}

/// One initializer of a list: an expression goes to the next part or into it, and braces initialize the next part.
#[cycle(filling)]
fn fill_part(
    resolver: &mut Resolver,
    at: Place,
    is_global: bool,
    left: Left,
    init: &Init,
    parts: &mut Parts,
) -> Result<Left, OutOfMemory>
    ensures { IfOk result (λ rest. IsReached
        (mapped (filled_behind (parts_view parts.old))
        (from (of.fill_part (place_view at) is_global (left_view left) (init_view init.now))
        resolver.old))
        resolver.new (left_view rest, parts_view parts.new)) }
{
    match init {
        Init::One(e) => fill_one(resolver, at, is_global, left, e, parts),
        Init::Many(list) => {
            let list = list.as_slice();
            let slot = slot_of(&resolver.checker, left)?;
            let frames = braced_frames(&resolver.checker, &slot.ty, list)?;
            let begun = left_at(resolver.checker.alloc(), frames, slot.offset)?;
            let _left = fill(resolver, at, is_global, begun, list, parts)?;
            Ok(slot.rest)
        }
    }
}

/// The list initializes these parts: what is left of them.
#[cycle(filling)]
fn fill(
    resolver: &mut Resolver,
    at: Place,
    is_global: bool,
    left: Left,
    list: &[Init],
    parts: &mut Parts,
) -> Result<Left, OutOfMemory>
    ensures { IfOk result (λ rest. IsReached
        (mapped (filled_behind (parts_view parts.old))
        (from (of.fill (place_view at) is_global (left_view left) (inits_view list.now))
        resolver.old))
        resolver.new (left_view rest, parts_view parts.new)) }
{
    let mut rest = left;
    for init in list {
        rest = fill_part(resolver, at, is_global, rest, init, parts)?;
    }
    Ok(rest)
}

/// What is initialized: the type of the object, with the length that its initializer may give it, and what is stored in it.
#[derive(Drop)]
pub struct Initialized {
    pub ty: Option<Ty>,
    pub parts: Parts,
}

/// The type of an object that one expression initializes, with its length.
fn single_type(alloc: Global, ty: &Option<Ty>, o: &Operand) -> Result<Option<Ty>, OutOfMemory>
    ensures { IfOk result (λ single. type_view single
        ≡ single_type (type_view ty.now) (operand_view o.now)) }
{
    match ty {
        None => Ok(None),
        Some(ty) => completed_by(alloc, copy_ty(alloc, ty)?, o),
    }
}

/// One expression initializes an object of this type.
fn initialize_one(
    resolver: &mut Resolver,
    at: Place,
    is_global: bool,
    ty: Option<Ty>,
    e: &Expr,
) -> Result<Initialized, OutOfMemory>
    ensures { Reaches initialized_view
        (from (of.initializer (place_view at) is_global (type_view ty) (one (expr_view e.now)))
        resolver.old)
        result resolver.new }
{
    let alloc = resolver.checker.alloc();
    let f = init_value(resolver, at, is_global, e)?;
    let single = single_type(alloc, &ty, &f.operand)?;
    let mut parts = List::new(alloc);
    store_at(resolver, 0, &ty, e, f, &mut parts)?;
    Ok(Initialized { ty: single, parts })
}

/// A list in braces initializes an object of this type.
fn initialize_many(
    resolver: &mut Resolver,
    at: Place,
    is_global: bool,
    ty: Option<Ty>,
    list: &[Init],
) -> Result<Initialized, OutOfMemory>
    ensures { Reaches initialized_view
        (from (of.initializer (place_view at) is_global (type_view ty)
        (many (inits_view list.now))) resolver.old)
        result resolver.new }
{
    let alloc = resolver.checker.alloc();
    let frames = braced_frames(&resolver.checker, &ty, list)?;
    let left = left_at(alloc, frames, 0)?;
    let mut parts = List::new(alloc);
    let rest = fill(resolver, at, is_global, left, list, &mut parts)?;
    let ty = completed_in_braces(alloc, ty, list, rest.frames)?;
    Ok(Initialized { ty, parts })
}

/// What initializes an object of this type, at file level or not: its type, with the length that it may give it, and what is
/// stored in the object. The one error is want of memory.
pub fn initializer(
    resolver: &mut Resolver,
    at: Place,
    is_global: bool,
    ty: Option<Ty>,
    init: &Init,
) -> Result<Initialized, OutOfMemory>
    ensures { Reaches initialized_view
        (from (of.initializer (place_view at) is_global (type_view ty) (init_view init.now))
        resolver.old)
        result resolver.new }
{
    match init {
        Init::One(e) => initialize_one(resolver, at, is_global, ty, e),
        Init::Many(list) => initialize_many(resolver, at, is_global, ty, list.as_slice()),
    }
}
