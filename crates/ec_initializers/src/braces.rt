//! Lists in braces, and the types whose lengths they tell.
#![tactic(auto, using(ec_scopes::proofs::Steps::noting), unfolding(ec_typing_defs::specs::Worlds::chain, ec_typing_defs::specs::Worlds::pure, ec_typing_defs::specs::Worlds::ask, ec_typing_defs::specs::Worlds::note, ec_typing_defs::specs::Worlds::demand, ec_typing_defs::specs::Initializers::braces_rule))]

ghost use Rattle.std.specs.Prelude.{◌≡◌, zero, IfOk};
ghost use Rattle.ec_ctypes.specs.trees.Types.{array};
ghost use Rattle.ec_ctypes.specs.views.Types.{ty_view};
ghost use Rattle.ec_ctypes.specs.views.Exprs.{expr_view, init_view, inits_view};
ghost use Rattle.ec_ctypes.specs.trees.Exprs.{inits, no_inits};
ghost use Rattle.ec_scopes.specs.Entries.{place_view, type_view};
ghost use Rattle.ec_scopes.specs.Seen.{world_of, IsDone};
ghost use Rattle.ec_rules.specs.Seen.{operand_view};
ghost use Rattle.ec_typing_defs.specs.Initializers as rule;
ghost use Rattle.ec_typing_defs.specs.Types as types;
ghost use Rattle.ec_initializers.specs.Frames.{frames_view, known_frames, listed_count};

use crate::frames::{Frame, Frames, elements_begun};
use crate::parts::parts_of;
use ec_base::{Boxed, FaultKind, List, OutOfMemory};
use ec_ctypes::{Expr, Init, Ty, copy_ty};
use ec_rules::Operand;
use ec_scopes::{Checker, Place};
use ec_type_rules::{is_char_array, is_character, is_scalar};
use std::alloc::Global;

fn is_literal(e: &Expr) -> bool
    ensures { result ≡ rule.is_literal (expr_view e.now) }
{
    matches!(e, Expr::Str(_))
}

// Whether it is a literal.
fn is_text(init: &Init) -> bool
    ensures { result ≡ rule.is_text_alone (inits (init_view init.now) no_inits) }
{
    match init {
        Init::One(e) => is_literal(e),
        Init::Many(_) => false,
    }
}

// Whether the list is a literal alone.
fn is_text_alone(list: &[Init]) -> bool
    ensures { result ≡ rule.is_text_alone (inits_view list.now) }
{
    match list {
        [] => false,
        [only] => is_text(only),
        [_, _, ..] => false,
    }
}

// Whether the list begins with braces.
fn has_inner_braces(list: &[Init]) -> bool
    ensures { result ≡ rule.has_inner_braces (inits_view list.now) }
{
    matches!(list, [Init::Many(_), ..])
}

/// Braces within the braces of a scalar are F14 (ISO/IEC 9899:1999, 6.7.8, 11).
pub fn braces_rule(checker: &mut Checker, at: Place, ty: &Option<Ty>, list: &[Init])
    ensures { IsDone (rule.braces_rule (place_view at) (type_view ty.now) (inits_view list.now)
        (world_of checker.old)) checker.old checker.new tt }
{
    if let Some(ty) = ty {
        let doubled = is_scalar(ty) && has_inner_braces(list);
        checker.demand(at, FaultKind::F14, !doubled);
    }
}

// What a list in braces initializes: the parts of the object, or it as a whole where this is a literal alone.
fn braced_parts(checker: &Checker, ty: &Ty, list: &[Init]) -> Result<Frames, OutOfMemory>
    ensures { IfOk result (λ frames. frames_view frames
        ≡ rule.braced_parts (world_of checker.now) (ty_view ty.now) (inits_view list.now)) }
{
    if !(is_char_array(ty) && is_text_alone(list)) {
        return parts_of(checker, ty);
    }
    let alloc = checker.alloc();
    let mut frames = List::new(alloc);
    frames.push(Frame::Elements(copy_ty(alloc, ty)?, 1))?;
    Ok(frames)
}

/// What a list in braces initializes, if the type of the object is known.
pub fn braced_frames(
    checker: &Checker,
    ty: &Option<Ty>,
    list: &[Init],
) -> Result<Option<Frames>, OutOfMemory>
    ensures { IfOk result (λ frames. known_frames frames
        ≡ rule.braced_frames (type_view ty.now) (inits_view list.now) (world_of checker.now)) }
{
    match ty {
        None => Ok(None),
        Some(ty) => Ok(Some(braced_parts(checker, ty, list)?)),
    }
}

// How many elements a literal in braces gives an array.
fn literal_length(list: &[Init]) -> Result<u64, OutOfMemory>
    ensures { IfOk result (λ n. n ≡ rule.literal_length (inits_view list.now)) }
{
    match list {
        [Init::One(Expr::Str(bytes)), ..] => match (bytes.len() as u64).checked_add(1) {
            Some(n) => Ok(n),
            // Out of reach, which isn't proved: a literal has fewer bytes than its source, which has at most 2^24.
            None => Err(OutOfMemory),
        },
        _ => Ok(0),
    }
}

// An array of so many of these elements.
fn counted(alloc: Global, of: Ty, count: u64) -> Result<Ty, OutOfMemory>
    ensures { IfOk result (λ made. ty_view made ≡ array (ty_view of) count) }
{
    Ok(Ty::Array(Boxed::new(alloc, of)?, count))
}

// How many elements a list gives an array of these, of unknown length, where this is left of it.
fn listed_count(of: &Ty, list: &[Init], rest: &[Frame]) -> Result<u64, OutOfMemory>
    ensures { IfOk result (λ n. n ≡ listed_count (ty_view of.now) (inits_view list.now)
        (frames_view rest.now)) }
{
    if is_character_type(of) && is_text_alone(list) {
        literal_length(list)
    } else {
        Ok(elements_begun(rest))
    }
}

// Whether an array of these holds texts.
fn is_character_type(of: &Ty) -> bool
    ensures { result ≡ types.is_char_array (array (ty_view of.now) zero) }
{
    match of.arith() {
        Some(a) => is_character(a),
        None => false,
    }
}

// An array of unknown length has as many elements as the list gives it.
fn with_length(
    alloc: Global,
    of: Ty,
    list: &[Init],
    rest: Option<Frames>,
) -> Result<Option<Ty>, OutOfMemory>
    ensures { IfOk result (λ made. type_view made
        ≡ rule.with_length (ty_view of) (inits_view list.now) (known_frames rest)) }
{
    match rest {
        None => Ok(None),
        Some(frames) => {
            let count = listed_count(&of, list, frames.as_slice())?;
            Ok(Some(counted(alloc, of, count)?))
        }
    }
}

// The type of an object that a list initializes, with its length.
fn completed(
    alloc: Global,
    ty: Ty,
    list: &[Init],
    rest: Option<Frames>,
) -> Result<Option<Ty>, OutOfMemory>
    ensures { IfOk result (λ made. type_view made
        ≡ rule.completed (ty_view ty) (inits_view list.now) (known_frames rest)) }
{
    match ty {
        Ty::Array(of, 0) => with_length(alloc, of.into_inner(), list, rest),
        other => Ok(Some(other)),
    }
}

/// The type of an object that a list in braces initializes, with its length, where this is left of it (ISO/IEC 9899:1999,
/// 6.7.8, 22).
pub fn completed_in_braces(
    alloc: Global,
    ty: Option<Ty>,
    list: &[Init],
    rest: Option<Frames>,
) -> Result<Option<Ty>, OutOfMemory>
    ensures { IfOk result (λ made. type_view made
        ≡ rule.completed_in_braces (type_view ty) (inits_view list.now) (known_frames rest)) }
{
    match ty {
        None => Ok(None),
        Some(ty) => completed(alloc, ty, list, rest),
    }
}

// An array of characters of unknown length has room for a literal of so many bytes and its zero byte.
fn literal_array(alloc: Global, of: Ty, bytes: Option<u64>) -> Result<Option<Ty>, OutOfMemory>
    ensures { IfOk result (λ made. type_view made ≡ rule.literal_array (ty_view of) bytes) }
{
    match bytes {
        None => Ok(None),
        Some(bytes) => match bytes.checked_add(1) {
            Some(count) => Ok(Some(counted(alloc, of, count)?)),
            // Out of reach, which isn't proved: a literal has fewer bytes than its source, which has at most 2^24.
            None => Err(OutOfMemory),
        },
    }
}

// The type of an array of unknown length that an expression initializes.
fn completed_array(alloc: Global, of: Ty, o: &Operand) -> Result<Option<Ty>, OutOfMemory>
    ensures { IfOk result (λ made. type_view made
        ≡ rule.completed_by (array (ty_view of) zero) (operand_view o.now)) }
{
    if is_character_type(&of) {
        literal_array(alloc, of, o.literal)
    } else {
        Ok(None)
    }
}

/// The type of an object that an expression initializes, with its length.
pub fn completed_by(alloc: Global, ty: Ty, o: &Operand) -> Result<Option<Ty>, OutOfMemory>
    ensures { IfOk result (λ made. type_view made
        ≡ rule.completed_by (ty_view ty) (operand_view o.now)) }
{
    match ty {
        Ty::Array(of, 0) => completed_array(alloc, of.into_inner(), o),
        other => Ok(Some(other)),
    }
}
