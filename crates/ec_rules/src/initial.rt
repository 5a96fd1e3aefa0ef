//! What initializers ask of an operand (ISO/IEC 9899:1999, 6.7.8; at file level 6.6).
#![tactic(auto, using(ec_scopes::proofs::Steps::noting), unfolding(ec_typing_defs::specs::Worlds::chain, ec_typing_defs::specs::Worlds::pure, ec_typing_defs::specs::Worlds::ask, ec_typing_defs::specs::Worlds::note, ec_typing_defs::specs::Worlds::demand, ec_typing_defs::specs::Worlds::keep_within, ec_typing_defs::specs::Initializers::fixed_rule, ec_typing_defs::specs::Initializers::suits_rule))]

ghost use Rattle.std.specs.Prelude.{◌≡◌};
ghost use Rattle.ec_ctypes.specs.views.Types.{ty_view};
ghost use Rattle.ec_scopes.specs.Entries.{place_view, type_view};
ghost use Rattle.ec_scopes.specs.Seen.{world_of, IsDone};
ghost use Rattle.ec_typing_defs.specs.Initializers as rule;
ghost use Rattle.ec_rules.specs.Seen.{operand_view};

use crate::operand::Operand;
use ec_base::FaultKind;
use ec_ctypes::Ty;
use ec_scopes::{Checker, Place};
use ec_type_rules::{is_assignable, is_char_array, is_scalar, is_structure, same_type};

/// At file level an expression is known before the program runs, or F19 (ISO/IEC 9899:1999, 6.6, 7 and 9; 6.7.8, 4).
pub fn fixed_rule(checker: &mut Checker, at: Place, is_global: bool, o: &Operand)
    ensures { IsDone (rule.fixed_rule (place_view at) is_global (operand_view o.now)
        (world_of checker.old)) checker.old checker.new tt }
{
    if o.ty.is_some() {
        let known = o.constant.is_known() || o.is_fixed;
        checker.demand(at, FaultKind::F19, !is_global || known);
    }
}

/// An expression may initialize an object of this type, or F14.
pub fn suits_rule(checker: &mut Checker, at: Place, o: &Operand, ty: &Ty)
    ensures { IsDone (rule.suits_rule (place_view at) (operand_view o.now) (ty_view ty.now)
        (world_of checker.old)) checker.old checker.new tt }
{
    if let Some(from) = &o.ty {
        checker.demand(at, FaultKind::F14, suits(o, ty, from));
    }
}

/// Whether an expression with this type of its value may initialize an object (ISO/IEC 9899:1999, 6.7.8, 2, 11 and 13 to
/// 16).
fn suits(o: &Operand, ty: &Ty, from: &Ty) -> bool
    ensures { result ≡ rule.suits (operand_view o.now) (ty_view ty.now) (ty_view from.now) }
{
    match ty {
        Ty::Array(_, length) => is_text_for(o, ty) && has_room(*length, o.literal),
        Ty::Struct(_) => same_type(ty, from),
        _ => is_assignable(ty, from, o.is_null()),
    }
}

/// Whether a literal of so many bytes fits an array of this length, which is 0 where it is left out. For its zero byte
/// there may be no room (ISO/IEC 9899:1999, 6.7.8, 2 and 14).
fn has_room(length: u64, literal: Option<u64>) -> bool
    ensures { result ≡ rule.has_room length literal }
{
    match literal {
        None => false,
        Some(bytes) => length == 0 || bytes <= length,
    }
}

/// Whether it is a literal, and the type an array of characters that it may initialize (ISO/IEC 9899:1999, 6.7.8, 14).
pub fn is_text_for(o: &Operand, ty: &Ty) -> bool
    ensures { result ≡ rule.is_text_for (operand_view o.now) (ty_view ty.now) }
{
    o.literal.is_some() && is_char_array(ty)
}

/// Whether the expression initializes a whole object of this type, and not its first part (ISO/IEC 9899:1999, 6.7.8, 13,
/// 14 and 20).
pub fn is_whole(o: &Operand, ty: &Ty) -> bool
    ensures { result ≡ rule.is_whole (operand_view o.now) (ty_view ty.now) }
{
    is_scalar(ty) || is_text_for(o, ty) || is_same_struct(&o.ty, ty)
}

/// Whether both are the same struct.
fn is_same_struct(from: &Option<Ty>, ty: &Ty) -> bool
    ensures { result ≡ rule.is_same_struct (type_view from.now) (ty_view ty.now) }
{
    match from {
        None => false,
        Some(from) => is_structure(ty) && same_type(from, ty),
    }
}
