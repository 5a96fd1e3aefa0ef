//! Casts (ISO/IEC 9899:1999, 6.5.4) and sizes (6.5.3.4).
#![tactic(auto, unfolding(ec_resolving_defs::specs::Storage::chain, ec_resolving_defs::specs::Storage::pure, ec_resolving_defs::specs::Storage::checks, ec_resolving_defs::specs::Storage::ask, ec_resolving_defs::specs::Storage::stored, ec_resolving_defs::specs::Storage::arrange))]

ghost use Rattle.std.specs.Prelude.{◌≡◌, IfOk, Some, option_map};
ghost use Rattle.ec_resolve_values.specs.conversions.Forms.{converted};
ghost use Rattle.ec_ctypes.specs.views.Types.{ty_view};
ghost use Rattle.ec_memory_defs.specs.Kinds.{kind_type};
ghost use Rattle.ec_memory_defs.specs.Memory.{scalar_type};
ghost use Rattle.ec_code.specs.Trees.{leaf_view};
ghost use Rattle.ec_code.specs.Views.{expression_view};
ghost use Rattle.ec_meaning_defs.specs.resolved.Resolved.{Exp};
ghost use Rattle.ec_resolving_defs.specs.Conversions as form;
ghost use Rattle.ec_resolving_defs.specs.Operands as rule;
ghost use Rattle.ec_rules.specs.Seen.{operand_view};
ghost use Rattle.ec_scopes.specs.Entries.{place_view};
ghost use Rattle.ec_scopes.specs.Seen.{world_of};
ghost use Rattle.ec_type_rules.specs.Views.{type_view};
ghost use Rattle.ec_typing_defs.specs.Types as types;
ghost use Rattle.ec_resolve_forms.specs.Readings.{cast_by};
ghost use Rattle.ec_resolve_forms.specs.Seen.{found_view, from, IsReached, Reaches};

use crate::found::{Found, with_form};
use crate::resolver::Resolver;
use crate::sizes::size_of;
use crate::values::{Reading, discarding, read, reading_of};
use ec_base::OutOfMemory;
use ec_code::{Expression, Leaf};
use ec_ctypes::Ty;
use ec_memory_defs::Kind;
use ec_resolve_values::conversions::{Conversion, converted, scalar_conversion};
use ec_rules::{Operand, cast_rule as checked_cast, size_rule as checked_size};
use ec_scopes::{Checker, Place};
use ec_type_rules::is_void;
use ec_values::Word;
use std::alloc::Global;

/// The scalar type of a value of this type: an array is a pointer.
fn value_kind(ty: &Ty) -> Option<Kind>
    ensures { option_map kind_type result ≡ scalar_type (types.decayed (ty_view ty.now)) }
{
    match ty {
        Ty::Array(_, _) => Some(Kind::Ptr),
        _ => Kind::of(ty),
    }
}

/// What a cast to this type does with a value of another, if that is known.
fn cast_conversion(from: &Option<Ty>, to: &Ty) -> Conversion
    ensures { (e : Exp) → converted result e ≡ form.as_known_type
        (option_map types.decayed (type_view from.now)) (Some (ty_view to.now)) e }
{
    match from {
        Some(from) => match (value_kind(from), Kind::of(to)) {
            (Some(from), Some(to)) => scalar_conversion(from, to),
            (Some(_), None) => Conversion::Kept,
            (None, Some(_)) => Conversion::Kept,
            (None, None) => Conversion::Kept,
        },
        None => Conversion::Missing,
    }
}

/// How an expression is cast: it is read, and then converted.
#[derive(Clone, Copy, Debug)]
pub struct Casting {
    pub reading: Reading,
    pub conversion: Conversion,
}

/// What a cast does with an operand.
fn casting_of(checker: &Checker, to: &Option<Ty>, operand: &Operand, is_address: bool) -> Casting
    ensures { (e : Exp) → cast_by result e ≡ rule.cast_form (world_of checker.now)
        (type_view to.now) (rule.found (operand_view operand.now) e is_address) }
{
    match to {
        None => Casting {
            reading: Reading::Missing,
            conversion: Conversion::Kept,
        },
        Some(to) => {
            if is_void(to) {
                Casting {
                    reading: discarding(checker, operand, is_address),
                    conversion: Conversion::Kept,
                }
            } else {
                Casting {
                    reading: reading_of(operand, is_address),
                    conversion: cast_conversion(&operand.ty, to),
                }
            }
        }
    }
}

/// The expression, cast so.
fn cast(alloc: Global, casting: Casting, exp: Expression) -> Result<Expression, OutOfMemory>
    ensures { IfOk result (λ e. expression_view e ≡ cast_by casting (expression_view exp)) }
{
    let value = read(alloc, casting.reading, exp)?;
    converted(alloc, casting.conversion, value)
}

/// A cast.
pub fn cast_rule(
    resolver: &mut Resolver,
    at: Place,
    to: Option<Ty>,
    f: Found,
) -> Result<Found, OutOfMemory>
    ensures { Reaches found_view (from (rule.cast_rule (place_view at) (type_view to)
        (found_view f)) resolver.old) result resolver.new }
{
    let alloc = resolver.checker.alloc();
    let form = casting_of(&resolver.checker, &to, &f.operand, f.is_address);
    let operand = checked_cast(&mut resolver.checker, at, to, f.operand);
    with_form(operand, cast(alloc, form, f.exp), false)
}

/// The size of a type as a constant, or what stands for a fault where the type isn't known.
fn size_leaf(checker: &Checker, ty: &Option<Ty>) -> Leaf
    ensures { leaf_view result ≡ rule.size_exp (world_of checker.now) (type_view ty.now) }
{
    match ty {
        Some(ty) => Leaf::Constant(Word::Unsigned(size_of(checker, ty))),
        None => Leaf::Faulty,
    }
}

/// `sizeof` of a type.
pub fn size_rule(resolver: &mut Resolver, at: Place, ty: Option<Ty>) -> Found
    ensures { IsReached (from (rule.size_rule (place_view at) (type_view ty)) resolver.old)
        resolver.new (found_view result) }
{
    let alloc = resolver.checker.alloc();
    let leaf = size_leaf(&resolver.checker, &ty);
    let operand = checked_size(&mut resolver.checker, at, ty);
    Found {
        operand,
        exp: Expression::leaf(alloc, leaf),
        is_address: false,
    }
}
