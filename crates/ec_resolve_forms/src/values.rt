//! Expressions as values (ISO/IEC 9899:1999, 6.3.2.1).
#![tactic(auto, unfolding(ec_resolving_defs::specs::Storage::chain, ec_resolving_defs::specs::Storage::pure, ec_resolving_defs::specs::Storage::checks, ec_resolving_defs::specs::Storage::ask, ec_resolving_defs::specs::Storage::stored, ec_resolving_defs::specs::Storage::arrange))]

ghost use Rattle.std.specs.Prelude.{◌≡◌, IfOk};
ghost use Rattle.ec_code.specs.Views.{expression_view};
ghost use Rattle.ec_meaning_defs.specs.resolved.Resolved.{Exp};
ghost use Rattle.ec_resolving_defs.specs.Conversions.{as_known_type};
ghost use Rattle.ec_resolving_defs.specs.Operands as rule;
ghost use Rattle.ec_rules.specs.Seen.{operand_view};
ghost use Rattle.ec_scopes.specs.Entries.{place_view, type_view};
ghost use Rattle.ec_scopes.specs.Seen.{world_of};
ghost use Rattle.ec_resolve_forms.specs.Readings.{read_by};
ghost use Rattle.ec_resolve_forms.specs.Seen.{found_view, from, Reaches};

use crate::found::{Found, with_form};
use crate::resolver::Resolver;
use crate::sizes::size_of;
use ec_base::OutOfMemory;
use ec_code::{Expression, Unary};
use ec_ctypes::Ty;
use ec_memory_defs::Kind;
use ec_resolve_values::conversions::{converted, faulty, known_conversion};
use ec_rules::{Operand, value_rule as checked_value};
use ec_scopes::{Checker, Place};
use ec_type_rules::is_structure;
use std::alloc::Global;

/// How the value behind an expression is had.
#[derive(Clone, Copy, Debug, PartialEq, Eq)]
pub enum Reading {
    /// It is there.
    Kept,
    /// It is read.
    Loaded(Kind),
    /// A struct of this size is accessed.
    Whole(u64),
    /// The type isn't known.
    Missing,
}

/// How the value of an expression is had: a scalar that is known by its address is read.
pub(crate) fn reading_of(operand: &Operand, is_address: bool) -> Reading
    ensures { (e : Exp) → read_by result e
        ≡ rule.value_exp (rule.found (operand_view operand.now) e is_address) }
{
    if !is_address {
        return Reading::Kept;
    }
    match &operand.ty {
        Some(ty) => match Kind::of(ty) {
            Some(kind) => Reading::Loaded(kind),
            None => Reading::Kept,
        },
        None => Reading::Missing,
    }
}

/// The expression, read so.
pub(crate) fn read(
    alloc: Global,
    reading: Reading,
    exp: Expression,
) -> Result<Expression, OutOfMemory>
    ensures { IfOk result (λ e. expression_view e ≡ read_by reading (expression_view exp)) }
{
    match reading {
        Reading::Kept => Ok(exp),
        Reading::Loaded(kind) => exp.unary(Unary::Load(kind)),
        Reading::Whole(size) => exp.unary(Unary::Whole(size)),
        Reading::Missing => Ok(faulty(alloc)),
    }
}

/// An expression as a value.
pub fn value_rule(resolver: &mut Resolver, at: Place, f: Found) -> Result<Found, OutOfMemory>
    ensures { Reaches found_view (from (rule.value_rule (place_view at) (found_view f))
        resolver.old) result resolver.new }
{
    let alloc = resolver.checker.alloc();
    let Found {
        operand,
        exp,
        is_address,
    } = f;
    let reading = reading_of(&operand, is_address);
    let operand = checked_value(&mut resolver.checker, at, operand);
    with_form(operand, read(alloc, reading, exp), false)
}

/// A value as one of the function's type, as by assignment (ISO/IEC 9899:1999, 6.8.6.4, 3).
pub fn result_value(
    alloc: Global,
    result_type: &Option<Ty>,
    f: Found,
) -> Result<Expression, OutOfMemory>
    ensures { IfOk result (λ e. expression_view e ≡ as_known_type
        (found_view f).operand.type (type_view result_type.now) (found_view f).exp) }
{
    let conversion = known_conversion(&f.operand.ty, result_type);
    converted(alloc, conversion, f.exp)
}

/// How an expression whose value isn't wanted is evaluated: a place of a struct is an access to all of it.
pub(crate) fn discarding(checker: &Checker, operand: &Operand, is_address: bool) -> Reading
    ensures { (e : Exp) → read_by result e ≡ rule.discarded
        (world_of checker.now) (rule.found (operand_view operand.now) e is_address) }
{
    match &operand.ty {
        Some(ty) => {
            if is_structure(ty) && operand.is_place && checker.is_complete(ty) {
                Reading::Whole(size_of(checker, ty))
            } else {
                reading_of(operand, is_address)
            }
        }
        None => Reading::Missing,
    }
}

/// An expression whose value isn't wanted.
pub fn discarded(checker: &Checker, f: Found) -> Result<Expression, OutOfMemory>
    ensures { IfOk result (λ e. expression_view e
        ≡ rule.discarded (world_of checker.now) (found_view f)) }
{
    let reading = discarding(checker, &f.operand, f.is_address);
    let alloc = checker.alloc();
    read(alloc, reading, f.exp)
}
