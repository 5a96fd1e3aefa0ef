//! The expressions of statements (ISO/IEC 9899:1999, 6.8).
#![tactic(auto, unfolding(ec_resolving_defs::specs::Storage::chain, ec_resolving_defs::specs::Storage::pure, ec_resolving_defs::specs::Storage::ask))]

ghost use Rattle.std.specs.Prelude.{Some, option_map};
ghost use Rattle.ec_code.specs.Views.{expression_view, statement_view};
ghost use Rattle.ec_ctypes.specs.views.Exprs.{expr_view, expr_option_view};
ghost use Rattle.ec_resolve_forms.specs.Seen.{from, Reaches};
ghost use Rattle.ec_meaning_defs.specs.resolved.Resolved as of;
ghost use Rattle.ec_resolving_defs.specs.Statements as rule;
ghost use Rattle.ec_scopes.specs.Entries.{place_view, type_view};
ghost use Rattle.ec_resolve_parts.specs.Made.{optional_view};

use ec_base::{Boxed, OutOfMemory};
use ec_code::{Expression, Statement};
use ec_ctypes::{Expr, Ty};
use ec_resolve_expressions::expr;
use ec_resolve_forms::{Resolver, done_alone, result_value, value_rule};
use ec_resolve_parts::{returned, returned_nothing};
use ec_scopes::Place;

/// A condition: the value of an expression.
pub(crate) fn condition(
    resolver: &mut Resolver,
    at: Place,
    e: &Expr,
) -> Result<Boxed<Expression>, OutOfMemory>
    ensures { Reaches expression_view
        (from (rule.condition (place_view at) (expr_view e.now)) resolver.old)
        result resolver.new }
{
    let alloc = resolver.checker.alloc();
    let found = expr(resolver, at, e)?;
    let f = value_rule(resolver, at, found)?;
    let exp = Boxed::new(alloc, f.exp)?;
    Ok(exp)
}

/// An expression whose value isn't wanted.
pub(crate) fn alone(
    resolver: &mut Resolver,
    at: Place,
    e: &Expr,
) -> Result<Boxed<Expression>, OutOfMemory>
    ensures { Reaches expression_view
        (from (rule.alone (place_view at) (expr_view e.now)) resolver.old)
        result resolver.new }
{
    let alloc = resolver.checker.alloc();
    let f = expr(resolver, at, e)?;
    let made = done_alone(&resolver.checker, e, f)?;
    let exp = Boxed::new(alloc, made)?;
    Ok(exp)
}

/// An expression whose value isn't wanted, if there is one.
pub(crate) fn optional(
    resolver: &mut Resolver,
    at: Place,
    e: &Option<Expr>,
) -> Result<Option<Boxed<Expression>>, OutOfMemory>
    ensures { Reaches optional_view
        (from (rule.optional (place_view at) (expr_option_view e.now)) resolver.old)
        result resolver.new }
{
    match e {
        None => Ok(None),
        Some(e) => {
            let exp = alone(resolver, at, e)?;
            Ok(Some(exp))
        }
    }
}

/// A condition, if there is one.
pub(crate) fn optional_condition(
    resolver: &mut Resolver,
    at: Place,
    e: &Option<Expr>,
) -> Result<Option<Boxed<Expression>>, OutOfMemory>
    ensures { Reaches optional_view
        (from (rule.optional_condition (place_view at) (expr_option_view e.now)) resolver.old)
        result resolver.new }
{
    match e {
        None => Ok(None),
        Some(e) => {
            let exp = condition(resolver, at, e)?;
            Ok(Some(exp))
        }
    }
}

/// `return`, with a value or without, in a function with a result of this type.
pub(crate) fn return_by(
    resolver: &mut Resolver,
    at: Place,
    result_type: &Option<Ty>,
    e: &Option<Expr>,
) -> Result<Boxed<Statement>, OutOfMemory>
    ensures { Reaches statement_view
        (from (rule.return_by (place_view at) (type_view result_type.now) (expr_option_view e.now))
        resolver.old)
        result resolver.new }
{
    let alloc = resolver.checker.alloc();
    match e {
        None => {
            let made = returned_nothing(alloc)?;
            Ok(made)
        }
        Some(e) => {
            let found = expr(resolver, at, e)?;
            let f = value_rule(resolver, at, found)?;
            let exp = result_value(alloc, result_type, f)?;
            let made = returned(alloc, exp)?;
            Ok(made)
        }
    }
}
