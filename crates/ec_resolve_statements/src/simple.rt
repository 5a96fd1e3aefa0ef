//! The parts of statements in which no statement stands (ISO/IEC 9899:1999, 6.8).
#![tactic(auto, unfolding(ec_resolving_defs::specs::Storage::chain, ec_resolving_defs::specs::Storage::pure, ec_resolving_defs::specs::Storage::checks, ec_resolving_defs::specs::Storage::ask))]

ghost use Rattle.std.specs.Prelude.{◌≡◌, IfOk, true};
ghost use Rattle.ec_code.specs.Views.{statement_view};
ghost use Rattle.ec_ctypes.specs.trees.Stmts.{decl_stmt, expr_stmt, goto_stmt};
ghost use Rattle.ec_ctypes.specs.views.Exprs.{decl_view, expr_view, expr_option_view};
ghost use Rattle.ec_resolve_forms.specs.Seen.{from, Reaches};
ghost use Rattle.ec_meaning_defs.specs.resolved.Resolved as of;
ghost use Rattle.ec_resolving_defs.specs.Statements as rule;
ghost use Rattle.ec_scopes.specs.Entries.{place_view};
ghost use Rattle.ec_resolve_statements.specs.Around.{around_view};
ghost use Rattle.ec_resolve_statements.specs.ForParts.{for_parts, for_forms_view};
ghost use Rattle.ec_resolve_parts.specs.Made.{optional_view};

use crate::declarations::declaration;
use crate::surroundings::Around;
use crate::values::{alone, optional, optional_condition};
use ec_base::{Boxed, OutOfMemory};
use ec_code::{Expression, Statement};
use ec_ctypes::{Decl, Expr, ForParts};
use ec_resolve_forms::Resolver;
use ec_resolve_parts::{behind_first_part, evaluated, jump, repeated, together};
use ec_scopes::Place;
use std::alloc::Global;

/// An expression as a statement.
pub(crate) fn done(
    resolver: &mut Resolver,
    a: Around<'_>,
    at: Place,
    e: &Expr,
) -> Result<Boxed<Statement>, OutOfMemory>
    ensures { Reaches statement_view
        (from (rule.statement_kind (around_view a.entry) (place_view at)
        (expr_stmt (expr_view e.now))) resolver.old)
        result resolver.new }
{
    let exp = alone(resolver, at, e)?;
    let made = evaluated(resolver.checker.alloc(), exp)?;
    Ok(made)
}

/// `goto`.
pub(crate) fn jumped(
    resolver: &mut Resolver,
    a: Around<'_>,
    at: Place,
    l: &[u8],
) -> Result<Boxed<Statement>, OutOfMemory>
    ensures { Reaches statement_view
        (from (rule.statement_kind (around_view a.entry) (place_view at) (goto_stmt l.now))
        resolver.old)
        result resolver.new }
{
    let label = a.labels.place(l)?;
    let made = jump(resolver.checker.alloc(), label)?;
    Ok(made)
}

/// A declaration in a block.
pub(crate) fn declared_here(
    resolver: &mut Resolver,
    a: Around<'_>,
    at: Place,
    d: &Decl,
) -> Result<Boxed<Statement>, OutOfMemory>
    ensures { Reaches statement_view
        (from (rule.statement_kind (around_view a.entry) (place_view at)
        (decl_stmt (decl_view d.now))) resolver.old)
        result resolver.new }
{
    let statements = declaration(resolver, false, d)?;
    let made = together(resolver.checker.alloc(), statements)?;
    Ok(made)
}

/// The forms of what stands in the parentheses of `for`.
#[derive(Drop)]
pub struct ForForms {
    pub first: Option<Boxed<Expression>>,
    pub test: Option<Boxed<Expression>>,
    pub behind: Option<Boxed<Expression>>,
}

/// What stands in the parentheses of `for` (ISO/IEC 9899:1999, 6.8.5.3).
pub(crate) fn for_parts(
    resolver: &mut Resolver,
    at: Place,
    parts: &ForParts,
) -> Result<ForForms, OutOfMemory>
    ensures { Reaches for_forms_view
        (from (for_parts (place_view at) (expr_option_view parts.now.first)
        (expr_option_view parts.now.condition) (expr_option_view parts.now.step))
        resolver.old)
        result resolver.new }
{
    let first = optional(resolver, at, &parts.first)?;
    let test = optional_condition(resolver, at, &parts.condition)?;
    let behind = optional(resolver, at, &parts.step)?;
    Ok(ForForms {
        first,
        test,
        behind,
    })
}

/// `for` with this body.
pub(crate) fn looped(
    alloc: Global,
    parts: ForForms,
    body: Boxed<Statement>,
) -> Result<Boxed<Statement>, OutOfMemory>
    ensures { IfOk result (λ made. statement_view made
        ≡ rule.behind_first_part (optional_view parts.first)
        (of.loop true (optional_view parts.test) (optional_view parts.behind)
        (statement_view body))) }
{
    let ForForms {
        first,
        test,
        behind,
    } = parts;
    let turns = repeated(alloc, true, test, behind, body)?;
    behind_first_part(alloc, first, turns)
}
