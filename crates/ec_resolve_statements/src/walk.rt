//! The walk over statements, in which each function stops at a number of levels (ISO/IEC 9899:1999, 6.8).
#![tactic(auto, unfolding(ec_resolving_defs::specs::Storage::chain, ec_resolving_defs::specs::Storage::pure, ec_resolving_defs::specs::Storage::checks, ec_resolving_defs::specs::Storage::ask, ec_resolving_defs::specs::Storage::stored, ec_resolving_defs::specs::Storage::arrange))]

ghost use Rattle.std.specs.Prelude.{◌≡◌};
ghost use Rattle.ec_code.specs.Views.{statement_view, statements_view};
ghost use Rattle.ec_ctypes.specs.trees.Stmts.{block_stmt, do_stmt, for_stmt, if_stmt, label_stmt, while_stmt};
ghost use Rattle.ec_ctypes.specs.views.Exprs.{expr_view, expr_option_view};
ghost use Rattle.ec_ctypes.specs.views.Stmts.{stmt_view, kind_view, stmts_view, stmt_option_view};
ghost use Rattle.ec_resolve_forms.specs.Seen.{from, Reaches};
ghost use Rattle.ec_resolving_defs.specs.Statements as rule;
ghost use Rattle.ec_scopes.specs.Entries.{place_view};
ghost use Rattle.ec_resolve_statements.specs.Around.{around_view};
ghost use Rattle.ec_resolve_statements.specs.Scopes.{if_parts, while_parts, do_parts, for_loop};

use crate::simple::{declared_here, done, for_parts, jumped, looped};
use crate::surroundings::Around;
use crate::values::{condition, return_by};
use ec_base::{Boxed, List, OutOfMemory};
use ec_code::Statement;
use ec_ctypes::{Expr, ForParts, Stmt, StmtKind};
use ec_resolve_forms::Resolver;
use ec_resolve_parts::{
    block, choice, continued, embedded, labelled, left, nothing, objects_in_all, on_line, repeated,
};
use ec_scopes::Place;

/// A statement, which is a place.
#[cycle(statements)]
#[tactic(auto, using(ec_ctypes::specs::declared::tree::stmt::Stmt::the_lemmas), unfolding(ec_resolving_defs::specs::Storage::chain, ec_resolving_defs::specs::Storage::pure, ec_resolving_defs::specs::Storage::checks))]
fn statement_within(
    resolver: &mut Resolver,
    a: Around<'_>,
    s: &Stmt,
    levels: u32,
) -> Result<Boxed<Statement>, OutOfMemory>
    ensures { Reaches statement_view
        (from (rule.statement (around_view a.entry) (stmt_view s.now)) resolver.old)
        result resolver.new }
{
    if levels == 0 {
        // Out of reach, which isn't proved: `LEVELS` are more than the nesting of a source makes.
        return Err(OutOfMemory);
    }
    let at = resolver.checker.place(s.line)?;
    let kind = statement_kind(resolver, a, at, &s.kind, levels - 1)?;
    let made = on_line(resolver.checker.alloc(), s.line, kind)?;
    Ok(made)
}

/// The forms of statements.
#[cycle(statements)]
#[tactic(auto, using(ec_ctypes::specs::declared::tree::stmt::StmtKind::the_lemmas), unfolding(ec_resolving_defs::specs::Storage::chain, ec_resolving_defs::specs::Storage::pure, ec_resolving_defs::specs::Storage::checks))]
fn statement_kind(
    resolver: &mut Resolver,
    a: Around<'_>,
    at: Place,
    kind: &StmtKind,
    levels: u32,
) -> Result<Boxed<Statement>, OutOfMemory>
    ensures { Reaches statement_view
        (from (rule.statement_kind (around_view a.entry) (place_view at) (kind_view kind.now))
        resolver.old)
        result resolver.new }
{
    match kind {
        StmtKind::Empty | StmtKind::Mark(_) => {
            let made = nothing(resolver.checker.alloc())?;
            Ok(made)
        }
        StmtKind::Expr(e) => done(resolver, a, at, e),
        StmtKind::Block(ss) => block_within(resolver, a, at, ss.as_slice(), levels),
        StmtKind::If(e, s, other) => if_within(resolver, a, at, e.get(), s.get(), other, levels),
        StmtKind::While(e, s) => while_within(resolver, a, at, e, s.get(), levels),
        StmtKind::Do(s, e) => do_within(resolver, a, at, s.get(), e, levels),
        StmtKind::For(parts, s) => for_within(resolver, a, at, parts.get(), s.get(), levels),
        StmtKind::Break => {
            let made = left(resolver.checker.alloc())?;
            Ok(made)
        }
        StmtKind::Continue => {
            let made = continued(resolver.checker.alloc())?;
            Ok(made)
        }
        StmtKind::Return(e) => return_by(resolver, at, a.result, e),
        StmtKind::Goto(l) => jumped(resolver, a, at, l.as_slice()),
        StmtKind::Label(l, s) => label_within(resolver, a, at, l.as_slice(), s.get(), levels),
        StmtKind::Decl(d) => declared_here(resolver, a, at, d.get()),
        StmtKind::Emb(n) => {
            let made = embedded(resolver.checker.alloc(), *n)?;
            Ok(made)
        }
    }
}

/// Statements, one after the other.
#[cycle(statements)]
pub(crate) fn statements_within(
    resolver: &mut Resolver,
    a: Around<'_>,
    ss: &[Stmt],
    levels: u32,
) -> Result<List<Statement>, OutOfMemory>
    ensures { Reaches statements_view
        (from (rule.statements (around_view a.entry) (stmts_view ss.now)) resolver.old)
        result resolver.new }
{
    let mut statements = List::new(resolver.checker.alloc());
    for s in ss {
        let made = statement_within(resolver, a, s, levels)?;
        statements.push(made.into_inner())?;
    }
    Ok(statements)
}

/// A statement in a scope of its own.
#[cycle(statements)]
fn scoped_within(
    resolver: &mut Resolver,
    a: Around<'_>,
    s: &Stmt,
    levels: u32,
) -> Result<Boxed<Statement>, OutOfMemory>
    ensures { Reaches statement_view
        (from (rule.scoped (rule.statement (around_view a.entry) (stmt_view s.now))) resolver.old)
        result resolver.new }
{
    resolver.checker.enter()?;
    let made = statement_within(resolver, a, s, levels)?;
    resolver.checker.leave();
    Ok(made)
}

/// The statement behind `else`, if there is one.
#[cycle(statements)]
fn otherwise_within(
    resolver: &mut Resolver,
    a: Around<'_>,
    other: &Option<Boxed<Stmt>>,
    levels: u32,
) -> Result<Boxed<Statement>, OutOfMemory>
    ensures { Reaches statement_view
        (from (rule.otherwise (around_view a.entry) (stmt_option_view other.now)) resolver.old)
        result resolver.new }
{
    match other {
        Some(s) => scoped_within(resolver, a, s.get(), levels),
        None => {
            let made = nothing(resolver.checker.alloc())?;
            Ok(made)
        }
    }
}

/// A block, which is a scope (ISO/IEC 9899:1999, 6.8.2).
#[cycle(statements)]
fn block_within(
    resolver: &mut Resolver,
    a: Around<'_>,
    at: Place,
    ss: &[Stmt],
    levels: u32,
) -> Result<Boxed<Statement>, OutOfMemory>
    ensures { Reaches statement_view
        (from (rule.statement_kind (around_view a.entry) (place_view at)
        (block_stmt (stmts_view ss.now))) resolver.old)
        result resolver.new }
{
    let count = objects_in_all(ss)?;
    let outer = resolver.storage.enter_block(count)?;
    let statements = all_scoped(resolver, a, ss, levels)?;
    let objects = resolver.storage.leave_block(outer);
    let made = block(resolver.checker.alloc(), objects, statements)?;
    Ok(made)
}

/// Statements in a scope of their own.
#[cycle(statements)]
fn all_scoped(
    resolver: &mut Resolver,
    a: Around<'_>,
    ss: &[Stmt],
    levels: u32,
) -> Result<List<Statement>, OutOfMemory>
    ensures { Reaches statements_view
        (from (rule.scoped (rule.statements (around_view a.entry) (stmts_view ss.now)))
        resolver.old)
        result resolver.new }
{
    resolver.checker.enter()?;
    let made = statements_within(resolver, a, ss, levels)?;
    resolver.checker.leave();
    Ok(made)
}

/// A choice, which is a scope, as each of its statements is (ISO/IEC 9899:1999, 6.8.4, 3).
#[cycle(statements)]
fn if_within(
    resolver: &mut Resolver,
    a: Around<'_>,
    at: Place,
    e: &Expr,
    s: &Stmt,
    other: &Option<Boxed<Stmt>>,
    levels: u32,
) -> Result<Boxed<Statement>, OutOfMemory>
    ensures { Reaches statement_view
        (from (rule.statement_kind (around_view a.entry) (place_view at)
        (if_stmt (expr_view e.now) (stmt_view s.now) (stmt_option_view other.now)))
        resolver.old)
        result resolver.new }
{
    resolver.checker.enter()?;
    let made = if_parts(resolver, a, at, e, s, other, levels)?;
    resolver.checker.leave();
    Ok(made)
}

/// What stands in the scope of a choice.
#[cycle(statements)]
fn if_parts(
    resolver: &mut Resolver,
    a: Around<'_>,
    at: Place,
    e: &Expr,
    s: &Stmt,
    other: &Option<Boxed<Stmt>>,
    levels: u32,
) -> Result<Boxed<Statement>, OutOfMemory>
    ensures { Reaches statement_view
        (from (if_parts (around_view a.entry) (place_view at) (expr_view e.now) (stmt_view s.now)
        (stmt_option_view other.now))
        resolver.old)
        result resolver.new }
{
    let test = condition(resolver, at, e)?;
    let first = scoped_within(resolver, a, s, levels)?;
    let second = otherwise_within(resolver, a, other, levels)?;
    let made = choice(resolver.checker.alloc(), test, first, second)?;
    Ok(made)
}

/// `while`, which is a scope, as its body is (ISO/IEC 9899:1999, 6.8.5, 5).
#[cycle(statements)]
fn while_within(
    resolver: &mut Resolver,
    a: Around<'_>,
    at: Place,
    e: &Expr,
    s: &Stmt,
    levels: u32,
) -> Result<Boxed<Statement>, OutOfMemory>
    ensures { Reaches statement_view
        (from (rule.statement_kind (around_view a.entry) (place_view at)
        (while_stmt (expr_view e.now) (stmt_view s.now))) resolver.old)
        result resolver.new }
{
    resolver.checker.enter()?;
    let made = while_parts(resolver, a, at, e, s, levels)?;
    resolver.checker.leave();
    Ok(made)
}

/// What stands in the scope of `while`.
#[cycle(statements)]
fn while_parts(
    resolver: &mut Resolver,
    a: Around<'_>,
    at: Place,
    e: &Expr,
    s: &Stmt,
    levels: u32,
) -> Result<Boxed<Statement>, OutOfMemory>
    ensures { Reaches statement_view
        (from (while_parts (around_view a.entry)
        (place_view at) (expr_view e.now) (stmt_view s.now))
        resolver.old)
        result resolver.new }
{
    let test = condition(resolver, at, e)?;
    let body = scoped_within(resolver, a, s, levels)?;
    let made = repeated(resolver.checker.alloc(), true, Some(test), None, body)?;
    Ok(made)
}

/// `do`, whose condition stands behind the body.
#[cycle(statements)]
fn do_within(
    resolver: &mut Resolver,
    a: Around<'_>,
    at: Place,
    s: &Stmt,
    e: &Expr,
    levels: u32,
) -> Result<Boxed<Statement>, OutOfMemory>
    ensures { Reaches statement_view
        (from (rule.statement_kind (around_view a.entry) (place_view at)
        (do_stmt (stmt_view s.now) (expr_view e.now))) resolver.old)
        result resolver.new }
{
    resolver.checker.enter()?;
    let made = do_parts(resolver, a, at, s, e, levels)?;
    resolver.checker.leave();
    Ok(made)
}

/// What stands in the scope of `do`.
#[cycle(statements)]
fn do_parts(
    resolver: &mut Resolver,
    a: Around<'_>,
    at: Place,
    s: &Stmt,
    e: &Expr,
    levels: u32,
) -> Result<Boxed<Statement>, OutOfMemory>
    ensures { Reaches statement_view
        (from (do_parts (around_view a.entry) (place_view at) (stmt_view s.now) (expr_view e.now))
        resolver.old)
        result resolver.new }
{
    let body = scoped_within(resolver, a, s, levels)?;
    let test = condition(resolver, at, e)?;
    let made = repeated(resolver.checker.alloc(), false, Some(test), None, body)?;
    Ok(made)
}

/// `for`.
#[cycle(statements)]
fn for_within(
    resolver: &mut Resolver,
    a: Around<'_>,
    at: Place,
    parts: &ForParts,
    s: &Stmt,
    levels: u32,
) -> Result<Boxed<Statement>, OutOfMemory>
    ensures { Reaches statement_view
        (from (rule.statement_kind (around_view a.entry) (place_view at)
        (for_stmt (expr_option_view parts.now.first) (expr_option_view parts.now.condition)
        (expr_option_view parts.now.step) (stmt_view s.now))) resolver.old)
        result resolver.new }
{
    resolver.checker.enter()?;
    let made = for_loop(resolver, a, at, parts, s, levels)?;
    resolver.checker.leave();
    Ok(made)
}

/// What stands in the scope of `for`.
#[cycle(statements)]
fn for_loop(
    resolver: &mut Resolver,
    a: Around<'_>,
    at: Place,
    parts: &ForParts,
    s: &Stmt,
    levels: u32,
) -> Result<Boxed<Statement>, OutOfMemory>
    ensures { Reaches statement_view
        (from (for_loop (around_view a.entry) (place_view at) (expr_option_view parts.now.first)
        (expr_option_view parts.now.condition) (expr_option_view parts.now.step)
        (stmt_view s.now))
        resolver.old)
        result resolver.new }
{
    let parts = for_parts(resolver, at, parts)?;
    let body = scoped_within(resolver, a, s, levels)?;
    let made = looped(resolver.checker.alloc(), parts, body)?;
    Ok(made)
}

/// A statement behind a label.
#[cycle(statements)]
fn label_within(
    resolver: &mut Resolver,
    a: Around<'_>,
    at: Place,
    l: &[u8],
    s: &Stmt,
    levels: u32,
) -> Result<Boxed<Statement>, OutOfMemory>
    ensures { Reaches statement_view
        (from (rule.statement_kind (around_view a.entry) (place_view at)
        (label_stmt l.now (stmt_view s.now))) resolver.old)
        result resolver.new }
{
    resolver.checker.declare_label(at, l)?;
    let behind = statement_within(resolver, a, s, levels)?;
    let label = a.labels.place(l)?;
    let made = labelled(resolver.checker.alloc(), label, behind)?;
    Ok(made)
}
