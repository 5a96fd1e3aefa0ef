//! The walk over statements (ISO/IEC 9899:1999, 6.8).
#![tactic(auto, using(ec_scopes::proofs::Steps::noting, ec_ctypes::specs::declared::tree::stmt::Stmt::the_lemmas, ec_ctypes::specs::declared::tree::stmt::StmtKind::the_lemmas), unfolding(ec_typing_defs::specs::Worlds::chain, ec_typing_defs::specs::Worlds::pure))]

ghost use Rattle.std.specs.Prelude.{◌≡◌};
ghost use Rattle.ec_ctypes.specs.views.Exprs.{expr_view};
ghost use Rattle.ec_ctypes.specs.views.Stmts.{stmt_view, kind_view, stmts_view, stmt_option_view};
ghost use Rattle.ec_scopes.specs.Entries.{place_view};
ghost use Rattle.ec_scopes.specs.Seen.{world_of, Does};
ghost use Rattle.ec_typing_defs.specs.Statements as rule;
ghost use Rattle.ec_embedded_rules.specs.Around.{around_view};

use crate::bodies::{condition, optional, optional_condition, return_by};
use crate::declarations::declaration;
use ec_base::{Boxed, FaultKind, OutOfMemory};
use ec_ctypes::{Stmt, StmtKind};
use ec_embedded_rules::{Around, as_body, as_item, embedded_at, looping};
use ec_scopes::{Checker, Place};

/// A statement, which is a place.
#[cycle(statements)]
fn statement(checker: &mut Checker, a: Around<'_>, s: &Stmt) -> Result<(), OutOfMemory>
    ensures { Does (λ u. u) (rule.statement (around_view a.entry) (stmt_view s.now)
        (world_of checker.old)) checker.old result checker.new }
{
    let at = checker.place(s.line)?;
    statement_kind(checker, a, at, &s.kind)
}

// The forms of statements. An `if`, a loop, each statement in them and a block are scopes (ISO/IEC 9899:1999, 6.8.2,
// 6.8.4, 3 and 6.8.5, 5).
#[cycle(statements)]
fn statement_kind(
    checker: &mut Checker,
    a: Around<'_>,
    at: Place,
    kind: &StmtKind,
) -> Result<(), OutOfMemory>
    ensures { Does (λ u. u) (rule.statement_kind (around_view a.entry) (place_view at)
        (kind_view kind.now) (world_of checker.old)) checker.old result checker.new }
{
    match kind {
        StmtKind::Empty => Ok(()),
        StmtKind::Expr(e) => {
            let _found = ec_walk::expr(checker, at, e)?;
            Ok(())
        }
        StmtKind::Block(ss) => {
            checker.enter()?;
            statements(checker, as_item(a), ss.as_slice())?;
            checker.leave();
            Ok(())
        }
        StmtKind::If(e, s, other) => {
            checker.enter()?;
            condition(checker, at, e.get())?;
            checker.enter()?;
            statement(checker, as_body(a), s.get())?;
            checker.leave();
            otherwise(checker, as_body(a), other)?;
            checker.leave();
            Ok(())
        }
        StmtKind::While(e, s) => {
            checker.enter()?;
            condition(checker, at, e)?;
            checker.enter()?;
            statement(checker, looping(a), s.get())?;
            checker.leave();
            checker.leave();
            Ok(())
        }
        StmtKind::Do(s, e) => {
            checker.enter()?;
            checker.enter()?;
            statement(checker, looping(a), s.get())?;
            checker.leave();
            condition(checker, at, e)?;
            checker.leave();
            Ok(())
        }
        StmtKind::For(parts, s) => {
            let parts = parts.get();
            checker.enter()?;
            optional(checker, at, &parts.first)?;
            optional_condition(checker, at, &parts.condition)?;
            optional(checker, at, &parts.step)?;
            checker.enter()?;
            statement(checker, looping(a), s.get())?;
            checker.leave();
            checker.leave();
            Ok(())
        }
        StmtKind::Break | StmtKind::Continue => {
            checker.demand(at, FaultKind::F18, a.in_loop);
            Ok(())
        }
        StmtKind::Return(e) => return_by(checker, at, a.result, e),
        StmtKind::Goto(l) => {
            let is_there = a.labels.get(l.as_slice()).is_some();
            checker.demand(at, FaultKind::F18, is_there);
            Ok(())
        }
        StmtKind::Label(l, s) => {
            checker.declare_label(at, l.as_slice())?;
            statement(checker, as_body(a), s.get())
        }
        StmtKind::Decl(d) => declaration(checker, false, d.get()),
        StmtKind::Emb(n) => embedded_at(checker, a, at, *n),
        StmtKind::Mark(_) => Ok(()),
    }
}

/// Statements, one after the other.
#[cycle(statements)]
pub fn statements(checker: &mut Checker, a: Around<'_>, ss: &[Stmt]) -> Result<(), OutOfMemory>
    ensures { Does (λ u. u) (rule.statements (around_view a.entry) (stmts_view ss.now)
        (world_of checker.old)) checker.old result checker.new }
{
    for s in ss {
        statement(checker, a, s)?;
    }
    Ok(())
}

// The statement behind `else`, if there is one.
#[cycle(statements)]
fn otherwise(
    checker: &mut Checker,
    a: Around<'_>,
    other: &Option<Boxed<Stmt>>,
) -> Result<(), OutOfMemory>
    ensures { Does (λ u. u) (rule.otherwise (around_view a.entry) (stmt_option_view other.now)
        (world_of checker.old)) checker.old result checker.new }
{
    match other {
        Some(s) => {
            checker.enter()?;
            statement(checker, a, s.get())?;
            checker.leave();
            Ok(())
        }
        None => Ok(()),
    }
}
