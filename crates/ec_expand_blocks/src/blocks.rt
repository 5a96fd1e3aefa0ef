//! The block of a statement: its call, and the tests behind it.

ghost use Rattle.std.specs.Prelude.{◌≡◌, ◌++◌, IfOk, OnOk, true, map};
ghost use Rattle.ec_ctypes.specs.views.Checked.{handlers_view};
ghost use Rattle.ec_ctypes.specs.views.Embedded.{emb_view};
ghost use Rattle.ec_ctypes.specs.views.Exprs.{expr_view};
ghost use Rattle.ec_ctypes.specs.views.Stmts.{stmt_view, kind_view};
ghost use Rattle.ec_expansion_defs.specs.Handlers.{tests};
ghost use Rattle.ec_typing_defs.specs.statement_parts.Handlers.{action_among};
ghost use Rattle.ec_whenever.specs.Tables.{is_sorted};
ghost use Rattle.ec_expand_blocks.specs.Blocks.{block_with};

use crate::handlers::push_test;
use ec_base::{List, OutOfMemory};
use ec_ctypes::{Cond, Emb, Expr, HandlerTable, Stmt, StmtKind};
use ec_whenever::HandlerLookup;
use std::alloc::Global;

// The tests of a statement, one for each condition with an action, in their order.
fn push_tests(
    alloc: Global,
    list: &mut List<Stmt>,
    handlers: &HandlerTable,
    emb: &Emb,
) -> Result<(), OutOfMemory>
    requires { is_sorted (handlers_view handlers.now) ≡ true }
    ensures { OnOk result (map stmt_view list.new ≡ map stmt_view list.old
        ++ tests emb.now.line (action_among (handlers_view handlers.now) emb.now.place)) }
{
    push_test(
        alloc,
        list,
        emb.line,
        Cond::NotFound,
        handlers.at(emb.place, Cond::NotFound),
    )?;
    push_test(
        alloc,
        list,
        emb.line,
        Cond::Warning,
        handlers.at(emb.place, Cond::Warning),
    )?;
    push_test(
        alloc,
        list,
        emb.line,
        Cond::Error,
        handlers.at(emb.place, Cond::Error),
    )?;
    Ok(())
}

/// The block of a statement with this call. All in it has the line of the statement.
#[tactic(auto, using(crate::proofs::Listed::listed))]
pub fn block_with(
    alloc: Global,
    handlers: &HandlerTable,
    emb: &Emb,
    call: Expr,
) -> Result<StmtKind, OutOfMemory>
    requires { is_sorted (handlers_view handlers.now) ≡ true }
    ensures { IfOk result (λ k. kind_view k ≡ block_with (handlers_view handlers.now)
        (emb_view emb.now) (expr_view call)) }
{
    let mut list = List::new(alloc);
    list.push(Stmt {
        line: emb.line,
        kind: StmtKind::Expr(call),
    })?;
    push_tests(alloc, &mut list, handlers, emb)?;
    Ok(StmtKind::Block(list))
}
