//! Statements as they are written: a block in the place of each embedded statement, and nothing in that of a directive or
//! a mark of a declare section.

ghost use Rattle.std.specs.Prelude.{◌≡◌, ◌++◌, IfOk, OnOk, [], ◌∷◌, map, option_map};
ghost use Rattle.ec_ctypes.specs.trees.Stmts.{stmt, expr_stmt, if_stmt, while_stmt, do_stmt, for_stmt, return_stmt, label_stmt};
ghost use Rattle.ec_ctypes.specs.views.Exprs.{expr_view, expr_option_view};
ghost use Rattle.ec_ctypes.specs.views.Stmts.{stmt_view, kind_view, stmts_view, stmt_option_view};
ghost use Rattle.ec_expand.specs.Blocks.{written_at};
ghost use Rattle.ec_expand.specs.Items.{is_plain_kind, other_item};
ghost use Rattle.ec_expansion_defs.specs.Declarations as written;
ghost use Rattle.ec_expansion_defs.specs.Lines as lines;
ghost use Rattle.ec_expansion_defs.specs.Statements as spec;

use crate::blocks::Blocks;
use crate::lines::line_after;
use ec_base::{Boxed, Line, List, Name, OutOfMemory};
use ec_ctypes::{Expr, ForParts, Stmt, StmtKind};
use ec_expand_blocks::on_line;
use ec_expand_declarations::{push_objects, written_expr};
use std::alloc::Global;

// ---- parts

// An expression that may be left out.
fn written_option(
    alloc: Global,
    line: Line,
    expr: &Option<Expr>,
) -> Result<Option<Expr>, OutOfMemory>
    ensures { IfOk result (λ e. expr_option_view e ≡ written.written_option line.0
        (expr_option_view expr.now)) }
{
    match expr {
        Some(expr) => Ok(Some(written_expr(alloc, line, expr)?)),
        None => Ok(None),
    }
}

// A statement on this line, behind others.
fn push_on_line(list: &mut List<Stmt>, line: Line, kind: StmtKind) -> Result<(), OutOfMemory>
    ensures { OnOk result (map stmt_view list.new ≡ map stmt_view list.old
        ++ stmt line (kind_view kind) ∷ []) }
{
    list.push(Stmt { line, kind })?;
    Ok(())
}

// ---- forms, each by the statements in it, which are written already

fn expr_kind(alloc: Global, line: Line, expr: &Expr) -> Result<StmtKind, OutOfMemory>
    ensures { IfOk result (λ k. kind_view k ≡ expr_stmt (written.written_expr line.0
        (expr_view expr.now))) }
{
    Ok(StmtKind::Expr(written_expr(alloc, line, expr)?))
}

fn if_kind(
    alloc: Global,
    line: Line,
    condition: &Expr,
    body: Boxed<Stmt>,
    other: Option<Boxed<Stmt>>,
) -> Result<StmtKind, OutOfMemory>
    ensures { IfOk result (λ k. kind_view k ≡ if_stmt (written.written_expr line.0
        (expr_view condition.now)) (stmt_view body) (stmt_option_view other)) }
{
    let condition = Boxed::new(alloc, written_expr(alloc, line, condition)?)?;
    Ok(StmtKind::If(condition, body, other))
}

fn while_kind(
    alloc: Global,
    line: Line,
    condition: &Expr,
    body: Boxed<Stmt>,
) -> Result<StmtKind, OutOfMemory>
    ensures { IfOk result (λ k. kind_view k ≡ while_stmt (written.written_expr line.0
        (expr_view condition.now)) (stmt_view body)) }
{
    Ok(StmtKind::While(written_expr(alloc, line, condition)?, body))
}

// The condition of a `do` stands on the line behind its body.
fn do_kind(alloc: Global, body: Boxed<Stmt>, condition: &Expr) -> Result<StmtKind, OutOfMemory>
    ensures { IfOk result (λ k. kind_view k ≡ do_stmt (stmt_view body) (written.written_expr
        (lines.line_after (stmt_view body)) (expr_view condition.now))) }
{
    let line = Line(line_after(body.get())?);
    Ok(StmtKind::Do(body, written_expr(alloc, line, condition)?))
}

fn for_kind(
    alloc: Global,
    line: Line,
    parts: &ForParts,
    body: Boxed<Stmt>,
) -> Result<StmtKind, OutOfMemory>
    ensures { IfOk result (λ k. kind_view k ≡ for_stmt
        (written.written_option line.0 (expr_option_view parts.now.first))
        (written.written_option line.0 (expr_option_view parts.now.condition))
        (written.written_option line.0 (expr_option_view parts.now.step)) (stmt_view body)) }
{
    let parts = Boxed::new(alloc, written_parts(alloc, line, parts)?)?;
    Ok(StmtKind::For(parts, body))
}

// What stands in the parentheses of a `for`.
fn written_parts(alloc: Global, line: Line, parts: &ForParts) -> Result<ForParts, OutOfMemory>
    ensures first { IfOk result (λ p. expr_option_view p.first ≡ written.written_option line.0
        (expr_option_view parts.now.first)) }
    ensures condition { IfOk result (λ p. expr_option_view p.condition
        ≡ written.written_option line.0 (expr_option_view parts.now.condition)) }
    ensures step { IfOk result (λ p. expr_option_view p.step ≡ written.written_option line.0
        (expr_option_view parts.now.step)) }
{
    let first = Boxed::new(alloc, written_option(alloc, line, &parts.first)?)?;
    let condition = Boxed::new(alloc, written_option(alloc, line, &parts.condition)?)?;
    let step = written_option(alloc, line, &parts.step)?;
    Ok(ForParts {
        first: first.into_inner(),
        condition: condition.into_inner(),
        step,
    })
}

fn return_kind(alloc: Global, line: Line, expr: &Option<Expr>) -> Result<StmtKind, OutOfMemory>
    ensures { IfOk result (λ k. kind_view k ≡ return_stmt (written.written_option line.0
        (expr_option_view expr.now))) }
{
    Ok(StmtKind::Return(written_option(alloc, line, expr)?))
}

fn label_kind(name: &Name, body: Boxed<Stmt>) -> Result<StmtKind, OutOfMemory>
    ensures { IfOk result (λ k. kind_view k ≡ label_stmt name.now (stmt_view body)) }
{
    Ok(StmtKind::Label(name.clone()?, body))
}

// ---- embedded statements

// A block in the place of an embedded statement that stands alone, or an empty statement.
fn block_or_empty(alloc: Global, blocks: &Blocks<'_>, number: u32) -> Result<StmtKind, OutOfMemory>
    ensures { IfOk result (λ k. kind_view k ≡ spec.or_empty (written_at blocks.now.typed.now
        blocks.now.bounds.now number)) }
{
    match blocks.block(alloc, number)? {
        Some(kind) => Ok(kind),
        None => Ok(StmtKind::Empty),
    }
}

// A block in the place of an embedded statement behind others, if anything is written of it.
fn push_block(
    alloc: Global,
    blocks: &Blocks<'_>,
    line: Line,
    number: u32,
    list: &mut List<Stmt>,
) -> Result<(), OutOfMemory>
    ensures { OnOk result (map stmt_view list.new ≡ map stmt_view list.old
        ++ spec.optional_stmt line (written_at blocks.now.typed.now blocks.now.bounds.now
        number)) }
{
    match blocks.block(alloc, number)? {
        Some(kind) => push_on_line(list, line, kind),
        None => Ok(()),
    }
}

// Whether it is written as one statement.
fn is_plain(kind: &StmtKind) -> bool
    ensures { result ≡ is_plain_kind (kind_view kind.now) }
{
    !matches!(
        kind,
        StmtKind::Decl(_) | StmtKind::Emb(_) | StmtKind::Mark(_)
    )
}

// What is written of a declaration, an embedded statement or a mark.
fn push_other(
    alloc: Global,
    blocks: &Blocks<'_>,
    line: Line,
    kind: &StmtKind,
    list: &mut List<Stmt>,
) -> Result<(), OutOfMemory>
    ensures { OnOk result (map stmt_view list.new ≡ map stmt_view list.old
        ++ other_item (written_at blocks.now.typed.now blocks.now.bounds.now) line
        (kind_view kind.now)) }
{
    match kind {
        StmtKind::Decl(declared) => push_objects(alloc, line, declared.get(), list),
        StmtKind::Emb(number) => push_block(alloc, blocks, line, *number, list),
        _ => Ok(()),
    }
}

// ---- statements

// A statement that stands alone.
#[cycle(statements)]
fn written_stmt(alloc: Global, blocks: &Blocks<'_>, item: &Stmt) -> Result<Boxed<Stmt>, OutOfMemory>
    ensures { IfOk result (λ s. stmt_view s ≡ spec.written_stmt (written_at blocks.now.typed.now
        blocks.now.bounds.now) (stmt_view item.now)) }
{
    on_line(
        alloc,
        item.line,
        written_kind(alloc, blocks, item.line, &item.kind)?,
    )
}

#[cycle(statements)]
fn written_kind(
    alloc: Global,
    blocks: &Blocks<'_>,
    line: Line,
    kind: &StmtKind,
) -> Result<StmtKind, OutOfMemory>
    ensures { IfOk result (λ k. kind_view k ≡ spec.written_kind (written_at blocks.now.typed.now
        blocks.now.bounds.now) line.0 (kind_view kind.now)) }
{
    match kind {
        StmtKind::Empty => Ok(StmtKind::Empty),
        StmtKind::Expr(expr) => expr_kind(alloc, line, expr),
        StmtKind::Block(items) => Ok(StmtKind::Block(written_items(alloc, blocks, items)?)),
        StmtKind::If(condition, body, other) => {
            let body = written_stmt(alloc, blocks, body.get())?;
            let other = written_else(alloc, blocks, other)?;
            if_kind(alloc, line, condition.get(), body, other)
        }
        StmtKind::While(condition, body) => {
            let body = written_stmt(alloc, blocks, body.get())?;
            while_kind(alloc, line, condition, body)
        }
        StmtKind::Do(body, condition) => {
            let body = written_stmt(alloc, blocks, body.get())?;
            do_kind(alloc, body, condition)
        }
        StmtKind::For(parts, body) => {
            let body = written_stmt(alloc, blocks, body.get())?;
            for_kind(alloc, line, parts.get(), body)
        }
        StmtKind::Break => Ok(StmtKind::Break),
        StmtKind::Continue => Ok(StmtKind::Continue),
        StmtKind::Return(expr) => return_kind(alloc, line, expr),
        StmtKind::Goto(name) => Ok(StmtKind::Goto(name.clone()?)),
        StmtKind::Label(name, body) => {
            let body = written_stmt(alloc, blocks, body.get())?;
            label_kind(name, body)
        }
        StmtKind::Decl(_) => Ok(StmtKind::Empty),
        StmtKind::Emb(number) => block_or_empty(alloc, blocks, *number),
        StmtKind::Mark(_) => Ok(StmtKind::Empty),
    }
}

/// The statements of a block.
#[cycle(statements)]
pub(crate) fn written_items(
    alloc: Global,
    blocks: &Blocks<'_>,
    items: &List<Stmt>,
) -> Result<List<Stmt>, OutOfMemory>
    ensures { IfOk result (λ ss. stmts_view ss ≡ spec.written_items (written_at
        blocks.now.typed.now blocks.now.bounds.now) (stmts_view items.now)) }
{
    let mut list = List::new(alloc);
    for item in items.as_slice() {
        push_item(alloc, blocks, item.line, &item.kind, &mut list)?;
    }
    Ok(list)
}

// What is written of a statement of a block.
#[cycle(statements)]
#[tactic(auto, using(crate::proofs::Written::plain_item, crate::proofs::Written::other_is))]
fn push_item(
    alloc: Global,
    blocks: &Blocks<'_>,
    line: Line,
    kind: &StmtKind,
    list: &mut List<Stmt>,
) -> Result<(), OutOfMemory>
    ensures { OnOk result (map stmt_view list.new ≡ map stmt_view list.old
        ++ spec.written_item (written_at blocks.now.typed.now blocks.now.bounds.now)
        (stmt line (kind_view kind.now))) }
{
    if is_plain(kind) {
        push_on_line(list, line, written_kind(alloc, blocks, line, kind)?)
    } else {
        push_other(alloc, blocks, line, kind, list)
    }
}

#[cycle(statements)]
fn written_else(
    alloc: Global,
    blocks: &Blocks<'_>,
    other: &Option<Boxed<Stmt>>,
) -> Result<Option<Boxed<Stmt>>, OutOfMemory>
    ensures { IfOk result (λ s. stmt_option_view s ≡ spec.written_else (written_at
        blocks.now.typed.now blocks.now.bounds.now) (stmt_option_view other.now)) }
{
    match other {
        Some(body) => Ok(Some(written_stmt(alloc, blocks, body.get())?)),
        None => Ok(None),
    }
}
