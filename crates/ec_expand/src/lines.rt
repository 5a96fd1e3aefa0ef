//! The line behind a written statement.

ghost use Rattle.std.specs.Prelude.{◌≡◌, IfOk, suc};
ghost use Rattle.ec_ctypes.specs.views.Stmts.{stmt_view, kind_view, stmts_view, stmt_option_view};
ghost use Rattle.ec_expansion_defs.specs.Lines as lines;

use ec_base::{Boxed, List, OutOfMemory};
use ec_ctypes::{Stmt, StmtKind};

/// The next line. A number that could not be counted is want of memory.
pub(crate) fn next(line: u32) -> Result<u32, OutOfMemory>
    ensures { IfOk result (λ n. n ≡ suc line) }
{
    // Out of reach, which isn't proved: a source has at most 2^24 bytes, so its lines are below.
    line.checked_add(1).ok_or(OutOfMemory)
}

/// The line behind a statement.
#[cycle(lines)]
pub fn line_after(stmt: &Stmt) -> Result<u32, OutOfMemory>
    ensures { IfOk result (λ n. n ≡ lines.line_after (stmt_view stmt.now)) }
{
    line_after_kind(stmt.line.0, &stmt.kind)
}

#[cycle(lines)]
fn line_after_kind(line: u32, kind: &StmtKind) -> Result<u32, OutOfMemory>
    ensures { IfOk result (λ n. n ≡ lines.line_after_kind line (kind_view kind.now)) }
{
    match kind {
        StmtKind::Empty => next(line),
        StmtKind::Expr(_) => next(line),
        StmtKind::Block(items) => next(line_after_all(next(line)?, items)?),
        StmtKind::If(_, body, other) => line_after_else(line_after(body.get())?, other),
        StmtKind::While(_, body) => line_after(body.get()),
        StmtKind::Do(body, _) => next(line_after(body.get())?),
        StmtKind::For(_, body) => line_after(body.get()),
        StmtKind::Break => next(line),
        StmtKind::Continue => next(line),
        StmtKind::Return(_) => next(line),
        StmtKind::Goto(_) => next(line),
        StmtKind::Label(_, body) => line_after(body.get()),
        StmtKind::Decl(_) => next(line),
        StmtKind::Emb(_) => Ok(line),
        StmtKind::Mark(_) => Ok(line),
    }
}

/// The line behind statements, the first of which begins on this line.
#[cycle(lines)]
pub(crate) fn line_after_all(line: u32, items: &List<Stmt>) -> Result<u32, OutOfMemory>
    ensures { IfOk result (λ n. n ≡ lines.line_after_all line (stmts_view items.now)) }
{
    let mut line = line;
    for item in items.as_slice() {
        line = line_after(item)?;
    }
    Ok(line)
}

#[cycle(lines)]
fn line_after_else(line: u32, other: &Option<Boxed<Stmt>>) -> Result<u32, OutOfMemory>
    ensures { IfOk result (λ n. n ≡ lines.line_after_else line (stmt_option_view other.now)) }
{
    match other {
        Some(body) => line_after(body.get()),
        None => Ok(line),
    }
}
