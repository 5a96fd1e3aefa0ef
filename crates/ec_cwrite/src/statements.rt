//! Statements, put at the end of a text.

ghost use Rattle.std.specs.Prelude.{◌≡◌, ◌++◌, [], ◌∷◌, drop, codes, OnOk};
ghost use Rattle.ec_ctypes.specs.declared.text.token.Punct.TheVariants as punct;
ghost use Rattle.ec_ctypes.specs.trees.Stmts.{expr_stmt, block_stmt, while_stmt, do_stmt, for_stmt, break_stmt, continue_stmt, return_stmt, goto_stmt, label_stmt, decl_stmt};
ghost use Rattle.ec_ctypes.specs.views.Exprs.{expr_view, expr_option_view, decl_view};
ghost use Rattle.ec_ctypes.specs.views.Stmts.{stmt_view, kind_view, stmts_view, stmt_option_view};
ghost use Rattle.ec_cwrite.specs.Lists.{if_head};
ghost use Rattle.ec_cwrite.specs.Writes.{Writes};
ghost use Rattle.ec_writing_defs.specs.Chunks.{blank, line_end};
ghost use Rattle.ec_writing_defs.specs.Expressions.{mark, word, in_parens, expr_chunks};
ghost use Rattle.ec_writing_defs.specs.Programs.{option_chunks, return_chunks, head_chunks, stmt_chunks, kind_chunks, items_chunks, else_chunks, block_chunks};

use crate::expressions::{push_decl, push_expr};
use crate::text::{push_blank, push_line, push_line_end, push_mark, push_word};
use ec_base::{Boxed, Bytes, OutOfMemory};
use ec_ctypes::{Decl, Expr, ForParts, Punct, Stmt, StmtKind};

/// The end of a statement.
pub fn push_semicolon(out: &mut Bytes) -> Result<(), OutOfMemory>
    ensures { OnOk result (Writes out.old out.new (mark punct.Semicolon ∷ line_end ∷ [])) }
{
    push_mark(out, Punct::Semicolon)?;
    push_line_end(out)?;
    Ok(())
}

/// A blank, and an expression in parentheses.
fn push_condition(out: &mut Bytes, expr: &Expr) -> Result<(), OutOfMemory>
    ensures { OnOk result (Writes out.old out.new (blank ∷ in_parens (expr_chunks
        (expr_view expr.now)))) }
{
    push_blank(out)?;
    push_mark(out, Punct::LeftParen)?;
    push_expr(out, expr)?;
    push_mark(out, Punct::RightParen)?;
    Ok(())
}

/// `if (e)` on its line.
fn push_if_head(out: &mut Bytes, expr: &Expr) -> Result<(), OutOfMemory>
    ensures { OnOk result (Writes out.old out.new (if_head (expr_view expr.now))) }
{
    push_word(out, b"if")?;
    push_condition(out, expr)?;
    push_line_end(out)?;
    Ok(())
}

/// An expression, where there is one.
fn push_option(out: &mut Bytes, expr: &Option<Expr>) -> Result<(), OutOfMemory>
    ensures { OnOk result (Writes out.old out.new (option_chunks (expr_option_view expr.now))) }
{
    match expr {
        Some(expr) => push_expr(out, expr),
        None => Ok(()),
    }
}

/// The three parts of a `for`.
fn push_head(out: &mut Bytes, parts: &ForParts) -> Result<(), OutOfMemory>
    ensures { OnOk result (Writes out.old out.new (head_chunks (expr_option_view parts.now.first)
        (expr_option_view parts.now.condition) (expr_option_view parts.now.step))) }
{
    push_mark(out, Punct::LeftParen)?;
    push_option(out, &parts.first)?;
    push_mark(out, Punct::Semicolon)?;
    push_blank(out)?;
    push_option(out, &parts.condition)?;
    push_mark(out, Punct::Semicolon)?;
    push_blank(out)?;
    push_option(out, &parts.step)?;
    push_mark(out, Punct::RightParen)?;
    Ok(())
}

/// An expression as a statement.
fn push_expr_stmt(out: &mut Bytes, expr: &Expr) -> Result<(), OutOfMemory>
    ensures { OnOk result (Writes out.old out.new (kind_chunks (expr_stmt (expr_view expr.now)))) }
{
    push_expr(out, expr)?;
    push_semicolon(out)?;
    Ok(())
}

/// `break;` or `continue;`
fn push_jump(out: &mut Bytes, text: &[u8]) -> Result<(), OutOfMemory>
    ensures { OnOk result (Writes out.old out.new (word text.now ∷ mark punct.Semicolon
        ∷ line_end ∷ [])) }
{
    push_word(out, text)?;
    push_semicolon(out)?;
    Ok(())
}

/// What `return` gives back.
fn push_value(out: &mut Bytes, expr: &Option<Expr>) -> Result<(), OutOfMemory>
    ensures { OnOk result (Writes out.old out.new (return_chunks (expr_option_view expr.now))) }
{
    if let Some(expr) = expr {
        push_blank(out)?;
        push_expr(out, expr)?;
    }
    Ok(())
}

/// A `return`.
fn push_return(out: &mut Bytes, expr: &Option<Expr>) -> Result<(), OutOfMemory>
    ensures { OnOk result (Writes out.old out.new (kind_chunks (return_stmt
        (expr_option_view expr.now)))) }
{
    push_word(out, b"return")?;
    push_value(out, expr)?;
    push_semicolon(out)?;
    Ok(())
}

/// A `goto`.
fn push_goto(out: &mut Bytes, label: &[u8]) -> Result<(), OutOfMemory>
    ensures { OnOk result (Writes out.old out.new (kind_chunks (goto_stmt label.now))) }
{
    push_word(out, b"goto")?;
    push_blank(out)?;
    push_word(out, label)?;
    push_semicolon(out)?;
    Ok(())
}

/// A declaration as a statement.
fn push_decl_stmt(out: &mut Bytes, decl: &Decl) -> Result<(), OutOfMemory>
    ensures { OnOk result (Writes out.old out.new (kind_chunks (decl_stmt (decl_view decl.now)))) }
{
    push_decl(out, decl)?;
    push_line_end(out)?;
    Ok(())
}

/// A statement on its line.
#[cycle(stmts)]
fn push_stmt(out: &mut Bytes, stmt: &Stmt) -> Result<(), OutOfMemory>
    ensures { OnOk result (Writes out.old out.new (stmt_chunks (stmt_view stmt.now))) }
{
    push_line(out, stmt.line)?;
    push_kind(out, &stmt.kind)?;
    Ok(())
}

/// What a statement is. Embedded statements and marks are no C and leave nothing.
#[cycle(stmts)]
pub fn push_kind(out: &mut Bytes, kind: &StmtKind) -> Result<(), OutOfMemory>
    ensures { OnOk result (Writes out.old out.new (kind_chunks (kind_view kind.now))) }
{
    match kind {
        StmtKind::Empty => push_semicolon(out),
        StmtKind::Expr(expr) => push_expr_stmt(out, expr),
        StmtKind::Block(stmts) => push_block_stmt(out, stmts.as_slice()),
        StmtKind::If(expr, stmt, other) => {
            push_if_head(out, expr.get())?;
            push_stmt(out, stmt.get())?;
            push_else(out, other)?;
            Ok(())
        }
        StmtKind::While(expr, stmt) => push_while(out, stmt.get(), expr),
        StmtKind::Do(stmt, expr) => push_do(out, stmt.get(), expr),
        StmtKind::For(parts, stmt) => push_for(out, stmt.get(), parts.get()),
        StmtKind::Break => push_jump(out, b"break"),
        StmtKind::Continue => push_jump(out, b"continue"),
        StmtKind::Return(expr) => push_return(out, expr),
        StmtKind::Goto(label) => push_goto(out, label.as_slice()),
        StmtKind::Label(label, stmt) => push_label(out, label.as_slice(), stmt.get()),
        StmtKind::Decl(decl) => push_decl_stmt(out, decl.get()),
        StmtKind::Emb(_) | StmtKind::Mark(_) => Ok(()),
    }
}

/// The rest of an `if`.
#[cycle(stmts)]
fn push_else(out: &mut Bytes, other: &Option<Boxed<Stmt>>) -> Result<(), OutOfMemory>
    ensures { OnOk result (Writes out.old out.new (else_chunks (stmt_option_view other.now))) }
{
    if let Some(stmt) = other {
        push_word(out, b"else")?;
        push_line_end(out)?;
        push_stmt(out, stmt.get())?;
    }
    Ok(())
}

/// A `while`.
#[cycle(stmts)]
fn push_while(out: &mut Bytes, stmt: &Stmt, expr: &Expr) -> Result<(), OutOfMemory>
    ensures { OnOk result (Writes out.old out.new (kind_chunks (while_stmt (expr_view expr.now)
        (stmt_view stmt.now)))) }
{
    push_word(out, b"while")?;
    push_condition(out, expr)?;
    push_line_end(out)?;
    push_stmt(out, stmt)?;
    Ok(())
}

/// A `do`.
#[cycle(stmts)]
fn push_do(out: &mut Bytes, stmt: &Stmt, expr: &Expr) -> Result<(), OutOfMemory>
    ensures { OnOk result (Writes out.old out.new (kind_chunks (do_stmt (stmt_view stmt.now)
        (expr_view expr.now)))) }
{
    push_word(out, b"do")?;
    push_line_end(out)?;
    push_stmt(out, stmt)?;
    push_word(out, b"while")?;
    push_condition(out, expr)?;
    push_semicolon(out)?;
    Ok(())
}

/// A `for`.
#[cycle(stmts)]
fn push_for(out: &mut Bytes, stmt: &Stmt, parts: &ForParts) -> Result<(), OutOfMemory>
    ensures { OnOk result (Writes out.old out.new (kind_chunks (for_stmt
        (expr_option_view parts.now.first) (expr_option_view parts.now.condition)
        (expr_option_view parts.now.step) (stmt_view stmt.now)))) }
{
    push_word(out, b"for")?;
    push_blank(out)?;
    push_head(out, parts)?;
    push_line_end(out)?;
    push_stmt(out, stmt)?;
    Ok(())
}

/// A label, and what it stands before.
#[cycle(stmts)]
fn push_label(out: &mut Bytes, label: &[u8], stmt: &Stmt) -> Result<(), OutOfMemory>
    ensures { OnOk result (Writes out.old out.new (kind_chunks (label_stmt label.now
        (stmt_view stmt.now)))) }
{
    push_word(out, label)?;
    push_mark(out, Punct::Colon)?;
    push_line_end(out)?;
    push_stmt(out, stmt)?;
    Ok(())
}

/// A block as a statement.
#[cycle(stmts)]
fn push_block_stmt(out: &mut Bytes, stmts: &[Stmt]) -> Result<(), OutOfMemory>
    ensures { OnOk result (Writes out.old out.new (kind_chunks (block_stmt
        (stmts_view stmts.now)))) }
{
    push_block(out, stmts)?;
    push_line_end(out)?;
    Ok(())
}

/// A block, without the end of its last line.
#[cycle(stmts)]
pub fn push_block(out: &mut Bytes, stmts: &[Stmt]) -> Result<(), OutOfMemory>
    ensures { OnOk result (Writes out.old out.new (block_chunks (stmts_view stmts.now))) }
{
    push_mark(out, Punct::LeftBrace)?;
    push_line_end(out)?;
    push_stmts(out, stmts)?;
    push_mark(out, Punct::RightBrace)?;
    Ok(())
}

/// Statements, one after the other.
#[cycle(stmts)]
fn push_stmts(out: &mut Bytes, stmts: &[Stmt]) -> Result<(), OutOfMemory>
    ensures { OnOk result (Writes out.old out.new (items_chunks (stmts_view stmts.now))) }
{
    for stmt in stmts {
        push_stmt(out, stmt)?;
    }
    Ok(())
}
