//! Expressions and what declarations begin with, from the tree that was read; and the parts of statements that are made of
//! them.

ghost use Rattle.std.specs.Prelude.{◌≡◌, ◌++◌, [], ◌∷◌, OnOk};
ghost use Rattle.ec_ctypes.specs.trees.Stmts.{expr_stmt, return_stmt};
ghost use Rattle.ec_ctypes.specs.views.Exprs.{expr_view, expr_option_view, base_view, dims_view};
ghost use Rattle.ec_cwrite.specs.Writes.{Writes};
ghost use Rattle.ec_expansion_defs.specs.Declarations as written;
ghost use Rattle.ec_writing_defs.specs.Chunks.{blank};
ghost use Rattle.ec_writing_defs.specs.Expressions.{in_parens, expr_chunks, base_chunks, dims_chunks};
ghost use Rattle.ec_writing_defs.specs.Programs.{option_chunks, return_chunks, head_chunks, kind_chunks};

use crate::structs::{any_length_has_struct, has_struct, is_struct};
use ec_base::{Bytes, Line, List, OutOfMemory};
use ec_ctypes::{Base, Expr, ForParts, Punct};
use ec_cwrite::{
    push_base, push_blank, push_dims, push_expr, push_mark, push_semicolon, push_word,
};
use ec_expand_declarations::{written_base, written_dims, written_expr};
use std::alloc::Global;

/// An expression on this line.
pub(crate) fn put_expr(
    alloc: Global,
    out: &mut Bytes,
    line: Line,
    expr: &Expr,
) -> Result<(), OutOfMemory>
    ensures { OnOk result (Writes out.old out.new (expr_chunks
        (written.written_expr line.0 (expr_view expr.now)))) }
{
    if has_struct(expr) {
        let written = written_expr(alloc, line, expr)?;
        push_expr(out, &written)
    } else {
        push_expr(out, expr)
    }
}

/// What a declaration or a type begins with, on this line.
#[tactic(auto, using(crate::proofs::AsRead::base_as_read))]
pub fn put_base(alloc: Global, out: &mut Bytes, line: Line, base: &Base) -> Result<(), OutOfMemory>
    ensures { OnOk result (Writes out.old out.new (base_chunks
        (written.written_base line.0 (base_view base.now)))) }
{
    if is_struct(base) {
        let written = written_base(alloc, line, base)?;
        push_base(out, &written)
    } else {
        push_base(out, base)
    }
}

/// Array lengths on this line.
pub(crate) fn put_dims(
    alloc: Global,
    out: &mut Bytes,
    line: Line,
    dims: &List<Option<Expr>>,
) -> Result<(), OutOfMemory>
    ensures { OnOk result (Writes out.old out.new (dims_chunks
        (written.written_dims line.0 (dims_view dims.now)))) }
{
    let read = dims.as_slice();
    if any_length_has_struct(read) {
        let written = written_dims(alloc, line, dims)?;
        push_dims(out, written.as_slice())
    } else {
        push_dims(out, read)
    }
}

/// An expression, where there is one.
fn put_option(
    alloc: Global,
    out: &mut Bytes,
    line: Line,
    expr: &Option<Expr>,
) -> Result<(), OutOfMemory>
    ensures { OnOk result (Writes out.old out.new (option_chunks
        (written.written_option line.0 (expr_option_view expr.now)))) }
{
    match expr {
        Some(expr) => put_expr(alloc, out, line, expr),
        None => Ok(()),
    }
}

/// A blank, and an expression in parentheses.
pub fn put_condition(
    alloc: Global,
    out: &mut Bytes,
    line: Line,
    expr: &Expr,
) -> Result<(), OutOfMemory>
    ensures { OnOk result (Writes out.old out.new (blank ∷ in_parens (expr_chunks
        (written.written_expr line.0 (expr_view expr.now))))) }
{
    push_blank(out)?;
    push_mark(out, Punct::LeftParen)?;
    put_expr(alloc, out, line, expr)?;
    push_mark(out, Punct::RightParen)?;
    Ok(())
}

/// The three parts of a `for`.
pub fn put_for_head(
    alloc: Global,
    out: &mut Bytes,
    line: Line,
    parts: &ForParts,
) -> Result<(), OutOfMemory>
    ensures { OnOk result (Writes out.old out.new (head_chunks
        (written.written_option line.0 (expr_option_view parts.now.first))
        (written.written_option line.0 (expr_option_view parts.now.condition))
        (written.written_option line.0 (expr_option_view parts.now.step)))) }
{
    push_mark(out, Punct::LeftParen)?;
    put_option(alloc, out, line, &parts.first)?;
    push_mark(out, Punct::Semicolon)?;
    push_blank(out)?;
    put_option(alloc, out, line, &parts.condition)?;
    push_mark(out, Punct::Semicolon)?;
    push_blank(out)?;
    put_option(alloc, out, line, &parts.step)?;
    push_mark(out, Punct::RightParen)?;
    Ok(())
}

/// An expression as a statement.
pub fn put_expr_stmt(
    alloc: Global,
    out: &mut Bytes,
    line: Line,
    expr: &Expr,
) -> Result<(), OutOfMemory>
    ensures { OnOk result (Writes out.old out.new (kind_chunks (expr_stmt
        (written.written_expr line.0 (expr_view expr.now))))) }
{
    put_expr(alloc, out, line, expr)?;
    push_semicolon(out)?;
    Ok(())
}

/// What `return` gives back.
fn put_value(
    alloc: Global,
    out: &mut Bytes,
    line: Line,
    expr: &Option<Expr>,
) -> Result<(), OutOfMemory>
    ensures { OnOk result (Writes out.old out.new (return_chunks
        (written.written_option line.0 (expr_option_view expr.now)))) }
{
    if let Some(expr) = expr {
        push_blank(out)?;
        put_expr(alloc, out, line, expr)?;
    }
    Ok(())
}

/// A `return`.
pub fn put_return(
    alloc: Global,
    out: &mut Bytes,
    line: Line,
    expr: &Option<Expr>,
) -> Result<(), OutOfMemory>
    ensures { OnOk result (Writes out.old out.new (kind_chunks (return_stmt
        (written.written_option line.0 (expr_option_view expr.now))))) }
{
    push_word(out, b"return")?;
    put_value(alloc, out, line, expr)?;
    push_semicolon(out)?;
    Ok(())
}
