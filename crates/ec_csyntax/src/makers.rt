//! Statements that hold others.

ghost use Rattle.std.specs.Prelude.{◌≡◌, IfOk, [], ◌∷◌, ◌++◌};
ghost use Rattle.ec_ctypes.specs.trees.Stmts as trees;
ghost use Rattle.ec_ctypes.specs.views.Exprs.{expr_view, expr_option_view, decl_view};
ghost use Rattle.ec_ctypes.specs.views.Stmts.{stmt_view, kind_view, stmt_of, stmts_of};
ghost use Rattle.ec_cursor.specs.Parts.{start_view, for_head_view};
ghost use Rattle.ec_grammar.specs.ReadStatements as spec;
ghost use Rattle.ec_language.specs.Productions as places;
ghost use Rattle.ec_csyntax.specs.Views.{each_stmt, stmt_option};

use ec_base::{Boxed, Line, List, OutOfMemory, beside};
use ec_ctypes::{Decl, Expr, ForParts, Stmt, StmtKind};
use ec_cursor::{ForHead, ForStart, Start, list_of};
use std::alloc::Global;

/// A statement of this kind.
#[tactic(auto, using(crate::proofs::Trees::statements))]
pub fn at(start: Start, kind: StmtKind) -> Stmt
    ensures { stmt_view result ≡ places.at (start_view start) (kind_view kind) }
{
    Stmt {
        line: start.line,
        kind,
    }
}

/// `if`, with the statement behind `else` (ISO/IEC 9899:1999, 6.8.4.1).
#[tactic(auto, using(crate::proofs::Trees::statements))]
pub fn branch(
    start: Start,
    test: Boxed<Expr>,
    then: Boxed<Stmt>,
    other: Option<Boxed<Stmt>>,
) -> Stmt
    ensures { stmt_view result
        ≡ places.at (start_view start)
        (trees.if_stmt (expr_view test) (stmt_view then) (stmt_of (stmt_option other))) }
{
    at(start, StmtKind::If(test, then, other))
}

/// A loop with these parts in its parentheses (ISO/IEC 9899:1999, 6.8.5.3).
#[tactic(auto, using(crate::proofs::Trees::statements))]
fn loop_of(
    alloc: Global,
    start: Start,
    first: Option<Expr>,
    condition: Option<Expr>,
    step: Option<Expr>,
    inner: Boxed<Stmt>,
) -> Result<Stmt, OutOfMemory>
    ensures { IfOk result (λ s. stmt_view s
        ≡ places.at (start_view start)
        (trees.for_stmt (expr_option_view first) (expr_option_view condition)
        (expr_option_view step) (stmt_view inner))) }
{
    let parts = ForParts {
        first,
        condition,
        step,
    };
    Ok(at(start, StmtKind::For(Boxed::new(alloc, parts)?, inner)))
}

/// A block of these statements.
#[tactic(auto, using(crate::proofs::Trees::block_view))]
pub fn block_of(start: Start, items: List<Stmt>) -> Stmt
    ensures { stmt_view result
        ≡ places.at (start_view start) (trees.block_stmt (stmts_of (each_stmt items))) }
{
    at(start, StmtKind::Block(items))
}

/// The line of a declaration.
#[tactic(auto, using(crate::proofs::Trees::declarations))]
fn line_of(declaration: &Decl) -> Line
    ensures { result ≡ places.line_of (decl_view declaration.now) }
{
    declaration.line
}

/// A declaration, as it stands in a block.
#[tactic(auto, using(crate::proofs::Trees::statements))]
fn declaration_statement(alloc: Global, declaration: Decl) -> Result<Stmt, OutOfMemory>
    ensures { IfOk result (λ s. stmt_view s
        ≡ trees.stmt (places.line_of (decl_view declaration))
        (trees.decl_stmt (decl_view declaration))) }
{
    let line = line_of(&declaration);
    Ok(Stmt {
        line,
        kind: StmtKind::Decl(Boxed::new(alloc, declaration)?),
    })
}

/// A list of a declaration.
fn declared(alloc: Global, declaration: Decl) -> Result<List<Stmt>, OutOfMemory>
    ensures { IfOk result (λ items. each_stmt items
        ≡ trees.stmt (places.line_of (decl_view declaration))
        (trees.decl_stmt (decl_view declaration)) ∷ []) }
{
    list_of(alloc, declaration_statement(alloc, declaration)?)
}

/// A block of these statements and a last one.
fn block_with(start: Start, mut items: List<Stmt>, last: Stmt) -> Result<Stmt, OutOfMemory>
    ensures { IfOk result (λ s. stmt_view s
        ≡ places.at (start_view start)
        (trees.block_stmt (stmts_of (each_stmt (items ++ last ∷ []))))) }
{
    items.push(last)?;
    Ok(block_of(start, items))
}

/// A block of a declaration and a statement.
fn block_of_two(
    alloc: Global,
    start: Start,
    declaration: Decl,
    last: Stmt,
) -> Result<Stmt, OutOfMemory>
    ensures { IfOk result (λ s. stmt_view s
        ≡ places.at (start_view start)
        (trees.block_stmt
        (trees.stmts (trees.stmt (places.line_of (decl_view declaration))
        (trees.decl_stmt (decl_view declaration)))
        (trees.stmts (stmt_view last) trees.no_stmts)))) }
{
    let (last, items) = beside(last, declared(alloc, declaration))?;
    block_with(start, items, last)
}

/// `for`. With a declaration it is a block that holds the declaration and the loop (ISO/IEC 9899:1999, 6.8.5.3).
pub fn for_loop(
    alloc: Global,
    start: Start,
    head: ForHead,
    inner: Boxed<Stmt>,
) -> Result<Stmt, OutOfMemory>
    ensures { IfOk result (λ s. stmt_view s
        ≡ spec.for_loop (start_view start) (for_head_view head) (stmt_view inner)) }
{
    let ForHead {
        first,
        condition,
        step,
    } = head;
    match first {
        ForStart::Expression(first) => loop_of(alloc, start, first, condition, step, inner),
        ForStart::Declaration(declaration) => {
            let (declaration, repeated) = beside(
                declaration,
                loop_of(alloc, start, None, condition, step, inner),
            )?;
            block_of_two(alloc, start, declaration, repeated)
        }
    }
}
