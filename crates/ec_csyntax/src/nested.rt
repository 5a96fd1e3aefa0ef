//! Statements and blocks one level deeper, with so many levels left where they stand. The two lead back to each other.

ghost use Rattle.ec_ctypes.specs.views.Stmts.{stmt_view};
ghost use Rattle.ec_grammar.specs.ReadStatements.{nested_statements};
ghost use Rattle.ec_language.specs.Syntax.{limits};
ghost use Rattle.ec_cursor.specs.States.{Reading};
ghost use Rattle.ec_csyntax.specs.Views.{each_stmt};

use crate::statements::Statements;
use ec_base::List;
use ec_ctypes::{Punct, Stmt};
use ec_cursor::{Cursor, begins_statement};
use ec_grammar::{Failure, Kind};
use std::alloc::Global;

/// The readers of statements where so many levels are left.
macro_rules! statements_at {
    ($alloc:expr, $levels:expr) => {
        Statements {
            alloc: $alloc,
            levels: $levels,
            statement: nested_statement,
            block: nested_block,
        }
    };
}

/// A statement, one level deeper (ISO/IEC 9899:1999, 6.8).
#[cycle(nested)]
pub fn nested_statement(
    alloc: Global,
    cursor: &mut Cursor<'_>,
    levels: u32,
) -> Result<Stmt, Failure>
    ensures { Reading stmt_view (nested_statements limits levels).statement
        cursor.old result cursor.new }
{
    if levels == 0 {
        return Err(cursor.no_level(begins_statement(cursor.peek())));
    }
    statements_at!(alloc, levels - 1).statement(cursor)
}

/// A block, one level deeper (ISO/IEC 9899:1999, 6.8.2).
#[cycle(nested)]
pub fn nested_block(
    alloc: Global,
    cursor: &mut Cursor<'_>,
    levels: u32,
) -> Result<List<Stmt>, Failure>
    ensures { Reading each_stmt (nested_statements limits levels).block
        cursor.old result cursor.new }
{
    if levels == 0 {
        return Err(cursor.no_level(cursor.sees(Kind::Mark(Punct::LeftBrace))));
    }
    statements_at!(alloc, levels - 1).block(cursor)
}
