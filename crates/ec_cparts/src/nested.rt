//! Whole expressions, and what stands one level deeper, with so many levels left where it stands. These five lead back to
//! one another.

ghost use Rattle.ec_ctypes.specs.views.Exprs.{expr_view};
ghost use Rattle.ec_grammar.specs.ReadDeclarations.{nested};
ghost use Rattle.ec_grammar.specs.ReadExpressions.{expression as read_expression};
ghost use Rattle.ec_language.specs.Syntax.{limits};
ghost use Rattle.ec_cursor.specs.Parts.{subexpression_of, each_init, each_decl, type_view};
ghost use Rattle.ec_cursor.specs.States.{Reading, within};

use crate::readers::{declarations_at, declarators_at, expressions_at, types_at};
use ec_base::List;
use ec_cdeclare::{Declarations, Declarators, ExpressionReaders, Types};
use ec_cexpressions::Expressions;
use ec_ctypes::{Base, Decl, Expr, Init, Punct};
use ec_cursor::{Cursor, Subexpression, begins_subexpression};
use ec_grammar::{Failure, Kind};
use std::alloc::Global;

/// A whole expression (ISO/IEC 9899:1999, 6.5.16).
#[cycle(nested)]
pub fn expression(alloc: Global, cursor: &mut Cursor<'_>, levels: u32) -> Result<Expr, Failure>
    ensures { Reading expr_view (within levels read_expression) cursor.old result cursor.new }
{
    expressions_at!(alloc, levels).expression(cursor)
}

/// An expression, one level deeper.
#[cycle(nested)]
pub fn nested_subexpression(
    alloc: Global,
    cursor: &mut Cursor<'_>,
    levels: u32,
    subexpression: Subexpression,
) -> Result<Expr, Failure>
    ensures { Reading expr_view (subexpression_of subexpression (nested limits levels))
        cursor.old result cursor.new }
{
    if levels == 0 {
        return Err(cursor.no_level(begins_subexpression(subexpression, cursor)));
    }
    expressions_at!(alloc, levels - 1).subexpression_here(cursor, subexpression)
}

/// A type in parentheses, one level deeper: its base and its stars (ISO/IEC 9899:1999, 6.7.6).
#[cycle(nested)]
pub fn nested_type(
    alloc: Global,
    cursor: &mut Cursor<'_>,
    levels: u32,
) -> Result<(Base, u32), Failure>
    ensures { Reading type_view (nested limits levels).type_in_parentheses
        cursor.old result cursor.new }
{
    if levels == 0 {
        return Err(cursor.no_level(cursor.sees(Kind::Mark(Punct::LeftParen))));
    }
    types_at!(alloc, levels - 1).type_in_parentheses(cursor)
}

/// The members of a struct, one level deeper (ISO/IEC 9899:1999, 6.7.2.1).
#[cycle(nested)]
pub fn nested_members(
    alloc: Global,
    cursor: &mut Cursor<'_>,
    levels: u32,
) -> Result<List<Decl>, Failure>
    ensures { Reading each_decl (nested limits levels).members cursor.old result cursor.new }
{
    if levels == 0 {
        return Err(cursor.no_level(cursor.sees(Kind::Mark(Punct::LeftBrace))));
    }
    declarations_at!(alloc, levels - 1).members(cursor)
}

/// A list of initializers in braces, one level deeper (ISO/IEC 9899:1999, 6.7.8).
#[cycle(nested)]
pub fn nested_initializers(
    alloc: Global,
    cursor: &mut Cursor<'_>,
    levels: u32,
) -> Result<List<Init>, Failure>
    ensures { Reading each_init (nested limits levels).initializer_list
        cursor.old result cursor.new }
{
    if levels == 0 {
        return Err(cursor.no_level(cursor.sees(Kind::Mark(Punct::LeftBrace))));
    }
    declarators_at!(alloc, levels - 1).initializer_list(cursor)
}
