//! What statements and whole programs are made of, read with so many levels left.

ghost use Rattle.std.specs.Prelude.{◌≡◌, ◌≤◌};
ghost use Rattle.ec_ctypes.specs.views.Exprs.{expr_view, expr_option_view, base_view, decl_view};
ghost use Rattle.ec_grammar.specs.ReadDeclarations as spec;
ghost use Rattle.ec_grammar.specs.ReadDeclarations.{nested};
ghost use Rattle.ec_grammar.specs.ReadExpressions.{expression_option as read_expression_option};
ghost use Rattle.ec_language.specs.Syntax.{limits};
ghost use Rattle.ec_cursor.specs.Parts.{each_length, init_option, each_declarator, each_param, for_head_view};
ghost use Rattle.ec_cursor.specs.States.{Reading, within};

use crate::nested::{
    expression, nested_initializers, nested_members, nested_subexpression, nested_type,
};
use crate::readers::{declarations_at, declarators_at, expressions_at, types_at};
use ec_base::List;
use ec_cdeclare::{Declarations, Declarators, ExpressionReaders, Types, stars as read_stars};
use ec_cexpressions::Expressions;
use ec_ctypes::{Base, Decl, Declarator, Expr, Init, Param, Punct};
use ec_cursor::{Cursor, ForHead, Subexpression};
use ec_grammar::{Failure, Kind};
use std::alloc::Global;

/// A whole expression, or none where the next token begins none.
pub fn expression_option(
    alloc: Global,
    cursor: &mut Cursor<'_>,
    levels: u32,
) -> Result<Option<Expr>, Failure>
    ensures { Reading expr_option_view (within levels read_expression_option)
        cursor.old result cursor.new }
{
    expressions_at!(alloc, levels).expression_option(cursor)
}

/// An expression in parentheses, one level deeper.
pub fn parenthesized(alloc: Global, cursor: &mut Cursor<'_>, levels: u32) -> Result<Expr, Failure>
    ensures { Reading expr_view (nested limits levels).parenthesized cursor.old result cursor.new }
{
    nested_subexpression(alloc, cursor, levels, Subexpression::Parenthesized)
}

/// What stands behind `for`, one level deeper (ISO/IEC 9899:1999, 6.8.5.3).
pub fn for_head(alloc: Global, cursor: &mut Cursor<'_>, levels: u32) -> Result<ForHead, Failure>
    ensures { Reading for_head_view (nested limits levels).for_head cursor.old result cursor.new }
{
    if levels == 0 {
        return Err(cursor.no_level(cursor.sees(Kind::Mark(Punct::LeftParen))));
    }
    declarations_at!(alloc, levels - 1).for_head(cursor)
}

/// Parameters in parentheses, one level deeper (ISO/IEC 9899:1999, 6.7.5.3).
pub fn parameter_part(
    alloc: Global,
    cursor: &mut Cursor<'_>,
    levels: u32,
) -> Result<List<Param>, Failure>
    ensures { Reading each_param (nested limits levels).parameter_part
        cursor.old result cursor.new }
{
    if levels == 0 {
        return Err(cursor.no_level(cursor.sees(Kind::Mark(Punct::LeftParen))));
    }
    declarations_at!(alloc, levels - 1).parameter_part(cursor)
}

/// What a declaration begins with (ISO/IEC 9899:1999, 6.7.2).
pub fn specifiers(alloc: Global, cursor: &mut Cursor<'_>, levels: u32) -> Result<Base, Failure>
    ensures { Reading base_view (within levels spec.specifiers) cursor.old result cursor.new }
{
    types_at!(alloc, levels).specifiers(cursor)
}

/// How many stars stand before a name (ISO/IEC 9899:1999, 6.7.5.1).
pub fn stars(cursor: &mut Cursor<'_>) -> Result<u32, Failure>
    ensures { Reading (λ n. n) (spec.stars limits) cursor.old result cursor.new }
{
    read_stars(cursor)
}

/// The array lengths behind a name, outermost first (ISO/IEC 9899:1999, 6.7.5.2).
pub fn lengths(
    alloc: Global,
    cursor: &mut Cursor<'_>,
    levels: u32,
) -> Result<List<Option<Expr>>, Failure>
    ensures { Reading each_length (within levels spec.lengths) cursor.old result cursor.new }
{
    declarators_at!(alloc, levels).lengths(cursor)
}

/// `=` and an initializer, or nothing (ISO/IEC 9899:1999, 6.7.8).
pub fn initializer_option(
    alloc: Global,
    cursor: &mut Cursor<'_>,
    levels: u32,
) -> Result<Option<Init>, Failure>
    ensures { Reading init_option (within levels spec.initializer_option)
        cursor.old result cursor.new }
{
    declarators_at!(alloc, levels).initializer_option(cursor)
}

/// Further declarators, each behind a comma, put behind those in `found`.
pub fn more_declarators(
    alloc: Global,
    cursor: &mut Cursor<'_>,
    levels: u32,
    found: List<Declarator>,
) -> Result<List<Declarator>, Failure>
    ensures { Reading each_declarator (within levels spec.more_declarators (each_declarator found))
        cursor.old result cursor.new }
{
    declarators_at!(alloc, levels).more_declarators(cursor, found)
}

/// A declaration (ISO/IEC 9899:1999, 6.7).
pub fn declaration(alloc: Global, cursor: &mut Cursor<'_>, levels: u32) -> Result<Decl, Failure>
    ensures { Reading decl_view (within levels spec.declaration) cursor.old result cursor.new }
{
    declarations_at!(alloc, levels).declaration(cursor)
}
