//! Expressions (ISO/IEC 9899:1999, 6.5). The rules take the readers of what stands one level deeper as parameters, so
//! that each is proved by itself.

ghost use Rattle.ec_ctypes.specs.views.Exprs.{expr_view, expr_option_view};
ghost use Rattle.ec_grammar.specs.ReadDeclarations.{nested};
ghost use Rattle.ec_grammar.specs.ReadExpressions as spec;
ghost use Rattle.ec_language.specs.Syntax.{limits};
ghost use Rattle.ec_cursor.specs.Branches.{subexpression_at};
ghost use Rattle.ec_cexpressions.specs.Nests.{SubexpressionsNest, TypesNest};
ghost use Rattle.ec_cursor.specs.Parts.{subexpression_of, type_view};
ghost use Rattle.ec_cursor.specs.States.{Reading, within};

mod assignments;
mod brackets;
mod making;
mod operands;
mod postfix;
mod primary;
mod ranks;
mod unary;

use ec_ctypes::{Base, Expr};
use ec_cursor::{Cursor, Subexpression};
use ec_grammar::Failure;
pub use primary::Primary;
pub use ranks::{Operator, Rank};
use std::alloc::Global;

#[derive(Clone, Copy)]
pub struct Expressions<E, T> {
    pub alloc: Global,
    /// How many levels are left where the expressions stand.
    pub levels: u32,
    pub subexpression: E,
    pub type_in_parentheses: T,
}

impl<
    E: Fn(Global, &mut Cursor<'_>, u32, Subexpression) -> Result<Expr, Failure>,
    T: Fn(Global, &mut Cursor<'_>, u32) -> Result<(Base, u32), Failure>,
> Expressions<E, T> {
    /// An expression that stands one level deeper.
    fn subexpression(
        &self,
        cursor: &mut Cursor<'_>,
        subexpression: Subexpression,
    ) -> Result<Expr, Failure>
        requires { SubexpressionsNest E.pre E.post self.now }
        ensures { Reading expr_view (subexpression_of subexpression (nested limits self.now.levels))
            cursor.old result cursor.new }
    {
        (self.subexpression)(self.alloc, cursor, self.levels, subexpression)
    }

    /// A type in parentheses, one level deeper.
    fn nested_type(&self, cursor: &mut Cursor<'_>) -> Result<(Base, u32), Failure>
        requires { TypesNest T.pre T.post self.now }
        ensures { Reading type_view (nested limits self.now.levels).type_in_parentheses
            cursor.old result cursor.new }
    {
        (self.type_in_parentheses)(self.alloc, cursor, self.levels)
    }

    /// The same, where these expressions stand.
    pub fn subexpression_here(
        &self,
        cursor: &mut Cursor<'_>,
        subexpression: Subexpression,
    ) -> Result<Expr, Failure>
        requires subexpressions { SubexpressionsNest E.pre E.post self.now }
        requires types { TypesNest T.pre T.post self.now }
        ensures { Reading expr_view (within self.now.levels subexpression_at subexpression)
            cursor.old result cursor.new }
    {
        match subexpression {
            Subexpression::Assignment => self.assignment(cursor),
            Subexpression::Operators => self.operators(cursor, Rank::Or),
            Subexpression::Cast => self.cast_part(cursor),
            Subexpression::Unary => self.unary_part(cursor),
            Subexpression::SizeOperand => self.size_operand(cursor),
            Subexpression::Parenthesized => self.parenthesized(cursor),
            Subexpression::Index => self.index_part(cursor),
        }
    }
}
