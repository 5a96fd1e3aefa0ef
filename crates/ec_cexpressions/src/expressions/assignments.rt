//! Assignments (ISO/IEC 9899:1999, 6.5.16), and whole expressions.

ghost use Rattle.std.specs.Prelude.{◌≡◌};
ghost use Rattle.ec_ctypes.specs.views.Exprs.{expr_view, expr_option_view};
ghost use Rattle.ec_grammar.specs.ReadExpressions as spec;
ghost use Rattle.ec_cexpressions.specs.Nests.{SubexpressionsNest, TypesNest};
ghost use Rattle.ec_cursor.specs.States.{Reading, within};

use crate::expressions::Expressions;
use crate::expressions::making::assign;
use crate::expressions::ranks::{Rank, assignment_operator_of};
use ec_base::beside;
use ec_ctypes::{Base, Expr};
use ec_cursor::{Cursor, Subexpression, begins_expression};
use ec_grammar::Failure;
use std::alloc::Global;

impl<
    E: Fn(Global, &mut Cursor<'_>, u32, Subexpression) -> Result<Expr, Failure>,
    T: Fn(Global, &mut Cursor<'_>, u32) -> Result<(Base, u32), Failure>,
> Expressions<E, T> {
    /// The right side of an assignment, or nothing.
    #[tactic(auto, unfolding(ec_grammar::specs::ReadExpressions::assignment_option))]
    fn assignment_option(&self, cursor: &mut Cursor<'_>, left: Expr) -> Result<Expr, Failure>
        requires { SubexpressionsNest E.pre E.post self.now }
        ensures { Reading expr_view (within self.now.levels spec.assignment_option (expr_view left))
            cursor.old result cursor.new }
    {
        let kind = cursor.peek();
        match assignment_operator_of(kind) {
            Some(op) => {
                let (left, _mark) = beside(left, cursor.expect(kind))?;
                let (left, right) = beside(
                    left,
                    self.subexpression(cursor, Subexpression::Assignment),
                )?;
                Ok(assign(self.alloc, op, left, right)?)
            }
            None => Ok(left),
        }
    }

    /// An assignment (6.5.16).
    #[tactic(auto, unfolding(ec_grammar::specs::ReadExpressions::assignment))]
    pub fn assignment(&self, cursor: &mut Cursor<'_>) -> Result<Expr, Failure>
        requires subexpressions { SubexpressionsNest E.pre E.post self.now }
        requires types { TypesNest T.pre T.post self.now }
        ensures { Reading expr_view (within self.now.levels spec.assignment)
            cursor.old result cursor.new }
    {
        let left = self.operators(cursor, Rank::Or)?;
        self.assignment_option(cursor, left)
    }

    /// A whole expression, unless it is part of another.
    #[tactic(auto, unfolding(ec_grammar::specs::ReadExpressions::expression, ec_grammar::specs::Input::whole))]
    pub fn expression(&self, cursor: &mut Cursor<'_>) -> Result<Expr, Failure>
        requires subexpressions { SubexpressionsNest E.pre E.post self.now }
        requires types { TypesNest T.pre T.post self.now }
        ensures { Reading expr_view (within self.now.levels spec.expression)
            cursor.old result cursor.new }
    {
        let outside = cursor.begin_expression();
        let found = self.assignment(cursor)?;
        cursor.end_expression(outside);
        Ok(found)
    }

    /// The same, or none where the next token begins no expression.
    #[tactic(auto, unfolding(ec_grammar::specs::ReadExpressions::expression_option))]
    pub fn expression_option(&self, cursor: &mut Cursor<'_>) -> Result<Option<Expr>, Failure>
        requires subexpressions { SubexpressionsNest E.pre E.post self.now }
        requires types { TypesNest T.pre T.post self.now }
        ensures { Reading expr_option_view (within self.now.levels spec.expression_option)
            cursor.old result cursor.new }
    {
        if !begins_expression(cursor.peek()) {
            return Ok(None);
        }
        Ok(Some(self.expression(cursor)?))
    }
}
