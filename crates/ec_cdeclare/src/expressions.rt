//! The readers of the expressions that stand in declarations. They are parameters, so that declarations are proved without
//! them.

ghost use Rattle.std.specs.Prelude.{◌≡◌};
ghost use Rattle.ec_ctypes.specs.views.Exprs.{expr_view, expr_option_view};
ghost use Rattle.ec_grammar.specs.ReadExpressions as spec;
ghost use Rattle.ec_cursor.specs.States.{Reading, within};
ghost use Rattle.ec_cdeclare.specs.Nests.{ExpressionsRead};

use ec_ctypes::Expr;
use ec_cursor::{Cursor, begins_expression};
use ec_grammar::Failure;
use std::alloc::Global;

#[derive(Clone, Copy)]
pub struct ExpressionReaders<E, X> {
    pub alloc: Global,
    /// How many levels are left where the declarations stand.
    pub levels: u32,
    /// Reads an expression that stands one level deeper.
    pub subexpression: E,
    /// Reads a whole expression where the declarations stand.
    pub expression: X,
}

impl<E, X: Fn(Global, &mut Cursor<'_>, u32) -> Result<Expr, Failure>> ExpressionReaders<E, X> {
    /// A whole expression (ISO/IEC 9899:1999, 6.5.16).
    pub fn expression(&self, cursor: &mut Cursor<'_>) -> Result<Expr, Failure>
        requires { ExpressionsRead X.pre X.post self.now }
        ensures { Reading expr_view (within self.now.levels spec.expression)
            cursor.old result cursor.new }
    {
        (self.expression)(self.alloc, cursor, self.levels)
    }

    /// The same, or none where the next token begins no expression.
    #[tactic(auto, unfolding(ec_grammar::specs::ReadExpressions::expression_option))]
    pub fn expression_option(&self, cursor: &mut Cursor<'_>) -> Result<Option<Expr>, Failure>
        requires { ExpressionsRead X.pre X.post self.now }
        ensures { Reading expr_option_view (within self.now.levels spec.expression_option)
            cursor.old result cursor.new }
    {
        if !begins_expression(cursor.peek()) {
            return Ok(None);
        }
        Ok(Some(self.expression(cursor)?))
    }
}
