//! Expressions in parentheses and brackets.

ghost use Rattle.std.specs.Prelude.{◌≡◌, ◌<◌, ◌-◌};
ghost use Rattle.ec_ctypes.specs.views.Exprs.{expr_view};
ghost use Rattle.ec_grammar.specs.ReadDeclarations.{nested};
ghost use Rattle.ec_grammar.specs.ReadExpressions as spec;
ghost use Rattle.ec_language.specs.Syntax.{limits};
ghost use Rattle.ec_cexpressions.specs.Nests.{SubexpressionsNest, TypesNest};
ghost use Rattle.ec_cursor.specs.Parts.{each_expr};
ghost use Rattle.ec_cursor.specs.States.{Reading, within};

use crate::expressions::Expressions;
use ec_base::{List, beside};
use ec_ctypes::{Base, Expr, Punct};
use ec_cursor::{Counted, Cursor, Subexpression, begins_expression, list_of, separated};
use ec_grammar::{Failure, Kind};
use std::alloc::Global;

impl<
    E: Fn(Global, &mut Cursor<'_>, u32, Subexpression) -> Result<Expr, Failure>,
    T: Fn(Global, &mut Cursor<'_>, u32) -> Result<(Base, u32), Failure>,
> Expressions<E, T> {
    /// An expression in parentheses (ISO/IEC 9899:1999, 6.5.1).
    #[tactic(auto, unfolding(ec_grammar::specs::ReadExpressions::parenthesized))]
    pub fn parenthesized(&self, cursor: &mut Cursor<'_>) -> Result<Expr, Failure>
        requires subexpressions { SubexpressionsNest E.pre E.post self.now }
        requires types { TypesNest T.pre T.post self.now }
        ensures { Reading expr_view (within self.now.levels spec.parenthesized)
            cursor.old result cursor.new }
    {
        cursor.expect(Kind::Mark(Punct::LeftParen))?;
        let inner = self.expression(cursor)?;
        let (inner, _mark) = beside(inner, cursor.expect(Kind::Mark(Punct::RightParen)))?;
        Ok(inner)
    }

    /// An index in brackets (6.5.2.1).
    #[tactic(auto, unfolding(ec_grammar::specs::ReadExpressions::index_part))]
    pub fn index_part(&self, cursor: &mut Cursor<'_>) -> Result<Expr, Failure>
        requires subexpressions { SubexpressionsNest E.pre E.post self.now }
        requires types { TypesNest T.pre T.post self.now }
        ensures { Reading expr_view (within self.now.levels spec.index_part)
            cursor.old result cursor.new }
    {
        cursor.expect_counted(Counted::Operations, Kind::Mark(Punct::LeftBracket))?;
        let at = self.expression(cursor)?;
        let (at, _mark) = beside(at, cursor.expect(Kind::Mark(Punct::RightBracket)))?;
        Ok(at)
    }

    /// An argument, which stands one level deeper than what is called.
    #[tactic(auto, using(ec_cursor::proofs::Levels::nested_assignment), unfolding(ec_grammar::specs::ReadExpressions::expression, ec_grammar::specs::Input::whole))]
    fn argument(&self, cursor: &mut Cursor<'_>) -> Result<Expr, Failure>
        requires subexpressions { SubexpressionsNest E.pre E.post self.now }
        requires nests { 0 < self.now.levels }
        ensures { Reading expr_view (within (self.now.levels - 1) spec.expression)
            cursor.old result cursor.new }
    {
        let outside = cursor.begin_expression();
        let argument = self.subexpression(cursor, Subexpression::Assignment)?;
        cursor.end_expression(outside);
        Ok(argument)
    }

    /// Further arguments, each behind a comma, put behind those in `found`.
    fn more_arguments(
        &self,
        cursor: &mut Cursor<'_>,
        found: List<Expr>,
    ) -> Result<List<Expr>, Failure>
        requires subexpressions { SubexpressionsNest E.pre E.post self.now }
        requires nests { 0 < self.now.levels }
        ensures { Reading each_expr
            (within (self.now.levels - 1) spec.more_arguments (each_expr found))
            cursor.old result cursor.new }
    {
        separated(
            cursor,
            found,
            |cursor: &mut Cursor<'_>| self.argument(cursor),
        )
    }

    /// The arguments of a call, which may be none.
    #[tactic(auto, unfolding(ec_grammar::specs::ReadExpressions::arguments))]
    fn arguments(&self, cursor: &mut Cursor<'_>) -> Result<List<Expr>, Failure>
        requires subexpressions { SubexpressionsNest E.pre E.post self.now }
        requires nests { 0 < self.now.levels }
        ensures { Reading each_expr (within (self.now.levels - 1) spec.arguments)
            cursor.old result cursor.new }
    {
        if !begins_expression(cursor.peek()) {
            return Ok(List::new(self.alloc));
        }
        let first = self.argument(cursor)?;
        let found = list_of(self.alloc, first)?;
        self.more_arguments(cursor, found)
    }

    /// Arguments in parentheses (6.5.2.2).
    #[tactic(auto, unfolding(ec_grammar::specs::ReadExpressions::argument_part))]
    fn argument_part(&self, cursor: &mut Cursor<'_>) -> Result<List<Expr>, Failure>
        requires subexpressions { SubexpressionsNest E.pre E.post self.now }
        requires nests { 0 < self.now.levels }
        ensures { Reading each_expr (within (self.now.levels - 1) spec.argument_part)
            cursor.old result cursor.new }
    {
        cursor.expect_counted(Counted::Operations, Kind::Mark(Punct::LeftParen))?;
        let found = self.arguments(cursor)?;
        cursor.expect(Kind::Mark(Punct::RightParen))?;
        Ok(found)
    }

    /// Arguments in parentheses, one level deeper.
    #[tactic(auto, using(ec_cursor::proofs::Levels::nested_arguments), unfolding(ec_grammar::specs::ReadDeclarations::nested))]
    pub fn nested_arguments(&self, cursor: &mut Cursor<'_>) -> Result<List<Expr>, Failure>
        requires { SubexpressionsNest E.pre E.post self.now }
        ensures { Reading each_expr (nested limits self.now.levels).argument_part
            cursor.old result cursor.new }
    {
        if self.levels == 0 {
            return Err(cursor.no_level(cursor.sees(Kind::Mark(Punct::LeftParen))));
        }
        self.argument_part(cursor)
    }
}
