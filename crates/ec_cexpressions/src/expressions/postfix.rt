//! What stands behind a primary expression (ISO/IEC 9899:1999, 6.5.2).

ghost use Rattle.std.specs.Prelude.{◌≡◌};
ghost use Rattle.ec_ctypes.specs.views.Exprs.{expr_view};
ghost use Rattle.ec_grammar.specs.ReadExpressions as spec;
ghost use Rattle.ec_cexpressions.specs.Nests.{SubexpressionsNest};
ghost use Rattle.ec_cexpressions.specs.Primaries.{primary_view};
ghost use Rattle.ec_cursor.specs.States.{Reading, within};

use crate::expressions::Expressions;
use crate::expressions::making::{arrow, bump, call, index, member};
use crate::expressions::primary::Primary;
use ec_base::beside;
use ec_ctypes::{Base, Expr, Punct};
use ec_cursor::{Counted, Cursor, Subexpression, begins_postfix_part, copy_name};
use ec_grammar::{Failure, Kind};
use std::alloc::Global;

impl<
    E: Fn(Global, &mut Cursor<'_>, u32, Subexpression) -> Result<Expr, Failure>,
    T: Fn(Global, &mut Cursor<'_>, u32) -> Result<(Base, u32), Failure>,
> Expressions<E, T> {
    /// An index (6.5.2.1).
    fn index_behind(&self, cursor: &mut Cursor<'_>, left: Primary) -> Result<Primary, Failure>
        requires { SubexpressionsNest E.pre E.post self.now }
        ensures { Reading primary_view
            (within self.now.levels
            spec.postfix_part_by (primary_view left) (Kind.Mark Punct.LeftBracket))
            cursor.old result cursor.new }
    {
        let (left, at) = beside(left, self.subexpression(cursor, Subexpression::Index))?;
        Ok(Primary::Other(index(self.alloc, left.into_expression(), at)?))
    }

    /// A member (6.5.2.3).
    fn member_behind(&self, cursor: &mut Cursor<'_>, left: Primary) -> Result<Primary, Failure>
        ensures { Reading primary_view
            (within self.now.levels
            spec.postfix_part_by (primary_view left) (Kind.Mark Punct.Dot))
            cursor.old result cursor.new }
    {
        let (left, _mark) = beside(
            left,
            cursor.expect_counted(Counted::Operations, Kind::Mark(Punct::Dot)),
        )?;
        let (left, token) = beside(left, cursor.expect(Kind::Name))?;
        let (left, name) = beside(left, copy_name(self.alloc, &token.tok))?;
        Ok(Primary::Other(member(self.alloc, left.into_expression(), name)?))
    }

    /// A member of what is pointed to (6.5.2.3).
    fn arrow_behind(&self, cursor: &mut Cursor<'_>, left: Primary) -> Result<Primary, Failure>
        ensures { Reading primary_view
            (within self.now.levels
            spec.postfix_part_by (primary_view left) (Kind.Mark Punct.Arrow))
            cursor.old result cursor.new }
    {
        let (left, _mark) = beside(
            left,
            cursor.expect_counted(Counted::Operations, Kind::Mark(Punct::Arrow)),
        )?;
        let (left, token) = beside(left, cursor.expect(Kind::Name))?;
        let (left, name) = beside(left, copy_name(self.alloc, &token.tok))?;
        Ok(Primary::Other(arrow(self.alloc, left.into_expression(), name)?))
    }

    /// `++` behind its operand (6.5.2.4).
    fn plus_plus_behind(&self, cursor: &mut Cursor<'_>, left: Primary) -> Result<Primary, Failure>
        ensures { Reading primary_view
            (within self.now.levels
            spec.postfix_part_by (primary_view left) (Kind.Mark Punct.PlusPlus))
            cursor.old result cursor.new }
    {
        let (left, _mark) = beside(
            left,
            cursor.expect_counted(Counted::Operations, Kind::Mark(Punct::PlusPlus)),
        )?;
        Ok(Primary::Other(bump(self.alloc, false, true, left.into_expression())?))
    }

    /// `--` behind its operand (6.5.2.4).
    fn minus_minus_behind(&self, cursor: &mut Cursor<'_>, left: Primary) -> Result<Primary, Failure>
        ensures { Reading primary_view
            (within self.now.levels
            spec.postfix_part_by (primary_view left) (Kind.Mark Punct.MinusMinus))
            cursor.old result cursor.new }
    {
        let (left, _mark) = beside(
            left,
            cursor.expect_counted(Counted::Operations, Kind::Mark(Punct::MinusMinus)),
        )?;
        Ok(Primary::Other(bump(self.alloc, false, false, left.into_expression())?))
    }

    /// Arguments (6.5.2.2).
    fn call_behind(&self, cursor: &mut Cursor<'_>, left: Primary) -> Result<Primary, Failure>
        requires { SubexpressionsNest E.pre E.post self.now }
        ensures { Reading primary_view
            (within self.now.levels
            spec.postfix_part_by (primary_view left) (Kind.Mark Punct.LeftParen))
            cursor.old result cursor.new }
    {
        let (left, arguments) = beside(left, self.nested_arguments(cursor))?;
        Ok(Primary::Other(call(self.alloc, left, arguments)?))
    }

    /// One thing that stands behind a primary expression.
    #[tactic(auto, unfolding(ec_grammar::specs::ReadExpressions::postfix_part))]
    fn postfix_part(&self, cursor: &mut Cursor<'_>, left: Primary) -> Result<Primary, Failure>
        requires { SubexpressionsNest E.pre E.post self.now }
        ensures { Reading primary_view
            (within self.now.levels spec.postfix_part (primary_view left))
            cursor.old result cursor.new }
    {
        match cursor.peek() {
            Kind::Mark(Punct::LeftBracket) => self.index_behind(cursor, left),
            Kind::Mark(Punct::Dot) => self.member_behind(cursor, left),
            Kind::Mark(Punct::Arrow) => self.arrow_behind(cursor, left),
            Kind::Mark(Punct::PlusPlus) => self.plus_plus_behind(cursor, left),
            Kind::Mark(Punct::MinusMinus) => self.minus_minus_behind(cursor, left),
            Kind::Mark(Punct::LeftParen) => self.call_behind(cursor, left),
            _ => Err(cursor.refuse()),
        }
    }

    /// All that stands behind a primary expression.
    fn postfix_parts(&self, cursor: &mut Cursor<'_>, mut left: Primary) -> Result<Primary, Failure>
        requires { SubexpressionsNest E.pre E.post self.now }
        ensures { Reading primary_view
            (within self.now.levels spec.postfix_parts (primary_view left))
            cursor.old result cursor.new }
    {
        for _turn in 0..cursor.left() {
            if !begins_postfix_part(cursor.peek()) {
                return Ok(left);
            }
            left = self.postfix_part(cursor, left)?;
        }
        Ok(left)
    }

    /// A primary expression with what stands behind it.
    #[tactic(auto, unfolding(ec_grammar::specs::ReadExpressions::postfix))]
    pub fn postfix(&self, cursor: &mut Cursor<'_>) -> Result<Expr, Failure>
        requires { SubexpressionsNest E.pre E.post self.now }
        ensures { Reading expr_view (within self.now.levels spec.postfix)
            cursor.old result cursor.new }
    {
        let first = self.primary(cursor)?;
        Ok(self.postfix_parts(cursor, first)?.into_expression())
    }
}
