//! Unary expressions and casts (ISO/IEC 9899:1999, 6.5.3 and 6.5.4).

ghost use Rattle.std.specs.Prelude.{◌≡◌};
ghost use Rattle.ec_ctypes.specs.views.Exprs.{expr_view};
ghost use Rattle.ec_grammar.specs.Input.{kind_at, kind_next};
ghost use Rattle.ec_grammar.specs.ReadDeclarations.{nested};
ghost use Rattle.ec_grammar.specs.ReadExpressions as spec;
ghost use Rattle.ec_language.specs.Syntax.{limits};
ghost use Rattle.ec_cursor.specs.Branches.{cast_by, size_by_type, size_by_expression};
ghost use Rattle.ec_cexpressions.specs.Nests.{SubexpressionsNest, TypesNest};
ghost use Rattle.ec_cursor.specs.States.{seen, Reading, within};

use crate::expressions::Expressions;
use crate::expressions::making::{bump, cast, size_expr, size_type, unary};
use crate::expressions::ranks::unary_operator_of;
use ec_base::beside;
use ec_ctypes::{Base, Expr, Punct, UnOp};
use ec_cursor::{Cursor, Subexpression, begins_type};
use ec_grammar::{Failure, Kind};
use std::alloc::Global;

impl<
    E: Fn(Global, &mut Cursor<'_>, u32, Subexpression) -> Result<Expr, Failure>,
    T: Fn(Global, &mut Cursor<'_>, u32) -> Result<(Base, u32), Failure>,
> Expressions<E, T> {
    /// `++` before its operand (6.5.3.1).
    fn plus_plus_before(&self, cursor: &mut Cursor<'_>) -> Result<Expr, Failure>
        requires { SubexpressionsNest E.pre E.post self.now }
        ensures { Reading expr_view
            (within self.now.levels spec.unary_part_by (Kind.Mark Punct.PlusPlus))
            cursor.old result cursor.new }
    {
        cursor.expect(Kind::Mark(Punct::PlusPlus))?;
        let operand = self.subexpression(cursor, Subexpression::Unary)?;
        Ok(bump(self.alloc, true, true, operand)?)
    }

    /// `--` before its operand (6.5.3.1).
    fn minus_minus_before(&self, cursor: &mut Cursor<'_>) -> Result<Expr, Failure>
        requires { SubexpressionsNest E.pre E.post self.now }
        ensures { Reading expr_view
            (within self.now.levels spec.unary_part_by (Kind.Mark Punct.MinusMinus))
            cursor.old result cursor.new }
    {
        cursor.expect(Kind::Mark(Punct::MinusMinus))?;
        let operand = self.subexpression(cursor, Subexpression::Unary)?;
        Ok(bump(self.alloc, true, false, operand)?)
    }

    /// `sizeof` with its operand (6.5.3.4).
    fn size(&self, cursor: &mut Cursor<'_>) -> Result<Expr, Failure>
        requires { SubexpressionsNest E.pre E.post self.now }
        ensures { Reading expr_view (within self.now.levels spec.unary_part_by Kind.Sizeof)
            cursor.old result cursor.new }
    {
        cursor.expect(Kind::Sizeof)?;
        self.subexpression(cursor, Subexpression::SizeOperand)
    }

    /// A unary operator, which this kind is, with its operand (6.5.3.2 and 6.5.3.3).
    fn operator_before(
        &self,
        cursor: &mut Cursor<'_>,
        kind: Kind,
        op: UnOp,
    ) -> Result<Expr, Failure>
        requires { SubexpressionsNest E.pre E.post self.now }
        ensures { Reading expr_view (within self.now.levels spec.applied (Some op) kind)
            cursor.old result cursor.new }
    {
        cursor.expect(kind)?;
        let operand = self.subexpression(cursor, Subexpression::Cast)?;
        Ok(unary(self.alloc, op, operand)?)
    }

    /// A unary operator with its operand, or a primary expression with what stands behind it.
    fn operator_or_postfix(&self, cursor: &mut Cursor<'_>, kind: Kind) -> Result<Expr, Failure>
        requires { SubexpressionsNest E.pre E.post self.now }
        ensures { Reading expr_view
            (within self.now.levels spec.applied (spec.unary_operator kind) kind)
            cursor.old result cursor.new }
    {
        match unary_operator_of(kind) {
            Some(op) => self.operator_before(cursor, kind, op),
            None => self.postfix(cursor),
        }
    }

    /// A unary expression (6.5.3).
    #[tactic(auto, unfolding(ec_grammar::specs::ReadExpressions::unary_part))]
    pub fn unary_part(&self, cursor: &mut Cursor<'_>) -> Result<Expr, Failure>
        requires { SubexpressionsNest E.pre E.post self.now }
        ensures { Reading expr_view (within self.now.levels spec.unary_part)
            cursor.old result cursor.new }
    {
        match cursor.peek() {
            Kind::Mark(Punct::PlusPlus) => self.plus_plus_before(cursor),
            Kind::Mark(Punct::MinusMinus) => self.minus_minus_before(cursor),
            Kind::Sizeof => self.size(cursor),
            other => self.operator_or_postfix(cursor, other),
        }
    }

    /// Whether a type in parentheses follows.
    fn is_before_type(&self, cursor: &Cursor<'_>) -> bool
        ensures { result
            ≡ within self.now.levels spec.is_type_in_parentheses
            (kind_at (seen cursor.now).tokens) (kind_next (seen cursor.now).tokens) }
    {
        match cursor.peek() {
            Kind::Mark(Punct::LeftParen) => begins_type(cursor.peek_next()),
            _ => false,
        }
    }

    /// A type in parentheses with its operand (6.5.4).
    fn cast_by_type(&self, cursor: &mut Cursor<'_>) -> Result<Expr, Failure>
        requires subexpressions { SubexpressionsNest E.pre E.post self.now }
        requires types { TypesNest T.pre T.post self.now }
        ensures { Reading expr_view (within self.now.levels cast_by) cursor.old result cursor.new }
    {
        let found = self.nested_type(cursor)?;
        let ((base, stars), operand) = beside(
            found,
            self.subexpression(cursor, Subexpression::Cast),
        )?;
        Ok(cast(self.alloc, base, stars, operand)?)
    }

    /// A cast or a unary expression (6.5.4).
    #[tactic(auto, unfolding(ec_grammar::specs::ReadExpressions::cast_part))]
    pub fn cast_part(&self, cursor: &mut Cursor<'_>) -> Result<Expr, Failure>
        requires subexpressions { SubexpressionsNest E.pre E.post self.now }
        requires types { TypesNest T.pre T.post self.now }
        ensures { Reading expr_view (within self.now.levels spec.cast_part)
            cursor.old result cursor.new }
    {
        if self.is_before_type(cursor) {
            self.cast_by_type(cursor)
        } else {
            self.unary_part(cursor)
        }
    }

    /// The size of a type (6.5.3.4).
    fn size_of_type(&self, cursor: &mut Cursor<'_>) -> Result<Expr, Failure>
        requires { TypesNest T.pre T.post self.now }
        ensures { Reading expr_view (within self.now.levels size_by_type)
            cursor.old result cursor.new }
    {
        let (base, stars) = self.nested_type(cursor)?;
        Ok(size_type(self.alloc, base, stars)?)
    }

    /// The size of an expression (6.5.3.4).
    fn size_of_expression(&self, cursor: &mut Cursor<'_>) -> Result<Expr, Failure>
        requires { SubexpressionsNest E.pre E.post self.now }
        ensures { Reading expr_view (within self.now.levels size_by_expression)
            cursor.old result cursor.new }
    {
        let operand = self.unary_part(cursor)?;
        Ok(size_expr(self.alloc, operand)?)
    }

    /// What stands behind `sizeof`: a type in parentheses or a unary expression (6.5.3.4).
    #[tactic(auto, unfolding(ec_grammar::specs::ReadExpressions::size_operand))]
    pub fn size_operand(&self, cursor: &mut Cursor<'_>) -> Result<Expr, Failure>
        requires subexpressions { SubexpressionsNest E.pre E.post self.now }
        requires types { TypesNest T.pre T.post self.now }
        ensures { Reading expr_view (within self.now.levels spec.size_operand)
            cursor.old result cursor.new }
    {
        if self.is_before_type(cursor) {
            self.size_of_type(cursor)
        } else {
            self.size_of_expression(cursor)
        }
    }
}
