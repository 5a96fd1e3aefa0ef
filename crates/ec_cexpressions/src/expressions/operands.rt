//! Binary operators (ISO/IEC 9899:1999, 6.5.5 to 6.5.14), to the left.

ghost use Rattle.std.specs.Prelude.{◌≡◌};
ghost use Rattle.ec_ctypes.specs.views.Exprs.{expr_view};
ghost use Rattle.ec_grammar.specs.Input.{State, Reads};
ghost use Rattle.ec_grammar.specs.ReadExpressions as spec;
ghost use Rattle.ec_cexpressions.specs.Nests.{SubexpressionsNest, TypesNest};
ghost use Rattle.ec_cexpressions.specs.Ranks.{rank_view};
ghost use Rattle.ec_cursor.specs.States.{seen, Reading, within};

use crate::expressions::Expressions;
use crate::expressions::making::binary;
use crate::expressions::ranks::{Rank, operator_of, rank_operator, tighter};
use ec_base::beside;
use ec_ctypes::{Base, Expr};
use ec_cursor::{Counted, Cursor, Subexpression};
use ec_grammar::Failure;
use std::alloc::Global;

impl<
    E: Fn(Global, &mut Cursor<'_>, u32, Subexpression) -> Result<Expr, Failure>,
    T: Fn(Global, &mut Cursor<'_>, u32) -> Result<(Base, u32), Failure>,
> Expressions<E, T> {
    /// Operands of a rank with its operators. Most expressions have none, and then no rank is looked at.
    #[cycle(operands)]
    pub fn operators(&self, cursor: &mut Cursor<'_>, rank: Rank) -> Result<Expr, Failure>
        requires subexpressions { SubexpressionsNest E.pre E.post self.now }
        requires types { TypesNest T.pre T.post self.now }
        ensures { Reading expr_view (within self.now.levels spec.operators (rank_view rank))
            cursor.old result cursor.new }
    {
        let first = self.cast_part(cursor)?;
        match operator_of(cursor.peek()) {
            Some(_) => self.operators_behind(cursor, rank, first),
            None => Ok(first),
        }
    }

    /// The same, once the first cast in it is read.
    #[cycle(operands)]
    fn operators_behind(
        &self,
        cursor: &mut Cursor<'_>,
        rank: Rank,
        first: Expr,
    ) -> Result<Expr, Failure>
        requires subexpressions { SubexpressionsNest E.pre E.post self.now }
        requires types { TypesNest T.pre T.post self.now }
        ensures { (before : State)
            → within self.now.levels spec.cast_part before ≡ Ok (expr_view first, seen cursor.old)
            → Reads expr_view (within self.now.levels spec.operators (rank_view rank) before)
            result (seen cursor.new) }
    {
        match tighter(rank) {
            Some(tighter) => {
                let left = self.operators_behind(cursor, tighter, first)?;
                self.operands(cursor, rank, left)
            }
            None => self.operands(cursor, rank, first),
        }
    }

    /// Behind an operand of a rank, operators of that rank and further operands.
    #[cycle(operands)]
    fn operands(&self, cursor: &mut Cursor<'_>, rank: Rank, mut left: Expr) -> Result<Expr, Failure>
        requires subexpressions { SubexpressionsNest E.pre E.post self.now }
        requires types { TypesNest T.pre T.post self.now }
        ensures { Reading expr_view
            (within self.now.levels spec.operands (rank_view rank)
            (within self.now.levels spec.operand_of (rank_view rank)) (expr_view left))
            cursor.old result cursor.new }
    {
        for _turn in 0..cursor.left() {
            let kind = cursor.peek();
            match rank_operator(rank, kind) {
                Some(op) => {
                    let (before, _mark) = beside(
                        left,
                        cursor.expect_counted(Counted::Operations, kind),
                    )?;
                    let (first, second) = beside(before, self.operand(cursor, rank))?;
                    left = binary(self.alloc, op, first, second)?;
                }
                None => return Ok(left),
            }
        }
        Ok(left)
    }

    /// An operand of a rank: what the next tighter rank makes.
    #[cycle(operands)]
    fn operand(&self, cursor: &mut Cursor<'_>, rank: Rank) -> Result<Expr, Failure>
        requires subexpressions { SubexpressionsNest E.pre E.post self.now }
        requires types { TypesNest T.pre T.post self.now }
        ensures { Reading expr_view (within self.now.levels spec.operand_of (rank_view rank))
            cursor.old result cursor.new }
    {
        match tighter(rank) {
            Some(tighter) => self.operators(cursor, tighter),
            None => self.cast_part(cursor),
        }
    }
}
