//! What ECPGdo runs.

ghost use Rattle.std.specs.Prelude.{◌≡◌};
ghost use Rattle.ec_arguments.specs.Reading as spec;
ghost use Rattle.ec_cut.specs.Reads.{Reads};
ghost use Rattle.ec_cut.specs.Views.{statement_view};

use crate::arguments::{Front, Statement};
use crate::pointers::{Literal, Pointer};
use crate::reading::{next_literal, next_symbol, next_text};
use ec_ctypes::Sym;

/// A statement, by its symbol.
fn statement_of<B: Literal + Copy, A: Pointer + Copy>(
    sym: Sym,
    front: &mut Front<'_, B, A>,
) -> Option<Statement<B, A>>
    ensures { Reads B.bytes A.view (statement_view B.bytes A.view) (spec.statement_of sym)
        front.old result front.new }
{
    match sym {
        Sym::StatementNormal => {
            let text = next_literal(front)?;
            Some(Statement::Normal(text))
        }
        Sym::StatementExecute => {
            let name = next_literal(front)?;
            Some(Statement::Prepared(name))
        }
        Sym::StatementExecImmediate => {
            let text = next_text(front)?;
            Some(Statement::Immediate(text))
        }
        Sym::StatementOpen => {
            let head = next_literal(front)?;
            let name = next_literal(front)?;
            Some(Statement::Opening(head, name))
        }
        _ => None,
    }
}

pub(crate) fn next_statement<B: Literal + Copy, A: Pointer + Copy>(
    front: &mut Front<'_, B, A>,
) -> Option<Statement<B, A>>
    ensures { Reads B.bytes A.view (statement_view B.bytes A.view) spec.next_statement
        front.old result front.new }
{
    let sym = next_symbol(front)?;
    statement_of(sym, front)
}
