//! Blocks that declare nothing: what of them needs no frame is done before they are entered.

ghost use Rattle.std.specs.Prelude.{◌≡◌, ◌≤◌, ◌+◌, IfSome, List, []};
ghost use Rattle.ec_code.specs.declared.program.Function.{Function as FunctionData};
ghost use Rattle.ec_code.specs.Views.{statement_view, statements_view};
ghost use Rattle.ec_meaning_defs.specs.evaluation.Execute.{again, enter, run, run_all, settle};
ghost use Rattle.ec_meaning_defs.specs.evaluation.Results.{after_body, closing, on_done};
ghost use Rattle.ec_meaning_defs.specs.resolved.Resolved.{block};
ghost use Rattle.ec_machine.specs.Frames.{behind_of, body_of, here, test_of};
ghost use Rattle.ec_machine.specs.Goes.{Goes, env_of};
ghost use Rattle.ec_machine.specs.Quick.{Onward, behind_body};
ghost use Rattle.ec_machine.specs.Weights.{frames_weight, remaining, statement_weight, statements_weight};

use crate::frame::{Flow, Focus, Frame};
use crate::loops::standing;
use crate::machine::Machine;
use crate::quick::quick_list;
use crate::stop::Stop;
use ec_base::Line;
use ec_code::{Loop, Statement};

impl<'p> Machine<'p> {
    /// A block that declares nothing is run.
    pub(crate) fn run_bare_block(&mut self, body: &'p [Statement]) -> Result<Focus<'p>, Stop>
        ensures goes { (functions : List FunctionData) → Goes functions self.old (env_of self.old)
            (λ knowing w t. enter w (here (env_of self.old) self.old.line) []
            (statements_view body.now) (λ d u. run_all knowing w d (statements_view
            body.now) u) t) result self.new }
        ensures turns { self.new.turns ≤ self.old.turns }
        ensures nears { remaining self.old.turns result self.new ≤
            3 + frames_weight self.old.frames + statements_weight body.now }
    {
        let start = self.line;
        let mark = self.store.mark();
        match quick_list(&mut self.store, &self.scope, &mut self.line, body) {
            Ok(None) => {
                self.store.end_to(mark);
                Ok(Focus::Leads(Flow::On))
            }
            Ok(Some(found)) => self.go_inside(start, mark, body, found.first, found.rest),
            Err(stop) => Err(stop),
        }
    }

    /// What is left of the body of a loop, which began on this line, is no call. Where it is a block that declares nothing,
    /// what of that needs no frame is done, and where that is all of it the loop stands behind its body.
    #[inline(always)]
    pub(crate) fn body_other(
        &mut self,
        inner: &'p Loop,
        line: Line,
        left: &'p Statement,
    ) -> Result<Option<Focus<'p>>, Stop>
        ensures goes { (functions : List FunctionData) → Onward functions self.old
            (λ m knowing w t. after_body (run knowing w (here (env_of m) m.line) (statement_view
            left.now) t) (λ u. again knowing w (here (env_of m) line) (test_of inner.now)
            (behind_of inner.now) (body_of inner.now) u)) result self.new (behind_body inner.now) }
        ensures turns { self.new.turns ≤ self.old.turns }
    {
        match bare_block_of(left) {
            Some(body) => self.body_block(inner, line, body),
            None => {
                self.frames.push(Frame::Body(line, inner))?;
                Ok(Some(Focus::Runs(left)))
            }
        }
    }

    /// What is left of the body of a loop, which began on this line, is a block that declares nothing. Where it needs no
    /// frame the loop stands behind its body.
    #[inline(always)]
    fn body_block(
        &mut self,
        inner: &'p Loop,
        line: Line,
        body: &'p [Statement],
    ) -> Result<Option<Focus<'p>>, Stop>
        ensures goes { (functions : List FunctionData) → Onward functions self.old
            (λ m knowing w t. after_body (enter w (here (env_of m) m.line) []
            (statements_view body.now) (λ d u. run_all knowing w d (statements_view body.now) u) t)
            (λ u. again knowing w (here (env_of m) line) (test_of inner.now) (behind_of inner.now)
            (body_of inner.now) u)) result self.new (behind_body inner.now) }
        ensures turns { self.new.turns ≤ self.old.turns }
    {
        let start = self.line;
        let mark = self.store.mark();
        match quick_list(&mut self.store, &self.scope, &mut self.line, body) {
            Ok(None) => {
                self.store.end_to(mark);
                self.line = line;
                Ok(None)
            }
            Ok(Some(found)) => {
                self.frames.push(Frame::Body(line, inner))?;
                standing(self.go_inside(start, mark, body, found.first, found.rest))
            }
            Err(stop) => Err(stop),
        }
    }

    /// A block is entered of whose statements these are left. It began on this line, with so many objects made.
    fn go_inside(
        &mut self,
        start: Line,
        mark: u32,
        body: &'p [Statement],
        first: &'p Statement,
        rest: &'p [Statement],
    ) -> Result<Focus<'p>, Stop>
        ensures goes { (functions : List FunctionData) → Goes functions self.old (env_of self.old)
            (λ knowing w t. closing mark (settle w (here (env_of self.old) start)
            (statements_view body.now) (on_done (run knowing w (here (env_of self.old)
            self.old.line) (statement_view first.now) t) (λ u. run_all knowing w (here
            (env_of self.old) start) (statements_view rest.now) u)))) result self.new }
        ensures turns { self.new.turns ≤ self.old.turns }
        ensures nears { remaining self.old.turns result self.new ≤
            4 + frames_weight self.old.frames + statement_weight first.now +
            statements_weight rest.now }
    {
        let height = self.scope.pointers.len();
        let count = self.scope.count;
        self.frames.push(Frame::Close(mark, height, count))?;
        self.frames.push(Frame::Settle(start, body))?;
        self.frames.push(Frame::Rest(start, rest))?;
        Ok(Focus::Runs(first))
    }
}

/// The statements of a block that declares nothing.
#[inline(always)]
fn bare_block_of(statement: &Statement) -> Option<&[Statement]>
    ensures { IfSome result (λ body. statement_view statement.now
        ≡ block [] (statements_view body.now)) }
{
    match statement {
        Statement::Block(sizes, body) => match sizes.as_slice() {
            [] => Some(body.as_slice()),
            _ => None,
        },
        _ => None,
    }
}
