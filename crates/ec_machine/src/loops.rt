//! Lists of statements, blocks and loops.

ghost use Rattle.std.specs.Prelude.{◌≡◌, ◌≤◌, ◌<◌, ◌+◌, ℕ, List, map, IfSome, OnOk};
ghost use Rattle.ec_meaning_defs.specs.resolved.Resolved.{evaluate as evaluated};
ghost use Rattle.ec_code.specs.declared.program.Function.{Function as FunctionData};
ghost use Rattle.ec_code.specs.Marks.{mark_view};
ghost use Rattle.ec_code.specs.Views.{expression_view, full_view, size_view, statement_view, statements_view};
ghost use Rattle.ec_meaning_defs.specs.evaluation.Evaluate.{Context, World, Step as Knowing, eval, turn_of};
ghost use Rattle.ec_meaning_defs.specs.evaluation.Execute.{again, enter, look_all, run, run_all, tested};
ghost use Rattle.ec_meaning_defs.specs.evaluation.Results.{Res, after_body, on, on_done, on_value};
ghost use Rattle.ec_meaning_defs.specs.evaluation.State.{State};
ghost use Rattle.ec_machine.specs.Found.{StandsAt};
ghost use Rattle.ec_machine.specs.Frames.{behind_of, body_of, evaluated_for, here, test_of};
ghost use Rattle.ec_machine.specs.Goes.{Enters, Goes, at, env_of};
ghost use Rattle.ec_machine.specs.declared.frame.Frame.TheVariants as frame;
ghost use Rattle.ec_machine.specs.Quick.{IsNear, Onward, behind_body, bodily, testing, turning};
ghost use Rattle.ec_machine.specs.Weights.{again_weight, expression_weight, frames_weight, remaining, statement_weight, statements_weight, test_weight};

use crate::frame::{Flow, Focus, Frame};
use crate::labels::first_holding;
use crate::machine::Machine;
use crate::making::{make_objects, no_room, take_turn};
use crate::quick::{Asked, Done, ask, pass_behind, quick, quick_list};
use crate::stop::Stop;
use ec_base::Line;
use ec_code::{Expression, Full, Function, Loop, Mark, ObjectSize, Statement};

impl<'p> Machine<'p> {
    /// Statements are run, one after the other.
    pub(crate) fn list(
        &mut self,
        functions: &'p [Function],
        statements: &'p [Statement],
    ) -> Result<Focus<'p>, Stop>
        ensures goes { Goes functions.now self.old (env_of self.old)
            (λ knowing w t. run_all knowing w (here (env_of self.old) self.old.line)
            (statements_view statements.now) t) result self.new }
        ensures turns { self.new.turns ≤ self.old.turns }
        ensures nears { remaining self.old.turns result self.new ≤
            1 + frames_weight self.old.frames + statements_weight statements.now }
    {
        let line = self.line;
        match quick_list(&mut self.store, &self.scope, &mut self.line, statements) {
            Ok(None) => Ok(Focus::Leads(Flow::On)),
            Ok(Some(found)) => self.left_in(functions, line, found.first, found.rest),
            Err(stop) => Err(stop),
        }
    }

    /// What is left of a statement is begun. These stand behind it, on this line.
    fn left_in(
        &mut self,
        functions: &'p [Function],
        line: Line,
        first: &'p Statement,
        rest: &'p [Statement],
    ) -> Result<Focus<'p>, Stop>
        ensures goes { Goes functions.now self.old (env_of self.old)
            (λ knowing w t. on_done (run knowing w (here (env_of self.old) self.old.line)
            (statement_view first.now) t) (λ u. run_all knowing w (here (env_of self.old) line)
            (statements_view rest.now) u)) result self.new }
        ensures turns { self.new.turns ≤ self.old.turns }
        ensures nears { remaining self.old.turns result self.new ≤
            2 + frames_weight self.old.frames + statement_weight first.now + statements_weight
            rest.now }
    {
        match rest {
            [] => self.left(functions, first),
            _ => {
                self.frames.push(Frame::Rest(line, rest))?;
                self.left(functions, first)
            }
        }
    }

    /// A label or a case is looked for in statements.
    pub(crate) fn look_list(
        &mut self,
        label: Mark,
        statements: &'p [Statement],
    ) -> Result<Focus<'p>, Stop>
        ensures goes { (functions : List FunctionData) → Goes functions self.old (env_of self.old)
            (λ knowing w t. look_all knowing w (mark_view label) (here (env_of self.old) self.old.line)
            (statements_view statements.now) t) result self.new }
        ensures turns { self.new.turns ≤ self.old.turns }
        ensures nears { remaining self.old.turns result self.new ≤
            1 + frames_weight self.old.frames + statements_weight statements.now }
    {
        match first_holding(label, statements) {
            Some(found) => {
                self.frames.push(Frame::Rest(self.line, found.rest))?;
                Ok(Focus::Looks(label, found.first))
            }
            None => Ok(Focus::Leads(Flow::On)),
        }
    }

    /// A block is entered: its objects are made. What is done in it is left to the caller.
    pub(crate) fn enter(
        &mut self,
        sizes: &'p [ObjectSize],
        body: &'p [Statement],
    ) -> Result<(), Stop>
        ensures enters { (knowing : Knowing) (w : World) (s : State) (go : Context → State → Res)
            → Enters knowing w s self.old result self.new
            (enter w (here (env_of self.old) self.old.line) (map size_view sizes.now)
            (statements_view body.now) go (at s self.old))
            (go (here (env_of self.new) self.new.line) (at s self.new)) }
        ensures turns { self.new.turns ≡ self.old.turns }
        ensures frames { OnOk result (frames_weight self.new.frames ≡ frames_weight self.old.frames
            + 2) }
    {
        let mark = self.store.mark();
        let height = self.scope.pointers.len();
        let count = self.scope.count;
        match make_objects(&mut self.store, &mut self.scope, sizes) {
            Ok(()) => (),
            Err(why) => return Err(no_room(self.line, why)),
        }
        self.frames.push(Frame::Close(mark, height, count))?;
        self.frames.push(Frame::Settle(self.line, body))?;
        Ok(())
    }

    /// The body of a loop is run once more, and costs a turn. Further turns that need no frame are taken here.
    pub(crate) fn turn(
        &mut self,
        functions: &'p [Function],
        inner: &'p Loop,
    ) -> Result<Focus<'p>, Stop>
        ensures goes { Goes functions.now self.old (env_of self.old)
            (λ knowing w t. w (turn_of (here (env_of self.old) self.old.line) (test_of inner.now)
            (behind_of inner.now) (body_of inner.now)) t) result self.new }
        ensures turns { self.new.turns ≤ self.old.turns }
        ensures nears { remaining self.old.turns result self.new ≡ 0 }
    {
        loop {
            match self.round(functions, inner) {
                Ok(None) => (),
                Ok(Some(focus)) => return Ok(focus),
                Err(stop) => return Err(stop),
            }
            match self.ask(inner) {
                Ok(None) => (),
                Ok(Some(focus)) => return Ok(focus),
                Err(stop) => return Err(stop),
            }
        }
    }

    /// A loop from its test.
    pub(crate) fn test(
        &mut self,
        functions: &'p [Function],
        inner: &'p Loop,
    ) -> Result<Focus<'p>, Stop>
        ensures goes { Goes functions.now self.old (env_of self.old)
            (λ knowing w t. tested knowing w (here (env_of self.old) self.old.line) (test_of
            inner.now) (behind_of inner.now) (body_of inner.now) t) result self.new }
        ensures turns { self.new.turns ≤ self.old.turns }
        ensures nears { remaining self.old.turns result self.new ≤
            1 + frames_weight self.old.frames + test_weight inner.now }
    {
        match self.ask(inner) {
            Ok(None) => self.turn(functions, inner),
            Ok(Some(focus)) => Ok(focus),
            Err(stop) => Err(stop),
        }
    }

    /// A loop behind its body.
    pub(crate) fn again(
        &mut self,
        functions: &'p [Function],
        inner: &'p Loop,
    ) -> Result<Focus<'p>, Stop>
        ensures goes { Goes functions.now self.old (env_of self.old)
            (λ knowing w t. again knowing w (here (env_of self.old) self.old.line) (test_of
            inner.now) (behind_of inner.now) (body_of inner.now) t) result self.new }
        ensures turns { self.new.turns ≤ self.old.turns }
        ensures nears { remaining self.old.turns result self.new ≤
            1 + frames_weight self.old.frames + again_weight inner.now }
    {
        match self.behind(inner) {
            Ok(None) => self.test(functions, inner),
            Ok(Some(focus)) => Ok(focus),
            Err(stop) => Err(stop),
        }
    }

    /// The test of a loop. Where it holds the loop stands at a turn.
    #[inline(always)]
    fn ask(&mut self, inner: &'p Loop) -> Result<Option<Focus<'p>>, Stop>
        ensures goes { (functions : List FunctionData) → Onward functions self.old (testing
            inner.now) result self.new (turning inner.now) }
        ensures turns { self.new.turns ≡ self.old.turns }
        ensures nears { IsNear self.old.turns result self.new (1 + frames_weight self.old.frames +
            test_weight inner.now) }
    {
        match &inner.test {
            None => Ok(None),
            Some(test) => self.ask_for(inner, test),
        }
    }

    /// This test of a loop.
    #[inline(always)]
    fn ask_for(&mut self, inner: &'p Loop, test: &'p Expression) -> Result<Option<Focus<'p>>, Stop>
        ensures goes { (functions : List FunctionData) → Onward functions self.old
            (λ m. evaluated_for (env_of m) m.line (expression_view test.now)
            (frame.Test m.line inner.entry)) result self.new (turning inner.now) }
        ensures turns { self.new.turns ≡ self.old.turns }
        ensures nears { IsNear self.old.turns result self.new (2 + frames_weight self.old.frames +
            expression_weight test.now) }
    {
        match ask(&mut self.store, &self.scope, self.line, test) {
            Ok(Asked::Holds) => Ok(None),
            Ok(Asked::Fails) => Ok(Some(Focus::Leads(Flow::On))),
            Ok(Asked::Waits) => {
                self.frames.push(Frame::Test(self.line, inner))?;
                Ok(Some(Focus::Evaluates(test)))
            }
            Err(stop) => Err(stop),
        }
    }

    /// A turn of a loop. Where it needs no frame the loop stands at its test again.
    #[inline(always)]
    fn round(
        &mut self,
        functions: &'p [Function],
        inner: &'p Loop,
    ) -> Result<Option<Focus<'p>>, Stop>
        ensures goes { Onward functions.now self.old (turning
            inner.now) result self.new (testing inner.now) }
        ensures fewer { OnOk result (self.new.turns < self.old.turns) }
        ensures turns { self.new.turns ≤ self.old.turns }
    {
        match take_turn(&mut self.turns) {
            Ok(()) => match self.body(functions, inner) {
                Ok(None) => self.behind(inner),
                Ok(Some(focus)) => Ok(Some(focus)),
                Err(stop) => Err(stop),
            },
            Err(stop) => Err(stop),
        }
    }

    /// The body of a loop. Where it needs no frame the loop stands behind its body.
    #[inline(always)]
    fn body(
        &mut self,
        functions: &'p [Function],
        inner: &'p Loop,
    ) -> Result<Option<Focus<'p>>, Stop>
        ensures goes { Onward functions.now self.old (bodily
            inner.now) result self.new (behind_body inner.now) }
        ensures turns { self.new.turns ≤ self.old.turns }
    {
        let line = self.line;
        match quick(&mut self.store, &self.scope, &mut self.line, &inner.body) {
            Ok(None) => {
                self.line = line;
                Ok(None)
            }
            Ok(Some(left)) => self.body_from(functions, inner, line, left),
            Err(stop) => Err(stop),
        }
    }

    /// What is left of the body of a loop, which began on this line. Where it needs no frame the loop stands behind its
    /// body.
    #[inline(always)]
    fn body_from(
        &mut self,
        functions: &'p [Function],
        inner: &'p Loop,
        line: Line,
        left: &'p Statement,
    ) -> Result<Option<Focus<'p>>, Stop>
        ensures goes { Onward functions.now self.old
            (λ m knowing w t. after_body (run knowing w (here (env_of m) m.line) (statement_view
            left.now) t) (λ u. again knowing w (here (env_of m) line) (test_of inner.now)
            (behind_of inner.now) (body_of inner.now) u)) result self.new (behind_body inner.now) }
        ensures turns { self.new.turns ≤ self.old.turns }
    {
        match call_of(left) {
            Some(full) => self.body_call(functions, inner, line, full),
            None => self.body_other(inner, line, left),
        }
    }

    /// What is left of the body of a loop, which began on this line, is an expression that holds a call. Where that is done
    /// on the spot the loop stands behind its body.
    #[inline(always)]
    fn body_call(
        &mut self,
        functions: &'p [Function],
        inner: &'p Loop,
        line: Line,
        full: &'p Full,
    ) -> Result<Option<Focus<'p>>, Stop>
        ensures goes { Onward functions.now self.old
            (λ m knowing w t. after_body (on_value (eval knowing w (here (env_of m) m.line)
            (full_view full.now) t) (λ v u. on u)) (λ u. again knowing w (here (env_of m) line)
            (test_of inner.now) (behind_of inner.now) (body_of inner.now) u))
            result self.new (behind_body inner.now) }
        ensures turns { self.new.turns ≤ self.old.turns }
    {
        let height = self.frames.len();
        self.frames.push(Frame::Body(line, inner))?;
        let mut left = Err(Stop::OutOfMemory);
        match self.does(functions, full, &mut left) {
            Ok(Done::All) => {
                self.frames.truncate(height);
                self.line = line;
                Ok(None)
            }
            Ok(Done::Nothing) => standing(left),
            Err(stop) => Err(stop),
        }
    }

    /// What a loop evaluates behind its body. Where this needs no frame the loop stands at its test.
    #[inline(always)]
    pub(crate) fn behind(&mut self, inner: &'p Loop) -> Result<Option<Focus<'p>>, Stop>
        ensures goes { (functions : List FunctionData) → Onward functions self.old (behind_body
            inner.now) result self.new (testing inner.now) }
        ensures turns { self.new.turns ≡ self.old.turns }
        ensures nears { IsNear self.old.turns result self.new (1 + frames_weight self.old.frames +
            again_weight inner.now) }
    {
        match &inner.behind {
            None => Ok(None),
            Some(behind) => self.go_behind(inner, behind),
        }
    }

    /// This is evaluated behind the body of a loop.
    #[inline(always)]
    fn go_behind(
        &mut self,
        inner: &'p Loop,
        behind: &'p Expression,
    ) -> Result<Option<Focus<'p>>, Stop>
        ensures goes { (functions : List FunctionData) → Onward functions self.old
            (λ m. evaluated_for (env_of m) m.line (expression_view behind.now)
            (frame.Behind m.line inner.entry)) result self.new (testing inner.now) }
        ensures turns { self.new.turns ≡ self.old.turns }
        ensures nears { IsNear self.old.turns result self.new (2 + frames_weight self.old.frames +
            expression_weight behind.now + test_weight inner.now) }
    {
        match pass_behind(&mut self.store, &self.scope, self.line, behind) {
            Ok(Done::All) => Ok(None),
            Ok(Done::Nothing) => {
                self.frames.push(Frame::Behind(self.line, inner))?;
                Ok(Some(Focus::Evaluates(behind)))
            }
            Err(stop) => Err(stop),
        }
    }
}

/// What the machine stands at.
#[inline(always)]
pub(crate) fn standing<'p>(left: Result<Focus<'p>, Stop>) -> Result<Option<Focus<'p>>, Stop>
    ensures { StandsAt left.entry result }
{
    match left {
        Ok(focus) => Ok(Some(focus)),
        Err(stop) => Err(stop),
    }
}

/// The expression that a statement is, where it holds a call.
#[inline(always)]
fn call_of(statement: &Statement) -> Option<&Full>
    ensures { IfSome result (λ full.
        statement_view statement.now ≡ evaluated (full_view full.now)) }
{
    match statement {
        Statement::Evaluate(expression) => full_of(expression),
        _ => None,
    }
}

/// An expression that holds a call.
#[inline(always)]
pub(crate) fn full_of(expression: &Expression) -> Option<&Full>
    ensures { IfSome result (λ full. expression_view expression.now ≡ full_view full.now) }
{
    match expression {
        Expression::Plain(_) => None,
        Expression::Full(full) => Some(full),
    }
}
