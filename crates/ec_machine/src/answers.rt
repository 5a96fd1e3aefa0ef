//! Frames that are given an answer.

ghost use Rattle.std.specs.Prelude.{◌≡◌, ◌≤◌, ◌+◌, ℕ, List, Err, true, false};
ghost use Rattle.std.specs.Option.{option_map};
ghost use Rattle.ec_code.specs.declared.program.Function.{Function as FunctionData};
ghost use Rattle.ec_code.specs.Marks.{mark_view};
ghost use Rattle.ec_code.specs.Views.{expression_view, statement_view, statements_view};
ghost use Rattle.ec_meaning_defs.specs.evaluation.Evaluate.{eval, turn_of};
ghost use Rattle.ec_meaning_defs.specs.evaluation.Execute.{again, look, look_all, run, run_all, settle};
ghost use Rattle.ec_meaning_defs.specs.evaluation.Results.{after_body, after_switch, back, on, on_done, on_number, value as valued, went};
ghost use Rattle.ec_meaning_defs.specs.evaluation.State.{State};
ghost use Rattle.ec_meaning_defs.specs.resolved.Resolved.{case, named};
ghost use Rattle.ec_meaning_defs.specs.resolved.Operations.{is_true};
ghost use Rattle.ec_values.specs.Words.{word_view};
ghost use Rattle.ec_machine.specs.Frames.{behind_by, behind_of, below, body_of, here, led, left_by, outside, plug, selected, test_of};
ghost use Rattle.ec_machine.specs.Goes.{Goes, env_of};
ghost use Rattle.ec_machine.specs.declared.stop.End.TheVariants as ends;
ghost use Rattle.ec_machine.specs.declared.stop.Stop.TheVariants as stops;
ghost use Rattle.ec_memory_defs.specs.Memory.{end_to};
ghost use Rattle.ec_machine.specs.Weights.{expression_weight, statement_weight, again_weight, flow_weight, frame_answer, frame_weight, frames_answer, frames_weight, remaining, statements_weight, steps_weight};

use crate::calls::drop_last;
use crate::frame::{Flow, Focus, Frame, Way};
use crate::labels::{holds, holds_any};
use crate::machine::Machine;
use crate::statements::gives;
use crate::stop::{End, Stop};
use ec_code::{Expression, Function, Loop, Mark, Statement};
use ec_values::Word;

impl<'p> Machine<'p> {
    /// A frame that was taken is given a value.
    #[inline(always)]
    pub(crate) fn give_value(
        &mut self,
        functions: &'p [Function],
        frame: Frame<'p>,
        value: Word,
    ) -> Result<Focus<'p>, Stop>
        ensures goes { Goes functions.now self.old (below (env_of self.old) frame.entry)
            (λ knowing w t. plug knowing w (env_of self.old) frame.entry (valued (word_view value)
            t)) result self.new }
        ensures turns { self.new.turns ≤ self.old.turns }
        ensures nears { remaining self.old.turns result self.new ≤
            frames_weight self.old.frames + frame_weight frame.entry }
    {
        match frame {
            Frame::Steps(line, steps) => {
                self.line = line;
                self.go_on(functions, steps, value)
            }
            Frame::Right(line, step, left, old, steps) => {
                self.line = line;
                self.go_right(functions, step, left, old, value, steps)
            }
            Frame::Arguments(line, callee, count, rest, steps) => {
                self.line = line;
                self.pass_on(functions, callee, count, value, rest, steps)
            }
            Frame::Call(_) => Err(Stop::Over(End::Stuck)),
            Frame::Called(line, count, steps) => {
                self.line = line;
                drop_last(&mut self.values, count);
                self.go_on(functions, steps, value)
            }
            Frame::Do => Ok(Focus::Leads(Flow::On)),
            Frame::Give => gives(self.first, Some(value)),
            Frame::Choose(line, first, second) => {
                self.line = line;
                self.choose(first, second, value)
            }
            Frame::Choice(line, first, second) => {
                self.line = line;
                self.pick(first, second, value)
            }
            Frame::Select(line, body) => {
                self.line = line;
                self.select(body, value)
            }
            Frame::Switch => Ok(Focus::Value(value)),
            Frame::Test(line, inner) => {
                self.line = line;
                self.tested(functions, inner, value)
            }
            Frame::Behind(line, inner) => {
                self.line = line;
                self.test(functions, inner)
            }
            Frame::Body(_, _) => Ok(Focus::Value(value)),
            Frame::Rest(_, _) => Ok(Focus::Value(value)),
            Frame::Settle(_, _) => Ok(Focus::Value(value)),
            Frame::Close(_, height, count) => {
                self.scope.cut(height, count);
                Ok(Focus::Value(value))
            }
        }
    }

    /// A frame that was taken is told what a statement led to.
    #[inline(always)]
    pub(crate) fn give_flow(
        &mut self,
        functions: &'p [Function],
        frame: Frame<'p>,
        flow: Flow,
    ) -> Result<Focus<'p>, Stop>
        ensures goes { Goes functions.now self.old (below (env_of self.old) frame.entry)
            (λ knowing w t. plug knowing w (env_of self.old) frame.entry (led flow t)) result
            self.new }
        ensures turns { self.new.turns ≤ self.old.turns }
        ensures nears { remaining self.old.turns result self.new ≤
            frames_weight self.old.frames + frame_weight frame.entry + flow_weight flow
            (frame_answer frame.entry + frames_answer self.old.frames) }
    {
        match frame {
            Frame::Arguments(_, _, count, _, _) => {
                drop_last(&mut self.values, count);
                Ok(Focus::Leads(flow))
            }
            Frame::Called(_, count, _) => {
                drop_last(&mut self.values, count);
                Ok(Focus::Leads(flow))
            }
            Frame::Call(way) => self.leave_by(functions, way, flow),
            Frame::Body(line, inner) => {
                self.line = line;
                self.after_body(functions, inner, flow)
            }
            Frame::Rest(line, statements) => {
                self.line = line;
                self.rest(functions, statements, flow)
            }
            Frame::Settle(line, statements) => {
                self.line = line;
                self.settle(statements, flow)
            }
            Frame::Close(mark, height, count) => {
                self.store.end_to(mark);
                self.scope.cut(height, count);
                Ok(Focus::Leads(flow))
            }
            Frame::Steps(_, _) => Ok(Focus::Leads(flow)),
            Frame::Right(_, _, _, _, _) => Ok(Focus::Leads(flow)),
            Frame::Do => Ok(Focus::Leads(flow)),
            Frame::Give => Ok(Focus::Leads(flow)),
            Frame::Choose(_, _, _) => Ok(Focus::Leads(flow)),
            Frame::Choice(_, _, _) => Ok(Focus::Leads(flow)),
            Frame::Select(_, _) => Ok(Focus::Leads(flow)),
            Frame::Switch => Ok(Focus::Leads(after_switch(flow))),
            Frame::Test(_, _) => Ok(Focus::Leads(flow)),
            Frame::Behind(_, _) => Ok(Focus::Leads(flow)),
        }
    }

    /// The body of a function led to this.
    #[inline(always)]
    fn leave_by(
        &mut self,
        functions: &'p [Function],
        way: Way<'p>,
        flow: Flow,
    ) -> Result<Focus<'p>, Stop>
        ensures goes { Goes functions.now self.old (outside way.entry (env_of self.old))
            (λ knowing w t. behind_by (here (outside way.entry (env_of self.old)) way.entry.line)
            way.entry.steps.now knowing w (left_by way.entry (settle w (here (env_of self.old)
            way.entry.line) (statements_view
            way.entry.function.now.body) (led flow t)))) result self.new }
        ensures turns { self.new.turns ≤ self.old.turns }
        ensures nears { remaining self.old.turns result self.new ≤
            1 + frames_weight self.old.frames + steps_weight way.entry.steps.now + flow_weight flow
            (1 + statements_weight way.entry.function.now.body + frames_answer self.old.frames) }
    {
        match flow {
            Flow::On => self.go_out(functions, way, way.function.otherwise),
            Flow::Back(value) => self.go_out(functions, way, value),
            Flow::Went(label) => self.go_in(way, label),
            Flow::Broke => self.go_astray(way),
            Flow::Continued => self.go_astray(way),
        }
    }

    /// A function ended, with a value or without one.
    #[inline(always)]
    fn go_out(
        &mut self,
        functions: &'p [Function],
        way: Way<'p>,
        value: Option<Word>,
    ) -> Result<Focus<'p>, Stop>
        ensures goes { Goes functions.now self.old (outside way.entry (env_of self.old))
            (λ knowing w t. behind_by (here (outside way.entry (env_of self.old)) way.entry.line)
            way.entry.steps.now knowing w (left_by way.entry (back (option_map word_view value)
            t))) result self.new }
        ensures turns { self.new.turns ≤ self.old.turns }
        ensures nears { remaining self.old.turns result self.new ≤
            frames_weight self.old.frames + steps_weight way.entry.steps.now }
    {
        let mut left = Err(Stop::OutOfMemory);
        match self.ended(way, value, &mut left).get() {
            Some(value) => self.go_on(functions, way.steps, value),
            None => left,
        }
    }

    /// A `goto` leads out of the statements of a function's body, which may hold its label.
    #[inline(never)]
    fn go_in(&mut self, way: Way<'p>, label: u32) -> Result<Focus<'p>, Stop>
        ensures goes { (functions : List FunctionData) → Goes functions self.old
            (outside way.entry (env_of self.old))
            (λ knowing w t. behind_by (here (outside way.entry (env_of self.old)) way.entry.line)
            way.entry.steps.now knowing w (left_by way.entry (settle w (here (env_of self.old)
            way.entry.line) (statements_view
            way.entry.function.now.body) (went label t)))) result self.new }
        ensures turns { self.new.turns ≤ self.old.turns }
        ensures nears { remaining self.old.turns result self.new ≤
            2 + frames_weight self.old.frames + steps_weight way.entry.steps.now +
            statements_weight way.entry.function.now.body }
    {
        let body = way.function.body.as_slice();
        if holds_any(Mark::Named(label), body) {
            self.line = way.line;
            self.frames.push(Frame::Call(way))?;
            self.look_list(Mark::Named(label), body)
        } else {
            self.go_astray(way)
        }
    }

    /// The body of a function led to what has no meaning.
    #[inline(never)]
    fn go_astray(&mut self, way: Way<'p>) -> Result<Focus<'p>, Stop>
        ensures stops { result ≡ Err (stops.Over ends.Stuck) }
        ensures ended { self.new
            ≡ record self.old { store = end_to self.old.store way.entry.mark } }
    {
        self.store.end_to(way.mark);
        Err(Stop::Over(End::Stuck))
    }

    /// The statement that a value chooses is run.
    #[tactic(auto, using(crate::proofs::Weighing::weights))]
    pub(crate) fn choose(
        &self,
        first: &'p Statement,
        second: &'p Statement,
        value: Word,
    ) -> Result<Focus<'p>, Stop>
        ensures goes { (functions : List FunctionData) → Goes functions self.now (env_of self.now)
            (λ knowing w t. elim (is_true (word_view value)) [
              | true ↦ run knowing w (here (env_of self.now) self.now.line) (statement_view
                  first.now) t
              | false ↦ run knowing w (here (env_of self.now) self.now.line) (statement_view
                  second.now) t
            ]) result self.now }
        ensures nears { remaining self.now.turns result self.now ≤
            1 + frames_weight self.now.frames + statement_weight first.now + statement_weight
            second.now }
    {
        if value.is_true() {
            Ok(Focus::Runs(first))
        } else {
            Ok(Focus::Runs(second))
        }
    }

    /// The operand of `?:` that a value chooses is evaluated.
    #[tactic(auto, using(crate::proofs::Weighing::weights))]
    pub(crate) fn pick(
        &self,
        first: &'p Expression,
        second: &'p Expression,
        value: Word,
    ) -> Result<Focus<'p>, Stop>
        ensures goes { (functions : List FunctionData) → Goes functions self.now (env_of self.now)
            (λ knowing w t. elim (is_true (word_view value)) [
              | true ↦ eval knowing w (here (env_of self.now) self.now.line) (expression_view
                  first.now) t
              | false ↦ eval knowing w (here (env_of self.now) self.now.line) (expression_view
                  second.now) t
            ]) result self.now }
        ensures nears { remaining self.now.turns result self.now ≤
            1 + frames_weight self.now.frames + expression_weight first.now + expression_weight
            second.now }
    {
        if value.is_true() {
            Ok(Focus::Evaluates(first))
        } else {
            Ok(Focus::Evaluates(second))
        }
    }

    /// The operand of a `switch` has this value, and the body is run from its case, or from `default`.
    #[inline(never)]
    pub(crate) fn select(&mut self, body: &'p Statement, value: Word) -> Result<Focus<'p>, Stop>
        ensures goes { (functions : List FunctionData) → Goes functions self.old (env_of self.old)
            (λ knowing w t. on_number (word_view value) t (λ z. selected knowing w
            (here (env_of self.old) self.old.line) (statement_view body.now) (case z) t)) result
            self.new }
        ensures turns { self.new.turns ≤ self.old.turns }
        ensures nears { remaining self.old.turns result self.new ≤
            2 + frames_weight self.old.frames + statement_weight body.now }
    {
        match Mark::case_of(value) {
            Some(case) => self.go_from(case, body),
            None => Err(Stop::Over(End::Stuck)),
        }
    }

    /// The body of a `switch` is run from this case, or from `default` where it holds no such.
    fn go_from(&mut self, label: Mark, body: &'p Statement) -> Result<Focus<'p>, Stop>
        ensures goes { (functions : List FunctionData) → Goes functions self.old (env_of self.old)
            (λ knowing w t. selected knowing w (here (env_of self.old) self.old.line)
            (statement_view body.now) (mark_view label) t) result self.new }
        ensures turns { self.new.turns ≤ self.old.turns }
        ensures nears { remaining self.old.turns result self.new ≤
            2 + frames_weight self.old.frames + statement_weight body.now }
    {
        if holds(label, body) {
            return self.go_to(label, body);
        }
        if holds(Mark::Default, body) {
            return self.go_to(Mark::Default, body);
        }
        Ok(Focus::Leads(Flow::On))
    }

    /// The body of a `switch` is run from this case, which it holds.
    fn go_to(&mut self, label: Mark, body: &'p Statement) -> Result<Focus<'p>, Stop>
        ensures goes { (functions : List FunctionData) → Goes functions self.old (env_of self.old)
            (λ knowing w t. after_switch (look knowing w (mark_view label) (here (env_of self.old)
            self.old.line) (statement_view body.now) t)) result self.new }
        ensures turns { self.new.turns ≤ self.old.turns }
        ensures nears { remaining self.old.turns result self.new ≤
            2 + frames_weight self.old.frames + statement_weight body.now }
    {
        self.frames.push(Frame::Switch)?;
        Ok(Focus::Looks(label, body))
    }

    /// The test of a loop has this value.
    #[tactic(auto, using(crate::proofs::Weighing::weights))]
    pub(crate) fn tested(
        &mut self,
        functions: &'p [Function],
        inner: &'p Loop,
        value: Word,
    ) -> Result<Focus<'p>, Stop>
        ensures goes { Goes functions.now self.old (env_of self.old)
            (λ knowing w t. elim (is_true (word_view value)) [
              | true ↦ w (turn_of (here (env_of self.old) self.old.line) (test_of inner.now)
                  (behind_of inner.now) (body_of inner.now)) t
              | false ↦ on t
            ]) result self.new }
        ensures turns { self.new.turns ≤ self.old.turns }
        ensures nears { remaining self.old.turns result self.new ≤
            1 + frames_weight self.old.frames }
    {
        if value.is_true() {
            self.turn(functions, inner)
        } else {
            Ok(Focus::Leads(Flow::On))
        }
    }

    /// The body of a loop is done.
    fn after_body(
        &mut self,
        functions: &'p [Function],
        inner: &'p Loop,
        flow: Flow,
    ) -> Result<Focus<'p>, Stop>
        ensures goes { Goes functions.now self.old (env_of self.old)
            (λ knowing w t. after_body (led flow t) (λ u. again knowing w (here (env_of self.old)
            self.old.line) (test_of inner.now) (behind_of inner.now) (body_of inner.now) u))
            result self.new }
        ensures turns { self.new.turns ≤ self.old.turns }
        ensures nears { remaining self.old.turns result self.new ≤
            1 + frames_weight self.old.frames + again_weight inner.now + flow_weight flow
            (frames_answer self.old.frames) }
    {
        match flow {
            Flow::On => self.again(functions, inner),
            Flow::Continued => self.again(functions, inner),
            Flow::Broke => Ok(Focus::Leads(Flow::On)),
            Flow::Went(_) => Ok(Focus::Leads(flow)),
            Flow::Back(_) => Ok(Focus::Leads(flow)),
        }
    }

    /// A statement before these is done.
    fn rest(
        &mut self,
        functions: &'p [Function],
        statements: &'p [Statement],
        flow: Flow,
    ) -> Result<Focus<'p>, Stop>
        ensures goes { Goes functions.now self.old (env_of self.old)
            (λ knowing w t. on_done (led flow t) (λ u. run_all knowing w (here (env_of self.old)
            self.old.line) (statements_view statements.now) u)) result self.new }
        ensures turns { self.new.turns ≤ self.old.turns }
        ensures nears { remaining self.old.turns result self.new ≤
            1 + frames_weight self.old.frames + statements_weight statements.now + flow_weight flow
            (frames_answer self.old.frames) }
    {
        match flow {
            Flow::On => self.list(functions, statements),
            Flow::Continued => Ok(Focus::Leads(flow)),
            Flow::Broke => Ok(Focus::Leads(flow)),
            Flow::Went(_) => Ok(Focus::Leads(flow)),
            Flow::Back(_) => Ok(Focus::Leads(flow)),
        }
    }

    /// The statements of a block are done.
    fn settle(&mut self, statements: &'p [Statement], flow: Flow) -> Result<Focus<'p>, Stop>
        ensures goes { (functions : List FunctionData) → Goes functions self.old (env_of self.old)
            (λ knowing w t. settle w (here (env_of self.old) self.old.line) (statements_view
            statements.now) (led flow t)) result self.new }
        ensures turns { self.new.turns ≤ self.old.turns }
        ensures nears { remaining self.old.turns result self.new ≤
            1 + frames_weight self.old.frames + flow_weight flow (1 + statements_weight
            statements.now + frames_answer self.old.frames) }
    {
        match flow {
            Flow::Went(label) => {
                if holds_any(Mark::Named(label), statements) {
                    self.answer(label, statements)
                } else {
                    Ok(Focus::Leads(Flow::Went(label)))
                }
            }
            Flow::On => Ok(Focus::Leads(flow)),
            Flow::Broke => Ok(Focus::Leads(flow)),
            Flow::Continued => Ok(Focus::Leads(flow)),
            Flow::Back(_) => Ok(Focus::Leads(flow)),
        }
    }

    /// A block that holds a label answers a `goto`.
    #[inline(never)]
    fn answer(&mut self, label: u32, statements: &'p [Statement]) -> Result<Focus<'p>, Stop>
        ensures goes { (functions : List FunctionData) → Goes functions self.old (env_of self.old)
            (λ knowing w t. settle w (here (env_of self.old) self.old.line) (statements_view
            statements.now) (look_all knowing w (named label) (here (env_of self.old) self.old.line)
            (statements_view statements.now) t)) result self.new }
        ensures turns { self.new.turns ≤ self.old.turns }
        ensures nears { remaining self.old.turns result self.new ≤
            2 + frames_weight self.old.frames + statements_weight statements.now }
    {
        self.frames.push(Frame::Settle(self.line, statements))?;
        self.look_list(Mark::Named(label), statements)
    }
}

/// What a `switch` leads to whose body leads to this: a `break` ends it (ISO/IEC 9899:1999, 6.8.6.3).
fn after_switch(flow: Flow) -> Flow
    ensures leads { (t : State) → led result t ≡ after_switch (led flow t) }
    ensures weighs { (n : ℕ) → flow_weight result n ≤ flow_weight flow n }
{
    match flow {
        Flow::Broke => Flow::On,
        Flow::On => flow,
        Flow::Continued => flow,
        Flow::Went(_) => flow,
        Flow::Back(_) => flow,
    }
}
