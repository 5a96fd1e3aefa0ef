//! Single steps.

ghost use Rattle.std.specs.Prelude.{◌≡◌, ◌≤◌, ◌<◌, ◌+◌, ◌⊎◌, ℕ, List, map, IfOk};
ghost use Rattle.std.specs.Option.{option_map};
ghost use Rattle.ec_code.specs.declared.program.Function.{Function as FunctionData};
ghost use Rattle.ec_meaning_defs.specs.evaluation.Results.{finished, value as valued};
ghost use Rattle.ec_meaning_defs.specs.evaluation.State.{State};
ghost use Rattle.ec_values.specs.Words.{word_view};
ghost use Rattle.ec_machine.specs.Frames.{denote, led};
ghost use Rattle.ec_machine.specs.Goes.{Ends, Goes, env_of};
ghost use Rattle.ec_machine.specs.Quick.{TellsOutside};
ghost use Rattle.ec_machine.specs.Weights.{IsOutside, flow_weight, frames_answer, frames_weight, remaining, weight};

use crate::frame::{Flow, Focus};
use crate::machine::Machine;
use crate::statements::exits;
use crate::stop::{End, Stop};
use ec_code::Function;
use ec_values::Word;

impl<'p> Machine<'p> {
    /// A part of a run, up to a turn at most. Where bytes are to be put or the library is called, nothing is done.
    pub fn step(&mut self, functions: &'p [Function], focus: Focus<'p>) -> Result<Focus<'p>, Stop>
        ensures goes { Goes functions.now self.old (env_of self.old)
            (λ knowing w t. denote knowing w (env_of self.old) self.old.line self.old.text
            focus.entry t) result self.new }
        ensures turns { self.new.turns ≤ self.old.turns }
        ensures nears { (IsOutside focus.entry → ⊥) → remaining self.old.turns result self.new ≤
            weight self.old.frames focus.entry }
    {
        if is_outside(focus) {
            return Ok(focus);
        }
        let mut focus = focus;
        loop {
            match self.part(functions, focus) {
                Ok(next) => {
                    if is_outside(next) {
                        return Ok(next);
                    }
                    focus = next;
                }
                Err(stop) => return Err(stop),
            }
        }
    }

    /// A part of a run, up to a turn at most.
    #[inline(always)]
    fn part(&mut self, functions: &'p [Function], focus: Focus<'p>) -> Result<Focus<'p>, Stop>
        requires { IsOutside focus → ⊥ }
        ensures goes { Goes functions.now self.old (env_of self.old)
            (λ knowing w t. denote knowing w (env_of self.old) self.old.line self.old.text
            focus.entry t) result self.new }
        ensures turns { self.new.turns ≤ self.old.turns }
        ensures nears { remaining self.old.turns result self.new ≤
            weight self.old.frames focus.entry }
        ensures done { IfOk result (λ next. IsOutside next ⊎ (self.new.turns < self.old.turns)) }
    {
        let turns = self.turns;
        let mut focus = focus;
        loop {
            match self.advance(functions, focus) {
                Ok(next) => {
                    if self.turns != turns {
                        return Ok(next);
                    }
                    if is_outside(next) {
                        return Ok(next);
                    }
                    focus = next;
                }
                Err(stop) => return Err(stop),
            }
        }
    }

    /// As much of a run as is done without a way back.
    #[inline(always)]
    fn advance(&mut self, functions: &'p [Function], focus: Focus<'p>) -> Result<Focus<'p>, Stop>
        ensures goes { Goes functions.now self.old (env_of self.old)
            (λ knowing w t. denote knowing w (env_of self.old) self.old.line self.old.text
            focus.entry t) result self.new }
        ensures turns { self.new.turns ≤ self.old.turns }
        ensures nears { (IsOutside focus.entry → ⊥) → remaining self.old.turns result self.new ≤
            weight self.old.frames focus.entry }
    {
        match focus {
            Focus::Runs(statement) => self.run(functions, statement),
            Focus::Looks(label, statement) => self.look(label, statement),
            Focus::Evaluates(expression) => self.evaluate(functions, expression),
            Focus::Value(value) => self.hand_value(functions, value),
            Focus::Leads(flow) => self.hand_flow(functions, flow),
            Focus::Puts(_, _) => Ok(focus),
            Focus::Calls(_, _) => Ok(focus),
        }
    }

    /// The innermost frame is given a value.
    #[inline(always)]
    fn hand_value(&mut self, functions: &'p [Function], value: Word) -> Result<Focus<'p>, Stop>
        ensures goes { Goes functions.now self.old (env_of self.old)
            (λ knowing w t. valued (word_view value) t) result self.new }
        ensures turns { self.new.turns ≤ self.old.turns }
        ensures nears { remaining self.old.turns result self.new ≤ frames_weight self.old.frames }
    {
        match self.frames.pop() {
            Some(frame) => self.give_value(functions, frame, value),
            None => Err(Stop::Over(End::Stuck)),
        }
    }

    /// The innermost frame is told what a statement led to.
    #[inline(always)]
    fn hand_flow(&mut self, functions: &'p [Function], flow: Flow) -> Result<Focus<'p>, Stop>
        ensures goes { Goes functions.now self.old (env_of self.old)
            (λ knowing w t. led flow t) result self.new }
        ensures turns { self.new.turns ≤ self.old.turns }
        ensures nears { remaining self.old.turns result self.new ≤
            frames_weight self.old.frames + flow_weight flow (frames_answer self.old.frames) }
    {
        match self.frames.pop() {
            Some(frame) => self.give_flow(functions, frame, flow),
            None => Err(Stop::Over(finish(self.otherwise, flow))),
        }
    }
}

/// Whether this is done outside of the machine.
#[inline(always)]
fn is_outside(focus: Focus) -> bool
    ensures { TellsOutside result focus.entry }
{
    match focus {
        Focus::Puts(_, _) => true,
        Focus::Calls(_, _) => true,
        Focus::Runs(_) => false,
        Focus::Looks(_, _) => false,
        Focus::Evaluates(_) => false,
        Focus::Value(_) => false,
        Focus::Leads(_) => false,
    }
}

/// How the run ends where the first `main` led to this.
fn finish(otherwise: Option<Word>, flow: Flow) -> End
    ensures { Ends result (λ s. finished (option_map word_view otherwise) (led flow s)) }
{
    match flow {
        Flow::On => exits(otherwise),
        Flow::Broke => End::Stuck,
        Flow::Continued => End::Stuck,
        Flow::Went(_) => End::Stuck,
        Flow::Back(_) => End::Stuck,
    }
}
