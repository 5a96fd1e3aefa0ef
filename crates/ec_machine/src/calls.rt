//! Calls.

ghost use Rattle.std.specs.Prelude.{◌≡◌, ◌≤◌, ◌+◌, ℕ, List, map, IfSome, OnOk, Some, slice_get, false};
ghost use Rattle.std.specs.Option.{option_copied, option_map};
ghost use Rattle.ec_code.specs.declared.program.Function.{Function as FunctionData};
ghost use Rattle.ec_code.specs.Views.{expression_view, full_step_view, full_view, function_view, statement_view, statements_view};
ghost use Rattle.ec_meaning_defs.specs.evaluation.Evaluate.{World, Step as Knowing, calls, eval};
ghost use Rattle.ec_meaning_defs.specs.evaluation.Execute.{called, returning, run, run_all, settle};
ghost use Rattle.ec_meaning_defs.specs.evaluation.Results.{Res, answered, back, done_there, on, on_done, on_value, or_no_value, returned, without_answer};
ghost use Rattle.ec_meaning_defs.specs.evaluation.State.{State};
ghost use Rattle.ec_printf.specs.formats.Known.{channel_view, known_view};
ghost use Rattle.ec_meaning_defs.specs.functions.Functions.{effect_of, puts_bytes};
ghost use Rattle.ec_memory_defs.specs.Memory.{end_to};
ghost use Rattle.ec_plain.specs.Answered.{at, context};
ghost use Rattle.ec_plain.specs.Steps.{followed};
ghost use Rattle.ec_meaning_defs.specs.resolved.Resolved.{library, return};
ghost use Rattle.ec_values.specs.Words.{word_view};
ghost use Rattle.ec_machine.specs.Found.{Finds, LeavesNear, found_view};
ghost use Rattle.ec_machine.specs.Frames.{behind_by, cut, here, last_of, left_by, objects_of, outside, received, waiting, without_last};
ghost use Rattle.ec_machine.specs.Goes.{Goes, WaitsOutside, env_of, taken};
ghost use Rattle.ec_machine.specs.Quick.{Answers};
ghost use Rattle.ec_machine.specs.Weights.{frames_weight, remaining, steps_weight};

use crate::found::{Found, waits};
use crate::frame::{Callee, Flow, Focus, Frame, Way};
use crate::loops::full_of;
use crate::machine::Machine;
use crate::making::{make_locals, take_turn};
use crate::quick::{compute, quick_list};
use crate::scope::Scope;
use crate::stop::{End, Stop};
use ec_base::{Line, List, OutOfMemory, Trap};
use ec_code::{Expression, Full, FullStep, Function, Statement};
use ec_memory::Store;
use ec_printf::formats::Known;
use ec_stdlib::{Answer, Refusal, call as call_known};
use ec_values::Word;

/// The last values.
pub fn last(values: &List<Word>, count: usize) -> &[Word]
    ensures { result.now ≡ last_of count values.now }
{
    let from = values.len().saturating_sub(count);
    &values.as_slice()[from..]
}

/// Takes the last values away.
pub(crate) fn drop_last(values: &mut List<Word>, count: usize)
    ensures { values.new ≡ without_last count values.old }
{
    let rest = values.len().saturating_sub(count);
    values.truncate(rest);
}

impl<'p> Machine<'p> {
    /// What becomes of the last values, which are all of those that are collected.
    #[cycle(called)]
    #[inline(always)]
    pub(crate) fn receive(
        &mut self,
        functions: &'p [Function],
        levels: u32,
        callee: Callee<'p>,
        count: usize,
        steps: &'p [FullStep],
        left: &mut Result<Focus<'p>, Stop>,
    ) -> Found
        ensures finds { Finds functions.now self.old (taken count (env_of self.old)) self.old.line
            (behind_by (here (env_of self.old) self.old.line) steps.now)
            (λ knowing w t. received knowing w (here (env_of self.old) self.old.line) callee.entry
            (waiting count (env_of self.old)) t)
            (found_view result) left.new self.new }
        ensures turns { self.new.turns ≤ self.old.turns }
        ensures nears { LeavesNear self.old.turns (found_view result) left.new self.new
            (2 + frames_weight self.old.frames + steps_weight steps.now) }
    {
        match callee {
            Callee::Function(number, used) => {
                self.call(functions, levels, number, used, count, steps, left)
            }
            Callee::Known(known) => self.know(known, count, steps, left),
            Callee::Library(number) => waits(left, self.call_library(number, count, steps)),
            Callee::Object => waits(left, self.fill(count)),
        }
    }

    /// The library is called, and the last values are those of the call's first pointers.
    fn call_library(
        &mut self,
        number: u32,
        count: usize,
        steps: &'p [FullStep],
    ) -> Result<Focus<'p>, Stop>
        ensures goes { (functions : List FunctionData) → Goes functions self.old (taken count
            (env_of self.old))
            (λ knowing w t. behind_by (here (env_of self.old) self.old.line) steps.now knowing w
            (without_answer (knowing w (here (env_of self.old) self.old.line)
            (library number (waiting count (env_of self.old))) t))) result self.new }
        ensures turns { self.new.turns ≤ self.old.turns }
        ensures nears { remaining self.old.turns result self.new ≤
            2 + frames_weight self.old.frames + steps_weight steps.now }
    {
        self.frames.push(Frame::Called(self.line, count, steps))?;
        Ok(Focus::Calls(number, count))
    }

    /// The last values were stored in an object that is initialized.
    fn fill(&mut self, count: usize) -> Result<Focus<'p>, Stop>
        ensures goes { (functions : List FunctionData) → Goes functions self.old (taken count
            (env_of self.old))
            (λ knowing w t. on t) result self.new }
        ensures turns { self.new.turns ≤ self.old.turns }
        ensures nears { remaining self.old.turns result self.new ≤
            1 + frames_weight self.old.frames }
    {
        drop_last(&mut self.values, count);
        Ok(Focus::Leads(Flow::On))
    }

    /// A known function is called with the last values.
    #[inline(never)]
    fn know(
        &mut self,
        known: &Known,
        count: usize,
        steps: &'p [FullStep],
        left: &mut Result<Focus<'p>, Stop>,
    ) -> Found
        ensures finds { (functions : List FunctionData) → Finds functions self.old (taken count
            (env_of self.old)) self.old.line
            (behind_by (here (env_of self.old) self.old.line) steps.now)
            (λ knowing w t. done_there self.old.line.0 (effect_of (known_view known.now) t.memory
            (waiting count (env_of self.old))) t)
            (found_view result) left.new self.new }
        ensures turns { self.new.turns ≤ self.old.turns }
        ensures nears { LeavesNear self.old.turns (found_view result) left.new self.new
            (2 + frames_weight self.old.frames + steps_weight steps.now) }
    {
        match call_known(
            known,
            &mut self.store,
            last(&self.values, count),
            &mut self.text,
        ) {
            Ok(answer) => {
                drop_last(&mut self.values, count);
                if self.text.is_empty() {
                    Found::value(value_of(answer.value))
                } else {
                    waits(left, self.put(answer, steps))
                }
            }
            Err(Refusal::Trap(trap)) => {
                waits(left, Err(Stop::Over(End::Trapped(trap, self.line))))
            }
            Err(Refusal::Exit(status)) => waits(left, Err(Stop::Over(End::Exited(status)))),
            Err(Refusal::Misfit) => waits(left, Err(Stop::Over(End::Stuck))),
            Err(Refusal::OutOfMemory) => waits(left, Err(Stop::OutOfMemory)),
        }
    }

    /// A known function put bytes, which go out before the steps behind the call are taken.
    fn put(&mut self, answer: Answer, steps: &'p [FullStep]) -> Result<Focus<'p>, Stop>
        ensures goes { (functions : List FunctionData) → Goes functions self.old (env_of self.old)
            (λ knowing w t. behind_by (here (env_of self.old) self.old.line) steps.now knowing w
            (done_there self.old.line.0 (puts_bytes (channel_view answer.channel) (option_map
            word_view answer.value) t.memory self.old.text) t)) result self.new }
        ensures turns { self.new.turns ≤ self.old.turns }
        ensures nears { remaining self.old.turns result self.new ≤
            2 + frames_weight self.old.frames + steps_weight steps.now }
    {
        self.frames.push(Frame::Steps(self.line, steps))?;
        Ok(Focus::Puts(answer.channel, answer.value))
    }

    /// A function is called with the last values.
    #[cycle(called)]
    #[inline(always)]
    fn call(
        &mut self,
        functions: &'p [Function],
        levels: u32,
        number: u32,
        used: bool,
        count: usize,
        steps: &'p [FullStep],
        left: &mut Result<Focus<'p>, Stop>,
    ) -> Found
        ensures finds { Finds functions.now self.old (taken count (env_of self.old)) self.old.line
            (behind_by (here (env_of self.old) self.old.line) steps.now)
            (λ knowing w t. answered self.old.line.0 used (w (calls self.old.line.0 number (waiting
            count (env_of self.old))) t))
            (found_view result) left.new self.new }
        ensures turns { self.new.turns ≤ self.old.turns }
        ensures nears { LeavesNear self.old.turns (found_view result) left.new self.new
            (0) }
    {
        match take_turn(&mut self.turns) {
            Ok(()) => self.start(functions, levels, number, used, count, steps, left),
            Err(stop) => waits(left, Err(stop)),
        }
    }

    /// A function is called whose turn is taken.
    #[cycle(called)]
    #[inline(always)]
    fn start(
        &mut self,
        functions: &'p [Function],
        levels: u32,
        number: u32,
        used: bool,
        count: usize,
        steps: &'p [FullStep],
        left: &mut Result<Focus<'p>, Stop>,
    ) -> Found
        ensures finds { Finds functions.now self.old (taken count (env_of
            self.old)) self.old.line
            (behind_by (here (env_of self.old) self.old.line) steps.now)
            (λ knowing w t. answered self.old.line.0 used (called knowing w self.old.line.0
            (slice_get
            (map function_view functions.now) number) (waiting count (env_of self.old)) t))
            (found_view result) left.new self.new }
        ensures turns { self.new.turns ≤ self.old.turns }
    {
        match function_at(functions, number) {
            Some(function) => self.begin(functions, levels, function, used, count, steps, left),
            None => waits(left, Err(Stop::Over(End::Stuck))),
        }
    }

    /// A function is begun with the last values. Its turn is taken.
    #[cycle(called)]
    #[inline(always)]
    fn begin(
        &mut self,
        functions: &'p [Function],
        levels: u32,
        function: &'p Function,
        used: bool,
        count: usize,
        steps: &'p [FullStep],
        left: &mut Result<Focus<'p>, Stop>,
    ) -> Found
        ensures finds { Finds functions.now self.old (taken count
            (env_of self.old)) self.old.line
            (behind_by (here (env_of self.old) self.old.line) steps.now)
            (λ knowing w t. answered self.old.line.0 used (called knowing w self.old.line.0 (Some
            (function_view function.now)) (waiting count (env_of self.old)) t))
            (found_view result) left.new self.new }
        ensures turns { self.new.turns ≤ self.old.turns }
    {
        let mark = self.store.mark();
        let height = self.scope.pointers.len();
        let saved = self.scope.enter();
        let values = last(&self.values, count);
        match make_locals(
            &mut self.store,
            &mut self.scope,
            self.line,
            function,
            values,
        ) {
            Ok(()) => (),
            Err(stop) => return waits(left, Err(stop)),
        }
        drop_last(&mut self.values, count);
        let way = Way {
            line: self.line,
            used,
            first: self.first,
            mark,
            height,
            count: saved,
            function,
            steps,
        };
        self.first = false;
        self.in_body(functions, levels, way, left)
    }

    /// The body of a function is run. What of it needs no frame is done here.
    #[cycle(called)]
    #[inline(always)]
    fn in_body(
        &mut self,
        functions: &'p [Function],
        levels: u32,
        way: Way<'p>,
        left: &mut Result<Focus<'p>, Stop>,
    ) -> Found
        requires not_first { self.old.first ≡ false }
        requires same_line { way.line ≡ self.old.line }
        ensures finds { Finds functions.now self.old
            (outside way.entry (env_of self.old)) way.entry.line
            (behind_by (here (outside way.entry (env_of self.old)) way.entry.line)
            way.entry.steps.now)
            (λ knowing w t. left_by way.entry (settle w (here (env_of self.old) way.entry.line)
            (statements_view way.entry.function.now.body) (run_all knowing w (here (env_of
            self.old) self.old.line) (statements_view way.entry.function.now.body) t)))
            (found_view result) left.new self.new }
        ensures turns { self.new.turns ≤ self.old.turns }
    {
        let body = way.function.body.as_slice();
        match quick_list(&mut self.store, &self.scope, &mut self.line, body) {
            Ok(None) => self.ended(way, way.function.otherwise, left),
            Ok(Some(found)) => self.in_statement(
                functions,
                levels,
                way,
                found.first,
                found.rest,
                left,
            ),
            Err(stop) => waits(left, Err(stop)),
        }
    }

    /// What is left of a statement of a function's body is run. These stand behind it.
    #[cycle(called)]
    #[inline(always)]
    fn in_statement(
        &mut self,
        functions: &'p [Function],
        levels: u32,
        way: Way<'p>,
        first: &'p Statement,
        rest: &'p [Statement],
        left: &mut Result<Focus<'p>, Stop>,
    ) -> Found
        requires not_first { self.old.first ≡ false }
        ensures finds { Finds functions.now self.old
            (outside way.entry (env_of self.old)) way.entry.line
            (behind_by (here (outside way.entry (env_of self.old)) way.entry.line)
            way.entry.steps.now)
            (λ knowing w t. left_by way.entry (settle w (here (env_of self.old) way.entry.line)
            (statements_view way.entry.function.now.body) (on_done (run knowing w (here (env_of
            self.old) self.old.line) (statement_view first.now) t) (λ u. run_all knowing w (here
            (env_of self.old) way.entry.line) (statements_view rest.now) u))))
            (found_view result) left.new self.new }
        ensures turns { self.new.turns ≤ self.old.turns }
    {
        match answer(&mut self.store, &self.scope, self.line, first) {
            Ok(Some(value)) => {
                self.leave(way);
                Found::value(value)
            }
            Ok(None) => self.in_return(functions, levels, way, first, rest, left),
            Err(stop) => waits(left, Err(stop)),
        }
    }

    /// A statement of a function's body that holds a call is run, and these stand behind it. Where it is a `return` its
    /// expression is evaluated here, within the levels that are left. Else the way out of the function waits in a frame.
    #[cycle(called)]
    #[inline(never)]
    fn in_return(
        &mut self,
        functions: &'p [Function],
        levels: u32,
        way: Way<'p>,
        first: &'p Statement,
        rest: &'p [Statement],
        left: &mut Result<Focus<'p>, Stop>,
    ) -> Found
        requires not_first { self.old.first ≡ false }
        ensures finds { Finds functions.now self.old
            (outside way.entry (env_of self.old)) way.entry.line
            (behind_by (here (outside way.entry (env_of self.old)) way.entry.line)
            way.entry.steps.now)
            (λ knowing w t. left_by way.entry (settle w (here (env_of self.old) way.entry.line)
            (statements_view way.entry.function.now.body) (on_done (run knowing w (here (env_of
            self.old) self.old.line) (statement_view first.now) t) (λ u. run_all knowing w (here
            (env_of self.old) way.entry.line) (statements_view rest.now) u))))
            (found_view result) left.new self.new }
        ensures turns { self.new.turns ≤ self.old.turns }
    {
        match result_of(first) {
            Some(full) => {
                if levels > 0 {
                    self.give_inside(functions, levels - 1, way, full, rest, left)
                } else {
                    waits(left, self.stay(way, first, rest))
                }
            }
            None => waits(left, self.stay(way, first, rest)),
        }
    }

    /// A function returns the value of an expression that holds a call, before these statements. Where that isn't found on the
    /// spot, the way out of the function waits in a frame.
    #[cycle(called)]
    #[inline(always)]
    fn give_inside(
        &mut self,
        functions: &'p [Function],
        levels: u32,
        way: Way<'p>,
        full: &'p Full,
        rest: &'p [Statement],
        left: &mut Result<Focus<'p>, Stop>,
    ) -> Found
        requires not_first { self.old.first ≡ false }
        ensures finds { Finds functions.now self.old
            (outside way.entry (env_of self.old)) way.entry.line
            (behind_by (here (outside way.entry (env_of self.old)) way.entry.line)
            way.entry.steps.now)
            (λ knowing w t. left_by way.entry (settle w (here (env_of self.old) way.entry.line)
            (statements_view way.entry.function.now.body) (on_done (on_value (eval knowing w (here
            (env_of self.old) self.old.line) (full_view full.now) t) (λ v u. returned
            self.old.first (Some v) u)) (λ u. run_all knowing w (here (env_of self.old)
            way.entry.line) (statements_view rest.now) u))))
            (found_view result) left.new self.new }
        ensures turns { self.new.turns ≤ self.old.turns }
    {
        let height = self.frames.len();
        match self.wait_outside(way, rest) {
            Ok(()) => (),
            Err(_) => return waits(left, Err(Stop::OutOfMemory)),
        }
        match self.frames.push(Frame::Give) {
            Ok(()) => (),
            Err(_) => return waits(left, Err(Stop::OutOfMemory)),
        }
        match self.value_of(functions, levels, full, left).get() {
            Some(value) => {
                self.frames.truncate(height);
                self.leave(way);
                Found::value(value)
            }
            None => Found::Waits,
        }
    }

    /// The way out of a function waits in a frame.
    #[inline(always)]
    fn stay(
        &mut self,
        way: Way<'p>,
        first: &'p Statement,
        rest: &'p [Statement],
    ) -> Result<Focus<'p>, Stop>
        ensures goes { (functions : List FunctionData) → Goes functions self.old
            (outside way.entry (env_of self.old))
            (λ knowing w t. behind_by (here (outside way.entry (env_of self.old)) way.entry.line)
            way.entry.steps.now knowing w (left_by way.entry (settle w (here (env_of self.old)
            way.entry.line) (statements_view
            way.entry.function.now.body) (on_done (run knowing w (here (env_of self.old)
            self.old.line) (statement_view first.now) t) (λ u. run_all knowing w (here (env_of
            self.old) way.entry.line) (statements_view rest.now) u))))) result self.new }
        ensures turns { self.new.turns ≡ self.old.turns }
    {
        self.wait_outside(way, rest)?;
        Ok(Focus::Runs(first))
    }

    /// The way out of a function waits in a frame, behind the statements that stand behind the one that is run.
    #[inline(always)]
    fn wait_outside(&mut self, way: Way<'p>, rest: &'p [Statement]) -> Result<(), OutOfMemory>
        ensures waits { OnOk result (WaitsOutside way.entry rest.now self.old self.new) }
        ensures kept { self.new ≡ record self.old { frames = self.new.frames } }
    {
        self.frames.push(Frame::Call(way))?;
        match rest {
            [] => Ok(()),
            _ => self.frames.push(Frame::Rest(way.line, rest)),
        }
    }

    /// A function ended, with a value or without one.
    #[inline(always)]
    pub(crate) fn ended(
        &mut self,
        way: Way<'p>,
        value: Option<Word>,
        left: &mut Result<Focus<'p>, Stop>,
    ) -> Found
        ensures finds { (functions : List FunctionData) → Finds functions self.old
            (outside way.entry (env_of self.old)) way.entry.line
            (behind_by (here (outside way.entry (env_of self.old)) way.entry.line)
            way.entry.steps.now)
            (λ knowing w t. left_by way.entry (back (option_map word_view value) t))
            (found_view result) left.new self.new }
        ensures turns { self.new.turns ≡ self.old.turns }
        ensures stops { LeavesNear self.old.turns (found_view result) left.new self.new 0 }
    {
        self.leave(way);
        match value {
            Some(value) => Found::value(value),
            None => {
                if way.used {
                    let end = End::Trapped(Trap::NoValue, way.line);
                    waits(left, Err(Stop::Over(end)))
                } else {
                    Found::Signed(0)
                }
            }
        }
    }

    /// A function is left.
    #[inline(always)]
    fn leave(&mut self, way: Way<'p>)
        ensures left { self.new ≡ record self.old {
          store = end_to self.old.store way.entry.mark;
          scope = cut way.entry.height way.entry.count self.old.scope;
          first = way.entry.first;
          line = way.entry.line;
        } }
    {
        self.store.end_to(way.mark);
        self.scope.cut(way.height, way.count);
        self.first = way.first;
        self.line = way.line;
    }
}

/// The value of a `return` of an expression without calls.
#[inline(always)]
fn answer(
    store: &mut Store,
    scope: &Scope,
    line: Line,
    statement: &Statement,
) -> Result<Option<Word>, Stop>
    ensures { (knowing : Knowing) (w : World) (s : State) → Answers result store.old store.new
        (run knowing w (context line.0 (objects_of scope.now) false) (statement_view
        statement.now) (at s store.old))
        (at s store.new) }
{
    match statement {
        Statement::Return(value) => answer_of(store, scope, line, value),
        _ => Ok(None),
    }
}

/// The value of a `return` of this, where it holds no call.
#[inline(always)]
fn answer_of(
    store: &mut Store,
    scope: &Scope,
    line: Line,
    value: &Option<Expression>,
) -> Result<Option<Word>, Stop>
    ensures { (knowing : Knowing) (w : World) (s : State) → Answers result store.old store.new
        (returning knowing w (context line.0 (objects_of scope.now) false) (option_map
        expression_view value.now) (at s store.old))
        (at s store.new) }
{
    match value {
        None => Ok(None),
        Some(value) => answer_by(store, scope, line, value),
    }
}

/// The value of a `return` of this expression, unless it holds a call.
#[inline(always)]
fn answer_by(
    store: &mut Store,
    scope: &Scope,
    line: Line,
    value: &Expression,
) -> Result<Option<Word>, Stop>
    ensures { (knowing : Knowing) (w : World) (s : State) → Answers result store.old store.new
        (on_value (eval knowing w (context line.0 (objects_of scope.now) false) (expression_view
        value.now) (at s store.old)) (λ v t. returned false (Some v) t))
        (at s store.new) }
{
    match value {
        Expression::Plain(plain) => match compute(store, scope, line, plain) {
            Ok(value) => Ok(Some(value)),
            Err(stop) => Err(stop),
        },
        Expression::Full(_) => Ok(None),
    }
}

/// The expression that a `return` gives, if it holds a call.
#[inline(always)]
fn result_of(statement: &Statement) -> Option<&Full>
    ensures { IfSome result (λ full. statement_view statement.now
        ≡ return (Some (full_view full.now))) }
{
    match statement {
        Statement::Return(value) => match value {
            Some(expression) => full_of(expression),
            None => None,
        },
        _ => None,
    }
}

/// The value of a call. Nothing reads that of one without a value.
#[inline(always)]
fn value_of(value: Option<Word>) -> Word
    ensures { word_view result ≡ or_no_value (option_map word_view value) }
{
    match value {
        Some(value) => value,
        None => Word::Signed(0),
    }
}

/// The function of this number.
fn function_at<'p>(functions: &'p [Function], number: u32) -> Option<&'p Function>
    ensures { option_map function_view (option_copied result) ≡ slice_get (map function_view
        functions.now) number }
{
    functions.get(number as usize)
}
