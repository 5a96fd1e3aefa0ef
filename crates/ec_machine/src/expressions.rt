//! Expressions that hold calls.

ghost use Rattle.std.specs.Prelude.{◌≡◌, ◌≤◌, ◌+◌, ◌∷◌, ◌++◌, [], ℕ, List, map, true, false};
ghost use Rattle.ec_code.specs.declared.program.Function.{Function as FunctionData};
ghost use Rattle.ec_code.specs.Views.{expression_view, expressions_view, full_step_view, full_view, head_view, plain_view};
ghost use Rattle.ec_meaning_defs.specs.evaluation.Evaluate.{collect, eval};
ghost use Rattle.ec_meaning_defs.specs.evaluation.Results.{on, on_value, value as valued};
ghost use Rattle.ec_meaning_defs.specs.resolved.Operations.{is_true};
ghost use Rattle.ec_meaning_defs.specs.resolved.Resolved as of;
ghost use Rattle.ec_plain.specs.Steps.{both_on, followed, one_on, step_on, two_on};
ghost use Rattle.ec_values.specs.Words.{word_view};
ghost use Rattle.ec_machine.specs.Found.{Finds, FindsAlone, LeavesNear, found_view};
ghost use Rattle.ec_machine.specs.Frames.{behind_by, here, received, waiting};
ghost use Rattle.ec_machine.specs.Goes.{Goes, env_of, taken};
ghost use Rattle.ec_machine.specs.Quick.{Keeps, passing};
ghost use Rattle.ec_machine.specs.Weights.{expression_weight, expressions_weight, frames_weight, full_step_weight, full_weight, head_weight, remaining, steps_weight};

use crate::found::{Found, waits};
use crate::frame::{Callee, Focus, Frame};
use crate::machine::Machine;
use crate::making::stopped;
use crate::stop::Stop;
use ec_code::{Binary, Expression, Full, FullStep, Function, Head, Plain, Unary};
use ec_plain::{Ready, evaluate, evaluate_argument, finish, prepare, unary};
use ec_values::Word;

/// So many functions deep a `return` is evaluated by calls of the machine's own. Deeper calls of the program wait in frames,
/// so that it may go as deep as there is memory.
pub(crate) const LEVELS: u32 = 64;

impl<'p> Machine<'p> {
    /// An expression is evaluated.
    pub(crate) fn evaluate(
        &mut self,
        functions: &'p [Function],
        expression: &'p Expression,
    ) -> Result<Focus<'p>, Stop>
        ensures goes { Goes functions.now self.old (env_of self.old)
            (λ knowing w t. eval knowing w (here (env_of self.old) self.old.line) (expression_view
            expression.now) t) result self.new }
        ensures turns { self.new.turns ≤ self.old.turns }
        ensures nears { remaining self.old.turns result self.new ≤
            frames_weight self.old.frames + expression_weight expression.now }
    {
        match expression {
            Expression::Plain(plain) => self.plain(plain),
            Expression::Full(full) => self.full(functions, full),
        }
    }

    /// An expression without calls is evaluated.
    #[inline(never)]
    fn plain(&mut self, plain: &Plain) -> Result<Focus<'p>, Stop>
        ensures goes { (functions : List FunctionData) → Goes functions self.old (env_of self.old)
            (λ knowing w t. eval knowing w (here (env_of self.old) self.old.line) (plain_view
            plain.now) t) result self.new }
        ensures turns { self.new.turns ≤ self.old.turns }
        ensures nears { remaining self.old.turns result self.new ≤
            1 + frames_weight self.old.frames }
    {
        match evaluate(&mut self.store, self.scope.objects(), plain).get() {
            Ok(value) => Ok(Focus::Value(value)),
            Err(why) => Err(stopped(self.line, why)),
        }
    }

    /// An expression that holds a call is evaluated.
    fn full(&mut self, functions: &'p [Function], full: &'p Full) -> Result<Focus<'p>, Stop>
        ensures goes { Goes functions.now self.old (env_of self.old)
            (λ knowing w t. eval knowing w (here (env_of self.old) self.old.line) (full_view
            full.now) t) result self.new }
        ensures turns { self.new.turns ≤ self.old.turns }
        ensures nears { remaining self.old.turns result self.new ≤
            frames_weight self.old.frames + full_weight full.now }
    {
        let mut left = Err(Stop::OutOfMemory);
        match self.value_of(functions, LEVELS, full, &mut left).get() {
            Some(value) => Ok(Focus::Value(value)),
            None => left,
        }
    }

    /// The value of an expression that holds a call, where it is found on the spot.
    #[cycle(called)]
    #[inline(never)]
    pub(crate) fn value_of(
        &mut self,
        functions: &'p [Function],
        levels: u32,
        full: &'p Full,
        left: &mut Result<Focus<'p>, Stop>,
    ) -> Found
        ensures finds { Finds functions.now self.old (env_of self.old) self.old.line
            (λ knowing w o. o)
            (λ knowing w t. eval knowing w (here (env_of self.old) self.old.line) (full_view
            full.now) t) (found_view result) left.new self.new }
        ensures turns { self.new.turns ≤ self.old.turns }
        ensures nears { LeavesNear self.old.turns (found_view result) left.new self.new
            (frames_weight self.old.frames + full_weight full.now) }
    {
        let steps = full.steps.as_slice();
        match self.begun(functions, levels, &full.head, steps, left).get() {
            Some(value) => self.follow(functions, levels, steps, value, left),
            None => Found::Waits,
        }
    }

    /// Where an expression begins that holds a call. These steps are behind it.
    #[cycle(called)]
    #[inline(always)]
    fn begun(
        &mut self,
        functions: &'p [Function],
        levels: u32,
        head: &'p Head,
        steps: &'p [FullStep],
        left: &mut Result<Focus<'p>, Stop>,
    ) -> Found
        ensures finds { Finds functions.now self.old (env_of self.old) self.old.line
            (behind_by (here (env_of self.old) self.old.line) steps.now)
            (λ knowing w t. eval knowing w (here (env_of self.old) self.old.line) (head_view
            head.now) t) (found_view result) left.new self.new }
        ensures turns { self.new.turns ≤ self.old.turns }
        ensures nears { LeavesNear self.old.turns (found_view result) left.new self.new
            (frames_weight self.old.frames + head_weight head.now + steps_weight steps.now) }
    {
        match head {
            Head::Begun(plain) => self.at_first(plain, left),
            Head::Call(function, used, arguments) => {
                let callee = Callee::Function(*function, *used);
                self.pass(
                    functions,
                    levels,
                    callee,
                    0,
                    arguments.as_slice(),
                    steps,
                    left,
                )
            }
            Head::Known(known, arguments) => {
                let callee = Callee::Known(known);
                self.pass(
                    functions,
                    levels,
                    callee,
                    0,
                    arguments.as_slice(),
                    steps,
                    left,
                )
            }
            Head::LibraryCall(number, pointers) => {
                let callee = Callee::Library(*number);
                self.pass(
                    functions,
                    levels,
                    callee,
                    0,
                    pointers.as_slice(),
                    steps,
                    left,
                )
            }
            Head::Choice(test, first, second) => {
                self.choice(test.get(), first.get(), second.get(), steps, left)
            }
        }
    }

    /// An expression without calls is evaluated, where one begins that holds a call.
    #[inline(always)]
    fn at_first(&mut self, plain: &Plain, left: &mut Result<Focus<'p>, Stop>) -> Found
        ensures finds { FindsAlone self.old (λ knowing w t. eval knowing w (here (env_of self.old)
            self.old.line) (plain_view
            plain.now) t) (found_view result) left.new self.new }
        ensures turns { self.new.turns ≡ self.old.turns }
    {
        match evaluate(&mut self.store, self.scope.objects(), plain).get() {
            Ok(value) => Found::value(value),
            Err(why) => waits(left, Err(stopped(self.line, why))),
        }
    }

    /// `a ? b : c` is evaluated. Where an operand holds a call, frames wait for it. These steps are behind it.
    #[inline(never)]
    fn choice(
        &mut self,
        test: &'p Expression,
        first: &'p Expression,
        second: &'p Expression,
        steps: &'p [FullStep],
        left: &mut Result<Focus<'p>, Stop>,
    ) -> Found
        ensures finds { (functions : List FunctionData) → Finds functions self.old (env_of self.old)
            self.old.line (behind_by (here (env_of self.old) self.old.line) steps.now)
            (λ knowing w t. eval knowing w (here (env_of self.old) self.old.line) (of.choice
            (expression_view test.now) (expression_view first.now) (expression_view second.now)) t)
            (found_view result) left.new self.new }
        ensures turns { self.new.turns ≡ self.old.turns }
        ensures nears { LeavesNear self.old.turns (found_view result) left.new self.new
            (3 + frames_weight self.old.frames + expression_weight test.now + expression_weight
            first.now + expression_weight second.now + steps_weight steps.now) }
    {
        match test {
            Expression::Plain(plain) => match self.at_first(plain, left).get() {
                Some(value) => self.operand(chosen(value, first, second), steps, left),
                None => Found::Waits,
            },
            Expression::Full(_) => waits(left, self.ask_first(test, first, second, steps)),
        }
    }

    /// An operand of `?:` is evaluated. Where it holds a call, a frame waits for it. These steps are behind it.
    fn operand(
        &mut self,
        operand: &'p Expression,
        steps: &'p [FullStep],
        left: &mut Result<Focus<'p>, Stop>,
    ) -> Found
        ensures finds { (functions : List FunctionData) → Finds functions self.old (env_of self.old)
            self.old.line (behind_by (here (env_of self.old) self.old.line) steps.now)
            (λ knowing w t. eval knowing w (here (env_of self.old) self.old.line) (expression_view
            operand.now) t) (found_view result) left.new self.new }
        ensures turns { self.new.turns ≡ self.old.turns }
        ensures nears { LeavesNear self.old.turns (found_view result) left.new self.new
            (1 + frames_weight self.old.frames + expression_weight operand.now + steps_weight
            steps.now) }
    {
        match operand {
            Expression::Plain(plain) => self.at_first(plain, left),
            Expression::Full(_) => waits(left, self.wait_for(operand, steps)),
        }
    }

    /// An expression is evaluated, and these steps wait for it.
    fn wait_for(
        &mut self,
        expression: &'p Expression,
        steps: &'p [FullStep],
    ) -> Result<Focus<'p>, Stop>
        ensures goes { (functions : List FunctionData) → Goes functions self.old (env_of self.old)
            (λ knowing w t. behind_by (here (env_of self.old) self.old.line) steps.now knowing w
            (eval knowing w (here (env_of self.old) self.old.line) (expression_view expression.now)
            t)) result self.new }
        ensures turns { self.new.turns ≡ self.old.turns }
        ensures nears { remaining self.old.turns result self.new ≤
            1 + frames_weight self.old.frames + expression_weight expression.now + steps_weight
            steps.now }
    {
        self.frames.push(Frame::Steps(self.line, steps))?;
        Ok(Focus::Evaluates(expression))
    }

    /// The first operand of `?:` is evaluated, and the others wait for it, and these steps behind them.
    fn ask_first(
        &mut self,
        test: &'p Expression,
        first: &'p Expression,
        second: &'p Expression,
        steps: &'p [FullStep],
    ) -> Result<Focus<'p>, Stop>
        ensures goes { (functions : List FunctionData) → Goes functions self.old (env_of self.old)
            (λ knowing w t. behind_by (here (env_of self.old) self.old.line) steps.now knowing w
            (eval knowing w (here (env_of self.old) self.old.line) (of.choice
            (expression_view test.now) (expression_view first.now) (expression_view second.now))
            t)) result self.new }
        ensures turns { self.new.turns ≡ self.old.turns }
        ensures nears { remaining self.old.turns result self.new ≤
            2 + frames_weight self.old.frames + expression_weight test.now + expression_weight
            first.now + expression_weight second.now + steps_weight steps.now }
    {
        self.frames.push(Frame::Steps(self.line, steps))?;
        self.frames.push(Frame::Choice(self.line, first, second))?;
        Ok(Focus::Evaluates(test))
    }

    /// All values of an object are stored that is initialized.
    pub(crate) fn pass_all(
        &mut self,
        functions: &'p [Function],
        values: &'p [Expression],
    ) -> Result<Focus<'p>, Stop>
        ensures goes { Goes functions.now self.old (env_of self.old)
            (λ knowing w t. collect knowing w (here (env_of self.old) self.old.line) []
            (expressions_view
            values.now) t (λ vs u. on u)) result self.new }
        ensures turns { self.new.turns ≤ self.old.turns }
        ensures nears { remaining self.old.turns result self.new ≤
            3 + frames_weight self.old.frames + expressions_weight values.now }
    {
        let mut left = Err(Stop::OutOfMemory);
        match self
            .pass(functions, LEVELS, Callee::Object, 0, values, &[], &mut left)
            .get()
        {
            Some(value) => Ok(Focus::Value(value)),
            None => left,
        }
    }

    /// The further arguments of a call are evaluated, behind the last values that wait, of which so many are its own.
    #[cycle(called)]
    #[inline(never)]
    fn pass(
        &mut self,
        functions: &'p [Function],
        levels: u32,
        callee: Callee<'p>,
        count: usize,
        arguments: &'p [Expression],
        steps: &'p [FullStep],
        left: &mut Result<Focus<'p>, Stop>,
    ) -> Found
        ensures finds { Finds functions.now self.old (taken count (env_of self.old)) self.old.line
            (behind_by (here (env_of self.old) self.old.line) steps.now)
            (passing callee.entry arguments.now count self.old)
            (found_view result) left.new self.new }
        ensures turns { self.new.turns ≤ self.old.turns }
        ensures nears { LeavesNear self.old.turns (found_view result) left.new self.new
            (2 + frames_weight self.old.frames + expressions_weight arguments.now + steps_weight
            steps.now) }
    {
        let mut count = count;
        let mut further = arguments;
        while let [first, rest @ ..] = further {
            match first {
                Expression::Plain(plain) => match self.keep(count, plain) {
                    Ok(more) => {
                        count = more;
                        further = rest;
                    }
                    Err(stop) => return waits(left, Err(stop)),
                },
                Expression::Full(_) => {
                    return waits(left, self.call_for(callee, count, first, rest, steps));
                }
            }
        }
        self.receive(functions, levels, callee, count, steps, left)
    }

    /// An argument is evaluated, and these further ones wait for it.
    fn call_for(
        &mut self,
        callee: Callee<'p>,
        count: usize,
        first: &'p Expression,
        rest: &'p [Expression],
        steps: &'p [FullStep],
    ) -> Result<Focus<'p>, Stop>
        ensures goes { (functions : List FunctionData) → Goes functions self.old (taken count
            (env_of self.old))
            (λ knowing w t. followed knowing w (here (env_of self.old) self.old.line) (map
            full_step_view steps.now)
            (on_value (eval knowing w (here (env_of self.old) self.old.line) (expression_view
            first.now) t) (λ v u. collect knowing w (here (env_of self.old) self.old.line) (waiting
            count (env_of self.old) ++ v ∷ []) (expressions_view rest.now) u
            (received knowing w (here (env_of self.old) self.old.line) callee.entry)))) result
            self.new }
        ensures turns { self.new.turns ≤ self.old.turns }
        ensures nears { remaining self.old.turns result self.new ≤
            3 + frames_weight self.old.frames + expression_weight first.now + expressions_weight
            rest.now + steps_weight steps.now }
    {
        self.frames
            .push(Frame::Arguments(self.line, callee, count, rest, steps))?;
        Ok(Focus::Evaluates(first))
    }

    /// The value of an argument without calls waits with the others, which are then so many.
    #[inline(always)]
    fn keep(&mut self, count: usize, argument: &Plain) -> Result<usize, Stop>
        ensures keeps { Keeps argument.now count self.old result self.new }
        ensures turns { self.new.turns ≡ self.old.turns }
        ensures frames { self.new.frames ≡ self.old.frames }
        ensures line { self.new.line ≡ self.old.line }
    {
        let Some(more) = count.checked_add(1) else {
            // Out of reach, which isn't proved: so many values wait in a list, which has fewer than 2^63.
            return Err(Stop::OutOfMemory);
        };
        match evaluate_argument(&mut self.store, self.scope.objects(), argument).get() {
            Ok(value) => {
                self.values.push(value)?;
                Ok(more)
            }
            Err(why) => Err(stopped(self.line, why)),
        }
    }

    /// An argument has this value, and the further ones are evaluated.
    pub(crate) fn pass_on(
        &mut self,
        functions: &'p [Function],
        callee: Callee<'p>,
        count: usize,
        value: Word,
        arguments: &'p [Expression],
        steps: &'p [FullStep],
    ) -> Result<Focus<'p>, Stop>
        ensures goes { Goes functions.now self.old (taken count (env_of self.old))
            (λ knowing w t. behind_by (here (env_of self.old) self.old.line) steps.now knowing w
            (collect knowing w (here (env_of self.old) self.old.line) (waiting count (env_of
            self.old) ++ word_view value ∷ []) (expressions_view arguments.now) t
            (received knowing w (here (env_of self.old) self.old.line) callee.entry))) result
            self.new }
        ensures turns { self.new.turns ≤ self.old.turns }
        ensures nears { remaining self.old.turns result self.new ≤
            2 + frames_weight self.old.frames + expressions_weight arguments.now + steps_weight
            steps.now }
    {
        let Some(more) = count.checked_add(1) else {
            // Out of reach, which isn't proved: so many values wait in a list, which has fewer than 2^63.
            return Err(Stop::OutOfMemory);
        };
        self.values.push(value)?;
        let mut left = Err(Stop::OutOfMemory);
        match self
            .pass(functions, LEVELS, callee, more, arguments, steps, &mut left)
            .get()
        {
            Some(value) => self.go_on(functions, steps, value),
            None => left,
        }
    }

    /// The steps behind a value are taken.
    pub(crate) fn go_on(
        &mut self,
        functions: &'p [Function],
        steps: &'p [FullStep],
        value: Word,
    ) -> Result<Focus<'p>, Stop>
        ensures goes { Goes functions.now self.old (env_of self.old)
            (λ knowing w t. behind_by (here (env_of self.old) self.old.line) steps.now knowing w
            (valued (word_view value) t)) result self.new }
        ensures turns { self.new.turns ≤ self.old.turns }
        ensures nears { remaining self.old.turns result self.new ≤
            frames_weight self.old.frames + steps_weight steps.now }
    {
        let mut left = Err(Stop::OutOfMemory);
        match self
            .follow(functions, LEVELS, steps, value, &mut left)
            .get()
        {
            Some(value) => Ok(Focus::Value(value)),
            None => left,
        }
    }

    /// What the steps behind a value make of it, where that is found on the spot.
    #[cycle(called)]
    #[inline(never)]
    fn follow(
        &mut self,
        functions: &'p [Function],
        levels: u32,
        steps: &'p [FullStep],
        value: Word,
        left: &mut Result<Focus<'p>, Stop>,
    ) -> Found
        ensures finds { Finds functions.now self.old (env_of self.old) self.old.line
            (λ knowing w o. o)
            (λ knowing w t. behind_by (here (env_of self.old) self.old.line) steps.now knowing w
            (valued (word_view value) t)) (found_view result) left.new self.new }
        ensures turns { self.new.turns ≤ self.old.turns }
        ensures nears { LeavesNear self.old.turns (found_view result) left.new self.new
            (frames_weight self.old.frames + steps_weight steps.now) }
    {
        let mut value = value;
        let mut further = steps;
        while let [first, rest @ ..] = further {
            match self
                .follow_first(functions, levels, first, rest, value, left)
                .get()
            {
                Some(next) => {
                    value = next;
                    further = rest;
                }
                None => return Found::Waits,
            }
        }
        Found::value(value)
    }

    /// A step behind a value is taken, and others are behind it.
    #[cycle(called)]
    #[inline(always)]
    fn follow_first(
        &mut self,
        functions: &'p [Function],
        levels: u32,
        first: &'p FullStep,
        rest: &'p [FullStep],
        value: Word,
        left: &mut Result<Focus<'p>, Stop>,
    ) -> Found
        ensures finds { Finds functions.now self.old (env_of self.old) self.old.line
            (behind_by (here (env_of self.old) self.old.line) rest.now)
            (λ knowing w t. step_on knowing w (here (env_of self.old) self.old.line)
            (full_step_view first.now) (word_view value) t)
            (found_view result) left.new self.new }
        ensures turns { self.new.turns ≤ self.old.turns }
        ensures nears { LeavesNear self.old.turns (found_view result) left.new self.new
            (1 + frames_weight self.old.frames + full_step_weight first.now + steps_weight
            rest.now) }
    {
        match first {
            FullStep::One(step) => self.follow_one(step, value, left),
            FullStep::Two(step, right) => {
                self.follow_two(functions, levels, step, right, rest, value, left)
            }
        }
    }

    /// A step that takes the value alone.
    #[inline(never)]
    fn follow_one(&mut self, step: &Unary, value: Word, left: &mut Result<Focus<'p>, Stop>) -> Found
        ensures finds { FindsAlone self.old
            (λ knowing w t. one_on self.old.line.0 step.now (word_view value) t)
            (found_view result) left.new self.new }
        ensures turns { self.new.turns ≡ self.old.turns }
    {
        match unary(&mut self.store, step, value).get() {
            Ok(next) => Found::value(next),
            Err(why) => waits(left, Err(stopped(self.line, why))),
        }
    }

    /// A step with another expression, and others are behind it.
    #[cycle(called)]
    #[inline(always)]
    fn follow_two(
        &mut self,
        functions: &'p [Function],
        levels: u32,
        step: &'p Binary,
        right: &'p Expression,
        rest: &'p [FullStep],
        value: Word,
        left: &mut Result<Focus<'p>, Stop>,
    ) -> Found
        ensures finds { Finds functions.now self.old (env_of self.old) self.old.line
            (behind_by (here (env_of self.old) self.old.line) rest.now)
            (λ knowing w t. two_on knowing w (here (env_of self.old) self.old.line) step.now
            (expression_view right.now) (word_view value) t)
            (found_view result) left.new self.new }
        ensures turns { self.new.turns ≤ self.old.turns }
        ensures nears { LeavesNear self.old.turns (found_view result) left.new self.new
            (2 + frames_weight self.old.frames + expression_weight right.now + steps_weight
            rest.now) }
    {
        match prepare(&self.store, *step, value) {
            Ok(Ready::Done(done)) => Found::value(done),
            Ok(Ready::Waits(old)) => match self
                .right(functions, levels, step, value, old, right, rest, left)
                .get()
            {
                Some(found) => self.follow_right(step, value, old, found, left),
                None => Found::Waits,
            },
            Err(why) => waits(left, Err(stopped(self.line, why))),
        }
    }

    /// The value at the right of a step.
    #[cycle(called)]
    #[inline(always)]
    fn right(
        &mut self,
        functions: &'p [Function],
        levels: u32,
        step: &'p Binary,
        value: Word,
        old: Word,
        right: &'p Expression,
        rest: &'p [FullStep],
        left: &mut Result<Focus<'p>, Stop>,
    ) -> Found
        ensures finds { Finds functions.now self.old (env_of self.old) self.old.line
            (λ knowing w o. behind_by (here (env_of self.old) self.old.line) rest.now knowing w
            (on_value o (both_on self.old.line.0 step.now (word_view value) (word_view old))))
            (λ knowing w t. eval knowing w (here (env_of self.old) self.old.line) (expression_view
            right.now) t) (found_view result) left.new self.new }
        ensures turns { self.new.turns ≤ self.old.turns }
        ensures nears { LeavesNear self.old.turns (found_view result) left.new self.new
            (2 + frames_weight self.old.frames + expression_weight right.now + steps_weight
            rest.now) }
    {
        match right {
            Expression::Plain(plain) => self.at_first(plain, left),
            Expression::Full(full) => {
                let height = self.frames.len();
                match self
                    .frames
                    .push(Frame::Right(self.line, step, value, old, rest))
                {
                    Ok(()) => (),
                    Err(_) => return waits(left, Err(Stop::OutOfMemory)),
                }
                match full.steps.as_slice() {
                    [] => match self.begun(functions, levels, &full.head, &[], left).get() {
                        Some(found) => {
                            self.frames.truncate(height);
                            Found::value(found)
                        }
                        None => Found::Waits,
                    },
                    _ => waits(left, Ok(Focus::Evaluates(right))),
                }
            }
        }
    }

    /// A step with another expression has the value of that, and is done.
    #[inline(always)]
    fn follow_right(
        &mut self,
        step: &'p Binary,
        value: Word,
        old: Word,
        right: Word,
        left: &mut Result<Focus<'p>, Stop>,
    ) -> Found
        ensures finds { FindsAlone self.old
            (λ knowing w t. both_on self.old.line.0 step.now (word_view value) (word_view old)
            (word_view right) t) (found_view result) left.new self.new }
        ensures turns { self.new.turns ≡ self.old.turns }
    {
        match finish(&mut self.store, step, value, old, right).get() {
            Ok(next) => Found::value(next),
            Err(why) => waits(left, Err(stopped(self.line, why))),
        }
    }

    /// A step that waited for the value at its right is done, and those behind it are taken.
    pub(crate) fn go_right(
        &mut self,
        functions: &'p [Function],
        step: &'p Binary,
        value: Word,
        old: Word,
        right: Word,
        rest: &'p [FullStep],
    ) -> Result<Focus<'p>, Stop>
        ensures goes { Goes functions.now self.old (env_of self.old)
            (λ knowing w t. behind_by (here (env_of self.old) self.old.line) rest.now knowing w
            (both_on self.old.line.0 step.now (word_view value) (word_view old) (word_view right)
            t))
            result self.new }
        ensures turns { self.new.turns ≤ self.old.turns }
        ensures nears { remaining self.old.turns result self.new ≤
            frames_weight self.old.frames + steps_weight rest.now }
    {
        match finish(&mut self.store, step, value, old, right).get() {
            Ok(next) => self.go_on(functions, rest, next),
            Err(why) => Err(stopped(self.line, why)),
        }
    }
}

/// The operand of `?:` that a value chooses (ISO/IEC 9899:1999, 6.5.15).
#[inline(always)]
pub(crate) fn chosen<'p>(
    value: Word,
    first: &'p Expression,
    second: &'p Expression,
) -> &'p Expression
    ensures { result.now ≡ elim (is_true (word_view value)) [
      | true ↦ first.now
      | false ↦ second.now
    ] }
{
    if value.is_true() { first } else { second }
}
