//! Statements, run from their start or from a label.

ghost use Rattle.std.specs.Prelude.{◌≡◌, ◌≤◌, ◌+◌, ℕ, List, map, IfOk};
ghost use Rattle.std.specs.Option.{option_map};
ghost use Rattle.ec_code.specs.declared.program.Function.{Function as FunctionData};
ghost use Rattle.ec_code.specs.Marks.{mark_view};
ghost use Rattle.ec_code.specs.Views.{expression_view, expressions_view, full_view, loop_view, plain_view, size_view, statement_view, statements_view};
ghost use Rattle.ec_meaning_defs.specs.evaluation.Evaluate.{eval};
ghost use Rattle.ec_meaning_defs.specs.evaluation.Execute.{declared, enter, initialized, look, look_all, returning, run, run_all};
ghost use Rattle.ec_meaning_defs.specs.evaluation.Results.{on, on_value, returned, turn, went};
ghost use Rattle.ec_values.specs.Words.{word_view};
ghost use Rattle.ec_machine.specs.Found.{Does, DoesNear};
ghost use Rattle.ec_machine.specs.Frames.{evaluated_for, here};
ghost use Rattle.ec_machine.specs.Goes.{EndsWith, Goes, Returns, env_of};
ghost use Rattle.ec_machine.specs.declared.frame.Frame.TheVariants as frame;
ghost use Rattle.ec_machine.specs.declared.machine.Machine.{Machine as MachineData};
ghost use Rattle.ec_machine.specs.Weights.{expression_weight, expressions_weight, frames_weight, full_weight, remaining, optional_weight, statement_weight, statements_weight, test_weight};

use crate::expressions::LEVELS;
use crate::frame::{Flow, Focus, Frame};
use crate::labels::holds;
use crate::machine::Machine;
use crate::making::{place, stopped, take_turn};
use crate::quick::{Done, quick};
use crate::stop::{End, Stop};
use ec_code::{Expression, Full, Function, Loop, Mark, ObjectSize, Plain, Statement};
use ec_plain::evaluate;
use ec_values::Word;

impl<'p> Machine<'p> {
    /// A statement is run from its start.
    pub(crate) fn run(
        &mut self,
        functions: &'p [Function],
        statement: &'p Statement,
    ) -> Result<Focus<'p>, Stop>
        ensures goes { Goes functions.now self.old (env_of self.old)
            (λ knowing w t. run knowing w (here (env_of self.old) self.old.line) (statement_view
            statement.now) t) result self.new }
        ensures turns { self.new.turns ≤ self.old.turns }
        ensures nears { remaining self.old.turns result self.new ≤
            frames_weight self.old.frames + statement_weight statement.now }
    {
        match statement {
            Statement::OnLine(line, inner) => {
                self.line = *line;
                self.on_line(functions, inner.get())
            }
            Statement::Nothing => Ok(Focus::Leads(Flow::On)),
            Statement::Evaluate(expression) => self.effect(functions, expression),
            Statement::Declare(slot, size) => self.declare(*slot, *size),
            Statement::Initialize(slot, size, values) => {
                self.initialize(functions, *slot, *size, values.as_slice())
            }
            Statement::Block(sizes, body) => {
                self.run_block(functions, sizes.as_slice(), body.as_slice())
            }
            Statement::Choose(test, first, second) => {
                self.branch(test, first.get(), second.get())
            }
            Statement::Loop(inner) => self.run_loop(functions, inner.get()),
            Statement::Leave => Ok(Focus::Leads(Flow::Broke)),
            Statement::Next => Ok(Focus::Leads(Flow::Continued)),
            Statement::Return(value) => self.run_return(functions, value),
            Statement::Goto(label) => self.jump(*label),
            Statement::Label(_, inner) => Ok(Focus::Runs(inner.get())),
            Statement::Switch(operand, body) => self.switch(operand, body.get()),
            Statement::Embedded(_) => Err(Stop::Over(End::Stuck)),
        }
    }

    /// A statement on a line is begun. What of it needs no frame is done here.
    fn on_line(
        &mut self,
        functions: &'p [Function],
        statement: &'p Statement,
    ) -> Result<Focus<'p>, Stop>
        ensures goes { Goes functions.now self.old (env_of self.old)
            (λ knowing w t. run knowing w (here (env_of self.old) self.old.line)
            (statement_view statement.now) t) result self.new }
        ensures turns { self.new.turns ≤ self.old.turns }
        ensures nears { remaining self.old.turns result self.new ≤
            1 + frames_weight self.old.frames + statement_weight statement.now }
    {
        match quick(&mut self.store, &self.scope, &mut self.line, statement) {
            Ok(None) => Ok(Focus::Leads(Flow::On)),
            Ok(Some(left)) => self.left(functions, left),
            Err(stop) => Err(stop),
        }
    }

    /// What is left of a statement is begun.
    pub(crate) fn left(
        &mut self,
        functions: &'p [Function],
        statement: &'p Statement,
    ) -> Result<Focus<'p>, Stop>
        ensures goes { Goes functions.now self.old (env_of self.old)
            (λ knowing w t. run knowing w (here (env_of self.old) self.old.line)
            (statement_view statement.now) t) result self.new }
        ensures turns { self.new.turns ≤ self.old.turns }
        ensures nears { remaining self.old.turns result self.new ≤
            1 + frames_weight self.old.frames + statement_weight statement.now }
    {
        match statement {
            Statement::Evaluate(expression) => self.effect(functions, expression),
            Statement::Loop(inner) => self.run_loop(functions, inner.get()),
            Statement::Return(value) => self.run_return(functions, value),
            _ => Ok(Focus::Runs(statement)),
        }
    }

    /// An expression as a statement.
    fn effect(
        &mut self,
        functions: &'p [Function],
        expression: &'p Expression,
    ) -> Result<Focus<'p>, Stop>
        ensures goes { Goes functions.now self.old (env_of self.old)
            (evaluated_for (env_of self.old) self.old.line (expression_view expression.now)
            frame.Do) result self.new }
        ensures turns { self.new.turns ≤ self.old.turns }
        ensures nears { remaining self.old.turns result self.new ≤
            2 + frames_weight self.old.frames + expression_weight expression.now }
    {
        match expression {
            Expression::Plain(plain) => self.effect_at_once(plain),
            Expression::Full(full) => self.effect_of(functions, full),
        }
    }

    /// An expression that holds a call as a statement.
    #[inline(always)]
    fn effect_of(&mut self, functions: &'p [Function], full: &'p Full) -> Result<Focus<'p>, Stop>
        ensures goes { Goes functions.now self.old (env_of self.old)
            (evaluated_for (env_of self.old) self.old.line (full_view full.now)
            frame.Do) result self.new }
        ensures turns { self.new.turns ≤ self.old.turns }
        ensures nears { remaining self.old.turns result self.new ≤
            2 + frames_weight self.old.frames + full_weight full.now }
    {
        let mut left = Err(Stop::OutOfMemory);
        match self.does(functions, full, &mut left) {
            Ok(Done::All) => Ok(Focus::Leads(Flow::On)),
            Ok(Done::Nothing) => left,
            Err(stop) => Err(stop),
        }
    }

    /// An expression that holds a call is evaluated, and its value isn't used. Where it isn't found on the spot, a frame
    /// waits.
    #[inline(always)]
    pub(crate) fn does(
        &mut self,
        functions: &'p [Function],
        full: &'p Full,
        left: &mut Result<Focus<'p>, Stop>,
    ) -> Result<Done, Stop>
        ensures does { Does functions.now self.old
            (λ knowing w t. eval knowing w (here (env_of self.old) self.old.line) (full_view
            full.now) t)
            (λ knowing w o. on_value o (λ v u. on u)) result left.new self.new }
        ensures turns { self.new.turns ≤ self.old.turns }
        ensures nears { IfOk result (λ done. DoesNear self.old.turns done left.new self.new (1 +
            frames_weight self.old.frames + full_weight full.now)) }
    {
        let height = self.frames.len();
        self.frames.push(Frame::Do)?;
        match self.value_of(functions, LEVELS, full, left).get() {
            Some(_) => {
                self.frames.truncate(height);
                Ok(Done::All)
            }
            None => Ok(Done::Nothing),
        }
    }

    /// An expression without calls as a statement.
    fn effect_at_once(&mut self, plain: &Plain) -> Result<Focus<'p>, Stop>
        ensures goes { (functions : List FunctionData) → Goes functions self.old (env_of self.old)
            (evaluated_for (env_of self.old) self.old.line (plain_view plain.now)
            frame.Do) result self.new }
        ensures turns { self.new.turns ≤ self.old.turns }
        ensures nears { remaining self.old.turns result self.new ≤
            1 + frames_weight self.old.frames }
    {
        match evaluate(&mut self.store, self.scope.objects(), plain).get() {
            Ok(_) => Ok(Focus::Leads(Flow::On)),
            Err(why) => Err(stopped(self.line, why)),
        }
    }

    /// The statement that an expression chooses is run.
    #[inline(never)]
    fn branch(
        &mut self,
        test: &'p Expression,
        first: &'p Statement,
        second: &'p Statement,
    ) -> Result<Focus<'p>, Stop>
        ensures goes { (functions : List FunctionData) → Goes functions self.old (env_of self.old)
            (evaluated_for (env_of self.old) self.old.line (expression_view test.now)
            (frame.Choose self.old.line first.entry second.entry)) result self.new }
        ensures turns { self.new.turns ≤ self.old.turns }
        ensures nears { remaining self.old.turns result self.new ≤
            2 + frames_weight self.old.frames + expression_weight test.now +
            statement_weight first.now + statement_weight second.now }
    {
        match test {
            Expression::Plain(plain) => self.branch_at_once(plain, first, second),
            Expression::Full(_) => {
                self.frames.push(Frame::Choose(self.line, first, second))?;
                Ok(Focus::Evaluates(test))
            }
        }
    }

    /// The statement that an expression without calls chooses is run.
    fn branch_at_once(
        &mut self,
        test: &Plain,
        first: &'p Statement,
        second: &'p Statement,
    ) -> Result<Focus<'p>, Stop>
        ensures goes { (functions : List FunctionData) → Goes functions self.old (env_of self.old)
            (evaluated_for (env_of self.old) self.old.line (plain_view test.now)
            (frame.Choose self.old.line first.entry second.entry)) result self.new }
        ensures turns { self.new.turns ≤ self.old.turns }
        ensures nears { remaining self.old.turns result self.new ≤
            1 + frames_weight self.old.frames + statement_weight first.now +
            statement_weight second.now }
    {
        match evaluate(&mut self.store, self.scope.objects(), test).get() {
            Ok(value) => self.choose(first, second, value),
            Err(why) => Err(stopped(self.line, why)),
        }
    }

    /// A `switch` is reached.
    #[inline(never)]
    fn switch(&mut self, operand: &'p Expression, body: &'p Statement) -> Result<Focus<'p>, Stop>
        ensures goes { (functions : List FunctionData) → Goes functions self.old (env_of self.old)
            (evaluated_for (env_of self.old) self.old.line (expression_view operand.now)
            (frame.Select self.old.line body.entry)) result self.new }
        ensures turns { self.new.turns ≤ self.old.turns }
        ensures nears { remaining self.old.turns result self.new ≤
            3 + frames_weight self.old.frames + expression_weight operand.now +
            statement_weight body.now }
    {
        match operand {
            Expression::Plain(plain) => self.switch_at_once(plain, body),
            Expression::Full(_) => {
                self.frames.push(Frame::Select(self.line, body))?;
                Ok(Focus::Evaluates(operand))
            }
        }
    }

    /// A `switch` is reached whose operand has no calls.
    fn switch_at_once(&mut self, operand: &Plain, body: &'p Statement) -> Result<Focus<'p>, Stop>
        ensures goes { (functions : List FunctionData) → Goes functions self.old (env_of self.old)
            (evaluated_for (env_of self.old) self.old.line (plain_view operand.now)
            (frame.Select self.old.line body.entry)) result self.new }
        ensures turns { self.new.turns ≤ self.old.turns }
        ensures nears { remaining self.old.turns result self.new ≤
            2 + frames_weight self.old.frames + statement_weight body.now }
    {
        match evaluate(&mut self.store, self.scope.objects(), operand).get() {
            Ok(value) => self.select(body, value),
            Err(why) => Err(stopped(self.line, why)),
        }
    }

    /// `return` of an expression.
    fn give(&mut self, functions: &'p [Function], value: &'p Expression) -> Result<Focus<'p>, Stop>
        ensures goes { Goes functions.now self.old (env_of self.old)
            (evaluated_for (env_of self.old) self.old.line (expression_view value.now)
            frame.Give) result self.new }
        ensures turns { self.new.turns ≤ self.old.turns }
        ensures nears { remaining self.old.turns result self.new ≤
            2 + frames_weight self.old.frames + expression_weight value.now }
    {
        match value {
            Expression::Plain(plain) => self.give_at_once(plain),
            Expression::Full(full) => self.give_full(functions, full),
        }
    }

    /// `return` of an expression that holds a call.
    fn give_full(&mut self, functions: &'p [Function], full: &'p Full) -> Result<Focus<'p>, Stop>
        ensures goes { Goes functions.now self.old (env_of self.old)
            (evaluated_for (env_of self.old) self.old.line (full_view full.now)
            frame.Give) result self.new }
        ensures turns { self.new.turns ≤ self.old.turns }
        ensures nears { remaining self.old.turns result self.new ≤
            2 + frames_weight self.old.frames + full_weight full.now }
    {
        let height = self.frames.len();
        self.frames.push(Frame::Give)?;
        let mut left = Err(Stop::OutOfMemory);
        match self.value_of(functions, LEVELS, full, &mut left).get() {
            Some(value) => {
                self.frames.truncate(height);
                gives(self.first, Some(value))
            }
            None => left,
        }
    }

    /// `return` of an expression without calls.
    fn give_at_once(&mut self, value: &Plain) -> Result<Focus<'p>, Stop>
        ensures goes { (functions : List FunctionData) → Goes functions self.old (env_of self.old)
            (evaluated_for (env_of self.old) self.old.line (plain_view value.now)
            frame.Give) result self.new }
        ensures turns { self.new.turns ≤ self.old.turns }
        ensures nears { remaining self.old.turns result self.new ≤
            1 + frames_weight self.old.frames }
    {
        match evaluate(&mut self.store, self.scope.objects(), value).get() {
            Ok(found) => gives(self.first, Some(found)),
            Err(why) => Err(stopped(self.line, why)),
        }
    }

    /// A statement that holds a label or a case is run from there.
    #[inline(never)]
    pub(crate) fn look(&mut self, label: Mark, statement: &'p Statement) -> Result<Focus<'p>, Stop>
        ensures goes { (functions : List FunctionData) → Goes functions self.old (env_of self.old)
            (λ knowing w t. look knowing w (mark_view label) (here (env_of self.old) self.old.line)
            (statement_view statement.now) t) result self.new }
        ensures turns { self.new.turns ≤ self.old.turns }
        ensures nears { remaining self.old.turns result self.new ≤
            frames_weight self.old.frames + statement_weight statement.now }
    {
        match statement {
            Statement::OnLine(line, inner) => {
                self.line = *line;
                Ok(Focus::Looks(label, inner.get()))
            }
            Statement::Block(sizes, body) => {
                self.look_block(label, sizes.as_slice(), body.as_slice())
            }
            Statement::Choose(_, first, second) => {
                let first = first.get();
                if holds(label, first) {
                    Ok(Focus::Looks(label, first))
                } else {
                    Ok(Focus::Looks(label, second.get()))
                }
            }
            Statement::Loop(inner) => {
                let inner = inner.get();
                self.frames.push(Frame::Body(self.line, inner))?;
                Ok(Focus::Looks(label, &inner.body))
            }
            Statement::Switch(_, body) => {
                self.frames.push(Frame::Switch)?;
                Ok(Focus::Looks(label, body.get()))
            }
            Statement::Label(mark, inner) => {
                if mark.is_same(label) {
                    Ok(Focus::Runs(inner.get()))
                } else {
                    Ok(Focus::Looks(label, inner.get()))
                }
            }
            Statement::Nothing => Ok(Focus::Leads(Flow::On)),
            Statement::Evaluate(_) => Ok(Focus::Leads(Flow::On)),
            Statement::Declare(_, _) => Ok(Focus::Leads(Flow::On)),
            Statement::Initialize(_, _, _) => Ok(Focus::Leads(Flow::On)),
            Statement::Leave => Ok(Focus::Leads(Flow::On)),
            Statement::Next => Ok(Focus::Leads(Flow::On)),
            Statement::Return(_) => Ok(Focus::Leads(Flow::On)),
            Statement::Goto(_) => Ok(Focus::Leads(Flow::On)),
            Statement::Embedded(_) => Ok(Focus::Leads(Flow::On)),
        }
    }

    /// A block is run.
    #[inline(never)]
    fn run_block(
        &mut self,
        functions: &'p [Function],
        sizes: &'p [ObjectSize],
        body: &'p [Statement],
    ) -> Result<Focus<'p>, Stop>
        ensures goes { Goes functions.now self.old (env_of self.old)
            (λ knowing w t. enter w (here (env_of self.old) self.old.line) (map size_view sizes.now)
            (statements_view body.now) (λ d u. run_all knowing w d (statements_view
            body.now) u) t) result self.new }
        ensures turns { self.new.turns ≤ self.old.turns }
        ensures nears { remaining self.old.turns result self.new ≤
            3 + frames_weight self.old.frames + statements_weight body.now }
    {
        match sizes {
            [] => self.run_bare_block(body),
            _ => match self.enter(sizes, body) {
                Ok(()) => self.list(functions, body),
                Err(stop) => Err(stop),
            },
        }
    }

    /// A block that holds a label or a case is run from there.
    fn look_block(
        &mut self,
        label: Mark,
        sizes: &'p [ObjectSize],
        body: &'p [Statement],
    ) -> Result<Focus<'p>, Stop>
        ensures goes { (functions : List FunctionData) → Goes functions self.old (env_of self.old)
            (λ knowing w t. enter w (here (env_of self.old) self.old.line) (map size_view sizes.now)
            (statements_view body.now) (λ d u. look_all knowing w (mark_view label) d (statements_view
            body.now) u) t) result self.new }
        ensures turns { self.new.turns ≤ self.old.turns }
        ensures nears { remaining self.old.turns result self.new ≤
            3 + frames_weight self.old.frames + statements_weight body.now }
    {
        match self.enter(sizes, body) {
            Ok(()) => self.look_list(label, body),
            Err(stop) => Err(stop),
        }
    }

    /// A loop is reached. Its first body is tested for, or costs a turn at once.
    fn run_loop(&mut self, functions: &'p [Function], inner: &'p Loop) -> Result<Focus<'p>, Stop>
        ensures goes { Goes functions.now self.old (env_of self.old)
            (λ knowing w t. run knowing w (here (env_of self.old) self.old.line) (loop_view
            inner.now) t) result self.new }
        ensures turns { self.new.turns ≤ self.old.turns }
        ensures nears { remaining self.old.turns result self.new ≤
            1 + frames_weight self.old.frames + test_weight inner.now }
    {
        if inner.tested {
            self.test(functions, inner)
        } else {
            self.turn(functions, inner)
        }
    }

    /// `return` is reached, with a value or without one.
    fn run_return(
        &mut self,
        functions: &'p [Function],
        value: &'p Option<Expression>,
    ) -> Result<Focus<'p>, Stop>
        ensures goes { Goes functions.now self.old (env_of self.old)
            (λ knowing w t. returning knowing w (here (env_of self.old) self.old.line) (option_map
            expression_view value.now) t) result self.new }
        ensures turns { self.new.turns ≤ self.old.turns }
        ensures nears { remaining self.old.turns result self.new ≤
            2 + frames_weight self.old.frames + optional_weight value.now }
    {
        match value {
            None => gives(self.first, None),
            Some(value) => self.give(functions, value),
        }
    }

    /// A `goto` is reached, and costs a turn.
    #[inline(never)]
    fn jump(&mut self, label: u32) -> Result<Focus<'p>, Stop>
        ensures goes { (functions : List FunctionData) → Goes functions self.old (env_of self.old)
            (λ knowing w t. turn t (λ u. went label u)) result self.new }
        ensures turns { self.new.turns ≤ self.old.turns }
        ensures nears { remaining self.old.turns result self.new ≡ 0 }
    {
        match take_turn(&mut self.turns) {
            Ok(()) => Ok(Focus::Leads(Flow::Went(label))),
            Err(stop) => Err(stop),
        }
    }

    /// A declaration without an initializer is reached.
    #[inline(never)]
    fn declare(&mut self, slot: u32, size: u64) -> Result<Focus<'p>, Stop>
        ensures goes { (functions : List FunctionData) → Goes functions self.old (env_of self.old)
            (λ knowing w t. declared (here (env_of self.old) self.old.line) slot size t) result
            self.new }
        ensures turns { self.new.turns ≤ self.old.turns }
        ensures nears { remaining self.old.turns result self.new ≤
            1 + frames_weight self.old.frames }
    {
        match place(&self.scope, slot) {
            Some(ptr) => match self.store.unset(ptr, size) {
                Ok(()) => Ok(Focus::Leads(Flow::On)),
                Err(trap) => Err(Stop::Over(End::Trapped(trap, self.line))),
            },
            None => Err(Stop::Over(End::Stuck)),
        }
    }

    /// A declaration with an initializer is reached.
    #[inline(never)]
    fn initialize(
        &mut self,
        functions: &'p [Function],
        slot: u32,
        size: u64,
        values: &'p [Expression],
    ) -> Result<Focus<'p>, Stop>
        ensures goes { Goes functions.now self.old (env_of self.old)
            (λ knowing w t. initialized knowing w (here (env_of self.old) self.old.line) slot size
            (expressions_view values.now) t) result self.new }
        ensures turns { self.new.turns ≤ self.old.turns }
        ensures nears { remaining self.old.turns result self.new ≤
            3 + frames_weight self.old.frames + expressions_weight values.now }
    {
        match place(&self.scope, slot) {
            Some(ptr) => match self.store.fill(ptr, size, 0) {
                Ok(()) => self.pass_all(functions, values),
                Err(trap) => Err(Stop::Over(End::Trapped(trap, self.line))),
            },
            None => Err(Stop::Over(End::Stuck)),
        }
    }
}

/// How the first `main` ends the run.
pub(crate) fn exits(value: Option<Word>) -> End
    ensures { EndsWith (option_map word_view value) result }
{
    match value {
        Some(value) => End::Exited(value.number().rem_euclid(1 << 8) as u8),
        None => End::Stuck,
    }
}

/// What `return` leads to: the first `main` ends the run.
#[tactic(auto, using(crate::proofs::Weighing::weights))]
pub(crate) fn gives<'p>(first: bool, value: Option<Word>) -> Result<Focus<'p>, Stop>
    ensures gives { Returns result (λ s. returned first (option_map word_view value) s) }
    ensures nears { (turns : ℕ) (m : MachineData) → remaining turns result m ≤
        1 + frames_weight m.frames }
{
    if first {
        Err(Stop::Over(exits(value)))
    } else {
        Ok(Focus::Leads(Flow::Back(value)))
    }
}
