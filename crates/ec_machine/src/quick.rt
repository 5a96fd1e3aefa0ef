//! What needs no frame is done on the spot: expressions without calls, and statements of them.

ghost use Rattle.std.specs.Prelude.{◌≤◌, ◌+◌, Bool, IfOk, IfSome, true, false};
ghost use Rattle.ec_code.specs.Views.{expression_view, plain_view, statement_view, statements_view};
ghost use Rattle.ec_meaning_defs.specs.evaluation.Evaluate.{World, Step as Knowing, eval};
ghost use Rattle.ec_meaning_defs.specs.evaluation.Execute.{run, run_all};
ghost use Rattle.ec_meaning_defs.specs.evaluation.Results.{Res, on_value};
ghost use Rattle.ec_meaning_defs.specs.evaluation.State.{State};
ghost use Rattle.ec_plain.specs.Answered.{at, context};
ghost use Rattle.ec_meaning_defs.specs.resolved.Operations.{is_true};
ghost use Rattle.ec_values.specs.Words.{word_view};
ghost use Rattle.ec_machine.specs.Frames.{objects_of};
ghost use Rattle.ec_machine.specs.Quick.{Asks, Begins, Computes, IsLighter, Leaves, LeavesSome, PassesOver, Says};
ghost use Rattle.ec_machine.specs.Weights.{statement_weight, statements_weight};

use crate::labels::Standing;
use crate::making::stopped;
use crate::scope::Scope;
use crate::stop::Stop;
use ec_base::Line;
use ec_code::{Expression, Plain, Statement};
use ec_memory::Store;
use ec_plain::{evaluate, evaluate_change, evaluate_test};
use ec_values::Word;

/// What a test says.
#[derive(Clone, Copy)]
pub(crate) enum Asked {
    Holds,
    Fails,
    /// It holds a call, and has yet to be evaluated.
    Waits,
}

/// Whether something was done.
#[derive(Clone, Copy)]
pub(crate) enum Done {
    All,
    Nothing,
}

/// How far a statement was run.
#[derive(Clone, Copy)]
pub(crate) enum Begun<'p> {
    /// To its end.
    Done,
    /// As far as this statement, which is what is left.
    Leads(&'p Statement),
    /// It needs a frame, and nothing was done.
    Stays,
}

/// The value of an expression without calls.
#[inline(always)]
pub(crate) fn compute(
    store: &mut Store,
    scope: &Scope,
    line: Line,
    plain: &Plain,
) -> Result<Word, Stop>
    ensures { (knowing : Knowing) (w : World) (first : Bool) (s : State) → Computes result
        (eval knowing w (context line.0 (objects_of scope.now) first) (plain_view plain.now)
        (at s store.old))
        (at s store.new) }
{
    match evaluate(store, scope.objects(), plain).get() {
        Ok(value) => Ok(value),
        Err(why) => Err(stopped(line, why)),
    }
}

/// A test is asked, unless it holds a call.
#[inline(always)]
pub(crate) fn ask(
    store: &mut Store,
    scope: &Scope,
    line: Line,
    test: &Expression,
) -> Result<Asked, Stop>
    ensures { (knowing : Knowing) (w : World) (first : Bool) (s : State)
        (if_so if_not : State → Res) → Asks result store.old store.new
        (on_value (eval knowing w (context line.0 (objects_of scope.now) first) (expression_view
        test.now) (at s store.old))
        (λ v u. elim (is_true v) [ true ↦ if_so u | false ↦ if_not u ]))
        if_so if_not (at s store.new) }
{
    match test {
        Expression::Plain(plain) => match evaluate_test(store, scope.objects(), plain).get() {
            Ok(value) => Ok(answer_of(value)),
            Err(why) => Err(stopped(line, why)),
        },
        Expression::Full(_) => Ok(Asked::Waits),
    }
}

/// What a value says of a test.
#[inline(always)]
fn answer_of(value: Word) -> Asked
    ensures { Says result (is_true (word_view value)) }
{
    if value.is_true() {
        Asked::Holds
    } else {
        Asked::Fails
    }
}

/// An expression is evaluated whose value isn't used, unless it holds a call.
#[inline(always)]
pub(crate) fn pass_over(
    store: &mut Store,
    scope: &Scope,
    line: Line,
    expression: &Expression,
) -> Result<Done, Stop>
    ensures { (knowing : Knowing) (w : World) (first : Bool) (s : State) (go : State → Res) →
        PassesOver result store.old store.new
        (on_value (eval knowing w (context line.0 (objects_of scope.now) first) (expression_view
        expression.now) (at s store.old)) (λ v u. go u))
        go (at s store.new) }
{
    match expression {
        Expression::Plain(plain) => match compute(store, scope, line, plain) {
            Ok(_) => Ok(Done::All),
            Err(stop) => Err(stop),
        },
        Expression::Full(_) => Ok(Done::Nothing),
    }
}

/// The same, behind the body of a loop: an expression is evaluated whose value isn't used, unless it holds a call.
#[inline(always)]
pub(crate) fn pass_behind(
    store: &mut Store,
    scope: &Scope,
    line: Line,
    expression: &Expression,
) -> Result<Done, Stop>
    ensures { (knowing : Knowing) (w : World) (first : Bool) (s : State) (go : State → Res) →
        PassesOver result store.old store.new
        (on_value (eval knowing w (context line.0 (objects_of scope.now) first) (expression_view
        expression.now) (at s store.old)) (λ v u. go u))
        go (at s store.new) }
{
    match expression {
        Expression::Plain(plain) => match evaluate_change(store, scope.objects(), plain).get() {
            Ok(_) => Ok(Done::All),
            Err(why) => Err(stopped(line, why)),
        },
        Expression::Full(_) => Ok(Done::Nothing),
    }
}

/// A statement is begun, as far as it needs neither a frame nor a loop.
#[inline(always)]
fn begin<'p>(
    store: &mut Store,
    scope: &Scope,
    line: &mut Line,
    statement: &'p Statement,
) -> Result<Begun<'p>, Stop>
    ensures begins { (knowing : Knowing) (w : World) (first : Bool) (s : State) → Begins result
        statement.now
        (run knowing w (context line.old.0 (objects_of scope.now) first) (statement_view
        statement.now) (at s store.old))
        (λ x. run knowing w (context line.new.0 (objects_of scope.now) first) (statement_view x)
        (at s store.new))
        (at s store.new) }
    ensures lighter { IsLighter result statement.now }
{
    match statement {
        Statement::OnLine(there, inner) => {
            *line = *there;
            Ok(Begun::Leads(inner.get()))
        }
        Statement::Nothing => Ok(Begun::Done),
        Statement::Evaluate(expression) => match pass_over(store, scope, *line, expression) {
            Ok(Done::All) => Ok(Begun::Done),
            Ok(Done::Nothing) => Ok(Begun::Stays),
            Err(stop) => Err(stop),
        },
        Statement::Choose(test, first, second) => match ask(store, scope, *line, test) {
            Ok(Asked::Holds) => Ok(Begun::Leads(first.get())),
            Ok(Asked::Fails) => Ok(Begun::Leads(second.get())),
            Ok(Asked::Waits) => Ok(Begun::Stays),
            Err(stop) => Err(stop),
        },
        _ => Ok(Begun::Stays),
    }
}

/// What of a statement needs no frame is done. What is left of it is given back, if there is anything.
#[inline(always)]
pub(crate) fn quick<'p>(
    store: &mut Store,
    scope: &Scope,
    line: &mut Line,
    statement: &'p Statement,
) -> Result<Option<&'p Statement>, Stop>
    ensures leaves { (knowing : Knowing) (w : World) (first : Bool) (s : State) → Leaves result
        (run knowing w (context line.old.0 (objects_of scope.now) first) (statement_view
        statement.now) (at s store.old))
        (λ x. run knowing w (context line.new.0 (objects_of scope.now) first) (statement_view x)
        (at s store.new))
        (at s store.new) }
    ensures lighter { IfOk result (λ found. IfSome found (λ x. statement_weight x.now ≤
        statement_weight statement.now)) }
{
    let mut left = statement;
    loop {
        match begin(store, scope, line, left) {
            Ok(Begun::Done) => return Ok(None),
            Ok(Begun::Leads(next)) => left = next,
            Ok(Begun::Stays) => return Ok(Some(left)),
            Err(stop) => return Err(stop),
        }
    }
}

/// What of some statements needs no frame is done. Where something is left it is given back, with what stands behind it.
#[inline(always)]
pub(crate) fn quick_list<'p>(
    store: &mut Store,
    scope: &Scope,
    line: &mut Line,
    statements: &'p [Statement],
) -> Result<Option<Standing<'p>>, Stop>
    ensures leaves { (knowing : Knowing) (w : World) (first : Bool) (s : State) → LeavesSome result
        (run_all knowing w (context line.old.0 (objects_of scope.now) first) (statements_view
        statements.now) (at s store.old))
        (λ x. run knowing w (context line.new.0 (objects_of scope.now) first) (statement_view x)
        (at s store.new))
        (λ xs u. run_all knowing w (context line.old.0 (objects_of scope.now) first)
        (statements_view xs) u)
        (at s store.new) }
    ensures lighter { IfOk result (λ found. IfSome found (λ x. 1 + statement_weight x.first.now +
        statements_weight x.rest.now ≤ statements_weight statements.now)) }
{
    let start = *line;
    let mut left = statements;
    while let [first, rest @ ..] = left {
        *line = start;
        match quick(store, scope, line, first) {
            Ok(None) => left = rest,
            Ok(Some(first)) => return Ok(Some(Standing { first, rest })),
            Err(stop) => return Err(stop),
        }
    }
    Ok(None)
}
