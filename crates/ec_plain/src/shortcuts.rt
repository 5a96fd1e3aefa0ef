//! Shortcuts to what is evaluated most often: a comparison and a change of an `int`, and an `int` alone or with a
//! number added.

ghost use Rattle.std.specs.Prelude.{◌≡◌, ℕ, Bool, None, IfSome};
ghost use Rattle.ec_code.specs.Views.{plain_step_view, plain_view};
ghost use Rattle.ec_meaning_defs.specs.evaluation.Evaluate.{World, Step as Knowing, eval};
ghost use Rattle.ec_meaning_defs.specs.evaluation.State.{State};
ghost use Rattle.ec_memory_defs.specs.Memory.{address, number};
ghost use Rattle.ec_plain.specs.Answered.{answered, at, context};
ghost use Rattle.ec_plain.specs.Numbers.{Leads, StepLeads, Updates};
ghost use Rattle.ec_plain.specs.Outcomes.{outcome_view};

use crate::effect::added;
use crate::number::{behind, int, slot_place};
use crate::outcome::Outcome;
use crate::quick::{compared_by, summed_by};
use crate::whole::evaluate;
use ec_bytes::Ptr;
use ec_code::{Binary, Leaf, Plain, PlainStep, Update};
use ec_memory::Store;

/// What `evaluate` gives for a test, which is most often a comparison of an `int` of the function.
#[inline(always)]
pub fn evaluate_test(store: &mut Store, scope: &[Ptr], test: &Plain) -> Outcome
    ensures { (knowing : Knowing) (w : World) (line : ℕ) (first : Bool) (s : State)
        → eval knowing w (context line scope.now first) (plain_view test.now) (at s store.old)
        ≡ answered line (outcome_view result) (at s store.new) }
{
    match comparison(store, scope, test) {
        Some(number) => Outcome::Signed(number),
        None => evaluate_aside(store, scope, test),
    }
}

/// What `evaluate` gives for what stands behind the body of a loop, which is most often a change of an `int` of the
/// function.
#[inline(always)]
pub fn evaluate_change(store: &mut Store, scope: &[Ptr], behind: &Plain) -> Outcome
    ensures { (knowing : Knowing) (w : World) (line : ℕ) (first : Bool) (s : State)
        → eval knowing w (context line scope.now first) (plain_view behind.now) (at s store.old)
        ≡ answered line (outcome_view result) (at s store.new) }
{
    match changed(store, scope, behind) {
        Some(number) => Outcome::Signed(number),
        None => evaluate_aside(store, scope, behind),
    }
}

/// What `evaluate` gives for an argument, which is most often an `int` of the function, or one with a number added.
#[inline(always)]
pub fn evaluate_argument(store: &mut Store, scope: &[Ptr], argument: &Plain) -> Outcome
    ensures { (knowing : Knowing) (w : World) (line : ℕ) (first : Bool) (s : State)
        → eval knowing w (context line scope.now first) (plain_view argument.now) (at s store.old)
        ≡ answered line (outcome_view result) (at s store.new) }
{
    match int_with_number(store, scope, argument) {
        Some(number) => Outcome::Signed(number),
        None => evaluate(store, scope, argument),
    }
}

/// The same, for any expression.
#[inline(never)]
fn evaluate_aside(store: &mut Store, scope: &[Ptr], expression: &Plain) -> Outcome
    ensures { (knowing : Knowing) (w : World) (line : ℕ) (first : Bool) (s : State)
        → eval knowing w (context line scope.now first) (plain_view expression.now) (at s store.old)
        ≡ answered line (outcome_view result) (at s store.new) }
{
    evaluate(store, scope, expression)
}

/// What a comparison of an `int` of the function gives.
#[inline(always)]
fn comparison(store: &Store, scope: &[Ptr], test: &Plain) -> Option<i64>
    ensures { IfSome result (λ z.
        Leads scope.now (plain_view test.now) store.now store.now (number z)) }
{
    match test.leaf {
        Leaf::IntValue(slot) => match test.steps.as_slice() {
            [step] => {
                let value = int(store, scope, slot)?;
                compared_at(store, scope, value, step)
            }
            _ => None,
        },
        _ => None,
    }
}

/// What a step gives that compares a number.
#[inline(always)]
fn compared_at(store: &Store, scope: &[Ptr], value: i64, step: &PlainStep) -> Option<i64>
    ensures { IfSome result (λ z. StepLeads scope.now (plain_step_view step.now) (number value)
        store.now store.now (number z)) }
{
    match step {
        PlainStep::WithNumber(operation, right) => compared_by(operation, value, *right),
        PlainStep::WithInt(operation, slot) => {
            let right = int(store, scope, *slot)?;
            compared_by(operation, value, right)
        }
        _ => None,
    }
}

/// What a change of an object of the function by a number gives, which is done.
#[inline(always)]
fn changed(store: &mut Store, scope: &[Ptr], expression: &Plain) -> Option<i64>
    ensures some { IfSome result (λ z.
        Leads scope.now (plain_view expression.now) store.old store.new (number z)) }
    ensures none { result ≡ None → store.new ≡ store.old }
{
    match expression.leaf {
        Leaf::Slot(slot) => match expression.steps.as_slice() {
            [step] => {
                let place = slot_place(scope, slot)?;
                changed_at(store, scope, place, behind(scope, slot), step)
            }
            _ => None,
        },
        _ => None,
    }
}

/// What a step gives that changes what stands at a place by a number. It is done.
#[inline(always)]
fn changed_at(
    store: &mut Store,
    scope: &[Ptr],
    to: Ptr,
    behind: usize,
    step: &PlainStep,
) -> Option<i64>
    ensures some { IfSome result (λ z. StepLeads scope.now (plain_step_view step.now)
        (address to.0) store.old store.new (number z)) }
    ensures none { result ≡ None → store.new ≡ store.old }
{
    match change_of(store, scope, step) {
        Some(change) => added(store, to, behind, change.update, change.by),
        None => None,
    }
}

/// An update, and the number by which it changes what stands at a place.
#[derive(Clone, Copy)]
struct Change<'p> {
    update: &'p Update,
    by: i64,
}

/// The change by a number that a step is.
#[inline(always)]
fn change_of<'p>(store: &Store, scope: &[Ptr], step: &'p PlainStep) -> Option<Change<'p>>
    ensures { IfSome result (λ c. Updates scope.now (plain_step_view step.now) store.now
        c.update.now c.by) }
{
    match step {
        PlainStep::ChangeBy(update, by) => Some(Change { update, by: *by }),
        PlainStep::Two(Binary::Update(update), right) => {
            let by = int_alone(store, scope, right)?;
            Some(Change { update, by })
        }
        _ => None,
    }
}

/// The value of an `int` of the function that is all of an expression.
#[inline(always)]
fn int_alone(store: &Store, scope: &[Ptr], expression: &Plain) -> Option<i64>
    ensures { IfSome result (λ z.
        Leads scope.now (plain_view expression.now) store.now store.now (number z)) }
{
    match expression.leaf {
        Leaf::IntValue(slot) => match expression.steps.as_slice() {
            [] => int(store, scope, slot),
            _ => None,
        },
        _ => None,
    }
}

/// The value of an `int` of the function that is all of an expression, or with a number added or subtracted.
#[inline(always)]
fn int_with_number(store: &Store, scope: &[Ptr], expression: &Plain) -> Option<i64>
    ensures { IfSome result (λ z.
        Leads scope.now (plain_view expression.now) store.now store.now (number z)) }
{
    match expression.leaf {
        Leaf::IntValue(slot) => match expression.steps.as_slice() {
            [] => int(store, scope, slot),
            [step] => match step {
                PlainStep::WithNumber(operation, right) => {
                    let left = int(store, scope, slot)?;
                    summed_by(operation, left, *right)
                }
                _ => None,
            },
            _ => None,
        },
        _ => None,
    }
}
