//! Whole expressions.

ghost use Rattle.std.specs.Prelude.{◌≡◌, ℕ, Bool, IfSome};
ghost use Rattle.ec_meaning_defs.specs.evaluation.Evaluate.{Context, World, Step as Knowing, eval};
ghost use Rattle.ec_meaning_defs.specs.evaluation.State.{State};
ghost use Rattle.ec_values.specs.Words.{word_view};
ghost use Rattle.ec_memory_defs.specs.Kinds.{kind_type};
ghost use Rattle.ec_memory_defs.specs.Memory.{number};
ghost use Rattle.ec_meaning_defs.specs.resolved.Resolved as of;
ghost use Rattle.ec_code.specs.declared.step.Binary.TheVariants as binary;
ghost use Rattle.ec_code.specs.declared.step.Leaf.TheVariants as leaf;
ghost use Rattle.ec_code.specs.Trees.{leaf_view};
ghost use Rattle.ec_code.specs.Views.{plain_step_view, plain_view};
ghost use Rattle.ec_plain.specs.Answered.{answered, at, context};
ghost use Rattle.ec_plain.specs.Numbers.{Stands};
ghost use Rattle.ec_plain.specs.Outcomes.{outcome_view};
ghost use Rattle.ec_plain.specs.Steps.{step_on, two_on};

use crate::both::{Ready, finish, prepare};
use crate::effect::at_once;
use crate::number::place_of;
use crate::one::{load, unary};
use crate::outcome::Outcome;
use ec_bytes::Ptr;
use ec_code::{Binary, Leaf, Plain, PlainStep, Unary, Update};
use ec_memory::Store;
use ec_memory_defs::Kind;
use ec_values::{Operation, Stop, Word};

/// The value of an expression without calls, with the objects in scope by their pointers (ISO/IEC 9899:1999, 6.5). What
/// stops it is a trap, whose line is that of the statement.
#[inline(always)]
pub fn evaluate(store: &mut Store, scope: &[Ptr], expression: &Plain) -> Outcome
    ensures { (knowing : Knowing) (w : World) (line : ℕ) (first : Bool) (s : State)
        → eval knowing w (context line scope.now first) (plain_view expression.now) (at s store.old)
        ≡ answered line (outcome_view result) (at s store.new) }
{
    match place_alone(scope, expression) {
        Some(place) => Outcome::Address(place),
        None => match at_once(store, scope, expression) {
            Some(number) => Outcome::Signed(number),
            None => walk(store, scope, expression),
        },
    }
}

/// The place of an object that is all of an expression.
#[inline(always)]
fn place_alone(scope: &[Ptr], expression: &Plain) -> Option<Ptr>
    ensures { IfSome result (λ p. Stands scope.now (plain_view expression.now) p.0) }
{
    match expression.steps.as_slice() {
        [] => place_of(scope, &expression.leaf),
        _ => None,
    }
}

/// The value of an expression, step by step.
#[cycle(evaluation)]
#[inline(never)]
fn walk(store: &mut Store, scope: &[Ptr], expression: &Plain) -> Outcome
    ensures { (knowing : Knowing) (w : World) (line : ℕ) (first : Bool) (s : State)
        → eval knowing w (context line scope.now first) (plain_view expression.now) (at s store.old)
        ≡ answered line (outcome_view result) (at s store.new) }
{
    let steps = expression.steps.as_slice();
    let mut value = match begin(store, scope, expression.leaf) {
        Ok(value) => value,
        Err(stop) => return Outcome::stopped(stop),
    };
    for step in steps {
        match take_step(store, scope, step, value).get() {
            Ok(next) => value = next,
            Err(stop) => return Outcome::stopped(stop),
        }
    }
    Outcome::value(value)
}

/// The same, where the expression may well be a leaf, or the value at a place.
#[cycle(evaluation)]
#[inline(always)]
fn operand(store: &mut Store, scope: &[Ptr], expression: &Plain) -> Outcome
    ensures { (knowing : Knowing) (w : World) (line : ℕ) (first : Bool) (s : State)
        → eval knowing w (context line scope.now first) (plain_view expression.now) (at s store.old)
        ≡ answered line (outcome_view result) (at s store.new) }
{
    match expression.steps.as_slice() {
        [] => Outcome::of(begin(store, scope, expression.leaf)),
        [PlainStep::One(Unary::Load(kind))] => match begin(store, scope, expression.leaf) {
            Ok(place) => load(store, *kind, place),
            Err(stop) => Outcome::stopped(stop),
        },
        _ => walk(store, scope, expression),
    }
}

/// Where an expression begins.
#[inline(always)]
fn begin(store: &Store, scope: &[Ptr], leaf: Leaf) -> Result<Word, Stop>
    ensures { (knowing : Knowing) (w : World) (line : ℕ) (first : Bool) (s : State)
        → eval knowing w (context line scope.now first) (leaf_view leaf) (at s store.now)
        ≡ answered line result (at s store.now) }
{
    match leaf {
        Leaf::Object(number) => Ok(Word::Address(Ptr((number as u64) << 32))),
        Leaf::Slot(index) => match scope.get(index as usize) {
            Some(ptr) => Ok(Word::Address(*ptr)),
            None => Err(Stop::Misfit),
        },
        Leaf::Constant(word) => Ok(word),
        Leaf::IntValue(slot) => value_of(store, scope, slot, Kind::Int),
        Leaf::LongValue(slot) => value_of(store, scope, slot, Kind::Long),
        Leaf::Faulty => Err(Stop::Misfit),
    }
}

/// What a step makes of the value so far.
#[cycle(evaluation)]
#[inline(always)]
fn take_step(store: &mut Store, scope: &[Ptr], step: &PlainStep, value: Word) -> Outcome
    ensures { (knowing : Knowing) (w : World) (line : ℕ) (first : Bool) (s : State)
        → step_on knowing w (context line scope.now first)
        (plain_step_view step.now) (word_view value) (at s store.old)
        ≡ answered line (outcome_view result) (at s store.new) }
{
    match step {
        PlainStep::One(Unary::Load(kind)) => load(store, *kind, value),
        PlainStep::One(step) => unary(store, step, value),
        PlainStep::WithNumber(operation, number) => {
            finish(
                store,
                &Binary::Operate(*operation),
                value,
                value,
                Word::Signed(*number),
            )
        }
        PlainStep::WithInt(operation, slot) => {
            combine(store, scope, *operation, value, *slot, Kind::Int)
        }
        PlainStep::WithLong(operation, slot) => {
            combine(store, scope, *operation, value, *slot, Kind::Long)
        }
        PlainStep::ChangeBy(update, number) => change(store, *update, value, *number),
        PlainStep::Two(step, right) => match prepare(store, *step, value) {
            Ok(Ready::Done(done)) => Outcome::value(done),
            Ok(Ready::Waits(old)) => match operand(store, scope, right).get() {
                Ok(right) => finish(store, step, value, old, right),
                Err(stop) => Outcome::stopped(stop),
            },
            Err(stop) => Outcome::stopped(stop),
        },
    }
}

/// The value of an object of the function.
fn value_of(store: &Store, scope: &[Ptr], slot: u32, kind: Kind) -> Result<Word, Stop>
    ensures { (knowing : Knowing) (w : World) (line : ℕ) (first : Bool) (s : State)
        → eval knowing w (context line scope.now first)
        (of.load (kind_type kind) (of.slot slot)) (at s store.now)
        ≡ answered line result (at s store.now) }
{
    match scope.get(slot as usize) {
        Some(ptr) => load(store, kind, Word::Address(*ptr)).get(),
        None => Err(Stop::Misfit),
    }
}

/// An operation on the value so far and that of an object of the function.
fn combine(
    store: &mut Store,
    scope: &[Ptr],
    operation: Operation,
    value: Word,
    slot: u32,
    kind: Kind,
) -> Outcome
    ensures { (knowing : Knowing) (w : World) (line : ℕ) (first : Bool) (s : State)
        → two_on knowing w (context line scope.now first) (binary.Operate operation)
        (of.load (kind_type kind) (of.slot slot)) (word_view value) (at s store.old)
        ≡ answered line (outcome_view result) (at s store.new) }
{
    match value_of(store, scope, slot, kind) {
        Ok(right) => finish(store, &Binary::Operate(operation), value, value, right),
        Err(stop) => Outcome::stopped(stop),
    }
}

/// `a op= b`, `++` and `--`, by a number.
fn change(store: &mut Store, update: Update, place: Word, by: i64) -> Outcome
    ensures { (knowing : Knowing) (w : World) (c : Context) (s : State)
        → two_on knowing w c (binary.Update update)
        (of.constant (number by)) (word_view place) (at s store.old)
        ≡ answered c.line (outcome_view result) (at s store.new) }
{
    match prepare(store, Binary::Update(update), place) {
        Ok(Ready::Done(done)) => Outcome::value(done),
        Ok(Ready::Waits(old)) => {
            finish(store, &Binary::Update(update), place, old, Word::Signed(by))
        }
        Err(stop) => Outcome::stopped(stop),
    }
}
