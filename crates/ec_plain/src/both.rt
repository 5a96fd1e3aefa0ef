//! Steps that take the value so far and that of another expression.

ghost use Rattle.std.specs.Prelude.{◌≡◌, ℕ, IfSome};
ghost use Rattle.ec_meaning_defs.specs.evaluation.Evaluate.{Context, World, Step as Knowing};
ghost use Rattle.ec_meaning_defs.specs.evaluation.State.{State};
ghost use Rattle.ec_memory_defs.specs.Memory.{Memory, number};
ghost use Rattle.ec_meaning_defs.specs.resolved.Operations.{gives, worked};
ghost use Rattle.ec_meaning_defs.specs.resolved.Resolved.{Exp};
ghost use Rattle.ec_values.specs.Operations.{operation_view};
ghost use Rattle.ec_values.specs.Words.{word_view};
ghost use Rattle.ec_code.specs.declared.step.Binary.TheVariants as of;
ghost use Rattle.ec_plain.specs.Answered.{answered, at};
ghost use Rattle.ec_plain.specs.Outcomes.{outcome_view};
ghost use Rattle.ec_plain.specs.Ready.{readied};
ghost use Rattle.ec_plain.specs.Steps.{both_on, old_on, two_on};

use crate::outcome::Outcome;
use crate::quick::{converted, operate, summed_by};
use ec_code::{Binary, Update};
use ec_memory::Store;
use ec_memory_defs::Kind;
use ec_values::{Operation, Stop, Word, load, store as stored};

/// What a step does before the other expression is evaluated.
#[derive(Clone, Copy, Debug)]
pub enum Ready {
    /// It has its value, and the other expression is not evaluated.
    Done(Word),
    /// It waits for the other value, with the old value where a place is updated.
    Waits(Word),
}

/// What a step does with the value so far, before the other expression is evaluated.
#[inline(always)]
pub fn prepare(store: &Store, step: Binary, left: Word) -> Result<Ready, Stop>
    ensures { (knowing : Knowing) (w : World) (c : Context) (a : Exp) (s : State)
        → two_on knowing w c step a (word_view left) (at s store.now)
        ≡ readied knowing w c step a (word_view left) result (at s store.now) }
{
    match step {
        Binary::Both => {
            if left.is_true() {
                Ok(Ready::Waits(left))
            } else {
                Ok(Ready::Done(Word::truth(false)))
            }
        }
        Binary::Either => {
            if left.is_true() {
                Ok(Ready::Done(Word::truth(true)))
            } else {
                Ok(Ready::Waits(left))
            }
        }
        Binary::Update(update) => match old_value(store, update, left) {
            Ok(old) => Ok(Ready::Waits(old)),
            Err(stop) => Err(stop),
        },
        Binary::Store(_) => Ok(Ready::Waits(left)),
        Binary::Copy(_) => Ok(Ready::Waits(left)),
        Binary::Operate(_) => Ok(Ready::Waits(left)),
    }
}

/// The old value of a place that is updated.
#[inline(always)]
fn old_value(store: &Store, update: Update, place: Word) -> Result<Word, Stop>
    ensures { (line : ℕ) (s : State) → old_on line update (word_view place) (at s store.now)
        ≡ answered line result (at s store.now) }
{
    match place {
        Word::Address(ptr) => match load(store, ptr, update.kind) {
            Ok(old) => Ok(old),
            Err(trap) => Err(Stop::Trap(trap)),
        },
        Word::Signed(_) => Err(Stop::Misfit),
        Word::Unsigned(_) => Err(Stop::Misfit),
    }
}

/// What a step makes of both values, and of the old value where a place is updated.
#[inline(always)]
pub fn finish(store: &mut Store, step: &Binary, left: Word, old: Word, right: Word) -> Outcome
    ensures { (line : ℕ) (s : State) → both_on line step.now
        (word_view left) (word_view old) (word_view right) (at s store.old)
        ≡ answered line (outcome_view result) (at s store.new) }
{
    match step {
        Binary::Store(kind) => assign(store, *kind, left, right),
        Binary::Operate(operation) => match summed(operation, left, right) {
            Some(number) => Outcome::Signed(number),
            None => finish_other(store, step, left, old, right),
        },
        _ => finish_other(store, step, left, old, right),
    }
}

/// What adding or subtracting two values gives, where both are signed.
#[inline(always)]
fn summed(operation: &Operation, left: Word, right: Word) -> Option<i64>
    ensures { IfSome result (λ z. (m : Memory) → worked (operation_view operation.now) m
        (word_view left) (word_view right) ≡ gives (number z)) }
{
    match (left, right) {
        (Word::Signed(x), Word::Signed(y)) => summed_by(operation, x, y),
        _ => None,
    }
}

/// The same of any step.
#[inline(never)]
fn finish_other(store: &mut Store, step: &Binary, left: Word, old: Word, right: Word) -> Outcome
    ensures { (line : ℕ) (s : State) → both_on line step.now
        (word_view left) (word_view old) (word_view right) (at s store.old)
        ≡ answered line (outcome_view result) (at s store.new) }
{
    match step {
        Binary::Store(kind) => assign(store, *kind, left, right),
        Binary::Copy(size) => copy(store, *size, left, right),
        Binary::Update(update) => renew(store, *update, left, old, right),
        Binary::Operate(operation) => operate(*operation, store, left, right),
        Binary::Both => Outcome::value(Word::truth(right.is_true())),
        Binary::Either => Outcome::value(Word::truth(right.is_true())),
    }
}

/// To a place, of a value.
#[inline(always)]
fn assign(store: &mut Store, kind: Kind, left: Word, right: Word) -> Outcome
    ensures { (line : ℕ) (s : State)
        → both_on line (of.Store kind) (word_view left)
        (word_view left) (word_view right) (at s store.old)
        ≡ answered line (outcome_view result) (at s store.new) }
{
    match left {
        Word::Address(ptr) => match stored(store, ptr, kind, right) {
            Ok(()) => Outcome::value(right),
            Err(trap) => Outcome::trapped(trap),
        },
        Word::Signed(_) => Outcome::Misfit,
        Word::Unsigned(_) => Outcome::Misfit,
    }
}

/// To a place, of so many cells of another.
fn copy(store: &mut Store, size: u64, left: Word, right: Word) -> Outcome
    ensures { (line : ℕ) (s : State)
        → both_on line (of.Copy size) (word_view left)
        (word_view left) (word_view right) (at s store.old)
        ≡ answered line (outcome_view result) (at s store.new) }
{
    match left {
        Word::Address(to) => match right {
            Word::Address(from) => match store.copy(to, from, size) {
                Ok(()) => Outcome::value(left),
                Err(trap) => Outcome::trapped(trap),
            },
            Word::Signed(_) => Outcome::Misfit,
            Word::Unsigned(_) => Outcome::Misfit,
        },
        Word::Signed(_) => Outcome::Misfit,
        Word::Unsigned(_) => Outcome::Misfit,
    }
}

/// `a op= b`, `++` and `--`.
#[inline(always)]
fn renew(store: &mut Store, update: Update, left: Word, old: Word, right: Word) -> Outcome
    ensures { (line : ℕ) (s : State)
        → both_on line (of.Update update) (word_view left)
        (word_view old) (word_view right) (at s store.old)
        ≡ answered line (outcome_view result) (at s store.new) }
{
    match left {
        Word::Address(ptr) => {
            let widened = converted(update.widened, old);
            match operate(update.operation, store, widened, right).get() {
                Ok(new) => {
                    let new = converted(update.kind, new);
                    match stored(store, ptr, update.kind, new) {
                        Ok(()) => Outcome::value(if update.gives_old { old } else { new }),
                        Err(trap) => Outcome::trapped(trap),
                    }
                }
                Err(stop) => Outcome::stopped(stop),
            }
        }
        Word::Signed(_) => Outcome::Misfit,
        Word::Unsigned(_) => Outcome::Misfit,
    }
}
