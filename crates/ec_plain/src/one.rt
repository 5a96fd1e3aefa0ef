//! Steps that take the value so far.

ghost use Rattle.std.specs.Prelude.{◌≡◌, ℕ};
ghost use Rattle.ec_meaning_defs.specs.evaluation.State.{State};
ghost use Rattle.ec_values.specs.Words.{word_view};
ghost use Rattle.ec_code.specs.declared.step.Unary.TheVariants as of;
ghost use Rattle.ec_plain.specs.Answered.{answered, at};
ghost use Rattle.ec_plain.specs.Outcomes.{outcome_view};
ghost use Rattle.ec_plain.specs.Steps.{one_on};

use crate::outcome::Outcome;
use crate::quick::converted;
use ec_base::Bytes;
use ec_code::Unary;
use ec_memory::Store;
use ec_memory_defs::Kind;
use ec_values::{Word, flip, load as loaded, negate};

/// What a step makes of the value so far.
pub fn unary(store: &mut Store, step: &Unary, value: Word) -> Outcome
    ensures { (line : ℕ) (s : State) → one_on line step.now (word_view value) (at s store.old)
        ≡ answered line (outcome_view result) (at s store.new) }
{
    match step {
        Unary::Member(offset) => member(store, *offset, value),
        Unary::Load(kind) => load(store, *kind, value),
        Unary::Whole(size) => whole(store, *size, value),
        Unary::Put(bytes) => put(store, bytes, value),
        Unary::Convert(_, to) => Outcome::value(converted(*to, value)),
        Unary::Negate(ty) => Outcome::of(negate(*ty, value)),
        Unary::Flip(ty) => Outcome::of(flip(*ty, value)),
        Unary::Not => Outcome::value(Word::truth(!value.is_true())),
    }
}

/// A member of a struct.
#[inline(always)]
fn member(store: &Store, offset: u64, value: Word) -> Outcome
    ensures { (line : ℕ) (s : State) →
        one_on line (of.Member offset) (word_view value) (at s store.now)
        ≡ answered line (outcome_view result) (at s store.now) }
{
    match value {
        Word::Address(ptr) => match store.move_ptr_wide(ptr, offset as i128, 1) {
            Ok(to) => Outcome::Address(to),
            Err(trap) => Outcome::trapped(trap),
        },
        Word::Signed(_) => Outcome::Misfit,
        Word::Unsigned(_) => Outcome::Misfit,
    }
}

/// The value at a place.
#[inline(always)]
pub(crate) fn load(store: &Store, kind: Kind, value: Word) -> Outcome
    ensures { (line : ℕ) (s : State) → one_on line (of.Load kind) (word_view value) (at s store.now)
        ≡ answered line (outcome_view result) (at s store.now) }
{
    match value {
        Word::Address(ptr) => match loaded(store, ptr, kind) {
            Ok(found) => Outcome::value(found),
            Err(trap) => Outcome::trapped(trap),
        },
        Word::Signed(_) => Outcome::Misfit,
        Word::Unsigned(_) => Outcome::Misfit,
    }
}

/// A struct as a value: an access to all of it.
fn whole(store: &Store, size: u64, value: Word) -> Outcome
    ensures { (line : ℕ) (s : State) →
        one_on line (of.Whole size) (word_view value) (at s store.now)
        ≡ answered line (outcome_view result) (at s store.now) }
{
    match value {
        Word::Address(ptr) => match store.move_ptr_wide(ptr, size as i128, 1) {
            Ok(_) => Outcome::value(value),
            Err(trap) => Outcome::trapped(trap),
        },
        Word::Signed(_) => Outcome::Misfit,
        Word::Unsigned(_) => Outcome::Misfit,
    }
}

/// Bytes at a place.
fn put(store: &mut Store, bytes: &Bytes, value: Word) -> Outcome
    ensures { (line : ℕ) (s : State) →
        one_on line (of.Put bytes.now) (word_view value) (at s store.old)
        ≡ answered line (outcome_view result) (at s store.new) }
{
    match value {
        Word::Address(ptr) => match store.put(ptr, bytes.as_slice()) {
            Ok(()) => Outcome::value(value),
            Err(trap) => Outcome::trapped(trap),
        },
        Word::Signed(_) => Outcome::Misfit,
        Word::Unsigned(_) => Outcome::Misfit,
    }
}
