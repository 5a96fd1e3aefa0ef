//! Assignments of numbers that are found at once.

ghost use Rattle.std.specs.Prelude.{◌≡◌, Ok, None, IfSome, OnErr, true, if◌then◌else◌};
ghost use Rattle.ec_code.specs.Trees.{leaf_view, two};
ghost use Rattle.ec_code.specs.Views.{plain_step_view, plain_view};
ghost use Rattle.ec_code.specs.declared.expression.Plain.{out-Plain};
ghost use Rattle.ec_code.specs.declared.step.Binary.TheVariants as binary;
ghost use Rattle.ec_memory_defs.specs.Kinds.{kind_type};
ghost use Rattle.ec_memory_defs.specs.declared.kind.Kind.TheVariants as kinds;
ghost use Rattle.ec_memory_defs.specs.Memory.{address, load, number, store as put_there};
ghost use Rattle.ec_memory.specs.Store.{outcome};
ghost use Rattle.ec_plain.specs.Numbers.{AddsInts, Changes, Completes, Leads, Stands, StepLeads, Targets};

use crate::number::{element, int_at, number, operand, place_of, read, valued};
use crate::quick::{combined, fitted};
use ec_base::Trap;
use ec_bytes::Ptr;
use ec_code::{Binary, Leaf, Plain, PlainStep, Unary, Update};
use ec_ctypes::Arith;
use ec_memory::Store;
use ec_memory_defs::Kind;
use ec_values::{
    IntegerOperator, Operation, Word, store as stored, store_char, store_int, store_long,
};

/// The value of an expression, where it is a number that `long` has and is found at once, with its one assignment done.
/// Where it gives none, nothing is changed.
#[inline(never)]
pub(crate) fn at_once(store: &mut Store, scope: &[Ptr], expression: &Plain) -> Option<i64>
    ensures some { IfSome result (λ z.
        Leads scope.now (plain_view expression.now) store.old store.new (number z)) }
    ensures none { result ≡ None → store.new ≡ store.old }
{
    match place_of(scope, &expression.leaf) {
        Some(place) => at_place(store, scope, place, expression),
        None => valued(store, scope, expression),
    }
}

/// The same, where it begins with a place.
#[inline(always)]
fn at_place(store: &mut Store, scope: &[Ptr], place: Ptr, expression: &Plain) -> Option<i64>
    requires { Stands scope.now (leaf_view (out-Plain expression.now).leaf) place.0 }
    ensures some { IfSome result (λ z.
        Leads scope.now (plain_view expression.now) store.old store.new (number z)) }
    ensures none { result ≡ None → store.new ≡ store.old }
{
    match target_of(store, scope, place, expression) {
        Some(found) => assign(store, scope, found.place, found.step),
        None => number(store, scope, expression),
    }
}

/// A place, and the last step of an expression, which is for it.
#[derive(Clone, Copy)]
struct Target<'p> {
    place: Ptr,
    step: &'p PlainStep,
}

/// The target of an expression that begins with a place: that place, or an element of the array there.
#[inline(always)]
fn target_of<'p>(
    store: &Store,
    scope: &[Ptr],
    place: Ptr,
    expression: &'p Plain,
) -> Option<Target<'p>>
    requires { Stands scope.now (leaf_view (out-Plain expression.now).leaf) place.0 }
    ensures { IfSome result (λ t. Targets scope.now (plain_view expression.now) store.now t.place.0
        (plain_step_view t.step.now)) }
{
    match expression.steps.as_slice() {
        [step] => Some(Target { place, step }),
        [first, step] => {
            if assigns(step) {
                let place = element(store, scope, place, first)?;
                Some(Target { place, step })
            } else {
                None
            }
        }
        _ => None,
    }
}

/// Whether a step assigns to a place.
#[inline(always)]
fn assigns(step: &PlainStep) -> bool {
    match step {
        PlainStep::Two(Binary::Store(_), _) => true,
        PlainStep::Two(Binary::Update(_), _) => true,
        PlainStep::ChangeBy(_, _) => true,
        _ => false,
    }
}

/// What a step gives at a place: the value there, or that of an assignment, which is done.
#[inline(always)]
fn assign(store: &mut Store, scope: &[Ptr], to: Ptr, step: &PlainStep) -> Option<i64>
    ensures some { IfSome result (λ z. StepLeads scope.now (plain_step_view step.now)
        (address to.0) store.old store.new (number z)) }
    ensures none { result ≡ None → store.new ≡ store.old }
{
    match step {
        PlainStep::Two(Binary::Operate(_), _) => None,
        PlainStep::Two(step, right) => {
            let by = operand(store, scope, right)?;
            complete(store, to, step, by)
        }
        PlainStep::ChangeBy(update, by) => change(store, to, update, *by),
        PlainStep::One(Unary::Load(kind)) => read(store, to, *kind),
        _ => None,
    }
}

/// An assignment to a place, with the number at its right.
#[inline(always)]
fn complete(store: &mut Store, to: Ptr, step: &Binary, by: i64) -> Option<i64>
    ensures some { IfSome result (λ z. Completes step.now to.0 by store.old store.new z) }
    ensures none { result ≡ None → store.new ≡ store.old }
{
    match step {
        Binary::Store(kind) => give(store, to, *kind, by),
        Binary::Update(update) => renew(store, to, update, by),
        _ => None,
    }
}

/// `a = b`, to a place.
#[inline(always)]
fn give(store: &mut Store, to: Ptr, kind: Kind, value: i64) -> Option<i64>
    ensures some { IfSome result (λ z.
        Completes (binary.Store kind) to.0 value store.old store.new z) }
    ensures none { result ≡ None → store.new ≡ store.old }
{
    match put(store, to, kind, value) {
        Ok(()) => Some(value),
        Err(_) => None,
    }
}

/// `a op= b`, at a place.
#[inline(always)]
fn renew(store: &mut Store, to: Ptr, update: &Update, by: i64) -> Option<i64>
    ensures some { IfSome result (λ z.
        Completes (binary.Update update.now) to.0 by store.old store.new z) }
    ensures none { result ≡ None → store.new ≡ store.old }
{
    change(store, to, update, by)
}

/// `a op= b`, `++` and `--`, by a number, at a place.
#[inline(always)]
fn change(store: &mut Store, to: Ptr, update: &Update, by: i64) -> Option<i64>
    ensures some { IfSome result (λ z. Changes update.now to.0 by store.old store.new z) }
    ensures none { result ≡ None → store.new ≡ store.old }
{
    match update.kind {
        Kind::Int => change_int(store, to, update, by, Kind::Int),
        _ => change_other(store, to, update, by),
    }
}

/// The same of an `int`.
#[inline(always)]
fn change_int(store: &mut Store, to: Ptr, update: &Update, by: i64, kind: Kind) -> Option<i64>
    requires same { update.now.kind ≡ kind }
    requires int { kind ≡ kinds.Int }
    ensures some { IfSome result (λ z. Changes update.now to.0 by store.old store.new z) }
    ensures none { result ≡ None → store.new ≡ store.old }
{
    let old = read_int(store, to, kind)?;
    let widened = fitted(update.widened, old)?;
    let made = combined(&update.operation, store, widened, by)?;
    let new = fitted(kind, made)?;
    match put_int(store, to, kind, new) {
        Ok(()) => Some(given(update, old, new)),
        Err(_) => None,
    }
}

/// `a += b` and `++` of an `int`, by a number, where it stands so many places from the end of the objects alive.
#[inline(always)]
pub(crate) fn added(
    store: &mut Store,
    to: Ptr,
    behind: usize,
    update: &Update,
    by: i64,
) -> Option<i64>
    ensures some { IfSome result (λ z. Changes update.now to.0 by store.old store.new z) }
    ensures none { result ≡ None → store.new ≡ store.old }
{
    if adds_ints(update) {
        match store.add_int_near(to, behind, by) {
            Some(before) => {
                let old = before as i64;
                Some(given(update, old, old + by))
            }
            None => None,
        }
    } else {
        None
    }
}

/// Whether an update adds to an `int`.
#[inline(always)]
fn adds_ints(update: &Update) -> bool
    ensures { result ≡ true → AddsInts update.now }
{
    match update.kind {
        Kind::Int => match update.widened {
            Kind::Int => match update.operation {
                Operation::Integers(Arith::Int, IntegerOperator::Plus) => true,
                _ => false,
            },
            _ => false,
        },
        _ => false,
    }
}

/// The number at the place of an `int`.
#[inline(always)]
fn read_int(store: &Store, place: Ptr, kind: Kind) -> Option<i64>
    requires { kind ≡ kinds.Int }
    ensures { IfSome result (λ z. load store.now place.0 (kind_type kind) ≡ Ok (number z)) }
{
    int_at(store, place)
}

/// A number is put at the place of an `int`.
#[inline(always)]
fn put_int(store: &mut Store, to: Ptr, kind: Kind, value: i64) -> Result<(), Trap>
    requires { kind ≡ kinds.Int }
    ensures outcome { outcome result store.new
        ≡ put_there store.old to.0 (kind_type kind) (number value) }
    ensures unchanged { OnErr result (store.new ≡ store.old) }
{
    store_int(store, to, value)
}

/// The same of the other types.
#[inline(never)]
fn change_other(store: &mut Store, to: Ptr, update: &Update, by: i64) -> Option<i64>
    ensures some { IfSome result (λ z. Changes update.now to.0 by store.old store.new z) }
    ensures none { result ≡ None → store.new ≡ store.old }
{
    let old = read(store, to, update.kind)?;
    let widened = fitted(update.widened, old)?;
    let made = combined(&update.operation, store, widened, by)?;
    let new = fitted(update.kind, made)?;
    match put(store, to, update.kind, new) {
        Ok(()) => Some(given(update, old, new)),
        Err(_) => None,
    }
}

/// What an update gives: the number from before, or that from behind.
#[inline(always)]
fn given(update: &Update, old: i64, new: i64) -> i64
    ensures { result ≡ (if update.now.gives_old then old else new) }
{
    if update.gives_old { old } else { new }
}

/// A number is put at a place.
#[inline(always)]
fn put(store: &mut Store, to: Ptr, kind: Kind, value: i64) -> Result<(), Trap>
    ensures outcome { outcome result store.new
        ≡ put_there store.old to.0 (kind_type kind) (number value) }
    ensures unchanged { OnErr result (store.new ≡ store.old) }
{
    match kind {
        Kind::Int => store_int(store, to, value),
        Kind::Long => store_long(store, to, value),
        Kind::Char => store_char(store, to, value),
        _ => put_other(store, to, kind, value),
    }
}

/// The same of the other types.
#[inline(never)]
fn put_other(store: &mut Store, to: Ptr, kind: Kind, value: i64) -> Result<(), Trap>
    ensures outcome { outcome result store.new
        ≡ put_there store.old to.0 (kind_type kind) (number value) }
    ensures unchanged { OnErr result (store.new ≡ store.old) }
{
    stored(store, to, kind, Word::Signed(value))
}
