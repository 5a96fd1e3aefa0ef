//! Numbers that are found at once: expressions that only read, over numbers that `long` has.

ghost use Rattle.std.specs.Prelude.{◌≡◌, [], ◌∷◌, List, Ok, IfSome};
ghost use Rattle.ec_bytes.specs.declared.scalar.address.Ptr.{Ptr};
ghost use Rattle.ec_code.specs.Trees.{leaf_view, one, two};
ghost use Rattle.ec_code.specs.Views.{plain_step_view, plain_view};
ghost use Rattle.ec_code.specs.declared.step.Binary.TheVariants as binary;
ghost use Rattle.ec_code.specs.declared.step.Leaf.TheVariants as leaf;
ghost use Rattle.ec_code.specs.declared.step.Unary.TheVariants as unary;
ghost use Rattle.ec_memory_defs.specs.Kinds.{kind_type};
ghost use Rattle.ec_memory_defs.specs.Memory.{Memory, address, load as loaded, moved, number};
ghost use Rattle.ec_memory_defs.specs.declared.kind.Kind.TheVariants as kind;
ghost use Rattle.ec_plain.specs.Numbers.{Follows, FollowsPlace, Leads, Operates, Stands, StepLeads};

use crate::quick::{combined, combined_aside, fitted, rest_by};
use ec_bytes::Ptr;
use ec_code::{Binary, Leaf, Plain, PlainStep, Unary, small};
use ec_memory::Store;
use ec_memory_defs::Kind;
use ec_values::{Operation, load};

/// The value of an expression that only reads, where it is a number that `long` has and is found at once.
#[cycle(number)]
#[inline(never)]
pub(crate) fn number(store: &Store, scope: &[Ptr], expression: &Plain) -> Option<i64>
    ensures { IfSome result (λ z.
        Leads scope.now (plain_view expression.now) store.now store.now (number z)) }
{
    match place_of(scope, &expression.leaf) {
        Some(place) => placed(store, scope, place, expression.steps.as_slice()),
        None => {
            let begun = leaf_number(store, scope, &expression.leaf)?;
            follow(store, scope, begun, expression.steps.as_slice())
        }
    }
}

/// The same, where it begins with a constant, or with an `int` or a `long` of the function.
#[inline(always)]
pub(crate) fn valued(store: &Store, scope: &[Ptr], expression: &Plain) -> Option<i64>
    ensures { IfSome result (λ z.
        Leads scope.now (plain_view expression.now) store.now store.now (number z)) }
{
    let begun = leaf_number(store, scope, &expression.leaf)?;
    follow(store, scope, begun, expression.steps.as_slice())
}

/// What steps make of a place that begin with the value there, or with that of an element of an array.
#[cycle(number)]
#[inline(always)]
fn placed(store: &Store, scope: &[Ptr], place: Ptr, steps: &[PlainStep]) -> Option<i64>
    ensures { IfSome result (λ z. FollowsPlace scope.now steps.now place.0 store.now z) }
{
    match steps {
        [first, rest @ ..] => match loaded_kind(first) {
            Some(kind) => {
                let begun = read(store, place, kind)?;
                follow(store, scope, begun, rest)
            }
            None => match rest {
                [second, rest @ ..] => {
                    let begun = element_value(store, scope, place, first, second)?;
                    follow(store, scope, begun, rest)
                }
                [] => None,
            },
        },
        [] => None,
    }
}

/// The value of an element of an array, if the first step leads to one and the second loads it.
#[cycle(number)]
#[inline(always)]
fn element_value(
    store: &Store,
    scope: &[Ptr],
    place: Ptr,
    first: &PlainStep,
    second: &PlainStep,
) -> Option<i64>
    ensures { IfSome result (λ z. FollowsPlace scope.now
        (first.now ∷ second.now ∷ []) place.0 store.now z) }
{
    let kind = loaded_kind(second)?;
    let element = element(store, scope, place, first)?;
    read(store, element, kind)
}

/// What the steps make of a number.
#[cycle(number)]
#[inline(always)]
fn follow(store: &Store, scope: &[Ptr], begun: i64, steps: &[PlainStep]) -> Option<i64>
    ensures { IfSome result (λ z. Follows scope.now steps.now begun store.now z) }
{
    let mut value = begun;
    for step in steps {
        value = advance(store, scope, value, step)?;
    }
    Some(value)
}

/// What a step makes of a number.
#[cycle(number)]
#[inline(always)]
fn advance(store: &Store, scope: &[Ptr], value: i64, step: &PlainStep) -> Option<i64>
    ensures { IfSome result (λ z. StepLeads scope.now (plain_step_view step.now) (number value)
        store.now store.now (number z)) }
{
    match right_of(store, scope, step) {
        Some(right) => combined(right.operation, store, value, right.number),
        None => match step {
            PlainStep::Two(Binary::Operate(operation), right) => {
                let right = number(store, scope, right)?;
                combined_aside(operation, store, value, right)
            }
            _ => without_right(store, scope, value, step),
        },
    }
}

/// An operation, and the number at its right.
#[derive(Clone, Copy)]
struct Right<'p> {
    operation: &'p Operation,
    number: i64,
}

/// The operation of a step, with the number at its right where that is found without a way back.
#[inline(always)]
fn right_of<'p>(store: &Store, scope: &[Ptr], step: &'p PlainStep) -> Option<Right<'p>>
    ensures { IfSome result (λ r. Operates scope.now (plain_step_view step.now) store.now
        r.operation.now r.number) }
{
    match step {
        PlainStep::WithNumber(operation, number) => {
            Some(Right {
                operation,
                number: *number,
            })
        }
        PlainStep::WithInt(operation, slot) => {
            let number = int(store, scope, *slot)?;
            Some(Right { operation, number })
        }
        PlainStep::Two(Binary::Operate(operation), right) => {
            let number = with_constant(store, scope, right)?;
            Some(Right { operation, number })
        }
        _ => None,
    }
}

/// What any other step makes of a number.
#[inline(always)]
fn without_right(store: &Store, scope: &[Ptr], value: i64, step: &PlainStep) -> Option<i64>
    ensures { IfSome result (λ z. StepLeads scope.now (plain_step_view step.now) (number value)
        store.now store.now (number z)) }
{
    match step {
        PlainStep::One(Unary::Convert(_, to)) => fitted(*to, value),
        PlainStep::One(Unary::Not) => Some((value == 0) as i64),
        PlainStep::WithLong(operation, slot) => with_long(operation, store, scope, value, *slot),
        _ => None,
    }
}

/// What an operation gives for a number and the value of a `long` of the function.
#[inline(never)]
fn with_long(
    operation: &Operation,
    store: &Store,
    scope: &[Ptr],
    value: i64,
    slot: u32,
) -> Option<i64>
    ensures { IfSome result (λ z. StepLeads scope.now
        (two (binary.Operate operation.now) (leaf_view (leaf.LongValue slot)))
        (number value) store.now store.now (number z)) }
{
    let right = long(store, scope, slot)?;
    combined(operation, store, value, right)
}

/// The number that an operation on an `int` of the function and a constant gives, as one of another type where that follows.
#[inline(always)]
fn with_constant(store: &Store, scope: &[Ptr], expression: &Plain) -> Option<i64>
    ensures { IfSome result (λ z.
        Leads scope.now (plain_view expression.now) store.now store.now (number z)) }
{
    match expression.leaf {
        Leaf::IntValue(slot) => {
            let begun = int(store, scope, slot)?;
            few(store, begun, expression.steps.as_slice())
        }
        _ => None,
    }
}

/// What an operation with a constant makes of a number, as one of another type where that follows.
#[inline(always)]
fn few(store: &Store, begun: i64, steps: &[PlainStep]) -> Option<i64>
    ensures { IfSome result (λ z. (scope : List Ptr) → Follows scope steps.now begun store.now z) }
{
    match steps {
        [only] => with_number(store, begun, only),
        [first, last] => {
            let made = with_number(store, begun, first)?;
            as_other(made, last)
        }
        _ => None,
    }
}

/// What an operation with a constant makes of a number.
#[inline(always)]
fn with_number(store: &Store, value: i64, step: &PlainStep) -> Option<i64>
    ensures { IfSome result (λ z. (scope : List Ptr) → StepLeads scope (plain_step_view step.now)
        (number value) store.now store.now (number z)) }
{
    match step {
        PlainStep::WithNumber(operation, right) => match rest_by(operation, value, *right) {
            Some(made) => Some(made),
            None => combined_aside(operation, store, value, *right),
        },
        _ => None,
    }
}

/// What a step makes of a number that takes it as one of another type.
#[inline(always)]
fn as_other(value: i64, step: &PlainStep) -> Option<i64>
    ensures { IfSome result (λ z. (scope : List Ptr) (m : Memory) → StepLeads scope
        (plain_step_view step.now) (number value) m m (number z)) }
{
    match step {
        PlainStep::One(Unary::Convert(_, to)) => fitted(*to, value),
        _ => None,
    }
}

/// The number of an expression that most often has few steps.
#[inline(always)]
pub(crate) fn operand(store: &Store, scope: &[Ptr], expression: &Plain) -> Option<i64>
    ensures { IfSome result (λ z.
        Leads scope.now (plain_view expression.now) store.now store.now (number z)) }
{
    match valued(store, scope, expression) {
        Some(found) => Some(found),
        None => number(store, scope, expression),
    }
}

/// The number of a constant, or of an `int` or a `long` of the function.
#[inline(always)]
fn leaf_number(store: &Store, scope: &[Ptr], leaf: &Leaf) -> Option<i64>
    ensures { IfSome result (λ z.
        Leads scope.now (leaf_view leaf.now) store.now store.now (number z)) }
{
    match leaf {
        Leaf::IntValue(slot) => int(store, scope, *slot),
        Leaf::LongValue(slot) => long(store, scope, *slot),
        Leaf::Constant(word) => small(*word),
        _ => None,
    }
}

/// The value of an `int` of the function.
#[inline(always)]
pub(crate) fn int(store: &Store, scope: &[Ptr], slot: u32) -> Option<i64>
    ensures { IfSome result (λ z.
        Leads scope.now (leaf_view (leaf.IntValue slot)) store.now store.now (number z)) }
{
    int_near(store, slot_place(scope, slot)?, behind(scope, slot))
}

/// The value of a `long` of the function.
#[inline(never)]
pub(crate) fn long(store: &Store, scope: &[Ptr], slot: u32) -> Option<i64>
    ensures { IfSome result (λ z.
        Leads scope.now (leaf_view (leaf.LongValue slot)) store.now store.now (number z)) }
{
    long_near(store, slot_place(scope, slot)?, behind(scope, slot))
}

/// How many places from the end of the objects alive that of a slot stands, where no other came behind those in scope.
#[inline(always)]
pub(crate) fn behind(scope: &[Ptr], slot: u32) -> usize {
    scope.len().wrapping_sub(slot as usize)
}

/// The number of the `int` at a place, which is found without a search where it stands so many from the end.
#[inline(always)]
fn int_near(store: &Store, place: Ptr, behind: usize) -> Option<i64>
    ensures { IfSome result (λ z. loaded store.now place.0 (kind_type kind.Int) ≡ Ok (number z)) }
{
    match store.load_int_near(place, behind) {
        Some(value) => Some(value as i64),
        None => int_aside(store, place),
    }
}

/// The same by a search, which is rare.
#[inline(never)]
fn int_aside(store: &Store, place: Ptr) -> Option<i64>
    ensures { IfSome result (λ z. loaded store.now place.0 (kind_type kind.Int) ≡ Ok (number z)) }
{
    int_at(store, place)
}

/// The number of the `long` at a place, which is found without a search where it stands so many from the end.
#[inline(always)]
fn long_near(store: &Store, place: Ptr, behind: usize) -> Option<i64>
    ensures { IfSome result (λ z. loaded store.now place.0 (kind_type kind.Long) ≡ Ok (number z)) }
{
    match store.load_long_near(place, behind) {
        Some(value) => Some(value),
        None => long_at(store, place),
    }
}

/// The type of the value that a step loads, if it does.
#[inline(always)]
fn loaded_kind(step: &PlainStep) -> Option<Kind>
    ensures { IfSome result (λ k. plain_step_view step.now ≡ one (unary.Load k)) }
{
    match step {
        PlainStep::One(Unary::Load(kind)) => Some(*kind),
        _ => None,
    }
}

/// The element of an array, if a step leads to one by its index.
#[cycle(number)]
#[inline(always)]
pub(crate) fn element(store: &Store, scope: &[Ptr], first: Ptr, step: &PlainStep) -> Option<Ptr>
    ensures { IfSome result (λ p. StepLeads scope.now (plain_step_view step.now)
        (address first.0) store.now store.now (address p.0)) }
{
    match step {
        PlainStep::WithInt(Operation::PointerPlus(size), slot) => {
            let by = int(store, scope, *slot)?;
            moved(store, first, by, *size)
        }
        PlainStep::WithNumber(Operation::PointerPlus(size), by) => {
            moved(store, first, *by, *size)
        }
        PlainStep::Two(Binary::Operate(Operation::PointerPlus(size)), index) => {
            let by = number(store, scope, index)?;
            moved(store, first, by, *size)
        }
        _ => None,
    }
}

/// The place that is so many elements further on, in the same object.
#[inline(always)]
fn moved(store: &Store, first: Ptr, by: i64, size: u64) -> Option<Ptr>
    ensures { IfSome result (λ p. moved store.now first.0 by size ≡ Ok p.0) }
{
    match store.move_ptr(first, by, size) {
        Ok(to) => Some(to),
        Err(_) => None,
    }
}

/// The place of an object of the function or of the program.
#[inline(always)]
pub(crate) fn place_of(scope: &[Ptr], leaf: &Leaf) -> Option<Ptr>
    ensures { IfSome result (λ p. Stands scope.now (leaf_view leaf.now) p.0) }
{
    match leaf {
        Leaf::Slot(slot) => slot_place(scope, *slot),
        Leaf::Object(number) => Some(object_place(*number)),
        _ => None,
    }
}

/// The place of an object of the function.
#[inline(always)]
pub(crate) fn slot_place(scope: &[Ptr], slot: u32) -> Option<Ptr>
    ensures { IfSome result (λ p. (m : Memory)
        → Leads scope.now (leaf_view (leaf.Slot slot)) m m (address p.0)) }
{
    match scope.get(slot as usize) {
        Some(ptr) => Some(*ptr),
        None => None,
    }
}

/// The place of an object of the program.
#[inline(always)]
pub(crate) fn object_place(number: u32) -> Ptr
    ensures { (scope : List Ptr) (m : Memory)
        → Leads scope (leaf_view (leaf.Object number)) m m (address result.0) }
{
    Ptr((number as u64) << 32)
}

/// The number at a place, where `long` has it.
#[inline(always)]
pub(crate) fn read(store: &Store, place: Ptr, kind: Kind) -> Option<i64>
    ensures { IfSome result (λ z. loaded store.now place.0 (kind_type kind) ≡ Ok (number z)) }
{
    match kind {
        Kind::Int => int_at(store, place),
        Kind::Long => long_at(store, place),
        Kind::Char => char_at(store, place),
        _ => read_other(store, place, kind),
    }
}

/// The number of the `int` at a place.
#[inline(always)]
pub(crate) fn int_at(store: &Store, place: Ptr) -> Option<i64>
    ensures { IfSome result (λ z. loaded store.now place.0 (kind_type kind.Int) ≡ Ok (number z)) }
{
    match store.load_int(place) {
        Ok(value) => Some(value as i64),
        Err(_) => None,
    }
}

/// The number of the `long` at a place.
#[inline(always)]
fn long_at(store: &Store, place: Ptr) -> Option<i64>
    ensures { IfSome result (λ z. loaded store.now place.0 (kind_type kind.Long) ≡ Ok (number z)) }
{
    match store.load_long(place) {
        Ok(value) => Some(value),
        Err(_) => None,
    }
}

/// The number of the `char` at a place.
#[inline(always)]
fn char_at(store: &Store, place: Ptr) -> Option<i64>
    ensures { IfSome result (λ z. loaded store.now place.0 (kind_type kind.Char) ≡ Ok (number z)) }
{
    match store.load_char(place) {
        Ok(value) => Some(value as i64),
        Err(_) => None,
    }
}

/// The same of the other types.
#[inline(never)]
fn read_other(store: &Store, place: Ptr, kind: Kind) -> Option<i64>
    ensures { IfSome result (λ z. loaded store.now place.0 (kind_type kind) ≡ Ok (number z)) }
{
    match load(store, place, kind) {
        Ok(word) => small(word),
        Err(_) => None,
    }
}
