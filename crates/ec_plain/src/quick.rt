//! Operations on two numbers that `long` has, which are the most of all, done in its arithmetic; all others; and
//! conversions.

ghost use Rattle.std.specs.Prelude.{◌≡◌, ◌≤ℤ◌, Ok, pos, int_div, int_rem, IfSome};
ghost use Rattle.ec_ctypes.specs.Arithmetic.{converted};
ghost use Rattle.ec_memory_defs.specs.Kinds.{kind_type};
ghost use Rattle.ec_memory_defs.specs.Memory.{Memory, moved, number};
ghost use Rattle.ec_meaning_defs.specs.resolved.Operations.{address_worked, bits_of, calculated, compares, gives, quotient, result_of, value_as, worked};
ghost use Rattle.ec_values.specs.Operations.{comparison_view, operation_view, operator_view};
ghost use Rattle.ec_values.specs.Words.{word_view, worked_by};
ghost use Rattle.ec_plain.specs.Outcomes.{outcome_view};

use crate::outcome::Outcome;
use ec_bytes::Ptr;
use ec_code::small;
use ec_ctypes::Arith;
use ec_memory::Store;
use ec_memory_defs::Kind;
use ec_values::{Comparison, IntegerOperator, Operation, Word, convert, work};

/// What an operation gives for two values. Pointers move within their objects.
#[inline(always)]
pub fn operate(operation: Operation, store: &Store, a: Word, b: Word) -> Outcome
    ensures { worked_by (outcome_view result)
        ≡ worked (operation_view operation) store.now (word_view a) (word_view b) }
{
    match small(b) {
        Some(y) => match a {
            Word::Address(ptr) => match operation {
                Operation::PointerPlus(size) => moved(store, ptr, y, size),
                _ => slow(operation, store, a, b),
            },
            _ => match small(a) {
                Some(x) => match quick(operation, x, y) {
                    Some(number) => Outcome::Signed(number),
                    None => slow(operation, store, a, b),
                },
                None => slow(operation, store, a, b),
            },
        },
        None => slow(operation, store, a, b),
    }
}

/// The same, for any values.
#[inline(never)]
fn slow(operation: Operation, store: &Store, a: Word, b: Word) -> Outcome
    ensures { worked_by (outcome_view result)
        ≡ worked (operation_view operation) store.now (word_view a) (word_view b) }
{
    Outcome::of(work(operation, store, a, b))
}

/// A pointer that is so many elements further on.
#[inline(always)]
fn moved(store: &Store, ptr: Ptr, by: i64, size: u64) -> Outcome
    ensures { worked_by (outcome_view result) ≡ address_worked (moved store.now ptr.0 by size) }
{
    match store.move_ptr(ptr, by, size) {
        Ok(to) => Outcome::Address(to),
        Err(trap) => Outcome::trapped(trap),
    }
}

/// What an operation gives for two numbers, where it is a number that `long` has.
#[inline(always)]
pub(crate) fn combined(operation: &Operation, store: &Store, x: i64, y: i64) -> Option<i64>
    ensures { IfSome result (λ z.
        worked (operation_view operation.now) store.now (number x) (number y) ≡ gives (number z)) }
{
    match quick(*operation, x, y) {
        Some(made) => Some(made),
        None => combined_slowly(operation, store, x, y),
    }
}

/// The same, where it stands beside others, so that it isn't drawn in for each.
#[inline(never)]
pub(crate) fn combined_aside(operation: &Operation, store: &Store, x: i64, y: i64) -> Option<i64>
    ensures { IfSome result (λ z.
        worked (operation_view operation.now) store.now (number x) (number y) ≡ gives (number z)) }
{
    combined(operation, store, x, y)
}

/// The same, for any operation.
#[inline(never)]
fn combined_slowly(operation: &Operation, store: &Store, x: i64, y: i64) -> Option<i64>
    ensures { IfSome result (λ z.
        worked (operation_view operation.now) store.now (number x) (number y) ≡ gives (number z)) }
{
    match slow(*operation, store, Word::Signed(x), Word::Signed(y)).get() {
        Ok(word) => small(word),
        Err(_) => None,
    }
}

/// What an operation gives for two numbers, where it is a number that `long` has and is found at once.
#[inline(always)]
fn quick(operation: Operation, x: i64, y: i64) -> Option<i64>
    ensures { IfSome result (λ z. (m : Memory) →
        worked (operation_view operation) m (number x) (number y) ≡ gives (number z)) }
{
    match operation {
        Operation::Integers(ty, operator) => integers(ty, operator, x, y),
        Operation::Compare(comparison) => Some(compared(comparison, x, y) as i64),
        _ => None,
    }
}

/// What a comparison gives for two numbers.
#[inline(always)]
pub(crate) fn compared_by(operation: &Operation, x: i64, y: i64) -> Option<i64>
    ensures { IfSome result (λ z. (m : Memory) →
        worked (operation_view operation.now) m (number x) (number y) ≡ gives (number z)) }
{
    match operation {
        Operation::Compare(comparison) => Some(compared(*comparison, x, y) as i64),
        _ => None,
    }
}

/// What adding or subtracting two numbers gives.
#[inline(always)]
pub(crate) fn summed_by(operation: &Operation, x: i64, y: i64) -> Option<i64>
    ensures { IfSome result (λ z. (m : Memory) →
        worked (operation_view operation.now) m (number x) (number y) ≡ gives (number z)) }
{
    match operation {
        Operation::Integers(ty, IntegerOperator::Plus) => fitting(*ty, x.checked_add(y)?),
        Operation::Integers(ty, IntegerOperator::Minus) => fitting(*ty, x.checked_sub(y)?),
        _ => None,
    }
}

/// The remainder of a number by one above 0.
#[inline(always)]
pub(crate) fn rest_by(operation: &Operation, x: i64, y: i64) -> Option<i64>
    ensures { IfSome result (λ z. (m : Memory) →
        worked (operation_view operation.now) m (number x) (number y) ≡ gives (number z)) }
{
    match operation {
        Operation::Integers(ty, IntegerOperator::Remainder) => {
            divided(*ty, x, y)?;
            Some(rest(x, y))
        }
        _ => None,
    }
}

/// What an operator gives for two numbers of `int`, `long` or `long long`, where it doesn't trap and is found at once.
#[inline(always)]
fn integers(ty: Arith, operator: IntegerOperator, x: i64, y: i64) -> Option<i64>
    ensures { IfSome result (λ z. calculated ty (operator_view operator) x y ≡ Ok z) }
{
    match operator {
        IntegerOperator::Plus => fitting(ty, x.checked_add(y)?),
        IntegerOperator::Minus => fitting(ty, x.checked_sub(y)?),
        IntegerOperator::Times => fitting(ty, x.checked_mul(y)?),
        IntegerOperator::Divided => divided(ty, x, y),
        IntegerOperator::Remainder => {
            divided(ty, x, y)?;
            Some(rest(x, y))
        }
        _ => with_both(ty, operator, x, y),
    }
}

/// What an operator on bits gives for two numbers below 2^31.
#[inline(never)]
fn with_both(ty: Arith, operator: IntegerOperator, x: i64, y: i64) -> Option<i64>
    ensures { IfSome result (λ z. calculated ty (operator_view operator) x y ≡ Ok z) }
{
    match operator {
        IntegerOperator::BitsAnd => with_bits(ty, bits(ty, x)? & bits(ty, y)?),
        IntegerOperator::BitsOr => with_bits(ty, bits(ty, x)? | bits(ty, y)?),
        IntegerOperator::BitsXor => with_bits(ty, bits(ty, x)? ^ bits(ty, y)?),
        _ => None,
    }
}

/// The bits of a number below 2^31 of a type with 32 bits or more.
#[inline(always)]
fn bits(ty: Arith, number: i64) -> Option<u64>
    ensures { IfSome result (λ n. bits_of ty number ≡ n) }
{
    if number < 0 || number > i32::MAX as i64 {
        return None;
    }
    match ty {
        Arith::Int | Arith::UInt => Some(number as u64),
        Arith::Long | Arith::ULong => Some(number as u64),
        Arith::LLong | Arith::ULLong => Some(number as u64),
        _ => None,
    }
}

/// The number below 2^31 that has these bits.
#[inline(always)]
fn with_bits(ty: Arith, bits: u64) -> Option<i64>
    ensures { IfSome result (λ z. converted ty (pos bits) ≡ z) }
{
    if bits > i32::MAX as u64 {
        return None;
    }
    match ty {
        Arith::Int | Arith::UInt => Some(bits as i64),
        Arith::Long | Arith::ULong => Some(bits as i64),
        Arith::LLong | Arith::ULLong => Some(bits as i64),
        _ => None,
    }
}

/// The quotient by a number above 0.
#[inline(always)]
fn divided(ty: Arith, x: i64, y: i64) -> Option<i64>
    ensures value { IfSome result (λ z. quotient ty x y ≡ Ok z) }
    ensures above { IfSome result (λ z. pos 1 ≤ℤ y) }
{
    if y <= 0 {
        return None;
    }
    fitting(ty, over(x, y))
}

/// The quotient, cut towards zero.
#[inline(always)]
fn over(x: i64, y: i64) -> i64
    requires { pos 1 ≤ℤ y }
    ensures { result ≡ int_div x y }
{
    x / y
}

/// The remainder, with the sign of the left operand.
#[inline(always)]
fn rest(x: i64, y: i64) -> i64
    requires { pos 1 ≤ℤ y }
    ensures { result ≡ int_rem x y }
{
    x % y
}

/// A result of `int`, `long` or `long long`, where it is one.
#[inline(always)]
fn fitting(ty: Arith, number: i64) -> Option<i64>
    ensures { IfSome result (λ z. result_of ty number ≡ Ok z) }
{
    if i32::MIN as i64 <= number && number <= i32::MAX as i64 {
        match ty {
            Arith::Int => Some(number),
            Arith::Long => Some(number),
            Arith::LLong => Some(number),
            _ => None,
        }
    } else {
        match ty {
            Arith::Long => Some(number),
            Arith::LLong => Some(number),
            _ => None,
        }
    }
}

/// Whether two numbers compare so.
#[inline(always)]
fn compared(comparison: Comparison, x: i64, y: i64) -> bool
    ensures { result ≡ compares (comparison_view comparison) x y }
{
    match comparison {
        Comparison::Equal => x == y,
        Comparison::Unequal => x != y,
        Comparison::Less => x < y,
        Comparison::Greater => x > y,
        Comparison::AtMost => x <= y,
        Comparison::AtLeast => x >= y,
    }
}

/// A value as one of another type: at once, where it is a number that the type has.
#[inline(always)]
pub fn converted(to: Kind, word: Word) -> Word
    ensures { word_view result ≡ value_as (kind_type to) (word_view word) }
{
    match word {
        Word::Signed(amount) => match to {
            Kind::Int => {
                if i32::MIN as i64 <= amount && amount <= i32::MAX as i64 {
                    word
                } else {
                    convert(to, word)
                }
            }
            Kind::Long => word,
            Kind::LLong => word,
            _ => convert(to, word),
        },
        _ => convert(to, word),
    }
}

/// A number as one of another type, where that has it.
#[inline(always)]
pub(crate) fn fitted(to: Kind, amount: i64) -> Option<i64>
    ensures { IfSome result (λ z. value_as (kind_type to) (number amount) ≡ number z) }
{
    if i32::MIN as i64 <= amount && amount <= i32::MAX as i64 {
        match to {
            Kind::Int => Some(amount),
            Kind::Long => Some(amount),
            Kind::LLong => Some(amount),
            Kind::Char => {
                if -128 <= amount && amount <= 127 {
                    Some(amount)
                } else {
                    None
                }
            }
            _ => None,
        }
    } else {
        match to {
            Kind::Long => Some(amount),
            Kind::LLong => Some(amount),
            _ => None,
        }
    }
}
