//! Integers of one type, and shifts.

ghost use Rattle.std.specs.Prelude.{◌≡◌, ◌≢◌, ◌<◌, ◌*◌, ◌^◌, ◌+ℤ◌, ◌-ℤ◌, ◌*ℤ◌, ◌<ℤ◌, ◌≤ℤ◌, neg_ℤ, int_div, int_rem, pos, IfOk};
ghost use Rattle.std.specs.Int.{int_div_euclid};
ghost use Rattle.ec_ctypes.specs.Arithmetic.{converted};
ghost use Rattle.ec_meaning_defs.specs.resolved.Operations.{bits_of, calculated, compares, negated, flipped, quotient, remainder_of, result_of, times, shifted, shifted_left, shifted_right};
ghost use Rattle.ec_values.specs.Operations.{operator_view, comparison_view};
ghost use Rattle.ec_values.specs.Words.{HasWord};

use crate::operation::{Comparison, IntegerOperator};
use ec_base::Trap;
use ec_ctypes::{Arith, convert};

/// What an operator gives for two numbers.
pub(crate) fn calculated(
    ty: Arith,
    operator: IntegerOperator,
    a: i128,
    b: i128,
) -> Result<i128, Trap>
    requires left { HasWord a }
    requires right { HasWord b }
    ensures value { result ≡ calculated ty (operator_view operator) a b }
    ensures bounds { IfOk result HasWord }
{
    match operator {
        IntegerOperator::Plus => result_of(ty, sum(a, b)),
        IntegerOperator::Minus => result_of(ty, less(a, b)),
        IntegerOperator::Times => product(ty, a, b),
        IntegerOperator::Divided => quotient(ty, a, b),
        IntegerOperator::Remainder => remainder(ty, a, b),
        IntegerOperator::BitsAnd => Ok(of_bits(ty, bits(ty, a) & bits(ty, b))),
        IntegerOperator::BitsOr => Ok(of_bits(ty, bits(ty, a) | bits(ty, b))),
        IntegerOperator::BitsXor => Ok(of_bits(ty, bits(ty, a) ^ bits(ty, b))),
    }
}

/// A result as a value of its type: a signed one that doesn't fit is `Overflow`, an unsigned one wraps (ISO/IEC 9899:1999,
/// 6.2.5 and 6.5).
fn result_of(ty: Arith, number: i128) -> Result<i128, Trap>
    ensures value { result ≡ result_of ty number }
    ensures bounds { IfOk result HasWord }
{
    if !ty.is_signed() {
        return Ok(convert(ty, number));
    }
    if ty.least() <= number && number <= ty.greatest() {
        Ok(number)
    } else {
        Err(Trap::Overflow)
    }
}

/// The product of two numbers (6.5.5). Only that of two that are not negative may have more than 127 bits.
fn product(ty: Arith, a: i128, b: i128) -> Result<i128, Trap>
    requires left { HasWord a }
    requires right { HasWord b }
    ensures value { result ≡ calculated ty times a b }
    ensures bounds { IfOk result HasWord }
{
    if a < 0 {
        return result_of(ty, negative_times(a, b));
    }
    if b < 0 {
        return result_of(ty, times_negative(a, b));
    }
    natural_product(ty, a as u64, b as u64)
}

/// The product of two numbers that are not negative.
fn natural_product(ty: Arith, a: u64, b: u64) -> Result<i128, Trap>
    ensures value { result ≡ result_of ty (pos (a * b)) }
    ensures bounds { IfOk result HasWord }
{
    let product = a as u128 * b as u128;
    if product <= i64::MAX as u128 {
        return result_of(ty, product as i128);
    }
    if ty.is_signed() {
        return Err(Trap::Overflow);
    }
    if ty == Arith::Bool {
        return Ok(1);
    }
    Ok(convert(ty, (product % (1 << 64)) as i128))
}

#[inline(always)]
fn sum(a: i128, b: i128) -> i128
    requires left { HasWord a }
    requires right { HasWord b }
    ensures { result ≡ a +ℤ b }
{
    a + b
}

#[inline(always)]
fn less(a: i128, b: i128) -> i128
    requires left { HasWord a }
    requires right { HasWord b }
    ensures { result ≡ a -ℤ b }
{
    a - b
}

/// The opposite of a number.
#[inline(always)]
pub(crate) fn opposite(a: i128) -> i128
    requires { HasWord a }
    ensures { result ≡ neg_ℤ a }
{
    -a
}

fn negative_times(a: i128, b: i128) -> i128
    requires left { HasWord a }
    requires right { HasWord b }
    requires negative { a <ℤ pos 0 }
    ensures { result ≡ a *ℤ b }
{
    a * b
}

fn times_negative(a: i128, b: i128) -> i128
    requires left { HasWord a }
    requires right { HasWord b }
    requires negative { b <ℤ pos 0 }
    ensures { result ≡ a *ℤ b }
{
    a * b
}

fn over(a: i128, b: i128) -> i128
    requires left { HasWord a }
    requires right { HasWord b }
    requires nonzero { b ≢ pos 0 }
    ensures { result ≡ int_div a b }
{
    a / b
}

fn rest(a: i128, b: i128) -> i128
    requires left { HasWord a }
    requires right { HasWord b }
    requires nonzero { b ≢ pos 0 }
    ensures value { result ≡ int_rem a b }
    ensures bounds { HasWord result }
{
    a % b
}

/// The quotient, cut towards zero (6.5.5).
fn quotient(ty: Arith, a: i128, b: i128) -> Result<i128, Trap>
    requires left { HasWord a }
    requires right { HasWord b }
    ensures value { result ≡ quotient ty a b }
    ensures bounds { IfOk result HasWord }
{
    if b == 0 {
        Err(Trap::Zero)
    } else {
        result_of(ty, over(a, b))
    }
}

/// The remainder of that (6.5.5).
fn remainder(ty: Arith, a: i128, b: i128) -> Result<i128, Trap>
    requires left { HasWord a }
    requires right { HasWord b }
    ensures value { result ≡ remainder_of ty a b }
    ensures bounds { IfOk result HasWord }
{
    if b == 0 {
        return Err(Trap::Zero);
    }
    match result_of(ty, over(a, b)) {
        Ok(_) => Ok(rest(a, b)),
        Err(trap) => Err(trap),
    }
}

/// The bits of a value of the type, as a number (6.2.6.2).
fn bits(ty: Arith, number: i128) -> u64
    ensures { result ≡ bits_of ty number }
{
    match ty {
        Arith::Bool => number.rem_euclid(1 << 1) as u64,
        Arith::Char | Arith::UChar => number.rem_euclid(1 << 8) as u64,
        Arith::Short | Arith::UShort => number.rem_euclid(1 << 16) as u64,
        Arith::Int | Arith::UInt => number.rem_euclid(1 << 32) as u64,
        Arith::Long | Arith::ULong | Arith::LLong | Arith::ULLong => {
            number.rem_euclid(1 << 64) as u64
        }
    }
}

/// The value of the type that has these bits.
fn of_bits(ty: Arith, bits: u64) -> i128
    ensures value { result ≡ converted ty (pos bits) }
    ensures bounds { HasWord result }
{
    convert(ty, bits as i128)
}

/// `-a` (6.5.3.3)
pub(crate) fn negated(ty: Arith, a: i128) -> Result<i128, Trap>
    requires { HasWord a }
    ensures value { result ≡ negated ty a }
    ensures bounds { IfOk result HasWord }
{
    result_of(ty, opposite(a))
}

/// `~a` (6.5.3.3)
pub(crate) fn flipped(ty: Arith, a: i128) -> i128
    requires { HasWord a }
    ensures value { result ≡ flipped ty a }
    ensures bounds { HasWord result }
{
    convert(ty, -1 - a)
}

/// A left shift (6.5.7): the amount is tested before all else, then that the value of a signed type is not negative.
pub(crate) fn shifted_left(ty: Arith, a: i128, amount: i128) -> Result<i128, Trap>
    requires { HasWord a }
    ensures value { result ≡ shifted_left ty a amount }
    ensures bounds { IfOk result HasWord }
{
    if amount < 0 || amount >= ty.width() as i128 {
        return Err(Trap::Shift);
    }
    shifted_up(ty, a, amount as u32)
}

/// The same by an amount that the type allows.
fn shifted_up(ty: Arith, a: i128, amount: u32) -> Result<i128, Trap>
    requires number { HasWord a }
    requires small { amount < 64 }
    ensures value { result ≡ shifted ty a (pos amount) }
    ensures bounds { IfOk result HasWord }
{
    if ty.is_signed() {
        if a < 0 {
            return Err(Trap::Overflow);
        }
        return result_of(ty, power_times(a, amount));
    }
    result_of(ty, power_times(a, amount))
}

/// A right shift (6.5.7), which keeps the sign.
pub(crate) fn shifted_right(ty: Arith, a: i128, amount: i128) -> Result<i128, Trap>
    requires { HasWord a }
    ensures value { result ≡ shifted_right ty a amount }
    ensures bounds { IfOk result HasWord }
{
    if amount < 0 || amount >= ty.width() as i128 {
        return Err(Trap::Shift);
    }
    Ok(shifted_back(a, amount as u32))
}

/// A number times a power of 2.
fn power_times(a: i128, amount: u32) -> i128
    requires number { HasWord a }
    requires small { amount < 64 }
    ensures { result ≡ a *ℤ pos (2 ^ amount) }
{
    a * power(amount)
}

/// A power of 2.
fn power(amount: u32) -> i128
    requires { amount < 64 }
    ensures value { result ≡ pos (2 ^ amount) }
    ensures low { pos 0 ≤ℤ result }
    ensures high { result ≤ℤ pos (2 ^ 63) }
{
    1 << amount
}

/// A number by a power of 2, cut towards the least number.
fn shifted_back(a: i128, amount: u32) -> i128
    requires number { HasWord a }
    requires small { amount < 64 }
    ensures value { result ≡ int_div_euclid a (pos (2 ^ amount)) }
    ensures bounds { HasWord result }
{
    a.div_euclid(1 << amount)
}

/// Whether a comparison holds (6.5.8 and 6.5.9).
#[inline(always)]
pub(crate) fn compares(comparison: Comparison, a: i128, b: i128) -> bool
    ensures { result ≡ compares (comparison_view comparison) a b }
{
    match comparison {
        Comparison::Equal => a <= b && b <= a,
        Comparison::Unequal => !(a <= b && b <= a),
        Comparison::Less => a < b,
        Comparison::Greater => b < a,
        Comparison::AtMost => a <= b,
        Comparison::AtLeast => b <= a,
    }
}
