//! Operations on the values of integer types, exact, with every trap (ISO/IEC 9899:1999, 6.5).

ghost use Rattle.std.specs.Prelude.{◌≡◌, ◌<◌, ◌≤◌, ◌-◌, ◌*◌, ◌^◌, ◌%◌, true, false, ◌&&◌, Some, pos, negsuc, ◌+ℤ◌, ◌-ℤ◌, ◌*ℤ◌, ◌<ℤ◌, int_le, int_div, int_rem, unsigned_abs};
ghost use Rattle.ec_ctypes.specs.Arithmetic.{IsValue, is_signed, width, converted};
ghost use Rattle.ec_typing_defs.specs.Constants as rule;
ghost use Rattle.ec_type_rules.specs.Values.{IsWide, IsSmall, AreValues};

use ec_ctypes::{Arith, BinOp, UnOp, convert, promote, usual};

/// Whether the number is 0.
pub(crate) fn is_zero(value: i128) -> bool
    ensures { result ≡ rule.is_zero value }
{
    value == 0
}

/// 1 where the test holds, and else 0.
pub(crate) fn truth(holds: bool) -> i128
    ensures { result ≡ rule.truth holds }
{
    if holds { 1 } else { 0 }
}

/// A binary operation on values of these types, or `None` where it traps (ISO/IEC 9899:1999, 6.5.5 to 6.5.14).
pub fn binary_value(op: BinOp, a: Arith, x: i128, b: Arith, y: i128) -> Option<i128>
    ensures { result ≡ rule.binary_value op a x b y }
{
    match op {
        BinOp::Shl | BinOp::Shr => shifted(op, promote(a), x, y),
        _ => common_operated(op, usual(a, b), x, y),
    }
}

/// A unary operation on a value of this type, or `None` where it traps (ISO/IEC 9899:1999, 6.5.3.3). `&` and `*` are
/// none of integers.
pub fn unary_value(op: UnOp, a: Arith, x: i128) -> Option<i128>
    ensures { result ≡ rule.unary_value op a x }
{
    match op {
        UnOp::Plus => Some(x),
        UnOp::Minus => negated(promote(a), x),
        UnOp::Flip => Some(convert(promote(a), flipped(x))),
        UnOp::Not => Some(truth(is_zero(x))),
        UnOp::Addr | UnOp::Deref => None,
    }
}

// The number whose bits are the others.
fn flipped(x: i128) -> i128
    ensures { result ≡ negsuc 0 -ℤ x }
{
    -1 - x
}

// The exact result of an operation in this type. It is reduced to an unsigned type, and has to fit a signed one
// (ISO/IEC 9899:1999, 6.2.5, 9; 6.5, 5).
fn result_in(t: Arith, exact: i128) -> Option<i128>
    ensures { result ≡ rule.result_in t exact }
{
    if !t.is_signed() {
        Some(convert(t, exact))
    } else if t.least() <= exact && exact <= t.greatest() {
        Some(exact)
    } else {
        None
    }
}

// `-` of a number, in a promoted type.
fn negated(t: Arith, x: i128) -> Option<i128>
    requires { IsWide t }
    ensures { result ≡ rule.result_in t (pos 0 -ℤ x) }
{
    if x == i128::MIN {
        return least_negated(t);
    }
    result_in(t, opposite(x))
}

// The number with the other sign.
fn opposite(x: i128) -> i128
    requires { negsuc (2 ^ 127 - 1) <ℤ x }
    ensures { result ≡ pos 0 -ℤ x }
{
    -x
}

// `-` of the least number of 128 bits. Reduced to an unsigned type it is 0, and it fits no signed one.
fn least_negated(t: Arith) -> Option<i128>
    requires { IsWide t }
    ensures { result ≡ rule.result_in t (pos (2 ^ 127)) }
{
    if t.is_signed() { None } else { Some(0) }
}

// A shift, in the type of its promoted left operand. The amount is not negative and below the width (ISO/IEC 9899:1999,
// 6.5.7, 3).
fn shifted(op: BinOp, t: Arith, x: i128, y: i128) -> Option<i128>
    requires { IsWide t }
    ensures { result ≡ rule.shifted op t x y }
{
    if y < 0 || y >= i128::from(t.width()) {
        return None;
    }
    let amount = y as u32;
    match op {
        BinOp::Shl => shifted_up(t, x, amount),
        _ => Some(shifted_down(x, amount)),
    }
}

// A value that is moved up by so many bits. If it is signed, it is not negative and the result fits (ISO/IEC 9899:1999,
// 6.5.7, 4).
fn shifted_up(t: Arith, x: i128, amount: u32) -> Option<i128>
    requires wide { IsWide t }
    requires amount { amount < 64 }
    ensures { result ≡ rule.shifted_up t x amount }
{
    if x < 0 {
        None
    } else if t.is_signed() {
        signed_up(t, x as u128, amount)
    } else {
        Some(unsigned_up(t, x as u128, amount))
    }
}

// A value of a signed type that is moved up.
fn signed_up(t: Arith, x: u128, amount: u32) -> Option<i128>
    requires signed { is_signed t ≡ true }
    requires amount { amount < 64 }
    ensures { result ≡ rule.result_in t (pos x *ℤ pos (2 ^ amount)) }
{
    if x >= 1 << 64 {
        return None;
    }
    result_in(t, raised(x, amount) as i128)
}

// A number times a power of 2.
fn raised(x: u128, amount: u32) -> u128
    requires number { x < 2 ^ 64 }
    requires amount { amount < 64 }
    ensures is { result ≡ x * 2 ^ amount }
    ensures small { result < 2 ^ 127 }
{
    x << amount
}

// A value of an unsigned type that is moved up, and reduced to it.
fn unsigned_up(t: Arith, x: u128, amount: u32) -> i128
    requires wide { IsWide t }
    requires unsigned { is_signed t ≡ false }
    requires amount { amount < 64 }
    ensures { result ≡ converted t (pos x *ℤ pos (2 ^ amount)) }
{
    reduced(t, raised(low_bits(t, x), amount))
}

// The bits of a number that a value of this type has.
fn low_bits(t: Arith, x: u128) -> u128
    ensures is { result ≡ x % 2 ^ width t }
    ensures small { result < 2 ^ 64 }
{
    x % (1 << t.width())
}

// A number as a value of an unsigned type.
fn reduced(t: Arith, x: u128) -> i128
    requires wide { IsWide t }
    requires unsigned { is_signed t ≡ false }
    ensures { result ≡ converted t (pos x) }
{
    low_bits(t, x) as i128
}

// A value that is moved down by so many bits. The bits of a negative one are filled with ones, which ISO/IEC 9899:1999,
// 6.5.7, 5 leaves to the implementation.
fn shifted_down(x: i128, amount: u32) -> i128
    requires { amount < 64 }
    ensures { Some result ≡ rule.shifted_down x amount }
{
    x.div_euclid(1 << amount)
}

// An operation on the operands in their common type, but a shift.
fn common_operated(op: BinOp, t: Arith, x: i128, y: i128) -> Option<i128>
    requires { IsWide t }
    ensures { result ≡ rule.common_operated op t x y }
{
    operated(op, t, value_in(t, x), value_in(t, y))
}

// A number as a value of this type.
fn value_in(t: Arith, x: i128) -> i128
    ensures is { result ≡ converted t x }
    ensures fits { IsValue t result }
{
    convert(t, x)
}

// An operation on values of their common type, but a shift.
fn operated(op: BinOp, t: Arith, x: i128, y: i128) -> Option<i128>
    requires wide { IsWide t }
    requires values { AreValues t x y }
    ensures { result ≡ rule.operated op t x y }
{
    match op {
        BinOp::Add => result_in(t, sum(x, y)),
        BinOp::Sub => result_in(t, difference(x, y)),
        BinOp::Mul => product(t, x, y),
        BinOp::Div => divided(t, x, y),
        BinOp::Rem => remainder(t, x, y),
        BinOp::BitAnd => Some(of_bits(t, bits_of(t, x) & bits_of(t, y))),
        BinOp::BitOr => Some(of_bits(t, bits_of(t, x) | bits_of(t, y))),
        BinOp::BitXor => Some(of_bits(t, bits_of(t, x) ^ bits_of(t, y))),
        BinOp::Eq => Some(truth(is_same(x, y))),
        BinOp::Ne => Some(truth(!is_same(x, y))),
        BinOp::Lt => Some(truth(x < y)),
        BinOp::Gt => Some(truth(x > y)),
        BinOp::Le => Some(truth(x <= y)),
        BinOp::Ge => Some(truth(x >= y)),
        BinOp::And => Some(truth(!(is_zero(x) || is_zero(y)))),
        BinOp::Or => Some(truth(!(is_zero(x) && is_zero(y)))),
        BinOp::Shl | BinOp::Shr => None,
    }
}

// Whether two numbers are one.
fn is_same(x: i128, y: i128) -> bool
    ensures { result ≡ (int_le x y && int_le y x) }
{
    x == y
}

// The sum of two numbers.
fn sum(x: i128, y: i128) -> i128
    requires left { IsSmall x }
    requires right { IsSmall y }
    ensures { result ≡ x +ℤ y }
{
    x + y
}

// The difference of two numbers.
fn difference(x: i128, y: i128) -> i128
    requires left { IsSmall x }
    requires right { IsSmall y }
    ensures { result ≡ x -ℤ y }
{
    x - y
}

// A product of values of one type.
fn product(t: Arith, x: i128, y: i128) -> Option<i128>
    requires wide { IsWide t }
    requires values { AreValues t x y }
    ensures { result ≡ rule.result_in t (x *ℤ y) }
{
    if t.is_signed() {
        result_in(t, signed_product(x, y))
    } else {
        Some(unsigned_product(t, x as u128, y as u128))
    }
}

// The product of values of a signed type.
fn signed_product(x: i128, y: i128) -> i128
    requires left { unsigned_abs x ≤ 2 ^ 63 }
    requires right { unsigned_abs y ≤ 2 ^ 63 }
    ensures { result ≡ x *ℤ y }
{
    x * y
}

// A product of values of an unsigned type, reduced to it.
fn unsigned_product(t: Arith, x: u128, y: u128) -> i128
    requires wide { IsWide t }
    requires unsigned { is_signed t ≡ false }
    requires left { x < 2 ^ 64 }
    requires right { y < 2 ^ 64 }
    ensures { result ≡ converted t (pos x *ℤ pos y) }
{
    reduced(t, x * y)
}

// A quotient, which is cut towards zero (ISO/IEC 9899:1999, 6.5.5, 5 and 6).
fn divided(t: Arith, x: i128, y: i128) -> Option<i128>
    requires { AreValues t x y }
    ensures { result ≡ rule.divided t x y }
{
    if is_zero(y) {
        None
    } else {
        result_in(t, quotient(x, y))
    }
}

// What remains, where there is a quotient.
fn remainder(t: Arith, x: i128, y: i128) -> Option<i128>
    requires { AreValues t x y }
    ensures { result ≡ rule.remainder t x y }
{
    if is_zero(y) {
        return None;
    }
    match divided(t, x, y) {
        Some(_) => Some(rest(x, y)),
        None => None,
    }
}

// The quotient of two numbers.
fn quotient(x: i128, y: i128) -> i128
    requires small { IsSmall x }
    requires divisor { rule.is_zero y ≡ false }
    ensures { result ≡ int_div x y }
{
    x / y
}

// The rest of a division of two numbers.
fn rest(x: i128, y: i128) -> i128
    requires small { IsSmall x }
    requires divisor { rule.is_zero y ≡ false }
    ensures { result ≡ int_rem x y }
{
    x % y
}

// The bits of a value of this type.
fn bits_of(t: Arith, value: i128) -> u64
    ensures { result ≡ rule.bits_of t value }
{
    value.rem_euclid(1 << t.width()) as u64
}

// The value of this type with these bits.
fn of_bits(t: Arith, bits: u64) -> i128
    ensures { result ≡ converted t (pos bits) }
{
    convert(t, i128::from(bits))
}
