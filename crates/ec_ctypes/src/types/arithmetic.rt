ghost use Rattle.std.specs.Prelude.{◌≡◌};
ghost use Rattle.ec_ctypes.specs.Arithmetic.{promoted, common, mixed, usual_type, unsigned_type, converted, Converts};

use crate::types::Arith;

/// The type to which an operand is promoted: `int` for every type of a rank below `int`'s, since `int` has all their
/// values, and else the type itself (ISO/IEC 9899:1999, 6.3.1.1).
pub fn promote(ty: Arith) -> Arith
    ensures { result ≡ promoted ty }
{
    match ty {
        Arith::Bool | Arith::Char | Arith::UChar | Arith::Short | Arith::UShort => Arith::Int,
        promoted => promoted,
    }
}

/// The common type of two operands, by the usual arithmetic conversions (ISO/IEC 9899:1999, 6.3.1.8).
pub fn usual(a: Arith, b: Arith) -> Arith
    ensures { result ≡ usual_type a b }
{
    let left = promote(a);
    let right = promote(b);
    match (left.is_signed(), right.is_signed()) {
        (false, true) => of_mixed(left, right),
        (true, false) => of_mixed(right, left),
        _ if left.rank() < right.rank() => right,
        _ => left,
    }
}

/// The common type of an unsigned and a signed operand, both promoted.
fn of_mixed(unsigned: Arith, signed: Arith) -> Arith
    ensures { result ≡ mixed unsigned signed }
{
    if unsigned.rank() >= signed.rank() {
        unsigned
    } else if signed.represents_all(unsigned) {
        signed
    } else {
        signed.to_unsigned()
    }
}

/// A number as a value of an integer type. As `_Bool` it is 0 where it is 0, and else 1 (ISO/IEC 9899:1999, 6.3.1.2). As
/// another type it is the value of that type that differs from the number by a multiple of 2 to the width's power
/// (6.3.1.3, with the choice of gcc where a signed type doesn't have the number).
pub fn convert(to: Arith, value: i128) -> i128
    ensures value { result ≡ converted to value }
    ensures rule { Converts to value result }
{
    if to == Arith::Bool {
        return i128::from(value != 0);
    }
    let modulus: i128 = 1 << to.width();
    let remainder = value.rem_euclid(modulus);
    if remainder > to.greatest() {
        remainder - modulus
    } else {
        remainder
    }
}
