//! What expressions are as constants.

ghost use Rattle.std.specs.Prelude.{◌≡◌};
ghost use Rattle.ec_typing_defs.specs.Constants as rule;
ghost use Rattle.ec_type_rules.specs.Views.{constant_view};

use crate::constants::values::{binary_value, is_zero, truth, unary_value};
use ec_ctypes::{Arith, BinOp, UnOp, convert};

/// What an expression is as an integer constant expression (ISO/IEC 9899:1999, 6.6, 6).
#[derive(Clone, Copy, Debug)]
pub enum Constant {
    /// It has something else in it than constants.
    Variable,
    /// Its evaluation traps, so it is no constant (ISO/IEC 9899:1999, 6.6, 4).
    Trapping,
    Known(i128),
}

impl Constant {
    /// Whether it is a constant.
    pub fn is_known(self) -> bool
        ensures { result ≡ rule.is_known (constant_view self) }
    {
        matches!(self, Constant::Known(_))
    }

    /// Whether it is the constant 0, which is a null pointer constant (ISO/IEC 9899:1999, 6.3.2.3, 3).
    pub fn is_known_zero(self) -> bool
        ensures { result ≡ rule.is_known_zero (constant_view self) }
    {
        match self {
            Constant::Known(value) => is_zero(value),
            _ => false,
        }
    }
}

/// A binary operation on constants of these types (ISO/IEC 9899:1999, 6.5.5 to 6.5.14).
pub fn binary_constant(op: BinOp, a: Arith, b: Arith, x: Constant, y: Constant) -> Constant
    ensures { constant_view result
        ≡ rule.binary_constant op a b (constant_view x) (constant_view y) }
{
    match op {
        BinOp::And => and_constant(x, y),
        BinOp::Or => or_constant(x, y),
        _ => strict_constant(op, a, b, x, y),
    }
}

/// A unary operation on a constant of this type (ISO/IEC 9899:1999, 6.5.3.3).
pub fn unary_constant(op: UnOp, a: Arith, x: Constant) -> Constant
    ensures { constant_view result ≡ rule.unary_constant op a (constant_view x) }
{
    match x {
        Constant::Known(value) => constant_of(unary_value(op, a, value)),
        other => other,
    }
}

/// A cast of a constant to an integer type (ISO/IEC 9899:1999, 6.3.1.2 and 6.3.1.3).
pub fn cast_constant(to: Arith, x: Constant) -> Constant
    ensures { constant_view result ≡ rule.cast_constant to (constant_view x) }
{
    match x {
        Constant::Known(value) => Constant::Known(convert(to, value)),
        other => other,
    }
}

// `&&` evaluates its right side only where the left one is not 0 (ISO/IEC 9899:1999, 6.5.13, 4).
fn and_constant(x: Constant, y: Constant) -> Constant
    ensures { constant_view result ≡ rule.and_constant (constant_view x) (constant_view y) }
{
    match x {
        Constant::Variable => Constant::Variable,
        Constant::Trapping => trapping_with(y),
        Constant::Known(left) => match y {
            Constant::Variable => Constant::Variable,
            Constant::Trapping if is_zero(left) => Constant::Known(0),
            Constant::Trapping => Constant::Trapping,
            Constant::Known(right) => { Constant::Known(truth(!(is_zero(left) || is_zero(right)))) }
        },
    }
}

// `||` evaluates its right side only where the left one is 0 (ISO/IEC 9899:1999, 6.5.14, 4).
fn or_constant(x: Constant, y: Constant) -> Constant
    ensures { constant_view result ≡ rule.or_constant (constant_view x) (constant_view y) }
{
    match x {
        Constant::Variable => Constant::Variable,
        Constant::Trapping => trapping_with(y),
        Constant::Known(left) => match y {
            Constant::Variable => Constant::Variable,
            Constant::Trapping if is_zero(left) => Constant::Trapping,
            Constant::Trapping => Constant::Known(1),
            Constant::Known(right) => { Constant::Known(truth(!(is_zero(left) && is_zero(right)))) }
        },
    }
}

// The other operators evaluate both sides.
fn strict_constant(op: BinOp, a: Arith, b: Arith, x: Constant, y: Constant) -> Constant
    ensures { constant_view result
        ≡ rule.strict_constant op a b (constant_view x) (constant_view y) }
{
    match x {
        Constant::Variable => Constant::Variable,
        Constant::Trapping => trapping_with(y),
        Constant::Known(left) => match y {
            Constant::Variable => Constant::Variable,
            Constant::Trapping => Constant::Trapping,
            Constant::Known(right) => constant_of(binary_value(op, a, left, b, right)),
        },
    }
}

// An operation whose left side traps.
fn trapping_with(y: Constant) -> Constant
    ensures { constant_view result ≡ rule.and_constant rule.trapping (constant_view y) }
{
    match y {
        Constant::Variable => Constant::Variable,
        Constant::Trapping => Constant::Trapping,
        Constant::Known(_) => Constant::Trapping,
    }
}

// The constant of a value, which is trapping where there is none.
fn constant_of(value: Option<i128>) -> Constant
    ensures { constant_view result ≡ rule.constant_of value }
{
    match value {
        Some(value) => Constant::Known(value),
        None => Constant::Trapping,
    }
}
