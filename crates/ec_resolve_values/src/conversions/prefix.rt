//! Operators that stand before one value (ISO/IEC 9899:1999, 6.5.3.3).

ghost use Rattle.std.specs.Prelude.{◌≡◌};
ghost use Rattle.ec_meaning_defs.specs.resolved.Resolved.{Exp};
ghost use Rattle.ec_resolving_defs.specs.Conversions as form;
ghost use Rattle.ec_resolve_values.specs.conversions.Forms.{prefixed_by};

use crate::conversions::conversion::{Conversion, widening};
use ec_ctypes::{Arith, UnOp, promote};

/// What an operator does with one value.
#[derive(Clone, Copy, Debug, PartialEq, Eq)]
pub enum Prefix {
    /// `+`: it is promoted.
    Promoted(Conversion),
    /// `-`: it is promoted to this type, and negated.
    Negated(Conversion, Arith),
    /// `~`: it is promoted to this type, and its bits are turned.
    Flipped(Conversion, Arith),
    /// `!`
    Inverted,
}

/// `+`, `-`, `~` or `!` of an integer.
pub(crate) fn sign(op: UnOp, ty: Arith) -> Option<Prefix>
    ensures { (e : Exp) → prefixed_by result e ≡ form.sign_exp op ty e }
{
    let to = promote(ty);
    match op {
        UnOp::Plus => Some(Prefix::Promoted(widening(ty, to))),
        UnOp::Minus => Some(Prefix::Negated(widening(ty, to), to)),
        UnOp::Flip => Some(Prefix::Flipped(widening(ty, to), to)),
        UnOp::Not => Some(Prefix::Inverted),
        UnOp::Addr => None,
        UnOp::Deref => None,
    }
}
