//! Expressions with what their types ask for.

ghost use Rattle.std.specs.Prelude.{◌≡◌, IfOk};
ghost use Rattle.ec_code.specs.Views.{expression_view};
ghost use Rattle.ec_meaning_defs.specs.resolved.Resolved as of;
ghost use Rattle.ec_resolving_defs.specs.Operands.{member_at};
ghost use Rattle.ec_resolve_values.specs.conversions.Forms as made;

use crate::conversions::conversion::Conversion;
use crate::conversions::joined::Joined;
use crate::conversions::prefix::Prefix;
use ec_base::{OutOfMemory, beside};
use ec_code::{Expression, Leaf, Unary};
use ec_memory_defs::Kind;
use std::alloc::Global;

/// What stands for an expression with a fault. It takes no memory.
pub fn faulty(alloc: Global) -> Expression
    ensures { expression_view result ≡ of.faulty }
{
    Expression::leaf(alloc, Leaf::Faulty)
}

/// The value, converted.
pub fn converted(
    alloc: Global,
    conversion: Conversion,
    value: Expression,
) -> Result<Expression, OutOfMemory>
    ensures { IfOk result (λ e. expression_view e
        ≡ made.converted conversion (expression_view value)) }
{
    match conversion {
        Conversion::Kept => Ok(value),
        Conversion::Made(from, to) => value.unary(Unary::Convert(from, to)),
        Conversion::Missing => Ok(faulty(alloc)),
    }
}

/// What is behind an address: a scalar is read, and what has no scalar type is known by its address.
pub fn loaded(kind: Option<Kind>, place: Expression) -> Result<Expression, OutOfMemory>
    ensures { IfOk result (λ e. expression_view e
        ≡ made.loaded kind (expression_view place)) }
{
    match kind {
        Some(kind) => place.unary(Unary::Load(kind)),
        None => Ok(place),
    }
}

/// A member of a struct, by its offset if it has one.
pub fn member(
    alloc: Global,
    place: Expression,
    offset: Option<u64>,
) -> Result<Expression, OutOfMemory>
    ensures { IfOk result (λ e. expression_view e
        ≡ member_at (expression_view place) offset) }
{
    match offset {
        Some(offset) => place.unary(Unary::Member(offset)),
        None => Ok(faulty(alloc)),
    }
}

/// An operator with the value behind it.
pub fn prefixed(
    alloc: Global,
    prefix: Option<Prefix>,
    value: Expression,
) -> Result<Expression, OutOfMemory>
    ensures { IfOk result (λ e. expression_view e
        ≡ made.prefixed_by prefix (expression_view value)) }
{
    match prefix {
        Some(Prefix::Promoted(conversion)) => converted(alloc, conversion, value),
        Some(Prefix::Negated(conversion, ty)) => {
            converted(alloc, conversion, value)?.unary(Unary::Negate(ty))
        }
        Some(Prefix::Flipped(conversion, ty)) => {
            converted(alloc, conversion, value)?.unary(Unary::Flip(ty))
        }
        Some(Prefix::Inverted) => value.unary(Unary::Not),
        None => Ok(faulty(alloc)),
    }
}

/// An operator with its two values, or what stands for a fault.
pub fn join(
    alloc: Global,
    form: Option<Joined>,
    left: Expression,
    right: Expression,
) -> Result<Expression, OutOfMemory>
    ensures { IfOk result (λ e. expression_view e
        ≡ made.joined_by form (expression_view left) (expression_view right)) }
{
    match form {
        Some(form) => {
            let (right, left) = beside(right, converted(alloc, form.left, left))?;
            let (left, right) = beside(left, converted(alloc, form.right, right))?;
            Expression::binary(alloc, form.step, left, right)
        }
        None => Ok(faulty(alloc)),
    }
}
