//! What is found of an expression.

ghost use Rattle.std.specs.Prelude.{◌≡◌, IfOk, Ok, false};
ghost use Rattle.ec_code.specs.Views.{expression_view};
ghost use Rattle.ec_resolve_values.specs.conversions.Forms.{joined_by, prefixed_by};
ghost use Rattle.ec_meaning_defs.specs.resolved.Resolved.{Exp};
ghost use Rattle.ec_resolving_defs.specs.Operands as rule;
ghost use Rattle.ec_rules.specs.Seen.{operand_view};
ghost use Rattle.ec_resolve_forms.specs.Seen.{found_view};

use ec_base::OutOfMemory;
use ec_code::Expression;
use ec_resolve_values::conversions::{Joined, Prefix, faulty, join, prefixed};
use ec_rules::Operand;
use std::alloc::Global;

/// An expression: what the checks find out about it, and its resolved form.
#[derive(Debug, Drop)]
pub struct Found {
    pub operand: Operand,
    /// The address of its first byte, where it is a place or a part of a struct, and where its type is that of a struct or an
    /// array; else its value.
    pub exp: Expression,
    /// Whether this is the address of a scalar, which has to be read where its value is wanted.
    pub is_address: bool,
}

impl Found {
    /// What stands for an argument that is no expression. It takes no memory.
    pub fn none(alloc: Global) -> Found
        ensures { found_view result ≡ rule.no_expression }
    {
        Found {
            operand: Operand::unknown(),
            exp: faulty(alloc),
            is_address: false,
        }
    }
}

/// An operand, with the form that was made for it.
pub fn with_form(
    operand: Operand,
    made: Result<Expression, OutOfMemory>,
    is_address: bool,
) -> Result<Found, OutOfMemory>
    ensures { (e : Exp) → IfOk made (λ x. expression_view x ≡ e)
        → IfOk result (λ f. found_view f ≡ rule.found (operand_view operand) e is_address) }
{
    match made {
        Ok(exp) => Ok(Found {
            operand,
            exp,
            is_address,
        }),
        Err(error) => Err(error),
    }
}

/// An operand that was found, with its form.
pub(crate) fn with_operand(
    operand: Result<Operand, OutOfMemory>,
    exp: Expression,
    is_address: bool,
) -> Result<Found, OutOfMemory>
    ensures operand { IfOk result (λ f. operand ≡ Ok f.operand) }
    ensures exp { IfOk result (λ f. f.exp ≡ exp) }
    ensures is_address { IfOk result (λ f. f.is_address ≡ is_address) }
{
    match operand {
        Ok(operand) => Ok(Found {
            operand,
            exp,
            is_address,
        }),
        Err(error) => Err(error),
    }
}

/// An operand, with an operator over two values, if its form is known.
pub(crate) fn with_join(
    alloc: Global,
    operand: Operand,
    form: Option<Joined>,
    left: Expression,
    right: Expression,
    is_address: bool,
) -> Result<Found, OutOfMemory>
    ensures { IfOk result (λ f. found_view f ≡ rule.found (operand_view operand)
        (joined_by form (expression_view left) (expression_view right)) is_address) }
{
    with_form(operand, join(alloc, form, left, right), is_address)
}

/// An operand, with an operator over one value, if its form is known.
pub(crate) fn with_prefix(
    alloc: Global,
    operand: Operand,
    form: Option<Prefix>,
    value: Expression,
) -> Result<Found, OutOfMemory>
    ensures { IfOk result (λ f. found_view f
        ≡ rule.found (operand_view operand) (prefixed_by form (expression_view value)) false) }
{
    with_form(operand, prefixed(alloc, form, value), false)
}
