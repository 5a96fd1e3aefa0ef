//! One expression of an initializer as a value (ISO/IEC 9899:1999, 6.6 and 6.7.8, 11).
#![tactic(auto, unfolding(ec_resolving_defs::specs::Storage::chain, ec_resolving_defs::specs::Storage::pure, ec_resolving_defs::specs::Storage::checks, ec_resolving_defs::specs::Storage::ask, ec_resolving_defs::specs::Storage::arrange))]

ghost use Rattle.std.specs.Prelude.{◌≡◌, IfOk};
ghost use Rattle.ec_code.specs.Views.{expression_view};
ghost use Rattle.ec_ctypes.specs.views.Exprs.{expr_view};
ghost use Rattle.ec_resolve_forms.specs.Seen.{found_view, from, Reaches};
ghost use Rattle.ec_memory_defs.specs.Memory.{number};
ghost use Rattle.ec_resolving_defs.specs.Initializers as of;
ghost use Rattle.ec_scopes.specs.Entries.{place_view};
ghost use Rattle.ec_type_rules.specs.Views.{constant_view};
ghost use Rattle.ec_values.specs.Words.{word_view};

use ec_base::{OutOfMemory, beside};
use ec_code::{Expression, Leaf};
use ec_ctypes::Expr;
use ec_resolve_expressions::expr;
use ec_resolve_forms::{Found, Resolver, value_rule};
use ec_scopes::Place;
use ec_type_rules::Constant;
use ec_values::Word;
use std::alloc::Global;

/// The value of an integer constant. There is no memory for one that no integer type has.
fn constant_word(value: i128) -> Result<Word, OutOfMemory>
    ensures { IfOk result (λ word. word_view word ≡ number value) }
{
    if value < i64::MIN as i128 || value > u64::MAX as i128 {
        // Out of reach, which isn't proved: a constant lies in the range of its type.
        return Err(OutOfMemory);
    }
    Ok(Word::of_number(value))
}

/// At file level an integer constant is known by its value.
fn known_exp(alloc: Global, known: Constant, exp: Expression) -> Result<Expression, OutOfMemory>
    ensures { IfOk result (λ e. expression_view e
        ≡ of.known_exp (constant_view known) (expression_view exp)) }
{
    match known {
        Constant::Variable => Ok(exp),
        Constant::Trapping => Ok(exp),
        Constant::Known(value) => {
            let word = constant_word(value)?;
            Ok(Expression::leaf(alloc, Leaf::Constant(word)))
        }
    }
}

/// The same of what is found of an expression.
fn fixed_exp(alloc: Global, is_global: bool, f: Found) -> Result<Found, OutOfMemory>
    ensures { IfOk result (λ fixed. found_view fixed ≡ of.fixed_exp is_global (found_view f)) }
{
    if !is_global {
        return Ok(f);
    }
    let Found {
        operand,
        exp,
        is_address,
    } = f;
    let known = operand.constant;
    let (operand, exp) = beside(operand, known_exp(alloc, known, exp))?;
    Ok(Found {
        operand,
        exp,
        is_address,
    })
}

/// An expression as a value, which at file level is known before the program runs.
pub fn init_value(
    resolver: &mut Resolver,
    at: Place,
    is_global: bool,
    e: &Expr,
) -> Result<Found, OutOfMemory>
    ensures { Reaches found_view
        (from (of.init_value (place_view at) is_global (expr_view e.now)) resolver.old)
        result resolver.new }
{
    let found = expr(resolver, at, e)?;
    let value = value_rule(resolver, at, found)?;
    fixed_exp(resolver.checker.alloc(), is_global, value)
}
