//! The expressions of statements (ISO/IEC 9899:1999, 6.8).
#![tactic(auto, using(ec_scopes::proofs::Steps::noting), unfolding(ec_typing_defs::specs::Worlds::chain, ec_typing_defs::specs::Worlds::pure))]

ghost use Rattle.std.specs.Prelude.{◌≡◌};
ghost use Rattle.ec_ctypes.specs.views.Exprs.{expr_view, expr_option_view};
ghost use Rattle.ec_scopes.specs.Entries.{place_view, type_view};
ghost use Rattle.ec_scopes.specs.Seen.{world_of, Does};
ghost use Rattle.ec_typing_defs.specs.Statements as rule;

use ec_base::OutOfMemory;
use ec_ctypes::{Expr, Ty};
use ec_rules::{condition_rule, return_nothing, return_rule, value_rule};
use ec_scopes::{Checker, Place};
use ec_walk::expr;

/// A condition.
pub fn condition(checker: &mut Checker, at: Place, e: &Expr) -> Result<(), OutOfMemory>
    ensures { Does (λ u. u) (rule.condition (place_view at) (expr_view e.now)
        (world_of checker.old)) checker.old result checker.new }
{
    let found = expr(checker, at, e)?;
    let o = value_rule(checker, at, found);
    condition_rule(checker, at, &o);
    Ok(())
}

/// An expression, if there is one.
pub fn optional(checker: &mut Checker, at: Place, e: &Option<Expr>) -> Result<(), OutOfMemory>
    ensures { Does (λ u. u) (rule.optional (place_view at) (expr_option_view e.now)
        (world_of checker.old)) checker.old result checker.new }
{
    if let Some(e) = e {
        let _found = expr(checker, at, e)?;
    }
    Ok(())
}

/// A condition, if there is one.
pub fn optional_condition(
    checker: &mut Checker,
    at: Place,
    e: &Option<Expr>,
) -> Result<(), OutOfMemory>
    ensures { Does (λ u. u) (rule.optional_condition (place_view at) (expr_option_view e.now)
        (world_of checker.old)) checker.old result checker.new }
{
    if let Some(e) = e {
        condition(checker, at, e)?;
    }
    Ok(())
}

/// `return`, with a value or without, in a function with a result of this type.
pub fn return_by(
    checker: &mut Checker,
    at: Place,
    to: &Option<Ty>,
    e: &Option<Expr>,
) -> Result<(), OutOfMemory>
    ensures { Does (λ u. u) (rule.return_by (place_view at) (type_view to.now)
        (expr_option_view e.now) (world_of checker.old)) checker.old result checker.new }
{
    match e {
        Some(e) => {
            let found = expr(checker, at, e)?;
            let o = value_rule(checker, at, found);
            return_rule(checker, at, to, &o);
        }
        None => return_nothing(checker, at, to),
    }
    Ok(())
}
