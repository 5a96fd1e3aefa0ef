//! The walk as callers have it.

ghost use Rattle.std.specs.Prelude.{◌≡◌};
ghost use Rattle.ec_ctypes.specs.trees.Exprs.{call};
ghost use Rattle.ec_ctypes.specs.views.Exprs.{expr_view, exprs_view, base_view, dims_view};
ghost use Rattle.ec_typing_defs.specs.Expressions as rule;
ghost use Rattle.ec_scopes.specs.Entries.{place_view, type_view};
ghost use Rattle.ec_scopes.specs.Seen.{world_of, Does};
ghost use Rattle.ec_rules.specs.Seen.{operand_view};

use crate::cycle::{
    base_within, call_within, expr_within, last_length_within, lengths_within, outer_lengths_within,
};
use ec_base::{List, OutOfMemory};
use ec_ctypes::{Base, Expr, Ty};
use ec_rules::Operand;
use ec_scopes::{Checker, Place};

/// How many levels of a tree are walked. What nests deeper would take more stack than there may be, and counts as want of
/// memory; a tree that is read has at most 64 levels of nesting, of up to a dozen operators each.
const LEVELS: u32 = 2_000;

/// What is found out about an expression (ISO/IEC 9899:1999, 6.5).
pub fn expr(checker: &mut Checker, at: Place, e: &Expr) -> Result<Operand, OutOfMemory>
    ensures { Does operand_view (rule.expr (place_view at) (expr_view e.now)
        (world_of checker.old)) checker.old result checker.new }
{
    expr_within(checker, at, e, LEVELS)
}

/// What is found out about a call of the function of this name (ISO/IEC 9899:1999, 6.5.2.2).
pub fn call(
    checker: &mut Checker,
    at: Place,
    name: &[u8],
    es: &[Expr],
) -> Result<Operand, OutOfMemory>
    ensures { Does operand_view (rule.expr (place_view at) (call name.now (exprs_view es.now))
        (world_of checker.old)) checker.old result checker.new }
{
    call_within(checker, at, name, es, LEVELS)
}

/// The type that a declaration begins with (ISO/IEC 9899:1999, 6.7.2).
pub fn base(checker: &mut Checker, at: Place, base: &Base) -> Result<Option<Ty>, OutOfMemory>
    ensures { Does type_view (rule.base (place_view at) (base_view base.now)
        (world_of checker.old)) checker.old result checker.new }
{
    base_within(checker, at, base, LEVELS)
}

/// The lengths of an array, outermost first: 0 where one is left out, and none where one has a fault (ISO/IEC 9899:1999,
/// 6.7.5.2).
pub fn lengths(
    checker: &mut Checker,
    at: Place,
    dims: &[Option<Expr>],
) -> Result<List<Option<u64>>, OutOfMemory>
    ensures { Does (λ ns. ns) (rule.lengths (place_view at) (dims_view dims.now)
        (world_of checker.old)) checker.old result checker.new }
{
    lengths_within(checker, at, dims, LEVELS)
}

/// The last length, which is the capacity of a VARCHAR.
pub fn last_length(
    checker: &mut Checker,
    at: Place,
    dims: &[Option<Expr>],
) -> Result<Option<u64>, OutOfMemory>
    ensures { Does (λ n. n) (rule.last_length (place_view at) (dims_view dims.now)
        (world_of checker.old)) checker.old result checker.new }
{
    last_length_within(checker, at, dims, LEVELS)
}

/// The lengths but the last.
pub fn outer_lengths(
    checker: &mut Checker,
    at: Place,
    dims: &[Option<Expr>],
) -> Result<List<Option<u64>>, OutOfMemory>
    ensures { Does (λ ns. ns) (rule.outer_lengths (place_view at)
        (dims_view dims.now) (world_of checker.old)) checker.old result checker.new }
{
    outer_lengths_within(checker, at, dims, LEVELS)
}
