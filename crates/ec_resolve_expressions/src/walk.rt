//! The walk as callers have it.

ghost use Rattle.std.specs.Prelude.{◌≡◌};
ghost use Rattle.ec_ctypes.specs.trees.Exprs.{call};
ghost use Rattle.ec_ctypes.specs.views.Exprs.{expr_view, exprs_view, base_view, dims_view};
ghost use Rattle.ec_resolve_forms.specs.Seen.{found_view, from, Reaches};
ghost use Rattle.ec_resolving_defs.specs.Expressions as rule;
ghost use Rattle.ec_scopes.specs.Entries.{place_view, type_view};

use crate::cycle::{
    base_within, call_within, expr_within, last_length_within, lengths_within, outer_lengths_within,
};
use ec_base::{List, OutOfMemory};
use ec_ctypes::{Base, Expr, Ty};
use ec_resolve_forms::{Found, Resolver};
use ec_scopes::Place;

/// How many levels of a tree are walked. What nests deeper would take more stack than there may be, and counts as want of
/// memory; a tree that is read has at most 64 levels of nesting, of up to a dozen operators each.
const LEVELS: u32 = 2_000;

/// The resolved form of an expression, and what is found out about it (ISO/IEC 9899:1999, 6.5).
pub fn expr(resolver: &mut Resolver, at: Place, e: &Expr) -> Result<Found, OutOfMemory>
    ensures { Reaches found_view
        (from (rule.expr (place_view at) (expr_view e.now)) resolver.old)
        result resolver.new }
{
    expr_within(resolver, at, e, LEVELS)
}

/// The resolved form of a call of the function of this name, and what is found out about it (ISO/IEC 9899:1999, 6.5.2.2).
pub fn call(
    resolver: &mut Resolver,
    at: Place,
    name: &[u8],
    es: &[Expr],
) -> Result<Found, OutOfMemory>
    ensures { Reaches found_view
        (from (rule.expr (place_view at) (call name.now (exprs_view es.now))) resolver.old)
        result resolver.new }
{
    call_within(resolver, at, name, es, LEVELS)
}

/// The type that a declaration begins with (ISO/IEC 9899:1999, 6.7.2).
pub fn base(resolver: &mut Resolver, at: Place, base: &Base) -> Result<Option<Ty>, OutOfMemory>
    ensures { Reaches type_view
        (from (rule.base (place_view at) (base_view base.now)) resolver.old)
        result resolver.new }
{
    base_within(resolver, at, base, LEVELS)
}

/// The lengths of an array, outermost first: 0 where one is left out, and none where one has a fault (ISO/IEC 9899:1999,
/// 6.7.5.2).
pub fn lengths(
    resolver: &mut Resolver,
    at: Place,
    dims: &[Option<Expr>],
) -> Result<List<Option<u64>>, OutOfMemory>
    ensures { Reaches (λ ns. ns)
        (from (rule.lengths (place_view at) (dims_view dims.now)) resolver.old)
        result resolver.new }
{
    lengths_within(resolver, at, dims, LEVELS)
}

/// The last length, which is the capacity of a VARCHAR.
pub fn last_length(
    resolver: &mut Resolver,
    at: Place,
    dims: &[Option<Expr>],
) -> Result<Option<u64>, OutOfMemory>
    ensures { Reaches (λ n. n)
        (from (rule.last_length (place_view at) (dims_view dims.now)) resolver.old)
        result resolver.new }
{
    last_length_within(resolver, at, dims, LEVELS)
}

/// The lengths but the last.
pub fn outer_lengths(
    resolver: &mut Resolver,
    at: Place,
    dims: &[Option<Expr>],
) -> Result<List<Option<u64>>, OutOfMemory>
    ensures { Reaches (λ ns. ns)
        (from (rule.outer_lengths (place_view at) (dims_view dims.now)) resolver.old)
        result resolver.new }
{
    outer_lengths_within(resolver, at, dims, LEVELS)
}
