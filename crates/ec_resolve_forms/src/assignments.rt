//! Assignments (ISO/IEC 9899:1999, 6.5.2.4, 6.5.3.1 and 6.5.16).
#![tactic(auto, unfolding(ec_resolving_defs::specs::Storage::chain, ec_resolving_defs::specs::Storage::pure, ec_resolving_defs::specs::Storage::checks, ec_resolving_defs::specs::Storage::ask, ec_resolving_defs::specs::Storage::stored, ec_resolving_defs::specs::Storage::arrange))]

ghost use Rattle.std.specs.Prelude.{◌≡◌, IfOk, false};
ghost use Rattle.ec_resolve_values.specs.conversions.Forms.{joined_by};
ghost use Rattle.ec_resolve_values.specs.conversions.Scalars.{bumped_of, scalar_in};
ghost use Rattle.ec_meaning_defs.specs.resolved.Resolved.{Exp};
ghost use Rattle.ec_resolving_defs.specs.Conversions as form;
ghost use Rattle.ec_resolving_defs.specs.Operands as rule;
ghost use Rattle.ec_rules.specs.Seen.{operand_view};
ghost use Rattle.ec_scopes.specs.Entries.{place_view};
ghost use Rattle.ec_scopes.specs.Seen.{world_of};
ghost use Rattle.ec_type_rules.specs.Views.{type_view};
ghost use Rattle.ec_resolve_forms.specs.Seen.{found_view, from, Reaches};

use crate::found::{Found, with_join};
use crate::resolver::Resolver;
use crate::sizes::{scalar_of, struct_size};
use ec_base::OutOfMemory;
use ec_code::{Expression, Leaf};
use ec_ctypes::{BinOp, Ty};
use ec_resolve_values::conversions::{Joined, assignment, bump, compound};
use ec_rules::{
    assign_rule as checked_assign, bump_rule as checked_bump, compound_rule as checked_compound,
};
use ec_scopes::{Checker, Place};
use ec_values::Word;

/// What `=` does with a place of the first type and a value of the second.
fn assign_form(checker: &Checker, to: &Option<Ty>, from: &Option<Ty>) -> Option<Joined>
    ensures { (x y : Exp) → joined_by result x y
        ≡ rule.over_types (type_view to.now) (type_view from.now)
        (λ s t. form.assigned (world_of checker.now) s x t y) }
{
    match (to, from) {
        (Some(to), Some(from)) => {
            let size = struct_size(checker, to);
            assignment(to, size, from)
        }
        (Some(_), None) => None,
        (None, Some(_)) => None,
        (None, None) => None,
    }
}

/// `=`
pub fn assign_rule(
    resolver: &mut Resolver,
    at: Place,
    a: Found,
    b: Found,
) -> Result<Found, OutOfMemory>
    ensures { Reaches found_view (from (rule.assign_rule (place_view at) (found_view a)
        (found_view b)) resolver.old) result resolver.new }
{
    let alloc = resolver.checker.alloc();
    let form = assign_form(&resolver.checker, &a.operand.ty, &b.operand.ty);
    let operand = checked_assign(&mut resolver.checker, at, a.operand, b.operand);
    with_join(alloc, operand, form, a.exp, b.exp, false)
}

/// What `op=` does with a place of the first type and a value of the second.
#[tactic(auto, using(ec_resolve_values::proofs::conversions_lemmas::Cases::compound))]
fn compound_form(checker: &Checker, op: BinOp, to: &Option<Ty>, by: &Option<Ty>) -> Option<Joined>
    ensures { (x y : Exp) → joined_by result x y
        ≡ rule.over_types (type_view to.now) (type_view by.now)
        (λ s t. form.compound (world_of checker.now) op false s x t y) }
{
    match (to, by) {
        (Some(s), Some(t)) => {
            let to = scalar_of(checker, s);
            let by = scalar_of(checker, t);
            compound(op, false, to, by)
        }
        (Some(_), None) => None,
        (None, Some(_)) => None,
        (None, None) => None,
    }
}

/// `+=` and its like.
pub fn compound_rule(
    resolver: &mut Resolver,
    at: Place,
    op: BinOp,
    a: Found,
    b: Found,
) -> Result<Found, OutOfMemory>
    ensures { Reaches found_view (from (rule.compound_rule (place_view at) op (found_view a)
        (found_view b)) resolver.old) result resolver.new }
{
    let alloc = resolver.checker.alloc();
    let form = compound_form(&resolver.checker, op, &a.operand.ty, &b.operand.ty);
    let operand = checked_compound(&mut resolver.checker, at, op, a.operand, b.operand);
    with_join(alloc, operand, form, a.exp, b.exp, false)
}

/// What `++` or `--` does with a place of this type and an `int` 1.
fn bump_form(checker: &Checker, before: bool, up: bool, ty: &Option<Ty>) -> Option<Joined>
    ensures { (x y : Exp) → joined_by result x y
        ≡ rule.over_type (type_view ty.now)
        (λ t. bumped_of before up (scalar_in (world_of checker.now) t) x y) }
{
    match ty {
        Some(ty) => {
            let of = scalar_of(checker, ty);
            bump(before, up, of)
        }
        None => None,
    }
}

/// `++` and `--`, before or behind.
pub fn bump_rule(
    resolver: &mut Resolver,
    at: Place,
    before: bool,
    up: bool,
    f: Found,
) -> Result<Found, OutOfMemory>
    ensures { Reaches found_view (from (rule.bump_rule (place_view at) before up (found_view f))
        resolver.old) result resolver.new }
{
    let alloc = resolver.checker.alloc();
    let form = bump_form(&resolver.checker, before, up, &f.operand.ty);
    let operand = checked_bump(&mut resolver.checker, at, f.operand);
    let one = Expression::leaf(alloc, Leaf::Constant(Word::Signed(1)));
    with_join(alloc, operand, form, f.exp, one, false)
}
