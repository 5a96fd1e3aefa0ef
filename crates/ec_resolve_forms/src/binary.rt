//! Binary operators and elements (ISO/IEC 9899:1999, 6.5.2.1, 6.5.5 to 6.5.14).
#![tactic(auto, unfolding(ec_resolving_defs::specs::Storage::chain, ec_resolving_defs::specs::Storage::pure, ec_resolving_defs::specs::Storage::checks, ec_resolving_defs::specs::Storage::ask, ec_resolving_defs::specs::Storage::stored, ec_resolving_defs::specs::Storage::arrange))]

ghost use Rattle.std.specs.Prelude.{◌≡◌, IfOk};
ghost use Rattle.ec_resolve_values.specs.conversions.Forms.{joined_by};
ghost use Rattle.ec_meaning_defs.specs.resolved.Resolved.{Exp};
ghost use Rattle.ec_resolving_defs.specs.Conversions as form;
ghost use Rattle.ec_resolving_defs.specs.Operands as rule;
ghost use Rattle.ec_rules.specs.Seen.{operand_view};
ghost use Rattle.ec_scopes.specs.Entries.{place_view};
ghost use Rattle.ec_scopes.specs.Seen.{world_of};
ghost use Rattle.ec_type_rules.specs.Views.{type_view};
ghost use Rattle.ec_resolve_forms.specs.Seen.{found_view, from, Reaches};

use crate::found::{Found, with_join};
use crate::resolver::Resolver;
use crate::sizes::scalar_of;
use ec_base::OutOfMemory;
use ec_ctypes::{BinOp, Ty};
use ec_resolve_values::conversions::{Joined, binary, element};
use ec_rules::{binary_rule as checked_binary, index_rule as checked_index};
use ec_scopes::{Checker, Place};

/// What a binary operator does with values of these types.
fn binary_form(
    checker: &Checker,
    op: BinOp,
    left: &Option<Ty>,
    right: &Option<Ty>,
) -> Option<Joined>
    ensures { (x y : Exp) → joined_by result x y
        ≡ rule.over_types (type_view left.now) (type_view right.now)
        (λ s t. form.binary_exp (world_of checker.now) op s x t y) }
{
    match (left, right) {
        (Some(s), Some(t)) => {
            let left = scalar_of(checker, s);
            let right = scalar_of(checker, t);
            binary(op, left, right)
        }
        (Some(_), None) => None,
        (None, Some(_)) => None,
        (None, None) => None,
    }
}

/// A binary operator.
pub fn binary_rule(
    resolver: &mut Resolver,
    at: Place,
    op: BinOp,
    a: Found,
    b: Found,
) -> Result<Found, OutOfMemory>
    ensures { Reaches found_view (from (rule.binary_rule (place_view at) op (found_view a)
        (found_view b)) resolver.old) result resolver.new }
{
    let alloc = resolver.checker.alloc();
    let form = binary_form(&resolver.checker, op, &a.operand.ty, &b.operand.ty);
    let operand = checked_binary(&mut resolver.checker, at, op, a.operand, b.operand);
    with_join(alloc, operand, form, a.exp, b.exp, false)
}

/// The address of an element of values of these types.
fn element_form(checker: &Checker, left: &Option<Ty>, right: &Option<Ty>) -> Option<Joined>
    ensures { (x y : Exp) → joined_by result x y
        ≡ rule.over_types (type_view left.now) (type_view right.now)
        (λ s t. form.element_exp (world_of checker.now) s x t y) }
{
    match (left, right) {
        (Some(s), Some(t)) => {
            let left = scalar_of(checker, s);
            let right = scalar_of(checker, t);
            element(left, right)
        }
        (Some(_), None) => None,
        (None, Some(_)) => None,
        (None, None) => None,
    }
}

/// `[` and `]`: the place of an element.
pub fn index_rule(
    resolver: &mut Resolver,
    at: Place,
    a: Found,
    b: Found,
) -> Result<Found, OutOfMemory>
    ensures { Reaches found_view (from (rule.index_rule (place_view at) (found_view a)
        (found_view b)) resolver.old) result resolver.new }
{
    let alloc = resolver.checker.alloc();
    let form = element_form(&resolver.checker, &a.operand.ty, &b.operand.ty);
    let operand = checked_index(&mut resolver.checker, at, a.operand, b.operand);
    with_join(alloc, operand, form, a.exp, b.exp, true)
}
