//! Unary operators (ISO/IEC 9899:1999, 6.5.3).
#![tactic(auto, unfolding(ec_resolving_defs::specs::Storage::chain, ec_resolving_defs::specs::Storage::pure, ec_resolving_defs::specs::Storage::checks, ec_resolving_defs::specs::Storage::ask, ec_resolving_defs::specs::Storage::stored, ec_resolving_defs::specs::Storage::arrange))]

ghost use Rattle.std.specs.Prelude.{◌≡◌, IfOk};
ghost use Rattle.ec_resolve_values.specs.conversions.Forms.{prefixed_by};
ghost use Rattle.ec_meaning_defs.specs.resolved.Resolved.{Exp};
ghost use Rattle.ec_resolving_defs.specs.Conversions as form;
ghost use Rattle.ec_resolving_defs.specs.Operands as rule;
ghost use Rattle.ec_rules.specs.Seen.{operand_view};
ghost use Rattle.ec_scopes.specs.Entries.{place_view};
ghost use Rattle.ec_type_rules.specs.Views.{type_view};
ghost use Rattle.ec_resolve_forms.specs.Seen.{found_view, from, Reaches};

use crate::found::{Found, with_operand, with_prefix};
use crate::resolver::Resolver;
use crate::sizes::scalar_of;
use ec_base::OutOfMemory;
use ec_ctypes::{Ty, UnOp};
use ec_resolve_values::conversions::{Prefix, unary};
use ec_rules::{address_rule as checked_address, unary_rule as checked_unary};
use ec_scopes::{Checker, Place};

/// `&`: the address is the form already.
pub fn address_rule(resolver: &mut Resolver, at: Place, f: Found) -> Result<Found, OutOfMemory>
    ensures { Reaches found_view (from (rule.address_rule (place_view at) (found_view f))
        resolver.old) result resolver.new }
{
    let Found { operand, exp, .. } = f;
    let operand = checked_address(&mut resolver.checker, at, operand);
    with_operand(operand, exp, false)
}

/// What `+`, `-`, `~` or `!` does with a value of this type.
#[tactic(auto, using(ec_resolve_values::proofs::conversions_lemmas::Cases::unary))]
fn prefix_form(checker: &Checker, op: UnOp, ty: &Option<Ty>) -> Option<Prefix>
    ensures { (e : Exp) → prefixed_by result e
        ≡ rule.over_type (type_view ty.now) (λ t. form.unary_exp op t e) }
{
    match ty {
        Some(ty) => {
            let of = scalar_of(checker, ty);
            unary(op, of)
        }
        None => None,
    }
}

/// A unary operator but `&`. `*` of a pointer is the place that it leads to.
pub fn unary_rule(
    resolver: &mut Resolver,
    at: Place,
    op: UnOp,
    f: Found,
) -> Result<Found, OutOfMemory>
    ensures { Reaches found_view (from (rule.unary_rule (place_view at) op (found_view f))
        resolver.old) result resolver.new }
{
    let alloc = resolver.checker.alloc();
    let Found { operand, exp, .. } = f;
    let form = prefix_form(&resolver.checker, op, &operand.ty);
    let operand = checked_unary(&mut resolver.checker, at, op, operand);
    match op {
        UnOp::Deref => Ok(Found {
            operand,
            exp,
            is_address: true,
        }),
        _ => with_prefix(alloc, operand, form, exp),
    }
}
