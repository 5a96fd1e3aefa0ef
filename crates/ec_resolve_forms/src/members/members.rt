//! `.` and `->` (ISO/IEC 9899:1999, 6.5.2.3).
#![tactic(auto, unfolding(ec_resolving_defs::specs::Storage::chain, ec_resolving_defs::specs::Storage::pure, ec_resolving_defs::specs::Storage::checks, ec_resolving_defs::specs::Storage::ask))]

ghost use Rattle.std.specs.Prelude.{◌≡◌, IfOk, option_and_then};
ghost use Rattle.ec_code.specs.Views.{expression_view};
ghost use Rattle.ec_resolve_forms.specs.Seen.{found_view, from, Reaches};
ghost use Rattle.ec_resolving_defs.specs.Operands as rule;
ghost use Rattle.ec_scopes.specs.Entries.{place_view, type_view};
ghost use Rattle.ec_typing_defs.specs.Types.{struct_number};

use crate::members::offsets::offset_in;
use crate::{Found, Resolver, with_form};
use ec_base::OutOfMemory;
use ec_code::{Expression, Unary};
use ec_ctypes::Ty;
use ec_resolve_values::conversions::faulty;
use ec_rules::{arrow_rule as checked_arrow, member_rule as checked_member};
use ec_scopes::Place;
use ec_type_rules::struct_number;
use std::alloc::Global;

/// The address of a member at this offset, from that of its struct.
fn member_at(alloc: Global, exp: Expression, offset: Option<u64>) -> Result<Expression, OutOfMemory>
    ensures { IfOk result (λ e. expression_view e ≡ rule.member_at (expression_view exp) offset) }
{
    match offset {
        None => Ok(faulty(alloc)),
        Some(offset) => exp.unary(Unary::Member(offset)),
    }
}

/// The number of a struct, if the type is known and is one.
fn struct_in(ty: &Option<Ty>) -> Option<u32>
    ensures { result ≡ option_and_then struct_number (type_view ty.now) }
{
    match ty {
        Some(ty) => struct_number(ty),
        None => None,
    }
}

/// The number of the struct that a pointer leads to, if the type is known and is such a pointer.
fn target_struct(ty: &Option<Ty>) -> Option<u32>
    ensures { result ≡ rule.target_struct (type_view ty.now) }
{
    match ty {
        Some(Ty::Ptr(to)) => struct_number(to.get()),
        Some(_) => None,
        None => None,
    }
}

/// `.` of a struct: the place of its member.
pub fn member_rule(
    resolver: &mut Resolver,
    at: Place,
    f: Found,
    name: &[u8],
) -> Result<Found, OutOfMemory>
    ensures { Reaches found_view (from (rule.member_rule (place_view at) (found_view f) name.now)
        resolver.old) result resolver.new }
{
    let alloc = resolver.checker.alloc();
    let number = struct_in(&f.operand.ty);
    let offset = offset_in(&resolver.checker, number, name)?;
    let operand = checked_member(&mut resolver.checker, at, f.operand, name)?;
    with_form(operand, member_at(alloc, f.exp, offset), true)
}

/// `->` of a pointer to a struct: the place of the struct's member.
pub fn arrow_rule(
    resolver: &mut Resolver,
    at: Place,
    f: Found,
    name: &[u8],
) -> Result<Found, OutOfMemory>
    ensures { Reaches found_view (from (rule.arrow_rule (place_view at) (found_view f) name.now)
        resolver.old) result resolver.new }
{
    let alloc = resolver.checker.alloc();
    let number = target_struct(&f.operand.ty);
    let offset = offset_in(&resolver.checker, number, name)?;
    let operand = checked_arrow(&mut resolver.checker, at, f.operand, name)?;
    with_form(operand, member_at(alloc, f.exp, offset), true)
}
