//! Calls (ISO/IEC 9899:1999, 6.5.2.2).
#![tactic(auto, unfolding(ec_resolving_defs::specs::Storage::chain, ec_resolving_defs::specs::Storage::pure, ec_resolving_defs::specs::Storage::checks, ec_resolving_defs::specs::Storage::ask, ec_resolving_defs::specs::Storage::stored))]

ghost use Rattle.std.specs.Prelude.{◌≡◌, IfOk, map, option_map};
ghost use Rattle.ec_code.specs.Views.{expression_view};
ghost use Rattle.ec_ctypes.specs.views.Exprs.{exprs_view};
ghost use Rattle.ec_resolve_forms.specs.Seen.{found_view, founds_view, from, Reaches};
ghost use Rattle.ec_resolving_defs.specs.Operands as rule;
ghost use Rattle.ec_scopes.specs.Entries.{place_view};
ghost use Rattle.ec_scopes.specs.Seen.{world_of};
ghost use Rattle.ec_resolve_values.specs.storage.Stored.{storage_of};
ghost use Rattle.ec_type_rules.specs.Views.{type_view};
ghost use Rattle.ec_typing_defs.specs.Worlds.{look_up};

use crate::call_forms::known::known_call;
use crate::call_forms::library::library_called;
use crate::call_forms::operands::operands_of;
use ec_base::{List, OutOfMemory};
use ec_code::Expression;
use ec_ctypes::{Expr, Ty};
use ec_known_calls::library_call;
use ec_resolve_forms::{Found, Resolver, passed};
use ec_resolve_values::conversions::faulty;
use ec_resolve_values::storage::Storage;
use ec_rules::call_rule as checked_call;
use ec_scopes::{Checker, Entry, Place};
use ec_type_rules::is_void;
use std::alloc::Global;

/// Whether a call with a result of this type has a value that can be used.
fn has_result(ty: &Option<Ty>) -> bool
    ensures { result ≡ rule.has_result (type_view ty.now) }
{
    match ty {
        None => false,
        Some(ty) => !is_void(ty),
    }
}

/// A call of the function of this number, if its parameters are known.
fn own_call(
    alloc: Global,
    number: u32,
    ty: &Option<Ty>,
    params: &Option<List<Option<Ty>>>,
    fs: List<Found>,
) -> Result<Expression, OutOfMemory>
    ensures { IfOk result (λ e. expression_view e ≡ rule.own_call number (type_view ty.now)
        (option_map (map type_view) params.now) (founds_view fs)) }
{
    match params {
        None => Ok(faulty(alloc)),
        Some(params) => {
            let used = has_result(ty);
            let arguments = passed(alloc, params.as_slice(), fs)?;
            Ok(Expression::call(alloc, number, used, arguments))
        }
    }
}

/// A call of a function of the program, or of a known one.
fn function_called(
    checker: &Checker,
    storage: &Storage,
    name: &[u8],
    forms: &[Expr],
    fs: List<Found>,
) -> Result<Expression, OutOfMemory>
    ensures { IfOk result (λ e. expression_view e ≡ rule.call_exp
        (storage_of storage.now).defined name.now (exprs_view forms.now) (founds_view fs)
        (look_up name.now (world_of checker.now))) }
{
    let alloc = checker.alloc();
    match checker.look_up(name) {
        Some(Entry::Object { .. }) => Ok(faulty(alloc)),
        Some(Entry::Function { result, params, .. }) => {
            let number = storage.function(name)?;
            own_call(alloc, number, result, params, fs)
        }
        None => known_call(alloc, name, forms, fs),
    }
}

/// A call of the function of this name, which may be one of the library.
fn called(
    resolver: &mut Resolver,
    name: &[u8],
    forms: &[Expr],
    fs: List<Found>,
) -> Result<Expression, OutOfMemory>
    ensures { Reaches expression_view (from (rule.called name.now (exprs_view forms.now)
        (founds_view fs)) resolver.old) result resolver.new }
{
    match library_call(resolver.checker.written(), name) {
        Some(call) => {
            let exp = library_called(resolver, call, forms, fs)?;
            Ok(exp)
        }
        None => {
            let other = function_called(&resolver.checker, &resolver.storage, name, forms, fs)?;
            Ok(other)
        }
    }
}

/// A call of the function of this name, with these arguments: as they are written, and what is found of them
/// (ISO/IEC 9899:1999, 6.5.2.2). Want of memory is the one error.
pub fn call_rule(
    resolver: &mut Resolver,
    at: Place,
    name: &[u8],
    forms: &[Expr],
    fs: List<Found>,
) -> Result<Found, OutOfMemory>
    ensures { Reaches found_view (from (rule.call_rule (place_view at) name.now
        (exprs_view forms.now) (founds_view fs)) resolver.old) result resolver.new }
{
    let operands = operands_of(resolver.checker.alloc(), fs.as_slice())?;
    let exp = called(resolver, name, forms, fs)?;
    let operand = checked_call(&mut resolver.checker, at, name, forms, operands)?;
    Ok(Found {
        operand,
        exp,
        is_address: false,
    })
}
