//! Calls (ISO/IEC 9899:1999, 6.5.2.2).
#![tactic(auto, using(ec_scopes::proofs::Steps::noting), unfolding(ec_typing_defs::specs::Worlds::chain, ec_typing_defs::specs::Worlds::pure, ec_typing_defs::specs::Worlds::ask, ec_typing_defs::specs::Worlds::note, ec_typing_defs::specs::Worlds::demand, ec_typing_defs::specs::Worlds::keep_within, ec_typing_defs::specs::Operands::call_by, ec_typing_defs::specs::Operands::call_rule))]

ghost use Rattle.std.specs.Prelude.{◌≡◌, ◌==◌, ◌+◌, ◌≤◌, length, map, drop, true, not, ◌||◌, nat_le, Some, IfOk, IsTrue, option_map};
ghost use Rattle.ec_ctypes.specs.views.Types.{ty_view};
ghost use Rattle.std.specs.Option.{option_copied};
ghost use Rattle.ec_ctypes.specs.views.Exprs.{exprs_view};
ghost use Rattle.ec_scopes.specs.Entries.{place_view, type_view};
ghost use Rattle.ec_scopes.specs.Seen.{world_of, IsDone, Does};
ghost use Rattle.ec_typing_defs.specs.Formats as formats;
ghost use Rattle.ec_typing_defs.specs.Known as known;
ghost use Rattle.ec_typing_defs.specs.Library as library;
ghost use Rattle.ec_typing_defs.specs.Operands as rule;
ghost use Rattle.ec_rules.specs.Seen.{operand_view, operands_view, are_counted, are_taken};

use crate::declared::copy_type;
use crate::faults::fault;
use crate::operand::Operand;
use ec_base::{FaultKind, List, OutOfMemory};
use ec_ctypes::{Expr, LibName, Ty};
use ec_known::{Known, has_stream, known_function, literal_at, optional_types, takes_stream};
use ec_known_calls::{cuts, is_format_of, library_call};
use ec_scopes::{Checker, Entry, Place};
use ec_type_rules::is_assignable;
use std::alloc::Global;

/// A call of the function of this name, with these arguments: as they are written, and what is found out about them. F16
/// for a call of what is no function, of one that the program doesn't define, of the library with arguments that it
/// doesn't take, and for another number of arguments; F14 for one of another type; F17 for a format that its arguments
/// don't fit.
pub fn call_rule(
    checker: &mut Checker,
    at: Place,
    name: &[u8],
    forms: &[Expr],
    arguments: List<Operand>,
) -> Result<Operand, OutOfMemory>
    ensures { Does operand_view (rule.call_rule (place_view at) name.now (exprs_view forms.now)
        (operands_view arguments) (world_of checker.old)) checker.old result checker.new }
{
    let defined = checker.is_defined(name);
    match checker.look_up(name) {
        Some(Entry::Object { .. }) => Ok(fault(checker, at, FaultKind::F16)),
        Some(Entry::Function { result, params, .. }) => {
            let counted = are_counted(params, arguments.as_slice());
            let taken = are_taken(params, arguments.as_slice());
            let ty = copy_type(checker.alloc(), result)?;
            checker.demand(at, FaultKind::F16, defined);
            checker.demand(at, FaultKind::F16, counted);
            checker.demand(at, FaultKind::F14, taken);
            Ok(Operand::computed(ty))
        }
        None => call_undeclared(checker, at, name, forms, arguments),
    }
}

/// A call of what the program doesn't declare: of the library, which is known in written C, or of a known function.
fn call_undeclared(
    checker: &mut Checker,
    at: Place,
    name: &[u8],
    forms: &[Expr],
    arguments: List<Operand>,
) -> Result<Operand, OutOfMemory>
    ensures { Does operand_view (rule.undeclared_call (place_view at) name.now
        (exprs_view forms.now) (operands_view arguments)
        (library.library_call (world_of checker.old).written name.now) (world_of checker.old))
        checker.old result checker.new }
{
    match library_call(checker.written(), name) {
        Some(call) => library_rule(checker, at, call, forms, arguments),
        None => call_known(checker, at, name, forms, arguments),
    }
}

/// A call of the library, which gives no value; F16 where it doesn't take these arguments.
fn library_rule(
    checker: &mut Checker,
    at: Place,
    call: LibName,
    forms: &[Expr],
    arguments: List<Operand>,
) -> Result<Operand, OutOfMemory>
    ensures { Does operand_view (rule.library_rule (place_view at) call (exprs_view forms.now)
        (operands_view arguments) (world_of checker.old)) checker.old result checker.new }
{
    let types = types_of(checker.alloc(), arguments)?;
    if cuts(checker.alloc(), call, forms, types.as_slice())? {
        return Ok(Operand::computed(Some(Ty::Void)));
    }
    Ok(fault(checker, at, FaultKind::F16))
}

/// A call of a known function; F16 where there is none of this name.
fn call_known(
    checker: &mut Checker,
    at: Place,
    name: &[u8],
    forms: &[Expr],
    arguments: List<Operand>,
) -> Result<Operand, OutOfMemory>
    ensures { Does operand_view (rule.known_rule (place_view at) name.now (exprs_view forms.now)
        (operands_view arguments) (known.known_function name.now) (world_of checker.old))
        checker.old result checker.new }
{
    match known_function(checker.alloc(), name)? {
        None => Ok(fault(checker, at, FaultKind::F16)),
        Some(Known::Plain(result, params)) => {
            let params = optional_types(checker.alloc(), params)?;
            plain_call(checker, at, params.as_slice(), arguments.as_slice());
            Ok(Operand::computed(Some(result)))
        }
        Some(Known::Formatted(before)) => {
            format_rule(checker, at, before, name, forms, arguments)
        }
    }
}

/// The arguments of a known function without a format.
fn plain_call(checker: &mut Checker, at: Place, params: &[Option<Ty>], arguments: &[Operand])
    ensures { IsDone (rule.arguments_rule (place_view at) (Some (map type_view params.now))
        (operands_view arguments.now) (world_of checker.old)) checker.old checker.new tt }
{
    checker.demand(at, FaultKind::F16, arguments.len() == params.len());
    checker.demand(at, FaultKind::F14, all_fit(params, arguments));
}

/// Whether there are as many arguments as parameters, if these are known.
fn are_counted(params: &Option<List<Option<Ty>>>, arguments: &[Operand]) -> bool
    ensures { result ≡ are_counted (option_map (map type_view) params.now)
        (operands_view arguments.now) }
{
    match params {
        Some(params) => arguments.len() == params.len(),
        None => true,
    }
}

/// Whether each argument fits its parameter, if these are known.
fn are_taken(params: &Option<List<Option<Ty>>>, arguments: &[Operand]) -> bool
    ensures { result ≡ are_taken (option_map (map type_view) params.now)
        (operands_view arguments.now) }
{
    match params {
        Some(params) => all_fit(params.as_slice(), arguments),
        None => true,
    }
}

/// Whether each argument with a type may be assigned to its parameter, if that has one.
fn all_fit(params: &[Option<Ty>], arguments: &[Operand]) -> bool
    ensures { result ≡ rule.all_fit (map type_view params.now) (operands_view arguments.now) }
{
    let mut i = 0;
    while i < params.len() && i < arguments.len() {
        if !fits(&params[i], &arguments[i]) {
            return false;
        }
        i += 1;
    }
    true
}

/// Whether the argument may be assigned to the parameter, if both have types.
fn fits(param: &Option<Ty>, argument: &Operand) -> bool
    ensures { result ≡ rule.fits (type_view param.now) (operand_view argument.now) }
{
    match param {
        None => true,
        Some(to) => match &argument.ty {
            None => true,
            Some(from) => is_assignable(to, from, argument.is_null()),
        },
    }
}

/// A call of a function with a format that stands behind so many arguments.
fn format_rule(
    checker: &mut Checker,
    at: Place,
    before: usize,
    name: &[u8],
    forms: &[Expr],
    arguments: List<Operand>,
) -> Result<Operand, OutOfMemory>
    ensures { Does operand_view (rule.format_rule (place_view at) before name.now
        (exprs_view forms.now) (operands_view arguments) (world_of checker.old))
        checker.old result checker.new }
{
    if !is_enough(before, arguments.as_slice()) {
        checker.note(at, FaultKind::F16);
        return Ok(Operand::computed(Some(Ty::Int)));
    }
    let streams = has_streams(name, forms, arguments.as_slice());
    let formatted = fits_format(checker.alloc(), before, forms, arguments)?;
    checker.demand(at, FaultKind::F14, streams);
    checker.demand(at, FaultKind::F17, formatted);
    Ok(Operand::computed(Some(Ty::Int)))
}

/// Whether there is an argument for the format.
fn is_enough(before: usize, arguments: &[Operand]) -> bool
    ensures is { result ≡ nat_le (before + 1) (length (operands_view arguments.now)) }
    ensures some { IsTrue result → before + 1 ≤ length arguments.now }
{
    before < arguments.len()
}

/// Whether the first argument is a stream, or has a fault, where the function takes a stream.
fn has_streams(name: &[u8], forms: &[Expr], arguments: &[Operand]) -> bool
    ensures { result ≡ (not (known.takes_stream name.now)
        || rule.is_stream_or_typeless (exprs_view forms.now) (operands_view arguments.now)) }
{
    !takes_stream(name) || is_stream_or_typeless(forms, arguments)
}

/// Whether the format is one, and the arguments behind it are what it needs.
fn fits_format(
    alloc: Global,
    before: usize,
    forms: &[Expr],
    arguments: List<Operand>,
) -> Result<bool, OutOfMemory>
    requires { before + 1 ≤ length arguments }
    ensures { IfOk result (λ fits. fits
        ≡ formats.is_format_of (known.literal_at before (exprs_view forms.now))
        (rule.types_of (drop (before + 1) (operands_view arguments)))) }
{
    let types = types_of(alloc, arguments)?;
    let format = literal_at(before, forms);
    Ok(is_formatted(format, behind(types.as_slice(), before)))
}

/// The types behind the format.
fn behind(types: &[Option<Ty>], before: usize) -> &[Option<Ty>]
    requires { before + 1 ≤ length types.now }
    ensures { result.now ≡ drop (before + 1) types.now }
{
    &types[before + 1..]
}

/// Whether the format is one, and its arguments are what it needs.
fn is_formatted(format: Option<&[u8]>, types: &[Option<Ty>]) -> bool
    ensures { result ≡ formats.is_format_of (option_copied format.entry)
        (map type_view types.now) }
{
    match format {
        None => false,
        Some(format) => is_format_of(format, types),
    }
}

/// Whether the first argument is `stdout` or `stderr`, or has a fault.
fn is_stream_or_typeless(forms: &[Expr], arguments: &[Operand]) -> bool
    ensures { result ≡ rule.is_stream_or_typeless (exprs_view forms.now)
        (operands_view arguments.now) }
{
    match arguments {
        [] => true,
        [first, ..] => has_stream(forms) || first.ty.is_none(),
    }
}

/// The types of operands.
fn types_of(alloc: Global, operands: List<Operand>) -> Result<List<Option<Ty>>, OutOfMemory>
    ensures { IfOk result (λ types. map type_view types ≡ rule.types_of (operands_view operands)) }
{
    let mut types = List::with_capacity(alloc, operands.len())?;
    for operand in operands {
        types.push(operand.ty)?;
    }
    Ok(types)
}
