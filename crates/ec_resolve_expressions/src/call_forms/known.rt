//! Calls of known functions (ISO/IEC 9899:1999, 7.19 to 7.21; PostgreSQL manual, 36.8.1).

ghost use Rattle.std.specs.Prelude.{◌≡◌, IfOk, drop, map, option_map};
ghost use Rattle.ec_code.specs.Views.{expression_view};
ghost use Rattle.ec_ctypes.specs.views.Exprs.{exprs_view};
ghost use Rattle.ec_printf.specs.formats.Known.{known_view};
ghost use Rattle.ec_resolve_forms.specs.Seen.{founds_view};
ghost use Rattle.ec_resolving_defs.specs.Operands as rule;
ghost use Rattle.ec_type_rules.specs.Views.{type_view};
ghost use Rattle.ec_typing_defs.specs.Known as known;
ghost use Rattle.ec_typing_defs.specs.Tables.{find};
ghost use Rattle.ec_resolve_expressions.specs.call_forms.Printing.{with_parameters};

use crate::call_forms::printing::formatted_call;
use ec_base::{List, OutOfMemory};
use ec_code::Expression;
use ec_ctypes::{Expr, Ty};
use ec_known::{Known, known_function, optional_types};
use ec_printf::formats::Known as Function;
use ec_resolve_forms::{Found, passed};
use ec_resolve_values::conversions::faulty;
use std::alloc::Global;

/// The function of this name, of those that write memory, end the program or tell an error.
fn writing_function(name: &[u8]) -> Option<Function>
    ensures { option_map known_view result ≡ find name.now (drop 6 rule.plain_functions) }
{
    if name == b"strcpy".as_slice() {
        Some(Function::Strcpy)
    } else if name == b"strncpy".as_slice() {
        Some(Function::Strncpy)
    } else if name == b"strcat".as_slice() {
        Some(Function::Strcat)
    } else if name == b"memcpy".as_slice() {
        Some(Function::Memcpy)
    } else if name == b"memset".as_slice() {
        Some(Function::Memset)
    } else if name == b"exit".as_slice() {
        Some(Function::Exit)
    } else if name == b"sqlprint".as_slice() {
        Some(Function::Sqlprint)
    } else {
        None
    }
}

/// The known function of this name that takes no format.
fn plain_function(name: &[u8]) -> Option<Function>
    ensures { option_map known_view result ≡ find name.now rule.plain_functions }
{
    if name == b"puts".as_slice() {
        Some(Function::Puts)
    } else if name == b"putchar".as_slice() {
        Some(Function::Putchar)
    } else if name == b"strlen".as_slice() {
        Some(Function::Strlen)
    } else if name == b"strcmp".as_slice() {
        Some(Function::Strcmp)
    } else if name == b"strncmp".as_slice() {
        Some(Function::Strncmp)
    } else if name == b"memcmp".as_slice() {
        Some(Function::Memcmp)
    } else {
        writing_function(name)
    }
}

/// A call of a known function without a format, with these parameters.
fn plain_call(
    alloc: Global,
    name: &[u8],
    params: &[Option<Ty>],
    fs: List<Found>,
) -> Result<Expression, OutOfMemory>
    ensures { IfOk result (λ e. expression_view e ≡ with_parameters
        (find name.now rule.plain_functions) (map type_view params.now) (founds_view fs)) }
{
    match plain_function(name) {
        None => Ok(faulty(alloc)),
        Some(function) => {
            let arguments = passed(alloc, params, fs)?;
            Ok(Expression::known(alloc, function, arguments))
        }
    }
}

/// A call of the known function of this name, if there is one.
pub(crate) fn known_call(
    alloc: Global,
    name: &[u8],
    forms: &[Expr],
    fs: List<Found>,
) -> Result<Expression, OutOfMemory>
    ensures { IfOk result (λ e. expression_view e ≡ rule.known_call name.now
        (exprs_view forms.now) (founds_view fs) (known.known_function name.now)) }
{
    match known_function(alloc, name)? {
        None => Ok(faulty(alloc)),
        Some(Known::Plain(_, params)) => {
            let params = optional_types(alloc, params)?;
            plain_call(alloc, name, params.as_slice(), fs)
        }
        Some(Known::Formatted(before)) => formatted_call(alloc, before, forms, fs),
    }
}
