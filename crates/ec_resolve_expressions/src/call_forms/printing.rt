//! `printf` and `fprintf`, with their formats taken apart (ISO/IEC 9899:1999, 7.19.6.1 and 7.19.6.3).

ghost use Rattle.std.specs.Prelude.{◌≡◌, ◌∷◌, ◌++◌, ◌+◌, IfOk, List as Sequence, drop, map, option_map, option_and_then};
ghost use Rattle.ec_code.specs.Views.{expression_view};
ghost use Rattle.ec_ctypes.specs.views.Exprs.{expr_view, exprs_view};
ghost use Rattle.ec_printf.specs.formats.Known.{channel_view, part_view};
ghost use Rattle.ec_resolve_forms.specs.Seen.{found_view, founds_view};
ghost use Rattle.ec_meaning_defs.specs.functions.Formats as formats;
ghost use Rattle.ec_resolving_defs.specs.Operands as rule;
ghost use Rattle.ec_typing_defs.specs.Known as known;
ghost use Rattle.ec_resolve_expressions.specs.call_forms.Printing.{stream_channel};

use ec_base::{List, OutOfMemory};
use ec_code::Expression;
use ec_ctypes::Expr;
use ec_known::literal_at;
use ec_printf::format_parts;
use ec_printf::formats::{Channel, Known, Part};
use ec_resolve_forms::{Found, promoted};
use ec_resolve_values::conversions::faulty;
use std::alloc::Global;

/// The output that a stream is.
fn stream_channel(e: &Expr) -> Channel
    ensures { channel_view result ≡ stream_channel (expr_view e.now) }
{
    match e {
        Expr::Name(name) => {
            if name.as_slice() == b"stderr".as_slice() {
                Channel::StandardError
            } else {
                Channel::StandardOutput
            }
        }
        _ => Channel::StandardOutput,
    }
}

/// The output of a call whose format stands behind so many arguments.
fn channel_of(before: usize, forms: &[Expr]) -> Channel
    ensures { channel_view result ≡ rule.channel_of before (exprs_view forms.now) }
{
    if before == 0 {
        return Channel::StandardOutput;
    }
    match forms {
        [] => Channel::StandardOutput,
        [first, ..] => stream_channel(first),
    }
}

/// The parts of the format that stands behind so many arguments, if there is one.
fn parts_at(alloc: Global, before: usize, forms: &[Expr]) -> Result<Option<List<Part>>, OutOfMemory>
    ensures { IfOk result (λ parts. option_map (map part_view) parts
        ≡ option_and_then formats.format_parts (known.literal_at before (exprs_view forms.now))) }
{
    match literal_at(before, forms) {
        Some(format) => format_parts(alloc, format),
        None => Ok(None),
    }
}

/// One argument more, behind those that are passed over: how many of these are left.
fn push_behind(rest: &mut List<Found>, left: usize, f: Found) -> Result<usize, OutOfMemory>
    ensures { IfOk result (λ more. (fs : Sequence rule.Found)
        → founds_view rest.old ++ drop left (found_view f ∷ fs)
        ≡ founds_view rest.new ++ drop more fs) }
{
    if left == 0 {
        rest.push(f)?;
        return Ok(0);
    }
    Ok(left - 1)
}

/// What stands behind so many arguments.
fn behind(alloc: Global, count: usize, fs: List<Found>) -> Result<List<Found>, OutOfMemory>
    ensures { IfOk result (λ rest. founds_view rest ≡ drop count (founds_view fs)) }
{
    let mut rest = List::new(alloc);
    let mut left = count;
    for f in fs {
        left = push_behind(&mut rest, left, f)?;
    }
    Ok(rest)
}

/// A call with these parts of a format, if it is one, and these arguments.
fn printing(
    alloc: Global,
    channel: Channel,
    parts: Option<List<Part>>,
    fs: List<Found>,
) -> Result<Expression, OutOfMemory>
    ensures { IfOk result (λ e. expression_view e ≡ rule.printing (channel_view channel)
        (option_map (map part_view) parts) (founds_view fs)) }
{
    match parts {
        None => Ok(faulty(alloc)),
        Some(parts) => {
            let arguments = promoted(alloc, fs)?;
            Ok(Expression::known(alloc, Known::Print(channel, parts), arguments))
        }
    }
}

/// A call of a function with a format that stands behind so many arguments.
pub(crate) fn formatted_call(
    alloc: Global,
    before: usize,
    forms: &[Expr],
    fs: List<Found>,
) -> Result<Expression, OutOfMemory>
    ensures { IfOk result (λ e. expression_view e ≡ rule.printing
        (rule.channel_of before (exprs_view forms.now))
        (option_and_then formats.format_parts (known.literal_at before (exprs_view forms.now)))
        (drop (before + 1) (founds_view fs))) }
{
    let Some(count) = before.checked_add(1) else {
        // Out of reach, which isn't proved: the format is the first or the second argument.
        return Err(OutOfMemory);
    };
    let channel = channel_of(before, forms);
    let parts = parts_at(alloc, before, forms)?;
    let rest = behind(alloc, count, fs)?;
    printing(alloc, channel, parts, rest)
}
