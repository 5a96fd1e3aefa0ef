//! Formats against the types of their arguments.

ghost use Rattle.std.specs.Prelude.{◌≡◌, ℕ, suc, Some, option_map};
ghost use Rattle.std.specs.Option.{option_copied};
ghost use Rattle.ec_ctypes.specs.trees.Types.{arithmetic, pointer};
ghost use Rattle.ec_ctypes.specs.views.Types.{ty_view};
ghost use Rattle.ec_typing_defs.specs.Formats as spec;
ghost use Rattle.ec_typing_defs.specs.Types as types;
ghost use Rattle.ec_known_calls.specs.Conversions.{need_view, needs_in, optional_need, starred};
ghost use Rattle.ec_known_calls.specs.Taking.{types_view, taken, taken_one, met_by, conversion_needs, is_met, stepped};

use crate::conversions::{Conversion, Need, read_conversion};
use ec_ctypes::{Arith, Ty, promote};

pub fn is_character(a: Arith) -> bool
    ensures { result ≡ types.is_character a }
{
    a.rank() == Arith::Char.rank()
}

// Whether a value of this integer type is what is needed.
fn is_needed(need: Need, a: Arith) -> bool
    ensures { result ≡ spec.meets (need_view need) (arithmetic a) }
{
    match need {
        Need::ExactInt => promote(a) == Arith::Int,
        Need::ShortInteger => promote(a).rank() == Arith::Int.rank(),
        Need::LongInteger => a.rank() > Arith::Int.rank(),
        Need::Text => false,
    }
}

// Whether a pointer to such objects is what is needed.
fn is_needed_text(need: Need, of: &Ty) -> bool
    ensures { result ≡ spec.meets (need_view need) (pointer (ty_view of.now)) }
{
    match (need, of.arith()) {
        (Need::Text, Some(a)) => is_character(a),
        _ => false,
    }
}

// Whether a value of this type is what is needed.
fn meets(need: Need, ty: &Ty) -> bool
    ensures { result ≡ spec.meets (need_view need) (ty_view ty.now) }
{
    match ty {
        Ty::Ptr(of) => is_needed_text(need, of.get()),
        _ => match ty.arith() {
            Some(a) => is_needed(need, a),
            None => false,
        },
    }
}

// What is left of the arguments behind one that is needed, if the first is one.
fn take_one(need: Need, types: &[Option<Ty>]) -> Option<&[Option<Ty>]>
    ensures { option_map types_view (option_copied result)
        ≡ taken_one (need_view need) (types_view types.now) }
{
    match types {
        [] => None,
        [None, rest @ ..] => Some(rest),
        [Some(ty), rest @ ..] => { if meets(need, ty) { Some(rest) } else { None } }
    }
}

// What is left behind an argument for a `*`, if there is one.
fn take_star(is_starred: bool, types: &[Option<Ty>]) -> Option<&[Option<Ty>]>
    ensures { option_map types_view (option_copied result)
        ≡ taken (starred is_starred) (types_view types.now) }
{
    if is_starred {
        take_one(Need::ExactInt, types)
    } else {
        Some(types)
    }
}

fn take_need(need: Option<Need>, types: &[Option<Ty>]) -> Option<&[Option<Ty>]>
    ensures { option_map types_view (option_copied result)
        ≡ taken (optional_need need) (types_view types.now) }
{
    match need {
        Some(need) => take_one(need, types),
        None => Some(types),
    }
}

// What is left behind the arguments of a conversion.
fn take<'a>(found: Conversion<'_>, types: &'a [Option<Ty>]) -> Option<&'a [Option<Ty>]>
    ensures { option_map types_view (option_copied result)
        ≡ taken (needs_in found.entry) (types_view types.now) }
{
    match take_star(found.width, types) {
        None => None,
        Some(types) => match take_star(found.precision, types) {
            None => None,
            Some(types) => take_need(found.need, types),
        },
    }
}

/// What is left of a format, and of the types of its arguments.
#[derive(Clone, Copy)]
pub struct Reading<'a> {
    pub format: &'a [u8],
    pub types: &'a [Option<Ty>],
}

/// What a step through a format comes to.
#[derive(Clone, Copy)]
pub enum Step<'a> {
    Done(bool),
    Next(Reading<'a>),
}

// A conversion, behind its `%`.
fn convert<'a>(format: &'a [u8], types: &'a [Option<Ty>]) -> Step<'a>
    ensures { (n : ℕ) →
        met_by (types_view types.now) (conversion_needs n format.now) ≡ stepped (is_met n) result }
{
    match read_conversion(format) {
        None => Step::Done(false),
        Some(found) => match take(found, types) {
            None => Step::Done(false),
            Some(types) => Step::Next(Reading {
                format: found.rest,
                types,
            }),
        },
    }
}

// One byte or one conversion of a format, which ends at its first zero byte.
fn pass(reading: Reading<'_>) -> Step<'_>
    ensures { (n : ℕ) → is_met (suc n) reading.entry ≡ stepped (is_met n) result }
{
    match reading.format {
        [] | [0, ..] => Step::Done(reading.types.is_empty()),
        [b'%', rest @ ..] => convert(rest, reading.types),
        [_, rest @ ..] => Step::Next(Reading {
            format: rest,
            types: reading.types,
        }),
    }
}

/// Whether the arguments of these types are what the format needs. An argument without a type fits every need.
pub fn is_format_of(format: &[u8], types: &[Option<Ty>]) -> bool
    ensures { result ≡ spec.is_format_of (Some format.now) (types_view types.now) }
{
    let mut reading = Reading { format, types };
    let mut left = format.len();
    while left > 0 {
        match pass(reading) {
            Step::Done(answer) => return answer,
            Step::Next(next) => reading = next,
        }
        left -= 1;
    }
    reading.types.is_empty()
}
