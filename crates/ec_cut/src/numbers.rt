//! The numbers of hosts: sizes of elements, counts and distances.

ghost use Rattle.std.specs.Prelude.{◌≡◌, option_map};
ghost use Rattle.ec_arguments.specs.Rules as spec;
ghost use Rattle.ec_cut.specs.Cases.{some_if};
ghost use Rattle.ec_cut.specs.Views.{indicator_view, place_view};

use crate::arguments::{Indicator, Place};
use crate::pointers::Pointer;
use ec_ctypes::Sym;

/// The greatest number in a call.
const GREATEST: u64 = 1 << 24;

fn is_small(number: u64) -> bool
    ensures { result ≡ spec.is_small number }
{
    number <= GREATEST
}

/// The size of what has no length.
#[tactic(auto, using(crate::proofs::CasesAre::without_cases))]
fn without_length(length: u64, size: u128) -> Option<u128>
    ensures { result ≡ spec.without_length length size }
{
    if length == 0 {
        return Some(size);
    }
    None
}

/// A char array of this length, or a pointer where it is 0.
#[tactic(auto, using(crate::proofs::CasesAre::chars_cases))]
fn chars_size(length: u64) -> u128
    ensures { result ≡ spec.chars_size length }
{
    if length == 0 {
        return 8;
    }
    length as u128
}

/// A VARCHAR: its length, and at least one byte behind it.
#[tactic(auto, using(crate::proofs::CasesAre::varchar_cases))]
fn varchar_size(length: u64) -> Option<u128>
    ensures { result ≡ spec.varchar_size length }
{
    if length == 0 {
        return None;
    }
    Some((4 + length as u128).next_multiple_of(4))
}

/// The size of one element of a symbol and a length.
fn element_size(sym: Sym, length: u64) -> Option<u128>
    ensures { result ≡ spec.element_size sym length }
{
    match sym {
        Sym::Char => Some(chars_size(length)),
        Sym::UnsignedChar => Some(chars_size(length)),
        Sym::Short => without_length(length, 2),
        Sym::UnsignedShort => without_length(length, 2),
        Sym::Int => without_length(length, 4),
        Sym::UnsignedInt => without_length(length, 4),
        Sym::Long => without_length(length, 8),
        Sym::UnsignedLong => without_length(length, 8),
        Sym::LongLong => without_length(length, 8),
        Sym::UnsignedLongLong => without_length(length, 8),
        Sym::Bool => without_length(length, 1),
        Sym::Varchar => varchar_size(length),
        _ => None,
    }
}

/// The size of one indicator.
fn indicator_size(sym: Sym) -> Option<u128>
    ensures { result ≡ spec.indicator_size sym }
{
    match sym {
        Sym::Short => Some(2),
        Sym::Int => Some(4),
        Sym::Long => Some(8),
        Sym::LongLong => Some(8),
        _ => None,
    }
}

/// Elements of this size, if it is one: one or more, at least their size apart.
fn fits_element(element: Option<u128>, size: u64, count: u64, step: u64) -> bool
    ensures { result ≡ spec.fits_element element size count step }
{
    match element {
        None => false,
        Some(element) => {
            1 <= count
                && element <= step as u128
                && is_small(size)
                && is_small(count)
                && is_small(step)
        }
    }
}

/// At least as many indicators as elements, at least their size apart.
fn fits_indicator(element: Option<u128>, count: u64, indicators: u64, step: u64) -> bool
    ensures { result ≡ spec.fits_indicator element count indicators step }
{
    match element {
        None => false,
        Some(element) => {
            count <= indicators && element <= step as u128 && is_small(indicators) && is_small(step)
        }
    }
}

fn fits_indicators<A: Pointer + Copy>(ind: &Option<Indicator<A>>, count: u64) -> bool
    ensures { result ≡ spec.fits_indicators (option_map (indicator_view A.view) ind.now) count }
{
    match ind {
        None => true,
        Some(ind) => fits_indicator(indicator_size(ind.sym), count, ind.count, ind.step),
    }
}

/// Whether a host has numbers that a call may have.
pub(crate) fn fits_place<A: Pointer + Copy>(place: &Place<A>) -> bool
    ensures { result ≡ spec.fits_place (place_view A.view place.now) }
{
    let element = element_size(place.sym, place.size);
    fits_element(element, place.size, place.count, place.step)
        && fits_indicators(&place.ind, place.count)
}

/// Whether a host has one element.
pub(crate) fn is_single<A: Pointer + Copy>(place: &Place<A>) -> bool
    ensures { result ≡ spec.is_single (place_view A.view place.now) }
{
    place.count == 1 && fits_place(place)
}
