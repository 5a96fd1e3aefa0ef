//! From a host to a parameter.

ghost use Rattle.std.specs.Prelude.{◌≡◌, IsSome, option_map};
ghost use Rattle.ec_convert.specs.Answers.{GivesText, GivesParameter};
ghost use Rattle.ec_convert.specs.Calls.{Sends};
ghost use Rattle.ec_convert.specs.Elements.{held_by};
ghost use Rattle.ec_convert.specs.Host.{host_view, indicator_view, given_host};
ghost use Rattle.ec_ctypes.specs.declared.types.arith.Arith.TheVariants.{Int};
ghost use Rattle.ec_memory.specs.Store.{seen};
ghost use Rattle.ec_memory_defs.specs.Memory.{and_then, text_at};
ghost use Rattle.ec_transfer_defs.specs.Conversion.{parameter, is_null, element_text, address_at, number_at, counted_text};

use crate::element::Element;
use crate::host::{Host, HostPlace, Indicator, host_of};
use crate::numbers::{copied, number_at, number_text, pointer_at, truth_text};
use crate::stop::ConvStop;
use ec_base::{Bytes, Trap};
use ec_bytes::Ptr;
use ec_ctypes::Arith;
use ec_memory::Store;
use std::alloc::Global;

/// The parameter that a host gives, or `None` for NULL.
///
/// A negative indicator says NULL, and then no value is read. A value is an integer in decimal, `t` or `f` of a `bool`,
/// the bytes of a char array up to the first zero byte or its length, those that a char pointer leads to up to the zero
/// byte, and the first `len` bytes of a VARCHAR up to the first zero byte among them; no byte behind these is read. The
/// traps are those of the accesses, and `BadLen` where the length of a VARCHAR is below 0 or above its capacity. It never
/// answers a code. The symbols are types, and an indicator's is one that it may have.
pub fn to_text(alloc: Global, store: &Store, place: &HostPlace) -> Result<Option<Bytes>, ConvStop>
    requires { IsSome (given_host place.now) }
    ensures { Sends place.now store.now result }
{
    match host_of(place) {
        Some(host) => parameter(alloc, store, host),
        None => unreachable!(),
    }
}

/// The parameter that a host gives.
fn parameter(alloc: Global, store: &Store, host: Host) -> Result<Option<Bytes>, ConvStop>
    ensures { GivesParameter result (parameter store.now (host_view host)) }
{
    match is_null(store, host.indicator) {
        Ok(true) => Ok(None),
        Ok(false) => match element_text(alloc, store, host.at, host.element) {
            Ok(text) => Ok(Some(text)),
            Err(stop) => Err(stop),
        },
        Err(trap) => Err(ConvStop::Trapped(trap)),
    }
}

/// Whether the indicator, if there is one, says NULL.
fn is_null(store: &Store, indicator: Option<Indicator>) -> Result<bool, Trap>
    ensures { result ≡ is_null store.now (option_map indicator_view indicator) }
{
    match indicator {
        Some(it) => match number_at(store, it.at, it.kind) {
            Ok(number) => Ok(number < 0),
            Err(trap) => Err(trap),
        },
        None => Ok(false),
    }
}

/// The text of the element at a pointer.
fn element_text(alloc: Global, store: &Store, at: Ptr, element: Element) -> Result<Bytes, ConvStop>
    ensures { GivesText result (element_text store.now at.0 (held_by element)) }
{
    match element {
        Element::Integer(ty) => number_text(alloc, number_at(store, at, ty)),
        Element::Truth => truth_text(alloc, number_at(store, at, Arith::Bool)),
        Element::Characters(n) => copied(alloc, store.text_up_to(at, n)),
        Element::Pointed => copied(alloc, pointed_text(store, at)),
        Element::Counted(n) => copied(alloc, counted_text(store, at, n)),
    }
}

/// The text that a char pointer leads to.
fn pointed_text(store: &Store, at: Ptr) -> Result<&[u8], Trap>
    ensures { seen (λ bytes. bytes.now) result
        ≡ and_then (address_at store.now at.0) (λ q. text_at store.now q) }
{
    match pointer_at(store, at) {
        Ok(to) => store.text(to),
        Err(trap) => Err(trap),
    }
}

/// The text of a VARCHAR of `n` bytes.
fn counted_text(store: &Store, at: Ptr, n: u64) -> Result<&[u8], Trap>
    ensures { seen (λ bytes. bytes.now) result
        ≡ and_then (number_at store.now at.0 Int) (λ z. counted_text store.now at.0 n z) }
{
    match number_at(store, at, Arith::Int) {
        Ok(length) => front_behind(store, at, n, length),
        Err(trap) => Err(trap),
    }
}

/// At most `length` bytes of the text behind the length of a VARCHAR, which has `n`.
fn front_behind(store: &Store, at: Ptr, n: u64, length: i128) -> Result<&[u8], Trap>
    ensures { seen (λ bytes. bytes.now) result ≡ counted_text store.now at.0 n length }
{
    if length < 0 || length > n as i128 {
        return Err(Trap::BadLen);
    }
    match store.move_ptr(at, 4, 1) {
        Ok(array) => store.text_up_to(array, length as u64),
        Err(trap) => Err(trap),
    }
}
