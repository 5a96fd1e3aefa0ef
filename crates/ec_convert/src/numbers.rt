//! Numbers in memory, in fields and in parameters.

ghost use Rattle.std.specs.Prelude.{◌≡◌, Some, Ok};
ghost use Rattle.std.specs.Fmt.{signed_decimal};
ghost use Rattle.ec_convert.specs.Answers.{GivesText};
ghost use Rattle.ec_convert.specs.Pieces.{fitting};
ghost use Rattle.ec_memory.specs.Store.{seen};
ghost use Rattle.ec_memory.specs.Values.{value_view};
ghost use Rattle.ec_memory_defs.specs.Memory.{and_then, number_of};
ghost use Rattle.ec_transfer_defs.specs.Conversion.{number_at, address_at, field_number, truth_text};

use crate::element::kind_of;
use crate::stop::ConvStop;
use ec_base::{Bytes, Trap};
use ec_bytes::Ptr;
use ec_ctypes::Arith;
use ec_memory::{Store, Value};
use ec_memory_defs::Kind;
use itoa::Buffer;
use std::alloc::Global;

/// The number of an integer type at a pointer.
pub(crate) fn number_at(store: &Store, at: Ptr, ty: Arith) -> Result<i128, Trap>
    ensures { result ≡ number_at store.now at.0 ty }
{
    match store.load_kind(at, kind_of(ty)) {
        Ok(value) => Ok(number(value)),
        Err(trap) => Err(trap),
    }
}

/// The number that a value is, or that of a pointer.
fn number(value: Value) -> i128
    ensures { result ≡ number_of (value_view value) }
{
    match value {
        Value::Int(number) => number,
        Value::Ptr(ptr) => ptr.0 as i128,
    }
}

/// The pointer at a pointer.
pub(crate) fn pointer_at(store: &Store, at: Ptr) -> Result<Ptr, Trap>
    ensures { seen (λ to. to.0) result ≡ address_at store.now at.0 }
{
    store.read::<Ptr>(at)
}

/// The number that a field is, if it is one of the type: one optional sign and one or more digits.
pub fn number_in(ty: Arith, field: &[u8]) -> Option<i128>
    ensures { result ≡ fitting ty (field_number field.now) }
{
    match str::from_utf8(field) {
        Ok(text) => match text.parse::<i128>() {
            Ok(number) => within(ty, number),
            Err(_) => None,
        },
        Err(_) => None,
    }
}

/// The number, if it is one of the type.
fn within(ty: Arith, number: i128) -> Option<i128>
    ensures { result ≡ fitting ty (Some number) }
{
    if ty.least() <= number && number <= ty.greatest() {
        Some(number)
    } else {
        None
    }
}

/// A number in decimal.
pub(crate) fn number_text(alloc: Global, number: Result<i128, Trap>) -> Result<Bytes, ConvStop>
    ensures { GivesText result (and_then number (λ z. Ok (signed_decimal z))) }
{
    match number {
        Ok(number) => {
            let mut digits = Buffer::new();
            copied(alloc, Ok(digits.format(number).as_bytes()))
        }
        Err(trap) => Err(ConvStop::Trapped(trap)),
    }
}

/// A truth value as its letter.
pub(crate) fn truth_text(alloc: Global, number: Result<i128, Trap>) -> Result<Bytes, ConvStop>
    ensures { GivesText result (and_then number (λ z. Ok (truth_text z))) }
{
    match number {
        Ok(0) => copied(alloc, Ok(b"f")),
        Ok(_) => copied(alloc, Ok(b"t")),
        Err(trap) => Err(ConvStop::Trapped(trap)),
    }
}

/// A text of its own of these bytes.
pub(crate) fn copied(alloc: Global, text: Result<&[u8], Trap>) -> Result<Bytes, ConvStop>
    ensures { GivesText result (seen (λ bytes. bytes.now) text.entry) }
{
    match text {
        Ok(bytes) => match Bytes::from_slice(alloc, bytes) {
            Ok(text) => Ok(text),
            Err(_) => Err(ConvStop::OutOfMemory),
        },
        Err(trap) => Err(ConvStop::Trapped(trap)),
    }
}
