//! Parameters as SQLite takes them, and its values as fields of a reply.
ghost use Rattle.std.specs.Prelude.{◌≡◌, map, IfOk};
ghost use Rattle.std.specs.Fmt.{signed_decimal};
ghost use Rattle.sqlite_value.specs.Value.{owned};
ghost use Rattle.ec_sqlitelink.specs.Bound.{as_text, exact, whole_of, as_whole, field_of};

use crate::refusal::{Refusal, Stop};
use ec_base::{Bytes, OutOfMemory};
use itoa::Buffer;
use sqlite::types::ValueRef;
use std::alloc::Global;

// A parameter as it is bound.
fn lent(param: &Option<Bytes>) -> ValueRef<'_>
    ensures { owned result ≡ as_text param.now }
{
    match param {
        Some(text) => ValueRef::Text(text.as_slice()),
        None => ValueRef::Null,
    }
}

/// The parameters as they are bound, in order: texts as texts, and NULL.
pub fn bound<'a>(
    alloc: Global,
    params: &'a [Option<Bytes>],
) -> Result<Vec<ValueRef<'a>>, OutOfMemory>
    ensures { IfOk result (λ values. map owned values.items ≡ map as_text params.now) }
{
    let mut values = Vec::new(alloc);
    for param in params {
        values.push(lent(param))?;
    }
    Ok(values)
}

// The number, if the text is its decimal.
fn exact(text: &[u8], number: i64) -> Option<i64>
    ensures { result ≡ exact number text.now }
{
    let mut buffer = Buffer::new();
    if buffer.format(number).as_bytes() == text {
        Some(number)
    } else {
        None
    }
}

// The whole number whose decimal the text is, if it is one.
fn whole(text: &[u8]) -> Option<i64>
    ensures { result ≡ whole_of text.now }
{
    match std::str::from_utf8(text) {
        Ok(written) => match written.parse::<i64>() {
            Ok(number) => exact(text, number),
            Err(_) => None,
        },
        Err(_) => None,
    }
}

// A parameter as it is bound where numbers are asked for.
fn lent_whole(param: &Option<Bytes>) -> ValueRef<'_>
    ensures { owned result ≡ as_whole param.now }
{
    match param {
        Some(text) => match whole(text.as_slice()) {
            Some(number) => ValueRef::Int(number),
            None => ValueRef::Text(text.as_slice()),
        },
        None => ValueRef::Null,
    }
}

/// The parameters as they are bound where numbers are asked for: those that are whole numbers as such.
pub fn bound_whole<'a>(
    alloc: Global,
    params: &'a [Option<Bytes>],
) -> Result<Vec<ValueRef<'a>>, OutOfMemory>
    ensures { IfOk result (λ values. map owned values.items ≡ map as_whole params.now) }
{
    let mut values = Vec::new(alloc);
    for param in params {
        values.push(lent_whole(param))?;
    }
    Ok(values)
}

/// Whether one of the parameters is a whole number.
pub fn has_whole(params: &[Option<Bytes>]) -> bool {
    for param in params {
        if let ValueRef::Int(_) = lent_whole(param) {
            return true;
        }
    }
    false
}

// The decimal text of a whole number.
fn decimal(alloc: Global, number: i64) -> Result<Bytes, OutOfMemory>
    ensures { IfOk result (λ text. text ≡ signed_decimal number) }
{
    let mut buffer = Buffer::new();
    Bytes::from_slice(alloc, buffer.format(number).as_bytes())
}

/// The field for a value. A float is refused.
pub fn field(alloc: Global, value: ValueRef<'_>) -> Result<Option<Bytes>, Stop>
    ensures { IfOk result (λ field. field_of (owned value.entry) ≡ Some field) }
{
    match value {
        ValueRef::Null => Ok(None),
        ValueRef::Int(number) => Ok(Some(decimal(alloc, number)?)),
        ValueRef::Text(bytes) | ValueRef::Blob(bytes) => Ok(Some(Bytes::from_slice(alloc, bytes)?)),
        ValueRef::Real(_) => Err(Stop::Refused(Refusal::Float)),
    }
}
