//! The requests of lines, as they are read.
ghost use Rattle.std.specs.Prelude.{◌≡◌, codes, length, option_map, Option};
ghost use Rattle.ec_transcript.specs.Reading.{Gives, behind, word_at, fields_at, params_at, connect_at, text_at, prepare_at, exec_at, deallocate_at, close_at, request_of};

use crate::fields::push_count;
use crate::reading::{blank_at, optional_at, quoted_at};
use crate::stop::LineStop;
use ec_base::{Bytes, List, Name};
use ec_link::Request;
use std::alloc::Global;

/// What stands behind that front of a text, if it has it.
pub fn behind<'a>(front: &[u8], text: &'a [u8]) -> Option<&'a [u8]>
    ensures { option_map (λ rest. rest.now) result ≡ behind front.now text.now }
{
    let mut wanted = front;
    let mut rest = text;
    while let [byte, later @ ..] = wanted {
        match rest {
            [] => return None,
            [first, ..] if *byte != *first => return None,
            [_, more @ ..] => rest = more,
        }
        wanted = later;
    }
    Some(rest)
}

/// The bytes up to a blank, and what stands from there on.
pub fn word_at(text: &[u8]) -> (&[u8], &[u8])
    ensures word { result.0.now ≡ (word_at text.now).0 }
    ensures rest { result.1.now ≡ (word_at text.now).1 }
{
    let mut end = 0;
    for byte in text {
        if *byte == b' ' {
            return text.split_at(end);
        }
        end += 1;
    }
    text.split_at(end)
}

/// The fields up to the end of a line. Each takes a byte at least, so there are no more of them than bytes.
#[tactic(auto, unfolding(crate::specs::Reading::fields_at))]
pub fn fields_at(alloc: Global, text: &[u8]) -> Result<List<Option<Bytes>>, LineStop>
    ensures { Gives (λ x. x) result (fields_at (length text.now) text.now) }
{
    let mut fields = List::new(alloc);
    let mut rest = text;
    let mut left = text.len();
    while !rest.is_empty() {
        if left == 0 {
            return Err(LineStop::Bad);
        }
        left -= 1;
        let first = blank_at(rest)?;
        let (field, more) = optional_at(alloc, first)?;
        fields.push(field)?;
        rest = more;
    }
    Ok(fields)
}

// The number of fields, and they.
#[tactic(auto, unfolding(crate::specs::Reading::params_at))]
fn params_at(alloc: Global, text: &[u8]) -> Result<List<Option<Bytes>>, LineStop>
    ensures { Gives (λ x. x) result (params_at text.now) }
{
    let first = blank_at(text)?;
    let (word, rest) = word_at(first);
    let params = fields_at(alloc, rest)?;
    let mut number = List::new(alloc);
    push_count(&mut number, params.len())?;
    if word != number.as_slice() {
        return Err(LineStop::Bad);
    }
    Ok(params)
}

#[tactic(auto, unfolding(crate::specs::Reading::connect_at))]
fn connect_at(alloc: Global, text: &[u8]) -> Result<Request, LineStop>
    ensures { Gives (λ x. x) result (connect_at text.now) }
{
    let (target, rest) = quoted_at(alloc, text)?;
    let rest = blank_at(rest)?;
    let (user, rest) = optional_at(alloc, rest)?;
    let rest = blank_at(rest)?;
    let (password, rest) = optional_at(alloc, rest)?;
    if !rest.is_empty() {
        return Err(LineStop::Bad);
    }
    Ok(Request::Connect {
        target,
        user,
        password,
    })
}

#[tactic(auto, unfolding(crate::specs::Reading::text_at))]
fn text_at(alloc: Global, text: &[u8]) -> Result<Request, LineStop>
    ensures { Gives (λ x. x) result (text_at text.now) }
{
    let (text, rest) = quoted_at(alloc, text)?;
    let params = params_at(alloc, rest)?;
    Ok(Request::Text { text, params })
}

#[tactic(auto, unfolding(crate::specs::Reading::prepare_at))]
fn prepare_at(alloc: Global, text: &[u8]) -> Result<Request, LineStop>
    ensures { Gives (λ x. x) result (prepare_at text.now) }
{
    let (name, rest) = quoted_at(alloc, text)?;
    let rest = blank_at(rest)?;
    let (text, rest) = quoted_at(alloc, rest)?;
    if !rest.is_empty() {
        return Err(LineStop::Bad);
    }
    let name = Name::from_slice(alloc, name.as_slice())?;
    Ok(Request::Prepare { name, text })
}

#[tactic(auto, unfolding(crate::specs::Reading::exec_at))]
fn exec_at(alloc: Global, text: &[u8]) -> Result<Request, LineStop>
    ensures { Gives (λ x. x) result (exec_at text.now) }
{
    let (name, rest) = quoted_at(alloc, text)?;
    let params = params_at(alloc, rest)?;
    let name = Name::from_slice(alloc, name.as_slice())?;
    Ok(Request::Exec { name, params })
}

#[tactic(auto, unfolding(crate::specs::Reading::deallocate_at))]
fn deallocate_at(alloc: Global, text: &[u8]) -> Result<Request, LineStop>
    ensures { Gives (λ x. x) result (deallocate_at text.now) }
{
    let (name, rest) = quoted_at(alloc, text)?;
    if !rest.is_empty() {
        return Err(LineStop::Bad);
    }
    let name = Name::from_slice(alloc, name.as_slice())?;
    Ok(Request::Deallocate { name })
}

fn close_at(text: &[u8]) -> Result<Request, LineStop>
    ensures { Gives (λ x. x) result (close_at text.now) }
{
    if !text.is_empty() {
        return Err(LineStop::Bad);
    }
    Ok(Request::Close)
}

/// The request of a line.
pub fn request_of(alloc: Global, line: &[u8]) -> Result<Request, LineStop>
    ensures { Gives (λ x. x) result (request_of line.now) }
{
    if let Some(rest) = behind(b"> connect ", line) {
        return connect_at(alloc, rest);
    }
    if let Some(rest) = behind(b"> text ", line) {
        return text_at(alloc, rest);
    }
    if let Some(rest) = behind(b"> prepare ", line) {
        return prepare_at(alloc, rest);
    }
    if let Some(rest) = behind(b"> exec ", line) {
        return exec_at(alloc, rest);
    }
    if let Some(rest) = behind(b"> deallocate ", line) {
        return deallocate_at(alloc, rest);
    }
    if let Some(rest) = behind(b"> close", line) {
        return close_at(rest);
    }
    Err(LineStop::Bad)
}
