//! Names and texts that a statement is given.

ghost use Rattle.std.specs.Prelude.{◌≡◌, IfOk};
ghost use Rattle.ec_clex.specs.Sql.{sql_view};
ghost use Rattle.ec_ctypes.specs.views.Embedded.{host_view, text_arg_view};
ghost use Rattle.ec_embedded.specs.Connections as connections;
ghost use Rattle.ec_embedded.specs.References as forms;
ghost use Rattle.ec_references.specs.Readers as spec;
ghost use Rattle.ec_references.specs.States.{CursorReads, seen};

use crate::class::Class;
use crate::cursor::Cursor;
use crate::references::{hosted, spelled_host};
use ec_base::{Boxed, Bytes, List, OutOfMemory};
use ec_clex::SqlToken;
use ec_ctypes::{Host, TextArg};
use ec_embedded::shapes::Failure;
use ec_split::scanning::words::same_word;
use std::alloc::Global;

/// The bytes of a token.
pub fn copy_bytes(alloc: Global, token: &SqlToken<'_>) -> Result<Bytes, OutOfMemory>
    ensures { IfOk result (λ bytes. bytes ≡ (sql_view token.now).bytes) }
{
    List::from_slice(alloc, token.bytes)
}

/// The bytes with a doubled quote for one.
fn undoubled(alloc: Global, text: &[u8]) -> Result<Bytes, OutOfMemory>
    ensures { IfOk result (λ bytes. bytes ≡ forms.undoubled text.now) }
{
    let mut bytes = List::new(alloc);
    let mut doubled = false;
    for byte in text {
        if doubled {
            doubled = false;
        } else {
            bytes.push(*byte)?;
            doubled = *byte == b'\'';
        }
    }
    Ok(bytes)
}

/// The bytes of a quote without its quotes.
pub fn unquoted(alloc: Global, token: &SqlToken<'_>) -> Result<Bytes, OutOfMemory>
    ensures { IfOk result (λ bytes. bytes ≡ forms.unquoted (sql_view token.now).bytes) }
{
    let text = token.bytes;
    if text.len() < 2 {
        return Ok(List::new(alloc));
    }
    undoubled(alloc, &text[1..text.len() - 1])
}

/// DEFAULT in upper case, and every other text as it stands.
pub fn or_default(alloc: Global, text: &[u8]) -> Result<Bytes, OutOfMemory>
    ensures { IfOk result (λ bytes. bytes ≡ connections.or_default text.now) }
{
    if same_word(b"DEFAULT", text) {
        return List::from_slice(alloc, b"DEFAULT");
    }
    List::from_slice(alloc, text)
}

/// CURRENT, ALL and DEFAULT in upper case, and every other text as it stands.
fn or_special(alloc: Global, text: &[u8]) -> Result<Bytes, OutOfMemory>
    ensures { IfOk result (λ bytes. bytes ≡ connections.or_special text.now) }
{
    if same_word(b"CURRENT", text) {
        return List::from_slice(alloc, b"CURRENT");
    }
    if same_word(b"ALL", text) {
        return List::from_slice(alloc, b"ALL");
    }
    or_default(alloc, text)
}

/// A host as a text.
pub fn text_of_host(alloc: Global, host: Host) -> Result<TextArg, OutOfMemory>
    ensures { IfOk result (λ text. text_arg_view text ≡ forms.text_of_host (host_view host)) }
{
    let Host { value, indicator } = host;
    let value = Boxed::new(alloc, value)?;
    Ok(match indicator {
        Some(indicator) => TextArg::HostWithIndicator(value, indicator),
        None => TextArg::Host(value),
    })
}

/// Whether a name begins here: a word, a quote or a reference.
pub fn begins_text(cursor: &Cursor<'_>) -> bool
    ensures { result ≡ spec.begins_text (seen cursor.now).tokens }
{
    cursor.at(Class::AnyWord) || cursor.at(Class::Quote) || cursor.at(Class::Colon)
}

/// A quote or a host.
#[tactic(auto, unfolding(crate::specs::Readers::quote_or_host))]
pub fn quote_or_host(alloc: Global, cursor: &mut Cursor<'_>) -> Result<TextArg, Failure>
    ensures { CursorReads text_arg_view spec.quote_or_host cursor.old result cursor.new }
{
    if cursor.at(Class::Quote) {
        let token = cursor.take(Class::Quote)?;
        return Ok(TextArg::Word(unquoted(alloc, token)?));
    }
    let host = hosted(alloc, cursor)?;
    Ok(text_of_host(alloc, host)?)
}

/// A word, a quote or a host.
#[tactic(auto, unfolding(crate::specs::Readers::text_argument))]
pub fn text_argument(alloc: Global, cursor: &mut Cursor<'_>) -> Result<TextArg, Failure>
    ensures { CursorReads text_arg_view spec.text_argument cursor.old result cursor.new }
{
    if cursor.at(Class::AnyWord) {
        let token = cursor.take(Class::AnyWord)?;
        return Ok(TextArg::Word(copy_bytes(alloc, token)?));
    }
    quote_or_host(alloc, cursor)
}

/// A word, a quote or a host whose indicator is spelled.
#[tactic(auto, unfolding(crate::specs::Readers::spelled_text))]
pub fn spelled_text(alloc: Global, cursor: &mut Cursor<'_>) -> Result<TextArg, Failure>
    ensures { CursorReads text_arg_view spec.spelled_text cursor.old result cursor.new }
{
    if cursor.at(Class::AnyWord) {
        let token = cursor.take(Class::AnyWord)?;
        return Ok(TextArg::Word(copy_bytes(alloc, token)?));
    }
    if cursor.at(Class::Quote) {
        let token = cursor.take(Class::Quote)?;
        return Ok(TextArg::Word(unquoted(alloc, token)?));
    }
    let host = spelled_host(alloc, cursor)?;
    Ok(text_of_host(alloc, host)?)
}

/// A connection by its name.
#[tactic(auto, unfolding(crate::specs::Readers::named_connection))]
pub fn connection(alloc: Global, cursor: &mut Cursor<'_>) -> Result<TextArg, Failure>
    ensures { CursorReads text_arg_view (spec.named_connection connections.or_default)
        cursor.old result cursor.new }
{
    if cursor.at(Class::AnyWord) {
        let token = cursor.take(Class::AnyWord)?;
        return Ok(TextArg::Word(or_default(alloc, token.bytes)?));
    }
    quote_or_host(alloc, cursor)
}

/// A connection to be ended.
#[tactic(auto, unfolding(crate::specs::Readers::named_connection))]
pub fn ended_connection(alloc: Global, cursor: &mut Cursor<'_>) -> Result<TextArg, Failure>
    ensures { CursorReads text_arg_view (spec.named_connection connections.or_special)
        cursor.old result cursor.new }
{
    if cursor.at(Class::AnyWord) {
        let token = cursor.take(Class::AnyWord)?;
        return Ok(TextArg::Word(or_special(alloc, token.bytes)?));
    }
    quote_or_host(alloc, cursor)
}
