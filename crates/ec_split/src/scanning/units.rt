//! Units of C text and of SQL text.
ghost use Rattle.std.specs.Prelude.{◌≡◌, ◌+◌, ◌≤◌, ◌<◌, length, drop, true};
ghost use Rattle.ec_language.specs.SqlText as sql;
ghost use Rattle.ec_language.specs.ReadPieces as read;
ghost use Rattle.ec_split.specs.Places.{behind_at, Within};

use crate::scanning::bytes::{
    ByteClass, begins_two, behind_all, byte_at, class_at, is_digit, is_quote, is_sql_word_start,
    is_word_start,
};
use crate::scanning::ends::{End, comment_end, escaped_end, nested_end, quote_end, sql_quote_end};

/// The end of the unit of C text that stands at the index.
#[inline(always)]
#[tactic(auto, using(crate::proofs::Walks::c_comment, crate::proofs::Walks::c_line))]
pub fn c_end(text: &[u8], at: usize) -> End
    requires { at < length text.now }
    ensures is { behind_at text.now result ≡ read.c_end (drop at text.now) }
    ensures within { Within (at + 1) text.now result }
{
    let byte = text[at];
    if is_word_start(byte) {
        End::Passed(behind_all(ByteClass::Word, text, at + 1))
    } else if is_digit(byte) {
        End::Passed(behind_all(ByteClass::Number, text, at + 1))
    } else if is_quote(byte) {
        quote_end(byte, text, at + 1)
    } else if begins_two(text, at, b'/', b'*') {
        comment_end(text, at + 2)
    } else if begins_two(text, at, b'/', b'/') {
        End::Passed(behind_all(ByteClass::Line, text, at + 2))
    } else {
        End::Passed(at + 1)
    }
}

/// Whether the word `E` stands at the index, and a quote directly behind it.
pub fn begins_escaped(text: &[u8], at: usize) -> bool
    requires { at < length text.now }
    ensures is { result ≡ read.begins_escaped (drop at text.now) }
    ensures fits { result ≡ true → at + 2 ≤ length text.now }
{
    (text[at] == b'E' || text[at] == b'e') && byte_at(text, at + 1, b'\'')
}

/// Whether a number of SQL text begins at the index.
pub fn begins_number(text: &[u8], at: usize) -> bool
    requires { at < length text.now }
    ensures { result ≡ sql.begins_number (drop at text.now) }
{
    is_digit(text[at]) || (text[at] == b'.' && at + 1 < text.len() && is_digit(text[at + 1]))
}

/// The end of the unit of SQL text that stands at the index.
#[inline(always)]
#[tactic(auto, using(crate::proofs::Walks::sql_escaped, crate::proofs::Walks::sql_comment, crate::proofs::Walks::sql_dash))]
pub fn sql_end(text: &[u8], at: usize) -> End
    requires { at < length text.now }
    ensures is { behind_at text.now result ≡ read.sql_end (drop at text.now) }
    ensures within { Within (at + 1) text.now result }
{
    let byte = text[at];
    if begins_escaped(text, at) {
        escaped_end(text, at + 2)
    } else if is_sql_word_start(byte) {
        End::Passed(behind_all(ByteClass::SqlWord, text, at + 1))
    } else if begins_number(text, at) {
        End::Passed(behind_all(ByteClass::Number, text, at + 1))
    } else if is_quote(byte) {
        sql_quote_end(byte, text, at + 1)
    } else if begins_two(text, at, b'/', b'*') {
        nested_end(text, at + 2)
    } else if begins_two(text, at, b'-', b'-') {
        End::Passed(behind_all(ByteClass::Line, text, at + 2))
    } else {
        End::Passed(at + 1)
    }
}

/// Whether a blank or a comment of SQL text stands at the index.
pub fn begins_gap(text: &[u8], at: usize) -> bool
    requires { at ≤ length text.now }
    ensures { result ≡ read.begins_gap (drop at text.now) }
{
    class_at(ByteClass::Blank, text, at)
        || begins_two(text, at, b'/', b'*')
        || begins_two(text, at, b'-', b'-')
}
