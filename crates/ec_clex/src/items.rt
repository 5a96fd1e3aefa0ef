//! What stands at the beginning of C text.
ghost use Rattle.std.specs.Prelude.{◌≡◌, ◌+◌, ◌-◌, ◌≤◌, ◌<◌, ◌^◌, ◌==◌, ℕ, true, false, Some, None, Ok, Err, if◌then◌else◌, length, take, drop, slice_index, codes, option_map, IfOk, IfSome};
ghost use Rattle.ec_base.specs.declared.fault.FaultKind.TheVariants as faults;
ghost use Rattle.ec_base.specs.declared.stop.Stop.TheVariants as stops;
ghost use Rattle.ec_ctypes.specs.trees.Tokens as trees;
ghost use Rattle.ec_ctypes.specs.views.Tokens.{tok_view};
ghost use Rattle.ec_language.specs.Letters as letters;
ghost use Rattle.ec_language.specs.Constants as constants;
ghost use Rattle.ec_language.specs.Tokens as tokens;
ghost use Rattle.ec_language.specs.ReadTokens as read;
ghost use Rattle.ec_clex.specs.Items as items;
ghost use Rattle.ec_clex.specs.Items.{TellsTok, TellsItem};
ghost use Rattle.ec_split.specs.Places.{text_from};

use crate::escapes::{character, unescaped};
use crate::lines::{directive_at, include_line_end, stands_at};
use crate::marks::mark_at;
use crate::numbers::integer_constant;
use crate::words::is_left_out_word;
use ec_base::{FaultKind, Line, List, Name, Stop};
use ec_ctypes::{Tok, Ty};
use ec_split::scanning::bytes::{
    ByteClass, begins_two, behind_all, is_blank, is_digit, is_quote, is_word_start,
};
use ec_split::scanning::ends::{End, comment_end, quote_end};
use std::alloc::Global;

/// Where something stands.
#[derive(Clone, Copy)]
pub struct Here {
    /// Whether it is written C.
    pub written: bool,
    /// Whether nothing but blanks stands before it on its line.
    pub fresh: bool,
    pub line: u32,
}

/// What stands at the beginning of C text.
#[derive(Drop)]
pub struct Item {
    /// Its token, if it is one.
    pub tok: Option<Tok>,
    /// The number of the line behind it, where it says it.
    pub number: Option<u32>,
    /// The index behind it.
    pub end: usize,
}

/// A fault here.
fn refused(here: Here, kind: FaultKind) -> Stop
    ensures { result ≡ stops.Refused kind (record { 0 = here.line }) }
{
    Stop::Refused(kind, Line(here.line))
}

/// What is no token.
fn passed(end: usize) -> Item
    ensures { result ≡ record { tok = None; number = None; end = end } }
{
    Item {
        tok: None,
        number: None,
        end,
    }
}

/// A token that ends before the index.
fn with_end(end: usize, tok: Result<Tok, Stop>) -> Result<Item, Stop>
    ensures { result ≡ items.with_end end tok }
{
    match tok {
        Ok(tok) => Ok(Item {
            tok: Some(tok),
            number: None,
            end,
        }),
        Err(stop) => Err(stop),
    }
}

/// The token of a word.
fn word(alloc: Global, here: Here, text: &[u8]) -> Result<Tok, Stop>
    ensures { TellsTok here.line result (items.word_tok text.now) }
{
    if is_left_out_word(text) {
        return Err(refused(here, FaultKind::F9));
    }
    Ok(Tok::Word(Name::from_slice(alloc, text)?))
}

/// The token of a number.
fn number(here: Here, text: &[u8]) -> Result<Tok, Stop>
    ensures { TellsTok here.line result (tokens.integer_tok (constants.integer_constant text.now)) }
{
    match integer_constant(text) {
        Some((value, kind)) => Ok(Tok::Int(value, Ty::from(kind))),
        None => Err(refused(here, FaultKind::F5)),
    }
}

/// The token of a character constant, without its quotes.
fn character_token(here: Here, inside: &[u8]) -> Result<Tok, Stop>
    ensures { TellsTok here.line result (items.character_of inside.now) }
{
    match character(inside) {
        Some(value) => Ok(Tok::Char(value)),
        None => Err(refused(here, FaultKind::F6)),
    }
}

/// The token of a string, without its quotes.
fn string_token(alloc: Global, here: Here, inside: &[u8]) -> Result<Tok, Stop>
    ensures { TellsTok here.line result (tokens.string_tok (constants.unescaped inside.now)) }
{
    match unescaped(alloc, inside)? {
        Some(bytes) => Ok(Tok::Str(bytes)),
        None => Err(refused(here, FaultKind::F6)),
    }
}

/// The token of quoted text, without its quotes.
fn quoted_token(alloc: Global, here: Here, quote: u8, inside: &[u8]) -> Result<Tok, Stop>
    ensures { TellsTok here.line result (items.quoted_tok quote inside.now) }
{
    if quote == b'\'' {
        character_token(here, inside)
    } else {
        string_token(alloc, here, inside)
    }
}

/// The index behind the quoted text at the index.
fn quote_behind(text: &[u8], at: usize) -> Option<usize>
    requires { at < length text.now }
    ensures is { text_from text.now result
        ≡ items.quote_behind (slice_index text.now at) (drop (at + 1) text.now) }
    ensures within { IfSome result (λ end. (at + 2 ≤ end) × (end ≤ length text.now)) }
{
    match quote_end(text[at], text, at + 1) {
        End::Passed(end) => Some(end),
        End::Cut(_) => None,
        End::Endless => None,
    }
}

/// The quoted text at the index.
fn quoted(alloc: Global, here: Here, text: &[u8], at: usize) -> Result<Item, Stop>
    requires inside { at < length text.now }
    requires quote { letters.is_quote (slice_index text.now at) ≡ true }
    ensures is { TellsItem text.now at here.line result faults.F4 (items.lexeme_at text.now at) }
    ensures within { IfOk result (λ item. (at + 1 ≤ item.end) × (item.end ≤ length text.now)) }
    ensures small { IfOk result (λ item. IfSome item.number (λ number. number < 10 ^ 9)) }
{
    match quote_behind(text, at) {
        Some(end) => {
            let tok = quoted_token(alloc, here, text[at], &text[at + 1..end - 1]);
            with_end(end, tok)
        }
        None => Err(refused(here, FaultKind::F4)),
    }
}

/// The mark at the index.
fn mark(here: Here, text: &[u8], at: usize) -> Result<Item, Stop>
    requires { at < length text.now }
    ensures is { TellsItem text.now at here.line result faults.F4 (items.mark_item_at text.now at) }
    ensures within { IfOk result (λ item. (at + 1 ≤ item.end) × (item.end ≤ length text.now)) }
    ensures small { IfOk result (λ item. IfSome item.number (λ number. number < 10 ^ 9)) }
{
    match mark_at(text, at) {
        Some(found) => match found.punct {
            Some(punct) => with_end(at + found.len, Ok(Tok::Punct(punct))),
            None => Err(refused(here, FaultKind::F9)),
        },
        None => Err(refused(here, FaultKind::F4)),
    }
}

/// The index behind the comment at the index.
fn comment_at(text: &[u8], at: usize) -> Option<usize>
    requires { at ≤ length text.now }
    ensures is { text_from text.now result ≡ items.comment_behind (drop at text.now) }
    ensures within { IfSome result (λ end. (at + 1 ≤ end) × (end ≤ length text.now)) }
{
    if begins_two(text, at, b'/', b'*') {
        return match comment_end(text, at + 2) {
            End::Passed(end) => Some(end),
            End::Cut(_) => None,
            End::Endless => None,
        };
    }
    if begins_two(text, at, b'/', b'/') {
        return Some(behind_all(ByteClass::Line, text, at + 2));
    }
    None
}

/// The longest match at the index.
fn lexeme(alloc: Global, here: Here, text: &[u8], at: usize) -> Result<Item, Stop>
    requires { at < length text.now }
    ensures is { TellsItem text.now at here.line result faults.F4 (items.lexeme_at text.now at) }
    ensures within { IfOk result (λ item. (at + 1 ≤ item.end) × (item.end ≤ length text.now)) }
    ensures small { IfOk result (λ item. IfSome item.number (λ number. number < 10 ^ 9)) }
{
    let byte = text[at];
    if is_word_start(byte) {
        let end = behind_all(ByteClass::Word, text, at + 1);
        let tok = word(alloc, here, &text[at..end]);
        return with_end(end, tok);
    }
    if is_digit(byte) {
        let end = behind_all(ByteClass::Number, text, at + 1);
        let tok = number(here, &text[at..end]);
        return with_end(end, tok);
    }
    if is_quote(byte) {
        return quoted(alloc, here, text, at);
    }
    match comment_at(text, at) {
        Some(end) => Ok(passed(end)),
        None => mark(here, text, at),
    }
}

/// The `#include` line at the index.
fn include(alloc: Global, here: Here, text: &[u8], at: usize) -> Result<Item, Stop>
    requires inside { at < length text.now }
    requires begin { letters.begins_with (codes "#include") (drop at text.now) ≡ true }
    ensures is { TellsItem text.now at here.line result faults.F9 (items.include_at text.now at) }
    ensures within { IfOk result (λ item. (at + 1 ≤ item.end) × (item.end ≤ length text.now)) }
    ensures small { IfOk result (λ item. IfSome item.number (λ number. number < 10 ^ 9)) }
{
    match include_line_end(text, at) {
        Some(end) => {
            let bytes = List::from_slice(alloc, &text[at..end])?;
            with_end(end, Ok(Tok::Include(bytes)))
        }
        None => Err(refused(here, FaultKind::F9)),
    }
}

/// The `#line` line at the index. It numbers the line behind it, if there is one.
fn directive(here: Here, text: &[u8], at: usize) -> Result<Item, Stop>
    requires { at ≤ length text.now }
    ensures is { TellsItem text.now at here.line result faults.F9 (read.read_directive
        (drop at text.now)) }
    ensures within { IfOk result (λ item. (at + 1 ≤ item.end) × (item.end ≤ length text.now)) }
    ensures small { IfOk result (λ item. IfSome item.number (λ number. number < 10 ^ 9)) }
{
    match directive_at(text, at) {
        Some(found) => {
            if found.end == text.len() {
                return Ok(passed(found.end));
            }
            Ok(Item {
                tok: None,
                number: Some(found.number),
                end: found.end + 1,
            })
        }
        None => Err(refused(here, FaultKind::F9)),
    }
}

/// The line that begins with the `#` at the index.
fn hash(alloc: Global, here: Here, text: &[u8], at: usize) -> Result<Item, Stop>
    requires inside { at < length text.now }
    requires hash { slice_index text.now at ≡ 35 }
    ensures is { TellsItem text.now at here.line result (tokens.bad_byte here.fresh
        (drop at text.now))
        (items.hash_item here.written here.fresh (drop at text.now)) }
    ensures within { IfOk result (λ item. (at + 1 ≤ item.end) × (item.end ≤ length text.now)) }
    ensures small { IfOk result (λ item. IfSome item.number (λ number. number < 10 ^ 9)) }
{
    if !here.fresh {
        return Err(refused(here, FaultKind::F4));
    }
    if stands_at(text, at, b"#include") {
        return include(alloc, here, text, at);
    }
    if here.written {
        return directive(here, text, at);
    }
    Err(refused(here, FaultKind::F9))
}

/// What stands at the index.
pub fn item_at(alloc: Global, here: Here, text: &[u8], at: usize) -> Result<Item, Stop>
    requires { at < length text.now }
    ensures is { TellsItem text.now at here.line result (tokens.bad_byte here.fresh
        (drop at text.now))
        (read.read_item here.written here.fresh (drop at text.now)) }
    ensures within { IfOk result (λ item. (at + 1 ≤ item.end) × (item.end ≤ length text.now)) }
    ensures small { IfOk result (λ item. IfSome item.number (λ number. number < 10 ^ 9)) }
{
    let byte = text[at];
    if is_blank(byte) {
        return Ok(passed(at + 1));
    }
    if byte == b'#' {
        return hash(alloc, here, text, at);
    }
    lexeme(alloc, here, text, at)
}
