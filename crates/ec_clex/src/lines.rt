//! Lines that begin with `#`, and the lines of C text.
ghost use Rattle.std.specs.Prelude.{◌≡◌, ◌+◌, ◌≤◌, ◌<◌, ◌^◌, true, false, codes, length, drop, option_map, IfSome, MatchOption};
ghost use Rattle.ec_language.specs.Letters as letters;
ghost use Rattle.ec_language.specs.Lexemes as lexemes;
ghost use Rattle.ec_language.specs.ReadPieces as pieces;
ghost use Rattle.ec_language.specs.ReadTokens as read;
ghost use Rattle.ec_clex.specs.Lines.{line_of, number_of};
ghost use Rattle.ec_split.specs.Places.{text_from};

use crate::numbers::digits_value;
use ec_split::scanning::bytes::{ByteClass, begins_two, behind_all, is_blank, is_digit};
use ec_split::scanning::ends::End;
use ec_split::scanning::fronts::starts_piece;
use ec_split::scanning::units::c_end;

/// Whether the text begins with these bytes at the index.
pub fn stands_at(text: &[u8], at: usize, bytes: &[u8]) -> bool
    requires { at ≤ length text.now }
    ensures is { result ≡ letters.begins_with bytes.now (drop at text.now) }
    ensures fits { result ≡ true → at + length bytes.now ≤ length text.now }
{
    for (i, byte) in bytes.iter().enumerate() {
        if text.len() - at <= i || text[at + i] != *byte {
            return false;
        }
    }
    true
}

/// Whether nothing but blanks stands behind the bytes on their last line, if it is so before them.
/// Their end tells it mostly, so they are looked at from there.
#[tactic(auto, using(crate::proofs::FreshLines::fresh_newline, crate::proofs::FreshLines::fresh_other, crate::proofs::FreshLines::fresh_blank))]
pub fn fresh_after(fresh: bool, bytes: &[u8]) -> bool
    ensures { result ≡ lexemes.is_fresh_after fresh bytes.now }
{
    let mut left = bytes.len();
    while left > 0 {
        let last = bytes[left - 1];
        if last == b'\n' {
            return true;
        }
        if !is_blank(last) {
            return false;
        }
        left -= 1;
    }
    fresh
}

/// Whether an `#include` line ends at the index: with its line, or before a comment or an embedded piece.
pub fn ends_include(text: &[u8], at: usize) -> bool
    requires { at ≤ length text.now }
    ensures { result ≡ read.ends_include (drop at text.now) }
{
    at == text.len()
        || text[at] == b'\n'
        || begins_two(text, at, b'/', b'*')
        || begins_two(text, at, b'/', b'/')
        || starts_piece(text, at)
}

/// The index behind an `#include` line that goes on at the index.
pub fn include_end(text: &[u8], from: usize) -> Option<usize>
    requires { from ≤ length text.now }
    ensures is { text_from text.now result ≡ read.include_behind (drop from text.now) }
    ensures within { IfSome result (λ end. (from ≤ end) × (end ≤ length text.now)) }
{
    let mut at = from;
    while !ends_include(text, at) {
        match c_end(text, at) {
            End::Passed(end) => at = end,
            _ => return None,
        }
    }
    Some(at)
}

/// Whether each byte is a digit.
fn are_digits(bytes: &[u8]) -> bool
    ensures { result ≡ letters.each letters.is_digit bytes.now }
{
    for byte in bytes {
        if !is_digit(*byte) {
            return false;
        }
    }
    true
}

/// The index behind the `#include` line that stands at the index.
pub fn include_line_end(text: &[u8], at: usize) -> Option<usize>
    requires inside { at < length text.now }
    requires begin { letters.begins_with (codes "#include") (drop at text.now) ≡ true }
    ensures is { text_from text.now result ≡ read.include_behind (drop at text.now) }
    ensures within { IfSome result (λ end. (at + 1 ≤ end) × (end ≤ length text.now)) }
{
    include_end(text, at + 1)
}

/// The number of a line: decimal digits, one to nine, without a leading zero.
pub fn line_number(digits: &[u8]) -> Option<u32>
    ensures is { result ≡ number_of digits.now }
    ensures small { IfSome result (λ number. number < 10 ^ 9) }
{
    if digits.is_empty() || digits.len() > 9 || digits[0] == b'0' || !are_digits(digits) {
        return None;
    }
    match digits_value(10, digits) {
        Some(number) => Some(number as u32),
        None => None,
    }
}

/// A `#line` line.
#[derive(Clone, Copy)]
pub struct Directive {
    pub number: u32,
    /// The index behind it, where its newline stands, or the end.
    pub end: usize,
}

/// The number that a `#line` line says, without its newline.
fn directive_number(line: &[u8]) -> Option<u32>
    ensures is { MatchOption result (lexemes.is_line_directive line.now ≡ false)
        (λ number. (lexemes.is_line_directive line.now ≡ true)
        × (number ≡ lexemes.directive_number line.now)) }
    ensures small { IfSome result (λ number. (number < 10 ^ 9) × (6 ≤ length line.now)) }
{
    if !stands_at(line, 0, b"#line ") {
        return None;
    }
    line_number(&line[6..])
}

/// The `#line` line that stands at the index.
pub fn directive_at(text: &[u8], at: usize) -> Option<Directive>
    requires { at ≤ length text.now }
    ensures is { MatchOption result (lexemes.is_line_directive (line_of (drop at text.now)) ≡ false)
        (λ found. (lexemes.is_line_directive (line_of (drop at text.now)) ≡ true)
        × (found.number ≡ lexemes.directive_number (line_of (drop at text.now)))
        × (drop found.end text.now ≡ pieces.behind_all letters.is_not_newline (drop at text.now))) }
    ensures within { IfSome result (λ found. (at + 1 ≤ found.end) × (found.end ≤ length text.now)) }
    ensures small { IfSome result (λ found. found.number < 10 ^ 9) }
{
    let end = behind_all(ByteClass::Line, text, at);
    match directive_number(&text[at..end]) {
        Some(number) => Some(Directive { number, end }),
        None => None,
    }
}
