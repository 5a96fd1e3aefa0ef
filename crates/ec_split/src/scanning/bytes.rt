//! Single bytes of a text, and the first bytes from an index on.
ghost use Rattle.std.specs.Prelude.{◌≡◌, ◌+◌, ◌≤◌, length, drop, take, true, false, [], ◌∷◌, ◌==◌, ◌&&◌};
ghost use Rattle.ec_language.specs.Letters as letters;
ghost use Rattle.ec_language.specs.Line as lines;
ghost use Rattle.ec_language.specs.ReadPieces as read;
ghost use Rattle.ec_split.specs.Places as places;
ghost use Rattle.ec_split.specs.Places.{class_test};

use std::simd::prelude::*;

/// A class of bytes.
#[derive(Clone, Copy)]
pub enum ByteClass {
    /// Space, tab, newline, vertical tab, form feed and carriage return.
    Blank,
    /// What a word of C goes on with.
    Word,
    /// What a number goes on with.
    Number,
    /// What a word of SQL goes on with.
    SqlWord,
    /// All but a newline.
    Line,
}

/// Whether the byte is a blank.
pub fn is_blank(byte: u8) -> bool
    ensures { result ≡ letters.is_blank byte }
{
    byte == b' ' || (9 <= byte && byte <= 13)
}

/// Whether the byte is a digit.
pub fn is_digit(byte: u8) -> bool
    ensures { result ≡ letters.is_digit byte }
{
    48 <= byte && byte <= 57
}

/// Whether a word of C begins with the byte.
pub fn is_word_start(byte: u8) -> bool
    ensures { result ≡ letters.is_word_start byte }
{
    (65 <= byte && byte <= 90) || (97 <= byte && byte <= 122) || byte == b'_'
}

/// Whether a word of SQL begins with each byte.
const SQL_WORD_STARTS: [bool; 256] = [
    false, false, false, false, false, false, false, false, false, false, false, false, false,
    false, false, false, false, false, false, false, false, false, false, false, false, false,
    false, false, false, false, false, false, false, false, false, false, false, false, false,
    false, false, false, false, false, false, false, false, false, false, false, false, false,
    false, false, false, false, false, false, false, false, false, false, false, false, false,
    true, true, true, true, true, true, true, true, true, true, true, true, true, true, true, true,
    true, true, true, true, true, true, true, true, true, true, false, false, false, false, true,
    false, true, true, true, true, true, true, true, true, true, true, true, true, true, true,
    true, true, true, true, true, true, true, true, true, true, true, true, false, false, false,
    false, false, true, true, true, true, true, true, true, true, true, true, true, true, true,
    true, true, true, true, true, true, true, true, true, true, true, true, true, true, true, true,
    true, true, true, true, true, true, true, true, true, true, true, true, true, true, true, true,
    true, true, true, true, true, true, true, true, true, true, true, true, true, true, true, true,
    true, true, true, true, true, true, true, true, true, true, true, true, true, true, true, true,
    true, true, true, true, true, true, true, true, true, true, true, true, true, true, true, true,
    true, true, true, true, true, true, true, true, true, true, true, true, true, true, true, true,
    true, true, true, true, true, true, true, true, true, true, true, true, true, true, true, true,
    true, true, true,
];

/// Whether a word of SQL begins with the byte. It is looked up, since it is asked of each unit of a
/// statement.
#[inline(always)]
pub fn is_sql_word_start(byte: u8) -> bool
    ensures { result ≡ letters.is_sql_word_start byte }
{
    SQL_WORD_STARTS[byte as usize]
}

/// Whether each byte begins a word of SQL, and is no `E`.
const PLAIN_WORD_STARTS: [bool; 256] = [
    false, false, false, false, false, false, false, false, false, false, false, false, false,
    false, false, false, false, false, false, false, false, false, false, false, false, false,
    false, false, false, false, false, false, false, false, false, false, false, false, false,
    false, false, false, false, false, false, false, false, false, false, false, false, false,
    false, false, false, false, false, false, false, false, false, false, false, false, false,
    true, true, true, true, false, true, true, true, true, true, true, true, true, true, true,
    true, true, true, true, true, true, true, true, true, true, true, false, false, false, false,
    true, false, true, true, true, true, false, true, true, true, true, true, true, true, true,
    true, true, true, true, true, true, true, true, true, true, true, true, true, false, false,
    false, false, false, true, true, true, true, true, true, true, true, true, true, true, true,
    true, true, true, true, true, true, true, true, true, true, true, true, true, true, true, true,
    true, true, true, true, true, true, true, true, true, true, true, true, true, true, true, true,
    true, true, true, true, true, true, true, true, true, true, true, true, true, true, true, true,
    true, true, true, true, true, true, true, true, true, true, true, true, true, true, true, true,
    true, true, true, true, true, true, true, true, true, true, true, true, true, true, true, true,
    true, true, true, true, true, true, true, true, true, true, true, true, true, true, true, true,
    true, true, true, true, true, true, true, true, true, true, true, true, true, true, true, true,
    true, true, true, true,
];

/// Whether the byte begins a word of SQL, and is no `E`, behind which a quote may stand.
#[inline(always)]
pub fn is_plain_word_start(byte: u8) -> bool
    ensures { result ≡ places.is_plain_word_start byte }
{
    PLAIN_WORD_STARTS[byte as usize]
}

/// Whether the byte is a quote.
pub fn is_quote(byte: u8) -> bool
    ensures { result ≡ letters.is_quote byte }
{
    byte == b'\'' || byte == b'"'
}

/// Whether a word of C goes on with each byte.
const WORD_BYTES: [bool; 256] = [
    false, false, false, false, false, false, false, false, false, false, false, false, false,
    false, false, false, false, false, false, false, false, false, false, false, false, false,
    false, false, false, false, false, false, false, false, false, false, false, false, false,
    false, false, false, false, false, false, false, false, false, true, true, true, true, true,
    true, true, true, true, true, false, false, false, false, false, false, false, true, true,
    true, true, true, true, true, true, true, true, true, true, true, true, true, true, true, true,
    true, true, true, true, true, true, true, true, false, false, false, false, true, false, true,
    true, true, true, true, true, true, true, true, true, true, true, true, true, true, true, true,
    true, true, true, true, true, true, true, true, true, false, false, false, false, false, false,
    false, false, false, false, false, false, false, false, false, false, false, false, false,
    false, false, false, false, false, false, false, false, false, false, false, false, false,
    false, false, false, false, false, false, false, false, false, false, false, false, false,
    false, false, false, false, false, false, false, false, false, false, false, false, false,
    false, false, false, false, false, false, false, false, false, false, false, false, false,
    false, false, false, false, false, false, false, false, false, false, false, false, false,
    false, false, false, false, false, false, false, false, false, false, false, false, false,
    false, false, false, false, false, false, false, false, false, false, false, false, false,
    false, false, false, false, false, false, false, false, false, false, false, false, false,
    false, false, false, false, false, false, false, false, false, false,
];

/// Whether a word of C goes on with the byte. It is looked up, since it is asked of most bytes.
fn is_word_byte(byte: u8) -> bool
    ensures { result ≡ letters.is_word_byte byte }
{
    WORD_BYTES[byte as usize]
}

/// Whether a word of SQL goes on with each byte.
const SQL_WORD_BYTES: [bool; 256] = [
    false, false, false, false, false, false, false, false, false, false, false, false, false,
    false, false, false, false, false, false, false, false, false, false, false, false, false,
    false, false, false, false, false, false, false, false, false, false, true, false, false,
    false, false, false, false, false, false, false, false, false, true, true, true, true, true,
    true, true, true, true, true, false, false, false, false, false, false, false, true, true,
    true, true, true, true, true, true, true, true, true, true, true, true, true, true, true, true,
    true, true, true, true, true, true, true, true, false, false, false, false, true, false, true,
    true, true, true, true, true, true, true, true, true, true, true, true, true, true, true, true,
    true, true, true, true, true, true, true, true, true, false, false, false, false, false, true,
    true, true, true, true, true, true, true, true, true, true, true, true, true, true, true, true,
    true, true, true, true, true, true, true, true, true, true, true, true, true, true, true, true,
    true, true, true, true, true, true, true, true, true, true, true, true, true, true, true, true,
    true, true, true, true, true, true, true, true, true, true, true, true, true, true, true, true,
    true, true, true, true, true, true, true, true, true, true, true, true, true, true, true, true,
    true, true, true, true, true, true, true, true, true, true, true, true, true, true, true, true,
    true, true, true, true, true, true, true, true, true, true, true, true, true, true, true, true,
    true, true, true, true, true, true, true, true, true, true, true, true, true, true, true,
];

/// Whether a word of SQL goes on with the byte. It is looked up, since it is asked of most bytes of
/// a statement.
fn is_sql_word_byte(byte: u8) -> bool
    ensures { result ≡ letters.is_sql_word_byte byte }
{
    SQL_WORD_BYTES[byte as usize]
}

/// Whether the byte is one of the class.
pub fn is_in(class: ByteClass, byte: u8) -> bool
    ensures { result ≡ class_test class byte }
{
    match class {
        ByteClass::Blank => is_blank(byte),
        ByteClass::Word => is_word_byte(byte),
        ByteClass::Number => is_word_start(byte) || is_digit(byte) || byte == b'.',
        ByteClass::SqlWord => is_sql_word_byte(byte),
        ByteClass::Line => byte != b'\n',
    }
}

/// The byte in lower case.
pub fn lower(byte: u8) -> u8
    ensures { result ≡ letters.lower byte }
{
    if 65 <= byte && byte <= 90 {
        byte + 32
    } else {
        byte
    }
}

/// Whether the byte is a letter in upper case, and the other the same in lower case.
#[inline(always)]
fn is_lower_of(byte: u8, other: u8) -> bool
    ensures { result ≡ (letters.is_upper byte && other == byte + 32) }
{
    65 <= byte && byte <= 90 && other == byte + 32
}

/// Whether the bytes are one, in any case of letters. Mostly they are equal as they stand. Where one
/// of them is known, few of these tests are left.
#[inline(always)]
fn is_same_letter(byte: u8, other: u8) -> bool
    ensures { result ≡ (letters.lower byte == letters.lower other) }
{
    byte == other || is_lower_of(byte, other) || is_lower_of(other, byte)
}

/// Whether each byte is a unit of SQL text by itself.
const SINGLE_BYTES: [bool; 256] = [
    false, false, false, false, false, false, false, false, false, true, true, true, true, true,
    false, false, false, false, false, false, false, false, false, false, false, false, false,
    false, false, false, false, false, true, false, false, false, false, false, false, false, true,
    true, true, false, true, false, false, false, false, false, false, false, false, false, false,
    false, false, false, true, false, true, true, true, false, false, false, false, false, false,
    false, false, false, false, false, false, false, false, false, false, false, false, false,
    false, false, false, false, false, false, false, false, false, true, false, true, false, false,
    false, false, false, false, false, false, false, false, false, false, false, false, false,
    false, false, false, false, false, false, false, false, false, false, false, false, false,
    false, false, false, false, false, false, false, false, false, false, false, false, false,
    false, false, false, false, false, false, false, false, false, false, false, false, false,
    false, false, false, false, false, false, false, false, false, false, false, false, false,
    false, false, false, false, false, false, false, false, false, false, false, false, false,
    false, false, false, false, false, false, false, false, false, false, false, false, false,
    false, false, false, false, false, false, false, false, false, false, false, false, false,
    false, false, false, false, false, false, false, false, false, false, false, false, false,
    false, false, false, false, false, false, false, false, false, false, false, false, false,
    false, false, false, false, false, false, false, false, false, false, false, false, false,
    false, false, false, false, false, false, false, false, false, false, false, false, false,
    false, false, false, false,
];

/// Whether the byte is a unit of SQL text by itself, whatever stands behind it, and ends no
/// statement. There are others that are.
#[inline(always)]
pub fn is_single(byte: u8) -> bool
    ensures { result ≡ places.is_single byte }
{
    SINGLE_BYTES[byte as usize]
}

/// Whether the byte at the index is one of the class.
pub fn class_at(class: ByteClass, text: &[u8], at: usize) -> bool
    ensures { result ≡ letters.begins (class_test class) (drop at text.now) }
{
    at < text.len() && is_in(class, text[at])
}

/// Whether the byte at the index is this one.
pub fn byte_at(text: &[u8], at: usize, byte: u8) -> bool
    ensures { result ≡ letters.begins (λ b. b == byte) (drop at text.now) }
{
    at < text.len() && text[at] == byte
}

/// Whether these two bytes stand at the index.
#[tactic(auto, using(crate::proofs::Steps::short_two))]
pub fn begins_two(text: &[u8], at: usize, first: u8, second: u8) -> bool
    requires { at ≤ length text.now }
    ensures is { result ≡ letters.begins_with (first ∷ second ∷ []) (drop at text.now) }
    ensures fits { result ≡ true → at + 2 ≤ length text.now }
{
    if text.len() - at < 2 {
        return false;
    }
    text[at] == first && text[at + 1] == second
}

/// Whether this word stands at the index, in any case of letters.
pub fn word_at(text: &[u8], at: usize, word: &[u8]) -> bool
    requires { at ≤ length text.now }
    ensures is { result ≡ letters.same_word (take (length word.now) (drop at text.now)) word.now }
    ensures fits { result ≡ true → at + length word.now ≤ length text.now }
{
    for (i, byte) in word.iter().enumerate() {
        if text.len() - at <= i || !is_same_letter(text[at + i], *byte) {
            return false;
        }
    }
    true
}

/// Where the bytes of the class end that stand from the index on, looked at one by one.
#[inline(always)]
fn behind_each(class: ByteClass, text: &[u8], from: usize) -> usize
    requires { from ≤ length text.now }
    ensures rest { drop result text.now ≡ read.behind_all (class_test class) (drop from text.now) }
    ensures behind { from ≤ result }
    ensures within { result ≤ length text.now }
{
    let mut at = from;
    while at < text.len() {
        if !is_in(class, text[at]) {
            return at;
        }
        at += 1;
    }
    at
}

/// Where the bytes of the class end that stand from the index on. Four are looked at in a turn,
/// since most words are short.
#[inline(always)]
pub fn behind_all(class: ByteClass, text: &[u8], from: usize) -> usize
    requires { from ≤ length text.now }
    ensures rest { drop result text.now ≡ read.behind_all (class_test class) (drop from text.now) }
    ensures behind { from ≤ result }
    ensures within { result ≤ length text.now }
{
    let mut at = from;
    while text.len() - at >= 4 {
        if !is_in(class, text[at]) {
            return at;
        }
        if !is_in(class, text[at + 1]) {
            return at + 1;
        }
        if !is_in(class, text[at + 2]) {
            return at + 2;
        }
        if !is_in(class, text[at + 3]) {
            return at + 3;
        }
        at += 4;
    }
    behind_each(class, text, at)
}

/// How many newlines stand in the sixteen bytes from the index on. Mostly none does.
#[inline(always)]
fn newlines_in_16(bytes: &[u8], at: usize) -> usize
    requires { at + 16 ≤ length bytes.now }
    ensures { result ≡ lines.newlines (take 16 (drop at bytes.now)) }
{
    let found = u8x16::from_slice(&bytes[at..])
        .simd_eq(u8x16::splat(b'\n'))
        .to_bitmask();
    if found == 0 {
        return 0;
    }
    found.count_ones() as usize
}

/// The same of eight.
#[inline(always)]
fn newlines_in_8(bytes: &[u8], at: usize) -> usize
    requires { at + 8 ≤ length bytes.now }
    ensures { result ≡ lines.newlines (take 8 (drop at bytes.now)) }
{
    let found = u8x8::from_slice(&bytes[at..])
        .simd_eq(u8x8::splat(b'\n'))
        .to_bitmask();
    if found == 0 {
        return 0;
    }
    found.count_ones() as usize
}

/// How many newlines stand in the last bytes, from the index on.
#[inline(always)]
fn last_newlines(bytes: &[u8], at: usize) -> usize
    requires { at ≤ length bytes.now }
    ensures is { result ≡ lines.newlines (drop at bytes.now) }
    ensures most { at + result ≤ length bytes.now }
{
    if bytes.len() - at < 8 {
        return counted_newlines(&bytes[at..]);
    }
    newlines_in_8(bytes, at) + counted_newlines(&bytes[at + 8..])
}

/// How many newlines stand in the bytes.
pub fn newlines(bytes: &[u8]) -> usize
    ensures is { result ≡ lines.newlines bytes.now }
    ensures most { result ≤ length bytes.now }
{
    let mut count = 0;
    let mut at = 0;
    while bytes.len() - at >= 16 {
        count += newlines_in_16(bytes, at);
        at += 16;
    }
    count + last_newlines(bytes, at)
}

/// How many newlines stand in the bytes, looked at one by one.
#[inline(always)]
fn counted_newlines(bytes: &[u8]) -> usize
    ensures is { result ≡ lines.newlines bytes.now }
    ensures most { result ≤ length bytes.now }
{
    let mut count = 0;
    for byte in bytes {
        if *byte == b'\n' {
            count += 1;
        }
    }
    count
}
