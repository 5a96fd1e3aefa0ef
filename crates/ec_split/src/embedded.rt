//! Embedded pieces: what they are, and where they end.
ghost use Rattle.std.specs.Prelude.{◌≡◌, ◌+◌, ◌≤◌, ◌<◌, length, drop, ◌^◌, IfSome};
ghost use Rattle.ec_language.specs.Letters as letters;
ghost use Rattle.ec_language.specs.Pieces as pieces;
ghost use Rattle.ec_language.specs.ReadPieces as read;
ghost use Rattle.ec_split.specs.Places as places;
ghost use Rattle.ec_split.specs.Places.{found_at, FoundWithin, text_from, FindsWord, kind_behind};

use crate::scanning::bytes::{ByteClass, behind_all, byte_at, is_plain_word_start, is_single};
use crate::scanning::ends::End;
use crate::scanning::fronts::{gap_stop, unit_end};
use crate::scanning::units::{c_end, sql_end};
use crate::scanning::words::{place_of, same_word};
use ec_ctypes::PieceKind;

/// What stands where an embedded piece starts.
#[derive(Clone, Copy)]
pub enum Found {
    /// A piece of this kind, and the index behind it.
    Whole(PieceKind, usize),
    /// A declaration with its end, and in it at this index a quote without end.
    CutAt(usize),
    /// No piece.
    Unended,
}

/// The index behind the first `;` of SQL text. Most of it is told by the first byte of each unit.
#[inline(never)]
#[tactic(auto, using(crate::proofs::Walks::statement_next, crate::proofs::Walks::statement_here, crate::proofs::Walks::statement_single, crate::proofs::Walks::statement_word))]
pub fn statement_end(text: &[u8], from: usize) -> Option<usize>
    requires { from ≤ length text.now }
    ensures is { text_from text.now result ≡ read.statement_end (drop from text.now) }
    ensures within { IfSome result (λ end. (from ≤ end) × (end ≤ length text.now)) }
{
    let mut at = from;
    while at < text.len() {
        let byte = text[at];
        if is_single(byte) {
            at += 1;
            continue;
        }
        if is_plain_word_start(byte) {
            at = behind_all(ByteClass::SqlWord, text, at + 1);
            continue;
        }
        if byte_at(text, at, b';') {
            return Some(at + 1);
        }
        match sql_end(text, at) {
            End::Passed(end) => at = end,
            _ => return None,
        }
    }
    None
}

/// How many braces are open behind the unit of C text that stands at the index.
pub fn braces_behind(text: &[u8], at: usize, braces: usize) -> usize
    requires inside { at < length text.now }
    requires small { braces < 2 ^ 32 }
    ensures is { result ≡ read.braces_behind braces (drop at text.now) }
    ensures most { result ≤ braces + 1 }
{
    match text[at] {
        b'{' => braces + 1,
        b'}' if braces > 0 => braces - 1,
        _ => braces,
    }
}

/// Whether the `;` of a declaration stands at the index.
pub fn begins_end(text: &[u8], at: usize, braces: usize) -> bool
    ensures { result ≡ read.begins_end (braces, drop at text.now) }
{
    byte_at(text, at, b';') && braces == 0
}

/// Whether a declaration in which a quote has no end has its own.
#[tactic(auto, using(crate::proofs::Walks::loose_next, crate::proofs::Walks::loose_skip))]
pub fn has_end(text: &[u8], opened: usize, from: usize) -> bool
    requires inside { from ≤ length text.now }
    requires small { length text.now ≤ 2 ^ 24 }
    requires few { opened ≤ from }
    ensures { result ≡ read.has_end (opened, drop from text.now) }
{
    let mut at = from;
    let mut braces = opened;
    while at < text.len() {
        if begins_end(text, at, braces) {
            return true;
        }
        match c_end(text, at) {
            End::Passed(end) => {
                braces = braces_behind(text, at, braces);
                at = end;
            }
            End::Cut(end) => at = end,
            End::Endless => return false,
        }
    }
    false
}

/// The declaration that stands from its type word on.
#[tactic(auto, using(crate::proofs::Walks::tight_next, crate::proofs::Walks::tight_here))]
pub fn declaration(text: &[u8], from: usize) -> Found
    requires inside { from ≤ length text.now }
    requires small { length text.now ≤ 2 ^ 24 }
    ensures is { found_at text.now result ≡ read.declaration (drop from text.now) }
    ensures within { FoundWithin from text.now result }
{
    let mut at = from;
    let mut braces = 0usize;
    while at < text.len() {
        if begins_end(text, at, braces) {
            return Found::Whole(PieceKind::InPlace, at + 1);
        }
        match c_end(text, at) {
            End::Passed(end) => {
                braces = braces_behind(text, at, braces);
                at = end;
            }
            End::Cut(end) => {
                if has_end(text, braces, end) {
                    return Found::CutAt(at);
                }
                return Found::Unended;
            }
            End::Endless => return Found::Unended,
        }
    }
    Found::Unended
}

/// The words that begin a declaration, each at its place.
const TYPE_WORDS: [&[u8]; 24] = [
    b"",
    b"int",
    b"",
    b"",
    b"long",
    b"",
    b"bool",
    b"",
    b"VARCHAR",
    b"",
    b"",
    b"const",
    b"",
    b"signed",
    b"",
    b"unsigned",
    b"varchar",
    b"char",
    b"",
    b"short",
    b"",
    b"struct",
    b"",
    b"",
];

/// Whether the word begins a declaration, found in the table.
fn stands_in_table(word: &[u8]) -> bool
    ensures { result ≡ pieces.is_type_word word.now }
{
    if word.is_empty() {
        return false;
    }
    TYPE_WORDS[place_of(word)] == word
}

/// Whether the word begins a declaration. Those that do begin in lower case or with `V`.
#[tactic(auto, using(crate::proofs::Walks::no_type_word))]
pub fn is_type_word(word: &[u8]) -> bool
    ensures { result ≡ pieces.is_type_word word.now }
{
    if word.is_empty() {
        return false;
    }
    if word[0] < b'V' {
        return false;
    }
    stands_in_table(word)
}

/// The index behind the word, if it stands behind blanks and comments from the index on, in any
/// case of letters.
pub fn behind_word(text: &[u8], from: usize, word: &[u8]) -> Option<usize>
    requires inside { from ≤ length text.now }
    requires some { 0 < length word.now }
    ensures is { FindsWord text.now from word.now result }
    ensures within { IfSome result (λ end. end ≤ length text.now) }
{
    let at = gap_stop(text, from);
    let end = unit_end(text, at);
    if same_word(&text[at..end], word) {
        return Some(end);
    }
    None
}

/// Whether `DECLARE SECTION` and a `;` stand from the index on.
pub fn ends_mark(text: &[u8], from: usize) -> bool
    requires { from ≤ length text.now }
    ensures { result ≡ places.ends_mark (drop from text.now) }
{
    let second = match behind_word(text, from, b"DECLARE") {
        Some(end) => end,
        None => return false,
    };
    let last = match behind_word(text, second, b"SECTION") {
        Some(end) => end,
        None => return false,
    };
    byte_at(text, gap_stop(text, last), b';')
}

/// What the statement is that begins with this word, behind which the index stands.
pub fn statement_kind(text: &[u8], word: &[u8], behind: usize) -> PieceKind
    requires { behind ≤ length text.now }
    ensures { result ≡ kind_behind word.now (drop behind text.now) }
{
    if same_word(word, b"BEGIN") && ends_mark(text, behind) {
        PieceKind::SectionStart
    } else if same_word(word, b"END") && ends_mark(text, behind) {
        PieceKind::SectionEnd
    } else {
        PieceKind::Emb
    }
}

/// What stands behind `EXEC SQL`.
pub fn embedded(text: &[u8], from: usize) -> Found
    requires inside { from ≤ length text.now }
    requires small { length text.now ≤ 2 ^ 24 }
    ensures is { found_at text.now result ≡ read.embedded (drop from text.now) }
    ensures within { FoundWithin from text.now result }
{
    let first = gap_stop(text, from);
    let behind = unit_end(text, first);
    let word = &text[first..behind];
    if is_type_word(word) {
        return declaration(text, first);
    }
    match statement_end(text, from) {
        Some(end) => Found::Whole(statement_kind(text, word, behind), end),
        None => Found::Unended,
    }
}
