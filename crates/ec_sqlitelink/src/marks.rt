//! The marks of parameters: `$1` in a text for the server is `?1` for SQLite.
ghost use Rattle.std.specs.Prelude.{◌≡◌, codes, option_copied, slice_index, IfOk};
ghost use Rattle.ec_sqlitelink.specs.Marks.{is_word_byte, quote_end, begun, behind, marked, with_marks};

use ec_base::{Bytes, OutOfMemory};
use std::alloc::Global;

/// Where a byte of a text stands.
#[derive(Clone, Copy, Debug, PartialEq, Eq)]
pub enum Place {
    /// Where a token may begin.
    Free,
    /// In a word.
    Word,
    /// In a quote, up to the byte that ends it.
    Quoted(u8),
    /// In a comment that ends with its line.
    LineComment,
    /// At the second byte of a comment's `/*`.
    CommentOpening,
    /// In such a comment.
    BlockComment,
    /// At the second byte of its `*/`.
    CommentClosing,
}

/// Whether a word has this byte, which may also be `$` behind its first one.
pub fn is_word_byte(byte: u8) -> bool
    ensures { result ≡ is_word_byte byte }
{
    byte.is_ascii_alphanumeric() || byte == b'_' || byte >= 128
}

// The byte that ends the quote that begins with this one.
fn quote_end(byte: u8) -> Option<u8>
    ensures { result ≡ quote_end byte }
{
    if byte == b'\'' || byte == b'"' || byte == b'`' {
        Some(byte)
    } else if byte == b'[' {
        Some(b']')
    } else {
        None
    }
}

// Where the byte behind this one stands, which is in no word, quote or comment.
fn begun(byte: u8, next: u8) -> Place
    ensures { result ≡ begun (quote_end byte) byte next }
{
    if let Some(end) = quote_end(byte) {
        return Place::Quoted(end);
    }
    if byte == b'-' && next == b'-' {
        Place::LineComment
    } else if byte == b'/' && next == b'*' {
        Place::CommentOpening
    } else if is_word_byte(byte) {
        Place::Word
    } else {
        Place::Free
    }
}

/// Where the byte behind this one stands. `next` is that byte, or 0 at the end.
pub fn behind(place: Place, byte: u8, next: u8) -> Place
    ensures { result ≡ behind place byte next }
{
    match place {
        Place::Free => begun(byte, next),
        Place::Word if is_word_byte(byte) || byte == b'$' => Place::Word,
        Place::Word => begun(byte, next),
        Place::Quoted(end) if byte == end => Place::Free,
        Place::LineComment if byte == b'\n' => Place::Free,
        Place::CommentOpening => Place::BlockComment,
        Place::BlockComment if byte == b'*' && next == b'/' => Place::CommentClosing,
        Place::CommentClosing => Place::Free,
        Place::Quoted(_) | Place::LineComment | Place::BlockComment => place,
    }
}

// How a byte is written for SQLite.
fn marked(place: Place, byte: u8, next: u8) -> u8
    ensures { result ≡ marked place byte next }
{
    match place {
        Place::Free if byte == b'$' && next.is_ascii_digit() => b'?',
        _ => byte,
    }
}

/// The byte at `at`, or 0 past the end.
pub fn byte_at(text: &[u8], at: usize) -> u8
    ensures { result ≡ slice_index text.now at }
{
    match text.get(at) {
        Some(byte) => *byte,
        None => 0,
    }
}

/// The text with `?n` for each `$n` that stands in no word, quote or comment.
pub fn with_marks(alloc: Global, text: &[u8]) -> Result<Bytes, OutOfMemory>
    ensures { IfOk result (λ it. it ≡ with_marks text.now) }
{
    let mut written = Bytes::new(alloc);
    let mut place = Place::Free;
    let mut rest = text;
    while let [byte, more @ ..] = rest {
        let next = byte_at(more, 0);
        written.push(marked(place, *byte, next))?;
        place = behind(place, *byte, next);
        rest = more;
    }
    Ok(written)
}

/// Worked examples of the rule, computed: marks, and what is none in a word, in each kind of quote and of comment.
pub fn mark_examples()
    ensures mark { with_marks (codes "a=$1,$23") ≡ codes "a=?1,?23" }
    ensures no_digit { with_marks (codes "$a $ $") ≡ codes "$a $ $" }
    ensures word { with_marks (codes "a$1 $1") ≡ codes "a$1 ?1" }
    ensures string { with_marks (codes "'it''s $1'$1") ≡ codes "'it''s $1'?1" }
    ensures names { with_marks (codes "\"$1\"`$1`[$1]$1") ≡ codes "\"$1\"`$1`[$1]?1" }
    ensures line { with_marks (codes "--$1\n$1-$2") ≡ codes "--$1\n?1-?2" }
    ensures block { with_marks (codes "/*/$1*/$1/$2") ≡ codes "/*/$1*/?1/?2" }
    ensures unclosed { with_marks (codes "$1'$1") ≡ codes "?1'$1" }
{}
