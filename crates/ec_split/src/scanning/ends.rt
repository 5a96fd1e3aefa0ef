//! Where comments and quotes end.
ghost use Rattle.std.specs.Prelude.{◌≡◌, ◌≤◌, length, drop};
ghost use Rattle.ec_language.specs.ReadPieces as read;
ghost use Rattle.ec_split.specs.Places.{behind_at, Within};

use crate::scanning::bytes::begins_two;

/// Where the part ends in which an index stands.
#[derive(Clone, Copy)]
pub enum End {
    /// The index behind it.
    Passed(usize),
    /// The index of the newline that cuts a quote of C text.
    Cut(usize),
    /// It has no end.
    Endless,
}

/// The end of a comment of C text, from inside it.
#[tactic(auto, using(crate::proofs::Steps::comment_on, crate::proofs::Steps::comment_done))]
pub fn comment_end(text: &[u8], from: usize) -> End
    requires { from ≤ length text.now }
    ensures is { behind_at text.now result ≡ read.comment_end (drop from text.now) }
    ensures within { Within from text.now result }
{
    let mut at = from;
    while at < text.len() {
        if begins_two(text, at, b'*', b'/') {
            return End::Passed(at + 2);
        }
        at += 1;
    }
    End::Endless
}

/// The end of a quote of C text, from inside it.
#[tactic(auto, using(crate::proofs::Steps::quote_done, crate::proofs::Steps::quote_cut, crate::proofs::Steps::quote_on, crate::proofs::Steps::quote_skip, crate::proofs::Steps::quote_skip_cut))]
pub fn quote_end(quote: u8, text: &[u8], from: usize) -> End
    requires { from ≤ length text.now }
    ensures is { behind_at text.now result ≡ read.quote_end quote (drop from text.now) }
    ensures within { Within from text.now result }
{
    let mut at = from;
    while at < text.len() {
        let byte = text[at];
        if byte == quote {
            return End::Passed(at + 1);
        }
        if byte == b'\\' {
            if at + 1 == text.len() {
                return End::Endless;
            }
            if text[at + 1] == b'\n' {
                return End::Cut(at + 1);
            }
            at += 2;
        } else if byte == b'\n' {
            return End::Cut(at);
        } else {
            at += 1;
        }
    }
    End::Endless
}

/// The end of a quote of SQL text, from inside it.
pub fn sql_quote_end(quote: u8, text: &[u8], from: usize) -> End
    requires { from ≤ length text.now }
    ensures is { behind_at text.now result ≡ read.sql_quote_end quote (drop from text.now) }
    ensures within { Within from text.now result }
{
    let mut at = from;
    while at < text.len() {
        if text[at] == quote {
            at += 1;
            if at == text.len() || text[at] != quote {
                return End::Passed(at);
            }
        }
        at += 1;
    }
    End::Endless
}

/// The end of a quote of SQL text behind the word `E`, from inside it.
#[tactic(auto, using(crate::proofs::Steps::escaped_skip, crate::proofs::Steps::escaped_doubled, crate::proofs::Steps::escaped_on))]
pub fn escaped_end(text: &[u8], from: usize) -> End
    requires { from ≤ length text.now }
    ensures is { behind_at text.now result ≡ read.escaped_end (drop from text.now) }
    ensures within { Within from text.now result }
{
    let mut at = from;
    while at < text.len() {
        let byte = text[at];
        if byte == b'\\' {
            if at + 1 == text.len() {
                return End::Endless;
            }
            at += 2;
        } else if byte == b'\'' {
            if at + 1 == text.len() || text[at + 1] != b'\'' {
                return End::Passed(at + 1);
            }
            at += 2;
        } else {
            at += 1;
        }
    }
    End::Endless
}

/// The end of a comment of SQL text, from inside it.
#[tactic(auto, using(crate::proofs::Steps::nested_open, crate::proofs::Steps::nested_done, crate::proofs::Steps::nested_close, crate::proofs::Steps::nested_on))]
pub fn nested_end(text: &[u8], from: usize) -> End
    requires { from ≤ length text.now }
    ensures is { behind_at text.now result ≡ read.nested_end 0 (drop from text.now) }
    ensures within { Within from text.now result }
{
    let mut at = from;
    let mut inner = 0usize;
    while at < text.len() {
        if begins_two(text, at, b'/', b'*') {
            inner += 1;
            at += 2;
        } else if begins_two(text, at, b'*', b'/') {
            if inner == 0 {
                return End::Passed(at + 2);
            }
            inner -= 1;
            at += 2;
        } else {
            at += 1;
        }
    }
    End::Endless
}
