//! Embedded statements, as the tokens of C text see them.
ghost use Rattle.std.specs.Prelude.{◌≡◌, ◌+◌, ◌-◌, ◌≤◌, ◌<◌, ◌^◌, ◌∷◌, ◌||◌, ℕ, List, codes, length, drop, IfSome};
ghost use Rattle.ec_language.specs.SqlTokens as sql;
ghost use Rattle.ec_language.specs.ReadTokens.{sql_units};

use ec_split::scanning::bytes::{byte_at, newlines};
use ec_split::scanning::ends::End;
use ec_split::scanning::units::{begins_gap, sql_end};
use ec_split::scanning::words::same_word;

/// Whether the word begins a statement that is not executed where it stands.
fn is_directive(word: &[u8]) -> bool
    ensures { (units : List (List ℕ)) → result ≡ sql.is_directive (word.now ∷ units) }
{
    same_word(word, b"WHENEVER") || same_word(word, b"INCLUDE") || same_word(word, b"DECLARE")
}

/// Whether the statement of these units is executed.
pub fn is_executable(text: &[u8], from: usize) -> bool
    requires { from ≤ length text.now }
    ensures { result ≡ sql.is_executable (sql_units (drop from text.now)) }
{
    let mut at = from;
    while at < text.len() && !byte_at(text, at, b';') {
        let End::Passed(end) = sql_end(text, at) else {
            return true;
        };
        if !begins_gap(text, at) {
            return !is_directive(&text[at..end]);
        }
        at = end;
    }
    true
}

/// Whether the unit is a byte that begins no token.
fn is_bad_unit(unit: &[u8]) -> bool
    ensures { result ≡ sql.is_bad_unit unit.now }
{
    unit == b"\0".as_slice() || unit == b"$".as_slice()
}

/// The line of the first unit that begins no token, if the first unit stands on this line.
pub fn first_bad_line(text: &[u8], from: usize, line: u32) -> Option<u32>
    requires inside { from ≤ length text.now }
    requires fits { line + (length text.now - from) < 2 ^ 32 }
    ensures is { result ≡ sql.first_bad_line line (sql_units (drop from text.now)) }
{
    let mut at = from;
    let mut now = line;
    while at < text.len() && !byte_at(text, at, b';') {
        let End::Passed(end) = sql_end(text, at) else {
            return None;
        };
        let unit = &text[at..end];
        if is_bad_unit(unit) {
            return Some(now);
        }
        now += newlines(unit) as u32;
        at = end;
    }
    None
}
