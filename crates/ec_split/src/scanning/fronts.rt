//! What an embedded piece begins with: `EXEC SQL`, blanks and comments, and a first word.
ghost use Rattle.std.specs.Prelude.{◌≡◌, ◌+◌, ◌-◌, ◌≤◌, ◌==◌, ◌||◌, length, take, drop, IfSome, true};
ghost use Rattle.ec_language.specs.Letters as letters;
ghost use Rattle.ec_language.specs.Pieces as pieces;
ghost use Rattle.ec_language.specs.ReadPieces as read;
ghost use Rattle.ec_split.specs.Places.{text_from, first_unit, behind_first_unit, StartsPlainly};

use crate::scanning::bytes::{ByteClass, behind_all, class_at, is_blank, word_at};
use crate::scanning::ends::End;
use crate::scanning::units::{begins_gap, sql_end};

/// The index behind `EXEC SQL`, if these two words stand at the index, however they are written.
#[inline(never)]
#[tactic(auto, using(crate::proofs::Walks::start_no_word, crate::proofs::Walks::start_no_blank, crate::proofs::Walks::start_no_second, crate::proofs::Walks::start_longer, crate::proofs::Walks::start_found))]
fn behind_any_start(text: &[u8], at: usize) -> Option<usize>
    requires { at ≤ length text.now }
    ensures is { text_from text.now result ≡ pieces.behind_start (drop at text.now) }
    ensures within { IfSome result (λ end. (at + 1 ≤ end) × (end ≤ length text.now)) }
{
    if !word_at(text, at, b"EXEC") {
        return None;
    }
    if !class_at(ByteClass::Blank, text, at + 4) {
        return None;
    }
    let second = behind_all(ByteClass::Blank, text, at + 4);
    if !word_at(text, second, b"SQL") {
        return None;
    }
    if class_at(ByteClass::Word, text, second + 3) {
        return None;
    }
    Some(second + 3)
}

/// Whether `EXEC SQL` and a blank stand first, as most people write them.
#[inline(always)]
fn starts_plainly(text: &[u8]) -> bool
    ensures is { result ≡ true → StartsPlainly text.now }
    ensures fits { result ≡ true → 9 ≤ length text.now }
{
    match text {
        [b'E', b'X', b'E', b'C', b' ', b'S', b'Q', b'L', b' ', ..] => true,
        _ => false,
    }
}

/// The index behind `EXEC SQL`, if these two words stand at the index.
#[inline(always)]
#[tactic(auto, using(crate::proofs::Walks::plain_start))]
pub fn behind_start(text: &[u8], at: usize) -> Option<usize>
    requires { at ≤ length text.now }
    ensures is { text_from text.now result ≡ pieces.behind_start (drop at text.now) }
    ensures within { IfSome result (λ end. (at + 1 ≤ end) × (end ≤ length text.now)) }
{
    if starts_plainly(&text[at..]) {
        return Some(at + 8);
    }
    behind_any_start(text, at)
}

/// Whether the first letter of `EXEC` stands at the index.
pub fn begins_exec(text: &[u8], at: usize) -> bool
    ensures { result ≡ letters.begins (λ b. b == 69 || b == 101) (drop at text.now) }
{
    at < text.len() && (text[at] == b'E' || text[at] == b'e')
}

/// Whether an embedded piece starts at the index. Most units are told by their first byte.
#[inline(always)]
#[tactic(auto, using(crate::proofs::Walks::no_exec))]
pub fn starts_piece(text: &[u8], at: usize) -> bool
    requires { at ≤ length text.now }
    ensures { result ≡ pieces.starts_piece (drop at text.now) }
{
    if !begins_exec(text, at) {
        return false;
    }
    behind_start(text, at).is_some()
}

/// The index behind the blanks and comments that stand from the index on.
#[tactic(auto, using(crate::proofs::Walks::gap_next, crate::proofs::Walks::gap_blank))]
pub fn gap_stop(text: &[u8], from: usize) -> usize
    requires { from ≤ length text.now }
    ensures is { drop result text.now ≡ read.gap_stop (drop from text.now) }
    ensures behind { from ≤ result }
    ensures within { result ≤ length text.now }
{
    let mut at = from;
    while at < text.len() {
        if is_blank(text[at]) {
            at += 1;
            continue;
        }
        if !begins_gap(text, at) {
            return at;
        }
        match sql_end(text, at) {
            End::Passed(end) => at = end,
            _ => return at,
        }
    }
    at
}

/// The index behind the unit of SQL text that stands at the index. Where none does, it is the index
/// itself.
pub fn unit_end(text: &[u8], at: usize) -> usize
    requires { at ≤ length text.now }
    ensures word { take (result - at) (drop at text.now) ≡ first_unit (drop at text.now) }
    ensures rest { drop result text.now ≡ behind_first_unit (drop at text.now) }
    ensures order { at ≤ result }
    ensures within { result ≤ length text.now }
{
    if at == text.len() {
        return at;
    }
    match sql_end(text, at) {
        End::Passed(end) => end,
        _ => at,
    }
}
