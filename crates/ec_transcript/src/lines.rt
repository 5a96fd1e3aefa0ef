//! The lines of a transcript, as they are read.
ghost use Rattle.std.specs.Prelude.{◌≡◌, ◌≤◌, ◌<◌, ◌^◌, Some, None, IfSome, codes, length, option_map};
ghost use Rattle.ec_transcript.specs.Reading.{Gives};
ghost use Rattle.ec_transcript.specs.Lines.{place_of, marked, slot_of, at_of, tx_at, notice_at, done_at, rows_at, row_of, clean_one, clean_at, message_at, refused_at, end_told, reply_of, code_within, code_below, code_of, col_at, col_of};
ghost use Rattle.ec_transcript.specs.Clean.{is_clean};
ghost use Rattle.ec_transcript.specs.Views.{told_of};

use crate::count::Count;
use crate::numbers::number_of;
use crate::reading::{blank_at, quoted_at};
use crate::requests::{behind, fields_at, word_at};
use crate::stop::LineStop;
use crate::version::Version;
use ec_base::{Bytes, List, Name};
use ec_link::{Col, Reply, SqlState, Tx};
use std::alloc::Global;

/// A number, or none for `-`.
pub fn place_of(alloc: Global, word: &[u8]) -> Result<Option<u64>, LineStop>
    ensures { Gives (λ n. n) result (place_of word.now) }
{
    match word {
        [b'-'] => Ok(None),
        _ => {
            let number = number_of(alloc, word)?;
            Ok(Some(number))
        }
    }
}

// A slot with that mark.
fn marked(alloc: Global, ready: bool, text: &[u8]) -> Result<(bool, Name), LineStop>
    ensures { Gives (λ it. it) result (marked ready text.now) }
{
    let (name, rest) = quoted_at(alloc, text)?;
    if !rest.is_empty() {
        return Err(LineStop::Bad);
    }
    let name = Name::from_slice(alloc, name.as_slice())?;
    Ok((ready, name))
}

/// The slot of a line.
pub fn slot_of(alloc: Global, line: &[u8]) -> Result<(bool, Name), LineStop>
    ensures { Gives (λ it. it) result (slot_of line.now) }
{
    if let Some(rest) = behind(b"slot ready ", line) {
        return marked(alloc, true, rest);
    }
    if let Some(rest) = behind(b"slot free ", line) {
        return marked(alloc, false, rest);
    }
    Err(LineStop::Bad)
}

/// The place that a line gives.
pub fn at_of(alloc: Global, line: &[u8]) -> Result<Option<u64>, LineStop>
    ensures { Gives (λ it. it) result (at_of line.now) }
{
    let Some(rest) = behind(b"@ ", line) else {
        return Err(LineStop::Bad);
    };
    place_of(alloc, rest)
}

/// What the first line of a reply says.
#[derive(Debug, Drop)]
pub enum Told {
    /// All of it.
    Whole(Reply),
    /// A table: the state, the numbers of columns and of rows, and whether there was a notice.
    Opens {
        tx: Tx,
        width: Count,
        height: Count,
        notice: bool,
    },
}

// A transaction's state.
fn tx_at(text: &[u8]) -> Result<(Tx, &[u8]), LineStop>
    ensures { Gives (λ it. (it.0, it.1.now)) result (tx_at text.now) }
{
    match text {
        [b'I', rest @ ..] => Ok((Tx::Idle, rest)),
        [b'A', rest @ ..] => Ok((Tx::Active, rest)),
        [b'F', rest @ ..] => Ok((Tx::Failed, rest)),
        _ => Err(LineStop::Bad),
    }
}

// Whether there was a notice, at the end of a line.
fn notice_at(version: Version, rest: &[u8]) -> Result<bool, LineStop>
    ensures { Gives (λ it. it) result (notice_at version rest.now) }
{
    match version {
        _ if rest.is_empty() => Ok(false),
        Version::Two if rest == b" notice".as_slice() => Ok(true),
        _ => Err(LineStop::Bad),
    }
}

// What was done.
#[tactic(auto, unfolding(crate::specs::Lines::done_at))]
fn done_at(alloc: Global, version: Version, text: &[u8]) -> Result<Told, LineStop>
    ensures { Gives told_of result (done_at version text.now) }
{
    let (tx, rest) = tx_at(text)?;
    let rest = blank_at(rest)?;
    let (word, rest) = word_at(rest);
    let count = place_of(alloc, word)?;
    let notice = notice_at(version, rest)?;
    Ok(Told::Whole(Reply::Done { count, tx, notice }))
}

// The numbers of a table.
#[tactic(auto, unfolding(crate::specs::Lines::rows_at))]
fn rows_at(alloc: Global, version: Version, text: &[u8]) -> Result<Told, LineStop>
    ensures { Gives told_of result (rows_at version text.now) }
{
    let (tx, rest) = tx_at(text)?;
    let rest = blank_at(rest)?;
    let (word, rest) = word_at(rest);
    let width = Count::read(alloc, word)?;
    let rest = blank_at(rest)?;
    let (word, rest) = word_at(rest);
    let height = Count::read(alloc, word)?;
    let notice = notice_at(version, rest)?;
    Ok(Told::Opens {
        tx,
        width,
        height,
        notice,
    })
}

/// The fields of the line of a row.
pub fn row_of(alloc: Global, line: &[u8]) -> Result<List<Option<Bytes>>, LineStop>
    ensures { Gives (λ it. it) result (row_of line.now) }
{
    match line {
        [b'r', rest @ ..] => fields_at(alloc, rest),
        _ => Err(LineStop::Bad),
    }
}

// Whether a byte may stand in a state.
fn is_clean(byte: u8) -> bool
    ensures { result ≡ is_clean byte }
{
    matches!(byte, b'0'..=b'9' | b'A'..=b'Z' | b'?')
}

// A byte of a state.
fn clean_one(text: &[u8]) -> Result<(u8, &[u8]), LineStop>
    ensures { Gives (λ it. (it.0, it.1.now)) result (clean_one text.now) }
{
    match text {
        [byte, rest @ ..] if is_clean(*byte) => Ok((*byte, rest)),
        _ => Err(LineStop::Bad),
    }
}

// Five bytes of a state.
fn sql_at(text: &[u8]) -> Result<([u8; 5], &[u8]), LineStop>
    ensures { Gives (λ it. (it.0, it.1.now)) result (clean_at 5 text.now) }
{
    let (a, rest) = clean_one(text)?;
    let (b, rest) = clean_one(rest)?;
    let (c, rest) = clean_one(rest)?;
    let (d, rest) = clean_one(rest)?;
    let (e, rest) = clean_one(rest)?;
    Ok(([a, b, c, d, e], rest))
}

// A text behind a blank, up to the end of the line.
fn message_at(alloc: Global, text: &[u8]) -> Result<Bytes, LineStop>
    ensures { Gives (λ it. it) result (message_at text.now) }
{
    let rest = blank_at(text)?;
    let (message, rest) = quoted_at(alloc, rest)?;
    if !rest.is_empty() {
        return Err(LineStop::Bad);
    }
    Ok(message)
}

// A refusal.
#[tactic(auto, unfolding(crate::specs::Lines::refused_at))]
fn refused_at(alloc: Global, text: &[u8]) -> Result<Told, LineStop>
    ensures { Gives told_of result (refused_at text.now) }
{
    let (tx, rest) = tx_at(text)?;
    let rest = blank_at(rest)?;
    let (state, rest) = sql_at(rest)?;
    let message = message_at(alloc, rest)?;
    Ok(Told::Whole(Reply::Refused {
        state: SqlState(state),
        message,
        tx,
    }))
}

// A reply that says nothing more.
fn end_told(told: Reply, rest: &[u8]) -> Result<Told, LineStop>
    ensures { Gives told_of result (end_told told rest.now) }
{
    if !rest.is_empty() {
        return Err(LineStop::Bad);
    }
    Ok(Told::Whole(told))
}

/// What the first line of a reply says.
pub fn reply_of(alloc: Global, version: Version, line: &[u8]) -> Result<Told, LineStop>
    ensures { Gives told_of result (reply_of version line.now) }
{
    if let Some(rest) = behind(b"< connected", line) {
        return end_told(Reply::Connected, rest);
    }
    if let Some(rest) = behind(b"< notarget", line) {
        return end_told(Reply::NoTarget, rest);
    }
    if let Some(rest) = behind(b"< broken", line) {
        return end_told(Reply::Broken, rest);
    }
    if let Some(rest) = behind(b"< done ", line) {
        return done_at(alloc, version, rest);
    }
    if let Some(rest) = behind(b"< refused ", line) {
        return refused_at(alloc, rest);
    }
    if let Some(rest) = behind(b"< rows ", line) {
        return rows_at(alloc, version, rest);
    }
    Err(LineStop::Bad)
}

// A code that isn't below 0.
fn code_within(number: u64) -> Result<i32, LineStop>
    ensures { Gives (λ n. n) result (code_within (Some number)) }
{
    if number >= 0x8000_0000 {
        return Err(LineStop::Bad);
    }
    Ok(number as i32)
}

// A code below 0.
fn code_below(number: u64) -> Result<i32, LineStop>
    ensures { Gives (λ n. n) result (code_below (Some number)) }
{
    if number == 0 || number > 0x8000_0000 {
        return Err(LineStop::Bad);
    }
    let before = (number - 1) as i32;
    Ok(-1 - before)
}

// A code, which begins with `-` where it is below 0.
fn code_of(alloc: Global, word: &[u8]) -> Result<i32, LineStop>
    ensures { Gives (λ n. n) result (code_of word.now) }
{
    match word {
        [] => Err(LineStop::Bad),
        [b'-', digits @ ..] => {
            let number = number_of(alloc, digits)?;
            let code = code_below(number)?;
            Ok(code)
        }
        _ => {
            let number = number_of(alloc, word)?;
            let code = code_within(number)?;
            Ok(code)
        }
    }
}

#[tactic(auto, unfolding(crate::specs::Lines::col_at))]
fn col_at(alloc: Global, text: &[u8]) -> Result<Col, LineStop>
    ensures { Gives (λ it. it) result (col_at text.now) }
{
    let (name, rest) = quoted_at(alloc, text)?;
    let rest = blank_at(rest)?;
    let code = code_of(alloc, rest)?;
    let name = Name::from_slice(alloc, name.as_slice())?;
    Ok(Col { name, code })
}

/// The column of a line.
pub fn col_of(alloc: Global, line: &[u8]) -> Result<Col, LineStop>
    ensures { Gives (λ it. it) result (col_of line.now) }
{
    let Some(rest) = behind(b"c ", line) else {
        return Err(LineStop::Bad);
    };
    col_at(alloc, rest)
}
