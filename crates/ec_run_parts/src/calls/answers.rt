//! Answers, as a line has them.

use ec_base::{Bytes, List, Name, OutOfMemory};
use ec_link::{Col, Reply, Row, SqlState, Table, Tx};
use std::alloc::Global;

// A row of one field: a text, or NULL for `-`.
fn row_of(alloc: Global, word: &str) -> Result<Row, OutOfMemory> {
    let mut row = List::new(alloc);
    if word == "-" {
        row.push(None)?;
    } else {
        row.push(Some(Bytes::from_slice(alloc, word.as_bytes())?))?;
    }
    Ok(row)
}

// A table of these columns.
fn columns(alloc: Global, count: u64) -> Result<List<Col>, OutOfMemory> {
    let mut columns = List::new(alloc);
    for _ in 0..count {
        columns.push(Col {
            name: Name::new(),
            code: 4,
        })?;
    }
    Ok(columns)
}

// Rows of one field each.
fn rows(alloc: Global, words: &str) -> Result<Option<Reply>, OutOfMemory> {
    let mut rows = List::new(alloc);
    for word in words.split_whitespace() {
        rows.push(row_of(alloc, word)?)?;
    }
    let columns = columns(alloc, 1)?;
    match Table::new(columns, rows) {
        Some(table) => Ok(Some(Reply::Rows {
            table,
            tx: Tx::Idle,
            notice: false,
        })),
        None => Ok(None),
    }
}

// One row of fields.
fn wide(alloc: Global, words: &str) -> Result<Option<Reply>, OutOfMemory> {
    let mut row = List::new(alloc);
    for word in words.split_whitespace() {
        row.push(Some(Bytes::from_slice(alloc, word.as_bytes())?))?;
    }
    let columns = columns(alloc, row.len() as u64)?;
    let mut rows = List::new(alloc);
    rows.push(row)?;
    match Table::new(columns, rows) {
        Some(table) => Ok(Some(Reply::Rows {
            table,
            tx: Tx::Idle,
            notice: false,
        })),
        None => Ok(None),
    }
}

// The state of five characters.
fn state_of(word: &str) -> Option<SqlState> {
    match word.as_bytes() {
        [a, b, c, d, e] => Some(SqlState([*a, *b, *c, *d, *e])),
        _ => None,
    }
}

// A refusal: its state, and its message.
fn refused(alloc: Global, words: &str) -> Result<Option<Reply>, OutOfMemory> {
    let (state, message) = words.split_once(' ').unwrap_or((words, ""));
    match state_of(state) {
        Some(state) => Ok(Some(Reply::Refused {
            state,
            message: Bytes::from_slice(alloc, message.as_bytes())?,
            tx: Tx::Idle,
        })),
        None => Ok(None),
    }
}

// A statement that is done, with a count or without.
fn done(word: &str) -> Option<Reply> {
    let count = match word {
        "-" => None,
        _ => Some(word.parse::<u64>().ok()?),
    };
    Some(Reply::Done {
        count,
        tx: Tx::Idle,
        notice: false,
    })
}

/// The answer of a line: `rows` and the field of each row, `wide` and the fields of one row, `done` and a count or `-`,
/// `refused` with a state and a message, `broken`, `connected` or `notarget`.
pub fn answer(alloc: Global, line: &str) -> Result<Option<Reply>, OutOfMemory> {
    let (word, rest) = line.split_once(' ').unwrap_or((line, ""));
    match word {
        "rows" => rows(alloc, rest),
        "wide" => wide(alloc, rest),
        "done" => Ok(done(rest)),
        "refused" => refused(alloc, rest),
        "broken" => Ok(Some(Reply::Broken)),
        "connected" => Ok(Some(Reply::Connected)),
        "notarget" => Ok(Some(Reply::NoTarget)),
        _ => Ok(None),
    }
}
