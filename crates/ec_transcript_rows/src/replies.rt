//! The replies that lines name.

use crate::words::{Words, field, name};
use crate::wrong::Wrong;
use ec_base::{Bytes, List};
use ec_link::{Col, Reply, Row, SqlState, Table};
use std::alloc::Global;

/// The reply of a line.
pub fn reply_of(alloc: Global, line: &str) -> Result<Reply, Wrong> {
    let mut words = Words::new(line);
    match words.next()? {
        "connected" => Ok(Reply::Connected),
        "notarget" => Ok(Reply::NoTarget),
        "broken" => Ok(Reply::Broken),
        "done" => done(&mut words),
        "refused" => refused(alloc, &mut words),
        "rows" => rows(alloc, &mut words),
        _ => Err(Wrong::Form),
    }
}

// The count that a word is, or none for `-`.
fn count_of(word: &str) -> Result<Option<u64>, Wrong> {
    match word {
        "-" => Ok(None),
        _ => Ok(Some(word.parse::<u64>().map_err(|_| Wrong::Form)?)),
    }
}

// What was done.
fn done(words: &mut Words) -> Result<Reply, Wrong> {
    let tx = words.state()?;
    let count = count_of(words.next()?)?;
    let notice = words.notice()?;
    Ok(Reply::Done { count, tx, notice })
}

// Five bytes.
fn five(bytes: &[u8]) -> Result<[u8; 5], Wrong> {
    match bytes {
        [a, b, c, d, e] => Ok([*a, *b, *c, *d, *e]),
        _ => Err(Wrong::Form),
    }
}

// A refusal.
fn refused(alloc: Global, words: &mut Words) -> Result<Reply, Wrong> {
    let tx = words.state()?;
    let state = words.text(alloc)?;
    let state = SqlState(five(state.as_slice())?);
    let message = words.text(alloc)?;
    Ok(Reply::Refused { state, message, tx })
}

// A column: its code and its name.
fn column(alloc: Global, word: &str) -> Result<Col, Wrong> {
    let (code, written) = word.split_once(':').ok_or(Wrong::Form)?;
    let code = code.parse::<i32>().map_err(|_| Wrong::Form)?;
    Ok(Col {
        name: name(alloc, written)?,
        code,
    })
}

// What was read of a table.
#[derive(Drop)]
struct Parts {
    notice: bool,
    cols: List<Col>,
    rows: List<Row>,
}

impl Parts {
    // Takes a word: of a column, or of a row once one began.
    fn take(&mut self, alloc: Global, word: &str) -> Result<(), Wrong> {
        match word {
            "notice" => self.notice = true,
            "row" => self.rows.push(List::new(alloc))?,
            _ => self.value(alloc, word)?,
        }
        Ok(())
    }

    // Takes a column, or a field of the last row.
    fn value(&mut self, alloc: Global, word: &str) -> Result<(), Wrong> {
        match self.rows.last_mut() {
            Some(row) => row.push(field(alloc, word)?)?,
            None => self.cols.push(column(alloc, word)?)?,
        }
        Ok(())
    }
}

// A table.
fn rows(alloc: Global, words: &mut Words) -> Result<Reply, Wrong> {
    let tx = words.state()?;
    let mut parts = Parts {
        notice: false,
        cols: List::new(alloc),
        rows: List::new(alloc),
    };
    for word in words.rest.by_ref() {
        parts.take(alloc, word)?;
    }
    let Parts { notice, cols, rows } = parts;
    let table = Table::new(cols, rows).ok_or(Wrong::Form)?;
    Ok(Reply::Rows { table, tx, notice })
}
