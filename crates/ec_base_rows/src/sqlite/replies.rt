//! How replies are printed.

use ec_base::{Bytes, OutOfMemory};
use ec_link::{Reply, Row, Table, Tx};

// The letter of a state.
fn letter(tx: Tx) -> &'static [u8] {
    match tx {
        Tx::Idle => b"I",
        Tx::Active => b"A",
        Tx::Failed => b"F",
    }
}

// Adds the text of a number.
fn push_number(out: &mut Bytes, number: i64) -> Result<(), OutOfMemory> {
    out.extend_from_slice(itoa::Buffer::new().format(number).as_bytes())
}

// Adds the columns of a table and its rows, a line for each.
fn push_table(out: &mut Bytes, table: &Table) -> Result<(), OutOfMemory> {
    for col in table.cols().as_slice() {
        out.extend_from_slice(b" ")?;
        out.extend_from_slice(col.name.as_slice())?;
        out.extend_from_slice(b":")?;
        push_number(out, i64::from(col.code))?;
    }
    for row in table.rows().as_slice() {
        push_row(out, row)?;
    }
    Ok(())
}

// Adds a row.
fn push_row(out: &mut Bytes, row: &Row) -> Result<(), OutOfMemory> {
    out.extend_from_slice(b"\n |")?;
    for field in row.as_slice() {
        out.extend_from_slice(b" ")?;
        out.extend_from_slice(match field {
            Some(text) => text.as_slice(),
            None => b"NULL",
        })?;
        out.extend_from_slice(b" |")?;
    }
    Ok(())
}

// Adds a count, if there is one.
fn push_count(out: &mut Bytes, count: &Option<u64>) -> Result<(), OutOfMemory> {
    if let Some(count) = count {
        out.extend_from_slice(b" ")?;
        out.extend_from_slice(itoa::Buffer::new().format(*count).as_bytes())?;
    }
    Ok(())
}

/// Adds a reply, with its newline.
pub fn put_reply(out: &mut Bytes, reply: &Reply) -> Result<(), OutOfMemory> {
    match reply {
        Reply::Connected => out.extend_from_slice(b" connected")?,
        Reply::NoTarget => out.extend_from_slice(b" no target")?,
        Reply::Broken => out.extend_from_slice(b" broken")?,
        Reply::Rows { table, tx, .. } => {
            out.extend_from_slice(b" rows ")?;
            out.extend_from_slice(letter(*tx))?;
            push_table(out, table)?;
        }
        Reply::Done { count, tx, .. } => {
            out.extend_from_slice(b" done ")?;
            out.extend_from_slice(letter(*tx))?;
            push_count(out, count)?;
        }
        Reply::Refused { state, message, tx } => {
            out.extend_from_slice(b" refused ")?;
            out.extend_from_slice(letter(*tx))?;
            out.extend_from_slice(b" ")?;
            out.extend_from_slice(&state.0)?;
            out.extend_from_slice(b" ")?;
            out.extend_from_slice(message.as_slice())?;
        }
    }
    out.extend_from_slice(b"\n")
}
