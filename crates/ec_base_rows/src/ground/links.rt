//! Tables and links.

use crate::ground::words::{end_line, index, numbers, put_number, put_word};
use ec_base::{Bytes, List, Name, OutOfMemory};
use ec_link::{Col, Link, MemLink, Reply, Request, Row, Table, Tx};
use std::alloc::Global;

// A row of so many fields, all NULL.
fn blank_row(alloc: Global, width: u64) -> Result<Row, OutOfMemory> {
    let mut row = List::new(alloc);
    for _ in 0..index(width) {
        row.push(None)?;
    }
    Ok(row)
}

// Rows of these widths.
fn blank_rows(alloc: Global, widths: &[u64]) -> Result<List<Row>, OutOfMemory> {
    let mut rows = List::new(alloc);
    for width in widths {
        rows.push(blank_row(alloc, *width)?)?;
    }
    Ok(rows)
}

// One column.
fn one_column(alloc: Global) -> Result<List<Col>, OutOfMemory> {
    let mut cols = List::new(alloc);
    cols.push(Col {
        name: Name::from_slice(alloc, b"id")?,
        code: 23,
    })?;
    Ok(cols)
}

/// `WIDTH..`: prints whether rows of these widths make a table of one column, and how many columns and rows its copy has.
pub fn table(alloc: Global, words: &str, out: &mut Bytes) -> Result<(), OutOfMemory> {
    let widths = numbers(alloc, words)?;
    let cols = one_column(alloc)?;
    let rows = blank_rows(alloc, widths.as_slice())?;
    match Table::new(cols, rows) {
        Some(table) => {
            let copy = table.clone()?;
            put_number(out, copy.cols().len() as u64)?;
            put_number(out, copy.rows().len() as u64)?;
        }
        None => put_word(out, b"none")?,
    }
    end_line(out)
}

// A word for a reply.
fn reply_word(reply: &Reply) -> &'static [u8] {
    match reply {
        Reply::Connected => b"connected",
        Reply::NoTarget => b"notarget",
        Reply::Rows { .. } => b"rows",
        Reply::Done { .. } => b"done",
        Reply::Refused { .. } => b"refused",
        Reply::Broken => b"broken",
    }
}

// Three replies.
fn replies(alloc: Global) -> Result<List<Reply>, OutOfMemory> {
    let mut replies = List::new(alloc);
    replies.push(Reply::Connected)?;
    replies.push(Reply::Broken)?;
    replies.push(Reply::Done {
        count: None,
        tx: Tx::Idle,
        notice: false,
    })?;
    Ok(replies)
}

// Prints what a link answers four times, `none` for want of memory, how often it broke, and how much was said.
fn put_answers(mut link: MemLink, out: &mut Bytes) -> Result<(), OutOfMemory> {
    for _ in 0..4 {
        match link.ask(&Request::Close) {
            Ok(reply) => put_word(out, reply_word(&reply))?,
            Err(_) => put_word(out, b"none")?,
        }
    }
    put_number(out, link.broke())?;
    put_number(out, link.said().len() as u64)?;
    end_line(out)
}

/// `BREAKS..`: prints what a link answers that has three replies and breaks at these asks.
pub fn link(alloc: Global, words: &str, out: &mut Bytes) -> Result<(), OutOfMemory> {
    let breaks = numbers(alloc, words)?;
    let link = MemLink::new(alloc, replies(alloc)?, breaks.as_slice())?;
    put_answers(link, out)
}

/// `REFUSALS..`: prints what a link answers that has three replies, breaks at ask 1 and is refused at these asks.
pub fn refusals(alloc: Global, words: &str, out: &mut Bytes) -> Result<(), OutOfMemory> {
    let refusals = numbers(alloc, words)?;
    let link = MemLink::with_refusals(alloc, replies(alloc)?, &[1], refusals.as_slice())?;
    put_answers(link, out)
}
