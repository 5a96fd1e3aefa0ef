//! How slots, logs and what is said over links are shown: as the lines that make them, each behind a blank.

use ec_base::{Bytes, List, Name, OutOfMemory};
use ec_link::{Logged, Reply, Request, Row, Table, Tx};
use itoa::Buffer;

/// Puts a number.
pub fn put_number(out: &mut Bytes, number: u64) -> Result<(), OutOfMemory> {
    out.extend_from_slice(Buffer::new().format(number).as_bytes())
}

// A hexadecimal digit.
fn digit(worth: u8) -> u8 {
    if worth < 10 {
        worth.wrapping_add(b'0')
    } else {
        worth.wrapping_sub(10).wrapping_add(b'a')
    }
}

// Puts a text: a `=`, and then each byte from 33 to 126 but the backslash as itself.
fn put_text(out: &mut Bytes, text: &[u8]) -> Result<(), OutOfMemory> {
    out.push(b'=')?;
    for byte in text {
        match *byte {
            b'\\' | 0..=32 | 127..=255 => {
                out.push(b'\\')?;
                out.push(digit(*byte / 16))?;
                out.push(digit(*byte % 16))?;
            }
            plain => out.push(plain)?,
        }
    }
    Ok(())
}

// Puts a text behind a word and a blank.
fn put_named(out: &mut Bytes, word: &[u8], text: &[u8]) -> Result<(), OutOfMemory> {
    out.extend_from_slice(word)?;
    out.push(b' ')?;
    put_text(out, text)
}

// Puts a field behind a blank.
fn put_field(out: &mut Bytes, field: &Option<Bytes>) -> Result<(), OutOfMemory> {
    out.push(b' ')?;
    match field {
        Some(text) => put_text(out, text.as_slice()),
        None => out.push(b'-'),
    }
}

// Puts fields, each behind a blank.
fn put_fields(out: &mut Bytes, fields: &List<Option<Bytes>>) -> Result<(), OutOfMemory> {
    for field in fields.as_slice() {
        put_field(out, field)?;
    }
    Ok(())
}

/// Puts the line at which a text is none.
pub fn put_bad(out: &mut Bytes, line: u32) -> Result<(), OutOfMemory> {
    out.extend_from_slice(b" bad ")?;
    put_number(out, u64::from(line))?;
    out.push(b'\n')
}

// Puts a request.
fn put_request(out: &mut Bytes, request: &Request) -> Result<(), OutOfMemory> {
    match request {
        Request::Connect {
            target,
            user,
            password,
        } => {
            put_named(out, b" connect", target.as_slice())?;
            put_field(out, user)?;
            put_field(out, password)
        }
        Request::Text { text, params } => {
            put_named(out, b" text", text.as_slice())?;
            put_fields(out, params)
        }
        Request::Prepare { name, text } => {
            put_named(out, b" prepare", name.as_slice())?;
            put_named(out, b"", text.as_slice())
        }
        Request::Exec { name, params } => {
            put_named(out, b" exec", name.as_slice())?;
            put_fields(out, params)
        }
        Request::Deallocate { name } => put_named(out, b" deallocate", name.as_slice()),
        Request::Close => out.extend_from_slice(b" close"),
    }
}

// Puts the letter of a transaction's state behind a word.
fn put_state(out: &mut Bytes, word: &[u8], tx: Tx) -> Result<(), OutOfMemory> {
    out.extend_from_slice(word)?;
    out.push(match tx {
        Tx::Idle => b'I',
        Tx::Active => b'A',
        Tx::Failed => b'F',
    })
}

// Puts that there was a notice, if there was one.
fn put_notice(out: &mut Bytes, notice: bool) -> Result<(), OutOfMemory> {
    if notice {
        out.extend_from_slice(b" notice")?;
    }
    Ok(())
}

// Puts a row.
fn put_row(out: &mut Bytes, row: &Row) -> Result<(), OutOfMemory> {
    out.extend_from_slice(b" row")?;
    put_fields(out, row)
}

// Puts the columns and rows of a table.
fn put_table(out: &mut Bytes, table: &Table) -> Result<(), OutOfMemory> {
    for col in table.cols().as_slice() {
        out.push(b' ')?;
        out.extend_from_slice(Buffer::new().format(col.code).as_bytes())?;
        out.push(b':')?;
        put_text(out, col.name.as_slice())?;
    }
    for row in table.rows().as_slice() {
        put_row(out, row)?;
    }
    Ok(())
}

// Puts how many rows were changed, or `-`.
fn put_count(out: &mut Bytes, count: Option<u64>) -> Result<(), OutOfMemory> {
    out.push(b' ')?;
    match count {
        Some(count) => put_number(out, count),
        None => out.push(b'-'),
    }
}

// Puts the words of a reply.
fn put_answer(out: &mut Bytes, reply: &Reply) -> Result<(), OutOfMemory> {
    match reply {
        Reply::Connected => out.extend_from_slice(b" connected"),
        Reply::NoTarget => out.extend_from_slice(b" notarget"),
        Reply::Broken => out.extend_from_slice(b" broken"),
        Reply::Done { count, tx, notice } => {
            put_state(out, b" done ", *tx)?;
            put_count(out, *count)?;
            put_notice(out, *notice)
        }
        Reply::Refused { state, message, tx } => {
            put_state(out, b" refused ", *tx)?;
            put_named(out, b"", &state.0)?;
            put_named(out, b"", message.as_slice())
        }
        Reply::Rows { table, tx, notice } => {
            put_state(out, b" rows ", *tx)?;
            put_notice(out, *notice)?;
            put_table(out, table)
        }
    }
}

/// Puts a reply.
pub fn put_reply(out: &mut Bytes, reply: &Reply) -> Result<(), OutOfMemory> {
    put_answer(out, reply)?;
    out.push(b'\n')
}

/// Puts a request and its reply.
pub fn put_said(out: &mut Bytes, request: &Request, reply: &Reply) -> Result<(), OutOfMemory> {
    put_request(out, request)?;
    out.push(b'\n')?;
    put_reply(out, reply)
}

// Puts an exchange.
fn put_exchange(out: &mut Bytes, x: &Logged) -> Result<(), OutOfMemory> {
    out.extend_from_slice(b" over ")?;
    match x.slot {
        Some(slot) => put_number(out, u64::from(slot))?,
        None => out.push(b'-')?,
    }
    out.push(b'\n')?;
    put_said(out, &x.request, &x.reply)
}

/// Puts a slot.
pub fn put_slot(out: &mut Bytes, ready: bool, target: &[u8]) -> Result<(), OutOfMemory> {
    let word: &[u8] = if ready { b" slot ready" } else { b" slot free" };
    put_named(out, word, target)?;
    out.push(b'\n')
}

/// Puts the slots and the log of a transcript.
pub fn put_transcript(
    out: &mut Bytes,
    slots: &List<(bool, Name)>,
    log: &List<Logged>,
) -> Result<(), OutOfMemory> {
    for slot in slots.as_slice() {
        put_slot(out, slot.0, slot.1.as_slice())?;
    }
    for x in log.as_slice() {
        put_exchange(out, x)?;
    }
    Ok(())
}
