//! What a call leaves, as text.

use ec_base::{Bytes, List, OutOfMemory};
use ec_link::{Col, Logged, Reply, Request, Row, Slot, Table, Tx};
use itoa::Buffer;

/// Puts a number at the end of a text.
pub fn put_number(text: &mut Bytes, number: u64) -> Result<(), OutOfMemory> {
    text.extend_from_slice(Buffer::new().format(number).as_bytes())
}

// A hexadecimal digit.
fn digit(worth: u8) -> u8 {
    if worth < 10 {
        worth.wrapping_add(b'0')
    } else {
        worth.wrapping_sub(10).wrapping_add(b'a')
    }
}

/// Puts bytes in quotes: each as itself, or as a backslash and two hexadecimal digits.
pub fn put_quoted(text: &mut Bytes, bytes: &[u8]) -> Result<(), OutOfMemory> {
    text.push(b'"')?;
    for byte in bytes {
        let byte = *byte;
        if byte < 32 || byte > 126 || byte == b'"' || byte == b'\\' {
            text.push(b'\\')?;
            text.push(digit(byte / 16))?;
            text.push(digit(byte % 16))?;
        } else {
            text.push(byte)?;
        }
    }
    text.push(b'"')
}

// Puts a text in quotes, or `-` for NULL, behind a blank.
fn put_field(text: &mut Bytes, field: &Option<Bytes>) -> Result<(), OutOfMemory> {
    text.push(b' ')?;
    match field {
        Some(bytes) => put_quoted(text, bytes.as_slice()),
        None => text.push(b'-'),
    }
}

// Puts a text in quotes behind a word.
fn put_named(text: &mut Bytes, word: &[u8], name: &[u8]) -> Result<(), OutOfMemory> {
    text.extend_from_slice(word)?;
    put_quoted(text, name)
}

// Puts the number of the parameters, and each of them.
fn put_params(text: &mut Bytes, params: &List<Option<Bytes>>) -> Result<(), OutOfMemory> {
    text.push(b' ')?;
    put_number(text, params.len() as u64)?;
    for param in params.as_slice() {
        put_field(text, param)?;
    }
    Ok(())
}

// Puts a request.
fn put_request(text: &mut Bytes, request: &Request) -> Result<(), OutOfMemory> {
    match request {
        Request::Connect {
            target,
            user,
            password,
        } => {
            put_named(text, b"connect ", target.as_slice())?;
            put_field(text, user)?;
            put_field(text, password)
        }
        Request::Text { text: sent, params } => {
            put_named(text, b"text ", sent.as_slice())?;
            put_params(text, params)
        }
        Request::Prepare { name, text: sent } => {
            put_named(text, b"prepare ", name.as_slice())?;
            put_named(text, b" ", sent.as_slice())
        }
        Request::Exec { name, params } => {
            put_named(text, b"exec ", name.as_slice())?;
            put_params(text, params)
        }
        Request::Deallocate { name } => put_named(text, b"deallocate ", name.as_slice()),
        Request::Close => text.extend_from_slice(b"close"),
    }
}

// The letter of a state.
fn letter(tx: Tx) -> &'static [u8] {
    match tx {
        Tx::Idle => b"I",
        Tx::Active => b"A",
        Tx::Failed => b"F",
    }
}

// Puts a column.
fn put_col(text: &mut Bytes, col: &Col) -> Result<(), OutOfMemory> {
    put_named(text, b"\nc ", col.name.as_slice())?;
    text.push(b' ')?;
    text.extend_from_slice(Buffer::new().format(col.code).as_bytes())
}

// Puts a row.
fn put_row(text: &mut Bytes, row: &Row) -> Result<(), OutOfMemory> {
    text.extend_from_slice(b"\nr")?;
    for field in row.as_slice() {
        put_field(text, field)?;
    }
    Ok(())
}

// Puts that there is a notice, if there is one.
fn put_notice(text: &mut Bytes, notice: bool) -> Result<(), OutOfMemory> {
    if notice {
        text.extend_from_slice(b" notice")?;
    }
    Ok(())
}

// Puts rows, each on a line of its own.
fn put_table(text: &mut Bytes, table: &Table, tx: Tx, notice: bool) -> Result<(), OutOfMemory> {
    text.extend_from_slice(b"rows ")?;
    text.extend_from_slice(letter(tx))?;
    put_notice(text, notice)?;
    for col in table.cols().as_slice() {
        put_col(text, col)?;
    }
    for row in table.rows().as_slice() {
        put_row(text, row)?;
    }
    Ok(())
}

// Puts how many rows were changed, if that was told.
fn put_done(text: &mut Bytes, count: Option<u64>, tx: Tx, notice: bool) -> Result<(), OutOfMemory> {
    text.extend_from_slice(b"done ")?;
    text.extend_from_slice(letter(tx))?;
    text.push(b' ')?;
    match count {
        Some(count) => put_number(text, count)?,
        None => text.push(b'-')?,
    }
    put_notice(text, notice)
}

// Puts a reply.
fn put_reply(text: &mut Bytes, reply: &Reply) -> Result<(), OutOfMemory> {
    match reply {
        Reply::Connected => text.extend_from_slice(b"connected"),
        Reply::NoTarget => text.extend_from_slice(b"notarget"),
        Reply::Broken => text.extend_from_slice(b"broken"),
        Reply::Done { count, tx, notice } => put_done(text, *count, *tx, *notice),
        Reply::Rows { table, tx, notice } => put_table(text, table, *tx, *notice),
        Reply::Refused { state, message, tx } => {
            text.extend_from_slice(b"refused ")?;
            text.extend_from_slice(letter(*tx))?;
            text.push(b' ')?;
            text.extend_from_slice(state.0.as_slice())?;
            put_named(text, b" ", message.as_slice())
        }
    }
}

// Puts an exchange: its slot, its request and its reply.
fn put_exchange(text: &mut Bytes, logged: &Logged) -> Result<(), OutOfMemory> {
    text.extend_from_slice(b"@ ")?;
    match logged.slot {
        Some(slot) => put_number(text, u64::from(slot))?,
        None => text.push(b'-')?,
    }
    text.extend_from_slice(b"\n> ")?;
    put_request(text, &logged.request)?;
    text.extend_from_slice(b"\n< ")?;
    put_reply(text, &logged.reply)?;
    text.push(b'\n')
}

/// Puts the exchanges of a rack.
pub fn put_log(text: &mut Bytes, log: &List<Logged>) -> Result<(), OutOfMemory> {
    for logged in log.as_slice() {
        put_exchange(text, logged)?;
    }
    Ok(())
}

/// Puts how the slots of a rack stand.
pub fn put_slots(text: &mut Bytes, slots: &List<Slot>) -> Result<(), OutOfMemory> {
    for slot in slots.as_slice() {
        let (state, name): (&[u8], _) = match slot {
            Slot::Free(name, _) => (b"slot free ", name),
            Slot::Ready(name, _) => (b"slot ready ", name),
            Slot::Taken(name) => (b"slot taken ", name),
            Slot::Dropped(name) => (b"slot dropped ", name),
        };
        put_named(text, state, name.as_slice())?;
        text.push(b'\n')?;
    }
    Ok(())
}
