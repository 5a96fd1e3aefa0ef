//! Transcripts as they are written.
ghost use Rattle.std.specs.Prelude.{◌≡◌, ◌++◌, ◌∷◌, [], ◌<◌, ◌≤◌, ◌^◌, codes, length, map, option_map, OnOk, IfOk};
ghost use Rattle.std.specs.List.{flat_map};
ghost use Rattle.ec_transcript.specs.Text.{ended, header, mark, slot_line, at_line, place, request, request_line, tx, count, col_line, row_line, rows_line, reply, exchange, text_of, fields, quoted, noticed, numeral};
ghost use Rattle.ec_link.specs.declared.reply.Reply.TheVariants.{Rows, Done, Refused};
ghost use Rattle.ec_transcript.specs.declared.version.Version.TheVariants.{Two};
ghost use Rattle.ec_transcript.specs.Clean.{clean_byte, clean, clean_reply, clean_exchange};

use crate::fields::{push_code, push_count, push_fields, push_number, push_optional, push_quoted};
use ec_base::{Bytes, List, Name, OutOfMemory};
use ec_link::{Col, Logged, Reply, Request, SqlState, Table, Tx};
use std::alloc::Global;

// Puts what a slot stands for.
fn push_slot(out: &mut Bytes, slot: &(bool, Name)) -> Result<(), OutOfMemory>
    ensures { OnOk result (out.new ≡ out.old ++ ended (slot_line slot.now)) }
{
    out.extend_from_slice(b"slot ")?;
    let word: &[u8] = if slot.0 { b"ready" } else { b"free" };
    out.extend_from_slice(word)?;
    out.push(b' ')?;
    push_quoted(out, slot.1.as_slice())?;
    out.push(b'\n')
}

// Puts the line of an exchange's slot.
fn push_at(out: &mut Bytes, slot: Option<u32>) -> Result<(), OutOfMemory>
    ensures { OnOk result (out.new ≡ out.old ++ ended (at_line slot)) }
{
    out.extend_from_slice(b"@ ")?;
    match slot {
        Some(slot) => push_number(out, u64::from(slot))?,
        None => out.push(b'-')?,
    }
    out.push(b'\n')
}

// Puts parameters, with their number before them.
fn push_params(out: &mut Bytes, params: &List<Option<Bytes>>) -> Result<(), OutOfMemory>
    ensures { OnOk result (out.new ≡ out.old ++ 32 ∷ (numeral (length params.now) ++ fields params.now)) }
{
    out.push(b' ')?;
    push_count(out, params.len())?;
    push_fields(out, params)
}

// Puts the request of a line.
fn push_request(out: &mut Bytes, asked: &Request) -> Result<(), OutOfMemory>
    ensures { OnOk result (out.new ≡ out.old ++ request asked.now) }
{
    match asked {
        Request::Connect {
            target,
            user,
            password,
        } => {
            out.extend_from_slice(b"connect ")?;
            push_quoted(out, target.as_slice())?;
            out.push(b' ')?;
            push_optional(out, user)?;
            out.push(b' ')?;
            push_optional(out, password)
        }
        Request::Text { text, params } => {
            out.extend_from_slice(b"text ")?;
            push_quoted(out, text.as_slice())?;
            push_params(out, params)
        }
        Request::Prepare { name, text } => {
            out.extend_from_slice(b"prepare ")?;
            push_quoted(out, name.as_slice())?;
            out.push(b' ')?;
            push_quoted(out, text.as_slice())
        }
        Request::Exec { name, params } => {
            out.extend_from_slice(b"exec ")?;
            push_quoted(out, name.as_slice())?;
            push_params(out, params)
        }
        Request::Deallocate { name } => {
            out.extend_from_slice(b"deallocate ")?;
            push_quoted(out, name.as_slice())?;
            Ok(())
        }
        Request::Close => out.extend_from_slice(b"close"),
    }
}

// Puts the line of a request.
fn push_request_line(out: &mut Bytes, request: &Request) -> Result<(), OutOfMemory>
    ensures { OnOk result (out.new ≡ out.old ++ ended (request_line request.now)) }
{
    out.extend_from_slice(b"> ")?;
    push_request(out, request)?;
    out.push(b'\n')
}

// The letter of a transaction's state.
fn tx(state: Tx) -> u8
    ensures { result ≡ tx state }
{
    match state {
        Tx::Idle => b'I',
        Tx::Active => b'A',
        Tx::Failed => b'F',
    }
}

// A byte of a state that is written for it.
fn clean_byte(byte: u8) -> u8
    ensures { result ≡ clean_byte byte }
{
    match byte {
        b'0'..=b'9' | b'A'..=b'Z' | b'?' => byte,
        _ => b'?',
    }
}

// Puts a state.
fn push_state(out: &mut Bytes, state: &[u8]) -> Result<(), OutOfMemory>
    ensures { OnOk result (out.new ≡ out.old ++ map clean_byte state.now) }
{
    for byte in state {
        out.push(clean_byte(*byte))?;
    }
    Ok(())
}

// Puts the line of a column.
fn push_col(out: &mut Bytes, col: &Col) -> Result<(), OutOfMemory>
    ensures { OnOk result (out.new ≡ out.old ++ ended (col_line col.now)) }
{
    out.extend_from_slice(b"c ")?;
    push_quoted(out, col.name.as_slice())?;
    out.push(b' ')?;
    push_code(out, col.code)?;
    out.push(b'\n')
}

// Puts the line of a row.
fn push_row(out: &mut Bytes, row: &List<Option<Bytes>>) -> Result<(), OutOfMemory>
    ensures { OnOk result (out.new ≡ out.old ++ ended (row_line row.now)) }
{
    out.push(b'r')?;
    push_fields(out, row)?;
    out.push(b'\n')
}

// Puts the lines of columns.
fn push_cols(out: &mut Bytes, cols: &[Col]) -> Result<(), OutOfMemory>
    ensures { OnOk result (out.new ≡ out.old ++ flat_map ended (map col_line cols.now)) }
{
    for col in cols {
        push_col(out, col)?;
    }
    Ok(())
}

// Puts the lines of rows.
fn push_rows(out: &mut Bytes, rows: &[List<Option<Bytes>>]) -> Result<(), OutOfMemory>
    ensures { OnOk result (out.new ≡ out.old ++ flat_map ended (map row_line rows.now)) }
{
    for row in rows {
        push_row(out, row)?;
    }
    Ok(())
}

// Puts what ends the first line of a reply.
fn push_notice(out: &mut Bytes, notice: bool) -> Result<(), OutOfMemory>
    ensures { OnOk result (out.new ≡ out.old ++ ended (noticed notice)) }
{
    if notice {
        out.extend_from_slice(b" notice\n")
    } else {
        out.push(b'\n')
    }
}

// Puts the numbers of columns and rows.
fn push_size(out: &mut Bytes, table: &Table) -> Result<(), OutOfMemory>
    ensures { OnOk result (out.new ≡ out.old
        ++ 32 ∷ (numeral (length table.now.cols) ++ 32 ∷ numeral (length table.now.rows))) }
{
    out.push(b' ')?;
    push_count(out, table.cols().len())?;
    out.push(b' ')?;
    push_count(out, table.rows().len())
}

// Puts the first line of a table.
fn push_opening(out: &mut Bytes, table: &Table, state: Tx, notice: bool) -> Result<(), OutOfMemory>
    ensures { OnOk result (out.new ≡ out.old
        ++ ended (rows_line state (length table.now.cols) (length table.now.rows) notice)) }
{
    out.extend_from_slice(b"< rows ")?;
    out.push(tx(state))?;
    push_size(out, table)?;
    push_notice(out, notice)
}

// Puts the lines of a table.
fn push_table(out: &mut Bytes, table: &Table, state: Tx, notice: bool) -> Result<(), OutOfMemory>
    ensures { OnOk result (out.new ≡ out.old
        ++ flat_map ended (reply (Rows table.now state notice))) }
{
    push_opening(out, table, state, notice)?;
    push_cols(out, table.cols().as_slice())?;
    push_rows(out, table.rows().as_slice())
}

// Puts the line of what was done.
fn push_done(
    out: &mut Bytes,
    count: Option<u64>,
    state: Tx,
    notice: bool,
) -> Result<(), OutOfMemory>
    ensures { OnOk result (out.new ≡ out.old ++ flat_map ended (reply (Done count state notice))) }
{
    out.extend_from_slice(b"< done ")?;
    out.push(tx(state))?;
    out.push(b' ')?;
    match count {
        Some(count) => push_number(out, count)?,
        None => out.push(b'-')?,
    }
    push_notice(out, notice)
}

// Puts what stands in a refusal behind its letter.
fn push_message(out: &mut Bytes, state: &[u8], message: &[u8]) -> Result<(), OutOfMemory>
    ensures { OnOk result (out.new
        ≡ out.old ++ ended (32 ∷ (map clean_byte state.now ++ 32 ∷ quoted message.now))) }
{
    out.push(b' ')?;
    push_state(out, state)?;
    out.push(b' ')?;
    push_quoted(out, message)?;
    out.push(b'\n')
}

// Puts the line of a refusal.
fn push_refused(
    out: &mut Bytes,
    sql: &SqlState,
    message: &[u8],
    state: Tx,
) -> Result<(), OutOfMemory>
    ensures { OnOk result (out.new
        ≡ out.old ++ flat_map ended (reply (clean_reply (Refused sql.now message.now state)))) }
{
    out.extend_from_slice(b"< refused ")?;
    out.push(tx(state))?;
    push_message(out, &sql.0, message)?;
    Ok(())
}

// Puts the lines of a reply.
fn push_reply(out: &mut Bytes, told: &Reply) -> Result<(), OutOfMemory>
    ensures { OnOk result (out.new ≡ out.old ++ flat_map ended (reply (clean_reply told.now))) }
{
    match told {
        Reply::Connected => out.extend_from_slice(b"< connected\n"),
        Reply::NoTarget => out.extend_from_slice(b"< notarget\n"),
        Reply::Broken => out.extend_from_slice(b"< broken\n"),
        Reply::Done { count, tx, notice } => push_done(out, *count, *tx, *notice),
        Reply::Refused { state, message, tx } => {
            push_refused(out, state, message.as_slice(), *tx)
        }
        Reply::Rows { table, tx, notice } => push_table(out, table, *tx, *notice),
    }
}

// Puts the lines of an exchange.
fn push_exchange(out: &mut Bytes, x: &Logged) -> Result<(), OutOfMemory>
    ensures { OnOk result (out.new ≡ out.old ++ flat_map ended (exchange (clean_exchange x.now))) }
{
    push_at(out, x.slot)?;
    push_request_line(out, &x.request)?;
    push_reply(out, &x.reply)
}

// Puts the lines of slots.
fn push_slots(out: &mut Bytes, slots: &[(bool, Name)]) -> Result<(), OutOfMemory>
    ensures { OnOk result (out.new ≡ out.old ++ flat_map ended (map slot_line slots.now)) }
{
    for slot in slots {
        push_slot(out, slot)?;
    }
    Ok(())
}

// Puts the lines of a log.
fn push_log(out: &mut Bytes, log: &[Logged]) -> Result<(), OutOfMemory>
    ensures { OnOk result (out.new ≡ out.old ++ flat_map ended (flat_map exchange (clean log.now))) }
{
    for x in log {
        push_exchange(out, x)?;
    }
    Ok(())
}

/// The transcript, in version 2, of slots, each with whether it was ready, and of what was said over them. Where a byte
/// of a refusal's state is no digit, upper case letter or `?`, it has a `?`. The text is a transcript where there are at
/// most 64 slots and the log names only these. It takes time and memory as the text is long.
pub fn write_transcript(
    alloc: Global,
    slots: &List<(bool, Name)>,
    log: &[Logged],
) -> Result<Bytes, OutOfMemory>
    ensures { IfOk result (λ it. it ≡ text_of Two slots.now (clean log.now)) }
{
    let mut out = Bytes::from_slice(alloc, b"ecpg-transcript 2\n")?;
    push_slots(&mut out, slots.as_slice())?;
    push_log(&mut out, log)?;
    Ok(out)
}
