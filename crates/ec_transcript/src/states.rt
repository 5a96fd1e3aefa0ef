//! What may come next in a transcript, line by line.
ghost use Rattle.std.specs.Prelude.{◌≡◌, ◌≤◌, Some, length, All, IfOk};
ghost use Rattle.ec_transcript.specs.Reading.{Gives};
ghost use Rattle.ec_transcript.specs.Lines.{readers, at_of, slot_of, col_of, row_of};
ghost use Rattle.ec_transcript.specs.States.{at_step, slot_step, with_table, after_told, col_step, row_step, table_step, step};
ghost use Rattle.ec_transcript.specs.Views.{told_of, open_of, state_of, Sound, named_of};

use crate::count::Count;
use crate::lines::{Told, at_of, col_of, reply_of, row_of, slot_of};
use crate::requests::request_of;
use crate::stop::LineStop;
use crate::version::{Version, header};
use ec_base::{Bytes, List, Name};
use ec_link::{Col, Logged, Reply, Request, Table, Tx};
use std::alloc::Global;

/// An exchange whose reply is a table that isn't whole yet.
#[derive(Debug, Drop)]
pub struct Open {
    pub slot: Option<u32>,
    pub request: Request,
    pub tx: Tx,
    pub width: Count,
    pub height: Count,
    pub notice: bool,
    pub cols: List<Col>,
    pub rows: List<List<Option<Bytes>>>,
}

/// Where a transcript stands behind a line, with what was read.
#[derive(Debug, Drop)]
pub enum State {
    Start,
    Between(List<(bool, Name)>, List<Logged>),
    Asked(List<(bool, Name)>, List<Logged>, Option<u32>),
    Said(List<(bool, Name)>, List<Logged>, Option<u32>, Request),
    Tabled(List<(bool, Name)>, List<Logged>, Open),
}

// A slot that is there.
fn named(count: usize, slot: Option<u64>) -> Result<Option<u32>, LineStop>
    requires { count ≤ 64 }
    ensures { Gives (λ it. it) result (named_of count slot) }
{
    match slot {
        None => Ok(None),
        Some(slot) if slot < count as u64 => Ok(Some(slot as u32)),
        Some(_) => Err(LineStop::Bad),
    }
}

// Behind the line of a place.
fn placed(
    alloc: Global,
    slots: List<(bool, Name)>,
    log: List<Logged>,
    line: &[u8],
) -> Result<State, LineStop>
    requires { length slots ≤ 64 }
    ensures step { Gives state_of result (at_step slots log (at_of line.now)) }
    ensures sound { IfOk result (λ it. Sound (state_of it)) }
{
    let slot = at_of(alloc, line)?;
    let slot = named(slots.len(), slot)?;
    Ok(State::Asked(slots, log, slot))
}

// Between two exchanges.
fn between(
    alloc: Global,
    slots: List<(bool, Name)>,
    log: List<Logged>,
    line: &[u8],
) -> Result<State, LineStop>
    requires { length slots ≤ 64 }
    ensures step { Gives state_of result
        (slot_step slots log (slot_of line.now) (at_of line.now)) }
    ensures sound { IfOk result (λ it. Sound (state_of it)) }
{
    match slot_of(alloc, line) {
        Ok(slot) => {
            if !log.is_empty() || slots.len() >= 64 {
                return Err(LineStop::Bad);
            }
            let mut slots = slots;
            slots.push(slot)?;
            Ok(State::Between(slots, log))
        }
        Err(LineStop::Bad) => placed(alloc, slots, log, line),
        Err(LineStop::OutOfMemory) => Err(LineStop::OutOfMemory),
    }
}

// Where a table stands that may be whole.
fn with_table(slots: List<(bool, Name)>, log: List<Logged>, table: Open) -> Result<State, LineStop>
    requires few { length slots ≤ 64 }
    requires square { All (λ row. length row ≡ table.width) table.rows }
    ensures step { Gives state_of result (Some (with_table slots log (open_of table))) }
    ensures sound { IfOk result (λ it. Sound (state_of it)) }
{
    if !table.width.is(table.cols.len()) || !table.height.is(table.rows.len()) {
        return Ok(State::Tabled(slots, log, table));
    }
    let Open {
        slot,
        request,
        tx,
        width: _,
        height: _,
        notice,
        cols,
        rows,
    } = table;
    let Some(whole) = Table::new(cols, rows) else {
        unreachable!()
    };
    let reply = Reply::Rows {
        table: whole,
        tx,
        notice,
    };
    let mut log = log;
    log.push(Logged {
        slot,
        request,
        reply,
    })?;
    Ok(State::Between(slots, log))
}

// Behind the first line of a reply.
fn after_told(
    alloc: Global,
    slots: List<(bool, Name)>,
    log: List<Logged>,
    slot: Option<u32>,
    request: Request,
    told: Told,
) -> Result<State, LineStop>
    requires { length slots ≤ 64 }
    ensures step { Gives state_of result (Some (after_told slots log slot request (told_of told))) }
    ensures sound { IfOk result (λ it. Sound (state_of it)) }
{
    match told {
        Told::Whole(reply) => {
            let mut log = log;
            log.push(Logged {
                slot,
                request,
                reply,
            })?;
            Ok(State::Between(slots, log))
        }
        Told::Opens {
            tx,
            width,
            height,
            notice,
        } => with_table(
            slots,
            log,
            Open {
                slot,
                request,
                tx,
                width,
                height,
                notice,
                cols: List::new(alloc),
                rows: List::new(alloc),
            },
        ),
    }
}

// One more column.
fn with_col(
    slots: List<(bool, Name)>,
    log: List<Logged>,
    table: Open,
    col: Col,
) -> Result<State, LineStop>
    requires few { length slots ≤ 64 }
    requires square { All (λ row. length row ≡ table.width) table.rows }
    ensures step { Gives state_of result (col_step slots log (open_of table) (Some col)) }
    ensures sound { IfOk result (λ it. Sound (state_of it)) }
{
    let mut table = table;
    table.cols.push(col)?;
    with_table(slots, log, table)
}

// One more row.
fn with_row(
    slots: List<(bool, Name)>,
    log: List<Logged>,
    table: Open,
    row: List<Option<Bytes>>,
) -> Result<State, LineStop>
    requires few { length slots ≤ 64 }
    requires square { All (λ row. length row ≡ table.width) table.rows }
    ensures step { Gives state_of result (row_step slots log (open_of table) (Some row)) }
    ensures sound { IfOk result (λ it. Sound (state_of it)) }
{
    if !table.width.is(row.len()) {
        return Err(LineStop::Bad);
    }
    let mut table = table;
    table.rows.push(row)?;
    with_table(slots, log, table)
}

// Behind a line of a table: of a column, while columns are missing, and else of a row.
fn with_line(
    alloc: Global,
    slots: List<(bool, Name)>,
    log: List<Logged>,
    table: Open,
    line: &[u8],
) -> Result<State, LineStop>
    requires few { length slots ≤ 64 }
    requires square { All (λ row. length row ≡ table.width) table.rows }
    ensures step { Gives state_of result
        (table_step slots log (open_of table) (col_of line.now) (row_of line.now)) }
    ensures sound { IfOk result (λ it. Sound (state_of it)) }
{
    if table.width.exceeds(table.cols.len()) {
        let col = col_of(alloc, line)?;
        with_col(slots, log, table, col)
    } else {
        let row = row_of(alloc, line)?;
        with_row(slots, log, table, row)
    }
}

/// What a line makes of a state.
pub fn step(alloc: Global, version: Version, state: State, line: &[u8]) -> Result<State, LineStop>
    requires { Sound (state_of state) }
    ensures step { Gives state_of result (step (readers version) (state_of state) line.now) }
    ensures sound { IfOk result (λ it. Sound (state_of it)) }
{
    match state {
        State::Start if line == header(version) => {
            Ok(State::Between(List::new(alloc), List::new(alloc)))
        }
        State::Start => Err(LineStop::Bad),
        State::Between(slots, log) => between(alloc, slots, log, line),
        State::Asked(slots, log, slot) => {
            let request = request_of(alloc, line)?;
            Ok(State::Said(slots, log, slot, request))
        }
        State::Said(slots, log, slot, request) => {
            let told = reply_of(alloc, version, line)?;
            after_told(alloc, slots, log, slot, request, told)
        }
        State::Tabled(slots, log, table) => with_line(alloc, slots, log, table, line),
    }
}
