//! A call of the tool, as a row gives it.

use ec_base::{
    Bytes, FaultKind, InputStop, LimitKind, Line, List, MemSink, MemSource, OutOfMemory, Trap,
    read_all,
};
use ec_cli::{Ending, ec_main, status};
use ec_link::Rack;
use ec_run_parts::{Given, Stop, put_log, put_number, put_quoted, put_slots};
use std::alloc::Global;
use std::{mem, str};

/// The most slots of a row: one more than the tool takes.
const MOST_SLOTS: usize = 65;

// The words of a line, as a call is given them.
fn words(alloc: Global, line: &[u8]) -> Result<Vec<String>, Stop> {
    let mut words = Vec::new(alloc);
    for word in line.split(|b| *b == b' ') {
        if !word.is_empty() {
            let word = str::from_utf8(word).map_err(|_| Stop::Form)?;
            let word = String::from_str(alloc, word).map_err(|_| Stop::OutOfMemory)?;
            words.push(word).map_err(|_| Stop::OutOfMemory)?;
        }
    }
    Ok(words)
}

// The bytes that a source still gives, behind a read that may fail.
fn left(alloc: Global, input: &mut MemSource) -> Result<Bytes, InputStop> {
    match read_all(alloc, input, 1 << 25) {
        Err(InputStop::Fault) => read_all(alloc, input, 1 << 25),
        read => read,
    }
}

// The name of an ending.
fn name_of(ending: &Ending) -> &'static str {
    match ending {
        Ending::Wrote => "wrote",
        Ending::Exited(_) => "exited",
        Ending::Trapped(..) => "trapped",
        Ending::TurnsSpent => "turns spent",
        Ending::Usage => "usage",
        Ending::Refused(..) => "refused",
        Ending::Limit(_) => "limit",
        Ending::ReadFault => "read fault",
        Ending::WriteFault => "write fault",
        Ending::OutOfMemory => "out of memory",
    }
}

// Shows the ending, and the status that the program ends with.
fn put_ending(shown: &mut Bytes, ending: &Ending) -> Result<(), OutOfMemory> {
    shown.extend_from_slice(name_of(ending).as_bytes())?;
    shown.extend_from_slice(b"\nstatus ")?;
    put_number(shown, u64::from(status(ending)))?;
    shown.push(b'\n')
}

/// Shows each kind of ending with its status.
pub fn put_statuses(shown: &mut Bytes) -> Result<(), OutOfMemory> {
    for ending in [
        Ending::Wrote,
        Ending::Exited(0),
        Ending::Exited(7),
        Ending::Exited(255),
        Ending::Usage,
        Ending::Refused(FaultKind::F7, Line(2)),
        Ending::ReadFault,
        Ending::Trapped(Trap::Null, Line(3)),
        Ending::TurnsSpent,
        Ending::OutOfMemory,
        Ending::WriteFault,
        Ending::Limit(LimitKind::L6),
    ] {
        put_ending(shown, &ending)?;
    }
    shown.push(b'\n')
}

// Shows a text behind its name.
fn put_text(shown: &mut Bytes, name: &[u8], text: &[u8]) -> Result<(), OutOfMemory> {
    shown.extend_from_slice(name)?;
    put_quoted(shown, text)?;
    shown.push(b'\n')
}

// What the call is given beside the rack.
#[derive(Drop)]
struct Objects {
    words: Vec<String>,
    input: MemSource,
    out: MemSink,
    err: MemSink,
}

// Makes what the call is given beside the rack.
fn make_objects(alloc: Global, source: &Bytes, given: &Given) -> Result<Objects, Stop> {
    let chunk = given.chunk.max(1);
    Ok(Objects {
        words: words(alloc, given.words.as_slice())?,
        input: MemSource::new(alloc, source.as_slice(), chunk, given.reads.as_slice())?,
        out: MemSink::new(alloc, given.room, chunk, given.puts.as_slice())?,
        err: MemSink::new(alloc, 4096, 4096, given.last.as_slice())?,
    })
}

// Shows the ending, and what the objects hold.
fn put_objects(
    alloc: Global,
    shown: &mut Bytes,
    ending: &Ending,
    objects: &mut Objects,
) -> Result<(), Stop> {
    put_ending(shown, ending)?;
    put_text(shown, b"out ", objects.out.held())?;
    put_text(shown, b"err ", objects.err.held())?;
    shown.extend_from_slice(b"left ")?;
    put_number(shown, left(alloc, &mut objects.input)?.len() as u64)?;
    shown.push(b'\n')?;
    Ok(())
}

// Shows the title of a row.
fn put_title(shown: &mut Bytes, given: &Given) -> Result<(), OutOfMemory> {
    shown.extend_from_slice(b"row ")?;
    shown.extend_from_slice(given.title.as_slice())?;
    shown.push(b'\n')
}

/// Makes the call, and shows what it leaves. The slots are used up. The rack and its links are made here, since no caller
/// has them.
pub fn make_call(
    alloc: Global,
    source: &Bytes,
    given: &mut Given,
    shown: &mut Bytes,
) -> Result<(), Stop> {
    let mut objects = make_objects(alloc, source, given)?;
    let mut rack = Rack::new(alloc);
    for place in mem::replace(&mut given.places, List::new(alloc)) {
        if rack.slots().len() >= MOST_SLOTS {
            return Err(Stop::Form);
        }
        let ready = place.ready;
        let (name, link) = place.link(alloc)?;
        let link = Box::new(alloc, link).map_err(|_| Stop::OutOfMemory)?;
        let added = if !ready {
            rack.add(name, link)
        } else if rack.has_ready() {
            return Err(Stop::Form);
        } else {
            rack.add_ready(name, link)
        };
        if added.is_err() {
            return Err(Stop::OutOfMemory);
        }
    }
    let ending = ec_main(
        alloc,
        objects.words.as_slice(),
        &mut objects.input,
        &mut objects.out,
        &mut objects.err,
        &mut rack,
    );
    put_title(shown, given)?;
    put_objects(alloc, shown, &ending, &mut objects)?;
    put_log(shown, rack.log())?;
    put_slots(shown, rack.slots())?;
    shown.push(b'\n')?;
    Ok(())
}
