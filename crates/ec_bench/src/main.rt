//! Does what is measured. `ec_bench pieces`, `tokens`, `syntax`, `written`, `statements` and `checks` read a source on
//! standard input by one part of the precompiler, and print how much it found. `ec_bench exchanges` and `recorded` read a
//! transcript, and print how many exchanges it has, or, where it is written again, how many bytes. `ec_bench load`,
//! `store`, `move`, `make`, `make-many` and `fill` do one thing with the memory of a C program again and again, and print
//! how often that went well.
#![tactic(auto)]

mod count;
mod memory;

use crate::count::{
    count_checked, count_exchanges, count_pieces, count_recorded, count_statements, count_tokens,
    count_tops, count_written,
};
use crate::memory::{Work, count_done};
use ec_base::{InputStop, OutOfMemory, StdSource, Stop, read_all};
use ec_memory::MakeStop;
use ec_transcript::ReadStop;
use std::alloc::Global;
use std::env;
use std::io::ErrorKind;
use std::process::ExitCode;

/// The most bytes of a text.
const MAX_TEXT: usize = 1 << 24;

// Why there is nothing to print.
enum Failure {
    Usage,
    Read,
    Stopped,
    OutOfMemory,
}

impl From<OutOfMemory> for Failure {
    fn from(_: OutOfMemory) -> Failure {
        Failure::OutOfMemory
    }
}

impl From<InputStop> for Failure {
    fn from(stop: InputStop) -> Failure {
        match stop {
            InputStop::OutOfMemory => Failure::OutOfMemory,
            InputStop::Fault | InputStop::TooLong => Failure::Read,
        }
    }
}

impl From<Stop> for Failure {
    fn from(stop: Stop) -> Failure {
        match stop {
            Stop::OutOfMemory => Failure::OutOfMemory,
            Stop::Refused(_, _) | Stop::Limit(_) => Failure::Stopped,
        }
    }
}

impl From<MakeStop> for Failure {
    fn from(stop: MakeStop) -> Failure {
        match stop {
            MakeStop::OutOfMemory => Failure::OutOfMemory,
            MakeStop::Spent => Failure::Stopped,
        }
    }
}

impl From<ReadStop> for Failure {
    fn from(stop: ReadStop) -> Failure {
        match stop {
            ReadStop::OutOfMemory => Failure::OutOfMemory,
            ReadStop::Bad(_) => Failure::Stopped,
        }
    }
}

// What of a text is counted.
#[derive(Clone, Copy)]
enum Part {
    Pieces,
    Tokens,
    Syntax,
    Written,
    Statements,
    Checks,
    Exchanges,
    Recorded,
}

// What is measured.
#[derive(Clone, Copy)]
enum Measured {
    Text(Part),
    Memory(Work),
}

/// The word that names each.
const MEASURED: [(&str, Measured); 14] = [
    ("pieces", Measured::Text(Part::Pieces)),
    ("tokens", Measured::Text(Part::Tokens)),
    ("syntax", Measured::Text(Part::Syntax)),
    ("written", Measured::Text(Part::Written)),
    ("statements", Measured::Text(Part::Statements)),
    ("checks", Measured::Text(Part::Checks)),
    ("exchanges", Measured::Text(Part::Exchanges)),
    ("recorded", Measured::Text(Part::Recorded)),
    ("load", Measured::Memory(Work::Load)),
    ("store", Measured::Memory(Work::Store)),
    ("move", Measured::Memory(Work::Move)),
    ("make", Measured::Memory(Work::Make)),
    ("make-many", Measured::Memory(Work::MakeMany)),
    ("fill", Measured::Memory(Work::Fill)),
];

// What a word names.
fn measured_by(word: &str) -> Option<Measured> {
    for (known, measured) in MEASURED {
        if known == word {
            return Some(measured);
        }
    }
    None
}

// What the words behind the program's name ask for.
fn asked_for(rt: &HostRuntime) -> Result<Option<Measured>, OutOfMemory> {
    match env::args(rt) {
        Ok(all) => {
            let mut words = all.skip(1);
            match (words.next(), words.next()) {
                (Some(word), None) => Ok(measured_by(word.as_str())),
                _ => Ok(None),
            }
        }
        Err(error) => match error.kind() {
            ErrorKind::OutOfMemory => Err(OutOfMemory),
            _ => Ok(None),
        },
    }
}

// How many parts of this kind the text has.
fn count_of(alloc: Global, part: Part, text: &[u8]) -> Result<usize, Failure> {
    if text.len() > MAX_TEXT {
        return Err(Failure::Read);
    }
    match part {
        Part::Pieces => Ok(count_pieces(alloc, text)?),
        Part::Tokens => Ok(count_tokens(alloc, text)?),
        Part::Syntax => Ok(count_tops(alloc, text)?),
        Part::Written => Ok(count_written(alloc, text)?),
        Part::Statements => Ok(count_statements(alloc, text)?),
        Part::Checks => Ok(count_checked(alloc, text)?),
        Part::Exchanges => Ok(count_exchanges(alloc, text)?),
        Part::Recorded => Ok(count_recorded(alloc, text)?),
    }
}

// How many parts of this kind standard input has.
fn count_read(rt: &HostRuntime, part: Part) -> Result<u64, Failure> {
    let mut input = StdSource::new(rt.stdin());
    let text = read_all(rt.alloc(), &mut input, MAX_TEXT)?;
    Ok(count_of(rt.alloc(), part, text.as_slice())? as u64)
}

fn run(rt: &HostRuntime) -> Result<u64, Failure> {
    match asked_for(rt)? {
        Some(Measured::Text(part)) => count_read(rt, part),
        Some(Measured::Memory(work)) => Ok(count_done(rt.alloc(), work)?),
        None => Err(Failure::Usage),
    }
}

fn main(rt: HostRuntime) -> ExitCode {
    match run(&rt) {
        Ok(count) => {
            let _ = println!(rt; "{count}");
            ExitCode::from(0)
        }
        Err(Failure::Usage) => ExitCode::from(64),
        Err(Failure::Stopped) => ExitCode::from(65),
        Err(Failure::Read) => ExitCode::from(66),
        Err(Failure::OutOfMemory) => ExitCode::from(69),
    }
}
