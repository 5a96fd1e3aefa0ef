//! The line that tells how the run of a generated program went.
ghost use Rattle.std.specs.Prelude.{OnOk, OnErr};
ghost use Rattle.ec_base.specs.Putting.{Puts, PutsPart};
ghost use Rattle.ec_cli.specs.Reporting.{Reports, line_of, outcome_of, text_of};
ghost use Rattle.ec_cli.specs.Reports.{count, exited_text, heading, trapped_text};

use crate::ending::{Ending, is_whole};
use crate::putting::put_text;
use ec_base::{Failed, Line, Sink, Trap, put_all};
use itoa::Buffer;

/// What is told of a run beside its outcome.
#[derive(Clone, Copy, Debug)]
pub struct Summary {
    /// The number of the program.
    pub number: u32,
    /// The length of its source, in bytes.
    pub bytes: usize,
    /// How many requests were made.
    pub requests: usize,
}

// Puts a number and what stands behind it.
#[tactic(auto, using(ec_base::proofs::Transfers::putting))]
fn put_count<O: Sink>(out: &mut O, number: usize, unit: &[u8]) -> Result<(), Failed>
    ensures ok { OnOk result (Puts O.held O.faults out.old out.new (count number unit.now)) }
    ensures part { OnErr result
        (PutsPart O.held O.faults out.old out.new (count number unit.now)) }
{
    put_all(out, Buffer::new().format(number).as_bytes())?;
    put_all(out, unit)
}

// Puts the status that a program ended with.
#[tactic(auto, using(ec_base::proofs::Transfers::putting))]
fn put_exited<O: Sink>(out: &mut O, status: u8) -> Result<(), Failed>
    ensures ok { OnOk result (Puts O.held O.faults out.old out.new (exited_text status)) }
    ensures part { OnErr result (PutsPart O.held O.faults out.old out.new (exited_text status)) }
{
    put_all(out, b"exited ")?;
    put_all(out, Buffer::new().format(status).as_bytes())
}

// Puts the trap that a program ended with, and its line.
#[tactic(auto, using(ec_base::proofs::Transfers::putting))]
fn put_trapped<O: Sink>(out: &mut O, trap: Trap, line: Line) -> Result<(), Failed>
    ensures ok { OnOk result
        (Puts O.held O.faults out.old out.new (trapped_text trap line.0)) }
    ensures part { OnErr result
        (PutsPart O.held O.faults out.old out.new (trapped_text trap line.0)) }
{
    put_all(out, b"trapped ")?;
    put_all(out, trap.text().as_bytes())?;
    put_all(out, b" at line ")?;
    put_all(out, Buffer::new().format(line.0).as_bytes())
}

// Puts how the program ended, if it came to its end.
#[tactic(auto, using(ec_base::proofs::Transfers::putting))]
fn put_outcome<O: Sink>(out: &mut O, ending: &Ending) -> Result<(), Failed>
    ensures ok { OnOk result
        (Puts O.held O.faults out.old out.new (text_of (outcome_of ending.now))) }
    ensures part { OnErr result
        (PutsPart O.held O.faults out.old out.new (text_of (outcome_of ending.now))) }
{
    match ending {
        Ending::Exited(status) => put_exited(out, *status),
        Ending::Trapped(trap, line) => put_trapped(out, *trap, *line),
        Ending::TurnsSpent => put_all(out, b"turns spent"),
        Ending::Wrote
        | Ending::Usage
        | Ending::Refused(..)
        | Ending::Limit(_)
        | Ending::ReadFault
        | Ending::WriteFault
        | Ending::OutOfMemory => Ok(()),
    }
}

// Puts what stands before the outcome.
#[tactic(auto, using(ec_base::proofs::Transfers::putting))]
fn put_heading<O: Sink>(
    out: &mut O,
    number: u32,
    bytes: usize,
    requests: usize,
) -> Result<(), Failed>
    ensures ok { OnOk result
        (Puts O.held O.faults out.old out.new (heading number bytes requests)) }
    ensures part { OnErr result
        (PutsPart O.held O.faults out.old out.new (heading number bytes requests)) }
{
    put_all(out, b"gen ")?;
    put_count(out, number as usize, b": ")?;
    put_count(out, bytes, b" bytes, ")?;
    put_count(out, requests, b" requests, ")
}

// Puts the line, and passes on what was kept back.
#[tactic(auto, using(ec_base::proofs::Transfers::putting))]
fn put_report<O: Sink>(out: &mut O, it: &Summary, ending: &Ending) -> Result<(), Failed>
    ensures ok { OnOk result (Puts O.held O.faults out.old out.new
        (line_of it.now (text_of (outcome_of ending.now)))) }
    ensures part { OnErr result (PutsPart O.held O.faults out.old out.new
        (line_of it.now (text_of (outcome_of ending.now)))) }
{
    put_heading(out, it.number, it.bytes, it.requests)?;
    put_outcome(out, ending)?;
    put_text(out, b"\n")
}

/// Puts the line behind what a program printed that came to its end, and passes it on. The ending stays, or is that the
/// output failed. It takes no memory.
pub fn report<O: Sink>(out: &mut O, it: &Summary, ending: Ending) -> Ending
    ensures { Reports O.held O.faults (outcome_of ending) it.now out.old out.new ending result }
{
    if !is_whole(&ending) {
        return ending;
    }
    match put_report(out, it, &ending) {
        Ok(()) => ending,
        Err(Failed) => Ending::WriteFault,
    }
}
