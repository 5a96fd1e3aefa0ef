ghost use Rattle.std.specs.Prelude.{◌≡◌, false, [], if◌then◌else◌, OnOk, OnErr};
ghost use Rattle.ec_base.specs.Putting.{Puts, PutsPart};
ghost use Rattle.ec_cli.specs.Ending.{message, last_line, place_text};

use crate::ending::Ending;
use ec_base::{Failed, Line, Sink, put_all};
use itoa::Buffer;

// Puts the place that a message names, if it names one.
#[tactic(auto, using(ec_base::proofs::Transfers::putting))]
fn put_place<E: Sink>(err: &mut E, line: Option<Line>) -> Result<(), Failed>
    ensures ok { OnOk result (Puts E.held E.faults err.old err.new (place_text line)) }
    ensures part { OnErr result (PutsPart E.held E.faults err.old err.new (place_text line)) }
{
    if let Some(line) = line {
        put_all(err, b" at line ")?;
        put_all(err, Buffer::new().format(line.0).as_bytes())?;
    }
    Ok(())
}

// Puts one line.
#[tactic(auto, using(ec_base::proofs::Transfers::putting))]
fn put_message<E: Sink>(
    err: &mut E,
    kind: &str,
    name: &str,
    line: Option<Line>,
) -> Result<(), Failed>
    ensures ok { OnOk result
        (Puts E.held E.faults err.old err.new (message kind.now name.now line)) }
    ensures part { OnErr result
        (PutsPart E.held E.faults err.old err.new (message kind.now name.now line)) }
{
    put_all(err, b"ecpgc: ")?;
    put_all(err, kind.as_bytes())?;
    put_all(err, name.as_bytes())?;
    put_place(err, line)?;
    put_all(err, b"\n")
}

// Puts the last line of an ending, if it has one.
fn put_last_line<E: Sink>(err: &mut E, ending: &Ending) -> Result<(), Failed>
    ensures ok { OnOk result (Puts E.held E.faults err.old err.new (last_line ending.now)) }
    ensures part { OnErr result (PutsPart E.held E.faults err.old err.new (last_line ending.now)) }
{
    match ending {
        Ending::Wrote | Ending::Exited(_) => Ok(()),
        Ending::Usage => put_message(err, "", "usage", None),
        Ending::Refused(kind, line) => put_message(err, "", kind.text(), Some(*line)),
        Ending::ReadFault => put_message(err, "", "read fault", None),
        Ending::Trapped(trap, line) => put_message(err, "trap ", trap.text(), Some(*line)),
        Ending::TurnsSpent => put_message(err, "", "turns spent", None),
        Ending::OutOfMemory => put_message(err, "", "out of memory", None),
        Ending::WriteFault => put_message(err, "", "write fault", None),
        Ending::Limit(kind) => put_message(err, "limit ", kind.text(), None),
    }
}

/// Puts the last line of an ending, if it is told and has one. It takes no memory.
#[tactic(auto, using(ec_base::proofs::Transfers::putting))]
pub fn put_line<E: Sink>(err: &mut E, is_told: bool, ending: &Ending) -> Result<(), Failed>
    ensures ok { OnOk result
        (Puts E.held E.faults err.old err.new (if is_told then last_line ending.now else [])) }
    ensures part { OnErr result
        (PutsPart E.held E.faults err.old err.new (if is_told then last_line ending.now else [])) }
    ensures untold { is_told ≡ false → err.new ≡ err.old }
{
    if is_told {
        put_last_line(err, ending)
    } else {
        Ok(())
    }
}
