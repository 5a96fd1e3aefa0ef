//! The transcript of a recording.
ghost use Rattle.std.specs.Prelude.{◌≡◌, IfOk};
ghost use Rattle.ec_link.specs.Slot.{state_of, states};
ghost use Rattle.ec_transcript.specs.declared.version.Version.TheVariants.{Two};
ghost use Rattle.ec_transcript.specs.Clean.{clean};
ghost use Rattle.ec_transcript.specs.Text.{text_of};
ghost use Rattle.ec_cli.specs.Ending.{is_whole};
ghost use Rattle.ec_cli.specs.Recording.{Records};
ghost use Rattle.ec_cli.specs.Recordings.{mark_of, marks_of};

use crate::ending::{Ending, is_whole};
use crate::putting::put_text;
use ec_base::{Failed, List, Name, OutOfMemory, Sink};
use ec_link::{Logged, Slot};
use ec_transcript::write_transcript;
use std::alloc::Global;

// A slot as a transcript has it: whether it is ready, and the name of its server.
fn mark_of(slot: &Slot) -> Result<(bool, Name), OutOfMemory>
    ensures { IfOk result (λ it. it ≡ mark_of (state_of slot.now)) }
{
    match slot {
        Slot::Ready(name, _) => Ok((true, name.clone()?)),
        Slot::Free(name, _) | Slot::Taken(name) | Slot::Dropped(name) => Ok((false, name.clone()?)),
    }
}

/// The slots as a transcript has them.
pub fn marks_of(alloc: Global, slots: &[Slot]) -> Result<List<(bool, Name)>, OutOfMemory>
    ensures { IfOk result (λ it. it ≡ marks_of (states slots.now)) }
{
    let mut marks = List::new(alloc);
    for slot in slots {
        marks.push(mark_of(slot)?)?;
    }
    Ok(marks)
}

/// Puts the transcript of a run that came to its end, and passes it on: of the slots as they were, and of what was said. The
/// ending stays, or is that the output failed, or that there was no memory for the text.
pub fn put_transcript<E: Sink>(
    alloc: Global,
    marks: &List<(bool, Name)>,
    log: &[Logged],
    ending: Ending,
    err: &mut E,
) -> Ending
    ensures { Records E.held E.faults (is_whole ending) (text_of Two marks.now (clean log.now))
        err.old err.new ending result }
{
    if !is_whole(&ending) {
        return ending;
    }
    match write_transcript(alloc, marks, log) {
        Ok(text) => match put_text(err, text.as_slice()) {
            Ok(()) => ending,
            Err(Failed) => Ending::WriteFault,
        },
        Err(OutOfMemory) => Ending::OutOfMemory,
    }
}
