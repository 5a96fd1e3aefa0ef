//! The top call.
ghost use Rattle.std.specs.Prelude.{◌≡◌, ◌⊎◌, ◌++◌, ◌&&◌, not, true, ℕ, List, Some};
ghost use Rattle.ec_base.specs.Putting.{Puts};
ghost use Rattle.ec_base.specs.declared.fault.FaultKind.{FaultKind};
ghost use Rattle.ec_base.specs.declared.fault.LimitKind.{LimitKind};
ghost use Rattle.ec_base.specs.declared.fault.LimitKind.TheVariants.{L7, L8};
ghost use Rattle.ec_base.specs.declared.line.Line.{Line};
ghost use Rattle.ec_base.specs.Causes.{Rose};
ghost use Rattle.ec_link.specs.Rack.{slots_of, log_of};
ghost use Rattle.ec_link.specs.Slot.{states, link_at, talk_at};
ghost use Rattle.ec_link.specs.SlotState.{ready_slot};
ghost use Rattle.ec_link.specs.Told.{KeepsTalks, SparesDropped};
ghost use Rattle.ec_meaning_defs.specs.observed.Observed.{answers_in};
ghost use Rattle.ec_runtime.specs.Racks.{KeepsLinks};
ghost use Rattle.ec_meaning_defs.specs.observed.Headline.{RefusesAt, ReadsWithin};
ghost use Rattle.ec_cli.specs.declared.form.Form.{Form};
ghost use Rattle.ec_cli.specs.Answers.{IsCrowded, IsRefusal, Announces, ComesWhere, grown};
ghost use Rattle.ec_cli.specs.Ending.{is_whole, last_line};
ghost use Rattle.ec_cli.specs.Executing.{IsOfProgram, IsOfExecution, RefusesRun, PassesAs, DecidesExecution, BeforeLine, ExecutesWhole, ExecutesPart, MayExecute};
ghost use Rattle.ec_cli.specs.Recordings.{transcript, RecordsPart};
ghost use Rattle.ec_cli.specs.Taking.{Gives, IsLarge};
ghost use Rattle.ec_cli.specs.Tasks.{is_recorded, is_told, line_for, IsUnnamed, IsTranslating, HasTurns};
ghost use Rattle.ec_cli.specs.Tools.{Does};
ghost use Rattle.ec_cli.specs.Translating.{IsOfTranslation, IsRefused, PassesLimit, WritesWhole, WritesPart, DecidesTranslation};
ghost use Rattle.ec_link.specs.Links.{talk_by, faults_by};

use crate::ending::{Ending, is_whole};
use crate::execution::execute;
use crate::form::Form;
use crate::message::put_line;
use crate::task::{Task, read_task};
use crate::translation::translate_input;
use ec_base::{OutOfMemory, Sink, Source};
use ec_link::{Link, Rack};
use std::alloc::Global;

// How a call ends, and whether its last line tells it.
#[derive(Clone, Copy, Debug)]
struct Performed {
    ending: Ending,
    is_told: bool,
}

// An ending that the last line tells.
fn told(ending: Ending) -> Performed
    ensures { result ≡ record { ending = ending; is_told = true } }
{
    Performed {
        ending,
        is_told: true,
    }
}

// Whether a form is that of a recording.
fn is_recorded(form: Form) -> bool
    ensures { result ≡ is_recorded form }
{
    matches!(form, Form::Recorded)
}

// The ending of a run of that form. A recording that came to its end has its transcript in place of a last line.
fn told_as(form: Form, ending: Ending) -> Performed
    ensures { result ≡ record {
      ending = ending;
      is_told = not (is_whole ending && is_recorded form);
    } }
{
    Performed {
        ending,
        is_told: !(is_whole(&ending) && is_recorded(form)),
    }
}

// Does what the words name, but for the last line on standard error.
fn perform<I: Source, O: Sink, E: Sink>(
    alloc: Global,
    words: &[String],
    input: &mut I,
    out: &mut O,
    err: &mut E,
    rack: &mut Rack,
) -> Performed
    ensures does { Does I.left I.faults O.held O.faults E.held E.faults
        (talk_by ⟦<dyn Link as Link>⟧) (faults_by ⟦<dyn Link as Link>⟧)
        words.now input.old input.new out.old out.new err.old err.new rack.old rack.new
        result.ending }
    ensures told { result.is_told ≡ is_told words.now result.ending }
{
    match read_task(alloc, words) {
        Ok(Some(Task::Translate)) => told(translate_input(alloc, input, out)),
        Ok(Some(Task::Run(form, turns))) => {
            told_as(form, execute(alloc, form, turns, input, out, err, rack))
        }
        Ok(None) => told(Ending::Usage),
        Err(OutOfMemory) => told(Ending::OutOfMemory),
    }
}

/// Does what the words name, and puts a last line on `err` where the ending has one.
///
/// `translate` puts the C that is written of the source which `input` gives on `out`, which is flushed before the ending is
/// decided. A source that is refused puts nothing there.
///
/// `run` runs the source that `input` gives, and `exec` the written C. What the program prints on its two outputs goes to
/// `out` and `err`, which are flushed at its end, before the ending is decided. It begins connected to the first ready slot
/// of the rack, if it has one, and may open, choose and close connections. The slots of those that are open at the end are
/// free again. More than 64 slots are a limit, which is tested before the input is read.
///
/// `record` runs a source as `run` does, but what the program prints on its standard error isn't shown. Behind a run that
/// came to its end the transcript of what was said is put on `err`, in version 2, and nothing else: there is no last line.
///
/// `gen` makes the program of a number, and runs it as `run` does; the input isn't read. Behind what the program prints it
/// puts one line on `out`: the number, the length of the source in bytes, how many requests were made, and how it ended. A
/// number above 10,000 is a limit.
///
/// A fault while the last line is put changes no ending.
pub fn ec_main<I: Source, O: Sink, E: Sink>(
    alloc: Global,
    words: &[String],
    input: &mut I,
    out: &mut O,
    err: &mut E,
    rack: &mut Rack,
) -> Ending
    // The whole of what is written of the source was put, which means what the source means, or a front of it. A translation
    // leaves the rack as it was.
    ensures wrote { result ≡ Ending.Wrote → WritesWhole (I.left input.old) (I.left input.new)
        (O.held out.old) (O.held out.new) }
    ensures written_part { IsTranslating words.now → result ≡ Ending.WriteFault →
        WritesPart I.left I.faults O.held O.faults input.old input.new out.old out.new }
    ensures written_want { IsTranslating words.now → result ≡ Ending.OutOfMemory →
        out.new ≡ out.old }
    ensures unlinked { IsTranslating words.now → rack.new ≡ rack.old }

    // A run to its end is the whole of what the source means, or of what the written C means, over the answers that the log
    // got in this call: what is said is in the log, what is printed is on the two outputs, and the last line stands behind it.
    // What a generated program prints ends with the line that tells of its run, and a recording has the transcript in place of
    // what its program puts on standard error (`shown`). The first ready slot is taken, each exchange does to the slots what it
    // says, and the connections are given back at the end (`RunsOver`). Where the links say what they would say that replay
    // a recorded run of the same program, it is that run (`SaysAgain`). And whatever its turns, its connection and its answers,
    // the program is never stuck: it exits, is trapped, spends its turns or waits for an answer (`IsNeverStuck`).
    ensures whole { (form : Form) (turns : ℕ) → HasTurns words.now form turns → IsOfProgram result →
        BeforeLine E.held E.faults err.new (line_for words.now result) (λ between.
        ExecutesWhole O.held O.faults E.held E.faults
        (talk_by ⟦<dyn Link as Link>⟧) (faults_by ⟦<dyn Link as Link>⟧) I.left
        form turns input.old input.new out.old out.new err.old between rack.old rack.new result) }

    // A run that stopped is a part of it, and want of memory may also come before anything was done.
    ensures part { (form : Form) (turns : ℕ) → HasTurns words.now form turns
        → result ≡ Ending.WriteFault →
        BeforeLine E.held E.faults err.new (last_line result) (λ between.
        ExecutesPart O.held O.faults E.held E.faults
        (talk_by ⟦<dyn Link as Link>⟧) (faults_by ⟦<dyn Link as Link>⟧) I.left
        form turns input.old input.new out.old out.new err.old between rack.old rack.new) }
    ensures want { (form : Form) (turns : ℕ) → HasTurns words.now form turns
        → result ≡ Ending.OutOfMemory →
        BeforeLine E.held E.faults err.new (last_line result) (λ between.
        MayExecute O.held O.faults E.held E.faults
        (talk_by ⟦<dyn Link as Link>⟧) (faults_by ⟦<dyn Link as Link>⟧) I.left
        form turns input.old input.new out.old out.new err.old between rack.old rack.new) }

    // A recording to its end puts the transcript on `err`, and nothing else: of the slots as they were at entry, and of what was
    // said in this call. One that stopped puts a front of it, and its last line.
    ensures recorded { (turns : ℕ) → HasTurns words.now Form.Recorded turns → IsOfProgram result →
        Puts E.held E.faults err.old err.new
        (transcript (states (slots_of rack.old)) (grown rack.old rack.new)) }
    ensures recorded_part { (turns : ℕ) → HasTurns words.now Form.Recorded turns →
        BeforeLine E.held E.faults err.new (line_for words.now result) (λ between.
        RecordsPart E.held E.faults (states (slots_of rack.old)) (grown rack.old rack.new)
        err.old between) }

    // A link that tells its talk says what the log says of its slot.
    ensures talks { KeepsTalks
        (talk_at (talk_by ⟦<dyn Link as Link>⟧) (slots_of rack.old))
        (talk_at (talk_by ⟦<dyn Link as Link>⟧) (slots_of rack.new)) (grown rack.old rack.new) }

    // Each link that is in its slot after the call was there before it. Its talk grew by what the log got for its slot, and
    // where a reply of that was broken, its count of faults rose.
    ensures links { KeepsLinks (talk_by ⟦<dyn Link as Link>⟧) (faults_by ⟦<dyn Link as Link>⟧)
        (link_at (slots_of rack.old)) (link_at (slots_of rack.new)) (grown rack.old rack.new) }
    ensures dropped { SparesDropped
        (states (slots_of rack.old)) (states (slots_of rack.new)) (grown rack.old rack.new) }
    ensures logged { log_of rack.new ≡ log_of rack.old ++ grown rack.old rack.new }

    // A refusal touches nothing, and neither do words that name no command. These read nothing, and a generated program
    // neither. No call reads far beyond the limit.
    ensures unread { IsUnnamed words.now ⊎ ((form : Form) × (turns : ℕ)
        × HasTurns words.now form turns × (result ≡ Ending.Limit L7)) → input.new ≡ input.old }
    ensures made { (number turns : ℕ) → HasTurns words.now (Form.Generated number) turns →
        input.new ≡ input.old }
    ensures untouched { IsRefusal result ⊎ IsUnnamed words.now →
        (rack.new ≡ rack.old) × (out.new ≡ out.old) }
    ensures within { ReadsWithin (I.left input.old) (I.left input.new) }

    // When each answer comes. Words that name no command, more slots than are taken and a number that is too large are told
    // by it always, but that want of memory may come in its place.
    ensures usage { ComesWhere Ending.Usage result (IsUnnamed words.now) }
    ensures own_translation { IsTranslating words.now → IsOfTranslation result }
    ensures source_refused { (kind : FaultKind) (line : Line) → IsTranslating words.now
        → result ≡ Ending.Refused kind line →
        RefusesAt IsRefused (I.left input.old) (I.left input.new) kind line.0 }
    ensures source_limit { (kind : LimitKind) → IsTranslating words.now
        → result ≡ Ending.Limit kind → PassesLimit (I.left input.old) (I.left input.new) kind }
    ensures own { (form : Form) (turns : ℕ) → HasTurns words.now form turns → IsOfExecution result }
    ensures crowded { (form : Form) (turns : ℕ) → HasTurns words.now form turns →
        ComesWhere (Ending.Limit L7) result (IsCrowded rack.old) }
    ensures numbered { (form : Form) (turns : ℕ) → HasTurns words.now form turns →
        ComesWhere (Ending.Limit L8) result (IsLarge form × (IsCrowded rack.old → ⊥)) }
    ensures refused { (form : Form) (turns : ℕ) (kind : FaultKind) (line : Line)
        → HasTurns words.now form turns → result ≡ Ending.Refused kind line →
        RefusesRun form (I.left input.old) (I.left input.new) kind line.0 }
    ensures limit { (form : Form) (turns : ℕ) (kind : LimitKind) → HasTurns words.now form turns
        → (kind ≡ L7 → ⊥) → result ≡ Ending.Limit kind →
        PassesAs form (I.left input.old) (I.left input.new) kind }
    ensures read_fault { result ≡ Ending.ReadFault →
        Rose (I.faults input.old) (I.faults input.new) }
    ensures write_fault { IsTranslating words.now → result ≡ Ending.WriteFault →
        Rose (O.faults out.old) (O.faults out.new) }
    ensures either_fault { result ≡ Ending.WriteFault →
        Rose (O.faults out.old) (O.faults out.new) ⊎ Rose (E.faults err.old) (E.faults err.new) }
    ensures decides_translation { (text : List ℕ) → IsTranslating words.now
        → I.left input.old ≡ Some text → (Rose (I.faults input.old) (I.faults input.new) → ⊥)
        → (Rose (O.faults out.old) (O.faults out.new) → ⊥) → DecidesTranslation text result }
    ensures decides { (form : Form) (turns : ℕ) (text : List ℕ) → HasTurns words.now form turns
        → (IsCrowded rack.old → ⊥) → Gives form (I.left input.old) text
        → (Rose (I.faults input.old) (I.faults input.new) → ⊥)
        → (Rose (O.faults out.old) (O.faults out.new) → ⊥)
        → (Rose (E.faults err.old) (E.faults err.new) → ⊥)
        → DecidesExecution form turns (ready_slot (states (slots_of rack.old)))
        (answers_in (grown rack.old rack.new)) text result }

    // With every other answer, want of memory among them, no count rose.
    ensures read_steady { (result ≡ Ending.ReadFault → ⊥) →
        I.faults input.new ≡ I.faults input.old }
    ensures write_steady { (result ≡ Ending.WriteFault → ⊥) → O.faults out.new ≡ O.faults out.old }
    ensures errors_steady { (result ≡ Ending.WriteFault → ⊥) →
        BeforeLine E.held E.faults err.new (line_for words.now result) (λ between.
        E.faults between ≡ E.faults err.old) }

    // The last line, whole, or in part where the count of `err` rose. A recording that came to its end has none (`line_for`).
    // Only a program that runs, or its recording, puts something before it.
    ensures last_line { IsTranslating words.now ⊎ IsUnnamed words.now ⊎ IsRefusal result →
        Announces E.held E.faults err.old err.new (last_line result) }
{
    let done = perform(alloc, words, input, out, err, rack);
    let _ = put_line(err, done.is_told, &done.ending);
    done.ending
}
