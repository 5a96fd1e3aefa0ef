//! The text of a run: it is read from the input, or made.
ghost use Rattle.std.specs.Prelude.{◌≡◌, ◌≤◌, ◌<◌, ◌^◌, ◌⊎◌, IfOk, IfErr};
ghost use Rattle.ec_base.specs.Reading.{ReadsAll};
ghost use Rattle.ec_base.specs.declared.fault.LimitKind.TheVariants.{L8};
ghost use Rattle.ec_generate.specs.Generated.{generated};
ghost use Rattle.ec_cli.specs.Taking.{Lacks, Stops, Takes, most_generated, stopped_ending};

use crate::ending::Ending;
use crate::form::Form;
use crate::limits::{INPUT_LIMIT, NUMBER_LIMIT};
use ec_base::{Bytes, InputStop, LimitKind, OutOfMemory, Source as Input, read_all};
use ec_generate::program;
use std::alloc::Global;

// The ending where reading the input stopped.
fn stopped(stop: InputStop) -> Ending
    ensures { result ≡ stopped_ending stop }
{
    match stop {
        InputStop::Fault => Ending::ReadFault,
        InputStop::TooLong => Ending::Limit(LimitKind::L6),
        InputStop::OutOfMemory => Ending::OutOfMemory,
    }
}

// The text of the input, which is read to its end.
fn read_text<I: Input>(alloc: Global, input: &mut I) -> Result<Bytes, Ending>
    ensures ok { IfOk result (λ text.
        ReadsAll I.left I.faults input.old input.new (2 ^ 24) text) }
    ensures err { IfErr result (λ ending. Stops I.left I.faults input.old input.new ending) }
{
    match read_all(alloc, input, INPUT_LIMIT) {
        Ok(text) => Ok(text),
        Err(stop) => Err(stopped(stop)),
    }
}

// The source of the generated program of a number.
fn make_text(alloc: Global, number: u32) -> Result<Bytes, Ending>
    ensures ok { IfOk result (λ text. (number ≤ most_generated) × (text ≡ generated number)) }
    ensures err { IfErr result (λ ending. (ending ≡ Ending.OutOfMemory)
        ⊎ ((most_generated < number) × (ending ≡ Ending.Limit L8))) }
{
    if number > NUMBER_LIMIT {
        return Err(Ending::Limit(LimitKind::L8));
    }
    match program(alloc, number) {
        Ok(text) => Ok(text),
        Err(OutOfMemory) => Err(Ending::OutOfMemory),
    }
}

/// The text that is run, or the ending of the call where there is none. A generated program's is made, and nothing is read.
pub fn take_text<I: Input>(alloc: Global, form: Form, input: &mut I) -> Result<Bytes, Ending>
    ensures ok { IfOk result (λ text. Takes I.left I.faults form input.old input.new text) }
    ensures err { IfErr result (λ ending. Lacks I.left I.faults form input.old input.new ending) }
{
    match form {
        Form::Source => read_text(alloc, input),
        Form::Written => read_text(alloc, input),
        Form::Recorded => read_text(alloc, input),
        Form::Generated(number) => make_text(alloc, number),
    }
}
