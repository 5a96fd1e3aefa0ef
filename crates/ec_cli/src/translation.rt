//! The command `translate`: a source is read, and the C that is written of it is put.
ghost use Rattle.std.specs.Prelude.{◌≡◌, ◌≤◌, ◌^◌, length};
ghost use Rattle.ec_cli.specs.Translating.{refusal_of, TranslatesText, Translates};

use crate::ending::Ending;
use crate::limits::INPUT_LIMIT;
use crate::putting::put_text;
use ec_base::{Bytes, Failed, InputStop, LimitKind, Sink, Source as Input, Stop, read_all};
use ec_execute::source::translate_source;
use std::alloc::Global;

// The ending of a text that is refused.
fn refusal(stop: Stop) -> Ending
    ensures { result ≡ refusal_of stop }
{
    match stop {
        Stop::Refused(kind, line) => Ending::Refused(kind, line),
        Stop::Limit(kind) => Ending::Limit(kind),
        Stop::OutOfMemory => Ending::OutOfMemory,
    }
}

// Puts what is written of the source in a text, which is let go.
fn translate_text<O: Sink>(alloc: Global, text: Bytes, out: &mut O) -> Ending
    requires { length text ≤ 2 ^ 24 }
    ensures { TranslatesText O.held O.faults text out.old out.new result }
{
    match translate_source(alloc, text.as_slice()) {
        Ok(written) => match put_text(out, written.as_slice()) {
            Ok(()) => Ending::Wrote,
            Err(Failed) => Ending::WriteFault,
        },
        Err(stop) => refusal(stop),
    }
}

/// Puts what is written of the source that the input gives, and flushes the output.
pub fn translate_input<I: Input, O: Sink>(alloc: Global, input: &mut I, out: &mut O) -> Ending
    ensures { Translates I.left I.faults O.held O.faults
        input.old input.new out.old out.new result }
{
    match read_all(alloc, input, INPUT_LIMIT) {
        Ok(text) => translate_text(alloc, text, out),
        Err(InputStop::Fault) => Ending::ReadFault,
        Err(InputStop::TooLong) => Ending::Limit(LimitKind::L6),
        Err(InputStop::OutOfMemory) => Ending::OutOfMemory,
    }
}
