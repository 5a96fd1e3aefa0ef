//! Bytes that go out.

ghost use Rattle.std.specs.Prelude.{◌≡◌, OnOk, OnErr};
ghost use Rattle.std.specs.Option.{option_map};
ghost use Rattle.ec_meaning_defs.specs.evaluation.Results.{or_no_value};
ghost use Rattle.ec_values.specs.Words.{word_view};
ghost use Rattle.ec_interp.specs.running.Printing.{Prints, PrintsPart, on_errors, on_output};

use ec_base::{Failed, Sink, put_all};
use ec_printf::formats::Channel;
use ec_values::Word;

/// Puts a text on one of the two outputs, whole or, where that fails, its front.
pub(crate) fn put_text<O: Sink, E: Sink>(
    channel: Channel,
    text: &[u8],
    out: &mut O,
    err: &mut E,
) -> Result<(), Failed>
    ensures whole { OnOk result (Prints O.held O.faults E.held E.faults out.old out.new err.old
        err.new (on_output channel text.now) (on_errors channel text.now)) }
    ensures part { OnErr result (PrintsPart O.held O.faults E.held E.faults out.old out.new err.old
        err.new channel text.now) }
{
    match channel {
        Channel::StandardOutput => put_all(out, text),
        Channel::StandardError => put_all(err, text),
    }
}

/// The value of a call that put bytes. Nothing reads that of one without a value.
pub(crate) fn value_of(value: Option<Word>) -> Word
    ensures { word_view result ≡ or_no_value (option_map word_view value) }
{
    match value {
        Some(value) => value,
        None => Word::Signed(0),
    }
}
