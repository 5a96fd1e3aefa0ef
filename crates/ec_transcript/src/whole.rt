//! Transcripts as they are read.
ghost use Rattle.std.specs.Prelude.{◌≡◌, ◌≤◌, ◌<◌, ◌+◌, ◌^◌, List, Some, length, IfOk, IfErr, MatchResult};
ghost use Rattle.ec_transcript.specs.Lines.{readers};
ghost use Rattle.ec_transcript.specs.States.{step};
ghost use Rattle.ec_transcript.specs.States.{Slots};
ghost use Rattle.ec_transcript.specs.Transcripts.{IsTranscript, IsReading, FindsThese};
ghost use Rattle.ec_transcript.specs.declared.version.Version.{Version};
ghost use Rattle.ec_link.specs.declared.logged.Logged.{Logged};
ghost use Rattle.ec_transcript.specs.Views.{state_of, Sound};
ghost use Rattle.ec_transcript.specs.Whole.{upto, at_end, version_of, read_text, Gives, Advances};

use crate::states::{State, step};
use crate::stop::{LineStop, ReadStop};
use crate::version::{Version, header};
use ec_base::{Line, List, Name};
use ec_link::Logged;
use std::alloc::Global;

/// What a transcript tells.
#[derive(Debug, Drop)]
pub struct Transcript {
    /// The slots, and whether each was ready.
    pub slots: List<(bool, Name)>,
    /// What was said over them.
    pub log: List<Logged>,
}

// What stands before the first newline, and from there on.
fn upto(text: &[u8]) -> (&[u8], &[u8])
    ensures line { result.0.now ≡ (upto text.now).0 }
    ensures rest { result.1.now ≡ (upto text.now).1 }
    ensures whole { length result.0.now + length result.1.now ≡ length text.now }
{
    let mut end = 0;
    for byte in text {
        if *byte == b'\n' {
            return text.split_at(end);
        }
        end += 1;
    }
    text.split_at(end)
}

// The state behind a line of that number.
fn advance(
    alloc: Global,
    version: Version,
    state: State,
    line: &[u8],
    number: u32,
) -> Result<State, ReadStop>
    requires { Sound (state_of state) }
    ensures step { Advances result number (step (readers version) (state_of state) line.now) }
    ensures sound { IfOk result (λ it. Sound (state_of it)) }
{
    match step(alloc, version, state, line) {
        Ok(next) => Ok(next),
        Err(LineStop::OutOfMemory) => Err(ReadStop::OutOfMemory),
        Err(LineStop::Bad) => Err(ReadStop::Bad(Line(number))),
    }
}

// The end of a text, which counts as a line.
fn at_end(state: State, rest: &[u8], number: u32) -> Result<Transcript, ReadStop>
    ensures { Gives result (at_end number (state_of state) rest.now) }
{
    match state {
        State::Between(slots, log) if rest.is_empty() => Ok(Transcript { slots, log }),
        _ => Err(ReadStop::Bad(Line(number))),
    }
}

// The version that a first line names, if it names one.
fn version_of(line: &[u8]) -> Version
    ensures { result ≡ version_of line.now }
{
    if line == header(Version::One) {
        Version::One
    } else {
        Version::Two
    }
}

// Reads a text line by line.
fn read_text(alloc: Global, text: &[u8]) -> Result<Transcript, ReadStop>
    requires { length text.now < 2 ^ 31 }
    ensures { Gives result (read_text text.now) }
{
    let mut state = State::Start;
    let mut number: u32 = 1;
    let mut found = upto(text);
    let version = version_of(found.0);
    while let [_, more @ ..] = found.1 {
        state = advance(alloc, version, state, found.0, number)?;
        number += 1;
        found = upto(more);
    }
    at_end(state, found.0, number)
}

/// What a text is the transcript of, in either version, or the first line at which no transcript begins with the lines
/// so far. The end of the text counts as a line. It takes time and memory as the text is long.
pub fn read_transcript(alloc: Global, text: &[u8]) -> Result<Transcript, ReadStop>
    requires { length text.now < 2 ^ 31 }
    ensures reading { IsReading text.now result }
    ensures finds { (version : Version) (slots : Slots) (log : List Logged)
        → IsTranscript version text.now slots log → FindsThese slots log result }
{
    read_text(alloc, text)
}
