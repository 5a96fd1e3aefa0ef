//! Transcripts as they are replayed.
ghost use Rattle.std.specs.Prelude.{◌≡◌, ◌<◌, ◌≤◌, length, IfOk, IfErr};
ghost use Rattle.ec_replay.specs.Replay.{most, replayed, links_of, Replays};
ghost use Rattle.ec_replay.specs.Stops.{IsReplay, Stops};

use crate::stop::ReplayStop;
use crate::transcript_link::TranscriptLink;
use ec_base::{List, Name, OutOfMemory, Source, read_all};
use ec_transcript::{Transcript, read_transcript};
use std::alloc::Global;

/// A transcript that is replayed has at most so many bytes.
const TRANSCRIPT_LIMIT: usize = 1 << 24;

/// A slot of a transcript, with the link that replays its part.
#[derive(Debug, Drop)]
pub struct Replayed {
    /// Whether its connection was ready at the start.
    pub ready: bool,
    /// The name of its server.
    pub target: Name,
    /// The link.
    pub link: TranscriptLink,
}

// A slot with its link.
fn with_link(
    alloc: Global,
    transcript: &Transcript,
    slot: &(bool, Name),
    number: u32,
) -> Result<Replayed, OutOfMemory>
    requires { number < length transcript.now.slots }
    ensures { IfOk result (λ it. it ≡ replayed slot.now number transcript.now.log) }
{
    let ready = slot.0;
    let target = slot.1.clone()?;
    Ok(Replayed {
        ready,
        target,
        link: TranscriptLink::new(alloc, transcript, number)?,
    })
}

// Each slot with its link.
fn links_of(alloc: Global, transcript: &Transcript) -> Result<List<Replayed>, OutOfMemory>
    requires { length transcript.now.slots ≤ 64 }
    ensures { IfOk result (λ links. links ≡ links_of transcript.now.slots transcript.now.log) }
{
    let mut links = List::new(alloc);
    let mut number: u32 = 0;
    for slot in transcript.slots.as_slice() {
        links.push(with_link(alloc, transcript, slot, number)?)?;
        number += 1;
    }
    Ok(links)
}

// The links of a whole text.
fn replay_text(alloc: Global, text: &[u8]) -> Result<List<Replayed>, ReplayStop>
    requires { length text.now ≤ most }
    ensures { IsReplay text.now result }
{
    let transcript = read_transcript(alloc, text)?;
    Ok(links_of(alloc, &transcript)?)
}

/// Reads a transcript to its end, and gives for each of its slots, in order, whether it was ready, the name of its
/// server, and the link that replays its part.
///
/// It stops with the read by which more than 2^24 bytes have come. What was read is gone from the source, whatever the
/// answer.
pub fn replay<T: Source>(alloc: Global, transcript: &mut T) -> Result<List<Replayed>, ReplayStop>
    ensures ok { IfOk result (Replays T.left T.faults transcript.old transcript.new) }
    ensures err { IfErr result (Stops T.left T.faults transcript.old transcript.new) }
{
    let text = read_all(alloc, transcript, TRANSCRIPT_LIMIT)?;
    replay_text(alloc, text.as_slice())
}
