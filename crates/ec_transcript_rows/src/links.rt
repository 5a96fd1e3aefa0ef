//! Links over the text of a transcript, and what is said over them.

use crate::put::{put_bad, put_number, put_reply, put_said, put_slot};
use crate::wrong::Wrong;
use ec_base::{Bytes, List, MemSource, OutOfMemory};
use ec_link::{Link, Request};
use ec_replay::{ReplayStop, Replayed, replay};
use std::alloc::Global;

/// The most bytes that a read of a text gives.
const PIECE: usize = 4096;

// Puts the slots of links.
fn put_links(out: &mut Bytes, links: &[Replayed]) -> Result<(), OutOfMemory> {
    for one in links {
        put_slot(out, one.ready, one.target.as_slice())?;
    }
    out.extend_from_slice(b" replayed\n")
}

// Puts why a text isn't replayed.
fn put_stop(out: &mut Bytes, stop: ReplayStop) -> Result<(), OutOfMemory> {
    match stop {
        ReplayStop::Bad(line) => put_bad(out, line.0),
        ReplayStop::TooLong => out.extend_from_slice(b" too long\n"),
        ReplayStop::ReadFault => out.extend_from_slice(b" read fault\n"),
        ReplayStop::OutOfMemory => Err(OutOfMemory),
    }
}

/// Shows the links of a text, of which the reads that `failing` names fail, and gives them.
pub fn links_of(
    alloc: Global,
    text: &[u8],
    failing: &[u64],
    out: &mut Bytes,
) -> Result<List<Replayed>, OutOfMemory> {
    let mut source = MemSource::new(alloc, text, PIECE, failing)?;
    match replay(alloc, &mut source) {
        Ok(links) => {
            put_links(out, links.as_slice())?;
            Ok(links)
        }
        Err(stop) => {
            put_stop(out, stop)?;
            Ok(List::new(alloc))
        }
    }
}

/// Asks the link of a number, and shows its reply.
pub fn ask(
    links: &mut List<Replayed>,
    number: usize,
    request: &Request,
    out: &mut Bytes,
) -> Result<(), Wrong> {
    let one = links.get_mut(number).ok_or(Wrong::Form)?;
    let reply = one.link.ask(request)?;
    put_reply(out, &reply)?;
    Ok(())
}

/// Shows what was said over the link of a number, and how often it broke.
pub fn show_said(links: &List<Replayed>, number: usize, out: &mut Bytes) -> Result<(), Wrong> {
    let one = links.get(number).ok_or(Wrong::Form)?;
    for said in one.link.said() {
        put_said(out, &said.0, &said.1)?;
    }
    out.extend_from_slice(b" broke ")?;
    put_number(out, one.link.broke())?;
    out.push(b'\n')?;
    Ok(())
}
