//! Texts from which something is missing, or in which it stands twice, and what is read of each of them.

use crate::put::{put_bad, put_number};
use crate::wrong::Wrong;
use ec_base::{Bytes, Line, OutOfMemory};
use ec_transcript::{ReadStop, Transcript, read_transcript};
use std::alloc::Global;

/// The most bytes of a text that is read.
const MOST: usize = 1 << 24;

/// What is read of a text: its transcript, or the line at which it is none.
pub fn reading(alloc: Global, text: &[u8]) -> Result<Result<Transcript, Line>, Wrong> {
    if text.len() > MOST {
        return Err(Wrong::Form);
    }
    match read_transcript(alloc, text) {
        Ok(found) => Ok(Ok(found)),
        Err(ReadStop::Bad(line)) => Ok(Err(line)),
        Err(ReadStop::OutOfMemory) => Err(Wrong::OutOfMemory),
    }
}

/// The line at which a text is no transcript, or 0 where it is one.
fn refusal(alloc: Global, text: &[u8]) -> Result<u32, Wrong> {
    match reading(alloc, text)? {
        Ok(_) => Ok(0),
        Err(line) => Ok(line.0),
    }
}

/// Texts in a row of which the same is answered.
#[derive(Clone, Copy)]
struct Run {
    first: usize,
    last: usize,
    refusal: u32,
}

impl Run {
    // Puts what is answered of these texts.
    fn put(&self, out: &mut Bytes) -> Result<(), OutOfMemory> {
        out.push(b' ')?;
        put_number(out, self.first as u64)?;
        out.push(b' ')?;
        put_number(out, self.last as u64)?;
        match self.refusal {
            0 => out.extend_from_slice(b" read\n"),
            line => put_bad(out, line),
        }
    }
}

// The run with one text more, or the next one, where this one is put.
fn then(
    run: Option<Run>,
    at: usize,
    refusal: u32,
    out: &mut Bytes,
) -> Result<Option<Run>, OutOfMemory> {
    let first = match run {
        Some(run) if run.refusal == refusal => run.first,
        Some(run) => {
            run.put(out)?;
            at
        }
        None => at,
    };
    Ok(Some(Run {
        first,
        last: at,
        refusal,
    }))
}

// Puts the last run.
fn end(run: Option<Run>, out: &mut Bytes) -> Result<(), Wrong> {
    if let Some(run) = run {
        run.put(out)?;
    }
    Ok(())
}

/// Shows what is read of each front of a text, by the numbers of its bytes.
pub fn cuts(alloc: Global, text: &[u8], out: &mut Bytes) -> Result<(), Wrong> {
    let mut run = then(None, 0, refusal(alloc, &[])?, out)?;
    let mut front = Bytes::new(alloc);
    for byte in text {
        front.push(*byte)?;
        let refusal = refusal(alloc, front.as_slice())?;
        run = then(run, front.len(), refusal, out)?;
    }
    end(run, out)
}

// A text without the byte at a place.
fn without(alloc: Global, text: &[u8], at: usize) -> Result<Bytes, OutOfMemory> {
    let mut left = Bytes::new(alloc);
    for (place, byte) in text.iter().enumerate() {
        if place != at {
            left.push(*byte)?;
        }
    }
    Ok(left)
}

/// Shows what is read of a text without each of its bytes, by their places.
pub fn drops(alloc: Global, text: &[u8], out: &mut Bytes) -> Result<(), Wrong> {
    let mut run = None;
    for at in 0..text.len() {
        let left = without(alloc, text, at)?;
        let refusal = refusal(alloc, left.as_slice())?;
        run = then(run, at, refusal, out)?;
    }
    end(run, out)
}

// A text that has the line of a number, counted from 1, so many times.
fn with_line(
    alloc: Global,
    text: &[u8],
    number: usize,
    times: usize,
) -> Result<Bytes, OutOfMemory> {
    let mut made = Bytes::new(alloc);
    let mut place: usize = 0;
    for line in text.split_inclusive(|byte| *byte == b'\n') {
        place = place.saturating_add(1);
        let count = if place == number { times } else { 1 };
        for _ in 0..count {
            made.extend_from_slice(line)?;
        }
    }
    Ok(made)
}

/// Shows what is read of a text that has one of its lines so many times, by the numbers of the lines.
pub fn lines(alloc: Global, text: &[u8], times: usize, out: &mut Bytes) -> Result<(), Wrong> {
    let mut run = None;
    let mut number: usize = 0;
    for _ in text.split_inclusive(|byte| *byte == b'\n') {
        number = number.saturating_add(1);
        let made = with_line(alloc, text, number, times)?;
        let refusal = refusal(alloc, made.as_slice())?;
        run = then(run, number, refusal, out)?;
    }
    end(run, out)
}
