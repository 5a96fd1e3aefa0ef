//! What the rows so far have made, and what is done with it.

use crate::damage::{cuts, drops, lines, reading};
use crate::links::{ask, links_of, show_said};
use crate::put::{put_bad, put_transcript};
use crate::replies::reply_of;
use crate::requests::request_of;
use crate::words::{name, unescaped};
use crate::wrong::Wrong;
use ec_base::{Bytes, List, Name, OutOfMemory};
use ec_link::{Logged, Request};
use ec_replay::Replayed;
use ec_transcript::{Transcript, write_transcript};
use std::alloc::Global;

/// A text, slots with a log, and links.
#[derive(Drop)]
pub struct Made {
    text: Bytes,
    slots: List<(bool, Name)>,
    log: List<Logged>,
    /// The slot of the next exchange.
    over: Option<u32>,
    /// Its request, once it was told.
    request: Option<Request>,
    /// The links over the text that was replayed last.
    links: List<Replayed>,
}

// What the first word of a line asks for.
#[derive(Clone, Copy)]
enum Task {
    New,
    Line,
    More,
    Times,
    Read,
    With,
    Cuts,
    Drops,
    Skips,
    Doubles,
    Slot,
    Over,
    Write,
    Replay,
    Ask,
    Said,
}

const TASKS: [(&str, Task); 16] = [
    ("new", Task::New),
    ("|", Task::Line),
    ("+", Task::More),
    ("times", Task::Times),
    ("read", Task::Read),
    ("with", Task::With),
    ("cuts", Task::Cuts),
    ("drops", Task::Drops),
    ("skips", Task::Skips),
    ("doubles", Task::Doubles),
    ("slot", Task::Slot),
    ("over", Task::Over),
    ("write", Task::Write),
    ("replay", Task::Replay),
    ("ask", Task::Ask),
    ("said", Task::Said),
];

fn task_named(word: &str) -> Option<Task> {
    for (known, task) in TASKS {
        if known == word {
            return Some(task);
        }
    }
    None
}

// A word, and what stands behind its blank.
fn cut(line: &str) -> (&str, &str) {
    line.split_once(" ").unwrap_or((line, ""))
}

// The number that a word is.
fn number_of(word: &str) -> Result<usize, Wrong> {
    word.parse::<usize>().map_err(|_| Wrong::Form)
}

// The number of the read that is to fail, if a word names one.
fn failing(alloc: Global, word: &str) -> Result<List<u64>, Wrong> {
    let mut numbers = List::new(alloc);
    if !word.is_empty() {
        numbers.push(word.parse::<u64>().map_err(|_| Wrong::Form)?)?;
    }
    Ok(numbers)
}

// Puts a line with its newline.
fn put_line(text: &mut Bytes, line: &str) -> Result<(), OutOfMemory> {
    text.extend_from_slice(line.as_bytes())?;
    text.push(b'\n')
}

// Puts each line of a text behind a blank.
fn put_lines(out: &mut Bytes, text: &[u8]) -> Result<(), OutOfMemory> {
    for line in text.split_inclusive(|byte| *byte == b'\n') {
        out.push(b' ')?;
        out.extend_from_slice(line)?;
    }
    Ok(())
}

// How a text that was read is written again: all of it, or all behind the first line.
fn again(text: &[u8], written: &[u8]) -> &'static [u8] {
    if text == written {
        return b" written the same\n";
    }
    match (
        text.strip_prefix(b"ecpg-transcript 1\n"),
        written.strip_prefix(b"ecpg-transcript 2\n"),
    ) {
        (Some(one), Some(two)) if one == two => b" written with the first line of version 2\n",
        _ => b" written otherwise\n",
    }
}

// Shows what a text is the transcript of, and whether it is written so again; or the line at which it is none.
fn show_read(alloc: Global, text: &[u8], out: &mut Bytes) -> Result<(), Wrong> {
    match reading(alloc, text)? {
        Err(line) => put_bad(out, line.0)?,
        Ok(Transcript { slots, log }) => {
            put_transcript(out, &slots, &log)?;
            let written = write_transcript(alloc, &slots, log.as_slice())?;
            out.extend_from_slice(again(text, written.as_slice()))?;
        }
    }
    Ok(())
}

impl Made {
    /// Nothing yet.
    pub fn new(alloc: Global) -> Made {
        Made {
            text: Bytes::new(alloc),
            slots: List::new(alloc),
            log: List::new(alloc),
            over: None,
            request: None,
            links: List::new(alloc),
        }
    }

    /// Does what a line says.
    pub fn take(&mut self, alloc: Global, line: &str, out: &mut Bytes) -> Result<(), Wrong> {
        let (word, rest) = cut(line);
        match task_named(word) {
            Some(task) => self.follow(alloc, task, rest, out),
            None => self.say(alloc, line),
        }
    }

    // Does what a word asks for.
    fn follow(
        &mut self,
        alloc: Global,
        task: Task,
        rest: &str,
        out: &mut Bytes,
    ) -> Result<(), Wrong> {
        match task {
            Task::New => *self = Made::new(alloc),
            Task::Line => put_line(&mut self.text, rest)?,
            Task::More => self.more(alloc, rest)?,
            Task::Times => self.times(rest)?,
            Task::Slot => self.slot(alloc, rest)?,
            Task::Over => self.over(rest)?,
            Task::Read => show_read(alloc, self.text.as_slice(), out)?,
            Task::With => self.with(alloc, rest, out)?,
            Task::Cuts => cuts(alloc, self.text.as_slice(), out)?,
            Task::Drops => drops(alloc, self.text.as_slice(), out)?,
            Task::Skips => lines(alloc, self.text.as_slice(), 0, out)?,
            Task::Doubles => lines(alloc, self.text.as_slice(), 2, out)?,
            Task::Write => self.write(alloc, out)?,
            Task::Replay => self.replay(alloc, rest, out)?,
            Task::Ask => self.ask(alloc, rest, out)?,
            Task::Said => show_said(&self.links, number_of(rest)?, out)?,
        }
        Ok(())
    }

    // Adds bytes to the text.
    fn more(&mut self, alloc: Global, rest: &str) -> Result<(), Wrong> {
        let more = unescaped(alloc, rest.as_bytes())?;
        self.text.extend_from_slice(more.as_slice())?;
        Ok(())
    }

    // Adds the same line so many times.
    fn times(&mut self, rest: &str) -> Result<(), Wrong> {
        let (count, line) = cut(rest);
        let count = count.parse::<u32>().map_err(|_| Wrong::Form)?;
        for _ in 0..count {
            put_line(&mut self.text, line)?;
        }
        Ok(())
    }

    // Adds a slot.
    fn slot(&mut self, alloc: Global, rest: &str) -> Result<(), Wrong> {
        let (mark, target) = cut(rest);
        let ready = match mark {
            "ready" => true,
            "free" => false,
            _ => return Err(Wrong::Form),
        };
        self.slots.push((ready, name(alloc, target)?))?;
        Ok(())
    }

    // Names the slot of the exchanges that follow.
    fn over(&mut self, rest: &str) -> Result<(), Wrong> {
        self.over = match rest {
            "-" => None,
            _ => Some(rest.parse::<u32>().map_err(|_| Wrong::Form)?),
        };
        Ok(())
    }

    // Takes a request, or the reply to the last one.
    fn say(&mut self, alloc: Global, line: &str) -> Result<(), Wrong> {
        match self.request.take() {
            None => self.request = Some(request_of(alloc, line)?),
            Some(request) => self.log.push(Logged {
                slot: self.over,
                request,
                reply: reply_of(alloc, line)?,
            })?,
        }
        Ok(())
    }

    // Shows what is read of the text with one line more.
    fn with(&self, alloc: Global, line: &str, out: &mut Bytes) -> Result<(), Wrong> {
        let mut longer = Bytes::from_slice(alloc, self.text.as_slice())?;
        put_line(&mut longer, line)?;
        show_read(alloc, longer.as_slice(), out)
    }

    // Shows the transcript of the slots and the log, which is the text from then on.
    fn write(&mut self, alloc: Global, out: &mut Bytes) -> Result<(), Wrong> {
        self.text = write_transcript(alloc, &self.slots, self.log.as_slice())?;
        put_lines(out, self.text.as_slice())?;
        Ok(())
    }

    // Shows the links over the text, which are asked from then on.
    fn replay(&mut self, alloc: Global, word: &str, out: &mut Bytes) -> Result<(), Wrong> {
        let failing = failing(alloc, word)?;
        self.links = links_of(alloc, self.text.as_slice(), failing.as_slice(), out)?;
        Ok(())
    }

    // Asks a link.
    fn ask(&mut self, alloc: Global, rest: &str, out: &mut Bytes) -> Result<(), Wrong> {
        let (number, line) = cut(rest);
        let number = number_of(number)?;
        let request = request_of(alloc, line)?;
        ask(&mut self.links, number, &request, out)
    }
}
