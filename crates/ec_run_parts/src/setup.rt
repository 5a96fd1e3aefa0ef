//! What a row gives a call, line by line.

use crate::line::{Word, cut, number, numbers, quoted, unescaped, word_of};
use crate::place::Place;
use ec_base::{Bytes, InputStop, List, Name, OutOfMemory};
use ec_rows::Failure;
use std::alloc::Global;

/// Why the rows were not gone through.
#[derive(Clone, Copy, Debug)]
pub enum Stop {
    /// A line has no form of a row.
    Form,
    /// What a call left of its input can't be read.
    Input,
    OutOfMemory,
}

impl From<OutOfMemory> for Stop {
    fn from(_refused: OutOfMemory) -> Stop {
        Stop::OutOfMemory
    }
}

impl From<InputStop> for Stop {
    fn from(stop: InputStop) -> Stop {
        match stop {
            InputStop::OutOfMemory => Stop::OutOfMemory,
            InputStop::Fault | InputStop::TooLong => Stop::Input,
        }
    }
}

impl Stop {
    /// Why the rows stop at the line of this number.
    pub fn at(self, number: u32) -> Failure {
        match self {
            Stop::Form => Failure::Form(number),
            Stop::Input => Failure::Input,
            Stop::OutOfMemory => Failure::OutOfMemory,
        }
    }
}

// Sets a number of bytes.
fn set_size(size: &mut usize, rest: &[u8]) -> Result<(), Stop> {
    match number(rest) {
        Some(value) => {
            *size = value as usize;
            Ok(())
        }
        None => Err(Stop::Form),
    }
}

/// Sets a list of numbers.
pub fn set_numbers(alloc: Global, list: &mut List<u64>, rest: &[u8]) -> Result<(), Stop> {
    match numbers(alloc, rest)? {
        Some(values) => {
            *list = values;
            Ok(())
        }
        None => Err(Stop::Form),
    }
}

/// What a call is given.
#[derive(Drop)]
pub struct Given {
    pub title: Bytes,
    /// The words, each behind a blank.
    pub words: Bytes,
    /// The bytes that a read gives and a put takes, at most.
    pub chunk: usize,
    /// The bytes that the output holds, at most.
    pub room: usize,
    /// The reads, the puts of the program and the puts of the last line that fail.
    pub reads: List<u64>,
    pub puts: List<u64>,
    pub last: List<u64>,
    pub places: List<Place>,
}

impl Given {
    // The call `run` over objects that never fail, and a rack without slots.
    fn new(alloc: Global, title: &[u8]) -> Result<Given, OutOfMemory> {
        Ok(Given {
            title: List::from_slice(alloc, title)?,
            words: List::from_slice(alloc, b"run")?,
            chunk: 4096,
            room: 4096,
            reads: List::new(alloc),
            puts: List::new(alloc),
            last: List::new(alloc),
            places: List::new(alloc),
        })
    }

    // Takes a line that says what the call is given.
    fn take(&mut self, alloc: Global, word: Word, rest: &[u8]) -> Result<(), Stop> {
        match word {
            Word::Words => self.words(alloc, rest),
            Word::Chunk => set_size(&mut self.chunk, rest),
            Word::Room => set_size(&mut self.room, rest),
            Word::Reads => set_numbers(alloc, &mut self.reads, rest),
            Word::Puts => set_numbers(alloc, &mut self.puts, rest),
            Word::Last => set_numbers(alloc, &mut self.last, rest),
            Word::Slot => self.slot(alloc, rest),
            _ => self.over(alloc, word, rest),
        }
    }

    // The words of the command line.
    fn words(&mut self, alloc: Global, rest: &[u8]) -> Result<(), Stop> {
        self.words = List::from_slice(alloc, rest)?;
        Ok(())
    }

    // A slot: `ready` or `free`, and its name.
    fn slot(&mut self, alloc: Global, line: &[u8]) -> Result<(), Stop> {
        let (word, rest) = cut(line, b' ');
        let name = quoted(alloc, rest)?.ok_or(Stop::Form)?;
        let name = Name::from_slice(alloc, name.as_slice())?;
        self.places
            .push(Place::new(alloc, word == b"ready".as_slice(), name))?;
        Ok(())
    }

    // A line that belongs to the last slot.
    fn over(&mut self, alloc: Global, word: Word, rest: &[u8]) -> Result<(), Stop> {
        match self.places.last_mut() {
            Some(place) => place.take(alloc, word, rest),
            None => Err(Stop::Form),
        }
    }
}

/// What is to be done behind a line.
#[derive(Clone, Copy)]
pub enum Act {
    /// To take the next line.
    Next,
    /// To make the call.
    Call,
    /// To show each kind of ending.
    Endings,
}

/// The source, which stays until the next one, and what the next call is given.
#[derive(Drop)]
pub struct Setup {
    pub source: Bytes,
    pub given: Given,
}

impl Setup {
    /// Nothing yet.
    pub fn new(alloc: Global) -> Result<Setup, OutOfMemory> {
        Ok(Setup {
            source: List::new(alloc),
            given: Given::new(alloc, b"")?,
        })
    }

    /// Takes a line, and says what is to be done behind it: at `go` the call is made.
    pub fn take(&mut self, alloc: Global, line: &[u8]) -> Result<Act, Stop> {
        let (text, rest) = cut(line, b' ');
        let Some(word) = word_of(text) else {
            return Err(Stop::Form);
        };
        match word {
            Word::Statuses => return Ok(Act::Endings),
            Word::Go => return Ok(Act::Call),
            _ => self.given_line(alloc, word, rest)?,
        }
        Ok(Act::Next)
    }

    // A line that says what the call is given.
    fn given_line(&mut self, alloc: Global, word: Word, rest: &[u8]) -> Result<(), Stop> {
        match word {
            Word::Nothing => Ok(()),
            Word::Row => self.row(alloc, rest),
            Word::Source | Word::Line | Word::More | Word::Times => {
                self.source_line(alloc, word, rest)
            }
            _ => self.given.take(alloc, word, rest),
        }
    }

    // The beginning of a row.
    fn row(&mut self, alloc: Global, title: &[u8]) -> Result<(), Stop> {
        self.given = Given::new(alloc, title)?;
        Ok(())
    }

    // A line that makes the source.
    fn source_line(&mut self, alloc: Global, word: Word, rest: &[u8]) -> Result<(), Stop> {
        match word {
            Word::Source => {
                self.source.clear();
                Ok(())
            }
            Word::Line => self.line(rest).map_err(|_| Stop::OutOfMemory),
            Word::More => self.more(alloc, rest),
            _ => self.lines(rest),
        }
    }

    // Bytes of the source.
    fn more(&mut self, alloc: Global, rest: &[u8]) -> Result<(), Stop> {
        let more = unescaped(alloc, rest)?;
        self.source.extend_from_slice(more.as_slice())?;
        Ok(())
    }

    // A line of the source.
    fn line(&mut self, line: &[u8]) -> Result<(), OutOfMemory> {
        self.source.extend_from_slice(line)?;
        self.source.push(b'\n')
    }

    // The same line so many times.
    fn lines(&mut self, rest: &[u8]) -> Result<(), Stop> {
        let (word, line) = cut(rest, b' ');
        let count = number(word).ok_or(Stop::Form)?;
        for _ in 0..count {
            self.line(line)?;
        }
        Ok(())
    }
}
