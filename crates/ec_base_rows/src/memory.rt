//! Answers rows of questions on layout and memory: `docs/MEMORY.md` has their form.

mod answer;
mod layout;
mod objects;
mod region;
mod words;

use crate::answers::{Answers, Wrong};
use crate::memory::answer::Answer;
use crate::memory::layout::layout_answer;
use crate::memory::objects::memory_answer;
use crate::memory::region::region_answer;
use crate::memory::words::Words;
use ec_base::Bytes;
use ec_bytes::Region;
use ec_ctypes::Structs;
use ec_memory::Store;
use std::alloc::Global;

/// What the rows so far have made.
#[derive(Drop)]
pub struct State {
    structs: Structs,
    store: Store,
    region: Region,
}

impl State {
    /// Nothing is made yet.
    pub fn new(alloc: Global) -> State {
        State {
            structs: Structs::new(alloc),
            store: Store::new(alloc),
            region: Region::new(alloc),
        }
    }
}

// What the first word of a row asks of.
#[derive(Clone, Copy)]
enum Part {
    Layout,
    Memory,
    Region,
    New,
}

const PARTS: [(&str, Part); 4] = [
    ("layout", Part::Layout),
    ("memory", Part::Memory),
    ("region", Part::Region),
    ("new", Part::New),
];

fn part_named(name: &str) -> Option<Part> {
    for (known, part) in PARTS {
        if known == name {
            return Some(part);
        }
    }
    None
}

// The answer to a row.
fn answer_to(alloc: Global, state: &mut State, row: &str) -> Result<Answer, Wrong> {
    let mut words = Words::new(row);
    match part_named(words.next()?) {
        Some(Part::Layout) => layout_answer(alloc, &mut state.structs, &mut words),
        Some(Part::Memory) => memory_answer(alloc, &mut state.store, &mut words),
        Some(Part::Region) => region_answer(alloc, &mut state.region, &mut words),
        Some(Part::New) => {
            *state = State::new(alloc);
            Ok(Answer::Done)
        }
        None => Err(Wrong::Form),
    }
}

impl Answers for State {
    fn answer(&mut self, alloc: Global, row: &str, shown: &mut Bytes) -> Result<(), Wrong> {
        Ok(answer_to(alloc, self, row)?.show(shown)?)
    }
}
