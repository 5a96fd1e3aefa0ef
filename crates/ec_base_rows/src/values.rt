//! Answers rows of questions on values that pass between a program and its statements: `docs/STORING.md` has their form.

mod answer;
mod area;
mod host;
mod words;

use crate::answers::{Answers, Wrong};
use crate::values::area::area_answer;
use crate::values::host::{make_bytes, make_unset, send, show_cells, store};
use crate::values::words::Words;
use ec_base::Bytes;
use ec_memory::Store;
use std::alloc::Global;

// What the first word of a row asks.
#[derive(Clone, Copy)]
enum Task {
    New,
    Bytes,
    Unset,
    Send,
    Store,
    Show,
    Area,
}

const TASKS: [(&str, Task); 7] = [
    ("new", Task::New),
    ("bytes", Task::Bytes),
    ("unset", Task::Unset),
    ("send", Task::Send),
    ("store", Task::Store),
    ("show", Task::Show),
    ("area", Task::Area),
];

fn task_named(name: &str) -> Option<Task> {
    for (known, task) in TASKS {
        if known == name {
            return Some(task);
        }
    }
    None
}

// Answers a row.
fn answer_to(alloc: Global, memory: &mut Store, shown: &mut Bytes, row: &str) -> Result<(), Wrong> {
    let mut words = Words::new(row);
    match task_named(words.next()?) {
        Some(Task::New) => {
            *memory = Store::new(alloc);
            Ok(())
        }
        Some(Task::Bytes) => make_bytes(alloc, memory, &mut words),
        Some(Task::Unset) => make_unset(memory, &mut words),
        Some(Task::Send) => send(alloc, memory, &mut words, shown),
        Some(Task::Store) => store(alloc, memory, &mut words, shown),
        Some(Task::Show) => show_cells(memory, &mut words, shown),
        Some(Task::Area) => area_answer(alloc, &mut words, shown),
        None => Err(Wrong::Form),
    }
}

/// The memory that the rows so far have made.
#[derive(Drop)]
pub struct Values {
    memory: Store,
}

impl Values {
    /// Nothing is made yet.
    pub fn new(alloc: Global) -> Values {
        Values {
            memory: Store::new(alloc),
        }
    }
}

impl Answers for Values {
    fn answer(&mut self, alloc: Global, row: &str, shown: &mut Bytes) -> Result<(), Wrong> {
        answer_to(alloc, &mut self.memory, shown, row)
    }
}
