//! Rows of what stands at the bottom: lists, streams and links, layout and memory, values, the functions that programs
//! call, and SQLite. Each subject has its section (`ec_rows`).
#![tactic(auto)]

mod answers;
mod ground;
mod memory;
mod sqlite;
mod stdlib;
mod values;

use crate::memory::State;
use crate::stdlib::Calls;
use crate::values::Values;
use ec_base::Bytes;
use ec_rows::{Failure, Sections, show_input, text_of};
use std::process::ExitCode;

// What the rows of a section are about.
#[derive(Clone, Copy)]
enum Subject {
    Ground,
    Memory,
    Values,
    Stdlib,
    Sqlite,
}

/// The name of each section.
const SUBJECTS: [(&str, Subject); 5] = [
    ("ground", Subject::Ground),
    ("memory", Subject::Memory),
    ("values", Subject::Values),
    ("stdlib", Subject::Stdlib),
    ("sqlite", Subject::Sqlite),
];

// The subject of this name.
fn subject_named(name: &[u8]) -> Option<Subject> {
    for (known, subject) in SUBJECTS {
        if known.as_bytes() == name {
            return Some(subject);
        }
    }
    None
}

// The sections of this program.
struct Rows;

impl Sections for Rows {
    fn show(
        &self,
        rt: &HostRuntime,
        name: &[u8],
        rows: &[u8],
        out: &mut Bytes,
    ) -> Result<(), Failure> {
        let alloc = rt.alloc();
        let subject = subject_named(name).ok_or(Failure::Usage)?;
        let rows = text_of(rows)?;
        match subject {
            Subject::Ground => ground::show(alloc, rows, out)?,
            Subject::Memory => answers::show(alloc, &mut State::new(alloc), rows, out)?,
            Subject::Values => answers::show(alloc, &mut Values::new(alloc), rows, out)?,
            Subject::Stdlib => answers::show(alloc, &mut Calls::new(alloc), rows, out)?,
            Subject::Sqlite => sqlite::show(rt, rows, out)?,
        }
        Ok(())
    }
}

fn main(rt: HostRuntime) -> ExitCode {
    show_input(&rt, &Rows)
}
