//! Rows of whole runs of the tool, of calls of the library, and of words of the command line. Each subject has its section
//! (`ec_rows`).
#![tactic(auto)]

mod runs;

use ec_base::Bytes;
use ec_rows::{Failure, Sections, show_input, text_of};
use ec_run_parts::{calls, words};
use std::process::ExitCode;

// What the rows of a section are about.
#[derive(Clone, Copy)]
enum Subject {
    Runs,
    Calls,
    Words,
}

/// The name of each section.
const SUBJECTS: [(&str, Subject); 3] = [
    ("runs", Subject::Runs),
    ("calls", Subject::Calls),
    ("words", Subject::Words),
];

// The subject of this name.
fn subject_named(name: &[u8]) -> Option<Subject> {
    for (known, subject) in SUBJECTS {
        if known.as_bytes() == name {
            return Some(subject);
        }
    }
    None
}

// The sections of this program.
struct Rows;

impl Sections for Rows {
    fn show(
        &self,
        rt: &HostRuntime,
        name: &[u8],
        rows: &[u8],
        out: &mut Bytes,
    ) -> Result<(), Failure> {
        match subject_named(name).ok_or(Failure::Usage)? {
            Subject::Runs => runs::show_rows(rt.alloc(), rows, out),
            Subject::Calls => Ok(calls::show_rows(rt.alloc(), text_of(rows)?, out)?),
            Subject::Words => Ok(words::show_rows(rt.alloc(), text_of(rows)?, out)?),
        }
    }
}

fn main(rt: HostRuntime) -> ExitCode {
    show_input(&rt, &Rows)
}
