//! Rows of transcripts: texts that are read, logs that are written, and links over what was read. They are one section
//! (`ec_rows`). `docs/rows/ROWS.md` has the form of the lines.
#![tactic(auto)]

mod damage;
mod links;
mod made;
mod put;
mod replies;
mod requests;
mod words;
mod wrong;

use crate::made::Made;
use crate::wrong::Wrong;
use ec_base::{Bytes, OutOfMemory};
use ec_rows::{Failure, Sections, show_input, text_of};
use std::alloc::Global;
use std::process::ExitCode;

/// The name of the section.
const SECTION: &[u8] = b"transcripts";

// Does what a line says, and shows what is answered.
fn follow(alloc: Global, made: &mut Made, line: &str, out: &mut Bytes) -> Result<(), OutOfMemory> {
    match made.take(alloc, line, out) {
        Ok(()) => Ok(()),
        Err(Wrong::Form) => out.extend_from_slice(b" no row\n"),
        Err(Wrong::OutOfMemory) => Err(OutOfMemory),
    }
}

// Shows each line, and behind it what is answered.
fn show_rows(alloc: Global, rows: &str, out: &mut Bytes) -> Result<(), OutOfMemory> {
    let mut made = Made::new(alloc);
    for line in rows.lines() {
        out.extend_from_slice(line.as_bytes())?;
        out.push(b'\n')?;
        if !line.is_empty() && !line.starts_with('#') {
            follow(alloc, &mut made, line, out)?;
        }
    }
    Ok(())
}

// The section of this program.
struct Rows;

impl Sections for Rows {
    fn show(
        &self,
        rt: &HostRuntime,
        name: &[u8],
        rows: &[u8],
        out: &mut Bytes,
    ) -> Result<(), Failure> {
        if name != SECTION {
            return Err(Failure::Usage);
        }
        show_rows(rt.alloc(), text_of(rows)?, out)?;
        Ok(())
    }
}

fn main(rt: HostRuntime) -> ExitCode {
    show_input(&rt, &Rows)
}
