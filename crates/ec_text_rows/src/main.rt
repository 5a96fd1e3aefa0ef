//! Rows of texts: their pieces, tokens and trees, embedded statements, what the checks say of programs, and what is written
//! of them. Each subject has its section (`ec_rows`). What is shown of one text alone is a section too, `tokens` say.
#![tactic(auto)]

mod checks;
mod printer;
mod rewriting;
mod statements;
mod texts;

use crate::printer::Printer;
use ec_base::Bytes;
use ec_rows::{Failure, Sections, show_input, text_of};
use std::alloc::Global;
use std::process::ExitCode;

// What the rows of a section are about.
#[derive(Clone, Copy)]
enum Subject {
    Texts,
    Statements,
    Checks,
    Rewriting,
}

/// The name of each section that has rows.
const SUBJECTS: [(&str, Subject); 4] = [
    ("texts", Subject::Texts),
    ("statements", Subject::Statements),
    ("checks", Subject::Checks),
    ("rewriting", Subject::Rewriting),
];

// The subject of this name.
fn subject_named(name: &[u8]) -> Option<Subject> {
    for (known, subject) in SUBJECTS {
        if known.as_bytes() == name {
            return Some(subject);
        }
    }
    None
}

// Shows the rows of a subject.
fn show_rows(alloc: Global, subject: Subject, rows: &[u8], out: &mut Bytes) -> Result<(), Failure> {
    let mut printer = Printer::new(alloc);
    match subject {
        Subject::Texts => texts::show_rows(alloc, &mut printer, text_of(rows)?)?,
        Subject::Statements => statements::show_rows(alloc, &mut printer, rows)?,
        Subject::Checks => checks::check_rows(alloc, out, text_of(rows)?)?,
        Subject::Rewriting => rewriting::rewrite_rows(alloc, out, text_of(rows)?)?,
    }
    Ok(out.extend_from_slice(printer.as_slice())?)
}

// Shows one text.
fn show_text(alloc: Global, name: &[u8], text: &[u8], out: &mut Bytes) -> Result<(), Failure> {
    let task = texts::task_named(name).ok_or(Failure::Usage)?;
    let mut printer = Printer::new(alloc);
    texts::show(alloc, &mut printer, task, text)?;
    Ok(out.extend_from_slice(printer.as_slice())?)
}

// The sections of this program.
struct Rows;

impl Sections for Rows {
    fn show(
        &self,
        rt: &HostRuntime,
        name: &[u8],
        rows: &[u8],
        out: &mut Bytes,
    ) -> Result<(), Failure> {
        match subject_named(name) {
            Some(subject) => show_rows(rt.alloc(), subject, rows, out),
            None => show_text(rt.alloc(), name, rows, out),
        }
    }
}

fn main(rt: HostRuntime) -> ExitCode {
    show_input(&rt, &Rows)
}
