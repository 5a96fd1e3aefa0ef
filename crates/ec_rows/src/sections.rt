//! Sections: the input of a program of rows has one for each subject.
//!
//! A section begins with a line `section NAME`, and the lines from there to the next such line are its rows. What stands
//! before the first section is passed over. Where words stand behind the program's name, they are the name of a section,
//! and the whole input is its rows.

use crate::failure::Failure;
use ec_base::{Bytes, OutOfMemory, StdSink, StdSource, put_all, read_all};
use std::io::ErrorKind;
use std::process::ExitCode;
use std::{env, str};

/// The most bytes of an input.
const MOST: usize = 1 << 28;

/// What the line begins with that begins a section.
const MARKER: &[u8] = b"section ";

/// What a program shows of the sections that it knows.
pub trait Sections {
    /// Shows the rows of the section of this name.
    fn show(
        &self,
        rt: &HostRuntime,
        name: &[u8],
        rows: &[u8],
        out: &mut Bytes,
    ) -> Result<(), Failure>;
}

/// Rows as text, where they are UTF-8.
pub fn text_of(rows: &[u8]) -> Result<&str, Failure> {
    match str::from_utf8(rows) {
        Ok(text) => Ok(text),
        Err(_) => Err(Failure::Input),
    }
}

// The words behind the program's name, with blanks between them, or nothing where one of them is no text.
fn given_name(rt: &HostRuntime) -> Result<Bytes, OutOfMemory> {
    let mut name = Bytes::new(rt.alloc());
    match env::args(rt) {
        Ok(words) => {
            for word in words.skip(1) {
                if !name.is_empty() {
                    name.push(b' ')?;
                }
                name.extend_from_slice(word.as_bytes())?;
            }
            Ok(name)
        }
        Err(error) => match error.kind() {
            ErrorKind::OutOfMemory => Err(OutOfMemory),
            _ => Ok(name),
        },
    }
}

// Shows the line that begins a section, and the section.
fn show_section<S: Sections>(
    rt: &HostRuntime,
    sections: &S,
    name: &[u8],
    rows: &[u8],
    out: &mut Bytes,
) -> Result<(), Failure> {
    if name.is_empty() {
        return Ok(());
    }
    out.extend_from_slice(MARKER)?;
    out.extend_from_slice(name)?;
    out.push(b'\n')?;
    sections.show(rt, name, rows, out)
}

// Shows each section of an input.
fn show_sections<S: Sections>(
    rt: &HostRuntime,
    sections: &S,
    input: &[u8],
    out: &mut Bytes,
) -> Result<(), Failure> {
    let mut name = Bytes::new(rt.alloc());
    let mut rows = Bytes::new(rt.alloc());
    for line in input.split_inclusive(|byte| *byte == b'\n') {
        match line.strip_prefix(MARKER) {
            Some(named) => {
                show_section(rt, sections, name.as_slice(), rows.as_slice(), out)?;
                name.clear();
                name.extend_from_slice(named.strip_suffix(b"\n").unwrap_or(named))?;
                rows.clear();
            }
            None => rows.extend_from_slice(line)?,
        }
    }
    show_section(rt, sections, name.as_slice(), rows.as_slice(), out)
}

// Shows what standard input has.
fn show_read<S: Sections>(rt: &HostRuntime, sections: &S, out: &mut Bytes) -> Result<(), Failure> {
    let name = given_name(rt)?;
    let input = read_all(rt.alloc(), &mut StdSource::new(rt.stdin()), MOST)?;
    if name.is_empty() {
        show_sections(rt, sections, input.as_slice(), out)
    } else {
        sections.show(rt, name.as_slice(), input.as_slice(), out)
    }
}

/// Puts what is shown of standard input on standard output, also where it is a part, and gives the exit status.
pub fn show_input<S: Sections>(rt: &HostRuntime, sections: &S) -> ExitCode {
    let mut out = Bytes::new(rt.alloc());
    let shown = show_read(rt, sections, &mut out);
    if put_all(&mut StdSink::new(rt.stdout()), out.as_slice()).is_err() {
        return ExitCode::from(Failure::Output.status());
    }
    match shown {
        Ok(()) => ExitCode::from(0),
        Err(failure) => {
            if let Failure::Form(number) = failure {
                let _ = eprintln!(rt; "line {number} of its section has no form of a row");
            }
            ExitCode::from(failure.status())
        }
    }
}
