//! Rows of the calls that every crate stands on: of `ec_base` and `ec_link`. Each line is a call, and is printed
//! with what it answers. `docs/rows/ROWS.md` has the form of the lines.

mod links;
mod lists;
mod names;
mod streams;
mod words;

use crate::ground::lists::ListStep;
use crate::ground::words::{cut, end_line, numbers};
use ec_base::{Bytes, List, OutOfMemory};
use std::alloc::Global;

/// What is called by a line.
#[derive(Clone, Copy)]
enum Calls {
    Copies,
    Boxed,
    Name,
    Names,
    Read,
    Put,
    Reader,
    Writer,
    Table,
    Link,
    Refusals,
}

/// The word that names each.
const CALLS: [(&str, Calls); 11] = [
    ("copies", Calls::Copies),
    ("boxed", Calls::Boxed),
    ("name", Calls::Name),
    ("names", Calls::Names),
    ("read", Calls::Read),
    ("put", Calls::Put),
    ("reader", Calls::Reader),
    ("writer", Calls::Writer),
    ("table", Calls::Table),
    ("link", Calls::Link),
    ("refusals", Calls::Refusals),
];

// What a word names.
fn calls_of(word: &str) -> Option<Calls> {
    for (written, calls) in CALLS {
        if written == word {
            return Some(calls);
        }
    }
    None
}

// Makes a call, and prints what it answers.
fn make(alloc: Global, calls: Calls, rest: &str, out: &mut Bytes) -> Result<(), OutOfMemory> {
    match calls {
        Calls::Copies => lists::copies(alloc, rest, out),
        Calls::Boxed => lists::boxed(alloc, rest, out),
        Calls::Name => names::name(alloc, rest, out),
        Calls::Names => names::names(out),
        Calls::Read => streams::read(alloc, rest, out),
        Calls::Put => streams::put(alloc, rest, out),
        Calls::Reader => streams::reader(alloc, rest, out),
        Calls::Writer => streams::writer(alloc, rest, out),
        Calls::Table => links::table(alloc, rest, out),
        Calls::Link => links::link(alloc, rest, out),
        Calls::Refusals => links::refusals(alloc, rest, out),
    }
}

// Does what a line says. Where it is a step with a list, that is `list`.
fn follow(
    alloc: Global,
    line: &str,
    list: &mut List<u8>,
    out: &mut Bytes,
) -> Result<(), OutOfMemory> {
    let (word, rest) = cut(line);
    if let Some(step) = ListStep::named(word) {
        lists::step(alloc, step, numbers(alloc, rest)?.as_slice(), list, out)?;
        return lists::show(list, out);
    }
    match calls_of(word) {
        Some(calls) => make(alloc, calls, rest, out),
        None => {
            out.extend_from_slice(b" no call")?;
            end_line(out)
        }
    }
}

/// Shows each line, and behind it what its call answers.
pub fn show(alloc: Global, rows: &str, out: &mut Bytes) -> Result<(), OutOfMemory> {
    let mut list = List::new(alloc);
    for line in rows.lines() {
        out.extend_from_slice(line.as_bytes())?;
        end_line(out)?;
        if !line.is_empty() && !line.starts_with("#") {
            follow(alloc, line, &mut list, out)?;
        }
    }
    Ok(())
}
