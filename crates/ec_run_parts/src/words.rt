//! What words of the command line name. Each line is a list of words, and is printed with the command that they ask for.
//! `docs/rows/ROWS.md` has the form of the lines.

use crate::line::unescaped;
use crate::show::{put_number, put_quoted};
use ec_base::{Bytes, List, OutOfMemory};
use ec_words::{Command, LinkSpec, RunWords, read_words};
use std::alloc::Global;
use std::str;

// The words of a line, behind the first, or none where one of them is no text.
fn words_of(alloc: Global, row: &[u8]) -> Result<Option<Vec<String>>, OutOfMemory> {
    let mut words = Vec::new(alloc);
    for word in row.split(|b| *b == b' ').skip(1) {
        let bytes = unescaped(alloc, word)?;
        match str::from_utf8(bytes.as_slice()) {
            Ok(text) => words.push(String::from_str(alloc, text)?)?,
            Err(_) => return Ok(None),
        }
    }
    Ok(Some(words))
}

// Shows the name of a link, and whether its connection is ready.
fn put_name(shown: &mut Bytes, ready: bool, target: &[u8]) -> Result<(), OutOfMemory> {
    let word: &[u8] = if ready { b" ready " } else { b" free " };
    shown.extend_from_slice(word)?;
    put_quoted(shown, target)
}

// Shows a link.
fn put_link(shown: &mut Bytes, link: &LinkSpec) -> Result<(), OutOfMemory> {
    match link {
        LinkSpec::Memory { ready, target } => {
            put_name(shown, *ready, target.as_slice())?;
            shown.extend_from_slice(b" memory")
        }
        LinkSpec::File {
            ready,
            target,
            path,
        } => {
            put_name(shown, *ready, target.as_slice())?;
            shown.extend_from_slice(b" file ")?;
            put_quoted(shown, path.as_slice())
        }
        LinkSpec::Replay(path) => {
            shown.extend_from_slice(b" replay ")?;
            put_quoted(shown, path.as_slice())
        }
    }
}

// Shows a number behind a word, and links.
fn put_asked(
    shown: &mut Bytes,
    word: &[u8],
    number: u64,
    links: &List<LinkSpec>,
) -> Result<(), OutOfMemory> {
    shown.extend_from_slice(word)?;
    put_number(shown, number)?;
    for link in links.as_slice() {
        put_link(shown, link)?;
    }
    Ok(())
}

// Shows a run behind its command.
fn put_run(shown: &mut Bytes, word: &[u8], run: &RunWords) -> Result<(), OutOfMemory> {
    put_asked(shown, word, run.turns, &run.links)
}

// Shows a command.
fn put_command(shown: &mut Bytes, command: &Command) -> Result<(), OutOfMemory> {
    match command {
        Command::Translate => shown.extend_from_slice(b"translate"),
        Command::Exec(run) => put_run(shown, b"exec ", run),
        Command::Run(run) => put_run(shown, b"run ", run),
        Command::Record(run) => put_run(shown, b"record ", run),
        Command::Gen(program) => put_asked(
            shown,
            b"gen ",
            u64::from(program.number),
            &program.links,
        ),
    }
}

// Shows what words ask for.
fn put_answer(alloc: Global, shown: &mut Bytes, words: &[String]) -> Result<(), OutOfMemory> {
    match read_words(alloc, words)? {
        Some(command) => put_command(shown, &command),
        None => shown.extend_from_slice(b"none"),
    }
}

// A line with what its words ask for. Empty lines and remarks have none.
fn show_row(alloc: Global, shown: &mut Bytes, row: &str) -> Result<(), OutOfMemory> {
    shown.extend_from_slice(row.as_bytes())?;
    if !row.is_empty() && !row.starts_with('#') {
        shown.extend_from_slice(b" = ")?;
        match words_of(alloc, row.as_bytes())? {
            Some(words) => put_answer(alloc, shown, words.as_slice())?,
            None => shown.extend_from_slice(b"no text")?,
        }
    }
    shown.push(b'\n')
}

/// Shows each line with what its words ask for.
pub fn show_rows(alloc: Global, rows: &str, shown: &mut Bytes) -> Result<(), OutOfMemory> {
    for row in rows.lines() {
        show_row(alloc, shown, row)?;
    }
    Ok(())
}
