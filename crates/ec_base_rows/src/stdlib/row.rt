//! Rows, and what they ask.

use crate::answers::Wrong;
use crate::stdlib::answer::{show_call, show_word};
use crate::stdlib::format::part_of;
use ec_base::{Bytes, List};
use ec_bytes::Ptr;
use ec_memory::Store;
use ec_printf::formats::{Channel, Known};
use ec_stdlib::call;
use ec_values::Word;
use std::alloc::Global;
use std::str::SplitWhitespace;

// The functions but for `printf`.
#[derive(Clone, Copy)]
enum Name {
    Puts,
    Putchar,
    Strlen,
    Strcmp,
    Strncmp,
    Memcmp,
    Strcpy,
    Strncpy,
    Strcat,
    Memcpy,
    Memset,
    Exit,
    Sqlprint,
}

const NAMES: [(&str, Name); 13] = [
    ("puts", Name::Puts),
    ("putchar", Name::Putchar),
    ("strlen", Name::Strlen),
    ("strcmp", Name::Strcmp),
    ("strncmp", Name::Strncmp),
    ("memcmp", Name::Memcmp),
    ("strcpy", Name::Strcpy),
    ("strncpy", Name::Strncpy),
    ("strcat", Name::Strcat),
    ("memcpy", Name::Memcpy),
    ("memset", Name::Memset),
    ("exit", Name::Exit),
    ("sqlprint", Name::Sqlprint),
];

fn function_named(name: &str) -> Option<Known> {
    for (known, it) in NAMES {
        if known == name {
            return Some(function(it));
        }
    }
    None
}

fn function(name: Name) -> Known {
    match name {
        Name::Puts => Known::Puts,
        Name::Putchar => Known::Putchar,
        Name::Strlen => Known::Strlen,
        Name::Strcmp => Known::Strcmp,
        Name::Strncmp => Known::Strncmp,
        Name::Memcmp => Known::Memcmp,
        Name::Strcpy => Known::Strcpy,
        Name::Strncpy => Known::Strncpy,
        Name::Strcat => Known::Strcat,
        Name::Memcpy => Known::Memcpy,
        Name::Memset => Known::Memset,
        Name::Exit => Known::Exit,
        Name::Sqlprint => Known::Sqlprint,
    }
}

/// Answers a row.
pub fn answer_to(
    alloc: Global,
    memory: &mut Store,
    shown: &mut Bytes,
    row: &str,
) -> Result<(), Wrong> {
    let mut words = row.split_whitespace();
    match words.next() {
        Some("text") => match words.next() {
            Some(word) => make_text(memory, shown, word.as_bytes()),
            None => Err(Wrong::Form),
        },
        Some("unset") => match words.next() {
            Some(word) => make_unset(memory, shown, word),
            None => Err(Wrong::Form),
        },
        Some("printf") => print(alloc, memory, shown, &mut words),
        Some(name) => match function_named(name) {
            Some(known) => call_known(alloc, memory, shown, &known, &mut words),
            None => Err(Wrong::Form),
        },
        None => Err(Wrong::Form),
    }
}

// Makes an object that holds a text.
fn make_text(memory: &mut Store, shown: &mut Bytes, text: &[u8]) -> Result<(), Wrong> {
    if text.len() > 1000 {
        return Err(Wrong::Form);
    }
    let ptr = memory.make_zeroed(text.len() as u64 + 1)?;
    let _ = memory.put(ptr, text);
    show_word(shown, Word::Address(ptr))
}

// Makes an object of so many unset bytes.
fn make_unset(memory: &mut Store, shown: &mut Bytes, word: &str) -> Result<(), Wrong> {
    let size = word.parse::<u64>().map_err(|_| Wrong::Form)?;
    if size == 0 || size > 1000 {
        return Err(Wrong::Form);
    }
    let ptr = memory.make(size)?;
    show_word(shown, Word::Address(ptr))
}

// Calls a function with the arguments that are left.
fn call_known(
    alloc: Global,
    memory: &mut Store,
    shown: &mut Bytes,
    known: &Known,
    words: &mut SplitWhitespace,
) -> Result<(), Wrong> {
    let mut arguments = List::new(alloc);
    for word in words {
        arguments.push(argument_of(word)?)?;
    }
    let mut text = Bytes::new(alloc);
    let outcome = call(known, memory, arguments.as_slice(), &mut text);
    show_call(shown, outcome, text.as_slice())
}

// Calls `printf`: the parts of its format, a `,`, and the arguments.
fn print(
    alloc: Global,
    memory: &mut Store,
    shown: &mut Bytes,
    words: &mut SplitWhitespace,
) -> Result<(), Wrong> {
    let mut parts = List::new(alloc);
    while let Some(word) = words.next() {
        if word == "," {
            break;
        }
        parts.push(part_of(alloc, word)?)?;
    }
    call_known(
        alloc,
        memory,
        shown,
        &Known::Print(Channel::StandardOutput, parts),
        words,
    )
}

// A number, or a pointer that is written `OBJECT:OFFSET`.
fn argument_of(word: &str) -> Result<Word, Wrong> {
    if let Some((object, offset)) = word.split_once(':') {
        let object = object.parse::<u32>().map_err(|_| Wrong::Form)?;
        let offset = offset.parse::<u32>().map_err(|_| Wrong::Form)?;
        return Ok(Word::Address(Ptr(u64::from(object) << 32 | u64::from(offset))));
    }
    if let Ok(number) = word.parse::<i64>() {
        return Ok(Word::Signed(number));
    }
    match word.parse::<u64>() {
        Ok(number) => Ok(Word::Unsigned(number)),
        Err(_) => Err(Wrong::Form),
    }
}
