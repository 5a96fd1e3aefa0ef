//! Lists and boxes.

use crate::ground::words::{end_line, index, number, numbers, put_number, put_truth, put_word};
use ec_base::{Boxed, Bytes, List, OutOfMemory};
use std::alloc::Global;

/// A step with a list.
#[derive(Clone, Copy)]
pub enum ListStep {
    List,
    Room,
    Push,
    Reserve,
    Extend,
    Length,
    Get,
    Last,
    Pop,
    Set,
    Replace,
    Change,
    ChangeLast,
    Truncate,
    Clear,
    Copy,
    Items,
    Vec,
}

/// The word of each.
const STEPS: [(&str, ListStep); 18] = [
    ("list", ListStep::List),
    ("room", ListStep::Room),
    ("push", ListStep::Push),
    ("reserve", ListStep::Reserve),
    ("extend", ListStep::Extend),
    ("length", ListStep::Length),
    ("get", ListStep::Get),
    ("last", ListStep::Last),
    ("pop", ListStep::Pop),
    ("set", ListStep::Set),
    ("replace", ListStep::Replace),
    ("change", ListStep::Change),
    ("change-last", ListStep::ChangeLast),
    ("truncate", ListStep::Truncate),
    ("clear", ListStep::Clear),
    ("copy", ListStep::Copy),
    ("items", ListStep::Items),
    ("vec", ListStep::Vec),
];

impl ListStep {
    /// The step that a word names.
    pub fn named(word: &str) -> Option<ListStep> {
        for (written, step) in STEPS {
            if written == word {
                return Some(step);
            }
        }
        None
    }
}

// The number at a place, 0 where there is none.
fn at(given: &[u64], place: usize) -> u64 {
    given.get(place).copied().unwrap_or(0)
}

// The low 8 bits of the number at a place.
fn byte_at(given: &[u64], place: usize) -> u8 {
    (at(given, place) % 256) as u8
}

// The low 8 bits of each number.
fn bytes_of(alloc: Global, given: &[u64]) -> Result<Bytes, OutOfMemory> {
    let mut bytes = Bytes::new(alloc);
    for number in given {
        bytes.push((*number % 256) as u8)?;
    }
    Ok(bytes)
}

// Prints an element, or `none`.
fn put_item(out: &mut Bytes, item: Option<u8>) -> Result<(), OutOfMemory> {
    match item {
        Some(item) => put_number(out, u64::from(item)),
        None => put_word(out, b"none"),
    }
}

// Puts an element in the place of another.
fn set(list: &mut List<u8>, place: usize, item: u8) {
    if place < list.len() {
        list.set(place, item);
    }
}

// Puts an element in the place of another, which is handed back.
fn replace(list: &mut List<u8>, place: usize, item: u8) -> Option<u8> {
    if place < list.len() {
        Some(list.replace(place, item))
    } else {
        None
    }
}

// Changes the element that is lent.
fn change(lent: Option<&mut u8>, item: u8) -> bool {
    match lent {
        Some(lent) => {
            *lent = item;
            true
        }
        None => false,
    }
}

/// Does a step with a list, and prints what it answers.
pub fn step(
    alloc: Global,
    step: ListStep,
    given: &[u64],
    list: &mut List<u8>,
    out: &mut Bytes,
) -> Result<(), OutOfMemory> {
    let place = index(at(given, 0));
    match step {
        ListStep::List => begin(list, bytes_of(alloc, given)?),
        ListStep::Room => begin(list, List::with_capacity(alloc, place)?),
        ListStep::Push => list.push(byte_at(given, 0))?,
        ListStep::Reserve => reserve(alloc, list, given)?,
        ListStep::Extend => list.extend_from_slice(bytes_of(alloc, given)?.as_slice())?,
        ListStep::Length => put_length(list, out)?,
        ListStep::Get => put_item(out, list.get(place).copied())?,
        ListStep::Last => put_item(out, list.last().copied())?,
        ListStep::Pop => put_item(out, list.pop())?,
        ListStep::Set => set(list, place, byte_at(given, 1)),
        ListStep::Replace => put_item(out, replace(list, place, byte_at(given, 1)))?,
        ListStep::Change => put_truth(out, change(list.get_mut(place), byte_at(given, 1)))?,
        ListStep::ChangeLast => put_truth(out, change(list.last_mut(), byte_at(given, 0)))?,
        ListStep::Truncate => list.truncate(place),
        ListStep::Clear => list.clear(),
        ListStep::Copy => put_copy(list, out)?,
        ListStep::Items => put_items(alloc, list, out)?,
        ListStep::Vec => put_vec(alloc, list, out)?,
    }
    Ok(())
}

// Takes room for one more element, and puts it there where there is one.
fn reserve(alloc: Global, list: &mut List<u8>, given: &[u64]) -> Result<(), OutOfMemory> {
    match std::mem::replace(list, List::new(alloc)).reserve() {
        Ok(room) => {
            *list = match given {
                [] => room.into_list(),
                _ => room.push_reserved(byte_at(given, 0)),
            };
            Ok(())
        }
        Err(kept) => {
            *list = kept;
            Err(OutOfMemory)
        }
    }
}

// Begins with another list.
fn begin(list: &mut List<u8>, first: List<u8>) {
    *list = first;
}

// Prints the length, and whether the list is empty.
fn put_length(list: &List<u8>, out: &mut Bytes) -> Result<(), OutOfMemory> {
    put_number(out, list.len() as u64)?;
    put_truth(out, list.is_empty())
}

// Prints whether a copy is equal, also when one more element stands in it.
fn put_copy(list: &List<u8>, out: &mut Bytes) -> Result<(), OutOfMemory> {
    let mut copy = list.clone()?;
    put_truth(out, copy == *list)?;
    copy.push(0)?;
    put_truth(out, copy == *list)
}

// Takes the list, and prints its elements.
fn put_items(alloc: Global, list: &mut List<u8>, out: &mut Bytes) -> Result<(), OutOfMemory> {
    let taken = std::mem::replace(list, List::new(alloc));
    for item in taken {
        put_number(out, u64::from(item))?;
    }
    Ok(())
}

// Takes the list to a `Vec` and back.
fn put_vec(alloc: Global, list: &mut List<u8>, out: &mut Bytes) -> Result<(), OutOfMemory> {
    let items = std::mem::replace(list, List::new(alloc)).into_vec();
    put_number(out, items.len() as u64)?;
    *list = List::from_vec(items);
    Ok(())
}

/// Prints a list, behind what the step with it answered.
pub fn show(list: &List<u8>, out: &mut Bytes) -> Result<(), OutOfMemory> {
    put_word(out, b"[")?;
    for item in list.as_slice() {
        put_number(out, u64::from(*item))?;
    }
    put_word(out, b"]")?;
    end_line(out)
}

/// NULL, a text, or a row of fields, each of them a text or NULL.
#[derive(Clone, Debug, PartialEq, Eq, Drop)]
enum Cell {
    Null,
    Text(Bytes),
    Row(List<Option<Bytes>>),
}

// The cell that words describe: none is NULL, one a text, and more a row, where `-` is NULL.
fn make_cell(alloc: Global, words: &str) -> Result<Cell, OutOfMemory> {
    if words.is_empty() {
        return Ok(Cell::Null);
    }
    if !words.contains(" ") {
        return Ok(Cell::Text(Bytes::from_slice(alloc, words.as_bytes())?));
    }
    let mut row = List::new(alloc);
    for word in words.split(" ") {
        row.push(if word == "-" {
            None
        } else {
            Some(Bytes::from_slice(alloc, word.as_bytes())?)
        })?;
    }
    Ok(Cell::Row(row))
}

/// Prints whether a copy of a tree of lists is equal to it, and whether NULL is.
pub fn copies(alloc: Global, words: &str, out: &mut Bytes) -> Result<(), OutOfMemory> {
    let cell = make_cell(alloc, words)?;
    let copy = cell.clone()?;
    put_truth(out, copy == cell)?;
    put_truth(out, Cell::Null == cell)?;
    end_line(out)
}

/// Prints a number that was in a box.
pub fn boxed(alloc: Global, words: &str, out: &mut Bytes) -> Result<(), OutOfMemory> {
    let boxed = Boxed::new(alloc, number(words))?;
    put_number(out, *boxed.get())?;
    put_number(out, boxed.into_inner())?;
    end_line(out)
}
