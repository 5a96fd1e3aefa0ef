//! Questions on the bytes of an object.

ghost use Rattle.std.specs.Prelude.{◌≡◌, ◌+◌, ◌≤◌, Some, [], ◌∷◌, length};
ghost use Rattle.std.specs.Bool.{OnTrue};
ghost use Rattle.ec_memory_defs.specs.Cells.{set_cells, written};

use crate::answers::Wrong;
use crate::memory::answer::Answer;
use crate::memory::words::Words;
use ec_base::Bytes;
use ec_bytes::{I16, I32, Region, Scalar, U16};
use std::alloc::Global;

// What is asked.
#[derive(Clone, Copy)]
enum Task {
    Extend,
    Cut,
    Length,
    Bytes,
    Run,
    Write,
    Fill,
    Copy,
    Unset,
    View,
    Back,
    SetFour,
    SetTwo,
    SetBoth,
}

const TASKS: [(&str, Task); 14] = [
    ("extend", Task::Extend),
    ("cut", Task::Cut),
    ("length", Task::Length),
    ("bytes", Task::Bytes),
    ("run", Task::Run),
    ("write", Task::Write),
    ("fill", Task::Fill),
    ("copy", Task::Copy),
    ("unset", Task::Unset),
    ("view", Task::View),
    ("back", Task::Back),
    ("set-four", Task::SetFour),
    ("set-two", Task::SetTwo),
    ("set-both", Task::SetBoth),
];

fn task_named(name: &str) -> Option<Task> {
    for (known, task) in TASKS {
        if known == name {
            return Some(task);
        }
    }
    None
}

// Writes four bytes. The cells are known again once the view has ended.
fn set_four(region: &mut Region)
    requires { 8 ≤ length region.old }
    ensures { region.new ≡ written region.old 4 (Some 7 ∷ Some 0 ∷ Some 0 ∷ Some 0 ∷ []) }
{
    let mut view = region.view_mut::<I32>(4);
    view.set(I32(7));
}

// Writes two of three values, and so they are once the strided view has ended.
fn set_two(region: &mut Region)
    requires { 11 ≤ length region.old }
    ensures { region.new
        ≡ written (written region.old 1 (Some 254 ∷ Some 255 ∷ [])) 9 (Some 2 ∷ Some 1 ∷ []) }
{
    let mut places = region.stride_mut::<I16>(1, 3, 4);
    places.set(0, I16(-2));
    places.set(2, I16(258));
}

// Writes two values, the second first, and whether both are read back.
fn set_both(region: &mut Region) -> bool
    requires { 6 ≤ length region.old }
{
    let mut places = region.stride_mut::<U16>(1, 2, 3);
    places.set(1, U16(0x0102));
    places.set(0, U16(0x0304));
    places.get(0) == Some(U16(0x0304)) && places.get(1) == Some(U16(0x0102))
}

// A value is read back.
#[tactic(auto, using(ec_bytes::proofs::Places::value_back))]
fn put_and_get<T: Scalar>(region: &mut Region, at: usize, value: T) -> Option<T>
    requires inside { at + T.SIZE ≤ length region.old }
    requires in_range { T.in_range value }
    ensures value { result ≡ Some value }
    ensures cells { region.new ≡ written region.old at (set_cells (T.encode value)) }
    ensures length { length region.new ≡ length region.old }
{
    let mut view = region.view_mut::<T>(at);
    view.set(value);
    view.get()
}

// Whether so many cells lie in a region.
fn is_inside(region: &Region, at: usize, n: usize) -> bool
    ensures { OnTrue result (at + n ≤ length region.now) }
{
    match at.checked_add(n) {
        Some(end) => end <= region.len(),
        None => false,
    }
}

fn extend(region: &mut Region, n: usize) -> Answer {
    match region.extend(n) {
        Ok(start) => Answer::Number(start as i128),
        Err(_) => Answer::Word("no memory"),
    }
}

fn cut(region: &mut Region, len: usize) -> Result<Answer, Wrong> {
    if len > region.len() {
        return Err(Wrong::Form);
    }
    region.cut(len);
    Ok(Answer::Done)
}

fn bytes(alloc: Global, region: &Region, at: usize, n: usize) -> Result<Answer, Wrong> {
    if !is_inside(region, at, n) {
        return Err(Wrong::Form);
    }
    match region.bytes(at, n) {
        Some(bytes) => Ok(Answer::Bytes(Bytes::from_slice(alloc, bytes)?)),
        None => Ok(Answer::Absent),
    }
}

fn run(alloc: Global, region: &Region, at: usize, n: usize) -> Result<Answer, Wrong> {
    if !is_inside(region, at, n) {
        return Err(Wrong::Form);
    }
    Ok(Answer::Bytes(Bytes::from_slice(alloc, region.run(at, n))?))
}

fn write(region: &mut Region, at: usize, piece: &[u8]) -> Result<Answer, Wrong> {
    if !is_inside(region, at, piece.len()) {
        return Err(Wrong::Form);
    }
    region.write(at, piece);
    Ok(Answer::Done)
}

fn fill(region: &mut Region, at: usize, n: usize, byte: u8) -> Result<Answer, Wrong> {
    if !is_inside(region, at, n) {
        return Err(Wrong::Form);
    }
    region.fill(at, n, byte);
    Ok(Answer::Done)
}

fn copy(region: &mut Region, from: usize, to: usize, n: usize) -> Result<Answer, Wrong> {
    if !is_inside(region, from, n) || !is_inside(region, to, n) {
        return Err(Wrong::Form);
    }
    region.copy(from, to, n);
    Ok(Answer::Done)
}

fn unset(region: &mut Region, at: usize, n: usize) -> Result<Answer, Wrong> {
    if !is_inside(region, at, n) {
        return Err(Wrong::Form);
    }
    region.unset(at, n);
    Ok(Answer::Done)
}

// The number in the two cells at a place, through a view.
fn view(region: &Region, at: usize) -> Result<Answer, Wrong> {
    if !is_inside(region, at, 2) {
        return Err(Wrong::Form);
    }
    match region.view::<U16>(at).get() {
        Some(value) => Ok(Answer::Number(i128::from(value.0))),
        None => Ok(Answer::Absent),
    }
}

// Writes a number of two bytes, and reads it back.
fn back(region: &mut Region, at: usize, number: u16) -> Result<Answer, Wrong> {
    if !is_inside(region, at, 2) {
        return Err(Wrong::Form);
    }
    match put_and_get(region, at, U16(number)) {
        Some(value) => Ok(Answer::Number(i128::from(value.0))),
        None => Ok(Answer::Absent),
    }
}

// The answer to a question that writes what it says itself.
fn fixed(region: &mut Region, task: Task) -> Result<Answer, Wrong> {
    if region.len() < 11 {
        return Err(Wrong::Form);
    }
    match task {
        Task::SetFour => set_four(region),
        Task::SetTwo => set_two(region),
        _ => {
            if !set_both(region) {
                return Ok(Answer::Absent);
            }
        }
    }
    Ok(Answer::Done)
}

// The answer to a question on the cells from a place on.
fn answer_at(
    alloc: Global,
    region: &mut Region,
    task: Task,
    at: usize,
    words: &mut Words<'_>,
) -> Result<Answer, Wrong> {
    match task {
        Task::Bytes => bytes(alloc, region, at, words.place()?),
        Task::Run => run(alloc, region, at, words.place()?),
        Task::Write => write(region, at, words.bytes(alloc)?.as_slice()),
        Task::Fill => {
            let n = words.place()?;
            fill(region, at, n, words.byte()?)
        }
        Task::Copy => {
            let to = words.place()?;
            copy(region, at, to, words.place()?)
        }
        Task::Unset => unset(region, at, words.place()?),
        Task::View => view(region, at),
        _ => match words.next()?.parse::<u16>() {
            Ok(number) => back(region, at, number),
            Err(_) => Err(Wrong::Form),
        },
    }
}

/// The answer to a question on a region.
pub fn region_answer(
    alloc: Global,
    region: &mut Region,
    words: &mut Words<'_>,
) -> Result<Answer, Wrong> {
    match task_named(words.next()?) {
        Some(Task::Extend) => Ok(extend(region, words.place()?)),
        Some(Task::Cut) => cut(region, words.place()?),
        Some(Task::Length) => Ok(Answer::Number(region.len() as i128)),
        Some(Task::SetFour) => fixed(region, Task::SetFour),
        Some(Task::SetTwo) => fixed(region, Task::SetTwo),
        Some(Task::SetBoth) => fixed(region, Task::SetBoth),
        Some(task) => {
            let at = words.place()?;
            answer_at(alloc, region, task, at, words)
        }
        None => Err(Wrong::Form),
    }
}
