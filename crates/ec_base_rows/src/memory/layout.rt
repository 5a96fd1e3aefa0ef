//! Questions on types and structs.

ghost use Rattle.std.specs.Prelude.{◌≡◌, ◌<◌, IfOk};
ghost use Rattle.ec_ctypes.specs.trees.Types.{array as array_of};
ghost use Rattle.ec_ctypes.specs.views.Types.{ty_view};

use crate::answers::Wrong;
use crate::memory::answer::Answer;
use crate::memory::words::{Words, arith_named};
use ec_base::{Boxed, List, Name, OutOfMemory};
use ec_ctypes::{
    Arith, Shape, StructDef, Structs, Ty, copy_ty, layout, member, same_ty, type_shape,
};
use std::alloc::Global;

// What is asked.
#[derive(Clone, Copy)]
enum Task {
    Struct,
    Size,
    Member,
    Chain,
    Pairs,
    Ints,
    Same,
}

const TASKS: [(&str, Task); 7] = [
    ("struct", Task::Struct),
    ("size", Task::Size),
    ("member", Task::Member),
    ("chain", Task::Chain),
    ("pairs", Task::Pairs),
    ("ints", Task::Ints),
    ("same", Task::Same),
];

fn task_named(name: &str) -> Option<Task> {
    for (known, task) in TASKS {
        if known == name {
            return Some(task);
        }
    }
    None
}

fn array(alloc: Global, element: Ty, count: u64) -> Result<Ty, OutOfMemory>
    ensures { IfOk result (λ ty. ty_view ty ≡ array_of (ty_view element) count) }
{
    Ok(Ty::Array(Boxed::new(alloc, element)?, count))
}

// The type that is no array and no pointer: `void`, an integer type, or `#` and the number of a struct.
fn element(word: &str) -> Result<Ty, Wrong> {
    if let Some(id) = word.strip_prefix('#') {
        return id.parse::<u32>().map(Ty::Struct).map_err(|_| Wrong::Form);
    }
    match arith_named(word) {
        Some(arith) => Ok(Ty::from(arith)),
        None if word == "void" => Ok(Ty::Void),
        None => Err(Wrong::Form),
    }
}

// The type of pointers to this type, or of arrays of it.
fn wrapped(alloc: Global, ty: Ty, part: &str) -> Result<Ty, Wrong> {
    if part == "*" {
        return Ok(Ty::Ptr(Boxed::new(alloc, ty)?));
    }
    match part.parse::<u64>() {
        Ok(count) => Ok(array(alloc, ty, count)?),
        Err(_) => Err(Wrong::Form),
    }
}

/// A type: an element, and behind each dot `*` for pointers to what stands before it, or a count for an array of it.
pub fn type_of(alloc: Global, word: &str) -> Result<Ty, Wrong> {
    let mut parts = word.split('.');
    let mut ty = element(parts.next().ok_or(Wrong::Form)?)?;
    for part in parts {
        ty = wrapped(alloc, ty, part)?;
    }
    Ok(ty)
}

// The size and the alignment of a type. Where it has a shape, `layout` gives that shape.
fn shape_answer(structs: &Structs, ty: &Ty) -> Answer {
    if type_shape(structs, ty).is_none() {
        return Answer::Absent;
    }
    shape_or_limit(layout(structs, ty).ok())
}

fn shape_or_limit(shape: Option<Shape>) -> Answer {
    match shape {
        Some(shape) => Answer::Shape(shape),
        None => Answer::Word("limit L1"),
    }
}

// Adds a member, which is written `NAME:TYPE`.
fn add_member(alloc: Global, members: &mut List<(Name, Ty)>, word: &str) -> Result<(), Wrong> {
    match word.split_once(':') {
        Some((name, ty)) => {
            let name = Name::from_slice(alloc, name.as_bytes())?;
            members.push((name, type_of(alloc, ty)?))?;
            Ok(())
        }
        None => Err(Wrong::Form),
    }
}

fn define(structs: &mut Structs, members: List<(Name, Ty)>) -> Result<(), OutOfMemory> {
    structs.push(StructDef {
        tag: None,
        varchar: false,
        members,
    })
}

// The number of the struct that was added last.
fn last_id(structs: &Structs) -> u32 {
    let last = structs.as_slice().len().saturating_sub(1);
    u32::try_from(last).unwrap_or(u32::MAX)
}

// Adds a struct with the members that the words give.
fn add_struct(
    alloc: Global,
    structs: &mut Structs,
    words: &mut Words<'_>,
) -> Result<Answer, Wrong> {
    let mut members = List::new(alloc);
    for word in words.rest.by_ref() {
        add_member(alloc, &mut members, word)?;
    }
    define(structs, members)?;
    Ok(shape_answer(structs, &Ty::Struct(last_id(structs))))
}

// Where a member stands, and the shape of its type.
fn member_answer(structs: &Structs, id: u32, name: &Name) -> Answer {
    if type_shape(structs, &Ty::Struct(id)).is_none() {
        return Answer::Absent;
    }
    match member(structs, id, name) {
        Some((offset, ty)) => match type_shape(structs, ty) {
            Some(shape) => Answer::Place(offset, shape),
            None => Answer::Absent,
        },
        None => Answer::Absent,
    }
}

// The size and the alignment of the type that the next word is.
fn size_answer(alloc: Global, structs: &Structs, words: &mut Words<'_>) -> Result<Answer, Wrong> {
    let ty = type_of(alloc, words.next()?)?;
    Ok(shape_answer(structs, &ty))
}

// Where the member stands that the next words name.
fn named_answer(alloc: Global, structs: &Structs, words: &mut Words<'_>) -> Result<Answer, Wrong> {
    let id = words.id()?;
    let name = Name::from_slice(alloc, words.next()?.as_bytes())?;
    Ok(member_answer(structs, id, &name))
}

// Adds a struct with one member or two, `a` and `b`, of this type.
fn add_holder(
    alloc: Global,
    structs: &mut Structs,
    ty: Ty,
    is_pair: bool,
) -> Result<(), OutOfMemory> {
    let mut members = List::new(alloc);
    if is_pair {
        members.push((Name::from_slice(alloc, b"b")?, copy_ty(alloc, &ty)?))?;
    }
    members.push((Name::from_slice(alloc, b"a")?, ty))?;
    define(structs, members)
}

// Adds a struct of so many bytes, and then structs of which each holds the one before it, or holds it twice.
fn add_chain(
    alloc: Global,
    structs: &mut Structs,
    words: &mut Words<'_>,
    is_pair: bool,
) -> Result<Answer, Wrong> {
    let bytes = words.number()?;
    let count = words.number()?;
    add_holder(alloc, structs, array(alloc, Ty::Char, bytes)?, false)?;
    for _turn in 0..count {
        let before = last_id(structs);
        add_holder(alloc, structs, Ty::Struct(before), is_pair)?;
    }
    Ok(shape_answer(structs, &Ty::Struct(last_id(structs))))
}

// The layout of an array of arrays of `int`.
fn int_rows(alloc: Global, rows: u64, columns: u64) -> Result<Answer, OutOfMemory>
    requires rows { 0 < rows }
    requires columns { 0 < columns }
{
    let ty = array(alloc, array(alloc, Ty::Int, columns)?, rows)?;
    Ok(shape_or_limit(layout(&Structs::new(alloc), &ty).ok()))
}

fn int_rows_answer(alloc: Global, words: &mut Words<'_>) -> Result<Answer, Wrong> {
    let rows = words.number()?;
    let columns = words.number()?;
    if rows == 0 || columns == 0 {
        return Err(Wrong::Form);
    }
    Ok(int_rows(alloc, rows, columns)?)
}

// Whether a copy of one type is another.
fn same_answer(alloc: Global, words: &mut Words<'_>) -> Result<Answer, Wrong> {
    let one = Boxed::new(alloc, type_of(alloc, words.next()?)?)?;
    let other = Boxed::new(alloc, type_of(alloc, words.next()?)?)?;
    let copy = Boxed::new(alloc, copy_ty(alloc, one.get())?)?;
    if same_ty(copy.get(), other.get()) {
        Ok(Answer::Word("yes"))
    } else {
        Ok(Answer::Word("no"))
    }
}

/// The answer to a question on types and structs.
pub fn layout_answer(
    alloc: Global,
    structs: &mut Structs,
    words: &mut Words<'_>,
) -> Result<Answer, Wrong> {
    match task_named(words.next()?) {
        Some(Task::Struct) => add_struct(alloc, structs, words),
        Some(Task::Size) => size_answer(alloc, structs, words),
        Some(Task::Member) => named_answer(alloc, structs, words),
        Some(Task::Chain) => add_chain(alloc, structs, words, false),
        Some(Task::Pairs) => add_chain(alloc, structs, words, true),
        Some(Task::Ints) => int_rows_answer(alloc, words),
        Some(Task::Same) => same_answer(alloc, words),
        None => Err(Wrong::Form),
    }
}
