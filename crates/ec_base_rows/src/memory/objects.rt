//! Questions on the memory of a C program.

ghost use Rattle.std.specs.Prelude.{◌≡◌, ◌+◌, MatchOption, Ok, [], ◌∷◌, MatchResult};
ghost use Rattle.std.specs.Bool.{OnTrue};
ghost use Rattle.ec_memory_defs.specs.Kinds.{kind_type};
ghost use Rattle.ec_memory_defs.specs.Memory.{Memory, Fits, integer_type, pointer_type, and_then, put};
ghost use Rattle.ec_memory.specs.Values.{value_view};

use crate::answers::Wrong;
use crate::memory::answer::{Answer, bytes, count, done, made, pointer, value};
use crate::memory::layout::type_of;
use crate::memory::words::Words;
use ec_base::Trap;
use ec_bytes::{I16, Ptr};
use ec_ctypes::Arith;
use ec_memory::{Store, Value, difference, order};
use ec_memory_defs::Kind;
use std::alloc::Global;
use std::cmp::Ordering;

// What is asked.
#[derive(Clone, Copy)]
enum Task {
    Make,
    MakeZeroed,
    Turns,
    Mark,
    End,
    Put,
    Fill,
    Copy,
    Unset,
    Span,
    Text,
    TextUpTo,
    Load,
    LoadType,
    Store,
    StoreType,
    Move,
    MoveWide,
    Difference,
    Order,
    Element,
    Set,
    SetTwo,
}

const TASKS: [(&str, Task); 23] = [
    ("make", Task::Make),
    ("make-zeroed", Task::MakeZeroed),
    ("turns", Task::Turns),
    ("mark", Task::Mark),
    ("end", Task::End),
    ("put", Task::Put),
    ("fill", Task::Fill),
    ("copy", Task::Copy),
    ("unset", Task::Unset),
    ("span", Task::Span),
    ("text", Task::Text),
    ("text-up-to", Task::TextUpTo),
    ("load", Task::Load),
    ("load-type", Task::LoadType),
    ("store", Task::Store),
    ("store-type", Task::StoreType),
    ("move", Task::Move),
    ("move-wide", Task::MoveWide),
    ("difference", Task::Difference),
    ("order", Task::Order),
    ("element", Task::Element),
    ("set", Task::Set),
    ("set-two", Task::SetTwo),
];

fn task_named(name: &str) -> Option<Task> {
    for (known, task) in TASKS {
        if known == name {
            return Some(task);
        }
    }
    None
}

// The integer type of a kind, or `None` of a pointer.
fn arith_of(kind: Kind) -> Option<Arith>
    ensures { MatchOption result (kind_type kind ≡ pointer_type)
        (λ t. kind_type kind ≡ integer_type t) }
{
    match kind {
        Kind::Bool => Some(Arith::Bool),
        Kind::Char => Some(Arith::Char),
        Kind::UChar => Some(Arith::UChar),
        Kind::Short => Some(Arith::Short),
        Kind::UShort => Some(Arith::UShort),
        Kind::Int => Some(Arith::Int),
        Kind::UInt => Some(Arith::UInt),
        Kind::Long => Some(Arith::Long),
        Kind::ULong => Some(Arith::ULong),
        Kind::LLong => Some(Arith::LLong),
        Kind::ULLong => Some(Arith::ULLong),
        Kind::Ptr => None,
    }
}

// Whether a value is one of a type.
fn fits(kind: Kind, value: Value) -> bool
    ensures { OnTrue result (Fits (kind_type kind) (value_view value)) }
{
    match (arith_of(kind), value) {
        (Some(arith), Value::Int(number)) => arith.least() <= number && number <= arith.greatest(),
        (None, Value::Ptr(_)) => true,
        (Some(_), Value::Ptr(_)) | (None, Value::Int(_)) => false,
    }
}

// The value of a type that the next word is.
fn value_in(words: &mut Words<'_>, kind: Kind) -> Result<Value, Wrong> {
    if kind == Kind::Ptr {
        return Ok(Value::Ptr(words.pointer()?));
    }
    Ok(Value::Int(words.wide()?))
}

fn store_answer(store: &mut Store, ptr: Ptr, words: &mut Words<'_>) -> Result<Answer, Wrong> {
    let kind = words.kind()?;
    let stored = value_in(words, kind)?;
    if !fits(kind, stored) {
        return Err(Wrong::Form);
    }
    Ok(done(store.store_kind(ptr, kind, stored)))
}

fn load_answer(store: &Store, ptr: Ptr, words: &mut Words<'_>) -> Result<Answer, Wrong> {
    let kind = words.kind()?;
    Ok(value(store.load_kind(ptr, kind)))
}

// Makes an object of so many bytes, all zero or all unset.
fn make_answer(store: &mut Store, size: u64, zeroed: bool) -> Result<Answer, Wrong> {
    if size == 0 || size > 1 << 24 {
        return Err(Wrong::Form);
    }
    if zeroed {
        made(store.make_zeroed(size))
    } else {
        made(store.make(size))
    }
}

// Makes so many objects of 8 zero bytes, each of which ends before the next one. The answer is how many were zero.
fn turns_answer(store: &mut Store, turns: u32) -> Result<Answer, Wrong> {
    let mut zero: u32 = 0;
    for _turn in 0..turns {
        let mark = store.mark();
        let Ok(ptr) = store.make_zeroed(8) else {
            return Err(Wrong::OutOfMemory);
        };
        if store.load_kind(ptr, Kind::Long) == Ok(Value::Int(0)) {
            zero = zero.saturating_add(1);
        }
        store.end_to(mark);
    }
    Ok(Answer::Number(i128::from(zero)))
}

// The name of an order.
fn order_name(order: Ordering) -> &'static str {
    match order {
        Ordering::Less => "less",
        Ordering::Equal => "equal",
        Ordering::Greater => "greater",
    }
}

fn order_answer(one: Ptr, words: &mut Words<'_>) -> Result<Answer, Wrong> {
    let other = words.pointer()?;
    Ok(Answer::Word(order_name(order(one, other))))
}

fn move_by(store: &Store, ptr: Ptr, words: &mut Words<'_>) -> Result<Answer, Wrong> {
    let by = words.signed()?;
    let size = words.number()?;
    Ok(pointer(store.move_ptr(ptr, by, size)))
}

fn move_by_wide(store: &Store, ptr: Ptr, words: &mut Words<'_>) -> Result<Answer, Wrong> {
    let by = words.wide()?;
    let size = words.number()?;
    Ok(pointer(store.move_ptr_wide(ptr, by, size)))
}

fn difference_answer(to: Ptr, words: &mut Words<'_>) -> Result<Answer, Wrong> {
    let from = words.pointer()?;
    let size = words.number()?;
    if size == 0 || size > 1 << 24 {
        return Err(Wrong::Form);
    }
    Ok(count(difference(to, from, size)))
}

// Element `i` of so many of two bytes each.
fn element_answer(store: &mut Store, ptr: Ptr, words: &mut Words<'_>) -> Result<Answer, Wrong> {
    let count = words.number()?;
    let step = words.number()?;
    let i = words.number()?;
    if step < 2 || i >= count {
        return Err(Wrong::Form);
    }
    match store.elements::<I16>(ptr, count, step) {
        Ok(elements) => match elements.get(i) {
            Some(value) => Ok(Answer::Number(i128::from(value.0))),
            None => Ok(Answer::Absent),
        },
        Err(trap) => Ok(done(Err(trap))),
    }
}

// Sets element `i` of so many of two bytes each.
fn set_answer(store: &mut Store, ptr: Ptr, words: &mut Words<'_>) -> Result<Answer, Wrong> {
    let count = words.number()?;
    let step = words.number()?;
    let i = words.number()?;
    let Ok(value) = words.next()?.parse::<i16>() else {
        return Err(Wrong::Form);
    };
    if step < 2 || i >= count {
        return Err(Wrong::Form);
    }
    match store.elements::<I16>(ptr, count, step) {
        Ok(mut elements) => {
            elements.set(i, I16(value));
            Ok(Answer::Done)
        }
        Err(trap) => Ok(done(Err(trap))),
    }
}

// Writes -1 and 2 as the first and the third of three elements, four bytes apart. The memory is known again once the
// elements have ended.
fn set_two(store: &mut Store, ptr: Ptr) -> Result<(), Trap>
    ensures { MatchResult result
        (λ _. and_then (put store.old ptr.0 (255 ∷ 255 ∷ [])) (λ m. put m (ptr.0 + 8) (2 ∷ 0 ∷ []))
        ≡ Ok store.new)
        (λ _. store.new ≡ store.old) }
{
    let mut elements = store.elements::<I16>(ptr, 3, 4)?;
    elements.set(0, I16(-1));
    elements.set(2, I16(2));
    Ok(())
}

fn set_two_answer(store: &mut Store, ptr: Ptr) -> Result<Answer, Wrong> {
    Ok(done(set_two(store, ptr)))
}

// The answer to a question that reads bytes.
fn read_answer(
    alloc: Global,
    store: &Store,
    task: Task,
    ptr: Ptr,
    words: &mut Words<'_>,
) -> Result<Answer, Wrong> {
    match task {
        Task::Span => bytes(alloc, store.span(ptr, words.number()?)),
        Task::Text => bytes(alloc, store.text(ptr)),
        Task::TextUpTo => bytes(alloc, store.text_up_to(ptr, words.number()?)),
        _ => Err(Wrong::Form),
    }
}

// The answer to a question that writes bytes.
fn write_answer(
    alloc: Global,
    store: &mut Store,
    task: Task,
    ptr: Ptr,
    words: &mut Words<'_>,
) -> Result<Answer, Wrong> {
    match task {
        Task::Put => Ok(done(store.put(ptr, words.bytes(alloc)?.as_slice()))),
        Task::Fill => {
            let n = words.number()?;
            Ok(done(store.fill(ptr, n, words.byte()?)))
        }
        Task::Copy => {
            let from = words.pointer()?;
            Ok(done(store.copy(ptr, from, words.number()?)))
        }
        Task::Unset => Ok(done(store.unset(ptr, words.number()?))),
        _ => Err(Wrong::Form),
    }
}

// Loads a value of a type.
fn load_type(
    alloc: Global,
    store: &Store,
    ptr: Ptr,
    words: &mut Words<'_>,
) -> Result<Answer, Wrong> {
    let ty = type_of(alloc, words.next()?)?;
    match Kind::of(&ty) {
        Some(_) => Ok(value(store.load(ptr, &ty))),
        None => Err(Wrong::Form),
    }
}

// Stores a value of a type.
fn store_type(
    alloc: Global,
    store: &mut Store,
    ptr: Ptr,
    words: &mut Words<'_>,
) -> Result<Answer, Wrong> {
    let ty = type_of(alloc, words.next()?)?;
    let Some(kind) = Kind::of(&ty) else {
        return Err(Wrong::Form);
    };
    let stored = value_in(words, kind)?;
    if !fits(kind, stored) {
        return Err(Wrong::Form);
    }
    Ok(done(store.store(ptr, &ty, stored)))
}

// The answer to a question that moves or compares pointers.
fn move_answer(
    store: &Store,
    task: Task,
    ptr: Ptr,
    words: &mut Words<'_>,
) -> Result<Answer, Wrong> {
    match task {
        Task::Move => move_by(store, ptr, words),
        Task::MoveWide => move_by_wide(store, ptr, words),
        Task::Difference => difference_answer(ptr, words),
        Task::Order => order_answer(ptr, words),
        _ => Err(Wrong::Form),
    }
}

// The answer to a question on the value at a pointer.
fn value_answer(
    alloc: Global,
    store: &mut Store,
    task: Task,
    ptr: Ptr,
    words: &mut Words<'_>,
) -> Result<Answer, Wrong> {
    match task {
        Task::Load => load_answer(store, ptr, words),
        Task::LoadType => load_type(alloc, store, ptr, words),
        Task::Store => store_answer(store, ptr, words),
        Task::StoreType => store_type(alloc, store, ptr, words),
        Task::Element => element_answer(store, ptr, words),
        Task::Set => set_answer(store, ptr, words),
        Task::SetTwo => set_two_answer(store, ptr),
        _ => Err(Wrong::Form),
    }
}

// The answer to a question at the pointer that is the next word.
fn answer_at(
    alloc: Global,
    store: &mut Store,
    task: Task,
    words: &mut Words<'_>,
) -> Result<Answer, Wrong> {
    let ptr = words.pointer()?;
    match task {
        Task::Span | Task::Text | Task::TextUpTo => read_answer(alloc, store, task, ptr, words),
        Task::Put | Task::Fill | Task::Copy | Task::Unset => {
            write_answer(alloc, store, task, ptr, words)
        }
        Task::Move | Task::MoveWide | Task::Difference | Task::Order => {
            move_answer(store, task, ptr, words)
        }
        _ => value_answer(alloc, store, task, ptr, words),
    }
}

/// The answer to a question on memory.
pub fn memory_answer(
    alloc: Global,
    store: &mut Store,
    words: &mut Words<'_>,
) -> Result<Answer, Wrong> {
    match task_named(words.next()?) {
        Some(Task::Make) => make_answer(store, words.number()?, false),
        Some(Task::MakeZeroed) => make_answer(store, words.number()?, true),
        Some(Task::Turns) => turns_answer(store, words.id()?),
        Some(Task::Mark) => Ok(Answer::Number(i128::from(store.mark()))),
        Some(Task::End) => {
            store.end_to(words.id()?);
            Ok(Answer::Done)
        }
        Some(task) => answer_at(alloc, store, task, words),
        None => Err(Wrong::Form),
    }
}
