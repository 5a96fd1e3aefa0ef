//! One thing that is done with the memory of a C program again and again.

ghost use Rattle.std.specs.Prelude.{◌≤◌, ◌^◌};

use ec_bytes::Ptr;
use ec_memory::{MakeStop, Store, Value};
use ec_memory_defs::Kind;
use std::alloc::Global;

/// How often a value is loaded or stored, or a pointer is moved.
const TURNS: u64 = 100_000_000;

/// How many bytes are filled at once, and how many an object of many has.
const MANY: u64 = 100;

/// How often many bytes are filled, and how many objects are made and ended.
const OBJECTS: u64 = 10_000_000;

/// The value at a pointer is an int of bytes that are all 1.
#[inline(always)]
fn is_loaded(store: &Store, ptr: Ptr) -> bool {
    matches!(store.load_kind(ptr, Kind::Int), Ok(Value::Int(0x0101_0101)))
}

#[inline(always)]
fn is_stored(store: &mut Store, ptr: Ptr) -> bool {
    store.store_kind(ptr, Kind::Int, Value::Int(7)).is_ok()
}

/// An object of so many bytes is made, and ends.
#[inline(always)]
fn is_made(store: &mut Store, size: u64) -> bool
    requires { (1 ≤ size) × (size ≤ 2 ^ 24) }
{
    let mark = store.mark();
    let made = store.make(size).is_ok();
    store.end_to(mark);
    made
}

/// What is done.
#[derive(Clone, Copy)]
pub enum Work {
    /// A value is loaded.
    Load,
    /// A value is stored.
    Store,
    /// A pointer is moved.
    Move,
    /// An object is made.
    Make,
    /// An object of many bytes is made.
    MakeMany,
    /// Many bytes are filled.
    Fill,
}

// How many of the loads went well.
fn count_loads(store: &Store, ptr: Ptr) -> u64 {
    let mut count = 0u64;
    for i in 0..TURNS {
        let at = Ptr(ptr.0.wrapping_add(i % 1024 * 4));
        count = count.wrapping_add(is_loaded(store, at) as u64);
    }
    count
}

// How many of the stores went well.
fn count_stores(store: &mut Store, ptr: Ptr) -> u64 {
    let mut count = 0u64;
    for i in 0..TURNS {
        let at = Ptr(ptr.0.wrapping_add(i % 1024 * 4));
        count = count.wrapping_add(is_stored(store, at) as u64);
    }
    count
}

// How many of the moves went well.
fn count_moves(store: &Store, ptr: Ptr) -> u64 {
    let mut count = 0u64;
    for i in 0..TURNS {
        let by = (i % 1024) as i64;
        count = count.wrapping_add(store.move_ptr(ptr, by, 4).is_ok() as u64);
    }
    count
}

// How many of the objects of so many bytes were made.
#[inline(always)]
fn count_made(store: &mut Store, size: u64) -> u64
    requires { (1 ≤ size) × (size ≤ 2 ^ 24) }
{
    let mut count = 0u64;
    for _ in 0..OBJECTS {
        count = count.wrapping_add(is_made(store, size) as u64);
    }
    count
}

// How many of the fills went well.
fn count_fills(store: &mut Store, ptr: Ptr) -> u64 {
    let mut count = 0u64;
    for i in 0..OBJECTS {
        let at = Ptr(ptr.0.wrapping_add(i % 1024));
        count = count.wrapping_add(store.fill(at, MANY, 1).is_ok() as u64);
    }
    count
}

/// How often it went well.
pub fn count_done(alloc: Global, work: Work) -> Result<u64, MakeStop> {
    let mut store = Store::new(alloc);
    let ptr = store.make(4096)?;
    let _ = store.fill(ptr, 4096, 1);
    Ok(match work {
        Work::Load => count_loads(&store, ptr),
        Work::Store => count_stores(&mut store, ptr),
        Work::Move => count_moves(&store, ptr),
        Work::Make => count_made(&mut store, 8),
        Work::MakeMany => count_made(&mut store, MANY),
        Work::Fill => count_fills(&mut store, ptr),
    })
}
