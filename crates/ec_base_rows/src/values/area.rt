//! Questions on the communication area.

ghost use Rattle.std.specs.Prelude.{IfOk};
ghost use Rattle.ec_transfer_defs.specs.Area.{IsArea};

use crate::answers::Wrong;
use crate::values::answer::show_bytes;
use crate::values::words::Words;
use ec_base::{Bytes, Line};
use ec_bytes::Ptr;
use ec_link::SqlState;
use ec_memory::Store;
use ec_sqlca::{notice, raise, reset, rows, warn};
use std::alloc::Global;

// What is told in the area.
#[derive(Clone, Copy)]
enum Call {
    Reset,
    Raise,
    Warn,
    Notice,
    Rows,
}

const CALLS: [(&str, Call); 5] = [
    ("reset", Call::Reset),
    ("raise", Call::Raise),
    ("warn", Call::Warn),
    ("notice", Call::Notice),
    ("rows", Call::Rows),
];

fn call_named(name: &str) -> Option<Call> {
    for (known, call) in CALLS {
        if known == name {
            return Some(call);
        }
    }
    None
}

// A memory with the area alone, of zero bytes.
fn fresh_area(alloc: Global) -> Result<Store, Wrong>
    ensures { IfOk result (λ store. IsArea store) }
{
    let mut store = Store::new(alloc);
    match store.make_zeroed(256) {
        Ok(_) => Ok(store),
        Err(_) => Err(Wrong::OutOfMemory),
    }
}

// The five characters of a state.
fn state_of(word: &str) -> Result<SqlState, Wrong> {
    let [a, b, c, d, e] = word.as_bytes() else {
        return Err(Wrong::Form);
    };
    Ok(SqlState([*a, *b, *c, *d, *e]))
}

// `CODE STATE LINE MESSAGE`.
fn raise_in(alloc: Global, store: &mut Store, words: &mut Words) -> Result<(), Wrong>
    requires { IsArea store.old }
{
    let code = words.signed()?;
    let state = state_of(words.next()?)?;
    let line = words.id()?;
    let Some(message) = words.bytes(alloc)? else {
        return Err(Wrong::Form);
    };
    raise(store, code, state, message.as_slice(), Line(line));
    Ok(())
}

// The call behind a reset.
fn call_in(alloc: Global, store: &mut Store, call: Call, words: &mut Words) -> Result<(), Wrong>
    requires { IsArea store.old }
{
    match call {
        Call::Reset => reset(store),
        Call::Raise => raise_in(alloc, store, words)?,
        Call::Warn => warn(store),
        Call::Notice => notice(store),
        Call::Rows => rows(store, words.number()?),
    }
    Ok(())
}

/// `area reset`, `area raise CODE STATE LINE MESSAGE`, `area warn`, `area notice`, `area rows COUNT`: the bytes of the area
/// behind a reset and this call.
pub fn area_answer(alloc: Global, words: &mut Words, shown: &mut Bytes) -> Result<(), Wrong> {
    let mut store = fresh_area(alloc)?;
    reset(&mut store);
    let call = call_named(words.next()?).ok_or(Wrong::Form)?;
    call_in(alloc, &mut store, call, words)?;
    match store.span(Ptr(1 << 32), 256) {
        Ok(bytes) => show_bytes(shown, bytes),
        Err(_) => Err(Wrong::Form),
    }
}
