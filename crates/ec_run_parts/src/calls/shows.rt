//! What is shown of a call.

use ec_base::{Bytes, OutOfMemory, Trap};
use ec_bytes::{I32, I64, Ptr};
use ec_memory::Store;
use ec_runtime::CallStop;
use itoa::Buffer;

fn show_number(shown: &mut Bytes, number: i64) -> Result<(), OutOfMemory> {
    shown.push(b' ')?;
    shown.extend_from_slice(Buffer::new().format(number).as_bytes())
}

// A long of `sqlca`.
fn show_long(store: &Store, offset: u64, shown: &mut Bytes) -> Result<(), OutOfMemory> {
    match store.read::<I64>(Ptr((1 << 32) + offset % 256)) {
        Ok(number) => show_number(shown, number.0),
        Err(_) => shown.extend_from_slice(b" unset"),
    }
}

// The state.
fn show_state(store: &Store, shown: &mut Bytes) -> Result<(), OutOfMemory> {
    shown.push(b' ')?;
    match store.span(Ptr((1 << 32) + 248), 5) {
        Ok(state) => shown.extend_from_slice(state),
        Err(_) => shown.extend_from_slice(b"unset"),
    }
}

// The int that a row goes into.
fn show_int(store: &Store, shown: &mut Bytes) -> Result<(), OutOfMemory> {
    match store.read::<I32>(Ptr(2 << 32)) {
        Ok(number) => show_number(shown, i64::from(number.0)),
        Err(_) => shown.extend_from_slice(b" unset"),
    }
}

/// Shows how a call ended, `sqlcode`, `sqlstate`, `sqlerrd[2]`, the int, and how many requests were made.
pub fn show(
    done: Result<(), CallStop>,
    store: &Store,
    requests: usize,
    shown: &mut Bytes,
) -> Result<(), OutOfMemory> {
    match done {
        Ok(()) => shown.extend_from_slice(b"on")?,
        Err(CallStop::Trapped(Trap::Dead)) => shown.extend_from_slice(b"Dead")?,
        Err(CallStop::Trapped(_)) => shown.extend_from_slice(b"trap")?,
        Err(CallStop::OutOfMemory) => return Err(OutOfMemory),
    }
    show_long(store, 16, shown)?;
    show_state(store, shown)?;
    show_long(store, 208, shown)?;
    show_int(store, shown)?;
    shown.extend_from_slice(b" after ")?;
    shown.extend_from_slice(Buffer::new().format(requests).as_bytes())
}
