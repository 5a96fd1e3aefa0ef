//! Questions on values.

ghost use Rattle.std.specs.Prelude.{IsSome, ◌<◌, ◌≤◌, ◌^◌};
ghost use Rattle.ec_convert.specs.Host.{given_host};

use crate::answers::Wrong;
use crate::values::answer::{show_byte, show_bytes, show_stop};
use crate::values::words::Words;
use ec_base::Bytes;
use ec_bytes::{Ptr, U8};
use ec_convert::{HostPlace, from_text, is_typed, to_text};
use ec_memory::Store;
use std::alloc::Global;

// A count, a size or a distance is at most this.
const MOST: u64 = 1 << 24;

// A host, as `SYMBOL POINTER SIZE COUNT STEP`, and then `-` or the indicators as `SYMBOL POINTER COUNT STEP`.
fn read_host(words: &mut Words) -> Result<HostPlace, Wrong> {
    let sym = words.symbol()?;
    let at = words.pointer()?;
    let size = words.number()?;
    let count = words.number()?;
    let step = words.number()?;
    let ind = match words.symbol() {
        Ok(sym) => Some((sym, words.pointer()?, words.number()?, words.number()?)),
        Err(_) => None,
    };
    Ok(HostPlace {
        sym,
        at,
        size,
        count,
        step,
        ind,
    })
}

/// `send HOST`: the parameter that it gives.
pub fn send(
    alloc: Global,
    store: &Store,
    words: &mut Words,
    shown: &mut Bytes,
) -> Result<(), Wrong> {
    let host = read_host(words)?;
    if !is_typed(&host) {
        return Err(Wrong::Form);
    }
    match to_text(alloc, store, &host) {
        Ok(Some(text)) => show_bytes(shown, text.as_slice()),
        Ok(None) => {
            shown.extend_from_slice(b"null")?;
            Ok(())
        }
        Err(stop) => show_stop(shown, stop),
    }
}

// Stores a field, if the numbers are those of a host.
fn store_field(
    store: &mut Store,
    host: &HostPlace,
    row: u64,
    field: Option<&[u8]>,
    shown: &mut Bytes,
) -> Result<(), Wrong> {
    if !is_typed(host) || row >= host.count || host.count > MOST || host.size > MOST {
        return Err(Wrong::Form);
    }
    match from_text(store, host, row, field) {
        Ok(true) => {
            shown.extend_from_slice(b"cut")?;
            Ok(())
        }
        Ok(false) => {
            shown.extend_from_slice(b"whole")?;
            Ok(())
        }
        Err(stop) => show_stop(shown, stop),
    }
}

/// `store ROW FIELD HOST`: what the field leaves in a row of the host.
pub fn store(
    alloc: Global,
    store: &mut Store,
    words: &mut Words,
    shown: &mut Bytes,
) -> Result<(), Wrong> {
    let row = words.number()?;
    let field = words.bytes(alloc)?;
    let host = read_host(words)?;
    match field {
        Some(field) => store_field(store, &host, row, Some(field.as_slice()), shown),
        None => store_field(store, &host, row, None, shown),
    }
}

/// `bytes BYTES`: makes an object of these bytes.
pub fn make_bytes(alloc: Global, store: &mut Store, words: &mut Words) -> Result<(), Wrong> {
    let Some(bytes) = words.bytes(alloc)? else {
        return Err(Wrong::Form);
    };
    let size = bytes.len() as u64;
    if size == 0 || size > MOST {
        return Err(Wrong::Form);
    }
    let at = store.make(size)?;
    store.put(at, bytes.as_slice()).map_err(|_| Wrong::Form)
}

/// `unset COUNT`: makes an object of so many unset bytes.
pub fn make_unset(store: &mut Store, words: &mut Words) -> Result<(), Wrong> {
    let size = words.number()?;
    if size == 0 || size > MOST {
        return Err(Wrong::Form);
    }
    store.make(size)?;
    Ok(())
}

// Shows a byte of an object, as two digits or as two dots where it is unset.
fn show_cell(store: &Store, at: Ptr, shown: &mut Bytes) -> Result<(), Wrong> {
    match store.read::<U8>(at) {
        Ok(byte) => show_byte(shown, byte.0),
        Err(_) => {
            shown.extend_from_slice(b"..")?;
            Ok(())
        }
    }
}

/// `show POINTER COUNT`: so many bytes.
pub fn show_cells(store: &Store, words: &mut Words, shown: &mut Bytes) -> Result<(), Wrong> {
    let at = words.pointer()?;
    let count = words.number()?;
    if count > MOST {
        return Err(Wrong::Form);
    }
    for offset in 0..count {
        show_cell(store, Ptr(at.0.wrapping_add(offset)), shown)?;
    }
    Ok(())
}
