//! The prepared statements of a connection, by their names (PostgreSQL manual, chapter ECPG, section "Dynamic SQL").

ghost use Rattle.std.specs.Prelude.{◌≡◌, ◌<◌, length, option_map, IfSome, OnOk};
ghost use Rattle.std.specs.Option.{option_copied};
ghost use Rattle.ec_call_defs.specs.Preparing.{with_text, without_text};
ghost use Rattle.ec_call_defs.specs.Running.{prepared_text};
ghost use Rattle.ec_runtime.specs.Prepared.{place_of, prepared_views};

use ec_base::{Bytes, List, Name, OutOfMemory};
use std::mem;

/// A prepared statement: its name, and the text that was sent for it.
#[derive(Debug, Drop)]
pub(crate) struct Prepared {
    pub(crate) name: Name,
    pub(crate) text: Bytes,
}

/// Where a name stands. Names compare byte for byte.
fn place_of(prepared: &[Prepared], name: &[u8]) -> Option<usize>
    ensures place { result ≡ place_of name.now (prepared_views prepared.now) }
    ensures within { IfSome result (λ at. at < length prepared.now) }
{
    for (at, one) in prepared.iter().enumerate() {
        if one.name.as_slice() == name {
            return Some(at);
        }
    }
    None
}

/// The text that is prepared under a name.
pub(crate) fn text_under<'p>(prepared: &'p [Prepared], name: &[u8]) -> Option<&'p [u8]>
    ensures { option_copied result ≡ prepared_text name.now (prepared_views prepared.now) }
{
    match place_of(prepared, name) {
        Some(at) => Some(prepared[at].text.as_slice()),
        None => None,
    }
}

/// Keeps a text under a name: in the place of the one that is there, or behind all others.
pub(crate) fn keep(
    prepared: &mut List<Prepared>,
    name: Name,
    text: Bytes,
) -> Result<(), OutOfMemory>
    ensures { OnOk result
        (prepared_views prepared.new ≡ with_text name text (prepared_views prepared.old)) }
{
    let place = place_of(prepared.as_slice(), name.as_slice());
    let kept = Prepared { name, text };
    match place {
        Some(at) => {
            prepared.set(at, kept);
            Ok(())
        }
        None => {
            prepared.push(kept)?;
            Ok(())
        }
    }
}

/// Forgets the text under a name, if there is one. The others stay in their order.
pub(crate) fn forget(prepared: &mut List<Prepared>, name: &[u8])
    ensures { prepared_views prepared.new
        ≡ without_text name.now (prepared_views prepared.old) }
{
    let Some(at) = place_of(prepared.as_slice(), name) else {
        return;
    };
    let empty = List::new(prepared.allocator());
    let mut items = mem::replace(prepared, empty).into_vec();
    let _ = items.remove(at);
    *prepared = List::from_vec(items);
}
