//! Which open connection a name leads to. Names compare byte for byte.

ghost use Rattle.std.specs.Prelude.{◌≡◌, ◌<◌, length, map, None, IfOk, IfSome};
ghost use Rattle.ec_runtime.specs.Opening.{open_view};
ghost use Rattle.ec_runtime.specs.Reading.{text_view, Finds};
ghost use Rattle.ec_runtime.specs.Seeking.{place_named, place_sought};

use crate::inputs::TextArg;
use crate::open::Open;
use ec_base::{Name, Trap};
use ec_memory::Store;

/// Where the connection of a name stands.
pub(crate) fn place_of(sessions: &[Open], name: &[u8]) -> Option<usize>
    ensures place { result ≡ place_named name.now (map open_view sessions.now) }
    ensures within { IfSome result (λ at. at < length sessions.now) }
{
    for (at, one) in sessions.iter().enumerate() {
        if one.name.as_slice() == name {
            return Some(at);
        }
    }
    None
}

/// Where the current connection stands.
pub(crate) fn place_current(sessions: &[Open], current: &Option<Name>) -> Option<usize>
    ensures place { result ≡ place_sought None current.now (map open_view sessions.now) }
    ensures within { IfSome result (λ at. at < length sessions.now) }
{
    match current {
        Some(name) => place_of(sessions, name.as_slice()),
        None => None,
    }
}

/// Where the connection stands that a text names, or without a name the current one.
pub(crate) fn find(
    store: &Store,
    sessions: &[Open],
    current: &Option<Name>,
    text: &TextArg,
) -> Result<Option<usize>, Trap>
    ensures finds { Finds result (text_view text.now) (map open_view sessions.now)
        current.now store.now }
    ensures within { IfOk result (λ place. IfSome place (λ at. at < length sessions.now)) }
{
    match text {
        TextArg::Absent => Ok(place_current(sessions, current)),
        TextArg::Word(bytes) => Ok(place_of(sessions, bytes.as_slice())),
        TextArg::Held(at) => match store.text(*at) {
            Ok(bytes) => Ok(place_of(sessions, bytes)),
            Err(trap) => Err(trap),
        },
    }
}
