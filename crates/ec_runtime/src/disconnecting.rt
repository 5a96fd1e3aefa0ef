//! DISCONNECT (PostgreSQL manual, chapter ECPG, section "Managing Database Connections").

ghost use Rattle.std.specs.Prelude.{◌≡◌, ◌<◌, ℕ, List, Some, length, map, reverse, slice_get, IfErr, IfOk, OnOk};
ghost use Rattle.std.specs.List.{remove};
ghost use Rattle.ec_arguments.specs.Arguments.{disconnect};
ghost use Rattle.ec_call_defs.specs.Areas.{Areas as Named};
ghost use Rattle.ec_call_defs.specs.Disconnecting.{closed, current_without, last_name};
ghost use Rattle.ec_meaning_defs.specs.evaluation.State.{Connection};
ghost use Rattle.ec_link.specs.Links.{talk_by, faults_by};
ghost use Rattle.ec_memory_defs.specs.Memory.{Memory};
ghost use Rattle.ec_runtime.specs.Calling.{connections_of, seen_by, Changes, Holds};
ghost use Rattle.ec_runtime.specs.Closing.{is_current, which_of, Chooses, IsWithin};
ghost use Rattle.ec_runtime.specs.Opening.{open_view};
ghost use Rattle.ec_runtime.specs.Reading.{given_view};
ghost use Rattle.ec_runtime.specs.Resuming.{closing_asks};
ghost use Rattle.ec_runtime.specs.Starts.{which_first, Leads};
ghost use Rattle.ec_runtime.specs.Waiting.{asking_in, asking_seen, closing_first, Fits};
ghost use Rattle.ec_stopping_defs.specs.Resuming.{call_started, stepped};
ghost use Rattle.ec_runtime.specs.declared.stop.Stop.TheVariants as stops;
ghost use Rattle.ec_transfer_defs.specs.Area.{IsArea};

use crate::area::{begin_area, refuse};
use crate::finding::{place_current, place_of};
use crate::inputs::GivenText;
use crate::open::Open;
use crate::sessions::Sessions;
use crate::stop::Stop;
use crate::waiting::{Waiting, Waits};
use ec_base::{Line, Name, OutOfMemory, Trap};
use ec_link::{Link, Rack, Request};
use ec_memory::Store;
use ec_transfer_defs::Finding;

/// What is closed.
#[derive(Debug, Drop)]
pub(crate) enum Which {
    /// The connection at a place, or none that is open.
    One(Option<usize>),
    /// Every connection.
    All,
}

/// What is closed by a text: `CURRENT`, `ALL`, or the name of a connection.
fn which_of(sessions: &[Open], current: &Option<Name>, text: &[u8]) -> Which
    ensures which { result ≡ which_of text.now current.now (map open_view sessions.now) }
    ensures within { IsWithin result (length sessions.now) }
{
    if text == b"CURRENT".as_slice() {
        return Which::One(place_current(sessions, current));
    }
    if text == b"ALL".as_slice() {
        return Which::All;
    }
    Which::One(place_of(sessions, text))
}

/// Reads what is closed.
fn read_which(
    store: &Store,
    sessions: &[Open],
    current: &Option<Name>,
    text: &GivenText,
) -> Result<Which, Trap>
    ensures chooses { Chooses result (given_view text.now) (map open_view sessions.now)
        current.now store.now }
    ensures within { IfOk result (λ which. IsWithin which (length sessions.now)) }
{
    match text {
        GivenText::Word(bytes) => Ok(which_of(sessions, current, bytes.as_slice())),
        GivenText::Held(at) => match store.text(*at) {
            Ok(bytes) => Ok(which_of(sessions, current, bytes)),
            Err(trap) => Err(trap),
        },
    }
}

/// The name of the connection that was opened last.
fn last_name(sessions: &[Open]) -> Result<Option<Name>, OutOfMemory>
    ensures { IfOk result (λ name. name ≡ last_name (map open_view sessions.now)) }
{
    match sessions {
        [] => Ok(None),
        [.., last] => Ok(Some(last.name.clone()?)),
    }
}

/// Whether a name is that of the current connection.
fn is_current(library: &Sessions, name: &[u8]) -> bool
    ensures { result ≡ is_current library.now.current name.now }
{
    match &library.current {
        Some(current) => current.as_slice() == name,
        None => false,
    }
}

/// The current connection, where that of a name is gone: if it was the current one, the one opened last of those that
/// are left.
fn forget(library: &mut Sessions, name: &[u8]) -> Result<(), Stop>
    ensures sessions { library.new.sessions.items ≡ library.old.sessions.items }
    ensures current { OnOk result (library.new.current
        ≡ current_without name.now library.old.current (connections_of library.old)) }
    ensures err { IfErr result (λ stop. stop ≡ stops.OutOfMemory) }
{
    if !is_current(library, name) {
        return Ok(());
    }
    match last_name(library.sessions.as_slice()) {
        Ok(name) => {
            library.current = name;
            Ok(())
        }
        Err(_) => Err(Stop::OutOfMemory),
    }
}

/// Closes the connection at a place, whatever the answer.
pub(crate) fn close_at(rack: &mut Rack, library: &mut Sessions, at: usize) -> Result<(), Stop>
    requires holds { Holds library.old rack.old }
    requires within { at < length library.old.sessions.items }
    ensures changes { (m : Memory) (c : Connection)
        → slice_get (connections_of library.old) at ≡ Some c
        → Changes (talk_by ⟦<dyn Link as Link>⟧) (faults_by ⟦<dyn Link as Link>⟧) (closed c)
        m rack.old library.old m rack.new library.new result }
    ensures left { OnOk result (connections_of library.new
        ≡ remove (connections_of library.old) at) }
    ensures fewer { OnOk result
        (length library.new.sessions.items < length library.old.sessions.items) }
    ensures still_holds { Holds library.new rack.new }
{
    let Open {
        name,
        conn,
        autocommit,
        told,
        prepared,
    } = library.sessions.remove(at);
    match rack.close(conn) {
        Ok(()) => forget(library, name.as_slice()),
        Err(conn) => {
            let session = Open {
                name,
                conn,
                autocommit,
                told,
                prepared,
            };
            match library.sessions.insert(at, session) {
                Ok(()) => Err(Stop::OutOfMemory),
                Err(_) => unreachable!(),
            }
        }
    }
}

/// What is asked to close every connection, the one opened last first.
fn closing_all(library: &Sessions) -> Option<Waiting>
    ensures asking { asking_in (connections_of library.now) result
        ≡ closing_asks (reverse (connections_of library.now)) }
    ensures fits { (areas : Named) → Fits (connections_of library.now) areas result }
{
    if library.sessions.len() == 0 {
        return None;
    }
    Some(Waiting {
        request: Request::Close,
        waits: Waits::ClosingAll,
    })
}

/// The connection that was opened last is closed, and then the others are.
pub(crate) fn close_last(rack: &mut Rack, library: &mut Sessions) -> Result<Option<Waiting>, Stop>
    requires holds { Holds library.old rack.old }
    requires within { 0 < length library.old.sessions.items }
    ensures changes { (line : ℕ) (m : Memory) → Changes (talk_by ⟦<dyn Link as Link>⟧)
        (faults_by ⟦<dyn Link as Link>⟧)
        (stepped line (closing_first (reverse (connections_of library.old))))
        m rack.old library.old m rack.new library.new
        (asking_seen (connections_of library.new) result) }
    ensures fits { (areas : Named) → IfOk result
        (λ it. Fits (connections_of library.new) areas it) }
    ensures fewer { IfOk result (λ _.
        length library.new.sessions.items < length library.old.sessions.items) }
    ensures still_holds { Holds library.new rack.new }
{
    let last = library.sessions.len() - 1;
    match close_at(rack, library, last) {
        Err(stop) => Err(stop),
        Ok(()) => Ok(closing_all(library)),
    }
}

/// What is asked to close what is closed.
fn start_closing(
    store: &mut Store,
    library: &Sessions,
    line: Line,
    which: Which,
) -> Result<Option<Waiting>, Stop>
    requires area { IsArea store.old }
    requires within { IsWithin which (length library.now.sessions.items) }
    ensures leads { (areas : Named) → Leads (asking_seen (connections_of library.now) result)
        (which_first line.0 which)
        (seen_by store.old library.now) areas (seen_by store.new library.now) areas }
    ensures fits { (areas : Named) → IfOk result
        (λ it. Fits (connections_of library.now) areas it) }
    ensures kept { IsArea store.new }
{
    match which {
        Which::One(place) => match place {
            None => Err(refuse(store, line, Finding::NoConnection)),
            Some(at) => Ok(Some(Waiting {
                request: Request::Close,
                waits: Waits::ClosingOne(at),
            })),
        },
        Which::All => Ok(closing_all(library)),
    }
}

/// ECPGdisconnect, up to its first request. The texts `CURRENT` and `ALL` are special however they came.
pub(crate) fn start_disconnect(
    store: &mut Store,
    library: &Sessions,
    line: Line,
    text: &GivenText,
) -> Result<Option<Waiting>, Stop>
    requires area { IsArea store.old }
    ensures leads { (areas : Named) → Leads (asking_seen (connections_of library.now) result)
        (λ s. call_started line.0 (disconnect (given_view text.now)) s)
        (seen_by store.old library.now) areas (seen_by store.new library.now) areas }
    ensures fits { (areas : Named) → IfOk result
        (λ it. Fits (connections_of library.now) areas it) }
    ensures kept { IsArea store.new }
{
    match read_which(store, library.sessions.as_slice(), &library.current, text) {
        Err(trap) => Err(Stop::Trapped(trap)),
        Ok(which) => {
            begin_area(store);
            start_closing(store, library, line, which)
        }
    }
}
