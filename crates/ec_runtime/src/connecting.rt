//! CONNECT and SET CONNECTION (PostgreSQL manual, chapter ECPG, section "Managing Database Connections").

ghost use Rattle.std.specs.Prelude.{◌≡◌, ◌<◌, vec_capacity, vec_len, ◌++◌, ◌∷◌, [], None, Some, IfErr, IfOk};
ghost use Rattle.ec_call_defs.specs.Areas.{Areas as Named};
ghost use Rattle.ec_call_defs.specs.Connecting.{connecting, own_name, set_connection_call};
ghost use Rattle.ec_call_defs.specs.Connections.{connection_named};
ghost use Rattle.ec_call_defs.specs.Inputs.{given_read};
ghost use Rattle.ec_meaning_defs.specs.evaluation.State.{State};
ghost use Rattle.ec_link.specs.Links.{talk_by, faults_by};
ghost use Rattle.ec_link.specs.Logged.{IsConnect};
ghost use Rattle.ec_runtime.specs.Calling.{connections_of, seen_by, Changes, Holds};
ghost use Rattle.ec_runtime.specs.Does.{Does};
ghost use Rattle.ec_runtime.specs.Reading.{given_view};
ghost use Rattle.ec_runtime.specs.Says.{Quiet};
ghost use Rattle.ec_runtime.specs.Starts.{connected_first, Leads};
ghost use Rattle.ec_runtime.specs.Statements.{connect_read, current_set, kind_view};
ghost use Rattle.ec_runtime.specs.Waiting.{asking_seen, some_of, Fits};
ghost use Rattle.ec_stopping_defs.specs.Resuming.{call_started};
ghost use Rattle.ec_runtime.specs.declared.call.Kind.TheVariants as kinds;
ghost use Rattle.ec_runtime.specs.declared.stop.Stop.TheVariants as stops;
ghost use Rattle.ec_transfer_defs.specs.Area.{IsArea};

use crate::area::{begin_area, refuse};
use crate::call::Connect;
use crate::finding::place_of;
use crate::inputs::{GivenText, given_text, maybe_text};
use crate::open::Open;
use crate::sessions::Sessions;
use crate::stop::Stop;
use crate::waiting::{Waiting, Waits};
use ec_base::{Bytes, Line, List, Name};
use ec_link::{Link, Rack, Request, Tx};
use ec_memory::Store;
use ec_transfer_defs::Finding;
use std::alloc::Global;

/// Keeps the bytes of a name.
fn name_of(alloc: Global, bytes: &[u8]) -> Result<Name, Stop>
    ensures ok { IfOk result (λ name. name ≡ bytes.now) }
    ensures err { IfErr result (λ stop. stop ≡ stops.OutOfMemory) }
{
    match Name::from_slice(alloc, bytes) {
        Ok(name) => Ok(name),
        Err(_) => Err(Stop::OutOfMemory),
    }
}

/// The name of a connection: without one of its own it has that of its server.
fn own_name(alloc: Global, target: &Bytes, name: &Option<Bytes>) -> Result<Name, Stop>
    ensures ok { IfOk result (λ own. own ≡ own_name target.now name.now) }
    ensures err { IfErr result (λ stop. stop ≡ stops.OutOfMemory) }
{
    match name {
        Some(name) => name_of(alloc, name.as_slice()),
        None => name_of(alloc, target.as_slice()),
    }
}

/// Reads what CONNECT is given: the name of the connection, and the request.
fn read_connect(alloc: Global, store: &Store, it: &Connect) -> Result<(Name, Request), Stop>
    ensures quiet { Quiet result (connect_read it.now) store.now store.now }
    ensures asks { IfOk result (λ read. IsConnect read.1) }
{
    let target = given_text(alloc, store, &it.target)?;
    let user = maybe_text(alloc, store, &it.user)?;
    let password = maybe_text(alloc, store, &it.password)?;
    let name = maybe_text(alloc, store, &it.name)?;
    let own = own_name(alloc, &target, &name)?;
    let request = Request::Connect {
        target,
        user,
        password,
    };
    Ok((own, request))
}

/// Keeps a connection that was opened. It is the current one.
pub(crate) fn keep(library: &mut Sessions, session: Open, current: Name)
    requires { vec_len library.old.sessions < vec_capacity library.old.sessions }
    ensures sessions { library.new.sessions.items ≡ library.old.sessions.items ++ session ∷ [] }
    ensures current { library.new.current ≡ Some current }
{
    library.sessions.push_reserved(session);
    library.current = Some(current);
}

/// Asks for a connection, and keeps it if it opens. There is room for it before that.
pub(crate) fn open_new(
    alloc: Global,
    store: &mut Store,
    rack: &mut Rack,
    library: &mut Sessions,
    line: Line,
    name: Name,
    request: Request,
) -> Result<(), Stop>
    requires area { IsArea store.old }
    requires holds { Holds library.old rack.old }
    requires asks { IsConnect request }
    requires unused { connection_named name (connections_of library.old) ≡ None }
    ensures changes { Changes (talk_by ⟦<dyn Link as Link>⟧) (faults_by ⟦<dyn Link as Link>⟧)
        (λ (s : State). connecting line.0 name request s.answers s)
        store.old rack.old library.old store.new rack.new library.new result }
    ensures kept { IsArea store.new }
    ensures still_holds { Holds library.new rack.new }
{
    let current = match name.clone() {
        Ok(copy) => copy,
        Err(_) => return Err(Stop::OutOfMemory),
    };
    match library.sessions.reserve(1) {
        Ok(()) => {}
        Err(_) => return Err(Stop::OutOfMemory),
    }
    match rack.connect(request) {
        Err(_) => Err(Stop::OutOfMemory),
        Ok(None) => Err(refuse(store, line, Finding::NotConnected)),
        Ok(Some(conn)) => {
            let session = Open {
                name,
                conn,
                autocommit: false,
                told: Tx::Idle,
                prepared: List::new(alloc),
            };
            keep(library, session, current);
            Ok(())
        }
    }
}

/// A connection of this name is asked for by this request, if the name isn't in use.
fn start_named(
    store: &mut Store,
    library: &Sessions,
    line: Line,
    name: Name,
    request: Request,
) -> Result<Waiting, Stop>
    requires area { IsArea store.old }
    requires asks { IsConnect request }
    ensures leads { (areas : Named) → Leads
        (asking_seen (connections_of library.now) (some_of result))
        (connected_first line.0 (name, request))
        (seen_by store.old library.now) areas (seen_by store.new library.now) areas }
    ensures fits { (areas : Named) → IfOk result
        (λ it. Fits (connections_of library.now) areas (Some it)) }
    ensures kept { IsArea store.new }
{
    begin_area(store);
    match place_of(library.sessions.as_slice(), name.as_slice()) {
        Some(_) => Err(refuse(store, line, Finding::NotConnected)),
        None => Ok(Waiting {
            request,
            waits: Waits::Connecting(name),
        }),
    }
}

/// ECPGconnect, up to its request. A name that is in use gives a code without one.
pub(crate) fn start_connect(
    alloc: Global,
    store: &mut Store,
    library: &Sessions,
    line: Line,
    it: &Connect,
) -> Result<Waiting, Stop>
    requires area { IsArea store.old }
    ensures leads { (areas : Named) → Leads
        (asking_seen (connections_of library.now) (some_of result))
        (λ s. call_started line.0 (kind_view (kinds.Connect it.now)) s)
        (seen_by store.old library.now) areas (seen_by store.new library.now) areas }
    ensures fits { (areas : Named) → IfOk result
        (λ it. Fits (connections_of library.now) areas (Some it)) }
    ensures kept { IsArea store.new }
{
    match read_connect(alloc, store, it) {
        Err(stop) => Err(stop),
        Ok((name, request)) => start_named(store, library, line, name, request),
    }
}

/// Reads a name.
fn read_name(alloc: Global, store: &Store, text: &GivenText) -> Result<Name, Stop>
    ensures { Quiet result (given_read (given_view text.now)) store.now store.now }
{
    match given_text(alloc, store, text) {
        Err(stop) => Err(stop),
        Ok(bytes) => name_of(alloc, bytes.as_slice()),
    }
}

/// The connection of this name, which has to be open, is the current one.
fn set_current(
    store: &mut Store,
    library: &mut Sessions,
    line: Line,
    name: Name,
) -> Result<(), Stop>
    requires { IsArea store.old }
    ensures does { Does (current_set line.0 name) (seen_by store.old library.old)
        (seen_by store.new library.new) [] result }
    ensures sessions { library.new.sessions.items ≡ library.old.sessions.items }
    ensures kept { IsArea store.new }
{
    begin_area(store);
    match place_of(library.sessions.as_slice(), name.as_slice()) {
        None => Err(refuse(store, line, Finding::NoConnection)),
        Some(_) => {
            library.current = Some(name);
            Ok(())
        }
    }
}

/// ECPGsetconn.
pub(crate) fn set_connection(
    alloc: Global,
    store: &mut Store,
    library: &mut Sessions,
    line: Line,
    text: &GivenText,
) -> Result<(), Stop>
    requires { IsArea store.old }
    ensures does { Does (set_connection_call line.0 (given_view text.now))
        (seen_by store.old library.old) (seen_by store.new library.new) [] result }
    ensures sessions { library.new.sessions.items ≡ library.old.sessions.items }
    ensures kept { IsArea store.new }
{
    match read_name(alloc, store, text) {
        Err(stop) => Err(stop),
        Ok(name) => set_current(store, library, line, name),
    }
}
