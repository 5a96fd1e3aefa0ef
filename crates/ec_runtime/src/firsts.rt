//! A call over a connection, up to its first request.

ghost use Rattle.std.specs.Prelude.{◌≡◌, ◌<◌, [], length, IfErr, IfOk, IfSome, Some};
ghost use Rattle.ec_call_defs.specs.Areas.{Areas as Named};
ghost use Rattle.ec_call_defs.specs.Autocommit.{commits_first};
ghost use Rattle.ec_call_defs.specs.Connections.{begin_text, begins};
ghost use Rattle.ec_call_defs.specs.Outcomes.{Text};
ghost use Rattle.ec_link.specs.Conn.{slot_of};
ghost use Rattle.ec_link.specs.Logged.{IsAsk};
ghost use Rattle.ec_link.specs.declared.request.Request.TheVariants as Asks;
ghost use Rattle.ec_runtime.specs.Calling.{connections_of, conns_of, seen_by, AllBeside, Stays};
ghost use Rattle.ec_runtime.specs.Opening.{open_view};
ghost use Rattle.ec_runtime.specs.Reading.{text_view};
ghost use Rattle.ec_memory_defs.specs.Memory.{Memory};
ghost use Rattle.ec_meaning_defs.specs.evaluation.State.{State};
ghost use Rattle.ec_runtime.specs.Says.{Changed, Quiet, Says};
ghost use Rattle.ec_runtime.specs.Seeking.{place_sought};
ghost use Rattle.ec_runtime.specs.Starts.{act_read, deallocated_first, ordered_first, over_first, ready_first, Leads, StartsOver};
ghost use Rattle.ec_runtime.specs.Statements.{act_view, outputs_view, IsThere};
ghost use Rattle.ec_runtime.specs.Waiting.{asking_seen, first_seen, over_at, some_of, BehindFits, FirstFits, Fits};
ghost use Rattle.ec_runtime.specs.declared.call.Act.TheVariants as acts;
ghost use Rattle.ec_runtime.specs.declared.stop.Stop.TheVariants as stops;
ghost use Rattle.ec_runtime.specs.declared.waiting.Behind.TheVariants as behinds;
ghost use Rattle.ec_stopping_defs.specs.Resuming.{call_started, statement_asks, switching};
ghost use Rattle.ec_transfer_defs.specs.Area.{IsArea};
ghost use Rattle.std.specs.declared.option.Option.{Option};

use crate::area::{begin_area, refuse};
use crate::autocommit::commits_first;
use crate::call::{Act, Statement};
use crate::finding::find;
use crate::inputs::{TextArg, kept};
use crate::open::{Open, is_due};
use crate::order::{Order, Outputs, kept_name, read, read_targets};
use crate::preparing::{find_name, marked_text};
use crate::requests::{find_target, make_request};
use crate::sessions::Sessions;
use crate::stop::Stop;
use crate::waiting::{Behind, Waiting, Waits};
use ec_base::{Bytes, Line, List, Name};
use ec_descriptors::Areas;
use ec_link::Request;
use ec_memory::Store;
use ec_transfer_defs::Finding;
use std::alloc::Global;

/// What is called over a connection, once all is read that it is given.
#[derive(Debug, Drop)]
pub(crate) enum Ready {
    Run(Order, Outputs),
    Control(Bytes),
    Autocommit(bool),
    Prepare { name: Name, text: Bytes },
    Deallocate(Name),
}

/// The request that is a text.
fn text_request(alloc: Global, text: Bytes) -> Request
    ensures { result ≡ Asks.Text text [] }
{
    Request::Text {
        text,
        params: List::new(alloc),
    }
}

/// The request of a statement, or `begin transaction` before it where that is due.
fn begin_first(
    alloc: Global,
    session: &Open,
    areas: &Areas,
    request: Request,
    outputs: Outputs,
) -> Result<(Request, Behind), Stop>
    requires asks { IsAsk request }
    requires there { IsThere (outputs_view outputs) areas.now }
    ensures says { (s : State) → Says (first_seen (slot_of session.now.conn) (some_of result))
        (statement_asks (begins (open_view session.now)) (slot_of session.now.conn)
        request (outputs_view outputs) s) s }
    ensures fits { IfOk result (λ it. FirstFits areas.now (Some it)) }
{
    if !is_due(session) {
        return Ok((request, Behind::Replied(outputs)));
    }
    match Bytes::from_slice(alloc, b"begin transaction".as_slice()) {
        Ok(text) => Ok((
            text_request(alloc, text),
            Behind::Begun { request, outputs },
        )),
        Err(_) => Err(Stop::OutOfMemory),
    }
}

/// A statement. A prepared statement and the descriptors are looked up before its request.
fn first_order(
    alloc: Global,
    store: &mut Store,
    session: &Open,
    areas: &Areas,
    line: Line,
    order: Order,
    outputs: Outputs,
) -> Result<(Request, Behind), Stop>
    requires { IsArea store.old }
    ensures changed { Changed (first_seen (slot_of session.now.conn) (some_of result))
        (ordered_first line.0 order (outputs_view outputs) (open_view session.now))
        store.old areas.now store.new areas.now }
    ensures fits { IfOk result (λ it. FirstFits areas.now (Some it)) }
    ensures kept { IsArea store.new }
{
    match make_request(store, areas, line, session, order) {
        Err(stop) => Err(stop),
        Ok(request) => match find_target(store, areas, line, &outputs) {
            Err(stop) => Err(stop),
            Ok(()) => begin_first(alloc, session, areas, request, outputs),
        },
    }
}

/// Transaction control.
fn first_control(alloc: Global, text: Bytes) -> (Request, Behind)
    ensures { result ≡ (Asks.Text text [], behinds.Controlled) }
{
    (text_request(alloc, text), Behind::Controlled)
}

/// A text is prepared under a name.
fn first_prepare(alloc: Global, name: Name, text: Bytes) -> Result<(Request, Behind), Stop>
    ensures ok { IfOk result (λ it. it ≡ (Asks.Prepare name text, behinds.Kept name text)) }
    ensures err { IfErr result (λ stop. stop ≡ stops.OutOfMemory) }
{
    match kept_name(&name) {
        Err(stop) => Err(stop),
        Ok(asked) => match kept(alloc, text.as_slice()) {
            Err(stop) => Err(stop),
            Ok(copy) => Ok((
                Request::Prepare {
                    name: asked,
                    text: copy,
                },
                Behind::Kept { name, text },
            )),
        },
    }
}

/// The text under a name, which has to be there, is deallocated.
fn first_deallocate(
    store: &mut Store,
    session: &Open,
    line: Line,
    name: Name,
) -> Result<(Request, Behind), Stop>
    requires { IsArea store.old }
    ensures quiet { Quiet (first_seen (slot_of session.now.conn) (some_of result))
        (deallocated_first line.0 name (open_view session.now)) store.old store.new }
    ensures fits { (areas : Named) → IfOk result (λ it. FirstFits areas (Some it)) }
    ensures kept { IsArea store.new }
{
    match find_name(store, session, line, &name) {
        Err(stop) => Err(stop),
        Ok(()) => match kept_name(&name) {
            Err(stop) => Err(stop),
            Ok(copy) => Ok((Request::Deallocate { name: copy }, Behind::Forgotten(name))),
        },
    }
}

/// Autocommit is set. Where that ends a transaction `commit` is asked for first.
fn first_autocommit(
    alloc: Global,
    session: &mut Open,
    on: bool,
) -> Result<Option<(Request, Behind)>, Stop>
    ensures starts { (m : Memory) (areas : Named) → StartsOver result
        (λ c s. switching (commits_first on c) on c.slot s) areas
        m session.old m session.new }
    ensures fits { (areas : Named) → IfOk result (λ it. FirstFits areas it) }
    ensures conn { session.new.conn ≡ session.old.conn }
    ensures name { session.new.name ≡ session.old.name }
{
    if !commits_first(on, session) {
        session.autocommit = on;
        return Ok(None);
    }
    match Bytes::from_slice(alloc, b"commit".as_slice()) {
        Ok(text) => Ok(Some((text_request(alloc, text), Behind::Committed(on)))),
        Err(_) => Err(Stop::OutOfMemory),
    }
}

/// What is asked for.
fn some(first: Result<(Request, Behind), Stop>) -> Result<Option<(Request, Behind)>, Stop>
    ensures { result ≡ some_of first }
{
    match first {
        Ok(it) => Ok(Some(it)),
        Err(stop) => Err(stop),
    }
}

/// What is asked first over the connection that was found.
fn first_over(
    alloc: Global,
    store: &mut Store,
    session: &mut Open,
    areas: &Areas,
    line: Line,
    ready: Ready,
) -> Result<Option<(Request, Behind)>, Stop>
    requires { IsArea store.old }
    ensures starts { StartsOver result (λ c s. ready_first line.0 ready c s) areas.now
        store.old session.old store.new session.new }
    ensures fits { IfOk result (λ it. FirstFits areas.now it) }
    ensures conn { session.new.conn ≡ session.old.conn }
    ensures name { session.new.name ≡ session.old.name }
    ensures kept { IsArea store.new }
{
    match ready {
        Ready::Run(order, outputs) => some(first_order(
            alloc, store, session, areas, line, order, outputs,
        )),
        Ready::Control(text) => Ok(Some(first_control(alloc, text))),
        Ready::Autocommit(on) => first_autocommit(alloc, session, on),
        Ready::Prepare { name, text } => some(first_prepare(alloc, name, text)),
        Ready::Deallocate(name) => some(first_deallocate(store, session, line, name)),
    }
}

/// What is asked over the connection at a place.
pub(crate) fn at_place(
    at: usize,
    first: Result<Option<(Request, Behind)>, Stop>,
) -> Result<Option<Waiting>, Stop>
    ensures { result ≡ over_at at first }
{
    match first {
        Err(stop) => Err(stop),
        Ok(None) => Ok(None),
        Ok(Some((request, behind))) => Ok(Some(Waiting {
            request,
            waits: Waits::Over { at, behind },
        })),
    }
}

/// The connection is found, and what is asked first over that.
fn start_over(
    alloc: Global,
    store: &mut Store,
    library: &mut Sessions,
    areas: &Areas,
    line: Line,
    place: Option<usize>,
    ready: Ready,
) -> Result<Option<Waiting>, Stop>
    requires area { IsArea store.old }
    requires within { IfSome place (λ at. at < length library.old.sessions.items) }
    requires beside { AllBeside (conns_of library.old) }
    ensures leads { (name : Option Text)
        → place ≡ place_sought name library.old.current (connections_of library.old)
        → Leads (asking_seen (connections_of library.new) result)
        (over_first line.0 ready name) (seen_by store.old library.old) areas.now
        (seen_by store.new library.new) areas.now }
    ensures fits { IfOk result (λ it. Fits (connections_of library.new) areas.now it) }
    ensures stays { Stays library.old library.new }
    ensures kept { IsArea store.new }
{
    begin_area(store);
    match place {
        None => Err(refuse(store, line, Finding::NoConnection)),
        Some(at) => {
            let session = &mut library.sessions[at];
            at_place(at, first_over(alloc, store, session, areas, line, ready))
        }
    }
}

/// Reads what a statement is given.
fn read_run(alloc: Global, store: &Store, it: Statement) -> Result<Ready, Stop>
    ensures { Quiet result (act_read (acts.Run it)) store.now store.now }
{
    match read(alloc, store, &it) {
        Err(stop) => Err(stop),
        Ok(order) => {
            let Statement {
                wanted: _,
                ins: _,
                area: _,
                outs,
            } = it;
            match read_targets(alloc, store, outs) {
                Err(stop) => Err(stop),
                Ok(outputs) => Ok(Ready::Run(order, outputs)),
            }
        }
    }
}

/// Reads what is called over a connection.
fn read_act(alloc: Global, store: &Store, act: Act) -> Result<Ready, Stop>
    ensures { Quiet result (act_read act) store.now store.now }
{
    match act {
        Act::Run(it) => read_run(alloc, store, it),
        Act::Control(text) => Ok(Ready::Control(text)),
        Act::Autocommit(on) => Ok(Ready::Autocommit(on)),
        Act::Prepare { name, text } => match marked_text(alloc, store, &text) {
            Err(stop) => Err(stop),
            Ok(text) => Ok(Ready::Prepare { name, text }),
        },
        Act::Deallocate(name) => Ok(Ready::Deallocate(name)),
    }
}

/// A call over the connection of a name, or without one over the current connection.
pub(crate) fn start_act(
    alloc: Global,
    store: &mut Store,
    library: &mut Sessions,
    areas: &Areas,
    line: Line,
    connection: &TextArg,
    act: Act,
) -> Result<Option<Waiting>, Stop>
    requires area { IsArea store.old }
    requires beside { AllBeside (conns_of library.old) }
    ensures leads { Leads (asking_seen (connections_of library.new) result)
        (λ s. call_started line.0 (act_view (text_view connection.now) act) s)
        (seen_by store.old library.old) areas.now
        (seen_by store.new library.new) areas.now }
    ensures fits { IfOk result (λ it. Fits (connections_of library.new) areas.now it) }
    ensures stays { Stays library.old library.new }
    ensures kept { IsArea store.new }
{
    match find(
        store,
        library.sessions.as_slice(),
        &library.current,
        connection,
    ) {
        Err(trap) => Err(Stop::Trapped(trap)),
        Ok(place) => match read_act(alloc, store, act) {
            Err(stop) => Err(stop),
            Ok(ready) => start_over(alloc, store, library, areas, line, place, ready),
        },
    }
}
