//! The library: its connections and descriptors, and its calls.

ghost use Rattle.std.specs.Prelude.{◌≡◌, ℕ, length, IfOk, OnOk, OnErr, IsSome, None, Some, []};
ghost use Rattle.ec_call_defs.specs.Areas.{Areas as Named};
ghost use Rattle.ec_link.specs.Links.{talk_by, faults_by};
ghost use Rattle.ec_link.specs.Rack.{slots_of, log_of};
ghost use Rattle.ec_link.specs.declared.request.Request.{Request};
ghost use Rattle.ec_transfer_defs.specs.Area.{IsArea};
ghost use Rattle.ec_runtime.specs.Calling.{connections_of, conns_of, seen_by, AllBeside, Called, Closes, Holds, Opens, Stays};
ghost use Rattle.ec_runtime.specs.Proceeding.{asked_of, kept_of, left_of, pending_view, progress_of, waiting_of, IsFit, Nears, Resumes, Starts};
ghost use Rattle.ec_runtime.specs.Starts.{Leads};
ghost use Rattle.ec_runtime.specs.Statements.{call_action, cut_view, kind_view};
ghost use Rattle.ec_runtime.specs.Waiting.{asking_seen, some_of, waits_view, Fits, WaitsFit};
ghost use Rattle.ec_stopping_defs.specs.Resuming.{call_started, is_asked_over, residual, Asking};

use crate::call::{Call, Kind};
use crate::connecting::{set_connection, start_connect};
use crate::describing::describe;
use crate::disconnecting::start_disconnect;
use crate::firsts::start_act;
use crate::resuming::{ended, step};
use crate::sessions::Sessions;
use crate::stop::{CallStop, Stop};
use crate::waiting::{UnderWay, Waiting, Waits};
use ec_base::{Line, OutOfMemory};
use ec_descriptors::Areas;
use ec_link::{Link, Rack, Request};
use ec_memory::Store;
use std::alloc::Global;

/// The library of a program: the connections that are open, and the descriptors.
///
/// It can't be dropped, since its connections have to be given back.
pub struct Library {
    pub(crate) connections: Sessions,
    pub(crate) areas: Areas,
    pub(crate) under_way: Option<UnderWay>,
}

/// How far a call is.
#[derive(Clone, Copy, Debug, PartialEq, Eq)]
pub enum Progress {
    /// It waits with a request.
    Asks,
    /// It is at its end.
    Done,
}

/// A request that has no answer yet.
#[derive(Debug, Drop)]
pub struct Pending<'l> {
    /// The slot of the connection that it is made over. A request for a connection has none.
    pub slot: Option<u32>,
    pub request: &'l Request,
}

/// A call, up to its first request.
fn begin_call(
    alloc: Global,
    store: &mut Store,
    library: &mut Sessions,
    areas: &mut Areas,
    line: Line,
    kind: Kind,
) -> Result<Option<Waiting>, Stop>
    requires area { IsArea store.old }
    requires beside { AllBeside (conns_of library.old) }
    ensures leads { Leads (asking_seen (connections_of library.new) result)
        (λ s. call_started line.0 (kind_view kind) s)
        (seen_by store.old library.old) areas.old (seen_by store.new library.new) areas.new }
    ensures fits { IfOk result (λ it. Fits (connections_of library.new) areas.new it) }
    ensures stays { Stays library.old library.new }
    ensures kept { IsArea store.new }
{
    match kind {
        Kind::Over(connection, what) => {
            start_act(alloc, store, library, areas, line, &connection, what)
        }
        Kind::Connect(given) => asked(start_connect(alloc, store, library, line, &given)),
        Kind::Disconnect(text) => start_disconnect(store, library, line, &text),
        Kind::SetConnection(text) => ended(set_connection(alloc, store, library, line, &text)),
        Kind::Describe(name, what) => ended(describe(alloc, store, areas, line, &name, &what)),
    }
}

/// What is asked for.
fn asked(waiting: Result<Waiting, Stop>) -> Result<Option<Waiting>, Stop>
    ensures { result ≡ some_of waiting }
{
    match waiting {
        Ok(it) => Ok(Some(it)),
        Err(stop) => Err(stop),
    }
}

/// The slot that a request goes to. A request for a connection has none.
fn slot_for(library: &Sessions, waits: &Waits) -> Option<u32>
    requires { (areas : Named) × (request : Request) × WaitsFit (connections_of library.now) areas request waits.now }
    ensures { (request : Request) → result
        ≡ is_asked_over (waits_view (connections_of library.now) request waits.now) }
{
    match waits {
        Waits::Over { at, .. } => Some(library.sessions[*at].conn.slot()),
        Waits::Connecting(_) => None,
        Waits::ClosingOne(at) => Some(library.sessions[*at].conn.slot()),
        Waits::ClosingAll => Some(library.sessions[library.sessions.len() - 1].conn.slot()),
    }
}

impl Library {
    /// A library without a connection and without a descriptor. It takes no memory.
    pub fn new(alloc: Global) -> Library
        ensures connections { conns_of result.connections ≡ [] }
        ensures current { result.connections.current ≡ None }
        ensures descriptors { result.areas ≡ [] }
        ensures under_way { result.under_way ≡ None }
    {
        Library {
            connections: Sessions::new(alloc),
            areas: Areas::new(alloc),
            under_way: None,
        }
    }

    /// Opens the connection that a program begins with: the link of the slot that is ready becomes it, with the target's
    /// name. Autocommit is on, and the server is in no transaction. Where no slot is ready nothing is changed, and so it is
    /// after want of memory.
    pub fn open_ready(&mut self, rack: &mut Rack) -> Result<(), OutOfMemory>
        requires { conns_of self.old.connections ≡ [] }
        ensures ok { OnOk result
            (Opens (slots_of rack.old) self.new.connections (slots_of rack.new)) }
        ensures err { OnErr result (slots_of rack.new ≡ slots_of rack.old) }
        ensures unopened { OnErr result (conns_of self.new.connections ≡ []) }
        ensures log { log_of rack.new ≡ log_of rack.old }
        ensures holds { Holds self.new.connections rack.new }
        ensures descriptors { self.new.areas ≡ self.old.areas }
        ensures under_way { self.new.under_way ≡ self.old.under_way }
    {
        self.connections.open_ready(rack)
    }

    /// Keeps the request that waits, and tells how far a call of this line is.
    fn settle(
        &mut self,
        line: Line,
        part: Result<Option<Waiting>, Stop>,
    ) -> Result<Progress, CallStop>
        ensures result { result ≡ progress_of part }
        ensures under_way { self.new.under_way ≡ kept_of line part }
        ensures connections { self.new.connections ≡ self.old.connections }
        ensures areas { self.new.areas ≡ self.old.areas }
    {
        self.under_way = None;
        match part {
            Ok(None) => Ok(Progress::Done),
            Ok(Some(waiting)) => {
                self.under_way = Some(UnderWay { line, waiting });
                Ok(Progress::Asks)
            }
            Err(Stop::Finished) => Ok(Progress::Done),
            Err(Stop::Trapped(trap)) => Err(CallStop::Trapped(trap)),
            Err(Stop::OutOfMemory) => Err(CallStop::OutOfMemory),
        }
    }

    /// Begins a call, and goes on up to its first request, or to its end if it makes none. Nothing is asked, and nothing
    /// is said. What goes wrong stands in `sqlca`, which is the first object of the memory. A call that was under way is
    /// let go.
    pub fn start(
        &mut self,
        alloc: Global,
        store: &mut Store,
        it: Call,
    ) -> Result<Progress, CallStop>
        requires area { IsArea store.old }
        requires beside { AllBeside (conns_of self.old.connections) }
        ensures starts { Starts (cut_view it) store.old self.old store.new self.new result }
        ensures fits { IsFit self.new }
        ensures stays { Stays self.old.connections self.new.connections }
        ensures kept { IsArea store.new }
    {
        let Call { line, kind } = it;
        let connections = &mut self.connections;
        let areas = &mut self.areas;
        let part = begin_call(alloc, store, connections, areas, line, kind);
        self.settle(line, part)
    }

    /// The request that has no answer yet, if a call is under way.
    pub fn pending(&self) -> Option<Pending<'_>>
        requires { IsFit self.now }
        ensures { pending_view result ≡ asked_of (waiting_of self.now) }
    {
        match &self.under_way {
            None => None,
            Some(it) => Some(Pending {
                slot: slot_for(&self.connections, &it.waiting.waits),
                request: &it.waiting.request,
            }),
        }
    }

    /// Lets a call that is under way go. Its request isn't made.
    pub fn abandon(&mut self)
        ensures under_way { self.new.under_way ≡ None }
        ensures connections { self.new.connections ≡ self.old.connections }
        ensures areas { self.new.areas ≡ self.old.areas }
    {
        self.under_way = None;
    }

    /// How many connections are open.
    pub fn count(&self) -> usize
        ensures { result ≡ length (connections_of self.now.connections) }
    {
        self.connections.sessions.len()
    }

    /// Makes the request that waits, and goes on to the next one or to the end of the call. After a stop no call is under
    /// way.
    pub fn resume(
        &mut self,
        alloc: Global,
        store: &mut Store,
        rack: &mut Rack,
    ) -> Result<Progress, CallStop>
        requires area { IsArea store.old }
        requires holds { Holds self.old.connections rack.old }
        requires fits { IsFit self.old }
        requires waits { IsSome self.old.under_way }
        ensures resumes { (line : ℕ) (u : Asking) → waiting_of self.old ≡ Some (line, u)
            → Resumes (talk_by ⟦<dyn Link as Link>⟧) (faults_by ⟦<dyn Link as Link>⟧)
            line u store.old rack.old self.old store.new rack.new self.new result }
        ensures nears { Nears result (left_of (waiting_of self.old)) (left_of (waiting_of self.new)) }
        ensures still_fits { IsFit self.new }
        ensures kept { IsArea store.new }
        ensures still_holds { Holds self.new.connections rack.new }
    {
        match self.under_way.take() {
            None => unreachable!(),
            Some(UnderWay { line, waiting }) => {
                let connections = &mut self.connections;
                let areas = &mut self.areas;
                let part = step(alloc, store, rack, connections, areas, line, waiting);
                self.settle(line, part)
            }
        }
    }

    /// Carries a call out. What goes wrong stands in `sqlca`, which is the first object of the memory; a trap ends the
    /// run. After want of memory a front of what the call says was said, and the program isn't run on.
    pub fn call(
        &mut self,
        alloc: Global,
        store: &mut Store,
        rack: &mut Rack,
        it: Call,
    ) -> Result<(), CallStop>
        requires area { IsArea store.old }
        requires holds { Holds self.old.connections rack.old }
        ensures called { Called (talk_by ⟦<dyn Link as Link>⟧) (faults_by ⟦<dyn Link as Link>⟧)
            (call_action it) store.old rack.old self.old store.new rack.new self.new result }
        ensures kept { IsArea store.new }
        ensures still_holds { Holds self.new.connections rack.new }
    {
        match self.start(alloc, store, it) {
            Err(stop) => Err(stop),
            Ok(Progress::Done) => Ok(()),
            Ok(Progress::Asks) => go_on(alloc, store, rack, self),
        }
    }

    /// Gives the connections back: the slot of each is free again, and nothing is asked. The descriptors are let go.
    pub fn finish(self, rack: &mut Rack)
        requires { Holds self.connections rack.old }
        ensures closes { Closes (slots_of rack.old) self.connections (slots_of rack.new) }
        ensures log { log_of rack.new ≡ log_of rack.old }
    {
        let Library {
            connections,
            areas: _,
            under_way: _,
        } = self;
        connections.finish(rack);
    }
}

/// Makes the requests of a call that is under way, up to its end.
fn go_on(
    alloc: Global,
    store: &mut Store,
    rack: &mut Rack,
    library: &mut Library,
) -> Result<(), CallStop>
    requires area { IsArea store.old }
    requires holds { Holds library.old.connections rack.old }
    requires fits { IsFit library.old }
    requires waits { IsSome library.old.under_way }
    ensures called { (line : ℕ) (u : Asking) → waiting_of library.old ≡ Some (line, u)
        → Called (talk_by ⟦<dyn Link as Link>⟧) (faults_by ⟦<dyn Link as Link>⟧)
        (residual line u) store.old rack.old library.old store.new rack.new library.new result }
    ensures kept { IsArea store.new }
    ensures still_holds { Holds library.new.connections rack.new }
{
    match library.resume(alloc, store, rack) {
        Err(stop) => Err(stop),
        Ok(Progress::Done) => Ok(()),
        Ok(Progress::Asks) => go_on(alloc, store, rack, library),
    }
}
