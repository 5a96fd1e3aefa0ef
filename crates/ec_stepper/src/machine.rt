//! A machine with its own connections, which stops before each request.

ghost use Rattle.std.specs.Prelude.{◌≡◌, ◌<◌, ◌^◌, [], None, length, IfOk, OnOk, OnErr};
ghost use Rattle.ec_interp.specs.declared.end.Step.TheVariants as steps;
ghost use Rattle.ec_link.specs.Links.{faults_by, talk_by};
ghost use Rattle.ec_link.specs.Rack.{log_of, slots_of};
ghost use Rattle.ec_link.specs.Slot.{states};
ghost use Rattle.ec_link.specs.SlotState.{ready_slot};
ghost use Rattle.ec_runtime.specs.Calling.{Closes, Holds, TakesFirst, conns_of};
ghost use Rattle.ec_runtime.specs.Proceeding.{IsFit, asked_of, pending_view, waiting_of};
ghost use Rattle.ec_stepper.specs.Advancing.{Advances, Reaches};
ghost use Rattle.ec_stepper.specs.Ready.{ready_view};
ghost use Rattle.ec_stepper.specs.Running.{IsFresh, IsOf};
ghost use Rattle.ec_stepper.specs.declared.standing.Standing.TheVariants as standings;

use crate::ready::{Ready, first_ready};
use crate::standing::{Standing, behind};
use ec_base::{List, OutOfMemory, Sink};
use ec_calling::{Call, Session};
use ec_code::Program;
use ec_interp::{Machine as Run, RunEnd, Step};
use ec_link::{Link, Rack};
use ec_memory::Store;
use ec_runtime::{Library, Pending};
use std::alloc::Global;
use std::mem;

/// A machine for a program with its calls, and its connections over a rack. It isn't let go by itself: `give_up` takes it
/// apart.
pub struct Machine<'p> {
    pub(crate) alloc: Global,
    pub(crate) calls: &'p [Call],
    pub(crate) run: Run<'p>,
    pub(crate) library: Library,
    /// The places of its exchanges in the rack's log.
    pub(crate) places: List<u64>,
    /// The turns that its run was begun with.
    pub(crate) turns: u64,
    /// The slot that its run was begun over.
    pub(crate) ready: Option<Ready>,
    pub(crate) standing: Standing,
}

impl<'p> Machine<'p> {
    /// A machine that has not begun, with a library without a connection and without a descriptor. It takes no memory.
    pub fn new(
        alloc: Global,
        program: &'p Program,
        calls: &'p [Call],
        library: Library,
    ) -> Machine<'p>
        requires connections { conns_of library.connections ≡ [] }
        requires descriptors { library.areas ≡ [] }
        requires under_way { library.under_way ≡ None }
        ensures fresh { IsFresh result }
        ensures program { result.run.program.now ≡ program.now }
        ensures calls { result.calls.now ≡ calls.now }
        ensures fits { IsFit result.library }
    {
        Machine {
            alloc,
            calls,
            run: Run::new(alloc, program),
            library,
            places: List::new(alloc),
            turns: 0,
            ready: None,
            standing: Standing::New,
        }
    }

    /// Takes the first ready slot, if there is one: its link becomes the connection that the run begins with. The run may
    /// take so many turns. After want of memory the rack is unchanged, and the machine has not begun.
    pub fn begin(&mut self, turns: u64, rack: &mut Rack) -> Result<(), OutOfMemory>
        requires fresh { IsFresh self.old }
        requires few { length (slots_of rack.old) < 2 ^ 32 }
        ensures of { OnOk result (IsOf (log_of rack.new) self.new) }
        ensures begun { OnOk result (self.new.standing ≡ standings.Begun) }
        ensures turns { OnOk result (self.new.turns ≡ turns) }
        ensures ready { OnOk result
            (ready_view self.new.ready ≡ ready_slot (states (slots_of rack.old))) }
        ensures taken { OnOk result (TakesFirst (slots_of rack.old)
            (conns_of self.new.library.connections) (slots_of rack.new)) }
        ensures slots { OnErr result (slots_of rack.new ≡ slots_of rack.old) }
        ensures fresh { OnErr result (IsFresh self.new) }
        ensures log { log_of rack.new ≡ log_of rack.old }
        ensures program { self.new.run.program.now ≡ self.old.run.program.now }
        ensures calls { self.new.calls.now ≡ self.old.calls.now }
        ensures fits { IsFit self.new.library }
        ensures holds { Holds self.new.library.connections rack.new }
    {
        let ready = first_ready(rack.slots().as_slice())?;
        self.library.open_ready(rack)?;
        self.ready = ready;
        self.turns = turns;
        self.standing = Standing::Begun;
        Ok(())
    }

    /// The first step: the run goes from its beginning to its first request, or to its end.
    fn first_step<O: Sink, E: Sink>(&mut self, rack: &mut Rack, out: &mut O, err: &mut E) -> Step
        requires standing { self.old.standing ≡ standings.Begun }
        requires of { IsOf (log_of rack.old) self.old }
        requires holds { Holds self.old.library.connections rack.old }
        ensures { Advances (talk_by ⟦<dyn Link as Link>⟧) (faults_by ⟦<dyn Link as Link>⟧)
            O.held O.faults E.held E.faults self.old rack.old self.new rack.new
            out.old out.new err.old err.new result }
    {
        let turns = self.turns;
        let library = &mut self.library;
        let places = &mut self.places;
        let mut session = Session::new(self.alloc, self.calls, rack, library, places);
        let step = self.run.begin(turns, &mut session, out, err);
        let Session {
            alloc: _,
            calls: _,
            rack: _rack,
            library: _library,
            places: _places,
            links: _,
        } = session;
        self.standing = behind(step);
        step
    }

    /// A further step: the request that waits is made, and the run goes on to its next request, or to its end.
    fn next_step<O: Sink, E: Sink>(&mut self, rack: &mut Rack, out: &mut O, err: &mut E) -> Step
        requires standing { self.old.standing ≡ standings.Asks }
        requires of { IsOf (log_of rack.old) self.old }
        requires holds { Holds self.old.library.connections rack.old }
        ensures { Advances (talk_by ⟦<dyn Link as Link>⟧) (faults_by ⟦<dyn Link as Link>⟧)
            O.held O.faults E.held E.faults self.old rack.old self.new rack.new
            out.old out.new err.old err.new result }
    {
        let library = &mut self.library;
        let places = &mut self.places;
        let mut session = Session::new(self.alloc, self.calls, rack, library, places);
        let step = self.run.advance(&mut session, out, err);
        let Session {
            alloc: _,
            calls: _,
            rack: _rack,
            library: _library,
            places: _places,
            links: _,
        } = session;
        self.standing = behind(step);
        step
    }

    /// Makes the request that waits, if one does, by one call of the rack, and runs on to the next one or to the end of the
    /// run. What the program prints is put into two sinks.
    ///
    /// Let A be the answers in the log at the machine's places before, and B those behind. Where no request waited, B is A,
    /// and the log stays. Where one did, B is A and the answer to that request, by which alone the log grows; after want of
    /// memory it may not have been made. Where neither a sink failed nor memory was wanting, the run of the program over B
    /// waits or ends as the step tells: its conversation is the exchanges at the places, both sinks took what it shows beyond
    /// the run over A, which in the first step is all, and the memory is its memory. After `WriteFault` and `OutOfMemory` the
    /// exchanges are a front of that conversation, and both sinks took fronts of that.
    pub fn advance<O: Sink, E: Sink>(&mut self, rack: &mut Rack, out: &mut O, err: &mut E) -> Step
        requires of { IsOf (log_of rack.old) self.old }
        requires holds { Holds self.old.library.connections rack.old }
        ensures { Advances (talk_by ⟦<dyn Link as Link>⟧) (faults_by ⟦<dyn Link as Link>⟧)
            O.held O.faults E.held E.faults self.old rack.old self.new rack.new
            out.old out.new err.old err.new result }
    {
        match self.standing {
            Standing::Begun => self.first_step(rack, out, err),
            Standing::Asks => self.next_step(rack, out, err),
            Standing::New | Standing::Ended | Standing::Released => unreachable!(),
        }
    }

    /// Steps until the run is over, or is left.
    pub fn go_on<O: Sink, E: Sink>(&mut self, rack: &mut Rack, out: &mut O, err: &mut E) -> RunEnd
        requires of { IsOf (log_of rack.old) self.old }
        requires holds { Holds self.old.library.connections rack.old }
        ensures { Reaches (talk_by ⟦<dyn Link as Link>⟧) (faults_by ⟦<dyn Link as Link>⟧)
            O.held O.faults E.held E.faults self.old rack.old self.new rack.new
            out.old out.new err.old err.new (steps.Ended result) }
    {
        let mut step = self.advance(rack, out, err);
        'asks: loop {
            match step {
                Step::Ended(end) => return end,
                Step::Asks => step = self.advance(rack, out, err),
            }
        }
    }

    /// The request that waits, and the slot that it goes to. A request for a connection has no slot.
    pub fn pending(&self) -> Option<Pending<'_>>
        requires { IsFit self.now.library }
        ensures { pending_view result ≡ asked_of (waiting_of self.now.library) }
    {
        self.library.pending()
    }

    /// The places of the machine's exchanges in the rack's log, in order.
    pub fn places(&self) -> &List<u64>
        ensures { result.now ≡ self.now.places }
    {
        &self.places
    }

    /// The memory of the run.
    pub fn store(&self) -> &Store
        ensures { result.now ≡ self.now.run.frames.store }
    {
        self.run.store()
    }

    /// Gives the connections back: the slot of each is free again, and nothing is asked. A call that is under way is given
    /// up. It takes no memory.
    pub fn release(&mut self, rack: &mut Rack)
        requires { Holds self.old.library.connections rack.old }
        ensures closes { Closes (slots_of rack.old) self.old.library.connections (slots_of rack.new) }
        ensures log { log_of rack.new ≡ log_of rack.old }
        ensures connections { conns_of self.new.library.connections ≡ [] }
        ensures standing { self.new.standing ≡ standings.Released }
        ensures fits { IsFit self.new.library }
    {
        let library = mem::replace(&mut self.library, Library::new(self.alloc));
        library.finish(rack);
        self.standing = Standing::Released;
    }

    /// Takes the machine apart, and gives back the connections that it still has. It takes no memory.
    pub fn give_up(self, rack: &mut Rack)
        requires { Holds self.library.connections rack.old }
        ensures closes { Closes (slots_of rack.old) self.entry.library.connections
            (slots_of rack.new) }
        ensures log { log_of rack.new ≡ log_of rack.old }
    {
        let Machine {
            alloc: _,
            calls: _,
            run,
            library,
            places: _,
            turns: _,
            ready: _,
            standing: _,
        } = self;
        run.give_up();
        library.finish(rack);
    }
}
