//! The library of a program, over its rack of links.

ghost use Rattle.std.specs.Prelude.{◌≡◌, true, length};
ghost use Rattle.ec_link.specs.Rack.{log_of};
ghost use Rattle.ec_calling.specs.Held.{are_within, is_fit, is_held};

use crate::call::Call;
use crate::resuming::go_on;
use crate::starting::begin_call;
use ec_base::{Line, List};
use ec_bytes::Ptr;
use ec_interp::running::{Library, Progress};
use ec_link::{Link, Rack};
use ec_machine::Stop;
use ec_memory::Store;
use ec_runtime::Library as Runtime;
use ec_values::Word;
use std::alloc::Global;
use std::marker::PhantomData;

/// The library of a program whose calls are these, over a rack of links that others may use too: the exchanges of this
/// program have these places in its log.
///
/// It names the links, which the rack has inside, so that its ghost members can speak of what they tell.
pub struct Session<'p, 'r> {
    pub alloc: Global,
    pub calls: &'p [Call],
    pub rack: &'r mut Rack,
    pub library: &'r mut Runtime,
    pub places: &'r mut List<u64>,
    pub links: PhantomData<Box<dyn Link>>,
    ghost holds: { is_held library.now rack.now ≡ true },
    ghost within: { are_within (length (log_of rack.now)) places.now ≡ true },
    ghost fits: { is_fit library.now ≡ true },
}

impl Library for Session<'_, '_> {
    ghost use Rattle.std.specs.Prelude.{map};
    ghost use Rattle.ec_call_defs.specs.Steps.{library_step};
    ghost use Rattle.ec_runtime.specs.Proceeding.{asked_of, left_of, waiting_of};
    ghost use Rattle.ec_calling.specs.Laws.{calls_add, calls_wait, library_suits, session_goes_on, session_stays};
    ghost use Rattle.ec_calling.specs.Leading.{Leads};
    ghost use Rattle.ec_calling.specs.Making.{going_of, known_of};
    ghost use Rattle.ec_calling.specs.Views.{call_view};

    ghost knowing = { λ it. library_step (map call_view it.calls.now) };

    ghost session = { λ it. known_of it.rack.now it.library.now it.places.now };

    ghost going = { λ it. going_of it.library.now };

    ghost asking = { λ it. asked_of (waiting_of it.library.now) };

    ghost left = { λ it. left_of (waiting_of it.library.now) };

    ghost leads = { λ old new. Leads (λ b. (Link-box b).talk b.value)
        (λ b. (Link-box b).faults b.value) old.calls.now old.rack old.library old.places
        new.calls.now new.rack new.library new.places };

    ghost suits = { λ it. library_suits (map call_view it.calls.now) };

    ghost adds = { λ it. calls_add (waiting_of it.library.now) };

    ghost waits = { λ it. calls_wait (waiting_of it.library.now) };

    ghost stays = { λ it. session_stays _ _ it.calls.now it.rack it.library it.places };

    ghost goes_on = { λ x y z. session_goes_on _ _ x.calls.now y.calls.now z.calls.now
        x.rack y.rack z.rack x.library y.library z.library x.places y.places z.places };

    fn start(
        &mut self,
        store: &mut Store,
        turns: &mut u64,
        line: Line,
        scope: &[Ptr],
        number: u32,
        given: &[Word],
    ) -> Result<Progress, Stop> {
        begin_call(
            self.alloc,
            store,
            turns,
            line,
            scope,
            self.library,
            self.calls,
            number,
            given,
        )
    }

    fn resume(&mut self, store: &mut Store, line: Line) -> Result<Progress, Stop> {
        go_on(
            self.alloc,
            store,
            self.rack,
            self.library,
            self.places,
            line,
        )
    }
}

impl<'p, 'r> Session<'p, 'r> {
    /// The library over a rack, with the places of its exchanges. It takes no memory.
    pub fn new(
        alloc: Global,
        calls: &'p [Call],
        rack: &'r mut Rack,
        library: &'r mut Runtime,
        places: &'r mut List<u64>,
    ) -> Session<'p, 'r>
        requires holds { is_held library.old rack.old ≡ true }
        requires within { are_within (length (log_of rack.old)) places.old ≡ true }
        requires fits { is_fit library.old ≡ true }
        ensures calls { result.calls.now ≡ calls.now }
        ensures rack { result.rack.now ≡ rack.old }
        ensures library { result.library.now ≡ library.old }
        ensures places { result.places.now ≡ places.old }
        ensures same_rack { result.rack.ghost_name ≡ rack.entry.ghost_name }
        ensures same_library { result.library.ghost_name ≡ library.entry.ghost_name }
        ensures same_places { result.places.ghost_name ≡ places.entry.ghost_name }
    {
        Session {
            alloc,
            calls,
            rack,
            library,
            places,
            links: PhantomData,
        }
    }
}
