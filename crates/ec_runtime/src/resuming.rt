//! From a request that waits to the next one, or to the end of the call.

ghost use Rattle.std.specs.Prelude.{◌≡◌, ◌<◌, ℕ, None, length, slice_get, IfOk};
ghost use Rattle.ec_link.specs.Conn.{slot_of};
ghost use Rattle.ec_link.specs.Links.{talk_by, faults_by};
ghost use Rattle.ec_link.specs.Logged.{IsAsk};
ghost use Rattle.ec_link.specs.Rack.{slots_of};
ghost use Rattle.ec_link.specs.Slot.{states};
ghost use Rattle.ec_link.specs.SlotState.{TakenAt};
ghost use Rattle.ec_runtime.specs.Calling.{connections_of, ChangesWith, Holds};
ghost use Rattle.ec_runtime.specs.Does.{OverWith};
ghost use Rattle.ec_runtime.specs.Resuming.{over_part};
ghost use Rattle.ec_runtime.specs.Says.{giving};
ghost use Rattle.ec_runtime.specs.Waiting.{asking_of, asking_seen, behind_view, slot_for, BehindFits, FirstFits, Fits, WaitsFit};
ghost use Rattle.ec_stopping_defs.specs.Resuming.{asks, stepped};
ghost use Rattle.ec_transfer_defs.specs.Area.{IsArea};
ghost use Rattle.std.specs.declared.option.Option.{Option};

use crate::autocommit::commit;
use crate::connecting::open_new;
use crate::control::send_control;
use crate::disconnecting::{close_at, close_last};
use crate::firsts::at_place;
use crate::open::Open;
use crate::preparing::{forget_behind, keep_behind};
use crate::running::send;
use crate::sessions::Sessions;
use crate::stop::Stop;
use crate::waiting::{Behind, Waiting, Waits};
use ec_base::Line;
use ec_descriptors::Areas;
use ec_link::{Link, Rack, Request};
use ec_memory::Store;
use std::alloc::Global;

/// Nothing is asked behind that.
fn over_ended(done: Result<(), Stop>) -> Result<Option<(Request, Behind)>, Stop>
    ensures { result ≡ giving None done }
{
    match done {
        Ok(()) => Ok(None),
        Err(stop) => Err(stop),
    }
}

/// The request is made over its connection, and its answer is answered.
fn reply_over(
    store: &mut Store,
    rack: &mut Rack,
    session: &mut Open,
    areas: &mut Areas,
    line: Line,
    request: Request,
    behind: Behind,
) -> Result<Option<(Request, Behind)>, Stop>
    requires area { IsArea store.old }
    requires taken { TakenAt (states (slots_of rack.old)) (slot_of session.old.conn) }
    requires asks { IsAsk request }
    requires fits { BehindFits areas.old behind }
    ensures over { OverWith (talk_by ⟦<dyn Link as Link>⟧) (faults_by ⟦<dyn Link as Link>⟧)
        (over_part line.0 (slot_of session.old.conn) request behind)
        store.old areas.old rack.old session.old
        store.new areas.new rack.new session.new result }
    ensures fits { IfOk result (λ it. FirstFits areas.new it) }
    ensures kept { IsArea store.new }
    ensures still_taken { TakenAt (states (slots_of rack.new)) (slot_of session.new.conn) }
{
    match behind {
        Behind::Begun {
            request: second,
            outputs,
        } => match send_control(store, rack, session, line, request) {
            Err(stop) => Err(stop),
            Ok(()) => Ok(Some((second, Behind::Replied(outputs)))),
        },
        Behind::Replied(outputs) => {
            over_ended(send(store, rack, session, areas, line, request, &outputs))
        }
        Behind::Controlled => over_ended(send_control(store, rack, session, line, request)),
        Behind::Committed(on) => over_ended(commit(store, rack, session, line, request, on)),
        Behind::Kept { name, text } => {
            over_ended(keep_behind(store, rack, session, line, request, name, text))
        }
        Behind::Forgotten(name) => {
            over_ended(forget_behind(store, rack, session, line, request, &name))
        }
    }
}

/// The request is made over the connection at a place.
fn resume_over(
    store: &mut Store,
    rack: &mut Rack,
    library: &mut Sessions,
    areas: &mut Areas,
    line: Line,
    at: usize,
    request: Request,
    behind: Behind,
) -> Result<Option<Waiting>, Stop>
    requires area { IsArea store.old }
    requires holds { Holds library.old rack.old }
    requires within { at < length library.old.sessions.items }
    requires asks { IsAsk request }
    requires fits { BehindFits areas.old behind }
    ensures changes { ChangesWith (talk_by ⟦<dyn Link as Link>⟧) (faults_by ⟦<dyn Link as Link>⟧)
        (stepped line.0 (asks (slot_for (slice_get (connections_of library.old) at))
        request (behind_view behind)))
        store.old areas.old rack.old library.old store.new areas.new rack.new library.new
        (asking_seen (connections_of library.new) result) }
    ensures fits { IfOk result (λ it. Fits (connections_of library.new) areas.new it) }
    ensures kept { IsArea store.new }
    ensures still_holds { Holds library.new rack.new }
{
    let session = &mut library.sessions[at];
    at_place(
        at,
        reply_over(store, rack, session, areas, line, request, behind),
    )
}

/// The call is at its end.
pub(crate) fn ended(done: Result<(), Stop>) -> Result<Option<Waiting>, Stop>
    ensures { result ≡ giving None done }
{
    match done {
        Ok(()) => Ok(None),
        Err(stop) => Err(stop),
    }
}

/// Makes the request that waits, and goes on to the next one or to the end of the call.
pub(crate) fn step(
    alloc: Global,
    store: &mut Store,
    rack: &mut Rack,
    library: &mut Sessions,
    areas: &mut Areas,
    line: Line,
    waiting: Waiting,
) -> Result<Option<Waiting>, Stop>
    requires area { IsArea store.old }
    requires holds { Holds library.old rack.old }
    requires fits { WaitsFit (connections_of library.old) areas.old waiting.request waiting.waits }
    ensures changes { ChangesWith (talk_by ⟦<dyn Link as Link>⟧) (faults_by ⟦<dyn Link as Link>⟧)
        (stepped line.0 (asking_of (connections_of library.old) waiting))
        store.old areas.old rack.old library.old store.new areas.new rack.new library.new
        (asking_seen (connections_of library.new) result) }
    ensures fits { IfOk result (λ it. Fits (connections_of library.new) areas.new it) }
    ensures kept { IsArea store.new }
    ensures still_holds { Holds library.new rack.new }
{
    let Waiting { request, waits } = waiting;
    match waits {
        Waits::Over { at, behind } => {
            resume_over(store, rack, library, areas, line, at, request, behind)
        }
        Waits::Connecting(name) => {
            ended(open_new(alloc, store, rack, library, line, name, request))
        }
        Waits::ClosingOne(at) => ended(close_at(rack, library, at)),
        Waits::ClosingAll => close_last(rack, library),
    }
}
