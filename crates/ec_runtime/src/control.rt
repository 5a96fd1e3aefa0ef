//! Transaction control (PostgreSQL manual, chapter ECPG, Managing Transactions).

ghost use Rattle.std.specs.Prelude.{◌≡◌};
ghost use Rattle.ec_link.specs.Conn.{slot_of};
ghost use Rattle.ec_link.specs.Links.{talk_by, faults_by};
ghost use Rattle.ec_link.specs.Logged.{IsAsk};
ghost use Rattle.ec_link.specs.Rack.{slots_of};
ghost use Rattle.ec_link.specs.Slot.{states};
ghost use Rattle.ec_link.specs.SlotState.{TakenAt};
ghost use Rattle.ec_transfer_defs.specs.Area.{IsArea};
ghost use Rattle.ec_runtime.specs.Does.{Over};
ghost use Rattle.ec_runtime.specs.Resuming.{request_controlled};
ghost use Rattle.std.specs.declared.option.Option.{Option};

use crate::answering::controlled;
use crate::open::{Open, ask};
use crate::stop::Stop;
use ec_base::Line;
use ec_link::{Link, Rack, Request};
use ec_memory::Store;

/// Transaction control is sent as it stands, and a reply that is neither rows nor done ends the call.
pub(crate) fn send_control(
    store: &mut Store,
    rack: &mut Rack,
    session: &mut Open,
    line: Line,
    request: Request,
) -> Result<(), Stop>
    requires area { IsArea store.old }
    requires taken { TakenAt (states (slots_of rack.old)) (slot_of session.old.conn) }
    requires asks { IsAsk request }
    ensures over { Over (talk_by ⟦<dyn Link as Link>⟧) (faults_by ⟦<dyn Link as Link>⟧)
        (request_controlled line.0 (slot_of session.old.conn) request)
        store.old rack.old session.old store.new rack.new session.new result }
    ensures kept { IsArea store.new }
    ensures still_taken { TakenAt (states (slots_of rack.new)) (slot_of session.new.conn) }
{
    match ask(rack, session, request) {
        Err(_) => Err(Stop::OutOfMemory),
        Ok(()) => match rack.last_reply() {
            Some(reply) => controlled(store, line, reply),
            None => unreachable!(),
        },
    }
}
