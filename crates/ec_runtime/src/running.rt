//! A statement over an open connection.

ghost use Rattle.std.specs.Prelude.{◌≡◌};
ghost use Rattle.ec_link.specs.Conn.{slot_of};
ghost use Rattle.ec_link.specs.Links.{talk_by, faults_by};
ghost use Rattle.ec_link.specs.Logged.{IsAsk};
ghost use Rattle.ec_link.specs.Rack.{slots_of};
ghost use Rattle.ec_link.specs.Slot.{states};
ghost use Rattle.ec_link.specs.SlotState.{TakenAt};
ghost use Rattle.ec_transfer_defs.specs.Area.{IsArea};
ghost use Rattle.ec_runtime.specs.Does.{OverWith};
ghost use Rattle.ec_runtime.specs.Statements.{IsThere, sent, outputs_view};
ghost use Rattle.std.specs.declared.option.Option.{Option};

use crate::answering::answered;
use crate::open::{Open, ask};
use crate::order::Outputs;
use crate::stop::Stop;
use ec_base::Line;
use ec_descriptors::Areas;
use ec_link::{Link, Rack, Request};
use ec_memory::Store;

/// The text is sent, and its reply is answered.
pub(crate) fn send(
    store: &mut Store,
    rack: &mut Rack,
    session: &mut Open,
    areas: &mut Areas,
    line: Line,
    request: Request,
    outputs: &Outputs,
) -> Result<(), Stop>
    requires area { IsArea store.old }
    requires taken { TakenAt (states (slots_of rack.old)) (slot_of session.old.conn) }
    requires asks { IsAsk request }
    requires there { IsThere (outputs_view outputs.now) areas.old }
    ensures over { OverWith (talk_by ⟦<dyn Link as Link>⟧) (faults_by ⟦<dyn Link as Link>⟧)
        (sent line.0 request (outputs_view outputs.now) (slot_of session.old.conn))
        store.old areas.old rack.old session.old
        store.new areas.new rack.new session.new result }
    ensures kept { IsArea store.new }
    ensures still_taken { TakenAt (states (slots_of rack.new)) (slot_of session.new.conn) }
{
    match ask(rack, session, request) {
        Err(_) => Err(Stop::OutOfMemory),
        Ok(()) => match rack.last_reply() {
            Some(reply) => answered(store, areas, line, outputs, reply),
            None => unreachable!(),
        },
    }
}
