//! Whether each statement is a transaction by itself (PostgreSQL manual, chapter ECPG, SET AUTOCOMMIT).

ghost use Rattle.std.specs.Prelude.{◌≡◌};
ghost use Rattle.ec_link.specs.Conn.{slot_of};
ghost use Rattle.ec_link.specs.Links.{talk_by, faults_by};
ghost use Rattle.ec_link.specs.Logged.{IsAsk};
ghost use Rattle.ec_link.specs.Rack.{slots_of};
ghost use Rattle.ec_link.specs.Slot.{states};
ghost use Rattle.ec_link.specs.SlotState.{TakenAt};
ghost use Rattle.ec_transfer_defs.specs.Area.{IsArea};
ghost use Rattle.ec_call_defs.specs.Autocommit.{commits_first};
ghost use Rattle.ec_runtime.specs.Does.{Over};
ghost use Rattle.ec_runtime.specs.Opening.{open_view};
ghost use Rattle.ec_runtime.specs.Resuming.{over_done};
ghost use Rattle.ec_runtime.specs.declared.waiting.Behind.TheVariants as behinds;
ghost use Rattle.std.specs.declared.option.Option.{Option};

use crate::control::send_control;
use crate::open::Open;
use crate::stop::Stop;
use ec_base::Line;
use ec_link::{Link, Rack, Request, Tx};
use ec_memory::Store;

/// Whether a transaction is to be committed first: autocommit goes on, was off, and the server is in a transaction.
pub(crate) fn commits_first(on: bool, session: &Open) -> bool
    ensures { result ≡ commits_first on (open_view session.now) }
{
    if !on || session.autocommit {
        return false;
    }
    match session.told {
        Tx::Idle => false,
        Tx::Active => true,
        Tx::Failed => true,
    }
}

/// `commit` is sent, and autocommit is set once it is carried out.
pub(crate) fn commit(
    store: &mut Store,
    rack: &mut Rack,
    session: &mut Open,
    line: Line,
    request: Request,
    on: bool,
) -> Result<(), Stop>
    requires area { IsArea store.old }
    requires taken { TakenAt (states (slots_of rack.old)) (slot_of session.old.conn) }
    requires asks { IsAsk request }
    ensures over { Over (talk_by ⟦<dyn Link as Link>⟧) (faults_by ⟦<dyn Link as Link>⟧)
        (over_done line.0 (slot_of session.old.conn) request (behinds.Committed on))
        store.old rack.old session.old store.new rack.new session.new result }
    ensures kept { IsArea store.new }
    ensures still_taken { TakenAt (states (slots_of rack.new)) (slot_of session.new.conn) }
{
    match send_control(store, rack, session, line, request) {
        Err(stop) => Err(stop),
        Ok(()) => {
            session.autocommit = on;
            Ok(())
        }
    }
}
