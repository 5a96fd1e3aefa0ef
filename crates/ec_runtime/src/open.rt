//! The open connection of a library, and requests over it.

ghost use Rattle.std.specs.Prelude.{◌≡◌, OnOk, OnErr, []};
ghost use Rattle.ec_link.specs.Calls.{Asks};
ghost use Rattle.ec_link.specs.Conn.{slot_of};
ghost use Rattle.ec_link.specs.Links.{talk_by, faults_by};
ghost use Rattle.ec_link.specs.Logged.{IsAsk};
ghost use Rattle.ec_link.specs.Rack.{slots_of, log_of};
ghost use Rattle.ec_link.specs.Slot.{states};
ghost use Rattle.ec_link.specs.SlotState.{TakenAt};
ghost use Rattle.ec_call_defs.specs.Connections.{told_by, begins};
ghost use Rattle.ec_runtime.specs.Opening.{open_view, told_after, Asked};

use crate::prepared::Prepared;
use ec_base::{List, Name, OutOfMemory};
use ec_link::{Conn, Link, Rack, Reply, Request, Tx};

/// An open connection.
pub(crate) struct Open {
    /// Its name.
    pub(crate) name: Name,
    pub(crate) conn: Conn,
    /// Whether each statement is a transaction by itself.
    pub(crate) autocommit: bool,
    /// What the server told last of its transaction.
    pub(crate) told: Tx,
    /// Its prepared statements, in the order in which their names were new.
    pub(crate) prepared: List<Prepared>,
}

/// What a reply tells of its transaction.
fn told_by(reply: &Reply) -> Option<Tx>
    ensures { result ≡ told_by reply.now }
{
    match reply {
        Reply::Rows { tx, .. } => Some(*tx),
        Reply::Done { tx, .. } => Some(*tx),
        Reply::Refused { tx, .. } => Some(*tx),
        Reply::Connected => None,
        Reply::NoTarget => None,
        Reply::Broken => None,
    }
}

/// Whether a transaction is to be begun before a statement.
pub(crate) fn is_due(session: &Open) -> bool
    ensures { result ≡ begins (open_view session.now) }
{
    if session.autocommit {
        return false;
    }
    match session.told {
        Tx::Idle => true,
        Tx::Active => false,
        Tx::Failed => false,
    }
}

/// Keeps what the last reply tells.
fn keep_told(rack: &Rack, told: Tx) -> Tx
    ensures { result ≡ told_after (log_of rack.now) told }
{
    match rack.last_reply() {
        Some(reply) => match told_by(reply) {
            Some(now) => now,
            None => told,
        },
        None => told,
    }
}

/// Asks the server, and keeps what the reply tells of its transaction. The reply is the last one of the rack.
pub(crate) fn ask(rack: &mut Rack, session: &mut Open, request: Request) -> Result<(), OutOfMemory>
    requires taken { TakenAt (states (slots_of rack.old)) (slot_of session.old.conn) }
    requires asks { IsAsk request }
    ensures ok { OnOk result (Asked (talk_by ⟦<dyn Link as Link>⟧) (faults_by ⟦<dyn Link as Link>⟧)
        request rack.old session.old rack.new session.new) }
    ensures err { OnErr result (Asks (talk_by ⟦<dyn Link as Link>⟧) (faults_by ⟦<dyn Link as Link>⟧)
        rack.old session.old.conn rack.new session.new.conn []) }
    ensures same { OnErr result (open_view session.new ≡ open_view session.old) }
    ensures still_taken { TakenAt (states (slots_of rack.new)) (slot_of session.new.conn) }
{
    rack.ask(&mut session.conn, request)?;
    session.told = keep_told(rack, session.told);
    Ok(())
}
