//! PREPARE and DEALLOCATE (PostgreSQL manual, chapter ECPG, section "Dynamic SQL"). No transaction is begun before them.

ghost use Rattle.std.specs.Prelude.{◌≡◌};
ghost use Rattle.ec_call_defs.specs.Answers.{taken};
ghost use Rattle.ec_call_defs.specs.Preparing.{with_text, without_text};
ghost use Rattle.ec_link.specs.Conn.{slot_of};
ghost use Rattle.ec_link.specs.Links.{talk_by, faults_by};
ghost use Rattle.ec_link.specs.Logged.{IsAsk};
ghost use Rattle.ec_link.specs.Rack.{slots_of};
ghost use Rattle.ec_link.specs.Slot.{states};
ghost use Rattle.ec_link.specs.SlotState.{TakenAt};
ghost use Rattle.ec_transfer_defs.specs.Area.{IsArea};
ghost use Rattle.ec_runtime.specs.Does.{Over};
ghost use Rattle.ec_runtime.specs.Opening.{open_view};
ghost use Rattle.ec_runtime.specs.Says.{Quiet};
ghost use Rattle.ec_runtime.specs.Statements.{changed_behind, marks_read, name_there, request_taken};
ghost use Rattle.std.specs.declared.option.Option.{Option};

use crate::answering::refused;
use crate::area::{refuse, tell_notice};
use crate::inputs::{GivenText, given_text};
use crate::open::{Open, ask};
use crate::prepared::{forget, keep, text_under};
use crate::stop::Stop;
use ec_base::{Bytes, Line, Name};
use ec_link::{Link, Rack, Reply, Request};
use ec_marks::with_marks;
use ec_memory::Store;
use ec_transfer_defs::Finding;
use std::alloc::Global;

/// A reply to PREPARE or DEALLOCATE, which have no rows and no count. A notice is told first.
fn taken(store: &mut Store, line: Line, reply: &Reply) -> Result<(), Stop>
    requires { IsArea store.old }
    ensures quiet { Quiet result (taken line.0 reply.now) store.old store.new }
    ensures kept { IsArea store.new }
{
    match reply {
        Reply::Rows { notice, .. } => {
            tell_notice(store, *notice);
            Ok(())
        }
        Reply::Done { notice, .. } => {
            tell_notice(store, *notice);
            Ok(())
        }
        Reply::Refused { state, message, .. } => {
            Err(refused(store, line, state, message.as_slice()))
        }
        Reply::Connected => Err(refuse(store, line, Finding::ReplyOutOfPlace)),
        Reply::NoTarget => Err(refuse(store, line, Finding::ReplyOutOfPlace)),
        Reply::Broken => Err(refuse(store, line, Finding::ConnectionBroken)),
    }
}

/// A request is sent, and the server takes it or the call ends.
fn send_taken(
    store: &mut Store,
    rack: &mut Rack,
    session: &mut Open,
    line: Line,
    request: Request,
) -> Result<(), Stop>
    requires area { IsArea store.old }
    requires taken { TakenAt (states (slots_of rack.old)) (slot_of session.old.conn) }
    requires asks { IsAsk request }
    ensures over { Over (talk_by ⟦<dyn Link as Link>⟧) (faults_by ⟦<dyn Link as Link>⟧)
        (request_taken line.0 request (slot_of session.old.conn))
        store.old rack.old session.old store.new rack.new session.new result }
    ensures kept { IsArea store.new }
    ensures still_taken { TakenAt (states (slots_of rack.new)) (slot_of session.new.conn) }
{
    match ask(rack, session, request) {
        Err(_) => Err(Stop::OutOfMemory),
        Ok(()) => match rack.last_reply() {
            Some(reply) => taken(store, line, reply),
            None => unreachable!(),
        },
    }
}

/// A request is sent, and a text is kept under its name once the server took it.
pub(crate) fn keep_behind(
    store: &mut Store,
    rack: &mut Rack,
    session: &mut Open,
    line: Line,
    request: Request,
    name: Name,
    text: Bytes,
) -> Result<(), Stop>
    requires area { IsArea store.old }
    requires taken { TakenAt (states (slots_of rack.old)) (slot_of session.old.conn) }
    requires asks { IsAsk request }
    ensures over { Over (talk_by ⟦<dyn Link as Link>⟧) (faults_by ⟦<dyn Link as Link>⟧)
        (changed_behind line.0 request (with_text name text) (open_view session.old))
        store.old rack.old session.old store.new rack.new session.new result }
    ensures kept { IsArea store.new }
    ensures still_taken { TakenAt (states (slots_of rack.new)) (slot_of session.new.conn) }
{
    match send_taken(store, rack, session, line, request) {
        Err(stop) => Err(stop),
        Ok(()) => match keep(&mut session.prepared, name, text) {
            Err(_) => Err(Stop::OutOfMemory),
            Ok(()) => Ok(()),
        },
    }
}

/// The text that is sent for the one that PREPARE is given.
pub(crate) fn marked_text(alloc: Global, store: &Store, given: &GivenText) -> Result<Bytes, Stop>
    ensures { Quiet result (marks_read given.now) store.now store.now }
{
    match given_text(alloc, store, given) {
        Err(stop) => Err(stop),
        Ok(text) => match with_marks(alloc, text.as_slice()) {
            Ok(text) => Ok(text),
            Err(_) => Err(Stop::OutOfMemory),
        },
    }
}

/// The name has to be there.
pub(crate) fn find_name(
    store: &mut Store,
    session: &Open,
    line: Line,
    name: &Name,
) -> Result<(), Stop>
    requires { IsArea store.old }
    ensures quiet { Quiet result (name_there line.0 name.now (open_view session.now))
        store.old store.new }
    ensures kept { IsArea store.new }
{
    match text_under(session.prepared.as_slice(), name.as_slice()) {
        None => Err(refuse(store, line, Finding::NoStatement)),
        Some(_) => Ok(()),
    }
}

/// A request is sent, and the text under a name is forgotten once the server took it.
pub(crate) fn forget_behind(
    store: &mut Store,
    rack: &mut Rack,
    session: &mut Open,
    line: Line,
    request: Request,
    name: &Name,
) -> Result<(), Stop>
    requires area { IsArea store.old }
    requires taken { TakenAt (states (slots_of rack.old)) (slot_of session.old.conn) }
    requires asks { IsAsk request }
    ensures over { Over (talk_by ⟦<dyn Link as Link>⟧) (faults_by ⟦<dyn Link as Link>⟧)
        (changed_behind line.0 request (without_text name.now) (open_view session.old))
        store.old rack.old session.old store.new rack.new session.new result }
    ensures kept { IsArea store.new }
    ensures still_taken { TakenAt (states (slots_of rack.new)) (slot_of session.new.conn) }
{
    match send_taken(store, rack, session, line, request) {
        Err(stop) => Err(stop),
        Ok(()) => {
            forget(&mut session.prepared, name.as_slice());
            Ok(())
        }
    }
}
