//! The request of a statement, over the open connection.

ghost use Rattle.std.specs.Prelude.{◌≡◌, ◌++◌, IfOk, IfErr, OnOk};
ghost use Rattle.ec_call_defs.specs.Running.{cursor, execution, outputs_found, params_behind, request_of};
ghost use Rattle.ec_link.specs.Logged.{IsAsk};
ghost use Rattle.ec_transfer_defs.specs.Area.{IsArea};
ghost use Rattle.ec_runtime.specs.Opening.{open_view};
ghost use Rattle.ec_runtime.specs.Says.{Changed, Quiet};
ghost use Rattle.ec_runtime.specs.Statements.{IsThere, head_seen, head_view, outputs_view, request_made, what_view};
ghost use Rattle.ec_runtime.specs.declared.stop.Stop.TheVariants as stops;

use crate::area::refuse;
use crate::open::Open;
use crate::order::{Order, Outputs, What};
use crate::prepared::text_under;
use crate::stop::Stop;
use ec_base::{Bytes, Line, List, Name};
use ec_descriptors::{Areas, with_contents};
use ec_link::Request;
use ec_memory::Store;
use ec_transfer_defs::Finding;

/// A text behind another.
fn joined(head: Bytes, text: &[u8]) -> Result<Bytes, Stop>
    ensures ok { IfOk result (λ both. both ≡ head ++ text.now) }
    ensures err { IfErr result (λ stop. stop ≡ stops.OutOfMemory) }
{
    let mut both = head;
    match both.extend_from_slice(text) {
        Ok(()) => Ok(both),
        Err(_) => Err(Stop::OutOfMemory),
    }
}

/// The request of a statement, but for its parameters.
#[derive(Debug, Drop)]
pub(crate) enum Head {
    /// A text is sent.
    Text(Bytes),
    /// The statement that is prepared under a name is run.
    Exec(Name),
}

/// The request to run the statement that is prepared under a name, which has to be there.
fn execute(store: &mut Store, line: Line, session: &Open, name: Name) -> Result<Head, Stop>
    requires { IsArea store.old }
    ensures quiet { Quiet (head_seen result)
        (request_of line.0 (execution name) (open_view session.now)) store.old store.new }
    ensures kept { IsArea store.new }
{
    match text_under(session.prepared.as_slice(), name.as_slice()) {
        None => Err(refuse(store, line, Finding::NoStatement)),
        Some(_) => Ok(Head::Exec(name)),
    }
}

/// The request to open a cursor for it: what stands before its text, and that text.
fn open_cursor(
    store: &mut Store,
    line: Line,
    session: &Open,
    head: Bytes,
    name: Name,
) -> Result<Head, Stop>
    requires { IsArea store.old }
    ensures quiet { Quiet (head_seen result)
        (request_of line.0 (cursor head name) (open_view session.now)) store.old store.new }
    ensures kept { IsArea store.new }
{
    match text_under(session.prepared.as_slice(), name.as_slice()) {
        None => Err(refuse(store, line, Finding::NoStatement)),
        Some(text) => match joined(head, text) {
            Err(stop) => Err(stop),
            Ok(text) => Ok(Head::Text(text)),
        },
    }
}

/// The request of what is asked for, but for its parameters.
fn make_head(store: &mut Store, line: Line, session: &Open, what: What) -> Result<Head, Stop>
    requires { IsArea store.old }
    ensures quiet { Quiet (head_seen result)
        (request_of line.0 (what_view what) (open_view session.now)) store.old store.new }
    ensures kept { IsArea store.new }
{
    match what {
        What::Text(text) => Ok(Head::Text(text)),
        What::Execution(name) => execute(store, line, session, name),
        What::Cursor { head, name } => open_cursor(store, line, session, head, name),
    }
}

/// The request with its parameters.
fn with_params(head: Head, params: List<Option<Bytes>>) -> Request
    ensures request { result ≡ head_view head params }
    ensures asks { IsAsk result }
{
    match head {
        Head::Text(text) => Request::Text { text, params },
        Head::Exec(name) => Request::Exec { name, params },
    }
}

/// The parameters, with the contents of the descriptor of a name behind them. It has to be there.
fn whole_params(
    store: &mut Store,
    areas: &Areas,
    line: Line,
    params: List<Option<Bytes>>,
    area: &Option<Bytes>,
) -> Result<List<Option<Bytes>>, Stop>
    requires { IsArea store.old }
    ensures changed { Changed result (params_behind line.0 params area.now)
        store.old areas.now store.new areas.now }
    ensures kept { IsArea store.new }
{
    match area {
        None => Ok(params),
        Some(name) => match areas.items(name.as_slice()) {
            None => Err(refuse(store, line, Finding::NoDescriptor)),
            Some(items) => match with_contents(params, items) {
                Err(_) => Err(Stop::OutOfMemory),
                Ok(all) => Ok(all),
            },
        },
    }
}

/// The request of what is asked for. A prepared statement is looked up first, and then the descriptor of the inputs.
pub(crate) fn make_request(
    store: &mut Store,
    areas: &Areas,
    line: Line,
    session: &Open,
    order: Order,
) -> Result<Request, Stop>
    requires { IsArea store.old }
    ensures changed { Changed result (request_made line.0 order (open_view session.now))
        store.old areas.now store.new areas.now }
    ensures asks { IfOk result (λ request. IsAsk request) }
    ensures kept { IsArea store.new }
{
    let Order { what, params, area } = order;
    match make_head(store, line, session, what) {
        Err(stop) => Err(stop),
        Ok(head) => match whole_params(store, areas, line, params, &area) {
            Err(stop) => Err(stop),
            Ok(all) => Ok(with_params(head, all)),
        },
    }
}

/// The descriptor that rows go into has to be there.
pub(crate) fn find_target(
    store: &mut Store,
    areas: &Areas,
    line: Line,
    outputs: &Outputs,
) -> Result<(), Stop>
    requires { IsArea store.old }
    ensures changed { Changed result (outputs_found line.0 (outputs_view outputs.now))
        store.old areas.now store.new areas.now }
    ensures there { OnOk result (IsThere (outputs_view outputs.now) areas.now) }
    ensures kept { IsArea store.new }
{
    match outputs {
        Outputs::Hosts(_) => Ok(()),
        Outputs::Area(name) => match areas.items(name.as_slice()) {
            None => Err(refuse(store, line, Finding::NoDescriptor)),
            Some(_) => Ok(()),
        },
    }
}
