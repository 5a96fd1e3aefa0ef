//! What a reply makes of a statement.

ghost use Rattle.std.specs.Prelude.{◌≡◌, Err, IsSome};
ghost use Rattle.ec_transfer_defs.specs.Area.{IsArea};
ghost use Rattle.ec_call_defs.specs.Areas.{area_named};
ghost use Rattle.ec_call_defs.specs.Answers.{server_code, count_of, done, replied};
ghost use Rattle.ec_call_defs.specs.Connections.{controlled};
ghost use Rattle.ec_call_defs.specs.Outcomes.{refused};
ghost use Rattle.ec_call_defs.specs.Storing.{counted_rows};
ghost use Rattle.ec_call_defs.specs.Running.{is_wanted, row_into, rows_stored, table_kept};
ghost use Rattle.ec_runtime.specs.Says.{Changed, Quiet};
ghost use Rattle.ec_runtime.specs.Statements.{IsThere, outputs_view};
ghost use Rattle.ec_runtime.specs.Views.{outputs_of};

use crate::area::{refuse, tell, tell_count, tell_notice};
use crate::host::Host;
use crate::order::Outputs;
use crate::stop::Stop;
use crate::storing::keep_rows;
use ec_base::Line;
use ec_descriptors::{AreaStop, Areas};
use ec_link::{Reply, SqlState, Table};
use ec_memory::Store;
use ec_transfer_defs::Finding;

/// The code of a server's refusal.
fn server_code(state: &SqlState) -> i64
    ensures { result ≡ server_code state.now.0 }
{
    if state.0.as_slice() == b"23505".as_slice() {
        return -403;
    }
    if state.0.as_slice() == b"21000".as_slice() {
        return -404;
    }
    -400
}

/// The server's refusal ends the call.
pub(crate) fn refused(store: &mut Store, line: Line, state: &SqlState, message: &[u8]) -> Stop
    requires { IsArea store.old }
    ensures quiet { Quiet {A = Unit {0}} (Err result)
        (refused line.0 (server_code state.now.0) state.now.0 message.now) store.old store.new }
    ensures kept { IsArea store.new }
{
    tell(store, line, server_code(state), *state, message)
}

/// A reply to transaction control. A notice is told first.
pub(crate) fn controlled(store: &mut Store, line: Line, reply: &Reply) -> Result<(), Stop>
    requires { IsArea store.old }
    ensures quiet { Quiet result (controlled line.0 reply.now) store.old store.new }
    ensures kept { IsArea store.new }
{
    match reply {
        Reply::Rows { notice, .. } => {
            tell_notice(store, *notice);
            Ok(())
        }
        Reply::Done { notice, .. } => {
            tell_notice(store, *notice);
            Ok(())
        }
        Reply::Refused { .. } => Err(refuse(store, line, Finding::ControlRefused)),
        Reply::Connected => Err(refuse(store, line, Finding::ControlRefused)),
        Reply::NoTarget => Err(refuse(store, line, Finding::ControlRefused)),
        Reply::Broken => Err(refuse(store, line, Finding::ControlRefused)),
    }
}

/// A statement without rows is done, where outputs are wanted or not.
fn done(store: &mut Store, line: Line, wanted: bool, count: Option<u64>) -> Result<(), Stop>
    requires { IsArea store.old }
    ensures quiet { Quiet result (done line.0 wanted count) store.old store.new }
    ensures kept { IsArea store.new }
{
    match count {
        Some(0) => Err(refuse(store, line, Finding::NoData)),
        _ => {
            if wanted {
                Err(refuse(store, line, Finding::TooManyTargets))
            } else {
                Ok(())
            }
        }
    }
}

/// The count that is told.
fn count_of(count: Option<u64>) -> u64
    ensures { result ≡ count_of count }
{
    match count {
        Some(rows) => rows,
        None => 0,
    }
}

/// A row in a descriptor: one row is taken, and more are a code.
fn keep_row(
    store: &mut Store,
    areas: &mut Areas,
    line: Line,
    name: &[u8],
    table: &Table,
) -> Result<(), Stop>
    requires area { IsArea store.old }
    requires there { IsSome (area_named name.now areas.old) }
    ensures changed { Changed result (row_into line.0 name.now table.now table.now.rows)
        store.old areas.old store.new areas.new }
    ensures kept { IsArea store.new }
{
    match table.rows().as_slice() {
        [] => Ok(()),
        [fields] => match areas.fill(name, table.cols().as_slice(), fields.as_slice()) {
            Ok(()) => Ok(()),
            Err(AreaStop::Found(_)) => unreachable!(),
            Err(AreaStop::OutOfMemory) => Err(Stop::OutOfMemory),
        },
        _ => Err(refuse(store, line, Finding::TooManyRows)),
    }
}

/// Stores rows in hosts, where there are any.
fn keep_in_hosts(store: &mut Store, line: Line, hosts: &[Host], table: &Table) -> Result<(), Stop>
    requires { IsArea store.old }
    ensures quiet { Quiet result (rows_stored line.0 (outputs_of hosts.now) table.now)
        store.old store.new }
    ensures kept { IsArea store.new }
{
    match hosts {
        [] => Ok(()),
        _ => keep_rows(
            store,
            line,
            hosts,
            table.cols().len(),
            table.rows().as_slice(),
        ),
    }
}

/// Stores rows, where they are wanted.
fn store_rows(
    store: &mut Store,
    areas: &mut Areas,
    line: Line,
    outputs: &Outputs,
    table: &Table,
) -> Result<(), Stop>
    requires area { IsArea store.old }
    requires there { IsThere (outputs_view outputs.now) areas.old }
    ensures changed { Changed result (rows_stored line.0 (outputs_view outputs.now) table.now)
        store.old areas.old store.new areas.new }
    ensures kept { IsArea store.new }
{
    match outputs {
        Outputs::Hosts(hosts) => keep_in_hosts(store, line, hosts.as_slice(), table),
        Outputs::Area(name) => keep_row(store, areas, line, name.as_slice(), table),
    }
}

/// Rows that are counted.
fn counted_rows(
    store: &mut Store,
    areas: &mut Areas,
    line: Line,
    outputs: &Outputs,
    table: &Table,
) -> Result<(), Stop>
    requires area { IsArea store.old }
    requires there { IsThere (outputs_view outputs.now) areas.old }
    ensures changed { Changed result (counted_rows line.0 table.now.rows
        (rows_stored line.0 (outputs_view outputs.now) table.now))
        store.old areas.old store.new areas.new }
    ensures kept { IsArea store.new }
{
    match table.rows().as_slice() {
        [] => Err(refuse(store, line, Finding::NoData)),
        _ => store_rows(store, areas, line, outputs, table),
    }
}

/// Counts the rows of an answer, and stores them.
fn keep_table(
    store: &mut Store,
    areas: &mut Areas,
    line: Line,
    outputs: &Outputs,
    table: &Table,
) -> Result<(), Stop>
    requires area { IsArea store.old }
    requires there { IsThere (outputs_view outputs.now) areas.old }
    ensures changed { Changed result (table_kept line.0 (outputs_view outputs.now) table.now)
        store.old areas.old store.new areas.new }
    ensures kept { IsArea store.new }
{
    tell_count(store, table.rows().len() as u64);
    counted_rows(store, areas, line, outputs, table)
}

/// Whether there is a host.
fn has_hosts(hosts: &[Host]) -> bool
    ensures { result ≡ is_wanted (outputs_of hosts.now) }
{
    match hosts {
        [] => false,
        _ => true,
    }
}

/// Whether outputs are wanted.
fn is_wanted(outputs: &Outputs) -> bool
    ensures { result ≡ is_wanted (outputs_view outputs.now) }
{
    match outputs {
        Outputs::Hosts(hosts) => has_hosts(hosts.as_slice()),
        Outputs::Area(_) => true,
    }
}

/// What a reply makes of a statement with these outputs. A notice is told first.
pub(crate) fn answered(
    store: &mut Store,
    areas: &mut Areas,
    line: Line,
    outputs: &Outputs,
    reply: &Reply,
) -> Result<(), Stop>
    requires area { IsArea store.old }
    requires there { IsThere (outputs_view outputs.now) areas.old }
    ensures changed { Changed result (replied line.0 (is_wanted (outputs_view outputs.now))
        (table_kept line.0 (outputs_view outputs.now)) reply.now)
        store.old areas.old store.new areas.new }
    ensures kept { IsArea store.new }
{
    match reply {
        Reply::Rows { table, notice, .. } => {
            tell_notice(store, *notice);
            keep_table(store, areas, line, outputs, table)
        }
        Reply::Done { count, notice, .. } => {
            tell_notice(store, *notice);
            tell_count(store, count_of(*count));
            done(store, line, is_wanted(outputs), *count)
        }
        Reply::Refused { state, message, .. } => {
            Err(refused(store, line, state, message.as_slice()))
        }
        Reply::Connected => Err(refuse(store, line, Finding::ReplyOutOfPlace)),
        Reply::NoTarget => Err(refuse(store, line, Finding::ReplyOutOfPlace)),
        Reply::Broken => Err(refuse(store, line, Finding::ConnectionBroken)),
    }
}
