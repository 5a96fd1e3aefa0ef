//! Rows are stored.

ghost use Rattle.std.specs.Prelude.{◌≡◌, ℕ, ◌<◌, ◌≤◌, length, false, Some, OnOk};
ghost use Rattle.std.specs.Option.{option_copied};
ghost use Rattle.ec_transfer_defs.specs.Area.{IsArea};
ghost use Rattle.ec_transfer_defs.specs.Hosts.{HostData};
ghost use Rattle.ec_convert.specs.Host.{given_host};
ghost use Rattle.ec_call_defs.specs.Storing.{found_by, field_kept, in_column, column_kept, any_fewer, measured, targets_kept, rows_into};
ghost use Rattle.ec_runtime.specs.Says.{Quiet, Stopped};
ghost use Rattle.ec_runtime.specs.Views.{finding_of, hosts_view};

use crate::area::{refuse, tell_cut};
use crate::host::Host;
use crate::stop::Stop;
use ec_base::Line;
use ec_convert::{ConvStop, from_text};
use ec_link::Row;
use ec_memory::Store;
use ec_transfer_defs::Finding;

/// What a conversion found wrong, by its code.
fn finding_of(stop: ConvStop) -> Finding
    ensures { result ≡ finding_of stop }
{
    match stop {
        ConvStop::Code(code) => match code {
            -204 => Finding::NotAnInteger,
            -205 => Finding::NotUnsigned,
            -211 => Finding::NotABool,
            _ => Finding::NullWithoutIndicator,
        },
        ConvStop::Trapped(_) => Finding::NullWithoutIndicator,
        ConvStop::OutOfMemory => Finding::NullWithoutIndicator,
    }
}

/// What a conversion stops at: a trap, or a code, which is told.
fn stopped(store: &mut Store, line: Line, stop: ConvStop) -> Stop
    requires { IsArea store.old }
    ensures stop { Stopped stop line.0 result store.old store.new }
    ensures kept { IsArea store.new }
{
    match stop {
        ConvStop::Trapped(trap) => Stop::Trapped(trap),
        ConvStop::Code(_) => refuse(store, line, finding_of(stop)),
        ConvStop::OutOfMemory => Stop::OutOfMemory,
    }
}

/// Stores a field in the element of a row. A code ends the call, and a value that was cut is told.
pub(crate) fn keep_field(
    store: &mut Store,
    line: Line,
    host: &Host,
    row: u64,
    field: Option<&[u8]>,
) -> Result<(), Stop>
    requires area { IsArea store.old }
    requires row { row < host.now.place.count }
    ensures quiet { (h : HostData) → given_host host.now.place ≡ Some h
        → Quiet result (field_kept line.0 h row (option_copied field.entry)) store.old store.new }
    ensures kept { IsArea store.new }
{
    match from_text(store, &host.place, row, field) {
        Ok(true) => {
            tell_cut(store);
            Ok(())
        }
        Ok(false) => Ok(()),
        Err(stop) => Err(stopped(store, line, stop)),
    }
}

/// Stores a column in a host, each row in its element.
fn keep_column(
    store: &mut Store,
    line: Line,
    host: &Host,
    column: usize,
    rows: &[Row],
) -> Result<(), Stop>
    requires area { IsArea store.old }
    requires rows { length rows.now ≤ host.now.place.count }
    ensures quiet { (h : HostData) → given_host host.now.place ≡ Some h
        → Quiet result (column_kept line.0 h column 0 rows.now) store.old store.new }
    ensures kept { IsArea store.new }
{
    for (row, fields) in rows.iter().enumerate() {
        match keep_field(store, line, host, row as u64, field_in(fields, column)) {
            Err(stop) => return Err(stop),
            Ok(()) => {}
        }
    }
    Ok(())
}

/// The field of a row in a column.
fn field_in(fields: &Row, column: usize) -> Option<&[u8]>
    ensures { option_copied result ≡ in_column column fields.now }
{
    match fields.get(column) {
        Some(Some(text)) => Some(text.as_slice()),
        Some(None) => None,
        None => None,
    }
}

/// Stores each column in its host.
fn keep_targets(store: &mut Store, line: Line, hosts: &[Host], rows: &[Row]) -> Result<(), Stop>
    requires area { IsArea store.old }
    requires rows { any_fewer (length rows.now) (hosts_view hosts.now) ≡ false }
    ensures quiet { Quiet result (targets_kept line.0 0 (hosts_view hosts.now) rows.now)
        store.old store.new }
    ensures kept { IsArea store.new }
{
    for (column, host) in hosts.iter().enumerate() {
        match keep_column(store, line, host, column, rows) {
            Err(stop) => return Err(stop),
            Ok(()) => {}
        }
    }
    Ok(())
}

/// Whether a host has fewer elements than there are rows.
fn any_fewer(rows: u64, hosts: &[Host]) -> bool
    ensures { result ≡ any_fewer rows (hosts_view hosts.now) }
{
    for host in hosts {
        if host.place.count < rows {
            return true;
        }
    }
    false
}

/// Counts columns and rows against the hosts.
fn measure(
    store: &mut Store,
    line: Line,
    columns: usize,
    rows: usize,
    hosts: &[Host],
) -> Result<(), Stop>
    requires { IsArea store.old }
    ensures quiet { Quiet result (measured line.0 columns rows (hosts_view hosts.now))
        store.old store.new }
    ensures fits { OnOk result (any_fewer rows (hosts_view hosts.now) ≡ false) }
    ensures kept { IsArea store.new }
{
    if columns < hosts.len() {
        return Err(refuse(store, line, Finding::TooManyTargets));
    }
    if hosts.len() < columns {
        return Err(refuse(store, line, Finding::TooFewTargets));
    }
    if any_fewer(rows as u64, hosts) {
        return Err(refuse(store, line, Finding::TooManyRows));
    }
    Ok(())
}

/// Stores rows in hosts, once they are counted.
pub(crate) fn keep_rows(
    store: &mut Store,
    line: Line,
    hosts: &[Host],
    columns: usize,
    rows: &[Row],
) -> Result<(), Stop>
    requires { IsArea store.old }
    ensures quiet { Quiet result (rows_into line.0 (hosts_view hosts.now) columns rows.now)
        store.old store.new }
    ensures kept { IsArea store.new }
{
    match measure(store, line, columns, rows.len(), hosts) {
        Err(stop) => Err(stop),
        Ok(()) => keep_targets(store, line, hosts, rows),
    }
}
