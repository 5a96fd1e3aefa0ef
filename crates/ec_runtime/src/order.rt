//! What a statement asks of the server.

ghost use Rattle.std.specs.Prelude.{◌≡◌, IfOk, IfErr};
ghost use Rattle.ec_runtime.specs.Says.{Quiet};
ghost use Rattle.ec_runtime.specs.Statements.{area_read, statement_read, targets_read, wanted_read};
ghost use Rattle.ec_runtime.specs.declared.stop.Stop.TheVariants as stops;

use crate::call::{Destination, Statement, Wanted};
use crate::host::Host;
use crate::inputs::{GivenText, given_text, kept, values};
use crate::stop::Stop;
use ec_base::{Bytes, List, Name};
use ec_memory::Store;
use std::alloc::Global;

/// What a statement asks for, with its parameters, once all is read that it is given.
#[derive(Debug, Drop)]
pub(crate) struct Order {
    pub(crate) what: What,
    pub(crate) params: List<Option<Bytes>>,
    /// The name of the descriptor whose contents are behind them.
    pub(crate) area: Option<Bytes>,
}

/// Where rows go, once the name of a descriptor is read.
#[derive(Debug, Drop)]
pub(crate) enum Outputs {
    /// Into hosts, or nowhere if there is none.
    Hosts(List<Host>),
    /// Into the descriptor of a name.
    Area(Bytes),
}

/// What is asked for.
#[derive(Debug, Drop)]
pub(crate) enum What {
    /// A text.
    Text(Bytes),
    /// The statement that is prepared under a name.
    Execution(Name),
    /// A cursor for it, with what stands before its text.
    Cursor { head: Bytes, name: Name },
}

/// Keeps a name.
pub(crate) fn kept_name(name: &Name) -> Result<Name, Stop>
    ensures ok { IfOk result (λ copy. copy ≡ name.now) }
    ensures err { IfErr result (λ stop. stop ≡ stops.OutOfMemory) }
{
    match name.clone() {
        Ok(copy) => Ok(copy),
        Err(_) => Err(Stop::OutOfMemory),
    }
}

/// Reads what is asked for.
fn read_what(alloc: Global, store: &Store, it: &Wanted) -> Result<What, Stop>
    ensures { Quiet result (wanted_read it.now) store.now store.now }
{
    match it {
        Wanted::Normal(text) => Ok(What::Text(kept(alloc, text.as_slice())?)),
        Wanted::Prepared(name) => Ok(What::Execution(kept_name(name)?)),
        Wanted::Immediate(text) => Ok(What::Text(given_text(alloc, store, text)?)),
        Wanted::Opening { head, name } => Ok(What::Cursor {
            head: kept(alloc, head.as_slice())?,
            name: kept_name(name)?,
        }),
    }
}

/// Reads a statement, behind the name of its connection: what it asks for, and the values.
pub(crate) fn read(alloc: Global, store: &Store, it: &Statement) -> Result<Order, Stop>
    ensures { Quiet result (statement_read it.now) store.now store.now }
{
    match read_what(alloc, store, &it.wanted) {
        Err(stop) => Err(stop),
        Ok(what) => match values(alloc, store, it.ins.as_slice()) {
            Err(stop) => Err(stop),
            Ok(params) => match area_name(alloc, store, &it.area) {
                Err(stop) => Err(stop),
                Ok(area) => Ok(Order { what, params, area }),
            },
        },
    }
}

/// Reads the name of a descriptor whose contents are given, if there is one.
fn area_name(alloc: Global, store: &Store, area: &Option<GivenText>) -> Result<Option<Bytes>, Stop>
    ensures { Quiet result (area_read area.now) store.now store.now }
{
    match area {
        None => Ok(None),
        Some(text) => match given_text(alloc, store, text) {
            Err(stop) => Err(stop),
            Ok(name) => Ok(Some(name)),
        },
    }
}

/// Reads where rows go.
pub(crate) fn read_targets(
    alloc: Global,
    store: &Store,
    targets: Destination,
) -> Result<Outputs, Stop>
    ensures { Quiet result (targets_read targets) store.now store.now }
{
    match targets {
        Destination::Hosts(hosts) => Ok(Outputs::Hosts(hosts)),
        Destination::Area(text) => match given_text(alloc, store, &text) {
            Err(stop) => Err(stop),
            Ok(name) => Ok(Outputs::Area(name)),
        },
    }
}
