//! A call over a link that gives one answer.

ghost use Rattle.std.specs.Prelude.{IfSome};
ghost use Rattle.ec_transfer_defs.specs.Area.{IsArea};

use crate::calls::shows::show;
use ec_base::{Bytes, Line, List, Name, OutOfMemory};
use ec_bytes::Ptr;
use ec_convert::HostPlace;
use ec_ctypes::Sym;
use ec_link::{MemLink, Rack, Reply};
use ec_memory::Store;
use ec_runtime::{
    Act, Call, CallStop, Destination, Host, Input, Kind, Library, Statement, TextArg, Wanted,
};
use std::alloc::Global;

// An int at the front of an object.
fn int_at(object: u64) -> Option<Host> {
    Host::new(HostPlace {
        sym: Sym::Int,
        at: Ptr((object % 4) << 32),
        size: 0,
        count: 1,
        step: 4,
        ind: None,
    })
}

// A SELECT on line 3, with an int as a parameter and another one for its row.
fn select(alloc: Global) -> Result<Call, OutOfMemory> {
    let mut ins = List::new(alloc);
    let mut outs = List::new(alloc);
    if let Some(host) = int_at(3) {
        ins.push(Input::Host(host))?;
    }
    if let Some(host) = int_at(2) {
        outs.push(host)?;
    }
    let text = Bytes::from_slice(alloc, b"SELECT a FROM t WHERE b = $1")?;
    Ok(Call {
        line: Line(3),
        kind: Kind::Over(
            TextArg::Absent,
            Act::Run(Statement {
                wanted: Wanted::Normal(text),
                ins,
                area: None,
                outs: Destination::Hosts(outs),
            }),
        ),
    })
}

// A memory with `sqlca` and two ints, all zero.
fn memory(alloc: Global) -> Option<Store>
    ensures { IfSome result IsArea }
{
    let mut store = Store::new(alloc);
    store.make_zeroed(256).ok()?;
    store.make_zeroed(4).ok()?;
    store.make_zeroed(4).ok()?;
    Some(store)
}

// A link that gives this answer.
fn link_of(alloc: Global, reply: Reply) -> Result<MemLink, OutOfMemory> {
    let mut replies = List::new(alloc);
    replies.push(reply)?;
    MemLink::new(alloc, replies, &[])
}

// Carries the call out over the link that is ready.
fn carry_out(
    alloc: Global,
    store: &mut Store,
    rack: &mut Rack,
    call: Call,
) -> Result<Result<(), CallStop>, OutOfMemory>
    requires { IsArea store.old }
{
    let mut library = Library::new(alloc);
    let opened = library.open_ready(rack);
    let done = library.call(alloc, store, rack, call);
    library.finish(rack);
    opened?;
    Ok(done)
}

// Carries `SELECT` out over a link under the empty name, and shows what is left.
fn run_over(
    alloc: Global,
    store: &mut Store,
    link: MemLink,
    shown: &mut Bytes,
) -> Result<(), OutOfMemory>
    requires { IsArea store.old }
{
    let link = Box::new(alloc, link)?;
    let mut rack = Rack::new(alloc);
    if rack.add_ready(Name::new(), link).is_err() {
        return Err(OutOfMemory);
    }
    let call = select(alloc)?;
    let done = carry_out(alloc, store, &mut rack, call)?;
    show(done, store, rack.log().len(), shown)
}

/// Runs the call over a link with this answer, and shows what is left.
pub fn run(alloc: Global, reply: Reply, shown: &mut Bytes) -> Result<(), OutOfMemory> {
    let Some(mut store) = memory(alloc) else {
        return Err(OutOfMemory);
    };
    let link = link_of(alloc, reply)?;
    run_over(alloc, &mut store, link, shown)
}
