//! What a call reads before it does anything.

ghost use Rattle.std.specs.Prelude.{◌≡◌, map, IsSome, IfOk, IfErr};
ghost use Rattle.ec_call_defs.specs.Inputs.{given_read, member_read, text_read};
ghost use Rattle.ec_runtime.specs.Reading.{values_read, given_view, input_view, text_view};
ghost use Rattle.ec_runtime.specs.Says.{Quiet};
ghost use Rattle.ec_runtime.specs.declared.stop.Stop.TheVariants as stops;

use crate::host::Host;
use crate::stop::Stop;
use ec_base::{Bytes, List, Trap};
use ec_bytes::Ptr;
use ec_convert::{ConvStop, to_text};
use ec_memory::Store;
use std::alloc::Global;

/// A text of a call: none, the bytes of a literal, or those that a pointer leads to up to the zero byte.
#[derive(Debug, Drop)]
pub enum TextArg {
    Absent,
    Word(Bytes),
    Held(Ptr),
}

/// A text that is there: the bytes of a literal, or those that a pointer leads to up to the zero byte.
#[derive(Debug, Drop)]
pub enum GivenText {
    Word(Bytes),
    Held(Ptr),
}

/// A value that a statement is given.
#[derive(Debug, Drop)]
pub enum Input {
    Host(Host),
    Constant(Bytes),
}

/// Reads the value of a host, or `None` for NULL.
fn value(alloc: Global, store: &Store, host: &Host) -> Result<Option<Bytes>, Stop>
    ensures { Quiet result (member_read (input_view (Input.Host host.now))) store.now store.now }
{
    match to_text(alloc, store, &host.place) {
        Ok(text) => Ok(text),
        Err(ConvStop::Trapped(trap)) => Err(Stop::Trapped(trap)),
        Err(ConvStop::Code(_)) => unreachable!(),
        Err(ConvStop::OutOfMemory) => Err(Stop::OutOfMemory),
    }
}

/// Reads an input.
pub(crate) fn field_of(alloc: Global, store: &Store, it: &Input) -> Result<Option<Bytes>, Stop>
    ensures { Quiet result (member_read (input_view it.now)) store.now store.now }
{
    match it {
        Input::Host(host) => value(alloc, store, host),
        Input::Constant(bytes) => match List::from_slice(alloc, bytes.as_slice()) {
            Ok(copy) => Ok(Some(copy)),
            Err(_) => Err(Stop::OutOfMemory),
        },
    }
}

/// Reads the inputs in order.
pub(crate) fn values(
    alloc: Global,
    store: &Store,
    inputs: &[Input],
) -> Result<List<Option<Bytes>>, Stop>
    ensures { Quiet result (values_read (map input_view inputs.now)) store.now store.now }
{
    let mut texts = List::new(alloc);
    for it in inputs {
        match field_of(alloc, store, it) {
            Err(stop) => return Err(stop),
            Ok(text) => match texts.push(text) {
                Err(_) => return Err(Stop::OutOfMemory),
                Ok(()) => {}
            },
        }
    }
    Ok(texts)
}

/// Keeps the bytes of a text.
pub(crate) fn kept(alloc: Global, bytes: &[u8]) -> Result<Bytes, Stop>
    ensures ok { IfOk result (λ copy. copy ≡ bytes.now) }
    ensures err { IfErr result (λ stop. stop ≡ stops.OutOfMemory) }
{
    match Bytes::from_slice(alloc, bytes) {
        Ok(copy) => Ok(copy),
        Err(_) => Err(Stop::OutOfMemory),
    }
}

/// Reads a text that is there.
pub(crate) fn given_text(alloc: Global, store: &Store, text: &GivenText) -> Result<Bytes, Stop>
    ensures { Quiet result (given_read (given_view text.now)) store.now store.now }
{
    match text {
        GivenText::Word(bytes) => kept(alloc, bytes.as_slice()),
        GivenText::Held(at) => match store.text(*at) {
            Ok(bytes) => kept(alloc, bytes),
            Err(trap) => Err(Stop::Trapped(trap)),
        },
    }
}

/// Reads a text that may be absent.
pub(crate) fn maybe_text(
    alloc: Global,
    store: &Store,
    text: &TextArg,
) -> Result<Option<Bytes>, Stop>
    ensures { Quiet result (text_read (text_view text.now)) store.now store.now }
{
    match text {
        TextArg::Absent => Ok(None),
        TextArg::Word(bytes) => Ok(Some(kept(alloc, bytes.as_slice())?)),
        TextArg::Held(at) => match store.text(*at) {
            Ok(bytes) => Ok(Some(kept(alloc, bytes)?)),
            Err(trap) => Err(Stop::Trapped(trap)),
        },
    }
}
