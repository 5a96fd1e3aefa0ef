//! The calls but ECPGdo and those on the items of a descriptor, behind their lines.

ghost use Rattle.std.specs.Prelude.{◌≡◌};
ghost use Rattle.ec_arguments.specs.Arguments.{disconnect, set_connection, control, deallocate, allocate_descriptor, deallocate_descriptor, get_count, set_count};
ghost use Rattle.ec_arguments.specs.Reading as spec;
ghost use Rattle.ec_cut.specs.Reads.{Reads};
ghost use Rattle.ec_cut.specs.Views.{call_view};

use crate::arguments::{Call, Front};
use crate::members::next_member;
use crate::pointers::{Literal, Pointer};
use crate::reading::{next_literal, next_text};

/// The word `on` or `off`.
fn switch_of(word: &[u8]) -> Option<bool>
    ensures { result ≡ spec.switch_of word.now }
{
    if word == b"on".as_slice() {
        return Some(true);
    }
    if word == b"off".as_slice() {
        return Some(false);
    }
    None
}

pub(crate) fn read_connect<B: Literal + Copy, A: Pointer + Copy>(
    front: &mut Front<'_, B, A>,
) -> Option<Call<B, A>>
    ensures { Reads B.bytes A.view (call_view B.bytes A.view) spec.read_connect
        front.old result front.new }
{
    let target = next_text(front)?;
    let user = next_text(front)?;
    let password = next_text(front)?;
    let name = next_text(front)?;
    Some(Call::Connect(target, user, password, name))
}

pub(crate) fn read_disconnect<B: Literal + Copy, A: Pointer + Copy>(
    front: &mut Front<'_, B, A>,
) -> Option<Call<B, A>>
    ensures { Reads B.bytes A.view (call_view B.bytes A.view) (spec.read_name disconnect)
        front.old result front.new }
{
    let name = next_text(front)?;
    Some(Call::Disconnect(name))
}

pub(crate) fn read_set_connection<B: Literal + Copy, A: Pointer + Copy>(
    front: &mut Front<'_, B, A>,
) -> Option<Call<B, A>>
    ensures { Reads B.bytes A.view (call_view B.bytes A.view) (spec.read_name set_connection)
        front.old result front.new }
{
    let name = next_text(front)?;
    Some(Call::SetConnection(name))
}

pub(crate) fn read_allocate<B: Literal + Copy, A: Pointer + Copy>(
    front: &mut Front<'_, B, A>,
) -> Option<Call<B, A>>
    ensures { Reads B.bytes A.view (call_view B.bytes A.view) (spec.read_name allocate_descriptor)
        front.old result front.new }
{
    let name = next_text(front)?;
    Some(Call::AllocateDescriptor(name))
}

pub(crate) fn read_free<B: Literal + Copy, A: Pointer + Copy>(
    front: &mut Front<'_, B, A>,
) -> Option<Call<B, A>>
    ensures { Reads B.bytes A.view (call_view B.bytes A.view) (spec.read_name deallocate_descriptor)
        front.old result front.new }
{
    let name = next_text(front)?;
    Some(Call::DeallocateDescriptor(name))
}

pub(crate) fn read_autocommit<B: Literal + Copy, A: Pointer + Copy>(
    front: &mut Front<'_, B, A>,
) -> Option<Call<B, A>>
    ensures { Reads B.bytes A.view (call_view B.bytes A.view) spec.read_autocommit
        front.old result front.new }
{
    let word = next_literal(front)?;
    let on = switch_of(word.as_slice())?;
    let connection = next_text(front)?;
    Some(Call::SetAutocommit(on, connection))
}

pub(crate) fn read_control<B: Literal + Copy, A: Pointer + Copy>(
    front: &mut Front<'_, B, A>,
) -> Option<Call<B, A>>
    ensures { Reads B.bytes A.view (call_view B.bytes A.view) (spec.read_literal control)
        front.old result front.new }
{
    let connection = next_text(front)?;
    let text = next_literal(front)?;
    Some(Call::Control(connection, text))
}

pub(crate) fn read_prepare<B: Literal + Copy, A: Pointer + Copy>(
    front: &mut Front<'_, B, A>,
) -> Option<Call<B, A>>
    ensures { Reads B.bytes A.view (call_view B.bytes A.view) spec.read_prepare
        front.old result front.new }
{
    let connection = next_text(front)?;
    let name = next_literal(front)?;
    let text = next_text(front)?;
    Some(Call::Prepare(connection, name, text))
}

pub(crate) fn read_deallocate<B: Literal + Copy, A: Pointer + Copy>(
    front: &mut Front<'_, B, A>,
) -> Option<Call<B, A>>
    ensures { Reads B.bytes A.view (call_view B.bytes A.view) (spec.read_literal deallocate)
        front.old result front.new }
{
    let connection = next_text(front)?;
    let name = next_literal(front)?;
    Some(Call::Deallocate(connection, name))
}

pub(crate) fn read_get_count<B: Literal + Copy, A: Pointer + Copy>(
    front: &mut Front<'_, B, A>,
) -> Option<Call<B, A>>
    ensures { Reads B.bytes A.view (call_view B.bytes A.view) (spec.read_count get_count)
        front.old result front.new }
{
    let name = next_text(front)?;
    let target = next_member(front)?;
    Some(Call::GetCount(name, target))
}

pub(crate) fn read_set_count<B: Literal + Copy, A: Pointer + Copy>(
    front: &mut Front<'_, B, A>,
) -> Option<Call<B, A>>
    ensures { Reads B.bytes A.view (call_view B.bytes A.view) (spec.read_count set_count)
        front.old result front.new }
{
    let name = next_text(front)?;
    let value = next_member(front)?;
    Some(Call::SetCount(name, value))
}
