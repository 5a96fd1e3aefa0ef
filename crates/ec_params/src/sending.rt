//! The text that is sent.

ghost use Rattle.std.specs.Prelude.{◌≡◌, ◌++◌, ◌+◌, ◌∷◌, [], IfOk, OnOk, map, drop, length};
ghost use Rattle.std.specs.Fmt.{decimal};
ghost use Rattle.ec_ctypes.specs.trees.Embedded.{bytes_part, host_part};
ghost use Rattle.ec_ctypes.specs.views.Embedded.{host_view, part_view};
ghost use Rattle.ec_embedded.specs.Parameters.{parameters};
ghost use Rattle.ec_language.specs.Letters.{dollar};
ghost use Rattle.ec_host_defs.specs.Bound as spec;
ghost use Rattle.ec_params.specs.Scenes.{program_of, denoted_of};
ghost use Rattle.ec_params.specs.Sending.{more_parameters, Sends};

use crate::places::{behind_host, leaves_of};
use crate::scene::{Scene, sum};
use ec_base::{Bytes, List, OutOfMemory};
use ec_ctypes::{Host, Part};
use itoa::Buffer;
use std::alloc::Global;

/// The text so far, the number of the next parameter, and how many names are behind.
#[derive(Debug, Drop)]
pub(crate) struct Sending {
    pub text: Bytes,
    pub number: usize,
    pub at: usize,
}

/// Puts a parameter at the end.
fn push_parameter(text: &mut Bytes, number: usize) -> Result<(), OutOfMemory>
    ensures { OnOk result (text.new ≡ text.old ++ dollar ∷ decimal number) }
{
    text.push(b'$')?;
    let mut buffer = Buffer::new();
    text.extend_from_slice(buffer.format(number).as_bytes())
}

/// Puts so many more parameters behind that of this number.
fn push_more(text: &mut Bytes, number: usize, count: usize) -> Result<(), OutOfMemory>
    ensures { OnOk result (text.new ≡ text.old ++ more_parameters number count) }
{
    let mut last = number;
    let mut left = count;
    while left > 0 {
        text.extend_from_slice(b", ")?;
        last = sum(last, 1)?;
        push_parameter(text, last)?;
        left -= 1;
    }
    Ok(())
}

/// Puts so many parameters at the end, from this number on.
fn push_parameters(text: &mut Bytes, number: usize, count: usize) -> Result<(), OutOfMemory>
    ensures { OnOk result (text.new ≡ text.old ++ parameters number count) }
{
    if count == 0 {
        return Ok(());
    }
    push_parameter(text, number)?;
    push_more(text, number, count - 1)
}

/// Puts a host at the end, as the parameters that it stands for.
fn send_host(
    alloc: Global,
    scene: Scene<'_>,
    sending: &mut Sending,
    host: &Host,
) -> Result<(), OutOfMemory>
    ensures { OnOk result (Sends (program_of scene.entry) (denoted_of scene.entry)
        (host_part (host_view host.now) ∷ []) sending.old sending.new) }
{
    let found = leaves_of(alloc, scene, sending.at, host)?;
    let count = found.own.len();
    push_parameters(&mut sending.text, sending.number, count)?;
    sending.number = sum(sending.number, count)?;
    sending.at = behind_host(sending.at, host)?;
    Ok(())
}

/// Puts bytes at the end.
fn send_bytes(scene: Scene<'_>, sending: &mut Sending, bytes: &[u8]) -> Result<(), OutOfMemory>
    ensures { OnOk result (Sends (program_of scene.entry) (denoted_of scene.entry)
        (bytes_part bytes.now ∷ []) sending.old sending.new) }
{
    sending.text.extend_from_slice(bytes)?;
    Ok(())
}

/// Puts a part at the end.
fn send_part(
    alloc: Global,
    scene: Scene<'_>,
    sending: &mut Sending,
    part: &Part,
) -> Result<(), OutOfMemory>
    ensures { OnOk result (Sends (program_of scene.entry) (denoted_of scene.entry)
        (part_view part.now ∷ []) sending.old sending.new) }
{
    match part {
        Part::Host(host) => send_host(alloc, scene, sending, host.get()),
        Part::Bytes(bytes) => send_bytes(scene, sending, bytes.as_slice()),
    }
}

/// Puts parts at the end.
fn send_parts(
    alloc: Global,
    scene: Scene<'_>,
    sending: &mut Sending,
    parts: &[Part],
) -> Result<(), OutOfMemory>
    ensures { OnOk result (Sends (program_of scene.entry) (denoted_of scene.entry)
        (map part_view parts.now) sending.old sending.new) }
{
    for part in parts {
        send_part(alloc, scene, sending, part)?;
    }
    Ok(())
}

/// The text that is sent of parts whose names begin at this place: each host stands for as many parameters as it has
/// leaves (PostgreSQL manual, "PREPARE").
pub(crate) fn sent_text(
    alloc: Global,
    scene: Scene<'_>,
    at: usize,
    parts: &[Part],
) -> Result<Bytes, OutOfMemory>
    ensures { IfOk result (λ text. text ≡ spec.sent_from (program_of scene.entry) 1
        (map part_view parts.now) (drop at (denoted_of scene.entry))) }
{
    let mut sending = Sending {
        text: List::new(alloc),
        number: 1,
        at,
    };
    send_parts(alloc, scene, &mut sending, parts)?;
    Ok(sending.text)
}
