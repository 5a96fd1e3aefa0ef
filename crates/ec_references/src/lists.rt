//! Lists of values that are sent, and of hosts for what is answered.

ghost use Rattle.std.specs.Prelude.{◌≡◌, map};
ghost use Rattle.ec_ctypes.specs.views.Embedded.{host_view, input_view, ins_view, outs_view, text_arg_view};
ghost use Rattle.ec_embedded.specs.Terminals.{reference};
ghost use Rattle.ec_references.specs.Readers as spec;
ghost use Rattle.ec_references.specs.States.{CursorReads};

use crate::cursor::Cursor;
use crate::names::text_argument;
use crate::references::hosted;
use crate::values::value;
use ec_base::List;
use ec_ctypes::{Host, Input, Ins, Outs, TextArg};
use ec_embedded::shapes::Failure;
use std::alloc::Global;

/// More values behind these.
fn more_values(
    alloc: Global,
    cursor: &mut Cursor<'_>,
    mut values: List<Input>,
) -> Result<List<Input>, Failure>
    ensures { CursorReads (map input_view) (spec.further spec.value (map input_view values))
        cursor.old result cursor.new }
{
    for _turn in 0..cursor.left() {
        if !cursor.at_sign(b",") {
            return Ok(values);
        }
        values = further_value(alloc, cursor, values)?;
    }
    Ok(values)
}

/// One more value.
fn further_value(
    alloc: Global,
    cursor: &mut Cursor<'_>,
    mut values: List<Input>,
) -> Result<List<Input>, Failure>
    ensures { CursorReads (map input_view) (spec.one_further spec.value (map input_view values))
        cursor.old result cursor.new }
{
    cursor.sign(b",")?;
    let value = value(alloc, cursor)?;
    values.push(value)?;
    Ok(values)
}

/// One more host.
fn further_host(
    alloc: Global,
    cursor: &mut Cursor<'_>,
    mut hosts: List<Host>,
) -> Result<List<Host>, Failure>
    ensures { CursorReads (map host_view)
        (spec.one_further (spec.hosted reference) (map host_view hosts))
        cursor.old result cursor.new }
{
    cursor.sign(b",")?;
    let host = hosted(alloc, cursor)?;
    hosts.push(host)?;
    Ok(hosts)
}

/// More hosts behind these.
fn more_hosts(
    alloc: Global,
    cursor: &mut Cursor<'_>,
    mut hosts: List<Host>,
) -> Result<List<Host>, Failure>
    ensures { CursorReads (map host_view)
        (spec.further (spec.hosted reference) (map host_view hosts)) cursor.old result cursor.new }
{
    for _turn in 0..cursor.left() {
        if !cursor.at_sign(b",") {
            return Ok(hosts);
        }
        hosts = further_host(alloc, cursor, hosts)?;
    }
    Ok(hosts)
}

/// A descriptor by its name.
fn area(alloc: Global, cursor: &mut Cursor<'_>) -> Result<TextArg, Failure>
    ensures { CursorReads text_arg_view spec.area cursor.old result cursor.new }
{
    cursor.word(b"SQL")?;
    cursor.word(b"DESCRIPTOR")?;
    text_argument(alloc, cursor)
}

/// The values of a USING.
#[tactic(auto, unfolding(crate::specs::Readers::inputs))]
pub fn inputs(alloc: Global, cursor: &mut Cursor<'_>) -> Result<Ins, Failure>
    ensures { CursorReads ins_view spec.inputs cursor.old result cursor.new }
{
    if cursor.at_word(b"SQL") {
        return Ok(Ins::Area(area(alloc, cursor)?));
    }
    let first = value(alloc, cursor)?;
    let mut values = List::new(alloc);
    values.push(first)?;
    Ok(Ins::Listed(more_values(alloc, cursor, values)?))
}

/// The hosts of an INTO.
#[tactic(auto, unfolding(crate::specs::Readers::outputs))]
pub fn outputs(alloc: Global, cursor: &mut Cursor<'_>) -> Result<Outs, Failure>
    ensures { CursorReads outs_view spec.outputs cursor.old result cursor.new }
{
    if cursor.at_word(b"SQL") {
        return Ok(Outs::Area(area(alloc, cursor)?));
    }
    let first = hosted(alloc, cursor)?;
    let mut hosts = List::new(alloc);
    hosts.push(first)?;
    Ok(Outs::Listed(more_hosts(alloc, cursor, hosts)?))
}

/// USING with its values, or nothing.
#[tactic(auto, unfolding(crate::specs::Readers::using_or_none))]
pub fn using_or_none(alloc: Global, cursor: &mut Cursor<'_>) -> Result<Ins, Failure>
    ensures { CursorReads ins_view spec.using_or_none cursor.old result cursor.new }
{
    if cursor.at_word(b"USING") {
        cursor.word(b"USING")?;
        return inputs(alloc, cursor);
    }
    Ok(Ins::Listed(List::new(alloc)))
}
