//! The inputs and outputs of a statement as places.
#![tactic(auto, using(crate::proofs::Adding::adding))]

ghost use Rattle.std.specs.Prelude.{◌≡◌, OnOk, map};
ghost use Rattle.ec_ctypes.specs.views.Embedded.{host_view, input_view, ins_view, outs_view, part_view, get_item_view, set_item_view};
ghost use Rattle.ec_host_defs.specs.Bound as spec;
ghost use Rattle.ec_params.specs.Adding.{Adds};
ghost use Rattle.ec_params.specs.Scenes.{program_of, denoted_of};

use crate::places::add_host;
use crate::scene::Scene;
use crate::texts::{add_area, add_constant};
use ec_base::{List, OutOfMemory};
use ec_ctypes::{Host, Input, Ins, Item, Outs, Part, Place};
use std::alloc::Global;

/// A value that is sent.
pub(crate) fn add_input(
    alloc: Global,
    scene: Scene<'_>,
    at: &mut usize,
    input: &Input,
    places: &mut List<Place>,
) -> Result<(), OutOfMemory>
    ensures { OnOk result (Adds (denoted_of scene.entry) at.old at.new places.old places.new
        (spec.input_places (program_of scene.entry) (input_view input.now))) }
{
    match input {
        Input::Host(host) => add_host(alloc, scene, at, host, places),
        Input::Const(bytes) => add_constant(alloc, bytes.as_slice(), places),
    }
}

/// The host of a part.
fn add_part(
    alloc: Global,
    scene: Scene<'_>,
    at: &mut usize,
    part: &Part,
    places: &mut List<Place>,
) -> Result<(), OutOfMemory>
    ensures { OnOk result (Adds (denoted_of scene.entry) at.old at.new places.old places.new
        (spec.part_places (program_of scene.entry) (part_view part.now))) }
{
    match part {
        Part::Host(host) => add_host(alloc, scene, at, host.get(), places),
        Part::Bytes(_) => Ok(()),
    }
}

/// The hosts of parts.
pub(crate) fn add_parts(
    alloc: Global,
    scene: Scene<'_>,
    at: &mut usize,
    parts: &[Part],
    places: &mut List<Place>,
) -> Result<(), OutOfMemory>
    ensures { OnOk result (Adds (denoted_of scene.entry) at.old at.new places.old places.new
        (spec.each_of (spec.part_places (program_of scene.entry)) (map part_view parts.now))) }
{
    for part in parts {
        add_part(alloc, scene, at, part, places)?;
    }
    Ok(())
}

/// Values that are sent.
fn add_inputs(
    alloc: Global,
    scene: Scene<'_>,
    at: &mut usize,
    inputs: &[Input],
    places: &mut List<Place>,
) -> Result<(), OutOfMemory>
    ensures { OnOk result (Adds (denoted_of scene.entry) at.old at.new places.old places.new
        (spec.each_of (spec.input_places (program_of scene.entry)) (map input_view inputs.now))) }
{
    for input in inputs {
        add_input(alloc, scene, at, input, places)?;
    }
    Ok(())
}

/// Where values are stored.
fn add_outputs(
    alloc: Global,
    scene: Scene<'_>,
    at: &mut usize,
    hosts: &[Host],
    places: &mut List<Place>,
) -> Result<(), OutOfMemory>
    ensures { OnOk result (Adds (denoted_of scene.entry) at.old at.new places.old places.new
        (spec.each_of (spec.host_places (program_of scene.entry)) (map host_view hosts.now))) }
{
    for host in hosts {
        add_host(alloc, scene, at, host, places)?;
    }
    Ok(())
}

/// Where items are stored.
pub(crate) fn add_got(
    alloc: Global,
    scene: Scene<'_>,
    at: &mut usize,
    items: &[(Item, Host)],
    places: &mut List<Place>,
) -> Result<(), OutOfMemory>
    ensures { OnOk result (Adds (denoted_of scene.entry) at.old at.new places.old places.new
        (spec.each_of (spec.get_places (program_of scene.entry)) (map get_item_view items.now))) }
{
    for item in items {
        add_host(alloc, scene, at, &item.1, places)?;
    }
    Ok(())
}

/// What items are set to.
pub(crate) fn add_set(
    alloc: Global,
    scene: Scene<'_>,
    at: &mut usize,
    items: &[(Item, Input)],
    places: &mut List<Place>,
) -> Result<(), OutOfMemory>
    ensures { OnOk result (Adds (denoted_of scene.entry) at.old at.new places.old places.new
        (spec.each_of (spec.set_places (program_of scene.entry)) (map set_item_view items.now))) }
{
    for item in items {
        add_input(alloc, scene, at, &item.1, places)?;
    }
    Ok(())
}

/// The values of a USING list, or its descriptor.
pub(crate) fn add_ins(
    alloc: Global,
    scene: Scene<'_>,
    at: &mut usize,
    ins: &Ins,
    places: &mut List<Place>,
) -> Result<(), OutOfMemory>
    ensures { OnOk result (Adds (denoted_of scene.entry) at.old at.new places.old places.new
        (spec.ins_places (program_of scene.entry) (ins_view ins.now))) }
{
    match ins {
        Ins::Listed(inputs) => add_inputs(alloc, scene, at, inputs.as_slice(), places),
        Ins::Area(area) => add_area(alloc, scene, at, area, places),
    }
}

/// Where an answer is stored.
pub(crate) fn add_outs(
    alloc: Global,
    scene: Scene<'_>,
    at: &mut usize,
    outs: &Outs,
    places: &mut List<Place>,
) -> Result<(), OutOfMemory>
    ensures { OnOk result (Adds (denoted_of scene.entry) at.old at.new places.old places.new
        (spec.outs_places (program_of scene.entry) (outs_view outs.now))) }
{
    match outs {
        Outs::Nothing => Ok(()),
        Outs::Listed(hosts) => add_outputs(alloc, scene, at, hosts.as_slice(), places),
        Outs::Area(area) => add_area(alloc, scene, at, area, places),
    }
}
