//! The faults of the hosts of a statement.
#![tactic(auto, using(crate::proofs::Walking::walking))]

ghost use Rattle.std.specs.Prelude.{◌≡◌, ◌++◌, ◌∷◌, [], IfOk, OnOk, map, option_map};
ghost use Rattle.ec_ctypes.specs.views.Embedded.{host_view, text_arg_view, input_view, ins_view, outs_view, part_view, get_item_view, set_item_view, emb_view};
ghost use Rattle.ec_host_defs.specs.Faults.{uses_faults};
ghost use Rattle.ec_host_defs.specs.Uses as spec;
ghost use Rattle.ec_params.specs.Least.{least};
ghost use Rattle.ec_params.specs.Scenes.{program_of, denoted_of};
ghost use Rattle.ec_params.specs.Shapes.{role_view};
ghost use Rattle.ec_params.specs.Walks.{Walks};

use crate::scene::Scene;
use crate::values::Role;
use crate::walk::{Walk, walk_text, walk_whole};
use ec_base::{Boxed, FaultKind, OutOfMemory};
use ec_ctypes::{Emb, EmbKind, Host, Input, Ins, Item, Outs, Part, TextArg};
use std::alloc::Global;

/// A name or a text, if there is one.
fn walk_option(
    alloc: Global,
    scene: Scene<'_>,
    walk: &mut Walk,
    arg: &Option<Boxed<TextArg>>,
) -> Result<(), OutOfMemory>
    ensures { OnOk result (Walks (program_of scene.entry) (denoted_of scene.entry)
        (spec.text_option_uses (option_map text_arg_view arg.now)) walk.old walk.new) }
{
    match arg {
        Some(arg) => walk_text(alloc, scene, walk, arg.get()),
        None => Ok(()),
    }
}

/// A value that is sent.
fn walk_input(
    alloc: Global,
    scene: Scene<'_>,
    walk: &mut Walk,
    role: Role,
    input: &Input,
) -> Result<(), OutOfMemory>
    ensures { OnOk result (Walks (program_of scene.entry) (denoted_of scene.entry)
        (spec.input_uses (role_view role) (input_view input.now)) walk.old walk.new) }
{
    match input {
        Input::Host(host) => walk_whole(alloc, scene, walk, role, host),
        Input::Const(_) => Ok(()),
    }
}

/// A part of a text.
fn walk_part(
    alloc: Global,
    scene: Scene<'_>,
    walk: &mut Walk,
    part: &Part,
) -> Result<(), OutOfMemory>
    ensures { OnOk result (Walks (program_of scene.entry) (denoted_of scene.entry)
        (spec.part_uses (part_view part.now)) walk.old walk.new) }
{
    match part {
        Part::Host(host) => walk_whole(alloc, scene, walk, Role::Input, host.get()),
        Part::Bytes(_) => Ok(()),
    }
}

/// The parts of a text.
fn walk_parts(
    alloc: Global,
    scene: Scene<'_>,
    walk: &mut Walk,
    parts: &[Part],
) -> Result<(), OutOfMemory>
    ensures { OnOk result (Walks (program_of scene.entry) (denoted_of scene.entry)
        (spec.each_uses spec.part_uses (map part_view parts.now)) walk.old walk.new) }
{
    for part in parts {
        walk_part(alloc, scene, walk, part)?;
    }
    Ok(())
}

/// Values that are sent.
fn walk_inputs(
    alloc: Global,
    scene: Scene<'_>,
    walk: &mut Walk,
    inputs: &[Input],
) -> Result<(), OutOfMemory>
    ensures { OnOk result (Walks (program_of scene.entry) (denoted_of scene.entry)
        (spec.each_uses (spec.input_uses spec.input_role)
        (map input_view inputs.now)) walk.old walk.new) }
{
    for input in inputs {
        walk_input(alloc, scene, walk, Role::Input, input)?;
    }
    Ok(())
}

/// Where answers are stored.
fn walk_outputs(
    alloc: Global,
    scene: Scene<'_>,
    walk: &mut Walk,
    hosts: &[Host],
) -> Result<(), OutOfMemory>
    ensures { OnOk result (Walks (program_of scene.entry) (denoted_of scene.entry)
        (spec.each_uses spec.output_uses (map host_view hosts.now)) walk.old walk.new) }
{
    for host in hosts {
        walk_whole(alloc, scene, walk, Role::Output, host)?;
    }
    Ok(())
}

/// Items that are got.
fn walk_got(
    alloc: Global,
    scene: Scene<'_>,
    walk: &mut Walk,
    items: &[(Item, Host)],
) -> Result<(), OutOfMemory>
    ensures { OnOk result (Walks (program_of scene.entry) (denoted_of scene.entry)
        (spec.each_uses spec.get_uses (map get_item_view items.now)) walk.old walk.new) }
{
    for item in items {
        walk_whole(alloc, scene, walk, Role::Item, &item.1)?;
    }
    Ok(())
}

/// Items that are set.
fn walk_set(
    alloc: Global,
    scene: Scene<'_>,
    walk: &mut Walk,
    items: &[(Item, Input)],
) -> Result<(), OutOfMemory>
    ensures { OnOk result (Walks (program_of scene.entry) (denoted_of scene.entry)
        (spec.each_uses spec.set_uses (map set_item_view items.now)) walk.old walk.new) }
{
    for item in items {
        walk_input(alloc, scene, walk, Role::Item, &item.1)?;
    }
    Ok(())
}

/// The values of a USING list, or the name of the descriptor.
fn walk_ins(alloc: Global, scene: Scene<'_>, walk: &mut Walk, ins: &Ins) -> Result<(), OutOfMemory>
    ensures { OnOk result (Walks (program_of scene.entry) (denoted_of scene.entry)
        (spec.ins_uses (ins_view ins.now)) walk.old walk.new) }
{
    match ins {
        Ins::Listed(inputs) => walk_inputs(alloc, scene, walk, inputs.as_slice()),
        Ins::Area(area) => walk_text(alloc, scene, walk, area),
    }
}

/// Where an answer is stored.
fn walk_outs(
    alloc: Global,
    scene: Scene<'_>,
    walk: &mut Walk,
    outs: &Outs,
) -> Result<(), OutOfMemory>
    ensures { OnOk result (Walks (program_of scene.entry) (denoted_of scene.entry)
        (spec.outs_uses (outs_view outs.now)) walk.old walk.new) }
{
    match outs {
        Outs::Nothing => Ok(()),
        Outs::Listed(hosts) => walk_outputs(alloc, scene, walk, hosts.as_slice()),
        Outs::Area(area) => walk_text(alloc, scene, walk, area),
    }
}

/// A CONNECT.
fn walk_connect(
    alloc: Global,
    scene: Scene<'_>,
    walk: &mut Walk,
    target: &TextArg,
    name: &Option<Boxed<TextArg>>,
    user: &Option<Boxed<TextArg>>,
    password: &Option<Boxed<TextArg>>,
) -> Result<(), OutOfMemory>
    ensures { OnOk result (Walks (program_of scene.entry) (denoted_of scene.entry)
        (spec.text_uses (text_arg_view target.now)
        ++ (spec.text_option_uses (option_map text_arg_view name.now)
        ++ (spec.text_option_uses (option_map text_arg_view user.now)
        ++ spec.text_option_uses (option_map text_arg_view password.now)))) walk.old walk.new) }
{
    walk_text(alloc, scene, walk, target)?;
    walk_option(alloc, scene, walk, name)?;
    walk_option(alloc, scene, walk, user)?;
    walk_option(alloc, scene, walk, password)
}

/// The parts of a text, and where its answer is stored.
fn walk_server(
    alloc: Global,
    scene: Scene<'_>,
    walk: &mut Walk,
    parts: &[Part],
    outs: &Outs,
) -> Result<(), OutOfMemory>
    ensures { OnOk result (Walks (program_of scene.entry) (denoted_of scene.entry)
        (spec.each_uses spec.part_uses (map part_view parts.now)
        ++ spec.outs_uses (outs_view outs.now)) walk.old walk.new) }
{
    walk_parts(alloc, scene, walk, parts)?;
    walk_outs(alloc, scene, walk, outs)
}

/// Both lists of an EXECUTE.
fn walk_lists(
    alloc: Global,
    scene: Scene<'_>,
    walk: &mut Walk,
    ins: &Ins,
    outs: &Outs,
) -> Result<(), OutOfMemory>
    ensures { OnOk result (Walks (program_of scene.entry) (denoted_of scene.entry)
        (spec.ins_uses (ins_view ins.now)
        ++ spec.outs_uses (outs_view outs.now)) walk.old walk.new) }
{
    walk_ins(alloc, scene, walk, ins)?;
    walk_outs(alloc, scene, walk, outs)
}

/// A descriptor and the host of its count.
fn walk_get_count(
    alloc: Global,
    scene: Scene<'_>,
    walk: &mut Walk,
    area: &TextArg,
    host: &Host,
) -> Result<(), OutOfMemory>
    ensures { OnOk result (Walks (program_of scene.entry) (denoted_of scene.entry)
        (spec.text_uses (text_arg_view area.now)
        ++ (spec.number_role, host_view host.now) ∷ []) walk.old walk.new) }
{
    walk_text(alloc, scene, walk, area)?;
    walk_whole(alloc, scene, walk, Role::Number, host)
}

/// A descriptor and its new count.
fn walk_set_count(
    alloc: Global,
    scene: Scene<'_>,
    walk: &mut Walk,
    area: &TextArg,
    value: &Input,
) -> Result<(), OutOfMemory>
    ensures { OnOk result (Walks (program_of scene.entry) (denoted_of scene.entry)
        (spec.text_uses (text_arg_view area.now)
        ++ spec.input_uses spec.number_role (input_view value.now)) walk.old walk.new) }
{
    walk_text(alloc, scene, walk, area)?;
    walk_input(alloc, scene, walk, Role::Number, value)
}

/// A descriptor, an index, and the hosts of its items.
fn walk_get_items(
    alloc: Global,
    scene: Scene<'_>,
    walk: &mut Walk,
    area: &TextArg,
    index: &Input,
    items: &[(Item, Host)],
) -> Result<(), OutOfMemory>
    ensures { OnOk result (Walks (program_of scene.entry) (denoted_of scene.entry)
        (spec.text_uses (text_arg_view area.now)
        ++ (spec.input_uses spec.number_role (input_view index.now)
        ++ spec.each_uses spec.get_uses (map get_item_view items.now))) walk.old walk.new) }
{
    walk_text(alloc, scene, walk, area)?;
    walk_input(alloc, scene, walk, Role::Number, index)?;
    walk_got(alloc, scene, walk, items)
}

/// A descriptor, an index, and what its items are set to.
fn walk_set_items(
    alloc: Global,
    scene: Scene<'_>,
    walk: &mut Walk,
    area: &TextArg,
    index: &Input,
    items: &[(Item, Input)],
) -> Result<(), OutOfMemory>
    ensures { OnOk result (Walks (program_of scene.entry) (denoted_of scene.entry)
        (spec.text_uses (text_arg_view area.now)
        ++ (spec.input_uses spec.number_role (input_view index.now)
        ++ spec.each_uses spec.set_uses (map set_item_view items.now))) walk.old walk.new) }
{
    walk_text(alloc, scene, walk, area)?;
    walk_input(alloc, scene, walk, Role::Number, index)?;
    walk_set(alloc, scene, walk, items)
}

/// The hosts of a statement, but for that of its connection.
fn walk_kind(alloc: Global, scene: Scene<'_>, walk: &mut Walk, emb: &Emb) -> Result<(), OutOfMemory>
    ensures { OnOk result (Walks (program_of scene.entry) (denoted_of scene.entry)
        (spec.kind_uses (emb_view emb.now)) walk.old walk.new) }
{
    match &emb.kind {
        EmbKind::Connect {
            target,
            name,
            user,
            password,
        } => walk_connect(alloc, scene, walk, target, name, user, password),
        EmbKind::SetConnection(name) => walk_text(alloc, scene, walk, name),
        EmbKind::Disconnect(name) => walk_text(alloc, scene, walk, name),
        EmbKind::Autocommit(_) => Ok(()),
        EmbKind::Trans(_) => Ok(()),
        EmbKind::Text { parts, outs } => { walk_server(alloc, scene, walk, parts.as_slice(), outs) }
        EmbKind::Declare { parts, .. } => walk_parts(alloc, scene, walk, parts.as_slice()),
        EmbKind::OpenCursor { ins, .. } => walk_ins(alloc, scene, walk, ins),
        EmbKind::Immediate(text) => walk_text(alloc, scene, walk, text),
        EmbKind::Prepare { text, .. } => walk_text(alloc, scene, walk, text),
        EmbKind::Execute { ins, outs, .. } => walk_lists(alloc, scene, walk, ins, outs.get()),
        EmbKind::Deallocate(_) => Ok(()),
        EmbKind::Allocate(area) => walk_text(alloc, scene, walk, area),
        EmbKind::Free(area) => walk_text(alloc, scene, walk, area),
        EmbKind::GetCount(area, host) => { walk_get_count(alloc, scene, walk, area, host.get()) }
        EmbKind::Get { area, index, items } => {
            walk_get_items(alloc, scene, walk, area, index.get(), items.as_slice())
        }
        EmbKind::SetCount(area, value) => { walk_set_count(alloc, scene, walk, area, value.get()) }
        EmbKind::Set { area, index, items } => {
            walk_set_items(alloc, scene, walk, area, index.get(), items.as_slice())
        }
        EmbKind::Whenever(_, _) => Ok(()),
        EmbKind::IncludeSqlca => Ok(()),
    }
}

/// The hosts of a statement: first that of its connection.
fn walk_statement(
    alloc: Global,
    scene: Scene<'_>,
    walk: &mut Walk,
    emb: &Emb,
) -> Result<(), OutOfMemory>
    ensures { OnOk result (Walks (program_of scene.entry) (denoted_of scene.entry)
        (spec.uses_of (emb_view emb.now)) walk.old walk.new) }
{
    walk_option(alloc, scene, walk, &emb.at)?;
    walk_kind(alloc, scene, walk, emb)
}

/// The first fault of the hosts of a statement.
pub(crate) fn hosts_fault(
    alloc: Global,
    scene: Scene<'_>,
    emb: &Emb,
) -> Result<Option<FaultKind>, OutOfMemory>
    ensures { IfOk result (λ fault. fault ≡ least (uses_faults (program_of scene.entry)
        (spec.uses_of (emb_view emb.now)) (denoted_of scene.entry))) }
{
    let mut walk = Walk { at: 0, fault: None };
    walk_statement(alloc, scene, &mut walk, emb)?;
    Ok(walk.fault)
}
