//! The references to variables in an embedded statement, in the order of its tree (PostgreSQL manual, "Using Host
//! Variables").
#![tactic(auto, using(crate::proofs::parts_lemmas::Lists::append_group))]

ghost use Rattle.std.specs.Prelude.{◌≡◌, map, IfOk, OnOk};
ghost use Rattle.ec_ctypes.specs.views.Exprs.{expr_view, expr_option_view};
ghost use Rattle.ec_ctypes.specs.views.Embedded.{host_view, text_arg_view, input_view, ins_view, outs_view, part_view, get_item_view, set_item_view, emb_view};
ghost use Rattle.ec_typing_defs.specs.statement_parts.References as spec;
ghost use Rattle.ec_embedded_rules.specs.parts.Views.{reference_view, text_option_view, Adds};

use ec_base::{Boxed, List, OutOfMemory};
use ec_ctypes::{Emb, EmbKind, Expr, Host, Input, Ins, Item, Outs, Part, TextArg};
use std::alloc::Global;

/// A reference in an embedded statement.
#[derive(Clone, Copy, Debug)]
pub struct Reference<'a> {
    pub value: &'a Expr,
    /// Whether it is that of a host whose value is sent or stored: no indicator, and no name or text.
    pub is_host: bool,
}

// An indicator, or a name or text.
fn add_beside<'a>(all: &mut List<Reference<'a>>, value: &'a Expr) -> Result<(), OutOfMemory>
    ensures { OnOk result (Adds all.old all.new (spec.of_option (Some (expr_view value.now)))) }
{
    all.push(Reference {
        value,
        is_host: false,
    })
}

// A host with its indicator, if it has one.
fn add_host<'a>(all: &mut List<Reference<'a>>, host: &'a Host) -> Result<(), OutOfMemory>
    ensures { OnOk result (Adds all.old all.new (spec.of_host (host_view host.now))) }
{
    all.push(Reference {
        value: &host.value,
        is_host: true,
    })?;
    match &host.indicator {
        Some(indicator) => add_beside(all, indicator.get()),
        None => Ok(()),
    }
}

// A name or text, which may be a host.
fn add_text<'a>(all: &mut List<Reference<'a>>, text: &'a TextArg) -> Result<(), OutOfMemory>
    ensures { OnOk result (Adds all.old all.new (spec.of_text (text_arg_view text.now))) }
{
    match text {
        TextArg::Word(_) => Ok(()),
        TextArg::Host(value) => add_beside(all, value.get()),
        TextArg::HostWithIndicator(value, indicator) => {
            add_beside(all, value.get())?;
            add_beside(all, indicator.get())
        }
    }
}

// A name or text, if there is one.
fn add_text_option<'a>(
    all: &mut List<Reference<'a>>,
    text: &'a Option<Boxed<TextArg>>,
) -> Result<(), OutOfMemory>
    ensures { OnOk result (Adds all.old all.new
        (spec.of_text_option (text_option_view text.now))) }
{
    match text {
        Some(text) => add_text(all, text.get()),
        None => Ok(()),
    }
}

// A value that is sent.
fn add_input<'a>(all: &mut List<Reference<'a>>, input: &'a Input) -> Result<(), OutOfMemory>
    ensures { OnOk result (Adds all.old all.new (spec.of_input (input_view input.now))) }
{
    match input {
        Input::Host(host) => add_host(all, host),
        Input::Const(_) => Ok(()),
    }
}

// A part of a text.
fn add_part<'a>(all: &mut List<Reference<'a>>, part: &'a Part) -> Result<(), OutOfMemory>
    ensures { OnOk result (Adds all.old all.new (spec.of_part (part_view part.now))) }
{
    match part {
        Part::Bytes(_) => Ok(()),
        Part::Host(host) => add_host(all, host.get()),
    }
}

fn add_parts<'a>(all: &mut List<Reference<'a>>, parts: &'a [Part]) -> Result<(), OutOfMemory>
    ensures { OnOk result (Adds all.old all.new
        (spec.of_all spec.of_part (map part_view parts.now))) }
{
    for part in parts {
        add_part(all, part)?;
    }
    Ok(())
}

fn add_inputs<'a>(all: &mut List<Reference<'a>>, inputs: &'a [Input]) -> Result<(), OutOfMemory>
    ensures { OnOk result (Adds all.old all.new
        (spec.of_all spec.of_input (map input_view inputs.now))) }
{
    for input in inputs {
        add_input(all, input)?;
    }
    Ok(())
}

fn add_hosts<'a>(all: &mut List<Reference<'a>>, hosts: &'a [Host]) -> Result<(), OutOfMemory>
    ensures { OnOk result (Adds all.old all.new
        (spec.of_all spec.of_host (map host_view hosts.now))) }
{
    for host in hosts {
        add_host(all, host)?;
    }
    Ok(())
}

// Items that are stored.
fn add_get_items<'a>(
    all: &mut List<Reference<'a>>,
    items: &'a [(Item, Host)],
) -> Result<(), OutOfMemory>
    ensures { OnOk result (Adds all.old all.new
        (spec.of_all spec.of_get_item (map get_item_view items.now))) }
{
    for item in items {
        add_host(all, &item.1)?;
    }
    Ok(())
}

// Items that are set.
fn add_set_items<'a>(
    all: &mut List<Reference<'a>>,
    items: &'a [(Item, Input)],
) -> Result<(), OutOfMemory>
    ensures { OnOk result (Adds all.old all.new
        (spec.of_all spec.of_set_item (map set_item_view items.now))) }
{
    for item in items {
        add_input(all, &item.1)?;
    }
    Ok(())
}

fn add_ins<'a>(all: &mut List<Reference<'a>>, ins: &'a Ins) -> Result<(), OutOfMemory>
    ensures { OnOk result (Adds all.old all.new (spec.of_ins (ins_view ins.now))) }
{
    match ins {
        Ins::Listed(inputs) => add_inputs(all, inputs.as_slice()),
        Ins::Area(area) => add_text(all, area),
    }
}

fn add_outs<'a>(all: &mut List<Reference<'a>>, outs: &'a Outs) -> Result<(), OutOfMemory>
    ensures { OnOk result (Adds all.old all.new (spec.of_outs (outs_view outs.now))) }
{
    match outs {
        Outs::Nothing => Ok(()),
        Outs::Listed(hosts) => add_hosts(all, hosts.as_slice()),
        Outs::Area(area) => add_text(all, area),
    }
}

// What a statement is given beside its connection.
fn add_kind<'a>(all: &mut List<Reference<'a>>, e: &'a Emb) -> Result<(), OutOfMemory>
    ensures { OnOk result (Adds all.old all.new (spec.of_kind (emb_view e.now))) }
{
    match &e.kind {
        EmbKind::Connect {
            target,
            name,
            user,
            password,
        } => {
            add_text(all, target)?;
            add_text_option(all, name)?;
            add_text_option(all, user)?;
            add_text_option(all, password)
        }
        EmbKind::SetConnection(text)
        | EmbKind::Disconnect(text)
        | EmbKind::Immediate(text)
        | EmbKind::Allocate(text)
        | EmbKind::Free(text) => add_text(all, text),
        EmbKind::Prepare { text, .. } => add_text(all, text),
        EmbKind::Text { parts, outs } => {
            add_parts(all, parts.as_slice())?;
            add_outs(all, outs)
        }
        EmbKind::Declare { parts, .. } => add_parts(all, parts.as_slice()),
        EmbKind::OpenCursor { ins, .. } => add_ins(all, ins),
        EmbKind::Execute { ins, outs, .. } => {
            add_ins(all, ins)?;
            add_outs(all, outs.get())
        }
        EmbKind::GetCount(area, host) => {
            add_text(all, area)?;
            add_host(all, host.get())
        }
        EmbKind::Get { area, index, items } => {
            add_text(all, area)?;
            add_input(all, index.get())?;
            add_get_items(all, items.as_slice())
        }
        EmbKind::SetCount(area, value) => {
            add_text(all, area)?;
            add_input(all, value.get())
        }
        EmbKind::Set { area, index, items } => {
            add_text(all, area)?;
            add_input(all, index.get())?;
            add_set_items(all, items.as_slice())
        }
        EmbKind::Autocommit(_)
        | EmbKind::Trans(_)
        | EmbKind::Deallocate(_)
        | EmbKind::Whenever(_, _)
        | EmbKind::IncludeSqlca => Ok(()),
    }
}

/// The references of a statement: first that to the connection.
pub fn references<'a>(alloc: Global, e: &'a Emb) -> Result<List<Reference<'a>>, OutOfMemory>
    ensures { IfOk result (λ all. map reference_view all ≡ spec.references (emb_view e.now)) }
{
    let mut all = List::new(alloc);
    add_text_option(&mut all, &e.at)?;
    add_kind(&mut all, e)?;
    Ok(all)
}
