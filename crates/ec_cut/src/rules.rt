//! Which members stand where in a call.

ghost use Rattle.std.specs.Prelude.{◌≡◌};
ghost use Rattle.ec_arguments.specs.Rules as spec;
ghost use Rattle.ec_cut.specs.Cases as cases;
ghost use Rattle.ec_cut.specs.Keeping.{keeps_input, keeps_only_output, keep_outputs, keeps_statement};
ghost use Rattle.ec_cut.specs.Views.{text_view, member_view, members_view, items_view, statement_view, call_view};

use crate::arguments::{Call, Member, Statement, Text};
use crate::numbers::{fits_place, is_single};
use crate::pointers::{Literal, Pointer};
use ec_ctypes::Item;

/// Whether it is NULL, a literal, or a pointer to characters.
fn is_optional_text<B: Literal + Copy, A: Pointer + Copy>(text: &Text<B, A>) -> bool
    ensures { result ≡ spec.is_optional_text A.leads_to_text (text_view B.bytes A.view text.now) }
{
    match text {
        Text::Absent => true,
        Text::Word(_) => true,
        Text::Held(pointer) => pointer.is_text(),
    }
}

/// Whether it is a literal, or a pointer to characters.
fn is_given_text<B: Literal + Copy, A: Pointer + Copy>(text: &Text<B, A>) -> bool
    ensures { result ≡ spec.is_given_text A.leads_to_text (text_view B.bytes A.view text.now) }
{
    match text {
        Text::Absent => false,
        Text::Word(_) => true,
        Text::Held(pointer) => pointer.is_text(),
    }
}

/// Whether it is a value that is read once.
fn is_value<B: Literal + Copy, A: Pointer + Copy>(member: &Member<B, A>) -> bool
    ensures { result ≡ spec.is_value (member_view B.bytes A.view member.now) }
{
    match member {
        Member::Host(place) => is_single(place),
        Member::Constant(_) => true,
        Member::Descriptor(_) => false,
    }
}

/// Whether it is a place of one element that is stored into.
fn is_target<B: Literal + Copy, A: Pointer + Copy>(member: &Member<B, A>) -> bool
    ensures { result ≡ spec.is_target (member_view B.bytes A.view member.now) }
{
    match member {
        Member::Host(place) => is_single(place),
        Member::Constant(_) => false,
        Member::Descriptor(_) => false,
    }
}

/// Whether it is a host that rows may be stored into.
fn is_fitting_host<B: Literal + Copy, A: Pointer + Copy>(member: &Member<B, A>) -> bool
    ensures { result ≡ cases.is_fitting_host (member_view B.bytes A.view member.now) }
{
    match member {
        Member::Host(place) => fits_place(place),
        Member::Constant(_) => false,
        Member::Descriptor(_) => false,
    }
}

/// Whether it is an input: a descriptor is the last one.
fn is_input<B: Literal + Copy, A: Pointer + Copy>(member: &Member<B, A>, last: bool) -> bool
    ensures { result ≡ keeps_input B.bytes A.view A.leads_to_text member.now last }
{
    match member {
        Member::Host(place) => is_single(place),
        Member::Constant(_) => true,
        Member::Descriptor(name) => last && is_given_text(name),
    }
}

/// Whether it is the only output.
fn is_only_output<B: Literal + Copy, A: Pointer + Copy>(member: &Member<B, A>) -> bool
    ensures { result ≡ keeps_only_output B.bytes A.view A.leads_to_text member.now }
{
    match member {
        Member::Host(place) => fits_place(place),
        Member::Constant(_) => false,
        Member::Descriptor(name) => is_given_text(name),
    }
}

#[tactic(auto, using(crate::proofs::CasesAre::inputs_step))]
fn are_inputs<B: Literal + Copy, A: Pointer + Copy>(members: &[Member<B, A>]) -> bool
    ensures { result ≡ spec.are_inputs A.leads_to_text (members_view B.bytes A.view members.now) }
{
    let mut left = members;
    while let [member, more @ ..] = left {
        if !is_input(member, more.is_empty()) {
            return false;
        }
        left = more;
    }
    true
}

#[tactic(auto, using(crate::proofs::CasesAre::hosts_step))]
fn are_hosts<B: Literal + Copy, A: Pointer + Copy>(members: &[Member<B, A>]) -> bool
    ensures { result ≡ spec.are_hosts (members_view B.bytes A.view members.now) }
{
    let mut left = members;
    while let [member, more @ ..] = left {
        if !is_fitting_host(member) {
            return false;
        }
        left = more;
    }
    true
}

/// Whether they are outputs: hosts, or a descriptor alone.
#[tactic(auto, using(crate::proofs::CasesAre::one_output, crate::proofs::CasesAre::more_outputs))]
fn are_outputs<B: Literal + Copy, A: Pointer + Copy>(members: &[Member<B, A>]) -> bool
    ensures { result ≡ keep_outputs B.bytes A.view A.leads_to_text members.now }
{
    match members {
        [] => true,
        [only] => is_only_output(only),
        [_, _, ..] => are_hosts(members),
    }
}

fn are_targets<B: Literal + Copy, A: Pointer + Copy>(items: &[(Item, Member<B, A>)]) -> bool
    ensures { result ≡ spec.are_targets (items_view B.bytes A.view items.now) }
{
    let mut left = items;
    while let [(_, member), more @ ..] = left {
        if !is_target(member) {
            return false;
        }
        left = more;
    }
    true
}

/// Whether an item can be set.
fn is_settable(item: Item) -> bool
    ensures { result ≡ spec.is_settable item }
{
    match item {
        Item::Content => true,
        Item::Indicator => true,
        Item::Label => false,
        Item::Code => true,
        Item::Octets => false,
    }
}

fn are_settings<B: Literal + Copy, A: Pointer + Copy>(items: &[(Item, Member<B, A>)]) -> bool
    ensures { result ≡ spec.are_settings (items_view B.bytes A.view items.now) }
{
    let mut left = items;
    while let [(item, member), more @ ..] = left {
        if !(is_settable(*item) && is_value(member)) {
            return false;
        }
        left = more;
    }
    true
}

fn is_statement<B: Literal + Copy, A: Pointer + Copy>(statement: &Statement<B, A>) -> bool
    ensures { result ≡ keeps_statement B.bytes A.view A.leads_to_text statement.now }
{
    match statement {
        Statement::Normal(_) => true,
        Statement::Prepared(_) => true,
        Statement::Immediate(text) => is_given_text(text),
        Statement::Opening(_, _) => true,
    }
}

/// Whether a call keeps the rules.
pub(crate) fn is_call<B: Literal + Copy, A: Pointer + Copy>(call: &Call<B, A>) -> bool
    ensures { result ≡ spec.is_call A.leads_to_text (call_view B.bytes A.view call.now) }
{
    match call {
        Call::Run(connection, statement, ins, outs) => {
            is_optional_text(connection)
                && is_statement(statement)
                && are_inputs(ins.as_slice())
                && are_outputs(outs.as_slice())
        }
        Call::Connect(target, user, password, name) => {
            is_given_text(target)
                && is_optional_text(user)
                && is_optional_text(password)
                && is_optional_text(name)
        }
        Call::Disconnect(name) => is_given_text(name),
        Call::SetConnection(name) => is_given_text(name),
        Call::SetAutocommit(_, connection) => is_optional_text(connection),
        Call::Control(connection, _) => is_optional_text(connection),
        Call::Prepare(connection, _, text) => {
            is_optional_text(connection) && is_given_text(text)
        }
        Call::Deallocate(connection, _) => is_optional_text(connection),
        Call::AllocateDescriptor(name) => is_given_text(name),
        Call::DeallocateDescriptor(name) => is_given_text(name),
        Call::GetCount(name, target) => is_given_text(name) && is_target(target),
        Call::SetCount(name, value) => is_given_text(name) && is_value(value),
        Call::GetItems(name, index, items) => {
            is_given_text(name) && is_value(index) && are_targets(items.as_slice())
        }
        Call::SetItems(name, index, items) => {
            is_given_text(name) && is_value(index) && are_settings(items.as_slice())
        }
    }
}
