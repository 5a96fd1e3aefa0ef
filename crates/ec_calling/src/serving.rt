//! Calls that are cut, as the library is given them.

ghost use Rattle.std.specs.Prelude.{◌≡◌, ◌++◌, ℕ, IfSome, map, option_map};
ghost use Rattle.ec_arguments.specs.Arguments as spec;
ghost use Rattle.ec_cut.specs.Views.{indicators_view, place_view};
ghost use Rattle.ec_runtime.specs.declared.call.Act.TheVariants as acts;
ghost use Rattle.ec_runtime.specs.declared.call.Wanted.TheVariants as wants;
ghost use Rattle.ec_runtime.specs.Places as places;
ghost use Rattle.ec_runtime.specs.Reading.{given_view, input_view, text_view};
ghost use Rattle.ec_runtime.specs.Statements.{area_members, cut_view, describe_view, got_view, set_view, target_view, targets_view, wanted_view};
ghost use Rattle.ec_runtime.specs.Views.{host_view};
ghost use Rattle.ec_calling.specs.Giving.{number_of};
ghost use Rattle.ec_calling.specs.Serving.{act_seen, connect_seen, cut_seen, describe_seen, disconnect_seen, get_seen, items_seen, member_seen, members_seen, prepare_seen, run_seen, set_connection_seen, set_seen, statement_seen, text_seen};

use crate::address::Address;
use ec_base::{Bytes, Line, List, Name};
use ec_bytes::Ptr;
use ec_convert::HostPlace;
use ec_ctypes::{Item, Sym};
use ec_cut::{Call as CutCall, Cut, Indicator, Member, Place, Statement as Asked, Text};
use ec_runtime::{
    Act, Call, Connect, Describe, Destination, GivenText, Host, Input, Kind, Statement, TextArg,
    Wanted,
};
use std::alloc::Global;

// A text.
fn text_of(alloc: Global, text: Text<&[u8], Address>) -> Option<TextArg>
    ensures { IfSome result (λ made. text_view made ≡ text_seen text.entry) }
{
    match text {
        Text::Absent => Some(TextArg::Absent),
        Text::Word(bytes) => match Bytes::from_slice(alloc, bytes) {
            Ok(copy) => Some(TextArg::Word(copy)),
            Err(_) => None,
        },
        Text::Held(address) => Some(TextArg::Held(address.0)),
    }
}

// A text that is there.
fn given_of(alloc: Global, text: Text<&[u8], Address>) -> Option<GivenText>
    ensures { IfSome result (λ made. given_view made ≡ text_seen text.entry) }
{
    match text {
        Text::Absent => None,
        Text::Word(bytes) => match Bytes::from_slice(alloc, bytes) {
            Ok(copy) => Some(GivenText::Word(copy)),
            Err(_) => None,
        },
        Text::Held(address) => Some(GivenText::Held(address.0)),
    }
}

// The indicators of a host.
fn indicators_of(ind: Option<Indicator<Address>>) -> Option<(Sym, Ptr, u64, u64)>
    ensures { option_map places.indicator_view result ≡ indicators_view number_of ind }
{
    match ind {
        Some(ind) => Some((ind.sym, ind.value.0, ind.count, ind.step)),
        None => None,
    }
}

// The place of a host.
fn place_of(place: Place<Address>) -> HostPlace
    ensures { places.place_view result ≡ place_view number_of place }
{
    HostPlace {
        sym: place.sym,
        at: place.value.0,
        size: place.size,
        count: place.count,
        step: place.step,
        ind: indicators_of(place.ind),
    }
}

// A host.
fn host_of(place: Place<Address>) -> Option<Host>
    ensures { IfSome result (λ host. host_view host ≡ place_view number_of place) }
{
    Host::new(place_of(place))
}

// A value that a statement is given.
fn input_of(alloc: Global, member: &Member<&[u8], Address>) -> Option<Input>
    ensures { IfSome result (λ made. input_view made ≡ member_seen member.now) }
{
    match member {
        Member::Host(place) => match host_of(*place) {
            Some(host) => Some(Input::Host(host)),
            None => None,
        },
        Member::Constant(bytes) => match Bytes::from_slice(alloc, bytes) {
            Ok(copy) => Some(Input::Constant(copy)),
            Err(_) => None,
        },
        Member::Descriptor(_) => None,
    }
}

// A host that is stored into.
fn output_of(member: &Member<&[u8], Address>) -> Option<Host>
    ensures { IfSome result (λ made. target_view made ≡ member_seen member.now) }
{
    match member {
        Member::Host(place) => host_of(*place),
        Member::Constant(_) => None,
        Member::Descriptor(_) => None,
    }
}

// The values that a statement is given.
fn inputs_of(alloc: Global, members: &[Member<&[u8], Address>]) -> Option<List<Input>>
    ensures { IfSome result (λ made. map input_view made ≡ members_seen members.now) }
{
    let mut made = List::new(alloc);
    for member in members {
        let Some(input) = input_of(alloc, member) else {
            return None;
        };
        match made.push(input) {
            Ok(()) => {}
            Err(_) => return None,
        }
    }
    Some(made)
}

// The hosts that its rows go into.
fn outputs_of(alloc: Global, members: &[Member<&[u8], Address>]) -> Option<List<Host>>
    ensures { IfSome result (λ made. map target_view made ≡ members_seen members.now) }
{
    let mut made = List::new(alloc);
    for member in members {
        let Some(host) = output_of(member) else {
            return None;
        };
        match made.push(host) {
            Ok(()) => {}
            Err(_) => return None,
        }
    }
    Some(made)
}

// The name of a descriptor.
fn descriptor_of(alloc: Global, member: &Member<&[u8], Address>) -> Option<GivenText>
    ensures { IfSome result (λ made. spec.descriptor (given_view made) ≡ member_seen member.now) }
{
    match member {
        Member::Host(_) => None,
        Member::Constant(_) => None,
        Member::Descriptor(name) => given_of(alloc, *name),
    }
}

// The values that a statement is given before a descriptor.
fn values_before(
    alloc: Global,
    front: &[Member<&[u8], Address>],
    area: Option<GivenText>,
) -> Option<(List<Input>, Option<GivenText>)>
    ensures { IfSome result (λ made. map input_view made.0 ++ area_members made.1
        ≡ members_seen front.now ++ area_members area) }
{
    match inputs_of(alloc, front) {
        Some(ins) => Some((ins, area)),
        None => None,
    }
}

// The values that a statement is given, and the descriptor behind them.
fn members_of(
    alloc: Global,
    members: &[Member<&[u8], Address>],
) -> Option<(List<Input>, Option<GivenText>)>
    ensures { IfSome result (λ made. map input_view made.0 ++ area_members made.1
        ≡ members_seen members.now) }
{
    match members {
        [] => values_before(alloc, members, None),
        [front @ .., last] => match descriptor_of(alloc, last) {
            Some(area) => values_before(alloc, front, Some(area)),
            None => values_before(alloc, members, None),
        },
    }
}

// Hosts, into which the rows of a statement go.
fn hosts_of(alloc: Global, members: &[Member<&[u8], Address>]) -> Option<Destination>
    ensures { IfSome result (λ made. targets_view made ≡ members_seen members.now) }
{
    match outputs_of(alloc, members) {
        Some(hosts) => Some(Destination::Hosts(hosts)),
        None => None,
    }
}

// Where the rows of a statement go.
fn destination_of(alloc: Global, members: &[Member<&[u8], Address>]) -> Option<Destination>
    ensures { IfSome result (λ made. targets_view made ≡ members_seen members.now) }
{
    match members {
        [only] => match descriptor_of(alloc, only) {
            Some(area) => Some(Destination::Area(area)),
            None => hosts_of(alloc, members),
        },
        _ => hosts_of(alloc, members),
    }
}

// The line of a call.
fn line_of(line: u64) -> Option<Line>
    ensures { IfSome result (λ made. made.0 ≡ line) }
{
    if line <= 0xffff_ffff {
        Some(Line(line as u32))
    } else {
        None
    }
}

// A text with the parts of its call.
fn made_of(
    alloc: Global,
    line: u64,
    connection: Text<&[u8], Address>,
    wanted: Wanted,
    ins: &[Member<&[u8], Address>],
    outs: &[Member<&[u8], Address>],
) -> Option<Call>
    ensures { IfSome result (λ made. cut_view made
        ≡ run_seen line connection.entry (wanted_view wanted) ins.now outs.now) }
{
    let Some(line) = line_of(line) else {
        return None;
    };
    let Some(connection) = text_of(alloc, connection) else {
        return None;
    };
    let Some((ins, area)) = members_of(alloc, ins) else {
        return None;
    };
    let Some(outs) = destination_of(alloc, outs) else {
        return None;
    };
    let statement = Statement {
        wanted,
        ins,
        area,
        outs,
    };
    let kind = Kind::Over(connection, Act::Run(statement));
    Some(Call { line, kind })
}

// A cursor for a prepared statement.
fn opening_of(alloc: Global, head: &[u8], name: &[u8]) -> Option<Wanted>
    ensures { IfSome result (λ made. made ≡ wants.Opening head.now name.now) }
{
    let Ok(head) = Bytes::from_slice(alloc, head) else {
        return None;
    };
    match Name::from_slice(alloc, name) {
        Ok(name) => Some(Wanted::Opening { head, name }),
        Err(_) => None,
    }
}

// The text of a statement, or the name of a prepared one.
fn wanted_of(alloc: Global, statement: Asked<&[u8], Address>) -> Option<Wanted>
    ensures { IfSome result (λ made. wanted_view made ≡ statement_seen statement.entry) }
{
    match statement {
        Asked::Normal(text) => match Bytes::from_slice(alloc, text) {
            Ok(copy) => Some(Wanted::Normal(copy)),
            Err(_) => None,
        },
        Asked::Prepared(name) => match Name::from_slice(alloc, name) {
            Ok(copy) => Some(Wanted::Prepared(copy)),
            Err(_) => None,
        },
        Asked::Immediate(text) => match given_of(alloc, text) {
            Some(given) => Some(Wanted::Immediate(given)),
            None => None,
        },
        Asked::Opening(head, name) => opening_of(alloc, head, name),
    }
}

// A statement with the parts of its call.
fn run_of(
    alloc: Global,
    line: u64,
    connection: Text<&[u8], Address>,
    statement: Asked<&[u8], Address>,
    ins: &[Member<&[u8], Address>],
    outs: &[Member<&[u8], Address>],
) -> Option<Call>
    ensures { IfSome result (λ made. cut_view made
        ≡ run_seen line connection.entry (statement_seen statement.entry) ins.now outs.now) }
{
    match wanted_of(alloc, statement) {
        Some(wanted) => made_of(alloc, line, connection, wanted, ins, outs),
        None => None,
    }
}

// What is called over a connection.
fn call_of(alloc: Global, line: u64, connection: Text<&[u8], Address>, act: Act) -> Option<Call>
    ensures { IfSome result (λ made. cut_view made ≡ act_seen line connection.entry act) }
{
    let Some(line) = line_of(line) else {
        return None;
    };
    let Some(connection) = text_of(alloc, connection) else {
        return None;
    };
    let kind = Kind::Over(connection, act);
    Some(Call { line, kind })
}

// CONNECT.
fn connect_of(
    alloc: Global,
    line: u64,
    target: Text<&[u8], Address>,
    user: Text<&[u8], Address>,
    password: Text<&[u8], Address>,
    name: Text<&[u8], Address>,
) -> Option<Call>
    ensures { IfSome result (λ made. cut_view made
        ≡ connect_seen line target.entry user.entry password.entry name.entry) }
{
    let Some(line) = line_of(line) else {
        return None;
    };
    let Some(target) = given_of(alloc, target) else {
        return None;
    };
    let Some(user) = text_of(alloc, user) else {
        return None;
    };
    let Some(password) = text_of(alloc, password) else {
        return None;
    };
    let Some(name) = text_of(alloc, name) else {
        return None;
    };
    let kind = Kind::Connect(Connect {
        target,
        user,
        password,
        name,
    });
    Some(Call { line, kind })
}

// DISCONNECT.
fn disconnect_of(alloc: Global, line: u64, name: Text<&[u8], Address>) -> Option<Call>
    ensures { IfSome result (λ made. cut_view made ≡ disconnect_seen line name.entry) }
{
    let Some(line) = line_of(line) else {
        return None;
    };
    match given_of(alloc, name) {
        Some(name) => Some(Call {
            line,
            kind: Kind::Disconnect(name),
        }),
        None => None,
    }
}

// SET CONNECTION.
fn set_connection_of(alloc: Global, line: u64, name: Text<&[u8], Address>) -> Option<Call>
    ensures { IfSome result (λ made. cut_view made ≡ set_connection_seen line name.entry) }
{
    let Some(line) = line_of(line) else {
        return None;
    };
    match given_of(alloc, name) {
        Some(name) => Some(Call {
            line,
            kind: Kind::SetConnection(name),
        }),
        None => None,
    }
}

// Transaction control.
fn control_of(alloc: Global, text: &[u8]) -> Option<Act>
    ensures { IfSome result (λ made. made ≡ acts.Control text.now) }
{
    match Bytes::from_slice(alloc, text) {
        Ok(text) => Some(Act::Control(text)),
        Err(_) => None,
    }
}

// PREPARE.
fn prepare_of(
    alloc: Global,
    line: u64,
    connection: Text<&[u8], Address>,
    name: &[u8],
    text: Text<&[u8], Address>,
) -> Option<Call>
    ensures { IfSome result (λ made. cut_view made
        ≡ prepare_seen line connection.entry name.now text.entry) }
{
    let Ok(name) = Name::from_slice(alloc, name) else {
        return None;
    };
    let Some(text) = given_of(alloc, text) else {
        return None;
    };
    call_of(alloc, line, connection, Act::Prepare { name, text })
}

// DEALLOCATE.
fn deallocate_of(alloc: Global, name: &[u8]) -> Option<Act>
    ensures { IfSome result (λ made. made ≡ acts.Deallocate name.now) }
{
    match Name::from_slice(alloc, name) {
        Ok(copy) => Some(Act::Deallocate(copy)),
        Err(_) => None,
    }
}

// A call on a descriptor.
fn describe_of(alloc: Global, line: u64, name: Text<&[u8], Address>, what: Describe) -> Option<Call>
    ensures { IfSome result (λ made. cut_view made ≡ describe_seen line name.entry what) }
{
    let Some(line) = line_of(line) else {
        return None;
    };
    match given_of(alloc, name) {
        Some(name) => Some(Call {
            line,
            kind: Kind::Describe(name, what),
        }),
        None => None,
    }
}

// Items with the hosts that they are stored into.
fn got_of(alloc: Global, items: &[(Item, Member<&[u8], Address>)]) -> Option<List<(Item, Host)>>
    ensures { IfSome result (λ made. map got_view made ≡ items_seen items.now) }
{
    let mut made = List::new(alloc);
    for item in items {
        let Some(host) = output_of(&item.1) else {
            return None;
        };
        match made.push((item.0, host)) {
            Ok(()) => {}
            Err(_) => return None,
        }
    }
    Some(made)
}

// Items with their values.
fn set_of(alloc: Global, items: &[(Item, Member<&[u8], Address>)]) -> Option<List<(Item, Input)>>
    ensures { IfSome result (λ made. map set_view made ≡ items_seen items.now) }
{
    let mut made = List::new(alloc);
    for item in items {
        let Some(input) = input_of(alloc, &item.1) else {
            return None;
        };
        match made.push((item.0, input)) {
            Ok(()) => {}
            Err(_) => return None,
        }
    }
    Some(made)
}

// GET DESCRIPTOR with items.
fn get_items_of(
    alloc: Global,
    line: u64,
    name: Text<&[u8], Address>,
    index: &Member<&[u8], Address>,
    items: &[(Item, Member<&[u8], Address>)],
) -> Option<Call>
    ensures { IfSome result (λ made. cut_view made
        ≡ get_seen line name.entry index.now items.now) }
{
    let Some(index) = input_of(alloc, index) else {
        return None;
    };
    match got_of(alloc, items) {
        Some(wanted) => describe_of(alloc, line, name, Describe::GetItems(index, wanted)),
        None => None,
    }
}

// SET DESCRIPTOR with items.
fn set_items_of(
    alloc: Global,
    line: u64,
    name: Text<&[u8], Address>,
    index: &Member<&[u8], Address>,
    items: &[(Item, Member<&[u8], Address>)],
) -> Option<Call>
    ensures { IfSome result (λ made. cut_view made
        ≡ set_seen line name.entry index.now items.now) }
{
    let Some(index) = input_of(alloc, index) else {
        return None;
    };
    match set_of(alloc, items) {
        Some(given) => describe_of(alloc, line, name, Describe::SetItems(index, given)),
        None => None,
    }
}

// GET DESCRIPTOR with COUNT.
fn get_count_of(target: &Member<&[u8], Address>) -> Option<Describe>
    ensures { IfSome result (λ made. (name : spec.TextArg ℕ) → describe_view name made
        ≡ spec.get_count name (member_seen target.now)) }
{
    match output_of(target) {
        Some(host) => Some(Describe::GetCount(host)),
        None => None,
    }
}

// SET DESCRIPTOR with COUNT.
fn set_count_of(alloc: Global, value: &Member<&[u8], Address>) -> Option<Describe>
    ensures { IfSome result (λ made. (name : spec.TextArg ℕ) → describe_view name made
        ≡ spec.set_count name (member_seen value.now)) }
{
    match input_of(alloc, value) {
        Some(value) => Some(Describe::SetCount(value)),
        None => None,
    }
}

/// A call as the library is given it. There is none without memory.
pub(crate) fn served(alloc: Global, cut: &Cut<&[u8], Address>) -> Option<Call>
    ensures { IfSome result (λ made. cut_view made ≡ cut_seen cut.now) }
{
    match &cut.call {
        CutCall::Run(connection, statement, ins, outs) => run_of(
            alloc,
            cut.line,
            *connection,
            *statement,
            ins.as_slice(),
            outs.as_slice(),
        ),
        CutCall::Connect(target, user, password, name) => {
            connect_of(alloc, cut.line, *target, *user, *password, *name)
        }
        CutCall::Disconnect(name) => disconnect_of(alloc, cut.line, *name),
        CutCall::SetConnection(name) => set_connection_of(alloc, cut.line, *name),
        CutCall::SetAutocommit(on, connection) => {
            call_of(alloc, cut.line, *connection, Act::Autocommit(*on))
        }
        CutCall::Control(connection, text) => match control_of(alloc, text) {
            Some(act) => call_of(alloc, cut.line, *connection, act),
            None => None,
        },
        CutCall::Prepare(connection, name, text) => {
            prepare_of(alloc, cut.line, *connection, name, *text)
        }
        CutCall::Deallocate(connection, name) => match deallocate_of(alloc, name) {
            Some(act) => call_of(alloc, cut.line, *connection, act),
            None => None,
        },
        CutCall::AllocateDescriptor(name) => {
            describe_of(alloc, cut.line, *name, Describe::Allocate)
        }
        CutCall::DeallocateDescriptor(name) => {
            describe_of(alloc, cut.line, *name, Describe::Deallocate)
        }
        CutCall::GetCount(name, target) => match get_count_of(target) {
            Some(what) => describe_of(alloc, cut.line, *name, what),
            None => None,
        },
        CutCall::SetCount(name, value) => match set_count_of(alloc, value) {
            Some(what) => describe_of(alloc, cut.line, *name, what),
            None => None,
        },
        CutCall::GetItems(name, index, items) => {
            get_items_of(alloc, cut.line, *name, index, items.as_slice())
        }
        CutCall::SetItems(name, index, items) => {
            set_items_of(alloc, cut.line, *name, index, items.as_slice())
        }
    }
}
