//! The calls on descriptors, which need no connection (PostgreSQL manual, chapter ECPG, section "Using Descriptor Areas").

ghost use Rattle.std.specs.Prelude.{◌≡◌, ℕ, IfErr, IfOk, Result, Some, map};
ghost use Rattle.std.specs.Fmt.{decimal, signed_decimal};
ghost use Rattle.std.specs.Option.{option_copied};
ghost use Rattle.ec_arguments.specs.Arguments.{host};
ghost use Rattle.ec_call_defs.specs.Areas.{Areas as Named, area_named, item_text, length_of, null_text, number_as, within};
ghost use Rattle.ec_call_defs.specs.Descriptors.{asks_indicator, has_indicator, is_indicator, item_stored, items_set, items_stored, stored_in, values_read};
ghost use Rattle.ec_convert.specs.Host.{given_host};
ghost use Rattle.ec_ctypes.specs.declared.types.arith.Arith.TheVariants.{Long};
ghost use Rattle.ec_descriptors.specs.Calls.{Changes};
ghost use Rattle.ec_descriptors.specs.Views.{item_view, items_view};
ghost use Rattle.ec_descriptors.specs.declared.stop.AreaStop.{AreaStop as Stopped};
ghost use Rattle.ec_transfer_defs.specs.Area.{IsArea};
ghost use Rattle.ec_runtime.specs.Describing.{area_taken, by_answer, count_got, count_put, described, items_got, items_put, value_put};
ghost use Rattle.ec_runtime.specs.Says.{Changed, Quiet};
ghost use Rattle.ec_runtime.specs.Statements.{describe_view, got_view, set_view, target_view};
ghost use Rattle.ec_runtime.specs.Reading.{given_view, input_view};
ghost use Rattle.ec_runtime.specs.Views.{host_view};
ghost use Rattle.ec_runtime.specs.declared.call.Describe.TheVariants as describes;
ghost use Rattle.ec_runtime.specs.declared.stop.Stop.TheVariants as stops;
ghost use Rattle.ec_call_defs.specs.Library.{call_done};

use crate::area::{begin_area, refuse};
use crate::call::Describe;
use crate::host::Host;
use crate::inputs::{GivenText, Input, field_of, given_text, kept};
use crate::stop::Stop;
use crate::storing::keep_field;
use ec_base::{Bytes, Line, List};
use ec_convert::{HostPlace, number_in};
use ec_ctypes::{Arith, Item};
use ec_descriptors::{AreaItem, AreaStop, Areas, within};
use ec_memory::Store;
use ec_transfer_defs::Finding;
use itoa::Buffer;
use std::alloc::Global;

/// What a call on descriptors answers, told.
fn told(store: &mut Store, line: Line, done: Result<(), AreaStop>) -> Result<(), Stop>
    requires { IsArea store.old }
    ensures changed { (a b : Named) (answer : Result Named Stopped) → Changes done a b answer
        → Changed result (by_answer line.0 answer) store.old a store.new b }
    ensures kept { IsArea store.new }
{
    match done {
        Ok(()) => Ok(()),
        Err(AreaStop::Found(finding)) => Err(refuse(store, line, finding)),
        Err(AreaStop::OutOfMemory) => Err(Stop::OutOfMemory),
    }
}

/// A text as a number of type `long`. NULL is none.
fn long_in(text: &Option<Bytes>) -> Option<i64>
    ensures { result ≡ number_as Long text.now }
{
    match text {
        None => None,
        Some(text) => match number_in(Arith::Long, text.as_slice()) {
            None => None,
            Some(number) => match i64::try_from(number) {
                Ok(long) => Some(long),
                Err(_) => unreachable!(),
            },
        },
    }
}

// ---- whole descriptors

/// ECPGallocate_desc.
fn allocate(store: &mut Store, areas: &mut Areas, line: Line, called: &[u8]) -> Result<(), Stop>
    requires { IsArea store.old }
    ensures changed { Changed result (described line.0 describes.Allocate called.now)
        store.old areas.old store.new areas.new }
    ensures kept { IsArea store.new }
{
    begin_area(store);
    match areas.allocate(called) {
        Ok(()) => Ok(()),
        Err(_) => Err(Stop::OutOfMemory),
    }
}

/// ECPGdeallocate_desc.
fn deallocate(store: &mut Store, areas: &mut Areas, line: Line, called: &[u8]) -> Result<(), Stop>
    requires { IsArea store.old }
    ensures changed { Changed result (described line.0 describes.Deallocate called.now)
        store.old areas.old store.new areas.new }
    ensures kept { IsArea store.new }
{
    begin_area(store);
    let done = areas.deallocate(called);
    told(store, line, done)
}

// ---- the count

/// Stores a text or NULL in the first element of a host.
fn keep_text(store: &mut Store, line: Line, host: &Host, field: Option<&[u8]>) -> Result<(), Stop>
    requires { IsArea store.old }
    ensures quiet { Quiet result (stored_in line.0 (target_view host.now)
        (option_copied field.entry)) store.old store.new }
    ensures kept { IsArea store.new }
{
    let first = Host {
        place: HostPlace {
            count: 1,
            ..host.place
        },
    };
    keep_field(store, line, &first, 0, field)
}

/// Stores a natural number in a host.
fn keep_length(store: &mut Store, line: Line, host: &Host, number: usize) -> Result<(), Stop>
    requires { IsArea store.old }
    ensures quiet { Quiet result (stored_in line.0 (target_view host.now) (Some (decimal number)))
        store.old store.new }
    ensures kept { IsArea store.new }
{
    let mut digits = Buffer::new();
    keep_text(store, line, host, Some(digits.format(number).as_bytes()))
}

/// ECPGget_desc_header: the count is stored.
fn get_count(
    store: &mut Store,
    areas: &Areas,
    line: Line,
    called: &[u8],
    host: &Host,
) -> Result<(), Stop>
    requires { IsArea store.old }
    ensures changed { Changed result (count_got line.0 called.now (host_view host.now))
        store.old areas.now store.new areas.now }
    ensures kept { IsArea store.new }
{
    match areas.items(called) {
        None => Err(refuse(store, line, Finding::NoDescriptor)),
        Some(items) => keep_length(store, line, host, items.len()),
    }
}

/// ECPGset_desc_header: the count is set from a text.
fn set_count(
    store: &mut Store,
    areas: &mut Areas,
    line: Line,
    called: &[u8],
    text: &Option<Bytes>,
) -> Result<(), Stop>
    requires { IsArea store.old }
    ensures changed { Changed result (count_put line.0 called.now text.now)
        store.old areas.old store.new areas.new }
    ensures kept { IsArea store.new }
{
    match areas.items(called) {
        None => return Err(refuse(store, line, Finding::NoDescriptor)),
        Some(_) => {}
    }
    match long_in(text) {
        None => Err(refuse(store, line, Finding::NotAnInteger)),
        Some(count) => {
            let done = areas.set_count(called, count);
            told(store, line, done)
        }
    }
}

// ---- items that are got

/// Stores a number in a host.
fn keep_number(store: &mut Store, line: Line, host: &Host, number: i32) -> Result<(), Stop>
    requires { IsArea store.old }
    ensures quiet { Quiet result (stored_in line.0 (target_view host.now)
        (Some (signed_decimal number))) store.old store.new }
    ensures kept { IsArea store.new }
{
    let mut digits = Buffer::new();
    keep_text(store, line, host, Some(digits.format(number).as_bytes()))
}

/// Whether an item is asked for its indicator.
fn is_indicator(what: Item) -> bool
    ensures { result ≡ is_indicator what }
{
    matches!(what, Item::Indicator)
}

/// Whether a statement asks for the indicator.
fn asks_indicator(wanted: &[(Item, Host)]) -> bool
    ensures { result ≡ asks_indicator (map got_view wanted.now) }
{
    for one in wanted {
        if is_indicator(one.0) {
            return true;
        }
    }
    false
}

/// Stores DATA of an item. A NULL is told by an indicator of its place; else, where the statement asks for the indicator,
/// the place stays as it is.
fn keep_content(
    store: &mut Store,
    line: Line,
    asked: bool,
    host: &Host,
    content: &Option<Bytes>,
) -> Result<(), Stop>
    requires { IsArea store.old }
    ensures quiet { Quiet result (item_stored line.0 asked (target_view host.now) content.now)
        store.old store.new }
    ensures kept { IsArea store.new }
{
    match content {
        Some(text) => keep_text(store, line, host, Some(text.as_slice())),
        None => match host.place.ind {
            Some(_) => keep_text(store, line, host, None),
            None => {
                if asked {
                    Ok(())
                } else {
                    keep_text(store, line, host, None)
                }
            }
        },
    }
}

/// What INDICATOR is: -1 for NULL, else 0.
fn null_number(content: &Option<Bytes>) -> i32
    ensures { result ≡ null_text content.now }
{
    match content {
        None => -1,
        Some(_) => 0,
    }
}

/// How many bytes DATA has: none for NULL.
fn octets(content: &Option<Bytes>) -> usize
    ensures { result ≡ length_of content.now }
{
    match content {
        None => 0,
        Some(text) => text.len(),
    }
}

/// Stores what an item gives.
fn keep_item(
    store: &mut Store,
    line: Line,
    asked: bool,
    what: Item,
    host: &Host,
    item: &AreaItem,
) -> Result<(), Stop>
    requires { IsArea store.old }
    ensures quiet { Quiet result (item_stored line.0 asked (target_view host.now)
        (item_text what (item_view item.now))) store.old store.new }
    ensures kept { IsArea store.new }
{
    match what {
        Item::Content => keep_content(store, line, asked, host, &item.content),
        Item::Indicator => keep_number(store, line, host, null_number(&item.content)),
        Item::Label => keep_text(store, line, host, Some(item.label.as_slice())),
        Item::Code => keep_number(store, line, host, item.code),
        Item::Octets => keep_length(store, line, host, octets(&item.content)),
    }
}

/// Stores what an item gives, in the order of the statement.
fn keep_items(
    store: &mut Store,
    line: Line,
    asked: bool,
    item: &AreaItem,
    wanted: &[(Item, Host)],
) -> Result<(), Stop>
    requires { IsArea store.old }
    ensures quiet { Quiet result (items_stored line.0 asked (item_view item.now)
        (map got_view wanted.now)) store.old store.new }
    ensures kept { IsArea store.new }
{
    for one in wanted {
        match keep_item(store, line, asked, one.0, &one.1, item) {
            Err(stop) => return Err(stop),
            Ok(()) => {}
        }
    }
    Ok(())
}

/// ECPGget_desc: items are stored, of the index that a text is.
fn get_items(
    store: &mut Store,
    areas: &Areas,
    line: Line,
    called: &[u8],
    text: &Option<Bytes>,
    wanted: &[(Item, Host)],
) -> Result<(), Stop>
    requires { IsArea store.old }
    ensures changed { Changed result (items_got line.0 called.now text.now
        (map got_view wanted.now)) store.old areas.now store.new areas.now }
    ensures kept { IsArea store.new }
{
    match areas.items(called) {
        None => return Err(refuse(store, line, Finding::NoDescriptor)),
        Some(_) => {}
    }
    match long_in(text) {
        None => Err(refuse(store, line, Finding::NotAnInteger)),
        Some(index) => match areas.item(called, index) {
            Err(_) => Err(refuse(store, line, Finding::DescriptorIndex)),
            Ok(item) => keep_items(store, line, asks_indicator(wanted), item, wanted),
        },
    }
}

// ---- items that are set

/// Reads values, in the order of the statement.
fn read_values(
    alloc: Global,
    store: &Store,
    given: &[(Item, Input)],
) -> Result<List<(Item, Option<Bytes>)>, Stop>
    ensures { Quiet result (values_read (map set_view given.now)) store.now store.now }
{
    let mut values = List::new(alloc);
    for one in given {
        match field_of(alloc, store, &one.1) {
            Err(stop) => return Err(stop),
            Ok(text) => match values.push((one.0, text)) {
                Err(_) => return Err(Stop::OutOfMemory),
                Ok(()) => {}
            },
        }
    }
    Ok(values)
}

/// A text or NULL, once more.
fn text_copy(alloc: Global, text: &Option<Bytes>) -> Result<Option<Bytes>, Stop>
    ensures ok { IfOk result (λ copy. copy ≡ text.now) }
    ensures err { IfErr result (λ stop. stop ≡ stops.OutOfMemory) }
{
    match text {
        None => Ok(None),
        Some(text) => match kept(alloc, text.as_slice()) {
            Ok(copy) => Ok(Some(copy)),
            Err(stop) => Err(stop),
        },
    }
}

/// Sets an item of an index.
fn put_value(
    alloc: Global,
    store: &mut Store,
    areas: &mut Areas,
    line: Line,
    called: &[u8],
    index: i64,
    value: &(Item, Option<Bytes>),
) -> Result<(), Stop>
    requires { IsArea store.old }
    ensures changed { (n : ℕ) → within 1 1000 index ≡ Some n → Changed result
        (value_put line.0 called.now n value.now) store.old areas.old store.new areas.new }
    ensures kept { IsArea store.new }
{
    match text_copy(alloc, &value.1) {
        Err(stop) => Err(stop),
        Ok(text) => {
            let done = areas.set_item(called, index, value.0, text);
            told(store, line, done)
        }
    }
}

/// Sets items of an index, in the order of the statement. The first that can't be set ends the call.
fn put_values(
    alloc: Global,
    store: &mut Store,
    areas: &mut Areas,
    line: Line,
    called: &[u8],
    index: i64,
    values: &[(Item, Option<Bytes>)],
) -> Result<(), Stop>
    requires { IsArea store.old }
    ensures changed { (n : ℕ) → within 1 1000 index ≡ Some n → Changed result
        (items_set line.0 called.now n values.now) store.old areas.old store.new areas.new }
    ensures kept { IsArea store.new }
{
    for value in values {
        match put_value(alloc, store, areas, line, called, index, value) {
            Err(stop) => return Err(stop),
            Ok(()) => {}
        }
    }
    Ok(())
}

/// ECPGset_desc: items are set, of the index that a text is. The index is tested before the items.
fn set_items(
    alloc: Global,
    store: &mut Store,
    areas: &mut Areas,
    line: Line,
    called: &[u8],
    text: &Option<Bytes>,
    values: &[(Item, Option<Bytes>)],
) -> Result<(), Stop>
    requires { IsArea store.old }
    ensures changed { Changed result (items_put line.0 called.now text.now values.now)
        store.old areas.old store.new areas.new }
    ensures kept { IsArea store.new }
{
    match areas.items(called) {
        None => return Err(refuse(store, line, Finding::NoDescriptor)),
        Some(_) => {}
    }
    let Some(index) = long_in(text) else {
        return Err(refuse(store, line, Finding::NotAnInteger));
    };
    match within(1, 1000, index) {
        None => Err(refuse(store, line, Finding::DescriptorIndex)),
        Some(_) => put_values(alloc, store, areas, line, called, index, values),
    }
}

// ---- the calls, once the name is read

/// ECPGset_desc_header.
fn describe_count(
    alloc: Global,
    store: &mut Store,
    areas: &mut Areas,
    line: Line,
    called: &[u8],
    value: &Input,
) -> Result<(), Stop>
    requires { IsArea store.old }
    ensures changed { Changed result (described line.0 (describes.SetCount value.now) called.now)
        store.old areas.old store.new areas.new }
    ensures kept { IsArea store.new }
{
    match field_of(alloc, store, value) {
        Err(stop) => Err(stop),
        Ok(text) => {
            begin_area(store);
            set_count(store, areas, line, called, &text)
        }
    }
}

/// ECPGget_desc.
fn describe_items(
    alloc: Global,
    store: &mut Store,
    areas: &Areas,
    line: Line,
    called: &[u8],
    index: &Input,
    wanted: &List<(Item, Host)>,
) -> Result<(), Stop>
    requires { IsArea store.old }
    ensures changed { Changed result
        (described line.0 (describes.GetItems index.now wanted.now) called.now)
        store.old areas.now store.new areas.now }
    ensures kept { IsArea store.new }
{
    match field_of(alloc, store, index) {
        Err(stop) => Err(stop),
        Ok(text) => {
            begin_area(store);
            get_items(store, areas, line, called, &text, wanted.as_slice())
        }
    }
}

/// ECPGset_desc.
fn describe_values(
    alloc: Global,
    store: &mut Store,
    areas: &mut Areas,
    line: Line,
    called: &[u8],
    index: &Input,
    given: &List<(Item, Input)>,
) -> Result<(), Stop>
    requires { IsArea store.old }
    ensures changed { Changed result
        (described line.0 (describes.SetItems index.now given.now) called.now)
        store.old areas.old store.new areas.new }
    ensures kept { IsArea store.new }
{
    match field_of(alloc, store, index) {
        Err(stop) => Err(stop),
        Ok(text) => match read_values(alloc, store, given.as_slice()) {
            Err(stop) => Err(stop),
            Ok(values) => {
                begin_area(store);
                set_items(alloc, store, areas, line, called, &text, values.as_slice())
            }
        },
    }
}

/// ECPGget_desc_header.
fn describe_length(
    store: &mut Store,
    areas: &Areas,
    line: Line,
    called: &[u8],
    host: &Host,
) -> Result<(), Stop>
    requires { IsArea store.old }
    ensures changed { Changed result (described line.0 (describes.GetCount host.now) called.now)
        store.old areas.now store.new areas.now }
    ensures kept { IsArea store.new }
{
    begin_area(store);
    get_count(store, areas, line, called, host)
}

/// A call, once the name of its descriptor is read.
fn describe_named(
    alloc: Global,
    store: &mut Store,
    areas: &mut Areas,
    line: Line,
    called: &[u8],
    what: &Describe,
) -> Result<(), Stop>
    requires { IsArea store.old }
    ensures changed { Changed result (described line.0 what.now called.now)
        store.old areas.old store.new areas.new }
    ensures kept { IsArea store.new }
{
    match what {
        Describe::Allocate => allocate(store, areas, line, called),
        Describe::Deallocate => deallocate(store, areas, line, called),
        Describe::GetCount(host) => describe_length(store, areas, line, called, host),
        Describe::SetCount(value) => describe_count(alloc, store, areas, line, called, value),
        Describe::GetItems(index, wanted) => {
            describe_items(alloc, store, areas, line, called, index, wanted)
        }
        Describe::SetItems(index, given) => {
            describe_values(alloc, store, areas, line, called, index, given)
        }
    }
}

/// A call on the descriptor of a name.
pub(crate) fn describe(
    alloc: Global,
    store: &mut Store,
    areas: &mut Areas,
    line: Line,
    name: &GivenText,
    what: &Describe,
) -> Result<(), Stop>
    requires { IsArea store.old }
    ensures changed { Changed result
        (call_done line.0 (describe_view (given_view name.now) what.now))
        store.old areas.old store.new areas.new }
    ensures kept { IsArea store.new }
{
    match given_text(alloc, store, name) {
        Err(stop) => Err(stop),
        Ok(called) => describe_named(alloc, store, areas, line, called.as_slice(), what),
    }
}
