//! From a field to a host.

ghost use Rattle.std.specs.Prelude.{◌≡◌, ◌<◌, ◌≤◌, ◌^◌, IsSome, Some, option_map, OnErr};
ghost use Rattle.std.specs.Option.{option_copied};
ghost use Rattle.ec_ctypes.specs.Arithmetic.{IsValue};
ghost use Rattle.ec_convert.specs.Answers.{leaves};
ghost use Rattle.ec_convert.specs.Calls.{Stores};
ghost use Rattle.ec_convert.specs.Elements.{held_by};
ghost use Rattle.ec_convert.specs.Host.{host_view, indicator_view, given_host, IsTold};
ghost use Rattle.ec_convert.specs.Pieces.{piece_bytes, IsPiece, IsBounded};
ghost use Rattle.ec_memory.specs.Store.{outcome, seen};
ghost use Rattle.ec_transfer_defs.specs.Conversion.{field_stored, null_stored, bytes_stored, field_bytes, told, told_length, with_bytes, with_indicator, bytes_place};

use crate::element::Element;
use crate::host::{Host, HostPlace, Indicator, host_of};
use crate::numbers::pointer_at;
use crate::piece::{Piece, is_cut, piece_of, put_number, put_piece};
use crate::stop::ConvStop;
use ec_base::Trap;
use ec_bytes::Ptr;
use ec_ctypes::Arith;
use ec_memory::Store;
use ec_transfer_defs::Finding;

/// Stores a field in the element of a row, the first being 0, and says whether it was cut. It takes no memory.
///
/// NULL stores -1 in the indicator and leaves the host; without an indicator it is code -213. An integer is one optional
/// sign and one or more digits: anything else, and a number that is none of the type, is code -204 for a signed type and
/// -205 for an unsigned one. A `bool` takes `t` or `f`, and else is code -211. A char array takes a zero byte behind a
/// field that is shorter, and else as many bytes as it has. A VARCHAR takes as many, with their number as its length and
/// zero bytes behind them. What a char pointer leads to takes all bytes and a zero byte. Then the indicator, if there is
/// one, is 0, or the whole length of a field that was cut, at most the greatest number of its type.
///
/// After a code nothing is changed, and after a trap neither, but that the value stays where the indicator traps. There
/// are more elements than `row`, and at most 2^24; a VARCHAR has at most 2^24 bytes.
pub fn from_text(
    store: &mut Store,
    place: &HostPlace,
    row: u64,
    field: Option<&[u8]>,
) -> Result<bool, ConvStop>
    requires typed { IsSome (given_host place.now) }
    requires row { row < place.now.count }
    requires count { place.now.count ≤ 2 ^ 24 }
    requires size { place.now.size ≤ 2 ^ 24 }
    ensures { Stores place.now row (option_copied field.entry) store.old result store.new }
{
    match host_of(place) {
        Some(host) => store_field(store, host, row, field),
        None => unreachable!(),
    }
}

/// Stores a field in the element of a row.
fn store_field(
    store: &mut Store,
    host: Host,
    row: u64,
    field: Option<&[u8]>,
) -> Result<bool, ConvStop>
    requires row { row < 2 ^ 24 }
    requires size { IsBounded (held_by host.element) }
    requires told { IsTold host.indicator }
    ensures { leaves result store.new
        ≡ Some (field_stored store.old (host_view host) row (option_copied field.entry)) }
{
    match field {
        Some(bytes) => store_bytes(store, host, row, bytes),
        None => store_null(store, host, row),
    }
}

/// Stores NULL.
fn store_null(store: &mut Store, host: Host, row: u64) -> Result<bool, ConvStop>
    requires row { row < 2 ^ 24 }
    requires told { IsTold host.indicator }
    ensures { leaves result store.new
        ≡ Some (null_stored store.old (host_view host) row (host_view host).indicator) }
{
    match host.indicator {
        Some(indicator) => match set_indicator(store, indicator, row, -1) {
            Ok(()) => Ok(false),
            Err(trap) => Err(ConvStop::Trapped(trap)),
        },
        None => Err(ConvStop::Code(Finding::NullWithoutIndicator.code())),
    }
}

/// Stores a field that is not NULL.
fn store_bytes(store: &mut Store, host: Host, row: u64, field: &[u8]) -> Result<bool, ConvStop>
    requires row { row < 2 ^ 24 }
    requires size { IsBounded (held_by host.element) }
    ensures { leaves result store.new
        ≡ Some (bytes_stored store.old (host_view host) row field.now
        (field_bytes (held_by host.element) field.now)) }
{
    match piece_of(host.element, field) {
        Ok(piece) => match put_value(store, host, row, piece, field) {
            Ok(()) => {
                let cut = is_cut(host.element, field);
                tell(store, host.indicator, row, cut, field.len())
            }
            Err(trap) => Err(ConvStop::Trapped(trap)),
        },
        Err(finding) => Err(ConvStop::Code(finding.code())),
    }
}

/// Puts a piece into the element of a row.
fn put_value(
    store: &mut Store,
    host: Host,
    row: u64,
    piece: Piece,
    field: &[u8],
) -> Result<(), Trap>
    requires row { row < 2 ^ 24 }
    requires piece { IsPiece field.now piece }
    ensures outcome { outcome result store.new
        ≡ with_bytes store.old (host_view host) row (piece_bytes field.now piece) }
    ensures unchanged { OnErr result (store.new ≡ store.old) }
{
    match store.move_ptr(host.at, row as i64, host.step) {
        Ok(element) => match bytes_place(store, element, host.element) {
            Ok(at) => put_piece(store, at, piece, field),
            Err(trap) => Err(trap),
        },
        Err(trap) => Err(trap),
    }
}

/// Where the bytes of an element are.
fn bytes_place(store: &Store, at: Ptr, element: Element) -> Result<Ptr, Trap>
    ensures { seen (λ to. to.0) result ≡ bytes_place store.now at.0 (held_by element) }
{
    match element {
        Element::Pointed => pointer_at(store, at),
        Element::Integer(_) => Ok(at),
        Element::Truth => Ok(at),
        Element::Characters(_) => Ok(at),
        Element::Counted(_) => Ok(at),
    }
}

/// Tells the indicator, if there is one, of a field that was stored.
fn tell(
    store: &mut Store,
    indicator: Option<Indicator>,
    row: u64,
    cut: bool,
    length: usize,
) -> Result<bool, ConvStop>
    requires { row < 2 ^ 24 }
    ensures { leaves result store.new
        ≡ Some (told store.old (option_map indicator_view indicator) row cut length) }
{
    match indicator {
        Some(it) => match set_indicator(store, it, row, told_length(it.kind, cut, length)) {
            Ok(()) => Ok(cut),
            Err(trap) => Err(ConvStop::Trapped(trap)),
        },
        None => Ok(cut),
    }
}

/// What the indicator says of a field.
fn told_length(kind: Arith, cut: bool, length: usize) -> i128
    ensures value { result ≡ told_length kind cut length }
    ensures fits { IsValue kind result }
{
    if !cut {
        0
    } else if length as i128 <= kind.greatest() {
        length as i128
    } else {
        kind.greatest()
    }
}

/// Puts a number into the indicator of a row.
fn set_indicator(
    store: &mut Store,
    indicator: Indicator,
    row: u64,
    number: i128,
) -> Result<(), Trap>
    requires row { row < 2 ^ 24 }
    requires number { IsValue indicator.kind number }
    ensures outcome { outcome result store.new
        ≡ with_indicator store.old (indicator_view indicator) row number }
    ensures unchanged { OnErr result (store.new ≡ store.old) }
{
    match store.move_ptr(indicator.at, row as i64, indicator.step) {
        Ok(at) => put_number(store, at, indicator.kind, number),
        Err(trap) => Err(trap),
    }
}
