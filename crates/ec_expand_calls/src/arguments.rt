//! Arguments of a call of the library, one behind the other.

ghost use Rattle.std.specs.Prelude.{◌≡◌, OnOk, ◌∷◌, ◌≤◌, map, option_map, None, []};
ghost use Rattle.ec_ctypes.specs.views.Exprs.{expr_view};
ghost use Rattle.ec_ctypes.specs.views.Checked.{place_view, indicator_view};
ghost use Rattle.ec_arguments.specs.Arguments.{symbol, literal, null, int_constant, long_constant, pointer, constant, descriptor};
ghost use Rattle.ec_arguments.specs.Writing.{text_argument, ten_values, member_arguments, members_arguments, indicator_arguments, item_symbol, items_arguments};
ghost use Rattle.ec_expansion_defs.specs.Calls.{text_of, text_at, bytes_in, indicator_of, host_of, member_of, member_at, items_from, is_const, is_descriptor};
ghost use Rattle.ec_expand_calls.specs.Pushed.{Pushes};

use ec_base::{List, Name, OutOfMemory};
use ec_ctypes::{Expr, Item, Place, Sym, Ty, copy_expr};
use std::alloc::Global;

pub(crate) fn push_symbol(alloc: Global, args: &mut List<Expr>, sym: Sym) -> Result<(), OutOfMemory>
    ensures { OnOk result (Pushes args.old args.new (λ rest. symbol sym ∷ rest)) }
{
    args.push(Expr::Name(Name::from_slice(alloc, sym.text().as_bytes())?))?;
    Ok(())
}

pub(crate) fn push_null(alloc: Global, args: &mut List<Expr>) -> Result<(), OutOfMemory>
    ensures { OnOk result (Pushes args.old args.new (λ rest. null ∷ rest)) }
{
    args.push(Expr::Name(Name::from_slice(alloc, b"NULL")?))?;
    Ok(())
}

pub(crate) fn push_literal(
    alloc: Global,
    args: &mut List<Expr>,
    bytes: &[u8],
) -> Result<(), OutOfMemory>
    ensures { OnOk result (Pushes args.old args.new (λ rest. literal bytes.now ∷ rest)) }
{
    args.push(Expr::Str(List::from_slice(alloc, bytes)?))?;
    Ok(())
}

pub(crate) fn push_int(args: &mut List<Expr>, number: u64) -> Result<(), OutOfMemory>
    ensures { OnOk result (Pushes args.old args.new (λ rest. int_constant number ∷ rest)) }
{
    args.push(Expr::Int(number, Ty::Int))?;
    Ok(())
}

fn push_long(args: &mut List<Expr>, number: u64) -> Result<(), OutOfMemory>
    ensures { OnOk result (Pushes args.old args.new (λ rest. long_constant number ∷ rest)) }
{
    args.push(Expr::Int(number, Ty::Long))?;
    Ok(())
}

fn push_pointer(alloc: Global, args: &mut List<Expr>, value: &Expr) -> Result<(), OutOfMemory>
    ensures { OnOk result
        (Pushes args.old args.new (λ rest. pointer (expr_view value.now) ∷ rest)) }
{
    args.push(copy_expr(alloc, value)?)?;
    Ok(())
}

// A text: a literal, NULL or a pointer.
fn push_text(alloc: Global, args: &mut List<Expr>, text: &Expr) -> Result<(), OutOfMemory>
    ensures { OnOk result (Pushes args.old args.new (λ rest. text_argument (text_of
        (expr_view text.now)) ∷ rest)) }
{
    args.push(copy_expr(alloc, text)?)?;
    Ok(())
}

/// The text of this number among those of the call, or NULL.
pub(crate) fn push_text_at(
    alloc: Global,
    args: &mut List<Expr>,
    texts: &List<Expr>,
    at: usize,
) -> Result<(), OutOfMemory>
    ensures { OnOk result (Pushes args.old args.new (λ rest. text_argument (text_at at
        (map expr_view texts.now)) ∷ rest)) }
{
    match texts.get(at) {
        Some(text) => push_text(alloc, args, text),
        None => push_null(alloc, args),
    }
}

fn push_indicator(
    alloc: Global,
    args: &mut List<Expr>,
    indicator: &Option<(Sym, Expr, u64, u64)>,
) -> Result<(), OutOfMemory>
    ensures { OnOk result (Pushes args.old args.new (indicator_arguments (option_map
        indicator_of (option_map indicator_view indicator.now)))) }
{
    match indicator {
        Some((sym, value, count, step)) => {
            push_symbol(alloc, args, *sym)?;
            push_pointer(alloc, args, value)?;
            push_long(args, 0)?;
            push_long(args, *count)?;
            push_long(args, *step)?;
            Ok(())
        }
        None => push_no_indicator(alloc, args),
    }
}

fn push_no_indicator(alloc: Global, args: &mut List<Expr>) -> Result<(), OutOfMemory>
    ensures { OnOk result (Pushes args.old args.new (indicator_arguments None)) }
{
    push_symbol(alloc, args, Sym::NoIndicator)?;
    push_null(alloc, args)?;
    push_long(args, 0)?;
    push_long(args, 0)?;
    push_long(args, 0)?;
    Ok(())
}

// A length, a count and a distance.
fn push_numbers(args: &mut List<Expr>, size: u64, count: u64, step: u64) -> Result<(), OutOfMemory>
    ensures { OnOk result
        (Pushes args.old args.new (λ rest. long_constant size ∷ long_constant count
        ∷ long_constant step ∷ rest)) }
{
    push_long(args, size)?;
    push_long(args, count)?;
    push_long(args, step)?;
    Ok(())
}

fn push_host(alloc: Global, args: &mut List<Expr>, place: &Place) -> Result<(), OutOfMemory>
    ensures { OnOk result (Pushes args.old args.new (member_arguments (host_of
        (place_view place.now)))) }
{
    push_symbol(alloc, args, place.sym)?;
    push_pointer(alloc, args, &place.value)?;
    push_numbers(args, place.size, place.count, place.step)?;
    push_indicator(alloc, args, &place.ind)?;
    Ok(())
}

fn push_constant(alloc: Global, args: &mut List<Expr>, value: &Expr) -> Result<(), OutOfMemory>
    ensures { OnOk result (Pushes args.old args.new (member_arguments (constant (bytes_in
        (expr_view value.now))))) }
{
    push_symbol(alloc, args, Sym::Const)?;
    push_bytes(alloc, args, value)?;
    push_numbers(args, 0, 1, 0)?;
    push_no_indicator(alloc, args)?;
    Ok(())
}

// The bytes of a literal.
fn push_bytes(alloc: Global, args: &mut List<Expr>, value: &Expr) -> Result<(), OutOfMemory>
    ensures { OnOk result (Pushes args.old args.new (λ rest. literal (bytes_in
        (expr_view value.now)) ∷ rest)) }
{
    match value {
        Expr::Str(bytes) => push_literal(alloc, args, bytes.as_slice()),
        _ => push_literal(alloc, args, b""),
    }
}

fn push_descriptor(alloc: Global, args: &mut List<Expr>, name: &Expr) -> Result<(), OutOfMemory>
    ensures { OnOk result (Pushes args.old args.new (member_arguments (descriptor (text_of
        (expr_view name.now))))) }
{
    push_symbol(alloc, args, Sym::Descriptor)?;
    push_text(alloc, args, name)?;
    push_numbers(args, 1, 1, 1)?;
    push_no_indicator(alloc, args)?;
    Ok(())
}

fn symbol_is_const(sym: Sym) -> bool
    ensures { result ≡ is_const sym }
{
    matches!(sym, Sym::Const)
}

fn symbol_is_descriptor(sym: Sym) -> bool
    ensures { result ≡ is_descriptor sym }
{
    matches!(sym, Sym::Descriptor)
}

/// The ten values of a host, a constant or a descriptor.
pub(crate) fn push_member(
    alloc: Global,
    args: &mut List<Expr>,
    place: &Place,
) -> Result<(), OutOfMemory>
    ensures { OnOk result (Pushes args.old args.new (member_arguments (member_of
        (place_view place.now)))) }
{
    if symbol_is_const(place.sym) {
        push_constant(alloc, args, &place.value)?;
        Ok(())
    } else if symbol_is_descriptor(place.sym) {
        push_descriptor(alloc, args, &place.value)?;
        Ok(())
    } else {
        push_host(alloc, args, place)?;
        Ok(())
    }
}

/// The member of this number, or an empty constant where there is none.
pub(crate) fn push_member_at(
    alloc: Global,
    args: &mut List<Expr>,
    places: &List<Place>,
    at: usize,
) -> Result<(), OutOfMemory>
    ensures { OnOk result (Pushes args.old args.new (member_arguments (member_at at
        (map place_view places.now)))) }
{
    match places.get(at) {
        Some(place) => push_member(alloc, args, place),
        None => push_empty_constant(alloc, args),
    }
}

fn push_empty_constant(alloc: Global, args: &mut List<Expr>) -> Result<(), OutOfMemory>
    ensures { OnOk result (Pushes args.old args.new (member_arguments (constant []))) }
{
    push_symbol(alloc, args, Sym::Const)?;
    push_literal(alloc, args, b"")?;
    push_numbers(args, 0, 1, 0)?;
    push_no_indicator(alloc, args)?;
    Ok(())
}

/// Members, one behind the other.
pub(crate) fn push_members(
    alloc: Global,
    args: &mut List<Expr>,
    places: &List<Place>,
) -> Result<(), OutOfMemory>
    ensures { OnOk result (Pushes args.old args.new (members_arguments (map member_of
        (map place_view places.now)))) }
{
    for place in places.as_slice() {
        push_member(alloc, args, place)?;
    }
    Ok(())
}

// The symbol of an item.
fn symbol_of(item: Item) -> Sym
    ensures { result ≡ item_symbol item }
{
    match item {
        Item::Content => Sym::ItemData,
        Item::Indicator => Sym::ItemIndicator,
        Item::Label => Sym::ItemName,
        Item::Code => Sym::ItemType,
        Item::Octets => Sym::ItemOctets,
    }
}

/// Items, each with the member that it is stored into or set from: those from this number on.
pub(crate) fn push_items(
    alloc: Global,
    args: &mut List<Expr>,
    kinds: &List<Item>,
    places: &List<Place>,
    first: usize,
) -> Result<(), OutOfMemory>
    requires { first ≤ 1 }
    ensures { OnOk result (Pushes args.old args.new (items_arguments (items_from first kinds.now
        (map place_view places.now)))) }
{
    let kinds = kinds.as_slice();
    for at in 0..kinds.len() {
        push_symbol(alloc, args, symbol_of(kinds[at]))?;
        push_member_at(alloc, args, places, first + at)?;
    }
    Ok(())
}
