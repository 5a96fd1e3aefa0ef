//! A leaf as the library is given it.

ghost use Rattle.std.specs.Prelude.{◌≡◌, IfOk, Some, None};
ghost use Rattle.ec_ctypes.specs.views.Checked.{place_view};
ghost use Rattle.ec_ctypes.specs.views.Exprs.{expr_view};
ghost use Rattle.ec_ctypes.specs.views.Types.{ty_view, structs_view};
ghost use Rattle.ec_host_defs.specs.Places as spec;
ghost use Rattle.ec_leaves.specs.Seen.{leaf_view};

use crate::elements::symbol_of;
use crate::parts::Leaf;
use ec_base::{Boxed, List, Name, OutOfMemory, beside};
use ec_ctypes::{Expr, Place, Structs, Sym, Ty, UnOp, copy_expr, type_shape};
use std::alloc::Global;

/// The size of a type in bytes, or 0 where it has none within the limit (ISO/IEC 9899:1999, 6.5.3.4).
pub fn size_of(structs: &Structs, ty: &Ty) -> u64
    ensures { result ≡ spec.size_of (structs_view structs.now) (ty_view ty.now) }
{
    match type_shape(structs, ty) {
        Some(shape) => shape.size,
        None => 0,
    }
}

/// The symbol of a leaf's elements, and the length of their text.
pub fn symbol_in(structs: &Structs, leaf: &Leaf) -> (Sym, u64)
    ensures { result ≡ spec.symbol_in (structs_view structs.now) (leaf_view leaf.now) }
{
    match symbol_of(structs, &leaf.element) {
        Some(symbol) => symbol,
        None => (Sym::NoIndicator, 0),
    }
}

/// The first element, if the leaf lies in it.
#[tactic(auto, using(ec_ctypes::specs::declared::tree::expr::Expr::the_lemmas))]
fn first_of_array(
    alloc: Global,
    in_first: bool,
    host: Boxed<Expr>,
) -> Result<Boxed<Expr>, OutOfMemory>
    ensures { IfOk result
        (λ place. expr_view place ≡ spec.first_of_array in_first (expr_view host)) }
{
    if !in_first {
        return Ok(host);
    }
    let zero = Boxed::new(alloc, Expr::Int(0, Ty::Int))?;
    Ok(Boxed::new(alloc, Expr::Index(host, zero))?)
}

/// A member of this place.
#[tactic(auto, using(ec_ctypes::specs::declared::tree::expr::Expr::the_lemmas))]
fn member_of(alloc: Global, place: Boxed<Expr>, name: &Name) -> Result<Boxed<Expr>, OutOfMemory>
    ensures { IfOk result (λ inner. expr_view inner ≡ spec.member_of (expr_view place) name.now) }
{
    let name = name.clone()?;
    Ok(Boxed::new(alloc, Expr::Member(place, name))?)
}

/// The place at the end of these members, however many they are.
fn along(
    alloc: Global,
    place: Boxed<Expr>,
    path: &List<(u32, Name)>,
) -> Result<Boxed<Expr>, OutOfMemory>
    ensures { IfOk result (λ inner. expr_view inner ≡ spec.along (expr_view place) path.now) }
{
    let mut inner = place;
    for step in path.as_slice() {
        inner = member_of(alloc, inner, &step.1)?;
    }
    Ok(inner)
}

/// The pointer to a place of this type: an array is its own.
#[tactic(auto, using(ec_ctypes::specs::declared::tree::expr::Expr::the_lemmas))]
fn address_of(place: Boxed<Expr>) -> Expr
    ensures { expr_view result ≡ spec.address (expr_view place) }
{
    Expr::Unary(UnOp::Addr, place)
}

/// The pointer to a place of this type.
fn pointer_to(ty: &Ty, place: Boxed<Expr>) -> Expr
    ensures { expr_view result ≡ spec.pointer_to (ty_view ty.now) (expr_view place) }
{
    match ty {
        Ty::Array(_, _) => place.into_inner(),
        Ty::Void => address_of(place),
        Ty::Bool => address_of(place),
        Ty::Char => address_of(place),
        Ty::UChar => address_of(place),
        Ty::Short => address_of(place),
        Ty::UShort => address_of(place),
        Ty::Int => address_of(place),
        Ty::UInt => address_of(place),
        Ty::Long => address_of(place),
        Ty::ULong => address_of(place),
        Ty::LLong => address_of(place),
        Ty::ULLong => address_of(place),
        Ty::Ptr(_) => address_of(place),
        Ty::Struct(_) => address_of(place),
    }
}

/// The pointer to a leaf of the host that is written so: that to the host or to its member, in an array of structs to the
/// member of the first of them.
pub fn leaf_pointer(alloc: Global, host: &Expr, leaf: &Leaf) -> Result<Expr, OutOfMemory>
    ensures { IfOk result (λ pointer. expr_view pointer
        ≡ spec.leaf_pointer (expr_view host.now) (leaf_view leaf.now)) }
{
    let copy = Boxed::new(alloc, copy_expr(alloc, host)?)?;
    let first = first_of_array(alloc, leaf.in_first, copy)?;
    let place = along(alloc, first, &leaf.path)?;
    Ok(pointer_to(&leaf.whole, place))
}

/// A leaf without an indicator, as the library is given it.
pub fn place_alone(
    alloc: Global,
    structs: &Structs,
    host: &Expr,
    leaf: &Leaf,
) -> Result<Place, OutOfMemory>
    ensures { IfOk result (λ place. place_view place ≡ spec.leaf_place (structs_view structs.now)
        (expr_view host.now) None (leaf_view leaf.now, None)) }
{
    let value = leaf_pointer(alloc, host, leaf)?;
    let symbol = symbol_in(structs, leaf);
    Ok(Place {
        sym: symbol.0,
        value,
        size: symbol.1,
        count: leaf.count,
        step: size_of(structs, &leaf.apart),
        ind: None,
    })
}

/// A leaf with its indicator, as the library is given it.
pub fn place_with_indicator(
    alloc: Global,
    structs: &Structs,
    host: &Expr,
    leaf: &Leaf,
    indicator: &Expr,
    inner: &Leaf,
) -> Result<Place, OutOfMemory>
    ensures { IfOk result (λ place. place_view place ≡ spec.leaf_place (structs_view structs.now)
        (expr_view host.now) (Some (expr_view indicator.now)) (
          leaf_view leaf.now,
          Some
              (leaf_view inner.now),
        )) }
{
    let pointer = Boxed::new(alloc, leaf_pointer(alloc, indicator, inner)?)?;
    let (pointer, value) = beside(pointer, leaf_pointer(alloc, host, leaf))?;
    let symbol = symbol_in(structs, leaf);
    let kind = symbol_in(structs, inner);
    let step = size_of(structs, &inner.apart);
    Ok(Place {
        sym: symbol.0,
        value,
        size: symbol.1,
        count: leaf.count,
        step: size_of(structs, &leaf.apart),
        ind: Some((kind.0, pointer.into_inner(), inner.count, step)),
    })
}
