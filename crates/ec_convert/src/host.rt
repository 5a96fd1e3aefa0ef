//! A host of a library call.

ghost use Rattle.std.specs.Prelude.{◌≡◌, ◌≤◌, ◌^◌, ◌↔◌, Some, option_map, IfSome, IsSome, IsTrue};
ghost use Rattle.ec_convert.specs.Elements.{held_by};
ghost use Rattle.ec_convert.specs.Host.{host_view, indicator_view, given_host, given_indicator, IsTold};
ghost use Rattle.ec_convert.specs.Pieces.{IsBounded};

use crate::element::{Element, element_of, indicator_kind};
use ec_bytes::Ptr;
use ec_ctypes::{Arith, Sym};

/// A host as a library call is given it.
#[derive(Clone, Copy, Debug)]
pub struct HostPlace {
    /// The type of its elements.
    pub sym: Sym,
    /// The pointer to the first element.
    pub at: Ptr,
    /// The length of a char array or of a VARCHAR, in bytes. Other elements have 0, and so has a char pointer.
    pub size: u64,
    /// How many elements there are.
    pub count: u64,
    /// How many bytes lie between the beginnings of two neighbours.
    pub step: u64,
    /// The indicators: their type, the pointer to the first one, how many there are, and how many bytes lie between the
    /// beginnings of two neighbours.
    pub ind: Option<(Sym, Ptr, u64, u64)>,
}

/// The indicators of a host.
#[derive(Clone, Copy, Debug)]
pub(crate) struct Indicator {
    pub(crate) kind: Arith,
    pub(crate) at: Ptr,
    pub(crate) step: u64,
}

/// A host by what its elements hold.
#[derive(Clone, Copy, Debug)]
pub(crate) struct Host {
    pub(crate) element: Element,
    pub(crate) at: Ptr,
    pub(crate) step: u64,
    pub(crate) indicator: Option<Indicator>,
}

/// The host that is given, or `None` where a symbol is no type or not one that an indicator may have.
pub(crate) fn host_of(given: &HostPlace) -> Option<Host>
    ensures host { option_map host_view result ≡ given_host given.now }
    ensures bounded { given.now.size ≤ 2 ^ 24
        → IfSome result (λ it. IsBounded (held_by it.element)) }
    ensures told { IfSome result (λ it. IsTold it.indicator) }
{
    let element = element_of(given.sym, given.size)?;
    let indicator = match given.ind {
        None => None,
        Some(ind) => Some(indicator_of(ind)?),
    };
    Some(Host {
        element,
        at: given.at,
        step: given.step,
        indicator,
    })
}

/// The indicators that are given.
fn indicator_of(given: (Sym, Ptr, u64, u64)) -> Option<Indicator>
    ensures indicator { option_map indicator_view result ≡ given_indicator given }
    ensures signed { IfSome result (λ it. IsTold (Some it)) }
{
    let (sym, at, _count, step) = given;
    let kind = indicator_kind(sym)?;
    Some(Indicator { kind, at, step })
}

/// Whether the symbol of a host is a type and that of its indicators is one that they may have.
pub fn is_typed(given: &HostPlace) -> bool
    ensures { IsTrue result ↔ IsSome (given_host given.now) }
{
    host_of(given).is_some()
}
