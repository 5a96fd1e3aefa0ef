//! Hosts as their places.

ghost use Rattle.std.specs.Prelude.{◌≡◌, ◌++◌, IfOk, OnOk, map, drop, take, length, option_map, option_and_then, ◌+◌, ◌∷◌, []};
ghost use Rattle.std.specs.Option.{option_copied};
ghost use Rattle.ec_ctypes.specs.views.Checked.{place_view};
ghost use Rattle.ec_ctypes.specs.views.Embedded.{host_view};
ghost use Rattle.ec_ctypes.specs.views.Exprs.{expr_view, expr_option_view};
ghost use Rattle.ec_ctypes.specs.views.Types.{ty_view, structs_view};
ghost use Rattle.ec_host_defs.specs.Bound as spec;
ghost use Rattle.ec_host_defs.specs.Faults.{host_count};
ghost use Rattle.ec_host_defs.specs.Leaves as hosts;
ghost use Rattle.ec_host_defs.specs.Leaves.{paired};
ghost use Rattle.ec_host_defs.specs.Places.{leaf_place};
ghost use Rattle.ec_host_defs.specs.Programs as program;
ghost use Rattle.ec_leaves.specs.Seen.{leaf_view};
ghost use Rattle.ec_params.specs.Adding.{Adds, pairs_in};
ghost use Rattle.ec_params.specs.Scenes.{program_of, denoted_of};

use crate::scene::{Scene, names_count, part, reference_type, sum};
use crate::walk::{indicator_of, option_count};
use ec_base::{List, OutOfMemory};
use ec_ctypes::{Expr, Host, Place, Structs, Ty};
use ec_leaves::{Leaf, leaves, place_alone, place_with_indicator};
use std::alloc::Global;

/// The leaves of a host, and those of its indicator.
#[derive(Debug, Drop)]
pub(crate) struct Leaves {
    pub own: List<Leaf>,
    pub inner: List<Leaf>,
}

/// The leaves of a host of this type, or none.
fn leaves_or_none(
    alloc: Global,
    structs: &Structs,
    ty: Option<&Ty>,
) -> Result<List<Leaf>, OutOfMemory>
    ensures { IfOk result (λ leaves. map leaf_view leaves
        ≡ hosts.leaves_or_none (structs_view structs.now)
        (option_map ty_view (option_copied ty.entry))) }
{
    let Some(ty) = ty else {
        return Ok(List::new(alloc));
    };
    let found = leaves(alloc, structs, ty)?;
    match found {
        Some(leaves) => Ok(leaves),
        None => Ok(List::new(alloc)),
    }
}

/// The type of an indicator, if there is one with a type.
fn indicator_type<'a>(
    scene: Scene<'a>,
    indicator: Option<&Expr>,
    denoted: &[Option<u32>],
) -> Option<&'a Ty>
    ensures { option_map ty_view (option_copied result)
        ≡ option_and_then (λ i. program.reference_type (program_of scene.entry) i denoted.now)
        (option_map expr_view (option_copied indicator.entry)) }
{
    match indicator {
        Some(indicator) => reference_type(scene, indicator, denoted),
        None => None,
    }
}

/// The leaves of the host whose names begin at this place.
pub(crate) fn leaves_of(
    alloc: Global,
    scene: Scene<'_>,
    at: usize,
    host: &Host,
) -> Result<Leaves, OutOfMemory>
    ensures { IfOk result (λ found. pairs_in found
        ≡ spec.pairs_of (program_of scene.entry) (host_view host.now) (drop at
        (denoted_of scene.entry))) }
{
    let indicator = indicator_of(host);
    let own = names_count(&host.value)?;
    let inner = option_count(indicator)?;
    let middle = sum(at, own)?;
    let value = reference_type(scene, &host.value, part(scene.denoted, at, own));
    let beside = indicator_type(scene, indicator, part(scene.denoted, middle, inner));
    let own = leaves_or_none(alloc, scene.structs.all(), value)?;
    let inner = leaves_or_none(alloc, scene.structs.all(), beside)?;
    Ok(Leaves { own, inner })
}

/// Where the names behind those of a host begin.
pub(crate) fn behind_host(at: usize, host: &Host) -> Result<usize, OutOfMemory>
    ensures { IfOk result (λ next. next ≡ at + host_count (host_view host.now)) }
{
    let own = names_count(&host.value)?;
    let inner = option_count(indicator_of(host))?;
    let both = sum(own, inner)?;
    sum(at, both)
}

/// A leaf of a host as the library is given it, with its indicator, if there are both.
fn place_of(
    alloc: Global,
    structs: &Structs,
    host: &Host,
    leaf: &Leaf,
    inner: Option<&Leaf>,
) -> Result<Place, OutOfMemory>
    ensures { IfOk result (λ place. place_view place ≡ leaf_place (structs_view structs.now)
        (host_view host.now).value (host_view host.now).indicator (
          leaf_view leaf.now,
          option_map leaf_view (option_copied inner.entry),
        )) }
{
    match &host.indicator {
        Some(indicator) => match inner {
            Some(inner) => {
                place_with_indicator(alloc, structs, &host.value, leaf, indicator.get(), inner)
            }
            None => place_alone(alloc, structs, &host.value, leaf),
        },
        None => place_alone(alloc, structs, &host.value, leaf),
    }
}

/// Puts the place of a leaf behind these.
fn add_leaf(
    alloc: Global,
    structs: &Structs,
    host: &Host,
    leaf: &Leaf,
    inner: Option<&Leaf>,
    places: &mut List<Place>,
) -> Result<(), OutOfMemory>
    ensures { OnOk result (map place_view places.new ≡ map place_view places.old
        ++ leaf_place (structs_view structs.now) (host_view host.now).value
        (host_view host.now).indicator
        (leaf_view leaf.now, option_map leaf_view (option_copied inner.entry)) ∷ []) }
{
    places.push(place_of(alloc, structs, host, leaf, inner)?)?;
    Ok(())
}

/// Puts the places of leaves behind these.
fn add_leaves(
    alloc: Global,
    structs: &Structs,
    host: &Host,
    leaves: &[Leaf],
    inner: &[Leaf],
    places: &mut List<Place>,
) -> Result<(), OutOfMemory>
    ensures { OnOk result (map place_view places.new ≡ map place_view places.old
        ++ map (leaf_place (structs_view structs.now) (host_view host.now).value
        (host_view host.now).indicator)
        (paired (map leaf_view leaves.now) (map leaf_view inner.now))) }
{
    let mut left = leaves;
    let mut beside = inner;
    while let [leaf, rest @ ..] = left {
        match beside {
            [indicator, more @ ..] => {
                add_leaf(alloc, structs, host, leaf, Some(indicator), places)?;
                beside = more;
            }
            [] => add_leaf(alloc, structs, host, leaf, None, places)?,
        }
        left = rest;
    }
    Ok(())
}

/// Puts the places of a host behind these.
pub(crate) fn add_host(
    alloc: Global,
    scene: Scene<'_>,
    at: &mut usize,
    host: &Host,
    places: &mut List<Place>,
) -> Result<(), OutOfMemory>
    ensures { OnOk result (Adds (denoted_of scene.entry) at.old at.new places.old places.new
        (spec.host_places (program_of scene.entry) (host_view host.now))) }
{
    let found = leaves_of(alloc, scene, *at, host)?;
    let next = behind_host(*at, host)?;
    add_leaves(
        alloc,
        scene.structs.all(),
        host,
        found.own.as_slice(),
        found.inner.as_slice(),
        places,
    )?;
    *at = next;
    Ok(())
}
