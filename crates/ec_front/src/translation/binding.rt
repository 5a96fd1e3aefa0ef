//! What is bound for the statements of a program.

ghost use Rattle.std.specs.Prelude.{◌≡◌, ◌<◌, length, map};
ghost use Rattle.ec_ctypes.specs.views.Checked.{bound_view, typed_view};
ghost use Rattle.ec_phases_defs.specs.Sources.{bound_from};
ghost use Rattle.ec_front.specs.translation.Bounds.{AddsBound};
ghost use Rattle.ec_front.specs.source.Answers.{Tells};

use ec_base::{List, Stop};
use ec_ctypes::{Bound, Typed};
use ec_params::Binder;
use std::alloc::Global;

// What is bound for the statement of this number, behind the others.
fn add_bound(
    alloc: Global,
    binder: &Binder<'_>,
    number: usize,
    bounds: &mut List<Bound>,
) -> Result<(), Stop>
    requires { number < length (binder.now).unit.embs }
    ensures { AddsBound (typed_view binder.now) number bounds.old bounds.new result }
{
    let Ok(place) = u32::try_from(number) else {
        // Out of reach, which isn't proved: a source has at most 2^22 tokens, so it has fewer statements.
        return Err(Stop::OutOfMemory);
    };
    match binder.bind(alloc, place) {
        Ok(bound) => match bounds.push(bound) {
            Ok(()) => Ok(()),
            Err(_) => Err(Stop::OutOfMemory),
        },
        Err(stop) => Err(stop),
    }
}

// The statements from this number on, behind those that are bound.
fn add_bounds(alloc: Global, binder: &Binder<'_>, count: usize) -> Result<List<Bound>, Stop>
    requires { count ≡ length (binder.now).unit.embs }
    ensures { Tells (map bound_view) (λ told. told
        ≡ bound_from (typed_view binder.now) 0 (typed_view binder.now).unit.embs) result }
{
    let mut bounds = List::new(alloc);
    for number in 0..count {
        match add_bound(alloc, binder, number, &mut bounds) {
            Ok(()) => {}
            Err(stop) => return Err(stop),
        }
    }
    Ok(bounds)
}

/// What is bound for each embedded statement of a program, in their order.
///
/// # Errors
///
/// The fault of the first statement that has one: F21 to F28, with its line.
pub fn bound_statements(alloc: Global, typed: &Typed) -> Result<List<Bound>, Stop>
    ensures { Tells (map bound_view) (λ told. told
        ≡ bound_from (typed_view typed.now) 0 (typed_view typed.now).unit.embs) result }
{
    match Binder::new(alloc, typed) {
        Ok(binder) => add_bounds(alloc, &binder, typed.unit.embs.len()),
        Err(_) => Err(Stop::OutOfMemory),
    }
}
