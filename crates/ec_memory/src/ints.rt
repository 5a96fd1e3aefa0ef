//! Objects that are made with a value of `int`.

ghost use Rattle.std.specs.Prelude.{◌≡◌, ◌↔◌, ◌++◌, ◌∷◌, [], length, MatchBool, IfOk, OnOk, OnErr, Ok, Err};
ghost use Rattle.ec_base.specs.declared.stop.Trap.TheVariants as trap;
ghost use Rattle.ec_memory.specs.declared.store.MakeStop.TheVariants as stops;
ghost use Rattle.ec_memory.specs.Room.{HasRoom, int_cells};
ghost use Rattle.ec_memory_defs.specs.Memory.{with_object};

use crate::place::Place;
use crate::scalars::scalar_of;
use crate::store::{MakeStop, Store, pointer, push};
use ec_base::OutOfMemory;
use ec_bytes::{I32, Ptr, Region};

impl Store {
    /// Whether so many more objects of at most 8 bytes each can be made, as far as their numbers and bytes go.
    #[inline(always)]
    pub fn has_room(&self, count: usize) -> bool
        ensures { MatchBool result (HasRoom self.now count) (HasRoom self.now count → ⊥) }
    {
        if count > 1 << 25 || self.made as u64 + count as u64 > u32::MAX as u64 {
            return false;
        }
        self.cells.len() as u64 + 8 * count as u64 <= 1 << 28
    }

    /// Makes an `int` with this value, and gives the pointer to it. The errors are those of `make`, and after one nothing is
    /// changed.
    #[inline(always)]
    pub fn make_int(&mut self, value: i32) -> Result<Ptr, MakeStop>
        ensures ok { IfOk result
            (λ ptr. with_object self.old (int_cells value) ≡ Ok (ptr.0, self.new)) }
        ensures spent { (result ≡ Err stops.Spent)
            ↔ (with_object self.old (int_cells value) ≡ Err trap.Spent) }
        ensures unchanged { OnErr result (self.new ≡ self.old) }
    {
        let start = self.cells.len();
        if self.made == u32::MAX || start as u64 + 4 > 1 << 28 {
            return Err(MakeStop::Spent);
        }
        let place = Place {
            number: self.made + 1,
            start: start as u32,
            size: 4,
        };
        match append(&mut self.cells, &mut self.alive, place, value) {
            Ok(()) => {
                self.made += 1;
                Ok(pointer(self.made))
            }
            Err(_) => Err(MakeStop::OutOfMemory),
        }
    }
}

/// Puts an object at the end that is an `int` with this value.
#[inline(always)]
fn append(
    cells: &mut Region,
    alive: &mut Vec<Place>,
    place: Place,
    value: i32,
) -> Result<(), OutOfMemory>
    requires { place.start ≡ length cells.old }
    ensures cells { OnOk result (cells.new ≡ cells.old ++ int_cells value) }
    ensures places { OnOk result (alive.new.items ≡ alive.old.items ++ place ∷ []) }
    ensures same_cells { OnErr result (cells.new ≡ cells.old) }
    ensures same_places { OnErr result (alive.new.items ≡ alive.old.items) }
{
    extend_by(cells, value)?;
    match push(alive, place) {
        Ok(()) => Ok(()),
        Err(refused) => {
            cells.cut(place.start as usize);
            Err(refused)
        }
    }
}

/// Puts the cells of an `int` with this value at the end.
#[inline(always)]
fn extend_by(cells: &mut Region, value: i32) -> Result<(), OutOfMemory>
    ensures ok { OnOk result (cells.new ≡ cells.old ++ int_cells value) }
    ensures err { OnErr result (cells.new ≡ cells.old) }
{
    let start = cells.extend(4)?;
    let scalar = scalar_of(value);
    cells.view_mut::<I32>(start).set(scalar);
    Ok(())
}
