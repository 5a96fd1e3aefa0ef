//! The places of the objects that are alive, and what pointers find among them.

ghost use Rattle.std.specs.Prelude.{◌≡◌, ◌==◌, ◌≤◌, ◌<◌, ◌+◌, ℕ, true, List, length, IfSome, MatchBool, MatchOption, MatchResult, Err};
ghost use Rattle.ec_base.specs.declared.stop.Trap.TheVariants as trap;
ghost use Rattle.ec_memory_defs.specs.Cells.{Cell};
ghost use Rattle.ec_memory_defs.specs.Memory.{object_of, offset_of, pointer_to, object_cells, cells_at};
ghost use Rattle.ec_memory.specs.Near.{PlacedNear};
ghost use Rattle.ec_memory.specs.Objects.{Behind, Holds, IsAt, IsMissing, IsRising, Kept, Placed, Traps, memory_of};

use ec_base::Trap;
use ec_bytes::Ptr;

/// Where the cells of an object that is alive lie in the region.
#[derive(Clone, Copy, Debug)]
pub(crate) struct Place {
    pub(crate) number: u32,
    pub(crate) start: u32,
    pub(crate) size: u32,
}

/// The number of a pointer's object.
#[inline(always)]
pub(crate) fn number_of(ptr: Ptr) -> u32
    ensures { result ≡ object_of ptr.0 }
{
    (ptr.0 / (1 << 32)) as u32
}

/// A pointer's offset in its object.
#[inline(always)]
pub(crate) fn offset_in(ptr: Ptr) -> u32
    ensures { result ≡ offset_of ptr.0 }
{
    (ptr.0 % (1 << 32)) as u32
}

/// Whether the object with this number is at an index.
#[inline(always)]
fn is_at(places: &[Place], number: u32, index: usize) -> bool
    ensures { result ≡ true → IsAt places.now number index }
{
    index < places.len() && places[index].number == number
}

/// Where the object with this number would be if no object before it had ended.
#[inline(always)]
fn from_front(number: u32) -> usize {
    number.wrapping_sub(1) as usize
}

/// Where it would be if no object behind it had ended.
#[inline(always)]
fn from_back(places: &[Place], number: u32) -> usize {
    match places.last() {
        Some(last) => {
            let behind = last.number.wrapping_sub(number) as usize;
            places.len().wrapping_sub(1).wrapping_sub(behind)
        }
        None => 0,
    }
}

/// The index of the object with this number, if it is alive. Objects of which none before or none behind has ended are
/// found at once.
#[inline(always)]
pub(crate) fn find(places: &[Place], number: u32) -> Option<usize>
    requires { IsRising places.now }
    ensures { MatchOption result (IsMissing places.now number) (λ k. IsAt places.now number k) }
{
    let front = from_front(number);
    if is_at(places, number, front) {
        return Some(front);
    }
    let back = from_back(places, number);
    if is_at(places, number, back) {
        return Some(back);
    }
    search(places, number)
}

/// The index of the object with this number, by halves.
#[inline(never)]
fn search(places: &[Place], number: u32) -> Option<usize>
    requires { IsRising places.now }
    ensures { MatchOption result (IsMissing places.now number) (λ k. IsAt places.now number k) }
{
    let mut low = 0;
    let mut high = places.len();
    while low < high {
        let middle = low + (high - low) / 2;
        let found = places[middle].number;
        if found == number {
            return Some(middle);
        }
        if found < number {
            low = middle + 1;
        } else {
            high = middle;
        }
    }
    None
}

/// The place of a pointer's object.
#[inline(always)]
pub(crate) fn object(places: &[Place], ptr: Ptr) -> Result<Place, Trap>
    requires { IsRising places.now }
    ensures { MatchResult result
        (Holds places.now (object_of ptr.0))
        (Traps places.now (λ m. object_cells m (object_of ptr.0))) }
{
    let number = number_of(ptr);
    if number == 0 {
        return Err(Trap::Null);
    }
    match find(places, number) {
        Some(index) => Ok(places[index]),
        None => Err(Trap::Dead),
    }
}

/// Where in the region the `n` bytes at a pointer begin, if they lie in an object.
#[inline(always)]
pub(crate) fn reach(places: &[Place], ptr: Ptr, n: u128) -> Result<usize, Trap>
    requires { IsRising places.now }
    ensures { MatchResult result
        (Placed places.now ptr.0 n)
        (Traps places.now (λ m. cells_at m ptr.0 n)) }
{
    let place = object(places, ptr)?;
    let offset = offset_in(ptr);
    if within(place.size, offset, n) {
        Ok(place.start as usize + offset as usize)
    } else {
        Err(Trap::Outside)
    }
}

/// Whether `n` bytes from an offset on lie in an object of this size.
#[inline(always)]
fn within(size: u32, offset: u32, n: u128) -> bool
    ensures { MatchBool result (offset + n ≤ size) (size < offset + n) }
{
    n <= size as u128 && offset <= size - n as u32
}

/// Where the first `n` bytes of an object begin, if the pointer leads to its start and it is the one so many places from
/// the end. There is no search.
#[inline(always)]
pub(crate) fn reach_near(places: &[Place], ptr: Ptr, n: usize, behind: usize) -> Option<usize>
    ensures placed { IfSome result (λ at. Placed places.now ptr.0 n at) }
    ensures near { MatchOption result
        ((at : ℕ) → PlacedNear places.now ptr.0 n behind at → ⊥)
        (PlacedNear places.now ptr.0 n behind) }
{
    match places.get(places.len().wrapping_sub(behind)) {
        Some(place) => {
            if is_start(place, ptr) && n <= place.size as usize {
                Some(place.start as usize)
            } else {
                None
            }
        }
        None => None,
    }
}

/// Whether a pointer leads to the start of the object at a place.
#[inline(always)]
fn is_start(place: &Place, ptr: Ptr) -> bool
    ensures { result ≡ (pointer_to place.now.number 0 == ptr.0) }
{
    place.number as u64 * (1 << 32) == ptr.0
}

/// How many objects are not behind a mark.
pub(crate) fn count_up_to(places: &[Place], mark: u32) -> usize
    requires { IsRising places.now }
    ensures { Behind places.now mark result }
{
    let mut count = places.len();
    while count > 0 && places[count - 1].number > mark {
        count -= 1;
    }
    count
}
