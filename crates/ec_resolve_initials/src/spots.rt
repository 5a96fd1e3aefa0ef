//! Where the parts of an object stand that are left (ISO/IEC 9899:1999, 6.7.2.1).

ghost use Rattle.std.specs.Prelude.{◌≡◌, ◌∷◌, IfOk, Some};
ghost use Rattle.std.specs.Int.{next_multiple_of};
ghost use Rattle.ec_ctypes.specs.Layout.{with_member};
ghost use Rattle.ec_ctypes.specs.views.Types.{ty_view};
ghost use Rattle.ec_resolve_forms.specs.Readings.{shape_by};
ghost use Rattle.ec_resolving_defs.specs.Initializers as of;
ghost use Rattle.ec_scopes.specs.Entries.{type_view};
ghost use Rattle.ec_scopes.specs.Seen.{world_of};
ghost use Rattle.ec_resolve_initials.specs.Spots.{next_place, spot_view, spots_view};

use ec_base::{List, OutOfMemory};
use ec_ctypes::{Shape, Ty};
use ec_scopes::{Checker, Measure};

/// The greatest size of a type, in bytes.
const LIMIT: u64 = 16_777_216;

/// No members so far.
const NO_MEMBERS: Shape = Shape { size: 0, align: 1 };

/// Where the object begins of which elements or members are left, and the shape of what is done of it.
#[derive(Clone, Copy, Debug)]
pub struct Spot {
    pub base: u64,
    pub done: Shape,
}

/// One for each part of which something is left. The last is that of the innermost.
pub type Spots = List<Spot>;

impl Spot {
    /// Where an object begins of which all is left.
    pub fn at(offset: u64) -> Spot
        ensures { spot_view result ≡ of.spot_at offset }
    {
        Spot {
            base: offset,
            done: NO_MEMBERS,
        }
    }

    /// The offset of the next part, of this shape.
    fn next_offset(self, part: Shape) -> Result<u64, OutOfMemory>
        ensures { IfOk result (λ offset. offset ≡ of.next_offset (spot_view self) part) }
    {
        let within = start(self.done.size, part.align)?;
        match self.base.checked_add(within) {
            Some(offset) => Ok(offset),
            // Out of reach, which isn't proved: an object is within L1.
            None => Err(OutOfMemory),
        }
    }

    /// What is left behind the next part, of this shape.
    fn behind(self, part: Shape) -> Result<Spot, OutOfMemory>
        ensures { IfOk result (λ spot. spot_view spot ≡ of.spot_behind (spot_view self) part) }
    {
        let done = joined(self.done, part)?;
        Ok(Spot {
            base: self.base,
            done,
        })
    }
}

/// Where a part of this alignment starts behind so many bytes. There is no memory behind more than 2^24 of them.
fn start(used: u64, align: u64) -> Result<u64, OutOfMemory>
    ensures { IfOk result (λ offset. offset ≡ next_multiple_of used align) }
{
    if used > LIMIT || align == 0 || align > 8 {
        // Out of reach, which isn't proved: shapes are within L1, and aligned to at most 8.
        return Err(OutOfMemory);
    }
    Ok(used.next_multiple_of(align))
}

/// The parts so far, and one more behind them.
fn joined(before: Shape, part: Shape) -> Result<Shape, OutOfMemory>
    ensures { IfOk result (λ all. all ≡ with_member before part) }
{
    let offset = start(before.size, part.align)?;
    match offset.checked_add(part.size) {
        Some(size) => Ok(Shape {
            size,
            align: before.align.max(part.align),
        }),
        // Out of reach, which isn't proved: both are within L1.
        None => Err(OutOfMemory),
    }
}

/// The shape of what is measured so. What is larger than the limit has none.
fn shape_by(measure: Measure) -> Shape
    ensures { result ≡ of.shape_or_none (shape_by measure) }
{
    match measure {
        Measure::Unknown => NO_MEMBERS,
        Measure::Within(shape) => shape,
        Measure::TooLarge => NO_MEMBERS,
    }
}

/// The shape of a part of this type, which takes no bytes where it has no size within the limit.
pub fn shape_of(checker: &Checker, ty: &Ty) -> Shape
    ensures { result ≡ of.part_shape (world_of checker.now) (Some (ty_view ty.now)) }
{
    shape_by(checker.shape(ty))
}

/// The same, where its type may be unknown.
pub fn part_shape(checker: &Checker, ty: &Option<Ty>) -> Shape
    ensures { result ≡ of.part_shape (world_of checker.now) (type_view ty.now) }
{
    match ty {
        None => NO_MEMBERS,
        Some(ty) => shape_of(checker, ty),
    }
}

/// The offset of the next part, of this shape, which is then done.
pub fn take_spot(spots: &mut Spots, part: Shape) -> Result<u64, OutOfMemory>
    ensures { IfOk result (λ offset. next_place offset (spots_view spots.new)
        ≡ of.take_spot part (spots_view spots.old)) }
{
    match spots.pop() {
        None => Ok(0),
        Some(spot) => {
            let offset = spot.next_offset(part)?;
            let behind = spot.behind(part)?;
            spots.push(behind)?;
            Ok(offset)
        }
    }
}

/// An object begins here, whose first part, of this shape, is gone into.
pub fn open_spot(spots: &mut Spots, offset: u64, part: Shape) -> Result<(), OutOfMemory>
    ensures { IfOk result (λ _. spots_view spots.new
        ≡ of.spot_behind (of.spot_at offset) part ∷ spots_view spots.old) }
{
    let behind = Spot::at(offset).behind(part)?;
    spots.push(behind)?;
    Ok(())
}
