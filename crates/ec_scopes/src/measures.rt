//! What is known of sizes (ISO/IEC 9899:1999, 6.5.3.4 and 6.7.2.1).

ghost use Rattle.std.specs.Prelude.{◌≡◌, ◌<◌, ◌≤◌, Option, Some, option_map, IfSome};
ghost use Rattle.ec_ctypes.specs.declared.types.sizes.Shape.{Shape as ShapeData};
ghost use Rattle.ec_ctypes.specs.Layout.{repeated};
ghost use Rattle.ec_scopes.specs.Measures.{measured, rounded, joined_shape, IsSmallMeasure};

use ec_ctypes::Shape;

/// What is known of the size of a type.
#[derive(Clone, Copy, Debug, PartialEq, Eq)]
pub enum Measure {
    /// It has none: it is incomplete, or a member has no type.
    Unknown,
    /// It has at most 2^24 bytes.
    Within(Shape),
    /// It has more than 2^24 bytes.
    TooLarge,
}

impl Measure {
    ghost use Rattle.ec_scopes.specs.Measures.{is_small};

    /// Whether it is no larger than the limit, as far as is known.
    pub fn is_small(self) -> bool
        ensures { result ≡ is_small self }
    {
        match self {
            Measure::Unknown => true,
            Measure::Within(_) => true,
            Measure::TooLarge => false,
        }
    }
}

/// The greatest size of a type, in bytes.
pub(crate) const LIMIT: u64 = 16_777_216;

/// What is known of this size, which may be above the limit.
fn within(size: u64, align: u64) -> Measure
    requires positive { 0 < align }
    requires align { align ≤ 8 }
    ensures measure { result ≡ measured (Some (record { size = size; align = align })) }
    ensures small { IsSmallMeasure result }
{
    if size > LIMIT {
        Measure::TooLarge
    } else {
        Measure::Within(Shape { size, align })
    }
}

/// The size of a scalar of so many bytes.
pub(crate) fn scalar_measure(size: u64) -> Measure
    requires positive { 0 < size }
    requires small { size ≤ 8 }
    ensures measure { result ≡ measured (Some (record { size = size; align = size })) }
    ensures small { IsSmallMeasure result }
{
    within(size, size)
}

/// The size of so many elements, of which there is one or more.
pub(crate) fn repeated_measure(count: u64, element: Measure) -> Measure
    requires positive { 0 < count }
    requires small { IsSmallMeasure element }
    ensures measure { (o : Option ShapeData) → element ≡ measured o →
        result ≡ measured (option_map (repeated count) o) }
    ensures small { IsSmallMeasure result }
{
    match element {
        Measure::Unknown => Measure::Unknown,
        Measure::TooLarge => Measure::TooLarge,
        Measure::Within(shape) => match count.checked_mul(shape.size) {
            Some(size) => within(size, shape.align),
            None => Measure::TooLarge,
        },
    }
}

/// The members so far, and one more behind them.
pub(crate) fn joined_measure(before: Measure, member: Measure) -> Measure
    requires before { IsSmallMeasure before }
    requires member { IsSmallMeasure member }
    ensures measure { (o p : Option ShapeData) → before ≡ measured o →
        member ≡ measured p → result ≡ measured (joined_shape o p) }
    ensures small { IsSmallMeasure result }
{
    match before {
        Measure::Unknown => Measure::Unknown,
        Measure::TooLarge => match member {
            Measure::Unknown => Measure::Unknown,
            Measure::TooLarge => Measure::TooLarge,
            Measure::Within(_) => Measure::TooLarge,
        },
        Measure::Within(all) => match member {
            Measure::Unknown => Measure::Unknown,
            Measure::TooLarge => Measure::TooLarge,
            Measure::Within(shape) => within(
                all.size.next_multiple_of(shape.align) + shape.size,
                all.align.max(shape.align),
            ),
        },
    }
}

/// A struct whose members are so large: its size is rounded up to its alignment.
pub(crate) fn rounded_measure(all: Measure) -> Measure
    requires small { IsSmallMeasure all }
    ensures measure { (o : Option ShapeData) → all ≡ measured o →
        result ≡ measured (option_map rounded o) }
    ensures small { IsSmallMeasure result }
{
    match all {
        Measure::Unknown => Measure::Unknown,
        Measure::TooLarge => Measure::TooLarge,
        Measure::Within(shape) => within(shape.size.next_multiple_of(shape.align), shape.align),
    }
}
