//! The limits that the tool tests itself.
ghost use Rattle.std.specs.Prelude.{◌↔◌, IsTrue};
ghost use Rattle.ec_cli.specs.Answers.{IsCrowded};

use ec_link::Rack;

/// The most bytes that an input has.
pub const INPUT_LIMIT: usize = 1 << 24;

/// The most slots that a rack has.
pub const SLOT_LIMIT: usize = 64;

/// The greatest number of a program that is made.
pub const NUMBER_LIMIT: u32 = 10_000;

/// Whether the rack has more slots than are taken.
pub fn is_crowded(rack: &Rack) -> bool
    ensures { IsTrue result ↔ IsCrowded rack.now }
{
    rack.slots().len() > SLOT_LIMIT
}
