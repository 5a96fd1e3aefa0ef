//! The parts of objects that initializers go to, and what is stored in them (ISO/IEC 9899:1999, 6.7.8).
#![tactic(auto)]

mod goals;
mod left;
mod spots;
mod storing;

pub use goals::{Aim, Slot, aim_of, slot_of};
pub use left::Left;
pub use spots::{Spot, Spots};
pub use storing::{Parts, store_at};
