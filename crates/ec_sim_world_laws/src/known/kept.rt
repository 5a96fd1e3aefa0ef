//! What holds is kept, whatever the source.

ghost use Rattle.ec_ctypes.specs.trees.Units.{UnitData};
ghost use Rattle.ec_sim_world_laws.specs.known.Laws.{WalkKeeps};

use crate::known::positions::declarations_are_numbered;
use crate::known::walk::the_walk_keeps_what_is_known;
use crate::known::worlds::worlds_are_kept;

/// Each part of the walk through a source keeps what holds of what is known and of where things are.
#[tactic(none)]
pub fn what_is_known_is_kept()
    ensures { (u : UnitData) → WalkKeeps u }
{
    worlds_are_kept();
    declarations_are_numbered();
    the_walk_keeps_what_is_known();
}
