//! What holds is kept by the walk through a source.

ghost use Rattle.ec_ctypes.specs.trees.Units.{UnitData};
ghost use Rattle.ec_sim_world_laws.specs.known.Laws.{WalkKeeps};
ghost use Rattle.ec_sim_world_laws.specs.known.Positions.{StartsBeforeAll, ItemsArePassed, FunctionsAreNumbered, TypesDeclareNone};
ghost use Rattle.ec_sim_world_laws.specs.known.Worlds.{WorldsKeep};

/// What the walk knows of a source is what the checks know, so it keeps what the rules of the checks keep, and it gives a
/// site to each declaration and to nothing else.
#[tactic(none)]
pub fn the_walk_keeps_what_is_known()
    ensures { (u : UnitData) → WorldsKeep u → StartsBeforeAll → ItemsArePassed
        → FunctionsAreNumbered → TypesDeclareNone → WalkKeeps u }
{}
