//! What holds of what is known is kept by the rules of the checks.

ghost use Rattle.ec_ctypes.specs.trees.Units.{UnitData};
ghost use Rattle.ec_sim_world_laws.specs.known.Worlds.{WorldsKeep};

/// Wherever no declaration is being read, with faults so far or without, what is known has grown from the start, structs are
/// closed in their order, and each name stands for a declaration that is there.
#[tactic(none)]
pub fn worlds_are_kept()
    ensures { (u : UnitData) → WorldsKeep u }
{}
