//! What is known grows, and is known in what is written.

ghost use Rattle.std.specs.Prelude.{ℕ, List};
ghost use Rattle.ec_typing_defs.specs.Worlds.{World};
ghost use Rattle.ec_sim_statement_laws.specs.expression.Worlds.{AreAlike};
ghost use Rattle.ec_sim_world_laws.specs.growth.Growth.{Grows};
ghost use Rattle.ec_sim_world_laws.specs.place.Structs.{ClosedAreListed, IsWithin};
ghost use Rattle.ec_sim_world_laws.specs.place.References.{NamesAreDeclared};

/// Where what is known grows, types of declarations and listed structs stay.
#[tactic(none)]
pub fn what_grows_stays()
    ensures { (w z : World) → Grows w z → ClosedAreListed w → ClosedAreListed z → IsWithin w z }
{}

/// What is known in what is written of a source stays as what is known in the source does: its structs are closed in the same
/// order, its names are declared so, and what lies within a world there lies within it here.
#[tactic(none)]
pub fn what_is_written_stays()
    ensures closed { (w v : World) → AreAlike w v → ClosedAreListed w → ClosedAreListed v }
    ensures within { (w v : World) → AreAlike w v → (z : World) → IsWithin w z → IsWithin v z }
    ensures names { (w v : World) → AreAlike w v → (functions : List ℕ)
        → NamesAreDeclared w functions → NamesAreDeclared v functions }
{}
