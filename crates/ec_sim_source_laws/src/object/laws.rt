//! The names in the hosts of cursors.

ghost use Rattle.ec_sim_source_laws.specs.object.Objects.{CursorsAreOfObjects};

/// In an accepted source no name in the references of a DECLARE stands for a function: a variable that is one has no type
/// as a host, and an index that is one is a fault of its reference.
#[tactic(none)]
pub fn cursors_are_of_objects()
    ensures { CursorsAreOfObjects }
{}
