//! The tables behind a program.

ghost use Rattle.ec_sim_host_laws.specs.table.Laws.{VarcharsHaveTheirMembers, TypesAreWithinLimits, TablesAreSound};

/// Behind a program, whatever its faults, the struct of a VARCHAR has a length and characters.
#[tactic(none)]
pub fn varchars_have_their_members()
    ensures { VarcharsHaveTheirMembers }
{}

/// Behind a program without faults, no type of a declaration or a member is larger than the limit, and no struct.
#[tactic(none)]
pub fn types_are_within_limits()
    ensures { TypesAreWithinLimits }
{}

/// Behind a program without faults, where each member has a type, the tables are as they are to be.
#[tactic(none)]
pub fn tables_are_sound()
    ensures { TablesAreSound }
{}
