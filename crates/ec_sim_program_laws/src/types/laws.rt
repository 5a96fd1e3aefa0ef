//! Sources in which nothing is wrong have types.

ghost use Rattle.ec_sim_program_laws.specs.types.Types.{SourcesHaveTypes};

/// Where neither the phase of declare sections nor the checks find a fault in a source, behind it each struct that is listed
/// has members which all have types, and the indexes in the references of its embedded statements stand for declarations
/// with types. It is said of sources in which types nest no deeper than initializers go.
#[tactic(none)]
pub fn sources_have_types()
    ensures { SourcesHaveTypes }
{}
