//! The trees of sources are flat, and no struct in them begins with too many types.

ghost use Rattle.ec_sim_program_laws.specs.flat.Laws.{TreesAreFlat, SourcesAreFlat, SourcesAreShallow};

use crate::shape::statements_are_read;

/// In the tree of a source each declarator, and each parameter, has 64 array lengths at most.
#[tactic(none)]
pub fn trees_are_flat()
    ensures trees { TreesAreFlat }
    ensures sources { SourcesAreFlat }
{}

/// Behind a source without faults no struct begins with more than 2^30 types, one in another: each struct that is made begins
/// with 66 more than one before it, and no more structs are made than there are tokens.
#[tactic(none)]
pub fn structs_are_shallow()
    ensures { SourcesAreShallow }
{
    statements_are_read();
}
