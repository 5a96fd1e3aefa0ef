//! Declarations have their numbers in the order of the text.

ghost use Rattle.ec_sim_world_laws.specs.known.Positions.{StartsBeforeAll, ItemsArePassed, FunctionsAreNumbered, TypesDeclareNone};

/// Where an item of a program stands, the declarations so far are those of the items before it, one by one, whatever their
/// faults. So a function has the number of one.
#[tactic(none)]
pub fn declarations_are_numbered()
    ensures start { StartsBeforeAll }
    ensures items { ItemsArePassed }
    ensures functions { FunctionsAreNumbered }
    ensures types { TypesDeclareNone }
{}
