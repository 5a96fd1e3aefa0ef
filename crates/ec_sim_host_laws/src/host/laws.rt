//! The hosts and texts of statements that are not at fault, where their references are found.

ghost use Rattle.ec_sim_host_laws.specs.host.Hosts.{TextsAreNamed, PartsLead, StatementsLead};

use ec_sim_world_laws::place::{
    elements_are_one_leaf, hosts_lead_to_their_places, texts_lead_to_their_places,
};

/// A type that may stand for a name or a text is a pointer, an array or the struct of a VARCHAR, whose characters are an array.
#[tactic(none)]
pub fn types_of_texts_name_them()
    ensures { TextsAreNamed }
{}

/// The pointers that are written for the parts of a text lead to the places of their hosts.
#[tactic(none)]
pub fn parts_lead_to_their_places()
    ensures { PartsLead }
{
    hosts_lead_to_their_places();
}

/// The pointers that are written for a statement lead to the places of its texts and hosts, and of those of the cursor that it
/// opens. Counts, indexes and items of descriptors have one leaf.
#[tactic(none)]
pub fn statements_lead_to_their_places()
    ensures { StatementsLead }
{
    hosts_lead_to_their_places();
    texts_lead_to_their_places();
    elements_are_one_leaf();
}
