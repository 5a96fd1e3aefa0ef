//! The leaves of hosts, where they stand.

ghost use Rattle.std.specs.Prelude.{◌≡◌, ℕ, true, List, Option, Some};
ghost use Rattle.ec_ctypes.specs.trees.Embedded.{HostData};
ghost use Rattle.ec_ctypes.specs.trees.Exprs.{ExprData};
ghost use Rattle.ec_ctypes.specs.trees.Types.{TyData, StructData};
ghost use Rattle.ec_arguments.specs.Arguments.{held};
ghost use Rattle.ec_expansion_defs.specs.Calls.{text_of};
ghost use Rattle.ec_host_defs.specs.Elements.{is_element};
ghost use Rattle.ec_host_defs.specs.Leaves.{LeafData, leaves, hosted};
ghost use Rattle.ec_typing_defs.specs.statement_parts.References.{of_host};
ghost use Rattle.ec_typing_defs.specs.Worlds.{Place, World};
ghost use Rattle.ec_typing_defs.specs.Answers.{struct_order, renumbered, structs_of};
ghost use Rattle.ec_resolving_defs.specs.Storage.{Storage};
ghost use Rattle.ec_direct_defs.specs.Statements.{Around, type_of};
ghost use Rattle.ec_sim_statement_laws.specs.argument.Bound.{IsOne, HostIs, HostTextIs};
ghost use Rattle.ec_sim_world_laws.specs.place.Structs.{AreListed, IsWithin};
ghost use Rattle.ec_sim_world_laws.specs.place.Places.{AllLie};
ghost use Rattle.ec_sim_world_laws.specs.place.References.{NamesAreDeclared, tables_of};
ghost use Rattle.ec_sim_world_laws.specs.place.Statements.{pointer_exp, ReferenceIs, ReferencesAre, NamesText};

/// The leaves that a host of a type has by the tables lie in that type, where its structs are listed.
#[tactic(none)]
pub fn leaves_lie_in_their_hosts()
    ensures { (w z : World) → IsWithin w z → (t : TyData) → AreListed w t → (ls : List LeafData)
        → leaves (structs_of z) (renumbered (struct_order z) t) ≡ Some ls → AllLie w z t ls }
{}

/// The pointers that are written for a host lead to the places of its leaves, where its reference and that of its indicator
/// come next: nothing is wrong with them, and they have these addresses.
#[tactic(none)]
pub fn hosts_lead_to_their_places()
    ensures { (at : Place) (s : Storage) (w z : World) (hosts functions : List ℕ) → IsWithin w z
        → NamesAreDeclared w functions → (h : HostData) (x : Around)
        → ReferencesAre at s w (of_host h) x
        → HostIs (tables_of z hosts functions) (pointer_exp at s w) h x }
{}

/// The pointer that is written for a text leads to the text of the reference that comes next: to what a pointer leads to, to an
/// array, or to the characters of a VARCHAR.
#[tactic(none)]
pub fn texts_lead_to_their_places()
    ensures { (at : Place) (s : Storage) (w z : World) (hosts functions : List ℕ) → IsWithin w z
        → NamesAreDeclared w functions → (e : ExprData) (x : Around)
        → ReferenceIs at s w e x → text_of e ≡ held e → (there : TyData)
        → type_of (tables_of z hosts functions) e x ≡ Some there
        → NamesText (structs_of z) there
        → HostTextIs (tables_of z hosts functions) (pointer_exp at s w) e x }
{}

/// A host whose type is that of an element is one leaf, as counts, indexes and items of descriptors are.
#[tactic(none)]
pub fn elements_are_one_leaf()
    ensures { (structs : List StructData) (t : TyData) (i : Option TyData)
        → is_element structs t ≡ true → IsOne (hosted structs (Some t) i) }
{}
