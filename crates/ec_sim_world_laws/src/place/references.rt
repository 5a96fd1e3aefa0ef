//! The references of embedded statements.

ghost use Rattle.std.specs.Prelude.{◌≡◌, ℕ, false, List, [], Some};
ghost use Rattle.ec_ctypes.specs.trees.Exprs.{ExprData};
ghost use Rattle.ec_ctypes.specs.trees.Types.{TyData};
ghost use Rattle.ec_host_defs.specs.Programs.{Denoted, variable_of, reference_type};
ghost use Rattle.ec_typing_defs.specs.Worlds.{Place, World, look_up};
ghost use Rattle.ec_typing_defs.specs.Embedded.{reference_rule, denoted_by};
ghost use Rattle.ec_typing_defs.specs.Types.{is_void};
ghost use Rattle.ec_resolving_defs.specs.Storage.{Storage};
ghost use Rattle.ec_sim_world_laws.specs.place.Structs.{IsWithin};
ghost use Rattle.ec_sim_world_laws.specs.place.References.{IsReference, IndexesHaveTypes, variable_in, NamesAreDeclared, tables_of, IsPlaceOf};

/// A reference in which the checks find no fault, and to which the tables give a type that is not void, is a place of that type: it is resolved
/// to its address without making anything.
#[tactic(none)]
pub fn references_are_places()
    ensures { (at : Place) (s : Storage) (w z : World) (hosts functions : List ℕ) → IsWithin w z
        → NamesAreDeclared w functions → (e : ExprData) → IsReference e → IndexesHaveTypes w e
        → (reference_rule at e w).found ≡ [] → (ds : Denoted)
        → variable_of ds ≡ denoted_by (look_up (variable_in e) w) → (there : TyData)
        → reference_type (tables_of z hosts functions) e ds ≡ Some there
        → is_void there ≡ false → IsPlaceOf at s w z e there }
{}
