//! What is known of structs, and the tables of the whole source.

ghost use Rattle.std.specs.Prelude.{◌≡◌, ℕ, Some};
ghost use Rattle.ec_ctypes.specs.trees.Types.{TyData, structure};
ghost use Rattle.ec_ctypes.specs.Layout.{shape_of};
ghost use Rattle.ec_language.specs.Letters.{Text};
ghost use Rattle.ec_host_defs.specs.Places.{size_of};
ghost use Rattle.ec_host_defs.specs.Programs.{member_type};
ghost use Rattle.ec_typing_defs.specs.Worlds.{World, shape_in};
ghost use Rattle.ec_typing_defs.specs.Answers.{struct_order, place_of, renumbered, structs_of};
ghost use Rattle.ec_resolving_defs.specs.Conversions.{size_in};
ghost use Rattle.ec_sim_world_laws.specs.place.Structs.{IsListed, AreListed, IsWithin};
ghost use Rattle.ec_sim_world_laws.specs.place.Places.{IsMember};

/// A type whose structs are listed has the shape and the size that the tables give for it.
#[tactic(none)]
pub fn sizes_are_those_of_the_tables()
    ensures shapes { (w z : World) → IsWithin w z → (t : TyData) → AreListed w t
        → shape_of (structs_of z) (renumbered (struct_order z) t) ≡ shape_in w t }
    ensures sizes { (w z : World) → IsWithin w z → (t : TyData) → AreListed w t
        → size_of (structs_of z) (renumbered (struct_order z) t) ≡ size_in w t }
{}

/// A member that the tables tell of a struct is one of the struct where it is listed, of the same type and at the same place.
#[tactic(none)]
pub fn members_are_those_of_the_tables()
    ensures { (w z : World) → IsWithin w z → (k : ℕ) → IsListed w k
        → (name : Text) (there : TyData)
        → member_type (structs_of z) name (structure (place_of k (struct_order z))) ≡ Some there
        → IsMember w z k name there }
{}
