//! What the expressions in a written call are resolved to.

ghost use Rattle.std.specs.Prelude.{ℕ, List};
ghost use Rattle.ec_ctypes.specs.trees.Exprs.{ExprData};
ghost use Rattle.ec_ctypes.specs.trees.Types.{TyData, StructData};
ghost use Rattle.ec_host_defs.specs.Leaves.{LeafData};
ghost use Rattle.ec_host_defs.specs.Places.{leaf_pointer};
ghost use Rattle.ec_meaning_defs.specs.resolved.Resolved.{Exp};
ghost use Rattle.ec_resolving_defs.specs.Storage.{Storage};
ghost use Rattle.ec_typing_defs.specs.Worlds.{Place, World};
ghost use Rattle.ec_direct_defs.specs.Leaves.{leaf_place};
ghost use Rattle.ec_sim_statement_laws.specs.argument.Pointers.{IsPlace, IsPointer, target_of, LiesIn};

/// The pointer that is written for a leaf is resolved to the place of the leaf, where the host is a place in whose type the
/// leaf lies: to the member's place in the host or in its first element, and without making anything. Structs have their
/// numbers where the host stands, and their places in the order of the program's tables in the leaf.
#[tactic(none)]
pub fn pointers_lead_to_leaves()
    ensures { (at : Place) (s : Storage) (w : World) (order : List ℕ) (structs : List StructData)
        (t u : TyData) (l : LeafData) (e : ExprData) (x : Exp)
        → LiesIn w order structs t u l → IsPlace at s w e t x
        → IsPointer at s w (leaf_pointer e l) (target_of u) (leaf_place structs x l) }
{}
