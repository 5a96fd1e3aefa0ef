//! What holds of the leaves of an array.

ghost use Rattle.std.specs.Prelude.{◌≡◌, ℕ, false, List, Some, All};
ghost use Rattle.ec_ctypes.specs.trees.Types.{TyData, StructData, array};
ghost use Rattle.ec_host_defs.specs.Elements.{is_element};
ghost use Rattle.ec_direct_defs.specs.Hosts.{leaves_of_type};
ghost use Rattle.ec_element_laws.specs.Elements.{IsPlaced};

/// An element of a leaf of the host `h`, an array, is where the layout has `h[i].m`: `i` times the size of what the array
/// repeats behind its beginning, and there the member (6.5.2.1, 6.5.2.3). So it lies `i` times the leaf's distance behind
/// the first one; a pointer that moves that way comes to the same place or traps alike, in an object of fewer than 2^32
/// bytes; and the first one is where the expression of the leaf's place leads.
#[tactic(none)]
pub fn elements_lie_where_the_layout_has_them()
    ensures { (structs : List StructData) (t : TyData) (n : ℕ)
        → is_element structs (array t n) ≡ false
        → All (IsPlaced structs t) (leaves_of_type structs (Some (array t n))) }
{}
