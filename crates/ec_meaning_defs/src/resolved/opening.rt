//! The objects of a program that is opened, and the labels that a statement holds, as the contracts of functions that do
//! nothing.

ghost use Rattle.std.specs.Prelude.{◌≡◌, true, false, pos, [], ◌∷◌, ◌++◌, length, Some, None, codes};
ghost use Rattle.ec_memory_defs.specs.Cells.{part_of};
ghost use Rattle.ec_memory_defs.specs.Memory.{number, little_endian};
ghost use Rattle.ec_meaning_defs.specs.resolved.Labels.{holds};
ghost use Rattle.ec_meaning_defs.specs.resolved.Programs.{sqlca_bytes, global_bytes, literal_bytes, opening_objects};
ghost use Rattle.ec_meaning_defs.specs.resolved.Resolved.{named, constant, on_line, nothing, block, choose, loop, goto, label, embedded_statement, no_stms, stms};

/// Object 1 is `sqlca` with its opening values, then come the globals, then the string literals.
pub fn opening_examples()
    ensures size { length sqlca_bytes ≡ 256 }
    ensures name { part_of sqlca_bytes 0 8 ≡ codes "SQLCA   " }
    ensures own_size { little_endian (part_of sqlca_bytes 8 8) ≡ 256 }
    ensures code { little_endian (part_of sqlca_bytes 16 8) ≡ 0 }
    ensures procedure { part_of sqlca_bytes 180 8 ≡ codes "NOT SET " }
    ensures rows { little_endian (part_of sqlca_bytes 192 48) ≡ 0 }
    ensures warnings { little_endian (part_of sqlca_bytes 240 8) ≡ 0 }
    ensures state { part_of sqlca_bytes 248 8 ≡ codes "00000" ++ 0 ∷ 0 ∷ 0 ∷ [] }
    ensures zeros { global_bytes (record { size = 3; values = [] }) ≡ 0 ∷ 0 ∷ 0 ∷ [] }
    ensures initialized { global_bytes (record {
      size = 6;
      values = (0, 1 ∷ []) ∷ (4, 2 ∷ 3 ∷ [])
          ∷ [];
    })
        ≡ 1 ∷ 0 ∷ 0 ∷ 0 ∷ 2 ∷ 3 ∷ [] }
    ensures literal { literal_bytes (codes "hi") ≡ 104 ∷ 105 ∷ 0 ∷ [] }
    ensures in_order { opening_objects (record {
      globals = record { size = 1; values = [] } ∷ [];
      literals = (codes "a") ∷ [];
      functions = [];
      main = 0;
    })
        ≡ sqlca_bytes ∷ (0 ∷ []) ∷ (97 ∷ 0 ∷ []) ∷ [] }
{}

/// Labels stand in bodies, branches and blocks, however deep. A `goto` holds none.
pub fn label_examples()
    ensures itself { holds (named 3) (label (named 3) nothing) ≡ true }
    ensures behind_another { holds (named 3) (label (named 4) (on_line 1 (label (named 3) nothing))) ≡ true }
    ensures other { holds (named 3) (label (named 4) nothing) ≡ false }
    ensures going_there { holds (named 3) (goto 3) ≡ false }
    ensures in_branch { holds (named 3) (choose (constant (number (pos 0))) nothing (label (named 3) nothing))
        ≡ true }
    ensures in_loop { holds (named 3) (loop false None None (block [] (stms nothing (stms (label (named 3)
        nothing) no_stms))))
        ≡ true }
    ensures in_embedded_statement { holds (named 3) (embedded_statement 3) ≡ false }
{}
