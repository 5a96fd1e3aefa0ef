//! How the trees of accepted sources stand, as the contracts of functions that do nothing.

ghost use Rattle.std.specs.Prelude.{◌≡◌, ℕ, true, List, Ok};
ghost use Rattle.ec_ctypes.specs.trees.Units.{UnitData};
ghost use Rattle.ec_language.specs.Letters.{Text};
ghost use Rattle.ec_phases_defs.specs.Sources.{ReadsTree};
ghost use Rattle.ec_sim_program_laws.specs.program.Shape.{TopsStand};
ghost use Rattle.ec_host_defs.specs.sections.Answers.{hosts_answer};
ghost use Rattle.ec_written_laws.specs.source.SourceShape.{is_source_shape};
ghost use Rattle.ec_sim_program_laws.specs.standing.There.{TopsAreThere};
ghost use Rattle.ec_sim_program_laws.specs.standing.Varchars.{TopsHaveLengths};

/// Where the phase of declare sections finds no fault, each VARCHAR ends in a length.
pub fn sections_keep_lengths()
    ensures { (u : UnitData) (hosts : List ℕ) → hosts_answer u ≡ Ok hosts
        → TopsHaveLengths u.tops }
{}

/// In a program that can stand in a source, whose VARCHARs end in lengths and whose embedded statements are there, all
/// stands as the law on programs wants it: no declaration and no mark is a body or has a label.
pub fn shapes_stand()
    ensures { (u : UnitData) → is_source_shape u ≡ true → TopsHaveLengths u.tops
        → TopsAreThere u.embs u.tops → TopsStand u.embs u.tops }
{}

/// Each embedded statement that stands in the tree of a source is among its statements, with the line of the statement in
/// which it stands, and one that stands outside of functions is a directive.
pub fn statements_stand_in_trees()
    ensures { (text : Text) (u : UnitData) → ReadsTree text (Ok u) → TopsAreThere u.embs u.tops }
{}

/// So the trees of sources in which the phase of declare sections finds no fault stand as the law on programs wants it.
pub fn sources_stand()
    ensures { (text : Text) (u : UnitData) (hosts : List ℕ) → ReadsTree text (Ok u)
        → hosts_answer u ≡ Ok hosts → is_source_shape u ≡ true → TopsStand u.embs u.tops }
{}
