//! What holds of programs of the written shape.

ghost use Rattle.ec_sim_source_laws.specs.section.Laws.{WrittenHaveNoSections};

/// In a program of the written shape the phase of declare sections finds no fault: it has no marks and no VARCHAR.
#[tactic(none)]
pub fn written_programs_have_no_sections()
    ensures { WrittenHaveNoSections }
{}
