//! The references, actions and outputs of the statements of a source.

ghost use Rattle.ec_sim_program_laws.specs.shape.Shapes.{StatementsAreRead};

/// Of each statement of a source the references are names with their suffixes, which make nothing, the arguments of the
/// actions that hold at it are so or constants, what is stored goes somewhere, a cursor is declared without a connection, and
/// the items of a descriptor that are set are those that can be.
#[tactic(none)]
pub fn statements_are_read()
    ensures { StatementsAreRead }
{}
