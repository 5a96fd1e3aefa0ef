//! What holds of the resolved forms of statements, as the contracts of functions that do nothing.

ghost use Rattle.std.specs.Prelude.{List, Bool};
ghost use Rattle.ec_resolving_defs.specs.Storage.{LibraryCall};
ghost use Rattle.ec_sound_defs.specs.Sound.{Signature};
ghost use Rattle.ec_sound_program_laws.specs.Bodies.{BodiesAreSound};
ghost use Rattle.ec_sound_program_laws.specs.Programs.{ProgramsAreSound};
ghost use Rattle.ec_sound_program_laws.specs.Standing.{StartIsKnown};
ghost use Rattle.ec_sound_program_laws.specs.Laws.{ConditionsFit, UnusedFit, ReturnsFit, InitialsFit, StatementsAreSound};

/// What statements and declarations take of expressions with which nothing is wrong is of the sort that is wanted: a condition
/// and an expression whose value isn't used serve as any value, what is returned is of the sort of its function, and
/// what initializes an object is stored in it, part by part, as what is wanted there.
pub fn values_are_of_their_sorts()
    ensures conditions { (gs : List Signature) (calls : List LibraryCall) (written : Bool)
        → ConditionsFit gs calls written }
    ensures unused { (gs : List Signature) (calls : List LibraryCall) (written : Bool)
        → UnusedFit gs calls written }
    ensures returns { (gs : List Signature) (calls : List LibraryCall) (written : Bool)
        → ReturnsFit gs calls written }
    ensures initials { (gs : List Signature) (calls : List LibraryCall) (written : Bool)
        → InitialsFit gs calls written }
{}

/// Statements with which nothing is wrong are sound, declarations and blocks in them too: each value is of the sort that is
/// wanted, each object is in scope where it is named, each label that a jump names is in the body, what leaves a loop
/// stands in one, and no part lacks a form.
pub fn statements_are_sound()
    ensures { (gs : List Signature) (calls : List LibraryCall) (written : Bool)
        → StatementsAreSound gs calls written }
{}

/// So is the body of a function with which nothing is wrong, behind its parameters: it has the objects that are declared in it,
/// each label that a jump names is there, and what is returned is of the sort of the function's result.
pub fn bodies_are_sound()
    ensures { (gs : List Signature) (calls : List LibraryCall) (written : Bool)
        → BodiesAreSound gs calls written }
{}

/// What these laws ask of what is known holds where a program begins.
pub fn starts_are_known()
    ensures { StartIsKnown }
{}

/// So is a whole program with which nothing is wrong, as written C or not, where it is read without embedded statements: each
/// function has the signature by which it is known at the program's end, and calls of it everywhere agree with that.
pub fn programs_are_sound()
    ensures { (written : Bool) → ProgramsAreSound written }
{}
