//! What holds of the forms of operators, of formats, and of calls of what is known, as the contracts of functions that do
//! nothing.

ghost use Rattle.std.specs.Prelude.{ℕ, List};
ghost use Rattle.ec_sound_defs.specs.Sound.{Signature, no_atoms};
ghost use Rattle.ec_sound_form_laws.specs.Formats.{FormatsAreTakenApart};
ghost use Rattle.ec_sound_form_laws.specs.Operands.{ValuesFit, AddressesFit, TargetsFit, SignsFit, BinariesFit, ElementsFit, AssignmentsFit, CompoundsFit, CountersFit, CastsFit, UnusedFit};
ghost use Rattle.ec_sound_form_laws.specs.Laws.{BinaryIsTyped, ElementIsPlace, AssignedIsTyped, ReadIsTyped, UnaryIsTyped, CastIsTyped, AssignmentIsTyped, CompoundIsTyped, CutsAreCalls, KnownAreTyped};

/// Where the rules of C give a type for an operator over values, its resolved form is of the sort of this type; an element
/// is a place; and a value that may be assigned is of the sort of what it is assigned to, once it is converted.
pub fn operators_are_typed()
    ensures binary { (signatures : List Signature) (n : ℕ) → BinaryIsTyped signatures no_atoms n }
    ensures element { (signatures : List Signature) (n : ℕ)
        → ElementIsPlace signatures no_atoms n }
    ensures assigned { (signatures : List Signature) (n : ℕ)
        → AssignedIsTyped signatures no_atoms n }
    ensures read { (signatures : List Signature) (n : ℕ) → ReadIsTyped signatures no_atoms n }
    ensures unary { (signatures : List Signature) (n : ℕ) → UnaryIsTyped signatures no_atoms n }
    ensures cast { (signatures : List Signature) (n : ℕ) → CastIsTyped signatures no_atoms n }
    ensures assignment { (signatures : List Signature) (n : ℕ)
        → AssignmentIsTyped signatures no_atoms n }
    ensures compound { (signatures : List Signature) (n : ℕ)
        → CompoundIsTyped signatures no_atoms n }
{}

/// What the checks take for a call of the library is one, whatever its pointers are, where all arguments have types.
pub fn cuts_are_calls()
    ensures { CutsAreCalls }
{}

/// Each known function that the checks take without a format is one that the meaning has, and takes and gives what its
/// types say.
pub fn known_functions_are_typed()
    ensures { KnownAreTyped }
{}

/// Each format that the checks take is one for the meaning, too, which takes values of the sorts that they ask for.
pub fn formats_are_taken_apart()
    ensures { FormatsAreTakenApart }
{}

/// Where the parts of an operand fit, and nothing is wrong by its rule, what the rule answers fits with its form: a value of
/// the sort of its type, or the address of a place.
pub fn operands_fit()
    ensures values { (gs : List Signature) (n : ℕ) → ValuesFit gs no_atoms n }
    ensures addresses { (gs : List Signature) (n : ℕ) → AddressesFit gs no_atoms n }
    ensures targets { (gs : List Signature) (n : ℕ) → TargetsFit gs no_atoms n }
    ensures signs { (gs : List Signature) (n : ℕ) → SignsFit gs no_atoms n }
    ensures binaries { (gs : List Signature) (n : ℕ) → BinariesFit gs no_atoms n }
    ensures elements { (gs : List Signature) (n : ℕ) → ElementsFit gs no_atoms n }
    ensures assignments { (gs : List Signature) (n : ℕ) → AssignmentsFit gs no_atoms n }
    ensures compounds { (gs : List Signature) (n : ℕ) → CompoundsFit gs no_atoms n }
    ensures counters { (gs : List Signature) (n : ℕ) → CountersFit gs no_atoms n }
    ensures casts { (gs : List Signature) (n : ℕ) → CastsFit gs no_atoms n }
    ensures unused { (gs : List Signature) (n : ℕ) → UnusedFit gs no_atoms n }
{}
