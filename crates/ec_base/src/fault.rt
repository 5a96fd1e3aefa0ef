/// What is wrong with a text. Each fault has a number, by which it is printed, and a name.
#[derive(Clone, Copy, Debug, PartialEq, Eq)]
pub enum FaultKind {
    /// A comment without its end.
    F1,
    /// A quote without its end or, in C text, with a newline in it.
    F2,
    /// An embedded statement without its semicolon.
    F3,
    /// A byte that begins no token.
    F4,
    /// A number of no legal form, or one that does not fit.
    F5,
    /// An unknown escape, or a character constant that is not one byte.
    F6,
    /// The first token with which no program begins.
    F7,
    /// The first token that no form of an embedded statement allows.
    F8,
    /// A form of C or of embedded SQL that is left out.
    F9,
    /// A name, tag, label or member declared again in its scope.
    F10,
    /// A name, tag or member that is not in scope.
    F11,
    /// A declaration of a reserved name.
    F12,
    /// A VARCHAR whose length is no constant of 1 or more.
    F13,
    /// Types that the rules of C do not allow here.
    F14,
    /// An operand that is no place where C wants one.
    F15,
    /// A call of no known function, or with wrong arguments.
    F16,
    /// A format that is left out, or does not fit its arguments.
    F17,
    /// A `break`, `continue` or `goto` without its target.
    F18,
    /// No constant where C wants one.
    F19,
    /// No `int main` without parameters.
    F20,
    /// A reference to a variable declared outside a declare section.
    F21,
    /// A host variable of a type that its place does not allow.
    F22,
    /// An indicator of a wrong type or count, or at a wrong place.
    F23,
    /// An array as input.
    F24,
    /// An indicator struct of another shape than its host.
    F25,
    /// OPEN of a cursor that is not declared above.
    F26,
    /// A second declaration of a cursor.
    F27,
    /// OPEN where a variable of the cursor is another declaration.
    F28,
    /// A directive as the body of another statement.
    F29,
    /// A WHENEVER action that cannot stand at a statement.
    F30,
    /// An INCLUDE of a part that a bundle does not have.
    F31,
    /// A condition of conditional text without its other end.
    F32,
}

/// A limit of the tool. Each has a number, by which it is printed.
#[derive(Clone, Copy, Debug, PartialEq, Eq)]
pub enum LimitKind {
    /// An array or struct type of more than 2^24 bytes.
    L1,
    /// More than 2^22 tokens.
    L2,
    /// Nesting deeper than 64, or an expression or a declarator that is too long.
    L3,
    /// A statement with more than 1,000 inputs, or a host with more than 64 suffixes.
    L4,
    /// A struct host of more than 1,000 members.
    L5,
    /// An input of more than 2^24 bytes.
    L6,
    /// A rack of more than 64 slots.
    L7,
    /// A generated program with a number above 10,000.
    L8,
    /// More than 8 sources in one input.
    L9,
    /// Inclusions nested more than 16 deep.
    L10,
    /// A transcript of more than 2^24 bytes.
    L11,
}
