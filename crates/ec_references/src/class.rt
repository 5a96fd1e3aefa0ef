//! What a token may be that is neither one word of a form nor one mark.

/// A class of tokens.
#[derive(Clone, Copy, Debug, PartialEq, Eq)]
pub enum Class {
    AnyWord,
    /// With no gap before it.
    GluedWord,
    NotTo,
    NotImmediate,
    NotPrepare,
    NotBreakOrContinue,
    NotPrepareOrDescriptor,
    /// A number with the type of a decimal constant, with no gap before it.
    GluedNumber,
    /// A number with the type of a decimal constant.
    FittingNumber,
    /// Digits alone.
    WholeNumber,
    /// A text in `'`.
    Quote,
    /// A character constant of C.
    Character,
    /// Constants and references that are inputs, and the sign before a number.
    InputNumber,
    InputQuote,
    InputMinus,
    InputColon,
    /// The `:` of a reference that is no input.
    Colon,
    /// What a target begins with that is neither a quote nor a reference.
    TargetStart,
    /// What stands further on in it.
    TargetMore,
    /// What stands in it behind a `:` that begins no reference.
    TargetBehind,
}
