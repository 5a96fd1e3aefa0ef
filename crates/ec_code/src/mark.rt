//! What a statement is marked with.

ghost use Rattle.std.specs.Prelude.{◌≡◌};
ghost use Rattle.ec_code.specs.Marks.{IsCaseOf, mark_view};
ghost use Rattle.ec_meaning_defs.specs.resolved.Labels.{is_named, same};
ghost use Rattle.ec_meaning_defs.specs.resolved.Operations.{compares, equal};
ghost use Rattle.ec_values.specs.Words.{word_view};

use ec_values::Word;

/// What a statement is marked with, and what is looked for (ISO/IEC 9899:1999, 6.8.1).
#[derive(Clone, Copy, Debug)]
pub enum Mark {
    /// The label of this number.
    Named(u32),
    /// `case`, with a value that `long` has.
    Signed(i64),
    /// `case`, with a value that `unsigned long` has.
    Unsigned(u64),
    /// `default`
    Default,
}

impl Mark {
    /// The case of this value. A pointer has none.
    pub fn case_of(value: Word) -> Option<Mark>
        ensures { IsCaseOf (word_view value) result }
    {
        match value {
            Word::Signed(number) => Some(Mark::Signed(number)),
            Word::Unsigned(number) => Some(Mark::Unsigned(number)),
            Word::Address(_) => None,
        }
    }

    /// Whether this is a label. `case` and `default` belong to a `switch`.
    pub fn is_named(self) -> bool
        ensures { result ≡ is_named (mark_view self) }
    {
        match self {
            Mark::Named(_) => true,
            Mark::Signed(_) => false,
            Mark::Unsigned(_) => false,
            Mark::Default => false,
        }
    }

    /// Whether this is the other: cases are compared by their values, in whichever type these are held (6.8.4.2).
    #[inline(always)]
    pub fn is_same(self, other: Mark) -> bool
        ensures { result ≡ same (mark_view self) (mark_view other) }
    {
        match (self, other) {
            (Mark::Named(label), Mark::Named(sought)) => label == sought,
            (Mark::Signed(value), Mark::Signed(sought)) => is_equal(value as i128, sought as i128),
            (Mark::Signed(value), Mark::Unsigned(sought)) => is_equal(
                value as i128,
                sought as i128,
            ),
            (Mark::Unsigned(value), Mark::Signed(sought)) => is_equal(
                value as i128,
                sought as i128,
            ),
            (Mark::Unsigned(value), Mark::Unsigned(sought)) => is_equal(
                value as i128,
                sought as i128,
            ),
            (Mark::Default, Mark::Default) => true,
            _ => false,
        }
    }
}

/// Whether two numbers are equal (6.5.9).
#[inline(always)]
fn is_equal(a: i128, b: i128) -> bool
    ensures { result ≡ compares equal a b }
{
    a <= b && b <= a
}
