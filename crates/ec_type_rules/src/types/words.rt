//! Type words (ISO/IEC 9899:1999, 6.7.2, 2).

ghost use Rattle.std.specs.Prelude.{◌≡◌, option_map};
ghost use Rattle.ec_ctypes.specs.views.Types.{ty_view};
ghost use Rattle.ec_typing_defs.specs.Types as rule;
ghost use Rattle.ec_type_rules.specs.Views.{type_view};
ghost use Rattle.ec_type_rules.specs.Words.{counts_in, named_view, type_by_counts};

use ec_base::Name;
use ec_ctypes::{Arith, Ty};

/// What a set of type words names.
#[derive(Clone, Copy, Debug)]
enum Named {
    /// `void`
    Nothing,
    Integer(Arith),
}

/// How often each type word stands in a set: `void`, `bool`, `char`, `short`, `int`, `long`, `signed`, `unsigned`.
type Counts = [usize; 8];

/// The sets of words that are types. `char` and `signed char` are one type here.
const SETS: [(Counts, Named); 28] = [
    ([0, 0, 0, 0, 1, 0, 0, 0], Named::Integer(Arith::Int)),
    ([0, 0, 1, 0, 0, 0, 0, 0], Named::Integer(Arith::Char)),
    ([1, 0, 0, 0, 0, 0, 0, 0], Named::Nothing),
    ([0, 1, 0, 0, 0, 0, 0, 0], Named::Integer(Arith::Bool)),
    ([0, 0, 1, 0, 0, 0, 1, 0], Named::Integer(Arith::Char)),
    ([0, 0, 1, 0, 0, 0, 0, 1], Named::Integer(Arith::UChar)),
    ([0, 0, 0, 1, 0, 0, 0, 0], Named::Integer(Arith::Short)),
    ([0, 0, 0, 1, 0, 0, 1, 0], Named::Integer(Arith::Short)),
    ([0, 0, 0, 1, 1, 0, 0, 0], Named::Integer(Arith::Short)),
    ([0, 0, 0, 1, 1, 0, 1, 0], Named::Integer(Arith::Short)),
    ([0, 0, 0, 1, 0, 0, 0, 1], Named::Integer(Arith::UShort)),
    ([0, 0, 0, 1, 1, 0, 0, 1], Named::Integer(Arith::UShort)),
    ([0, 0, 0, 0, 0, 0, 1, 0], Named::Integer(Arith::Int)),
    ([0, 0, 0, 0, 1, 0, 1, 0], Named::Integer(Arith::Int)),
    ([0, 0, 0, 0, 0, 0, 0, 1], Named::Integer(Arith::UInt)),
    ([0, 0, 0, 0, 1, 0, 0, 1], Named::Integer(Arith::UInt)),
    ([0, 0, 0, 0, 0, 1, 0, 0], Named::Integer(Arith::Long)),
    ([0, 0, 0, 0, 0, 1, 1, 0], Named::Integer(Arith::Long)),
    ([0, 0, 0, 0, 1, 1, 0, 0], Named::Integer(Arith::Long)),
    ([0, 0, 0, 0, 1, 1, 1, 0], Named::Integer(Arith::Long)),
    ([0, 0, 0, 0, 0, 1, 0, 1], Named::Integer(Arith::ULong)),
    ([0, 0, 0, 0, 1, 1, 0, 1], Named::Integer(Arith::ULong)),
    ([0, 0, 0, 0, 0, 2, 0, 0], Named::Integer(Arith::LLong)),
    ([0, 0, 0, 0, 0, 2, 1, 0], Named::Integer(Arith::LLong)),
    ([0, 0, 0, 0, 1, 2, 0, 0], Named::Integer(Arith::LLong)),
    ([0, 0, 0, 0, 1, 2, 1, 0], Named::Integer(Arith::LLong)),
    ([0, 0, 0, 0, 0, 2, 0, 1], Named::Integer(Arith::ULLong)),
    ([0, 0, 0, 0, 1, 2, 0, 1], Named::Integer(Arith::ULLong)),
];

/// The type that type words make, in any order, or `None` of words that make none (ISO/IEC 9899:1999, 6.7.2, 2). It takes
/// time in proportion to the words, and no memory. Words that are no type words, as `const`, are passed over.
pub fn words_type(words: &[Name]) -> Option<Ty>
    ensures { type_view result ≡ rule.words_type words.now }
{
    match named_by(&SETS, &counts(words)) {
        Some(named) => Some(type_of(named)),
        None => None,
    }
}

/// What the first set with these counts names.
fn named_by(sets: &[(Counts, Named)], counts: &Counts) -> Option<Named>
    ensures { option_map named_view result ≡ type_by_counts sets.now counts.now }
{
    for (set, named) in sets {
        if *set == *counts {
            return Some(*named);
        }
    }
    None
}

/// The type that is named.
fn type_of(named: Named) -> Ty
    ensures { ty_view result ≡ named_view named }
{
    match named {
        Named::Nothing => Ty::Void,
        Named::Integer(a) => a.into(),
    }
}

/// How often each type word stands among the words.
fn counts(words: &[Name]) -> Counts
    ensures { result ≡ counts_in words.now }
{
    [
        occurrences(b"void", words),
        occurrences(b"bool", words),
        occurrences(b"char", words),
        occurrences(b"short", words),
        occurrences(b"int", words),
        occurrences(b"long", words),
        occurrences(b"signed", words),
        occurrences(b"unsigned", words),
    ]
}

/// How often the word stands among the words.
fn occurrences(word: &[u8], words: &[Name]) -> usize
    ensures { result ≡ rule.occurrences word.now words.now }
{
    let mut count = 0;
    for other in words {
        if *word == *other.as_slice() {
            count += 1;
        }
    }
    count
}
