//! Words, in any case of letters or in a table.
ghost use Rattle.std.specs.Prelude.{◌≡◌};
ghost use Rattle.ec_language.specs.Letters as letters;
ghost use Rattle.ec_split.specs.WordTables as tables;

use crate::scanning::bytes::word_at;

/// Whether the words are one, in any case of letters.
#[inline(always)]
pub fn same_word(word: &[u8], other: &[u8]) -> bool
    ensures { result ≡ letters.same_word word.now other.now }
{
    word.len() == other.len() && word_at(word, 0, other)
}

/// The place of a word in a table of 24 words, by its length and its first and last byte. The
/// factors are chosen so that no two words of a table have one place: then the word that stands
/// there is the only one to look at.
pub fn place_of(word: &[u8]) -> usize
    ensures { result ≡ tables.place_of word.now }
{
    if word.is_empty() {
        return 0;
    }
    let first = usize::from(word[0]);
    let last = usize::from(word[word.len() - 1]);
    (2 * (word.len() % 24) + 11 * first + 8 * last) % 24
}
