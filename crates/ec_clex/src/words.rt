//! Words of C.
ghost use Rattle.std.specs.Prelude.{◌≡◌};
ghost use Rattle.ec_language.specs.Tokens as tokens;

use ec_split::scanning::words::place_of;

/// The words of C that are left out, each at its place.
const LEFT_OUT_WORDS: [&[u8]; 24] = [
    b"double",
    b"",
    b"default",
    b"",
    b"",
    b"",
    b"",
    b"inline",
    b"",
    b"case",
    b"volatile",
    b"extern",
    b"",
    b"",
    b"restrict",
    b"",
    b"",
    b"union",
    b"typedef",
    b"auto",
    b"float",
    b"switch",
    b"register",
    b"enum",
];

/// Whether the word is one of C that is left out.
pub fn is_left_out_word(word: &[u8]) -> bool
    ensures { result ≡ tokens.is_left_out_word word.now }
{
    if word.is_empty() {
        return false;
    }
    LEFT_OUT_WORDS[place_of(word)] == word
}
