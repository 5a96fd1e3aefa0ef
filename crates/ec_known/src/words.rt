//! Tables of words.

ghost use Rattle.std.specs.Prelude.{◌≡◌, map};
ghost use Rattle.ec_language.specs.Letters.{same_text};
ghost use Rattle.ec_typing_defs.specs.Known as spec;
ghost use Rattle.ec_typing_defs.specs.Tables.{is_one_of};

/// Whether the text is this word.
pub fn is_word(word: &str, text: &[u8]) -> bool
    ensures { result ≡ same_text word.now text.now }
{
    word.as_bytes() == text
}

/// Whether the text is one of these words.
pub fn is_one_of(words: &[&str], text: &[u8]) -> bool
    ensures { result ≡ is_one_of (map (λ word. word.now) words.now) text.now }
{
    for word in words {
        if is_word(word, text) {
            return true;
        }
    }
    false
}

/// Whether the text begins with these bytes.
pub fn begins_with(front: &str, text: &[u8]) -> bool
    ensures { result ≡ spec.begins_with front.now text.now }
{
    match text.get(..front.len()) {
        Some(first) => is_word(front, first),
        None => false,
    }
}
