//! The names that may not be declared.

ghost use Rattle.std.specs.Prelude.{◌≡◌, map};
ghost use Rattle.ec_language.specs.Letters.{same_text};
ghost use Rattle.ec_typing_defs.specs.Known as spec;
ghost use Rattle.ec_typing_defs.specs.Tables as tables;

use crate::functions::is_function_name;
use crate::words::{begins_with, is_one_of};

fn is_reserved_word(text: &[u8]) -> bool
    ensures { result ≡ tables.is_one_of spec.reserved_words text.now }
{
    is_one_of(
        &[
            "sqlca", "SQLCODE", "SQLSTATE", "NULL", "true", "false", "stdout", "stderr",
        ],
        text,
    )
}

/// Whether no object, parameter, function, member or label may have this name: the names that are known without a
/// declaration, and those that the library and the structs of VARCHARs have.
pub fn is_reserved(name: &[u8]) -> bool
    ensures { result ≡ spec.is_reserved name.now }
{
    is_reserved_word(name)
        || is_function_name(name)
        || begins_with("ECPG", name)
        || begins_with("varchar_", name)
}

// A letter in upper case.
fn raised(letter: u8) -> u8
    ensures { result ≡ spec.raised letter }
{
    if 97 <= letter && letter <= 122 {
        letter - 32
    } else {
        letter
    }
}

// Whether the text is this word, where its letters are raised.
fn is_raised(text: &[u8], word: &[u8]) -> bool
    ensures { result ≡ same_text (map spec.raised text.now) word.now }
{
    if text.len() != word.len() {
        return false;
    }
    let mut i = 0;
    while i < text.len() {
        if raised(text[i]) != word[i] {
            return false;
        }
        i += 1;
    }
    true
}

/// Whether no struct may have this tag, in a source or in C that was written for one. The struct of a VARCHAR has a tag
/// that begins with `varchar_`, so written C may have these. `struct EXEC SQL` would begin an embedded statement.
pub fn is_reserved_tag(written: bool, tag: &[u8]) -> bool
    ensures { result ≡ spec.is_reserved_tag written tag.now }
{
    is_reserved_word(tag)
        || is_function_name(tag)
        || begins_with("ECPG", tag)
        || (!written && begins_with("varchar_", tag))
        || is_raised(tag, b"EXEC")
}
