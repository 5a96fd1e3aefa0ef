//! What a token is.

ghost use Rattle.std.specs.Prelude.{◌≡◌, ◌∷◌, [], ◌^◌, ◌==◌, true, nat_lt};
ghost use Rattle.ec_clex.specs.Sql.{sql_view};
ghost use Rattle.ec_embedded.specs.Terminals as spec;
ghost use Rattle.ec_embedded.specs.Terminals.{Begins};
ghost use Rattle.ec_language.specs.Constants as constants;
ghost use Rattle.ec_language.specs.Letters as letters;
ghost use Rattle.ec_references.specs.Readers.{FitsLong};
ghost use Rattle.ec_references.specs.States.{terminal_view};

use crate::class::Class;
use ec_clex::{SqlClass, SqlToken, character, digits_value};
use ec_split::scanning::words::same_word;

/// Whether all bytes are digits.
fn are_digits(text: &[u8]) -> bool
    ensures { result ≡ letters.each letters.is_digit text.now }
{
    for byte in text {
        if !(*byte >= b'0' && *byte <= b'9') {
            return false;
        }
    }
    true
}

/// Whether a value that a long has stands in these digits.
fn fits_long(digits: &[u8]) -> bool
    ensures { result ≡ nat_lt (constants.digits_value 10 digits.now) (2 ^ 63) }
{
    match digits_value(10, digits) {
        Some(value) => value < 1 << 63,
        None => false,
    }
}

/// Whether the text begins with a single quote.
fn begins_single(text: &[u8]) -> bool
    ensures { result ≡ letters.begins (λ c. c == letters.single_quote) text.now }
{
    text.first() == Some(&b'\'')
}

/// Whether the token is this word.
#[inline(always)]
pub fn is_keyword(token: &SqlToken<'_>, word: &[u8]) -> bool
    ensures { result ≡ spec.is (spec.keyword word.now) (sql_view token.now) }
{
    token.class == SqlClass::Word && same_word(word, token.bytes)
}

/// Whether the token is this word, with a gap before it.
pub fn is_parted_word(token: &SqlToken<'_>, word: &[u8]) -> bool
    ensures { result ≡ spec.is (spec.parted_word word.now) (sql_view token.now) }
{
    token.gap && is_keyword(token, word)
}

/// Whether the token is this mark.
#[inline(always)]
pub fn is_mark(token: &SqlToken<'_>, mark: &[u8]) -> bool
    ensures { result ≡ spec.is (spec.sign mark.now) (sql_view token.now) }
{
    token.class == SqlClass::Mark && same_word(mark, token.bytes)
}

/// Whether the token is this mark, with no gap before it.
#[inline(always)]
pub fn is_glued_mark(token: &SqlToken<'_>, mark: &[u8]) -> bool
    ensures suffix { result ≡ spec.is (spec.suffix_sign mark.now) (sql_view token.now) }
    ensures other { result ≡ spec.is (spec.glued_sign mark.now) (sql_view token.now) }
{
    !token.gap && is_mark(token, mark)
}

/// Whether the token is a word.
#[inline(always)]
pub fn is_any_word(token: &SqlToken<'_>) -> bool
    ensures { result ≡ spec.is spec.any_word (sql_view token.now) }
{
    token.class == SqlClass::Word
}

/// Whether the token is a word with no gap before it.
#[inline(always)]
fn is_glued_word(token: &SqlToken<'_>) -> bool
    ensures { result ≡ spec.is spec.glued_word (sql_view token.now) }
{
    !token.gap && token.class == SqlClass::Word
}

/// Whether the token is a number of digits alone.
fn is_whole(token: &SqlToken<'_>) -> bool
    ensures plain { result ≡ spec.is spec.whole_number (sql_view token.now) }
    ensures input { result ≡ spec.is spec.input_number (sql_view token.now) }
{
    token.class == SqlClass::Number && are_digits(token.bytes)
}

/// Whether the token is a number of digits alone, whose value a long has.
pub fn is_fitting(token: &SqlToken<'_>) -> bool
    ensures fits { result ≡ true → FitsLong (sql_view token.now).bytes }
    ensures is { result ≡ spec.is spec.fitting_number (sql_view token.now) }
{
    token.class == SqlClass::Number && are_digits(token.bytes) && fits_long(token.bytes)
}

/// Whether the token is such a number with no gap before it.
pub fn is_glued_fitting(token: &SqlToken<'_>) -> bool
    ensures fits { result ≡ true → FitsLong (sql_view token.now).bytes }
    ensures is { result ≡ spec.is spec.glued_number (sql_view token.now) }
{
    !token.gap
        && token.class == SqlClass::Number
        && are_digits(token.bytes)
        && fits_long(token.bytes)
}

/// Whether the token is a text in `'`.
#[tactic(auto, using(crate::proofs::Quotes::quote_is, crate::proofs::Quotes::input_is))]
fn is_quote(token: &SqlToken<'_>) -> bool
    ensures plain { result ≡ spec.is spec.plain_quote (sql_view token.now) }
    ensures input { result ≡ spec.is spec.input_quote (sql_view token.now) }
{
    token.class == SqlClass::Quoted && begins_single(token.bytes)
}

/// What a text in quotes stands for as a character constant of C.
pub fn character_of(text: &[u8]) -> Option<i8>
    ensures { result ≡ constants.character_value text.now }
{
    if text.len() < 2 {
        return character(&[]);
    }
    character(&text[1..text.len() - 1])
}

/// Whether the token is a character constant of C.
fn is_character(token: &SqlToken<'_>) -> bool
    ensures { result ≡ spec.is spec.character_constant (sql_view token.now) }
{
    token.class == SqlClass::Quoted
        && begins_single(token.bytes)
        && character_of(token.bytes).is_some()
}

/// Whether the token is another word than this.
fn is_other_word(token: &SqlToken<'_>, word: &[u8]) -> bool
    ensures { result ≡ spec.is (spec.word_but word.now) (sql_view token.now) }
{
    token.class == SqlClass::Word && !same_word(word, token.bytes)
}

/// Whether the token is another word than these.
fn is_neither_word(token: &SqlToken<'_>, word: &[u8], other: &[u8]) -> bool
    ensures { result ≡ spec.is (spec.other_word (word.now ∷ other.now ∷ [])) (sql_view token.now) }
{
    token.class == SqlClass::Word && !same_word(word, token.bytes) && !same_word(other, token.bytes)
}

/// Whether what begins here may begin a target that is neither a quote nor a reference.
#[tactic(auto, using(crate::proofs::Quotes::target_is))]
fn is_target_start(token: &SqlToken<'_>) -> bool
    ensures { result ≡ spec.is spec.target_start (sql_view token.now) }
{
    match token.class {
        SqlClass::Word => is_neither_word(token, b"AS", b"USER"),
        SqlClass::Number => true,
        SqlClass::Quoted => !begins_single(token.bytes),
        SqlClass::Mark => !is_mark(token, b":"),
    }
}

/// Whether the token may stand further on in a target.
fn is_target_more(token: &SqlToken<'_>) -> bool
    ensures { result ≡ spec.is spec.target_more (sql_view token.now) }
{
    match token.class {
        SqlClass::Word => is_neither_word(token, b"AS", b"USER"),
        _ => true,
    }
}

/// Whether the token may stand in a target behind a `:` that begins no reference.
fn is_target_behind(token: &SqlToken<'_>) -> bool
    ensures { result ≡ spec.is spec.target_behind (sql_view token.now) }
{
    match token.class {
        SqlClass::Word => token.gap && is_neither_word(token, b"AS", b"USER"),
        _ => true,
    }
}

/// Whether the token is one of the class.
pub fn is_class(token: &SqlToken<'_>, class: Class) -> bool
    ensures { result ≡ spec.is (terminal_view class) (sql_view token.now) }
{
    match class {
        Class::AnyWord => is_any_word(token),
        Class::GluedWord => is_glued_word(token),
        Class::NotTo => is_other_word(token, b"TO"),
        Class::NotImmediate => is_other_word(token, b"IMMEDIATE"),
        Class::NotPrepare => is_other_word(token, b"PREPARE"),
        Class::NotBreakOrContinue => is_neither_word(token, b"BREAK", b"CONTINUE"),
        Class::NotPrepareOrDescriptor => is_neither_word(token, b"PREPARE", b"DESCRIPTOR"),
        Class::GluedNumber => is_glued_fitting(token),
        Class::FittingNumber => is_fitting(token),
        Class::WholeNumber => is_whole(token),
        Class::Quote => is_quote(token),
        Class::Character => is_character(token),
        Class::InputNumber => is_whole(token),
        Class::InputQuote => is_quote(token),
        Class::InputMinus => is_mark(token, b"-"),
        Class::InputColon => is_mark(token, b":"),
        Class::Colon => is_mark(token, b":"),
        Class::TargetStart => is_target_start(token),
        Class::TargetMore => is_target_more(token),
        Class::TargetBehind => is_target_behind(token),
    }
}
