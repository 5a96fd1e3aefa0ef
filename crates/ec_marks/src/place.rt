//! Where a byte stands among the words, quotes and comments of SQL (PostgreSQL manual, 4.1, Lexical Structure).

ghost use Rattle.std.specs.Prelude.{◌≡◌};
ghost use Rattle.ec_marks.specs.Steps as rule;
ghost use Rattle.ec_marks.specs.Views.{place_view};

/// Where a byte stands.
#[derive(Clone, Copy, Debug, PartialEq, Eq)]
pub(crate) enum Place {
    /// Between words.
    Between,
    /// Behind the word `E`, which makes a quote behind it one with backslashes.
    BehindE,
    /// In another word.
    InWord,
    InNumber,
    /// In a quote that ends at this byte.
    Quoted(u8),
    /// In a quote with backslashes.
    Escaped,
    /// In a comment to the end of the line.
    Dashed,
    /// In a comment that lies in so many others.
    Commented(u64),
}

fn is_letter(byte: u8) -> bool
    ensures { result ≡ rule.is_letter byte }
{
    (65 <= byte && byte <= 90) || (97 <= byte && byte <= 122)
}

fn is_digit(byte: u8) -> bool
    ensures { result ≡ rule.is_digit byte }
{
    48 <= byte && byte <= 57
}

/// Whether a word begins with the byte: a letter, `_`, or a byte above 127.
fn begins_word(byte: u8) -> bool
    ensures { result ≡ rule.begins_word byte }
{
    is_letter(byte) || byte == b'_' || 127 < byte
}

fn goes_on_word(byte: u8) -> bool
    ensures { result ≡ rule.goes_on_word byte }
{
    begins_word(byte) || is_digit(byte) || byte == b'$'
}

fn goes_on_number(byte: u8) -> bool
    ensures { result ≡ rule.goes_on_number byte }
{
    is_letter(byte) || is_digit(byte) || byte == b'_' || byte == b'.'
}

/// Whether a number begins with the byte: a digit, or a dot before one.
fn begins_number(byte: u8, next: u8) -> bool
    ensures { result ≡ rule.begins_number byte next }
{
    is_digit(byte) || (byte == b'.' && is_digit(next))
}

/// Behind a byte that begins something of its own.
fn after_first(byte: u8, next: u8) -> Place
    ensures { place_view result ≡ rule.after_first byte next }
{
    if byte == b'E' || byte == b'e' {
        return Place::BehindE;
    }
    if begins_word(byte) {
        return Place::InWord;
    }
    if begins_number(byte, next) {
        return Place::InNumber;
    }
    if byte == b'\'' || byte == b'"' {
        return Place::Quoted(byte);
    }
    Place::Between
}

/// Behind a byte that stands directly behind the word `E`.
fn after_e(byte: u8, next: u8) -> Place
    ensures { place_view result ≡ rule.after_e byte next }
{
    if byte == b'\'' {
        return Place::Escaped;
    }
    if goes_on_word(byte) {
        return Place::InWord;
    }
    after_first(byte, next)
}

fn after_word(byte: u8, next: u8) -> Place
    ensures { place_view result ≡ rule.after_word byte next }
{
    if goes_on_word(byte) {
        return Place::InWord;
    }
    after_first(byte, next)
}

fn after_number(byte: u8, next: u8) -> Place
    ensures { place_view result ≡ rule.after_number byte next }
{
    if goes_on_number(byte) {
        return Place::InNumber;
    }
    after_first(byte, next)
}

/// Where the next byte stands, behind a byte that is outside quotes and comments.
pub(crate) fn behind(place: Place, byte: u8, next: u8) -> Place
    ensures { place_view result ≡ rule.behind (place_view place) byte next }
{
    match place {
        Place::Between => after_first(byte, next),
        Place::BehindE => after_e(byte, next),
        Place::InWord => after_word(byte, next),
        Place::InNumber => after_number(byte, next),
        Place::Quoted(_) | Place::Escaped | Place::Dashed | Place::Commented(_) => place,
    }
}
