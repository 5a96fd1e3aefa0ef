//! Punctuation marks (ISO/IEC 9899:1999, 6.4.6).
ghost use Rattle.std.specs.Prelude.{◌≡◌, ◌+◌, ◌≤◌, ◌<◌, ◌^◌, length, drop, option_map, IfSome};
ghost use Rattle.ec_language.specs.ReadTokens as read;
ghost use Rattle.ec_clex.specs.Marks as marks;

use ec_ctypes::Punct;
use ec_split::scanning::bytes::byte_at;

/// A mark of C text.
#[derive(Clone, Copy)]
pub struct Mark {
    /// `None` where it is left out.
    pub punct: Option<Punct>,
    /// How many bytes it has.
    pub len: usize,
}

/// A mark of so many bytes.
fn of(punct: Punct, len: usize) -> Option<Mark>
    ensures { result ≡ marks.of punct len }
{
    Some(Mark {
        punct: Some(punct),
        len,
    })
}

/// A mark of one byte, or of two where `=` stands behind it.
fn assigning(text: &[u8], behind: usize, alone: Punct, assigns: Punct) -> Option<Mark>
    requires { behind ≤ length text.now }
    ensures is { result ≡ marks.assigning (drop behind text.now) alone assigns }
    ensures within { IfSome result (λ mark. (1 ≤ mark.len)
        × (behind + mark.len ≤ length text.now + 1)) }
{
    if byte_at(text, behind, b'=') {
        of(assigns, 2)
    } else {
        of(alone, 1)
    }
}

/// A mark of one byte, or of two where the byte stands twice or `=` stands behind it.
fn doubling(
    text: &[u8],
    behind: usize,
    byte: u8,
    alone: Punct,
    twice: Punct,
    assigns: Punct,
) -> Option<Mark>
    requires { behind ≤ length text.now }
    ensures is { result ≡ marks.doubling (drop behind text.now) byte alone twice assigns }
    ensures within { IfSome result (λ mark. (1 ≤ mark.len)
        × (behind + mark.len ≤ length text.now + 1)) }
{
    if byte_at(text, behind, byte) {
        of(twice, 2)
    } else {
        assigning(text, behind, alone, assigns)
    }
}

/// The marks that begin with `<` or `>`.
fn shifting(
    text: &[u8],
    behind: usize,
    byte: u8,
    alone: Punct,
    equal: Punct,
    shift: Punct,
    assigns: Punct,
) -> Option<Mark>
    requires { behind ≤ length text.now }
    ensures is { result ≡ marks.shifting (drop behind text.now) byte alone equal shift assigns }
    ensures within { IfSome result (λ mark. (1 ≤ mark.len)
        × (behind + mark.len ≤ length text.now + 1)) }
{
    if !byte_at(text, behind, byte) {
        assigning(text, behind, alone, equal)
    } else if byte_at(text, behind + 1, b'=') {
        of(assigns, 3)
    } else {
        of(shift, 2)
    }
}

/// The marks that begin with `-`.
fn minus(text: &[u8], behind: usize) -> Option<Mark>
    requires { behind ≤ length text.now }
    ensures is { result ≡ marks.minus (drop behind text.now) }
    ensures within { IfSome result (λ mark. (1 ≤ mark.len)
        × (behind + mark.len ≤ length text.now + 1)) }
{
    if byte_at(text, behind, b'>') {
        of(Punct::Arrow, 2)
    } else {
        doubling(
            text,
            behind,
            b'-',
            Punct::Minus,
            Punct::MinusMinus,
            Punct::MinusAssign,
        )
    }
}

/// The marks that begin with a point.
fn point(text: &[u8], behind: usize) -> Option<Mark>
    requires { behind ≤ length text.now }
    ensures is { result ≡ marks.point (drop behind text.now) }
    ensures within { IfSome result (λ mark. (1 ≤ mark.len)
        × (behind + mark.len ≤ length text.now + 1)) }
{
    if !byte_at(text, behind, b'.') {
        of(Punct::Dot, 1)
    } else if byte_at(text, behind + 1, b'.') {
        Some(Mark {
            punct: None,
            len: 3,
        })
    } else {
        of(Punct::Dot, 1)
    }
}

/// The marks that nothing makes longer.
fn lonely(byte: u8) -> Option<Mark>
    ensures is { result ≡ marks.lonely byte }
    ensures one { IfSome result (λ mark. mark.len ≡ 1) }
{
    match byte {
        b'(' => of(Punct::LeftParen, 1),
        b')' => of(Punct::RightParen, 1),
        b'[' => of(Punct::LeftBracket, 1),
        b']' => of(Punct::RightBracket, 1),
        b'{' => of(Punct::LeftBrace, 1),
        b'}' => of(Punct::RightBrace, 1),
        b';' => of(Punct::Semicolon, 1),
        b',' => of(Punct::Comma, 1),
        b'~' => of(Punct::Tilde, 1),
        b':' => of(Punct::Colon, 1),
        b'?' => Some(Mark {
            punct: None,
            len: 1,
        }),
        _ => None,
    }
}

/// The marks that go on with `=` alone, or with nothing.
fn compared(byte: u8, text: &[u8], behind: usize) -> Option<Mark>
    requires { behind ≤ length text.now }
    ensures is { result ≡ marks.compared byte (drop behind text.now) }
    ensures within { IfSome result (λ mark. (1 ≤ mark.len)
        × (behind + mark.len ≤ length text.now + 1)) }
{
    match byte {
        b'=' => assigning(text, behind, Punct::Assign, Punct::EqualEqual),
        b'!' => assigning(text, behind, Punct::Not, Punct::NotEqual),
        b'*' => assigning(text, behind, Punct::Star, Punct::StarAssign),
        b'/' => assigning(text, behind, Punct::Slash, Punct::SlashAssign),
        b'%' => assigning(text, behind, Punct::Percent, Punct::PercentAssign),
        b'^' => assigning(text, behind, Punct::Caret, Punct::CaretAssign),
        _ => lonely(byte),
    }
}

/// The longest mark that begins with the byte, and goes on at the index.
fn mark_of(byte: u8, text: &[u8], behind: usize) -> Option<Mark>
    requires { behind ≤ length text.now }
    ensures is { result ≡ marks.mark_of byte (drop behind text.now) }
    ensures within { IfSome result (λ mark. (1 ≤ mark.len)
        × (behind + mark.len ≤ length text.now + 1)) }
{
    match byte {
        b'-' => minus(text, behind),
        b'.' => point(text, behind),
        b'<' => shifting(
            text,
            behind,
            b'<',
            Punct::Less,
            Punct::LessEqual,
            Punct::Shl,
            Punct::ShlAssign,
        ),
        b'>' => shifting(
            text,
            behind,
            b'>',
            Punct::Greater,
            Punct::GreaterEqual,
            Punct::Shr,
            Punct::ShrAssign,
        ),
        b'+' => doubling(
            text,
            behind,
            b'+',
            Punct::Plus,
            Punct::PlusPlus,
            Punct::PlusAssign,
        ),
        b'&' => doubling(
            text,
            behind,
            b'&',
            Punct::And,
            Punct::AndAnd,
            Punct::AndAssign,
        ),
        b'|' => doubling(text, behind, b'|', Punct::Or, Punct::OrOr, Punct::OrAssign),
        _ => compared(byte, text, behind),
    }
}

/// The longest mark that stands at the index.
pub fn mark_at(text: &[u8], at: usize) -> Option<Mark>
    requires { at < length text.now }
    ensures is { option_map (marks.mark_view (drop at text.now)) result
        ≡ read.mark_end 3 (drop at text.now) }
    ensures within { IfSome result (λ mark. (1 ≤ mark.len) × (at + mark.len ≤ length text.now)) }
{
    mark_of(text[at], text, at + 1)
}
