//! A step through a text that is prepared.

ghost use Rattle.std.specs.Prelude.{◌≡◌, ◌+◌, ◌<◌, ◌^◌, length};
ghost use Rattle.ec_marks.specs.Steps as rule;
ghost use Rattle.ec_marks.specs.Views.{place_view, step_view};

use crate::place::{Place, behind};

/// What is taken of a text, and where the byte behind it stands.
#[derive(Clone, Copy, Debug, PartialEq, Eq)]
pub(crate) enum Step {
    /// A mark, behind which nothing goes on.
    Mark,
    /// A byte as it stands.
    One(Place),
    /// A byte and this one behind it, as they stand.
    Two(u8, Place),
}

/// A byte in a quote.
fn quoted(quote: u8, byte: u8) -> Step
    ensures { step_view result ≡ rule.quoted_step quote byte }
{
    if byte == quote {
        return Step::One(Place::Between);
    }
    Step::One(Place::Quoted(quote))
}

/// A byte in a quote with backslashes: a backslash and a doubled quote take the next byte with them.
fn escaped(byte: u8, more: &[u8]) -> Step
    ensures { step_view result ≡ rule.escaped_step byte more.now }
{
    let [next, ..] = more else {
        return Step::One(Place::Escaped);
    };
    if byte == b'\\' || (byte == b'\'' && *next == b'\'') {
        return Step::Two(*next, Place::Escaped);
    }
    if byte == b'\'' {
        return Step::One(Place::Between);
    }
    Step::One(Place::Escaped)
}

/// A byte in a comment to the end of the line.
fn dashed(byte: u8) -> Step
    ensures { step_view result ≡ rule.dashed_step byte }
{
    if byte == b'\n' {
        return Step::One(Place::Between);
    }
    Step::One(Place::Dashed)
}

/// Behind a comment that lay in so many others.
fn outside(deep: u64) -> Place
    ensures { place_view result ≡ rule.outside deep }
{
    if deep == 0 {
        return Place::Between;
    }
    Place::Commented(deep - 1)
}

/// A byte in a comment.
fn commented(deep: u64, byte: u8, more: &[u8]) -> Step
    requires { deep + length more.now < 2 ^ 64 }
    ensures { step_view result ≡ rule.commented_step deep byte more.now }
{
    let [next, ..] = more else {
        return Step::One(Place::Commented(deep));
    };
    if byte == b'/' && *next == b'*' {
        return Step::Two(*next, Place::Commented(deep + 1));
    }
    if byte == b'*' && *next == b'/' {
        return Step::Two(*next, outside(deep));
    }
    Step::One(Place::Commented(deep))
}

/// A byte outside quotes and comments.
fn plain(place: Place, byte: u8, more: &[u8]) -> Step
    ensures { step_view result ≡ rule.plain_step (place_view place) byte more.now }
{
    if byte == b'?' {
        return Step::Mark;
    }
    let [next, ..] = more else {
        return Step::One(Place::Between);
    };
    if byte == b'/' && *next == b'*' {
        return Step::Two(*next, Place::Commented(0));
    }
    if byte == b'-' && *next == b'-' {
        return Step::Two(*next, Place::Dashed);
    }
    Step::One(behind(place, byte, *next))
}

/// The step from a byte, before these.
pub(crate) fn step_from(place: Place, byte: u8, more: &[u8]) -> Step
    requires { rule.depth (place_view place) + length more.now < 2 ^ 64 }
    ensures { step_view result ≡ rule.step (place_view place) byte more.now }
{
    match place {
        Place::Quoted(quote) => quoted(quote, byte),
        Place::Escaped => escaped(byte, more),
        Place::Dashed => dashed(byte),
        Place::Commented(deep) => commented(deep, byte, more),
        Place::Between | Place::BehindE | Place::InWord | Place::InNumber => {
            plain(place, byte, more)
        }
    }
}
