//! What begins with the next tokens.

ghost use Rattle.std.specs.Prelude.{◌≡◌, ◌&&◌, not};
ghost use Rattle.ec_clex.specs.Sql.{sql_view, sql_views};
ghost use Rattle.ec_embedded.specs.ServerText as text;
ghost use Rattle.ec_embedded.specs.Terminals.{is, whole_number};
ghost use Rattle.ec_server_text.specs.Readers as spec;

use ec_clex::SqlToken;
use ec_references::{Class, is_class, is_glued_mark, is_keyword, is_mark};

/// Whether a `:` stands directly before a word.
#[inline(always)]
pub fn begins_host(tokens: &[SqlToken<'_>]) -> bool
    ensures { result ≡ text.begins_host (sql_views tokens.now) }
{
    match tokens {
        [colon, word, ..] => is_mark(colon, b":") && is_class(word, Class::GluedWord),
        [_] => false,
        [] => false,
    }
}

/// Whether the word INDICATOR stands before a host.
#[inline(always)]
pub fn begins_indicator(tokens: &[SqlToken<'_>]) -> bool
    ensures { result ≡ text.begins_indicator (sql_views tokens.now) }
{
    match tokens {
        [word, rest @ ..] => is_keyword(word, b"INDICATOR") && begins_host(rest),
        [] => false,
    }
}

/// Whether a descriptor is named.
pub fn begins_area(tokens: &[SqlToken<'_>]) -> bool
    ensures { result ≡ text.begins_area (sql_views tokens.now) }
{
    match tokens {
        [first, second, ..] => is_keyword(first, b"SQL") && is_keyword(second, b"DESCRIPTOR"),
        [_] => false,
        [] => false,
    }
}

/// Whether an INTO stands before a host or a descriptor.
#[inline(always)]
pub fn begins_into(tokens: &[SqlToken<'_>]) -> bool
    ensures { result ≡ text.begins_into (sql_views tokens.now) }
{
    match tokens {
        [word, rest @ ..] => is_keyword(word, b"INTO") && (begins_host(rest) || begins_area(rest)),
        [] => false,
    }
}

/// Whether a comma stands before a host.
#[inline(always)]
pub fn begins_more(tokens: &[SqlToken<'_>]) -> bool
    ensures { result ≡ text.begins_more (sql_views tokens.now) }
{
    match tokens {
        [comma, rest @ ..] => is_mark(comma, b",") && begins_host(rest),
        [] => false,
    }
}

/// A `.` and a word.
#[inline(always)]
fn is_member(first: &SqlToken<'_>, second: &SqlToken<'_>) -> bool
    ensures { result ≡ text.is_member (sql_view first.now) (sql_view second.now) }
{
    is_glued_mark(first, b".") && is_class(second, Class::GluedWord)
}

/// A `->` and a word.
#[inline(always)]
fn is_arrow(first: &SqlToken<'_>, second: &SqlToken<'_>) -> bool
    ensures { result ≡ text.is_arrow (sql_view first.now) (sql_view second.now) }
{
    is_glued_mark(first, b"->") && is_class(second, Class::GluedWord)
}

/// A number of any value, with no gap before it.
#[inline(always)]
fn is_glued_whole(token: &SqlToken<'_>) -> bool
    ensures { result ≡ (is whole_number (sql_view token.now) && not token.now.gap) }
{
    is_class(token, Class::WholeNumber) && !token.gap
}

/// A `[`, a word or a number of any value, and a `]`.
#[inline(always)]
fn is_index(first: &SqlToken<'_>, second: &SqlToken<'_>, third: &SqlToken<'_>) -> bool
    ensures { result ≡ text.is_index (sql_view first.now) (sql_view second.now)
        (sql_view third.now) }
{
    is_glued_mark(first, b"[")
        && (is_class(second, Class::GluedWord) || is_glued_whole(second))
        && is_glued_mark(third, b"]")
}

/// Whether a whole suffix begins here.
#[inline(always)]
pub fn begins_suffix(tokens: &[SqlToken<'_>]) -> bool
    ensures { result ≡ spec.begins_suffix (sql_views tokens.now) }
{
    match tokens {
        [first, second, third, ..] => {
            is_member(first, second) || is_arrow(first, second) || is_index(first, second, third)
        }
        [first, second] => is_member(first, second) || is_arrow(first, second),
        [_] => false,
        [] => false,
    }
}
