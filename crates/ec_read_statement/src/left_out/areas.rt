//! Statements that name an SQLDA.

ghost use Rattle.std.specs.Prelude.{◌≡◌, false, ◌+◌, ◌≤◌, ◌<◌, ◌^◌};
ghost use Rattle.ec_clex.specs.Sql.{sql_view, sql_views};
ghost use Rattle.ec_embedded.specs.LeftOut as spec;
ghost use Rattle.ec_embedded.specs.ServerText.{depth_behind};
ghost use Rattle.ec_read_statement.specs.left_out.Areas.{has_descriptor, names_area_here, is_insert};

use crate::left_out::words::is_first;
use ec_clex::SqlToken;
use ec_references::{is_keyword, is_mark};

/// The parentheses that are open behind a token.
fn depth_behind(depth: u64, token: &SqlToken<'_>) -> u64
    requires { depth + 1 < 2 ^ 64 }
    ensures is { result ≡ depth_behind depth (sql_view token.now) }
    ensures most { result ≤ depth + 1 }
{
    if is_mark(token, b"(") {
        return depth + 1;
    }
    if is_mark(token, b")") {
        return depth.saturating_sub(1);
    }
    depth
}

/// Whether DESCRIPTOR stands directly behind this token, and names an SQLDA there.
fn names_area_here(
    by_using: bool,
    depth: u64,
    inserts: bool,
    token: &SqlToken<'_>,
    rest: &[SqlToken<'_>],
) -> bool
    ensures { result ≡ names_area_here by_using depth inserts (sql_view token.now)
        (sql_views rest.now) }
{
    is_first(rest, b"DESCRIPTOR")
        && ((depth == 0 && is_keyword(token, b"INTO") && !inserts)
            || (by_using && is_keyword(token, b"USING")))
}

/// Whether the token is INSERT or MERGE.
fn inserts(token: &SqlToken<'_>) -> bool
    ensures { result ≡ is_insert (sql_view token.now) }
{
    is_keyword(token, b"INSERT") || is_keyword(token, b"MERGE")
}

/// Whether the word DESCRIPTOR is one of the tokens. Most statements don't have it.
fn has_descriptor(tokens: &[SqlToken<'_>]) -> bool
    ensures { result ≡ has_descriptor (sql_views tokens.now) }
{
    let mut left = tokens;
    while let [token, rest @ ..] = left {
        if is_keyword(token, b"DESCRIPTOR") {
            return true;
        }
        left = rest;
    }
    false
}

/// Whether an SQLDA is named: DESCRIPTOR directly behind an INTO outside parentheses that isn't that of INSERT or MERGE,
/// or, where it may, behind a USING.
#[tactic(auto, using(crate::proofs::left_out_lemmas::Descriptors::none_named))]
pub fn names_area(by_using: bool, tokens: &[SqlToken<'_>]) -> bool
    ensures { result ≡ spec.names_area by_using 0 false (sql_views tokens.now) }
{
    if !has_descriptor(tokens) {
        return false;
    }
    let mut left = tokens;
    let mut depth = 0u64;
    let mut behind_insert = false;
    while let [token, rest @ ..] = left {
        if names_area_here(by_using, depth, behind_insert, token, rest) {
            return true;
        }
        depth = depth_behind(depth, token);
        behind_insert = inserts(token);
        left = rest;
    }
    false
}
