//! References of a statement for the server, each as long as it can be, and the list of an INTO.

ghost use Rattle.std.specs.Prelude.{◌≡◌, map};
ghost use Rattle.ec_clex.specs.Sql.{sql_views};
ghost use Rattle.ec_ctypes.specs.views.Embedded.{host_view, outs_view, text_arg_view};
ghost use Rattle.ec_ctypes.specs.views.Exprs.{expr_option_view, expr_view};
ghost use Rattle.ec_embedded.specs.Terminals.{input, reference};
ghost use Rattle.ec_references.specs.States.{CursorReads};
ghost use Rattle.ec_server_text.specs.Readers as spec;

use crate::lookahead::{begins_area, begins_host, begins_indicator, begins_more, begins_suffix};
use ec_base::{Boxed, List};
use ec_clex::SqlToken;
use ec_ctypes::{Expr, Host, Outs, TextArg};
use ec_embedded::shapes::Failure;
use ec_references::{Class, Cursor, copy_bytes, name, suffix_behind, text_of_host, unquoted};
use std::alloc::Global;

/// All suffixes.
#[inline(always)]
fn long_suffixes(alloc: Global, cursor: &mut Cursor<'_>, mut of: Expr) -> Result<Expr, Failure>
    ensures { CursorReads expr_view (spec.long_suffixes (expr_view of))
        cursor.old result cursor.new }
{
    for _turn in 0..cursor.left() {
        if !begins_suffix(cursor.rest()) {
            return Ok(of);
        }
        of = suffix_behind(alloc, cursor, of)?;
    }
    Ok(of)
}

/// A reference that is no input.
#[tactic(auto, unfolding(crate::specs::Readers::long_reference))]
fn long_reference(alloc: Global, cursor: &mut Cursor<'_>) -> Result<Expr, Failure>
    ensures { CursorReads expr_view (spec.long_reference reference) cursor.old result cursor.new }
{
    cursor.take(Class::Colon)?;
    let token = cursor.take(Class::GluedWord)?;
    let first = name(alloc, token)?;
    long_suffixes(alloc, cursor, first)
}

/// A reference that is an input.
#[tactic(auto, unfolding(crate::specs::Readers::long_reference))]
fn long_input(alloc: Global, cursor: &mut Cursor<'_>) -> Result<Expr, Failure>
    ensures { CursorReads expr_view (spec.long_reference input) cursor.old result cursor.new }
{
    cursor.take(Class::InputColon)?;
    let token = cursor.take(Class::GluedWord)?;
    let first = name(alloc, token)?;
    long_suffixes(alloc, cursor, first)
}

/// The indicator, if there is one.
#[tactic(auto, unfolding(crate::specs::Readers::long_indicator))]
fn long_indicator(alloc: Global, cursor: &mut Cursor<'_>) -> Result<Option<Boxed<Expr>>, Failure>
    ensures { CursorReads expr_option_view spec.long_indicator cursor.old result cursor.new }
{
    if begins_host(cursor.rest()) {
        let value = long_reference(alloc, cursor)?;
        return Ok(Some(Boxed::new(alloc, value)?));
    }
    if begins_indicator(cursor.rest()) {
        cursor.word(b"INDICATOR")?;
        let value = long_reference(alloc, cursor)?;
        return Ok(Some(Boxed::new(alloc, value)?));
    }
    Ok(None)
}

/// Whether an indicator begins here.
#[inline(always)]
fn has_indicator(tokens: &[SqlToken<'_>]) -> bool
    ensures { result ≡ spec.has_indicator (sql_views tokens.now) }
{
    begins_host(tokens) || begins_indicator(tokens)
}

/// A host with its indicator.
#[tactic(auto, unfolding(crate::specs::Readers::long_host))]
pub fn long_host(alloc: Global, cursor: &mut Cursor<'_>) -> Result<Host, Failure>
    ensures { CursorReads host_view (spec.long_host reference) cursor.old result cursor.new }
{
    let value = long_reference(alloc, cursor)?;
    if !has_indicator(cursor.rest()) {
        return Ok(Host {
            value,
            indicator: None,
        });
    }
    let value = Boxed::new(alloc, value)?;
    let indicator = long_indicator(alloc, cursor)?;
    Ok(Host {
        value: value.into_inner(),
        indicator,
    })
}

/// A host that is an input.
#[tactic(auto, unfolding(crate::specs::Readers::long_host))]
pub fn input_host(alloc: Global, cursor: &mut Cursor<'_>) -> Result<Host, Failure>
    ensures { CursorReads host_view (spec.long_host input) cursor.old result cursor.new }
{
    let value = long_input(alloc, cursor)?;
    if !has_indicator(cursor.rest()) {
        return Ok(Host {
            value,
            indicator: None,
        });
    }
    let value = Boxed::new(alloc, value)?;
    let indicator = long_indicator(alloc, cursor)?;
    Ok(Host {
        value: value.into_inner(),
        indicator,
    })
}

/// The name of a descriptor: a word, a quote or a host.
#[tactic(auto, unfolding(crate::specs::Readers::long_text))]
fn long_text(alloc: Global, cursor: &mut Cursor<'_>) -> Result<TextArg, Failure>
    ensures { CursorReads text_arg_view spec.long_text cursor.old result cursor.new }
{
    if cursor.at(Class::AnyWord) {
        let token = cursor.take(Class::AnyWord)?;
        return Ok(TextArg::Word(copy_bytes(alloc, token)?));
    }
    if cursor.at(Class::Quote) {
        let token = cursor.take(Class::Quote)?;
        return Ok(TextArg::Word(unquoted(alloc, token)?));
    }
    let host = long_host(alloc, cursor)?;
    Ok(text_of_host(alloc, host)?)
}

/// One more host of an INTO list.
fn further_host(
    alloc: Global,
    cursor: &mut Cursor<'_>,
    mut hosts: List<Host>,
) -> Result<List<Host>, Failure>
    ensures { CursorReads (map host_view) (spec.further_host (map host_view hosts))
        cursor.old result cursor.new }
{
    cursor.sign(b",")?;
    let host = long_host(alloc, cursor)?;
    hosts.push(host)?;
    Ok(hosts)
}

/// All other hosts.
fn further_hosts(
    alloc: Global,
    cursor: &mut Cursor<'_>,
    mut hosts: List<Host>,
) -> Result<List<Host>, Failure>
    ensures { CursorReads (map host_view) (spec.further_hosts (map host_view hosts))
        cursor.old result cursor.new }
{
    for _turn in 0..cursor.left() {
        if !begins_more(cursor.rest()) {
            return Ok(hosts);
        }
        hosts = further_host(alloc, cursor, hosts)?;
    }
    Ok(hosts)
}

/// A descriptor by its name.
fn long_area(alloc: Global, cursor: &mut Cursor<'_>) -> Result<TextArg, Failure>
    ensures { CursorReads text_arg_view spec.long_area cursor.old result cursor.new }
{
    cursor.word(b"SQL")?;
    cursor.word(b"DESCRIPTOR")?;
    long_text(alloc, cursor)
}

/// What stands behind an INTO: hosts, or a descriptor.
#[tactic(auto, unfolding(crate::specs::Readers::outputs))]
pub fn outputs(alloc: Global, cursor: &mut Cursor<'_>) -> Result<Outs, Failure>
    ensures { CursorReads outs_view spec.outputs cursor.old result cursor.new }
{
    if begins_area(cursor.rest()) {
        return Ok(Outs::Area(long_area(alloc, cursor)?));
    }
    let first = long_host(alloc, cursor)?;
    let mut hosts = List::new(alloc);
    hosts.push(first)?;
    Ok(Outs::Listed(further_hosts(alloc, cursor, hosts)?))
}
