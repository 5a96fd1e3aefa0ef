//! A statement for the server: its tokens as they stand, its hosts as parts, and the list of its INTO.

ghost use Rattle.std.specs.Prelude.{◌≡◌, ◌≤◌, ◌<◌, ◌+◌, ◌^◌, ◌++◌, IfOk, map};
ghost use Rattle.ec_clex.specs.Sql.{sql_view, sql_views};
ghost use Rattle.ec_ctypes.specs.views.Embedded.{emb_kind_view, host_view, outs_view, part_view};
ghost use Rattle.ec_references.specs.States.{CursorReads};
ghost use Rattle.ec_embedded.specs.ServerText.{bytes_in, depth_behind};
ghost use Rattle.ec_server_text.specs.Readers as spec;
ghost use Rattle.ec_server_text.specs.Views.{cutting_view};

use crate::hosts::{input_host, outputs};
use crate::lookahead::{begins_host, begins_into};
use ec_base::{Boxed, Bytes, List, Name, OutOfMemory};
use ec_clex::SqlToken;
use ec_ctypes::{EmbKind, Host, Outs, Part};
use ec_embedded::shapes::Failure;
use ec_references::{Cursor, is_mark};
use std::alloc::Global;

/// What is written so far of a statement for the server.
#[derive(Drop)]
pub struct Cutting {
    /// The parts that are done.
    parts: List<Part>,
    /// The bytes that may go on.
    bytes: Bytes,
    /// Whether nothing was written yet.
    first: bool,
    /// Whether a list was cut out here.
    gap: bool,
    /// The list of the INTO.
    outs: Option<Boxed<Outs>>,
    /// The parentheses that are open.
    depth: u64,
    /// Whether an INTO list may come.
    free: bool,
}

/// The parentheses that are open behind a token.
fn depth_behind(depth: u64, token: &SqlToken<'_>) -> u64
    requires { depth + 1 < 2 ^ 64 }
    ensures is { result ≡ depth_behind depth (sql_view token.now) }
    ensures most { result ≤ depth + 1 }
{
    if is_mark(token, b"(") {
        return depth + 1;
    }
    if is_mark(token, b")") {
        return depth.saturating_sub(1);
    }
    depth
}

/// Puts a blank where a gap stands, but at the start.
#[inline(always)]
fn put_blank(bytes: &mut Bytes, first: bool, gap: bool) -> Result<(), OutOfMemory>
    ensures { IfOk result (λ _. bytes.new ≡ spec.spaced bytes.old first gap) }
{
    if gap && !first {
        bytes.push(b' ')?;
    }
    Ok(())
}

/// Puts the bytes of a token. Half of all tokens have one byte.
#[inline(always)]
fn put_letters(bytes: &mut Bytes, letters: &[u8]) -> Result<(), OutOfMemory>
    ensures { IfOk result (λ _. bytes.new ≡ bytes.old ++ letters.now) }
{
    match letters {
        [only] => bytes.push(*only),
        _ => bytes.extend_from_slice(letters),
    }
}

/// Puts a token as it stands.
#[inline(always)]
fn put_token(cutting: &mut Cutting, token: &SqlToken<'_>) -> Result<(), OutOfMemory>
    requires { cutting.old.depth + 1 < 2 ^ 64 }
    ensures is { IfOk result (λ _. cutting_view cutting.new
        ≡ spec.token_cut (cutting_view cutting.old) (sql_view token.now)) }
    ensures most { IfOk result (λ _. cutting.new.depth ≤ cutting.old.depth + 1) }
{
    put_blank(&mut cutting.bytes, cutting.first, token.gap || cutting.gap)?;
    put_letters(&mut cutting.bytes, token.bytes)?;
    cutting.first = false;
    cutting.gap = false;
    cutting.depth = depth_behind(cutting.depth, token);
    Ok(())
}

/// Puts these bytes behind the parts, if there are any. They take no more memory than they need.
fn put_bytes(alloc: Global, parts: &mut List<Part>, bytes: &[u8]) -> Result<(), OutOfMemory>
    ensures { IfOk result (λ _. map part_view parts.new
        ≡ spec.with_bytes (map part_view parts.old) bytes.now) }
{
    if bytes.is_empty() {
        return Ok(());
    }
    parts.push(Part::Bytes(List::from_slice(alloc, bytes)?))?;
    Ok(())
}

/// Puts a host behind the parts.
fn put_part(parts: &mut List<Part>, host: Boxed<Host>) -> Result<(), OutOfMemory>
    ensures { IfOk result (λ _. map part_view parts.new
        ≡ spec.with_host_part (map part_view parts.old) (host_view host)) }
{
    parts.push(Part::Host(host))?;
    Ok(())
}

/// Puts a host.
fn put_host(
    alloc: Global,
    cutting: &mut Cutting,
    gap: bool,
    host: Boxed<Host>,
) -> Result<(), OutOfMemory>
    ensures is { IfOk result (λ _. cutting_view cutting.new
        ≡ spec.with_host_cut (cutting_view cutting.old) gap (host_view host)) }
    ensures most { IfOk result (λ _. cutting.new.depth ≡ cutting.old.depth) }
{
    put_blank(&mut cutting.bytes, cutting.first, gap || cutting.gap)?;
    put_bytes(alloc, &mut cutting.parts, cutting.bytes.as_slice())?;
    put_part(&mut cutting.parts, host)?;
    cutting.bytes.clear();
    cutting.first = false;
    cutting.gap = false;
    Ok(())
}

/// Cuts the list of an INTO.
#[inline(never)]
fn into_cut(alloc: Global, cursor: &mut Cursor<'_>, cutting: &mut Cutting) -> Result<(), Failure>
    ensures is { CursorReads (λ _. cutting_view cutting.new)
        (spec.into_cut (cutting_view cutting.old)) cursor.old result cursor.new }
    ensures most { IfOk result (λ _. cutting.new.depth ≡ cutting.old.depth) }
{
    cursor.word(b"INTO")?;
    let outs = outputs(alloc, cursor)?;
    let outs = Boxed::new(alloc, outs)?;
    cutting.gap = true;
    cutting.outs = Some(outs);
    cutting.free = false;
    Ok(())
}

/// Cuts a host.
#[inline(never)]
fn host_cut(
    alloc: Global,
    cursor: &mut Cursor<'_>,
    cutting: &mut Cutting,
    gap: bool,
) -> Result<(), Failure>
    ensures is { CursorReads (λ _. cutting_view cutting.new)
        (spec.host_cut (cutting_view cutting.old) gap) cursor.old result cursor.new }
    ensures most { IfOk result (λ _. cutting.new.depth ≡ cutting.old.depth) }
{
    let host = input_host(alloc, cursor)?;
    let host = Boxed::new(alloc, host)?;
    put_host(alloc, cutting, gap, host)?;
    Ok(())
}

/// Whether an INTO list stands here outside parentheses.
#[inline(always)]
fn is_into(depth: u64, tokens: &[SqlToken<'_>]) -> bool
    ensures { result ≡ spec.is_into depth (sql_views tokens.now) }
{
    depth == 0 && begins_into(tokens)
}

/// Cuts what stands next.
#[inline(always)]
#[tactic(auto, unfolding(crate::specs::Readers::one_cut))]
fn one_cut(alloc: Global, cursor: &mut Cursor<'_>, cutting: &mut Cutting) -> Result<(), Failure>
    requires { cutting.old.depth + 1 < 2 ^ 64 }
    ensures is { CursorReads (λ _. cutting_view cutting.new)
        (spec.one_cut (cutting_view cutting.old)) cursor.old result cursor.new }
    ensures most { IfOk result (λ _. cutting.new.depth ≤ cutting.old.depth + 1) }
{
    let tokens = cursor.rest();
    match tokens {
        [token, ..] => {
            if is_into(cutting.depth, tokens) {
                if !cutting.free {
                    return Err(Failure::Dead(tokens.len()));
                }
                return into_cut(alloc, cursor, cutting);
            }
            if begins_host(tokens) {
                return host_cut(alloc, cursor, cutting, token.gap);
            }
            cursor.next();
            put_token(cutting, token)?;
            Ok(())
        }
        [] => Ok(()),
    }
}

/// All cuts.
#[inline(never)]
fn all_cuts(alloc: Global, cursor: &mut Cursor<'_>, cutting: &mut Cutting) -> Result<(), Failure>
    requires { cutting.old.depth ≡ 0 }
    ensures { CursorReads (λ _. cutting_view cutting.new)
        (spec.all_cuts (cutting_view cutting.old)) cursor.old result cursor.new }
{
    for _turn in 0..cursor.left() {
        if cursor.left() == 0 {
            return Ok(());
        }
        one_cut(alloc, cursor, cutting)?;
    }
    Ok(())
}

/// Nothing is written. There is room for the bytes of most statements.
#[inline(always)]
fn cutting_from(alloc: Global, free: bool) -> Result<Cutting, OutOfMemory>
    ensures is { IfOk result (λ cutting. cutting_view cutting ≡ spec.cutting_from free) }
    ensures depth { IfOk result (λ cutting. cutting.depth ≡ 0) }
{
    Ok(Cutting {
        parts: List::new(alloc),
        bytes: List::with_capacity(alloc, 96)?,
        first: true,
        gap: false,
        outs: None,
        depth: 0,
        free,
    })
}

/// The parts, with the bytes that may go on behind them.
#[inline(always)]
fn parts_of(alloc: Global, mut parts: List<Part>, bytes: Bytes) -> Result<List<Part>, OutOfMemory>
    ensures { IfOk result (λ more. map part_view more
        ≡ spec.with_bytes (map part_view parts) bytes) }
{
    put_bytes(alloc, &mut parts, bytes.as_slice())?;
    Ok(parts)
}

/// The statement that is written so.
#[inline(always)]
fn sent_by(alloc: Global, cutting: Cutting) -> Result<EmbKind, OutOfMemory>
    ensures { IfOk result (λ kind. emb_kind_view kind ≡ spec.sent_by (cutting_view cutting)) }
{
    let parts = parts_of(alloc, cutting.parts, cutting.bytes)?;
    Ok(match cutting.outs {
        Some(outs) => EmbKind::Text {
            parts,
            outs: outs.into_inner(),
        },
        None => EmbKind::Text {
            parts,
            outs: Outs::Nothing,
        },
    })
}

/// A statement that passes to the server.
#[inline(never)]
#[tactic(auto, unfolding(crate::specs::Readers::sending))]
pub fn server(alloc: Global, cursor: &mut Cursor<'_>) -> Result<EmbKind, Failure>
    ensures { CursorReads emb_kind_view spec.sending cursor.old result cursor.new }
{
    let mut cutting = cutting_from(alloc, true)?;
    all_cuts(alloc, cursor, &mut cutting)?;
    Ok(sent_by(alloc, cutting)?)
}

/// Takes the next token, which begins no host.
#[tactic(auto, unfolding(crate::specs::Readers::one_plain))]
fn one_plain(cursor: &mut Cursor<'_>, cutting: &mut Cutting) -> Result<(), Failure>
    requires { cutting.old.depth + 1 < 2 ^ 64 }
    ensures is { CursorReads (λ _. cutting_view cutting.new)
        (spec.one_plain (cutting_view cutting.old)) cursor.old result cursor.new }
    ensures most { IfOk result (λ _. cutting.new.depth ≤ cutting.old.depth + 1) }
{
    let tokens = cursor.rest();
    match tokens {
        [token, ..] => {
            if begins_host(tokens) {
                return Err(Failure::Dead(tokens.len()));
            }
            cursor.next();
            put_token(cutting, token)?;
            Ok(())
        }
        [] => Ok(()),
    }
}

/// Takes all tokens.
fn all_plain(cursor: &mut Cursor<'_>, mut cutting: Cutting) -> Result<Cutting, Failure>
    requires { cutting.depth ≡ 0 }
    ensures { CursorReads cutting_view (spec.all_plain (cutting_view cutting))
        cursor.old result cursor.new }
{
    for _turn in 0..cursor.left() {
        if cursor.left() == 0 {
            return Ok(cutting);
        }
        one_plain(cursor, &mut cutting)?;
    }
    Ok(cutting)
}

/// The bytes of the first part.
fn bytes_in(alloc: Global, parts: &List<Part>) -> Result<Bytes, OutOfMemory>
    ensures { IfOk result (λ bytes. bytes ≡ bytes_in (map part_view parts.now)) }
{
    match parts.as_slice() {
        [Part::Bytes(bytes), ..] => List::from_slice(alloc, bytes.as_slice()),
        [Part::Host(_), ..] => Ok(List::new(alloc)),
        [] => Ok(List::new(alloc)),
    }
}

/// The transaction control that is written so. It has no part but its bytes.
#[tactic(auto, using(crate::proofs::Alone::only_bytes))]
fn controlled_by(alloc: Global, cutting: Cutting) -> Result<EmbKind, OutOfMemory>
    ensures { IfOk result (λ kind. emb_kind_view kind ≡ spec.controlled_by (cutting_view cutting)) }
{
    if cutting.parts.is_empty() {
        return Ok(EmbKind::Trans(List::from_slice(alloc, cutting.bytes.as_slice())?));
    }
    let parts = parts_of(alloc, cutting.parts, cutting.bytes)?;
    Ok(EmbKind::Trans(bytes_in(alloc, &parts)?))
}

/// Transaction control.
#[inline(never)]
#[tactic(auto, unfolding(crate::specs::Readers::controlling))]
pub fn transaction(alloc: Global, cursor: &mut Cursor<'_>) -> Result<EmbKind, Failure>
    ensures { CursorReads emb_kind_view spec.controlling cursor.old result cursor.new }
{
    let cutting = cutting_from(alloc, true)?;
    let cutting = all_plain(cursor, cutting)?;
    Ok(controlled_by(alloc, cutting)?)
}

/// The declaration of a cursor that is written so.
fn declared_by(alloc: Global, cutting: Cutting, name: Name) -> Result<EmbKind, OutOfMemory>
    ensures { IfOk result
        (λ kind. emb_kind_view kind ≡ spec.declared_by name (cutting_view cutting)) }
{
    Ok(EmbKind::Declare {
        cursor: name,
        parts: parts_of(alloc, cutting.parts, cutting.bytes)?,
        prepared: None,
    })
}

/// DECLARE of a cursor for a statement, from its first token on. No list is cut out of it.
#[inline(never)]
#[tactic(auto, unfolding(crate::specs::Readers::declaring))]
pub fn declare(alloc: Global, cursor: &mut Cursor<'_>, name: Name) -> Result<EmbKind, Failure>
    ensures { CursorReads emb_kind_view (spec.declaring name) cursor.old result cursor.new }
{
    let mut cutting = cutting_from(alloc, false)?;
    all_cuts(alloc, cursor, &mut cutting)?;
    Ok(declared_by(alloc, cutting, name)?)
}

/// So many cuts at most.
fn cuts_within(
    alloc: Global,
    cursor: &mut Cursor<'_>,
    turns: usize,
    mut cutting: Cutting,
) -> Result<Cutting, Failure>
    requires { cutting.depth ≡ 0 }
    ensures { CursorReads cutting_view (spec.cuts_within turns (cutting_view cutting))
        cursor.old result cursor.new }
{
    for _turn in 0..turns {
        if cursor.left() == 0 {
            return Ok(cutting);
        }
        one_cut(alloc, cursor, &mut cutting)?;
    }
    Ok(cutting)
}

/// The declaration of a cursor for a prepared statement that is written so.
fn prepared_by(
    alloc: Global,
    cutting: Cutting,
    name: Name,
    prepared: Name,
) -> Result<EmbKind, OutOfMemory>
    ensures { IfOk result (λ kind. emb_kind_view kind
        ≡ spec.prepared_by name prepared (cutting_view cutting)) }
{
    let written = parts_of(alloc, cutting.parts, cutting.bytes)?;
    let mut bytes = bytes_in(alloc, &written)?;
    bytes.push(b' ')?;
    let mut parts = List::new(alloc);
    parts.push(Part::Bytes(bytes))?;
    Ok(EmbKind::Declare {
        cursor: name,
        parts,
        prepared: Some(prepared),
    })
}

/// DECLARE of a cursor for a prepared statement, from its first token on: all but the last token, and a blank.
#[inline(never)]
#[tactic(auto, unfolding(crate::specs::Readers::declaring_prepared))]
pub fn declare_prepared(
    alloc: Global,
    cursor: &mut Cursor<'_>,
    name: Name,
    prepared: Name,
) -> Result<EmbKind, Failure>
    ensures { CursorReads emb_kind_view (spec.declaring_prepared name prepared)
        cursor.old result cursor.new }
{
    let turns = cursor.left().saturating_sub(1);
    let cutting = cutting_from(alloc, false)?;
    let cutting = cuts_within(alloc, cursor, turns, cutting)?;
    cursor.go_to(&[]);
    Ok(prepared_by(alloc, cutting, name, prepared)?)
}
