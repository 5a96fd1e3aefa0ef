//! Which form the first words decide.

ghost use Rattle.std.specs.Prelude.{◌≡◌, ◌∷◌, []};
ghost use Rattle.ec_clex.specs.Sql.{sql_views};
ghost use Rattle.ec_ctypes.specs.views.Embedded.{emb_kind_view};
ghost use Rattle.ec_embedded.specs.LeftOut.{begin_with};
ghost use Rattle.ec_embedded.specs.Statements.{transaction_words};
ghost use Rattle.ec_embedded.specs.LeftOut as words;
ghost use Rattle.ec_embedded.specs.Terminals.{is_word_among};
ghost use Rattle.ec_references.specs.States.{CursorReads};
ghost use Rattle.ec_read_statement.specs.Deciding as spec;

use ec_base::Name;
use ec_clex::SqlToken;
use ec_ctypes::EmbKind;
use ec_embedded::shapes::Failure;
use ec_references::{Cursor, copy_name, is_any_word, is_keyword};
use ec_server_text::{declare, declare_prepared, server, transaction};
use ec_split::scanning::words::same_word;
use ec_statement_readers::{
    allocate, connect, cursor_head, deallocate, deallocate_at, disconnect, execute, get, include,
    open_cursor, prepare, set, set_autocommit, set_connection, whenever,
};
use std::alloc::Global;

/// Whether this word stands first.
#[inline(always)]
fn begins(tokens: &[SqlToken<'_>], word: &[u8]) -> bool
    ensures first { result ≡ words.is_first word.now (sql_views tokens.now) }
    ensures alone { result ≡ begin_with (word.now ∷ []) (sql_views tokens.now) }
{
    match tokens {
        [first, ..] => is_keyword(first, word),
        [] => false,
    }
}

/// Whether these words stand first.
#[inline(always)]
fn begins_two(tokens: &[SqlToken<'_>], word: &[u8], other: &[u8]) -> bool
    ensures { result ≡ begin_with (word.now ∷ other.now ∷ []) (sql_views tokens.now) }
{
    match tokens {
        [first, rest @ ..] => is_keyword(first, word) && begins(rest, other),
        [] => false,
    }
}

fn is_transaction_word(word: &[u8]) -> bool
    ensures { result ≡ is_word_among transaction_words word.now }
{
    same_word(b"BEGIN", word)
        || same_word(b"START", word)
        || same_word(b"COMMIT", word)
        || same_word(b"END", word)
        || same_word(b"ROLLBACK", word)
        || same_word(b"ABORT", word)
        || same_word(b"SAVEPOINT", word)
        || same_word(b"RELEASE", word)
}

/// Whether transaction control begins here.
fn begins_transaction(tokens: &[SqlToken<'_>]) -> bool
    ensures { result ≡ words.first_is_among transaction_words (sql_views tokens.now) }
{
    match tokens {
        [first, ..] => is_any_word(first) && is_transaction_word(first.bytes),
        [] => false,
    }
}

/// DECLARE of a cursor, from these tokens on, where the cursor stands behind FOR: a word alone is the name of a prepared
/// statement.
#[tactic(auto, unfolding(crate::specs::Deciding::declaring_for))]
fn declared_for<'a>(
    alloc: Global,
    cursor: &mut Cursor<'a>,
    all: &'a [SqlToken<'a>],
    name: Name,
) -> Result<EmbKind, Failure>
    ensures { CursorReads emb_kind_view (spec.declaring_for name (sql_views all.now))
        cursor.old result cursor.new }
{
    let behind = cursor.rest();
    cursor.go_to(all);
    match behind {
        [] => Err(Failure::Dead(0)),
        [only] => {
            if is_any_word(only) {
                let prepared = copy_name(alloc, only)?;
                return declare_prepared(alloc, cursor, name, prepared);
            }
            declare(alloc, cursor, name)
        }
        [_, _, ..] => declare(alloc, cursor, name),
    }
}

/// DECLARE of a cursor.
#[inline(never)]
#[tactic(auto, unfolding(crate::specs::Deciding::declared))]
fn declared(alloc: Global, cursor: &mut Cursor<'_>) -> Result<EmbKind, Failure>
    ensures { CursorReads emb_kind_view spec.declared cursor.old result cursor.new }
{
    let all = cursor.rest();
    let name = cursor_head(alloc, cursor)?;
    declared_for(alloc, cursor, all, name)
}

/// Statements without a form.
#[inline(always)]
#[tactic(auto, unfolding(crate::specs::Deciding::formless))]
fn formless(alloc: Global, cursor: &mut Cursor<'_>) -> Result<EmbKind, Failure>
    ensures { CursorReads emb_kind_view spec.formless cursor.old result cursor.new }
{
    if begins(cursor.rest(), b"DECLARE") {
        return declared(alloc, cursor);
    }
    if begins_transaction(cursor.rest()) {
        return transaction(alloc, cursor);
    }
    server(alloc, cursor)
}

/// The other forms.
#[inline(always)]
#[tactic(auto, unfolding(crate::specs::Deciding::other_forms))]
fn other_forms(alloc: Global, cursor: &mut Cursor<'_>) -> Result<EmbKind, Failure>
    ensures { CursorReads emb_kind_view spec.other_forms cursor.old result cursor.new }
{
    if begins(cursor.rest(), b"PREPARE") {
        return prepare(alloc, cursor);
    }
    if begins(cursor.rest(), b"DEALLOCATE") {
        return deallocate(alloc, cursor);
    }
    if begins(cursor.rest(), b"ALLOCATE") {
        return allocate(alloc, cursor);
    }
    if begins(cursor.rest(), b"GET") {
        return get(alloc, cursor);
    }
    if begins(cursor.rest(), b"WHENEVER") {
        return whenever(alloc, cursor);
    }
    if begins(cursor.rest(), b"INCLUDE") {
        return include(cursor);
    }
    formless(alloc, cursor)
}

/// What is done, where AT doesn't stand before it.
#[inline(always)]
#[tactic(auto, unfolding(crate::specs::Deciding::decided))]
fn decided(alloc: Global, cursor: &mut Cursor<'_>) -> Result<EmbKind, Failure>
    ensures { CursorReads emb_kind_view spec.decided cursor.old result cursor.new }
{
    if begins(cursor.rest(), b"CONNECT") {
        return connect(alloc, cursor);
    }
    if begins_two(cursor.rest(), b"SET", b"CONNECTION") {
        return set_connection(alloc, cursor);
    }
    if begins_two(cursor.rest(), b"SET", b"AUTOCOMMIT") {
        return set_autocommit(cursor);
    }
    if begins_two(cursor.rest(), b"SET", b"DESCRIPTOR") {
        return set(alloc, cursor);
    }
    if begins(cursor.rest(), b"DISCONNECT") {
        return disconnect(alloc, cursor);
    }
    if begins(cursor.rest(), b"OPEN") {
        return open_cursor(alloc, cursor);
    }
    if begins(cursor.rest(), b"EXECUTE") {
        return execute(alloc, cursor);
    }
    other_forms(alloc, cursor)
}

/// AT before a form that one word decides, and that doesn't take it.
fn dead_at_first(cursor: &mut Cursor<'_>) -> Result<EmbKind, Failure>
    ensures { CursorReads emb_kind_view (spec.dead_at_word 0) cursor.old result cursor.new }
{
    Err(Failure::Dead(cursor.left()))
}

/// AT before a form that two words decide, and that doesn't take it.
fn dead_at_second(cursor: &mut Cursor<'_>) -> Result<EmbKind, Failure>
    ensures { CursorReads emb_kind_view (spec.dead_at_word 1) cursor.old result cursor.new }
{
    match cursor.rest() {
        [_, rest @ ..] => Err(Failure::Dead(rest.len())),
        [] => Err(Failure::Dead(0)),
    }
}

/// Statements without a form, behind AT.
#[tactic(auto, unfolding(crate::specs::Deciding::formless_at))]
fn formless_at(alloc: Global, cursor: &mut Cursor<'_>) -> Result<EmbKind, Failure>
    ensures { CursorReads emb_kind_view spec.formless_at cursor.old result cursor.new }
{
    if begins(cursor.rest(), b"DECLARE") {
        return dead_at_first(cursor);
    }
    if begins_transaction(cursor.rest()) {
        return transaction(alloc, cursor);
    }
    server(alloc, cursor)
}

/// The other forms, behind AT.
#[tactic(auto, unfolding(crate::specs::Deciding::other_forms_at))]
fn other_forms_at(alloc: Global, cursor: &mut Cursor<'_>) -> Result<EmbKind, Failure>
    ensures { CursorReads emb_kind_view spec.other_forms_at cursor.old result cursor.new }
{
    if begins(cursor.rest(), b"PREPARE") {
        return prepare(alloc, cursor);
    }
    if begins(cursor.rest(), b"DEALLOCATE") {
        return deallocate_at(alloc, cursor);
    }
    if begins(cursor.rest(), b"ALLOCATE") {
        return dead_at_first(cursor);
    }
    if begins(cursor.rest(), b"GET") {
        return dead_at_first(cursor);
    }
    if begins(cursor.rest(), b"WHENEVER") {
        return dead_at_first(cursor);
    }
    if begins(cursor.rest(), b"INCLUDE") {
        return dead_at_first(cursor);
    }
    formless_at(alloc, cursor)
}

/// What is done, behind AT.
#[inline(never)]
#[tactic(auto, unfolding(crate::specs::Deciding::decided_at))]
fn decided_at(alloc: Global, cursor: &mut Cursor<'_>) -> Result<EmbKind, Failure>
    ensures { CursorReads emb_kind_view spec.decided_at cursor.old result cursor.new }
{
    if begins(cursor.rest(), b"CONNECT") {
        return dead_at_first(cursor);
    }
    if begins_two(cursor.rest(), b"SET", b"CONNECTION") {
        return dead_at_second(cursor);
    }
    if begins_two(cursor.rest(), b"SET", b"AUTOCOMMIT") {
        return set_autocommit(cursor);
    }
    if begins_two(cursor.rest(), b"SET", b"DESCRIPTOR") {
        return dead_at_second(cursor);
    }
    if begins(cursor.rest(), b"DISCONNECT") {
        return dead_at_first(cursor);
    }
    if begins(cursor.rest(), b"OPEN") {
        return open_cursor(alloc, cursor);
    }
    if begins(cursor.rest(), b"EXECUTE") {
        return execute(alloc, cursor);
    }
    other_forms_at(alloc, cursor)
}

fn is_none_left(tokens: &[SqlToken<'_>]) -> bool
    ensures { result ≡ spec.none_left (sql_views tokens.now) }
{
    match tokens {
        [_, ..] => false,
        [] => true,
    }
}

/// What is done; whether AT stands before it.
#[inline(always)]
#[tactic(auto, unfolding(crate::specs::Deciding::any_statement))]
pub fn any_statement(
    alloc: Global,
    cursor: &mut Cursor<'_>,
    is_at: bool,
) -> Result<EmbKind, Failure>
    ensures { CursorReads emb_kind_view (spec.any_statement is_at) cursor.old result cursor.new }
{
    if is_none_left(cursor.rest()) {
        return Err(Failure::Dead(0));
    }
    if is_at {
        return decided_at(alloc, cursor);
    }
    decided(alloc, cursor)
}
