//! Statements on prepared statements and cursors (PostgreSQL manual, "Dynamic SQL" and "Using Cursors").

ghost use Rattle.std.specs.Prelude.{◌≡◌};
ghost use Rattle.ec_clex.specs.Sql.{sql_view};
ghost use Rattle.ec_ctypes.specs.views.Embedded.{emb_kind_view, outs_view};
ghost use Rattle.ec_references.specs.States.{CursorReads};
ghost use Rattle.ec_statement_readers.specs.Readers as spec;

use ec_base::{Boxed, List, Name};
use ec_clex::SqlToken;
use ec_ctypes::{EmbKind, Ins, Outs};
use ec_embedded::shapes::Failure;
use ec_references::{
    Class, Cursor, begins_text, copy_name, inputs, outputs, quote_or_host, text_argument,
    using_or_none,
};
use std::alloc::Global;

/// PREPARE
#[inline(never)]
#[tactic(auto, unfolding(crate::specs::Readers::preparing))]
pub fn prepare(alloc: Global, cursor: &mut Cursor<'_>) -> Result<EmbKind, Failure>
    ensures { CursorReads emb_kind_view spec.preparing cursor.old result cursor.new }
{
    cursor.word(b"PREPARE")?;
    let token = cursor.take(Class::AnyWord)?;
    let name = copy_name(alloc, token)?;
    cursor.word(b"FROM")?;
    let text = quote_or_host(alloc, cursor)?;
    Ok(EmbKind::Prepare { name, text })
}

/// INTO with its list, or nothing.
#[tactic(auto, unfolding(crate::specs::Readers::into_or_none))]
fn into_or_none(alloc: Global, cursor: &mut Cursor<'_>) -> Result<Boxed<Outs>, Failure>
    ensures { CursorReads outs_view spec.into_or_none cursor.old result cursor.new }
{
    if cursor.at_word(b"INTO") {
        cursor.word(b"INTO")?;
        let outs = outputs(alloc, cursor)?;
        return Ok(Boxed::new(alloc, outs)?);
    }
    Ok(Boxed::new(alloc, Outs::Nothing)?)
}

/// INTO and USING, each once at most, in either order.
#[tactic(auto, unfolding(crate::specs::Readers::lists_of))]
fn lists_of(alloc: Global, cursor: &mut Cursor<'_>, name: Name) -> Result<EmbKind, Failure>
    ensures { CursorReads emb_kind_view (spec.lists_of name) cursor.old result cursor.new }
{
    if cursor.at_word(b"INTO") {
        cursor.word(b"INTO")?;
        let outs = outputs(alloc, cursor)?;
        let outs = Boxed::new(alloc, outs)?;
        let ins = using_or_none(alloc, cursor)?;
        return Ok(EmbKind::Execute { name, ins, outs });
    }
    if cursor.at_word(b"USING") {
        cursor.word(b"USING")?;
        let ins = inputs(alloc, cursor)?;
        let ins = Boxed::new(alloc, ins)?;
        let outs = into_or_none(alloc, cursor)?;
        return Ok(EmbKind::Execute {
            name,
            ins: ins.into_inner(),
            outs,
        });
    }
    let outs = Boxed::new(alloc, Outs::Nothing)?;
    Ok(EmbKind::Execute {
        name,
        ins: Ins::Listed(List::new(alloc)),
        outs,
    })
}

/// A text behind IMMEDIATE, or the lists of the statement that has this name.
#[tactic(auto, unfolding(crate::specs::Readers::text_or_lists))]
fn text_or_lists(
    alloc: Global,
    cursor: &mut Cursor<'_>,
    immediate: &SqlToken<'_>,
) -> Result<EmbKind, Failure>
    ensures { CursorReads emb_kind_view (spec.text_or_lists (sql_view immediate.now))
        cursor.old result cursor.new }
{
    if cursor.at(Class::Quote) || cursor.at(Class::Colon) {
        return Ok(EmbKind::Immediate(quote_or_host(alloc, cursor)?));
    }
    let name = copy_name(alloc, immediate)?;
    lists_of(alloc, cursor, name)
}

/// EXECUTE
#[inline(never)]
#[tactic(auto, unfolding(crate::specs::Readers::executing))]
pub fn execute(alloc: Global, cursor: &mut Cursor<'_>) -> Result<EmbKind, Failure>
    ensures { CursorReads emb_kind_view spec.executing cursor.old result cursor.new }
{
    cursor.word(b"EXECUTE")?;
    if cursor.at_word(b"IMMEDIATE") {
        let immediate = cursor.word(b"IMMEDIATE")?;
        return text_or_lists(alloc, cursor, immediate);
    }
    let token = cursor.take(Class::NotImmediate)?;
    let name = copy_name(alloc, token)?;
    lists_of(alloc, cursor, name)
}

/// The name of a prepared statement, or the word before it.
#[tactic(auto, unfolding(crate::specs::Readers::name_or_word))]
fn name_or_word(
    alloc: Global,
    cursor: &mut Cursor<'_>,
    word: &SqlToken<'_>,
) -> Result<EmbKind, Failure>
    ensures { CursorReads emb_kind_view (spec.name_or_word (sql_view word.now))
        cursor.old result cursor.new }
{
    if cursor.at(Class::AnyWord) {
        let token = cursor.take(Class::AnyWord)?;
        return Ok(EmbKind::Deallocate(copy_name(alloc, token)?));
    }
    Ok(EmbKind::Deallocate(copy_name(alloc, word)?))
}

/// A descriptor, or the word before it as the name of a prepared statement.
#[tactic(auto, unfolding(crate::specs::Readers::area_or_word))]
fn area_or_word(
    alloc: Global,
    cursor: &mut Cursor<'_>,
    word: &SqlToken<'_>,
) -> Result<EmbKind, Failure>
    ensures { CursorReads emb_kind_view (spec.area_or_word (sql_view word.now))
        cursor.old result cursor.new }
{
    if begins_text(cursor) {
        return Ok(EmbKind::Free(text_argument(alloc, cursor)?));
    }
    Ok(EmbKind::Deallocate(copy_name(alloc, word)?))
}

/// DEALLOCATE
#[inline(never)]
#[tactic(auto, unfolding(crate::specs::Readers::deallocating))]
pub fn deallocate(alloc: Global, cursor: &mut Cursor<'_>) -> Result<EmbKind, Failure>
    ensures { CursorReads emb_kind_view spec.deallocating cursor.old result cursor.new }
{
    cursor.word(b"DEALLOCATE")?;
    if cursor.at_word(b"PREPARE") {
        let word = cursor.word(b"PREPARE")?;
        return name_or_word(alloc, cursor, word);
    }
    if cursor.at_word(b"DESCRIPTOR") {
        let word = cursor.word(b"DESCRIPTOR")?;
        return area_or_word(alloc, cursor, word);
    }
    let token = cursor.take(Class::NotPrepareOrDescriptor)?;
    Ok(EmbKind::Deallocate(copy_name(alloc, token)?))
}

/// DEALLOCATE behind AT, where descriptors have no place.
#[inline(never)]
#[tactic(auto, unfolding(crate::specs::Readers::deallocating_at))]
pub fn deallocate_at(alloc: Global, cursor: &mut Cursor<'_>) -> Result<EmbKind, Failure>
    ensures { CursorReads emb_kind_view spec.deallocating_at cursor.old result cursor.new }
{
    cursor.word(b"DEALLOCATE")?;
    if cursor.at_word(b"PREPARE") {
        let word = cursor.word(b"PREPARE")?;
        return name_or_word(alloc, cursor, word);
    }
    let token = cursor.take(Class::NotPrepare)?;
    Ok(EmbKind::Deallocate(copy_name(alloc, token)?))
}

/// OPEN
#[inline(never)]
#[tactic(auto, unfolding(crate::specs::Readers::opening))]
pub fn open_cursor(alloc: Global, cursor: &mut Cursor<'_>) -> Result<EmbKind, Failure>
    ensures { CursorReads emb_kind_view spec.opening cursor.old result cursor.new }
{
    cursor.word(b"OPEN")?;
    let token = cursor.take(Class::AnyWord)?;
    let name = copy_name(alloc, token)?;
    let ins = using_or_none(alloc, cursor)?;
    Ok(EmbKind::OpenCursor { cursor: name, ins })
}
