//! WHENEVER and INCLUDE, and how DECLARE of a cursor begins (PostgreSQL manual, "Error Handling" and "Embedded SQL
//! Commands").

ghost use Rattle.std.specs.Prelude.{◌≡◌, IfOk, codes, map};
ghost use Rattle.ec_clex.specs.Sql.{sql_view};
ghost use Rattle.ec_ctypes.specs.trees.Exprs as tree;
ghost use Rattle.ec_ctypes.specs.views.Embedded.{action_view, emb_kind_view};
ghost use Rattle.ec_ctypes.specs.views.Exprs.{expr_view, exprs_view};
ghost use Rattle.ec_embedded.specs.Directives.{character_in};
ghost use Rattle.ec_language.specs.Constants.{character_value};
ghost use Rattle.ec_language.specs.Productions as c;
ghost use Rattle.ec_references.specs.Readers as parts;
ghost use Rattle.ec_references.specs.Readers.{next_is};
ghost use Rattle.ec_references.specs.States.{CursorReads, seen};
ghost use Rattle.ec_statement_readers.specs.Readers as spec;

use ec_base::{Boxed, List, Name, OutOfMemory};
use ec_clex::SqlToken;
use ec_ctypes::{Action, Cond, EmbKind, Expr};
use ec_embedded::shapes::Failure;
use ec_references::{Class, Cursor, character_of, copy_name, decimal};
use std::alloc::Global;

/// The condition of a WHENEVER.
#[tactic(auto, unfolding(crate::specs::Readers::condition))]
fn condition(cursor: &mut Cursor<'_>) -> Result<Cond, Failure>
    ensures { CursorReads (λ cond. cond) spec.condition cursor.old result cursor.new }
{
    if cursor.at_word(b"SQLERROR") {
        cursor.word(b"SQLERROR")?;
        return Ok(Cond::Error);
    }
    if cursor.at_word(b"SQLWARNING") {
        cursor.word(b"SQLWARNING")?;
        return Ok(Cond::Warning);
    }
    cursor.word(b"NOT")?;
    cursor.word(b"FOUND")?;
    Ok(Cond::NotFound)
}

/// A member of the communication area.
#[tactic(auto, using(ec_ctypes::specs::declared::tree::expr::Expr::the_lemmas))]
fn area_member(alloc: Global, member: &[u8]) -> Result<Expr, OutOfMemory>
    ensures { IfOk result (λ e. expr_view e
        ≡ tree.member (tree.identifier (codes "sqlca")) member.now) }
{
    let area = Name::from_slice(alloc, b"sqlca".as_slice())?;
    let area = Boxed::new(alloc, Expr::Name(area))?;
    Ok(Expr::Member(area, Name::from_slice(alloc, member)?))
}

#[tactic(auto, using(ec_ctypes::specs::declared::tree::expr::Expr::the_lemmas))]
fn identifier(alloc: Global, word: &[u8]) -> Result<Expr, OutOfMemory>
    ensures { IfOk result (λ e. expr_view e ≡ tree.identifier word.now) }
{
    Ok(Expr::Name(Name::from_slice(alloc, word)?))
}

/// What a name means in an expression of C: SQLCODE and SQLSTATE stand for members of the communication area
/// (PostgreSQL manual, 34.8.3).
fn named(alloc: Global, word: &[u8]) -> Result<Expr, OutOfMemory>
    ensures { IfOk result (λ e. expr_view e ≡ (c.named word.now).expression) }
{
    if word == b"SQLCODE".as_slice() {
        return area_member(alloc, b"sqlcode".as_slice());
    }
    if word == b"SQLSTATE".as_slice() {
        return area_member(alloc, b"sqlstate".as_slice());
    }
    identifier(alloc, word)
}

/// The constant that a character is.
#[tactic(auto, using(ec_ctypes::specs::declared::tree::expr::Expr::the_lemmas))]
fn character(token: &SqlToken<'_>) -> Expr
    ensures { expr_view result
        ≡ tree.character (character_in (character_value (sql_view token.now).bytes)) }
{
    match character_of(token.bytes) {
        Some(value) => Expr::Char(value),
        None => Expr::Char(0),
    }
}

/// An argument: a name, a number or a character constant.
#[tactic(auto, unfolding(crate::specs::Readers::argument))]
fn argument(alloc: Global, cursor: &mut Cursor<'_>) -> Result<Expr, Failure>
    ensures { CursorReads expr_view spec.argument cursor.old result cursor.new }
{
    if cursor.at(Class::AnyWord) {
        let token = cursor.take(Class::AnyWord)?;
        return Ok(named(alloc, token.bytes)?);
    }
    if cursor.at(Class::FittingNumber) {
        let token = cursor.fitting_number()?;
        return Ok(decimal(token));
    }
    let token = cursor.take(Class::Character)?;
    Ok(character(token))
}

/// One more argument.
fn further_argument(
    alloc: Global,
    cursor: &mut Cursor<'_>,
    mut values: List<Expr>,
) -> Result<List<Expr>, Failure>
    ensures { CursorReads (map expr_view) (parts.one_further spec.argument (map expr_view values))
        cursor.old result cursor.new }
{
    cursor.sign(b",")?;
    let value = argument(alloc, cursor)?;
    values.push(value)?;
    Ok(values)
}

/// All other arguments.
fn more_arguments(
    alloc: Global,
    cursor: &mut Cursor<'_>,
    mut values: List<Expr>,
) -> Result<List<Expr>, Failure>
    ensures { CursorReads (map expr_view) (parts.further spec.argument (map expr_view values))
        cursor.old result cursor.new }
{
    for _turn in 0..cursor.left() {
        if !cursor.at_sign(b",") {
            return Ok(values);
        }
        values = further_argument(alloc, cursor, values)?;
    }
    Ok(values)
}

/// Whether an argument begins here.
fn begins_argument(cursor: &Cursor<'_>) -> bool
    ensures { result ≡ spec.begins_argument (seen cursor.now).tokens }
{
    cursor.at(Class::AnyWord) || cursor.at(Class::FittingNumber) || cursor.at(Class::Character)
}

/// Arguments, if there are any.
#[tactic(auto, unfolding(crate::specs::Readers::some_arguments))]
fn some_arguments(alloc: Global, cursor: &mut Cursor<'_>) -> Result<List<Expr>, Failure>
    ensures { CursorReads exprs_view spec.some_arguments cursor.old result cursor.new }
{
    if begins_argument(cursor) {
        let first = argument(alloc, cursor)?;
        let mut values = List::new(alloc);
        values.push(first)?;
        return more_arguments(alloc, cursor, values);
    }
    Ok(List::new(alloc))
}

/// Arguments in their parentheses.
#[tactic(auto, unfolding(crate::specs::Readers::arguments))]
fn arguments(alloc: Global, cursor: &mut Cursor<'_>) -> Result<List<Expr>, Failure>
    ensures { CursorReads exprs_view spec.arguments cursor.old result cursor.new }
{
    cursor.sign(b"(")?;
    let values = some_arguments(alloc, cursor)?;
    cursor.sign(b")")?;
    Ok(values)
}

/// The call of the function with this name.
fn call(alloc: Global, cursor: &mut Cursor<'_>, function: &SqlToken<'_>) -> Result<Action, Failure>
    ensures { CursorReads action_view (spec.call (sql_view function.now))
        cursor.old result cursor.new }
{
    let values = arguments(alloc, cursor)?;
    Ok(Action::Call(copy_name(alloc, function)?, values))
}

/// What stands behind DO.
#[tactic(auto, unfolding(crate::specs::Readers::doing))]
fn doing(alloc: Global, cursor: &mut Cursor<'_>) -> Result<Action, Failure>
    ensures { CursorReads action_view spec.doing cursor.old result cursor.new }
{
    if cursor.at_word(b"BREAK") {
        let word = cursor.word(b"BREAK")?;
        if cursor.at_sign(b"(") {
            return call(alloc, cursor, word);
        }
        return Ok(Action::Break);
    }
    if cursor.at_word(b"CONTINUE") {
        let word = cursor.word(b"CONTINUE")?;
        if cursor.at_sign(b"(") {
            return call(alloc, cursor, word);
        }
        return Ok(Action::Next);
    }
    let function = cursor.take(Class::NotBreakOrContinue)?;
    call(alloc, cursor, function)
}

/// GOTO, GO TO, CALL and DO.
#[tactic(auto, unfolding(crate::specs::Readers::long_action))]
fn long_action(alloc: Global, cursor: &mut Cursor<'_>) -> Result<Action, Failure>
    ensures { CursorReads action_view spec.long_action cursor.old result cursor.new }
{
    if cursor.at_word(b"GOTO") {
        cursor.word(b"GOTO")?;
        let label = cursor.take(Class::AnyWord)?;
        return Ok(Action::Goto(copy_name(alloc, label)?));
    }
    if cursor.at_word(b"GO") {
        cursor.word(b"GO")?;
        cursor.word(b"TO")?;
        let label = cursor.take(Class::AnyWord)?;
        return Ok(Action::Goto(copy_name(alloc, label)?));
    }
    if cursor.at_word(b"CALL") {
        cursor.word(b"CALL")?;
        let function = cursor.take(Class::AnyWord)?;
        return call(alloc, cursor, function);
    }
    cursor.word(b"DO")?;
    doing(alloc, cursor)
}

/// The action of a WHENEVER.
#[tactic(auto, unfolding(crate::specs::Readers::action))]
fn action(alloc: Global, cursor: &mut Cursor<'_>) -> Result<Action, Failure>
    ensures { CursorReads action_view spec.action cursor.old result cursor.new }
{
    if cursor.at_word(b"CONTINUE") {
        cursor.word(b"CONTINUE")?;
        return Ok(Action::Continue);
    }
    if cursor.at_word(b"SQLPRINT") {
        cursor.word(b"SQLPRINT")?;
        return Ok(Action::Print);
    }
    if cursor.at_word(b"STOP") {
        cursor.word(b"STOP")?;
        return Ok(Action::Stop);
    }
    long_action(alloc, cursor)
}

/// WHENEVER
#[inline(never)]
#[tactic(auto, unfolding(crate::specs::Readers::setting_handler))]
pub fn whenever(alloc: Global, cursor: &mut Cursor<'_>) -> Result<EmbKind, Failure>
    ensures { CursorReads emb_kind_view spec.setting_handler cursor.old result cursor.new }
{
    cursor.word(b"WHENEVER")?;
    let condition = condition(cursor)?;
    let action = action(alloc, cursor)?;
    Ok(EmbKind::Whenever(condition, action))
}

/// INCLUDE
#[inline(never)]
#[tactic(auto, unfolding(crate::specs::Readers::including))]
pub fn include(cursor: &mut Cursor<'_>) -> Result<EmbKind, Failure>
    ensures { CursorReads emb_kind_view spec.including cursor.old result cursor.new }
{
    cursor.word(b"INCLUDE")?;
    cursor.word(b"sqlca")?;
    Ok(EmbKind::IncludeSqlca)
}

/// How the cursor is scrolled.
#[tactic(auto, unfolding(crate::specs::Readers::some_mode))]
fn some_mode(cursor: &mut Cursor<'_>) -> Result<(), Failure>
    ensures { CursorReads (λ u. tt) spec.some_mode cursor.old result cursor.new }
{
    if cursor.at_word(b"INSENSITIVE") {
        cursor.word(b"INSENSITIVE")?;
        return Ok(());
    }
    if cursor.at_word(b"ASENSITIVE") {
        cursor.word(b"ASENSITIVE")?;
        return Ok(());
    }
    if cursor.at_word(b"SCROLL") {
        cursor.word(b"SCROLL")?;
        return Ok(());
    }
    cursor.word(b"NO")?;
    cursor.word(b"SCROLL")?;
    Ok(())
}

/// Whether this is said.
fn begins_mode(cursor: &Cursor<'_>) -> bool
    ensures { result ≡ spec.begins_mode (seen cursor.now).tokens }
{
    cursor.at_word(b"INSENSITIVE")
        || cursor.at_word(b"ASENSITIVE")
        || cursor.at_word(b"SCROLL")
        || cursor.at_word(b"NO")
}

/// The same, if it is said.
#[tactic(auto, unfolding(crate::specs::Readers::mode))]
fn mode(cursor: &mut Cursor<'_>) -> Result<(), Failure>
    ensures { CursorReads (λ u. tt) spec.mode cursor.old result cursor.new }
{
    if begins_mode(cursor) {
        return some_mode(cursor);
    }
    Ok(())
}

/// WITH or WITHOUT.
fn with_or_without<'a>(cursor: &mut Cursor<'a>) -> Result<&'a SqlToken<'a>, Failure>
    ensures { CursorReads (λ t. sql_view t.now) spec.with_or_without cursor.old result cursor.new }
{
    if cursor.at_word(b"WITH") {
        return cursor.word(b"WITH");
    }
    cursor.word(b"WITHOUT")
}

/// WITH HOLD or WITHOUT HOLD, if it is said.
#[tactic(auto, unfolding(crate::specs::Readers::hold, crate::specs::Readers::some_hold))]
fn hold(cursor: &mut Cursor<'_>) -> Result<(), Failure>
    ensures { CursorReads (λ u. tt) spec.hold cursor.old result cursor.new }
{
    if cursor.at_word(b"WITH") || cursor.at_word(b"WITHOUT") {
        with_or_without(cursor)?;
        cursor.word(b"HOLD")?;
    }
    Ok(())
}

/// DECLARE up to FOR: the name of the cursor.
#[inline(never)]
#[tactic(auto, unfolding(crate::specs::Readers::cursor_head))]
pub fn cursor_head(alloc: Global, cursor: &mut Cursor<'_>) -> Result<Name, Failure>
    ensures { CursorReads (λ name. name) spec.cursor_head cursor.old result cursor.new }
{
    cursor.word(b"DECLARE")?;
    let token = cursor.take(Class::AnyWord)?;
    mode(cursor)?;
    cursor.word(b"CURSOR")?;
    hold(cursor)?;
    cursor.word(b"FOR")?;
    Ok(copy_name(alloc, token)?)
}
