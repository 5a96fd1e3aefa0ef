//! References to host variables (PostgreSQL manual, "Using Host Variables"): a variable with its suffixes, and an indicator.

ghost use Rattle.std.specs.Prelude.{◌≡◌, IfOk};
ghost use Rattle.ec_clex.specs.Sql.{sql_view};
ghost use Rattle.ec_ctypes.specs.trees.Exprs as tree;
ghost use Rattle.ec_ctypes.specs.views.Embedded.{host_view};
ghost use Rattle.ec_ctypes.specs.views.Exprs.{expr_view, expr_option_view};
ghost use Rattle.ec_embedded.specs.References.{decimal_constant};
ghost use Rattle.ec_embedded.specs.Terminals.{input, reference};
ghost use Rattle.ec_references.specs.Readers as spec;
ghost use Rattle.ec_references.specs.States.{CursorReads, seen};

use crate::class::Class;
use crate::cursor::Cursor;
use ec_base::{Boxed, Name, OutOfMemory, beside};
use ec_clex::{SqlToken, digits_value};
use ec_ctypes::{Expr, Host, Ty};
use ec_embedded::shapes::Failure;
use std::alloc::Global;

/// The name that a word is.
pub fn copy_name(alloc: Global, token: &SqlToken<'_>) -> Result<Name, OutOfMemory>
    ensures { IfOk result (λ name. name ≡ (sql_view token.now).bytes) }
{
    Name::from_slice(alloc, token.bytes)
}

/// The variable that a word names.
#[tactic(auto, using(ec_ctypes::specs::declared::tree::expr::Expr::the_lemmas))]
pub fn name(alloc: Global, token: &SqlToken<'_>) -> Result<Expr, OutOfMemory>
    ensures { IfOk result (λ e. expr_view e ≡ tree.identifier (sql_view token.now).bytes) }
{
    Ok(Expr::Name(copy_name(alloc, token)?))
}

#[tactic(auto, using(ec_ctypes::specs::declared::tree::expr::Expr::the_lemmas))]
fn member(alloc: Global, of: Boxed<Expr>, token: &SqlToken<'_>) -> Result<Expr, OutOfMemory>
    ensures { IfOk result
        (λ e. expr_view e ≡ tree.member (expr_view of) (sql_view token.now).bytes) }
{
    Ok(Expr::Member(of, copy_name(alloc, token)?))
}

#[tactic(auto, using(ec_ctypes::specs::declared::tree::expr::Expr::the_lemmas))]
fn arrow(alloc: Global, of: Boxed<Expr>, token: &SqlToken<'_>) -> Result<Expr, OutOfMemory>
    ensures { IfOk result
        (λ e. expr_view e ≡ tree.arrow (expr_view of) (sql_view token.now).bytes) }
{
    Ok(Expr::Arrow(of, copy_name(alloc, token)?))
}

#[tactic(auto, using(ec_ctypes::specs::declared::tree::expr::Expr::the_lemmas))]
fn index(of: Boxed<Expr>, at: Boxed<Expr>) -> Expr
    ensures { expr_view result ≡ tree.index (expr_view of) (expr_view at) }
{
    Expr::Index(of, at)
}

/// An integer constant of this value, of the first type that has it.
#[tactic(auto, using(ec_ctypes::specs::declared::tree::expr::Expr::the_lemmas, ec_ctypes::specs::declared::types::ty::Ty::the_lemmas))]
fn integer(value: u64) -> Expr
    ensures { expr_view result ≡ spec.integer_constant value }
{
    if value < 1 << 31 {
        return Expr::Int(value, Ty::Int);
    }
    Expr::Int(value, Ty::Long)
}

/// The constant that a number is, whose value a long has.
pub fn decimal(token: &SqlToken<'_>) -> Expr
    requires { spec.FitsLong (sql_view token.now).bytes }
    ensures { expr_view result ≡ decimal_constant (sql_view token.now).bytes }
{
    match digits_value(10, token.bytes) {
        Some(value) => integer(value),
        None => integer(0),
    }
}

/// An index: a variable or a number.
fn place(alloc: Global, cursor: &mut Cursor<'_>) -> Result<Boxed<Expr>, Failure>
    ensures { CursorReads expr_view spec.place cursor.old result cursor.new }
{
    if cursor.at(Class::GluedWord) {
        let token = cursor.take(Class::GluedWord)?;
        return Ok(Boxed::new(alloc, name(alloc, token)?)?);
    }
    let token = cursor.glued_number()?;
    Ok(Boxed::new(alloc, decimal(token))?)
}

fn member_behind(alloc: Global, cursor: &mut Cursor<'_>, of: Boxed<Expr>) -> Result<Expr, Failure>
    ensures { CursorReads expr_view (spec.member_behind (expr_view of))
        cursor.old result cursor.new }
{
    cursor.suffix_sign(b".")?;
    let token = cursor.take(Class::GluedWord)?;
    Ok(member(alloc, of, token)?)
}

fn arrow_behind(alloc: Global, cursor: &mut Cursor<'_>, of: Boxed<Expr>) -> Result<Expr, Failure>
    ensures { CursorReads expr_view (spec.arrow_behind (expr_view of))
        cursor.old result cursor.new }
{
    cursor.suffix_sign(b"->")?;
    let token = cursor.take(Class::GluedWord)?;
    Ok(arrow(alloc, of, token)?)
}

fn index_behind(alloc: Global, cursor: &mut Cursor<'_>, of: Boxed<Expr>) -> Result<Expr, Failure>
    ensures { CursorReads expr_view (spec.index_behind (expr_view of))
        cursor.old result cursor.new }
{
    cursor.suffix_sign(b"[")?;
    let at = place(alloc, cursor)?;
    cursor.glued_sign(b"]")?;
    Ok(index(of, at))
}

/// A member, a member of what is pointed to, or an element.
#[tactic(auto, unfolding(crate::specs::Readers::suffix_behind))]
pub fn suffix_behind(alloc: Global, cursor: &mut Cursor<'_>, of: Expr) -> Result<Expr, Failure>
    ensures { CursorReads expr_view (spec.suffix_behind (expr_view of))
        cursor.old result cursor.new }
{
    let of = Boxed::new(alloc, of)?;
    if cursor.at_suffix(b".") {
        return member_behind(alloc, cursor, of);
    }
    if cursor.at_suffix(b"->") {
        return arrow_behind(alloc, cursor, of);
    }
    index_behind(alloc, cursor, of)
}

/// Whether a suffix begins here.
fn begins_suffix(cursor: &Cursor<'_>) -> bool
    ensures { result ≡ spec.begins_suffix (seen cursor.now).tokens }
{
    cursor.at_suffix(b".") || cursor.at_suffix(b"->") || cursor.at_suffix(b"[")
}

/// All suffixes.
fn suffixes_behind(alloc: Global, cursor: &mut Cursor<'_>, mut of: Expr) -> Result<Expr, Failure>
    ensures { CursorReads expr_view (spec.suffixes_behind (expr_view of))
        cursor.old result cursor.new }
{
    for _turn in 0..cursor.left() {
        if !begins_suffix(cursor) {
            return Ok(of);
        }
        of = suffix_behind(alloc, cursor, of)?;
    }
    Ok(of)
}

/// A variable with its suffixes.
#[tactic(auto, unfolding(crate::specs::Readers::named_place))]
pub fn named_place(alloc: Global, cursor: &mut Cursor<'_>) -> Result<Expr, Failure>
    ensures { CursorReads expr_view spec.named_place cursor.old result cursor.new }
{
    let token = cursor.take(Class::GluedWord)?;
    let first = name(alloc, token)?;
    suffixes_behind(alloc, cursor, first)
}

/// A reference to a variable that is no input.
#[tactic(auto, unfolding(crate::specs::Readers::referenced))]
pub fn referenced(alloc: Global, cursor: &mut Cursor<'_>) -> Result<Expr, Failure>
    ensures { CursorReads expr_view (spec.referenced reference) cursor.old result cursor.new }
{
    cursor.take(Class::Colon)?;
    named_place(alloc, cursor)
}

/// A reference that is an input.
#[tactic(auto, unfolding(crate::specs::Readers::referenced))]
pub fn input_reference(alloc: Global, cursor: &mut Cursor<'_>) -> Result<Expr, Failure>
    ensures { CursorReads expr_view (spec.referenced input) cursor.old result cursor.new }
{
    cursor.take(Class::InputColon)?;
    named_place(alloc, cursor)
}

/// The indicator behind the word INDICATOR, if there is one.
#[tactic(auto, unfolding(crate::specs::Readers::spelled_indicator))]
fn spelled_indicator(alloc: Global, cursor: &mut Cursor<'_>) -> Result<Option<Boxed<Expr>>, Failure>
    ensures { CursorReads expr_option_view spec.spelled_indicator cursor.old result cursor.new }
{
    if cursor.at_word(b"INDICATOR") {
        cursor.word(b"INDICATOR")?;
        return Ok(Some(Boxed::new(alloc, referenced(alloc, cursor)?)?));
    }
    Ok(None)
}

/// The indicator, if there is one.
#[tactic(auto, unfolding(crate::specs::Readers::indicator))]
pub fn indicator(alloc: Global, cursor: &mut Cursor<'_>) -> Result<Option<Boxed<Expr>>, Failure>
    ensures { CursorReads expr_option_view spec.indicator cursor.old result cursor.new }
{
    if cursor.at_sign(b":") {
        return Ok(Some(Boxed::new(alloc, referenced(alloc, cursor)?)?));
    }
    spelled_indicator(alloc, cursor)
}

/// A host with its indicator.
#[tactic(auto, unfolding(crate::specs::Readers::hosted))]
pub fn hosted(alloc: Global, cursor: &mut Cursor<'_>) -> Result<Host, Failure>
    ensures { CursorReads host_view (spec.hosted reference) cursor.old result cursor.new }
{
    let value = Boxed::new(alloc, referenced(alloc, cursor)?)?;
    let indicator = indicator(alloc, cursor)?;
    Ok(Host {
        value: value.into_inner(),
        indicator,
    })
}

/// A host that is an input.
#[tactic(auto, unfolding(crate::specs::Readers::hosted))]
pub fn input_host(alloc: Global, cursor: &mut Cursor<'_>) -> Result<Host, Failure>
    ensures { CursorReads host_view (spec.hosted input) cursor.old result cursor.new }
{
    let value = Boxed::new(alloc, input_reference(alloc, cursor)?)?;
    let indicator = indicator(alloc, cursor)?;
    Ok(Host {
        value: value.into_inner(),
        indicator,
    })
}

/// A host whose indicator is spelled.
#[tactic(auto, unfolding(crate::specs::Readers::spelled_host))]
pub fn spelled_host(alloc: Global, cursor: &mut Cursor<'_>) -> Result<Host, Failure>
    ensures { CursorReads host_view (spec.spelled_host reference) cursor.old result cursor.new }
{
    let value = Boxed::new(alloc, referenced(alloc, cursor)?)?;
    let indicator = spelled_indicator(alloc, cursor)?;
    Ok(Host {
        value: value.into_inner(),
        indicator,
    })
}

/// An input whose indicator is spelled.
#[tactic(auto, unfolding(crate::specs::Readers::spelled_host))]
pub fn spelled_input(alloc: Global, cursor: &mut Cursor<'_>) -> Result<Host, Failure>
    ensures { CursorReads host_view (spec.spelled_host input) cursor.old result cursor.new }
{
    let value = Boxed::new(alloc, input_reference(alloc, cursor)?)?;
    let indicator = spelled_indicator(alloc, cursor)?;
    Ok(Host {
        value: value.into_inner(),
        indicator,
    })
}
