//! Declarations and functions at the top level, and whole programs (ISO/IEC 9899:1999, 6.9).

ghost use Rattle.std.specs.Prelude.{◌≡◌};
ghost use Rattle.ec_ctypes.specs.trees.Exprs.{declarator};
ghost use Rattle.ec_ctypes.specs.views.Exprs.{base_view, decl_view, declarator_view, dims_of, init_of, declarators_of};
ghost use Rattle.ec_ctypes.specs.views.Units.{top_view, unit_view};
ghost use Rattle.ec_grammar.specs.ReadStatements as spec;
ghost use Rattle.ec_language.specs.Productions.{declared};
ghost use Rattle.ec_language.specs.Syntax.{limits};
ghost use Rattle.ec_cursor.specs.Parts.{start_view, each_declarator, each_length, init_option};
ghost use Rattle.ec_cursor.specs.States.{Reading};
ghost use Rattle.ec_csyntax.specs.Arms.{item_of};
ghost use Rattle.ec_csyntax.specs.declared.forms.TopForm.TheVariants as forms;
ghost use Rattle.ec_csyntax.specs.Tops as tops;
ghost use Rattle.ec_csyntax.specs.Tops.{top_inner, top_deeper, object_declarators, named, named_function, named_object, tail, nameless, with_name};
ghost use Rattle.ec_csyntax.specs.Views.{block_option, each_top};

use crate::forms::{TopForm, top_form};
use crate::nested::nested_block;
use crate::texts::embedded_number;
use ec_base::{Boxed, List, Name, beside};
use ec_cparts::{initializer_option, lengths, more_declarators, parameter_part, specifiers, stars};
use ec_ctypes::{Base, Decl, Declarator, Expr, Func, Init, Punct, Stmt, Top, Unit};
use ec_cursor::{Cursor, Start, begins_item, copy_name, copy_text, list_of};
use ec_grammar::{Failure, Kind};
use std::alloc::Global;

/// How many levels of nesting there may be round a token.
const MAX_NESTING: u32 = 64;

/// The body of a function, or the semicolon behind its declaration.
#[tactic(auto, unfolding(ec_grammar::specs::ReadStatements::body))]
fn body(alloc: Global, cursor: &mut Cursor<'_>) -> Result<Option<List<Stmt>>, Failure>
    ensures { Reading block_option (spec.body limits top_inner top_deeper)
        cursor.old result cursor.new }
{
    match cursor.peek() {
        Kind::Mark(Punct::Semicolon) => {
            cursor.expect(Kind::Mark(Punct::Semicolon))?;
            Ok(None)
        }
        Kind::Mark(Punct::LeftBrace) => {
            let items = nested_block(alloc, cursor, MAX_NESTING)?;
            Ok(Some(items))
        }
        _ => Err(cursor.refuse()),
    }
}

/// A declaration of these declarators that begins at `start`.
#[tactic(auto, using(crate::proofs::Trees::declarations))]
fn declaration_of(start: Start, base: Base, items: List<Declarator>) -> Decl
    ensures { decl_view result
        ≡ declared (start_view start) (base_view base) (declarators_of (each_declarator items)) }
{
    Decl {
        base,
        items,
        section: start.section,
        line: start.line,
    }
}

/// A declarator with these parts.
#[tactic(auto, using(crate::proofs::Trees::declarations))]
fn declarator_of(stars: u32, name: Name, dims: List<Option<Expr>>, init: Option<Init>) -> Declarator
    ensures { declarator_view result
        ≡ declarator stars name (dims_of (each_length dims)) (init_of (init_option init)) }
{
    Declarator {
        stars,
        name,
        dims,
        init,
    }
}

/// The parameters and the body of a function (ISO/IEC 9899:1999, 6.9.1).
#[tactic(auto, unfolding(crate::specs::Tops::named_function))]
fn function(
    alloc: Global,
    cursor: &mut Cursor<'_>,
    start: Start,
    base: Base,
    stars: u32,
    name: Name,
) -> Result<Top, Failure>
    ensures { Reading top_view (named_function (start_view start) (base_view base) stars name)
        cursor.old result cursor.new }
{
    let kept = beside((base, name), parameter_part(alloc, cursor, MAX_NESTING))?;
    let (((base, name), params), body) = beside(kept, body(alloc, cursor))?;
    let function = Func {
        base,
        stars,
        name,
        params,
        body,
        section: start.section,
        line: start.line,
    };
    Ok(Top::Func(Boxed::new(alloc, function)?))
}

/// The declarator of an object, and further ones (ISO/IEC 9899:1999, 6.9.2).
#[tactic(auto, using(crate::proofs::Externals::declarators_front), unfolding(crate::specs::Tops::object_declarators))]
fn declarators(
    alloc: Global,
    cursor: &mut Cursor<'_>,
    stars: u32,
    name: Name,
) -> Result<List<Declarator>, Failure>
    ensures { Reading each_declarator (object_declarators stars name) cursor.old result cursor.new }
{
    let kept = beside(name, lengths(alloc, cursor, MAX_NESTING))?;
    let ((name, dims), init) = beside(kept, initializer_option(alloc, cursor, MAX_NESTING))?;
    let found = list_of(alloc, declarator_of(stars, name, dims, init))?;
    more_declarators(alloc, cursor, MAX_NESTING, found)
}

/// The rest of a declaration of objects (ISO/IEC 9899:1999, 6.9.2).
#[tactic(auto, unfolding(crate::specs::Tops::named_object))]
fn object(
    alloc: Global,
    cursor: &mut Cursor<'_>,
    start: Start,
    base: Base,
    stars: u32,
    name: Name,
) -> Result<Top, Failure>
    ensures { Reading top_view (named_object (start_view start) (base_view base) stars name)
        cursor.old result cursor.new }
{
    let kept = beside(base, declarators(alloc, cursor, stars, name))?;
    let ((base, items), _mark) = beside(kept, cursor.expect(Kind::Mark(Punct::Semicolon)))?;
    Ok(Top::Decl(declaration_of(start, base, items)))
}

/// What stands behind the name of a declaration or function.
#[tactic(auto, using(crate::proofs::Externals::names))]
fn behind_name(
    alloc: Global,
    cursor: &mut Cursor<'_>,
    start: Start,
    base: Base,
    stars: u32,
    name: Name,
) -> Result<Top, Failure>
    ensures { Reading top_view (named (start_view start) (base_view base) stars name)
        cursor.old result cursor.new }
{
    if cursor.sees(Kind::Mark(Punct::LeftParen)) {
        function(alloc, cursor, start, base, stars, name)
    } else {
        object(alloc, cursor, start, base, stars, name)
    }
}

/// The semicolon behind a base that declares no name.
#[tactic(auto, unfolding(crate::specs::Tops::nameless))]
fn nameless(
    alloc: Global,
    cursor: &mut Cursor<'_>,
    start: Start,
    base: Base,
) -> Result<Top, Failure>
    ensures { Reading top_view (nameless (start_view start) (base_view base))
        cursor.old result cursor.new }
{
    let (base, _mark) = beside(base, cursor.expect(Kind::Mark(Punct::Semicolon)))?;
    Ok(Top::Decl(declaration_of(start, base, List::new(alloc))))
}

/// A name behind a base, and what stands behind it.
#[tactic(auto, unfolding(crate::specs::Tops::with_name))]
fn with_name(
    alloc: Global,
    cursor: &mut Cursor<'_>,
    start: Start,
    base: Base,
) -> Result<Top, Failure>
    ensures { Reading top_view (with_name (start_view start) (base_view base))
        cursor.old result cursor.new }
{
    let (base, stars) = beside(base, stars(cursor))?;
    let (base, token) = beside(base, cursor.expect(Kind::Name))?;
    let (base, name) = beside(base, copy_name(alloc, &token.tok))?;
    behind_name(alloc, cursor, start, base, stars, name)
}

/// What stands behind the base of a declaration or function.
#[tactic(auto, using(crate::proofs::Externals::tails))]
fn external_tail(
    alloc: Global,
    cursor: &mut Cursor<'_>,
    start: Start,
    base: Base,
) -> Result<Top, Failure>
    ensures { Reading top_view (tail (start_view start) (base_view base))
        cursor.old result cursor.new }
{
    if cursor.sees(Kind::Mark(Punct::Semicolon)) {
        nameless(alloc, cursor, start, base)
    } else {
        with_name(alloc, cursor, start, base)
    }
}

/// A declaration or a function that begins at `start` (ISO/IEC 9899:1999, 6.9).
fn external(alloc: Global, cursor: &mut Cursor<'_>, start: Start) -> Result<Top, Failure>
    ensures { Reading top_view (spec.external limits top_inner top_deeper (start_view start))
        cursor.old result cursor.new }
{
    let base = specifiers(alloc, cursor, MAX_NESTING)?;
    let outside = cursor.begin_declarator();
    let top = external_tail(alloc, cursor, start, base)?;
    cursor.end_declarator(outside);
    Ok(top)
}

/// An `#include` line.
#[tactic(auto, unfolding(crate::specs::Arms::item_of))]
fn include(alloc: Global, cursor: &mut Cursor<'_>) -> Result<Top, Failure>
    ensures { (start : _) → Reading top_view (item_of start forms.Include)
        cursor.old result cursor.new }
{
    let token = cursor.expect(Kind::Include)?;
    Ok(Top::Include(copy_text(alloc, &token.tok)?))
}

/// A directive.
#[tactic(auto, unfolding(crate::specs::Arms::item_of))]
fn directive(cursor: &mut Cursor<'_>) -> Result<Top, Failure>
    ensures { (start : _) → Reading top_view (item_of start forms.Directive)
        cursor.old result cursor.new }
{
    let token = cursor.expect(Kind::Directive)?;
    Ok(Top::Directive(embedded_number(token)))
}

/// The start of a declare section.
#[tactic(auto, unfolding(crate::specs::Arms::item_of))]
fn opening(cursor: &mut Cursor<'_>, start: Start) -> Result<Top, Failure>
    ensures { Reading top_view (item_of (start_view start) forms.Opening)
        cursor.old result cursor.new }
{
    cursor.expect(Kind::Opening)?;
    Ok(Top::Mark(true, start.line))
}

/// The end of a declare section.
#[tactic(auto, unfolding(crate::specs::Arms::item_of))]
fn closing(cursor: &mut Cursor<'_>, start: Start) -> Result<Top, Failure>
    ensures { Reading top_view (item_of (start_view start) forms.Closing)
        cursor.old result cursor.new }
{
    cursor.expect(Kind::Closing)?;
    Ok(Top::Mark(false, start.line))
}

/// A declaration or a function behind `static` (ISO/IEC 9899:1999, 6.7.1).
#[tactic(auto, unfolding(crate::specs::Arms::item_of))]
fn behind_static(alloc: Global, cursor: &mut Cursor<'_>, start: Start) -> Result<Top, Failure>
    ensures { Reading top_view (item_of (start_view start) forms.Static)
        cursor.old result cursor.new }
{
    cursor.expect(Kind::Static)?;
    external(alloc, cursor, start)
}

/// What stands at the top level, of this form.
#[tactic(auto, using(crate::proofs::FormSteps::item_external))]
fn item_of(
    alloc: Global,
    cursor: &mut Cursor<'_>,
    start: Start,
    form: TopForm,
) -> Result<Top, Failure>
    ensures { Reading top_view (item_of (start_view start) form) cursor.old result cursor.new }
{
    match form {
        TopForm::Include => include(alloc, cursor),
        TopForm::Directive => directive(cursor),
        TopForm::Opening => opening(cursor, start),
        TopForm::Closing => closing(cursor, start),
        TopForm::Static => behind_static(alloc, cursor, start),
        TopForm::External => external(alloc, cursor, start),
    }
}

/// What stands at the top level.
#[tactic(auto, using(crate::proofs::FormSteps::item_goes))]
fn item(alloc: Global, cursor: &mut Cursor<'_>) -> Result<Top, Failure>
    ensures { Reading top_view (spec.item limits top_inner top_deeper)
        cursor.old result cursor.new }
{
    let start = cursor.start();
    let form = top_form(cursor.peek());
    item_of(alloc, cursor, start, form)
}

/// All that stands at the top level.
fn items(alloc: Global, cursor: &mut Cursor<'_>) -> Result<List<Top>, Failure>
    ensures { Reading each_top (spec.items limits top_inner top_deeper)
        cursor.old result cursor.new }
{
    let mut found = List::new(alloc);
    for _turn in 0..cursor.left() {
        if !begins_item(cursor.peek()) {
            return Ok(found);
        }
        found.push(item(alloc, cursor)?)?;
    }
    Ok(found)
}

/// A program (ISO/IEC 9899:1999, 6.9).
#[tactic(auto, unfolding(ec_grammar::specs::ReadStatements::unit))]
pub fn unit(alloc: Global, cursor: &mut Cursor<'_>) -> Result<Unit, Failure>
    ensures { Reading unit_view (spec.unit limits top_inner top_deeper)
        cursor.old result cursor.new }
{
    let tops = items(alloc, cursor)?;
    let token = cursor.expect(Kind::End)?;
    Ok(Unit {
        tops,
        embs: List::new(alloc),
        last: token.line,
    })
}
