//! Declarations (ISO/IEC 9899:1999, 6.7).
#![tactic(auto, unfolding(ec_resolving_defs::specs::Storage::chain, ec_resolving_defs::specs::Storage::pure, ec_resolving_defs::specs::Storage::checks, ec_resolving_defs::specs::Storage::ask))]

ghost use Rattle.std.specs.Prelude.{◌≡◌, ◌++◌, OnOk};
ghost use Rattle.ec_ctypes.specs.trees.Exprs.{no_declarators};
ghost use Rattle.ec_ctypes.specs.views.Exprs.{base_view, decl_view, declarators_view};
ghost use Rattle.ec_resolve_forms.specs.Seen.{from, Reaches};
ghost use Rattle.ec_resolving_defs.specs.Statements as rule;
ghost use Rattle.ec_scopes.specs.Entries.{place_view, type_view};
ghost use Rattle.ec_scopes.specs.Seen.{world_of, Does};
ghost use Rattle.ec_typing_defs.specs.Expressions as expressions;
ghost use Rattle.ec_typing_defs.specs.Statements as checked;
ghost use Rattle.ec_resolve_parts.specs.Made.{listed_view, made_view};

use crate::objects::object_item;
use ec_base::{Boxed, List, OutOfMemory};
use ec_code::Statement;
use ec_ctypes::{Base, Decl, Declarator, Ty};
use ec_resolve_expressions::base;
use ec_resolve_forms::Resolver;
use ec_scopes::{Checker, Place};

/// Whether this is the type of a VARCHAR.
#[tactic(auto, using(ec_ctypes::specs::declared::tree::decl::Base::the_lemmas))]
fn is_varchar(b: &Base) -> bool
    ensures { result ≡ expressions.is_varchar (base_view b.now) }
{
    matches!(b, Base::Varchar)
}

/// Adds the statement of an object, if it has one.
fn add_made(
    statements: &mut List<Statement>,
    made: Option<Boxed<Statement>>,
) -> Result<(), OutOfMemory>
    ensures { OnOk result (listed_view statements.new
        ≡ listed_view statements.old ++ made_view made) }
{
    match made {
        Some(s) => statements.push(s.into_inner()),
        None => Ok(()),
    }
}

/// Objects of this type, or VARCHARs.
fn object_items(
    resolver: &mut Resolver,
    at: Place,
    is_global: bool,
    is_varchar: bool,
    ty: &Option<Ty>,
    items: &[Declarator],
) -> Result<List<Statement>, OutOfMemory>
    ensures { Reaches listed_view
        (from (rule.object_items (place_view at) is_global is_varchar (type_view ty.now)
        (declarators_view items.now)) resolver.old)
        result resolver.new }
{
    let mut statements = List::new(resolver.checker.alloc());
    for item in items {
        let made = object_item(resolver, at, is_global, is_varchar, ty, item)?;
        add_made(&mut statements, made)?;
    }
    Ok(statements)
}

/// A tag alone declares a struct, unless this scope has it (ISO/IEC 9899:1999, 6.7.2.3, 7).
#[tactic(auto, using(ec_scopes::proofs::Steps::noting), unfolding(ec_typing_defs::specs::Worlds::chain, ec_typing_defs::specs::Worlds::pure, ec_typing_defs::specs::Worlds::ask, ec_typing_defs::specs::Statements::tag_alone))]
fn tag_alone(checker: &mut Checker, at: Place, tag: &[u8]) -> Result<Option<Ty>, OutOfMemory>
    ensures { Does type_view (checked.tag_alone (place_view at) tag.now (world_of checker.old))
        checker.old result checker.new }
{
    checker.free_tag(at, tag);
    match checker.tag_here(tag) {
        None => {
            let _number = checker.tagged_struct(tag, false)?;
            Ok(None)
        }
        Some(_) => Ok(None),
    }
}

/// What a declaration without declarators begins with.
fn specifier_alone(resolver: &mut Resolver, at: Place, b: &Base) -> Result<Option<Ty>, OutOfMemory>
    ensures { Reaches type_view
        (from (rule.specifier (place_view at) (base_view b.now) no_declarators) resolver.old)
        result resolver.new }
{
    match b {
        Base::Tag(tag) => {
            let ty = tag_alone(&mut resolver.checker, at, tag.as_slice())?;
            Ok(ty)
        }
        Base::Words(_) => base(resolver, at, b),
        Base::Varchar => base(resolver, at, b),
        Base::Struct(_, _) => base(resolver, at, b),
    }
}

/// The type that a declaration begins with.
fn specifier(
    resolver: &mut Resolver,
    at: Place,
    b: &Base,
    items: &[Declarator],
) -> Result<Option<Ty>, OutOfMemory>
    ensures { Reaches type_view
        (from (rule.specifier (place_view at) (base_view b.now) (declarators_view items.now))
        resolver.old)
        result resolver.new }
{
    match items {
        [] => specifier_alone(resolver, at, b),
        [_, ..] => base(resolver, at, b),
    }
}

/// The statements of a declaration of objects or of a struct, at file level or not: an object of a function has one, and a
/// global none, since its bytes are there when the program begins (ISO/IEC 9899:1999, 6.7).
#[tactic(auto, using(ec_walk::proofs::Trees::seeing), unfolding(ec_resolving_defs::specs::Storage::chain, ec_resolving_defs::specs::Storage::pure, ec_resolving_defs::specs::Storage::checks, ec_resolving_defs::specs::Storage::ask))]
pub fn declaration(
    resolver: &mut Resolver,
    is_global: bool,
    d: &Decl,
) -> Result<List<Statement>, OutOfMemory>
    ensures { Reaches listed_view
        (from (rule.declaration is_global (decl_view d.now)) resolver.old)
        result resolver.new }
{
    let at = resolver.checker.place(d.line)?;
    let items = d.items.as_slice();
    let ty = specifier(resolver, at, &d.base, items)?;
    object_items(resolver, at, is_global, is_varchar(&d.base), &ty, items)
}
