//! Declarations (ISO/IEC 9899:1999, 6.7).
#![tactic(auto, using(ec_scopes::proofs::Steps::noting), unfolding(ec_typing_defs::specs::Worlds::chain, ec_typing_defs::specs::Worlds::pure, ec_typing_defs::specs::Worlds::ask, ec_typing_defs::specs::Statements::tag_alone))]

ghost use Rattle.std.specs.Prelude.{◌≡◌};
ghost use Rattle.ec_ctypes.specs.trees.Exprs.{no_declarators};
ghost use Rattle.ec_ctypes.specs.views.Exprs.{base_view, decl_view, declarators_view};
ghost use Rattle.ec_scopes.specs.Entries.{place_view, type_view};
ghost use Rattle.ec_scopes.specs.Seen.{world_of, Does};
ghost use Rattle.ec_typing_defs.specs.Expressions as expressions;
ghost use Rattle.ec_typing_defs.specs.Statements as rule;

use crate::objects::object_item;
use ec_base::OutOfMemory;
use ec_ctypes::{Base, Decl, Declarator, Ty};
use ec_scopes::{Checker, Place};
use ec_walk::base;

fn is_varchar(b: &Base) -> bool
    ensures { result ≡ expressions.is_varchar (base_view b.now) }
{
    matches!(b, Base::Varchar)
}

// Objects of this type, or VARCHARs.
fn object_items(
    checker: &mut Checker,
    at: Place,
    is_global: bool,
    is_varchar: bool,
    ty: &Option<Ty>,
    items: &[Declarator],
) -> Result<(), OutOfMemory>
    ensures { Does (λ u. u) (rule.object_items (place_view at) is_global is_varchar
        (type_view ty.now) (declarators_view items.now) (world_of checker.old))
        checker.old result checker.new }
{
    for item in items {
        object_item(checker, at, is_global, is_varchar, ty, item)?;
    }
    Ok(())
}

// A tag alone declares a struct, unless this scope has it (ISO/IEC 9899:1999, 6.7.2.3, 7).
fn tag_alone(checker: &mut Checker, at: Place, tag: &[u8]) -> Result<Option<Ty>, OutOfMemory>
    ensures { Does type_view (rule.tag_alone (place_view at) tag.now (world_of checker.old))
        checker.old result checker.new }
{
    checker.free_tag(at, tag);
    match checker.tag_here(tag) {
        None => {
            let _number = checker.tagged_struct(tag, false)?;
            Ok(None)
        }
        Some(_) => Ok(None),
    }
}

// What a declaration without declarators begins with.
fn specifier_alone(checker: &mut Checker, at: Place, b: &Base) -> Result<Option<Ty>, OutOfMemory>
    ensures { Does type_view (rule.specifier (place_view at) (base_view b.now) no_declarators
        (world_of checker.old)) checker.old result checker.new }
{
    match b {
        Base::Tag(tag) => tag_alone(checker, at, tag.as_slice()),
        Base::Words(_) => base(checker, at, b),
        Base::Varchar => base(checker, at, b),
        Base::Struct(_, _) => base(checker, at, b),
    }
}

// The type that a declaration begins with.
fn specifier(
    checker: &mut Checker,
    at: Place,
    b: &Base,
    items: &[Declarator],
) -> Result<Option<Ty>, OutOfMemory>
    ensures { Does type_view (rule.specifier (place_view at) (base_view b.now)
        (declarators_view items.now) (world_of checker.old)) checker.old result checker.new }
{
    match items {
        [] => specifier_alone(checker, at, b),
        [_, ..] => base(checker, at, b),
    }
}

/// A declaration of objects or of a struct, at file level or not.
#[tactic(auto, using(ec_scopes::proofs::Steps::noting, crate::proofs::Seeing::seeing), unfolding(ec_typing_defs::specs::Worlds::chain, ec_typing_defs::specs::Worlds::pure, ec_typing_defs::specs::Worlds::ask))]
pub fn declaration(checker: &mut Checker, is_global: bool, d: &Decl) -> Result<(), OutOfMemory>
    ensures { Does (λ u. u) (rule.declaration is_global (decl_view d.now) (world_of checker.old))
        checker.old result checker.new }
{
    let at = checker.place(d.line)?;
    let items = d.items.as_slice();
    let ty = specifier(checker, at, &d.base, items)?;
    object_items(checker, at, is_global, is_varchar(&d.base), &ty, items)
}
