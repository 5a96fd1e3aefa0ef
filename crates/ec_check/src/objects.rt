//! Objects that are declared (ISO/IEC 9899:1999, 6.7 and 6.7.5).
#![tactic(auto, using(ec_scopes::proofs::Steps::noting), unfolding(ec_typing_defs::specs::Worlds::chain, ec_typing_defs::specs::Worlds::pure, ec_typing_defs::specs::Worlds::ask, ec_typing_defs::specs::Statements::object_rule))]

ghost use Rattle.std.specs.Prelude.{◌≡◌, true, false};
ghost use Rattle.ec_ctypes.specs.views.Types.{ty_view};
ghost use Rattle.ec_ctypes.specs.views.Exprs.{dims_view, init_option_view, declarator_view};
ghost use Rattle.ec_scopes.specs.Entries.{place_view, type_view};
ghost use Rattle.ec_scopes.specs.Seen.{world_of, IsDone, Does};
ghost use Rattle.ec_typing_defs.specs.Statements as rule;
ghost use Rattle.ec_check.specs.Objects.{object_of, end_object};

use ec_base::OutOfMemory;
use ec_ctypes::{Declarator, Expr, Init, Ty};
use ec_initializers::initializer;
use ec_rules::{complete_rule, copy_type, declared_type, elements_rule, within_rule};
use ec_scopes::{Checker, Entry, Place};
use ec_walk::{last_length, lengths, outer_lengths};

/// The type, or `void` where there is none.
pub fn type_or_void(ty: Option<Ty>) -> Ty
    ensures { ty_view result ≡ rule.type_or_void (type_view ty) }
{
    match ty {
        Some(ty) => ty,
        None => Ty::Void,
    }
}

// Whether this is an array of known elements whose length its initializer tells.
fn waits_for_length(checker: &Checker, has_init: bool, ty: &Ty) -> bool
    ensures { result ≡ rule.waits_for_length has_init (ty_view ty.now) (world_of checker.now) }
{
    match ty {
        Ty::Array(of, 0) => has_init && checker.is_complete(of.get()),
        _ => false,
    }
}

// The type of an object is complete, or its initializer completes it, or F14.
fn object_rule(checker: &mut Checker, at: Place, has_init: bool, ty: Option<Ty>) -> Option<Ty>
    ensures { IsDone (rule.object_rule (place_view at) has_init (type_view ty)
        (world_of checker.old)) checker.old checker.new (type_view result) }
{
    match ty {
        None => None,
        Some(ty) => {
            if waits_for_length(checker, has_init, &ty) {
                Some(ty)
            } else {
                complete_rule(checker, at, Some(ty))
            }
        }
    }
}

// The type of an object behind its initializer, if it has one.
fn initial(
    checker: &mut Checker,
    at: Place,
    is_global: bool,
    ty: Option<Ty>,
    init: &Option<Init>,
) -> Result<Option<Ty>, OutOfMemory>
    ensures { Does type_view (rule.initial (place_view at) is_global (type_view ty)
        (init_option_view init.now) (world_of checker.old)) checker.old result checker.new }
{
    match init {
        None => Ok(ty),
        Some(init) => initializer(checker, at, is_global, ty, init),
    }
}

// The type of a declarator of this type.
fn plain_type(
    checker: &mut Checker,
    at: Place,
    ty: &Option<Ty>,
    stars: u32,
    name: &[u8],
    dims: &[Option<Expr>],
) -> Result<Option<Ty>, OutOfMemory>
    ensures { Does type_view (rule.object_type (place_view at) false (type_view ty.now) stars
        name.now (dims_view dims.now) (world_of checker.old)) checker.old result checker.new }
{
    let sizes = lengths(checker, at, dims)?;
    elements_rule(checker, at, ty, stars, sizes.as_slice());
    let of = copy_type(checker.alloc(), ty)?;
    declared_type(checker.alloc(), of, stars, sizes.as_slice())
}

// The type of a declarator of VARCHARs, which makes a struct of its own (PostgreSQL manual, "VARCHAR").
fn varchar_type(
    checker: &mut Checker,
    at: Place,
    ty: &Option<Ty>,
    stars: u32,
    name: &[u8],
    dims: &[Option<Expr>],
) -> Result<Option<Ty>, OutOfMemory>
    ensures { Does type_view (rule.object_type (place_view at) true (type_view ty.now) stars
        name.now (dims_view dims.now) (world_of checker.old)) checker.old result checker.new }
{
    let length = last_length(checker, at, dims)?;
    let own = checker.varchar_object(at, name, length)?;
    let sizes = outer_lengths(checker, at, dims)?;
    elements_rule(checker, at, &own, stars, sizes.as_slice());
    declared_type(checker.alloc(), own, stars, sizes.as_slice())
}

// The type of a declarator.
fn object_type(
    checker: &mut Checker,
    at: Place,
    is_varchar: bool,
    ty: &Option<Ty>,
    stars: u32,
    name: &[u8],
    dims: &[Option<Expr>],
) -> Result<Option<Ty>, OutOfMemory>
    ensures { Does type_view (rule.object_type (place_view at) is_varchar (type_view ty.now) stars
        name.now (dims_view dims.now) (world_of checker.old)) checker.old result checker.new }
{
    if is_varchar {
        varchar_type(checker, at, ty, stars, name, dims)
    } else {
        plain_type(checker, at, ty, stars, name, dims)
    }
}

// An object of this type: its name is in scope in its own initializer (ISO/IEC 9899:1999, 6.2.1, 7).
fn object_of(
    checker: &mut Checker,
    at: Place,
    is_global: bool,
    whole: Option<Ty>,
    name: &[u8],
    init: &Option<Init>,
) -> Result<(), OutOfMemory>
    ensures { Does (λ u. u) (object_of (place_view at) is_global (type_view whole) name.now
        (init_option_view init.now) (world_of checker.old)) checker.old result checker.new }
{
    within_rule(checker, at, &whole);
    let before = object_rule(checker, at, init.is_some(), whole);
    let number = checker.next_number()?;
    let ty = copy_type(checker.alloc(), &before)?;
    let entry = Entry::Object {
        number,
        is_global,
        ty,
    };
    checker.declare(at, name, entry)?;
    let ty = initial(checker, at, is_global, before, init)?;
    end_object(checker, at, is_global, number, name, ty)
}

// The type of an object is known behind its initializer.
fn end_object(
    checker: &mut Checker,
    at: Place,
    is_global: bool,
    number: u32,
    name: &[u8],
    ty: Option<Ty>,
) -> Result<(), OutOfMemory>
    ensures { Does (λ u. u) (end_object (place_view at) is_global number name.now (type_view ty)
        (world_of checker.old)) checker.old result checker.new }
{
    within_rule(checker, at, &ty);
    let known = copy_type(checker.alloc(), &ty)?;
    let entry = Entry::Object {
        number,
        is_global,
        ty: known,
    };
    checker.know_better(name, entry)?;
    checker.number_as(type_or_void(ty))
}

/// An object, at file level or not, of this base or of a VARCHAR of its own.
#[tactic(auto, using(ec_scopes::proofs::Steps::noting, crate::proofs::Seeing::seeing), unfolding(ec_typing_defs::specs::Worlds::chain, ec_typing_defs::specs::Worlds::pure, ec_typing_defs::specs::Worlds::ask))]
pub fn object_item(
    checker: &mut Checker,
    at: Place,
    is_global: bool,
    is_varchar: bool,
    ty: &Option<Ty>,
    item: &Declarator,
) -> Result<(), OutOfMemory>
    ensures { Does (λ u. u) (rule.object_item (place_view at) is_global is_varchar
        (type_view ty.now) (declarator_view item.now) (world_of checker.old))
        checker.old result checker.new }
{
    let name = item.name.as_slice();
    let whole = object_type(
        checker,
        at,
        is_varchar,
        ty,
        item.stars,
        name,
        item.dims.as_slice(),
    )?;
    object_of(checker, at, is_global, whole, name, &item.init)
}
