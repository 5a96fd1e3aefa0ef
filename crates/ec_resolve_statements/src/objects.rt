//! Objects that are declared (ISO/IEC 9899:1999, 6.7 and 6.7.5).
#![tactic(auto, unfolding(ec_resolving_defs::specs::Storage::chain, ec_resolving_defs::specs::Storage::pure, ec_resolving_defs::specs::Storage::checks, ec_resolving_defs::specs::Storage::ask, ec_resolving_defs::specs::Storage::stored, ec_resolving_defs::specs::Storage::arrange))]

ghost use Rattle.std.specs.Prelude.{◌≡◌, [], IfOk, true, false, map};
ghost use Rattle.ec_code.specs.Objects.{stored_view};
ghost use Rattle.ec_code.specs.Views.{statement_view};
ghost use Rattle.ec_ctypes.specs.views.Types.{ty_view};
ghost use Rattle.ec_ctypes.specs.views.Exprs.{dims_view, init_option_view, declarator_view};
ghost use Rattle.ec_resolve_forms.specs.Seen.{from, Reaches};
ghost use Rattle.ec_resolve_statements.specs.Filled.{initialized_view};
ghost use Rattle.ec_resolve_values.specs.initial_parts.Parts.{parts_view};
ghost use Rattle.ec_resolving_defs.specs.Statements as rule;
ghost use Rattle.ec_resolving_defs.specs.Storage as where_is;
ghost use Rattle.ec_scopes.specs.Entries.{place_view, type_view};
ghost use Rattle.ec_scopes.specs.Seen.{world_of, IsDone};
ghost use Rattle.ec_resolve_values.specs.storage.Stored.{site_view};
ghost use Rattle.ec_typing_defs.specs.Statements as checked;
ghost use Rattle.ec_resolve_statements.specs.Begun.{begun_view};
ghost use Rattle.ec_resolve_parts.specs.Made.{made_view};
ghost use Rattle.ec_resolve_statements.specs.Objects.{begin_object, known_object, end_object, object_of};

use crate::fill::{Initialized, initializer};
use ec_base::{Boxed, List, OutOfMemory};
use ec_code::{GlobalVariable, ObjectSize, Statement, Stored};
use ec_ctypes::{Declarator, Expr, Init, Ty};
use ec_resolve_expressions::{last_length, lengths, outer_lengths};
use ec_resolve_forms::{Resolver, size_of};
use ec_resolve_parts::{declare_initialized, declare_unset};
use ec_resolve_values::initial_parts::{Part, known_parts, stores};
use ec_resolve_values::storage::Site;
use ec_rules::{complete_rule, copy_type, declared_type};
use ec_scopes::{Checker, Entry, Place};
use std::alloc::Global;

/// The type, or `void` where there is none.
fn type_or_void(ty: Option<Ty>) -> Ty
    ensures { ty_view result ≡ checked.type_or_void (type_view ty) }
{
    match ty {
        Some(ty) => ty,
        None => Ty::Void,
    }
}

/// The size of the type in bytes, 0 where there is none.
fn size_of_type(checker: &Checker, ty: &Option<Ty>) -> u64
    ensures { result ≡ rule.size_of_type (world_of checker.now) (type_view ty.now) }
{
    match ty {
        Some(ty) => size_of(checker, ty),
        None => 0,
    }
}

/// Whether this is an array of known elements whose length its initializer tells.
fn waits_for_length(checker: &Checker, has_init: bool, ty: &Ty) -> bool
    ensures { result ≡ checked.waits_for_length has_init (ty_view ty.now) (world_of checker.now) }
{
    match ty {
        Ty::Array(of, 0) => has_init && checker.is_complete(of.get()),
        _ => false,
    }
}

/// The type of an object is complete, or its initializer completes it.
#[tactic(auto, using(ec_scopes::proofs::Steps::noting), unfolding(ec_typing_defs::specs::Worlds::chain, ec_typing_defs::specs::Worlds::pure, ec_typing_defs::specs::Worlds::ask, ec_typing_defs::specs::Statements::object_rule))]
fn object_rule(checker: &mut Checker, at: Place, has_init: bool, ty: Option<Ty>) -> Option<Ty>
    ensures { IsDone (checked.object_rule (place_view at) has_init (type_view ty)
        (world_of checker.old)) checker.old checker.new (type_view result) }
{
    match ty {
        None => None,
        Some(ty) => {
            if waits_for_length(checker, has_init, &ty) {
                Some(ty)
            } else {
                complete_rule(checker, at, Some(ty))
            }
        }
    }
}

/// What an object of this type is behind its initializer, if it has one.
fn initial(
    resolver: &mut Resolver,
    at: Place,
    is_global: bool,
    ty: Option<Ty>,
    init: &Option<Init>,
) -> Result<Initialized, OutOfMemory>
    ensures { Reaches initialized_view
        (from (rule.initial (place_view at) is_global (type_view ty) (init_option_view init.now))
        resolver.old)
        result resolver.new }
{
    match init {
        None => Ok(Initialized {
            ty,
            parts: List::new(resolver.checker.alloc()),
        }),
        Some(init) => initializer(resolver, at, is_global, ty, init),
    }
}

/// A global of this size with these parts.
fn global_of(
    alloc: Global,
    size: ObjectSize,
    values: List<Stored>,
) -> Result<GlobalVariable, OutOfMemory>
    ensures { IfOk result (λ g. g ≡ record { size = size.bytes; values = map stored_view values }) }
{
    let mut global = GlobalVariable::new(alloc, size);
    for value in values {
        global.add(value)?;
    }
    Ok(global)
}

/// The declaration of an object of a function: it is unset, or filled and initialized.
fn declared_object(
    alloc: Global,
    slot: u32,
    size: u64,
    init: &Option<Init>,
    parts: List<Part>,
) -> Result<Boxed<Statement>, OutOfMemory>
    ensures { IfOk result (λ s. statement_view s
        ≡ rule.declared_object slot size (init_option_view init.now) (parts_view parts)) }
{
    match init {
        None => declare_unset(alloc, slot, size),
        Some(_) => {
            let puts = stores(alloc, slot, parts)?;
            declare_initialized(alloc, slot, size, puts)
        }
    }
}

/// The size of an object. There is no memory for one of a size that no object has, whose declaration has a fault.
fn sized(size: u64) -> Result<ObjectSize, OutOfMemory>
    ensures { IfOk result (λ object. object.bytes ≡ size) }
{
    match ObjectSize::new(size) {
        Some(object) => Ok(object),
        // Out of reach, which isn't proved: an object without a fault has the size of one.
        None => Err(OutOfMemory),
    }
}

/// One global more, with its bytes.
fn add_global(
    resolver: &mut Resolver,
    number: u32,
    size: u64,
    init: &Option<Init>,
    parts: List<Part>,
) -> Result<Option<Boxed<Statement>>, OutOfMemory>
    ensures { Reaches made_view
        (from (rule.object_made (where_is.numbered number) size
        (init_option_view init.now) (parts_view parts)) resolver.old)
        result resolver.new }
{
    let alloc = resolver.checker.alloc();
    let values = known_parts(alloc, parts.as_slice())?;
    let object = sized(size)?;
    let global = global_of(alloc, object, values)?;
    resolver.storage.add_global(global)?;
    Ok(None)
}

/// One object more of the innermost block, with its declaration.
fn add_object(
    resolver: &mut Resolver,
    slot: u32,
    size: u64,
    init: &Option<Init>,
    parts: List<Part>,
) -> Result<Option<Boxed<Statement>>, OutOfMemory>
    ensures { Reaches made_view
        (from (rule.object_made (where_is.slotted slot) size
        (init_option_view init.now) (parts_view parts)) resolver.old)
        result resolver.new }
{
    let object = sized(size)?;
    resolver.storage.add_object(object)?;
    let made = declared_object(resolver.checker.alloc(), slot, size, init, parts)?;
    Ok(Some(made))
}

/// One object more: a global has its bytes, an object of a function its declaration.
fn object_made(
    resolver: &mut Resolver,
    site: Site,
    size: u64,
    init: &Option<Init>,
    parts: List<Part>,
) -> Result<Option<Boxed<Statement>>, OutOfMemory>
    ensures { Reaches made_view
        (from (rule.object_made (site_view site) size (init_option_view init.now)
        (parts_view parts)) resolver.old)
        result resolver.new }
{
    match site {
        Site::Numbered(number) => add_global(resolver, number, size, init, parts),
        Site::Slotted(slot) => add_object(resolver, slot, size, init, parts),
        Site::Nowhere => Ok(None),
    }
}

/// The type of a declarator of this type.
fn plain_type(
    resolver: &mut Resolver,
    at: Place,
    ty: &Option<Ty>,
    stars: u32,
    dims: &[Option<Expr>],
) -> Result<Option<Ty>, OutOfMemory>
    ensures { Reaches type_view
        (from (rule.object_type (place_view at) false (type_view ty.now) stars []
        (dims_view dims.now)) resolver.old)
        result resolver.new }
{
    let sizes = lengths(resolver, at, dims)?;
    let alloc = resolver.checker.alloc();
    let of = copy_type(alloc, ty)?;
    let made = declared_type(alloc, of, stars, sizes.as_slice())?;
    Ok(made)
}

/// The type of a declarator of VARCHARs, which makes a struct of its own (PostgreSQL manual, "VARCHAR").
fn varchar_type(
    resolver: &mut Resolver,
    at: Place,
    ty: &Option<Ty>,
    stars: u32,
    name: &[u8],
    dims: &[Option<Expr>],
) -> Result<Option<Ty>, OutOfMemory>
    ensures { Reaches type_view
        (from (rule.object_type (place_view at) true (type_view ty.now) stars name.now
        (dims_view dims.now)) resolver.old)
        result resolver.new }
{
    let length = last_length(resolver, at, dims)?;
    let own = resolver.checker.varchar_object(at, name, length)?;
    let sizes = outer_lengths(resolver, at, dims)?;
    let made = declared_type(resolver.checker.alloc(), own, stars, sizes.as_slice())?;
    Ok(made)
}

/// The type of a declarator: of this base, or of a VARCHAR of its own.
fn object_type(
    resolver: &mut Resolver,
    at: Place,
    is_varchar: bool,
    ty: &Option<Ty>,
    stars: u32,
    name: &[u8],
    dims: &[Option<Expr>],
) -> Result<Option<Ty>, OutOfMemory>
    ensures { Reaches type_view
        (from (rule.object_type (place_view at) is_varchar (type_view ty.now) stars name.now
        (dims_view dims.now)) resolver.old)
        result resolver.new }
{
    if is_varchar {
        varchar_type(resolver, at, ty, stars, name, dims)
    } else {
        plain_type(resolver, at, ty, stars, dims)
    }
}

/// An object that is declared: its number among the declarations, and where it is.
#[derive(Clone, Copy)]
pub struct Begun {
    pub number: u32,
    pub site: Site,
}

/// The name of an object stands for it from here on.
fn begin_object(
    resolver: &mut Resolver,
    at: Place,
    is_global: bool,
    name: &[u8],
    ty: &Option<Ty>,
) -> Result<Begun, OutOfMemory>
    ensures { Reaches begun_view
        (from (begin_object (place_view at) is_global name.now (type_view ty.now)) resolver.old)
        result resolver.new }
{
    let number = resolver.checker.next_number()?;
    let ty = copy_type(resolver.checker.alloc(), ty)?;
    let entry = Entry::Object {
        number,
        is_global,
        ty,
    };
    resolver.checker.declare(at, name, entry)?;
    let site = resolver.storage.next_site(is_global)?;
    resolver.storage.add_site(site)?;
    Ok(Begun { number, site })
}

/// The type of an object is known behind its initializer.
fn known_object(
    resolver: &mut Resolver,
    is_global: bool,
    number: u32,
    name: &[u8],
    ty: &Option<Ty>,
) -> Result<(), OutOfMemory>
    ensures { Reaches (λ u. u)
        (from (known_object is_global number name.now (type_view ty.now)) resolver.old)
        result resolver.new }
{
    let alloc = resolver.checker.alloc();
    let known = copy_type(alloc, ty)?;
    let entry = Entry::Object {
        number,
        is_global,
        ty: known,
    };
    resolver.checker.know_better(name, entry)?;
    let numbered = copy_type(alloc, ty)?;
    resolver.checker.number_as(type_or_void(numbered))?;
    Ok(())
}

/// An object behind its initializer.
fn end_object(
    resolver: &mut Resolver,
    is_global: bool,
    begun: Begun,
    name: &[u8],
    init: &Option<Init>,
    made: Initialized,
) -> Result<Option<Boxed<Statement>>, OutOfMemory>
    ensures { Reaches made_view
        (from (end_object is_global (begun_view begun) name.now (init_option_view init.now)
        (initialized_view made)) resolver.old)
        result resolver.new }
{
    let Initialized { ty, parts } = made;
    known_object(resolver, is_global, begun.number, name, &ty)?;
    let size = size_of_type(&resolver.checker, &ty);
    object_made(resolver, begun.site, size, init, parts)
}

/// An object of this type: its name is in scope in its own initializer (ISO/IEC 9899:1999, 6.2.1, 7).
fn object_of(
    resolver: &mut Resolver,
    at: Place,
    is_global: bool,
    whole: Option<Ty>,
    name: &[u8],
    init: &Option<Init>,
) -> Result<Option<Boxed<Statement>>, OutOfMemory>
    ensures { Reaches made_view
        (from (object_of (place_view at) is_global (type_view whole) name.now
        (init_option_view init.now)) resolver.old)
        result resolver.new }
{
    let before = object_rule(&mut resolver.checker, at, init.is_some(), whole);
    let begun = begin_object(resolver, at, is_global, name, &before)?;
    let made = initial(resolver, at, is_global, before, init)?;
    end_object(resolver, is_global, begun, name, init, made)
}

/// An object, at file level or not, of this base or of a VARCHAR of its own.
#[tactic(auto, using(ec_walk::proofs::Trees::seeing), unfolding(ec_resolving_defs::specs::Storage::chain, ec_resolving_defs::specs::Storage::pure, ec_resolving_defs::specs::Storage::checks, ec_resolving_defs::specs::Storage::ask, ec_resolving_defs::specs::Storage::stored, ec_resolving_defs::specs::Storage::arrange))]
pub(crate) fn object_item(
    resolver: &mut Resolver,
    at: Place,
    is_global: bool,
    is_varchar: bool,
    ty: &Option<Ty>,
    item: &Declarator,
) -> Result<Option<Boxed<Statement>>, OutOfMemory>
    ensures { Reaches made_view
        (from (rule.object_item (place_view at) is_global is_varchar (type_view ty.now)
        (declarator_view item.now)) resolver.old)
        result resolver.new }
{
    let name = item.name.as_slice();
    let whole = object_type(
        resolver,
        at,
        is_varchar,
        ty,
        item.stars,
        name,
        item.dims.as_slice(),
    )?;
    object_of(resolver, at, is_global, whole, name, &item.init)
}
