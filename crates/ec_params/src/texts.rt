//! Names and texts as the pointers to them.

ghost use Rattle.std.specs.Prelude.{◌≡◌, ◌++◌, ◌∷◌, [], Some, IfOk, OnOk, codes, map, take, drop, option_map};
ghost use Rattle.std.specs.Option.{option_copied};
ghost use Rattle.ec_ctypes.specs.trees.Exprs.{member, string};
ghost use Rattle.ec_ctypes.specs.views.Checked.{place_view};
ghost use Rattle.ec_ctypes.specs.views.Embedded.{text_arg_view};
ghost use Rattle.ec_ctypes.specs.views.Exprs.{expr_view};
ghost use Rattle.ec_ctypes.specs.views.Types.{ty_view};
ghost use Rattle.ec_host_defs.specs.Bound as spec;
ghost use Rattle.ec_host_defs.specs.Places.{text_pointer, no_text, descriptor_place, constant_place};
ghost use Rattle.ec_host_defs.specs.Programs as program;
ghost use Rattle.ec_params.specs.Adding.{Adds, MakesText};
ghost use Rattle.ec_params.specs.Scenes.{program_of, denoted_of};

use crate::scene::{Scene, names_count, part, reference_type, sum};
use ec_base::{Boxed, List, Name, OutOfMemory};
use ec_ctypes::{Expr, Place, Sym, TextArg, Ty, copy_expr};
use std::alloc::Global;

/// The characters of a VARCHAR.
#[tactic(auto, using(ec_ctypes::specs::declared::tree::expr::Expr::the_lemmas))]
fn characters(alloc: Global, host: &Expr) -> Result<Boxed<Expr>, OutOfMemory>
    ensures { IfOk result (λ pointer. expr_view pointer
        ≡ member (expr_view host.now) (codes "arr")) }
{
    let copy = Boxed::new(alloc, copy_expr(alloc, host)?)?;
    let name = Name::from_slice(alloc, b"arr")?;
    Ok(Boxed::new(alloc, Expr::Member(copy, name))?)
}

/// A copy of an expression.
fn boxed_copy(alloc: Global, host: &Expr) -> Result<Boxed<Expr>, OutOfMemory>
    ensures { IfOk result (λ copy. copy ≡ host.now) }
{
    Ok(Boxed::new(alloc, copy_expr(alloc, host)?)?)
}

/// The pointer to a text in a host of this type: of a VARCHAR that to its characters.
fn pointer_by(alloc: Global, ty: &Ty, host: &Expr) -> Result<Boxed<Expr>, OutOfMemory>
    ensures { IfOk result (λ pointer. expr_view pointer
        ≡ text_pointer (Some (ty_view ty.now)) (expr_view host.now)) }
{
    match ty {
        Ty::Struct(_) => characters(alloc, host),
        Ty::Void => boxed_copy(alloc, host),
        Ty::Bool => boxed_copy(alloc, host),
        Ty::Char => boxed_copy(alloc, host),
        Ty::UChar => boxed_copy(alloc, host),
        Ty::Short => boxed_copy(alloc, host),
        Ty::UShort => boxed_copy(alloc, host),
        Ty::Int => boxed_copy(alloc, host),
        Ty::UInt => boxed_copy(alloc, host),
        Ty::Long => boxed_copy(alloc, host),
        Ty::ULong => boxed_copy(alloc, host),
        Ty::LLong => boxed_copy(alloc, host),
        Ty::ULLong => boxed_copy(alloc, host),
        Ty::Ptr(_) => boxed_copy(alloc, host),
        Ty::Array(_, _) => boxed_copy(alloc, host),
    }
}

/// The pointer to a text in a host.
fn pointer_to(alloc: Global, ty: Option<&Ty>, host: &Expr) -> Result<Boxed<Expr>, OutOfMemory>
    ensures { IfOk result (λ pointer. expr_view pointer
        ≡ text_pointer (option_map ty_view (option_copied ty.entry)) (expr_view host.now)) }
{
    match ty {
        Some(ty) => pointer_by(alloc, ty, host),
        None => boxed_copy(alloc, host),
    }
}

/// A literal.
#[tactic(auto, using(ec_ctypes::specs::declared::tree::expr::Expr::the_lemmas))]
fn literal(alloc: Global, bytes: &[u8]) -> Result<Boxed<Expr>, OutOfMemory>
    ensures { IfOk result (λ text. expr_view text ≡ string bytes.now) }
{
    let copy = List::from_slice(alloc, bytes)?;
    Ok(Boxed::new(alloc, Expr::Str(copy))?)
}

/// The text that isn't there.
#[tactic(auto, using(ec_ctypes::specs::declared::tree::expr::Expr::the_lemmas))]
fn null(alloc: Global) -> Result<Boxed<Expr>, OutOfMemory>
    ensures { IfOk result (λ text. expr_view text ≡ no_text) }
{
    let name = Name::from_slice(alloc, b"NULL")?;
    Ok(Boxed::new(alloc, Expr::Name(name))?)
}

/// The pointer to the text in a host whose names begin at this place.
fn host_text(
    alloc: Global,
    scene: Scene<'_>,
    at: usize,
    host: &Expr,
    count: usize,
) -> Result<Boxed<Expr>, OutOfMemory>
    ensures { IfOk result (λ pointer. expr_view pointer
        ≡ text_pointer (program.reference_type (program_of scene.entry)
        (expr_view host.now) (take count (drop at (denoted_of scene.entry))))
        (expr_view host.now)) }
{
    let ty = reference_type(scene, host, part(scene.denoted, at, count));
    pointer_to(alloc, ty, host)
}

/// A name or a text as the pointer to it.
pub(crate) fn text_of(
    alloc: Global,
    scene: Scene<'_>,
    at: &mut usize,
    arg: &TextArg,
) -> Result<Boxed<Expr>, OutOfMemory>
    ensures { IfOk result (λ text. MakesText (denoted_of scene.entry) at.old at.new (expr_view text)
        (spec.text_expr (program_of scene.entry) (text_arg_view arg.now))) }
{
    match arg {
        TextArg::Word(bytes) => literal(alloc, bytes.as_slice()),
        TextArg::Host(host) => {
            let own = names_count(host.get())?;
            let next = sum(*at, own)?;
            let text = host_text(alloc, scene, *at, host.get(), own)?;
            *at = next;
            Ok(text)
        }
        TextArg::HostWithIndicator(host, indicator) => {
            let own = names_count(host.get())?;
            let inner = names_count(indicator.get())?;
            let both = sum(own, inner)?;
            let next = sum(*at, both)?;
            let text = host_text(alloc, scene, *at, host.get(), own)?;
            *at = next;
            Ok(text)
        }
    }
}

/// One that may be absent, and is NULL then.
pub(crate) fn text_option(
    alloc: Global,
    scene: Scene<'_>,
    at: &mut usize,
    arg: &Option<Boxed<TextArg>>,
) -> Result<Boxed<Expr>, OutOfMemory>
    ensures { IfOk result (λ text. MakesText (denoted_of scene.entry) at.old at.new (expr_view text)
        (spec.text_option_expr (program_of scene.entry) (option_map text_arg_view arg.now))) }
{
    match arg {
        Some(arg) => text_of(alloc, scene, at, arg.get()),
        None => null(alloc),
    }
}

/// A constant as the library is given it.
fn constant(alloc: Global, bytes: &[u8]) -> Result<Place, OutOfMemory>
    ensures { IfOk result (λ place. place_view place ≡ constant_place bytes.now) }
{
    let value = literal(alloc, bytes)?;
    Ok(Place {
        sym: Sym::Const,
        value: value.into_inner(),
        size: 0,
        count: 1,
        step: 0,
        ind: None,
    })
}

/// A descriptor of this name as the library is given it.
fn descriptor(name: Boxed<Expr>) -> Place
    ensures { place_view result ≡ descriptor_place (expr_view name) }
{
    Place {
        sym: Sym::Descriptor,
        value: name.into_inner(),
        size: 1,
        count: 1,
        step: 1,
        ind: None,
    }
}

/// Puts a constant behind these.
pub(crate) fn add_constant(
    alloc: Global,
    bytes: &[u8],
    places: &mut List<Place>,
) -> Result<(), OutOfMemory>
    ensures { OnOk result (map place_view places.new
        ≡ map place_view places.old ++ constant_place bytes.now ∷ []) }
{
    places.push(constant(alloc, bytes)?)?;
    Ok(())
}

/// Puts a descriptor behind these.
pub(crate) fn add_area(
    alloc: Global,
    scene: Scene<'_>,
    at: &mut usize,
    area: &TextArg,
    places: &mut List<Place>,
) -> Result<(), OutOfMemory>
    ensures { OnOk result (Adds (denoted_of scene.entry) at.old at.new places.old places.new
        (spec.area_place (program_of scene.entry) (text_arg_view area.now))) }
{
    let name = text_of(alloc, scene, at, area)?;
    places.push(descriptor(name))?;
    Ok(())
}
