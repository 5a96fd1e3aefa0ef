//! Parameters, which are objects of their function (ISO/IEC 9899:1999, 6.9.1, 9).
#![tactic(auto, unfolding(ec_resolving_defs::specs::Storage::chain, ec_resolving_defs::specs::Storage::pure, ec_resolving_defs::specs::Storage::checks, ec_resolving_defs::specs::Storage::ask, ec_resolving_defs::specs::Storage::stored, ec_resolving_defs::specs::Storage::arrange))]

ghost use Rattle.std.specs.Prelude.{map};
ghost use Rattle.ec_ctypes.specs.views.Units.{param_view};
ghost use Rattle.ec_resolve_forms.specs.Seen.{from, Reaches};
ghost use Rattle.ec_resolving_defs.specs.Programs as rule;
ghost use Rattle.ec_scopes.specs.Entries.{place_view, type_view};
ghost use Rattle.ec_resolve.specs.Params.{param_named, param_placed};
ghost use Rattle.ec_resolve_parts.specs.Types.{types_view};

use ec_base::{List, Name, OutOfMemory};
use ec_code::ObjectSize;
use ec_ctypes::{Param, Ty};
use ec_resolve_expressions::{base, lengths};
use ec_resolve_forms::Resolver;
use ec_resolve_parts::{declare_param, number_as, param_type, size_of_type};
use ec_rules::copy_type;
use ec_scopes::Place;

/// The name of a parameter stands for it from here on.
fn name_param(
    resolver: &mut Resolver,
    at: Place,
    is_defined: bool,
    name: &Option<Name>,
    ty: &Option<Ty>,
) -> Result<(), OutOfMemory>
    ensures { Reaches (λ u. u)
        (from (param_named (place_view at) is_defined name.now (type_view ty.now)) resolver.old)
        result resolver.new }
{
    let number = resolver.checker.next_number()?;
    let copy = copy_type(resolver.checker.alloc(), ty)?;
    declare_param(&mut resolver.checker, at, is_defined, name, number, copy)?;
    number_as(&mut resolver.checker, ty)?;
    Ok(())
}

/// A parameter is the next object of its function. There is no memory for one of a size that no object has, whose declaration
/// has a fault.
fn place_param(resolver: &mut Resolver, ty: &Option<Ty>) -> Result<(), OutOfMemory>
    ensures { Reaches (λ u. u) (from (param_placed (type_view ty.now)) resolver.old)
        result resolver.new }
{
    let site = resolver.storage.next_site(false)?;
    resolver.storage.add_site(site)?;
    let Some(size) = ObjectSize::new(size_of_type(&resolver.checker, ty)) else {
        // Out of reach, which isn't proved: a parameter without a fault has the size of an object.
        return Err(OutOfMemory);
    };
    resolver.storage.add_object(size)?;
    Ok(())
}

/// A parameter: its type, if it is known.
fn param(
    resolver: &mut Resolver,
    at: Place,
    is_defined: bool,
    p: &Param,
) -> Result<Option<Ty>, OutOfMemory>
    ensures { Reaches type_view
        (from (rule.param (place_view at) is_defined (param_view p.now)) resolver.old)
        result resolver.new }
{
    let b = base(resolver, at, &p.base)?;
    let sizes = lengths(resolver, at, p.dims.as_slice())?;
    let ty = param_type(&mut resolver.checker, at, b, p.stars, sizes.as_slice())?;
    name_param(resolver, at, is_defined, &p.name, &ty)?;
    place_param(resolver, &ty)?;
    Ok(ty)
}

/// The parameters of a function: their types, as far as they are known.
pub(crate) fn params(
    resolver: &mut Resolver,
    at: Place,
    is_defined: bool,
    ps: &[Param],
) -> Result<List<Option<Ty>>, OutOfMemory>
    ensures { Reaches types_view
        (from (rule.params (place_view at) is_defined (map param_view ps.now)) resolver.old)
        result resolver.new }
{
    let mut types = List::new(resolver.checker.alloc());
    for p in ps {
        let ty = param(resolver, at, is_defined, p)?;
        types.push(ty)?;
    }
    Ok(types)
}
