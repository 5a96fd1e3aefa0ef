//! What the name of a function stands for, as the checks have it (ISO/IEC 9899:1999, 6.2.1 and 6.9.1).
#![tactic(auto, using(ec_scopes::proofs::Steps::noting), unfolding(ec_typing_defs::specs::Worlds::chain, ec_typing_defs::specs::Worlds::pure, ec_typing_defs::specs::Worlds::ask, ec_typing_defs::specs::Programs::begin_function, ec_typing_defs::specs::Worlds::know_better))]

ghost use Rattle.std.specs.Prelude.{◌≡◌, ◌||◌, Some, None, option_map, is_some, IfOk};
ghost use Rattle.std.specs.Option.{option_copied};
ghost use Rattle.ec_ctypes.specs.views.Units.{func_view};
ghost use Rattle.ec_scopes.specs.Entries.{place_view, type_view, entry_view};
ghost use Rattle.ec_scopes.specs.Seen.{world_of, Does};
ghost use Rattle.ec_typing_defs.specs.Programs as rule;
ghost use Rattle.ec_typing_defs.specs.Tables.{find};
ghost use Rattle.ec_typing_defs.specs.Worlds.{function};
ghost use Rattle.ec_resolve_parts.specs.Entries.{function_begins, function_known, numbered_as};
ghost use Rattle.ec_resolve_parts.specs.Types.{types_view};

use crate::types::type_or_void;
use ec_base::{FaultKind, List, Name, OutOfMemory};
use ec_ctypes::{Func, Ty};
use ec_rules::copy_type;
use ec_scopes::{Checker, Entry, Place};
use std::alloc::Global;

/// The name of a parameter, which it has in a definition (ISO/IEC 9899:1999, 6.9.1, 5).
pub fn declare_param(
    checker: &mut Checker,
    at: Place,
    is_defined: bool,
    name: &Option<Name>,
    number: u32,
    ty: Option<Ty>,
) -> Result<(), OutOfMemory>
    ensures { Does (λ u. u) (rule.declare_param (place_view at) is_defined name.now number
        (type_view ty) (world_of checker.old)) checker.old result checker.new }
{
    match name {
        Some(name) => {
            let entry = Entry::Object {
                number,
                is_global: false,
                ty,
            };
            checker.declare(at, name.as_slice(), entry)
        }
        None => {
            checker.demand(at, FaultKind::F14, !is_defined);
            Ok(())
        }
    }
}

/// One declaration more, of this type.
pub fn number_as(checker: &mut Checker, ty: &Option<Ty>) -> Result<(), OutOfMemory>
    ensures { Does (λ u. u) (numbered_as (type_view ty.now) (world_of checker.old))
        checker.old result checker.new }
{
    let copy = copy_type(checker.alloc(), ty)?;
    checker.number_as(type_or_void(copy))
}

/// Whether a name that stands for this is that of a function which is defined so far.
fn is_done(before: Option<&Entry>) -> bool
    ensures { result ≡ rule.is_done (option_map entry_view (option_copied before.entry)) }
{
    match before {
        Some(Entry::Function { is_done, .. }) => *is_done,
        Some(Entry::Object { .. }) => false,
        None => false,
    }
}

/// Whether this is a definition.
pub fn defines(f: &Func) -> bool
    ensures { result ≡ is_some (func_view f.now).body }
{
    match &f.body {
        Some(_) => true,
        None => false,
    }
}

/// Whether a definition stands behind this declaration or definition.
pub fn is_done_with(checker: &Checker, f: &Func) -> bool
    ensures { result ≡ (rule.is_done (find (func_view f.now).name (world_of checker.now).here.names)
        || is_some (func_view f.now).body) }
{
    is_done(checker.entry_here(f.name.as_slice())) || defines(f)
}

/// What a function's name stands for, as far as it is known before its parameters.
fn begun_function(
    alloc: Global,
    number: u32,
    is_done: bool,
    r: &Option<Ty>,
) -> Result<Entry, OutOfMemory>
    ensures { IfOk result
        (λ entry. entry_view entry ≡ function number is_done (type_view r.now) None) }
{
    Ok(Entry::Function {
        number,
        is_done,
        result: copy_type(alloc, r)?,
        params: None,
    })
}

/// What a function's name stands for behind its parameters.
fn known_function(
    alloc: Global,
    number: u32,
    is_done: bool,
    r: &Option<Ty>,
    params: List<Option<Ty>>,
) -> Result<Entry, OutOfMemory>
    ensures { IfOk result (λ entry. entry_view entry
        ≡ function number is_done (type_view r.now) (Some (types_view params))) }
{
    let kept = copy_type(alloc, r)?;
    Ok(Entry::Function {
        number,
        is_done,
        result: kept,
        params: Some(params),
    })
}

/// The name of a function stands for it before its parameters.
pub fn begin_function(
    checker: &mut Checker,
    name: &[u8],
    r: &Option<Ty>,
    number: u32,
    is_done: bool,
) -> Result<(), OutOfMemory>
    ensures { Does (λ u. u) (function_begins name.now (type_view r.now) number is_done
        (world_of checker.old)) checker.old result checker.new }
{
    let entry = begun_function(checker.alloc(), number, is_done, r)?;
    checker.know_better(name, entry)?;
    number_as(checker, r)
}

/// The name of a function stands for it with its parameters.
pub fn know_function(
    checker: &mut Checker,
    name: &[u8],
    r: &Option<Ty>,
    number: u32,
    is_done: bool,
    types: List<Option<Ty>>,
) -> Result<(), OutOfMemory>
    ensures { Does (λ u. u) (function_known name.now (type_view r.now) number is_done
        (types_view types) (world_of checker.old)) checker.old result checker.new }
{
    let entry = known_function(checker.alloc(), number, is_done, r, types)?;
    checker.know_outside(name, entry)
}
