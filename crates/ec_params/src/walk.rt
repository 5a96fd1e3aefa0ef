//! The hosts of a statement, one after the other, with the fault of the lowest number.
#![tactic(auto, using(crate::proofs::Lowest::lowest))]

ghost use Rattle.std.specs.Prelude.{◌≡◌, ◌+◌, [], ◌∷◌, IfOk, OnOk, map, option_map};
ghost use Rattle.std.specs.Option.{option_copied};
ghost use Rattle.ec_ctypes.specs.views.Embedded.{host_view, text_arg_view, input_view, ins_view, outs_view, part_view, get_item_view, set_item_view, emb_kind_view, emb_view};
ghost use Rattle.ec_ctypes.specs.views.Exprs.{expr_view, expr_option_view};
ghost use Rattle.ec_ctypes.specs.views.Types.{ty_view, structs_view};
ghost use Rattle.ec_host_defs.specs.Faults as spec;
ghost use Rattle.ec_host_defs.specs.Programs as program;
ghost use Rattle.ec_host_defs.specs.Uses as uses;
ghost use Rattle.ec_params.specs.Least.{least};
ghost use Rattle.ec_params.specs.Scenes.{program_of, denoted_of};
ghost use Rattle.ec_params.specs.Shapes.{role_view};
ghost use Rattle.ec_params.specs.Walks.{Walks, host_of};

use crate::indicators::{indicator_type_fault, may_have_indicator};
use crate::least::{fault_unless, lower_of, nothing};
use crate::scene::{
    Scene, has_variable_indexes, is_host, names_count, part, reference_type, sum, variable_of,
};
use crate::values::{Role, value_fault};
use ec_base::{FaultKind, OutOfMemory};
use ec_ctypes::{Expr, Host, TextArg, Ty};
use std::alloc::Global;

/// How many names are behind, and the fault of the lowest number so far.
#[derive(Clone, Copy, Debug)]
pub(crate) struct Walk {
    pub at: usize,
    pub fault: Option<FaultKind>,
}

/// The first fault of a reference: F21 where its variable isn't declared in a section, F22 where an index isn't a
/// variable.
fn reference_fault(scene: Scene<'_>, denoted: &[Option<u32>]) -> Option<FaultKind>
    ensures { result ≡ least (spec.reference_faults (program_of scene.entry) denoted.now) }
{
    let host = fault_unless(is_host(scene, variable_of(denoted)), FaultKind::F21);
    let indexes = fault_unless(has_variable_indexes(denoted), FaultKind::F22);
    lower_of(host, indexes)
}

/// The first fault of an indicator: of its reference, of its place, and of its type.
fn present_fault(
    alloc: Global,
    scene: Scene<'_>,
    role: Role,
    ty: Option<&Ty>,
    indicator: &Expr,
    denoted: &[Option<u32>],
) -> Result<Option<FaultKind>, OutOfMemory>
    ensures { IfOk result (λ fault. fault ≡ least (spec.indicator_faults (program_of scene.entry)
        (role_view role) (option_map ty_view (option_copied ty.entry))
        (Some (expr_view indicator.now)) denoted.now)) }
{
    let inner = reference_type(scene, indicator, denoted);
    let types = indicator_type_fault(alloc, scene.structs, ty, inner)?;
    let place = fault_unless(may_have_indicator(role), FaultKind::F23);
    let reference = reference_fault(scene, denoted);
    Ok(lower_of(reference, lower_of(place, types)))
}

/// The first fault of an indicator, if there is one.
fn indicator_fault(
    alloc: Global,
    scene: Scene<'_>,
    role: Role,
    ty: Option<&Ty>,
    indicator: Option<&Expr>,
    denoted: &[Option<u32>],
) -> Result<Option<FaultKind>, OutOfMemory>
    ensures { IfOk result (λ fault. fault ≡ least (spec.indicator_faults (program_of scene.entry)
        (role_view role) (option_map ty_view (option_copied ty.entry))
        (option_map expr_view (option_copied indicator.entry)) denoted.now)) }
{
    match indicator {
        Some(indicator) => present_fault(alloc, scene, role, ty, indicator, denoted),
        None => Ok(nothing()),
    }
}

/// The first fault of a host, by what the names in its value and in its indicator denote.
fn host_fault(
    alloc: Global,
    scene: Scene<'_>,
    role: Role,
    value: &Expr,
    indicator: Option<&Expr>,
    own: &[Option<u32>],
    inner: &[Option<u32>],
) -> Result<Option<FaultKind>, OutOfMemory>
    ensures { IfOk result (λ fault. fault ≡ least (spec.host_faults (program_of scene.entry)
        (role_view role) (host_of (expr_view value.now) (option_map expr_view
        (option_copied indicator.entry))) own.now inner.now)) }
{
    let ty = reference_type(scene, value, own);
    let types = value_fault(alloc, scene.structs, role, ty)?;
    let beside = indicator_fault(alloc, scene, role, ty, indicator, inner)?;
    let reference = reference_fault(scene, own);
    Ok(lower_of(reference, lower_of(types, beside)))
}

/// How many names stand in an indicator, if there is one.
pub(crate) fn option_count(indicator: Option<&Expr>) -> Result<usize, OutOfMemory>
    ensures { IfOk result (λ n. n ≡ program.option_count (option_map expr_view
        (option_copied indicator.entry))) }
{
    match indicator {
        Some(indicator) => names_count(indicator),
        None => Ok(0),
    }
}

/// A host, by its value and its indicator.
fn walk_host(
    alloc: Global,
    scene: Scene<'_>,
    walk: &mut Walk,
    role: Role,
    value: &Expr,
    indicator: Option<&Expr>,
) -> Result<(), OutOfMemory>
    ensures { OnOk result (Walks (program_of scene.entry) (denoted_of scene.entry)
        ((
          role_view role,
          host_of (expr_view value.now) (option_map expr_view
              (option_copied indicator.entry)),
        ) ∷ []) walk.old walk.new) }
{
    let own = names_count(value)?;
    let inner = option_count(indicator)?;
    let middle = sum(walk.at, own)?;
    let fault = host_fault(
        alloc,
        scene,
        role,
        value,
        indicator,
        part(scene.denoted, walk.at, own),
        part(scene.denoted, middle, inner),
    )?;
    walk.at = sum(middle, inner)?;
    walk.fault = lower_of(walk.fault, fault);
    Ok(())
}

/// The indicator of a host.
pub(crate) fn indicator_of(host: &Host) -> Option<&Expr>
    ensures { option_map expr_view (option_copied result) ≡ expr_option_view host.now.indicator }
{
    match &host.indicator {
        Some(indicator) => Some(indicator.get()),
        None => None,
    }
}

/// A host of a statement.
pub(crate) fn walk_whole(
    alloc: Global,
    scene: Scene<'_>,
    walk: &mut Walk,
    role: Role,
    host: &Host,
) -> Result<(), OutOfMemory>
    ensures { OnOk result (Walks (program_of scene.entry) (denoted_of scene.entry)
        ((role_view role, host_view host.now) ∷ []) walk.old walk.new) }
{
    walk_host(alloc, scene, walk, role, &host.value, indicator_of(host))
}

/// A name or a text.
pub(crate) fn walk_text(
    alloc: Global,
    scene: Scene<'_>,
    walk: &mut Walk,
    arg: &TextArg,
) -> Result<(), OutOfMemory>
    ensures { OnOk result (Walks (program_of scene.entry) (denoted_of scene.entry)
        (uses.text_uses (text_arg_view arg.now)) walk.old walk.new) }
{
    match arg {
        TextArg::Word(_) => Ok(()),
        TextArg::Host(value) => walk_host(alloc, scene, walk, Role::Text, value.get(), None),
        TextArg::HostWithIndicator(value, indicator) => walk_host(
            alloc,
            scene,
            walk,
            Role::Text,
            value.get(),
            Some(indicator.get()),
        ),
    }
}
