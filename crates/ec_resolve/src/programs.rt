//! Programs (ISO/IEC 9899:1999, 6.9).
#![tactic(auto, unfolding(ec_resolving_defs::specs::Storage::chain, ec_resolving_defs::specs::Storage::pure))]

ghost use Rattle.std.specs.Prelude.{◌≡◌, ◌+◌, [], map, IfOk};
ghost use Rattle.ec_code.specs.Views.{program_view};
ghost use Rattle.ec_ctypes.specs.views.Units.{top_view, unit_view};
ghost use Rattle.ec_resolve_forms.specs.Seen.{from, Reaches};
ghost use Rattle.ec_resolving_defs.specs.Programs as rule;
ghost use Rattle.ec_scopes.specs.Seen.{world_of};
ghost use Rattle.ec_resolve_values.specs.storage.Stored.{call_view, storage_of};
ghost use Rattle.ec_typing_defs.specs.Programs as checked;
ghost use Rattle.ec_resolve.specs.Clean.{FindsNothing, called_form, resolved_form, walked_form};

use crate::functions::function_rule;
use ec_base::OutOfMemory;
use ec_ctypes::{Top, Unit};
use ec_resolve_forms::Resolver;
use ec_resolve_parts::{defined_names, defined_table, globals_in};
use ec_resolve_statements::declaration;
use ec_resolve_values::storage::{Resolved, Storage};
use ec_scopes::Checker;
use std::alloc::Global;

/// What stands at the top level.
fn top_rule(resolver: &mut Resolver, top: &Top) -> Result<(), OutOfMemory>
    ensures { Reaches (λ u. u) (from (rule.top_rule [] (top_view top.now)) resolver.old)
        result resolver.new }
{
    match top {
        Top::Include(_) => Ok(()),
        Top::Directive(_) => Ok(()),
        Top::Decl(d) => {
            let _statements = declaration(resolver, true, d)?;
            Ok(())
        }
        Top::Func(f) => function_rule(resolver, f.get()),
        Top::Mark(_, _) => Ok(()),
    }
}

fn tops_rule(resolver: &mut Resolver, tops: &[Top]) -> Result<(), OutOfMemory>
    ensures { Reaches (λ u. u) (from (rule.tops_rule [] (map top_view tops.now)) resolver.old)
        result resolver.new }
{
    for top in tops {
        top_rule(resolver, top)?;
    }
    Ok(())
}

/// How many objects stand before that of the first literal: `sqlca` and the globals.
fn count_before_literals(tops: &[Top]) -> Result<u32, OutOfMemory>
    ensures { IfOk result (λ n. n ≡ rule.globals_in (map top_view tops.now) + 1) }
{
    let globals = globals_in(tops)?;
    match globals.checked_add(1) {
        Some(count) => Ok(count),
        // Out of reach, which isn't proved: a source has at most 2^22 tokens, so it has fewer globals.
        None => Err(OutOfMemory),
    }
}

/// Where the objects of a program are before it is resolved.
fn no_storage(alloc: Global, unit: &Unit) -> Result<Storage, OutOfMemory>
    ensures { IfOk result (λ s. storage_of s ≡ rule.no_storage (unit_view unit.now)) }
{
    let tops = unit.tops.as_slice();
    let names = defined_names(alloc, tops)?;
    let before_literals = count_before_literals(tops)?;
    Ok(Storage::new(alloc, names, before_literals))
}

/// What is known before a program is resolved.
fn start(alloc: Global, written: bool, unit: &Unit) -> Result<Resolver, OutOfMemory>
    ensures storage { IfOk result
        (λ r. storage_of r.storage ≡ rule.no_storage (unit_view unit.now)) }
    ensures world { IfOk result (λ r. world_of r.checker
        ≡ checked.start written (unit_view unit.now)) }
{
    let storage = no_storage(alloc, unit)?;
    let defined = defined_table(alloc, unit.tops.as_slice())?;
    let checker = Checker::start(alloc, written, defined)?;
    Ok(Resolver { checker, storage })
}

/// The resolved form of a program without embedded statements and its calls of the library, whatever the checks find in it.
fn walked(alloc: Global, written: bool, unit: &Unit) -> Result<Resolved, OutOfMemory>
    requires { unit.now.embs ≡ [] }
    ensures program { IfOk result
        (λ it. program_view it.program ≡ walked_form written (unit_view unit.now)) }
    ensures calls { IfOk result
        (λ it. map call_view it.calls ≡ called_form written (unit_view unit.now)) }
{
    let mut resolver = start(alloc, written, unit)?;
    tops_rule(&mut resolver, unit.tops.as_slice())?;
    let Resolver { checker, storage } = resolver;
    drop(checker);
    storage.into_resolved()
}

/// The resolved form of a program without embedded statements, in which the checks find nothing, and its calls of the
/// library.
#[tactic(none)]
pub fn resolve(alloc: Global, written: bool, unit: &Unit) -> Result<Resolved, OutOfMemory>
    requires no_statements { unit.now.embs ≡ [] }
    requires no_violations { FindsNothing written (unit_view unit.now) }
    ensures program { IfOk result
        (λ it. program_view it.program ≡ resolved_form written (unit_view unit.now)) }
    ensures calls { IfOk result
        (λ it. map call_view it.calls ≡ called_form written (unit_view unit.now)) }
{
    walked(alloc, written, unit)
}
