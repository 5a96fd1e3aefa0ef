//! The functions that a program defines, and its globals.

ghost use Rattle.std.specs.Prelude.{◌≡◌, ◌+◌, [], map, IfOk, OnOk};
ghost use Rattle.ec_ctypes.specs.views.Units.{top_view};
ghost use Rattle.ec_resolving_defs.specs.Programs as form;
ghost use Rattle.ec_typing_defs.specs.Programs as rule;
ghost use Rattle.ec_resolve_parts.specs.Counting.{globals_of};

use ec_base::OutOfMemory;
use ec_ctypes::Top;
use ec_resolve_values::storage::Names;
use ec_scopes::Table;
use std::alloc::Global;

fn add_if_defined(alloc: Global, top: &Top, defined: &mut Table<()>) -> Result<(), OutOfMemory>
    ensures { OnOk result (defined.new ≡ rule.with_defined (top_view top.now) defined.old) }
{
    match top {
        Top::Func(f) => {
            let f = f.get();
            if f.body.is_some() {
                let _before = defined.put(alloc, f.name.as_slice(), ())?;
            }
            Ok(())
        }
        _ => Ok(()),
    }
}

/// The functions that are defined, for the checks.
pub fn defined_table(alloc: Global, tops: &[Top]) -> Result<Table<()>, OutOfMemory>
    ensures { IfOk result (λ t. t ≡ rule.defined_in (map top_view tops.now) []) }
{
    let mut defined = Table::new(alloc);
    for top in tops {
        add_if_defined(alloc, top, &mut defined)?;
    }
    Ok(defined)
}

fn add_name_if_defined(alloc: Global, top: &Top, defined: &mut Names) -> Result<(), OutOfMemory>
    ensures { OnOk result (defined.new ≡ rule.with_defined (top_view top.now) defined.old) }
{
    match top {
        Top::Func(f) => {
            let f = f.get();
            if f.body.is_some() {
                defined.add(alloc, f.name.as_slice())?;
            }
            Ok(())
        }
        _ => Ok(()),
    }
}

/// The functions that are defined, by their numbers.
pub fn defined_names(alloc: Global, tops: &[Top]) -> Result<Names, OutOfMemory>
    ensures { IfOk result (λ t. t ≡ rule.defined_in (map top_view tops.now) []) }
{
    let mut defined = Names::new(alloc);
    for top in tops {
        add_name_if_defined(alloc, top, &mut defined)?;
    }
    Ok(defined)
}

/// How many globals are declared here.
#[tactic(auto, using(crate::proofs::GlobalCounts::decl_counted))]
fn globals_of(top: &Top) -> usize
    ensures { result ≡ globals_of (top_view top.now) }
{
    match top {
        Top::Decl(d) => d.items.as_slice().len(),
        _ => 0,
    }
}

/// The sum of two counts.
fn sum(count: u32, more: usize) -> Result<u32, OutOfMemory>
    ensures { IfOk result (λ n. n ≡ count + more) }
{
    if more > u32::MAX as usize {
        // Out of reach, which isn't proved: a source has at most 2^22 tokens, so it has fewer globals.
        return Err(OutOfMemory);
    }
    match count.checked_add(more as u32) {
        Some(sum) => Ok(sum),
        // Out of reach, as above.
        None => Err(OutOfMemory),
    }
}

/// How many globals there are.
pub fn globals_in(tops: &[Top]) -> Result<u32, OutOfMemory>
    ensures { IfOk result (λ n. n ≡ form.globals_in (map top_view tops.now)) }
{
    let mut count = 0;
    for top in tops {
        let more = globals_of(top);
        let both = sum(count, more)?;
        count = both;
    }
    Ok(count)
}
