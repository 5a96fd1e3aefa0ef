//! Numbers of declarations.

ghost use Rattle.std.specs.Prelude.{◌≡◌, [], IfOk, OnOk};
ghost use Rattle.ec_host_defs.specs.Programs.{is_among};
ghost use Rattle.ec_params.specs.Numbers as spec;

use ec_base::{List, OutOfMemory};
use std::alloc::Global;
use std::marker::Model;

/// Numbers, each of which is found at once. Contracts see their list.
#[derive(Debug, Drop)]
pub(crate) struct Numbers {
    list: List<u32>,
    /// For each number up to the greatest, whether it is one of them.
    flags: List<bool>,
}

impl Model for Numbers {
    ghost use Rattle.std.specs.Prelude.{◌≡◌, List as Sequence, ℕ, []};
    ghost use Rattle.std.specs.Coded.{coded_list, coded_ℕ};
    ghost use Rattle.ec_params.specs.Numbers.{marked};

    ghost Value = { Sequence ℕ };

    ghost coded = { coded_list coded_ℕ };

    ghost view = { λ it. it.list };

    ghost invariant = { λ it. it.flags ≡ marked it.list [] };
}

impl Numbers {
    /// These numbers.
    pub(crate) fn new(alloc: Global, list: List<u32>) -> Result<Numbers, OutOfMemory>
        ensures { IfOk result (λ numbers. numbers ≡ list) }
    {
        let flags = flags_of(alloc, list.as_slice())?;
        Ok(Numbers { list, flags })
    }

    /// Whether this is one of the numbers.
    pub(crate) fn has(&self, number: u32) -> bool
        ensures { result ≡ is_among number self.now }
    {
        flag_at(self.flags.as_slice(), number)
    }
}

/// The flag of this number.
fn flag_at(flags: &[bool], number: u32) -> bool
    ensures { result ≡ spec.flag_at flags.now number }
{
    match flags.get(number as usize) {
        Some(flag) => *flag,
        None => false,
    }
}

/// The flags of these numbers.
fn flags_of(alloc: Global, numbers: &[u32]) -> Result<List<bool>, OutOfMemory>
    ensures { IfOk result (λ flags. flags ≡ spec.marked numbers.now []) }
{
    let mut flags = List::new(alloc);
    for number in numbers {
        mark(&mut flags, *number)?;
    }
    Ok(flags)
}

/// Sets the flag of this number.
fn mark(flags: &mut List<bool>, number: u32) -> Result<(), OutOfMemory>
    ensures { OnOk result (flags.new ≡ spec.mark number flags.old) }
{
    let at = number as usize;
    while flags.len() <= at {
        flags.push(false)?;
    }
    flags.set(at, true);
    Ok(())
}
