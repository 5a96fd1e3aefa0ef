//! For each statement the DECLARE of the cursor that it opens.

ghost use Rattle.std.specs.Prelude.{◌≡◌, IfOk, OnOk, map, option_map, option_and_then, slice_get};
ghost use Rattle.std.specs.Option.{option_copied};
ghost use Rattle.ec_ctypes.specs.views.Embedded.{emb_view};
ghost use Rattle.ec_expand_blocks.specs.cursors.Declares as declares;
ghost use Rattle.ec_typing_defs.specs.statement_parts.Cursors as spec;

use crate::cursors::names::{declared_cursor, lowered, opened_cursor};
use ec_base::{List, OutOfMemory};
use ec_ctypes::Emb;
use ec_scopes::Table;
use std::alloc::Global;

/// For each statement of a program, the number of the DECLARE of the cursor that it opens: the first one above it.
#[derive(Drop)]
pub struct CursorTable {
    pub numbers: List<Option<usize>>,
}

// The cursor that the statement of this number declares, beside those so far, of which each keeps its first number.
fn add_cursor(
    alloc: Global,
    known: &mut Table<usize>,
    number: usize,
    emb: &Emb,
) -> Result<(), OutOfMemory>
    ensures { OnOk result (known.new ≡ declares.with_cursor number (spec.declared_cursor
        (emb_view emb.now)) known.old) }
{
    let Some(cursor) = declared_cursor(emb) else {
        return Ok(());
    };
    let name = lowered(alloc, cursor.as_slice())?;
    if known.get(name.as_slice()).is_none() {
        known.put(alloc, name.as_slice(), number)?;
    }
    Ok(())
}

// The number of the DECLARE of the cursor that the statement opens.
fn number_opened(
    alloc: Global,
    known: &Table<usize>,
    emb: &Emb,
) -> Result<Option<usize>, OutOfMemory>
    ensures { IfOk result (λ number. number ≡ declares.found_in known.now (spec.opened_cursor
        (emb_view emb.now))) }
{
    match opened_cursor(emb) {
        Some(cursor) => {
            let name = lowered(alloc, cursor.as_slice())?;
            Ok(known.get(name.as_slice()).copied())
        }
        None => Ok(None),
    }
}

/// The table of the statements of a program.
pub fn cursors(alloc: Global, embs: &List<Emb>) -> Result<CursorTable, OutOfMemory>
    ensures { IfOk result (λ table. table.numbers ≡ declares.declare_numbers
        (map emb_view embs.now)) }
{
    let embs = embs.as_slice();
    let mut known = Table::new(alloc);
    let mut numbers = List::new(alloc);
    for number in 0..embs.len() {
        let emb = &embs[number];
        numbers.push(number_opened(alloc, &known, emb)?)?;
        add_cursor(alloc, &mut known, number, emb)?;
    }
    Ok(CursorTable { numbers })
}

impl CursorTable {
    /// The DECLARE of the cursor that the statement of this number opens. It takes no memory.
    pub fn declare_opened<'a>(&self, embs: &'a List<Emb>, number: usize) -> Option<&'a Emb>
        requires { self.now.numbers ≡ declares.declare_numbers (map emb_view embs.now) }
        ensures { option_map emb_view (option_copied result) ≡ option_and_then
            (λ e. spec.declare_opened (map emb_view embs.now) number e)
            (slice_get (map emb_view embs.now) number) }
    {
        match self.numbers.get(number) {
            Some(Some(declare)) => embs.get(*declare),
            Some(None) => None,
            None => None,
        }
    }
}
