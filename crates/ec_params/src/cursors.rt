//! The cursors of a program.

ghost use Rattle.std.specs.Prelude.{◌≡◌, ◌++◌, [], ◌∷◌, IfOk, OnOk, Some, None, map, ◌+◌, if◌then◌else◌};
ghost use Rattle.ec_ctypes.specs.views.Embedded.{emb_view};
ghost use Rattle.ec_language.specs.Letters as letters;
ghost use Rattle.ec_typing_defs.specs.statement_parts.Cursors.{declared_cursor};
ghost use Rattle.ec_params.specs.Tables as spec;
ghost use Rattle.ec_typing_defs.specs.Tables as tables;

use ec_base::{Bytes, List, Name, OutOfMemory};
use ec_ctypes::{Emb, EmbKind};
use ec_scopes::Table;
use std::alloc::Global;

/// A byte in lower case, where it is a letter of ASCII.
fn lower(byte: u8) -> u8
    ensures { result ≡ letters.lower byte }
{
    if byte >= b'A' && byte <= b'Z' {
        byte + 32
    } else {
        byte
    }
}

/// A name in lower case.
fn lowered(alloc: Global, name: &[u8]) -> Result<Bytes, OutOfMemory>
    ensures { IfOk result (λ bytes. bytes ≡ map letters.lower name.now) }
{
    let mut bytes = List::new(alloc);
    for byte in name {
        bytes.push(lower(*byte))?;
    }
    Ok(bytes)
}

/// What a cursor stands for.
fn find(table: &Table<u32>, key: &[u8]) -> Option<u32>
    ensures { result ≡ tables.find key.now table.now }
{
    match table.get(key) {
        Some(number) => Some(*number),
        None => None,
    }
}

/// Notes the cursor of the statement of this number, and gives the first DECLARE of it above.
fn note_cursor(
    alloc: Global,
    table: &mut Table<u32>,
    number: u32,
    cursor: &Name,
    declares: bool,
) -> Result<Option<u32>, OutOfMemory>
    ensures found { IfOk result (λ above. above ≡ spec.found_in table.old (Some cursor.now)) }
    ensures noted { OnOk result (table.new
        ≡ spec.with_declared number table.old (if declares then Some cursor.now else None)) }
{
    let key = lowered(alloc, cursor.as_slice())?;
    let above = find(table, key.as_slice());
    if declares && above.is_none() {
        table.put(alloc, key.as_slice(), number)?;
    }
    Ok(above)
}

/// Notes a statement, and gives the first DECLARE above of the cursor that it names.
fn note_statement(
    alloc: Global,
    table: &mut Table<u32>,
    number: u32,
    emb: &Emb,
) -> Result<Option<u32>, OutOfMemory>
    ensures found { IfOk result (λ above. above
        ≡ spec.found_in table.old (spec.named_cursor (emb_view emb.now))) }
    ensures noted { OnOk result (table.new
        ≡ spec.with_declared number table.old (declared_cursor (emb_view emb.now))) }
{
    match &emb.kind {
        EmbKind::Declare { cursor, .. } => note_cursor(alloc, table, number, cursor, true),
        EmbKind::OpenCursor { cursor, .. } => note_cursor(alloc, table, number, cursor, false),
        _ => Ok(None),
    }
}

/// The number behind this, where it can be counted.
fn next_number(number: u32) -> Result<u32, OutOfMemory>
    ensures { IfOk result (λ n. n ≡ number + 1) }
{
    match number.checked_add(1) {
        Some(next) => Ok(next),
        // Out of reach, which isn't proved: a source has at most 2^22 tokens, so it has fewer statements.
        None => Err(OutOfMemory),
    }
}

/// For each statement, the first DECLARE above it of the cursor that it names.
pub(crate) fn declares_above(alloc: Global, embs: &[Emb]) -> Result<List<Option<u32>>, OutOfMemory>
    ensures { IfOk result (λ above. above ≡ spec.aboves 0 [] (map emb_view embs.now)) }
{
    let mut table = Table::new(alloc);
    let mut above = List::new(alloc);
    let mut number = 0;
    for emb in embs {
        let found = note_statement(alloc, &mut table, number, emb)?;
        above.push(found)?;
        number = next_number(number)?;
    }
    Ok(above)
}
