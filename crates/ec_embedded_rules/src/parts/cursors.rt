//! The cursors of a program, whose names are compared without regard to case (PostgreSQL manual, "Using Cursors").

ghost use Rattle.std.specs.Prelude.{◌≡◌, map, [], IfOk, OnOk};
ghost use Rattle.std.specs.Option.{option_copied};
ghost use Rattle.ec_ctypes.specs.views.Embedded.{emb_view};
ghost use Rattle.ec_language.specs.Letters.{lower};
ghost use Rattle.ec_typing_defs.specs.statement_parts.Cursors as spec;
ghost use Rattle.ec_embedded_rules.specs.parts.Cursors.{with_cursor, cursors_from};

use ec_base::{Bytes, List, OutOfMemory};
use ec_ctypes::{Emb, EmbKind};
use ec_scopes::Table;
use std::alloc::Global;

// The byte in lower case.
fn lower(byte: u8) -> u8
    ensures { result ≡ lower byte }
{
    if byte >= b'A' && byte <= b'Z' {
        byte + 32
    } else {
        byte
    }
}

/// The name in lower case.
pub(crate) fn lowered(alloc: Global, name: &[u8]) -> Result<Bytes, OutOfMemory>
    ensures { IfOk result (λ text. text ≡ map lower name.now) }
{
    let mut text = List::new(alloc);
    for byte in name {
        text.push(lower(*byte))?;
    }
    Ok(text)
}

/// The cursor that a statement declares.
fn declared_cursor(e: &Emb) -> Option<&[u8]>
    ensures { option_copied result ≡ spec.declared_cursor (emb_view e.now) }
{
    match &e.kind {
        EmbKind::Declare { cursor, .. } => Some(cursor.as_slice()),
        _ => None,
    }
}

/// The cursor that a statement opens.
pub(crate) fn opened_cursor(e: &Emb) -> Option<&[u8]>
    ensures { option_copied result ≡ spec.opened_cursor (emb_view e.now) }
{
    match &e.kind {
        EmbKind::OpenCursor { cursor, .. } => Some(cursor.as_slice()),
        _ => None,
    }
}

// The statement of this number may declare a cursor. An earlier DECLARE of it stays.
fn add_cursor(
    alloc: Global,
    cursors: &mut Table<usize>,
    e: &Emb,
    n: usize,
) -> Result<(), OutOfMemory>
    ensures { OnOk result (cursors.new
        ≡ with_cursor (spec.declared_cursor (emb_view e.now)) n cursors.old) }
{
    match declared_cursor(e) {
        Some(name) => {
            let key = lowered(alloc, name)?;
            match cursors.get(key.as_slice()) {
                Some(_) => Ok(()),
                None => {
                    let _before = cursors.put(alloc, key.as_slice(), n)?;
                    Ok(())
                }
            }
        }
        None => Ok(()),
    }
}

/// For each cursor, by its name in lower case, the number of its first DECLARE.
pub(crate) fn cursor_table(alloc: Global, embs: &[Emb]) -> Result<Table<usize>, OutOfMemory>
    ensures { IfOk result (λ table. table ≡ cursors_from 0 (map emb_view embs.now) []) }
{
    let mut cursors = Table::new(alloc);
    for n in 0..embs.len() {
        add_cursor(alloc, &mut cursors, &embs[n], n)?;
    }
    Ok(cursors)
}
