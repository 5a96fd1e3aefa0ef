//! The cursors that statements name.

ghost use Rattle.std.specs.Prelude.{◌≡◌, IfOk, map};
ghost use Rattle.std.specs.Option.{option_copied};
ghost use Rattle.ec_ctypes.specs.views.Embedded.{emb_view};
ghost use Rattle.ec_language.specs.Letters as letters;
ghost use Rattle.ec_typing_defs.specs.statement_parts.Cursors as spec;

use ec_base::{Bytes, List, Name, OutOfMemory};
use ec_ctypes::{Emb, EmbKind};
use std::alloc::Global;

/// The cursor that a statement declares.
pub(crate) fn declared_cursor(emb: &Emb) -> Option<&Name>
    ensures { option_copied result ≡ spec.declared_cursor (emb_view emb.now) }
{
    match &emb.kind {
        EmbKind::Declare { cursor, .. } => Some(cursor),
        _ => None,
    }
}

/// The cursor that a statement opens.
pub(crate) fn opened_cursor(emb: &Emb) -> Option<&Name>
    ensures { option_copied result ≡ spec.opened_cursor (emb_view emb.now) }
{
    match &emb.kind {
        EmbKind::OpenCursor { cursor, .. } => Some(cursor),
        _ => None,
    }
}

// In lower case, where it is a letter of ASCII.
fn lower(byte: u8) -> u8
    ensures { result ≡ letters.lower byte }
{
    if b'A' <= byte && byte <= b'Z' {
        byte + 32
    } else {
        byte
    }
}

/// The name in lower case: names of cursors are compared without regard to case.
pub(crate) fn lowered(alloc: Global, name: &[u8]) -> Result<Bytes, OutOfMemory>
    ensures { IfOk result (λ bytes. bytes ≡ map letters.lower name.now) }
{
    let mut bytes = List::new(alloc);
    for byte in name {
        bytes.push(lower(*byte))?;
    }
    Ok(bytes)
}
