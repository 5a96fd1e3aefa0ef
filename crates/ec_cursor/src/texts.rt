//! What tokens hold.

ghost use Rattle.std.specs.Prelude.{◌≡◌, IfOk};
ghost use Rattle.ec_ctypes.specs.views.Tokens.{tok_view};
ghost use Rattle.ec_language.specs.Productions.{bytes_in};

use ec_base::{Bytes, List, Name, OutOfMemory};
use ec_ctypes::Tok;
use std::alloc::Global;

/// A copy of the bytes that a token holds, or none, as a name.
pub fn copy_name(alloc: Global, tok: &Tok) -> Result<Name, OutOfMemory>
    ensures { IfOk result (λ name. name ≡ bytes_in (tok_view tok.now)) }
{
    match tok {
        Tok::Word(name) => Ok(name.clone()?),
        Tok::Str(bytes) => Name::from_slice(alloc, bytes.as_slice()),
        Tok::Include(bytes) => Name::from_slice(alloc, bytes.as_slice()),
        _ => Ok(Name::new()),
    }
}

/// A copy of the bytes that a token holds, or none.
pub fn copy_text(alloc: Global, tok: &Tok) -> Result<Bytes, OutOfMemory>
    ensures { IfOk result (λ text. text ≡ bytes_in (tok_view tok.now)) }
{
    match tok {
        Tok::Word(bytes) => List::from_slice(alloc, bytes.as_slice()),
        Tok::Str(bytes) => List::from_slice(alloc, bytes.as_slice()),
        Tok::Include(bytes) => List::from_slice(alloc, bytes.as_slice()),
        _ => Ok(List::new(alloc)),
    }
}
