//! What tokens hold.

ghost use Rattle.std.specs.Prelude.{◌≡◌};
ghost use Rattle.ec_ctypes.specs.views.Tokens.{tok_view};
ghost use Rattle.ec_language.specs.Productions.{number_in};
ghost use Rattle.ec_csyntax.specs.Texts.{IsEmbedded};

use ec_ctypes::{Tok, Token};

/// The number of an embedded statement.
pub fn embedded_number(token: &Token) -> u32
    requires { IsEmbedded (tok_view token.now.tok) }
    ensures { result ≡ number_in (tok_view token.now.tok) }
{
    match token.tok {
        Tok::Emb(number, _) => number,
        _ => unreachable!(),
    }
}
