//! Primary expressions (ISO/IEC 9899:1999, 6.5.1).

ghost use Rattle.std.specs.Prelude.{◌≡◌};
ghost use Rattle.ec_ctypes.specs.views.Exprs.{expr_view};
ghost use Rattle.ec_grammar.specs.ReadExpressions as spec;
ghost use Rattle.ec_cexpressions.specs.Nests.{SubexpressionsNest};
ghost use Rattle.ec_cexpressions.specs.Primaries.{primary_view};
ghost use Rattle.ec_cursor.specs.States.{Reading, within};

use crate::expressions::Expressions;
use crate::expressions::making::{character, integer, named, string};
use ec_base::Name;
use ec_ctypes::{Base, Expr, Punct};
use ec_cursor::{Cursor, Subexpression};
use ec_grammar::{Failure, Kind};
use std::alloc::Global;

/// A primary expression, or what is built on it.
#[derive(Debug, Drop)]
pub enum Primary {
    /// A name without parentheses, which is called by that name.
    Name(Name),
    Other(Expr),
}

impl Primary {
    /// The expression that it is.
    #[tactic(auto, using(ec_ctypes::specs::declared::tree::expr::Expr::the_lemmas))]
    pub fn into_expression(self) -> Expr
        ensures { expr_view result ≡ (primary_view self).expression }
    {
        match self {
            Primary::Name(name) => Expr::Name(name),
            Primary::Other(other) => other,
        }
    }
}

impl<
    E: Fn(Global, &mut Cursor<'_>, u32, Subexpression) -> Result<Expr, Failure>,
    T: Fn(Global, &mut Cursor<'_>, u32) -> Result<(Base, u32), Failure>,
> Expressions<E, T> {
    /// A name, a constant, a string literal, or an expression in parentheses.
    #[tactic(auto, unfolding(ec_grammar::specs::ReadExpressions::primary))]
    pub fn primary(&self, cursor: &mut Cursor<'_>) -> Result<Primary, Failure>
        requires { SubexpressionsNest E.pre E.post self.now }
        ensures { Reading primary_view (within self.now.levels spec.primary)
            cursor.old result cursor.new }
    {
        match cursor.peek() {
            Kind::Name => {
                let token = cursor.expect(Kind::Name)?;
                Ok(named(self.alloc, &token.tok)?)
            }
            Kind::Integer => {
                let token = cursor.expect(Kind::Integer)?;
                Ok(Primary::Other(integer(self.alloc, &token.tok)?))
            }
            Kind::Character => {
                let token = cursor.expect(Kind::Character)?;
                Ok(Primary::Other(character(&token.tok)))
            }
            Kind::Text => {
                let token = cursor.expect(Kind::Text)?;
                Ok(Primary::Other(string(self.alloc, &token.tok)?))
            }
            Kind::Mark(Punct::LeftParen) => {
                Ok(Primary::Other(self.subexpression(cursor, Subexpression::Parenthesized)?))
            }
            _ => Err(cursor.refuse()),
        }
    }
}
