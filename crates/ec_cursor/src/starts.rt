//! What the parts of a program begin with.

ghost use Rattle.std.specs.Prelude.{◌≡◌};
ghost use Rattle.ec_cursor.specs.Branches.{begins_subexpression as subexpression_begins};
ghost use Rattle.ec_cursor.specs.States.{seen};
ghost use Rattle.ec_grammar.specs.Input.{kind_at};
ghost use Rattle.ec_grammar.specs.Starts as spec;

use crate::cursor::Cursor;
use crate::parts::Subexpression;
use ec_ctypes::Punct;
use ec_grammar::Kind;

/// Whether it begins a type.
pub fn begins_type(kind: Kind) -> bool
    ensures { result ≡ spec.begins_type kind }
{
    match kind {
        Kind::Const | Kind::TypeWord | Kind::Varchar | Kind::Struct => true,
        _ => false,
    }
}

/// Whether it begins what may stand behind a primary expression.
pub fn begins_postfix_part(kind: Kind) -> bool
    ensures { result ≡ spec.begins_postfix_part kind }
{
    match kind {
        Kind::Mark(Punct::LeftBracket)
        | Kind::Mark(Punct::Dot)
        | Kind::Mark(Punct::Arrow)
        | Kind::Mark(Punct::PlusPlus)
        | Kind::Mark(Punct::MinusMinus)
        | Kind::Mark(Punct::LeftParen) => true,
        _ => false,
    }
}

/// Whether it begins an expression.
pub fn begins_expression(kind: Kind) -> bool
    ensures { result ≡ spec.begins_expression kind }
{
    match kind {
        Kind::Mark(Punct::LeftParen)
        | Kind::Mark(Punct::PlusPlus)
        | Kind::Mark(Punct::MinusMinus)
        | Kind::Mark(Punct::And)
        | Kind::Mark(Punct::Star)
        | Kind::Mark(Punct::Plus)
        | Kind::Mark(Punct::Minus)
        | Kind::Mark(Punct::Tilde)
        | Kind::Mark(Punct::Not)
        | Kind::Sizeof
        | Kind::Name
        | Kind::Integer
        | Kind::Character
        | Kind::Text => true,
        _ => false,
    }
}

/// Whether the next token begins the subexpression.
pub fn begins_subexpression(subexpression: Subexpression, cursor: &Cursor<'_>) -> bool
    ensures { result ≡ subexpression_begins subexpression (kind_at (seen cursor.now).tokens) }
{
    match subexpression {
        Subexpression::Parenthesized => cursor.sees(Kind::Mark(Punct::LeftParen)),
        Subexpression::Index => cursor.sees(Kind::Mark(Punct::LeftBracket)),
        _ => begins_expression(cursor.peek()),
    }
}

/// Whether it begins a declarator.
pub fn begins_declarator(kind: Kind) -> bool
    ensures { result ≡ spec.begins_declarator kind }
{
    match kind {
        Kind::Mark(Punct::Star) | Kind::Name => true,
        _ => false,
    }
}

/// Whether it begins what stands at the top level.
pub fn begins_item(kind: Kind) -> bool
    ensures { result ≡ spec.begins_item kind }
{
    match kind {
        Kind::Include
        | Kind::Directive
        | Kind::Opening
        | Kind::Closing
        | Kind::Static
        | Kind::Const
        | Kind::TypeWord
        | Kind::Varchar
        | Kind::Struct => true,
        _ => false,
    }
}

/// Whether it begins an initializer.
pub fn begins_initializer(kind: Kind) -> bool
    ensures { result ≡ spec.begins_initializer kind }
{
    match kind {
        Kind::Mark(Punct::LeftBrace) => true,
        other => begins_expression(other),
    }
}

/// Whether it begins a statement.
pub fn begins_statement(kind: Kind) -> bool
    ensures { result ≡ spec.begins_statement kind }
{
    match kind {
        Kind::Mark(Punct::Semicolon)
        | Kind::Mark(Punct::LeftBrace)
        | Kind::Executable
        | Kind::Directive
        | Kind::If
        | Kind::While
        | Kind::Do
        | Kind::For
        | Kind::Break
        | Kind::Continue
        | Kind::Return
        | Kind::Goto => true,
        other => begins_expression(other),
    }
}

/// Whether it begins what stands in a block.
pub fn begins_block_item(kind: Kind) -> bool
    ensures { result ≡ spec.begins_block_item kind }
{
    match kind {
        Kind::Const
        | Kind::TypeWord
        | Kind::Varchar
        | Kind::Struct
        | Kind::Opening
        | Kind::Closing => true,
        other => begins_statement(other),
    }
}
