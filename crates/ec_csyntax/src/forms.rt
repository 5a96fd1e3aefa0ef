//! What stands before the cursor, by the kinds of the next tokens.

ghost use Rattle.std.specs.Prelude.{◌≡◌};
ghost use Rattle.ec_grammar.specs.Input.{kind_at, kind_next};
ghost use Rattle.ec_cursor.specs.States.{seen};
ghost use Rattle.ec_csyntax.specs.Forms as spec;

use ec_ctypes::Punct;
use ec_cursor::Cursor;
use ec_grammar::Kind;

/// The forms of statements (ISO/IEC 9899:1999, 6.8).
#[derive(Clone, Copy, Debug)]
pub enum Form {
    Empty,
    Block,
    Executable,
    Directive,
    If,
    While,
    Do,
    For,
    Break,
    Continue,
    Return,
    Goto,
    Label,
    Expression,
}

/// What stands in a block (ISO/IEC 9899:1999, 6.8.2).
#[derive(Clone, Copy, Debug)]
pub enum ItemForm {
    Opening,
    Closing,
    Declaration,
    Statement,
}

/// What stands at the top level (ISO/IEC 9899:1999, 6.9).
#[derive(Clone, Copy, Debug)]
pub enum TopForm {
    Include,
    Directive,
    Opening,
    Closing,
    Static,
    External,
}

/// The form of a statement that begins with a mark.
fn mark_form(mark: Punct) -> Form
    ensures { result ≡ spec.mark_form mark }
{
    match mark {
        Punct::Semicolon => Form::Empty,
        Punct::LeftBrace => Form::Block,
        _ => Form::Expression,
    }
}

/// The form of a statement that begins with a name, by what stands behind it.
fn name_form(second: Kind) -> Form
    ensures { result ≡ spec.name_form second }
{
    match second {
        Kind::Mark(Punct::Colon) => Form::Label,
        _ => Form::Expression,
    }
}

/// The form of a statement that begins with no name, by the kind of its first token.
fn first_form(first: Kind) -> Form
    ensures { result ≡ spec.first_form first }
{
    match first {
        Kind::Mark(mark) => mark_form(mark),
        Kind::Executable => Form::Executable,
        Kind::Directive => Form::Directive,
        Kind::If => Form::If,
        Kind::While => Form::While,
        Kind::Do => Form::Do,
        Kind::For => Form::For,
        Kind::Break => Form::Break,
        Kind::Continue => Form::Continue,
        Kind::Return => Form::Return,
        Kind::Goto => Form::Goto,
        _ => Form::Expression,
    }
}

/// The form of the statement that stands before the cursor, by its first two tokens.
pub fn statement_form(cursor: &Cursor<'_>) -> Form
    ensures { result
        ≡ spec.statement_form (kind_at (seen cursor.now).tokens)
        (kind_next (seen cursor.now).tokens) }
{
    match cursor.peek() {
        Kind::Name => name_form(cursor.peek_next()),
        first => first_form(first),
    }
}

/// What stands in a block, by the kind of its first token.
pub fn item_form(first: Kind) -> ItemForm
    ensures { result ≡ spec.item_form first }
{
    match first {
        Kind::Opening => ItemForm::Opening,
        Kind::Closing => ItemForm::Closing,
        Kind::Const | Kind::TypeWord | Kind::Varchar | Kind::Struct => ItemForm::Declaration,
        _ => ItemForm::Statement,
    }
}

/// What stands at the top level, by the kind of its first token.
pub fn top_form(first: Kind) -> TopForm
    ensures { result ≡ spec.top_form first }
{
    match first {
        Kind::Include => TopForm::Include,
        Kind::Directive => TopForm::Directive,
        Kind::Opening => TopForm::Opening,
        Kind::Closing => TopForm::Closing,
        Kind::Static => TopForm::Static,
        _ => TopForm::External,
    }
}
