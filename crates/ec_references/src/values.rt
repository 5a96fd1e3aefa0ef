//! Values that a statement sends: hosts, numbers and quotes.

ghost use Rattle.std.specs.Prelude.{◌≡◌, ◌++◌, IfOk, codes};
ghost use Rattle.ec_clex.specs.Sql.{sql_view};
ghost use Rattle.ec_ctypes.specs.views.Embedded.{input_view};
ghost use Rattle.ec_references.specs.Readers as spec;
ghost use Rattle.ec_references.specs.States.{CursorReads};

use crate::class::Class;
use crate::cursor::Cursor;
use crate::names::{copy_bytes, unquoted};
use crate::references::{input_host, spelled_input};
use ec_base::{Bytes, List, OutOfMemory};
use ec_clex::SqlToken;
use ec_ctypes::Input;
use ec_embedded::shapes::Failure;
use std::alloc::Global;

/// A number behind its sign.
fn negative(alloc: Global, token: &SqlToken<'_>) -> Result<Bytes, OutOfMemory>
    ensures { IfOk result (λ bytes. bytes ≡ codes "-" ++ (sql_view token.now).bytes) }
{
    let mut bytes = List::from_slice(alloc, b"-")?;
    bytes.extend_from_slice(token.bytes)?;
    Ok(bytes)
}

/// A number or a quote.
#[tactic(auto, unfolding(crate::specs::Readers::constant))]
pub fn constant(alloc: Global, cursor: &mut Cursor<'_>) -> Result<Input, Failure>
    ensures { CursorReads input_view spec.constant cursor.old result cursor.new }
{
    if cursor.at(Class::InputNumber) {
        let token = cursor.take(Class::InputNumber)?;
        return Ok(Input::Const(copy_bytes(alloc, token)?));
    }
    if cursor.at(Class::InputMinus) {
        cursor.take(Class::InputMinus)?;
        let token = cursor.take(Class::WholeNumber)?;
        return Ok(Input::Const(negative(alloc, token)?));
    }
    let token = cursor.take(Class::InputQuote)?;
    Ok(Input::Const(unquoted(alloc, token)?))
}

/// A value.
#[tactic(auto, unfolding(crate::specs::Readers::value))]
pub fn value(alloc: Global, cursor: &mut Cursor<'_>) -> Result<Input, Failure>
    ensures { CursorReads input_view spec.value cursor.old result cursor.new }
{
    if cursor.at(Class::InputColon) {
        return Ok(Input::Host(input_host(alloc, cursor)?));
    }
    constant(alloc, cursor)
}

/// A value, of a host with an indicator that is spelled.
#[tactic(auto, unfolding(crate::specs::Readers::spelled_value))]
pub fn spelled_value(alloc: Global, cursor: &mut Cursor<'_>) -> Result<Input, Failure>
    ensures { CursorReads input_view spec.spelled_value cursor.old result cursor.new }
{
    if cursor.at(Class::InputColon) {
        return Ok(Input::Host(spelled_input(alloc, cursor)?));
    }
    constant(alloc, cursor)
}
