//! What stands round a statement.

ghost use Rattle.std.specs.Prelude.{◌≡◌};
ghost use Rattle.ec_typing_defs.specs.Statements as rule;
ghost use Rattle.ec_embedded_rules.specs.Around.{around_view};

use crate::parts::Statements;
use ec_ctypes::Ty;
use ec_scopes::Table;

/// What stands round a statement.
#[derive(Clone, Copy)]
pub struct Around<'a> {
    /// The embedded statements of the program.
    pub embedded: &'a Statements<'a>,
    /// Whether the statement is the body of `if`, `else`, a loop or a label.
    pub is_body: bool,
    /// Whether a loop stands round it.
    pub in_loop: bool,
    /// The labels of the function.
    pub labels: &'a Table<()>,
    /// The type of the function's result, if it is known.
    pub result: &'a Option<Ty>,
}

/// Round the body of a loop.
pub fn looping(a: Around<'_>) -> Around<'_>
    ensures { around_view result ≡ rule.looping (around_view a.entry) }
{
    Around {
        embedded: a.embedded,
        is_body: true,
        in_loop: true,
        labels: a.labels,
        result: a.result,
    }
}

/// Round the body of `if`, `else` or a label.
pub fn as_body(a: Around<'_>) -> Around<'_>
    ensures { around_view result ≡ rule.as_body (around_view a.entry) }
{
    Around {
        embedded: a.embedded,
        is_body: true,
        in_loop: a.in_loop,
        labels: a.labels,
        result: a.result,
    }
}

/// Round an item of a block.
pub fn as_item(a: Around<'_>) -> Around<'_>
    ensures { around_view result ≡ rule.as_item (around_view a.entry) }
{
    Around {
        embedded: a.embedded,
        is_body: false,
        in_loop: a.in_loop,
        labels: a.labels,
        result: a.result,
    }
}
