//! Where labels stand.

ghost use Rattle.std.specs.Prelude.{◌≡◌, ◌≤◌, ◌+◌, IfSome};
ghost use Rattle.ec_code.specs.Marks.{mark_view};
ghost use Rattle.ec_code.specs.Views.{statement_view, statements_view};
ghost use Rattle.ec_meaning_defs.specs.resolved.Labels.{holds, holds_any};
ghost use Rattle.ec_machine.specs.Standing.{IsStanding};
ghost use Rattle.ec_machine.specs.Weights.{statement_weight, statements_weight};

use ec_code::{Mark, Statement};

/// Whether a label or a case stands in a statement, however deep (ISO/IEC 9899:1999, 6.8.1). A case stands in no `switch`
/// further in (6.8.4.2).
#[cycle(labels)]
pub fn holds(label: Mark, statement: &Statement) -> bool
    ensures { result ≡ holds (mark_view label) (statement_view statement.now) }
{
    match statement {
        Statement::OnLine(_, inner) => holds(label, inner.get()),
        Statement::Block(_, body) => holds_any(label, body.as_slice()),
        Statement::Choose(_, first, second) => {
            holds(label, first.get()) || holds(label, second.get())
        }
        Statement::Loop(inner) => holds(label, &inner.get().body),
        Statement::Label(mark, inner) => mark.is_same(label) || holds(label, inner.get()),
        Statement::Switch(_, body) => label.is_named() && holds(label, body.get()),
        Statement::Nothing => false,
        Statement::Evaluate(_) => false,
        Statement::Declare(_, _) => false,
        Statement::Initialize(_, _, _) => false,
        Statement::Leave => false,
        Statement::Next => false,
        Statement::Return(_) => false,
        Statement::Goto(_) => false,
        Statement::Embedded(_) => false,
    }
}

/// Whether a label or a case stands in one of some statements.
#[cycle(labels)]
pub fn holds_any(label: Mark, statements: &[Statement]) -> bool
    ensures { result ≡ holds_any (mark_view label) (statements_view statements.now) }
{
    for statement in statements {
        if holds(label, statement) {
            return true;
        }
    }
    false
}

/// Where a statement stands that holds a label or a case, and what stands behind it.
#[derive(Clone, Copy)]
pub(crate) struct Standing<'p> {
    pub first: &'p Statement,
    pub rest: &'p [Statement],
}

/// The first of some statements that holds a label or a case.
pub(crate) fn first_holding<'p>(label: Mark, statements: &'p [Statement]) -> Option<Standing<'p>>
    ensures found { IsStanding (mark_view label) statements.now result }
    ensures smaller { IfSome result (λ x. 1 + statement_weight x.first.now + statements_weight
        x.rest.now ≤ statements_weight statements.now) }
{
    let mut left = statements;
    while let [first, rest @ ..] = left {
        if holds(label, first) {
            return Some(Standing { first, rest });
        }
        left = rest;
    }
    None
}
