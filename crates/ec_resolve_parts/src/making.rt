//! Statements, made of their parts. Each is in a box, since trees are large.
#![tactic(auto, using(ec_code::specs::declared::statement::Statement::the_lemmas, ec_code::specs::declared::statement::Loop::the_lemmas))]

ghost use Rattle.std.specs.Prelude.{◌≡◌, [], ◌∷◌, IfOk, None, Some, map, option_map};
ghost use Rattle.ec_code.specs.Views.{expression_view, expressions_view, size_view, statement_view, statements_view};
ghost use Rattle.ec_meaning_defs.specs.resolved.Resolved as of;
ghost use Rattle.ec_resolving_defs.specs.Statements as rule;
ghost use Rattle.ec_resolve_parts.specs.Made.{listed_view, optional_view};

use ec_base::{Boxed, Line, List, OutOfMemory};
use ec_code::{Expression, Loop, Mark, ObjectSize, Statement};
use std::alloc::Global;

/// A statement on this line.
pub fn on_line(
    alloc: Global,
    line: Line,
    s: Boxed<Statement>,
) -> Result<Boxed<Statement>, OutOfMemory>
    ensures { IfOk result (λ made. statement_view made ≡ of.on_line line.0 (statement_view s)) }
{
    Boxed::new(alloc, Statement::OnLine(line, s))
}

/// A statement that does nothing.
pub fn nothing(alloc: Global) -> Result<Boxed<Statement>, OutOfMemory>
    ensures { IfOk result (λ made. statement_view made ≡ of.nothing) }
{
    Boxed::new(alloc, Statement::Nothing)
}

/// An expression as a statement.
pub fn evaluated(alloc: Global, e: Boxed<Expression>) -> Result<Boxed<Statement>, OutOfMemory>
    ensures { IfOk result (λ made. statement_view made ≡ of.evaluate (expression_view e)) }
{
    Boxed::new(alloc, Statement::Evaluate(e.into_inner()))
}

/// A declaration without an initializer.
pub fn declare_unset(alloc: Global, slot: u32, size: u64) -> Result<Boxed<Statement>, OutOfMemory>
    ensures { IfOk result (λ made. statement_view made ≡ of.declare slot size) }
{
    Boxed::new(alloc, Statement::Declare(slot, size))
}

/// A declaration with an initializer, which makes these stores.
pub fn declare_initialized(
    alloc: Global,
    slot: u32,
    size: u64,
    stores: List<Expression>,
) -> Result<Boxed<Statement>, OutOfMemory>
    ensures { IfOk result (λ made. statement_view made
        ≡ of.initialize slot size (expressions_view stores)) }
{
    Boxed::new(alloc, Statement::Initialize(slot, size, stores))
}

/// A block with objects of these sizes.
pub fn block(
    alloc: Global,
    objects: List<ObjectSize>,
    statements: List<Statement>,
) -> Result<Boxed<Statement>, OutOfMemory>
    ensures { IfOk result (λ made. statement_view made
        ≡ of.block (map size_view objects) (statements_view statements)) }
{
    Boxed::new(alloc, Statement::Block(objects, statements))
}

/// A choice by a condition.
pub fn choice(
    alloc: Global,
    condition: Boxed<Expression>,
    first: Boxed<Statement>,
    second: Boxed<Statement>,
) -> Result<Boxed<Statement>, OutOfMemory>
    ensures { IfOk result (λ made. statement_view made
        ≡ of.choose (expression_view condition) (statement_view first) (statement_view second)) }
{
    Boxed::new(
        alloc,
        Statement::Choose(condition.into_inner(), first, second),
    )
}

/// An expression out of its box, if there is one.
pub fn unboxed(e: Option<Boxed<Expression>>) -> Option<Expression>
    ensures { result ≡ e }
{
    match e {
        Some(e) => Some(e.into_inner()),
        None => None,
    }
}

/// A loop, whose test stands before the body or behind it.
pub fn repeated(
    alloc: Global,
    tested: bool,
    test: Option<Boxed<Expression>>,
    behind: Option<Boxed<Expression>>,
    body: Boxed<Statement>,
) -> Result<Boxed<Statement>, OutOfMemory>
    ensures { IfOk result (λ made. statement_view made
        ≡ of.loop tested (optional_view test) (optional_view behind) (statement_view body)) }
{
    let turns = Boxed::new(
        alloc,
        Loop {
            tested,
            test: unboxed(test),
            behind: unboxed(behind),
            body: body.into_inner(),
        },
    )?;
    Boxed::new(alloc, Statement::Loop(turns))
}

/// `break`
pub fn left(alloc: Global) -> Result<Boxed<Statement>, OutOfMemory>
    ensures { IfOk result (λ made. statement_view made ≡ of.leave) }
{
    Boxed::new(alloc, Statement::Leave)
}

/// `continue`
pub fn continued(alloc: Global) -> Result<Boxed<Statement>, OutOfMemory>
    ensures { IfOk result (λ made. statement_view made ≡ of.next) }
{
    Boxed::new(alloc, Statement::Next)
}

/// `return` without a value.
pub fn returned_nothing(alloc: Global) -> Result<Boxed<Statement>, OutOfMemory>
    ensures { IfOk result (λ made. statement_view made ≡ of.return None) }
{
    Boxed::new(alloc, Statement::Return(None))
}

/// `return` with a value.
pub fn returned(alloc: Global, e: Expression) -> Result<Boxed<Statement>, OutOfMemory>
    ensures { IfOk result (λ made. statement_view made ≡ of.return (Some (expression_view e))) }
{
    Boxed::new(alloc, Statement::Return(Some(e)))
}

/// A jump to the label of this number.
pub fn jump(alloc: Global, label: u32) -> Result<Boxed<Statement>, OutOfMemory>
    ensures { IfOk result (λ made. statement_view made ≡ of.goto label) }
{
    Boxed::new(alloc, Statement::Goto(label))
}

/// A statement behind the label of this number.
pub fn labelled(
    alloc: Global,
    label: u32,
    s: Boxed<Statement>,
) -> Result<Boxed<Statement>, OutOfMemory>
    ensures { IfOk result (λ made. statement_view made ≡ of.label (of.named label) (statement_view s)) }
{
    Boxed::new(alloc, Statement::Label(Mark::Named(label), s))
}

/// The embedded statement of this number.
pub fn embedded(alloc: Global, number: u32) -> Result<Boxed<Statement>, OutOfMemory>
    ensures { IfOk result (λ made. statement_view made ≡ of.embedded_statement number) }
{
    Boxed::new(alloc, Statement::Embedded(number))
}

/// Statements as a block without objects.
fn grouped(alloc: Global, statements: List<Statement>) -> Result<Boxed<Statement>, OutOfMemory>
    ensures { IfOk result (λ made. statement_view made
        ≡ of.block [] (statements_view statements)) }
{
    block(alloc, List::new(alloc), statements)
}

/// Statements as one: one is itself, and others are a block without objects.
pub fn together(alloc: Global, statements: List<Statement>) -> Result<Boxed<Statement>, OutOfMemory>
    ensures { IfOk result (λ made. statement_view made ≡ rule.together (listed_view statements)) }
{
    if statements.len() > 1 {
        return grouped(alloc, statements);
    }
    let mut statements = statements;
    match statements.pop() {
        Some(only) => Boxed::new(alloc, only),
        None => nothing(alloc),
    }
}

/// A loop behind its first part.
pub fn behind_first_part(
    alloc: Global,
    first: Option<Boxed<Expression>>,
    turns: Boxed<Statement>,
) -> Result<Boxed<Statement>, OutOfMemory>
    ensures { IfOk result (λ made. statement_view made
        ≡ rule.behind_first_part (optional_view first) (statement_view turns)) }
{
    match first {
        None => Ok(turns),
        Some(first) => {
            let first = evaluated(alloc, first)?;
            let mut both = List::new(alloc);
            both.push(first.into_inner())?;
            both.push(turns.into_inner())?;
            grouped(alloc, both)
        }
    }
}
