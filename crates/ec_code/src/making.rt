//! Expressions are made from what stands at their left: each operator adds a step.

ghost use Rattle.std.specs.Prelude.{◌≡◌, None, IfOk, IfSome, map};
ghost use Rattle.ec_meaning_defs.specs.resolved.Resolved as of;
ghost use Rattle.ec_printf.specs.formats.Known.{known_view};
ghost use Rattle.ec_memory_defs.specs.Memory.{number};
ghost use Rattle.ec_values.specs.Words.{word_view};
ghost use Rattle.ec_code.specs.Numbers.{IsNoLong};
ghost use Rattle.ec_code.specs.Trees.{leaf_view, one_made, stepped, two, two_made, walked};
ghost use Rattle.ec_code.specs.declared.expression.Plain.{out-Plain};
ghost use Rattle.ec_code.specs.Views.{expression_view, expressions_view, full_step_view, full_view, head_view, plain_step_view, plain_view};

use crate::expression::{Expression, Full, FullStep, Head, Plain, PlainStep};
use crate::step::{Binary, Leaf, Unary};
use ec_base::{Boxed, List, OutOfMemory};
use ec_memory_defs::Kind;
use ec_printf::formats::Known;
use ec_values::Word;
use std::alloc::Global;

impl Expression {
    /// An expression of one leaf. It takes no memory.
    pub fn leaf(alloc: Global, leaf: Leaf) -> Expression
        ensures { expression_view result ≡ leaf_view leaf }
    {
        Expression::Plain(Plain {
            leaf,
            steps: List::new(alloc),
        })
    }

    /// A call of the function of this number, and whether its value is used. It takes no memory.
    pub fn call(alloc: Global, function: u32, used: bool, arguments: List<Expression>) -> Expression
        ensures { expression_view result ≡ of.call function used (expressions_view arguments) }
    {
        full(alloc, Head::Call(function, used, arguments))
    }

    /// A call of a known function. It takes no memory.
    pub fn known(alloc: Global, known: Known, arguments: List<Expression>) -> Expression
        ensures { expression_view result
            ≡ of.known (known_view known) (expressions_view arguments) }
    {
        full(alloc, Head::Known(known, arguments))
    }

    /// A call of the library, by its number among these, with the pointers that are evaluated before it. It takes no
    /// memory.
    pub fn library_call(alloc: Global, number: u32, pointers: List<Expression>) -> Expression
        ensures { expression_view result ≡ of.library_call number (expressions_view pointers) }
    {
        full(alloc, Head::LibraryCall(number, pointers))
    }

    /// `a ? b : c`, of operands of which the second and third have the type of the whole.
    pub fn choice(
        alloc: Global,
        test: Expression,
        first: Expression,
        second: Expression,
    ) -> Result<Expression, OutOfMemory>
        ensures { IfOk result (λ made. expression_view made
            ≡ of.choice (expression_view test) (expression_view first) (expression_view second)) }
    {
        let test = Boxed::new(alloc, test)?;
        let first = Boxed::new(alloc, first)?;
        let second = Boxed::new(alloc, second)?;
        Ok(full(alloc, Head::Choice(test, first, second)))
    }

    /// The expression with a unary step behind it.
    pub fn unary(self, step: Unary) -> Result<Expression, OutOfMemory>
        ensures { IfOk result
            (λ made. expression_view made ≡ one_made step (expression_view self)) }
    {
        match self {
            Expression::Plain(plain) => plain_unary(plain, step),
            Expression::Full(full) => full_with(full, FullStep::One(step)),
        }
    }

    /// The expression with a binary step behind it.
    pub fn binary(
        alloc: Global,
        step: Binary,
        left: Expression,
        right: Expression,
    ) -> Result<Expression, OutOfMemory>
        ensures { IfOk result (λ made. expression_view made
            ≡ two_made step (expression_view left) (expression_view right)) }
    {
        match left {
            Expression::Full(full) => full_with(full, FullStep::Two(step, right)),
            Expression::Plain(left) => match right {
                Expression::Plain(right) => plain_with(left, with_operand(step, right)),
                Expression::Full(right) => {
                    let begun = Full {
                        head: Head::Begun(left),
                        steps: List::new(alloc),
                    };
                    full_with(begun, FullStep::Two(step, Expression::Full(right)))
                }
            },
        }
    }
}

/// What begins with a call or `?:`.
fn full(alloc: Global, head: Head) -> Expression
    ensures { expression_view result ≡ head_view head }
{
    Expression::Full(Full {
        head,
        steps: List::new(alloc),
    })
}

/// An expression without calls, with a step behind it.
fn plain_with(plain: Plain, step: PlainStep) -> Result<Expression, OutOfMemory>
    ensures { IfOk result (λ made. expression_view made
        ≡ stepped (plain_view plain) (plain_step_view step)) }
{
    let Plain { leaf, mut steps } = plain;
    steps.push(step)?;
    Ok(Expression::Plain(Plain { leaf, steps }))
}

/// An expression that holds a call, with a step behind it.
fn full_with(full: Full, step: FullStep) -> Result<Expression, OutOfMemory>
    ensures { IfOk result (λ made. expression_view made
        ≡ stepped (full_view full) (full_step_view step)) }
{
    let Full { head, mut steps } = full;
    steps.push(step)?;
    Ok(Expression::Full(Full { head, steps }))
}

/// An expression without calls, with a unary step behind it.
fn plain_unary(plain: Plain, step: Unary) -> Result<Expression, OutOfMemory>
    ensures { IfOk result (λ made. expression_view made ≡ one_made step (plain_view plain)) }
{
    match value_leaf(&plain, &step) {
        Some(leaf) => Ok(Expression::Plain(Plain {
            leaf,
            steps: plain.steps,
        })),
        None => plain_with(plain, PlainStep::One(step)),
    }
}

/// Where an expression begins that is the value of an `int` or a `long` of the function.
fn value_leaf(plain: &Plain, step: &Unary) -> Option<Leaf>
    ensures { IfSome result (λ leaf.
        walked (leaf_view leaf) (map plain_step_view (out-Plain plain.now).steps)
        ≡ one_made step.now (plain_view plain.now)) }
{
    match plain.steps.as_slice() {
        [] => match (plain.leaf, step) {
            (Leaf::Slot(slot), Unary::Load(Kind::Int)) => Some(Leaf::IntValue(slot)),
            (Leaf::Slot(slot), Unary::Load(Kind::Long)) => Some(Leaf::LongValue(slot)),
            _ => None,
        },
        _ => None,
    }
}

/// A step that takes another expression. Where that is a number or a variable it stands in the step.
fn with_operand(step: Binary, right: Plain) -> PlainStep
    ensures { plain_step_view result ≡ two step (plain_view right) }
{
    match found_operand(step, &right) {
        Some(found) => found,
        None => PlainStep::Two(step, right),
    }
}

/// A step whose operand stands in it: a number or a variable.
fn found_operand(step: Binary, right: &Plain) -> Option<PlainStep>
    ensures { IfSome result (λ made. plain_step_view made ≡ two step (plain_view right.now)) }
{
    match right.steps.as_slice() {
        [] => match step {
            Binary::Operate(operation) => match right.leaf {
                Leaf::IntValue(slot) => Some(PlainStep::WithInt(operation, slot)),
                Leaf::LongValue(slot) => Some(PlainStep::WithLong(operation, slot)),
                Leaf::Constant(word) => Some(PlainStep::WithNumber(operation, small(word)?)),
                _ => None,
            },
            Binary::Update(update) => match right.leaf {
                Leaf::Constant(word) => Some(PlainStep::ChangeBy(update, small(word)?)),
                _ => None,
            },
            _ => None,
        },
        _ => None,
    }
}

/// The number of a value, where `long` has it. A pointer has none, and neither has a number from 2^63 on.
#[inline(always)]
pub fn small(word: Word) -> Option<i64>
    ensures value { IfSome result (λ z. word_view word ≡ number z) }
    ensures none { result ≡ None → IsNoLong word }
{
    match word {
        Word::Signed(number) => Some(number),
        Word::Unsigned(number) => {
            if number <= i64::MAX as u64 {
                Some(number as i64)
            } else {
                None
            }
        }
        Word::Address(_) => None,
    }
}
