//! What the machine looks at, and what waits for its answer.

use ec_base::Line;
use ec_code::{Binary, Expression, FullStep, Function, Loop, Mark, Statement};
use ec_printf::formats::{Channel, Known};
use ec_values::Word;

/// What becomes of values that are collected.
#[derive(Clone, Copy)]
pub enum Callee<'p> {
    /// The function of this number is called, and whether its value is used.
    Function(u32, bool),
    Known(&'p Known),
    /// The library's call of this number is made, whose first pointers they are.
    Library(u32),
    /// They were stored in an object that is initialized, and nothing is left to do.
    Object,
}

/// What a statement leads to.
#[derive(Clone, Copy)]
pub enum Flow {
    On,
    Broke,
    Continued,
    /// To a label.
    Went(u32),
    /// With the value of the function, if it has one.
    Back(Option<Word>),
}

/// What is looked at: a part of the program that is to be run, or what such a part led to.
#[derive(Clone, Copy)]
pub enum Focus<'p> {
    Runs(&'p Statement),
    /// A statement that holds the label or case is run from there.
    Looks(Mark, &'p Statement),
    Evaluates(&'p Expression),
    Value(Word),
    /// The bytes of the machine's text go out, and the call that put them has this value.
    Puts(Channel, Option<Word>),
    /// The library's call of this number is made. The last values, so many, are those of its first pointers.
    Calls(u32, usize),
    Leads(Flow),
}

/// The way out of a function: the line of its call, whether its value is used, whether the function that called is the
/// first `main`, the object that was last before the call, how many pointers there were, and how many of them were in
/// scope; the function, and the steps behind the call.
#[derive(Clone, Copy)]
pub struct Way<'p> {
    pub line: Line,
    pub used: bool,
    pub first: bool,
    pub mark: u32,
    pub height: usize,
    pub count: usize,
    pub function: &'p Function,
    pub steps: &'p [FullStep],
}

/// What waits for an answer, with the line that it goes on at.
#[derive(Clone, Copy)]
pub enum Frame<'p> {
    /// The steps behind a value.
    Steps(Line, &'p [FullStep]),
    /// A step with the value at its left and the old value of its place, for the value at its right.
    Right(Line, &'p Binary, Word, Word, &'p [FullStep]),
    /// The number of arguments so far, and the further ones.
    Arguments(Line, Callee<'p>, usize, &'p [Expression], &'p [FullStep]),
    /// The body of a function that was called, which answers a `goto`.
    Call(Way<'p>),
    /// A call of the library, and how many values are those of its pointers.
    Called(Line, usize, &'p [FullStep]),
    /// An expression as a statement.
    Do,
    /// `return`
    Give,
    Choose(Line, &'p Statement, &'p Statement),
    /// The first operand of `?:`, and the others.
    Choice(Line, &'p Expression, &'p Expression),
    /// The operand of a `switch`, and its body.
    Select(Line, &'p Statement),
    /// The body of a `switch`.
    Switch,
    /// The test of a loop.
    Test(Line, &'p Loop),
    /// What a loop evaluates behind its body.
    Behind(Line, &'p Loop),
    /// The body of a loop.
    Body(Line, &'p Loop),
    /// The statements behind one.
    Rest(Line, &'p [Statement]),
    /// The statements of a block, which answers a `goto`.
    Settle(Line, &'p [Statement]),
    /// The end of a block: the object that was last before it, how many pointers there were, and how many of
    /// them were in scope.
    Close(u32, usize, usize),
}
