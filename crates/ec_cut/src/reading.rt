//! The first argument of those that are left, by its kind.

ghost use Rattle.ec_arguments.specs.Reading as spec;
ghost use Rattle.ec_cut.specs.Reads.{Reads, ReadsText, same};

use crate::arguments::{Argument, Front, Text};
use crate::pointers::{Literal, Pointer};
use ec_ctypes::Sym;

pub(crate) fn next_symbol<B: Literal + Copy, A: Pointer + Copy>(
    front: &mut Front<'_, B, A>,
) -> Option<Sym>
    ensures { Reads B.bytes A.view same spec.next_symbol front.old result front.new }
{
    match front.rest {
        [] => None,
        [first, rest @ ..] => match first {
            Argument::Symbol(sym) => {
                front.rest = rest;
                Some(*sym)
            }
            Argument::Literal(_) => None,
            Argument::Null => None,
            Argument::Int(_) => None,
            Argument::Long(_) => None,
            Argument::Pointer(_) => None,
            Argument::Stray => None,
        },
    }
}

pub(crate) fn next_literal<B: Literal + Copy, A: Pointer + Copy>(
    front: &mut Front<'_, B, A>,
) -> Option<B>
    ensures { Reads B.bytes A.view B.bytes spec.next_literal front.old result front.new }
{
    match front.rest {
        [] => None,
        [first, rest @ ..] => match first {
            Argument::Symbol(_) => None,
            Argument::Literal(bytes) => {
                front.rest = rest;
                Some(*bytes)
            }
            Argument::Null => None,
            Argument::Int(_) => None,
            Argument::Long(_) => None,
            Argument::Pointer(_) => None,
            Argument::Stray => None,
        },
    }
}

pub(crate) fn next_int<B: Literal + Copy, A: Pointer + Copy>(
    front: &mut Front<'_, B, A>,
) -> Option<u64>
    ensures { Reads B.bytes A.view same spec.next_int front.old result front.new }
{
    match front.rest {
        [] => None,
        [first, rest @ ..] => match first {
            Argument::Symbol(_) => None,
            Argument::Literal(_) => None,
            Argument::Null => None,
            Argument::Int(number) => {
                front.rest = rest;
                Some(*number)
            }
            Argument::Long(_) => None,
            Argument::Pointer(_) => None,
            Argument::Stray => None,
        },
    }
}

pub(crate) fn next_long<B: Literal + Copy, A: Pointer + Copy>(
    front: &mut Front<'_, B, A>,
) -> Option<u64>
    ensures { Reads B.bytes A.view same spec.next_long front.old result front.new }
{
    match front.rest {
        [] => None,
        [first, rest @ ..] => match first {
            Argument::Symbol(_) => None,
            Argument::Literal(_) => None,
            Argument::Null => None,
            Argument::Int(_) => None,
            Argument::Long(number) => {
                front.rest = rest;
                Some(*number)
            }
            Argument::Pointer(_) => None,
            Argument::Stray => None,
        },
    }
}

pub(crate) fn next_text<B: Literal + Copy, A: Pointer + Copy>(
    front: &mut Front<'_, B, A>,
) -> Option<Text<B, A>>
    ensures { ReadsText B.bytes A.view front.old result front.new }
{
    match front.rest {
        [] => None,
        [first, rest @ ..] => match first {
            Argument::Symbol(_) => None,
            Argument::Literal(bytes) => {
                front.rest = rest;
                Some(Text::Word(*bytes))
            }
            Argument::Null => {
                front.rest = rest;
                Some(Text::Absent)
            }
            Argument::Int(_) => None,
            Argument::Long(_) => None,
            Argument::Pointer(pointer) => {
                front.rest = rest;
                Some(Text::Held(*pointer))
            }
            Argument::Stray => None,
        },
    }
}
