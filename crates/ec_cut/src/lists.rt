//! Lists of members, up to the symbol that ends them.

ghost use Rattle.std.specs.Prelude.{◌≡◌, IfOk, length};
ghost use Rattle.ec_arguments.specs.Reading as spec;
ghost use Rattle.ec_cut.specs.Cases.{ends_by};
ghost use Rattle.ec_cut.specs.Reads.{Reads};
ghost use Rattle.ec_cut.specs.Views.{left_view, members_view};

use crate::arguments::{Argument, Front, Member};
use crate::members::next_member;
use crate::pointers::{Literal, Pointer};
use ec_base::{List, OutOfMemory};
use ec_ctypes::Sym;
use std::alloc::Global;

/// What ends a list.
#[derive(Clone, Copy)]
pub(crate) enum End {
    Inputs,
    Outputs,
    Items,
}

fn ends(end: End, sym: Sym) -> bool
    ensures { result ≡ ends_by end sym }
{
    match end {
        End::Inputs => matches!(sym, Sym::EndOfInputs),
        End::Outputs => matches!(sym, Sym::EndOfOutputs),
        End::Items => matches!(sym, Sym::EndOfItems),
    }
}

/// Whether the end of the list comes next.
pub(crate) fn at_end<B: Literal + Copy, A: Pointer + Copy>(
    end: End,
    front: &Front<'_, B, A>,
) -> bool
    ensures { result ≡ spec.begins_with (ends_by end) (left_view B.bytes A.view front.now) }
{
    match front.rest {
        [] => false,
        [first, ..] => match first {
            Argument::Symbol(sym) => ends(end, *sym),
            Argument::Literal(_) => false,
            Argument::Null => false,
            Argument::Int(_) => false,
            Argument::Long(_) => false,
            Argument::Pointer(_) => false,
            Argument::Stray => false,
        },
    }
}

/// Goes behind the first argument.
pub(crate) fn pass<B: Literal + Copy, A: Pointer + Copy>(front: &mut Front<'_, B, A>)
    ensures { left_view B.bytes A.view front.new
        ≡ spec.behind_first (left_view B.bytes A.view front.old) }
{
    match front.rest {
        [] => {}
        [_, rest @ ..] => front.rest = rest,
    }
}

/// The members up to the end of their list, fewer than so many.
pub(crate) fn next_members<B: Literal + Copy, A: Pointer + Copy>(
    alloc: Global,
    end: End,
    most: usize,
    front: &mut Front<'_, B, A>,
) -> Result<Option<List<Member<B, A>>>, OutOfMemory>
    ensures { IfOk result (λ read. Reads B.bytes A.view (members_view B.bytes A.view)
        (spec.next_members (ends_by end) most) front.old read front.new) }
{
    let mut found = List::new(alloc);
    for _turn in 0..most {
        if at_end(end, front) {
            pass(front);
            return Ok(Some(found));
        }
        match next_member(front) {
            None => return Ok(None),
            Some(member) => found.push(member)?,
        }
    }
    Ok(None)
}
