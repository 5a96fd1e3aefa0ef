//! Calls by their names, cut.

ghost use Rattle.std.specs.Prelude.{◌≡◌, IfOk, option_map, length};
ghost use Rattle.ec_arguments.specs.Arguments.{get_items, set_items};
ghost use Rattle.ec_arguments.specs.Reading as spec;
ghost use Rattle.ec_arguments.specs.Rules as rules;
ghost use Rattle.ec_cut.specs.Cases.{stands_by};
ghost use Rattle.ec_cut.specs.Reads.{Reads};
ghost use Rattle.ec_cut.specs.Views.{arguments_view, left_view, call_view, cut_view};

use crate::arguments::{Argument, Call, Cut, Front};
use crate::calls::{
    read_allocate, read_autocommit, read_connect, read_control, read_deallocate, read_disconnect,
    read_free, read_get_count, read_prepare, read_set_connection, read_set_count,
};
use crate::items::next_items;
use crate::lists::{End, next_members};
use crate::members::next_member;
use crate::pointers::{Literal, Pointer};
use crate::reading::{next_int, next_text};
use crate::rules::is_call;
use crate::statements::next_statement;
use ec_base::OutOfMemory;
use ec_ctypes::LibName;
use std::alloc::Global;

/// How many arguments are left.
fn left<B: Literal + Copy, A: Pointer + Copy>(front: &Front<'_, B, A>) -> usize
    ensures { result ≡ length (left_view B.bytes A.view front.now) }
{
    front.rest.len()
}

/// ECPGdo: the connection, the statement, the inputs and the outputs.
fn read_run<B: Literal + Copy, A: Pointer + Copy>(
    alloc: Global,
    front: &mut Front<'_, B, A>,
) -> Result<Option<Call<B, A>>, OutOfMemory>
    ensures { IfOk result (λ read. Reads B.bytes A.view (call_view B.bytes A.view) spec.read_run
        front.old read front.new) }
{
    let most = left(front);
    match next_text(front) {
        None => Ok(None),
        Some(connection) => match next_statement(front) {
            None => Ok(None),
            Some(statement) => match next_members(alloc, End::Inputs, most, front)? {
                None => Ok(None),
                Some(ins) => match next_members(alloc, End::Outputs, most, front)? {
                    None => Ok(None),
                    Some(outs) => Ok(Some(Call::Run(connection, statement, ins, outs))),
                },
            },
        },
    }
}

/// What is got out of a descriptor.
fn read_get_items<B: Literal + Copy, A: Pointer + Copy>(
    alloc: Global,
    front: &mut Front<'_, B, A>,
) -> Result<Option<Call<B, A>>, OutOfMemory>
    ensures { IfOk result (λ read. Reads B.bytes A.view (call_view B.bytes A.view)
        (spec.read_items get_items) front.old read front.new) }
{
    let most = left(front);
    match next_text(front) {
        None => Ok(None),
        Some(name) => match next_member(front) {
            None => Ok(None),
            Some(index) => match next_items(alloc, most, front)? {
                None => Ok(None),
                Some(items) => Ok(Some(Call::GetItems(name, index, items))),
            },
        },
    }
}

/// What a descriptor is set to.
fn read_set_items<B: Literal + Copy, A: Pointer + Copy>(
    alloc: Global,
    front: &mut Front<'_, B, A>,
) -> Result<Option<Call<B, A>>, OutOfMemory>
    ensures { IfOk result (λ read. Reads B.bytes A.view (call_view B.bytes A.view)
        (spec.read_items set_items) front.old read front.new) }
{
    let most = left(front);
    match next_text(front) {
        None => Ok(None),
        Some(name) => match next_member(front) {
            None => Ok(None),
            Some(index) => match next_items(alloc, most, front)? {
                None => Ok(None),
                Some(items) => Ok(Some(Call::SetItems(name, index, items))),
            },
        },
    }
}

/// A call, by its name.
fn read_call<B: Literal + Copy, A: Pointer + Copy>(
    alloc: Global,
    name: LibName,
    front: &mut Front<'_, B, A>,
) -> Result<Option<Call<B, A>>, OutOfMemory>
    ensures { IfOk result (λ read. Reads B.bytes A.view (call_view B.bytes A.view)
        (spec.read_call name) front.old read front.new) }
{
    match name {
        LibName::Do => read_run(alloc, front),
        LibName::Connect => Ok(read_connect(front)),
        LibName::Disconnect => Ok(read_disconnect(front)),
        LibName::SetConn => Ok(read_set_connection(front)),
        LibName::SetCommit => Ok(read_autocommit(front)),
        LibName::Trans => Ok(read_control(front)),
        LibName::Prepare => Ok(read_prepare(front)),
        LibName::Deallocate => Ok(read_deallocate(front)),
        LibName::AllocateDesc => Ok(read_allocate(front)),
        LibName::DeallocateDesc => Ok(read_free(front)),
        LibName::GetDescHeader => Ok(read_get_count(front)),
        LibName::SetDescHeader => Ok(read_set_count(front)),
        LibName::GetDesc => read_get_items(alloc, front),
        LibName::SetDesc => read_set_items(alloc, front),
    }
}

/// Whether a call that was read keeps the rules, and nothing is left behind it.
fn stands<B: Literal + Copy, A: Pointer + Copy>(call: &Call<B, A>, front: &Front<'_, B, A>) -> bool
    ensures { result ≡ stands_by A.leads_to_text (call_view B.bytes A.view call.now)
        (left_view B.bytes A.view front.now) }
{
    match front.rest {
        [] => is_call(call),
        [_, ..] => false,
    }
}

/// The arguments of a call of the library, cut, or `None` where they are no call (PostgreSQL manual, "Library Functions"):
/// where something else stands at a place, a member stands where it may not, or its numbers don't fit.
#[tactic(auto, using(crate::proofs::CasesAre::ruled_cases))]
pub fn cut<B: Literal + Copy, A: Pointer + Copy>(
    alloc: Global,
    name: LibName,
    args: &[Argument<B, A>],
) -> Result<Option<Cut<B, A>>, OutOfMemory>
    ensures { IfOk result (λ found. option_map (cut_view B.bytes A.view) found
        ≡ rules.cut A.leads_to_text name (arguments_view B.bytes A.view args.now)) }
{
    let mut front = Front { rest: args };
    match next_int(&mut front) {
        None => Ok(None),
        Some(line) => match read_call(alloc, name, &mut front)? {
            None => Ok(None),
            Some(call) => {
                if stands(&call, &front) {
                    Ok(Some(Cut { line, call }))
                } else {
                    Ok(None)
                }
            }
        },
    }
}
