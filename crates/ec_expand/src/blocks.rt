//! What is written in the place of an embedded statement: a block with its call, and the tests behind it.

ghost use Rattle.std.specs.Prelude.{◌≡◌, IfOk, true, map, option_map, option_and_then};
ghost use Rattle.std.specs.Option.{option_copied};
ghost use Rattle.ec_ctypes.specs.views.Checked.{handlers_view, bound_view};
ghost use Rattle.ec_ctypes.specs.views.Embedded.{emb_view};
ghost use Rattle.ec_ctypes.specs.views.Stmts.{kind_view};
ghost use Rattle.ec_expand_blocks.specs.cursors.Declares.{declare_numbers};
ghost use Rattle.ec_expand.specs.Blocks.{written_at};
ghost use Rattle.ec_expansion_defs.specs.Calls.{prepared_in, call_by};
ghost use Rattle.ec_expansion_defs.specs.Programs.{block_of};
ghost use Rattle.ec_whenever.specs.Tables.{is_sorted};

use ec_base::{List, Name, OutOfMemory};
use ec_ctypes::{Bound, Emb, EmbKind, HandlerTable, StmtKind, Typed};
use ec_expand_blocks::block_with;
use ec_expand_blocks::cursors::CursorTable;
use ec_expand_calls::call_of;
use std::alloc::Global;

/// A program, with what is bound for its statements and the DECLAREs of the cursors that they open.
#[derive(Clone, Copy)]
pub(crate) struct Blocks<'a> {
    pub(crate) typed: &'a Typed,
    pub(crate) bounds: &'a List<Bound>,
    pub(crate) cursors: &'a CursorTable,
    ghost sorted: { is_sorted (handlers_view typed.now.handlers) ≡ true },
    ghost known: { cursors.now.numbers ≡ declare_numbers (map emb_view typed.now.unit.embs) },
}

// A name that may be left out.
fn name_in(name: &Option<Name>) -> Option<&Name>
    ensures { option_copied result ≡ name.now }
{
    match name {
        Some(name) => Some(name),
        None => None,
    }
}

// The prepared name that a DECLARE has.
fn prepared_of(emb: &Emb) -> Option<&Name>
    ensures { option_copied result ≡ prepared_in (emb_view emb.now) }
{
    match &emb.kind {
        EmbKind::Declare { prepared, .. } => name_in(prepared),
        _ => None,
    }
}

// The prepared name for which a cursor is declared.
fn prepared_in(declare: Option<&Emb>) -> Option<&Name>
    ensures { option_copied result ≡ option_and_then prepared_in (option_map emb_view
        (option_copied declare.entry)) }
{
    match declare {
        Some(emb) => prepared_of(emb),
        None => None,
    }
}

// The block of a statement, whose hosts are bound. A directive has none.
fn block_by(
    alloc: Global,
    handlers: &HandlerTable,
    emb: &Emb,
    prepared: Option<&Name>,
    bound: &Bound,
) -> Result<Option<StmtKind>, OutOfMemory>
    requires { is_sorted (handlers_view handlers.now) ≡ true }
    ensures { IfOk result (λ k. option_map kind_view k ≡ option_map
        (block_of (handlers_view handlers.now) (emb_view emb.now))
        (call_by (option_copied prepared.entry) (emb_view emb.now).kind (bound_view bound.now))) }
{
    match call_of(alloc, emb.line, prepared, &emb.kind, bound)? {
        Some(call) => Ok(Some(block_with(alloc, handlers, emb, call)?)),
        None => Ok(None),
    }
}

impl<'a> Blocks<'a> {
    /// What is written in the place of the statement of this number, which is nothing for a directive.
    pub(crate) fn block(&self, alloc: Global, number: u32) -> Result<Option<StmtKind>, OutOfMemory>
        ensures { IfOk result (λ k. option_map kind_view k ≡ written_at self.now.typed.now
            self.now.bounds.now number) }
    {
        let number = number as usize;
        let embs = &self.typed.unit.embs;
        match embs.get(number) {
            Some(emb) => match self.bounds.get(number) {
                Some(bound) => {
                    let prepared = prepared_in(self.cursors.declare_opened(embs, number));
                    block_by(alloc, &self.typed.handlers, emb, prepared, bound)
                }
                None => Ok(None),
            },
            None => Ok(None),
        }
    }
}
