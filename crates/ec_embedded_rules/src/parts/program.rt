//! The embedded statements of a program, with what each wants to know of the others.

ghost use Rattle.std.specs.Prelude.{◌≡◌, map, option_map, option_and_then, slice_get, IfOk};
ghost use Rattle.ec_language.specs.Letters.{Text, lower};
ghost use Rattle.std.specs.Option.{option_copied};
ghost use Rattle.ec_ctypes.specs.views.Checked.{handlers_view};
ghost use Rattle.ec_ctypes.specs.views.Embedded.{action_view, emb_view};
ghost use Rattle.ec_typing_defs.specs.statement_parts.Cursors as cursor;
ghost use Rattle.ec_typing_defs.specs.statement_parts.Handlers as spec;
ghost use Rattle.ec_whenever.specs.Tables.{AnswersFor};

use crate::parts::cursors::{cursor_table, lowered, opened_cursor};
use ec_base::OutOfMemory;
use ec_ctypes::{Action, Cond, Emb, EmbKind, HandlerTable};
use ec_scopes::Table;
use ec_whenever::HandlerLookup;
use std::alloc::Global;
use std::marker::Model;

/// The embedded statements of a program. What holds at one of them is found by its WHENEVERs and its cursors, whose tables
/// are made once. Contracts see the statements.
#[derive(Drop)]
pub struct Statements<'a> {
    alloc: Global,
    embs: &'a [Emb],
    handlers: &'a HandlerTable,
    /// For each cursor, by its name in lower case, the number of its first DECLARE.
    cursors: Table<usize>,
}

impl<'a> Model for Statements<'a> {
    ghost use Rattle.std.specs.Prelude.{List as Sequence};
    ghost use Rattle.std.specs.Coded.{codes};
    ghost use Rattle.ec_ctypes.specs.declared.embedded.emb.Emb.{Emb as Statement};
    ghost use Rattle.ec_ctypes.specs.contracts.embedded.emb.Emb as emb;
    ghost use Rattle.ec_embedded_rules.specs.parts.Kept.{IsKept};

    ghost Value = { Sequence Statement };

    ghost coded = { Prim.hlevel (codes, emb.the_row.coded) };

    ghost view = { λ it. it.embs.now };

    ghost invariant = { λ it. IsKept it.embs.now it.handlers.now it.cursors };
}

/// The statement at this place of the list.
fn item_at(embs: &[Emb], k: usize) -> Option<&Emb>
    ensures { option_copied result ≡ slice_get embs.now k }
{
    embs.get(k)
}

/// The statement of this number.
fn statement_at(embs: &[Emb], k: usize) -> Option<&Emb>
    ensures { option_map emb_view (option_copied result) ≡ slice_get (map emb_view embs.now) k }
{
    item_at(embs, k)
}

/// Whether it is a directive, which is not executed.
pub fn is_directive(e: &Emb) -> bool
    ensures { result ≡ spec.is_directive (emb_view e.now) }
{
    matches!(
        e.kind,
        EmbKind::Whenever(_, _) | EmbKind::IncludeSqlca | EmbKind::Declare { .. }
    )
}

impl<'a> Statements<'a> {
    /// These statements. The table of handlers is theirs.
    pub fn new(
        alloc: Global,
        embs: &'a [Emb],
        handlers: &'a HandlerTable,
    ) -> Result<Statements<'a>, OutOfMemory>
        requires { AnswersFor (handlers_view handlers.now) (map emb_view embs.now) }
        ensures { IfOk result (λ all. all ≡ embs.now) }
    {
        let cursors = cursor_table(alloc, embs)?;
        Ok(Statements {
            alloc,
            embs,
            handlers,
            cursors,
        })
    }

    /// The statement of this number.
    pub fn get(&self, n: u32) -> Option<&Emb>
        ensures { option_map emb_view (option_copied result)
            ≡ slice_get (map emb_view self.now) n }
    {
        statement_at(self.embs, n as usize)
    }

    /// The action that holds for the condition at this place in the text: that of the last WHENEVER for it above. `None`
    /// comes exactly where there is none. It takes no memory.
    pub fn action(&self, place: u32, cond: Cond) -> Option<&Action>
        ensures { option_map action_view (option_copied result)
            ≡ spec.handler (map emb_view self.now) place cond }
    {
        self.handlers.at(place, cond)
    }

    /// The first DECLARE above the statement of this number of the cursor with this name in lower case.
    fn declared_above(&self, n: usize, key: &[u8]) -> Option<&Emb>
        ensures { (name : Text) → key.now ≡ map lower name →
            option_map emb_view (option_copied result)
            ≡ option_and_then (λ k. slice_get (map emb_view self.now) k)
            (cursor.declared_above (map emb_view self.now) n name) }
    {
        match self.cursors.get(key) {
            Some(k) => {
                if *k < n {
                    statement_at(self.embs, *k)
                } else {
                    None
                }
            }
            None => None,
        }
    }

    /// The DECLARE of the cursor that the statement of this number opens: the first one above it. `None` comes exactly where
    /// it opens none, or one that is not declared above.
    pub fn opened(&self, n: u32, e: &Emb) -> Result<Option<&Emb>, OutOfMemory>
        ensures { IfOk result (λ found. option_map emb_view (option_copied found)
            ≡ cursor.declare_opened (map emb_view self.now) n (emb_view e.now)) }
    {
        match opened_cursor(e) {
            Some(name) => {
                let key = lowered(self.alloc, name)?;
                Ok(self.declared_above(n as usize, key.as_slice()))
            }
            None => Ok(None),
        }
    }
}
