//! Every WHENEVER of a program, condition by condition.

ghost use Rattle.std.specs.Prelude.{◌≡◌, true, [], ◌++◌, map, IfOk, OnOk};
ghost use Rattle.ec_ctypes.specs.views.Checked.{handlers_view, mark_view};
ghost use Rattle.ec_ctypes.specs.views.Embedded.{emb_view};
ghost use Rattle.ec_typing_defs.specs.statement_parts.Handlers as spec;
ghost use Rattle.ec_typing_defs.specs.statement_parts.Handlers.{marks_in, mark_of, with_mark};
ghost use Rattle.ec_whenever.specs.Tables.{marks_for, table_of, are_in_order, AnswersFor};

use ec_base::{List, OutOfMemory};
use ec_ctypes::{Action, Cond, Emb, EmbKind, HandlerTable, copy_action};
use std::alloc::Global;

/// A WHENEVER: its place, its condition and its action.
pub(crate) type Mark = (u32, Cond, Action);

/// Whether two conditions are one.
pub(crate) fn same_cond(a: Cond, b: Cond) -> bool
    ensures { result ≡ spec.same_cond a b }
{
    match (a, b) {
        (Cond::NotFound, Cond::NotFound) => true,
        (Cond::Warning, Cond::Warning) => true,
        (Cond::Error, Cond::Error) => true,
        (Cond::NotFound, _) => false,
        (Cond::Warning, _) => false,
        (Cond::Error, _) => false,
    }
}

/// The statement's WHENEVER behind the marks, if it has one for the condition.
fn add_mark(alloc: Global, emb: &Emb, cond: Cond, marks: &mut List<Mark>) -> Result<(), OutOfMemory>
    ensures { OnOk result (map mark_view marks.new
        ≡ map mark_view marks.old ++ marks_for cond (with_mark (mark_of (emb_view emb.now)) [])) }
{
    match &emb.kind {
        EmbKind::Whenever(set, action) => {
            if same_cond(cond, *set) {
                let action = copy_action(alloc, action)?;
                marks.push((emb.place, *set, action))?;
            }
            Ok(())
        }
        _ => Ok(()),
    }
}

/// The marks for the condition behind these.
fn add_marks(
    alloc: Global,
    embs: &[Emb],
    cond: Cond,
    marks: &mut List<Mark>,
) -> Result<(), OutOfMemory>
    ensures { OnOk result (map mark_view marks.new
        ≡ map mark_view marks.old ++ marks_for cond (marks_in (map emb_view embs.now))) }
{
    for emb in embs {
        add_mark(alloc, emb, cond, marks)?;
    }
    Ok(())
}

/// Every WHENEVER, condition by condition.
fn all_marks(alloc: Global, embs: &[Emb]) -> Result<List<Mark>, OutOfMemory>
    ensures { IfOk result (λ marks. map mark_view marks
        ≡ table_of (marks_in (map emb_view embs.now))) }
{
    let mut marks = List::new(alloc);
    add_marks(alloc, embs, Cond::NotFound, &mut marks)?;
    add_marks(alloc, embs, Cond::Warning, &mut marks)?;
    add_marks(alloc, embs, Cond::Error, &mut marks)?;
    Ok(marks)
}

/// The table of every WHENEVER of a program, by its statements (PostgreSQL manual, "Setting Callbacks"). Where these stand
/// in the order of the text, as those of a program do, it answers for each place and condition which action holds there.
pub fn handlers(alloc: Global, embs: &List<Emb>) -> Result<HandlerTable, OutOfMemory>
    ensures marks { IfOk result (λ table. handlers_view table
        ≡ table_of (marks_in (map emb_view embs.now))) }
    ensures answers { are_in_order (map emb_view embs.now) ≡ true
        → IfOk result (λ table. AnswersFor (handlers_view table) (map emb_view embs.now)) }
{
    let marks = all_marks(alloc, embs.as_slice())?;
    Ok(HandlerTable { marks })
}
