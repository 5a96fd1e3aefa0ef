//! The labels of a function (ISO/IEC 9899:1999, 6.2.1, 3).
#![tactic(auto, using(ec_ctypes::specs::declared::tree::stmt::Stmt::the_lemmas, ec_ctypes::specs::declared::tree::stmt::StmtKind::the_lemmas))]

ghost use Rattle.std.specs.Prelude.{◌≡◌, [], IfOk, OnOk};
ghost use Rattle.ec_ctypes.specs.views.Stmts.{stmt_view, kind_view, stmts_view, stmt_option_view};
ghost use Rattle.ec_typing_defs.specs.Statements as rule;

use ec_base::{Boxed, OutOfMemory};
use ec_ctypes::{Stmt, StmtKind};
use ec_resolve_values::storage::Names;
use std::alloc::Global;

/// Adds the labels of the statement.
#[cycle(labels)]
fn add_labels(alloc: Global, s: &Stmt, labels: &mut Names) -> Result<(), OutOfMemory>
    ensures { OnOk result (labels.new ≡ rule.labels_in (stmt_view s.now) labels.old) }
{
    add_kind_labels(alloc, &s.kind, labels)
}

#[cycle(labels)]
fn add_kind_labels(alloc: Global, kind: &StmtKind, labels: &mut Names) -> Result<(), OutOfMemory>
    ensures { OnOk result (labels.new ≡ rule.labels_in_kind (kind_view kind.now) labels.old) }
{
    match kind {
        StmtKind::Block(ss) => add_all_labels(alloc, ss.as_slice(), labels),
        StmtKind::If(_, s, other) => {
            add_labels(alloc, s.get(), labels)?;
            add_option_labels(alloc, other, labels)
        }
        StmtKind::While(_, s) => add_labels(alloc, s.get(), labels),
        StmtKind::Do(s, _) => add_labels(alloc, s.get(), labels),
        StmtKind::For(_, s) => add_labels(alloc, s.get(), labels),
        StmtKind::Label(l, s) => {
            labels.add(alloc, l.as_slice())?;
            add_labels(alloc, s.get(), labels)
        }
        _ => Ok(()),
    }
}

#[cycle(labels)]
fn add_option_labels(
    alloc: Global,
    s: &Option<Boxed<Stmt>>,
    labels: &mut Names,
) -> Result<(), OutOfMemory>
    ensures { OnOk result (labels.new ≡ rule.labels_in_option (stmt_option_view s.now) labels.old) }
{
    match s {
        Some(s) => add_labels(alloc, s.get(), labels),
        None => Ok(()),
    }
}

/// Adds the labels of statements.
#[cycle(labels)]
fn add_all_labels(alloc: Global, ss: &[Stmt], labels: &mut Names) -> Result<(), OutOfMemory>
    ensures { OnOk result (labels.new ≡ rule.labels_in_all (stmts_view ss.now) labels.old) }
{
    for s in ss {
        add_labels(alloc, s, labels)?;
    }
    Ok(())
}

/// The labels of the statements of a function.
pub fn labels_of(alloc: Global, ss: &[Stmt]) -> Result<Names, OutOfMemory>
    ensures { IfOk result (λ labels. labels ≡ rule.labels_in_all (stmts_view ss.now) []) }
{
    let mut labels = Names::new(alloc);
    add_all_labels(alloc, ss, &mut labels)?;
    Ok(labels)
}
