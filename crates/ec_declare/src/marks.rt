//! The last mark in a statement.

ghost use Rattle.std.specs.Prelude.{◌≡◌};
ghost use Rattle.ec_ctypes.specs.views.Stmts.{stmt_view, kind_view, stmts_view};
ghost use Rattle.ec_host_defs.specs.sections.Places as spec;

use ec_ctypes::{Stmt, StmtKind};

/// The second of two, if it is there.
fn later(first: Option<bool>, second: Option<bool>) -> Option<bool>
    ensures { result ≡ spec.later first second }
{
    match second {
        Some(opens) => Some(opens),
        None => first,
    }
}

/// Whether the last mark in a statement opens a section, if there is one.
#[cycle(marks)]
pub(crate) fn last_mark(tree: &Stmt) -> Option<bool>
    ensures { result ≡ spec.last_mark (stmt_view tree.now) }
{
    last_mark_of(&tree.kind)
}

#[cycle(marks)]
fn last_mark_of(tree: &StmtKind) -> Option<bool>
    ensures { result ≡ spec.last_mark_of (kind_view tree.now) }
{
    match tree {
        StmtKind::Mark(opens) => Some(*opens),
        StmtKind::Block(of) => last_mark_among(of.as_slice()),
        StmtKind::If(_, of, other) => {
            let last = last_mark(of.get());
            match other {
                Some(of) => later(last, last_mark(of.get())),
                None => last,
            }
        }
        StmtKind::While(_, of) => last_mark(of.get()),
        StmtKind::Do(of, _) => last_mark(of.get()),
        StmtKind::For(_, of) => last_mark(of.get()),
        StmtKind::Label(_, of) => last_mark(of.get()),
        StmtKind::Empty
        | StmtKind::Expr(_)
        | StmtKind::Break
        | StmtKind::Continue
        | StmtKind::Return(_)
        | StmtKind::Goto(_)
        | StmtKind::Decl(_)
        | StmtKind::Emb(_) => None,
    }
}

#[cycle(marks)]
#[tactic(auto, using(crate::proofs::Joining::following))]
fn last_mark_among(trees: &[Stmt]) -> Option<bool>
    ensures { result ≡ spec.last_mark_among (stmts_view trees.now) }
{
    let mut last = None;
    for tree in trees {
        last = later(last, last_mark(tree));
    }
    last
}
