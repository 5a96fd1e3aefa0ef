//! How many objects a block makes: those that are declared in it, and in no block further in (ISO/IEC 9899:1999, 6.2.4).
#![tactic(auto, using(ec_ctypes::specs::declared::tree::stmt::Stmt::the_lemmas, ec_ctypes::specs::declared::tree::stmt::StmtKind::the_lemmas))]

ghost use Rattle.std.specs.Prelude.{◌≡◌, ◌+◌, IfOk};
ghost use Rattle.ec_ctypes.specs.views.Exprs.{decl_view, declarators_view};
ghost use Rattle.ec_ctypes.specs.views.Stmts.{stmt_view, kind_view, stmts_view, stmt_option_view};
ghost use Rattle.ec_resolving_defs.specs.Statements as rule;

use ec_base::{Boxed, OutOfMemory};
use ec_ctypes::{Decl, Declarator, Stmt, StmtKind};

/// The sum of two counts.
fn sum(a: u32, b: u32) -> Result<u32, OutOfMemory>
    ensures { IfOk result (λ n. n ≡ a + b) }
{
    match a.checked_add(b) {
        Some(n) => Ok(n),
        // Out of reach, which isn't proved: a source has at most 2^22 tokens, so it has fewer objects.
        None => Err(OutOfMemory),
    }
}

/// How many declarators there are.
#[tactic(auto, using(crate::proofs::Lengths::declarators_counted))]
fn declarators_in(items: &[Declarator]) -> Result<u32, OutOfMemory>
    ensures { IfOk result (λ n. n ≡ rule.declarators_in (declarators_view items.now)) }
{
    let count = items.len();
    if count > u32::MAX as usize {
        // Out of reach, which isn't proved: a source has at most 2^22 tokens, so it has fewer declarators.
        return Err(OutOfMemory);
    }
    Ok(count as u32)
}

/// How many objects a declaration makes.
#[tactic(auto, using(ec_walk::proofs::Trees::seeing))]
fn objects_of(d: &Decl) -> Result<u32, OutOfMemory>
    ensures { IfOk result (λ n. n ≡ rule.objects_of_decl (decl_view d.now)) }
{
    declarators_in(d.items.as_slice())
}

/// How many objects a statement makes in the block round it.
#[cycle(objects)]
fn objects_in(s: &Stmt) -> Result<u32, OutOfMemory>
    ensures { IfOk result (λ n. n ≡ rule.objects_in (stmt_view s.now)) }
{
    objects_in_kind(&s.kind)
}

#[cycle(objects)]
fn objects_in_kind(kind: &StmtKind) -> Result<u32, OutOfMemory>
    ensures { IfOk result (λ n. n ≡ rule.objects_in_kind (kind_view kind.now)) }
{
    match kind {
        StmtKind::If(_, s, other) => {
            let first = objects_in(s.get())?;
            let second = objects_in_option(other)?;
            let both = sum(first, second)?;
            Ok(both)
        }
        StmtKind::While(_, s) => objects_in(s.get()),
        StmtKind::Do(s, _) => objects_in(s.get()),
        StmtKind::For(_, s) => objects_in(s.get()),
        StmtKind::Label(_, s) => objects_in(s.get()),
        StmtKind::Decl(d) => objects_of(d.get()),
        _ => Ok(0),
    }
}

#[cycle(objects)]
fn objects_in_option(s: &Option<Boxed<Stmt>>) -> Result<u32, OutOfMemory>
    ensures { IfOk result (λ n. n ≡ rule.objects_in_option (stmt_option_view s.now)) }
{
    match s {
        Some(s) => objects_in(s.get()),
        None => Ok(0),
    }
}

/// How many objects a block of these statements makes.
pub fn objects_in_all(ss: &[Stmt]) -> Result<u32, OutOfMemory>
    ensures { IfOk result (λ n. n ≡ rule.objects_in_all (stmts_view ss.now)) }
{
    let mut count = 0;
    for s in ss {
        let more = objects_in(s)?;
        let total = sum(count, more)?;
        count = total;
    }
    Ok(count)
}
