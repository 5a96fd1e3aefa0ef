//! The numbers of declarations.

ghost use Rattle.std.specs.Prelude.{◌≡◌, true, false, OnOk, IfOk, map};
ghost use Rattle.ec_ctypes.specs.views.Exprs.{declarators_view, decl_view};
ghost use Rattle.ec_ctypes.specs.views.Stmts.{stmt_view, kind_view, stmts_view};
ghost use Rattle.ec_ctypes.specs.views.Units.{param_view, func_view, top_view};
ghost use Rattle.ec_declare.specs.Counting as spec;
ghost use Rattle.ec_declare.specs.Counting.{none_so_far};
ghost use Rattle.ec_declare.specs.Seen.{count_view};

use ec_base::{List, OutOfMemory};
use ec_ctypes::{Decl, Declarator, Func, Param, Stmt, StmtKind, Top};
use std::alloc::Global;

/// The number of the next declaration, and the numbers so far of those in a section and of functions.
#[derive(Debug, Drop)]
pub(crate) struct Count {
    pub next: u32,
    pub hosts: List<u32>,
    pub functions: List<u32>,
}

impl Count {
    /// Before the first declaration.
    pub(crate) fn new(alloc: Global) -> Count
        ensures { count_view result ≡ none_so_far }
    {
        Count {
            next: 0,
            hosts: List::new(alloc),
            functions: List::new(alloc),
        }
    }

    /// One declaration more.
    fn add(&mut self, section: bool, is_function: bool) -> Result<(), OutOfMemory>
        ensures { OnOk result (count_view self.new
            ≡ spec.counted section is_function (count_view self.old)) }
    {
        let Some(next) = self.next.checked_add(1) else {
            // Out of reach, which isn't proved: a source has at most 2^22 tokens, so it has fewer declarations.
            return Err(OutOfMemory);
        };
        keep_if(section, self.next, &mut self.hosts)?;
        keep_if(is_function, self.next, &mut self.functions)?;
        self.next = next;
        Ok(())
    }
}

/// The number behind these, if it passes.
fn keep_if(passes: bool, number: u32, numbers: &mut List<u32>) -> Result<(), OutOfMemory>
    ensures { OnOk result (numbers.new ≡ spec.kept_if passes number numbers.old) }
{
    if passes {
        numbers.push(number)?;
    }
    Ok(())
}

fn items(count: &mut Count, section: bool, trees: &[Declarator]) -> Result<(), OutOfMemory>
    ensures { OnOk result (count_view count.new
        ≡ spec.count_items section (declarators_view trees.now) (count_view count.old)) }
{
    for _item in trees {
        count.add(section, false)?;
    }
    Ok(())
}

fn decl(count: &mut Count, tree: &Decl) -> Result<(), OutOfMemory>
    ensures { OnOk result (count_view count.new
        ≡ spec.count_decl (decl_view tree.now) (count_view count.old)) }
{
    items(count, tree.section, tree.items.as_slice())
}

#[cycle(counts)]
fn stmt(count: &mut Count, tree: &Stmt) -> Result<(), OutOfMemory>
    ensures { OnOk result (count_view count.new
        ≡ spec.count_stmt (stmt_view tree.now) (count_view count.old)) }
{
    kind(count, &tree.kind)
}

#[cycle(counts)]
fn stmts(count: &mut Count, trees: &[Stmt]) -> Result<(), OutOfMemory>
    ensures { OnOk result (count_view count.new
        ≡ spec.count_stmts (stmts_view trees.now) (count_view count.old)) }
{
    for tree in trees {
        stmt(count, tree)?;
    }
    Ok(())
}

#[cycle(counts)]
fn kind(count: &mut Count, tree: &StmtKind) -> Result<(), OutOfMemory>
    ensures { OnOk result (count_view count.new
        ≡ spec.count_kind (kind_view tree.now) (count_view count.old)) }
{
    match tree {
        StmtKind::Decl(of) => decl(count, of.get()),
        StmtKind::Block(of) => stmts(count, of.as_slice()),
        StmtKind::If(_, of, other) => {
            stmt(count, of.get())?;
            match other {
                Some(of) => stmt(count, of.get()),
                None => Ok(()),
            }
        }
        StmtKind::While(_, of) => stmt(count, of.get()),
        StmtKind::Do(of, _) => stmt(count, of.get()),
        StmtKind::For(_, of) => stmt(count, of.get()),
        StmtKind::Label(_, of) => stmt(count, of.get()),
        StmtKind::Empty => Ok(()),
        StmtKind::Expr(_) => Ok(()),
        StmtKind::Break => Ok(()),
        StmtKind::Continue => Ok(()),
        StmtKind::Return(_) => Ok(()),
        StmtKind::Goto(_) => Ok(()),
        StmtKind::Emb(_) => Ok(()),
        StmtKind::Mark(_) => Ok(()),
    }
}

fn params(count: &mut Count, trees: &[Param]) -> Result<(), OutOfMemory>
    ensures { OnOk result (count_view count.new
        ≡ spec.count_params (map param_view trees.now) (count_view count.old)) }
{
    for tree in trees {
        count.add(tree.section, false)?;
    }
    Ok(())
}

fn function(count: &mut Count, tree: &Func) -> Result<(), OutOfMemory>
    ensures { OnOk result (count_view count.new
        ≡ spec.count_function (func_view tree.now) (count_view count.old)) }
{
    count.add(tree.section, true)?;
    params(count, tree.params.as_slice())?;
    match &tree.body {
        Some(body) => stmts(count, body.as_slice()),
        None => Ok(()),
    }
}

fn top(count: &mut Count, tree: &Top) -> Result<(), OutOfMemory>
    ensures { OnOk result (count_view count.new
        ≡ spec.count_top (top_view tree.now) (count_view count.old)) }
{
    match tree {
        Top::Include(_) => Ok(()),
        Top::Directive(_) => Ok(()),
        Top::Decl(of) => decl(count, of),
        Top::Func(of) => function(count, of.get()),
        Top::Mark(_, _) => Ok(()),
    }
}

/// The declarations of a program.
pub(crate) fn count_in(alloc: Global, trees: &[Top]) -> Result<Count, OutOfMemory>
    ensures { IfOk result (λ count. count_view count
        ≡ spec.count_tops (map top_view trees.now) none_so_far) }
{
    let mut count = Count::new(alloc);
    tops(&mut count, trees)?;
    Ok(count)
}

fn tops(count: &mut Count, trees: &[Top]) -> Result<(), OutOfMemory>
    ensures { OnOk result (count_view count.new
        ≡ spec.count_tops (map top_view trees.now) (count_view count.old)) }
{
    for tree in trees {
        top(count, tree)?;
    }
    Ok(())
}
