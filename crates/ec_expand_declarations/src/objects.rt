//! Declarations as they are written outside of structs: each VARCHAR has a declaration of its own (PostgreSQL manual,
//! 36.4.4).

ghost use Rattle.std.specs.Prelude.{◌≡◌, ◌++◌, IfOk, OnOk, [], ◌∷◌, map};
ghost use Rattle.ec_ctypes.specs.trees.Stmts.{stmt, decl_stmt};
ghost use Rattle.ec_ctypes.specs.trees.Units.{decl_top};
ghost use Rattle.ec_ctypes.specs.views.Exprs.{decl_view, declarator_view, declarators_view};
ghost use Rattle.ec_ctypes.specs.views.Stmts.{stmt_view};
ghost use Rattle.ec_ctypes.specs.views.Units.{top_view};
ghost use Rattle.ec_expansion_defs.specs.Declarations as written;
ghost use Rattle.ec_expansion_defs.specs.Statements.{decl_stmts};

use crate::declarations::{is_varchar, without_varchars, written_declarator};
use crate::varchar::varchar_decl;
use ec_base::{Boxed, Line, List, Name, OutOfMemory};
use ec_ctypes::{Decl, Declarator, Stmt, StmtKind, Top};
use std::alloc::Global;

// The tag of the struct of a VARCHAR of this name.
fn varchar_tag(alloc: Global, name: &Name) -> Result<Boxed<Name>, OutOfMemory>
    ensures { IfOk result (λ tag. tag ≡ written.varchar_tag name.now) }
{
    let mut bytes = List::from_slice(alloc, b"varchar_")?;
    bytes.extend_from_slice(name.as_slice())?;
    Ok(Boxed::new(alloc, Name::from_slice(alloc, bytes.as_slice())?)?)
}

// The declaration of a VARCHAR, whose struct has a tag.
pub fn varchar_object(alloc: Global, line: Line, item: &Declarator) -> Result<Decl, OutOfMemory>
    ensures { IfOk result (λ d. decl_view d ≡ written.varchar_object line.0
        (declarator_view item.now)) }
{
    let tag = varchar_tag(alloc, &item.name)?;
    let item = written_declarator(alloc, line, item)?;
    Ok(varchar_decl(alloc, line, Some(tag), item)?)
}

// A declaration as a statement on this line, behind others.
fn push_stmt(
    alloc: Global,
    list: &mut List<Stmt>,
    line: Line,
    declared: Decl,
) -> Result<(), OutOfMemory>
    ensures { OnOk result (map stmt_view list.new ≡ map stmt_view list.old
        ++ stmt line (decl_stmt (decl_view declared)) ∷ []) }
{
    let declared = Boxed::new(alloc, declared)?;
    list.push(Stmt {
        line,
        kind: StmtKind::Decl(declared),
    })?;
    Ok(())
}

// A declaration at the top level, behind others.
fn push_top(list: &mut List<Top>, declared: Decl) -> Result<(), OutOfMemory>
    ensures { OnOk result (map top_view list.new ≡ map top_view list.old
        ++ decl_top (decl_view declared) ∷ []) }
{
    list.push(Top::Decl(declared))?;
    Ok(())
}

// Declarations of VARCHARs as statements on this line.
fn push_varchar_stmts(
    alloc: Global,
    line: Line,
    items: &[Declarator],
    list: &mut List<Stmt>,
) -> Result<(), OutOfMemory>
    ensures { OnOk result (map stmt_view list.new ≡ map stmt_view list.old
        ++ decl_stmts line (written.varchar_objects line.0 (declarators_view items.now))) }
{
    for item in items {
        push_stmt(alloc, list, line, varchar_object(alloc, line, item)?)?;
    }
    Ok(())
}

// Declarations of VARCHARs at the top level.
fn push_varchar_tops(
    alloc: Global,
    line: Line,
    items: &[Declarator],
    list: &mut List<Top>,
) -> Result<(), OutOfMemory>
    ensures { OnOk result (map top_view list.new ≡ map top_view list.old
        ++ map decl_top (written.varchar_objects line.0 (declarators_view items.now))) }
{
    for item in items {
        push_top(list, varchar_object(alloc, line, item)?)?;
    }
    Ok(())
}

/// What is written of a declaration in a block: each as a statement on this line.
#[tactic(auto, using(crate::proofs::Written::varchars_are, crate::proofs::Written::plain_is))]
pub fn push_objects(
    alloc: Global,
    line: Line,
    declared: &Decl,
    list: &mut List<Stmt>,
) -> Result<(), OutOfMemory>
    ensures { OnOk result (map stmt_view list.new ≡ map stmt_view list.old
        ++ decl_stmts line (written.written_decl line.0 (decl_view declared.now))) }
{
    if is_varchar(declared) {
        push_varchar_stmts(alloc, line, declared.items.as_slice(), list)
    } else {
        push_stmt(alloc, list, line, without_varchars(alloc, line, declared)?)
    }
}

/// What is written of a declaration at the top level.
#[tactic(auto, using(crate::proofs::Written::varchars_are, crate::proofs::Written::plain_is))]
pub fn push_globals(
    alloc: Global,
    line: Line,
    declared: &Decl,
    list: &mut List<Top>,
) -> Result<(), OutOfMemory>
    ensures { OnOk result (map top_view list.new ≡ map top_view list.old
        ++ map decl_top (written.written_decl line.0 (decl_view declared.now))) }
{
    if is_varchar(declared) {
        push_varchar_tops(alloc, line, declared.items.as_slice(), list)
    } else {
        push_top(list, without_varchars(alloc, line, declared)?)
    }
}
