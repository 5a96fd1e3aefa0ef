//! Declarations, from the tree that was read. Each VARCHAR has a declaration of its own, which is made as a tree, written
//! and let go (PostgreSQL manual, 36.4.4).

ghost use Rattle.std.specs.Prelude.{◌≡◌, ◌++◌, [], ◌∷◌, drop, OnOk};
ghost use Rattle.ec_ctypes.specs.views.Exprs.{decl_view, declarator_view, declarators_view};
ghost use Rattle.ec_cwrite.specs.Writes.{Writes};
ghost use Rattle.ec_expand_declarations.specs.Lists.{plain_decl};
ghost use Rattle.ec_expansion_defs.specs.Declarations as written;
ghost use Rattle.ec_write_parts.specs.Written.{line_chunks, lines_chunks};
ghost use Rattle.ec_writing_defs.specs.Expressions.{decl_chunks, declarators_chunks};

use crate::expressions::put_base;
use crate::structs::any_declarator_has_struct;
use ec_base::{Bytes, Line, List, OutOfMemory};
use ec_ctypes::{Decl, Declarator, Punct};
use ec_cwrite::{push_decl, push_declarators, push_line, push_line_end, push_mark};
use ec_expand_declarations::{is_varchar, varchar_object, written_declarators};
use std::alloc::Global;

/// Declared names on this line.
fn put_declarators(
    alloc: Global,
    out: &mut Bytes,
    line: Line,
    items: &List<Declarator>,
) -> Result<(), OutOfMemory>
    ensures { OnOk result (Writes out.old out.new (declarators_chunks
        (written.written_declarators line.0 (declarators_view items.now)))) }
{
    let read = items.as_slice();
    if any_declarator_has_struct(read) {
        let written = written_declarators(alloc, line, items)?;
        push_declarators(out, written.as_slice())
    } else {
        push_declarators(out, read)
    }
}

/// A declaration of what is no VARCHAR, without its line.
fn put_decl(alloc: Global, out: &mut Bytes, line: Line, declared: &Decl) -> Result<(), OutOfMemory>
    ensures { OnOk result (Writes out.old out.new (decl_chunks
        (plain_decl line.0 (decl_view declared.now)))) }
{
    put_base(alloc, out, line, &declared.base)?;
    put_declarators(alloc, out, line, &declared.items)?;
    push_mark(out, Punct::Semicolon)?;
    Ok(())
}

/// A declaration of what is no VARCHAR, on its line.
fn put_plain(alloc: Global, out: &mut Bytes, line: Line, declared: &Decl) -> Result<(), OutOfMemory>
    ensures { OnOk result (Writes out.old out.new (line_chunks line.0
        (plain_decl line.0 (decl_view declared.now)))) }
{
    push_line(out, line)?;
    put_decl(alloc, out, line, declared)?;
    push_line_end(out)?;
    Ok(())
}

/// The declaration of a VARCHAR on its line.
fn put_varchar(
    alloc: Global,
    out: &mut Bytes,
    line: Line,
    item: &Declarator,
) -> Result<(), OutOfMemory>
    ensures { OnOk result (Writes out.old out.new (line_chunks line.0
        (written.varchar_object line.0 (declarator_view item.now)))) }
{
    let declared = varchar_object(alloc, line, item)?;
    push_line(out, line)?;
    push_decl(out, &declared)?;
    push_line_end(out)?;
    Ok(())
}

/// Declarations of VARCHARs, each on its line.
fn put_varchars(
    alloc: Global,
    out: &mut Bytes,
    line: Line,
    items: &[Declarator],
) -> Result<(), OutOfMemory>
    ensures { OnOk result (Writes out.old out.new (lines_chunks line.0
        (written.varchar_objects line.0 (declarators_view items.now)))) }
{
    for item in items {
        put_varchar(alloc, out, line, item)?;
    }
    Ok(())
}

/// What is written of a declaration outside of structs, on this line.
#[tactic(auto, using(crate::proofs::Declared::varchars_told, crate::proofs::Declared::plain_told))]
pub fn put_declaration(
    alloc: Global,
    out: &mut Bytes,
    line: Line,
    declared: &Decl,
) -> Result<(), OutOfMemory>
    ensures { OnOk result (Writes out.old out.new (lines_chunks line.0
        (written.written_decl line.0 (decl_view declared.now)))) }
{
    if is_varchar(declared) {
        put_varchars(alloc, out, line, declared.items.as_slice())
    } else {
        put_plain(alloc, out, line, declared)
    }
}
