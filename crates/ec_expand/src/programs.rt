//! The written program.

ghost use Rattle.std.specs.Prelude.{◌≡◌, ◌++◌, IfOk, OnOk, true, suc, [], ◌∷◌, map, option_map};
ghost use Rattle.ec_ctypes.specs.views.Checked.{typed_view, handlers_view, bound_view};
ghost use Rattle.ec_ctypes.specs.views.Exprs.{decl_view};
ghost use Rattle.ec_ctypes.specs.views.Stmts.{stmts_view};
ghost use Rattle.ec_ctypes.specs.views.Units.{param_view, func_view, top_view, unit_view};
ghost use Rattle.ec_expand.specs.Blocks.{written_at};
ghost use Rattle.ec_expand.specs.Items.{param_of};
ghost use Rattle.ec_expansion_defs.specs.Lines as lines;
ghost use Rattle.ec_expansion_defs.specs.Programs.{unit_of, written_program};
ghost use Rattle.ec_expansion_defs.specs.Statements as spec;
ghost use Rattle.ec_language.specs.Productions.{line_of};
ghost use Rattle.ec_whenever.specs.Tables.{is_sorted};

use crate::blocks::Blocks;
use crate::lines::{line_after_all, next};
use crate::statements::written_items;
use ec_base::{Boxed, Line, List, Name, OutOfMemory};
use ec_ctypes::{Bound, Decl, Func, Param, Stmt, Top, Typed, Unit};
use ec_expand_blocks::cursors::cursors;
use ec_expand_declarations::{push_globals, written_base, written_dims};
use std::alloc::Global;

// ---- functions

// A name that may be left out.
fn copy_name(name: &Option<Name>) -> Result<Option<Name>, OutOfMemory>
    ensures { IfOk result (λ copy. copy ≡ name.now) }
{
    match name {
        Some(name) => Ok(Some(name.clone()?)),
        None => Ok(None),
    }
}

fn written_param(alloc: Global, line: Line, param: &Param) -> Result<Param, OutOfMemory>
    ensures { IfOk result (λ q. param_view q ≡ param_of line.0
        (param_view param.now)) }
{
    let name = copy_name(&param.name)?;
    let dims = written_dims(alloc, line, &param.dims)?;
    Ok(Param {
        base: written_base(alloc, line, &param.base)?,
        stars: param.stars,
        name,
        dims,
        section: false,
    })
}

fn written_params(
    alloc: Global,
    line: Line,
    params: &List<Param>,
) -> Result<List<Param>, OutOfMemory>
    ensures { IfOk result (λ qs. map param_view qs ≡ map (param_of line.0)
        (map param_view params.now)) }
{
    let mut list = List::new(alloc);
    for param in params.as_slice() {
        list.push(written_param(alloc, line, param)?)?;
    }
    Ok(list)
}

fn written_body(
    alloc: Global,
    blocks: &Blocks<'_>,
    body: &Option<List<Stmt>>,
) -> Result<Option<List<Stmt>>, OutOfMemory>
    ensures { IfOk result (λ b. option_map stmts_view b ≡ spec.written_body (written_at
        blocks.now.typed.now blocks.now.bounds.now) (option_map stmts_view body.now)) }
{
    match body {
        Some(items) => Ok(Some(written_items(alloc, blocks, items)?)),
        None => Ok(None),
    }
}

fn written_func(alloc: Global, blocks: &Blocks<'_>, func: &Func) -> Result<Boxed<Func>, OutOfMemory>
    ensures { IfOk result (λ f. func_view f ≡ spec.written_func (written_at
        blocks.now.typed.now blocks.now.bounds.now) (func_view func.now)) }
{
    let name = func.name.clone()?;
    let params = written_params(alloc, func.line, &func.params)?;
    let body = written_body(alloc, blocks, &func.body)?;
    Ok(Boxed::new(
        alloc,
        Func {
            base: written_base(alloc, func.line, &func.base)?,
            stars: func.stars,
            name,
            params,
            body,
            section: false,
            line: func.line,
        },
    )?)
}

// ---- the top level

// The line of a declaration.
#[tactic(auto, using(ec_ctypes::specs::declared::tree::decl::Decl::the_lemmas))]
fn line_of(declared: &Decl) -> Line
    ensures { result ≡ line_of (decl_view declared.now) }
{
    declared.line
}

// What is written of an item of the top level, behind others.
fn push_top(
    alloc: Global,
    blocks: &Blocks<'_>,
    top: &Top,
    list: &mut List<Top>,
) -> Result<(), OutOfMemory>
    ensures { OnOk result (map top_view list.new ≡ map top_view list.old
        ++ spec.written_top (written_at blocks.now.typed.now blocks.now.bounds.now)
        (top_view top.now)) }
{
    match top {
        Top::Include(bytes) => {
            list.push(Top::Include(List::from_slice(alloc, bytes.as_slice())?))?;
            Ok(())
        }
        Top::Directive(_) => Ok(()),
        Top::Decl(declared) => push_globals(alloc, line_of(declared), declared, list),
        Top::Func(func) => {
            let func = written_func(alloc, blocks, func.get())?;
            list.push(Top::Func(func))?;
            Ok(())
        }
        Top::Mark(_, _) => Ok(()),
    }
}

fn written_tops(
    alloc: Global,
    blocks: &Blocks<'_>,
    tops: &List<Top>,
) -> Result<List<Top>, OutOfMemory>
    ensures { IfOk result (λ ts. map top_view ts ≡ spec.written_tops (written_at
        blocks.now.typed.now blocks.now.bounds.now) (map top_view tops.now)) }
{
    let mut list = List::new(alloc);
    for top in tops.as_slice() {
        push_top(alloc, blocks, top, &mut list)?;
    }
    Ok(list)
}

// ---- its end

// The line behind a function on this line.
fn line_after_body(line: u32, body: &Option<List<Stmt>>) -> Result<u32, OutOfMemory>
    ensures { IfOk result (λ n. n ≡ lines.line_after_body line (option_map stmts_view body.now)) }
{
    match body {
        Some(items) => next(line_after_all(next(next(line)?)?, items)?),
        None => next(line),
    }
}

// The line behind an item of the top level, which is this one where nothing is written.
fn line_after_top(line: u32, top: &Top) -> Result<u32, OutOfMemory>
    ensures { IfOk result (λ n. n ≡ lines.line_after_top line (top_view top.now)) }
{
    match top {
        Top::Include(_) => next(line),
        Top::Directive(_) => Ok(line),
        Top::Decl(declared) => next(line_of(declared).0),
        Top::Func(func) => line_after_body(func.get().line.0, &func.get().body),
        Top::Mark(_, _) => Ok(line),
    }
}

// The line behind all of them: the first one behind the head of the text is the third.
fn line_after_tops(tops: &List<Top>) -> Result<u32, OutOfMemory>
    ensures { IfOk result (λ n. n ≡ lines.line_after_tops 3 (map top_view tops.now)) }
{
    let mut line = 3;
    for top in tops.as_slice() {
        line = line_after_top(line, top)?;
    }
    Ok(line)
}

// A program of these parts, which ends where its text does.
#[tactic(auto, using(crate::proofs::Written::unit_is))]
fn unit_of(alloc: Global, tops: List<Top>) -> Result<Unit, OutOfMemory>
    ensures { IfOk result (λ u. unit_view u ≡ unit_of (map top_view tops)) }
{
    let last = Line(line_after_tops(&tops)?);
    Ok(Unit {
        tops,
        embs: List::new(alloc),
        last,
    })
}

/// The program that is written for a program with embedded SQL: no sections, no directives and no embedded statements,
/// but a block with a call of the library in the place of each statement (PostgreSQL manual, 36.17). `bounds` has for
/// each embedded statement, in their order, what is bound for it; directives have one too, of which nothing is taken.
pub fn expand(alloc: Global, typed: &Typed, bounds: &List<Bound>) -> Result<Unit, OutOfMemory>
    requires { is_sorted (handlers_view typed.now.handlers) ≡ true }
    ensures { IfOk result (λ u. unit_view u ≡ written_program (typed_view typed.now)
        (map bound_view bounds.now)) }
{
    let table = cursors(alloc, &typed.unit.embs)?;
    let blocks = Blocks {
        typed,
        bounds,
        cursors: &table,
    };
    let tops = written_tops(alloc, &blocks, &typed.unit.tops)?;
    Ok(unit_of(alloc, tops)?)
}
