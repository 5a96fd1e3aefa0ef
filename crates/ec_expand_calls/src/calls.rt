//! The call of the library that is written for a statement (PostgreSQL manual, 36.17).

ghost use Rattle.std.specs.Prelude.{◌≡◌, IfOk, OnOk, ◌∷◌, [], Some, None, map, option_map};
ghost use Rattle.std.specs.Option.{option_copied};
ghost use Rattle.ec_ctypes.specs.Texts.{library_text};
ghost use Rattle.ec_ctypes.specs.declared.checked.library.Sym.TheVariants.{EndOfInputs, EndOfOutputs, EndOfItems};
ghost use Rattle.ec_ctypes.specs.trees.Exprs.{call};
ghost use Rattle.ec_ctypes.specs.views.Checked.{bound_view, place_view};
ghost use Rattle.ec_ctypes.specs.views.Embedded.{emb_kind_view, get_item_view, set_item_view};
ghost use Rattle.ec_ctypes.specs.views.Exprs.{expr_view, exprs_view};
ghost use Rattle.ec_arguments.specs.Arguments as library;
ghost use Rattle.ec_arguments.specs.Arguments.{symbol, literal, int_constant};
ghost use Rattle.ec_arguments.specs.Writing.{text_argument, members_arguments, switch_word};
ghost use Rattle.ec_expansion_defs.specs.Calls.{text_at, member_of, member_at, items_from, kinds_of, runs, opens, call_by, call_expr, argument_exprs};
ghost use Rattle.ec_expand_calls.specs.Pushed.{Pushes};

use crate::arguments::{
    push_int, push_items, push_literal, push_member_at, push_members, push_symbol, push_text_at,
};
use ec_base::{Boxed, Bytes, Line, List, Name, OutOfMemory};
use ec_ctypes::{Bound, EmbKind, Expr, Host, Input, Item, LibName, Sym};
use std::alloc::Global;

// The arguments of a call, which begin with its line.
fn begin(alloc: Global, line: Line) -> Result<List<Expr>, OutOfMemory>
    ensures { IfOk result (λ args. Pushes [] args (λ rest. int_constant line.0 ∷ rest)) }
{
    let mut args = List::new(alloc);
    push_int(&mut args, u64::from(line.0))?;
    Ok(args)
}

// The call of these arguments.
fn finish(alloc: Global, name: LibName, args: List<Expr>) -> Result<Expr, OutOfMemory>
    ensures { IfOk result (λ e. expr_view e ≡ call (library_text name) (exprs_view args)) }
{
    let args = Boxed::new(alloc, args)?;
    Ok(Expr::Call(Name::from_slice(alloc, name.text().as_bytes())?, args))
}

// The line and the connection.
fn begin_connected(alloc: Global, line: Line, bound: &Bound) -> Result<List<Expr>, OutOfMemory>
    ensures { IfOk result (λ args. Pushes [] args (λ rest. int_constant line.0
        ∷ text_argument (text_at 0 (bound_view bound.now).texts) ∷ rest)) }
{
    let mut args = begin(alloc, line)?;
    push_text_at(alloc, &mut args, &bound.texts, 0)?;
    Ok(args)
}

// A call that has one text and nothing else.
fn text_call(alloc: Global, line: Line, name: LibName, bound: &Bound) -> Result<Expr, OutOfMemory>
    ensures { IfOk result (λ e. expr_view e ≡ call (library_text name) (argument_exprs
        (int_constant line.0 ∷ text_argument (text_at 0 (bound_view bound.now).texts) ∷ []))) }
{
    let args = begin_connected(alloc, line, bound)?;
    Ok(finish(alloc, name, args)?)
}

// The target, the user, the password and the name.
fn connect_call(alloc: Global, line: Line, bound: &Bound) -> Result<Expr, OutOfMemory>
    ensures { IfOk result (λ e. expr_view e ≡ call_expr line.0 (library.connect
        (text_at 0 (bound_view bound.now).texts) (text_at 1 (bound_view bound.now).texts)
        (text_at 2 (bound_view bound.now).texts) (text_at 3 (bound_view bound.now).texts))) }
{
    let mut args = begin_connected(alloc, line, bound)?;
    push_text_at(alloc, &mut args, &bound.texts, 1)?;
    push_text_at(alloc, &mut args, &bound.texts, 2)?;
    push_text_at(alloc, &mut args, &bound.texts, 3)?;
    Ok(finish(alloc, LibName::Connect, args)?)
}

// ---- literals

fn push_bytes(alloc: Global, args: &mut List<Expr>, bytes: &Bytes) -> Result<(), OutOfMemory>
    ensures { OnOk result (Pushes args.old args.new (λ rest. literal bytes.now ∷ rest)) }
{
    args.push(Expr::Str(List::from_slice(alloc, bytes.as_slice())?))?;
    Ok(())
}

fn push_name(alloc: Global, args: &mut List<Expr>, name: &Name) -> Result<(), OutOfMemory>
    ensures { OnOk result (Pushes args.old args.new (λ rest. literal name.now ∷ rest)) }
{
    args.push(Expr::Str(List::from_slice(alloc, name.as_slice())?))?;
    Ok(())
}

fn push_switch(alloc: Global, args: &mut List<Expr>, on: bool) -> Result<(), OutOfMemory>
    ensures { OnOk result (Pushes args.old args.new (λ rest. literal (switch_word on) ∷ rest)) }
{
    if on {
        push_literal(alloc, args, b"on")
    } else {
        push_literal(alloc, args, b"off")
    }
}

// ---- statements

// The inputs and the outputs, each list behind the other.
fn push_lists(alloc: Global, args: &mut List<Expr>, bound: &Bound) -> Result<(), OutOfMemory>
    ensures { OnOk result (Pushes args.old args.new (λ rest.
        members_arguments (map member_of (bound_view bound.now).ins) (symbol EndOfInputs
        ∷ members_arguments (map member_of (bound_view bound.now).outs)
        (symbol EndOfOutputs ∷ rest)))) }
{
    push_members(alloc, args, &bound.ins)?;
    push_symbol(alloc, args, Sym::EndOfInputs)?;
    push_members(alloc, args, &bound.outs)?;
    push_symbol(alloc, args, Sym::EndOfOutputs)?;
    Ok(())
}

// A text for the server.
fn normal_call(alloc: Global, line: Line, bound: &Bound) -> Result<Expr, OutOfMemory>
    ensures { IfOk result (λ e. expr_view e ≡ call_expr line.0 (runs (bound_view bound.now)
        (library.normal (bound_view bound.now).text))) }
{
    let mut args = begin_connected(alloc, line, bound)?;
    push_symbol(alloc, &mut args, Sym::StatementNormal)?;
    push_bytes(alloc, &mut args, &bound.text)?;
    push_lists(alloc, &mut args, bound)?;
    Ok(finish(alloc, LibName::Do, args)?)
}

// A prepared statement.
fn prepared_call(alloc: Global, line: Line, name: &Name, bound: &Bound) -> Result<Expr, OutOfMemory>
    ensures { IfOk result (λ e. expr_view e ≡ call_expr line.0 (runs (bound_view bound.now)
        (library.prepared name.now))) }
{
    let mut args = begin_connected(alloc, line, bound)?;
    push_symbol(alloc, &mut args, Sym::StatementExecute)?;
    push_name(alloc, &mut args, name)?;
    push_lists(alloc, &mut args, bound)?;
    Ok(finish(alloc, LibName::Do, args)?)
}

// A text that is known when it runs.
fn immediate_call(alloc: Global, line: Line, bound: &Bound) -> Result<Expr, OutOfMemory>
    ensures { IfOk result (λ e. expr_view e ≡ call_expr line.0 (runs (bound_view bound.now)
        (library.immediate (text_at 1 (bound_view bound.now).texts)))) }
{
    let mut args = begin_connected(alloc, line, bound)?;
    push_symbol(alloc, &mut args, Sym::StatementExecImmediate)?;
    push_text_at(alloc, &mut args, &bound.texts, 1)?;
    push_lists(alloc, &mut args, bound)?;
    Ok(finish(alloc, LibName::Do, args)?)
}

// A cursor for a prepared statement: the head of its text, and the name.
fn opening_call(alloc: Global, line: Line, name: &Name, bound: &Bound) -> Result<Expr, OutOfMemory>
    ensures { IfOk result (λ e. expr_view e ≡ call_expr line.0 (runs (bound_view bound.now)
        (library.opening (bound_view bound.now).text name.now))) }
{
    let mut args = begin_connected(alloc, line, bound)?;
    push_symbol(alloc, &mut args, Sym::StatementOpen)?;
    push_bytes(alloc, &mut args, &bound.text)?;
    push_name(alloc, &mut args, name)?;
    push_lists(alloc, &mut args, bound)?;
    Ok(finish(alloc, LibName::Do, args)?)
}

// OPEN, of a cursor with or without a prepared name.
fn open_call(
    alloc: Global,
    line: Line,
    prepared: Option<&Name>,
    bound: &Bound,
) -> Result<Expr, OutOfMemory>
    ensures { IfOk result (λ e. expr_view e ≡ call_expr line.0 (runs (bound_view bound.now)
        (opens (option_copied prepared.entry) (bound_view bound.now).text))) }
{
    match prepared {
        Some(name) => opening_call(alloc, line, name, bound),
        None => normal_call(alloc, line, bound),
    }
}

// ---- transactions and prepared names

fn autocommit_call(alloc: Global, line: Line, on: bool, bound: &Bound) -> Result<Expr, OutOfMemory>
    ensures { IfOk result (λ e. expr_view e ≡ call_expr line.0 (library.set_autocommit on
        (text_at 0 (bound_view bound.now).texts))) }
{
    let mut args = begin(alloc, line)?;
    push_switch(alloc, &mut args, on)?;
    push_text_at(alloc, &mut args, &bound.texts, 0)?;
    Ok(finish(alloc, LibName::SetCommit, args)?)
}

fn control_call(alloc: Global, line: Line, text: &Bytes, bound: &Bound) -> Result<Expr, OutOfMemory>
    ensures { IfOk result (λ e. expr_view e ≡ call_expr line.0 (library.control
        (text_at 0 (bound_view bound.now).texts) text.now)) }
{
    let mut args = begin_connected(alloc, line, bound)?;
    push_bytes(alloc, &mut args, text)?;
    Ok(finish(alloc, LibName::Trans, args)?)
}

fn prepare_call(alloc: Global, line: Line, name: &Name, bound: &Bound) -> Result<Expr, OutOfMemory>
    ensures { IfOk result (λ e. expr_view e ≡ call_expr line.0 (library.prepare
        (text_at 0 (bound_view bound.now).texts) name.now
        (text_at 1 (bound_view bound.now).texts))) }
{
    let mut args = begin_connected(alloc, line, bound)?;
    push_name(alloc, &mut args, name)?;
    push_text_at(alloc, &mut args, &bound.texts, 1)?;
    Ok(finish(alloc, LibName::Prepare, args)?)
}

fn deallocate_call(
    alloc: Global,
    line: Line,
    name: &Name,
    bound: &Bound,
) -> Result<Expr, OutOfMemory>
    ensures { IfOk result (λ e. expr_view e ≡ call_expr line.0 (library.deallocate
        (text_at 0 (bound_view bound.now).texts) name.now)) }
{
    let mut args = begin_connected(alloc, line, bound)?;
    push_name(alloc, &mut args, name)?;
    Ok(finish(alloc, LibName::Deallocate, args)?)
}

// ---- descriptors

fn get_count_call(alloc: Global, line: Line, bound: &Bound) -> Result<Expr, OutOfMemory>
    ensures { IfOk result (λ e. expr_view e ≡ call_expr line.0 (library.get_count
        (text_at 0 (bound_view bound.now).texts) (member_at 0 (bound_view bound.now).outs))) }
{
    let mut args = begin_connected(alloc, line, bound)?;
    push_member_at(alloc, &mut args, &bound.outs, 0)?;
    Ok(finish(alloc, LibName::GetDescHeader, args)?)
}

fn set_count_call(alloc: Global, line: Line, bound: &Bound) -> Result<Expr, OutOfMemory>
    ensures { IfOk result (λ e. expr_view e ≡ call_expr line.0 (library.set_count
        (text_at 0 (bound_view bound.now).texts) (member_at 0 (bound_view bound.now).ins))) }
{
    let mut args = begin_connected(alloc, line, bound)?;
    push_member_at(alloc, &mut args, &bound.ins, 0)?;
    Ok(finish(alloc, LibName::SetDescHeader, args)?)
}

fn get_items_call(
    alloc: Global,
    line: Line,
    kinds: &List<Item>,
    bound: &Bound,
) -> Result<Expr, OutOfMemory>
    ensures { IfOk result (λ e. expr_view e ≡ call_expr line.0 (library.get_items
        (text_at 0 (bound_view bound.now).texts) (member_at 0 (bound_view bound.now).ins)
        (items_from 0 kinds.now (bound_view bound.now).outs))) }
{
    let mut args = begin_connected(alloc, line, bound)?;
    push_member_at(alloc, &mut args, &bound.ins, 0)?;
    push_items(alloc, &mut args, kinds, &bound.outs, 0)?;
    push_symbol(alloc, &mut args, Sym::EndOfItems)?;
    Ok(finish(alloc, LibName::GetDesc, args)?)
}

fn set_items_call(
    alloc: Global,
    line: Line,
    kinds: &List<Item>,
    bound: &Bound,
) -> Result<Expr, OutOfMemory>
    ensures { IfOk result (λ e. expr_view e ≡ call_expr line.0 (library.set_items
        (text_at 0 (bound_view bound.now).texts) (member_at 0 (bound_view bound.now).ins)
        (items_from 1 kinds.now (bound_view bound.now).ins))) }
{
    let mut args = begin_connected(alloc, line, bound)?;
    push_member_at(alloc, &mut args, &bound.ins, 0)?;
    push_items(alloc, &mut args, kinds, &bound.ins, 1)?;
    push_symbol(alloc, &mut args, Sym::EndOfItems)?;
    Ok(finish(alloc, LibName::SetDesc, args)?)
}

// ---- statements

// The items of a GET.
fn kinds_got(alloc: Global, items: &List<(Item, Host)>) -> Result<List<Item>, OutOfMemory>
    ensures { IfOk result (λ kinds. kinds ≡ kinds_of (map get_item_view items.now)) }
{
    let mut kinds = List::new(alloc);
    for item in items.as_slice() {
        kinds.push(item.0)?;
    }
    Ok(kinds)
}

// The items of a SET.
fn kinds_set(alloc: Global, items: &List<(Item, Input)>) -> Result<List<Item>, OutOfMemory>
    ensures { IfOk result (λ kinds. kinds ≡ kinds_of (map set_item_view items.now)) }
{
    let mut kinds = List::new(alloc);
    for item in items.as_slice() {
        kinds.push(item.0)?;
    }
    Ok(kinds)
}

/// The call that is written for a statement on this line, with the prepared name of the cursor that it opens. A directive
/// has none.
pub fn call_of(
    alloc: Global,
    line: Line,
    prepared: Option<&Name>,
    kind: &EmbKind,
    bound: &Bound,
) -> Result<Option<Expr>, OutOfMemory>
    ensures { IfOk result (λ e. option_map expr_view e ≡ option_map (call_expr line.0)
        (call_by (option_copied prepared.entry) (emb_kind_view kind.now) (bound_view bound.now))) }
{
    match kind {
        EmbKind::Connect { .. } => Ok(Some(connect_call(alloc, line, bound)?)),
        EmbKind::SetConnection(_) => Ok(Some(text_call(alloc, line, LibName::SetConn, bound)?)),
        EmbKind::Disconnect(_) => Ok(Some(text_call(alloc, line, LibName::Disconnect, bound)?)),
        EmbKind::Autocommit(on) => Ok(Some(autocommit_call(alloc, line, *on, bound)?)),
        EmbKind::Trans(text) => Ok(Some(control_call(alloc, line, text, bound)?)),
        EmbKind::Text { .. } => Ok(Some(normal_call(alloc, line, bound)?)),
        EmbKind::OpenCursor { .. } => Ok(Some(open_call(alloc, line, prepared, bound)?)),
        EmbKind::Immediate(_) => Ok(Some(immediate_call(alloc, line, bound)?)),
        EmbKind::Prepare { name, .. } => Ok(Some(prepare_call(alloc, line, name, bound)?)),
        EmbKind::Execute { name, .. } => Ok(Some(prepared_call(alloc, line, name, bound)?)),
        EmbKind::Deallocate(name) => Ok(Some(deallocate_call(alloc, line, name, bound)?)),
        EmbKind::Allocate(_) => Ok(Some(text_call(alloc, line, LibName::AllocateDesc, bound)?)),
        EmbKind::Free(_) => Ok(Some(text_call(alloc, line, LibName::DeallocateDesc, bound)?)),
        EmbKind::GetCount(_, _) => Ok(Some(get_count_call(alloc, line, bound)?)),
        EmbKind::Get { items, .. } => Ok(Some(get_items_call(
            alloc,
            line,
            &kinds_got(alloc, items)?,
            bound,
        )?)),
        EmbKind::SetCount(_, _) => Ok(Some(set_count_call(alloc, line, bound)?)),
        EmbKind::Set { items, .. } => Ok(Some(set_items_call(
            alloc,
            line,
            &kinds_set(alloc, items)?,
            bound,
        )?)),
        EmbKind::Declare { .. } => Ok(None),
        EmbKind::Whenever(_, _) => Ok(None),
        EmbKind::IncludeSqlca => Ok(None),
    }
}
