//! Statements with their hosts as places.

ghost use Rattle.std.specs.Prelude.{◌≡◌, ◌++◌, ◌∷◌, [], IfOk, OnOk, map, drop, option_map};
ghost use Rattle.std.specs.Option.{option_copied};
ghost use Rattle.ec_ctypes.specs.views.Checked.{bound_view};
ghost use Rattle.ec_ctypes.specs.views.Embedded.{host_view, text_arg_view, input_view, ins_view, outs_view, part_view, get_item_view, set_item_view, emb_view};
ghost use Rattle.ec_ctypes.specs.views.Exprs.{expr_view};
ghost use Rattle.ec_host_defs.specs.Bound as spec;
ghost use Rattle.ec_host_defs.specs.Faults.{cursor_part};
ghost use Rattle.ec_params.specs.Scenes.{program_of, denoted_of};
ghost use Rattle.ec_params.specs.Areas as areas;

use crate::counting::open_names;
use crate::lists::{add_got, add_input, add_ins, add_outs, add_parts, add_set};
use crate::places::add_host;
use crate::scene::Scene;
use crate::sending::sent_text;
use crate::texts::{text_of, text_option};
use ec_base::{Boxed, List, OutOfMemory};
use ec_ctypes::{Bound, Emb, EmbKind, Expr, Host, Input, Ins, Item, Outs, Part, TextArg};
use std::alloc::Global;

/// One text.
fn one_text(alloc: Global, text: Boxed<Expr>) -> Result<List<Expr>, OutOfMemory>
    ensures { IfOk result (λ texts. map expr_view texts ≡ expr_view text ∷ []) }
{
    let mut texts = List::new(alloc);
    texts.push(text.into_inner())?;
    Ok(texts)
}

/// Two texts.
fn two_texts(
    alloc: Global,
    first: Boxed<Expr>,
    second: Boxed<Expr>,
) -> Result<List<Expr>, OutOfMemory>
    ensures { IfOk result (λ texts. map expr_view texts ≡ expr_view first ∷ expr_view second ∷ []) }
{
    let mut texts = one_text(alloc, first)?;
    texts.push(second.into_inner())?;
    Ok(texts)
}

/// Four texts.
fn four_texts(
    alloc: Global,
    first: Boxed<Expr>,
    second: Boxed<Expr>,
    third: Boxed<Expr>,
    fourth: Boxed<Expr>,
) -> Result<List<Expr>, OutOfMemory>
    ensures { IfOk result (λ texts. map expr_view texts
        ≡ expr_view first ∷ expr_view second ∷ expr_view third ∷ expr_view fourth ∷ []) }
{
    let mut texts = two_texts(alloc, first, second)?;
    texts.push(third.into_inner())?;
    texts.push(fourth.into_inner())?;
    Ok(texts)
}

/// A statement with these texts alone.
fn texts_bound(alloc: Global, texts: List<Expr>) -> Bound
    ensures { bound_view result ≡ spec.texts_bound (map expr_view texts) }
{
    Bound {
        text: List::new(alloc),
        texts,
        ins: List::new(alloc),
        outs: List::new(alloc),
    }
}

/// A statement without a text.
fn empty_bound(alloc: Global) -> Bound
    ensures { bound_view result ≡ spec.texts_bound [] }
{
    texts_bound(alloc, List::new(alloc))
}

/// A statement with a connection alone.
fn connection_bound(alloc: Global, connection: Boxed<Expr>) -> Result<Bound, OutOfMemory>
    ensures { IfOk result (λ bound. bound_view bound
        ≡ spec.texts_bound (expr_view connection ∷ [])) }
{
    let texts = one_text(alloc, connection)?;
    Ok(texts_bound(alloc, texts))
}

/// A statement with one text alone, without a connection.
fn text_bound(
    alloc: Global,
    scene: Scene<'_>,
    at: usize,
    text: &TextArg,
) -> Result<Bound, OutOfMemory>
    ensures { IfOk result (λ bound. bound_view bound ≡ spec.texts_bound ((spec.text_expr
        (program_of scene.entry) (text_arg_view text.now) (drop at
        (denoted_of scene.entry))).made ∷ [])) }
{
    let mut next = at;
    let pointer = text_of(alloc, scene, &mut next, text)?;
    connection_bound(alloc, pointer)
}

/// A statement with a connection and a text.
fn connected_text_bound(
    alloc: Global,
    scene: Scene<'_>,
    at: usize,
    connection: Boxed<Expr>,
    text: &TextArg,
) -> Result<Bound, OutOfMemory>
    ensures { IfOk result (λ bound. bound_view bound
        ≡ spec.texts_bound (expr_view connection ∷ (spec.text_expr
        (program_of scene.entry) (text_arg_view text.now) (drop at
        (denoted_of scene.entry))).made ∷ [])) }
{
    let mut next = at;
    let pointer = text_of(alloc, scene, &mut next, text)?;
    let texts = two_texts(alloc, connection, pointer)?;
    Ok(texts_bound(alloc, texts))
}

/// A CONNECT.
fn connect_bound(
    alloc: Global,
    scene: Scene<'_>,
    at: usize,
    target: &TextArg,
    name: &Option<Boxed<TextArg>>,
    user: &Option<Boxed<TextArg>>,
    password: &Option<Boxed<TextArg>>,
) -> Result<Bound, OutOfMemory>
    ensures { IfOk result (λ bound. bound_view bound ≡ spec.connect_bound (program_of scene.entry)
        (text_arg_view target.now) (option_map text_arg_view name.now)
        (option_map text_arg_view user.now) (option_map text_arg_view password.now)
        (drop at (denoted_of scene.entry))) }
{
    let mut next = at;
    let target = text_of(alloc, scene, &mut next, target)?;
    let name = text_option(alloc, scene, &mut next, name)?;
    let user = text_option(alloc, scene, &mut next, user)?;
    let password = text_option(alloc, scene, &mut next, password)?;
    let texts = four_texts(alloc, target, user, password, name)?;
    Ok(texts_bound(alloc, texts))
}

/// A statement that passes to the server.
fn server_bound(
    alloc: Global,
    scene: Scene<'_>,
    at: usize,
    connection: Boxed<Expr>,
    parts: &[Part],
    outs: &Outs,
) -> Result<Bound, OutOfMemory>
    ensures { IfOk result (λ bound. bound_view bound ≡ areas.server_bound (program_of scene.entry)
        (map part_view parts.now) (outs_view outs.now) (expr_view connection)
        (drop at (denoted_of scene.entry))) }
{
    let text = sent_text(alloc, scene, at, parts)?;
    let mut next = at;
    let mut ins = List::new(alloc);
    add_parts(alloc, scene, &mut next, parts, &mut ins)?;
    let mut results = List::new(alloc);
    add_outs(alloc, scene, &mut next, outs, &mut results)?;
    let texts = one_text(alloc, connection)?;
    Ok(Bound {
        text,
        texts,
        ins,
        outs: results,
    })
}

/// The parts of a DECLARE: its cursor's text, and its hosts.
fn cursor_parts<'a>(declare: Option<&'a Emb>) -> &'a [Part]
    ensures { map part_view result.now
        ≡ spec.cursor_parts (option_map emb_view (option_copied declare.entry)) }
{
    match declare {
        Some(emb) => match &emb.kind {
            EmbKind::Declare { parts, .. } => parts.as_slice(),
            _ => &[],
        },
        None => &[],
    }
}

/// An OPEN of the cursor with these parts, whose names begin there.
fn open_bound(
    alloc: Global,
    scene: Scene<'_>,
    at: usize,
    connection: Boxed<Expr>,
    parts: &[Part],
    parts_at: usize,
    ins: &Ins,
) -> Result<Bound, OutOfMemory>
    ensures { IfOk result (λ bound. bound_view bound ≡ areas.open_bound (program_of scene.entry)
        (expr_view connection) (map part_view parts.now) (ins_view ins.now) (drop at
        (denoted_of scene.entry))
        (drop parts_at (denoted_of scene.entry))) }
{
    let text = sent_text(alloc, scene, parts_at, parts)?;
    let mut places = List::new(alloc);
    let mut next = parts_at;
    add_parts(alloc, scene, &mut next, parts, &mut places)?;
    let mut own = at;
    add_ins(alloc, scene, &mut own, ins, &mut places)?;
    let texts = one_text(alloc, connection)?;
    Ok(Bound {
        text,
        texts,
        ins: places,
        outs: List::new(alloc),
    })
}

/// An EXECUTE.
fn execute_bound(
    alloc: Global,
    scene: Scene<'_>,
    at: usize,
    connection: Boxed<Expr>,
    ins: &Ins,
    outs: &Outs,
) -> Result<Bound, OutOfMemory>
    ensures { IfOk result (λ bound. bound_view bound ≡ areas.execute_bound (program_of scene.entry)
        (ins_view ins.now) (outs_view outs.now) (expr_view connection)
        (drop at (denoted_of scene.entry))) }
{
    let mut next = at;
    let mut places = List::new(alloc);
    add_ins(alloc, scene, &mut next, ins, &mut places)?;
    let mut results = List::new(alloc);
    add_outs(alloc, scene, &mut next, outs, &mut results)?;
    let texts = one_text(alloc, connection)?;
    Ok(Bound {
        text: List::new(alloc),
        texts,
        ins: places,
        outs: results,
    })
}

/// GET DESCRIPTOR of the count.
fn get_count_bound(
    alloc: Global,
    scene: Scene<'_>,
    at: usize,
    area: &TextArg,
    host: &Host,
) -> Result<Bound, OutOfMemory>
    ensures { IfOk result (λ bound. bound_view bound
        ≡ areas.get_count_bound (program_of scene.entry)
        (text_arg_view area.now) (host_view host.now) (drop at (denoted_of scene.entry))) }
{
    let mut next = at;
    let name = text_of(alloc, scene, &mut next, area)?;
    let mut outs = List::new(alloc);
    add_host(alloc, scene, &mut next, host, &mut outs)?;
    let texts = one_text(alloc, name)?;
    Ok(Bound {
        text: List::new(alloc),
        texts,
        ins: List::new(alloc),
        outs,
    })
}

/// SET DESCRIPTOR of the count.
fn set_count_bound(
    alloc: Global,
    scene: Scene<'_>,
    at: usize,
    area: &TextArg,
    value: &Input,
) -> Result<Bound, OutOfMemory>
    ensures { IfOk result (λ bound. bound_view bound
        ≡ areas.set_count_bound (program_of scene.entry)
        (text_arg_view area.now) (input_view value.now) (drop at (denoted_of scene.entry))) }
{
    let mut next = at;
    let name = text_of(alloc, scene, &mut next, area)?;
    let mut ins = List::new(alloc);
    add_input(alloc, scene, &mut next, value, &mut ins)?;
    let texts = one_text(alloc, name)?;
    Ok(Bound {
        text: List::new(alloc),
        texts,
        ins,
        outs: List::new(alloc),
    })
}

/// GET DESCRIPTOR of items.
fn get_items_bound(
    alloc: Global,
    scene: Scene<'_>,
    at: usize,
    area: &TextArg,
    index: &Input,
    items: &[(Item, Host)],
) -> Result<Bound, OutOfMemory>
    ensures { IfOk result (λ bound. bound_view bound
        ≡ areas.get_items_bound (program_of scene.entry)
        (text_arg_view area.now) (input_view index.now) (map get_item_view items.now)
        (drop at (denoted_of scene.entry))) }
{
    let mut next = at;
    let name = text_of(alloc, scene, &mut next, area)?;
    let mut ins = List::new(alloc);
    add_input(alloc, scene, &mut next, index, &mut ins)?;
    let mut outs = List::new(alloc);
    add_got(alloc, scene, &mut next, items, &mut outs)?;
    let texts = one_text(alloc, name)?;
    Ok(Bound {
        text: List::new(alloc),
        texts,
        ins,
        outs,
    })
}

/// SET DESCRIPTOR of items.
fn set_items_bound(
    alloc: Global,
    scene: Scene<'_>,
    at: usize,
    area: &TextArg,
    index: &Input,
    items: &[(Item, Input)],
) -> Result<Bound, OutOfMemory>
    ensures { IfOk result (λ bound. bound_view bound
        ≡ areas.set_items_bound (program_of scene.entry)
        (text_arg_view area.now) (input_view index.now) (map set_item_view items.now)
        (drop at (denoted_of scene.entry))) }
{
    let mut next = at;
    let name = text_of(alloc, scene, &mut next, area)?;
    let mut ins = List::new(alloc);
    add_input(alloc, scene, &mut next, index, &mut ins)?;
    add_set(alloc, scene, &mut next, items, &mut ins)?;
    let texts = one_text(alloc, name)?;
    Ok(Bound {
        text: List::new(alloc),
        texts,
        ins,
        outs: List::new(alloc),
    })
}

/// An OPEN, by the DECLARE of its cursor.
fn opened_bound(
    alloc: Global,
    scene: Scene<'_>,
    emb: &Emb,
    declare: Option<&Emb>,
    at: usize,
    connection: Boxed<Expr>,
    ins: &Ins,
) -> Result<Bound, OutOfMemory>
    ensures { IfOk result (λ bound. bound_view bound ≡ areas.open_bound (program_of scene.entry)
        (expr_view connection) (spec.cursor_parts (option_map emb_view
        (option_copied declare.entry)))
        (ins_view ins.now) (drop at (denoted_of scene.entry))
        (areas.behind_open (emb_view emb.now).at (ins_view ins.now) (denoted_of scene.entry))) }
{
    let parts_at = open_names(&emb.at, ins)?;
    let parts = cursor_parts(declare);
    open_bound(alloc, scene, at, connection, parts, parts_at, ins)
}

/// A statement behind its connection.
#[tactic(auto, unfolding(crate::specs::Naming::names_among))]
fn kind_bound(
    alloc: Global,
    scene: Scene<'_>,
    emb: &Emb,
    declare: Option<&Emb>,
    at: usize,
    connection: Boxed<Expr>,
) -> Result<Bound, OutOfMemory>
    ensures { IfOk result (λ bound. bound_view bound ≡ spec.kind_bound (program_of scene.entry)
        (emb_view emb.now) (option_map emb_view (option_copied declare.entry))
        (expr_view connection)
        (drop at (denoted_of scene.entry))
        (cursor_part (emb_view emb.now) (denoted_of scene.entry))) }
{
    match &emb.kind {
        EmbKind::Connect {
            target,
            name,
            user,
            password,
        } => connect_bound(alloc, scene, at, target, name, user, password),
        EmbKind::SetConnection(name) => text_bound(alloc, scene, at, name),
        EmbKind::Disconnect(name) => text_bound(alloc, scene, at, name),
        EmbKind::Autocommit(_) => connection_bound(alloc, connection),
        EmbKind::Trans(_) => connection_bound(alloc, connection),
        EmbKind::Text { parts, outs } => {
            server_bound(alloc, scene, at, connection, parts.as_slice(), outs)
        }
        EmbKind::Declare { .. } => Ok(empty_bound(alloc)),
        EmbKind::OpenCursor { ins, .. } => {
            opened_bound(alloc, scene, emb, declare, at, connection, ins)
        }
        EmbKind::Immediate(text) => connected_text_bound(alloc, scene, at, connection, text),
        EmbKind::Prepare { text, .. } => connected_text_bound(alloc, scene, at, connection, text),
        EmbKind::Execute { ins, outs, .. } => {
            execute_bound(alloc, scene, at, connection, ins, outs.get())
        }
        EmbKind::Deallocate(_) => connection_bound(alloc, connection),
        EmbKind::Allocate(area) => text_bound(alloc, scene, at, area),
        EmbKind::Free(area) => text_bound(alloc, scene, at, area),
        EmbKind::GetCount(area, host) => get_count_bound(alloc, scene, at, area, host.get()),
        EmbKind::Get { area, index, items } => {
            get_items_bound(alloc, scene, at, area, index.get(), items.as_slice())
        }
        EmbKind::SetCount(area, value) => set_count_bound(alloc, scene, at, area, value.get()),
        EmbKind::Set { area, index, items } => {
            set_items_bound(alloc, scene, at, area, index.get(), items.as_slice())
        }
        EmbKind::Whenever(_, _) => Ok(empty_bound(alloc)),
        EmbKind::IncludeSqlca => Ok(empty_bound(alloc)),
    }
}

/// A statement with its hosts as places, by the DECLARE of the cursor that it opens.
pub(crate) fn statement_bound(
    alloc: Global,
    scene: Scene<'_>,
    emb: &Emb,
    declare: Option<&Emb>,
) -> Result<Bound, OutOfMemory>
    ensures { IfOk result (λ bound. bound_view bound ≡ spec.statement_bound (program_of scene.entry)
        (emb_view emb.now) (option_map emb_view (option_copied declare.entry))
        (denoted_of scene.entry)) }
{
    let mut at = 0;
    let connection = text_option(alloc, scene, &mut at, &emb.at)?;
    kind_bound(alloc, scene, emb, declare, at, connection)
}
