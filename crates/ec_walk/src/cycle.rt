//! The walk itself, in which each function stops at a number of levels.
#![tactic(auto, using(ec_scopes::proofs::Steps::noting, crate::proofs::Trees::seeing, ec_ctypes::specs::declared::tree::expr::Expr::the_lemmas), unfolding(ec_typing_defs::specs::Worlds::chain, ec_typing_defs::specs::Worlds::pure, ec_typing_defs::specs::Worlds::ask, ec_typing_defs::specs::Worlds::note))]

ghost use Rattle.std.specs.Prelude.{◌≡◌, [], map, false, true};
ghost use Rattle.ec_ctypes.specs.views.Exprs.{expr_view, expr_option_view, exprs_view, dim_of, base_view, dims_view, init_view, inits_view, init_option_view, decl_view, decls_view, declarator_view};
ghost use Rattle.ec_known.specs.Forms.{arguments_view};
ghost use Rattle.ec_typing_defs.specs.Expressions as rule;
ghost use Rattle.ec_scopes.specs.Entries.{place_view, named_view, type_view};
ghost use Rattle.ec_scopes.specs.Seen.{world_of, Does};
ghost use Rattle.ec_rules.specs.Seen.{operand_view};
ghost use Rattle.ec_ctypes.specs.trees.Exprs.{call};
ghost use Rattle.ec_walk.specs.Spines.{argument, behind};

use crate::dims::{last_apart, last_of};
use crate::members::{has_init, is_varchar, member_named, words_rule};
use crate::spines::left_of;
use ec_base::{FaultKind, List, OutOfMemory};
use ec_ctypes::{Base, Decl, Declarator, Expr, Init, Ty, UnOp, copy_ty};
use ec_known::{Arguments, arguments_of, is_identifier};
use ec_rules::{
    Operand, address_rule, arrow_rule, assign_rule, binary_rule, bump_rule, call_rule, cast_rule,
    compound_rule, copy_type, declared_type, elements_rule, index_rule, length_rule, member_rule,
    name_rule, size_rule, unary_rule, value_rule,
};
use ec_scopes::{Checker, Place, Table};

/// What is found out about an expression. One that leans to the left is gone down by a loop, and up by another.
#[cycle(walk)]
pub(crate) fn expr_within(
    checker: &mut Checker,
    at: Place,
    e: &Expr,
    levels: u32,
) -> Result<Operand, OutOfMemory>
    ensures { Does operand_view (rule.expr (place_view at) (expr_view e.now)
        (world_of checker.old)) checker.old result checker.new }
{
    if levels == 0 {
        // Out of reach, which isn't proved: LEVELS is more than a tree may nest.
        return Err(OutOfMemory);
    }
    let mut above: List<&Expr> = List::new(checker.alloc());
    let mut first = e;
    while let Some(left) = left_of(first) {
        above.push(first)?;
        first = left;
    }
    let mut o = leaf(checker, at, first, levels - 1)?;
    while let Some(next) = above.pop() {
        o = behind(checker, at, next, o, levels - 1)?;
    }
    Ok(o)
}

/// An expression that leans to no side.
#[cycle(walk)]
fn leaf(checker: &mut Checker, at: Place, e: &Expr, levels: u32) -> Result<Operand, OutOfMemory>
    ensures { Does operand_view (rule.expr (place_view at) (expr_view e.now)
        (world_of checker.old)) checker.old result checker.new }
{
    match e {
        Expr::Int(n, ty) => Ok(Operand::integer(copy_ty(checker.alloc(), ty)?, i128::from(*n))),
        Expr::Char(c) => Ok(Operand::integer(Ty::Int, i128::from(*c))),
        Expr::Str(s) => Operand::literal(checker.alloc(), s.len() as u64),
        Expr::Name(name) => name_rule(checker, at, name.as_slice()),
        Expr::Assign(None, a, b) => {
            let x = expr_within(checker, at, a.get(), levels)?;
            let p = expr_within(checker, at, b.get(), levels)?;
            let y = value_rule(checker, at, p);
            Ok(assign_rule(checker, at, x, y))
        }
        Expr::Assign(Some(op), a, b) => {
            let x = expr_within(checker, at, a.get(), levels)?;
            let p = expr_within(checker, at, b.get(), levels)?;
            let y = value_rule(checker, at, p);
            Ok(compound_rule(checker, at, *op, x, y))
        }
        Expr::Call(f, es) => {
            let o = call_within(checker, at, f.as_slice(), es.get().as_slice(), levels)?;
            Ok(o)
        }
        Expr::CallOther(f, es) => {
            if !is_identifier(f.get()) {
                // Out of reach, which isn't proved: what isn't called by its name is a fault of the grammar.
                return Err(OutOfMemory);
            }
            let _os = args(
                checker,
                at,
                Arguments::AllExpressions,
                es.as_slice(),
                levels,
            )?;
            checker.note(at, FaultKind::F16);
            Ok(Operand::unknown())
        }
        Expr::Cast(base, stars, of) => {
            let b = base_within(checker, at, base.get(), levels)?;
            let to = declared_type(checker.alloc(), b, *stars, &[])?;
            let o = expr_within(checker, at, of.get(), levels)?;
            Ok(cast_rule(checker, at, to, o))
        }
        Expr::SizeType(base, stars) => {
            let b = base_within(checker, at, base.get(), levels)?;
            let ty = declared_type(checker.alloc(), b, *stars, &[])?;
            Ok(size_rule(checker, at, ty))
        }
        // Out of reach, which isn't proved: the loop has gone down through all of these.
        Expr::Unary(_, _)
        | Expr::Binary(_, _, _)
        | Expr::Bump { .. }
        | Expr::Index(_, _)
        | Expr::Member(_, _)
        | Expr::Arrow(_, _)
        | Expr::SizeExpr(_) => Err(OutOfMemory),
    }
}

/// A call of the function of a name.
#[cycle(walk)]
pub(crate) fn call_within(
    checker: &mut Checker,
    at: Place,
    name: &[u8],
    es: &[Expr],
    levels: u32,
) -> Result<Operand, OutOfMemory>
    ensures { Does operand_view (rule.expr (place_view at) (call name.now (exprs_view es.now))
        (world_of checker.old)) checker.old result checker.new }
{
    let forms = arguments_of(checker.written(), name);
    let os = args(checker, at, forms, es, levels)?;
    let o = call_rule(checker, at, name, es, os)?;
    Ok(o)
}

/// An expression behind what is found out about its left part.
#[cycle(walk)]
fn behind(
    checker: &mut Checker,
    at: Place,
    e: &Expr,
    o: Operand,
    levels: u32,
) -> Result<Operand, OutOfMemory>
    ensures { Does operand_view (behind (place_view at) (expr_view e.now)
        (operand_view o) (world_of checker.old)) checker.old result checker.new }
{
    match e {
        Expr::Unary(UnOp::Addr, _) => address_rule(checker, at, o),
        Expr::Unary(op, _) => {
            let x = value_rule(checker, at, o);
            Ok(unary_rule(checker, at, *op, x))
        }
        Expr::Binary(op, _, b) => {
            let x = value_rule(checker, at, o);
            let p = expr_within(checker, at, b.get(), levels)?;
            let y = value_rule(checker, at, p);
            Ok(binary_rule(checker, at, *op, x, y))
        }
        Expr::Bump { .. } => Ok(bump_rule(checker, at, o)),
        Expr::CallOther(_, es) => {
            let _os = args(
                checker,
                at,
                Arguments::AllExpressions,
                es.as_slice(),
                levels,
            )?;
            checker.note(at, FaultKind::F16);
            Ok(Operand::unknown())
        }
        Expr::Index(_, b) => {
            let x = value_rule(checker, at, o);
            let p = expr_within(checker, at, b.get(), levels)?;
            let y = value_rule(checker, at, p);
            Ok(index_rule(checker, at, x, y))
        }
        Expr::Member(_, name) => member_rule(checker, at, o, name.as_slice()),
        Expr::Arrow(_, name) => {
            let x = value_rule(checker, at, o);
            arrow_rule(checker, at, x, name.as_slice())
        }
        Expr::SizeExpr(_) => Ok(size_rule(checker, at, o.ty)),
        Expr::Int(_, _)
        | Expr::Char(_)
        | Expr::Str(_)
        | Expr::Name(_)
        | Expr::Assign(_, _, _)
        | Expr::Call(_, _)
        | Expr::Cast(_, _, _)
        | Expr::SizeType(_, _) => Ok(o),
    }
}

/// The arguments of a call.
#[cycle(walk)]
fn args(
    checker: &mut Checker,
    at: Place,
    forms: Arguments,
    es: &[Expr],
    levels: u32,
) -> Result<List<Operand>, OutOfMemory>
    ensures { Does (map operand_view) (rule.args (place_view at) (arguments_view forms)
        (exprs_view es.now) (world_of checker.old)) checker.old result checker.new }
{
    let mut os = List::new(checker.alloc());
    let mut forms = forms;
    for e in es {
        let o = argument(checker, at, forms, e, levels)?;
        os.push(o)?;
        forms = forms.behind_first();
    }
    Ok(os)
}

/// An argument of a call, which may be no expression.
#[cycle(walk)]
fn argument(
    checker: &mut Checker,
    at: Place,
    forms: Arguments,
    e: &Expr,
    levels: u32,
) -> Result<Operand, OutOfMemory>
    ensures { Does operand_view (argument (place_view at) (arguments_view forms)
        (expr_view e.now) (world_of checker.old)) checker.old result checker.new }
{
    if forms.is_no_expression(e) {
        return Ok(Operand::unknown());
    }
    let o = expr_within(checker, at, e, levels)?;
    Ok(value_rule(checker, at, o))
}

/// The type that a declaration begins with.
#[cycle(walk)]
pub(crate) fn base_within(
    checker: &mut Checker,
    at: Place,
    base: &Base,
    levels: u32,
) -> Result<Option<Ty>, OutOfMemory>
    ensures { Does type_view (rule.base (place_view at) (base_view base.now)
        (world_of checker.old)) checker.old result checker.new }
{
    if levels == 0 {
        // Out of reach, which isn't proved: LEVELS is more than a tree may nest.
        return Err(OutOfMemory);
    }
    match base {
        Base::Words(words) => Ok(words_rule(checker, at, words.as_slice())),
        Base::Varchar => Ok(None),
        Base::Tag(tag) => Ok(checker.tag_rule(at, tag.as_slice())),
        Base::Struct(tag, ds) => {
            let k = checker.begin_struct(at, tag)?;
            let ms = members(checker, ds.get().as_slice(), levels - 1)?;
            let ty = checker.end_struct(at, tag, k, ms)?;
            Ok(ty)
        }
    }
}

/// The members of a struct.
#[cycle(walk)]
fn members(
    checker: &mut Checker,
    ds: &[Decl],
    levels: u32,
) -> Result<Table<Option<Ty>>, OutOfMemory>
    ensures { Does (named_view type_view) (rule.members (decls_view ds.now) []
        (world_of checker.old)) checker.old result checker.new }
{
    let mut members = Table::new(checker.alloc());
    for d in ds {
        member_decl(checker, d, &mut members, levels)?;
    }
    Ok(members)
}

/// The members of one declaration.
#[cycle(walk)]
fn member_decl(
    checker: &mut Checker,
    d: &Decl,
    members: &mut Table<Option<Ty>>,
    levels: u32,
) -> Result<(), OutOfMemory>
    ensures { Does (λ _. named_view type_view members.new) (rule.member_decl (decl_view d.now)
        (named_view type_view members.old) (world_of checker.old)) checker.old result checker.new }
{
    let at = checker.place(d.line)?;
    let ty = base_within(checker, at, &d.base, levels)?;
    let varchar = is_varchar(&d.base);
    for item in d.items.as_slice() {
        member_item(checker, at, varchar, &ty, item, members, levels)?;
    }
    Ok(())
}

/// One member.
#[cycle(walk)]
fn member_item(
    checker: &mut Checker,
    at: Place,
    varchar: bool,
    ty: &Option<Ty>,
    item: &Declarator,
    members: &mut Table<Option<Ty>>,
    levels: u32,
) -> Result<(), OutOfMemory>
    ensures { Does (λ _. named_view type_view members.new)
        (rule.member_item (place_view at) varchar (type_view ty.now) (declarator_view item.now)
        (named_view type_view members.old) (world_of checker.old)) checker.old result checker.new }
{
    if varchar {
        varchar_item(checker, at, ty, item, members, levels)?;
        return Ok(());
    }
    let sizes = lengths_within(checker, at, item.dims.as_slice(), levels)?;
    elements_rule(checker, at, ty, item.stars, sizes.as_slice());
    checker.demand(at, FaultKind::F14, !has_init(&item.init));
    init_parts(checker, at, &item.init, levels)?;
    let of = copy_type(checker.alloc(), ty)?;
    let whole = declared_type(checker.alloc(), of, item.stars, sizes.as_slice())?;
    member_named(checker, at, item.name.as_slice(), whole, members)?;
    Ok(())
}

/// One VARCHAR as a member, whatever type stands there.
#[cycle(walk)]
fn varchar_item(
    checker: &mut Checker,
    at: Place,
    ty: &Option<Ty>,
    item: &Declarator,
    members: &mut Table<Option<Ty>>,
    levels: u32,
) -> Result<(), OutOfMemory>
    ensures { Does (λ _. named_view type_view members.new)
        (rule.member_item (place_view at) true (type_view ty.now) (declarator_view item.now)
        (named_view type_view members.old) (world_of checker.old)) checker.old result checker.new }
{
    let _other = ty;
    let n = last_length_within(checker, at, item.dims.as_slice(), levels)?;
    let own = checker.varchar_member(at, n)?;
    let sizes = outer_lengths_within(checker, at, item.dims.as_slice(), levels)?;
    elements_rule(checker, at, &own, item.stars, sizes.as_slice());
    checker.demand(at, FaultKind::F14, !has_init(&item.init));
    init_parts(checker, at, &item.init, levels)?;
    let whole = declared_type(checker.alloc(), own, item.stars, sizes.as_slice())?;
    member_named(checker, at, item.name.as_slice(), whole, members)?;
    Ok(())
}

/// The last length of an array.
#[cycle(walk)]
pub(crate) fn last_length_within(
    checker: &mut Checker,
    at: Place,
    dims: &[Option<Expr>],
    levels: u32,
) -> Result<Option<u64>, OutOfMemory>
    ensures { Does (λ n. n) (rule.last_length (place_view at) (dims_view dims.now)
        (world_of checker.old)) checker.old result checker.new }
{
    let (_outer, last) = last_apart(dims);
    let ns = lengths_within(checker, at, last, levels)?;
    Ok(last_of(ns.as_slice()))
}

/// The lengths of an array but the last.
#[cycle(walk)]
pub(crate) fn outer_lengths_within(
    checker: &mut Checker,
    at: Place,
    dims: &[Option<Expr>],
    levels: u32,
) -> Result<List<Option<u64>>, OutOfMemory>
    ensures { Does (λ ns. ns) (rule.outer_lengths (place_view at)
        (dims_view dims.now) (world_of checker.old)) checker.old result checker.new }
{
    let (outer, _last) = last_apart(dims);
    let ns = lengths_within(checker, at, outer, levels)?;
    Ok(ns)
}

/// The lengths of an array.
#[cycle(walk)]
pub(crate) fn lengths_within(
    checker: &mut Checker,
    at: Place,
    dims: &[Option<Expr>],
    levels: u32,
) -> Result<List<Option<u64>>, OutOfMemory>
    ensures { Does (λ ns. ns) (rule.lengths (place_view at) (dims_view dims.now)
        (world_of checker.old)) checker.old result checker.new }
{
    let mut lengths = List::new(checker.alloc());
    for dim in dims {
        let n = length_at(checker, at, dim, levels)?;
        lengths.push(n)?;
    }
    Ok(lengths)
}

/// The length of an array, which may be left out.
#[cycle(walk)]
fn length_at(
    checker: &mut Checker,
    at: Place,
    dim: &Option<Expr>,
    levels: u32,
) -> Result<Option<u64>, OutOfMemory>
    ensures { Does (λ n. n) (rule.length_at (place_view at) (dim_of (expr_option_view dim.now))
        (world_of checker.old)) checker.old result checker.new }
{
    match dim {
        None => Ok(Some(0)),
        Some(e) => {
            let o = expr_within(checker, at, e, levels)?;
            let x = value_rule(checker, at, o);
            let n = length_rule(checker, at, &x)?;
            Ok(n)
        }
    }
}

/// The expressions of an initializer that stands where none may, if there is one.
#[cycle(walk)]
fn init_parts(
    checker: &mut Checker,
    at: Place,
    init: &Option<Init>,
    levels: u32,
) -> Result<(), OutOfMemory>
    ensures { Does (λ u. u) (rule.init_parts (place_view at) (init_option_view init.now)
        (world_of checker.old)) checker.old result checker.new }
{
    match init {
        None => Ok(()),
        Some(init) => {
            init_exprs(checker, at, init, levels)?;
            Ok(())
        }
    }
}

/// The expressions of an initializer.
#[cycle(walk)]
fn init_exprs(checker: &mut Checker, at: Place, init: &Init, levels: u32) -> Result<(), OutOfMemory>
    ensures { Does (λ u. u) (rule.init_exprs (place_view at) (init_view init.now)
        (world_of checker.old)) checker.old result checker.new }
{
    match init {
        Init::One(e) => {
            let o = expr_within(checker, at, e, levels)?;
            let _x = value_rule(checker, at, o);
            Ok(())
        }
        Init::Many(is) => {
            init_list(checker, at, is.as_slice(), levels)?;
            Ok(())
        }
    }
}

/// The expressions of initializers one after the other.
#[cycle(walk)]
fn init_list(
    checker: &mut Checker,
    at: Place,
    inits: &[Init],
    levels: u32,
) -> Result<(), OutOfMemory>
    ensures { Does (λ u. u) (rule.all_init_exprs (place_view at)
        (inits_view inits.now) (world_of checker.old)) checker.old result checker.new }
{
    if levels == 0 {
        // Out of reach, which isn't proved: LEVELS is more than a tree may nest.
        return Err(OutOfMemory);
    }
    for init in inits {
        init_exprs(checker, at, init, levels - 1)?;
    }
    Ok(())
}
