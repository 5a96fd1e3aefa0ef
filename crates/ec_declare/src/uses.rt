//! Where VARCHAR is used.

ghost use Rattle.std.specs.Prelude.{◌≡◌, map};
ghost use Rattle.ec_ctypes.specs.views.Exprs.{expr_view, expr_option_view, exprs_view, base_view, dim_of, dims_view, init_view, inits_view, init_option_view, declarator_view, declarators_view};
ghost use Rattle.ec_ctypes.specs.views.Stmts.{kind_view};
ghost use Rattle.ec_ctypes.specs.views.Units.{param_view, func_view};
ghost use Rattle.ec_declare.specs.Seen.{uses_view};
ghost use Rattle.ec_host_defs.specs.sections.Uses as spec;
ghost use Rattle.ec_host_defs.specs.sections.Uses.{◌&◌};

use crate::lengths::ends_in_length;
use ec_ctypes::{Base, Declarator, Expr, Func, Init, Param, StmtKind};

/// The uses of VARCHAR that stand somewhere.
#[derive(Clone, Copy, Debug)]
pub(crate) struct Uses {
    /// Whether there are any.
    pub any: bool,
    /// Whether one is a pointer to a VARCHAR or a parameter.
    pub left_out: bool,
    /// Whether one has no length.
    pub lacks_length: bool,
}

/// No use.
pub(crate) fn nowhere() -> Uses
    ensures { uses_view result ≡ spec.nowhere }
{
    Uses {
        any: false,
        left_out: false,
        lacks_length: false,
    }
}

/// A use with a length or without.
fn with_length(has: bool) -> Uses
    ensures { uses_view result ≡ spec.with_length has }
{
    Uses {
        any: true,
        left_out: false,
        lacks_length: !has,
    }
}

/// A use that there can't be.
fn never() -> Uses
    ensures { uses_view result ≡ spec.never }
{
    Uses {
        any: true,
        left_out: true,
        lacks_length: false,
    }
}

impl Uses {
    /// These uses and others.
    pub(crate) fn and(self, other: Uses) -> Uses
        ensures { uses_view result ≡ uses_view self & uses_view other }
    {
        Uses {
            any: self.any || other.any,
            left_out: self.left_out || other.left_out,
            lacks_length: self.lacks_length || other.lacks_length,
        }
    }
}

/// A type name, or the result of a function.
fn in_type(base: &Base, stars: u32) -> Uses
    ensures { uses_view result ≡ spec.in_type (base_view base.now) stars }
{
    match base {
        Base::Varchar => {
            if stars == 0 {
                with_length(false)
            } else {
                never()
            }
        }
        Base::Words(_) => nowhere(),
        Base::Tag(_) => nowhere(),
        Base::Struct(_, _) => nowhere(),
    }
}

/// A declarator.
fn in_declared(base: &Base, stars: u32, dims: &[Option<Expr>]) -> Uses
    ensures { uses_view result ≡ spec.in_declared (base_view base.now) stars (dims_view dims.now) }
{
    match base {
        Base::Varchar => {
            if stars == 0 {
                with_length(ends_in_length(dims))
            } else {
                never()
            }
        }
        Base::Words(_) => nowhere(),
        Base::Tag(_) => nowhere(),
        Base::Struct(_, _) => nowhere(),
    }
}

/// What a declaration begins with.
pub(crate) fn in_base(base: &Base) -> Uses
    ensures { uses_view result ≡ spec.in_base (base_view base.now) }
{
    match base {
        Base::Varchar => with_length(true),
        Base::Words(_) => nowhere(),
        Base::Tag(_) => nowhere(),
        Base::Struct(_, _) => nowhere(),
    }
}

/// What a parameter begins with.
fn in_param_base(base: &Base) -> Uses
    ensures { uses_view result ≡ spec.in_param_base (base_view base.now) }
{
    match base {
        Base::Varchar => never(),
        Base::Words(_) => nowhere(),
        Base::Tag(_) => nowhere(),
        Base::Struct(_, _) => nowhere(),
    }
}

/// An expression, but for the members of the structs in it.
#[cycle(uses)]
pub(crate) fn in_expr(expr: &Expr) -> Uses
    ensures { uses_view result ≡ spec.in_expr (expr_view expr.now) }
{
    match expr {
        Expr::Int(_, _) => nowhere(),
        Expr::Char(_) => nowhere(),
        Expr::Str(_) => nowhere(),
        Expr::Name(_) => nowhere(),
        Expr::Unary(_, a) => in_expr(a.get()),
        Expr::Binary(_, a, b) => in_expr(a.get()).and(in_expr(b.get())),
        Expr::Assign(_, a, b) => in_expr(a.get()).and(in_expr(b.get())),
        Expr::Bump {
            before: _,
            up: _,
            of,
        } => in_expr(of.get()),
        Expr::Call(_, args) => in_exprs(args.get().as_slice()),
        Expr::CallOther(function, args) => {
            in_expr(function.get()).and(in_exprs(args.as_slice()))
        }
        Expr::Index(a, b) => in_expr(a.get()).and(in_expr(b.get())),
        Expr::Member(a, _) => in_expr(a.get()),
        Expr::Arrow(a, _) => in_expr(a.get()),
        Expr::Cast(base, stars, a) => in_type(base.get(), *stars).and(in_expr(a.get())),
        Expr::SizeType(base, stars) => in_type(base.get(), *stars),
        Expr::SizeExpr(a) => in_expr(a.get()),
    }
}

/// Expressions.
#[cycle(uses)]
#[tactic(auto, using(crate::proofs::Joining::joining))]
fn in_exprs(exprs: &[Expr]) -> Uses
    ensures { uses_view result ≡ spec.in_exprs (exprs_view exprs.now) }
{
    let mut uses = nowhere();
    for expr in exprs {
        uses = uses.and(in_expr(expr));
    }
    uses
}

/// An array length that may be left out.
fn in_dim(dim: &Option<Expr>) -> Uses
    ensures { uses_view result ≡ spec.in_dim (dim_of (expr_option_view dim.now)) }
{
    match dim {
        Some(length) => in_expr(length),
        None => nowhere(),
    }
}

/// Array lengths.
#[tactic(auto, using(crate::proofs::Joining::joining))]
fn in_dims(dims: &[Option<Expr>]) -> Uses
    ensures { uses_view result ≡ spec.in_dims (dims_view dims.now) }
{
    let mut uses = nowhere();
    for dim in dims {
        uses = uses.and(in_dim(dim));
    }
    uses
}

/// An initializer.
#[cycle(inits)]
fn in_init(init: &Init) -> Uses
    ensures { uses_view result ≡ spec.in_init (init_view init.now) }
{
    match init {
        Init::One(expr) => in_expr(expr),
        Init::Many(inits) => in_inits(inits.as_slice()),
    }
}

/// Initializers.
#[cycle(inits)]
#[tactic(auto, using(crate::proofs::Joining::joining))]
fn in_inits(inits: &[Init]) -> Uses
    ensures { uses_view result ≡ spec.in_inits (inits_view inits.now) }
{
    let mut uses = nowhere();
    for init in inits {
        uses = uses.and(in_init(init));
    }
    uses
}

/// An initializer that may be left out.
fn in_init_option(init: &Option<Init>) -> Uses
    ensures { uses_view result ≡ spec.in_init_option (init_option_view init.now) }
{
    match init {
        Some(init) => in_init(init),
        None => nowhere(),
    }
}

/// A declarator of this base.
fn in_declarator(base: &Base, declarator: &Declarator) -> Uses
    ensures { uses_view result
        ≡ spec.in_declarator (base_view base.now) (declarator_view declarator.now) }
{
    let declared = in_declared(base, declarator.stars, declarator.dims.as_slice());
    declared.and(in_dims(declarator.dims.as_slice()).and(in_init_option(&declarator.init)))
}

/// Declarators of this base.
#[tactic(auto, using(crate::proofs::Joining::joining))]
pub(crate) fn in_declarators(base: &Base, declarators: &[Declarator]) -> Uses
    ensures { uses_view result
        ≡ spec.in_declarators (base_view base.now) (declarators_view declarators.now) }
{
    let mut uses = nowhere();
    for declarator in declarators {
        uses = uses.and(in_declarator(base, declarator));
    }
    uses
}

/// An expression that may be left out.
fn in_expr_option(expr: &Option<Expr>) -> Uses
    ensures { uses_view result ≡ spec.in_expr_option (expr_option_view expr.now) }
{
    match expr {
        Some(expr) => in_expr(expr),
        None => nowhere(),
    }
}

/// The expressions of a statement, but for the statements in it.
pub(crate) fn in_kind(kind: &StmtKind) -> Uses
    ensures { uses_view result ≡ spec.in_kind (kind_view kind.now) }
{
    match kind {
        StmtKind::Expr(expr) => in_expr(expr),
        StmtKind::If(expr, _, _) => in_expr(expr.get()),
        StmtKind::While(expr, _) => in_expr(expr),
        StmtKind::Do(_, expr) => in_expr(expr),
        StmtKind::For(parts, _) => {
            let parts = parts.get();
            in_expr_option(&parts.first).and(in_expr_option(&parts.condition).and(in_expr_option(
                &parts.step,
            )))
        }
        StmtKind::Return(expr) => in_expr_option(expr),
        StmtKind::Empty => nowhere(),
        StmtKind::Block(_) => nowhere(),
        StmtKind::Break => nowhere(),
        StmtKind::Continue => nowhere(),
        StmtKind::Goto(_) => nowhere(),
        StmtKind::Label(_, _) => nowhere(),
        StmtKind::Decl(_) => nowhere(),
        StmtKind::Emb(_) => nowhere(),
        StmtKind::Mark(_) => nowhere(),
    }
}

/// A parameter.
fn in_param(param: &Param) -> Uses
    ensures { uses_view result ≡ spec.in_param (param_view param.now) }
{
    in_param_base(&param.base).and(in_dims(param.dims.as_slice()))
}

/// Parameters.
#[tactic(auto, using(crate::proofs::Joining::joining))]
fn in_params(params: &[Param]) -> Uses
    ensures { uses_view result ≡ spec.in_params (map param_view params.now) }
{
    let mut uses = nowhere();
    for param in params {
        uses = uses.and(in_param(param));
    }
    uses
}

/// A function, but for its body.
pub(crate) fn in_function(func: &Func) -> Uses
    ensures { uses_view result ≡ spec.in_function (func_view func.now) }
{
    in_type(&func.base, func.stars).and(in_params(func.params.as_slice()))
}
