//! Whether a struct with its members stands in an expression, or in an expression beside a declared name.

ghost use Rattle.std.specs.Prelude.{◌≡◌};
ghost use Rattle.ec_ctypes.specs.views.Exprs.{expr_view, exprs_view, base_view, expr_option_view, dim_of, dims_view, init_view, inits_view, init_option_view, declarator_view, declarators_view};
ghost use Rattle.ec_write_parts.specs.Structs as spec;

use ec_ctypes::{Base, Declarator, Expr, Init};

/// Whether it is a struct with its members.
#[tactic(auto, using(ec_ctypes::specs::declared::tree::decl::Base::the_lemmas))]
pub(crate) fn is_struct(base: &Base) -> bool
    ensures { result ≡ spec.is_struct (base_view base.now) }
{
    match base {
        Base::Words(_) | Base::Varchar | Base::Tag(_) => false,
        Base::Struct(_, _) => true,
    }
}

/// Whether a struct stands in an expression, in a cast or under `sizeof`.
#[cycle(structs)]
#[tactic(auto, using(ec_ctypes::specs::declared::tree::expr::Expr::the_lemmas))]
pub(crate) fn has_struct(expr: &Expr) -> bool
    ensures { result ≡ spec.has_struct (expr_view expr.now) }
{
    match expr {
        Expr::Int(_, _) | Expr::Char(_) | Expr::Str(_) | Expr::Name(_) => false,
        Expr::Unary(_, a) => has_struct(a.get()),
        Expr::Binary(_, a, b) => has_struct(a.get()) || has_struct(b.get()),
        Expr::Assign(_, a, b) => has_struct(a.get()) || has_struct(b.get()),
        Expr::Bump { of, .. } => has_struct(of.get()),
        Expr::Call(_, args) => any_has_struct(args.get().as_slice()),
        Expr::CallOther(function, args) => {
            has_struct(function.get()) || any_has_struct(args.as_slice())
        }
        Expr::Index(a, b) => has_struct(a.get()) || has_struct(b.get()),
        Expr::Member(a, _) => has_struct(a.get()),
        Expr::Arrow(a, _) => has_struct(a.get()),
        Expr::Cast(base, _, a) => is_struct(base.get()) || has_struct(a.get()),
        Expr::SizeType(base, _) => is_struct(base.get()),
        Expr::SizeExpr(a) => has_struct(a.get()),
    }
}

/// Whether one stands in any of these.
#[cycle(structs)]
fn any_has_struct(exprs: &[Expr]) -> bool
    ensures { result ≡ spec.any_has_struct (exprs_view exprs.now) }
{
    for expr in exprs {
        if has_struct(expr) {
            return true;
        }
    }
    false
}

/// Whether one stands in an array length.
fn length_has_struct(length: &Option<Expr>) -> bool
    ensures { result ≡ spec.dim_has_struct (dim_of (expr_option_view length.now)) }
{
    match length {
        Some(length) => has_struct(length),
        None => false,
    }
}

/// Whether one stands in any of these array lengths.
pub(crate) fn any_length_has_struct(lengths: &[Option<Expr>]) -> bool
    ensures { result ≡ spec.any_dim_has_struct (dims_view lengths.now) }
{
    for length in lengths {
        if length_has_struct(length) {
            return true;
        }
    }
    false
}

/// Whether one stands in an initializer.
#[cycle(initializers)]
#[tactic(auto, using(ec_ctypes::specs::declared::tree::decl::Init::the_lemmas))]
fn init_has_struct(init: &Init) -> bool
    ensures { result ≡ spec.init_has_struct (init_view init.now) }
{
    match init {
        Init::One(expr) => has_struct(expr),
        Init::Many(inits) => any_init_has_struct(inits.as_slice()),
    }
}

/// Whether one stands in any of these initializers.
#[cycle(initializers)]
fn any_init_has_struct(inits: &[Init]) -> bool
    ensures { result ≡ spec.any_init_has_struct (inits_view inits.now) }
{
    for init in inits {
        if init_has_struct(init) {
            return true;
        }
    }
    false
}

/// Whether one stands in an initializer that may be left out.
fn initializer_has_struct(init: &Option<Init>) -> bool
    ensures { result ≡ spec.initializer_has_struct (init_option_view init.now) }
{
    match init {
        Some(init) => init_has_struct(init),
        None => false,
    }
}

/// Whether one stands beside a declared name.
#[tactic(auto, using(ec_ctypes::specs::declared::tree::decl::Declarator::the_lemmas))]
fn declarator_has_struct(item: &Declarator) -> bool
    ensures { result ≡ spec.declarator_has_struct (declarator_view item.now) }
{
    any_length_has_struct(item.dims.as_slice()) || initializer_has_struct(&item.init)
}

/// Whether one stands beside any of these names.
pub(crate) fn any_declarator_has_struct(items: &[Declarator]) -> bool
    ensures { result ≡ spec.any_declarator_has_struct (declarators_view items.now) }
{
    for item in items {
        if declarator_has_struct(item) {
            return true;
        }
    }
    false
}
