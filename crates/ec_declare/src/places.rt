//! The places of a program, one after the other.

ghost use Rattle.std.specs.Prelude.{◌≡◌, OnOk, map};
ghost use Rattle.ec_ctypes.specs.views.Exprs.{expr_view, expr_option_view, exprs_view, base_view, dim_of, dims_view, init_view, inits_view, init_option_view, declarator_view, declarators_view, decl_view, decls_view};
ghost use Rattle.ec_ctypes.specs.views.Stmts.{stmt_view, kind_view, stmts_view, stmt_option_view};
ghost use Rattle.ec_ctypes.specs.views.Units.{param_view, func_view, top_view};
ghost use Rattle.ec_declare.specs.Seen.{scan_view, uses_view};
ghost use Rattle.ec_declare.specs.Walking as spec;
ghost use Rattle.ec_host_defs.specs.sections.Uses as uses;
ghost use Rattle.ec_host_defs.specs.sections.Uses.{◌&◌};

use crate::marks::last_mark;
use crate::scan::Scan;
use crate::uses::{Uses, in_base, in_declarators, in_function, in_kind};
use ec_base::{Line, OutOfMemory};
use ec_ctypes::{Base, Decl, Declarator, Expr, ForParts, Func, Init, Param, Stmt, StmtKind, Top};

/// The members of the structs in an expression.
#[cycle(places)]
fn expr(scan: &mut Scan, tree: &Expr)
    ensures { scan_view scan.new ≡ spec.walk_expr (expr_view tree.now) (scan_view scan.old) }
{
    match tree {
        Expr::Int(_, _) => {}
        Expr::Char(_) => {}
        Expr::Str(_) => {}
        Expr::Name(_) => {}
        Expr::Unary(_, a) => expr(scan, a.get()),
        Expr::Binary(_, a, b) => {
            expr(scan, a.get());
            expr(scan, b.get());
        }
        Expr::Assign(_, a, b) => {
            expr(scan, a.get());
            expr(scan, b.get());
        }
        Expr::Bump {
            before: _,
            up: _,
            of,
        } => expr(scan, of.get()),
        Expr::Call(_, args) => exprs(scan, args.get().as_slice()),
        Expr::CallOther(function, args) => {
            expr(scan, function.get());
            exprs(scan, args.as_slice());
        }
        Expr::Index(a, b) => {
            expr(scan, a.get());
            expr(scan, b.get());
        }
        Expr::Member(a, _) => expr(scan, a.get()),
        Expr::Arrow(a, _) => expr(scan, a.get()),
        Expr::Cast(of, _, a) => {
            base(scan, of.get());
            expr(scan, a.get());
        }
        Expr::SizeType(of, _) => base(scan, of.get()),
        Expr::SizeExpr(a) => expr(scan, a.get()),
    }
}

#[cycle(places)]
fn exprs(scan: &mut Scan, trees: &[Expr])
    ensures { scan_view scan.new
        ≡ spec.walk_exprs (exprs_view trees.now) (scan_view scan.old) }
{
    for tree in trees {
        expr(scan, tree);
    }
}

/// The members of a struct.
#[cycle(places)]
fn base(scan: &mut Scan, tree: &Base)
    ensures { scan_view scan.new ≡ spec.walk_base (base_view tree.now) (scan_view scan.old) }
{
    match tree {
        Base::Words(_) => {}
        Base::Varchar => {}
        Base::Tag(_) => {}
        Base::Struct(_, members) => decls(scan, members.get().as_slice()),
    }
}

#[cycle(places)]
fn decls(scan: &mut Scan, trees: &[Decl])
    ensures { scan_view scan.new
        ≡ spec.walk_decls (decls_view trees.now) (scan_view scan.old) }
{
    for tree in trees {
        decl(scan, tree);
    }
}

/// The uses of a declaration of this base.
fn held(of: &Base, items: &[Declarator]) -> Uses
    ensures { uses_view result ≡ (uses.in_base (base_view of.now)
        & uses.in_declarators (base_view of.now) (declarators_view items.now)) }
{
    in_base(of).and(in_declarators(of, items))
}

/// A declaration, and the members of the structs in it.
#[cycle(places)]
fn decl(scan: &mut Scan, tree: &Decl)
    ensures { scan_view scan.new ≡ spec.walk_decl (decl_view tree.now) (scan_view scan.old) }
{
    let items = tree.items.as_slice();
    scan.place(tree.line, held(&tree.base, items));
    base(scan, &tree.base);
    declarators(scan, items);
}

#[cycle(places)]
fn declarators(scan: &mut Scan, trees: &[Declarator])
    ensures { scan_view scan.new
        ≡ spec.walk_declarators (declarators_view trees.now) (scan_view scan.old) }
{
    for tree in trees {
        declarator(scan, tree);
    }
}

#[cycle(places)]
fn declarator(scan: &mut Scan, tree: &Declarator)
    ensures { scan_view scan.new
        ≡ spec.walk_declarator (declarator_view tree.now) (scan_view scan.old) }
{
    dims(scan, tree.dims.as_slice());
    match &tree.init {
        Some(of) => init(scan, of),
        None => {}
    }
}

#[cycle(places)]
fn dims(scan: &mut Scan, trees: &[Option<Expr>])
    ensures { scan_view scan.new ≡ spec.walk_dims (dims_view trees.now) (scan_view scan.old) }
{
    for tree in trees {
        if let Some(length) = tree {
            expr(scan, length);
        }
    }
}

#[cycle(places)]
fn init(scan: &mut Scan, tree: &Init)
    ensures { scan_view scan.new ≡ spec.walk_init (init_view tree.now) (scan_view scan.old) }
{
    match tree {
        Init::One(of) => expr(scan, of),
        Init::Many(of) => inits(scan, of.as_slice()),
    }
}

#[cycle(places)]
fn inits(scan: &mut Scan, trees: &[Init])
    ensures { scan_view scan.new
        ≡ spec.walk_inits (inits_view trees.now) (scan_view scan.old) }
{
    for tree in trees {
        init(scan, tree);
    }
}

/// An expression that may be left out.
fn expr_option(scan: &mut Scan, tree: &Option<Expr>)
    ensures { scan_view scan.new
        ≡ spec.walk_option (expr_option_view tree.now) (scan_view scan.old) }
{
    match tree {
        Some(of) => expr(scan, of),
        None => {}
    }
}

/// A statement, and those in it.
#[cycle(statements)]
fn stmt(scan: &mut Scan, tree: &Stmt) -> Result<(), OutOfMemory>
    ensures { OnOk result (scan_view scan.new
        ≡ spec.walk_stmt (stmt_view tree.now) (scan_view scan.old)) }
{
    kind(scan, tree.line, &tree.kind)
}

#[cycle(statements)]
fn stmts(scan: &mut Scan, trees: &[Stmt]) -> Result<(), OutOfMemory>
    ensures { OnOk result (scan_view scan.new
        ≡ spec.walk_stmts (stmts_view trees.now) (scan_view scan.old)) }
{
    for tree in trees {
        stmt(scan, tree)?;
    }
    Ok(())
}

#[cycle(statements)]
fn kind(scan: &mut Scan, line: Line, tree: &StmtKind) -> Result<(), OutOfMemory>
    ensures { OnOk result (scan_view scan.new
        ≡ spec.walk_kind line (kind_view tree.now) (scan_view scan.old)) }
{
    match tree {
        StmtKind::Mark(opens) => scan.mark(*opens, line),
        StmtKind::Decl(of) => {
            decl(scan, of.get());
            Ok(())
        }
        StmtKind::Block(of) => {
            scan.place(line, in_kind(tree));
            stmts(scan, of.as_slice())
        }
        StmtKind::If(test, of, other) => {
            scan.place(line, in_kind(tree));
            expr(scan, test.get());
            stmt(scan, of.get())?;
            match other {
                Some(of) => stmt(scan, of.get()),
                None => Ok(()),
            }
        }
        StmtKind::While(test, of) => {
            scan.place(line, in_kind(tree));
            expr(scan, test);
            stmt(scan, of.get())
        }
        StmtKind::Do(of, test) => {
            scan.place_behind(last_mark(of.get()), line, in_kind(tree));
            stmt(scan, of.get())?;
            expr(scan, test);
            Ok(())
        }
        StmtKind::For(parts, of) => {
            scan.place(line, in_kind(tree));
            for_parts(scan, parts.get());
            stmt(scan, of.get())
        }
        StmtKind::Label(_, of) => {
            scan.place(line, in_kind(tree));
            stmt(scan, of.get())
        }
        StmtKind::Expr(of) => {
            scan.place(line, in_kind(tree));
            expr(scan, of);
            Ok(())
        }
        StmtKind::Return(of) => {
            scan.place(line, in_kind(tree));
            expr_option(scan, of);
            Ok(())
        }
        StmtKind::Empty
        | StmtKind::Break
        | StmtKind::Continue
        | StmtKind::Goto(_)
        | StmtKind::Emb(_) => {
            scan.place(line, in_kind(tree));
            Ok(())
        }
    }
}

/// What stands in the parentheses of `for`.
fn for_parts(scan: &mut Scan, parts: &ForParts)
    ensures { scan_view scan.new
        ≡ spec.walk_option (expr_option_view parts.now.step) (spec.walk_option
        (expr_option_view parts.now.condition) (spec.walk_option (expr_option_view parts.now.first)
        (scan_view scan.old))) }
{
    expr_option(scan, &parts.first);
    expr_option(scan, &parts.condition);
    expr_option(scan, &parts.step);
}

/// The structs in parameters.
fn params(scan: &mut Scan, trees: &[Param])
    ensures { scan_view scan.new
        ≡ spec.walk_params (map param_view trees.now) (scan_view scan.old) }
{
    for tree in trees {
        param(scan, tree);
    }
}

fn param(scan: &mut Scan, tree: &Param)
    ensures { scan_view scan.new ≡ spec.walk_dims (dims_view tree.now.dims)
        (spec.walk_base (base_view tree.now.base) (scan_view scan.old)) }
{
    base(scan, &tree.base);
    dims(scan, tree.dims.as_slice());
}

/// A function.
fn function(scan: &mut Scan, tree: &Func) -> Result<(), OutOfMemory>
    ensures { OnOk result (scan_view scan.new
        ≡ spec.walk_function (func_view tree.now) (scan_view scan.old)) }
{
    scan.place(tree.line, in_function(tree));
    base(scan, &tree.base);
    params(scan, tree.params.as_slice());
    match &tree.body {
        Some(body) => stmts(scan, body.as_slice()),
        None => Ok(()),
    }
}

fn top(scan: &mut Scan, tree: &Top) -> Result<(), OutOfMemory>
    ensures { OnOk result (scan_view scan.new
        ≡ spec.walk_top (top_view tree.now) (scan_view scan.old)) }
{
    match tree {
        Top::Include(_) => Ok(()),
        Top::Directive(_) => Ok(()),
        Top::Decl(of) => {
            decl(scan, of);
            Ok(())
        }
        Top::Func(of) => function(scan, of.get()),
        Top::Mark(opens, line) => scan.mark(*opens, *line),
    }
}

/// All places of a program.
pub(crate) fn tops(scan: &mut Scan, trees: &[Top]) -> Result<(), OutOfMemory>
    ensures { OnOk result (scan_view scan.new
        ≡ spec.walk_tops (map top_view trees.now) (scan_view scan.old)) }
{
    for tree in trees {
        top(scan, tree)?;
    }
    Ok(())
}
