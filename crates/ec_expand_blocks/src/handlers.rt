//! The tests behind the call of a statement (PostgreSQL manual, 36.8.1).

ghost use Rattle.std.specs.Prelude.{◌≡◌, ◌++◌, IfOk, OnOk, Some, map, option_map, option_copied, codes};
ghost use Rattle.ec_ctypes.specs.declared.embedded.emb.Cond.TheVariants.{Warning};
ghost use Rattle.ec_ctypes.specs.trees.Embedded.{stop_action};
ghost use Rattle.ec_ctypes.specs.trees.Exprs.{identifier, member, binary, call};
ghost use Rattle.ec_ctypes.specs.trees.Stmts.{stmt, if_stmt, expr_stmt, no_stmt};
ghost use Rattle.ec_ctypes.specs.views.Embedded.{action_view};
ghost use Rattle.ec_ctypes.specs.views.Exprs.{expr_view, exprs_view};
ghost use Rattle.ec_ctypes.specs.views.Stmts.{stmt_view, kind_view};
ghost use Rattle.ec_expansion_defs.specs.Handlers as handlers;

use ec_base::{Boxed, Line, List, Name, OutOfMemory};
use ec_ctypes::{Action, BinOp, Cond, Expr, Stmt, StmtKind, Ty, copy_exprs};
use std::alloc::Global;

// A member of the communication area.
fn area_member(alloc: Global, name: &[u8]) -> Result<Boxed<Expr>, OutOfMemory>
    ensures { IfOk result (λ e. expr_view e ≡ member (identifier (codes "sqlca")) name.now) }
{
    let area = Boxed::new(alloc, Expr::Name(Name::from_slice(alloc, b"sqlca")?))?;
    Ok(Boxed::new(alloc, Expr::Member(area, Name::from_slice(alloc, name)?))?)
}

fn number(alloc: Global, value: u64) -> Result<Boxed<Expr>, OutOfMemory>
    ensures { IfOk result (λ e. expr_view e ≡ handlers.int_constant value) }
{
    Ok(Boxed::new(alloc, Expr::Int(value, Ty::Int))?)
}

// `sqlca.sqlwarn[0] == 'W'`
fn is_warned(alloc: Global) -> Result<Boxed<Expr>, OutOfMemory>
    ensures { IfOk result (λ e. expr_view e ≡ handlers.condition Warning) }
{
    let warnings = area_member(alloc, b"sqlwarn")?;
    let first = Boxed::new(alloc, Expr::Index(warnings, number(alloc, 0)?))?;
    let mark = Boxed::new(alloc, Expr::Char(87))?;
    Ok(Boxed::new(alloc, Expr::Binary(BinOp::Eq, first, mark))?)
}

// `sqlca.sqlcode`, compared with a number.
fn code_test(alloc: Global, op: BinOp, value: u64) -> Result<Boxed<Expr>, OutOfMemory>
    ensures { IfOk result (λ e. expr_view e ≡ binary op (member (identifier (codes "sqlca"))
        (codes "sqlcode")) (handlers.int_constant value)) }
{
    let code = area_member(alloc, b"sqlcode")?;
    Ok(Boxed::new(alloc, Expr::Binary(op, code, number(alloc, value)?))?)
}

// What is tested for a condition.
fn condition(alloc: Global, cond: Cond) -> Result<Boxed<Expr>, OutOfMemory>
    ensures { IfOk result (λ e. expr_view e ≡ handlers.condition cond) }
{
    match cond {
        Cond::NotFound => code_test(alloc, BinOp::Eq, 100),
        Cond::Warning => is_warned(alloc),
        Cond::Error => code_test(alloc, BinOp::Lt, 0),
    }
}

// A call of this function, as a statement.
fn called(alloc: Global, name: &[u8], args: List<Expr>) -> Result<StmtKind, OutOfMemory>
    ensures { IfOk result (λ k. kind_view k ≡ expr_stmt (call name.now (exprs_view args))) }
{
    let args = Boxed::new(alloc, args)?;
    Ok(StmtKind::Expr(Expr::Call(Name::from_slice(alloc, name)?, args)))
}

// `exit(1);`
fn exits(alloc: Global) -> Result<StmtKind, OutOfMemory>
    ensures { IfOk result (λ k. Some (kind_view k) ≡ handlers.action_statement stop_action) }
{
    let mut args = List::new(alloc);
    args.push(Expr::Int(1, Ty::Int))?;
    called(alloc, b"exit", args)
}

// The statement that an action is, if it does anything.
fn statement(alloc: Global, action: &Action) -> Result<Option<StmtKind>, OutOfMemory>
    ensures { IfOk result (λ k. option_map kind_view k ≡ handlers.action_statement
        (action_view action.now)) }
{
    match action {
        Action::Continue => Ok(None),
        Action::Goto(label) => Ok(Some(StmtKind::Goto(label.clone()?))),
        Action::Print => Ok(Some(called(alloc, b"sqlprint", List::new(alloc))?)),
        Action::Stop => Ok(Some(exits(alloc)?)),
        Action::Break => Ok(Some(StmtKind::Break)),
        Action::Next => Ok(Some(StmtKind::Continue)),
        Action::Call(name, args) => {
            let args = copy_exprs(alloc, args)?;
            Ok(Some(called(alloc, name.as_slice(), args)?))
        }
    }
}

/// A statement on this line.
pub fn on_line(alloc: Global, line: Line, kind: StmtKind) -> Result<Boxed<Stmt>, OutOfMemory>
    ensures { IfOk result (λ s. stmt_view s ≡ stmt line (kind_view kind)) }
{
    Ok(Boxed::new(alloc, Stmt { line, kind })?)
}

// `if (condition) body`
fn under(alloc: Global, cond: Cond, body: Boxed<Stmt>) -> Result<StmtKind, OutOfMemory>
    ensures { IfOk result (λ k. kind_view k ≡ if_stmt (handlers.condition cond) (stmt_view body)
        no_stmt) }
{
    Ok(StmtKind::If(condition(alloc, cond)?, body, None))
}

// `if (condition) statement`, of which all parts have this line.
fn test(alloc: Global, line: Line, cond: Cond, kind: StmtKind) -> Result<Stmt, OutOfMemory>
    ensures { IfOk result (λ s. stmt_view s ≡ stmt line (if_stmt (handlers.condition cond)
        (stmt line (kind_view kind)) no_stmt)) }
{
    let body = on_line(alloc, line, kind)?;
    let kind = under(alloc, cond, body)?;
    Ok(Stmt { line, kind })
}

/// The test for a condition, behind other statements, where the action that holds for it does anything.
pub(crate) fn push_test(
    alloc: Global,
    list: &mut List<Stmt>,
    line: Line,
    cond: Cond,
    action: Option<&Action>,
) -> Result<(), OutOfMemory>
    ensures { OnOk result (map stmt_view list.new ≡ map stmt_view list.old
        ++ handlers.test_for line cond (option_map action_view (option_copied action.entry))) }
{
    let Some(action) = action else {
        return Ok(());
    };
    if let Some(kind) = statement(alloc, action)? {
        list.push(test(alloc, line, cond, kind)?)?;
    }
    Ok(())
}
