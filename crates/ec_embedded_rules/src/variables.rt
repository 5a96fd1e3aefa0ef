//! What the variables of an embedded statement denote where it stands.
#![tactic(auto, using(crate::proofs::Denoting::denoting, ec_ctypes::specs::declared::tree::expr::Expr::the_lemmas))]

ghost use Rattle.std.specs.Prelude.{◌≡◌, ◌++◌, map, IfOk, OnOk};
ghost use Rattle.ec_ctypes.specs.views.Embedded.{emb_view};
ghost use Rattle.ec_ctypes.specs.views.Exprs.{expr_view};
ghost use Rattle.ec_embedded_rules.specs.parts.Views.{reference_view};
ghost use Rattle.ec_scopes.specs.Seen.{world_of};
ghost use Rattle.ec_typing_defs.specs.statement_parts.Cursors.{declare_opened};
ghost use Rattle.ec_typing_defs.specs.statement_parts.References.{names_in, all_names, names_of, names_of_option};
ghost use Rattle.ec_typing_defs.specs.Embedded.{denoted_in};

use crate::parts::{Reference, Statements, references};
use ec_base::{List, OutOfMemory};
use ec_ctypes::{Emb, Expr};
use ec_scopes::Checker;

// The variable of a reference, and those that are its indexes.
fn add_in(checker: &Checker, e: &Expr, numbers: &mut List<Option<u32>>) -> Result<(), OutOfMemory>
    ensures { OnOk result (numbers.new
        ≡ numbers.old ++ denoted_in (world_of checker.now) (names_in (expr_view e.now))) }
{
    match e {
        Expr::Name(name) => numbers.push(checker.denoted_by(name.as_slice())),
        Expr::Index(a, b) => {
            add_in(checker, a.get(), numbers)?;
            add_in(checker, b.get(), numbers)
        }
        Expr::Member(of, _) => add_in(checker, of.get(), numbers),
        Expr::Arrow(of, _) => add_in(checker, of.get(), numbers),
        Expr::Int(_, _) => Ok(()),
        Expr::Char(_) => Ok(()),
        Expr::Str(_) => Ok(()),
        Expr::Unary(_, _) => Ok(()),
        Expr::Binary(_, _, _) => Ok(()),
        Expr::Assign(_, _, _) => Ok(()),
        Expr::Bump { .. } => Ok(()),
        Expr::Call(_, _) => Ok(()),
        Expr::CallOther(_, _) => Ok(()),
        Expr::Cast(_, _, _) => Ok(()),
        Expr::SizeType(_, _) => Ok(()),
        Expr::SizeExpr(_) => Ok(()),
    }
}

// The variables of these references.
fn add_all(
    checker: &Checker,
    all: &[Reference<'_>],
    numbers: &mut List<Option<u32>>,
) -> Result<(), OutOfMemory>
    ensures { OnOk result (numbers.new ≡ numbers.old
        ++ denoted_in (world_of checker.now) (all_names (map reference_view all.now))) }
{
    for one in all {
        add_in(checker, one.value, numbers)?;
    }
    Ok(())
}

// The variables of a statement.
fn add_statement(
    checker: &Checker,
    e: &Emb,
    numbers: &mut List<Option<u32>>,
) -> Result<(), OutOfMemory>
    ensures { OnOk result (numbers.new
        ≡ numbers.old ++ denoted_in (world_of checker.now) (names_of (emb_view e.now))) }
{
    let all = references(checker.alloc(), e)?;
    add_all(checker, all.as_slice(), numbers)
}

// The variables of the cursor that the statement of this number opens, if it opens one.
fn add_opened(
    checker: &Checker,
    embedded: &Statements<'_>,
    n: u32,
    e: &Emb,
    numbers: &mut List<Option<u32>>,
) -> Result<(), OutOfMemory>
    ensures { OnOk result (numbers.new ≡ numbers.old ++ denoted_in (world_of checker.now)
        (names_of_option (declare_opened (map emb_view embedded.now) n (emb_view e.now)))) }
{
    match embedded.opened(n, e)? {
        Some(declare) => add_statement(checker, declare, numbers),
        None => Ok(()),
    }
}

/// What the variables in these references denote, and behind them those of the cursor that the statement of this number
/// opens: each by the declaration that its name has here.
pub(crate) fn denoted(
    checker: &Checker,
    embedded: &Statements<'_>,
    n: u32,
    e: &Emb,
    all: &[Reference<'_>],
) -> Result<List<Option<u32>>, OutOfMemory>
    ensures { IfOk result (λ numbers. numbers ≡ denoted_in (world_of checker.now)
        (all_names (map reference_view all.now)
        ++ names_of_option (declare_opened (map emb_view embedded.now) n (emb_view e.now)))) }
{
    let mut numbers = List::new(checker.alloc());
    add_all(checker, all, &mut numbers)?;
    add_opened(checker, embedded, n, e, &mut numbers)?;
    Ok(numbers)
}
