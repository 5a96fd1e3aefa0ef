//! Lists: of one item, and of items behind commas.

ghost use Rattle.std.specs.Prelude.{◌≡◌, ◌∷◌, [], map, IfOk};
ghost use Rattle.ec_grammar.specs.Input.{Parser};
ghost use Rattle.ec_grammar.specs.Lists as spec;
ghost use Rattle.ec_cursor.specs.States.{Reading, ReadsItems};

use crate::cursor::Cursor;
use ec_base::{List, OutOfMemory, beside};
use ec_ctypes::{Declarator, Expr, Param, Punct};
use ec_grammar::{Failure, Kind};
use std::alloc::Global;

/// What stands in lists, with what the plain reading has for it.
pub trait Item {
    ghost Data: { Type 0 };

    ghost view: { Self → Data };
}

impl Item for Expr {
    ghost use Rattle.ec_ctypes.specs.trees.Exprs.{ExprData};
    ghost use Rattle.ec_ctypes.specs.views.Exprs.{expr_view};

    ghost Data = { ExprData };

    ghost view = { expr_view };
}

impl Item for Declarator {
    ghost use Rattle.ec_ctypes.specs.trees.Exprs.{DeclaratorData};
    ghost use Rattle.ec_ctypes.specs.views.Exprs.{declarator_view};

    ghost Data = { DeclaratorData };

    ghost view = { declarator_view };
}

impl Item for Param {
    ghost use Rattle.ec_ctypes.specs.trees.Units.{ParamData};
    ghost use Rattle.ec_ctypes.specs.views.Units.{param_view};

    ghost Data = { ParamData };

    ghost view = { param_view };
}

/// A list of one item, with room for no more: most lists of a program stay that way.
pub fn list_of<T: Drop>(alloc: Global, item: T) -> Result<List<T>, OutOfMemory>
    ensures { IfOk result (λ list. list ≡ item ∷ []) }
{
    let (item, mut list) = beside(item, List::with_capacity(alloc, 1))?;
    list.push(item)?;
    Ok(list)
}

/// Further items, each behind a comma, put behind those in `found`.
pub fn separated<T: Item + Drop, R: Fn(&mut Cursor<'_>) -> Result<T, Failure>>(
    cursor: &mut Cursor<'_>,
    mut found: List<T>,
    read: R,
) -> Result<List<T>, Failure>
    requires { R.IsAlwaysCallable read }
    ensures { (item : Parser T.Data) → ReadsItems T.view item (R.post read)
        → Reading (map T.view) (spec.separated item (map T.view found))
        cursor.old result cursor.new }
{
    for _turn in 0..cursor.left() {
        if !cursor.eat(Kind::Mark(Punct::Comma)) {
            return Ok(found);
        }
        let next = read(cursor)?;
        found.push(next)?;
    }
    Ok(found)
}
