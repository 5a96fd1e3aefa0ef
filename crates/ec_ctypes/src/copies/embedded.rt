ghost use Rattle.std.specs.Prelude.{◌≡◌, IfOk};

use crate::copies::exprs::copy_exprs;
use crate::copies::lists::copy_name;
use crate::embedded::Action;
use ec_base::OutOfMemory;
use std::alloc::Global;

/// A copy of an action.
pub fn copy_action(alloc: Global, action: &Action) -> Result<Action, OutOfMemory>
    ensures { IfOk result (λ copy. copy ≡ action.now) }
{
    Ok(match action {
        Action::Continue => Action::Continue,
        Action::Goto(label) => Action::Goto(copy_name(label)?),
        Action::Print => Action::Print,
        Action::Stop => Action::Stop,
        Action::Break => Action::Break,
        Action::Next => Action::Next,
        Action::Call(function, args) => {
            Action::Call(copy_name(function)?, copy_exprs(alloc, args)?)
        }
    })
}
