//! What is asked and kept of embedded statements (PostgreSQL manual, "Using Host Variables").

ghost use Rattle.std.specs.Prelude.{◌≡◌, nat_le, ◌++◌, ◌∷◌, []};
ghost use Rattle.ec_typing_defs.specs.Embedded.{members_in, max_members};
ghost use Rattle.ec_typing_defs.specs.Worlds as rule;
ghost use Rattle.ec_scopes.specs.Entries.{type_view};
ghost use Rattle.ec_scopes.specs.Seen.{world_of, Does};

use crate::counts::is_few;
use crate::state::Checker;
use ec_base::{List, OutOfMemory};
use ec_ctypes::Ty;

#[tactic(auto, unfolding(ec_typing_defs::specs::Worlds::change, crate::specs::Seen::world_of, crate::specs::Seen::notes_of))]
impl Checker {
    /// Whether a host of this type stands for no more members than one may.
    pub fn has_few_members(&self, ty: &Option<Ty>) -> bool
        ensures { result ≡ nat_le (members_in (world_of self.now) (type_view ty.now)) max_members }
    {
        match ty {
            None => true,
            Some(ty) => is_few(self.structs.members_in(ty)),
        }
    }

    /// One embedded statement more, whose variables denote these declarations.
    pub fn add_denoted(&mut self, numbers: List<Option<u32>>) -> Result<(), OutOfMemory>
        ensures { Does (λ u. u) (rule.change
            (λ w. record w { denoted = w.denoted ++ numbers ∷ [] }) (world_of self.old))
            self.old result self.new }
    {
        self.denoted.push(numbers)?;
        Ok(())
    }
}
