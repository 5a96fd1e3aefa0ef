//! Names that are declared (ISO/IEC 9899:1999, 6.2.1 and 6.7), and those that are reserved.

ghost use Rattle.std.specs.Prelude.{◌≡◌};
ghost use Rattle.ec_typing_defs.specs.Worlds as rule;
ghost use Rattle.ec_typing_defs.specs.Programs as program;
ghost use Rattle.ec_scopes.specs.Entries.{entry_view, place_view};
ghost use Rattle.ec_scopes.specs.Seen.{world_of, IsDone, Does};
ghost use Rattle.ec_scopes.specs.Puts.{name_put, label_put};

use crate::entries::{Entry, Scope};
use crate::places::Place;
use crate::state::Checker;
use ec_base::{FaultKind, OutOfMemory};
use ec_known::{is_reserved, is_reserved_tag};

#[tactic(auto, using(crate::proofs::Steps::noting), unfolding(ec_typing_defs::specs::Worlds::chain, ec_typing_defs::specs::Worlds::pure, ec_typing_defs::specs::Worlds::ask, ec_typing_defs::specs::Worlds::change, ec_typing_defs::specs::Worlds::demand, ec_typing_defs::specs::Worlds::free_name, ec_typing_defs::specs::Worlds::free_tag, ec_typing_defs::specs::Worlds::declare, ec_typing_defs::specs::Worlds::declare_label, ec_typing_defs::specs::Worlds::know_better, crate::specs::Seen::world_of, crate::specs::Seen::notes_of))]
impl Checker {
    /// F12 for the name of an object, a parameter, a function, a member or a label that is reserved.
    pub fn free_name(&mut self, at: Place, name: &[u8])
        ensures { IsDone
            (rule.free_name (place_view at) name.now (world_of self.old)) self.old self.new tt }
    {
        self.demand(at, FaultKind::F12, !is_reserved(name));
    }

    /// F12 for a tag that is reserved.
    pub fn free_tag(&mut self, at: Place, tag: &[u8])
        ensures { IsDone
            (rule.free_tag (place_view at) tag.now (world_of self.old)) self.old self.new tt }
    {
        let reserved = is_reserved_tag(self.written(), tag);
        self.demand(at, FaultKind::F12, !reserved);
    }

    // Lets the name stand for this, and says whether it stood for something before.
    fn put_name(&mut self, name: &[u8], entry: Entry) -> Result<bool, OutOfMemory>
        ensures { Does (λ b. b)
            (name_put name.now (entry_view entry) (world_of self.old)) self.old result self.new }
    {
        let before = self.here.names.put(self.alloc, name, entry)?;
        Ok(before)
    }

    /// The name stands for this from here on; F10 where it stands for something in this scope already (ISO/IEC 9899:1999,
    /// 6.7), and F12 where it is reserved. The later declaration counts then.
    pub fn declare(&mut self, at: Place, name: &[u8], entry: Entry) -> Result<(), OutOfMemory>
        ensures { Does (λ u. u) (rule.declare (place_view at) name.now
            (entry_view entry) (world_of self.old)) self.old result self.new }
    {
        let before = self.put_name(name, entry)?;
        self.demand(at, FaultKind::F10, !before);
        self.free_name(at, name);
        Ok(())
    }

    // Lets the label stand in this function, and says whether it stood there before.
    fn put_label(&mut self, name: &[u8]) -> Result<bool, OutOfMemory>
        ensures { Does (λ b. b) (label_put name.now (world_of self.old)) self.old result self.new }
    {
        let before = self.labels.put(self.alloc, name, ())?;
        Ok(before)
    }

    /// The label stands in this function; F10 where it stands there already (ISO/IEC 9899:1999, 6.8.1), and F12 where it is
    /// reserved.
    pub fn declare_label(&mut self, at: Place, name: &[u8]) -> Result<(), OutOfMemory>
        ensures { Does (λ u. u) (rule.declare_label (place_view at) name.now
            (world_of self.old)) self.old result self.new }
    {
        let before = self.put_label(name)?;
        self.demand(at, FaultKind::F10, !before);
        self.free_name(at, name);
        Ok(())
    }

    /// The name stands for this in the scope round the innermost one.
    pub fn know_outside(&mut self, name: &[u8], entry: Entry) -> Result<(), OutOfMemory>
        ensures { Does (λ u. u) (program.know_function name.now
            (entry_view entry) (world_of self.old)) self.old result self.new }
    {
        match self.outer.pop() {
            Some(scope) => {
                let Scope { names, tags } = scope;
                let mut names = names;
                let _before = names.put(self.alloc, name, entry)?;
                self.outer.push(Scope { names, tags })?;
                Ok(())
            }
            None => Ok(()),
        }
    }
}
