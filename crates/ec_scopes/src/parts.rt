//! What is found out about a program, as later phases take it.

ghost use Rattle.std.specs.Prelude.{◌≡◌, None, map, option_map, is_some};
ghost use Rattle.ec_ctypes.specs.views.Types.{ty_view};
ghost use Rattle.ec_language.specs.First.{stop_at};
ghost use Rattle.ec_scopes.specs.Entries.{found_view, place_view};
ghost use Rattle.ec_scopes.specs.Seen.{notes_of, world_of, noted_instead};
ghost use Rattle.ec_scopes.specs.Structs.{infos};
ghost use Rattle.ec_typing_defs.specs.Embedded.{denoted_by};
ghost use Rattle.ec_typing_defs.specs.Worlds.{look_up};

use crate::entries::Entry;
use crate::found::Found;
use crate::places::Place;
use crate::state::Checker;
use crate::structs::StructRow;
use ec_base::{FaultKind, List, Stop};
use ec_ctypes::Ty;

#[tactic(auto, unfolding(crate::specs::Seen::world_of, crate::specs::Seen::notes_of))]
impl Checker {
    /// What the program is refused for: the first violation so far.
    pub fn first(&self) -> Option<Stop>
        ensures { result ≡ stop_at (notes_of self.now) }
    {
        match self.first {
            Some(found) => Some(found.stop),
            None => None,
        }
    }

    /// The numbers of the structs whose members are closed, in this order.
    pub fn closed(&self) -> &[u32]
        ensures { result.now ≡ (world_of self.now).closed }
    {
        self.structs.closed()
    }

    /// The structs as they were met.
    pub fn struct_rows(&self) -> &[StructRow]
        ensures { infos result.now (world_of self.now).closed ≡ (world_of self.now).structs }
    {
        self.structs.rows()
    }

    /// The types of the declarations, by their numbers; void where one has none.
    pub fn types(&self) -> &[Ty]
        ensures { map ty_view result.now ≡ (world_of self.now).types }
    {
        self.types.as_slice()
    }

    /// For each embedded statement, the declarations that the variables in its hosts denote.
    pub fn into_denoted(self) -> List<List<Option<u32>>>
        ensures { result ≡ (world_of self).denoted }
    {
        self.denoted
    }

    /// Takes out the first violation so far, and goes on as if there were none.
    pub fn set_aside(&mut self) -> Option<Found>
        ensures world { world_of self.new ≡ world_of self.old }
        ensures notes { notes_of self.new ≡ None }
        ensures aside { option_map found_view result ≡ notes_of self.old }
    {
        let first = self.first;
        self.first = None;
        first
    }

    /// Goes on with what was set aside. Whatever was found since then is this fault.
    pub fn put_back(&mut self, aside: Option<Found>, at: Place, fault: FaultKind)
        ensures world { world_of self.new ≡ world_of self.old }
        ensures notes { notes_of self.new ≡ noted_instead (place_view at) fault
            (is_some (notes_of self.old)) (option_map found_view aside) }
    {
        let found = self.first.is_some();
        self.first = aside;
        if found {
            self.keep(at.number, Stop::Refused(fault, at.line));
        }
    }

    /// The number of the declaration that the name denotes here, if it stands for something.
    pub fn denoted_by(&self, name: &[u8]) -> Option<u32>
        ensures { result ≡ denoted_by (look_up name.now (world_of self.now)) }
    {
        match self.look_up(name) {
            Some(Entry::Object { number, .. }) => Some(*number),
            Some(Entry::Function { number, .. }) => Some(*number),
            None => None,
        }
    }
}
