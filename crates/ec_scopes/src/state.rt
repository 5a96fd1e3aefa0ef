//! The state of the walk: what is known where a part of the program stands, and the first violation so far.

ghost use Rattle.std.specs.Prelude.{◌≡◌, option_map, is_some, [], IfOk, length};
ghost use Rattle.std.specs.Option.{option_copied};
ghost use Rattle.ec_ctypes.specs.views.Types.{ty_view};
ghost use Rattle.ec_typing_defs.specs.Tables.{find};
ghost use Rattle.ec_typing_defs.specs.Worlds as rule;
ghost use Rattle.ec_scopes.specs.Entries.{entry_view, place_view};
ghost use Rattle.ec_scopes.specs.Seen.{noted_one, notes_of, world_of, IsDone, Does};

use crate::entries::{Entry, Scope, no_names};
use crate::found::{Found, comes_before};
use crate::places::Place;
use crate::scopes::{name_in, tag_in};
use crate::structs::StructTable;
use crate::table::Table;
use ec_base::{FaultKind, LimitKind, Line, List, OutOfMemory, Stop};
use ec_ctypes::Ty;
use std::alloc::Global;
use std::mem;

/// What is known where a part of a program stands, and the first violation so far.
#[derive(Drop)]
pub struct Checker {
    pub(crate) alloc: Global,
    /// Whether this is written C.
    pub(crate) written: bool,
    /// The innermost scope.
    pub(crate) here: Scope,
    /// The scopes round it, of which the last is the nearest.
    pub(crate) outer: List<Scope>,
    pub(crate) structs: StructTable,
    /// The types of the declarations so far, by their numbers; void where one has none.
    pub(crate) types: List<Ty>,
    /// For each embedded statement so far, the declarations that the variables in its hosts denote.
    pub(crate) denoted: List<List<Option<u32>>>,
    /// The functions that the program defines.
    pub(crate) defined: Table<()>,
    /// The labels so far in this function.
    pub(crate) labels: Table<()>,
    /// How many places there are so far.
    pub(crate) places: u64,
    pub(crate) first: Option<Found>,
}

#[tactic(auto, unfolding(ec_typing_defs::specs::Worlds::chain, ec_typing_defs::specs::Worlds::pure, ec_typing_defs::specs::Worlds::ask, ec_typing_defs::specs::Worlds::change, ec_typing_defs::specs::Worlds::note, ec_typing_defs::specs::Worlds::demand, ec_typing_defs::specs::Worlds::keep_within, ec_typing_defs::specs::Worlds::declare, ec_typing_defs::specs::Worlds::know_better, ec_typing_defs::specs::Worlds::declare_label, ec_typing_defs::specs::Worlds::enter, ec_typing_defs::specs::Worlds::leave, ec_typing_defs::specs::Worlds::place, ec_typing_defs::specs::Worlds::number_as, crate::specs::Seen::world_of, crate::specs::Seen::notes_of))]
impl Checker {
    /// Where memory comes from.
    pub fn alloc(&self) -> Global {
        self.alloc
    }

    /// Whether this is written C.
    pub fn written(&self) -> bool
        ensures { result ≡ (world_of self.now).written }
    {
        self.written
    }

    /// Keeps a violation, where it comes before what was kept.
    pub(crate) fn keep(&mut self, place: u64, stop: Stop)
        ensures world { world_of self.new ≡ world_of self.old }
        ensures notes { notes_of self.new
            ≡ noted_one (record { place = place; stop = stop }) (notes_of self.old) }
    {
        let found = Found { place, stop };
        match self.first {
            Some(first) if !comes_before(found, first) => {}
            _ => self.first = Some(found),
        }
    }

    /// Notes a fault.
    pub fn note(&mut self, at: Place, fault: FaultKind)
        ensures { IsDone
            (rule.note (place_view at) fault (world_of self.old)) self.old self.new tt }
    {
        self.keep(at.number, Stop::Refused(fault, at.line));
    }

    /// Notes a fault, unless the test holds.
    pub fn demand(&mut self, at: Place, fault: FaultKind, holds: bool)
        ensures { IsDone
            (rule.demand (place_view at) fault holds (world_of self.old)) self.old self.new tt }
    {
        if !holds {
            self.keep(at.number, Stop::Refused(fault, at.line));
        }
    }

    /// Notes a limit, unless the test holds.
    pub fn keep_within(&mut self, at: Place, limit: LimitKind, holds: bool)
        ensures { IsDone (rule.keep_within (place_view at) limit holds
            (world_of self.old)) self.old self.new tt }
    {
        if !holds {
            self.keep(at.number, Stop::Limit(limit));
        }
    }

    /// The next place, on this line.
    pub fn place(&mut self, line: Line) -> Result<Place, OutOfMemory>
        ensures { Does place_view (rule.place line (world_of self.old)) self.old result self.new }
    {
        let number = self.places;
        if number == u64::MAX {
            // Out of reach, which isn't proved: each place is one of a part of the tree, which has fewer parts.
            return Err(OutOfMemory);
        }
        self.places = number + 1;
        Ok(Place { number, line })
    }

    /// What the name stands for: the innermost scope that has it decides (ISO/IEC 9899:1999, 6.2.1).
    pub fn look_up(&self, name: &[u8]) -> Option<&Entry>
        ensures { option_map entry_view (option_copied result)
            ≡ rule.look_up name.now (world_of self.now) }
    {
        match self.here.names.get(name) {
            Some(entry) => Some(entry),
            None => name_in(self.outer.as_slice(), name),
        }
    }

    /// What the name stands for in the innermost scope.
    pub fn entry_here(&self, name: &[u8]) -> Option<&Entry>
        ensures { option_map entry_view (option_copied result)
            ≡ find name.now (world_of self.now).here.names }
    {
        self.here.names.get(name)
    }

    /// The number of the struct that the tag stands for.
    pub fn tag_up(&self, tag: &[u8]) -> Option<u32>
        ensures { result ≡ rule.tag_up tag.now (world_of self.now) }
    {
        match self.here.tags.get(tag) {
            Some(k) => Some(*k),
            None => tag_in(self.outer.as_slice(), tag),
        }
    }

    /// The number of the struct that the tag stands for in the innermost scope.
    pub fn tag_here(&self, tag: &[u8]) -> Option<u32>
        ensures { result ≡ find tag.now (world_of self.now).here.tags }
    {
        self.here.tags.get(tag).copied()
    }

    /// Lets the tag stand for the struct.
    pub fn put_tag(&mut self, tag: &[u8], k: u32) -> Result<(), OutOfMemory>
        ensures { Does (λ u. u)
            (rule.change (rule.with_tag tag.now k) (world_of self.old)) self.old result self.new }
    {
        let _before = self.here.tags.put(self.alloc, tag, k)?;
        Ok(())
    }

    /// What the name stands for in the innermost scope is known better now.
    pub fn know_better(&mut self, name: &[u8], entry: Entry) -> Result<(), OutOfMemory>
        ensures { Does (λ u. u) (rule.know_better name.now (entry_view entry)
            (world_of self.old)) self.old result self.new }
    {
        let _before = self.here.names.put(self.alloc, name, entry)?;
        Ok(())
    }

    /// No label stands in this function so far.
    pub fn no_labels(&mut self)
        ensures { IsDone
            (rule.change (λ w. record w { labels = [] }) (world_of self.old)) self.old self.new tt }
    {
        self.labels = Table::new(self.alloc);
    }

    /// Enters a scope.
    pub fn enter(&mut self) -> Result<(), OutOfMemory>
        ensures { Does (λ u. u) (rule.enter (world_of self.old)) self.old result self.new }
    {
        let inner = no_names(self.alloc);
        self.outer.push(mem::replace(&mut self.here, inner))?;
        Ok(())
    }

    /// Leaves the innermost scope.
    pub fn leave(&mut self)
        ensures { IsDone (rule.leave (world_of self.old)) self.old self.new tt }
    {
        self.here = match self.outer.pop() {
            Some(scope) => scope,
            None => no_names(self.alloc),
        };
    }

    /// The number of the next declaration.
    pub fn next_number(&self) -> Result<u32, OutOfMemory>
        ensures { IfOk result (λ k. k ≡ rule.next_number (world_of self.now)) }
    {
        let k = self.types.len();
        if k > u32::MAX as usize {
            // Out of reach, which isn't proved: each declaration takes a token, of which a source has at most 2^22.
            return Err(OutOfMemory);
        }
        Ok(k as u32)
    }

    /// One declaration more.
    pub fn number_as(&mut self, ty: Ty) -> Result<(), OutOfMemory>
        ensures { Does (λ u. u)
            (rule.number_as (ty_view ty) (world_of self.old)) self.old result self.new }
    {
        self.types.push(ty)?;
        Ok(())
    }

    /// Whether the program defines the function.
    pub fn is_defined(&self, name: &[u8]) -> bool
        ensures { result ≡ is_some (find name.now (world_of self.now).defined) }
    {
        self.defined.get(name).is_some()
    }
}
