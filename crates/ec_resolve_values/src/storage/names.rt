//! Names with their places.

ghost use Rattle.std.specs.Prelude.{◌≡◌, [], IfOk, OnOk};
ghost use Rattle.ec_resolving_defs.specs.Operands.{place_in};
ghost use Rattle.ec_typing_defs.specs.Tables.{put};

use ec_base::OutOfMemory;
use ec_scopes::Table;
use std::alloc::Global;
use std::marker::Model;

/// Names in the order in which they came, of which each is found with its place. Contracts see the list of them.
#[derive(Drop)]
pub struct Names {
    places: Table<u32>,
}

impl Model for Names {
    ghost use Rattle.std.specs.Prelude.{◌≡◌, ℕ, List as Sequence};
    ghost use Rattle.ec_resolve_values.specs.storage.Places.{names_of, placed};

    ghost Value = { Sequence (Sequence ℕ × Unit {0}) };

    ghost view = { λ it. names_of it.places };

    ghost invariant = { λ it. it.places ≡ placed 0 (names_of it.places) };
}

impl Names {
    /// No names. They take no memory.
    pub fn new(alloc: Global) -> Names
        ensures { result ≡ [] }
    {
        Names {
            places: Table::new(alloc),
        }
    }

    /// One name more, behind the others, unless it is there. Behind want of memory there are no names.
    pub fn add(&mut self, alloc: Global, name: &[u8]) -> Result<(), OutOfMemory>
        ensures { OnOk result (self.new ≡ put name.now tt self.old) }
    {
        if self.places.get(name).is_some() {
            return Ok(());
        }
        let place = self.places.len();
        if place > u32::MAX as usize {
            // Out of reach, which isn't proved: a source has at most 2^22 tokens, so it has fewer names.
            return Err(OutOfMemory);
        }
        match self.places.put(alloc, name, place as u32) {
            Ok(_) => Ok(()),
            Err(error) => {
                self.places = Table::new(alloc);
                Err(error)
            }
        }
    }

    /// The place of the name, which is behind all names where it isn't one of them.
    pub fn place(&self, name: &[u8]) -> Result<u32, OutOfMemory>
        ensures { IfOk result (λ place. place ≡ place_in name.now self.now) }
    {
        match self.places.get(name).copied() {
            Some(place) => Ok(place),
            None => {
                let count = self.places.len();
                if count > u32::MAX as usize {
                    // Out of reach, which isn't proved: a source has at most 2^22 tokens, so it has fewer names.
                    return Err(OutOfMemory);
                }
                Ok(count as u32)
            }
        }
    }
}
