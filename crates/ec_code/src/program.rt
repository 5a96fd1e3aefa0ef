//! Functions, objects and programs.

ghost use Rattle.std.specs.Prelude.{◌≡◌, ◌⊎◌, ◌≤◌, ◌<◌, [], ◌∷◌, ◌++◌, ◌^◌, map, length, MatchOption, OnOk};
ghost use Rattle.ec_code.specs.Objects.{AreInside, stored_view};

use crate::statement::Statement;
use ec_base::{Bytes, List, OutOfMemory};
use ec_memory_defs::Kind;
use ec_values::Word;
use std::alloc::Global;
use std::marker::Model;

/// The size of an object in bytes, from 1 to 2^24.
#[derive(Clone, Copy, Debug)]
pub struct ObjectSize {
    pub bytes: u64,
    ghost some: { 1 ≤ bytes },
    ghost small: { bytes ≤ 2 ^ 24 },
}

impl ObjectSize {
    /// A size, or `None` where it is none of an object.
    pub fn new(bytes: u64) -> Option<ObjectSize>
        ensures { MatchOption result ((bytes ≡ 0) ⊎ (2 ^ 24 < bytes)) (λ size. size.bytes ≡ bytes) }
    {
        if bytes == 0 || bytes > 1 << 24 {
            None
        } else {
            Some(ObjectSize { bytes })
        }
    }
}

/// A function that is defined.
#[derive(Debug, Drop)]
pub struct Function {
    /// The types of its parameters.
    pub parameters: List<Kind>,
    /// The sizes of the objects of its body's block.
    pub objects: List<ObjectSize>,
    pub body: List<Statement>,
    /// What a call gives where the body ends without `return`. Only `main` has that (ISO/IEC 9899:1999, 5.1.2.2.3).
    pub otherwise: Option<Word>,
}

/// A part of a global's initializer: bytes, and their offset.
#[derive(Debug, Drop)]
pub struct Stored {
    pub at: u64,
    pub bytes: Bytes,
}

/// A global: its size, and the parts of its initializer, which lie in it.
#[derive(Debug, Drop)]
pub struct GlobalVariable {
    size: u64,
    values: List<Stored>,
}

impl Model for GlobalVariable {
    ghost use Rattle.std.specs.Prelude.{◌≤◌, ◌^◌, map};
    ghost use Rattle.ec_code.specs.Objects.{AreInside, stored_view};
    ghost use Rattle.ec_meaning_defs.specs.resolved.Programs.{Global as Variable};

    ghost Value = { Variable };

    ghost view = { λ g. record { size = g.size; values = map stored_view g.values } };

    ghost invariant = { λ g. (1 ≤ g.size) × (g.size ≤ 2 ^ 24) × AreInside g.size g.values };
}

impl GlobalVariable {
    /// A global without an initializer. It takes no memory.
    pub fn new(alloc: Global, size: ObjectSize) -> GlobalVariable
        ensures { result ≡ record { size = size.bytes; values = [] } }
    {
        GlobalVariable {
            size: size.bytes,
            values: List::new(alloc),
        }
    }

    /// One part more of its initializer. There is no memory for one that doesn't lie in it.
    pub fn add(&mut self, part: Stored) -> Result<(), OutOfMemory>
        ensures { OnOk result (self.new ≡ record {
          size = self.old.size;
          values = self.old.values ++ stored_view part ∷ [];
        }) }
    {
        let Some(end) = part.at.checked_add(part.bytes.len() as u64) else {
            return Err(OutOfMemory);
        };
        if end > self.size {
            return Err(OutOfMemory);
        }
        self.values.push(part)?;
        Ok(())
    }

    /// How many bytes it has.
    pub fn size(&self) -> u64
        ensures value { result ≡ self.now.size }
        ensures some { 1 ≤ result }
        ensures small { result ≤ 2 ^ 24 }
    {
        self.size
    }

    /// The parts of its initializer, in order.
    pub fn values(&self) -> &[Stored]
        ensures values { map stored_view result.now ≡ self.now.values }
        ensures inside { AreInside self.now.size result.now }
    {
        self.values.as_slice()
    }
}

/// A string literal that makes an object, without its zero byte.
#[derive(Debug, Drop)]
pub struct Literal {
    bytes: Bytes,
}

impl Model for Literal {
    ghost use Rattle.std.specs.Prelude.{ℕ, ◌<◌, ◌^◌, length, List as Sequence};

    ghost Value = { Sequence ℕ };

    ghost view = { λ l. l.bytes };

    ghost invariant = { λ l. length l.bytes < 2 ^ 24 };
}

impl Literal {
    /// A literal of fewer than 2^24 bytes, or `None`.
    pub fn new(bytes: Bytes) -> Option<Literal>
        ensures { MatchOption result (2 ^ 24 ≤ length bytes) (λ literal. literal ≡ bytes) }
    {
        if bytes.len() < 1 << 24 {
            Some(Literal { bytes })
        } else {
            None
        }
    }

    /// Its bytes.
    pub fn bytes(&self) -> &[u8]
        ensures value { result.now ≡ self.now }
        ensures small { length result.now < 2 ^ 24 }
    {
        self.bytes.as_slice()
    }
}

/// A program.
#[derive(Debug, Drop)]
pub struct Program {
    pub globals: List<GlobalVariable>,
    pub literals: List<Literal>,
    pub functions: List<Function>,
    /// The number of `main` among the functions.
    pub main: u32,
}
