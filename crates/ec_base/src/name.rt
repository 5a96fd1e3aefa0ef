ghost use Rattle.std.specs.Prelude.{◌≡◌, ◌≤◌, length, ◌↔◌, IsTrue, IfOk, [], nat_eq};
ghost use Rattle.std.specs.Cmp.{partial_equiv_from_equiv};
ghost use Rattle.std.specs.Cmp.Lexicographic.{pointwise, nat_list_eq_equiv};

use crate::list::{Bytes, List};
use crate::stop::OutOfMemory;
use std::alloc::{AllocError, Global};
use std::fmt;
use std::marker::Model;

/// How many bytes a name may have that takes no block of memory.
const ROOM: usize = 22;

/// A name, compared byte for byte. One of at most 22 bytes takes no memory but its own 24 bytes. Contracts see it as the
/// list of its bytes.
#[derive(Drop)]
pub struct Name {
    letters: Letters,
}

/// Where the bytes of a name stand.
#[derive(Drop)]
enum Letters {
    /// So many of these bytes.
    Inline(u8, [u8; 22]),
    /// In a block of memory. It is boxed so that each name is small.
    Block(Box<Bytes>),
}

impl Letters {
    ghost use Rattle.ec_base.specs.Names.{letters_view, FitsRoom};

    /// These bytes, without a block.
    fn inline(text: &[u8]) -> Letters
        requires { length text.now ≤ 22 }
        ensures view { letters_view result ≡ text.now }
        ensures fits { FitsRoom result }
    {
        let mut bytes = [0; ROOM];
        bytes[..text.len()].copy_from_slice(text);
        Letters::Inline(text.len() as u8, bytes)
    }
}

// A copy of a block.
fn block_copy(block: &Bytes) -> Result<Box<Bytes>, AllocError>
    ensures { IfOk result (λ copy. copy.value ≡ block.now) }
{
    let alloc = block.allocator();
    let items = Vec::from_slice(alloc, block.as_slice())?;
    Ok(Box::new(alloc, List::from_vec(items))?)
}

impl Model for Name {
    ghost use Rattle.std.specs.Prelude.{List as Sequence, ℕ};
    ghost use Rattle.std.specs.Coded.{coded_list, coded_ℕ};
    ghost use Rattle.ec_base.specs.Names.{letters_view, FitsRoom};

    ghost Value = { Sequence ℕ };

    ghost coded = { coded_list coded_ℕ };

    ghost view = { λ it. letters_view it.letters };

    ghost invariant = { λ it. FitsRoom it.letters };
}

impl Name {
    /// The name without a byte.
    pub fn new() -> Name
        ensures { result ≡ [] }
    {
        Name {
            letters: Letters::Inline(0, [0; ROOM]),
        }
    }

    /// The name of these bytes.
    pub fn from_slice(alloc: Global, text: &[u8]) -> Result<Name, OutOfMemory>
        ensures { IfOk result (λ name. name ≡ text.now) }
    {
        if text.len() <= ROOM {
            Ok(Name {
                letters: Letters::inline(text),
            })
        } else {
            let block = Box::new(alloc, List::from_slice(alloc, text)?)?;
            Ok(Name {
                letters: Letters::Block(block),
            })
        }
    }

    /// Its bytes.
    pub fn as_slice(&self) -> &[u8]
        ensures { result.now ≡ self.now }
    {
        match &self.letters {
            Letters::Inline(count, bytes) => &bytes[..*count as usize],
            Letters::Block(block) => block.as_slice(),
        }
    }

    /// How many bytes it has.
    pub fn len(&self) -> usize
        ensures { result ≡ length self.now }
    {
        self.as_slice().len()
    }

    /// Whether it has no byte.
    pub fn is_empty(&self) -> bool
        ensures { IsTrue result ↔ (self.now ≡ []) }
    {
        self.as_slice().is_empty()
    }
}

impl Clone for Name {
    ghost is_clone = { λ it copy. copy ≡ it };

    fn clone(&self) -> Result<Name, AllocError> {
        let letters = match &self.letters {
            Letters::Inline(count, bytes) => Letters::Inline(*count, *bytes),
            Letters::Block(block) => Letters::Block(block_copy(block)?),
        };
        Ok(Name { letters })
    }
}

impl PartialEq for Name {
    ghost eq = { pointwise nat_eq };

    ghost laws = { partial_equiv_from_equiv nat_list_eq_equiv };

    fn eq(&self, other: &Name) -> bool {
        self.as_slice() == other.as_slice()
    }
}

impl Eq for Name {
    ghost laws = { nat_list_eq_equiv };
}

impl fmt::Debug for Name {
    fn fmt<W: fmt::Write>(&self, f: &mut fmt::Formatter<W>) -> fmt::Result {
        f.debug_list().entries(self.as_slice()).finish()
    }
}
