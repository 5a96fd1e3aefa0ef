ghost use Rattle.std.specs.Prelude.{◌≡◌, IfOk};

use ec_base::{Boxed, Bytes, List, Name, OutOfMemory};
use std::alloc::Global;

// A copy of a text.
pub(crate) fn copy_bytes(alloc: Global, bytes: &Bytes) -> Result<Bytes, OutOfMemory>
    ensures { IfOk result (λ copy. copy ≡ bytes.now) }
{
    List::from_slice(alloc, bytes.as_slice())
}

// A copy of a name.
pub(crate) fn copy_name(name: &Name) -> Result<Name, OutOfMemory>
    ensures { IfOk result (λ copy. copy ≡ name.now) }
{
    Ok(name.clone()?)
}

// A copy of a name that may be left out.
pub(crate) fn copy_tag(tag: &Option<Name>) -> Result<Option<Name>, OutOfMemory>
    ensures { IfOk result (λ copy. copy ≡ tag.now) }
{
    match tag {
        Some(name) => Ok(Some(copy_name(name)?)),
        None => Ok(None),
    }
}

// The same, where the name stands in a box.
pub(crate) fn boxed_tag(
    alloc: Global,
    tag: &Option<Boxed<Name>>,
) -> Result<Option<Boxed<Name>>, OutOfMemory>
    ensures { IfOk result (λ copy. copy ≡ tag.now) }
{
    match tag {
        Some(name) => Ok(Some(Boxed::new(alloc, copy_name(name.get())?)?)),
        None => Ok(None),
    }
}

// A copy of words.
pub(crate) fn copy_words(alloc: Global, words: &List<Name>) -> Result<List<Name>, OutOfMemory>
    ensures { IfOk result (λ copy. copy ≡ words.now) }
{
    let mut copy = List::new(alloc);
    for word in words.as_slice() {
        copy.push(copy_name(word)?)?;
    }
    Ok(copy)
}
