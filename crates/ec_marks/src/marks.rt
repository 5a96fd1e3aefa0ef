//! A text with its marks as parameters.

ghost use Rattle.std.specs.Prelude.{◌≡◌, ◌++◌, codes, decimal, drop, IfOk, OnOk};
ghost use Rattle.ec_call_defs.specs.Marks.{with_marks};

use crate::place::Place;
use crate::step::{Step, step_from};
use ec_base::{Bytes, OutOfMemory};
use itoa::Buffer;
use std::alloc::Global;

/// Puts the parameter of this number.
fn push_parameter(text: &mut Bytes, number: u64) -> Result<(), OutOfMemory>
    ensures { OnOk result (text.new ≡ text.old ++ (codes "$" ++ decimal number)) }
{
    text.push(b'$')?;
    text.extend_from_slice(Buffer::new().format(number).as_bytes())
}

/// What stands behind the first byte.
fn behind_first(text: &[u8]) -> &[u8]
    ensures { result.now ≡ drop 1 text.now }
{
    match text {
        [] => text,
        [_, more @ ..] => more,
    }
}

/// The text that is sent for one that is prepared: its marks are parameters, which count from 1. It is read once.
pub fn with_marks(alloc: Global, text: &[u8]) -> Result<Bytes, OutOfMemory>
    ensures { IfOk result (λ made. made ≡ with_marks text.now) }
{
    let mut made = Bytes::new(alloc);
    let mut place = Place::Between;
    let mut marks: u64 = 0;
    let mut rest = text;
    while let [byte, ..] = rest {
        let more = behind_first(rest);
        match step_from(place, *byte, more) {
            Step::Mark => {
                marks += 1;
                push_parameter(&mut made, marks)?;
                place = Place::Between;
                rest = more;
            }
            Step::One(behind) => {
                made.push(*byte)?;
                place = behind;
                rest = more;
            }
            Step::Two(next, behind) => {
                made.push(*byte)?;
                made.push(next)?;
                place = behind;
                rest = behind_first(more);
            }
        }
    }
    Ok(made)
}
