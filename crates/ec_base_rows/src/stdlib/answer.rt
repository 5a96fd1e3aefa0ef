//! Answers, and how they are shown.

use crate::answers::Wrong;
use ec_base::Bytes;
use ec_stdlib::{Answer, Refusal};
use ec_values::Word;
use itoa::Buffer;

/// Shows a value: a number, or a pointer as `OBJECT:OFFSET`.
pub fn show_word(shown: &mut Bytes, word: Word) -> Result<(), Wrong> {
    match word {
        Word::Signed(number) => {
            shown.extend_from_slice(Buffer::new().format(number).as_bytes())?;
        }
        Word::Unsigned(number) => {
            shown.extend_from_slice(Buffer::new().format(number).as_bytes())?;
        }
        Word::Address(ptr) => {
            shown.extend_from_slice(Buffer::new().format(ptr.0 >> 32).as_bytes())?;
            shown.push(b':')?;
            shown.extend_from_slice(Buffer::new().format(ptr.0 & 0xffff_ffff).as_bytes())?;
        }
    }
    Ok(())
}

/// Shows what a call gave, and the bytes that it puts in brackets.
pub fn show_call(
    shown: &mut Bytes,
    outcome: Result<Answer, Refusal>,
    text: &[u8],
) -> Result<(), Wrong> {
    match outcome {
        Ok(answer) => {
            match answer.value {
                Some(word) => show_word(shown, word)?,
                None => shown.extend_from_slice(b"nothing")?,
            }
            if !text.is_empty() {
                shown.extend_from_slice(b" [")?;
                shown.extend_from_slice(text)?;
                shown.push(b']')?;
            }
            Ok(())
        }
        Err(Refusal::Trap(trap)) => {
            shown.extend_from_slice(b"trap ")?;
            shown.extend_from_slice(trap.text().as_bytes())?;
            Ok(())
        }
        Err(Refusal::Exit(status)) => {
            shown.extend_from_slice(b"exit ")?;
            shown.extend_from_slice(Buffer::new().format(status).as_bytes())?;
            Ok(())
        }
        Err(Refusal::Misfit) => {
            shown.extend_from_slice(b"misfit")?;
            Ok(())
        }
        Err(Refusal::OutOfMemory) => Err(Wrong::OutOfMemory),
    }
}
