//! Numbers below 2^64, as they are read.
ghost use Rattle.std.specs.Prelude.{◌≡◌};
ghost use Rattle.ec_transcript.specs.Lines.{value_on, number_of};
ghost use Rattle.ec_transcript.specs.Reading.{Gives};

use crate::fields::push_number;
use crate::stop::LineStop;
use ec_base::List;
use std::alloc::Global;

// The number of digits, below 2^64.
fn value_of(word: &[u8]) -> Option<u64>
    ensures { result ≡ value_on 0 word.now }
{
    let mut value: u64 = 0;
    for digit in word {
        if !digit.is_ascii_digit() {
            return None;
        }
        let tens = value.checked_mul(10)?;
        value = tens.checked_add(u64::from(*digit - b'0'))?;
    }
    Some(value)
}

/// The number that is written so.
pub fn number_of(alloc: Global, word: &[u8]) -> Result<u64, LineStop>
    ensures { Gives (λ n. n) result (number_of word.now) }
{
    let Some(number) = value_of(word) else {
        return Err(LineStop::Bad);
    };
    let mut written = List::new(alloc);
    push_number(&mut written, number)?;
    if word != written.as_slice() {
        return Err(LineStop::Bad);
    }
    Ok(number)
}
