//! Counts of any size, as they are read.
ghost use Rattle.std.specs.Prelude.{◌≡◌, ◌==◌, nat_lt};
ghost use Rattle.ec_transcript.specs.Lines.{all_digits, is_numeral, count_of};
ghost use Rattle.ec_transcript.specs.Reading.{Gives};

use crate::numbers::number_of;
use crate::stop::LineStop;
use ec_base::Bytes;
use std::alloc::Global;
use std::marker::Model;

/// How many columns or rows a table is to have: the digits, and the number where it is below 2^64.
#[derive(Debug, Drop)]
pub struct Count {
    digits: Bytes,
    number: Option<u64>,
}

impl Model for Count {
    ghost use Rattle.std.specs.Prelude.{ℕ};
    ghost use Rattle.ec_transcript.specs.Lines.{value};
    ghost use Rattle.ec_transcript.specs.Lines.{Counted};

    ghost Value = { ℕ };

    ghost view = { λ count. value 0 count.digits };

    ghost invariant = { λ count. Counted (value 0 count.digits) count.number };
}

// Whether each byte is a digit.
fn all_digits(word: &[u8]) -> bool
    ensures { result ≡ all_digits word.now }
{
    for byte in word {
        if !byte.is_ascii_digit() {
            return false;
        }
    }
    true
}

// Whether a word is a number without leading zeros.
fn is_numeral(word: &[u8]) -> bool
    ensures { result ≡ is_numeral word.now }
{
    match word {
        [] => false,
        [digit] => digit.is_ascii_digit(),
        [b'0', ..] => false,
        _ => all_digits(word),
    }
}

impl Count {
    /// The count that is written so.
    pub fn read(alloc: Global, word: &[u8]) -> Result<Count, LineStop>
        ensures { Gives (λ n. n) result (count_of word.now) }
    {
        if !is_numeral(word) {
            return Err(LineStop::Bad);
        }
        let number = match number_of(alloc, word) {
            Ok(number) => Some(number),
            Err(LineStop::Bad) => None,
            Err(LineStop::OutOfMemory) => return Err(LineStop::OutOfMemory),
        };
        let digits = Bytes::from_slice(alloc, word)?;
        Ok(Count { digits, number })
    }

    /// Whether it is so many.
    pub fn is(&self, length: usize) -> bool
        ensures { result ≡ (length == self.now) }
    {
        match self.number {
            Some(number) => length as u64 == number,
            None => false,
        }
    }

    /// Whether it is more than so many.
    pub fn exceeds(&self, length: usize) -> bool
        ensures { result ≡ nat_lt length self.now }
    {
        match self.number {
            Some(number) => (length as u64) < number,
            None => true,
        }
    }
}
