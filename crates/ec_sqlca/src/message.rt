//! The message of a code, in the room that `sqlerrmc` has.

ghost use Rattle.std.specs.Prelude.{◌≡◌, ◌+◌, ◌≤◌, length};
ghost use Rattle.std.specs.Fmt.{decimal};
ghost use Rattle.ec_memory_defs.specs.Cells.{written};
ghost use Rattle.ec_sqlca.specs.Fronts.{Adds, Reaches};
ghost use Rattle.ec_transfer_defs.specs.Area.{in_sqlerrmc, message_on, text_length};

use ec_base::Line;
use itoa::Buffer;

/// The 150 bytes of `sqlerrmc`: the front of a message with its line, and zero bytes behind it.
pub(crate) fn text_on(message: &[u8], line: Line) -> [u8; 150]
    ensures { result ≡ in_sqlerrmc (message_on message.now line.0) }
{
    let mut text = [0; 150];
    let behind_message = append(&mut text, 0, message);
    let behind_words = append(&mut text, behind_message, b" on line ");
    append_number(&mut text, behind_words, line.0);
    text
}

/// Puts as many digits of a number behind the first `at` bytes as there is room for before the last byte.
fn append_number(text: &mut [u8], at: usize, number: u32)
    requires room { length text.old ≡ 150 }
    requires before { at ≤ 149 }
    ensures { Adds text.old at (decimal number) text.new }
{
    let mut digits = Buffer::new();
    let digits = digits.format(number);
    append(text, at, digits.as_bytes());
}

/// Puts as many bytes of `more` behind the first `at` as there is room for before the last byte, and says how many bytes
/// stand there then.
fn append(text: &mut [u8], at: usize, more: &[u8]) -> usize
    requires room { length text.old ≡ 150 }
    requires before { at ≤ 149 }
    ensures text { Adds text.old at more.now text.new }
    ensures count { Reaches at more.now result }
    ensures bound { result ≤ 149 }
{
    let count = more.len().min(149 - at);
    write(text, at, &more[..count]);
    at + count
}

/// Writes `piece` from `at` on.
fn write(text: &mut [u8], at: usize, piece: &[u8])
    requires { at + length piece.now ≤ length text.old }
    ensures { text.new ≡ written text.old at piece.now }
{
    text[at..at + piece.len()].copy_from_slice(piece);
}

/// How many bytes stand before the first zero byte.
pub(crate) fn text_length(text: &[u8]) -> u32
    requires { length text.now ≤ 150 }
    ensures value { result ≡ text_length text.now }
    ensures bound { result ≤ 150 }
{
    let mut rest = text;
    let mut count = 0;
    while let [byte, more @ ..] = rest {
        if *byte == 0 {
            return count;
        }
        count += 1;
        rest = more;
    }
    count
}
