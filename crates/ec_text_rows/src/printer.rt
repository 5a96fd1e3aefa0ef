//! What is printed, in memory.

use ec_base::{FaultKind, LimitKind, Line, OutOfMemory, Stop};
use itoa::Buffer;
use std::alloc::Global;

/// Lines of atoms and forms. A form is a word and its parts in parentheses. Parts are parted by one blank.
#[derive(Drop)]
pub struct Printer {
    out: Vec<u8>,
    depth: usize,
}

impl Printer {
    /// A printer that has printed nothing.
    pub fn new(alloc: Global) -> Printer {
        Printer {
            out: Vec::new(alloc),
            depth: 0,
        }
    }

    /// What is printed.
    pub fn as_slice(&self) -> &[u8] {
        self.out.as_slice()
    }

    /// Prints bytes as they are.
    pub fn plain(&mut self, bytes: &[u8]) -> Result<(), OutOfMemory> {
        self.out.extend_from_slice(bytes)?;
        Ok(())
    }

    // Prints a blank, unless a part begins a line or follows an opening parenthesis.
    fn part(&mut self) -> Result<(), OutOfMemory> {
        match self.out.last() {
            None | Some(b'\n' | b' ' | b'(') => Ok(()),
            Some(_) => self.plain(b" "),
        }
    }

    /// Prints a part as it is.
    pub fn atom(&mut self, text: &str) -> Result<(), OutOfMemory> {
        self.part()?;
        self.plain(text.as_bytes())
    }

    /// Prints `-`, for what is left out.
    pub fn absent(&mut self) -> Result<(), OutOfMemory> {
        self.atom("-")
    }

    /// Prints a number.
    pub fn number(&mut self, number: u64) -> Result<(), OutOfMemory> {
        self.atom(Buffer::new().format(number))
    }

    /// Prints the number of a line.
    pub fn line(&mut self, line: Line) -> Result<(), OutOfMemory> {
        self.number(u64::from(line.0))
    }

    /// Prints a name as it is where it is a word of C, and else in quotes.
    pub fn name(&mut self, name: &[u8]) -> Result<(), OutOfMemory> {
        if name.is_empty() || !name.iter().all(|&byte| is_of_words(byte)) {
            return self.quoted(name);
        }
        self.part()?;
        self.plain(name)
    }

    /// Prints bytes in quotes: those from 32 to 126 as they are, but quotes, backslashes and all others as a backslash
    /// and two hexadecimal digits.
    pub fn quoted(&mut self, bytes: &[u8]) -> Result<(), OutOfMemory> {
        self.atom("\"")?;
        for &byte in bytes {
            self.byte(byte)?;
        }
        self.plain(b"\"")
    }

    // Prints a byte in quotes.
    fn byte(&mut self, byte: u8) -> Result<(), OutOfMemory> {
        if matches!(byte, b' '..=b'~') && byte != b'"' && byte != b'\\' {
            return self.plain(&[byte]);
        }
        self.plain(&[b'\\', hexadecimal(byte / 16), hexadecimal(byte % 16)])
    }

    /// Begins a form.
    pub fn open(&mut self, word: &str) -> Result<(), OutOfMemory> {
        self.atom("(")?;
        self.plain(word.as_bytes())
    }

    /// Ends a form.
    pub fn close(&mut self) -> Result<(), OutOfMemory> {
        self.plain(b")")
    }

    /// Ends a line.
    pub fn end_line(&mut self) -> Result<(), OutOfMemory> {
        self.plain(b"\n")
    }

    /// Begins a line that belongs to the form before it, two blanks further in.
    pub fn go_in(&mut self) -> Result<(), OutOfMemory> {
        self.depth = self.depth.saturating_add(1);
        self.end_line()?;
        for _level in 0..self.depth {
            self.plain(b"  ")?;
        }
        Ok(())
    }

    /// Prints a line with a fault and where it is.
    pub fn fault(&mut self, kind: FaultKind, line: Line) -> Result<(), OutOfMemory> {
        self.atom(kind.text())?;
        self.atom("at line")?;
        self.line(line)?;
        self.end_line()
    }

    /// Prints a line with a limit.
    pub fn limit(&mut self, kind: LimitKind) -> Result<(), OutOfMemory> {
        self.atom("limit")?;
        self.atom(kind.text())?;
        self.end_line()
    }

    /// Prints a line that says why something is refused. Want of memory is no answer, and is given back.
    pub fn stop(&mut self, stop: Stop) -> Result<(), OutOfMemory> {
        match stop {
            Stop::Refused(kind, line) => self.fault(kind, line),
            Stop::Limit(kind) => self.limit(kind),
            Stop::OutOfMemory => Err(OutOfMemory),
        }
    }

    /// Goes back by what `go_in` went in.
    pub fn go_out(&mut self) {
        self.depth = self.depth.saturating_sub(1);
    }
}

// Whether words of C are made of such bytes.
fn is_of_words(byte: u8) -> bool {
    byte.is_ascii_alphanumeric() || byte == b'_'
}

// The digit of a number below 16.
fn hexadecimal(digit: u8) -> u8 {
    match digit {
        0..=9 => b'0' + digit,
        10..=15 => b'a' + (digit - 10),
        _ => b'?',
    }
}
