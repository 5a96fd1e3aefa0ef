//! How types and numbers of C are promoted, brought together and converted: a line for each question.

use crate::printer::Printer;
use ec_base::OutOfMemory;
use ec_ctypes::{Arith, Ty, convert, promote, usual};
use itoa::Buffer;

// What a question is answered with.
#[derive(Clone, Copy)]
enum Answer {
    Type(Arith),
    Number(i128),
}

const TYPES: [(&str, Arith); 11] = [
    ("bool", Arith::Bool),
    ("char", Arith::Char),
    ("unsigned-char", Arith::UChar),
    ("short", Arith::Short),
    ("unsigned-short", Arith::UShort),
    ("int", Arith::Int),
    ("unsigned-int", Arith::UInt),
    ("long", Arith::Long),
    ("unsigned-long", Arith::ULong),
    ("long-long", Arith::LLong),
    ("unsigned-long-long", Arith::ULLong),
];

// The type of this name.
fn type_named(name: &str) -> Option<Arith> {
    for (known, ty) in TYPES.iter() {
        if *known == name {
            return Some(*ty);
        }
    }
    None
}

// The answer to `promote TYPE`, `usual TYPE TYPE` or `convert TYPE NUMBER`.
fn answer_to(question: &str) -> Option<Answer> {
    let mut words = question.split_whitespace();
    let function = words.next()?;
    let ty = type_named(words.next()?)?;
    if function == "promote" {
        return Some(Answer::Type(promote(ty)));
    }
    let operand = words.next()?;
    if function == "usual" {
        return Some(Answer::Type(usual(ty, type_named(operand)?)));
    }
    if function == "convert" {
        return Some(Answer::Number(convert(ty, operand.parse::<i128>().ok()?)));
    }
    None
}

impl Printer {
    /// Prints the answers to the questions of a text, each on a line.
    pub fn arithmetic(&mut self, questions: &str) -> Result<(), OutOfMemory> {
        for question in questions.lines() {
            match answer_to(question) {
                Some(Answer::Type(ty)) => self.ty(&Ty::from(ty))?,
                Some(Answer::Number(number)) => self.atom(Buffer::new().format(number))?,
                None => self.absent()?,
            }
            self.end_line()?;
        }
        Ok(())
    }
}
