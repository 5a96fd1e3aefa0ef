//! The parts of a format so far.

ghost use Rattle.std.specs.Prelude.{◌≡◌, [], ◌∷◌, List as Sequence, OnOk, IfOk, map};
ghost use Rattle.ec_meaning_defs.specs.functions.Formats as of;
ghost use Rattle.ec_printf.specs.formats.Known.{part_view};
ghost use Rattle.ec_printf.specs.Gathering.{front_of, gathered, IsDirective};
ghost use Rattle.ec_printf.specs.Readings.{meaning_view};

use crate::formats::Part;
use crate::letters::Meaning;
use ec_base::{Bytes, List, OutOfMemory, beside};
use std::alloc::Global;
use std::mem;

/// The parts so far, and the bytes behind them that stand for themselves.
#[derive(Drop)]
pub(crate) struct Gathered {
    alloc: Global,
    parts: List<Part>,
    plain: Bytes,
}

impl Gathered {
    /// No parts. They take no memory.
    pub fn new(alloc: Global) -> Gathered
        ensures { (ps : Sequence of.Part) → gathered result ps ≡ ps }
    {
        Gathered {
            alloc,
            parts: List::new(alloc),
            plain: List::new(alloc),
        }
    }

    /// One byte more that stands for itself.
    pub fn byte(&mut self, byte: u8) -> Result<(), OutOfMemory>
        ensures { OnOk result ((ps : Sequence of.Part)
            → gathered self.new ps
            ≡ gathered self.old (of.before_parts (of.plain (byte ∷ [])) ps)) }
    {
        self.plain.push(byte)?;
        Ok(())
    }

    /// The bytes that stand for themselves are a part, if there are any.
    fn end_plain(&mut self) -> Result<(), OutOfMemory>
        ensures same { OnOk result (map part_view self.new.parts ≡ front_of self.old) }
        ensures none { OnOk result (self.new.plain ≡ []) }
    {
        if self.plain.is_empty() {
            return Ok(());
        }
        let plain = mem::replace(&mut self.plain, List::new(self.alloc));
        self.parts.push(Part::Plain(plain))?;
        Ok(())
    }

    /// One directive more.
    pub fn directive(&mut self, meaning: Meaning) -> Result<(), OutOfMemory>
        ensures { OnOk result ((ps : Sequence of.Part)
            → gathered self.new ps
            ≡ gathered self.old (of.before_parts (meaning_view meaning) ps)) }
    {
        match meaning {
            Meaning::Percent => self.byte(b'%'),
            Meaning::Integer(field, wide, style) => self.part(Part::Integer(field, wide, style)),
            Meaning::Character(field) => self.part(Part::Character(field)),
            Meaning::Text(field, precision) => self.part(Part::Text(field, precision)),
        }
    }

    /// One part more, which is no plain bytes.
    fn part(&mut self, part: Part) -> Result<(), OutOfMemory>
        requires { IsDirective (part_view part) }
        ensures { OnOk result ((ps : Sequence of.Part)
            → gathered self.new ps ≡ gathered self.old (part_view part ∷ ps)) }
    {
        let (part, _ended) = beside(part, self.end_plain())?;
        self.parts.push(part)?;
        Ok(())
    }

    /// All parts.
    pub fn finish(self) -> Result<List<Part>, OutOfMemory>
        ensures { IfOk result (λ parts. map part_view parts ≡ gathered self []) }
    {
        let mut all = self;
        all.end_plain()?;
        Ok(all.parts)
    }
}
