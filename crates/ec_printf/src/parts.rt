//! Formats as parts.

ghost use Rattle.std.specs.Prelude.{◌≡◌, ℕ, suc, [], Some, IfOk, map, option_map};
ghost use Rattle.ec_meaning_defs.specs.functions.Formats as of;
ghost use Rattle.ec_printf.specs.formats.Known.{part_view};
ghost use Rattle.ec_printf.specs.Gathering.{directed, gathered, stepped};

use crate::directives::directive_at;
use crate::formats::Part;
use crate::gathered::Gathered;
use ec_base::{List, OutOfMemory};
use std::alloc::Global;

/// What a step through a format comes to.
#[derive(Clone, Copy)]
pub(crate) enum Step<'a> {
    /// The format ends here.
    Ends,
    /// It is no format.
    Fails,
    /// What is left of it.
    Next(&'a [u8]),
}

/// A directive, behind its `%`.
fn convert<'a>(all: &mut Gathered, text: &'a [u8]) -> Result<Step<'a>, OutOfMemory>
    ensures { IfOk result (λ step. (n : ℕ)
        → directed (gathered all.old) n text.now ≡ stepped (gathered all.new) n step) }
{
    match directive_at(text) {
        Some(found) => {
            all.directive(found.meaning)?;
            Ok(Step::Next(found.rest))
        }
        None => Ok(Step::Fails),
    }
}

/// One byte or one directive of a format, which ends at its first zero byte.
fn pass<'a>(all: &mut Gathered, text: &'a [u8]) -> Result<Step<'a>, OutOfMemory>
    ensures { IfOk result (λ step. (n : ℕ)
        → option_map (gathered all.old) (of.parts_within (suc n) text.now)
        ≡ stepped (gathered all.new) n step) }
{
    match text {
        [] => Ok(Step::Ends),
        [0, ..] => Ok(Step::Ends),
        [b'%', rest @ ..] => convert(all, rest),
        [byte, rest @ ..] => {
            all.byte(*byte)?;
            Ok(Step::Next(rest))
        }
    }
}

/// All parts.
fn finished(all: Gathered) -> Result<Option<List<Part>>, OutOfMemory>
    ensures { IfOk result (λ parts. option_map (map part_view) parts ≡ Some (gathered all [])) }
{
    Ok(Some(all.finish()?))
}

/// The parts of a format, which ends at its first zero byte; or `None` where it is none. Bytes that stand together for
/// themselves are one part. An amount of more than 64 bits is `u64::MAX`: no text is that long.
pub fn format_parts(alloc: Global, format: &[u8]) -> Result<Option<List<Part>>, OutOfMemory>
    ensures { IfOk result (λ parts. option_map (map part_view) parts ≡ of.format_parts format.now) }
{
    let mut all = Gathered::new(alloc);
    let mut rest = format;
    let mut left = format.len();
    while left > 0 {
        match pass(&mut all, rest)? {
            Step::Ends => return finished(all),
            Step::Fails => return Ok(None),
            Step::Next(next) => rest = next,
        }
        left -= 1;
    }
    if rest.is_empty() {
        finished(all)
    } else {
        Ok(None)
    }
}
