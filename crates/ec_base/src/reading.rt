ghost use Rattle.std.specs.Prelude.{IfOk, IfErr};
ghost use Rattle.ec_base.specs.Reading.{ReadsAll, ReadsPart};

use crate::list::{Bytes, List};
use crate::source::Source;
use crate::stop::InputStop;
use std::alloc::Global;

/// How many bytes are asked for at a time.
const BLOCK: usize = 8192;

/// Reads `source` to its end.
///
/// It stops with the read by which more than `limit` bytes have come. What was read by then is gone from the source: at
/// most `limit` bytes and those of one read.
pub fn read_all<S: Source>(alloc: Global, source: &mut S, limit: usize) -> Result<Bytes, InputStop>
    ensures ok { IfOk result (ReadsAll S.left S.faults source.old source.new limit) }
    ensures err { IfErr result (ReadsPart S.left S.faults source.old source.new limit) }
{
    let mut bytes = List::new(alloc);
    let mut block = [0u8; BLOCK];
    while bytes.len() <= limit {
        let count = source.read(&mut block)?;
        if count == 0 {
            return Ok(bytes);
        }
        bytes.extend_from_slice(&block[..count])?;
    }
    Err(InputStop::TooLong)
}
