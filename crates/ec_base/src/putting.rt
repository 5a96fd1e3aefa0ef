ghost use Rattle.std.specs.Prelude.{OnOk, OnErr};
ghost use Rattle.ec_base.specs.Putting.{Puts, PutsPart};

use crate::sink::Sink;
use crate::stop::Failed;

/// Puts all of `bytes` into `sink`, in as many pieces as the sink takes.
///
/// Where the sink fails, it has taken the front of `bytes`.
pub fn put_all<S: Sink>(sink: &mut S, bytes: &[u8]) -> Result<(), Failed>
    ensures ok { OnOk result (Puts S.held S.faults sink.old sink.new bytes.now) }
    ensures err { OnErr result (PutsPart S.held S.faults sink.old sink.new bytes.now) }
{
    let mut rest = bytes;
    while !rest.is_empty() {
        let count = sink.put(rest)?;
        rest = &rest[count..];
    }
    Ok(())
}
