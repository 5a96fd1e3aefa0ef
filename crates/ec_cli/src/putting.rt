ghost use Rattle.std.specs.Prelude.{OnOk, OnErr};
ghost use Rattle.ec_base.specs.Putting.{Puts, PutsPart};

use ec_base::{Failed, Sink, put_all};

/// Puts a text, and passes on what was kept back.
#[tactic(auto, using(ec_base::proofs::Transfers::putting))]
pub fn put_text<O: Sink>(out: &mut O, text: &[u8]) -> Result<(), Failed>
    ensures ok { OnOk result (Puts O.held O.faults out.old out.new text.now) }
    ensures part { OnErr result (PutsPart O.held O.faults out.old out.new text.now) }
{
    put_all(out, text)?;
    out.flush()
}
