ghost use Rattle.std.specs.Prelude.{◌≡◌, MatchResult};
ghost use Rattle.std.specs.Io.KnownBytes.{append_known};
ghost use Rattle.file_commands.specs.Parts.{PutFails, SinkCause};

use crate::fail::Fail;
use put_text::PutFail;
use relay_outside::Sink;

/// Puts all bytes of the text.
pub(crate) fn put_all<K: Sink>(out: &mut K, text: &[u8]) -> Result<(), Fail>
    ensures text { MatchResult result (λ _. K.holds out.new ≡ append_known (K.holds out.old) text.now)
        (λ fail. PutFails fail text.now (K.holds out.old) (K.holds out.new)) }
    ensures faults { MatchResult result (λ _. K.faults out.new ≡ K.faults out.old) (λ fail. SinkCause fail (K.faults out.old) (K.faults out.new)) }
{
    match put_text::put_all(out, text) {
        Ok(()) => Ok(()),
        Err(PutFail::SinkFault) => Err(Fail::SinkFault),
        Err(PutFail::OutOfMemory) => Err(Fail::OutOfMemory),
    }
}
