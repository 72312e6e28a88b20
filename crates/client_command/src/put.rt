ghost use Rattle.std.specs.Prelude.{◌≡◌, MatchResult};
ghost use Rattle.std.specs.Io.KnownBytes.{append_known};
ghost use Rattle.put_text.specs.Written.{WritesPart};
ghost use Rattle.client_command.specs.Turned.{PutCause};

use crate::stop::Stop;
use put_text::PutFail;
use relay_outside::Sink;

/// Puts all of the text.
pub(crate) fn put_all<K: Sink>(out: &mut K, text: &[u8]) -> Result<(), Stop>
    ensures text { MatchResult result (λ _. K.holds out.new ≡ append_known (K.holds out.old) text.now)
        (λ _. WritesPart text.now (K.holds out.old) (K.holds out.new)) }
    ensures faults { MatchResult result (λ _. K.faults out.new ≡ K.faults out.old) (λ stop. PutCause stop (K.faults out.old) (K.faults out.new)) }
{
    match put_text::put_all(out, text) {
        Ok(()) => Ok(()),
        Err(PutFail::SinkFault) => Err(Stop::Sink),
        Err(PutFail::OutOfMemory) => Err(Stop::Memory),
    }
}
