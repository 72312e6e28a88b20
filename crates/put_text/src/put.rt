ghost use Rattle.std.specs.Prelude.{◌≡◌, MatchResult};
ghost use Rattle.std.specs.Io.KnownBytes.{append_known};
ghost use Rattle.put_text.specs.Written.{SinkCause, WritesPart};

use relay_outside::{Put, Sink};

/// Why a text wasn't put.
#[derive(Clone, Copy)]
pub enum PutFail {
    /// The sink failed, and its faults rose.
    SinkFault,
    /// The sink was out of memory.
    OutOfMemory,
}

/// Puts all of the text. If it fails, a first part of the text is put.
pub fn put_all<K: Sink>(out: &mut K, text: &[u8]) -> Result<(), PutFail>
    ensures text { MatchResult result (λ _. K.holds out.new ≡ append_known (K.holds out.old) text.now)
        (λ _. WritesPart text.now (K.holds out.old) (K.holds out.new)) }
    ensures faults { MatchResult result (λ _. K.faults out.new ≡ K.faults out.old) (λ fail. SinkCause fail (K.faults out.old) (K.faults out.new)) }
{
    let mut left = text;
    while !left.is_empty() {
        match out.put(left) {
            Put::Took(count) => left = &left[count..],
            Put::Failed => return Err(PutFail::SinkFault),
            Put::OutOfMemory => return Err(PutFail::OutOfMemory),
        }
    }
    Ok(())
}
