//! The text of a configuration.
ghost use Rattle.std.specs.Prelude.{◌≡◌, MatchResult};
ghost use Rattle.relay_serve.specs.Ends.{SourceCause};
ghost use Rattle.relay_serve.specs.Taking.{TakesText};
ghost use Rattle.std.specs.Prelude.{IfOk};

use relay_outside::{Got, Source};
use std::alloc::Global;

/// A configuration has at most this number of bytes less one.
const MOST: usize = 1_048_577;

/// How many bytes are asked for at a time.
const PIECE: usize = 4096;

/// Why a text wasn't read.
#[derive(Clone, Copy)]
pub enum ReadFail {
    SourceFault,
    OutOfMemory,
}

/// Reads a source to its end, or its first 1,048,577 bytes if it gives more.
pub fn read_text<S: Source>(alloc: Global, source: &mut S) -> Result<Vec<u8>, ReadFail>
    ensures text { IfOk result (λ bytes. TakesText (S.left source.old) (S.left source.new) bytes.items) }
    ensures cause { MatchResult result (λ _. S.faults source.new ≡ S.faults source.old)
        (λ fail. SourceCause fail (S.faults source.old) (S.faults source.new)) }
{
    let mut bytes = Vec::new(alloc);
    let mut piece = [0u8; PIECE];
    while bytes.len() < MOST {
        let room = (MOST - bytes.len()).min(PIECE);
        let into = &mut piece[..room];
        match source.get(into) {
            Got::Bytes(count) => {
                if bytes.extend_from_slice(&into[..count]).is_err() {
                    return Err(ReadFail::OutOfMemory);
                }
            }
            Got::End => return Ok(bytes),
            Got::Failed => return Err(ReadFail::SourceFault),
        }
    }
    Ok(bytes)
}
