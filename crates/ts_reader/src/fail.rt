ghost use Rattle.std.specs.Prelude.{◌≡◌};
ghost use Rattle.ts_reader.specs.declared.fail.TsFail.TheVariants.{OutOfMemory as Memory};

use av_unit::OutOfMemory;
use thiserror::Error;

/// Why bytes are refused as a transport stream. A place is the number of bytes that stand before the packet's
/// first byte.
#[derive(Clone, Copy, Debug, Drop, Error)]
pub enum TsFail {
    /// The packet there doesn't begin with a sync byte (2.4.3.2), or the stream ends before its 188 bytes.
    #[error("no packet at {at}")]
    NoSync { at: u64 },
    /// The packet there doesn't have an association table or a map of the form that is written (2.4.4), or has a map
    /// before any association table.
    #[error("no table at {at}")]
    BadTable { at: u64 },
    /// The packet there has the counter `found`, but the next of its PID is `kept`.
    #[error("counter {found} where {kept} is next at {at}")]
    BadCounter { at: u64, kept: u8, found: u8 },
    /// The packet there has a PID that the last map doesn't list, or continues a PES packet though none is
    /// open. Or it isn't of the form that is written (2.4.3.4, 2.4.3.6). Or the audio PES packet that begins
    /// there has another length than its header gives.
    #[error("no PES packet at {at}")]
    BadPes { at: u64 },
    /// The PES packet that begins there carries no access unit with a delimiter before it, or no frame of ADTS.
    #[error("no unit at {at}")]
    BadUnit { at: u64 },
    /// Memory was refused.
    #[error("out of memory")]
    OutOfMemory,
}

impl From<OutOfMemory> for TsFail {
    ghost from_gives = { λ _ e. e ≡ Memory };

    fn from(_: OutOfMemory) -> TsFail {
        TsFail::OutOfMemory
    }
}
