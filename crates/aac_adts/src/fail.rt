ghost use Rattle.std.specs.Prelude.{◌≡◌};
ghost use Rattle.aac_adts.specs.declared.fail.AacFail.TheVariants.{OutOfMemory as Memory};

use av_unit::OutOfMemory;
use thiserror::Error;

/// The reason for which a configuration or a frame was refused.
#[derive(Clone, Copy, Debug, Drop, Error)]
pub enum AacFail {
    /// A configuration has fewer than two bytes.
    #[error("a configuration of fewer than two bytes")]
    Short,
    /// The audio object type isn't 1 to 4.
    #[error("audio object type {n}")]
    Object { n: u8 },
    /// The sampling frequency index is above 12.
    #[error("sampling frequency index {n}")]
    Index { n: u8 },
    /// The channel configuration isn't 1 to 7.
    #[error("channel configuration {n}")]
    Channels { n: u8 },
    /// A frame has more than 8,184 raw bytes.
    #[error("a frame of {n} raw bytes")]
    TooLong { n: usize },
    /// The bytes are no frame. The place is that of the first byte that isn't a header's, or 3 if the length
    /// isn't that of the bytes.
    #[error("no header of a frame at {at}")]
    BadAdts { at: usize },
    #[error("out of memory")]
    OutOfMemory,
}

impl From<OutOfMemory> for AacFail {
    ghost from_gives = { λ _ e. e ≡ Memory };

    fn from(_: OutOfMemory) -> AacFail {
        AacFail::OutOfMemory
    }
}
