ghost use Rattle.std.specs.Prelude.{◌≡◌};
ghost use Rattle.avc_annexb.specs.declared.fail.AvcFail.TheVariants.{OutOfMemory as Memory};

use av_unit::OutOfMemory;
use std::alloc::{AllocError, AllocFailed};
use thiserror::Error;

/// The first cause in bytes for which they were refused. Places count bytes from the start of the input, and
/// units are numbered from 0; a place in a unit counts from its first byte.
#[derive(Clone, Copy, Debug, Drop, Error)]
pub enum AvcFail {
    /// A configuration record has a version other than 1, at 0, or ends early, at its length.
    #[error("no configuration record: stopped at {at}")]
    Short { at: usize },
    /// A configuration record says that lengths have 3 bytes.
    #[error("lengths of {size} bytes")]
    LengthSize { size: u8 },
    /// The length at this place, or the unit behind it, goes past the end.
    #[error("a unit past the end, by the length at {at}")]
    PastEnd { at: usize },
    /// A unit has 00 00 and a byte of at most 2 at this place, or ends in 00 there.
    #[error("unit {nal} isn't one at {at}")]
    Dirty { nal: usize, at: usize },
    /// A unit has no bytes.
    #[error("unit {nal} is empty")]
    EmptyNal { nal: usize },
    /// No start code stands at this place.
    #[error("no start code at {at}")]
    NoStart { at: usize },
    #[error("out of memory")]
    OutOfMemory,
}

impl From<OutOfMemory> for AvcFail {
    ghost from_gives = { λ _ e. e ≡ Memory };

    fn from(_: OutOfMemory) -> AvcFail {
        AvcFail::OutOfMemory
    }
}

impl From<AllocError> for AvcFail {
    ghost from_gives = { λ _ e. e ≡ Memory };

    fn from(_: AllocError) -> AvcFail {
        AvcFail::OutOfMemory
    }
}

impl<T: Drop> From<AllocFailed<T>> for AvcFail {
    ghost from_gives = { λ _ e. e ≡ Memory };

    fn from(_: AllocFailed<T>) -> AvcFail {
        AvcFail::OutOfMemory
    }
}
