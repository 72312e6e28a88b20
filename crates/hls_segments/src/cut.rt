ghost use Rattle.std.specs.Prelude.{◌≡◌};
ghost use Rattle.hls_segments.specs.declared.cut.CutFail.TheVariants.{OutOfMemory as Memory};

use av_unit::OutOfMemory;
use thiserror::Error;

/// The effect of an item on the segments of those before it.
#[derive(Clone, Copy, Drop)]
pub enum Cut {
    /// Its bytes begin the first segment.
    First,
    /// Its bytes begin a further segment.
    Next,
    /// Its bytes go into the last segment.
    Same,
    /// It has no bytes.
    Nothing,
}

/// Why an item isn't cut.
#[derive(Clone, Copy, Debug, Drop, Error)]
pub enum CutFail {
    /// It would begin a segment more than 100,000.
    #[error("more than 100,000 segments")]
    TooMany,
    /// Memory was refused.
    #[error("out of memory")]
    OutOfMemory,
}

impl From<OutOfMemory> for CutFail {
    ghost from_gives = { λ _ e. e ≡ Memory };

    fn from(_: OutOfMemory) -> CutFail {
        CutFail::OutOfMemory
    }
}
