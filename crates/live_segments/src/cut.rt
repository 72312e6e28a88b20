ghost use Rattle.std.specs.Prelude.{◌≡◌};
ghost use Rattle.live_segments.specs.declared.cut.CutFail.TheVariants.{OutOfMemory as Memory};

use av_unit::OutOfMemory;
use thiserror::Error;

/// The effect of an item on the segments of the items before it.
#[derive(Clone, Copy, Debug, Drop, PartialEq, Eq)]
pub enum Cut {
    /// Its bytes begin the first segment.
    First,
    /// Its bytes begin a further segment.
    Next,
    /// Its bytes begin a further segment, which is marked: another broadcast, or a step back in time.
    Marked,
    /// Its bytes go into the open segment.
    Same,
    /// It has no bytes, or isn't kept.
    Nothing,
}

/// Why an item isn't cut.
#[derive(Clone, Copy, Debug, Drop, PartialEq, Eq, Error)]
pub enum CutFail {
    /// 2^63 segments have left the list.
    #[error("too many segments")]
    TooMany,
    /// Memory was refused.
    #[error("out of memory")]
    OutOfMemory,
}

impl From<OutOfMemory> for CutFail {
    ghost from_gives = { λ _ e. e ≡ Memory };

    fn from(_: OutOfMemory) -> CutFail {
        CutFail::OutOfMemory
    }
}
