//! Why a unit isn't written.
ghost use Rattle.std.specs.Prelude.{◌≡◌};
ghost use Rattle.ts_writer.specs.declared.stop.Stop.TheVariants.{Out, Memory};
ghost use Rattle.ts_writer.specs.Frames.{stop_avc, stop_aac};

use crate::Left;
use aac_adts::AacFail;
use av_unit::OutOfMemory;
use avc_annexb::AvcFail;

/// A unit is left out, or memory was refused.
#[derive(Clone, Copy, Drop)]
pub enum Stop {
    Out(Left),
    Memory,
}

impl From<Left> for Stop {
    ghost from_gives = { λ left e. e ≡ Out left };

    fn from(left: Left) -> Stop {
        Stop::Out(left)
    }
}

impl From<OutOfMemory> for Stop {
    ghost from_gives = { λ _ e. e ≡ Memory };

    fn from(_: OutOfMemory) -> Stop {
        Stop::Memory
    }
}

impl From<AvcFail> for Stop {
    ghost from_gives = { λ fail e. e ≡ stop_avc fail };

    fn from(fail: AvcFail) -> Stop {
        match fail {
            AvcFail::OutOfMemory => Stop::Memory,
            fail => Stop::Out(Left::Avc(fail)),
        }
    }
}

impl From<AacFail> for Stop {
    ghost from_gives = { λ fail e. e ≡ stop_aac fail };

    fn from(fail: AacFail) -> Stop {
        match fail {
            AacFail::OutOfMemory => Stop::Memory,
            fail => Stop::Out(Left::Aac(fail)),
        }
    }
}
