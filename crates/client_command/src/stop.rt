ghost use Rattle.std.specs.Prelude.{◌≡◌};
ghost use Rattle.client_command.specs.Turned.{stop_of};
ghost use Rattle.client_command.specs.declared.stop.Stop.TheVariants.{Memory};

use av_unit::OutOfMemory;
use flv_tags::FlvFail;
use thiserror::Error;

/// The outcome of a step of a command.
#[derive(Clone, Copy, Drop)]
pub(crate) enum Step {
    /// Something moved.
    Moved,
    /// Nothing was to be done.
    Idle,
    /// The film is whole, or the stream is over.
    Over,
}

/// Why a command ends before.
#[derive(Clone, Copy, Debug, Drop, Error)]
pub enum Stop {
    /// The client has ended.
    #[error("the client has ended")]
    Client,
    /// The film is refused at that byte.
    #[error("the film is refused, at byte {at}")]
    Refused { at: u64 },
    /// The film's source failed.
    #[error("the film failed")]
    Source,
    /// The sink failed.
    #[error("the output failed")]
    Sink,
    /// Memory was refused.
    #[error("out of memory")]
    Memory,
}

impl From<OutOfMemory> for Stop {
    ghost from_gives = { λ _ e. e ≡ Memory };

    fn from(_: OutOfMemory) -> Stop {
        Stop::Memory
    }
}

impl From<FlvFail> for Stop {
    ghost from_gives = { λ f e. e ≡ stop_of f };

    fn from(fail: FlvFail) -> Stop {
        match fail {
            FlvFail::BadHeader { at } => Stop::Refused { at },
            FlvFail::BadTag { at } => Stop::Refused { at },
            FlvFail::BadBack {
                at,
                stored: _,
                real: _,
            } => Stop::Refused { at },
            FlvFail::OutOfMemory => Stop::Memory,
        }
    }
}
