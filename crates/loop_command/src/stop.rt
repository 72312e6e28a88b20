ghost use Rattle.std.specs.Prelude.{◌≡◌};
ghost use Rattle.loop_command.specs.declared.stop.Stop.TheVariants.{Memory};
ghost use Rattle.loop_command.specs.Rounds.{stop_within};

use av_unit::OutOfMemory;

/// How many bytes of a film may be read.
pub(crate) const MOST_BYTES: u64 = 1 << 28;

/// Why a run ends before the film has come back.
#[derive(Clone, Copy)]
pub(crate) enum Stop {
    /// The film is refused at that byte.
    Refused { at: u64 },
    /// The film's source failed.
    Source,
    /// The sink failed.
    Sink,
    /// Memory was refused.
    Memory,
    /// The film won't come back, or not within its rounds.
    Unfinished,
}

impl From<OutOfMemory> for Stop {
    ghost from_gives = { λ _ e. e ≡ Memory };

    fn from(_: OutOfMemory) -> Stop {
        Stop::Memory
    }
}

/// Why a run ends, by why a step of a client's command did: a place beyond the bytes that may be read is
/// that of the first behind them.
pub(crate) fn within(stop: client_command::Stop) -> Stop
    ensures { result ≡ stop_within stop }
{
    match stop {
        client_command::Stop::Client => Stop::Unfinished,
        client_command::Stop::Refused { at } => Stop::Refused {
            at: at.min(MOST_BYTES),
        },
        client_command::Stop::Source => Stop::Source,
        client_command::Stop::Sink => Stop::Sink,
        client_command::Stop::Memory => Stop::Memory,
    }
}
