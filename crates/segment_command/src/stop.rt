ghost use Rattle.std.specs.Prelude.{◌≡◌};
ghost use Rattle.segment_command.specs.declared.stop.Fault.TheVariants.{Memory};
ghost use Rattle.segment_command.specs.declared.stop.Stop.TheVariants.{Broken};
ghost use Rattle.segment_command.specs.Parts.{ended, stop_of_cut, stop_of_tags};

use av_unit::OutOfMemory;
use flv_tags::FlvFail;
use hls_segments::CutFail;

/// Why segments can't be written.
#[derive(Clone, Copy, Drop)]
pub(crate) enum Fault {
    /// A file or the sink of the playlist failed.
    Sink,
    /// The house had no file.
    House,
    /// Memory was refused.
    Memory,
}

/// The ending of the reading of a film: the tags that were read before are written.
#[derive(Clone, Copy, Debug, Drop)]
pub(crate) enum End {
    /// It was read to its end.
    Whole,
    /// It is refused at that byte.
    Refused { at: u64 },
    /// A unit would begin a segment more than there may be.
    TooMany,
    /// The source failed.
    SourceFault,
}

/// Why no more of a film is cut.
#[derive(Clone, Copy, Drop)]
pub(crate) enum Stop {
    /// Its reading ends.
    Ended(End),
    /// Its segments can't be written.
    Broken(Fault),
}

impl From<OutOfMemory> for Fault {
    ghost from_gives = { λ _ e. e ≡ Memory };

    fn from(_: OutOfMemory) -> Fault {
        Fault::Memory
    }
}

impl From<OutOfMemory> for Stop {
    ghost from_gives = { λ _ e. e ≡ Broken Memory };

    fn from(_: OutOfMemory) -> Stop {
        Stop::Broken(Fault::Memory)
    }
}

impl From<Fault> for Stop {
    ghost from_gives = { λ f e. e ≡ Broken f };

    fn from(fault: Fault) -> Stop {
        Stop::Broken(fault)
    }
}

impl From<CutFail> for Stop {
    ghost from_gives = { λ f e. e ≡ stop_of_cut f };

    fn from(fail: CutFail) -> Stop {
        match fail {
            CutFail::TooMany => Stop::Ended(End::TooMany),
            CutFail::OutOfMemory => Stop::Broken(Fault::Memory),
        }
    }
}

impl From<FlvFail> for Stop {
    ghost from_gives = { λ f e. e ≡ stop_of_tags f };

    fn from(fail: FlvFail) -> Stop {
        match fail {
            FlvFail::BadHeader { at } => Stop::Ended(End::Refused { at }),
            FlvFail::BadTag { at } => Stop::Ended(End::Refused { at }),
            FlvFail::BadBack {
                at,
                stored: _,
                real: _,
            } => Stop::Ended(End::Refused { at }),
            FlvFail::OutOfMemory => Stop::Broken(Fault::Memory),
        }
    }
}

/// How a film ended that was read, or why its segments can't be written.
pub(crate) fn ended(read: Result<(), Stop>) -> Result<End, Fault>
    ensures { result ≡ ended read }
{
    match read {
        Ok(()) => Ok(End::Whole),
        Err(Stop::Ended(end)) => Ok(end),
        Err(Stop::Broken(fault)) => Err(fault),
    }
}
