ghost use Rattle.std.specs.Prelude.{◌≡◌};
ghost use Rattle.hls_command.specs.declared.stop.Stop.TheVariants.{Broken};
ghost use Rattle.hls_command.specs.Parts.{ended, stop_of_tags};

use file_series::SeriesFail;
use flv_tags::FlvFail;

/// How the reading of a film ends. All that was read is written.
#[derive(Clone, Copy, Debug, Drop)]
pub(crate) enum End {
    /// It was read to its end.
    Whole,
    /// It is refused at that byte.
    Refused { at: u64 },
    /// The source failed.
    SourceFault,
}

/// Why no more of a film is cut.
#[derive(Clone, Copy, Drop)]
pub(crate) enum Stop {
    /// Its reading ends.
    Ended(End),
    /// The series failed, or memory was refused.
    Broken(SeriesFail),
}

impl From<SeriesFail> for Stop {
    ghost from_gives = { λ f e. e ≡ Broken f };

    fn from(fail: SeriesFail) -> Stop {
        Stop::Broken(fail)
    }
}

impl From<FlvFail> for Stop {
    ghost from_gives = { λ f e. e ≡ stop_of_tags f };

    fn from(fail: FlvFail) -> Stop {
        match fail {
            FlvFail::BadHeader { at } => Stop::Ended(End::Refused { at }),
            FlvFail::BadTag { at } => Stop::Ended(End::Refused { at }),
            FlvFail::BadBack {
                at,
                stored: _,
                real: _,
            } => Stop::Ended(End::Refused { at }),
            FlvFail::OutOfMemory => Stop::Broken(SeriesFail::OutOfMemory),
        }
    }
}

/// How the reading of a film ended, or why it can't be written.
pub(crate) fn ended(read: Result<(), Stop>) -> Result<End, SeriesFail>
    ensures { result ≡ ended read }
{
    match read {
        Ok(()) => Ok(End::Whole),
        Err(Stop::Ended(end)) => Ok(end),
        Err(Stop::Broken(fail)) => Err(fail),
    }
}
