ghost use Rattle.std.specs.Prelude.{◌≡◌};
ghost use Rattle.file_commands.specs.declared.fail.Fail.TheVariants.{OutOfMemory as Memory};

use av_unit::OutOfMemory;

/// The reason why a file isn't read to its end.
#[derive(Clone, Copy, Drop)]
pub(crate) enum Fail {
    /// It is refused at that byte.
    Refused { at: u64 },
    /// The source failed.
    SourceFault,
    /// The sink failed.
    SinkFault,
    /// Memory was refused.
    OutOfMemory,
}

impl From<OutOfMemory> for Fail {
    ghost from_gives = { λ _ e. e ≡ Memory };

    fn from(_: OutOfMemory) -> Fail {
        Fail::OutOfMemory
    }
}
