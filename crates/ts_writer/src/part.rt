//! The parts of a transport stream.
ghost use Rattle.std.specs.Prelude.{◌≡◌};
ghost use Rattle.ts_writer.specs.Parts.{are_same};

use av_unit::Bytes;
use pes_packets::PesFlags;

/// The streams that a map table lists.
#[derive(Clone, Copy, Drop)]
pub struct Streams {
    pub video: bool,
    pub audio: bool,
}

impl Streams {
    /// Tells whether they are the same.
    pub fn is(self, other: Streams) -> bool
        ensures { result ≡ are_same self other }
    {
        self.video == other.video && self.audio == other.audio
    }
}

/// A PES packet: whether it is video or audio, the fields of its first packet, and its bytes.
#[derive(Drop)]
pub struct Pes {
    pub video: bool,
    pub flags: PesFlags,
    pub bytes: Bytes,
}

/// A part: the beginning of a broadcast, which has no bytes, both tables, or the packets of a PES packet.
#[derive(Drop)]
pub enum Part {
    Start,
    Tables(Streams),
    Pes(Pes),
}
