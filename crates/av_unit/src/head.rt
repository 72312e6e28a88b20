use crate::Kind;

/// The configurations of a stream, of which one each is in effect at a time: its metadata, the video
/// decoder's and the audio decoder's.
#[derive(Clone, Copy)]
pub enum Slot {
    Meta,
    Video,
    Audio,
}

/// A player's switches: whether it wants audio and whether it wants video.
#[derive(Clone, Copy, Debug)]
pub struct Want {
    pub audio: bool,
    pub video: bool,
}

/// An item without its unit: a marker, or the kind of a unit.
#[derive(Clone, Copy, PartialEq, Eq)]
pub enum Head {
    Begin,
    End,
    Unit(Kind),
}
