use aac_adts::AacFail;
use avc_annexb::AvcFail;

/// Why a unit is left out: the first cause found in it.
#[derive(Clone, Copy, Drop)]
pub enum Left {
    /// A video configuration that isn't AVC's, a video frame that isn't AVC, audio that isn't AAC, or a unit
    /// that isn't a packet of type 1.
    Codec,
    /// No configuration is in force.
    NoConfig,
    /// It has no NAL unit but access unit delimiters, or no raw bytes.
    Empty,
    /// AVC that can't be read. A place counts from byte 5 of the configuration or video frame. If the unit
    /// has fewer than 5 bytes, `Short` has its length instead.
    Avc(AvcFail),
    /// AAC that can't be read.
    Aac(AacFail),
}

/// The result for an item.
#[derive(Clone, Copy, Drop)]
pub enum Wrote {
    /// It is a unit and was written.
    Unit,
    /// It adds no bytes: a marker, metadata, other data, or a configuration that was read.
    Nothing,
    /// It was left out.
    LeftOut(Left),
}
