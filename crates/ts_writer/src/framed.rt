use av_unit::Bytes;

/// A unit as a PES packet: whether it is video, whether a decoder can begin at it, its decoding time in units
/// of 1/90,000 second, and its bytes.
#[derive(Drop)]
pub struct Framed {
    pub video: bool,
    pub random: bool,
    pub dts: u64,
    pub pes: Bytes,
}
