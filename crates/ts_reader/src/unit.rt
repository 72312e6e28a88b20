use av_unit::Bytes;

/// The content of one PES packet: an access unit of AVC as a byte stream, or an ADTS frame. Its presentation
/// and decoding times are in units of 1/90,000 second, below 2^33 (2.4.3.7).
#[derive(Drop)]
pub struct TsUnit {
    pub video: bool,
    pub pts: u64,
    pub dts: u64,
    pub payload: Bytes,
}
