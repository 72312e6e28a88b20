/// The content of the adaptation field of a PES packet's first packet (ISO/IEC 13818-1, 2.4.3.4 and 2.4.3.5).
///
/// `pcr` is the base of a program clock reference, in units of 1/90,000 second, below 2^33. `random` says
/// that a decoder can begin here, and `jump` that the clock doesn't go on from the reference before it.
#[derive(Clone, Copy)]
pub struct PesFlags {
    pub pcr: Option<u64>,
    pub random: bool,
    pub jump: bool,
}
