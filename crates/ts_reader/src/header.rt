//! The header of a PES packet.
ghost use Rattle.std.specs.Prelude.{◌≡◌, ◌<◌, ◌≤◌, ◌^◌, length, option_map, IfSome};
ghost use Rattle.ts_reader.specs.Times.{begins, header_of, is_time, length_in, one_time, time_in, two_times};
ghost use Rattle.ts_reader.specs.Sound.{told_of};

// The bytes of a header with a presentation time, and with both times.
const WITH_ONE: usize = 14;

const WITH_TWO: usize = 19;

/// The fields of a header: the times, PES_packet_length, and the length of the header itself in bytes.
#[derive(Clone, Copy)]
pub(crate) struct Head {
    pub pts: u64,
    pub dts: u64,
    pub length: usize,
    pub size: usize,
}

// Tells whether five bytes are a time after these four bits.
fn has_time(bytes: &[u8], prefix: u8) -> bool
    requires { 5 ≤ length bytes.now }
    ensures { result ≡ is_time prefix bytes.now }
{
    bytes[0] / 16 == prefix && bytes[0] % 2 == 1 && bytes[2] % 2 == 1 && bytes[4] % 2 == 1
}

// Gives the time in them.
fn time_of(bytes: &[u8]) -> u64
    requires { 5 ≤ length bytes.now }
    ensures { result ≡ time_in bytes.now }
{
    (bytes[0] / 2 % 8) as u64 * 1_073_741_824
        + bytes[1] as u64 * 4_194_304
        + (bytes[2] / 2) as u64 * 32_768
        + bytes[3] as u64 * 128
        + (bytes[4] / 2) as u64
}

// Gives PES_packet_length.
fn length_of(payload: &[u8]) -> usize
    requires { 14 ≤ length payload.now }
    ensures { result ≡ length_in payload.now }
{
    payload[4] as usize * 256 + payload[5] as usize
}

// Tells whether a PES packet of the stream begins here.
fn has_begun(payload: &[u8], video: bool) -> bool
    requires { 14 ≤ length payload.now }
    ensures { result ≡ begins video payload.now }
{
    let id = if video { 0xE0 } else { 0xC0 };
    payload[0] == 0
        && payload[1] == 0
        && payload[2] == 1
        && payload[3] == id
        && payload[6] == 0x80
        && (!video || length_of(payload) == 0)
}

// Reads a header with a presentation time alone.
fn with_one(payload: &[u8]) -> Option<Head>
    requires { 14 ≤ length payload.now }
    ensures { option_map told_of result ≡ one_time payload.now }
{
    let time = &payload[9..];
    if !has_time(time, 2) {
        return None;
    }
    Some(Head {
        pts: time_of(time),
        dts: time_of(time),
        length: length_of(payload),
        size: WITH_ONE,
    })
}

// Reads a header with both times.
fn with_two(payload: &[u8]) -> Option<Head>
    requires { 14 ≤ length payload.now }
    ensures { option_map told_of result ≡ two_times payload.now }
{
    if payload.len() < WITH_TWO {
        return None;
    }
    let (first, second) = (&payload[9..], &payload[14..]);
    if !has_time(first, 3) || !has_time(second, 1) || time_of(first) == time_of(second) {
        return None;
    }
    Some(Head {
        pts: time_of(first),
        dts: time_of(second),
        length: length_of(payload),
        size: WITH_TWO,
    })
}

/// Reads the header at the front of a payload, if all of it is there.
#[tactic(auto, using(std::proofs::lemmas::Bool::Decides::nat_tests), unfolding(crate::specs::Times::header_of))]
pub(crate) fn read_header(payload: &[u8], video: bool) -> Option<Head>
    ensures value { option_map told_of result ≡ header_of video payload.now }
    ensures within { IfSome result (λ h. h.size ≤ length payload.now) }
    ensures short { IfSome result (λ h. h.length < 2 ^ 16) }
{
    if payload.len() < WITH_ONE || !has_begun(payload, video) {
        return None;
    }
    if payload[7] == 0x80 && payload[8] == 5 {
        return with_one(payload);
    }
    if video && payload[7] == 0xC0 && payload[8] == 10 {
        return with_two(payload);
    }
    None
}
