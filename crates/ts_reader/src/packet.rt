//! The fields of one packet.
ghost use Rattle.std.specs.Prelude.{◌≡◌, ◌==◌, ◌<◌, length, drop, IfSome};
ghost use Rattle.std.specs.List.{list_all};
ghost use Rattle.ts_reader.specs.Fields.{counter_in, is_plain, payload_at, pid_in, starts};

/// The bytes of a packet.
pub(crate) const PACKET: usize = 188;

/// Gives the PID.
pub(crate) fn pid_of(packet: &[u8]) -> u16
    requires { length packet.now ≡ 188 }
    ensures { result ≡ pid_in packet.now }
{
    (packet[1] % 32) as u16 * 256 + packet[2] as u16
}

/// Gives the continuity counter.
pub(crate) fn counter_of(packet: &[u8]) -> u8
    requires { length packet.now ≡ 188 }
    ensures value { result ≡ counter_in packet.now }
    ensures most { result < 16 }
{
    packet[3] % 16
}

/// Tells whether a unit starts in the packet.
pub(crate) fn has_start(packet: &[u8]) -> bool
    requires { length packet.now ≡ 188 }
    ensures { result ≡ starts packet.now }
{
    packet[1] / 64 % 2 == 1
}

/// Tells whether the bits for an error, priority and scrambling are 0.
pub(crate) fn has_no_marks(packet: &[u8]) -> bool
    requires { length packet.now ≡ 188 }
    ensures { result ≡ is_plain packet.now }
{
    packet[1] / 128 == 0 && packet[1] / 32 % 2 == 0 && packet[3] / 64 == 0
}

// Tells whether all bytes are FF.
fn is_stuffing(bytes: &[u8]) -> bool
    ensures { result ≡ list_all (λ b. b == 255) bytes.now }
{
    bytes.iter().all(|byte| *byte == 0xFF)
}

// Gives the bytes after the first `count`, or none.
fn after(bytes: &[u8], count: usize) -> &[u8]
    ensures { result.now ≡ drop count bytes.now }
{
    &bytes[count.min(bytes.len())..]
}

/// Gives the place of the payload, which has at least one byte, if the fields before it are of the forms that
/// are read. With `clock` a clock reference must stand before it.
#[tactic(auto, using(std::proofs::lemmas::Bool::Decides::nat_tests), unfolding(crate::specs::Fields::payload_at))]
pub(crate) fn payload_place(packet: &[u8], clock: bool) -> Option<usize>
    requires { length packet.now ≡ 188 }
    ensures value { result ≡ payload_at clock packet.now }
    ensures within { IfSome result (λ n. n < 188) }
{
    let control = packet[3] / 16 % 4;
    if control == 1 {
        return if clock { None } else { Some(4) };
    }
    let len = packet[4] as usize;
    if control != 3 || len > 182 || (clock && len < 7) {
        return None;
    }
    let passed = if clock { 7 } else { 1 };
    if is_stuffing(after(&packet[5..5 + len], passed)) {
        Some(5 + len)
    } else {
        None
    }
}
