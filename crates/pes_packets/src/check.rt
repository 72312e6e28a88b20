ghost use Rattle.std.specs.Prelude.{◌≡◌, ◌*◌, ◌^◌, bit_xor};
ghost use Rattle.pes_packets.specs.Crc.{shifted, shifted_by, crc_of};

// The polynomial of a section's check, without its highest term.
const POLYNOMIAL: u32 = 0x04C1_1DB7;

/// Shifts the register by one bit.
#[tactic(auto, using(std::proofs::lemmas::Bool::Decides::nat_tests), unfolding(crate::specs::Crc::shifted))]
fn shift(register: u32) -> u32
    ensures { result ≡ shifted register }
{
    if register < 1 << 31 {
        register << 1
    } else {
        (register << 1) ^ POLYNOMIAL
    }
}

/// Returns the register after a byte.
fn step(register: u32, byte: u8) -> u32
    ensures { result ≡ shifted_by 8 (bit_xor register (byte * 2 ^ 24)) }
{
    let mut register = register ^ ((byte as u32) << 24);
    for _ in 0..8_u8 {
        register = shift(register);
    }
    register
}

/// Returns the check of a section's bytes (ISO/IEC 13818-1, annex A). It is 0 over a section with its check.
pub fn crc(bytes: &[u8]) -> u32
    ensures { result ≡ crc_of bytes.now }
{
    let mut register = 0xFFFF_FFFF;
    for byte in bytes {
        register = step(register, *byte);
    }
    register
}
