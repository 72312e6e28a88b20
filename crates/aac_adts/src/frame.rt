ghost use Rattle.std.specs.Prelude.{◌≡◌, ℕ, ◌<◌, ◌≤◌, ◌++◌, List, length, drop, slice_index, IfOk, IfErr, OnOk, OnErr, Ok, Err};
ghost use Rattle.aac_adts.specs.Config.{Config, IsConfig};
ghost use Rattle.aac_adts.specs.Frame.{frame, head_bytes, IsRaw};
ghost use Rattle.aac_adts.specs.Reading.{adts_of, bad_byte, channels_of, length_of};

use crate::{AacFail, Asc};
use av_unit::{Bytes, OutOfMemory};

// The number of bytes of a header, and the largest number of raw bytes of a frame: its length has 13 bits.
const HEADER: usize = 7;

const MOST_RAW: usize = 8_184;

/// Appends a frame of raw bytes: an ADTS header of 7 bytes, without a checksum, and the raw bytes. A frame
/// has at most 8,184 raw bytes. After a refusal, `out` begins with the bytes that it held before.
pub fn adts(asc: Asc, raw: &[u8], out: &mut Bytes) -> Result<(), AacFail>
    requires { 0 < length raw.now }
    ensures ok { OnOk result (out.new ≡ out.old ++ frame asc raw.now) }
    ensures long { 8184 < length raw.now → result ≡ Err (AacFail.TooLong (length raw.now)) }
    ensures short { length raw.now ≤ 8184 → IfErr result (λ e. e ≡ AacFail.OutOfMemory) }
    ensures err { OnErr result ((more : List ℕ) × (out.new ≡ out.old ++ more)) }
{
    if raw.len() > MOST_RAW {
        return Err(AacFail::TooLong { n: raw.len() });
    }
    put_head(asc, raw.len() + HEADER, out)?;
    out.append(raw)?;
    Ok(())
}

/// Appends the header of a frame of `len` bytes.
fn put_head(asc: Asc, len: usize, out: &mut Bytes) -> Result<(), OutOfMemory>
    requires { len < 8192 }
    ensures ok { OnOk result (out.new ≡ out.old ++ head_bytes asc len) }
    ensures err { OnErr result (out.new ≡ out.old) }
{
    let Asc {
        object,
        index,
        channels,
    } = asc;
    let fixed = (0xFFF1 << 40)
        + ((object as u64 - 1) << 38)
        + ((index as u64) << 34)
        + ((channels as u64) << 30);
    let head = fixed + ((len as u64) << 13) + (0x7FF << 2);
    out.append(&head.to_be_bytes()[1..])
}

/// Reads a frame that fills the bytes. Returns its configuration and the number of its raw bytes, which stand
/// after the 7 bytes of the header. A header is read as `adts` writes it, with any number of raw bytes from 1
/// to 8,184.
pub fn read_adts(bytes: &[u8]) -> Result<(Asc, usize), AacFail>
    ensures exact { result ≡ adts_of bytes.now }
    ensures found { IfOk result (λ x. IsConfig x.0 × IsRaw x.1 × (x.1 ≡ length (drop 7 bytes.now)) × (bytes.now ≡ frame x.0 (drop 7 bytes.now))) }
    ensures only { (a : Config) (raw : List ℕ) → IsConfig a → IsRaw (length raw) → bytes.now ≡ frame a raw → result ≡ Ok (a, length raw) }
{
    if let Some(at) = bad_place(bytes) {
        return Err(AacFail::BadAdts { at });
    }
    let asc = Asc {
        object: byte(bytes, 2) / 64 + 1,
        index: byte(bytes, 2) / 4 % 16,
        channels: channels_in(bytes),
    };
    Ok((asc, bytes.len() - HEADER))
}

/// Returns a byte, or 0 past the end.
fn byte(bytes: &[u8], at: usize) -> u8
    ensures { result ≡ slice_index bytes.now at }
{
    bytes.get(at).copied().unwrap_or(0)
}

/// Returns the channel configuration in a header.
fn channels_in(bytes: &[u8]) -> u8
    ensures { result ≡ channels_of bytes.now }
{
    byte(bytes, 2) % 2 * 4 + byte(bytes, 3) / 64
}

/// Returns the length of a frame in its header.
fn length_in(bytes: &[u8]) -> usize
    ensures { result ≡ length_of bytes.now }
{
    let high = byte(bytes, 3) % 4;
    high as usize * 2_048 + byte(bytes, 4) as usize * 8 + byte(bytes, 5) as usize / 32
}

/// Finds the place of the first byte that isn't a header's.
#[tactic(auto, using(std::proofs::lemmas::Bool::Decides::nat_tests), unfolding(crate::specs::Reading::bad_byte))]
fn bad_place(bytes: &[u8]) -> Option<usize>
    ensures { result ≡ bad_byte bytes.now }
{
    if byte(bytes, 0) != 0xFF {
        return Some(0);
    }
    if byte(bytes, 1) != 0xF1 {
        return Some(1);
    }
    let third = byte(bytes, 2);
    if bytes.len() < 3 || third / 4 % 16 > 12 || third / 2 % 2 == 1 {
        return Some(2);
    }
    if channels_in(bytes) == 0 || byte(bytes, 3) / 4 % 16 != 0 {
        return Some(3);
    }
    if bytes.len() <= HEADER || length_in(bytes) != bytes.len() {
        return Some(3);
    }
    if byte(bytes, 5) % 32 != 31 {
        return Some(5);
    }
    if byte(bytes, 6) != 0xFC {
        return Some(6);
    }
    None
}
