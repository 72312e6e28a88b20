//! One transport packet.
ghost use Rattle.std.specs.Prelude.{◌≡◌, ℕ, ◌+◌, ◌*◌, ◌<◌, ◌≤◌, ◌++◌, List, length, replicate, OnOk, OnErr};
ghost use Rattle.pes_packets.specs.Packet.{IsCounter, IsPid, IsTime, AreFlags, bit, head_bytes, pcr_bytes, told, tells, adaptation, room, packet};

use crate::PesFlags;
use av_unit::{Bytes, OutOfMemory};

// The number of bytes of a packet for adaptation field and payload.
const BODY: usize = 184;

const STUFFING: [u8; 184] = [0xFF; 184];

/// Appends `count` bytes FF.
pub(crate) fn put_stuffing(count: usize, out: &mut Bytes) -> Result<(), OutOfMemory>
    requires { count ≤ 184 }
    ensures ok { OnOk result (out.new ≡ out.old ++ replicate count 255) }
    ensures err { OnErr result (out.new ≡ out.old) }
{
    out.append(&STUFFING[..count])
}

/// Returns a flag's bit in a byte.
fn flag(set: bool, value: u8) -> u8
    ensures { result ≡ bit set * value }
{
    if set { value } else { 0 }
}

/// Appends the four bytes before adaptation field and payload.
pub(crate) fn put_head(
    start: bool,
    pid: u16,
    control: u8,
    counter: u8,
    out: &mut Bytes,
) -> Result<(), OutOfMemory>
    requires pid { IsPid pid }
    requires control { control < 4 }
    requires counter { IsCounter counter }
    ensures ok { OnOk result (out.new ≡ out.old ++ head_bytes start pid control counter) }
    ensures err { OnErr result (out.new ≡ out.old) }
{
    let start = flag(start, 64);
    let [high, low] = pid.to_be_bytes();
    out.append(&[0x47, start + high, low, control * 16 + counter])
}

/// Appends a program clock reference.
fn put_pcr(base: u64, out: &mut Bytes) -> Result<(), OutOfMemory>
    requires { IsTime base }
    ensures ok { OnOk result (out.new ≡ out.old ++ pcr_bytes base) }
    ensures err { OnErr result (out.new ≡ out.old) }
{
    let [_, _, a, b, c, d, e, f] = ((base << 15) + (63 << 9)).to_be_bytes();
    out.append(&[a, b, c, d, e, f])
}

/// Returns the number of bytes of an adaptation field behind its length, without stuffing.
#[tactic(auto, using(crate::proofs::Bits::told_length))]
fn told_len(flags: PesFlags) -> usize
    ensures value { result ≡ length (told flags) }
    ensures most { result ≤ 7 }
{
    match flags.pcr {
        Some(_) => 7,
        None => 1,
    }
}

/// Returns the number of bytes of payload that a packet has room for.
#[tactic(auto, using(std::proofs::lemmas::Bool::Decides::nat_tests), unfolding(crate::specs::Packet::room))]
pub(crate) fn room_for(flags: PesFlags) -> usize
    ensures value { result ≡ room flags }
    ensures some { 176 ≤ result }
    ensures most { result ≤ 184 }
{
    if flags.pcr.is_some() || flags.random || flags.jump {
        BODY - 1 - told_len(flags)
    } else {
        BODY
    }
}

/// Appends the content of an adaptation field.
fn put_told(flags: PesFlags, out: &mut Bytes) -> Result<(), OutOfMemory>
    requires { AreFlags flags }
    ensures ok { OnOk result (out.new ≡ out.old ++ told flags) }
    ensures left { OnErr result ((more : List ℕ) × (out.new ≡ out.old ++ more)) }
{
    let jump = flag(flags.jump, 0x80);
    let random = flag(flags.random, 0x40);
    match flags.pcr {
        None => out.append(&[jump + random]),
        Some(base) => {
            out.append(&[jump + random + 0x10])?;
            put_pcr(base, out)
        }
    }
}

/// Appends an adaptation field of `size` bytes.
#[tactic(auto, using(std::proofs::lemmas::Bool::Decides::nat_tests), unfolding(crate::specs::Packet::adaptation))]
fn put_adaptation(flags: PesFlags, size: usize, out: &mut Bytes) -> Result<(), OutOfMemory>
    requires flags { AreFlags flags }
    requires room { 184 ≤ size + room flags }
    requires most { size < 184 }
    ensures ok { OnOk result (out.new ≡ out.old ++ adaptation flags size) }
    ensures left { OnErr result ((more : List ℕ) × (out.new ≡ out.old ++ more)) }
{
    if size == 0 {
        return Ok(());
    }
    if size == 1 {
        return out.append(&[0]);
    }
    out.append(&[(size - 1) as u8])?;
    put_told(flags, out)?;
    put_stuffing(size - 1 - told_len(flags), out)
}

/// Appends a packet with a payload that it has room for.
#[tactic(auto, using(std::proofs::lemmas::Bool::Decides::nat_tests), unfolding(crate::specs::Packet::packet))]
pub(crate) fn put_packet(
    pid: u16,
    counter: u8,
    start: bool,
    flags: PesFlags,
    payload: &[u8],
    out: &mut Bytes,
) -> Result<(), OutOfMemory>
    requires pid { IsPid pid }
    requires counter { IsCounter counter }
    requires flags { AreFlags flags }
    requires some { 0 < length payload.now }
    requires room { length payload.now ≤ room flags }
    ensures ok { OnOk result (out.new ≡ out.old ++ packet pid counter start flags payload.now) }
    ensures left { OnErr result ((more : List ℕ) × (out.new ≡ out.old ++ more)) }
{
    let size = BODY - payload.len();
    let control = if size == 0 { 1 } else { 3 };
    put_head(start, pid, control, counter, out)?;
    put_adaptation(flags, size, out)?;
    out.append(payload)
}
