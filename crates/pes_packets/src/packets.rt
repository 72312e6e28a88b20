ghost use Rattle.std.specs.Prelude.{◌≡◌, ℕ, ◌≤◌, ◌<◌, ◌++◌, false, List, length, take, drop, IfOk, OnOk, OnErr};
ghost use Rattle.pes_packets.specs.Packet.{IsCounter, IsPid, AreFlags, section_text, pes_text, packets, cuts, silent, runs_of, counted};

use crate::PesFlags;
use crate::packet::{put_head, put_packet, put_stuffing, room_for};
use av_unit::{Bytes, OutOfMemory};

// The flags of a packet that isn't its PES packet's first: none.
const SILENT: PesFlags = PesFlags {
    pcr: None,
    random: false,
    jump: false,
};

/// Returns the first `count` bytes, or all if there are fewer.
fn first(bytes: &[u8], count: usize) -> &[u8]
    ensures { result.now ≡ take count bytes.now }
{
    &bytes[..count.min(bytes.len())]
}

/// Returns the bytes after the first `count`.
fn after(bytes: &[u8], count: usize) -> &[u8]
    ensures { result.now ≡ drop count bytes.now }
{
    &bytes[count.min(bytes.len())..]
}

/// Appends the packet of a section that fits one (ISO/IEC 13818-1, 2.4.4.1), and returns the next counter of
/// its PID. After a refusal, `out` begins with the bytes that it held before.
#[tactic(auto, unfolding(crate::specs::Packet::section_text))]
pub fn put_section(
    pid: u16,
    counter: u8,
    section: &[u8],
    out: &mut Bytes,
) -> Result<u8, OutOfMemory>
    requires pid { IsPid pid }
    requires counter { IsCounter counter }
    requires fits { length section.now ≤ 183 }
    ensures ok { OnOk result (out.new ≡ out.old ++ section_text pid counter section.now) }
    ensures next { IfOk result (λ n. n ≡ counted counter 1) }
    ensures left { OnErr result ((more : List ℕ) × (out.new ≡ out.old ++ more)) }
{
    put_head(true, pid, 1, counter, out)?;
    out.append(&[0])?;
    out.append(section)?;
    put_stuffing(183 - section.len(), out)?;
    Ok((counter + 1) % 16)
}

/// Appends the packets of a PES packet (2.4.3), and returns the next counter of its PID. The first packet's
/// adaptation field has the flags; a packet that the rest doesn't fill has one for its stuffing. Bytes are
/// copied in runs of up to 184. After a refusal, `out` begins with the bytes that it held before.
pub fn put_pes(
    pid: u16,
    counter: u8,
    flags: PesFlags,
    pes: &[u8],
    out: &mut Bytes,
) -> Result<u8, OutOfMemory>
    requires pid { IsPid pid }
    requires counter { IsCounter counter }
    requires flags { AreFlags flags }
    requires some { 0 < length pes.now }
    ensures ok { OnOk result (out.new ≡ out.old ++ pes_text pid counter flags pes.now) }
    ensures next { IfOk result (λ n. n ≡ counted counter (length (runs_of flags pes.now))) }
    ensures left { OnErr result ((more : List ℕ) × (out.new ≡ out.old ++ more)) }
{
    let room = room_for(flags);
    put_packet(pid, counter, true, flags, first(pes, room), out)?;
    put_rest(pid, (counter + 1) % 16, after(pes, room), out)
}

/// Appends the packets of the rest of a PES packet.
fn put_rest(pid: u16, counter: u8, rest: &[u8], out: &mut Bytes) -> Result<u8, OutOfMemory>
    requires pid { IsPid pid }
    requires counter { IsCounter counter }
    ensures ok { OnOk result (out.new ≡ out.old ++ packets pid counter false silent (cuts (length rest.now) 184 rest.now)) }
    ensures next { IfOk result (λ n. n ≡ counted counter (length (cuts (length rest.now) 184 rest.now))) }
    ensures left { OnErr result ((more : List ℕ) × (out.new ≡ out.old ++ more)) }
{
    let mut counter = counter;
    let mut left = rest;
    while !left.is_empty() {
        put_packet(pid, counter, false, SILENT, first(left, 184), out)?;
        counter = (counter + 1) % 16;
        left = after(left, 184);
    }
    Ok(counter)
}
