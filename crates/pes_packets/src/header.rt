ghost use Rattle.std.specs.Prelude.{◌≡◌, ℕ, ◌<◌, ◌^◌, ◌++◌, List, OnOk, OnErr};
ghost use Rattle.pes_packets.specs.Header.{header, time_bytes};
ghost use Rattle.pes_packets.specs.Packet.{IsTime};

use av_unit::{Bytes, OutOfMemory};

/// Appends a time behind a prefix of four bits, in 5 bytes.
fn put_time(prefix: u64, time: u64, out: &mut Bytes) -> Result<(), OutOfMemory>
    requires prefix { prefix < 16 }
    requires time { IsTime time }
    ensures ok { OnOk result (out.new ≡ out.old ++ time_bytes prefix time) }
    ensures err { OnErr result (out.new ≡ out.old) }
{
    let high = (prefix << 36) + ((time >> 30) << 33) + (1 << 32);
    let low = ((time >> 15) % 32_768 << 17) + (1 << 16) + (time % 32_768 << 1) + 1;
    let [_, _, _, a, b, c, d, e] = (high + low).to_be_bytes();
    out.append(&[a, b, c, d, e])
}

/// Appends the header of a PES packet (ISO/IEC 13818-1, 2.4.3.6). It has the stream id and the times, in
/// units of 1/90,000 second, below 2^33. Its length is 0 or the number of bytes behind the length. The
/// decoding time is written if it isn't the presentation time. After a refusal, `out` begins with the bytes
/// that it held before.
#[tactic(auto, using(std::proofs::lemmas::Bool::Decides::nat_tests), unfolding(crate::specs::Header::header))]
pub fn pes_header(
    id: u8,
    pts: u64,
    dts: u64,
    length: u16,
    out: &mut Bytes,
) -> Result<(), OutOfMemory>
    requires pts { IsTime pts }
    requires dts { IsTime dts }
    ensures ok { OnOk result (out.new ≡ out.old ++ header id pts dts length) }
    ensures left { OnErr result ((more : List ℕ) × (out.new ≡ out.old ++ more)) }
{
    let [high, low] = length.to_be_bytes();
    out.append(&[0, 0, 1, id, high, low])?;
    if pts == dts {
        out.append(&[0x80, 0x80, 5])?;
        return put_time(2, pts, out);
    }
    out.append(&[0x80, 0xC0, 10])?;
    put_time(3, pts, out)?;
    put_time(1, dts, out)
}
