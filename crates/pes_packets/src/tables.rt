//! The sections of the two tables (ISO/IEC 13818-1, 2.4.4), and the PIDs of this multiplex.
ghost use Rattle.std.specs.Prelude.{◌≡◌, ◌<◌, ◌≤◌, ◌++◌, if◌then◌else◌, [], length, IfOk, OnOk, OnErr};
ghost use Rattle.pes_packets.specs.Tables.{pat, pmt};

use crate::check::crc;
use av_unit::{Bytes, OutOfMemory};
use std::alloc::Global;

/// The PID of the association table (2.4.3.3).
pub const PAT_PID: u16 = 0;

/// The PID of the map. It is this multiplex's own choice, as are those of video and of audio.
pub const PMT_PID: u16 = 0x1000;

/// The PID of video.
pub const VIDEO_PID: u16 = 0x100;

/// The PID of audio.
pub const AUDIO_PID: u16 = 0x101;

// The association table: program 1, by the map on PID 1000 hex (ISO/IEC 13818-1, 2.4.4.3).
const PAT: [u8; 16] = [
    0x00, 0xB0, 0x0D, 0x00, 0x01, 0xC1, 0x00, 0x00, 0x00, 0x01, 0xF0, 0x00, 0x2A, 0xB1, 0x04, 0xB2,
];

// A map's entries: AVC on PID 100 hex, and AAC in ADTS on PID 101 hex (table 2-34).
const VIDEO: [u8; 5] = [0x1B, 0xE1, 0x00, 0xF0, 0x00];

const AUDIO: [u8; 5] = [0x0F, 0xE1, 0x01, 0xF0, 0x00];

/// Returns the association table's section, with its check.
pub fn pat_section() -> &'static [u8]
    ensures section { result.now ≡ pat }
    ensures short { length result.now ≤ 183 }
{
    &PAT
}

/// Returns `number` if `so` holds, else `other`.
fn choice(so: bool, number: u8, other: u8) -> u8
    ensures { result ≡ (if so then number else other) }
{
    if so { number } else { other }
}

/// Appends an entry if the stream is listed.
fn put_entry(listed: bool, entry: &[u8], section: &mut Bytes) -> Result<(), OutOfMemory>
    ensures ok { OnOk result (section.new ≡ section.old ++ (if listed then entry.now else [])) }
    ensures err { OnErr result (section.new ≡ section.old) }
{
    if listed {
        section.append(entry)
    } else {
        Ok(())
    }
}

/// Makes the map's section, with its check (2.4.4.8). `video` and `audio` tell whether it lists them;
/// `version` is 0 to 31.
pub fn pmt_section(
    alloc: Global,
    video: bool,
    audio: bool,
    version: u8,
) -> Result<Bytes, OutOfMemory>
    requires { version < 32 }
    ensures section { IfOk result (λ b. b ≡ pmt video audio version) }
    ensures short { IfOk result (λ b. length b ≤ 183) }
{
    let len = 13 + choice(video, 5, 0) + choice(audio, 5, 0);
    let clock = choice(video, 0, 1);
    let mut section = Bytes::new(alloc);
    section.append(&[
        0x02,
        0xB0,
        len,
        0,
        1,
        0xC1 + 2 * version,
        0,
        0,
        0xE1,
        clock,
        0xF0,
        0,
    ])?;
    put_entry(video, &VIDEO, &mut section)?;
    put_entry(audio, &AUDIO, &mut section)?;
    let check = crc(section.as_slice());
    section.append(&check.to_be_bytes())?;
    Ok(section)
}
