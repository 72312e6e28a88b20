//! Recognises the packets of tables, by a comparison with the table as it would be written.
ghost use Rattle.std.specs.Prelude.{◌≡◌, length, option_map, IfOk};
ghost use Rattle.ts_reader.specs.Sections.{is_pat, is_pmt, listed_in};
ghost use Rattle.ts_reader.specs.Sound.{listed_of};

use crate::packet::counter_of;
use av_unit::{Bytes, OutOfMemory};
use pes_packets::{PAT_PID, PMT_PID, pat_section, pmt_section, put_section};
use std::alloc::Global;

/// The streams that a map lists.
#[derive(Clone, Copy)]
pub(crate) struct Streams {
    pub video: bool,
    pub audio: bool,
}

/// Tells whether the packet is the association table's.
pub(crate) fn has_pat(packet: &[u8], alloc: Global) -> Result<bool, OutOfMemory>
    requires { length packet.now ≡ 188 }
    ensures { IfOk result (λ b. b ≡ is_pat packet.now) }
{
    let mut text = Bytes::new(alloc);
    put_section(PAT_PID, counter_of(packet), pat_section(), &mut text)?;
    Ok(text.as_slice() == packet)
}

// Tells whether the packet is that of a map of these streams.
fn has_pmt(packet: &[u8], streams: Streams, alloc: Global) -> Result<bool, OutOfMemory>
    requires { length packet.now ≡ 188 }
    ensures { IfOk result (λ b. b ≡ is_pmt streams.video streams.audio packet.now) }
{
    let Streams { video, audio } = streams;
    let section = pmt_section(alloc, video, audio, packet[10] / 2 % 32)?;
    let mut text = Bytes::new(alloc);
    put_section(PMT_PID, counter_of(packet), section.as_slice(), &mut text)?;
    Ok(text.as_slice() == packet)
}

/// Gives the streams that the packet's map lists, if it has one.
#[tactic(auto, unfolding(crate::specs::Sections::listed_in))]
pub(crate) fn streams_in(packet: &[u8], alloc: Global) -> Result<Option<Streams>, OutOfMemory>
    requires { length packet.now ≡ 188 }
    ensures { IfOk result (λ s. option_map listed_of s ≡ listed_in packet.now) }
{
    let both = Streams {
        video: true,
        audio: true,
    };
    if has_pmt(packet, both, alloc)? {
        return Ok(Some(both));
    }
    let pictures = Streams {
        video: true,
        audio: false,
    };
    if has_pmt(packet, pictures, alloc)? {
        return Ok(Some(pictures));
    }
    let sound = Streams {
        video: false,
        audio: true,
    };
    if has_pmt(packet, sound, alloc)? {
        return Ok(Some(sound));
    }
    let none = Streams {
        video: false,
        audio: false,
    };
    if has_pmt(packet, none, alloc)? {
        return Ok(Some(none));
    }
    Ok(None)
}
