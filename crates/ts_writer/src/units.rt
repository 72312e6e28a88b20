//! Units as PES packets.
ghost use Rattle.std.specs.Prelude.{◌≡◌, ◌<◌, ◌*◌, ◌%◌, ◌^◌, ◌++◌, ℕ, List, [], length, drop, IfOk, IfErr, OnOk, OnErr};
ghost use Rattle.std.specs.Prelude.{Ok as AnOk};
ghost use Rattle.av_unit.specs.Classes.{high as high_of, low as low_of, second_is};
ghost use Rattle.avc_annexb.specs.AnnexB.{kept_of};
ghost use Rattle.ts_writer.specs.Frames.{Frame, Gives, IsCause, IsFramed, framed_of, video_config, audio_config, shown, clock, delimiter, sets_if, access_unit, of_avc, some_text, picture, units_text, video_frame, some_raw, audio_frame};
ghost use Rattle.ts_writer.specs.Held.{IsWithin};

use crate::Left;
use crate::framed::Framed;
use crate::stop::Stop;
use aac_adts::{AacFail, Asc, adts};
use av_unit::{Bytes, OutOfMemory};
use avc_annexb::{AvcFail, Avcc, put_nals, to_annexb};
use pes_packets::pes_header;
use relay_base::be24;
use std::alloc::Global;

// Codecs by the numbers of FLV (Adobe FLV 10.1, E.4.2 and E.4.3).
const AVC: u8 = 7;

const AAC: u8 = 10;

// The longest raw data block of a frame, in bytes.
const MOST_RAW: usize = 8_184;

// The number of bytes between the length field of a PES packet and the raw data block: the rest of the PES
// header, and the ADTS header.
const AHEAD: usize = 8 + 7;

// Room for the bytes of a PES packet before its unit: both headers, an access unit delimiter and a start
// code.
const HEADS: usize = 32;

// The number of times that fit in 33 bits.
const TIMES: u64 = 1 << 33;

/// Gives the bytes after the first.
fn after(bytes: &[u8], count: usize) -> &[u8]
    ensures { result.now ≡ drop count bytes.now }
{
    &bytes[count.min(bytes.len())..]
}

/// Gives the low four bits of the first byte.
fn low(body: &[u8]) -> u8
    ensures { result ≡ low_of body.now }
{
    match body {
        [first, ..] => first % 16,
        [] => 0,
    }
}

/// Gives the high four bits of the first byte.
fn high(body: &[u8]) -> u8
    ensures { result ≡ high_of body.now }
{
    match body {
        [first, ..] => first / 16,
        [] => 0,
    }
}

/// Tells whether the second byte is 1: NAL units or raw bytes follow.
fn has_units(body: &[u8]) -> bool
    ensures { result ≡ second_is 1 body.now }
{
    match body {
        [_, second, ..] => *second == 1,
        _ => false,
    }
}

/// Reads the video configuration in a unit.
#[tactic(auto, using(std::proofs::lemmas::Bool::Decides::nat_tests), unfolding(crate::specs::Frames::video_config))]
pub fn read_video(alloc: Global, body: &[u8]) -> Result<Avcc, Stop>
    ensures read { Gives result (video_config body.now) }
    ensures short { IfOk result (λ c. IsWithin (length body.now) c) }
{
    if low(body) != AVC {
        return Err(Stop::Out(Left::Codec));
    }
    Ok(Avcc::read(alloc, after(body, 5))?)
}

/// Reads the audio configuration in a unit.
#[tactic(auto, unfolding(crate::specs::Frames::audio_config))]
pub fn read_audio(body: &[u8]) -> Result<Asc, Stop>
    ensures { Gives result (audio_config body.now) }
{
    Ok(Asc::read(after(body, 2))?)
}

/// Converts milliseconds to units of 1/90,000 second, in 33 bits.
fn clock_of(time: u32) -> u64
    ensures value { result ≡ clock time }
    ensures fits { result < 2 ^ 33 }
{
    time as u64 * 90 % TIMES
}

/// Adds a composition time to such a time; a negative one makes it earlier.
#[tactic(auto, using(std::proofs::lemmas::Bool::Decides::nat_tests), unfolding(crate::specs::Frames::shown))]
fn shown_at(time: u32, composition: u32) -> u64
    requires { composition < 2 ^ 24 }
    ensures value { result ≡ shown time composition }
    ensures fits { result < 2 ^ 33 }
{
    if composition < 1 << 23 {
        (time as u64 + composition as u64) * 90 % TIMES
    } else {
        (time as u64 * 90 + (TIMES - ((1 << 24) - composition as u64) * 90)) % TIMES
    }
}

/// Appends a configuration's parameter sets if a video frame is a keyframe.
fn put_sets(config: &Avcc, key: bool, out: &mut Bytes) -> Result<(), OutOfMemory>
    ensures ok { OnOk result (out.new ≡ out.old ++ sets_if key config.now) }
    ensures left { OnErr result ((more : List ℕ) × (out.new ≡ out.old ++ more)) }
{
    if !key {
        return Ok(());
    }
    to_annexb(&config.sps, out)?;
    to_annexb(&config.pps, out)
}

/// Appends the access unit of a video frame's NAL units.
fn put_access_unit(config: &Avcc, key: bool, units: &[u8], out: &mut Bytes) -> Result<(), Stop>
    ensures ok { OnOk result ((text : List ℕ) × (kept_of config.now.size units.now ≡ AnOk text) × (0 < length text)
        × (out.new ≡ out.old ++ access_unit config.now key text)) }
    ensures err { IfErr result (λ e. (whole : List ℕ → Frame) → IsCause e (some_text whole (of_avc (kept_of config.now.size units.now)))) }
{
    out.append(&[0, 0, 0, 1, 9, 0xF0])?;
    put_sets(config, key, out)?;
    let before = out.len();
    put_nals(units, config.size, out)?;
    if out.len() == before {
        return Err(Stop::Out(Left::Empty));
    }
    Ok(())
}

/// Frames a video unit by its configuration.
#[tactic(auto, using(std::proofs::lemmas::Bool::Decides::nat_tests), unfolding(crate::specs::Frames::units_text))]
fn picture_by(
    alloc: Global,
    config: &Avcc,
    key: bool,
    time: u32,
    body: &[u8],
) -> Result<Framed, Stop>
    ensures made { Gives result (framed_of (some_text (picture config.now key time body.now) (units_text config.now body.now))) }
    ensures fits { IfOk result IsFramed }
{
    if body.len() < 5 {
        return Err(Stop::Out(Left::Avc(AvcFail::Short { at: body.len() })));
    }
    let pts = shown_at(time, be24(after(body, 2)));
    let dts = clock_of(time);
    let mut pes = Bytes::new(alloc);
    pes.reserve(body.len() + HEADS)?;
    pes_header(0xE0, pts, dts, 0, &mut pes)?;
    put_access_unit(config, key, after(body, 5), &mut pes)?;
    Ok(Framed {
        video: true,
        random: key,
        dts,
        pes,
    })
}

/// Frames a video unit by the configuration in force.
#[tactic(auto, using(std::proofs::lemmas::Bool::Decides::nat_tests), unfolding(crate::specs::Frames::video_frame))]
pub fn make_picture(
    alloc: Global,
    config: &Option<Avcc>,
    key: bool,
    time: u32,
    body: &[u8],
) -> Result<Framed, Stop>
    ensures made { Gives result (framed_of (video_frame config.now key time body.now)) }
    ensures fits { IfOk result IsFramed }
{
    if low(body) != AVC || !has_units(body) {
        return Err(Stop::Out(Left::Codec));
    }
    match config {
        Some(config) => picture_by(alloc, config, key, time, body),
        None => Err(Stop::Out(Left::NoConfig)),
    }
}

/// Frames an audio unit by its configuration.
fn sound_by(alloc: Global, asc: Asc, time: u32, raw: &[u8]) -> Result<Framed, Stop>
    ensures made { Gives result (framed_of (some_raw asc time raw.now)) }
    ensures fits { IfOk result IsFramed }
{
    if raw.is_empty() {
        return Err(Stop::Out(Left::Empty));
    }
    if raw.len() > MOST_RAW {
        return Err(Stop::Out(Left::Aac(AacFail::TooLong { n: raw.len() })));
    }
    let dts = clock_of(time);
    let mut pes = Bytes::new(alloc);
    pes.reserve(raw.len() + HEADS)?;
    pes_header(0xC0, dts, dts, (AHEAD + raw.len()) as u16, &mut pes)?;
    adts(asc, raw, &mut pes)?;
    Ok(Framed {
        video: false,
        random: false,
        dts,
        pes,
    })
}

/// Frames an audio unit by the configuration in force.
#[tactic(auto, using(std::proofs::lemmas::Bool::Decides::nat_tests), unfolding(crate::specs::Frames::audio_frame))]
pub fn make_sound(
    alloc: Global,
    config: &Option<Asc>,
    time: u32,
    body: &[u8],
) -> Result<Framed, Stop>
    ensures made { Gives result (framed_of (audio_frame config.now time body.now)) }
    ensures fits { IfOk result IsFramed }
{
    if high(body) != AAC || !has_units(body) {
        return Err(Stop::Out(Left::Codec));
    }
    match config {
        Some(asc) => sound_by(alloc, *asc, time, after(body, 2)),
        None => Err(Stop::Out(Left::NoConfig)),
    }
}
