//! The state between packets, and the effect of a packet on it.
ghost use Rattle.std.specs.Prelude.{◌≡◌, ◌<◌, ◌+◌, ◌%◌, length, option_map, true, None, Some};
ghost use Rattle.ts_reader.specs.Mux.{kept, next, start};
ghost use Rattle.ts_reader.specs.Steps.{closed, continued, counted, first_step, has_its_length, more_step, pat_step, pes_step, pid_step, pmt_step, step};
ghost use Rattle.ts_reader.specs.Sound.{Does, DoesMore, mux_of, opened_of};

use crate::header::read_header;
use crate::packet::{counter_of, has_no_marks, has_start, payload_place, pid_of};
use crate::payload::may_be_carried;
use crate::tables::{Streams, has_pat, streams_in};
use crate::{TsFail, TsUnit};
use av_unit::Bytes;
use pes_packets::{AUDIO_PID, PAT_PID, PMT_PID, VIDEO_PID};
use std::alloc::Global;

const SYNC: u8 = 0x47;

// The bytes of a header with one time that PES_packet_length counts.
const COUNTED: usize = 8;

/// A PES packet that hasn't ended: the place of its first packet, its PES_packet_length, and its unit with
/// the payload so far.
#[derive(Drop)]
pub(crate) struct Open {
    pub at: u64,
    pub length: usize,
    pub unit: TsUnit,
}

/// The counters of the next packets, whether an association table was read, the streams of the last map, and
/// the open PES packet.
#[derive(Drop)]
pub(crate) struct State {
    pub pat: u8,
    pub pmt: u8,
    pub video: u8,
    pub audio: u8,
    pub found: bool,
    pub listed: Streams,
    pub pes: Option<Open>,
}

/// Gives the state before the first packet.
pub(crate) fn before() -> State
    ensures { mux_of result ≡ start }
{
    State {
        pat: 0,
        pmt: 0,
        video: 0,
        audio: 0,
        found: false,
        listed: Streams {
            video: false,
            audio: false,
        },
        pes: None,
    }
}

// Gives the counter after this one.
fn counter_after(counter: u8) -> u8
    ensures { result ≡ next counter }
{
    (counter % 16 + 1) % 16
}

// Gives the counter that the next packet of a PID has.
fn counter_for(state: &State, pid: u16) -> u8
    ensures { result ≡ kept (mux_of state.now) pid }
{
    match pid {
        PAT_PID => state.pat,
        PMT_PID => state.pmt,
        VIDEO_PID => state.video,
        AUDIO_PID => state.audio,
        _ => 0,
    }
}

// Tells whether PES_packet_length counts the bytes that follow it. Video has no such length.
fn has_its_length(pes: &Open) -> bool
    ensures { result ≡ has_its_length (opened_of pes.now) }
{
    pes.unit.video || pes.length >= COUNTED && pes.length - COUNTED == pes.unit.payload.len()
}

/// Gives the unit of the PES packet that ends, if one was open.
#[tactic(auto, unfolding(crate::specs::Steps::closed))]
pub(crate) fn close(ended: Option<Open>) -> Result<Option<TsUnit>, TsFail>
    ensures { result ≡ closed (option_map opened_of ended) }
{
    match ended {
        None => Ok(None),
        Some(pes) => {
            if !has_its_length(&pes) {
                return Err(TsFail::BadPes { at: pes.at });
            }
            if !may_be_carried(pes.unit.video, pes.unit.payload.as_slice()) {
                return Err(TsFail::BadUnit { at: pes.at });
            }
            Ok(Some(pes.unit))
        }
    }
}

// Reads the packet of the association table.
#[tactic(auto, unfolding(crate::specs::Steps::pat_step))]
fn read_pat(
    state: &mut State,
    alloc: Global,
    at: u64,
    packet: &[u8],
) -> Result<Option<TsUnit>, TsFail>
    requires { length packet.now ≡ 188 }
    ensures { Does result (pat_step at (mux_of state.old) packet.now) (mux_of state.new) }
{
    if !has_pat(packet, alloc)? {
        return Err(TsFail::BadTable { at });
    }
    let unit = close(state.pes.take())?;
    state.pat = counter_after(state.pat);
    state.found = true;
    Ok(unit)
}

// Reads the packet of a map.
#[tactic(auto, unfolding(crate::specs::Steps::pmt_step))]
fn read_pmt(
    state: &mut State,
    alloc: Global,
    at: u64,
    packet: &[u8],
) -> Result<Option<TsUnit>, TsFail>
    requires { length packet.now ≡ 188 }
    ensures { Does result (pmt_step at (mux_of state.old) packet.now) (mux_of state.new) }
{
    if !state.found {
        return Err(TsFail::BadTable { at });
    }
    let Some(streams) = streams_in(packet, alloc)? else {
        return Err(TsFail::BadTable { at });
    };
    let unit = close(state.pes.take())?;
    state.pmt = counter_after(state.pmt);
    state.listed = streams;
    Ok(unit)
}

// Reads a packet of a stream that leaves the given PES packet open.
fn count(state: &mut State, video: bool, pes: Option<Open>)
    ensures { mux_of state.new ≡ counted video (mux_of state.old) (option_map opened_of pes) }
{
    if video {
        state.video = counter_after(state.video);
    } else {
        state.audio = counter_after(state.audio);
    }
    state.pes = pes;
}

// Reads the first packet of a PES packet.
#[tactic(auto, unfolding(crate::specs::Steps::first_step))]
fn read_first(
    state: &mut State,
    alloc: Global,
    at: u64,
    packet: &[u8],
    video: bool,
) -> Result<Option<TsUnit>, TsFail>
    requires { length packet.now ≡ 188 }
    ensures { Does result (first_step video at (mux_of state.old) packet.now) (mux_of state.new) }
{
    let Some(place) = payload_place(packet, video || !state.listed.video) else {
        return Err(TsFail::BadPes { at });
    };
    let bytes = &packet[place..];
    let Some(head) = read_header(bytes, video) else {
        return Err(TsFail::BadPes { at });
    };
    let mut payload = Bytes::new(alloc);
    payload.append(&bytes[head.size..])?;
    let unit = close(state.pes.take())?;
    let begun = TsUnit {
        video,
        pts: head.pts,
        dts: head.dts,
        payload,
    };
    count(
        state,
        video,
        Some(Open {
            at,
            length: head.length,
            unit: begun,
        }),
    );
    Ok(unit)
}

// Continues the open PES packet.
#[tactic(auto, unfolding(crate::specs::Steps::continued))]
fn go_on(pes: &mut Open, at: u64, packet: &[u8], video: bool) -> Result<(), TsFail>
    requires { length packet.now ≡ 188 }
    ensures { DoesMore result (continued video at packet.now (opened_of pes.old)) (opened_of pes.new) }
{
    if pes.unit.video != video {
        return Err(TsFail::BadPes { at });
    }
    match payload_place(packet, false) {
        None => Err(TsFail::BadPes { at }),
        Some(place) => {
            pes.unit.payload.append(&packet[place..])?;
            Ok(())
        }
    }
}

// Reads another packet of the open PES packet.
#[tactic(auto, unfolding(crate::specs::Steps::more_step))]
fn read_more(
    state: &mut State,
    at: u64,
    packet: &[u8],
    video: bool,
) -> Result<Option<TsUnit>, TsFail>
    requires { length packet.now ≡ 188 }
    ensures { Does result (more_step video at (mux_of state.old) packet.now) (mux_of state.new) }
{
    match state.pes.take() {
        None => Err(TsFail::BadPes { at }),
        Some(mut pes) => {
            go_on(&mut pes, at, packet, video)?;
            count(state, video, Some(pes));
            Ok(None)
        }
    }
}

// Reads a packet of a stream.
#[tactic(auto, unfolding(crate::specs::Steps::pes_step))]
fn read_pes(
    state: &mut State,
    alloc: Global,
    at: u64,
    packet: &[u8],
    video: bool,
) -> Result<Option<TsUnit>, TsFail>
    requires { length packet.now ≡ 188 }
    ensures { Does result (pes_step video at (mux_of state.old) packet.now) (mux_of state.new) }
{
    if !has_no_marks(packet) {
        return Err(TsFail::BadPes { at });
    }
    if has_start(packet) {
        read_first(state, alloc, at, packet, video)
    } else {
        read_more(state, at, packet, video)
    }
}

// Reads a packet by its PID.
#[tactic(auto, using(std::proofs::lemmas::Bool::Decides::nat_tests), unfolding(crate::specs::Steps::pid_step))]
fn read_pid(
    state: &mut State,
    alloc: Global,
    at: u64,
    packet: &[u8],
) -> Result<Option<TsUnit>, TsFail>
    requires { length packet.now ≡ 188 }
    ensures { Does result (pid_step at (mux_of state.old) packet.now) (mux_of state.new) }
{
    match pid_of(packet) {
        PAT_PID => read_pat(state, alloc, at, packet),
        PMT_PID => read_pmt(state, alloc, at, packet),
        VIDEO_PID if state.listed.video => read_pes(state, alloc, at, packet, true),
        AUDIO_PID if state.listed.audio => read_pes(state, alloc, at, packet, false),
        _ => Err(TsFail::BadPes { at }),
    }
}

/// Reads a packet with `at` bytes of the stream before it, and gives the unit that it ends. After a refusal
/// nothing is promised of the state.
#[tactic(auto, using(std::proofs::lemmas::Bool::Decides::nat_tests), unfolding(crate::specs::Steps::step))]
pub(crate) fn read_packet(
    state: &mut State,
    alloc: Global,
    at: u64,
    packet: &[u8],
) -> Result<Option<TsUnit>, TsFail>
    requires { length packet.now ≡ 188 }
    ensures { Does result (step at (mux_of state.old) packet.now) (mux_of state.new) }
{
    if packet[0] != SYNC {
        return Err(TsFail::NoSync { at });
    }
    let kept = counter_for(state, pid_of(packet));
    let found = counter_of(packet);
    if found != kept {
        return Err(TsFail::BadCounter { at, kept, found });
    }
    read_pid(state, alloc, at, packet)
}
