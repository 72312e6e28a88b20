ghost use Rattle.std.specs.Prelude.{◌≡◌, ◌+◌, ◌*◌, ◌++◌, ◌≤◌, length, IfOk, OnOk, string_bytes};
ghost use Rattle.relay_base.specs.declared.limits.Limits.{Limits as AllLimits};
ghost use Rattle.relay_config.specs.Sum.{total_of};
ghost use Rattle.stream_registry.specs.Names.{slots_sum};
ghost use Rattle.relay_replay.specs.Scenes.{AreNamed, IsLimited, IsPortOf};
ghost use Rattle.origin_pull.specs.Words.{cause_text};
ghost use Rattle.relay_replay.specs.Prints.{edge_end_text, end_text, end_words, http_end_text, rec_end_text};
ghost use Rattle.relay_replay.specs.Prints.{hex_text, session_lines, recorder_lines, stream_line, open_line, held_line};
ghost use Rattle.relay_replay.specs.Plays.{link_of};
ghost use Rattle.relay_replay.specs.Prints.{sessions_text, recorders_text, streams_text, opens_text, held_at, most_of, streams_hold, opens_hold};
ghost use Rattle.relay_replay.specs.Prints.{AllHold, GuestHolds, IsReport, IsTotal, RecHolds, StreamsWithin, TablesWithin};

use crate::cast::Cast;
use crate::guest::Guest;
use crate::places::counts;
use crate::recording::Recording;
use av_unit::{Bytes, OutOfMemory};
use chunk_reader::ReadCause;
use http_flv::HttpEnd;
use media_recorder::RecEnd;
use origin_pull::EdgeEnd;
use relay_base::Limits;
use relay_config::{OpenRule, PlaceRule, sum_of};
use relay_session::End;
use rtmp_client::ClientEnd;
use std::alloc::Global;
use stream_registry::Sole;

fn cause_text(cause: ReadCause) -> &'static str
    ensures { result.now ≡ cause_text cause }
{
    match cause {
        ReadCause::NoHead { id: _ } => "nohead",
        ReadCause::TooManyIds => "toomanyids",
        ReadCause::TooLong { length: _ } => "toolong",
        ReadCause::TooMuch => "toomuch",
        ReadCause::BadChunkSize { value: _ } => "badchunksize",
        ReadCause::OutOfMemory => "outofmemory",
        ReadCause::TooFar => "toofar",
    }
}

fn bad_chunk_text(alloc: Global, cause: ReadCause, at: u64) -> Result<String, OutOfMemory>
    ensures { IfOk result (λ text. string_bytes text ≡ end_text (Some (End.BadChunk cause at))) }
{
    let cause = cause_text(cause);
    Ok(format!(in alloc; "badchunk {cause} {at}")?)
}

// How a session ended.
fn end_text(alloc: Global, end: Option<End>) -> Result<String, OutOfMemory>
    ensures { IfOk result (λ text. string_bytes text ≡ end_text end) }
{
    match end {
        None => Ok(format!(in alloc; "none")?),
        Some(End::PeerClosed) => Ok(format!(in alloc; "peerclosed")?),
        Some(End::LinkFault) => Ok(format!(in alloc; "linkfault")?),
        Some(End::BadVersion { at }) => Ok(format!(in alloc; "badversion {at}")?),
        Some(End::BadChunk { cause, at }) => bad_chunk_text(alloc, cause, at),
        Some(End::BadControl { at }) => Ok(format!(in alloc; "badcontrol {at}")?),
        Some(End::BadCommand { at }) => Ok(format!(in alloc; "badcommand {at}")?),
        Some(End::TooManyStreams { at }) => Ok(format!(in alloc; "toomanystreams {at}")?),
        Some(End::Quit) => Ok(format!(in alloc; "quit")?),
        Some(End::Worn) => Ok(format!(in alloc; "worn")?),
        Some(End::OutOfMemory) => Ok(format!(in alloc; "outofmemory")?),
    }
}

// How a player over HTTP ended.
fn http_end_text(alloc: Global, end: Option<HttpEnd>) -> Result<String, OutOfMemory>
    ensures { IfOk result (λ text. string_bytes text ≡ http_end_text end) }
{
    match end {
        None => Ok(format!(in alloc; "none")?),
        Some(HttpEnd::PeerClosed) => Ok(format!(in alloc; "peerclosed")?),
        Some(HttpEnd::LinkFault) => Ok(format!(in alloc; "linkfault")?),
        Some(HttpEnd::Answered { code }) => Ok(format!(in alloc; "answered {code}")?),
        Some(HttpEnd::Worn) => Ok(format!(in alloc; "worn")?),
        Some(HttpEnd::OutOfMemory) => Ok(format!(in alloc; "outofmemory")?),
        Some(HttpEnd::Closed) => Ok(format!(in alloc; "closed")?),
    }
}

// How an edge ended.
fn edge_end_text(
    alloc: Global,
    end: Option<EdgeEnd>,
    client: &Option<ClientEnd>,
) -> Result<String, OutOfMemory>
    ensures { IfOk result (λ text. string_bytes text ≡ edge_end_text end client.now) }
{
    match end {
        None => Ok(format!(in alloc; "none")?),
        Some(end) => origin_pull::end_text(alloc, end, client),
    }
}

// The words for the ending of a guest.
fn end_words(alloc: Global, guest: &Guest) -> Result<String, OutOfMemory>
    ensures { IfOk result (λ text. string_bytes text ≡ end_words guest.now) }
{
    match guest {
        Guest::Session(session) => end_text(alloc, session.ended()),
        Guest::Player(player) => http_end_text(alloc, player.ended()),
        Guest::Edge(edge) => edge_end_text(alloc, edge.ended(), edge.client_end()),
    }
}

// How a recorder ended.
fn rec_end_text(alloc: Global, end: Option<RecEnd>) -> Result<String, OutOfMemory>
    ensures { IfOk result (λ text. string_bytes text ≡ rec_end_text end) }
{
    match end {
        None => Ok(format!(in alloc; "none")?),
        Some(RecEnd::SinkFault) => Ok(format!(in alloc; "sinkfault")?),
        Some(RecEnd::Full) => Ok(format!(in alloc; "full")?),
        Some(RecEnd::Worn) => Ok(format!(in alloc; "worn")?),
        Some(RecEnd::OutOfMemory) => Ok(format!(in alloc; "outofmemory")?),
    }
}

// Bytes as digits, or `-` for none.
fn hex_text(alloc: Global, bytes: &[u8]) -> Result<String, OutOfMemory>
    ensures { IfOk result (λ text. string_bytes text ≡ hex_text bytes.now) }
{
    if bytes.is_empty() {
        return Ok(format!(in alloc; "-")?);
    }
    Ok(hex::encode(alloc, bytes)?)
}

fn session_text(alloc: Global, n: u64, guest: &Guest) -> Result<String, OutOfMemory>
    ensures { IfOk result (λ text. string_bytes text ≡ session_lines n (link_of guest.now).sent (end_words guest.now)) }
{
    let sent = hex_text(alloc, guest.sent())?;
    let end = end_words(alloc, guest)?;
    Ok(format!(in alloc; "session {n} sent {sent}\nsession {n} end {end}\n")?)
}

fn recorder_text(
    alloc: Global,
    n: u64,
    bytes: &[u8],
    end: Option<RecEnd>,
) -> Result<String, OutOfMemory>
    ensures { IfOk result (λ text. string_bytes text ≡ recorder_lines n bytes.now end) }
{
    let bytes = hex_text(alloc, bytes)?;
    let end = rec_end_text(alloc, end)?;
    Ok(format!(in alloc; "recorder {n} file {bytes}\nrecorder {n} end {end}\n")?)
}

fn stream_text(alloc: Global, n: u32, held: u64) -> Result<String, OutOfMemory>
    ensures { IfOk result (λ text. string_bytes text ≡ stream_line n held) }
{
    Ok(format!(in alloc; "stream {n} held {held}\n")?)
}

fn open_text(alloc: Global, n: u32, held: u64) -> Result<String, OutOfMemory>
    ensures { IfOk result (λ text. string_bytes text ≡ open_line n held) }
{
    Ok(format!(in alloc; "open {n} held {held}\n")?)
}

fn held_text(alloc: Global, total: u64, sum: u64) -> Result<String, OutOfMemory>
    ensures { IfOk result (λ text. string_bytes text ≡ held_line total sum) }
{
    Ok(format!(in alloc; "held {total} sum {sum}\n")?)
}

// Adds the lines of all sessions.
fn all_sessions(alloc: Global, sessions: &[Guest], out: &mut Bytes) -> Result<(), OutOfMemory>
    ensures { OnOk result (out.new ≡ out.old ++ sessions_text 0 sessions.now) }
{
    let mut n: u64 = 0;
    let mut left = sessions;
    while let [session, rest @ ..] = left {
        let text = session_text(alloc, n, session)?;
        out.append(text.as_str().as_bytes())?;
        n += 1;
        left = rest;
    }
    Ok(())
}

// Adds the lines of all recorders.
fn all_recorders(alloc: Global, recorders: &[Recording], out: &mut Bytes) -> Result<(), OutOfMemory>
    ensures { OnOk result (out.new ≡ out.old ++ recorders_text 0 recorders.now) }
{
    let mut n: u64 = 0;
    let mut left = recorders;
    while let [recorder, rest @ ..] = left {
        let text = recorder_text(alloc, n, recorder.bytes(), recorder.ended())?;
        out.append(text.as_str().as_bytes())?;
        n += 1;
        left = rest;
    }
    Ok(())
}

// Adds the lines of the first `streams` streams.
#[tactic(auto, using(crate::proofs::Totals::each_stream))]
fn all_streams(alloc: Global, streams: u32, port: &Sole, out: &mut Bytes) -> Result<(), OutOfMemory>
    requires { streams ≤ length port.now.rules.names }
    ensures text { OnOk result (out.new ≡ out.old ++ streams_text port.now streams) }
    ensures within { OnOk result (StreamsWithin port.now streams) }
{
    for n in 0..streams {
        let text = stream_text(alloc, n, port.held(n))?;
        out.append(text.as_str().as_bytes())?;
    }
    Ok(())
}

// Adds the lines of the open tables, whose places are behind those of the streams.
#[tactic(auto, using(crate::proofs::Totals::each_table))]
fn all_opens(
    alloc: Global,
    streams: u32,
    tables: u32,
    port: &Sole,
    out: &mut Bytes,
) -> Result<(), OutOfMemory>
    requires streams { length port.now.rules.names ≡ streams }
    requires tables { tables ≤ length port.now.rules.opens }
    requires few { streams + tables ≤ 64 }
    ensures text { OnOk result (out.new ≡ out.old ++ opens_text port.now streams tables) }
    ensures within { OnOk result (TablesWithin port.now streams tables) }
{
    for n in 0..tables {
        let text = open_text(alloc, n, port.held(streams + n))?;
        out.append(text.as_str().as_bytes())?;
    }
    Ok(())
}

// A number more. No memory holds as many bytes as it can count.
fn more(total: u64, n: u64) -> Result<u64, OutOfMemory>
    ensures { IfOk result (λ sum. sum ≡ total + n) }
{
    match total.checked_add(n) {
        Some(sum) => Ok(sum),
        None => Err(OutOfMemory),
    }
}

// The number of bytes that the open sessions hold.
fn sessions_hold(sessions: &[Guest]) -> Result<u64, OutOfMemory>
    ensures { IfOk result (λ n. AllHold GuestHolds sessions.now n) }
{
    let mut total: u64 = 0;
    for i in 0..sessions.len() {
        total = more(total, sessions[i].held())?;
    }
    Ok(total)
}

// The number of bytes that the recorders hold.
fn recorders_hold(recorders: &[Recording]) -> Result<u64, OutOfMemory>
    ensures { IfOk result (λ n. AllHold RecHolds recorders.now n) }
{
    let mut total: u64 = 0;
    for i in 0..recorders.len() {
        total = more(total, recorders[i].held())?;
    }
    Ok(total)
}

// The number of bytes that the first `streams` streams hold.
#[tactic(auto, using(crate::proofs::Totals::streams_more))]
fn streams_hold(streams: u32, port: &Sole) -> Result<u64, OutOfMemory>
    requires { streams ≤ length port.now.rules.names }
    ensures sum { IfOk result (λ n. n ≡ streams_hold port.now streams) }
    ensures most { IfOk result (λ n. n ≤ streams * (port.now.rules.limits.bytes + 196608)) }
{
    let mut total: u64 = 0;
    for n in 0..streams {
        total = more(total, port.held(n))?;
    }
    Ok(total)
}

// The number of bytes that the open tables hold, whose places are behind those of the streams.
#[tactic(auto, using(crate::proofs::Totals::tables_more))]
fn opens_hold(streams: u32, tables: u32, port: &Sole) -> Result<u64, OutOfMemory>
    requires streams { length port.now.rules.names ≡ streams }
    requires tables { length port.now.rules.opens ≡ tables }
    requires few { streams + tables ≤ 64 }
    ensures sum { IfOk result (λ n. n ≡ opens_hold port.now streams tables) }
    ensures most { IfOk result (λ n. n ≤ slots_sum port.now.rules.opens * (port.now.rules.limits.bytes + 196672)) }
{
    let mut total: u64 = 0;
    for n in 0..tables {
        total = more(total, port.held(streams + n))?;
    }
    Ok(total)
}

// The number of bytes that all hold together.
fn total_of(streams: u32, tables: u32, cast: &Cast) -> Result<u64, OutOfMemory>
    requires streams { length cast.now.port.rules.names ≡ streams }
    requires tables { length cast.now.port.rules.opens ≡ tables }
    requires few { streams + tables ≤ 64 }
    ensures total { IfOk result (λ n. IsTotal streams tables cast.now n) }
    ensures within { (l : AllLimits) → IsLimited l cast.now
        → IfOk result (λ n. n ≤ total_of l streams (slots_sum cast.now.port.rules.opens) (length cast.now.sessions) (length cast.now.recorders)) }
{
    let sessions = sessions_hold(cast.sessions())?;
    let recorders = recorders_hold(cast.recorders())?;
    let streamed = streams_hold(streams, cast.port())?;
    let opened = opens_hold(streams, tables, cast.port())?;
    more(more(sessions, recorders)?, more(streamed, opened)?)
}

// Adds the line of the bytes that all hold together, and the most that they may. Returns the total.
pub(crate) fn all_held(
    alloc: Global,
    limits: &Limits,
    streams: &[PlaceRule],
    opens: &[OpenRule],
    cast: &Cast,
    out: &mut Bytes,
) -> Result<u64, OutOfMemory>
    requires ring { limits.now.ring_bytes ≤ 268435456 }
    requires message { limits.now.max_message ≤ 4194304 }
    requires named { AreNamed streams.now opens.now }
    requires port { IsPortOf streams.now opens.now cast.now.port }
    requires sessions { length cast.now.sessions ≤ 64 }
    requires limited { IsLimited limits.now cast.now }
    ensures total { IfOk result (λ n. IsTotal (length streams.now) (length opens.now) cast.now n) }
    ensures within { IfOk result (λ n. n ≤ most_of limits.now streams.now opens.now cast.now) }
    ensures text { IfOk result (λ n. out.new ≡ out.old ++ held_line n (most_of limits.now streams.now opens.now cast.now)) }
{
    let Ok(recorders) = u32::try_from(cast.recorders().len()) else {
        return Err(OutOfMemory);
    };
    let count = counts(streams, opens, cast.port());
    let sessions = cast.sessions().len() as u32;
    let sum = sum_of(limits, count.streams, count.names, sessions, recorders);
    let total = total_of(count.streams, count.tables, cast)?;
    let text = held_text(alloc, total, sum)?;
    out.append(text.as_str().as_bytes())?;
    Ok(total)
}

// The printed text of these streams and open tables, of the sessions and of the recorders.
#[tactic(auto, using(crate::proofs::Totals::all_within_limits))]
pub(crate) fn report(
    alloc: Global,
    limits: &Limits,
    streams: &[PlaceRule],
    opens: &[OpenRule],
    cast: &Cast,
) -> Result<Bytes, OutOfMemory>
    requires ring { limits.now.ring_bytes ≤ 268435456 }
    requires message { limits.now.max_message ≤ 4194304 }
    requires named { AreNamed streams.now opens.now }
    requires port { IsPortOf streams.now opens.now cast.now.port }
    requires sessions { length cast.now.sessions ≤ 64 }
    requires limited { IsLimited limits.now cast.now }
    ensures { IfOk result (λ text. IsReport limits.now streams.now opens.now cast.now text) }
{
    let count = counts(streams, opens, cast.port());
    let mut out = Bytes::new(alloc);
    all_sessions(alloc, cast.sessions(), &mut out)?;
    all_recorders(alloc, cast.recorders(), &mut out)?;
    all_streams(alloc, count.streams, cast.port(), &mut out)?;
    all_opens(alloc, count.streams, count.tables, cast.port(), &mut out)?;
    all_held(alloc, limits, streams, opens, cast, &mut out)?;
    Ok(out)
}
