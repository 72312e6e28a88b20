//! The steps of a client: bytes of the handshake and of chunks are fed, and bytes are sent.
ghost use Rattle.std.specs.Prelude.{◌≡◌, ◌≤◌, ◌<◌, ◌+◌, ◌*◌, ◌^◌, ◌∷◌, ◌++◌, [], length, take, drop, true, false, None, IfOk, IfErr, OnOk, OnErr};
ghost use Rattle.ack_window.specs.Inbound.{ack_of, in_took, room_of};
ghost use Rattle.chunk_writer.specs.Written.{after_all, written};
ghost use Rattle.client_owed.specs.Client.{connect as connect_of};
ghost use Rattle.client_owed.specs.Owed.{c2, hello};
ghost use Rattle.client_owed.specs.Standing.{new_keeps, new_past};
ghost use Rattle.session_owed.specs.Acks.{ack_messages};
ghost use Rattle.session_owed.specs.Talk.{hand_bytes};
ghost use Rattle.rtmp_handshake.specs.Answer.{bad_version};
ghost use Rattle.rtmp_client.specs.Bounds.{IsSmall, gift_bytes, to_greet, weight};
ghost use Rattle.rtmp_client.specs.Feeding.{Hears, IsFed, IsSent, IsStopped, fixed_of, heard_of, is_bad, read_end};
ghost use Rattle.rtmp_client.specs.Keeping.{Begun, IsNamed, IsSound, keeps_of, past_of};
ghost use Rattle.rtmp_client.specs.Owing.{Apart, Says};

use crate::answers::answer;
use crate::spelled::connect;
use crate::{ClientEnd, Core, Outgoing};
use ack_window::{Control, Inbound, control_message};
use av_unit::{Bytes, OutOfMemory};
use chunk_reader::{Fed, ReadCause, Reader};
use client_owed::{Asked, Phase};
use past::Flow;
use std::alloc::Global;

// The number of bytes of a handshake: S0, S1 and S2.
const HAND_BYTES: u64 = 3_073;

// The window with which a client begins.
const FIRST_WINDOW: u32 = 2_500_000;

// Returns the first `count` bytes of a piece, or all.
fn first(bytes: &[u8], count: usize) -> &[u8]
    ensures { result.now ≡ take count bytes.now }
{
    &bytes[..count.min(bytes.len())]
}

// Returns the bytes after the first `count`, or none.
fn after(bytes: &[u8], count: usize) -> &[u8]
    ensures { result.now ≡ drop count bytes.now }
{
    &bytes[count.min(bytes.len())..]
}

// Says C0 and C1 (5.2.2, 5.2.3).
fn say_hello(outgoing: &mut Outgoing) -> Result<(), OutOfMemory>
    ensures bytes { OnOk result (outgoing.new.pending ≡ outgoing.old.pending ++ hello) }
    ensures writer { outgoing.new.writer ≡ outgoing.old.writer }
    ensures others { OnOk result (outgoing.new.others ≡ outgoing.old.others + 1537) }
{
    outgoing.append(&[3])?;
    outgoing.append(&[0; 1_536])?;
    Ok(())
}

// Says C2 (5.2.4), for the bytes of the server's handshake.
fn say_c2(y: &[u8], outgoing: &mut Outgoing) -> Result<(), OutOfMemory>
    ensures bytes { OnOk result (outgoing.new.pending ≡ outgoing.old.pending ++ c2 y.now) }
    ensures writer { outgoing.new.writer ≡ outgoing.old.writer }
    ensures light { outgoing.new.others ≤ outgoing.old.others + 1536 }
    ensures apart { Apart outgoing.old outgoing.new }
{
    let s1 = first(after(y, 1), 1_536);
    outgoing.append(first(s1, 4))?;
    outgoing.append(&[0; 4])?;
    outgoing.append(after(s1, 8))?;
    Ok(())
}

// Says C2 and `connect`, when the server's handshake is complete.
fn greet(alloc: Global, asked: &Asked, y: &[u8], outgoing: &mut Outgoing) -> Result<(), OutOfMemory>
    requires { IsNamed asked.now }
    ensures bytes { OnOk result (outgoing.new.pending ≡ outgoing.old.pending ++ (c2 y.now ++ written outgoing.old.writer (connect_of asked.now ∷ []))) }
    ensures writer { OnOk result (outgoing.new.writer ≡ after_all outgoing.old.writer (connect_of asked.now ∷ [])) }
    ensures light { outgoing.new.others ≤ outgoing.old.others + 2463 }
    ensures apart { Apart outgoing.old outgoing.new }
{
    say_c2(y, outgoing)?;
    let message = connect(alloc, asked)?;
    outgoing.say(&message)?;
    Ok(())
}

/// Makes a client that asks for this, was fed nothing, and takes messages of at most `max_message` bytes. Its
/// first bytes are to be sent.
pub(crate) fn new_core(alloc: Global, asked: Asked, max_message: u32) -> Result<Core, OutOfMemory>
    requires named { IsNamed asked }
    requires most { max_message ≤ 4194304 }
    ensures sound { IfOk result (λ c. IsSound c) }
    ensures small { IfOk result (λ c. IsSmall c) }
    ensures past { IfOk result (λ c. past_of c ≡ new_past) }
    ensures keeps { IfOk result (λ c. keeps_of c ≡ new_keeps) }
    ensures others { IfOk result (λ c. c.outgoing.others ≡ length c.outgoing.pending) }
    ensures fixed { IfOk result (λ c. (c.asked ≡ asked) × (c.reader.max ≡ max_message) × (c.gift ≡ None)) }
{
    let mut outgoing = Outgoing::new(alloc);
    say_hello(&mut outgoing)?;
    Ok(Core {
        asked,
        first: Bytes::new(alloc),
        reader: Reader::new(alloc, max_message),
        inbound: Inbound::new(FIRST_WINDOW),
        phase: Phase::Connecting,
        finished: false,
        outgoing,
        gift: None,
        fed: 0,
        y: Flow::new(),
        gave: Flow::new(),
        taken: Flow::new(),
        sent: Flow::new(),
    })
}

// Returns whether a piece is the server's first and its version isn't 3.
fn is_other_version(fed: u64, piece: &[u8]) -> bool
    ensures { result ≡ is_bad fed piece.now }
{
    match piece {
        [byte, ..] => fed == 0 && *byte != 3,
        [] => false,
    }
}

// Feeds bytes of the handshake that don't end it.
fn hand_on(core: &mut Core, part: &[u8]) -> Result<(), OutOfMemory>
    requires sound { IsSound core.old }
    requires within { length (core.old.y ++ part.now) < hand_bytes }
    requires version { bad_version (core.old.y ++ part.now) ≡ None }
    ensures sound { OnOk result (IsSound core.new) }
    ensures changed { OnOk result (core.new ≡ record core.old { first = core.new.first; fed = core.new.fed; y = core.old.y ++ part.now }) }
    ensures err { OnErr result (core.new ≡ core.old) }
{
    core.first.append(part)?;
    core.fed += part.len() as u64;
    core.y.add_all(part);
    Ok(())
}

// Feeds bytes of the handshake that end it.
fn hand_end(core: &mut Core, alloc: Global, part: &[u8]) -> Result<(), OutOfMemory>
    requires sound { IsSound core.old }
    requires early { length core.old.y < hand_bytes }
    requires whole { length (core.old.y ++ part.now) ≡ hand_bytes }
    requires version { bad_version (core.old.y ++ part.now) ≡ None }
    ensures sound { OnOk result (IsSound core.new) }
    ensures changed { OnOk result (core.new ≡ record core.old { first = core.new.first; outgoing = core.new.outgoing; fed = core.new.fed; y = core.old.y ++ part.now }) }
    ensures err { OnErr result (core.new ≡ record core.old { first = core.new.first; outgoing = core.new.outgoing }) }
    ensures light { core.new.outgoing.others ≤ core.old.outgoing.others + 2463 }
    ensures apart { Apart core.old.outgoing core.new.outgoing }
{
    core.first.append(part)?;
    greet(
        alloc,
        &core.asked,
        core.first.as_slice(),
        &mut core.outgoing,
    )?;
    core.first = Bytes::new(alloc);
    core.fed += part.len() as u64;
    core.y.add_all(part);
    Ok(())
}

// Feeds a part of the handshake that doesn't go past its end.
fn hand_part(core: &mut Core, alloc: Global, part: &[u8]) -> Result<(), OutOfMemory>
    requires sound { IsSound core.old }
    requires early { length core.old.y < hand_bytes }
    requires within { length (core.old.y ++ part.now) ≤ hand_bytes }
    requires version { bad_version (core.old.y ++ part.now) ≡ None }
    ensures sound { OnOk result (IsSound core.new) }
    ensures changed { OnOk result (core.new ≡ record core.old { first = core.new.first; outgoing = core.new.outgoing; fed = core.new.fed; y = core.old.y ++ part.now }) }
    ensures err { OnErr result (core.new ≡ record core.old { first = core.new.first; outgoing = core.new.outgoing }) }
    ensures quiet { OnOk result (core.new.outgoing.others + to_greet (length core.new.y) ≤ core.old.outgoing.others + to_greet (length core.old.y)) }
    ensures light { core.new.outgoing.others ≤ core.old.outgoing.others + 2463 }
    ensures apart { Apart core.old.outgoing core.new.outgoing }
{
    if core.fed + part.len() as u64 == HAND_BYTES {
        return hand_end(core, alloc, part);
    }
    hand_on(core, part)
}

/// Feeds bytes of the handshake.
pub(crate) fn hand_piece(core: &mut Core, alloc: Global, piece: &[u8]) -> Result<usize, ClientEnd>
    requires sound { IsSound core.old }
    requires early { length core.old.y < hand_bytes }
    requires some { 0 < length piece.now }
    ensures sound { OnOk result (IsSound core.new) }
    ensures some { IfOk result (λ used. (0 < used) × (used ≤ length piece.now)) }
    ensures fed { IfOk result (λ used. IsFed core.old piece.now core.new (drop used piece.now)) }
    ensures heard { heard_of core.new ≡ heard_of core.old }
    ensures stopped { IfErr result (λ e. IsStopped core.old piece.now e core.new) }
    ensures over { OnErr result (Begun core.new) }
    ensures quiet { OnOk result (weight core.new.outgoing.others (length core.new.y) core.new.inbound ≤ weight core.old.outgoing.others (length core.old.y) core.old.inbound) }
    ensures light { 16000 * core.new.outgoing.others ≤ weight core.old.outgoing.others (length core.old.y) core.old.inbound }
    ensures apart { Apart core.old.outgoing core.new.outgoing }
    ensures fixed { fixed_of core.new ≡ fixed_of core.old }
{
    if is_other_version(core.fed, piece) {
        return Err(ClientEnd::BadVersion { at: 0 });
    }
    let part = first(piece, (HAND_BYTES - core.fed) as usize);
    match hand_part(core, alloc, part) {
        Ok(()) => Ok(part.len()),
        Err(_) => Err(ClientEnd::OutOfMemory),
    }
}

/// The number of bytes of a piece that were fed, and whether the last of them ended a message.
#[derive(Clone, Copy)]
pub(crate) struct Part {
    pub used: usize,
    pub ended: bool,
}

// Takes bytes up to the next place of an acknowledgement, and says the acknowledgement if they reach that
// place.
fn acknowledge(
    alloc: Global,
    inbound: &mut Inbound,
    outgoing: &mut Outgoing,
    n: u64,
) -> Result<(), OutOfMemory>
    requires within { n ≤ room_of inbound.old }
    requires far { inbound.old.taken + n < 2 ^ 63 }
    ensures window { inbound.new ≡ in_took inbound.old n }
    ensures said { OnOk result (Says outgoing.old (ack_messages (ack_of inbound.old n)) outgoing.new) }
    ensures light { 16 * outgoing.new.others ≤ 16 * outgoing.old.others + 356 }
    ensures apart { Apart outgoing.old outgoing.new }
{
    match inbound.took(n) {
        None => Ok(()),
        Some(number) => {
            let message = control_message(alloc, Control::Acknowledgement(number))?;
            outgoing.say(&message)
        }
    }
}

// Returns why the reader's refusal ends the client. `at` is the number of bytes before the refused byte.
fn chunk_end(cause: ReadCause, at: u64) -> ClientEnd
    ensures { result ≡ read_end cause at }
{
    match cause {
        ReadCause::OutOfMemory => ClientEnd::OutOfMemory,
        ReadCause::NoHead { .. }
        | ReadCause::TooManyIds
        | ReadCause::TooLong { .. }
        | ReadCause::TooMuch
        | ReadCause::BadChunkSize { .. }
        | ReadCause::TooFar => ClientEnd::BadChunk { cause, at },
    }
}

/// Feeds bytes of chunks, at most up to the next place of an acknowledgement or to the end of a message. It
/// does what the message says, and the gift that the message tells waits.
pub(crate) fn chunk_piece(core: &mut Core, alloc: Global, piece: &[u8]) -> Result<Part, ClientEnd>
    requires sound { IsSound core.old }
    requires late { hand_bytes ≤ length core.old.y }
    requires open { core.old.gift ≡ None }
    requires some { 0 < length piece.now }
    ensures sound { OnOk result (IsSound core.new) }
    ensures some { IfOk result (λ p. (0 < p.used) × (p.used ≤ length piece.now)) }
    ensures fed { IfOk result (λ p. IsFed core.old piece.now core.new (drop p.used piece.now)) }
    ensures heard { IfOk result (λ p. Hears core.old core.new p.ended) }
    ensures gift { IfOk result (λ p. gift_bytes core.new.gift ≤ core.old.reader.max) }
    ensures stopped { IfErr result (λ e. IsStopped core.old piece.now e core.new) }
    ensures over { OnErr result (Begun core.new) }
    ensures quiet { IfOk result (λ p. p.ended ≡ false
        → weight core.new.outgoing.others (length core.new.y) core.new.inbound ≤ weight core.old.outgoing.others (length core.old.y) core.old.inbound + 356 * p.used) }
    ensures light { 16000 * core.new.outgoing.others
        ≤ weight core.old.outgoing.others (length core.old.y) core.old.inbound + (356 * length piece.now + 5600000) }
    ensures apart { Apart core.old.outgoing core.new.outgoing }
    ensures fixed { fixed_of core.new ≡ fixed_of core.old }
{
    let room = core.inbound.room_to_next();
    let count = (piece.len() as u64).min(room) as usize;
    let part = first(piece, count);
    let Fed { used, message } = match core.reader.feed(alloc, part) {
        Ok(fed) => fed,
        Err(fail) => {
            let at = fail.at.saturating_add(HAND_BYTES);
            let before = at.saturating_sub(core.fed) as usize;
            core.y.add_all(first(part, before));
            core.fed = at;
            return Err(chunk_end(fail.cause, at));
        }
    };
    match acknowledge(alloc, &mut core.inbound, &mut core.outgoing, used as u64) {
        Ok(()) => {}
        Err(_) => return Err(ClientEnd::OutOfMemory),
    }
    let end = core.fed + used as u64;
    match message {
        None => {
            core.fed = end;
            core.y.add_all(first(part, used));
            Ok(Part { used, ended: false })
        }
        Some(message) => {
            match answer(
                alloc,
                &core.asked,
                end - 1,
                message,
                &mut core.phase,
                &mut core.inbound,
                &mut core.outgoing,
            ) {
                Ok(gift) => {
                    core.gift = gift;
                    core.fed = end;
                    core.y.add_all(first(part, used));
                    Ok(Part { used, ended: true })
                }
                Err(why) => {
                    core.fed = end - 1;
                    core.y.add_all(first(part, used - 1));
                    Err(why)
                }
            }
        }
    }
}

/// Notes that `count` of the pending bytes were sent.
pub(crate) fn note_sent(core: &mut Core, alloc: Global, count: usize)
    requires sound { IsSound core.old }
    requires within { count ≤ length core.old.outgoing.pending }
    ensures sound { IsSound core.new }
    ensures sent { IsSent core.old count core.new }
{
    core.sent.add_all(first(core.outgoing.pending(), count));
    core.outgoing.sent(alloc, count);
}
