ghost use Rattle.std.specs.Prelude.{◌≡◌, ◌≤◌, ◌<◌, ◌+◌, ◌-◌, ◌*◌, ◌^◌, [], length, take, drop, true, false, Some, None, IfOk, IfErr, OnOk, OnErr};
ghost use Rattle.ack_window.specs.Inbound.{ack_of, in_took, room_of};
ghost use Rattle.ack_window.specs.Outbound.{new_out};
ghost use Rattle.session_owed.specs.Acks.{ack_messages};
ghost use Rattle.session_owed.specs.Talk.{hand_bytes, is_take};
ghost use Rattle.session_owed.specs.Standing.{new_past};
ghost use Rattle.command_dialog.specs.State.{playing_in};
ghost use Rattle.command_dialog.specs.declared.types.Ask.{Ask};
ghost use Rattle.command_dialog.specs.declared.types.Grant.{Grant};
ghost use Rattle.relay_session.specs.Bounds.{HasRoom, IsLight, weight};
ghost use Rattle.relay_session.specs.Feeding.{Hears, IsCalled, IsFed, IsOthers, IsSent, IsStopped, heard_of, read_end};
ghost use Rattle.relay_session.specs.Holding.{HandFits, unit_bytes};
ghost use Rattle.relay_session.specs.Keeping.{IsOver, IsSound, StandsBefore, past_of, waiting};
ghost use Rattle.relay_session.specs.Owing.{Says, nothing, pending};
ghost use Rattle.relay_session.specs.declared.end.End.TheVariants as end;

use crate::answers::{Asked, answer, hear, take_in};
use crate::{Core, Desk, End, Outgoing};
use ack_window::{Control, Inbound, Outbound, control_message};
use av_unit::OutOfMemory;
use chunk_reader::{Fed, ReadCause, Reader};
use command_dialog::{Dialog, Playing};
use past::{Flow, Pair};
use rtmp_handshake::{Hand, HandFail, HandFed};
use std::alloc::Global;
use std::snapshot::Snapshot;
use stream_model::{Entry, Reply};

// The number of bytes of a handshake, and of its answer.
const HAND_BYTES: u64 = 3_073;

// Returns the first `count` bytes of a piece, or all.
fn first(bytes: &[u8], count: usize) -> &[u8]
    ensures { result.now ≡ take count bytes.now }
{
    &bytes[..count.min(bytes.len())]
}

/// Makes a session of this name that has been fed nothing. It tells its peer `window`, and takes messages of
/// at most `max_message` bytes.
pub fn new_core(alloc: Global, who: u64, window: u32, max_message: u32) -> Core
    requires { max_message ≤ 4194304 }
    ensures sound { IsSound result }
    ensures stands { (desk : Ask → Grant) → StandsBefore desk result }
    ensures past { past_of result ≡ new_past }
    ensures fed { result.fed ≡ 0 }
    ensures fixed { (result.who ≡ who) × (result.window ≡ window) × (result.reader.max ≡ max_message) }
    ensures outbound { result.outbound ≡ new_out window }
    ensures outgoing { result.outgoing ≡ nothing }
    ensures light { IsLight result.outgoing.others result.kept }
    ensures fits { HandFits result }
    ensures place { result.place ≡ None }
{
    Core {
        who,
        window,
        longest: max_message,
        hand: Hand::new(alloc),
        reader: Reader::new(alloc, max_message),
        inbound: Inbound::new(window),
        outbound: Outbound::new(window),
        greeting: HAND_BYTES,
        dialog: Dialog::new(alloc, window),
        outgoing: Outgoing::new(alloc),
        kept: None,
        place: None,
        fed: 0,
        x: Flow::new(),
        calls: Flow::new(),
        sent: Flow::new(),
    }
}

// Takes bytes up to the next place of an acknowledgement, and says the acknowledgement if they reach that
// place.
fn acknowledge(
    alloc: Global,
    inbound: &mut Inbound,
    outgoing: &mut Outgoing,
    n: u64,
) -> Result<(), OutOfMemory>
    requires within { n ≤ room_of inbound.old }
    requires far { inbound.old.taken + n < 2 ^ 63 }
    ensures window { inbound.new ≡ in_took inbound.old n }
    ensures said { OnOk result (Says outgoing.old (ack_messages (ack_of inbound.old n)) outgoing.new) }
    ensures light { 16 * outgoing.new.others ≤ 16 * outgoing.old.others + 356 }
    ensures unit { unit_bytes outgoing.new.hand ≤ unit_bytes outgoing.old.hand }
{
    match inbound.took(n) {
        None => Ok(()),
        Some(number) => {
            let message = control_message(alloc, Control::Acknowledgement(number))?;
            outgoing.say(&message)
        }
    }
}

/// Feeds bytes of the handshake.
pub fn hand_piece(core: &mut Core, alloc: Global, piece: &[u8]) -> Result<usize, End>
    requires sound { IsSound core.old }
    requires early { length core.old.x < hand_bytes }
    requires some { 0 < length piece.now }
    ensures sound { OnOk result (IsSound core.new) }
    ensures stands { (desk : Ask → Grant) → StandsBefore desk core.old → OnOk result (StandsBefore desk core.new) }
    ensures some { IfOk result (λ used. (0 < used) × (used ≤ length piece.now)) }
    ensures fed { IfOk result (λ used. IsFed core.old piece.now core.new (drop used piece.now)) }
    ensures heard { OnOk result (heard_of core.new ≡ heard_of core.old) }
    ensures stopped { IfErr result (λ e. IsStopped core.old piece.now e core.new) }
    ensures room { OnErr result (HasRoom core.new.hand core.new.reader core.new.kept) }
    ensures over { (desk : Ask → Grant) → StandsBefore desk core.old → IfErr result (λ e. IsOver desk e core.new) }
    ensures light { weight core.new.outgoing.others core.new.x core.new.inbound ≤ weight core.old.outgoing.others core.old.x core.old.inbound }
    ensures fits { HandFits core.old → HandFits core.new }
{
    let HandFed { used, out, done: _ } = match core.hand.feed(alloc, piece) {
        Ok(fed) => fed,
        Err(HandFail::BadVersion { byte: _ }) => return Err(End::BadVersion { at: 0 }),
        Err(HandFail::OutOfMemory) => return Err(End::OutOfMemory),
    };
    match core.outgoing.append(out.as_slice()) {
        Ok(()) => {}
        Err(_) => return Err(End::OutOfMemory),
    }
    core.fed += used as u64;
    core.x.add_all(first(piece, used));
    Ok(used)
}

/// The number of bytes of a piece that were fed, and whether the last of them ended a message.
#[derive(Clone, Copy)]
pub struct Part {
    pub used: usize,
    pub ended: bool,
}

/// Feeds bytes of chunks, at most up to the next place of an acknowledgement or to the end of a message. It
/// does what the message says, and keeps the call that it asks for.
pub fn chunk_piece<D: Desk>(
    core: &mut Core,
    alloc: Global,
    desk: &D,
    piece: &[u8],
) -> Result<Part, End>
    requires sound { IsSound core.old }
    requires late { hand_bytes ≤ length core.old.x }
    requires open { core.old.kept ≡ None }
    requires some { 0 < length piece.now }
    ensures sound { OnOk result (IsSound core.new) }
    ensures stands { StandsBefore (D.grants desk.now) core.old → OnOk result (StandsBefore (D.grants desk.now) core.new) }
    ensures some { IfOk result (λ p. (0 < p.used) × (p.used ≤ length piece.now)) }
    ensures fed { IfOk result (λ p. IsFed core.old piece.now core.new (drop p.used piece.now)) }
    ensures heard { IfOk result (λ p. Hears (D.grants desk.now) core.old core.new p.ended) }
    ensures stopped { IfErr result (λ e. IsStopped core.old piece.now e core.new) }
    ensures room { OnErr result (HasRoom core.new.hand core.new.reader core.new.kept) }
    ensures over { StandsBefore (D.grants desk.now) core.old → IfErr result (λ e. IsOver (D.grants desk.now) e core.new) }
    ensures quiet { IfOk result (λ p. p.ended ≡ false
        → weight core.new.outgoing.others core.new.x core.new.inbound ≤ weight core.old.outgoing.others core.old.x core.old.inbound + 356 * p.used) }
    ensures light { 16000 * core.new.outgoing.others
        ≤ weight core.old.outgoing.others core.old.x core.old.inbound + (356 * length piece.now + 4640000) }
    ensures fits { HandFits core.old → HandFits core.new }
{
    let room = core.inbound.room_to_next();
    let count = (piece.len() as u64).min(room) as usize;
    let part = first(piece, count);
    let Fed { used, message } = match core.reader.feed(alloc, part) {
        Ok(fed) => fed,
        Err(fail) => {
            let at = fail.at.saturating_add(HAND_BYTES);
            let before = at.saturating_sub(core.fed) as usize;
            core.x.add_all(first(part, before));
            core.fed = at;
            return Err(chunk_end(fail.cause, at));
        }
    };
    match acknowledge(alloc, &mut core.inbound, &mut core.outgoing, used as u64) {
        Ok(()) => {}
        Err(_) => return Err(End::OutOfMemory),
    }
    let end = core.fed + used as u64;
    match message {
        None => {
            core.fed = end;
            core.x.add_all(first(part, used));
            Ok(Part { used, ended: false })
        }
        Some(message) => {
            match answer(
                alloc,
                desk,
                core.who,
                core.place,
                end,
                end - 1,
                message,
                &mut core.dialog,
                &mut core.inbound,
                &mut core.outbound,
                &mut core.outgoing,
            ) {
                Ok(Asked { kept, place }) => {
                    core.kept = kept;
                    core.place = place;
                    core.fed = end;
                    core.x.add_all(first(part, used));
                    Ok(Part { used, ended: true })
                }
                Err(why) => {
                    core.fed = end - 1;
                    core.x.add_all(first(part, used - 1));
                    Err(why)
                }
            }
        }
    }
}

// Returns why the reader's refusal ends the session. `at` is the number of bytes before the refused byte.
fn chunk_end(cause: ReadCause, at: u64) -> End
    ensures { result ≡ read_end cause at }
{
    match cause {
        ReadCause::OutOfMemory => End::OutOfMemory,
        ReadCause::NoHead { .. }
        | ReadCause::TooManyIds
        | ReadCause::TooLong { .. }
        | ReadCause::TooMuch
        | ReadCause::BadChunkSize { .. }
        | ReadCause::TooFar => End::BadChunk { cause, at },
    }
}

/// Takes in the reply to the call that was asked for, and that waited until then.
pub fn hear_reply(
    core: &mut Core,
    alloc: Global,
    asked: Snapshot<Entry>,
    reply: &Reply,
) -> Result<(), OutOfMemory>
    requires sound { IsSound (waiting core.old asked.value) }
    ensures sound { OnOk result (IsSound core.new) }
    ensures stands { (desk : Ask → Grant) → StandsBefore desk (waiting core.old asked.value) → OnOk result (StandsBefore desk core.new) }
    ensures called { IsCalled (waiting core.old asked.value) asked.value reply.now core.new }
    ensures others { OnOk result (IsOthers core.old core.new) }
    ensures light { 16 * core.new.outgoing.others ≤ 16 * core.old.outgoing.others + 7036 }
    ensures fits { HandFits core.old → HandFits core.new }
    ensures room { HasRoom core.new.hand core.new.reader core.new.kept }
    ensures over { (desk : Ask → Grant) → StandsBefore desk (waiting core.old asked.value) → OnErr result (IsOver desk end.OutOfMemory core.new) }
{
    core.kept = None;
    core.calls.add(&Pair::of(asked, reply));
    hear(alloc, reply, &mut core.dialog, &mut core.outgoing)?;
    Ok(())
}

/// Takes in the reply to a Take, which is made if it plays and nothing is to be sent. A reply that brings no
/// item owes nothing. A unit that is longer than the longest message is refused as out of memory.
pub fn hear_item(
    core: &mut Core,
    alloc: Global,
    playing: &Playing,
    asked: Snapshot<Entry>,
    reply: Reply,
) -> Result<(), OutOfMemory>
    requires sound { IsSound core.old }
    requires open { core.old.kept ≡ None }
    requires plays { playing_in core.old.dialog.phase ≡ Some playing.now }
    requires take { is_take asked.value.call ≡ true }
    requires at { asked.value.at ≡ length core.old.x }
    requires nothing { pending core.old.outgoing ≡ [] }
    ensures sound { OnOk result (IsSound core.new) }
    ensures stands { (desk : Ask → Grant) → StandsBefore desk core.old → OnOk result (StandsBefore desk core.new) }
    ensures called { IsCalled core.old asked.value reply core.new }
    ensures others { OnOk result (core.new.outgoing.others ≡ 0) }
    ensures light { core.new.outgoing.others ≤ core.old.outgoing.others }
    ensures fits { HandFits core.old → HandFits core.new }
    ensures room { HasRoom core.new.hand core.new.reader core.new.kept }
    ensures over { (desk : Ask → Grant) → StandsBefore desk core.old → OnErr result (IsOver desk end.OutOfMemory core.new) }
{
    core.calls.add(&Pair::of(asked, &reply));
    take_in(alloc, playing.id, core.longest, reply, &mut core.outgoing)?;
    Ok(())
}

/// Notes that `count` of the encoded bytes were sent.
pub fn note_sent(core: &mut Core, alloc: Global, count: usize)
    requires sound { IsSound core.old }
    requires within { count ≤ length core.old.outgoing.ready }
    ensures sound { IsSound core.new }
    ensures stands { (desk : Ask → Grant) → StandsBefore desk core.old → StandsBefore desk core.new }
    ensures sent { IsSent core.old count core.new }
    ensures fits { HandFits core.old → HandFits core.new }
{
    let greeting = core.greeting.min(count as u64);
    core.greeting -= greeting;
    core.outbound.sent(count as u64 - greeting);
    core.sent.add_all(first(core.outgoing.ready(), count));
    core.outgoing.sent(alloc, count);
}
