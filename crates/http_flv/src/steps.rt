//! The effect of each step on the state that a player keeps.
ghost use Rattle.std.specs.Prelude.{◌≡◌, ◌≤◌, ◌<◌, ◌+◌, ◌^◌, ◌++◌, ℕ, [], length, take, None, IfOk, OnOk, OnErr};
ghost use Rattle.command_dialog.specs.declared.types.Ask.{Ask};
ghost use Rattle.command_dialog.specs.declared.types.Grant.{Grant};
ghost use Rattle.http_flv.specs.Deciding.{decided};
ghost use Rattle.http_flv.specs.Keeping.{HasEnded, IsOver, IsSound, StandsBefore, after_join, waiting};
ghost use Rattle.http_flv.specs.Out.{owed_after};
ghost use Rattle.http_flv.specs.Sending.{size_of};
ghost use Rattle.http_flv.specs.Turns.{IsDone, IsDropped, IsHeard, IsJoined, IsPlaying, IsSent, IsTaken, IsUnheard, LeavesHead, PlaceBy, noted, reply_bytes, unheard};
ghost use Rattle.http_flv.specs.declared.stage.Stage.TheVariants.{Reading};

use crate::decision::{Decision, decide};
use crate::texts::{no_text, tag_text, yes_text};
use crate::{Core, Outbox, Stage};
use av_unit::{Bytes, OutOfMemory};
use command_dialog::Act;
use http_request::{Refusal, nothing_is_unfinished};
use past::{Flow, Pair};
use relay_session::Desk;
use std::alloc::Global;
use std::snapshot::Snapshot;
use stream_model::{Entry, Reply};

/// Makes a player of this name that has received nothing. It sends units of at most `longest` bytes.
pub(crate) fn new_core(alloc: Global, who: u64, longest: u32) -> Core
    requires { longest ≤ 4194304 }
    ensures sound { IsSound result }
    ensures stands { (desk : Ask → Grant) → StandsBefore desk result }
    ensures fixed { (result.who ≡ who) × (result.longest ≡ longest) }
    ensures empty { (result.x ≡ []) × (result.later ≡ []) × (result.calls ≡ []) × (result.sent ≡ []) × (result.out.left ≡ []) }
    ensures stage { (result.stage ≡ Reading) × (result.kept ≡ None) }
{
    nothing_is_unfinished();
    Core {
        who,
        longest,
        stage: Stage::Reading,
        head: Bytes::new(alloc),
        fed: 0,
        out: Outbox::of(Bytes::new(alloc)),
        kept: None,
        x: Flow::new(),
        later: Flow::new(),
        calls: Flow::new(),
        sent: Flow::new(),
    }
}

/// Notes that `count` of the bytes that are left were sent.
pub(crate) fn note_sent(core: &mut Core, alloc: Global, count: usize)
    requires sound { IsSound core.old }
    requires within { count ≤ length core.old.out.left }
    ensures sound { IsSound core.new }
    ensures stands { (desk : Ask → Grant) → StandsBefore desk core.old → StandsBefore desk core.new }
    ensures sent { IsSent core.old count core.new }
{
    core.sent.add_all(&core.out.left()[..count]);
    core.out.sent(alloc, count);
}

/// Drops bytes that came after the head.
pub(crate) fn drop_bytes(core: &mut Core, bytes: &[u8])
    requires { IsSound core.old }
    ensures sound { IsSound core.new }
    ensures stands { (desk : Ask → Grant) → StandsBefore desk core.old → StandsBefore desk core.new }
    ensures dropped { IsDropped core.old bytes.now core.new }
{
    core.later.add_all(bytes);
}

// Carries out a decision on the bytes of the head.
fn carry_out(core: &mut Core, alloc: Global, decision: Decision) -> Result<(), OutOfMemory>
    requires { core.old.fed ≡ length core.old.x }
    ensures done { OnOk result (IsDone (decided decision) core.old core.new) }
    ensures head { OnOk result (LeavesHead (decided decision) core.old.head core.new.head) }
    ensures rest { OnOk result (core.new ≡ record core.old { head = core.new.head; stage = core.new.stage; kept = core.new.kept; out = core.new.out }) }
    ensures light { (n : ℕ) → size_of core.old.out ≤ n + 256 → OnOk result (size_of core.new.out ≤ n + 256) }
    ensures err { OnErr result (core.new ≡ core.old) }
{
    match decision {
        Decision::Later => Ok(()),
        Decision::Tell(refusal) => {
            core.out = Outbox::of(no_text(alloc, refusal)?);
            core.head = Bytes::new(alloc);
            core.stage = Stage::Telling { refusal };
            Ok(())
        }
        Decision::Join { place, name } => {
            let call = Act::Join { place, name }.into_call(alloc)?;
            core.head = Bytes::new(alloc);
            core.stage = Stage::Joining { place };
            core.kept = Some(Entry {
                who: core.who,
                at: core.fed,
                call,
            });
            Ok(())
        }
    }
}

// Appends bytes to the head.
fn take_in(core: &mut Core, bytes: &[u8]) -> Result<(), OutOfMemory>
    ensures ok { OnOk result (core.new ≡ record core.old { head = core.old.head ++ bytes.now }) }
    ensures err { OnErr result (core.new ≡ core.old) }
{
    core.head.append(bytes)
}

// Drops the bytes of a head.
fn let_go(core: &mut Core, alloc: Global)
    ensures { core.new ≡ record core.old { head = [] } }
{
    core.head = Bytes::new(alloc);
}

// Counts these bytes as read.
fn count(core: &mut Core, bytes: &[u8])
    requires { core.old.fed + length bytes.now < 2 ^ 64 }
    ensures { core.new ≡ record core.old { fed = core.old.fed + length bytes.now; x = core.old.x ++ bytes.now } }
{
    core.fed += bytes.len() as u64;
    core.x.add_all(bytes);
}

// Takes in bytes of the head, and carries out the decision on it.
fn note_bytes<D: Desk>(
    core: &mut Core,
    alloc: Global,
    desk: &D,
    bytes: &[u8],
) -> Result<(), OutOfMemory>
    requires sound { IsSound core.old }
    requires reading { core.old.stage ≡ Reading }
    requires few { length bytes.now ≤ 4096 }
    ensures sound { OnOk result (IsSound core.new) }
    ensures ended { OnErr result (HasEnded core.new) }
    ensures heard { OnOk result (IsHeard (D.grants desk.now) core.old bytes.now core.new) }
    ensures failed { OnErr result (IsUnheard core.old bytes.now core.new) }
    ensures stays { OnErr result (core.new.stage ≡ core.old.stage) }
{
    match take_in(core, bytes) {
        Ok(()) => {}
        Err(fail) => return Err(fail),
    }
    let decision = match decide(alloc, desk, core.head.as_slice()) {
        Ok(decision) => decision,
        Err(fail) => {
            let_go(core, alloc);
            return Err(fail);
        }
    };
    count(core, bytes);
    match carry_out(core, alloc, decision) {
        Ok(()) => Ok(()),
        Err(fail) => {
            let_go(core, alloc);
            Err(fail)
        }
    }
}

/// Reads bytes of the head, while it isn't whole.
pub(crate) fn read_bytes<D: Desk>(
    core: &mut Core,
    alloc: Global,
    desk: &D,
    bytes: &[u8],
) -> Result<(), OutOfMemory>
    requires sound { IsSound core.old }
    requires reading { core.old.stage ≡ Reading }
    requires few { length bytes.now ≤ 4096 }
    ensures sound { OnOk result (IsSound core.new) }
    ensures ended { OnErr result (HasEnded core.new) }
    ensures stands { StandsBefore (D.grants desk.now) core.old → OnOk result (StandsBefore (D.grants desk.now) core.new) }
    ensures over { StandsBefore (D.grants desk.now) core.old → OnErr result (IsOver (D.grants desk.now) core.new) }
    ensures heard { OnOk result (IsHeard (D.grants desk.now) core.old bytes.now core.new) }
    ensures failed { OnErr result (IsUnheard core.old bytes.now core.new) }
    ensures stays { OnErr result (core.new.stage ≡ core.old.stage) }
{
    match note_bytes(core, alloc, desk, bytes) {
        Ok(()) => Ok(()),
        Err(fail) => Err(fail),
    }
}

// Returns the bytes to be sent after a Join was answered, and the stage of the player then.
fn joined(alloc: Global, place: u32, reply: &Reply) -> Result<(Stage, Bytes), OutOfMemory>
    ensures stage { IfOk result (λ p. p.0 ≡ after_join place reply.now) }
    ensures text { IfOk result (λ p. p.1 ≡ owed_after reply.now []) }
    ensures short { IfOk result (λ p. length p.1 ≤ 256) }
{
    match reply {
        Reply::Joined { player, from: _ } => {
            let stage = Stage::Playing {
                place,
                player: *player,
            };
            Ok((stage, yes_text(alloc)?))
        }
        Reply::Began { .. }
        | Reply::InUse { .. }
        | Reply::Pushed { .. }
        | Reply::NotPublisher { .. }
        | Reply::Ended { .. }
        | Reply::Full
        | Reply::NoSlot { .. }
        | Reply::NotPlayer
        | Reply::Sent { .. }
        | Reply::Skip { .. }
        | Reply::NotYet { .. }
        | Reply::Left { .. }
        | Reply::Counts { .. } => {
            let refusal = Refusal::ServiceUnavailable;
            Ok((Stage::Telling { refusal }, no_text(alloc, refusal)?))
        }
    }
}

// Takes in the reply to its Join, which waited until then.
fn note_join(
    core: &mut Core,
    alloc: Global,
    place: u32,
    asked: Snapshot<Entry>,
    reply: &Reply,
) -> Result<(), OutOfMemory>
    requires sound { IsSound (waiting core.old asked.value) }
    requires joining { PlaceBy core.old.stage place }
    ensures sound { OnOk result (IsSound core.new) }
    ensures ended { OnErr result (HasEnded core.new) }
    ensures joined { OnOk result (IsJoined place (waiting core.old asked.value) asked.value reply.now core.new) }
    ensures failed { OnErr result (core.new ≡ unheard core.old asked.value reply.now) }
{
    core.kept = None;
    core.calls.add(&Pair::of(asked, reply));
    let (stage, text) = joined(alloc, place, reply)?;
    core.stage = stage;
    core.out = Outbox::of(text);
    Ok(())
}

/// Takes in the reply to its Join, which waited until then.
pub(crate) fn hear_join(
    core: &mut Core,
    alloc: Global,
    place: u32,
    asked: Snapshot<Entry>,
    reply: &Reply,
) -> Result<(), OutOfMemory>
    requires sound { IsSound (waiting core.old asked.value) }
    requires joining { PlaceBy core.old.stage place }
    ensures sound { OnOk result (IsSound core.new) }
    ensures ended { OnErr result (HasEnded core.new) }
    ensures stands { (desk : Ask → Grant) → StandsBefore desk (waiting core.old asked.value) → OnOk result (StandsBefore desk core.new) }
    ensures over { (desk : Ask → Grant) → StandsBefore desk (waiting core.old asked.value) → OnErr result (IsOver desk core.new) }
    ensures joined { OnOk result (IsJoined place (waiting core.old asked.value) asked.value reply.now core.new) }
    ensures failed { OnErr result (core.new ≡ unheard core.old asked.value reply.now) }
{
    match note_join(core, alloc, place, asked, reply) {
        Ok(()) => Ok(()),
        Err(fail) => Err(fail),
    }
}

// Returns the bytes to be sent after a Take was answered.
fn taken(alloc: Global, longest: u32, reply: &Reply) -> Result<Bytes, OutOfMemory>
    ensures text { IfOk result (λ b. b ≡ reply_bytes reply.now) }
    ensures short { IfOk result (λ b. length b ≤ longest + 256) }
{
    match reply {
        Reply::Sent {
            from: _,
            n: _,
            item,
        } => tag_text(alloc, longest, item),
        Reply::Began { .. }
        | Reply::InUse { .. }
        | Reply::Pushed { .. }
        | Reply::NotPublisher { .. }
        | Reply::Ended { .. }
        | Reply::Joined { .. }
        | Reply::Full
        | Reply::NoSlot { .. }
        | Reply::NotPlayer
        | Reply::Skip { .. }
        | Reply::NotYet { .. }
        | Reply::Left { .. }
        | Reply::Counts { .. } => Ok(Bytes::new(alloc)),
    }
}

// Takes in the reply to a Take.
fn note_item(
    core: &mut Core,
    alloc: Global,
    asked: Snapshot<Entry>,
    reply: &Reply,
) -> Result<(), OutOfMemory>
    requires sound { IsSound core.old }
    requires plays { IsPlaying core.old.stage }
    ensures sound { OnOk result (IsSound core.new) }
    ensures ended { OnErr result (HasEnded core.new) }
    ensures taken { OnOk result (IsTaken core.old asked.value reply.now core.new) }
    ensures failed { OnErr result (core.new ≡ noted core.old asked.value reply.now) }
{
    core.calls.add(&Pair::of(asked, reply));
    core.out = Outbox::of(taken(alloc, core.longest, reply)?);
    Ok(())
}

/// Takes in the reply to a Take, which is made if it plays and nothing is pending.
pub(crate) fn hear_item(
    core: &mut Core,
    alloc: Global,
    asked: Snapshot<Entry>,
    reply: &Reply,
) -> Result<(), OutOfMemory>
    requires sound { IsSound core.old }
    requires plays { IsPlaying core.old.stage }
    requires nothing { core.old.out.left ≡ [] }
    ensures sound { OnOk result (IsSound core.new) }
    ensures ended { OnErr result (HasEnded core.new) }
    ensures stands { (desk : Ask → Grant) → StandsBefore desk core.old → OnOk result (StandsBefore desk core.new) }
    ensures over { (desk : Ask → Grant) → StandsBefore desk core.old → OnErr result (IsOver desk core.new) }
    ensures taken { OnOk result (IsTaken core.old asked.value reply.now core.new) }
    ensures failed { OnErr result (core.new ≡ noted core.old asked.value reply.now) }
{
    match note_item(core, alloc, asked, reply) {
        Ok(()) => Ok(()),
        Err(fail) => Err(fail),
    }
}
