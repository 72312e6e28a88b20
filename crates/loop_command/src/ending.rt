//! The end of a run, and its remains.
ghost use Rattle.std.specs.Prelude.{◌≡◌, ◌<◌, ◌^◌, ℕ, List, true, false, nat_eq, nat_le, if◌then◌else◌, length, IfErr, OnOk};
ghost use Rattle.std.specs.declared.option.Option.{Option};
ghost use Rattle.client_law.specs.Pull.{item_in};
ghost use Rattle.av_unit.specs.declared.item.Item.TheVariants.{Unit};
ghost use Rattle.client_law.specs.Room.{BringsRoom, HasRoom, HaveRoom};
ghost use Rattle.flv_tags.specs.declared.tag.Tag.{Tag as ATag};
ghost use Rattle.relay_session.specs.Places.{IsAt};
ghost use Rattle.stream_model.specs.Counts.{is_skip};
ghost use Rattle.stream_registry.specs.Books.{FitsSole, SeenState, journal_at, sole_rules};
ghost use Rattle.stream_registry.specs.Names.{places};
ghost use Rattle.stream_registry.specs.Told.{Keeps};
ghost use Rattle.loop_command.specs.Course.{has_skipped, has_told, is_done, is_quiet, is_settled, is_still, sent_in, skips_in, text_of};
ghost use Rattle.loop_command.specs.Desk.{rules, shape};
ghost use Rattle.loop_command.specs.Lines.{GoesAhead, HasCounted, Serves};
ghost use Rattle.loop_command.specs.Looped.{IsLooped};
ghost use Rattle.loop_command.specs.Rounds.{FinishFails, IsRun, IsSettled, IsSound, IsStill};
ghost use Rattle.loop_command.specs.Sides.{SessionSide};
ghost use Rattle.loop_command.specs.declared.stop.Stop.TheVariants.{Memory};

use crate::desk::OneStream;
use crate::line::Line;
use crate::rounds::{Run, Stage};
use crate::stop::Stop;
use crate::talk::talk_law;
use av_unit::{Item, UnitArc};
use client_law::{pull_bytes_law, push_bytes_law, session_readable_law};
use refusal_law::a_session_begins_once;
use relay_session::{End, Session, Turn};
use std::alloc::Global;
use stream_core::{Call, Entry, Reply};
use stream_registry::{Sole, StreamPort};

/// The caller that asks for the counts of the stream.
const COUNTER: u64 = 3;

// ---- whether it has

fn is_done(stage: Stage) -> bool
    ensures { result ≡ is_done stage }
{
    match stage {
        Stage::Giving => false,
        Stage::Finishing => false,
        Stage::Done => true,
    }
}

fn is_same(a: u64, b: u64) -> bool
    ensures { result ≡ nat_eq a b }
{
    a == b
}

// Whether no call of the session waits, and nothing that it owes is to be sent.
fn is_still(session: &Session<Sole>) -> bool
    ensures { result ≡ is_still session.now }
{
    !session.waits() && is_same(session.pending(), 0)
}

// Then it has sent all that it owes.
fn still_law(session: &Session<Sole>)
    ensures { is_still session.now ≡ true → IsStill session.now }
{
    let _ = session.pending();
}

// Whether a reply brings an item.
fn is_sent(reply: &Reply) -> bool
    ensures { length (item_in reply.now) ≡ (if result then 1 else 0) }
{
    matches!(
        reply,
        Reply::Sent {
            from: _,
            n: _,
            item: _
        }
    )
}

// Whether no more items were sent in a history than these.
fn are_told(history: &[(Entry, Reply)], told: u64) -> bool
    ensures { result ≡ nat_le (sent_in history.now) told }
{
    let mut left = history;
    let mut untold = told;
    while let [(_, reply), rest @ ..] = left {
        if is_sent(reply) {
            if untold == 0 {
                return false;
            }
            untold -= 1;
        }
        left = rest;
    }
    true
}

// Whether the client that plays was told of all items of the stream.
fn has_told(run: &Run) -> bool
    requires { sole_rules run.now.port.rules ≡ rules }
    ensures { result ≡ has_told run.now }
{
    are_told(run.port.journal(0), run.told)
}

// Whether a reply tells a player that the stream's window has gone past its place.
fn is_skip(reply: &Reply) -> bool
    ensures { result ≡ is_skip reply.now }
{
    matches!(reply, Reply::Skip { from: _, to: _ })
}

// Whether one of a history does.
fn are_skipped(history: &[(Entry, Reply)]) -> bool
    ensures { result ≡ skips_in history.now }
{
    let mut left = history;
    while let [(_, reply), rest @ ..] = left {
        if is_skip(reply) {
            return true;
        }
        left = rest;
    }
    false
}

// Whether the player missed items of the stream.
fn has_skipped(run: &Run) -> bool
    requires { sole_rules run.now.port.rules ≡ rules }
    ensures { result ≡ has_skipped run.now }
{
    are_skipped(run.port.journal(0))
}

// Whether the stream is over for the client that plays, the other has sent all, which its session has read,
// and nothing is to be sent.
fn is_quiet(run: &Run) -> bool
    ensures { result ≡ is_quiet run.now }
{
    let done = is_done(run.stage);
    let came = is_same(run.push.session.fed(), run.push.forth);
    let published = is_still(&run.push.session);
    let played = is_still(&run.pull.session);
    let sent = is_same(run.pull.client.pending(), 0);
    run.over && done && came && published && played && sent
}

/// Whether a run has come to its end: it is quiet, and the client that plays was told of all.
pub(crate) fn is_settled(run: &Run) -> bool
    requires { IsSound run.now }
    ensures { result ≡ is_settled run.now }
{
    is_quiet(run) && has_told(run)
}

/// A run for which `is_settled` is true has the state `IsSettled`.
pub(crate) fn settled_law(run: &Run)
    ensures { is_settled run.now ≡ true → IsSettled run.now }
{
    still_law(&run.push.session);
    still_law(&run.pull.session);
}

// ---- its remains

fn time_of(unit: &UnitArc) -> u32
    ensures same { result ≡ unit.now.time }
    ensures fits { result < 2 ^ 32 }
{
    unit.unit().time
}

// A unit has room in a message.
fn unit_has_room(unit: &UnitArc)
    ensures { HasRoom 4194304 (Unit unit.now) }
{
    let _ = unit.unit();
    let _ = time_of(unit);
}

fn item_has_room(item: &Item)
    ensures { HasRoom 4194304 item.now }
{
    match item {
        Item::Begin => {}
        Item::Unit(unit) => unit_has_room(unit),
        Item::End => {}
    }
}

// So has the item that a reply brings.
fn brings_room(reply: &Reply)
    ensures { BringsRoom 4194304 reply.now }
{
    match reply {
        Reply::Sent {
            from: _,
            n: _,
            item,
        } => item_has_room(item),
        _ => {}
    }
}

/// And each item of a history.
pub(crate) fn have_room(history: &[(Entry, Reply)])
    ensures { HaveRoom 4194304 history.now }
{
    let mut left = history;
    while let [(_, reply), rest @ ..] = left {
        brings_room(reply);
        left = rest;
    }
}

// Tells a session to end, at which it ends at once: no other answer comes.
fn end_session(alloc: Global, line: &mut Line, port: &mut Sole) -> Result<(), Stop>
    requires rules { sole_rules port.old.rules ≡ rules }
    requires at { IsAt (FitsSole port.old) (places (sole_rules port.old.rules)) line.old.session.parts line.old.session.seat }
    requires still { IsStill line.old.session }
    ensures side { (who : ℕ) → Serves who port.old line.old.session line.old.far
        → OnOk result (SessionSide who line.new.far line.old.session.parts.x line.old.session.parts.calls (journal_at port.old.books 0)) }
    ensures port { (who : ℕ) → Serves who port.old line.old.session line.old.far → port.new ≡ port.old }
    ensures rules { sole_rules port.new.rules ≡ sole_rules port.old.rules }
    ensures passes { (place : ℕ) (pass : SeenState) → FitsSole port.old place pass → FitsSole port.new place pass }
    ensures far { (who : ℕ) → Serves who port.old line.old.session line.old.far → line.new.far ≡ line.old.far }
    ensures near { line.new.near ≡ line.old.near }
    ensures others { (line.new.client ≡ line.old.client) × (line.new.forth ≡ line.old.forth) × (line.new.back ≡ line.old.back) }
    ensures err { IfErr result (λ stop. stop ≡ Memory) }
{
    line.session.quit();
    match line.session.turn(alloc, port, &mut line.far, &OneStream) {
        Turn::Ended(End::Quit) => Ok(()),
        _ => Err(Stop::Memory),
    }
}

// Asks for the counts of the stream, behind all calls of the run.
fn count(port: &mut Sole) -> Result<(), Stop>
    requires rules { sole_rules port.old.rules ≡ rules }
    ensures keeps { OnOk result (Keeps shape (journal_at port.new.books 0)) }
    ensures counted { OnOk result (HasCounted port.old port.new) }
    ensures rules { sole_rules port.new.rules ≡ sole_rules port.old.rules }
    ensures ahead { GoesAhead port.old port.new }
    ensures err { IfErr result (λ stop. stop ≡ Memory) }
{
    let mut pass = port.attach(0);
    match port.call(
        0,
        &mut pass,
        Entry {
            who: COUNTER,
            at: 0,
            call: Call::Count,
        },
    ) {
        Ok(_) => Ok(()),
        Err(_) => Err(Stop::Memory),
    }
}

/// Ends a run that is settled, unless the player missed items of the stream: the stream tells its counts, the
/// sessions end, and the stream's history is looked through.
pub(crate) fn finish(alloc: Global, run: &mut Run) -> Result<(), Stop>
    requires sound { IsSound run.old }
    requires settled { IsSettled run.old }
    ensures looped { (file : List ATag) (old now : Option (List ℕ)) → IsRun file run.old old now → OnOk result (IsLooped file (text_of run.old)) }
    ensures unskipped { OnOk result (has_skipped run.old ≡ false) }
    ensures err { IfErr result (λ stop. FinishFails stop run.old) }
{
    push_bytes_law();
    pull_bytes_law();
    session_readable_law();
    a_session_begins_once();
    if has_skipped(run) {
        return Err(Stop::Unfinished);
    }
    talk_law(run);
    count(&mut run.port)?;
    end_session(alloc, &mut run.push, &mut run.port)?;
    end_session(alloc, &mut run.pull, &mut run.port)?;
    have_room(run.port.journal(0));
    Ok(())
}
