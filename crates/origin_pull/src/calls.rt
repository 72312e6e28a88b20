//! The calls of an edge at its place.
ghost use Rattle.stream_registry.specs.Names.{places};
ghost use Rattle.std.specs.Prelude.{◌≡◌, ◌++◌, ◌∷◌, [], None, Some};
ghost use Rattle.relay_session.specs.Places.{AskedAlone};
ghost use Rattle.origin_calls.specs.Calls.{entry_of};
ghost use Rattle.origin_pull.specs.Keeping.{IsAt, listed, waiting};
ghost use Rattle.origin_pull.specs.Turns.{Called, after, after_begin, is_begin, life};
ghost use Rattle.origin_pull.specs.declared.due.Due.TheVariants as due;

use crate::body::Body;
use crate::{Core, Due, EdgeEnd, EdgeTurn};
use past::Pair;
use relay_session::Made;
use std::snapshot::Snapshot;
use stream_model::{Call, Entry, Reply};
use stream_registry::StreamPort;

// Makes an entry of this name for a call.
fn entry_of(who: u64, call: Call) -> Entry
    ensures { result ≡ entry_of who call }
{
    Entry { who, at: 0, call }
}

// Takes the first call that is due, if none is kept.
fn first_due(core: &mut Core) -> Option<Entry>
    requires { core.old.kept ≡ None }
    ensures rest { core.new ≡ record core.old { due = core.new.due } }
    ensures order { listed result ++ waiting core.new ≡ waiting core.old }
    ensures none { result ≡ None → core.new.due ≡ due.Nothing }
{
    match std::mem::replace(&mut core.due, Due::Nothing) {
        Due::Nothing => None,
        Due::One(call) => Some(entry_of(core.who, call)),
        Due::Two(call, later) => {
            core.due = Due::One(later);
            Some(entry_of(core.who, call))
        }
    }
}

/// Takes the call that is to be made next: the kept one, else the first that is due.
pub(crate) fn next_call(core: &mut Core) -> Option<Entry>
    ensures rest { core.new ≡ record core.old { kept = None; due = core.new.due } }
    ensures order { listed result ++ waiting core.new ≡ waiting core.old }
    ensures none { result ≡ None → core.new.due ≡ due.Nothing }
{
    match core.kept.take() {
        None => first_due(core),
        Some(entry) => Some(entry),
    }
}

// Returns whether a call begins a broadcast.
fn is_begin(call: &Call) -> bool
    ensures { result ≡ is_begin call.now }
{
    match call {
        Call::Begin => true,
        Call::Push(_) => false,
        Call::End => false,
        Call::Join => false,
        Call::Take { .. } => false,
        Call::Leave { .. } => false,
        Call::Count => false,
        Call::BeginAs(_) => false,
        Call::JoinAs(_) => false,
    }
}

// Returns the answer of a turn after the reply to a Begin.
fn after_begin(reply: &Reply) -> EdgeTurn
    ensures { result ≡ after_begin reply.now }
{
    match reply {
        Reply::InUse { by } => EdgeTurn::Ended(EdgeEnd::InUse { by: *by }),
        Reply::NoSlot { .. } => EdgeTurn::Ended(EdgeEnd::NoSlot),
        Reply::Began { .. } => EdgeTurn::Moved,
        Reply::Pushed { .. } => EdgeTurn::Moved,
        Reply::NotPublisher { .. } => EdgeTurn::Moved,
        Reply::Ended { .. } => EdgeTurn::Moved,
        Reply::Joined { .. } => EdgeTurn::Moved,
        Reply::Full => EdgeTurn::Moved,
        Reply::NotPlayer => EdgeTurn::Moved,
        Reply::Sent { .. } => EdgeTurn::Moved,
        Reply::Skip { .. } => EdgeTurn::Moved,
        Reply::NotYet { .. } => EdgeTurn::Moved,
        Reply::Left { .. } => EdgeTurn::Moved,
        Reply::Counts { .. } => EdgeTurn::Moved,
    }
}

// Returns the answer of a turn after the reply to a call.
fn after(begins: bool, reply: &Reply) -> EdgeTurn
    ensures { result ≡ after begins reply.now }
{
    if begins {
        after_begin(reply)
    } else {
        EdgeTurn::Moved
    }
}

// Keeps a call.
fn keep(core: &mut Core, entry: Entry)
    ensures { core.new ≡ record core.old { kept = Some entry } }
{
    core.kept = Some(entry);
}

// Notes that a call was answered.
fn note(core: &mut Core, asked: Snapshot<Entry>, reply: &Reply)
    ensures { core.new ≡ record core.old { calls = core.old.calls ++ (asked.value, reply.now) ∷ [] } }
{
    core.calls.add(&Pair::of(asked, reply));
}

/// Makes a call, if none is kept. A call that finds the port busy is kept.
pub(crate) fn make<P: StreamPort>(body: &mut Body<P>, port: &mut P, entry: Entry) -> EdgeTurn
    requires at { IsAt (P.fits port.old) (places (P.rules port.old)) body.old.core body.old.seat }
    requires free { body.old.core.kept ≡ None }
    ensures at { IsAt (P.fits port.new) (places (P.rules port.new)) body.new.core body.new.seat }
    ensures called { Called (AskedAlone P.fits P.rules P.root P.seen P.count P.wants P.busies P.adds P.kin P.branches)
        (life body.old.core body.old.client port.old body.old.seat) entry (waiting body.old.core) result
        (life body.new.core body.new.client port.new body.new.seat) }
{
    let place = body.core.place;
    let begins = is_begin(&entry.call);
    let asked = Snapshot::of(&entry);
    match body.seat.make(port, place, entry) {
        Made::Answer(reply) => {
            note(&mut body.core, asked, &reply);
            after(begins, &reply)
        }
        Made::Busy(entry) => {
            keep(&mut body.core, entry);
            EdgeTurn::Idle
        }
        Made::Worn(entry) => {
            keep(&mut body.core, entry);
            EdgeTurn::Ended(EdgeEnd::Worn)
        }
        Made::OutOfMemory(entry) => {
            keep(&mut body.core, entry);
            EdgeTurn::Ended(EdgeEnd::OutOfMemory)
        }
    }
}
