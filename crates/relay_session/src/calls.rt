ghost use Rattle.stream_registry.specs.Names.{places};
ghost use Rattle.std.specs.Prelude.{◌≡◌, ◌||◌, [], length, None, Some, Result};
ghost use Rattle.command_dialog.specs.State.{playing_in};
ghost use Rattle.command_dialog.specs.declared.types.Ask.{Ask};
ghost use Rattle.command_dialog.specs.declared.types.Grant.{Grant};
ghost use Rattle.relay_session.specs.Keeping.{IsSteady, StandsBefore, waiting};
ghost use Rattle.relay_session.specs.Owing.{pending};
ghost use Rattle.relay_session.specs.Places.{AskedAlone, IsAt};
ghost use Rattle.relay_session.specs.Turns.{IsTried, Leaves, LeavesTried, Lives, LivesTried, TakeAsked, answer, is_not_yet, life};

use crate::body::Body;
use crate::steps::{hear_item, hear_reply};
use crate::{Core, End, Made, Turn};
use command_dialog::Playing;
use std::alloc::Global;
use std::snapshot::Snapshot;
use stream_model::{Call, Entry, Reply};
use stream_registry::StreamPort;

/// Returns the answer of a turn that moved something, or that did nothing.
pub(crate) fn answer_of(moved: bool) -> Turn
    ensures { result ≡ answer moved }
{
    if moved { Turn::Moved } else { Turn::Idle }
}

/// Returns whether either of the two holds.
pub(crate) fn either(a: bool, b: bool) -> bool
    ensures { result ≡ (a || b) }
{
    a || b
}

// Returns whether a reply finds nothing for the player.
fn finds_nothing(reply: &Reply) -> bool
    ensures { result ≡ is_not_yet reply.now }
{
    match reply {
        Reply::NotYet { .. } => true,
        Reply::Began { .. } => false,
        Reply::InUse { .. } => false,
        Reply::Pushed { .. } => false,
        Reply::NotPublisher { .. } => false,
        Reply::Ended { .. } => false,
        Reply::Joined { .. } => false,
        Reply::Full => false,
        Reply::NoSlot { .. } => false,
        Reply::NotPlayer => false,
        Reply::Sent { .. } => false,
        Reply::Skip { .. } => false,
        Reply::Left { .. } => false,
        Reply::Counts { .. } => false,
    }
}

// Keeps a call, which waits.
fn keep(core: &mut Core, entry: Entry)
    ensures { core.new ≡ waiting core.old entry }
{
    core.kept = Some(entry);
}

/// Makes a call that waited until then, and takes in its reply. Returns true if it was made, and false if the
/// port was busy: then it waits on.
pub(crate) fn make<P: StreamPort>(
    body: &mut Body<P>,
    port: &mut P,
    alloc: Global,
    entry: Entry,
) -> Result<bool, End>
    requires at { IsAt (P.fits port.old) (places (P.rules port.old)) (waiting body.old.core entry) body.old.seat }
    requires sound { IsSteady (waiting body.old.core entry) }
    ensures at { IsAt (P.fits port.new) (places (P.rules port.new)) body.new.core body.new.seat }
    ensures sound { LivesTried body.new.core result }
    ensures stands { (desk : Ask → Grant) → StandsBefore desk (waiting body.old.core entry) → LeavesTried desk body.new.core result }
    ensures fixed { P.rules port.new ≡ P.rules port.old }
    ensures tried { IsTried (AskedAlone P.fits P.rules P.root P.seen P.count P.wants P.busies P.adds P.kin P.branches)
        (life (waiting body.old.core entry) body.old.input port.old body.old.seat) entry result (life body.new.core body.new.input port.new body.new.seat) }
{
    let Some(place) = body.core.place else {
        unreachable!();
    };
    let asked = Snapshot::of(&entry);
    match body.seat.make(port, place, entry) {
        Made::Answer(reply) => match hear_reply(&mut body.core, alloc, asked, &reply) {
            Ok(()) => Ok(true),
            Err(_) => Err(End::OutOfMemory),
        },
        Made::Busy(entry) => {
            keep(&mut body.core, entry);
            Ok(false)
        }
        Made::Worn(entry) => {
            keep(&mut body.core, entry);
            Err(End::Worn)
        }
        Made::OutOfMemory(entry) => {
            keep(&mut body.core, entry);
            Err(End::OutOfMemory)
        }
    }
}

/// Makes a Take if it plays, no call waits and nothing is pending, and takes in its reply.
pub(crate) fn take<P: StreamPort>(
    body: &mut Body<P>,
    port: &mut P,
    alloc: Global,
    playing: &Playing,
    moved: bool,
) -> Turn
    requires at { IsAt (P.fits port.old) (places (P.rules port.old)) body.old.core body.old.seat }
    requires sound { IsSteady body.old.core }
    requires open { body.old.core.kept ≡ None }
    requires plays { playing_in body.old.core.dialog.phase ≡ Some playing.now }
    requires nothing { pending body.old.core.outgoing ≡ [] }
    ensures at { IsAt (P.fits port.new) (places (P.rules port.new)) body.new.core body.new.seat }
    ensures sound { Lives body.new.core result }
    ensures stands { (desk : Ask → Grant) → StandsBefore desk body.old.core → Leaves desk body.new.core result }
    ensures taken { TakeAsked (AskedAlone P.fits P.rules P.root P.seen P.count P.wants P.busies P.adds P.kin P.branches)
        (life body.old.core body.old.input port.old body.old.seat) playing.now moved result (life body.new.core body.new.input port.new body.new.seat) }
{
    let Some(place) = body.core.place else {
        unreachable!();
    };
    let entry = Entry {
        who: body.core.who,
        at: body.core.fed,
        call: Call::Take {
            player: playing.player,
            want: playing.want,
        },
    };
    let asked = Snapshot::of(&entry);
    match body.seat.make(port, place, entry) {
        Made::Answer(reply) => {
            let found = !finds_nothing(&reply);
            match hear_item(&mut body.core, alloc, playing, asked, reply) {
                Ok(()) => answer_of(either(moved, found)),
                Err(_) => Turn::Ended(End::OutOfMemory),
            }
        }
        Made::Busy(_) => answer_of(moved),
        Made::Worn(_) => Turn::Ended(End::Worn),
        Made::OutOfMemory(_) => Turn::Ended(End::OutOfMemory),
    }
}
