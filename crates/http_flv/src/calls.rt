//! The calls of a player at a stream.
ghost use Rattle.stream_registry.specs.Names.{places};
ghost use Rattle.std.specs.Prelude.{◌≡◌, ◌||◌, length, None, Some};
ghost use Rattle.command_dialog.specs.declared.types.Ask.{Ask};
ghost use Rattle.command_dialog.specs.declared.types.Grant.{Grant};
ghost use Rattle.relay_session.specs.Places.{AskedAlone};
ghost use Rattle.relay_session.specs.Turns.{is_not_yet};
ghost use Rattle.http_flv.specs.Keeping.{IsAt, IsSound, StandsBefore, waiting};
ghost use Rattle.http_flv.specs.Turns.{IsTried, Leaves, LeavesTried, Lives, LivesTried, TakeAsked, answer, life, takes};

use crate::body::Body;
use crate::steps::{hear_item, hear_join};
use crate::{Core, HttpEnd, HttpTurn, Stage};
use av_unit::Want;
use relay_session::Made;
use std::alloc::Global;
use std::snapshot::Snapshot;
use stream_model::{Call, Entry, Reply};
use stream_registry::StreamPort;

/// Returns the answer of a turn that moved something, or that did nothing.
pub(crate) fn answer_of(moved: bool) -> HttpTurn
    ensures { result ≡ answer moved }
{
    if moved {
        HttpTurn::Moved
    } else {
        HttpTurn::Idle
    }
}

// Returns whether a reply finds nothing for the player.
fn finds_nothing(reply: &Reply) -> bool
    ensures { result ≡ is_not_yet reply.now }
{
    match reply {
        Reply::NotYet { .. } => true,
        Reply::Began { .. } => false,
        Reply::InUse { .. } => false,
        Reply::Pushed { .. } => false,
        Reply::NotPublisher { .. } => false,
        Reply::Ended { .. } => false,
        Reply::Joined { .. } => false,
        Reply::Full => false,
        Reply::NoSlot { .. } => false,
        Reply::NotPlayer => false,
        Reply::Sent { .. } => false,
        Reply::Skip { .. } => false,
        Reply::Left { .. } => false,
        Reply::Counts { .. } => false,
    }
}

fn either(a: bool, b: bool) -> bool
    ensures { result ≡ (a || b) }
{
    a || b
}

// Keeps a call, which waits.
fn keep(core: &mut Core, entry: Entry)
    ensures { core.new ≡ waiting core.old entry }
{
    core.kept = Some(entry);
}

/// Makes the Join that waited until then, and takes in its reply. Returns true if it was made, and false if
/// the port was busy: then it waits on.
pub(crate) fn make<P: StreamPort>(
    body: &mut Body<P>,
    port: &mut P,
    alloc: Global,
    entry: Entry,
) -> Result<bool, HttpEnd>
    requires at { IsAt (P.fits port.old) (places (P.rules port.old)) (waiting body.old.core entry) body.old.seat }
    requires sound { IsSound (waiting body.old.core entry) }
    ensures at { IsAt (P.fits port.new) (places (P.rules port.new)) body.new.core body.new.seat }
    ensures sound { LivesTried body.new.core result }
    ensures stands { (desk : Ask → Grant) → StandsBefore desk (waiting body.old.core entry) → LeavesTried desk body.new.core result }
    ensures fixed { P.rules port.new ≡ P.rules port.old }
    ensures tried { IsTried (AskedAlone P.fits P.rules P.root P.seen P.count P.wants P.busies P.adds P.kin P.branches)
        (life (waiting body.old.core entry) port.old body.old.seat) entry result (life body.new.core port.new body.new.seat) }
{
    let Stage::Joining { place } = body.core.stage else {
        unreachable!();
    };
    let asked = Snapshot::of(&entry);
    match body.seat.make(port, place, entry) {
        Made::Answer(reply) => match hear_join(&mut body.core, alloc, place, asked, &reply) {
            Ok(()) => Ok(true),
            Err(_) => Err(HttpEnd::OutOfMemory),
        },
        Made::Busy(entry) => {
            keep(&mut body.core, entry);
            Ok(false)
        }
        Made::Worn(entry) => {
            keep(&mut body.core, entry);
            Err(HttpEnd::Worn)
        }
        Made::OutOfMemory(entry) => {
            keep(&mut body.core, entry);
            Err(HttpEnd::OutOfMemory)
        }
    }
}

/// Makes a Take as this player at this place, if it plays there and nothing is pending, and takes in its
/// reply.
pub(crate) fn take<P: StreamPort>(
    body: &mut Body<P>,
    port: &mut P,
    alloc: Global,
    place: u32,
    player: u32,
    moved: bool,
) -> HttpTurn
    requires at { IsAt (P.fits port.old) (places (P.rules port.old)) body.old.core body.old.seat }
    requires sound { IsSound body.old.core }
    requires takes { takes body.old.core ≡ Some (place, player) }
    ensures at { IsAt (P.fits port.new) (places (P.rules port.new)) body.new.core body.new.seat }
    ensures sound { Lives body.new.core result }
    ensures stands { (desk : Ask → Grant) → StandsBefore desk body.old.core → Leaves desk body.new.core result }
    ensures taken { TakeAsked (AskedAlone P.fits P.rules P.root P.seen P.count P.wants P.busies P.adds P.kin P.branches)
        (life body.old.core port.old body.old.seat) place player moved result (life body.new.core port.new body.new.seat) }
{
    let want = Want {
        audio: true,
        video: true,
    };
    let entry = Entry {
        who: body.core.who,
        at: body.core.fed,
        call: Call::Take { player, want },
    };
    let asked = Snapshot::of(&entry);
    match body.seat.make(port, place, entry) {
        Made::Answer(reply) => {
            let found = !finds_nothing(&reply);
            match hear_item(&mut body.core, alloc, asked, &reply) {
                Ok(()) => answer_of(either(moved, found)),
                Err(_) => HttpTurn::Ended(HttpEnd::OutOfMemory),
            }
        }
        Made::Busy(_) => answer_of(moved),
        Made::Worn(_) => HttpTurn::Ended(HttpEnd::Worn),
        Made::OutOfMemory(_) => HttpTurn::Ended(HttpEnd::OutOfMemory),
    }
}
