//! The steps of a turn, the last first. Each function does one step and those after it.
ghost use Rattle.stream_registry.specs.Names.{places};
ghost use Rattle.std.specs.Prelude.{◌≡◌, ◌≤◌, [], length, take, None};
ghost use Rattle.command_dialog.specs.declared.types.Ask.{Ask};
ghost use Rattle.command_dialog.specs.declared.types.Grant.{Grant};
ghost use Rattle.relay_session.specs.Places.{AskedAlone, IsOffered};
ghost use Rattle.http_flv.specs.Keeping.{IsAt, IsSound, StandsBefore};
ghost use Rattle.http_flv.specs.Turns.{HeardBy, Input, JoinedBy, KeptOn, Leaves, Lives, ReadBy, Sent, Taken, life, takes, told};
ghost use Rattle.http_flv.specs.declared.stage.Stage.TheVariants.{Reading};

use crate::body::Body;
use crate::calls::{answer_of, make, take};
use crate::steps::{drop_bytes, note_sent, read_bytes};
use crate::{Core, HttpEnd, HttpTurn, Stage};
use relay_outside::{Heard, Link, Said};
use relay_session::Desk;
use std::alloc::Global;
use stream_registry::StreamPort;

// The largest numbers of bytes that are sent at once, and received at once.
const SEND_MOST: usize = 16_384;

const RECEIVE_MOST: usize = 4_096;

// Returns the first `count` bytes, or all.
fn first(bytes: &[u8], count: usize) -> &[u8]
    ensures value { result.now ≡ take count bytes.now }
    ensures within { length result.now ≤ length bytes.now }
    ensures few { length result.now ≤ count }
{
    &bytes[..count.min(bytes.len())]
}

// Returns the place and the player for which a Take is to be made.
fn next_take(core: &Core) -> Option<(u32, u32)>
    ensures { result ≡ takes core.now }
{
    match core.stage {
        Stage::Playing { place, player } => {
            if core.out.is_empty() {
                Some((place, player))
            } else {
                None
            }
        }
        Stage::Reading => None,
        Stage::Joining { .. } => None,
        Stage::Telling { .. } => None,
    }
}

// Returns the status code of the text, other than 200, that was sent whole.
fn told_whole(core: &Core) -> Option<u16>
    ensures { result ≡ told core.now }
{
    match core.stage {
        Stage::Telling { refusal } => {
            if core.out.is_empty() {
                Some(refusal.code())
            } else {
                None
            }
        }
        Stage::Reading => None,
        Stage::Joining { .. } => None,
        Stage::Playing { .. } => None,
    }
}

/// Does step 6: one Take, if it is to be made.
fn take_on<P: StreamPort>(body: &mut Body<P>, port: &mut P, alloc: Global, moved: bool) -> HttpTurn
    requires at { IsAt (P.fits port.old) (places (P.rules port.old)) body.old.core body.old.seat }
    requires sound { IsSound body.old.core }
    ensures at { IsAt (P.fits port.new) (places (P.rules port.new)) body.new.core body.new.seat }
    ensures sound { Lives body.new.core result }
    ensures stands { (desk : Ask → Grant) → StandsBefore desk body.old.core → Leaves desk body.new.core result }
    ensures turn { Taken (AskedAlone P.fits P.rules P.root P.seen P.count P.wants P.busies P.adds P.kin P.branches)
        (life body.old.core port.old body.old.seat) moved result (life body.new.core port.new body.new.seat) }
{
    match next_take(&body.core) {
        None => answer_of(moved),
        Some((place, player)) => take(body, port, alloc, place, player, moved),
    }
}

/// Makes the Join that a head asked for, and does step 6.
fn join_on<P: StreamPort>(body: &mut Body<P>, port: &mut P, alloc: Global) -> HttpTurn
    requires at { IsAt (P.fits port.old) (places (P.rules port.old)) body.old.core body.old.seat }
    requires sound { IsSound body.old.core }
    ensures at { IsAt (P.fits port.new) (places (P.rules port.new)) body.new.core body.new.seat }
    ensures sound { Lives body.new.core result }
    ensures stands { (desk : Ask → Grant) → StandsBefore desk body.old.core → Leaves desk body.new.core result }
    ensures turn { JoinedBy (AskedAlone P.fits P.rules P.root P.seen P.count P.wants P.busies P.adds P.kin P.branches) body.old.core.kept
        (life body.old.core port.old body.old.seat) result (life body.new.core port.new body.new.seat) }
{
    match body.core.kept.take() {
        None => take_on(body, port, alloc, true),
        Some(entry) => match make(body, port, alloc, entry) {
            Ok(_) => take_on(body, port, alloc, true),
            Err(end) => HttpTurn::Ended(end),
        },
    }
}

/// Reads bytes of a head, and does what they ask for.
fn hear_on<P: StreamPort, D: Desk>(
    body: &mut Body<P>,
    port: &mut P,
    desk: &D,
    alloc: Global,
    bytes: &[u8],
) -> HttpTurn
    requires at { IsAt (P.fits port.old) (places (P.rules port.old)) body.old.core body.old.seat }
    requires sound { IsSound body.old.core }
    requires offered { IsOffered (D.grants desk.now) (places (P.rules port.old)) }
    requires reading { body.old.core.stage ≡ Reading }
    requires few { length bytes.now ≤ 4096 }
    ensures at { IsAt (P.fits port.new) (places (P.rules port.new)) body.new.core body.new.seat }
    ensures sound { Lives body.new.core result }
    ensures stands { StandsBefore (D.grants desk.now) body.old.core → Leaves (D.grants desk.now) body.new.core result }
    ensures turn { HeardBy (AskedAlone P.fits P.rules P.root P.seen P.count P.wants P.busies P.adds P.kin P.branches) (D.grants desk.now) bytes.now
        (life body.old.core port.old body.old.seat) result (life body.new.core port.new body.new.seat) }
{
    match read_bytes(&mut body.core, alloc, desk, bytes) {
        Ok(()) => join_on(body, port, alloc),
        Err(_) => HttpTurn::Ended(HttpEnd::OutOfMemory),
    }
}

/// Takes in bytes: of a head, or after it.
fn read_on<P: StreamPort, D: Desk>(
    body: &mut Body<P>,
    port: &mut P,
    desk: &D,
    alloc: Global,
    bytes: &[u8],
) -> HttpTurn
    requires at { IsAt (P.fits port.old) (places (P.rules port.old)) body.old.core body.old.seat }
    requires sound { IsSound body.old.core }
    requires offered { IsOffered (D.grants desk.now) (places (P.rules port.old)) }
    requires few { length bytes.now ≤ 4096 }
    ensures at { IsAt (P.fits port.new) (places (P.rules port.new)) body.new.core body.new.seat }
    ensures sound { Lives body.new.core result }
    ensures stands { StandsBefore (D.grants desk.now) body.old.core → Leaves (D.grants desk.now) body.new.core result }
    ensures turn { ReadBy (AskedAlone P.fits P.rules P.root P.seen P.count P.wants P.busies P.adds P.kin P.branches) (D.grants desk.now)
        body.old.core.stage bytes.now (life body.old.core port.old body.old.seat) result (life body.new.core port.new body.new.seat) }
{
    match body.core.stage {
        Stage::Reading => hear_on(body, port, desk, alloc, bytes),
        Stage::Joining { .. } | Stage::Telling { .. } | Stage::Playing { .. } => {
            drop_bytes(&mut body.core, bytes);
            take_on(body, port, alloc, true)
        }
    }
}

/// Does step 5 and that after it: one recv.
fn input_on<P: StreamPort, D: Desk, L: Link>(
    body: &mut Body<P>,
    port: &mut P,
    link: &mut L,
    desk: &D,
    alloc: Global,
    moved: bool,
) -> HttpTurn
    requires at { IsAt (P.fits port.old) (places (P.rules port.old)) body.old.core body.old.seat }
    requires sound { IsSound body.old.core }
    requires offered { IsOffered (D.grants desk.now) (places (P.rules port.old)) }
    ensures at { IsAt (P.fits port.new) (places (P.rules port.new)) body.new.core body.new.seat }
    ensures sound { Lives body.new.core result }
    ensures stands { StandsBefore (D.grants desk.now) body.old.core → Leaves (D.grants desk.now) body.new.core result }
    ensures turn { Input (AskedAlone P.fits P.rules P.root P.seen P.count P.wants P.busies P.adds P.kin P.branches) (D.grants desk.now) L.hears
        (life body.old.core port.old body.old.seat) link.old moved result (life body.new.core port.new body.new.seat) link.new }
{
    let mut room = [0u8; RECEIVE_MOST];
    match link.recv(&mut room) {
        Heard::NotYet => take_on(body, port, alloc, moved),
        Heard::End => HttpTurn::Ended(HttpEnd::PeerClosed),
        Heard::Failed => HttpTurn::Ended(HttpEnd::LinkFault),
        Heard::Bytes(count) => read_on(body, port, desk, alloc, first(&room, count)),
    }
}

/// Does step 4 and those after it: one send, if anything is pending. A player that was refused ends if the
/// refusal was sent whole.
fn send_on<P: StreamPort, D: Desk, L: Link>(
    body: &mut Body<P>,
    port: &mut P,
    link: &mut L,
    desk: &D,
    alloc: Global,
    moved: bool,
) -> HttpTurn
    requires at { IsAt (P.fits port.old) (places (P.rules port.old)) body.old.core body.old.seat }
    requires sound { IsSound body.old.core }
    requires offered { IsOffered (D.grants desk.now) (places (P.rules port.old)) }
    ensures at { IsAt (P.fits port.new) (places (P.rules port.new)) body.new.core body.new.seat }
    ensures sound { Lives body.new.core result }
    ensures stands { StandsBefore (D.grants desk.now) body.old.core → Leaves (D.grants desk.now) body.new.core result }
    ensures turn { Sent (AskedAlone P.fits P.rules P.root P.seen P.count P.wants P.busies P.adds P.kin P.branches) (D.grants desk.now)
        L.hears L.says (life body.old.core port.old body.old.seat) link.old moved result (life body.new.core port.new body.new.seat) link.new }
{
    if body.core.out.is_empty() {
        return input_on(body, port, link, desk, alloc, moved);
    }
    match link.send(first(body.core.out.left(), SEND_MOST)) {
        Said::NotYet => input_on(body, port, link, desk, alloc, moved),
        Said::Failed => HttpTurn::Ended(HttpEnd::LinkFault),
        Said::OutOfMemory => HttpTurn::Ended(HttpEnd::OutOfMemory),
        Said::Took(count) => {
            note_sent(&mut body.core, alloc, count);
            match told_whole(&body.core) {
                None => input_on(body, port, link, desk, alloc, true),
                Some(code) => HttpTurn::Ended(HttpEnd::Answered { code }),
            }
        }
    }
}

/// Does step 2 and those after it: the Join that waits is made.
pub(crate) fn kept_on<P: StreamPort, D: Desk, L: Link>(
    body: &mut Body<P>,
    port: &mut P,
    link: &mut L,
    desk: &D,
    alloc: Global,
) -> HttpTurn
    requires at { IsAt (P.fits port.old) (places (P.rules port.old)) body.old.core body.old.seat }
    requires sound { IsSound body.old.core }
    requires offered { IsOffered (D.grants desk.now) (places (P.rules port.old)) }
    ensures at { IsAt (P.fits port.new) (places (P.rules port.new)) body.new.core body.new.seat }
    ensures sound { Lives body.new.core result }
    ensures stands { StandsBefore (D.grants desk.now) body.old.core → Leaves (D.grants desk.now) body.new.core result }
    ensures turn { KeptOn (AskedAlone P.fits P.rules P.root P.seen P.count P.wants P.busies P.adds P.kin P.branches) (D.grants desk.now)
        L.hears L.says body.old.core.kept (life body.old.core port.old body.old.seat) link.old result (life body.new.core port.new body.new.seat) link.new }
{
    match body.core.kept.take() {
        None => send_on(body, port, link, desk, alloc, false),
        Some(entry) => match make(body, port, alloc, entry) {
            Ok(true) => send_on(body, port, link, desk, alloc, true),
            Ok(false) => HttpTurn::Idle,
            Err(end) => HttpTurn::Ended(end),
        },
    }
}
