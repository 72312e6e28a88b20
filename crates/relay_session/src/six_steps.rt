//! The six steps of a turn, the last first. Each function does one step and those after it.
ghost use Rattle.stream_registry.specs.Names.{places};
ghost use Rattle.std.specs.Prelude.{◌≡◌, ◌≤◌, ◌⊎◌, [], length, take, true, None};
ghost use Rattle.command_dialog.specs.declared.types.Ask.{Ask};
ghost use Rattle.command_dialog.specs.declared.types.Grant.{Grant};
ghost use Rattle.relay_session.specs.Keeping.{IsSteady, StandsBefore};
ghost use Rattle.relay_session.specs.Places.{AskedAlone, IsAt, IsOffered};
ghost use Rattle.relay_session.specs.Turns.{CalledBy, Fed, Input as FromInput, KeptBy, QuitBy, Sent, Taken};
ghost use Rattle.relay_session.specs.Turns.{Leaves, Lives, is_held_back, is_hungry, life, takes};

use crate::body::Body;
use crate::calls::{answer_of, either, make, take};
use crate::input::is_empty;
use crate::refill::fill;
use crate::steps::note_sent;
use crate::take_input::feed;
use crate::{Core, Desk, End, Turn};
use ack_window::Outbound;
use command_dialog::Playing;
use relay_outside::{Heard, Link, Said};
use std::alloc::Global;
use stream_registry::StreamPort;

// The largest numbers of bytes that are sent at once, and received at once.
const SEND_MOST: usize = 16_384;

const RECEIVE_MOST: usize = 4_096;

// The largest number of pending bytes of no item with which input is taken.
const ANSWERS_MOST: usize = 8_192;

// Returns the first `count` bytes, or all.
fn first(bytes: &[u8], count: usize) -> &[u8]
    ensures value { result.now ≡ take count bytes.now }
    ensures within { length result.now ≤ length bytes.now }
{
    &bytes[..count.min(bytes.len())]
}

/// Returns whether the sender is held back.
pub(crate) fn held_back(outbound: &Outbound) -> bool
    ensures { result ≡ is_held_back outbound.now }
{
    outbound.held_back()
}

// Returns the player for which a Take is to be made, if any. All bytes must be encoded, or as many as are
// sent at once.
fn next_take(core: &Core) -> Option<Playing>
    requires { (16384 ≤ length core.now.outgoing.ready) ⊎ (core.now.outgoing.rest ≡ []) }
    ensures { result ≡ takes core.now }
{
    let nothing = is_empty(core.outgoing.ready());
    let held = held_back(&core.outbound);
    let waits = core.kept.is_some();
    match core.dialog.playing() {
        None => None,
        Some(playing) => {
            if nothing && !held && !waits && !playing.paused {
                Some(playing)
            } else {
                None
            }
        }
    }
}

// Returns whether it takes input.
fn hungry(core: &Core) -> bool
    ensures { result ≡ is_hungry core.now }
{
    core.outgoing.others() <= ANSWERS_MOST
}

/// Does step 6: one Take, if it is to be made.
fn finish<P: StreamPort>(body: &mut Body<P>, port: &mut P, alloc: Global, moved: bool) -> Turn
    requires at { IsAt (P.fits port.old) (places (P.rules port.old)) body.old.core body.old.seat }
    requires sound { IsSteady body.old.core }
    ensures at { IsAt (P.fits port.new) (places (P.rules port.new)) body.new.core body.new.seat }
    ensures sound { Lives body.new.core result }
    ensures stands { (desk : Ask → Grant) → StandsBefore desk body.old.core → Leaves desk body.new.core result }
    ensures turn { Taken (AskedAlone P.fits P.rules P.root P.seen P.count P.wants P.busies P.adds P.kin P.branches)
        (life body.old.core body.old.input port.old body.old.seat) moved result (life body.new.core body.new.input port.new body.new.seat) }
{
    match fill(&mut body.core, alloc) {
        Ok(()) => {}
        Err(_) => return Turn::Ended(End::OutOfMemory),
    }
    match next_take(&body.core) {
        None => answer_of(moved),
        Some(playing) => take(body, port, alloc, &playing, moved),
    }
}

/// Makes the call that a message asked for, and does step 6.
fn make_on<P: StreamPort>(body: &mut Body<P>, port: &mut P, alloc: Global) -> Turn
    requires at { IsAt (P.fits port.old) (places (P.rules port.old)) body.old.core body.old.seat }
    requires sound { IsSteady body.old.core }
    ensures at { IsAt (P.fits port.new) (places (P.rules port.new)) body.new.core body.new.seat }
    ensures sound { Lives body.new.core result }
    ensures stands { (desk : Ask → Grant) → StandsBefore desk body.old.core → Leaves desk body.new.core result }
    ensures turn { CalledBy (AskedAlone P.fits P.rules P.root P.seen P.count P.wants P.busies P.adds P.kin P.branches) body.old.core.kept
        (life body.old.core body.old.input port.old body.old.seat) result (life body.new.core body.new.input port.new body.new.seat) }
{
    match body.core.kept.take() {
        None => finish(body, port, alloc, true),
        Some(entry) => match make(body, port, alloc, entry) {
            Ok(_) => finish(body, port, alloc, true),
            Err(end) => Turn::Ended(end),
        },
    }
}

/// Feeds the buffer, and goes on.
fn feed_on<P: StreamPort, D: Desk>(
    body: &mut Body<P>,
    port: &mut P,
    desk: &D,
    alloc: Global,
    moved: bool,
) -> Turn
    requires at { IsAt (P.fits port.old) (places (P.rules port.old)) body.old.core body.old.seat }
    requires sound { IsSteady body.old.core }
    requires offered { IsOffered (D.grants desk.now) (places (P.rules port.old)) }
    requires open { body.old.core.kept ≡ None }
    requires hungry { is_hungry body.old.core ≡ true }
    ensures at { IsAt (P.fits port.new) (places (P.rules port.new)) body.new.core body.new.seat }
    ensures sound { Lives body.new.core result }
    ensures stands { StandsBefore (D.grants desk.now) body.old.core → Leaves (D.grants desk.now) body.new.core result }
    ensures turn { Fed (AskedAlone P.fits P.rules P.root P.seen P.count P.wants P.busies P.adds P.kin P.branches) (D.grants desk.now)
        (life body.old.core body.old.input port.old body.old.seat) moved result (life body.new.core body.new.input port.new body.new.seat) }
{
    let none = is_empty(body.input.left());
    match feed(&mut body.core, &mut body.input, alloc, desk) {
        Ok(false) => finish(body, port, alloc, either(moved, !none)),
        Ok(true) => make_on(body, port, alloc),
        Err(end) => Turn::Ended(end),
    }
}

/// Does step 5 and that after it.
fn input_on<P: StreamPort, D: Desk, L: Link>(
    body: &mut Body<P>,
    port: &mut P,
    link: &mut L,
    desk: &D,
    alloc: Global,
    moved: bool,
) -> Turn
    requires at { IsAt (P.fits port.old) (places (P.rules port.old)) body.old.core body.old.seat }
    requires sound { IsSteady body.old.core }
    requires offered { IsOffered (D.grants desk.now) (places (P.rules port.old)) }
    requires open { body.old.core.kept ≡ None }
    ensures at { IsAt (P.fits port.new) (places (P.rules port.new)) body.new.core body.new.seat }
    ensures sound { Lives body.new.core result }
    ensures stands { StandsBefore (D.grants desk.now) body.old.core → Leaves (D.grants desk.now) body.new.core result }
    ensures turn { FromInput (AskedAlone P.fits P.rules P.root P.seen P.count P.wants P.busies P.adds P.kin P.branches) (D.grants desk.now) L.hears
        (life body.old.core body.old.input port.old body.old.seat) link.old moved result (life body.new.core body.new.input port.new body.new.seat) link.new }
{
    if !hungry(&body.core) {
        return finish(body, port, alloc, moved);
    }
    if !is_empty(body.input.left()) {
        return feed_on(body, port, desk, alloc, moved);
    }
    let mut room = [0u8; RECEIVE_MOST];
    match link.recv(&mut room) {
        Heard::NotYet => finish(body, port, alloc, moved),
        Heard::End => Turn::Ended(End::PeerClosed),
        Heard::Failed => Turn::Ended(End::LinkFault),
        Heard::Bytes(count) => match body.input.receive(alloc, first(&room, count)) {
            Ok(()) => feed_on(body, port, desk, alloc, true),
            Err(_) => Turn::Ended(End::OutOfMemory),
        },
    }
}

/// Does step 4 and those after it.
fn send_on<P: StreamPort, D: Desk, L: Link>(
    body: &mut Body<P>,
    port: &mut P,
    link: &mut L,
    desk: &D,
    alloc: Global,
    moved: bool,
) -> Turn
    requires at { IsAt (P.fits port.old) (places (P.rules port.old)) body.old.core body.old.seat }
    requires sound { IsSteady body.old.core }
    requires offered { IsOffered (D.grants desk.now) (places (P.rules port.old)) }
    requires open { body.old.core.kept ≡ None }
    ensures at { IsAt (P.fits port.new) (places (P.rules port.new)) body.new.core body.new.seat }
    ensures sound { Lives body.new.core result }
    ensures stands { StandsBefore (D.grants desk.now) body.old.core → Leaves (D.grants desk.now) body.new.core result }
    ensures turn { Sent (AskedAlone P.fits P.rules P.root P.seen P.count P.wants P.busies P.adds P.kin P.branches) (D.grants desk.now) L.hears L.says
        (life body.old.core body.old.input port.old body.old.seat) link.old moved result (life body.new.core body.new.input port.new body.new.seat) link.new }
{
    match fill(&mut body.core, alloc) {
        Ok(()) => {}
        Err(_) => return Turn::Ended(End::OutOfMemory),
    }
    if is_empty(body.core.outgoing.ready()) {
        return input_on(body, port, link, desk, alloc, moved);
    }
    match link.send(first(body.core.outgoing.ready(), SEND_MOST)) {
        Said::NotYet => input_on(body, port, link, desk, alloc, moved),
        Said::Failed => Turn::Ended(End::LinkFault),
        Said::OutOfMemory => Turn::Ended(End::OutOfMemory),
        Said::Took(count) => {
            note_sent(&mut body.core, alloc, count);
            input_on(body, port, link, desk, alloc, true)
        }
    }
}

/// Does step 3 and those after it.
fn quit_on<P: StreamPort, D: Desk, L: Link>(
    body: &mut Body<P>,
    port: &mut P,
    link: &mut L,
    desk: &D,
    alloc: Global,
    quit: bool,
    moved: bool,
) -> Turn
    requires at { IsAt (P.fits port.old) (places (P.rules port.old)) body.old.core body.old.seat }
    requires sound { IsSteady body.old.core }
    requires offered { IsOffered (D.grants desk.now) (places (P.rules port.old)) }
    requires open { body.old.core.kept ≡ None }
    ensures at { IsAt (P.fits port.new) (places (P.rules port.new)) body.new.core body.new.seat }
    ensures sound { Lives body.new.core result }
    ensures stands { StandsBefore (D.grants desk.now) body.old.core → Leaves (D.grants desk.now) body.new.core result }
    ensures turn { QuitBy (AskedAlone P.fits P.rules P.root P.seen P.count P.wants P.busies P.adds P.kin P.branches) (D.grants desk.now) L.hears L.says quit
        (life body.old.core body.old.input port.old body.old.seat) link.old moved result (life body.new.core body.new.input port.new body.new.seat) link.new }
{
    if quit {
        return Turn::Ended(End::Quit);
    }
    send_on(body, port, link, desk, alloc, moved)
}

/// Does step 2 and those after it.
pub(crate) fn kept_on<P: StreamPort, D: Desk, L: Link>(
    body: &mut Body<P>,
    port: &mut P,
    link: &mut L,
    desk: &D,
    alloc: Global,
    quit: bool,
) -> Turn
    requires at { IsAt (P.fits port.old) (places (P.rules port.old)) body.old.core body.old.seat }
    requires sound { IsSteady body.old.core }
    requires offered { IsOffered (D.grants desk.now) (places (P.rules port.old)) }
    ensures at { IsAt (P.fits port.new) (places (P.rules port.new)) body.new.core body.new.seat }
    ensures sound { Lives body.new.core result }
    ensures stands { StandsBefore (D.grants desk.now) body.old.core → Leaves (D.grants desk.now) body.new.core result }
    ensures turn { KeptBy (AskedAlone P.fits P.rules P.root P.seen P.count P.wants P.busies P.adds P.kin P.branches) (D.grants desk.now) L.hears L.says body.old.core.kept quit
        (life body.old.core body.old.input port.old body.old.seat) link.old result (life body.new.core body.new.input port.new body.new.seat) link.new }
{
    match body.core.kept.take() {
        None => quit_on(body, port, link, desk, alloc, quit, false),
        Some(entry) => match make(body, port, alloc, entry) {
            Ok(true) => quit_on(body, port, link, desk, alloc, quit, true),
            Ok(false) => Turn::Idle,
            Err(end) => Turn::Ended(end),
        },
    }
}
