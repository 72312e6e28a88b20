//! The steps of a turn, the last first. Each function does one step and those after it.
ghost use Rattle.std.specs.Prelude.{◌≡◌, ◌≤◌, ◌||◌, not, [], length, take, true, false, None, Ok, Err};
ghost use Rattle.rtmp_client.specs.Bounds.{IsInput};
ghost use Rattle.rtmp_client.specs.ClientState.{IsClient, IsLiving, LivesOn, TurnMade, client_of};
ghost use Rattle.rtmp_client.specs.Turns.{EndedBy, Fed, Finish, Input as FromInput, Sent, is_done as done_now, is_hungry as hungry_now, life, turn_of};

use crate::input::{Input, is_empty};
use crate::steps::note_sent;
use crate::take_input::feed;
use crate::{ClientEnd, ClientTurn, Core};
use relay_outside::{Heard, Link, Said};
use std::alloc::Global;

// The largest numbers of bytes that are sent at once, and received at once.
const SEND_MOST: usize = 16_384;

const RECEIVE_MOST: usize = 4_096;

// The largest number of pending bytes of no tag with which input is taken.
const ANSWERS_MOST: usize = 8_192;

fn either(a: bool, b: bool) -> bool
    ensures { result ≡ (a || b) }
{
    a || b
}

// Returns the first `count` bytes, or all.
fn first(bytes: &[u8], count: usize) -> &[u8]
    ensures value { result.now ≡ take count bytes.now }
    ensures within { length result.now ≤ length bytes.now }
{
    &bytes[..count.min(bytes.len())]
}

// Returns whether it takes input.
fn is_hungry(core: &Core) -> bool
    ensures { result ≡ hungry_now core.now }
{
    core.gift.is_none() && core.outgoing.others() <= ANSWERS_MOST
}

// Returns whether it was finished and all was sent.
fn is_done(core: &Core) -> bool
    ensures { result ≡ done_now core.now }
{
    core.finished && is_empty(core.outgoing.pending())
}

/// Feeds the buffer.
fn feed_on(
    core: &mut Core,
    input: &mut Input,
    alloc: Global,
    moved: bool,
) -> Result<bool, ClientEnd>
    requires living { IsLiving core.old }
    requires hungry { hungry_now core.old ≡ true }
    ensures lives { LivesOn core.new result }
    ensures turn { Fed (life core.old input.old) moved result (life core.new input.new) }
{
    let none = is_empty(input.left());
    match feed(core, input, alloc) {
        Ok(false) => Ok(either(moved, !none)),
        Ok(true) => Ok(true),
        Err(end) => Err(end),
    }
}

/// Takes input, if it is hungry.
fn input_on<L: Link>(
    core: &mut Core,
    input: &mut Input,
    link: &mut L,
    alloc: Global,
    moved: bool,
) -> Result<bool, ClientEnd>
    requires living { IsLiving core.old }
    ensures lives { LivesOn core.new result }
    ensures turn { FromInput L.hears (life core.old input.old) link.old moved result (life core.new input.new) link.new }
{
    if !is_hungry(core) {
        return Ok(moved);
    }
    if !is_empty(input.left()) {
        return feed_on(core, input, alloc, moved);
    }
    let mut room = [0u8; RECEIVE_MOST];
    match link.recv(&mut room) {
        Heard::NotYet => Ok(moved),
        Heard::End => Err(ClientEnd::PeerClosed),
        Heard::Failed => Err(ClientEnd::LinkFault),
        Heard::Bytes(count) => match input.receive(alloc, first(&room, count)) {
            Ok(()) => feed_on(core, input, alloc, true),
            Err(_) => Err(ClientEnd::OutOfMemory),
        },
    }
}

/// Ends if it is done, and else takes input.
fn finish_on<L: Link>(
    core: &mut Core,
    input: &mut Input,
    link: &mut L,
    alloc: Global,
    moved: bool,
) -> Result<bool, ClientEnd>
    requires living { IsLiving core.old }
    ensures lives { LivesOn core.new result }
    ensures turn { Finish L.hears (life core.old input.old) link.old moved result (life core.new input.new) link.new }
{
    if is_done(core) {
        return Err(ClientEnd::Done);
    }
    input_on(core, input, link, alloc, moved)
}

/// Sends the pending bytes, and goes on.
pub(crate) fn send_on<L: Link>(
    core: &mut Core,
    input: &mut Input,
    link: &mut L,
    alloc: Global,
) -> Result<bool, ClientEnd>
    requires living { IsLiving core.old }
    ensures lives { LivesOn core.new result }
    ensures turn { Sent L.hears L.says (life core.old input.old) link.old result (life core.new input.new) link.new }
{
    if is_empty(core.outgoing.pending()) {
        return finish_on(core, input, link, alloc, false);
    }
    match link.send(first(core.outgoing.pending(), SEND_MOST)) {
        Said::NotYet => finish_on(core, input, link, alloc, false),
        Said::Failed => Err(ClientEnd::LinkFault),
        Said::OutOfMemory => Err(ClientEnd::OutOfMemory),
        Said::Took(count) => {
            note_sent(core, alloc, count);
            finish_on(core, input, link, alloc, true)
        }
    }
}

// Returns the answer of a turn of a client that lives on.
fn answer_of(moved: bool) -> ClientTurn
    ensures { result ≡ turn_of (Ok moved) }
{
    if moved {
        ClientTurn::Moved
    } else {
        ClientTurn::Idle
    }
}

/// Takes a turn of a client, which does nothing if it has ended. One that ends lets go of its input.
pub(crate) fn turn_on<L: Link>(
    core: &mut Core,
    input: &mut Input,
    ended: &mut Option<ClientEnd>,
    link: &mut L,
    alloc: Global,
) -> ClientTurn
    requires client { IsClient ended.old core.old }
    requires input { IsInput ended.old input.old }
    ensures client { IsClient ended.new core.new }
    ensures input { IsInput ended.new input.new }
    ensures turn { TurnMade (EndedBy L.hears L.says) (client_of core.old input.old ended.old) link.old result (client_of core.new input.new ended.new) link.new }
{
    match ended {
        Some(_) => ClientTurn::Ended,
        None => match send_on(core, input, link, alloc) {
            Ok(moved) => {
                // At most 4,096 bytes are left.
                input.left();
                answer_of(moved)
            }
            Err(end) => {
                input.clear(alloc);
                *ended = Some(end);
                ClientTurn::Ended
            }
        },
    }
}
