ghost use Rattle.std.specs.Prelude.{◌≡◌, ◌≤◌, ◌+◌, ◌*◌, ◌⊎◌, [], length, option_map, None, Some, Err, OnOk, IfOk, IfErr};
ghost use Rattle.std.specs.Option.{option_map_or};
ghost use Rattle.ack_window.specs.Controls.{ping_answer_of};
ghost use Rattle.command_dialog.specs.Dialog as dialog;
ghost use Rattle.command_dialog.specs.Dialog.{call_of, shown};
ghost use Rattle.command_dialog.specs.Dialog.{does as dialog_does};
ghost use Rattle.command_dialog.specs.Meaning.{meaning};
ghost use Rattle.session_owed.specs.Acks.{window_by, windowed};
ghost use Rattle.relay_session.specs.Holding.{unit_bytes};
ghost use Rattle.relay_session.specs.Owing.{Says, Shows, Takes, pending};
ghost use Rattle.relay_session.specs.Session.{commands, does, ended_by, entry_by, item_in, outbound_after};
ghost use Rattle.relay_session.specs.Session.{outbound_by, place_by, place_after, pongs, refused, told};
ghost use Rattle.relay_session.specs.declared.end.End.TheVariants as end;

use crate::{Desk, End, Outgoing};
use ack_window::{Control, Inbound, Outbound, control_message, control_of, ping_answer};
use av_unit::{Item, OutOfMemory};
use chunk_wire::Message;
use command_dialog::{Act, Dialog, DialogFail, Grant, Meant, begin_messages, end_messages};
use std::alloc::Global;
use stream_model::{Entry, Reply};

// Returns why a message without a meaning ends the session. `at` is the place of its last byte.
fn end_of(fail: DialogFail, at: u64) -> End
    ensures { Some result ≡ ended_by at (Err fail) }
{
    match fail {
        DialogFail::BadCommand { at: _ } => End::BadCommand { at },
        DialogFail::TooManyStreams => End::TooManyStreams { at },
        DialogFail::OutOfMemory => End::OutOfMemory,
    }
}

// Sets the windows if a control says so, and heeds an acknowledgement.
fn heed(inbound: &mut Inbound, outbound: &mut Outbound, control: Control)
    ensures inbound { inbound.new ≡ record { window = windowed inbound.old.window control; taken = inbound.old.taken } }
    ensures outbound { outbound.new ≡ outbound_after outbound.old control }
{
    match control {
        Control::Window(size) => inbound.set(size),
        Control::Acknowledgement(count) => outbound.acked(count),
        Control::Bandwidth { size, limit } => outbound.set(size, limit),
        Control::ChunkSize(_) => {}
        Control::Abort(_) => {}
        Control::User { event: _, value: _ } => {}
    }
}

// Answers a control, if it is a ping request.
fn answer_control(
    alloc: Global,
    control: Control,
    outgoing: &mut Outgoing,
) -> Result<(), OutOfMemory>
    ensures said { OnOk result (Says outgoing.old (pongs (ping_answer_of control)) outgoing.new) }
    ensures light { 16 * outgoing.new.others ≤ 16 * outgoing.old.others + 4640 }
    ensures unit { unit_bytes outgoing.new.hand ≤ unit_bytes outgoing.old.hand }
{
    match ping_answer(&control) {
        None => Ok(()),
        Some(pong) => {
            let message = control_message(alloc, pong)?;
            outgoing.say(&message)
        }
    }
}

/// The call that a message asks for, and the place of the session's calls after it.
#[derive(Drop)]
pub(crate) struct Asked {
    pub kept: Option<Entry>,
    pub place: Option<u32>,
}

// Returns the place that an act names, or the one before.
fn place_after(place: Option<u32>, act: &Option<Act>) -> Option<u32>
    ensures { result ≡ place_after place act.now }
{
    match act {
        None => place,
        Some(Act::Begin { place: at, name: _ }) => Some(*at),
        Some(Act::Join { place: at, name: _ }) => Some(*at),
        Some(Act::Push(_)) => place,
        Some(Act::End) => place,
        Some(Act::Leave(_)) => place,
    }
}

// Returns the call of an act as an entry.
fn entry(alloc: Global, who: u64, at: u64, act: Option<Act>) -> Result<Option<Entry>, OutOfMemory>
    ensures { IfOk result (λ e. e ≡ entry_by who at (option_map call_of act)) }
{
    match act {
        None => Ok(None),
        Some(act) => {
            let call = act.into_call(alloc)?;
            Ok(Some(Entry { who, at, call }))
        }
    }
}

// Returns the grant of a message that asks for one.
fn granted<D: Desk>(desk: &D, meant: &Meant) -> Option<Grant>
    ensures { result ≡ dialog.granted (D.grants desk.now) meant.now }
{
    match meant.ask() {
        None => None,
        Some(ask) => Some(desk.grant(ask)),
    }
}

// Does what a message says that is no control. `last` is the place of its last byte.
fn answer_command<D: Desk>(
    alloc: Global,
    desk: &D,
    last: u64,
    message: Message,
    dialog: &mut Dialog,
    outgoing: &mut Outgoing,
) -> Result<Option<Act>, End>
    requires short { length message.body ≤ 4194304 }
    ensures state { OnOk result (dialog.new ≡ (commands (D.grants desk.now) dialog.old message).state) }
    ensures said { OnOk result (Says outgoing.old (commands (D.grants desk.now) dialog.old message).says outgoing.new) }
    ensures makes { IfOk result (λ act. act ≡ (dialog_does (D.grants desk.now) dialog.old message).makes) }
    ensures ok { OnOk result (ended_by last (meaning dialog.old message) ≡ None) }
    ensures err { IfErr result (λ e. (e ≡ end.OutOfMemory) ⊎ (ended_by last (meaning dialog.old message) ≡ Some e)) }
    ensures stays { IfErr result (λ e. (e ≡ end.OutOfMemory) ⊎ (dialog.new ≡ dialog.old)) }
    ensures light { 16 * outgoing.new.others ≤ 16 * outgoing.old.others + 4640 }
    ensures unit { unit_bytes outgoing.new.hand ≤ unit_bytes outgoing.old.hand }
{
    let meant = match dialog.asks(alloc, &message) {
        Ok(meant) => meant,
        Err(fail) => return Err(end_of(fail, last)),
    };
    let grant = granted(desk, &meant);
    let acts = match dialog.step(alloc, message, meant, grant) {
        Ok(acts) => acts,
        Err(_) => return Err(End::OutOfMemory),
    };
    match outgoing.say_all(acts.says.as_slice()) {
        Ok(()) => Ok(acts.makes),
        Err(_) => Err(End::OutOfMemory),
    }
}

/// Does what a message says. `last` is the place of its last byte. Its answers are to be sent, and the
/// windows that it sets hold from the next byte on. The call that it asks for is returned, made at the count
/// `at`.
#[tactic(auto, unfolding(crate::specs::Session::does, crate::specs::Session::refused, crate::specs::Session::outbound_by, crate::specs::Session::place_by, session_owed::specs::Acks::window_by))]
pub(crate) fn answer<D: Desk>(
    alloc: Global,
    desk: &D,
    who: u64,
    place: Option<u32>,
    at: u64,
    last: u64,
    message: Message,
    dialog: &mut Dialog,
    inbound: &mut Inbound,
    outbound: &mut Outbound,
    outgoing: &mut Outgoing,
) -> Result<Asked, End>
    requires short { length message.body ≤ 4194304 }
    ensures state { OnOk result (dialog.new ≡ (does (D.grants desk.now) dialog.old message).state) }
    ensures window { OnOk result (inbound.new ≡ record { window = window_by inbound.old.window message; taken = inbound.old.taken }) }
    ensures outbound { OnOk result (outbound.new ≡ outbound_by outbound.old message) }
    ensures said { OnOk result (Says outgoing.old (does (D.grants desk.now) dialog.old message).says outgoing.new) }
    ensures makes { IfOk result (λ asked. asked.kept ≡ entry_by who at (does (D.grants desk.now) dialog.old message).makes) }
    ensures place { IfOk result (λ asked. asked.place ≡ place_by (D.grants desk.now) dialog.old place message) }
    ensures ok { OnOk result (refused last dialog.old message ≡ None) }
    ensures err { IfErr result (λ e. (e ≡ end.OutOfMemory) ⊎ (refused last dialog.old message ≡ Some e)) }
    ensures stays { IfErr result (λ e. (e ≡ end.OutOfMemory) ⊎ (dialog.new ≡ dialog.old)) }
    ensures light { 16 * outgoing.new.others ≤ 16 * outgoing.old.others + 4640 }
    ensures unit { unit_bytes outgoing.new.hand ≤ unit_bytes outgoing.old.hand }
{
    match control_of(&message) {
        Err(_) => Err(End::BadControl { at: last }),
        Ok(Some(control)) => {
            heed(inbound, outbound, control);
            match answer_control(alloc, control, outgoing) {
                Ok(()) => Ok(Asked { kept: None, place }),
                Err(_) => Err(End::OutOfMemory),
            }
        }
        Ok(None) => {
            let act = answer_command(alloc, desk, last, message, dialog, outgoing)?;
            let place = place_after(place, &act);
            match entry(alloc, who, at, act) {
                Ok(kept) => Ok(Asked { kept, place }),
                Err(_) => Err(End::OutOfMemory),
            }
        }
    }
}

/// Takes in the reply to the call that waits: its answers are to be sent.
#[tactic(auto, unfolding(crate::specs::Session::told))]
pub(crate) fn hear(
    alloc: Global,
    reply: &Reply,
    dialog: &mut Dialog,
    outgoing: &mut Outgoing,
) -> Result<(), OutOfMemory>
    ensures state { OnOk result (dialog.new ≡ (told dialog.old reply.now).state) }
    ensures said { OnOk result (Says outgoing.old (told dialog.old reply.now).says outgoing.new) }
    ensures light { 16 * outgoing.new.others ≤ 16 * outgoing.old.others + 7036 }
    ensures unit { unit_bytes outgoing.new.hand ≤ unit_bytes outgoing.old.hand }
{
    match dialog.answered(alloc, reply) {
        Err(_) => Err(OutOfMemory),
        Ok(list) => outgoing.say_all(list.as_slice()),
    }
}

// Returns the item that a reply brings.
fn item_of(reply: Reply) -> Option<Item>
    ensures { result ≡ item_in reply }
{
    match reply {
        Reply::Sent { item, .. } => Some(item),
        Reply::Began { .. } => None,
        Reply::InUse { .. } => None,
        Reply::Pushed { .. } => None,
        Reply::NotPublisher { .. } => None,
        Reply::Ended { .. } => None,
        Reply::Joined { .. } => None,
        Reply::Full => None,
        Reply::NoSlot { .. } => None,
        Reply::NotPlayer => None,
        Reply::Skip { .. } => None,
        Reply::NotYet { .. } => None,
        Reply::Left { .. } => None,
        Reply::Counts { .. } => None,
    }
}

// Says the messages by which a player on that message stream is shown an item.
fn show(
    alloc: Global,
    id: u32,
    longest: u32,
    item: Item,
    outgoing: &mut Outgoing,
) -> Result<(), OutOfMemory>
    requires { pending outgoing.old ≡ [] }
    ensures shown { OnOk result (Shows outgoing.old (shown id item) outgoing.new) }
    ensures light { outgoing.new.others ≤ outgoing.old.others }
    ensures unit { unit_bytes outgoing.old.hand ≤ longest → unit_bytes outgoing.new.hand ≤ longest }
{
    match item {
        Item::Unit(unit) => outgoing.show_unit(alloc, id, longest, unit),
        Item::Begin => {
            let list = begin_messages(alloc, id)?;
            outgoing.show_all(alloc, list.as_slice())
        }
        Item::End => {
            let list = end_messages(alloc, id)?;
            outgoing.show_all(alloc, list.as_slice())
        }
    }
}

/// Takes in the reply to a Take, for a player on that message stream that has nothing to be sent. The
/// messages by which the player is shown the item are to be sent. A reply that brings no item owes nothing. A
/// unit of more than `longest` bytes is refused as out of memory.
pub(crate) fn take_in(
    alloc: Global,
    id: u32,
    longest: u32,
    reply: Reply,
    outgoing: &mut Outgoing,
) -> Result<(), OutOfMemory>
    requires { pending outgoing.old ≡ [] }
    ensures takes { OnOk result (Takes outgoing.old (option_map_or (shown id) (item_in reply) []) outgoing.new) }
    ensures light { outgoing.new.others ≤ outgoing.old.others }
    ensures unit { unit_bytes outgoing.old.hand ≤ longest → unit_bytes outgoing.new.hand ≤ longest }
{
    match item_of(reply) {
        None => Ok(()),
        Some(item) => show(alloc, id, longest, item, outgoing),
    }
}
