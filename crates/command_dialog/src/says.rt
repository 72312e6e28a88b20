ghost use Rattle.std.specs.Prelude.{◌≡◌, ◌≤◌, [], ◌∷◌, length, IfOk};
ghost use Rattle.av_unit.specs.declared.item.Item.TheVariants as item;
ghost use Rattle.ack_window.specs.Controls.{message_of};
ghost use Rattle.command_dialog.specs.Dialog as dialog;
ghost use Rattle.command_dialog.specs.Dialog.{answers, refuses, refused_by, calls_by, published_in, told_publish, told_play, ends, shown};

use crate::lists::MessageList;
use crate::types::{Act, Grant, Phase, Role};
use ack_window::{Control, control_message};
use av_unit::{Bytes, OutOfMemory, Unit, unit_of};
use chunk_wire::Message;
use rtmp_command::{Answer, Why, answer_body};
use std::alloc::Global;
use stream_model::Reply;

// Events of user control messages (RTMP 1.0, 7.1.7).
const STREAM_BEGIN: u16 = 0;

const STREAM_EOF: u16 = 1;

/// Makes a command message that carries an answer.
fn say(alloc: Global, stream: u32, answer: &Answer) -> Result<Message, OutOfMemory>
    ensures { IfOk result (λ m. m ≡ answers stream answer.now) }
{
    let body = answer_body(alloc, answer)?;
    Ok(Message {
        kind: 20,
        stream,
        time: 0,
        body,
    })
}

/// Gives no messages.
pub fn nothing(alloc: Global) -> MessageList
    ensures { result ≡ [] }
{
    MessageList::from_vec(Vec::new(alloc))
}

/// Makes one message that carries an answer.
fn one(alloc: Global, stream: u32, answer: &Answer) -> Result<MessageList, OutOfMemory>
    ensures { IfOk result (λ list. list ≡ answers stream answer.now ∷ []) }
{
    let mut list = Vec::new(alloc);
    list.push(say(alloc, stream, answer)?)?;
    Ok(MessageList::from_vec(list))
}

/// Makes an event of the message stream, and an answer on it.
fn event_and(
    alloc: Global,
    event: u16,
    id: u32,
    answer: &Answer,
) -> Result<MessageList, OutOfMemory>
    ensures { IfOk result (λ list. list ≡ message_of (Control.User event id) ∷ answers id answer.now ∷ []) }
{
    let mut list = Vec::new(alloc);
    let value = id;
    list.push(control_message(alloc, Control::User { event, value })?)?;
    list.push(say(alloc, id, answer)?)?;
    Ok(MessageList::from_vec(list))
}

/// Makes the answer to a refused publish or play.
pub fn refuse(alloc: Global, role: Role, id: u32, why: Why) -> Result<MessageList, OutOfMemory>
    ensures { IfOk result (λ list. list ≡ refuses role id why) }
{
    match role {
        Role::Publish => one(alloc, id, &Answer::PublishRefused(why)),
        Role::Play => one(alloc, id, &Answer::PlayRefused(why)),
    }
}

/// Makes the four messages of the connect answer.
pub fn connected(alloc: Global, window: u32, transaction: u64) -> Result<MessageList, OutOfMemory>
    ensures { IfOk result (λ list. list ≡ dialog.connected window transaction) }
{
    let mut list = Vec::new(alloc);
    let (size, limit) = (window, 2);
    list.push(control_message(alloc, Control::Window(window))?)?;
    list.push(control_message(alloc, Control::Bandwidth { size, limit })?)?;
    list.push(control_message(alloc, Control::ChunkSize(4096))?)?;
    list.push(say(alloc, 0, &Answer::Connected { transaction })?)?;
    Ok(MessageList::from_vec(list))
}

/// Makes the answer to a createStream.
pub fn created(alloc: Global, transaction: u64, id: u32) -> Result<MessageList, OutOfMemory>
    ensures { IfOk result (λ list. list ≡ answers 0 (Answer.Created transaction id) ∷ []) }
{
    one(alloc, 0, &Answer::Created { transaction, id })
}

/// Gives the messages to a publish or play by its grant.
pub fn refuse_by(
    alloc: Global,
    role: Role,
    id: u32,
    grant: Option<Grant>,
) -> Result<MessageList, OutOfMemory>
    ensures { IfOk result (λ list. list ≡ refused_by role id grant) }
{
    match grant {
        None => refuse(alloc, role, id, Why::NoName),
        Some(Grant::NoName) => refuse(alloc, role, id, Why::NoName),
        Some(Grant::Refused) => refuse(alloc, role, id, Why::Refused),
        Some(Grant::Place(_)) => Ok(nothing(alloc)),
    }
}

/// Gives the call that a publish or play of a name makes by its grant.
pub fn call_by(role: Role, name: Bytes, grant: Option<Grant>) -> Option<Act>
    ensures { result ≡ calls_by role name grant }
{
    match grant {
        Some(Grant::Place(place)) => match role {
            Role::Publish => Some(Act::Begin { place, name }),
            Role::Play => Some(Act::Join { place, name }),
        },
        Some(Grant::NoName) => None,
        Some(Grant::Refused) => None,
        None => None,
    }
}

/// Gives the unit that a message publishes, if a publish is granted. It takes over the message's body.
pub fn unit_in(phase: Phase, message: Message) -> Option<Unit>
    requires { length message.body ≤ 4194304 }
    ensures { result ≡ published_in phase message }
{
    let Message {
        kind,
        stream: _,
        time,
        body,
    } = message;
    match phase {
        Phase::Publishes { id: _, size } => unit_of(kind, time, body, size),
        Phase::Idle | Phase::Asked { .. } | Phase::Plays(_) => None,
    }
}

/// Gives the messages after the reply to a Begin.
pub fn begun(alloc: Global, id: u32, reply: &Reply) -> Result<MessageList, OutOfMemory>
    ensures { IfOk result (λ list. list ≡ told_publish id reply.now) }
{
    match reply {
        Reply::Began { .. } => one(alloc, id, &Answer::PublishStart),
        Reply::NoSlot { .. } => refuse(alloc, Role::Publish, id, Why::Full),
        _ => refuse(alloc, Role::Publish, id, Why::InUse),
    }
}

/// Gives the messages after the reply to a Join.
pub fn joined(alloc: Global, id: u32, reply: &Reply) -> Result<MessageList, OutOfMemory>
    ensures { IfOk result (λ list. list ≡ told_play id reply.now) }
{
    match reply {
        Reply::Joined { .. } => event_and(alloc, STREAM_BEGIN, id, &Answer::PlayStart),
        _ => refuse(alloc, Role::Play, id, Why::Full),
    }
}

/// Gives the call that ends a role when its message stream is closed.
pub fn end_of(id: u32, phase: Phase) -> Option<Act>
    ensures { result ≡ ends id phase }
{
    match phase {
        Phase::Publishes { id: n, size: _ } => { if n == id { Some(Act::End) } else { None } }
        Phase::Plays(playing) => {
            if playing.id == id {
                Some(Act::Leave(playing.player))
            } else {
                None
            }
        }
        Phase::Idle => None,
        Phase::Asked { .. } => None,
    }
}

/// Gives the messages that show a Begin item to a player on that message stream: Stream Begin and
/// PublishNotify.
pub fn begin_messages(alloc: Global, id: u32) -> Result<MessageList, OutOfMemory>
    ensures { IfOk result (λ list. list ≡ shown id item.Begin) }
{
    event_and(alloc, STREAM_BEGIN, id, &Answer::PublishNotify)
}

/// Gives the messages that show an End item to a player on that message stream: Stream EOF and
/// UnpublishNotify.
pub fn end_messages(alloc: Global, id: u32) -> Result<MessageList, OutOfMemory>
    ensures { IfOk result (λ list. list ≡ shown id item.End) }
{
    event_and(alloc, STREAM_EOF, id, &Answer::UnpublishNotify)
}
