//! The effects of a message: its answers, and the gift that it tells.
ghost use Rattle.std.specs.Prelude.{◌≡◌, ◌≤◌, ◌+◌, ◌*◌, ◌⊎◌, ◌==◌, true, false, None, Some, Ok, Err, OnErr, OnOk, IfOk, IfErr, MatchResult};
ghost use Rattle.ack_window.specs.Controls.{ping_answer_of};
ghost use Rattle.session_owed.specs.Acks.{window_by, windowed};
ghost use Rattle.client_owed.specs.Client.{does, pongs};
ghost use Rattle.flv_tags.specs.Layout.{is_kind};
ghost use Rattle.client_owed.specs.News.{news_in};
ghost use Rattle.client_owed.specs.Pulled.{gift_for, tag_on, told_by as told_by_code, told_in};
ghost use Rattle.client_owed.specs.Standing.{listed};
ghost use Rattle.client_owed.specs.declared.types.Asked.{Asked as TheAsked};
ghost use Rattle.rtmp_client.specs.Keeping.{IsNamed};
ghost use Rattle.rtmp_client.specs.Owing.{Apart, Says};
ghost use Rattle.rtmp_client.specs.Refusing.{ended_by, refused};
ghost use Rattle.rtmp_client.specs.Telling.{media_for, told_for};
ghost use Rattle.rtmp_client.specs.declared.end.ClientEnd.TheVariants as end;

use crate::known::news;
use crate::learning::learn;
use crate::{ClientEnd, Outgoing};
use ack_window::{Control, Inbound, control_message, control_of, ping_answer};
use av_unit::OutOfMemory;
use chunk_wire::Message;
use client_owed::{Asked, Gift, News, Phase, Wish};
use flv_tags::Tag;
use rtmp_command::CommandFail;
use std::alloc::Global;

// Sets the window if a control says so.
fn heed(inbound: &mut Inbound, control: Control)
    ensures { inbound.new ≡ record { window = windowed inbound.old.window control; taken = inbound.old.taken } }
{
    match control {
        Control::Window(size) => inbound.set(size),
        Control::Acknowledgement(_) => {}
        Control::Bandwidth { size: _, limit: _ } => {}
        Control::ChunkSize(_) => {}
        Control::Abort(_) => {}
        Control::User { event: _, value: _ } => {}
    }
}

// Answers a control, if it is a ping request.
fn answer_control(
    alloc: Global,
    control: Control,
    outgoing: &mut Outgoing,
) -> Result<(), OutOfMemory>
    ensures said { OnOk result (Says outgoing.old (pongs (ping_answer_of control)) outgoing.new) }
    ensures light { 16 * outgoing.new.others ≤ 16 * outgoing.old.others + 5600 }
    ensures apart { Apart outgoing.old outgoing.new }
{
    match ping_answer(&control) {
        None => Ok(()),
        Some(pong) => {
            let message = control_message(alloc, pong)?;
            outgoing.say(&message)
        }
    }
}

// Returns whether a message of this type is a tag (7.1.2, 7.1.4, 7.1.5).
fn is_media(kind: u8) -> bool
    ensures { result ≡ is_kind kind }
{
    kind == 8 || kind == 9 || kind == 18
}

// Returns the message as a tag, if it is one on this message stream.
fn media_on(id: u32, message: Message) -> Option<Gift>
    ensures { listed result ≡ tag_on id message }
{
    let Message {
        kind,
        stream,
        time,
        body,
    } = message;
    if is_media(kind) && stream == id {
        Some(Gift::Tag(Tag { kind, time, body }))
    } else {
        None
    }
}

// Returns the gift that a message which is no command tells.
fn media(wish: Wish, phase: Phase, message: Message) -> Option<Gift>
    ensures { listed result ≡ media_for wish phase message }
{
    match wish {
        Wish::Push => None,
        Wish::Pull => match phase {
            Phase::Started(id) => media_on(id, message),
            Phase::Connecting => None,
            Phase::Creating => None,
            Phase::Asking(_) => None,
        },
    }
}

// Returns the gift that a status tells (7.2.2.1).
fn told_by(code: &[u8]) -> Option<Gift>
    ensures { listed result ≡ told_by_code code.now }
{
    if code == b"NetStream.Play.PublishNotify".as_slice() {
        return Some(Gift::Published);
    }
    if code == b"NetStream.Play.UnpublishNotify".as_slice() {
        return Some(Gift::Unpublished);
    }
    None
}

// Returns the gift that this news tells.
fn told_news(news: &News) -> Option<Gift>
    ensures { listed result ≡ told_in (Ok news.now) }
{
    match news {
        News::Status(code) => told_by(code.as_slice()),
        News::Done {
            transaction: _,
            number: _,
        } => None,
        News::Refused { .. } => None,
        News::Other => None,
    }
}

// Returns the gift that a command tells.
fn told(wish: Wish, phase: Phase, news: &News) -> Option<Gift>
    ensures { listed result ≡ told_for wish phase (Ok news.now) }
{
    match wish {
        Wish::Push => None,
        Wish::Pull => match phase {
            Phase::Started(_) => told_news(news),
            Phase::Connecting => None,
            Phase::Creating => None,
            Phase::Asking(_) => None,
        },
    }
}

// Returns why a body that is no command ends the client. `at` is the place of its last byte.
fn end_of(fail: CommandFail, at: u64) -> ClientEnd
    ensures { Some result ≡ ended_by at (Err fail) }
{
    match fail {
        CommandFail::BadCommand { at: _ } => ClientEnd::BadCommand { at },
        CommandFail::OutOfMemory => ClientEnd::OutOfMemory,
    }
}

// Returns the news of a command, unless that ends the client.
fn heard(alloc: Global, last: u64, body: &[u8]) -> Result<News, ClientEnd>
    ensures { MatchResult result (λ n. (news_in body.now ≡ Ok n) × (ended_by last (Ok n) ≡ None)) (λ e. (e ≡ end.OutOfMemory) ⊎ (ended_by last (news_in body.now) ≡ Some e)) }
{
    match news(alloc, body) {
        Err(fail) => Err(end_of(fail, last)),
        Ok(News::Refused { code, description }) => Err(ClientEnd::Refused { code, description }),
        Ok(known) => Ok(known),
    }
}

// Does what a command says.
fn answer_command(
    alloc: Global,
    asked: &Asked,
    last: u64,
    message: Message,
    phase: &mut Phase,
    outgoing: &mut Outgoing,
) -> Result<Option<Gift>, ClientEnd>
    requires named { IsNamed asked.now }
    requires command { (message.kind == 20) ≡ true }
    ensures phase { OnOk result (phase.new ≡ (does asked.now phase.old message).phase) }
    ensures still { OnErr result (phase.new ≡ phase.old) }
    ensures said { OnOk result (Says outgoing.old (does asked.now phase.old message).says outgoing.new) }
    ensures gift { IfOk result (λ g. listed g ≡ gift_for asked.now.wish phase.old message) }
    ensures ok { OnOk result (refused last message ≡ None) }
    ensures err { IfErr result (λ e. (e ≡ end.OutOfMemory) ⊎ (refused last message ≡ Some e)) }
    ensures light { 16 * outgoing.new.others ≤ 16 * outgoing.old.others + 5600 }
    ensures apart { Apart outgoing.old outgoing.new }
{
    let news = heard(alloc, last, message.body.as_slice())?;
    let gift = told(asked.wish, *phase, &news);
    match learn(alloc, asked, &news, phase, outgoing) {
        Ok(()) => Ok(gift),
        Err(_) => Err(ClientEnd::OutOfMemory),
    }
}

// Does what a message says that is no command.
fn answer_other(
    alloc: Global,
    wish: Wish,
    last: u64,
    message: Message,
    phase: Phase,
    inbound: &mut Inbound,
    outgoing: &mut Outgoing,
) -> Result<Option<Gift>, ClientEnd>
    requires { (message.kind == 20) ≡ false }
    ensures phase { (k : TheAsked) → OnOk result (phase ≡ (does k phase message).phase) }
    ensures said { (k : TheAsked) → OnOk result (Says outgoing.old (does k phase message).says outgoing.new) }
    ensures window { OnOk result (inbound.new ≡ record { window = window_by inbound.old.window message; taken = inbound.old.taken }) }
    ensures gift { IfOk result (λ g. listed g ≡ gift_for wish phase message) }
    ensures ok { OnOk result (refused last message ≡ None) }
    ensures err { IfErr result (λ e. (e ≡ end.OutOfMemory) ⊎ (refused last message ≡ Some e)) }
    ensures light { 16 * outgoing.new.others ≤ 16 * outgoing.old.others + 5600 }
    ensures apart { Apart outgoing.old outgoing.new }
{
    match control_of(&message) {
        Err(_) => Err(ClientEnd::BadControl { at: last }),
        Ok(None) => Ok(media(wish, phase, message)),
        Ok(Some(control)) => {
            heed(inbound, control);
            match answer_control(alloc, control, outgoing) {
                Ok(()) => Ok(media(wish, phase, message)),
                Err(_) => Err(ClientEnd::OutOfMemory),
            }
        }
    }
}

/// Does what a message says. `last` is the place of its last byte. Its answers are to be sent, the window
/// that it sets holds from the next byte on, and the gift that it tells is returned.
pub(crate) fn answer(
    alloc: Global,
    asked: &Asked,
    last: u64,
    message: Message,
    phase: &mut Phase,
    inbound: &mut Inbound,
    outgoing: &mut Outgoing,
) -> Result<Option<Gift>, ClientEnd>
    requires { IsNamed asked.now }
    ensures phase { OnOk result (phase.new ≡ (does asked.now phase.old message).phase) }
    ensures still { OnErr result (phase.new ≡ phase.old) }
    ensures said { OnOk result (Says outgoing.old (does asked.now phase.old message).says outgoing.new) }
    ensures window { OnOk result (inbound.new ≡ record { window = window_by inbound.old.window message; taken = inbound.old.taken }) }
    ensures gift { IfOk result (λ g. listed g ≡ gift_for asked.now.wish phase.old message) }
    ensures ok { OnOk result (refused last message ≡ None) }
    ensures err { IfErr result (λ e. (e ≡ end.OutOfMemory) ⊎ (refused last message ≡ Some e)) }
    ensures light { 16 * outgoing.new.others ≤ 16 * outgoing.old.others + 5600 }
    ensures apart { Apart outgoing.old outgoing.new }
{
    if message.kind == 20 {
        return answer_command(alloc, asked, last, message, phase, outgoing);
    }
    answer_other(alloc, asked.wish, last, message, *phase, inbound, outgoing)
}
