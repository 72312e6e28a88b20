use crate::rows::first_row;
use av_unit::{Bytes, Unit};
use chunk_wire::Message;
use command_dialog::{
    Act, Acts, Ask, Dialog, DialogFail, Grant, Meant, MessageList, begin_messages, end_messages,
};
use std::alloc::Global;
use std::test::Fail;
use stream_model::Reply;

// A step begins with its letter. The letters c, a, v, d, s and u are messages of type 20, 8, 9, 18, 1 and 4.
// B, U, J, F and N are the replies Began, InUse, Joined, Full and NoSlot. A message has the digit of its
// message stream after the letter, and then its body.

/// The messages of ffmpeg 5.1.9 to publish, with a keyframe and an audio frame of few bytes.
const CONNECTS: &[u8] =
    b"c0\x02\x00\x07connect\x00\x3F\xF0\x00\x00\x00\x00\x00\x00\x03\x00\x03app\x02\x00\x04live\
\x00\x04type\x02\x00\x0Anonprivate\x00\x08flashVer\x02\x00\x24FMLE/3.0 (compatible; Lavf59.27.100)\
\x00\x05tcUrl\x02\x00\x1Brtmp://127.0.0.1:19503/live\x00\x00\x09|\
s0\x00\x00\x10\x00|\
c0\x02\x00\x0DreleaseStream\x00\x40\x00\x00\x00\x00\x00\x00\x00\x05\x02\x00\x03cam|\
c0\x02\x00\x09FCPublish\x00\x40\x08\x00\x00\x00\x00\x00\x00\x05\x02\x00\x03cam|\
c0\x02\x00\x0CcreateStream\x00\x40\x10\x00\x00\x00\x00\x00\x00\x05|";

const PUBLISHES: &[u8] =
    b"c1\x02\x00\x07publish\x00\x40\x14\x00\x00\x00\x00\x00\x00\x05\x02\x00\x03cam\x02\x00\x04live|\
B|";

const MEDIA: &[u8] =
    b"d1\x02\x00\x0D@setDataFrame\x02\x00\x0AonMetaData\x08\x00\x00\x00\x00\x00\x00\x09|\
v1\x17\x00\x00\x00\x00\x01|\
v1\x17\x01\x00\x00\x50|\
a1\xAF\x01|\
v1\x17\x02\x00\x00\x00|\
c0\x02\x00\x0CdeleteStream\x00\x40\x1C\x00\x00\x00\x00\x00\x00\x05\x00\x3F\xF0\x00\x00\x00\x00\x00\x00|";

/// The messages of gstreamer's rtmp2sink: publish with transaction 0, its metadata again and again, and
/// deleteStream with the stream's name.
const GSTREAMER_PUBLISHES: &[u8] =
    b"c0\x02\x00\x07connect\x00\x3F\xF0\x00\x00\x00\x00\x00\x00\x03\x00\x03app\x02\x00\x05live/\
\x00\x0AfourCcList\x0A\x00\x00\x00\x02\x02\x00\x04av01\x02\x00\x04hvc1\x00\x00\x09|\
c0\x02\x00\x08_checkbw\x00\x00\x00\x00\x00\x00\x00\x00\x00|\
c0\x02\x00\x0CcreateStream\x00\x40\x10\x00\x00\x00\x00\x00\x00|\
c1\x02\x00\x07publish\x00\x00\x00\x00\x00\x00\x00\x00\x00\x05\x02\x00\x03cam\x02\x00\x04live|\
B|\
d1\x02\x00\x0D@setDataFrame\x02\x00\x0AonMetaData\x08\x00\x00\x00\x00\x00\x00\x09|\
d1\x02\x00\x0D@setDataFrame\x02\x00\x0AonMetaData\x08\x00\x00\x00\x00\x00\x00\x09|\
c0\x02\x00\x0CdeleteStream\x00\x00\x00\x00\x00\x00\x00\x00\x00\x05\x02\x00\x03cam|\
d1\x02\x00\x0D@setDataFrame\x02\x00\x0AonMetaData\x08\x00\x00\x00\x00\x00\x00\x09|";

/// The messages of ffmpeg 5.1.9 to play, and some switches.
const PLAYER: &[u8] =
    b"c0\x02\x00\x07connect\x00\x3F\xF0\x00\x00\x00\x00\x00\x00\x03\x00\x03app\x02\x00\x04live\
\x00\x08flashVer\x02\x00\x0DLNX 9,0,124,2\x00\x05tcUrl\x02\x00\x1Brtmp://127.0.0.1:19510/live\
\x00\x04fpad\x01\x00\x00\x0Ccapabilities\x00\x40\x2E\x00\x00\x00\x00\x00\x00\
\x00\x0DvideoFunction\x00\x3F\xF0\x00\x00\x00\x00\x00\x00\x00\x00\x09|";

const CREATES: &[u8] = b"c0\x02\x00\x0CcreateStream\x00\x40\x00\x00\x00\x00\x00\x00\x00\x05|";

const PLAYS: &[u8] =
    b"c0\x02\x00\x0FgetStreamLength\x00\x40\x08\x00\x00\x00\x00\x00\x00\x05\x02\x00\x03cam|\
c1\x02\x00\x04play\x00\x40\x10\x00\x00\x00\x00\x00\x00\x05\x02\x00\x03cam\x00\xC0\x9F\x40\x00\x00\x00\x00\x00|\
J|\
u0\x00\x03\x00\x00\x00\x01\x00\x00\x0B\xB8|\
c1\x02\x00\x0CreceiveVideo\x00\x00\x00\x00\x00\x00\x00\x00\x00\x05\x01\x00|\
c1\x02\x00\x05pause\x00\x00\x00\x00\x00\x00\x00\x00\x00\x05\x01\x01\x00\x00\x00\x00\x00\x00\x00\x00\x00|\
c0\x02\x00\x05pause\x00\x00\x00\x00\x00\x00\x00\x00\x00\x05\x01\x00|\
a1\xAF\x01|";

const DELETES: &[u8] =
    b"c0\x02\x00\x0CdeleteStream\x00\x40\x14\x00\x00\x00\x00\x00\x00\x05\x00\x3F\xF0\x00\x00\x00\x00\x00\x00|";

/// Messages that are refused, and messages that are ignored.
const REFUSALS: &[u8] = b"c0\x02\x00\x0CcreateStream\x00\x40\x00\x00\x00\x00\x00\x00\x00\x05|\
c0\x02\x00\x07connect\x00\x3F\xF0\x00\x00\x00\x00\x00\x00\x05|\
c0\x02\x00\x07connect\x00\x3F\xF0\x00\x00\x00\x00\x00\x00\x03\x00\x03app\x02\x00\x09live/?a=b\x00\x00\x09|\
c0\x02\x00\x07connect\x00\x3F\xF0\x00\x00\x00\x00\x00\x00\x03\x00\x03app\x02\x00\x04live\x00\x00\x09|\
c0\x02\x00\x0CcreateStream\x00\x40\x00\x00\x00\x00\x00\x00\x00\x05|\
c2\x02\x00\x07publish\x00\x00\x00\x00\x00\x00\x00\x00\x00\x05\x02\x00\x03cam|\
c1\x02\x00\x07publish\x00\x00\x00\x00\x00\x00\x00\x00\x00\x05\x02\x00\x03dog|\
c1\x02\x00\x07publish\x00\x00\x00\x00\x00\x00\x00\x00\x00\x05\x02\x00\x07cam?abd|\
c1\x02\x00\x07publish\x00\x00\x00\x00\x00\x00\x00\x00\x00\x05\x02\x00\x03cam|\
U|\
c1\x02\x00\x04play\x00\x00\x00\x00\x00\x00\x00\x00\x00\x05\x02\x00\x03cam|\
F|\
c0\x05\x11|\
c0|";

/// Video frames that no other frame needs, before and after configurations with lengths of 4 bytes and of 1
/// byte, and in the next publish.
const SPARES: &[u8] = b"v1\x27\x01\x00\x00\x00\x00\x00\x00\x01\x01|\
v1\x17\x00\x00\x00\x00\x01\x64\x00\x1F\xFF|\
v1\x27\x01\x00\x00\x00\x00\x00\x00\x01\x01|\
v1\x17\x00\x00\x00\x00\x01\x64\x00\x1F\xFC|\
v1\x27\x01\x00\x00\x00\x00\x00\x00\x01\x01|\
v1\x27\x01\x00\x00\x00\x01\x01|\
c0\x02\x00\x0CdeleteStream\x00\x40\x1C\x00\x00\x00\x00\x00\x00\x05\x00\x3F\xF0\x00\x00\x00\x00\x00\x00|\
c0\x02\x00\x0CcreateStream\x00\x40\x10\x00\x00\x00\x00\x00\x00\x05|\
c1\x02\x00\x07publish\x00\x40\x14\x00\x00\x00\x00\x00\x00\x05\x02\x00\x03cam|\
B|\
v1\x27\x01\x00\x00\x00\x01\x01|";

/// A publish and a play of a name for which an open table has no slot.
const NO_SLOT: &[u8] =
    b"c1\x02\x00\x07publish\x00\x40\x14\x00\x00\x00\x00\x00\x00\x05\x02\x00\x03cam|\
N|\
c1\x02\x00\x04play\x00\x40\x10\x00\x00\x00\x00\x00\x00\x05\x02\x00\x03cam|\
N|";

/// Gives the type of the message that a letter stands for.
fn kind_of(letter: u8) -> u8 {
    match letter {
        b'a' => 8,
        b'v' => 9,
        b'd' => 18,
        b's' => 1,
        b'u' => 4,
        _ => 20,
    }
}

fn stream_of(digit: u8) -> u32 {
    match digit {
        b'1' => 1,
        b'2' => 2,
        _ => 0,
    }
}

/// Gives the grant of a desk that has the name `cam` of the app `live`, whose guard refuses the key `abd`.
fn grant_of(ask: &Ask) -> Grant {
    if ask.app.as_slice() != b"live".as_slice() || ask.name.as_slice() != b"cam".as_slice() {
        return Grant::NoName;
    }
    if ask.key.as_slice() == b"abd".as_slice() {
        return Grant::Refused;
    }
    Grant::Place(3)
}

/// Writes each message by its type, its message stream and the length of its body.
fn add_messages(alloc: Global, list: &MessageList, out: &mut String) -> Result<(), Fail> {
    for message in list.as_slice() {
        let kind = message.kind;
        let stream = message.stream;
        let len = message.body.len();
        out.push_str(&format!(in alloc; " {kind}.{stream}.{len}")?)?;
    }
    Ok(())
}

fn add_named(
    alloc: Global,
    word: &str,
    place: u32,
    name: &[u8],
    out: &mut String,
) -> Result<(), Fail> {
    let name = str::from_utf8(name)?;
    out.push_str(&format!(in alloc; " {word} {place} {name}")?)?;
    Ok(())
}

fn add_unit(alloc: Global, unit: &Unit, out: &mut String) -> Result<(), Fail> {
    let kind = unit.kind;
    let len = unit.body.len();
    out.push_str(&format!(in alloc; " {kind:?} {len}")?)?;
    Ok(())
}

fn add_left(alloc: Global, player: u32, out: &mut String) -> Result<(), Fail> {
    out.push_str(&format!(in alloc; " leave {player}")?)?;
    Ok(())
}

fn add_act(alloc: Global, act: &Act, out: &mut String) -> Result<(), Fail> {
    match act {
        Act::Begin { place, name } => add_named(alloc, "begin", *place, name.as_slice(), out),
        Act::Join { place, name } => add_named(alloc, "join", *place, name.as_slice(), out),
        Act::Push(unit) => add_unit(alloc, unit, out),
        Act::End => Ok(out.push_str(" end")?),
        Act::Leave(player) => add_left(alloc, *player, out),
    }
}

fn add_acts(alloc: Global, acts: &Acts, out: &mut String) -> Result<(), Fail> {
    add_messages(alloc, &acts.says, out)?;
    match &acts.makes {
        None => Ok(()),
        Some(act) => add_act(alloc, act, out),
    }
}

fn add_fail(alloc: Global, fail: DialogFail, out: &mut String) -> Result<(), Fail> {
    let text = match fail {
        DialogFail::BadCommand { at } => format!(in alloc; " refused at {at}")?,
        DialogFail::TooManyStreams => format!(in alloc; " too many")?,
        DialogFail::OutOfMemory => format!(in alloc; " no memory")?,
    };
    out.push_str(&text)?;
    Ok(())
}

fn meet(
    alloc: Global,
    dialog: &mut Dialog,
    message: Message,
    out: &mut String,
) -> Result<(), Fail> {
    if message.body.len() > 1000 {
        return Ok(());
    }
    match dialog.asks(alloc, &message) {
        Err(fail) => add_fail(alloc, fail, out),
        Ok(meant) => {
            let grant = match meant.ask() {
                None => None,
                Some(ask) => Some(grant_of(ask)),
            };
            match dialog.step(alloc, message, meant, grant) {
                Err(fail) => add_fail(alloc, fail, out),
                Ok(acts) => add_acts(alloc, &acts, out),
            }
        }
    }
}

fn hear_reply(
    alloc: Global,
    dialog: &mut Dialog,
    reply: &Reply,
    out: &mut String,
) -> Result<(), Fail> {
    match dialog.answered(alloc, reply) {
        Err(fail) => add_fail(alloc, fail, out),
        Ok(says) => add_messages(alloc, &says, out),
    }
}

fn take_step(
    alloc: Global,
    dialog: &mut Dialog,
    step: &[u8],
    out: &mut String,
) -> Result<(), Fail> {
    match step {
        [b'B'] => hear_reply(alloc, dialog, &Reply::Began { n: 0 }, out),
        [b'U'] => hear_reply(alloc, dialog, &Reply::InUse { by: 9 }, out),
        [b'J'] => hear_reply(alloc, dialog, &Reply::Joined { player: 7, from: 2 }, out),
        [b'F'] => hear_reply(alloc, dialog, &Reply::Full, out),
        [b'N'] => hear_reply(alloc, dialog, &Reply::NoSlot { slots: 1 }, out),
        [letter, digit, text @ ..] => {
            let mut body = Bytes::new(alloc);
            body.append(text)?;
            let message = Message {
                kind: kind_of(*letter),
                stream: stream_of(*digit),
                time: 0,
                body,
            };
            meet(alloc, dialog, message, out)
        }
        _ => Ok(()),
    }
}

/// Writes the effect of each step on a dialogue, one after the other.
fn tell(alloc: Global, dialog: &mut Dialog, script: &[u8], out: &mut String) -> Result<(), Fail> {
    let mut left = script;
    for _ in 0..script.len() {
        let Some((step, rest)) = first_row(left) else {
            break;
        };
        take_step(alloc, dialog, step, out)?;
        out.push(';')?;
        left = rest;
    }
    Ok(())
}

/// Writes the effects of scripts on a new dialogue, one after the other.
fn told(alloc: Global, scripts: &[&[u8]]) -> Result<String, Fail> {
    let mut dialog = Dialog::new(alloc, 2_500_000);
    let mut out = String::new(alloc);
    for script in scripts {
        tell(alloc, &mut dialog, *script, &mut out)?;
    }
    Ok(out)
}

#[test]
fn encoders_publish(rt: HostRuntime) -> Result<(), Fail> {
    let alloc = rt.alloc();
    let want =
        " 5.0.4 6.0.5 1.0.4 20.0.190;;;; 20.0.29; begin 3 cam; 20.1.100; Meta 21; VConfig 6; Key 5; Audio 2;; end;";
    assert_eq!(rt; told(alloc, &[CONNECTS, PUBLISHES, MEDIA])?.as_str(), want);
    let want =
        " 5.0.4 6.0.5 1.0.4 20.0.190;; 20.0.29; begin 3 cam; 20.1.100; Meta 21; Meta 21;; Meta 21;";
    assert_eq!(rt; told(alloc, &[GSTREAMER_PUBLISHES])?.as_str(), want);
    Ok(())
}

#[test]
fn a_spare_is_told_by_the_last_configuration_of_its_publish(rt: HostRuntime) -> Result<(), Fail> {
    let want =
        " 5.0.4 6.0.5 1.0.4 20.0.190;;;; 20.0.29; begin 3 cam; 20.1.100; Inter 10; VConfig 10; Spare 10; VConfig 10; Inter 10; \
        Spare 7; end; 20.0.29; begin 3 cam; 20.1.100; Inter 7;";
    assert_eq!(rt;
        told(rt.alloc(), &[CONNECTS, PUBLISHES, SPARES])?.as_str(),
        want
    );
    Ok(())
}

#[test]
fn players_play(rt: HostRuntime) -> Result<(), Fail> {
    let alloc = rt.alloc();
    let want = " 5.0.4 6.0.5 1.0.4 20.0.190; 20.0.29;; join 3 cam; 4.0.6 20.1.94;;;;;; leave 7;";
    assert_eq!(rt;
        told(alloc, &[PLAYER, CREATES, PLAYS, DELETES])?.as_str(),
        want
    );
    let mut out = String::new(alloc);
    add_messages(alloc, &begin_messages(alloc, 1)?, &mut out)?;
    add_messages(alloc, &end_messages(alloc, 1)?, &mut out)?;
    assert_eq!(rt; out.as_str(), " 4.0.6 20.1.104 4.0.6 20.1.108");
    Ok(())
}

/// Gives the player that a granted play has, and its switches.
fn switches(dialog: &Dialog) -> Option<(u32, bool, bool, bool)> {
    let playing = dialog.playing()?;
    Some((
        playing.player,
        playing.want.audio,
        playing.want.video,
        playing.paused,
    ))
}

#[test]
fn a_granted_play_tells_its_switches(rt: HostRuntime) -> Result<(), Fail> {
    let alloc = rt.alloc();
    let mut dialog = Dialog::new(alloc, 2_500_000);
    let mut out = String::new(alloc);
    tell(alloc, &mut dialog, PLAYER, &mut out)?;
    assert_eq!(rt; switches(&dialog), None);
    tell(alloc, &mut dialog, CREATES, &mut out)?;
    tell(alloc, &mut dialog, PLAYS, &mut out)?;
    assert_eq!(rt; switches(&dialog), Some((7, true, false, true)));
    assert_eq!(rt; dialog.held(), 4);
    Ok(())
}

#[test]
fn the_first_cause_is_told(rt: HostRuntime) -> Result<(), Fail> {
    let alloc = rt.alloc();
    let want =
        ";; 5.0.4 6.0.5 1.0.4 20.0.190;; 20.0.29;; 20.1.103; 20.1.98; begin 3 cam; 20.1.97; join 3 cam; 20.1.99; \
        refused at 1; refused at 0;";
    assert_eq!(rt; told(alloc, &[REFUSALS])?.as_str(), want);
    let want =
        " 5.0.4 6.0.5 1.0.4 20.0.190;;;; 20.0.29; begin 3 cam; 20.1.95; join 3 cam; 20.1.99;";
    assert_eq!(rt; told(alloc, &[CONNECTS, NO_SLOT])?.as_str(), want);
    Ok(())
}

#[test]
fn sixteen_message_streams_are_open(rt: HostRuntime) -> Result<(), Fail> {
    let script = [
        PLAYER, CREATES, CREATES, CREATES, CREATES, CREATES, CREATES, CREATES, CREATES, CREATES,
        CREATES, CREATES, CREATES, CREATES, CREATES, CREATES, CREATES, CREATES, DELETES, CREATES,
    ];
    let want =
        " 5.0.4 6.0.5 1.0.4 20.0.190; 20.0.29; 20.0.29; 20.0.29; 20.0.29; 20.0.29; 20.0.29; 20.0.29; 20.0.29; 20.0.29; \
        20.0.29; 20.0.29; 20.0.29; 20.0.29; 20.0.29; 20.0.29; 20.0.29; too many;; 20.0.29;";
    assert_eq!(rt; told(rt.alloc(), &script)?.as_str(), want);
    Ok(())
}
