use crate::amf::add_brief;
use crate::rows::{digit, first_row};
use amf0_value::Amf;
use av_unit::{Bytes, OutOfMemory};
use rtmp_command::{Answer, Command, CommandFail, Heard, Why, answer_body, command_of, hear};
use std::alloc::Global;
use std::test::Fail;

/// The commands by which encoders connect to the app `live`: the client of ffmpeg 5.1.9; nine fields; codecs
/// in a strict array; and no version of the client. Then the commands of a client to publish and to pause.
const ENCODERS: &[u8] =
    b"\x02\x00\x07connect\x00?\xF0\x00\x00\x00\x00\x00\x00\x03\x00\x03app\x02\x00\x04live\
\x00\x04type\x02\x00\x0Anonprivate\x00\x08flashVer\x02\x00\x24FMLE/3.0 (compatible; Lavf59.27.100)\
\x00\x05tcUrl\x02\x00\x1Brtmp://127.0.0.1:19503/live\x00\x00\x09|\
\x02\x00\x07connect\x00?\xF0\x00\x00\x00\x00\x00\x00\x03\x00\x03app\x02\x00\x04live\
\x00\x04type\x02\x00\x0Anonprivate\x00\x08flashVer\x02\x00\x1FFMLE/3.0 (compatible; FMSc/1.0)\
\x00\x06swfUrl\x02\x00\x0Drtmp://h/live\x00\x05tcUrl\x02\x00\x0Drtmp://h/live\x00\x04fpad\x01\x00\
\x00\x0Ccapabilities\x00@.\x00\x00\x00\x00\x00\x00\x00\x0BaudioCodecs\x00@\xAF\xCE\x00\x00\x00\x00\x00\
\x00\x0BvideoCodecs\x00@o\x80\x00\x00\x00\x00\x00\x00\x00\x09|\
\x02\x00\x07connect\x00?\xF0\x00\x00\x00\x00\x00\x00\x03\x00\x03app\x02\x00\x04live\
\x00\x08flashVer\x02\x00\x1FFMLE/3.0 (compatible; FMSc/1.0)\
\x00\x0AfourCcList\x0A\x00\x00\x00\x03\x02\x00\x04av01\x02\x00\x04vp09\x02\x00\x04hvc1\
\x00\x05tcUrl\x02\x00\x0Drtmp://h/live\x00\x00\x09|\
\x02\x00\x07connect\x00?\xF0\x00\x00\x00\x00\x00\x00\x03\x00\x03app\x02\x00\x04live\
\x00\x05tcUrl\x02\x00\x0Drtmp://h/live\x00\x04fpad\x01\x00\x00\x00\x09|\
\x02\x00\x07publish\x00?\xF0\x00\x00\x00\x00\x00\x00\x05\x02\x00\x03cam\x02\x00\x04live|\
\x02\x00\x05pause\x00?\xF0\x00\x00\x00\x00\x00\x00\x05\x01\x01|";

/// Commands whose transaction is no number, and bodies that are no commands or aren't AMF0.
const OTHERS: &[u8] =
    b"\x02\x00\x01a|\x02\x00\x01a\x05|\x02\x00\x01a\x01\x01||\x00|\x00?\xF0\x00\x00\x00\x00\x00\x00|\
\x05\x02\x00\x01a|\x02\x00\x01a\x05\x11|\x05\x11|\x05\x06|\x02\x00\x01a\x05\x05\x05\x11|\
\x02\x00\x01a\x05\x03\x00\x03app\x02\x00\x02x|";

/// Adds a space and the keys of the first argument if that is an object.
fn add_keys(args: &[Amf], out: &mut Bytes) -> Result<(), OutOfMemory> {
    if let [Amf::Object(pairs), ..] = args {
        for pair in pairs.as_slice() {
            out.append(b" ")?;
            out.append(pair.0.as_slice())?;
        }
    }
    Ok(())
}

/// Adds the place of a refusal.
fn add_refusal(fail: CommandFail, out: &mut Bytes) -> Result<(), OutOfMemory> {
    match fail {
        CommandFail::BadCommand { at } => out.append(&[b'x', digit(at)]),
        CommandFail::OutOfMemory => Err(OutOfMemory),
    }
}

/// Adds a command's name, its transaction and its keys.
fn add_command(alloc: Global, body: &[u8], out: &mut Bytes) -> Result<(), OutOfMemory> {
    match command_of(alloc, body) {
        Ok(
            Command {
                name,
                transaction,
                args,
            },
        ) => {
            out.append(name.as_slice())?;
            out.append(&transaction.to_be_bytes())?;
            add_keys(args.as_slice(), out)
        }
        Err(fail) => add_refusal(fail, out),
    }
}

/// Adds the fields that are read of a command: its name, its transaction, its app and its fourth value.
fn add_heard(alloc: Global, body: &[u8], out: &mut Bytes) -> Result<(), OutOfMemory> {
    match hear(alloc, body) {
        Ok(
            Heard {
                name,
                transaction,
                app,
                fourth,
            },
        ) => {
            out.append(name.as_slice())?;
            out.append(&transaction.to_be_bytes())?;
            if let Some(app) = app {
                out.append(app.as_slice())?;
            }
            add_brief(&fourth, out)
        }
        Err(fail) => add_refusal(fail, out),
    }
}

fn commands(alloc: Global, rows: &[u8]) -> Result<Bytes, OutOfMemory> {
    let mut out = Bytes::new(alloc);
    let mut left = rows;
    for _ in 0..rows.len() {
        let Some((row, rest)) = first_row(left) else {
            break;
        };
        add_command(alloc, row, &mut out)?;
        out.append(b"|")?;
        left = rest;
    }
    Ok(out)
}

fn heard(alloc: Global, rows: &[u8]) -> Result<Bytes, OutOfMemory> {
    let mut out = Bytes::new(alloc);
    let mut left = rows;
    for _ in 0..rows.len() {
        let Some((row, rest)) = first_row(left) else {
            break;
        };
        add_heard(alloc, row, &mut out)?;
        out.append(b"|")?;
        left = rest;
    }
    Ok(out)
}

#[test]
fn commands_are_read(rt: HostRuntime) -> Result<(), Fail> {
    let alloc = rt.alloc();
    let want = b"connect?\xF0\x00\x00\x00\x00\x00\x00 app type flashVer tcUrl|\
connect?\xF0\x00\x00\x00\x00\x00\x00 app type flashVer swfUrl tcUrl fpad capabilities audioCodecs videoCodecs|\
connect?\xF0\x00\x00\x00\x00\x00\x00 app flashVer fourCcList tcUrl|\
connect?\xF0\x00\x00\x00\x00\x00\x00 app tcUrl fpad|publish?\xF0\x00\x00\x00\x00\x00\x00|pause?\xF0\x00\x00\x00\x00\x00\x00|";
    assert_eq!(rt; commands(alloc, ENCODERS)?.as_slice(), want.as_slice());
    let want =
        b"a\x00\x00\x00\x00\x00\x00\x00\x00|a\x00\x00\x00\x00\x00\x00\x00\x00|a\x00\x00\x00\x00\x00\x00\x00\x00|\
x0|x1|x0|x0|x5|x1|x0|x7|x?|";
    assert_eq!(rt; commands(alloc, OTHERS)?.as_slice(), want.as_slice());
    Ok(())
}

#[test]
fn what_encoders_say_is_heard(rt: HostRuntime) -> Result<(), Fail> {
    let alloc = rt.alloc();
    let want =
        b"connect?\xF0\x00\x00\x00\x00\x00\x00live?|connect?\xF0\x00\x00\x00\x00\x00\x00live?|\
connect?\xF0\x00\x00\x00\x00\x00\x00live?|connect?\xF0\x00\x00\x00\x00\x00\x00live?|\
publish?\xF0\x00\x00\x00\x00\x00\x00cam|pause?\xF0\x00\x00\x00\x00\x00\x00+|";
    assert_eq!(rt; heard(alloc, ENCODERS)?.as_slice(), want.as_slice());
    let want =
        b"a\x00\x00\x00\x00\x00\x00\x00\x00?|a\x00\x00\x00\x00\x00\x00\x00\x00?|a\x00\x00\x00\x00\x00\x00\x00\x00?|\
x0|x1|x0|x0|x5|x1|x0|x7|x?|";
    assert_eq!(rt; heard(alloc, OTHERS)?.as_slice(), want.as_slice());
    Ok(())
}

/// Gives the cause that a letter stands for.
fn why_of(letter: u8) -> Why {
    match letter {
        b'a' | b'f' => Why::RoleActive,
        b'b' | b'g' => Why::NoName,
        b'c' | b'h' => Why::Refused,
        b'd' | b'i' => Why::InUse,
        _ => Why::Full,
    }
}

/// Gives the answer that a letter stands for: capital letters for those that aren't refusals.
fn answer_of(letter: u8) -> Answer {
    match letter {
        b'C' => Answer::Connected {
            transaction: 0x3FF0_0000_0000_0000,
        },
        b'R' => Answer::Created {
            transaction: 0x4000_0000_0000_0000,
            id: 1,
        },
        b'N' => Answer::Created {
            transaction: 0x7FF8_0000_0000_0001,
            id: 16,
        },
        b'Z' => Answer::Created {
            transaction: 0,
            id: 16,
        },
        b'B' => Answer::PublishStart,
        b'P' => Answer::PlayStart,
        b'T' => Answer::PublishNotify,
        b'U' => Answer::UnpublishNotify,
        b'a'..=b'e' => Answer::PublishRefused(why_of(letter)),
        _ => Answer::PlayRefused(why_of(letter)),
    }
}

/// Gives the bodies of the answers that the letters stand for.
fn bodies(alloc: Global, letters: &[u8]) -> Result<Bytes, OutOfMemory> {
    let mut out = Bytes::new(alloc);
    for letter in letters {
        let body = answer_body(alloc, &answer_of(*letter))?;
        out.append(body.as_slice())?;
    }
    Ok(out)
}

/// A connect has 190 bytes. Then new message streams, starts and notices, and refusals with their causes.
const BODIES: &[u8] =
    b"\x02\x00\x07_result\x00?\xF0\x00\x00\x00\x00\x00\x00\x03\x00\x06fmsVer\x02\x00\x0DFMS/3,0,1,123\x00\x0Ccapabilities\x00@?\x00\x00\x00\x00\
\x00\x00\x00\x00\x09\x03\x00\x05level\x02\x00\x06status\x00\x04code\x02\x00\x1DNetConnection.Connect.Success\x00\x0Bdescription\x02\x00\x15C\
onnection succeeded.\x00\x0EobjectEncoding\x00\x00\x00\x00\x00\x00\x00\x00\x00\x00\x00\x09\
\x02\x00\x07_result\x00@\x00\x00\x00\x00\x00\x00\x00\x05\x00?\xF0\x00\x00\x00\x00\x00\x00\
\x02\x00\x07_result\x00\x7F\xF8\x00\x00\x00\x00\x00\x01\x05\x00@0\x00\x00\x00\x00\x00\x00\
\x02\x00\x07_result\x00\x00\x00\x00\x00\x00\x00\x00\x00\x05\x00@0\x00\x00\x00\x00\x00\x00\
\x02\x00\x08onStatus\x00\x00\x00\x00\x00\x00\x00\x00\x00\x05\x03\x00\x05level\x02\x00\x06status\x00\x04code\x02\x00\x17NetStream.Publish.Sta\
rt\x00\x0Bdescription\x02\x00\x0BPublishing.\x00\x00\x09\
\x02\x00\x08onStatus\x00\x00\x00\x00\x00\x00\x00\x00\x00\x05\x03\x00\x05level\x02\x00\x06status\x00\x04code\x02\x00\x14NetStream.Play.Start\
\x00\x0Bdescription\x02\x00\x08Playing.\x00\x00\x09\
\x02\x00\x08onStatus\x00\x00\x00\x00\x00\x00\x00\x00\x00\x05\x03\x00\x05level\x02\x00\x06status\x00\x04code\x02\x00\x1CNetStream.Play.Publis\
hNotify\x00\x0Bdescription\x02\x00\x0APublished.\x00\x00\x09\
\x02\x00\x08onStatus\x00\x00\x00\x00\x00\x00\x00\x00\x00\x05\x03\x00\x05level\x02\x00\x06status\x00\x04code\x02\x00\x1ENetStream.Play.Unpubl\
ishNotify\x00\x0Bdescription\x02\x00\x0CUnpublished.\x00\x00\x09\
\x02\x00\x08onStatus\x00\x00\x00\x00\x00\x00\x00\x00\x00\x05\x03\x00\x05level\x02\x00\x05error\x00\x04code\x02\x00\x19NetStream.Publish.BadN\
ame\x00\x0Bdescription\x02\x00\x0CRole active.\x00\x00\x09\
\x02\x00\x08onStatus\x00\x00\x00\x00\x00\x00\x00\x00\x00\x05\x03\x00\x05level\x02\x00\x05error\x00\x04code\x02\x00\x19NetStream.Publish.BadN\
ame\x00\x0Bdescription\x02\x00\x0DNo such name.\x00\x00\x09\
\x02\x00\x08onStatus\x00\x00\x00\x00\x00\x00\x00\x00\x00\x05\x03\x00\x05level\x02\x00\x05error\x00\x04code\x02\x00\x19NetStream.Publish.BadN\
ame\x00\x0Bdescription\x02\x00\x08Refused.\x00\x00\x09\
\x02\x00\x08onStatus\x00\x00\x00\x00\x00\x00\x00\x00\x00\x05\x03\x00\x05level\x02\x00\x05error\x00\x04code\x02\x00\x19NetStream.Publish.BadN\
ame\x00\x0Bdescription\x02\x00\x07In use.\x00\x00\x09\
\x02\x00\x08onStatus\x00\x00\x00\x00\x00\x00\x00\x00\x00\x05\x03\x00\x05level\x02\x00\x05error\x00\x04code\x02\x00\x19NetStream.Publish.BadN\
ame\x00\x0Bdescription\x02\x00\x05Full.\x00\x00\x09\
\x02\x00\x08onStatus\x00\x00\x00\x00\x00\x00\x00\x00\x00\x05\x03\x00\x05level\x02\x00\x05error\x00\x04code\x02\x00\x1DNetStream.Play.StreamN\
otFound\x00\x0Bdescription\x02\x00\x0CRole active.\x00\x00\x09\
\x02\x00\x08onStatus\x00\x00\x00\x00\x00\x00\x00\x00\x00\x05\x03\x00\x05level\x02\x00\x05error\x00\x04code\x02\x00\x1DNetStream.Play.StreamN\
otFound\x00\x0Bdescription\x02\x00\x0DNo such name.\x00\x00\x09\
\x02\x00\x08onStatus\x00\x00\x00\x00\x00\x00\x00\x00\x00\x05\x03\x00\x05level\x02\x00\x05error\x00\x04code\x02\x00\x1DNetStream.Play.StreamN\
otFound\x00\x0Bdescription\x02\x00\x08Refused.\x00\x00\x09\
\x02\x00\x08onStatus\x00\x00\x00\x00\x00\x00\x00\x00\x00\x05\x03\x00\x05level\x02\x00\x05error\x00\x04code\x02\x00\x1DNetStream.Play.StreamN\
otFound\x00\x0Bdescription\x02\x00\x07In use.\x00\x00\x09\
\x02\x00\x08onStatus\x00\x00\x00\x00\x00\x00\x00\x00\x00\x05\x03\x00\x05level\x02\x00\x05error\x00\x04code\x02\x00\x1DNetStream.Play.StreamN\
otFound\x00\x0Bdescription\x02\x00\x05Full.\x00\x00\x09";

#[test]
fn answers_are_written(rt: HostRuntime) -> Result<(), Fail> {
    let told = bodies(rt.alloc(), b"CRNZBPTUabcdefghij")?;
    assert_eq!(rt; told.as_slice(), BODIES);
    Ok(())
}

/// Makes a command of one letter, with that number of thousands of nulls after it.
fn with_nulls(alloc: Global, thousands: u32) -> Result<Bytes, OutOfMemory> {
    let mut body = Bytes::new(alloc);
    body.append(b"\x02\x00\x01a")?;
    for _ in 0..thousands {
        body.append(&[0x05; 1000])?;
    }
    Ok(body)
}

/// Gives the number of arguments of a command.
fn count_args(alloc: Global, body: &[u8]) -> usize {
    match command_of(alloc, body) {
        Ok(command) => command.args.len(),
        Err(_) => 0,
    }
}

#[test]
fn commands_of_more_than_65_536_bytes_are_read(rt: HostRuntime) -> Result<(), Fail> {
    let alloc = rt.alloc();
    let body = with_nulls(alloc, 70)?;
    assert_eq!(rt; count_args(alloc, body.as_slice()), 69_999);
    assert!(rt; hear(alloc, body.as_slice()).is_ok());
    Ok(())
}
