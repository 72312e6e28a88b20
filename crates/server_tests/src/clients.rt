//! The bytes that clients send, and the links of clients that end.
ghost use Rattle.std.specs.Prelude.{IfOk};
ghost use Rattle.relay_outside.specs.MemDoors.{IsNewMemLink};

use relay_outside::MemLink;
use std::alloc::{AllocError, Global};

// The parts that a client of RTMP sends after its handshake: to connect to an app, to open a message
// stream, to publish or to play there, and to delete that stream. Then an AAC sequence header, an audio
// frame, and a keyframe.
const CONNECT: &[u8] =
    b"\x03\x00\x00\x00\x00\x00\x23\x14\x00\x00\x00\x00\x02\x00\x07connect\x00\x3f\xf0\x00\x00\x00\x00\x00\x00\x03\x00\x03app\x02\x00\x04live\x00\x00\x09";

const CREATE: &[u8] =
    b"\x03\x00\x00\x00\x00\x00\x19\x14\x00\x00\x00\x00\x02\x00\x0ccreateStream\x00\x40\x00\x00\x00\x00\x00\x00\x00\x05";

const PUBLISH: &[u8] =
    b"\x03\x00\x00\x00\x00\x00\x21\x14\x01\x00\x00\x00\x02\x00\x07publish\x00\x40\x14\x00\x00\x00\x00\x00\x00\x05\x02\x00\x03one\x02\x00\x04live";

const PLAY: &[u8] =
    b"\x03\x00\x00\x00\x00\x00\x17\x14\x01\x00\x00\x00\x02\x00\x04play\x00\x40\x14\x00\x00\x00\x00\x00\x00\x05\x02\x00\x03one";

const DELETE: &[u8] =
    b"\x03\x00\x00\x00\x00\x00\x22\x14\x00\x00\x00\x00\x02\x00\x0cdeleteStream\x00\x40\x18\x00\x00\x00\x00\x00\x00\x05\x00\x3f\xf0\x00\x00\x00\x00\x00\x00";

const CONFIG: &[u8] = b"\x06\x00\x00\x00\x00\x00\x04\x08\x01\x00\x00\x00\xaf\x00\x12\x10";

const SOUND: &[u8] = b"\x06\x00\x00\x00\x00\x00\x03\x08\x01\x00\x00\x00\xaf\x01\x21";

const KEY: &[u8] = b"\x06\x00\x00\x00\x00\x00\x06\x09\x01\x00\x00\x00\x17\x01\x00\x00\x00\x07";

/// The bytes that a letter stands for.
pub fn part(letter: u8) -> &'static [u8] {
    match letter {
        b'c' => CONNECT,
        b's' => CREATE,
        b'p' => PUBLISH,
        b'y' => PLAY,
        b'd' => DELETE,
        b'f' => CONFIG,
        b'k' => KEY,
        _ => SOUND,
    }
}

/// Returns the bytes that a client sends: by `h` a handshake, by `v` one of another version, and then a
/// part for each letter.
pub fn input(alloc: Global, letters: &[u8]) -> Result<Vec<u8>, AllocError> {
    let mut input = Vec::new(alloc);
    let [first, rest @ ..] = letters else {
        return Ok(input);
    };
    input.push(if *first == b'v' { 6 } else { 3 })?;
    input.extend_from_slice(&vec![in alloc; 0; 3_072]?)?;
    for letter in rest {
        input.extend_from_slice(part(*letter))?;
    }
    Ok(input)
}

/// The link of a client that sends these bytes and ends.
pub fn ending(alloc: Global, input: Vec<u8>) -> Result<MemLink, AllocError>
    ensures { IfOk result IsNewMemLink }
{
    let mut link = MemLink::new(alloc);
    link.give(input)?;
    link.end();
    Ok(link)
}

/// Returns the link of a client that sends the parts of these letters, and ends.
pub fn client(alloc: Global, letters: &[u8]) -> Result<MemLink, AllocError>
    ensures { IfOk result IsNewMemLink }
{
    ending(alloc, input(alloc, letters)?)
}
