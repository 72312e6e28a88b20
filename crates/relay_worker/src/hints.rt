//! Hints about streams that workers give each other, so that sessions with nothing to do take no turn.

use relay_outside::Rest;
use relay_session::Turn;
use stream_registry::StreamPort;

// The numbers of FNV-1a.
const BASIS: u32 = 2_166_136_261;

const PRIME: u32 = 16_777_619;

/// The number for hints of the stream of that name at that place. It is the place if the stream is listed,
/// and the place mixed with the name if the place is an open table. Two streams may have one number.
pub fn stream_number<P: StreamPort>(port: &P, app: &[u8], name: &[u8], place: u32) -> u32 {
    if is_open(port, app, name, place) {
        open_number(place, name)
    } else {
        place
    }
}

/// The number for hints of the stream of that name in the open table at that place.
pub fn open_number(place: u32, name: &[u8]) -> u32 {
    let mut number = BASIS ^ place;
    for byte in name {
        number = (number ^ u32::from(*byte)).wrapping_mul(PRIME);
    }
    number
}

// Whether an open table has the place: it takes another name too.
fn is_open<P: StreamPort>(port: &P, app: &[u8], name: &[u8], place: u32) -> bool {
    let one: &[u8] = b"-";
    let other: &[u8] = b"_";
    let probe = if name == one { other } else { one };
    match port.find(app, probe) {
        Ok(found) => found == place,
        Err(_) => false,
    }
}

// The numbers of the streams that a session publishes and plays.
#[derive(Clone, Copy)]
pub(crate) struct Parts {
    pub(crate) publishes: Option<u32>,
    pub(crate) plays: Option<u32>,
}

// Tells the others of a turn.
pub(crate) fn tell_turn<R: Rest>(rest: &mut R, answer: Turn, was: Parts, now: Parts) {
    if answer != Turn::Idle {
        tell_pushed(rest, was.publishes);
        if now.publishes != was.publishes {
            tell_pushed(rest, now.publishes);
        }
    }
    if now.plays != was.plays {
        if let Some(stream) = now.plays {
            rest.plays(stream);
        }
    }
}

// Tells the others that something was pushed to this stream, if there is one.
pub(crate) fn tell_pushed<R: Rest>(rest: &mut R, stream: Option<u32>) {
    if let Some(stream) = stream {
        rest.pushed(stream);
    }
}

/// How often something was pushed to this stream, if there is one, as far as a rest knows.
pub fn pushes_at<R: Rest>(rest: &R, stream: Option<u32>) -> u64 {
    match stream {
        None => 0,
        Some(stream) => rest.pushes(stream),
    }
}
