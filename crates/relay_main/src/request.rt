//! The words of `push`, `pull` and `edge` that name a stream of a server, with their options, and the key.

use crate::is;
use crate::watching::{Unfit, variable};
use client_owed::Wish;
use std::alloc::Global;
use std::fs::{File, Files};
use std::io::Read;
use std::str;

/// An app or a name of the command line has at most this many bytes.
const MOST_NAMED: usize = 255;

/// What an address begins with that has the app and the name too.
const SCHEME: &[u8] = b"rtmp://";

/// The variable with the key of the stream.
const KEY: &str = "RELAY_KEY";

/// The variable with the name of a file whose first line is the key.
const KEY_FILE: &str = "RELAY_KEY_FILE";

/// The most bytes of that file that are read.
const MOST_KEY: usize = 512;

/// A stream of a server.
#[derive(Clone, Copy)]
pub struct Named<'a> {
    pub address: &'a [u8],
    pub app: &'a [u8],
    pub name: &'a [u8],
}

/// The options of `push` and `pull`.
#[derive(Clone, Copy)]
pub struct Options {
    /// Each tag is sent at its time.
    pub paced: bool,
    /// Times are counted from 0.
    pub from_zero: bool,
    /// After how many seconds it ends.
    pub seconds: Option<u64>,
}

fn has_length(name: &[u8]) -> bool {
    !name.is_empty() && name.len() <= MOST_NAMED
}

// Returns the bytes before the first slash and those behind it.
fn at_slash(text: &[u8]) -> Option<(&[u8], &[u8])> {
    let place = text.iter().position(|byte| *byte == b'/')?;
    Some((text.get(..place)?, text.get(place.checked_add(1)?..)?))
}

// Returns the parts of `rtmp://HOST[:PORT]/APP/NAME`.
fn parts(text: &[u8]) -> Option<Named<'_>> {
    let (address, path) = at_slash(text.strip_prefix(SCHEME)?)?;
    let (app, name) = at_slash(path)?;
    Some(Named { address, app, name })
}

/// Returns the stream that the words name: `ADDRESS APP NAME`, or `rtmp://ADDRESS/APP/NAME`. The app and the
/// name have 1 to 255 bytes.
pub fn read_named(words: &[Vec<u8>]) -> Option<Named<'_>> {
    let named = match words {
        [text] => parts(text.as_slice())?,
        [address, app, name] => Named {
            address: address.as_slice(),
            app: app.as_slice(),
            name: name.as_slice(),
        },
        _ => return None,
    };
    (has_length(named.app) && has_length(named.name)).then_some(named)
}

// Returns the number of seconds in a word, from 1.
fn seconds_in(word: &[u8]) -> Option<u64> {
    let count = str::from_utf8(word).ok()?.parse::<u64>().ok()?;
    (count > 0).then_some(count)
}

/// Returns the options at the front of the words behind the command, and the words behind them.
pub fn read_options(wish: Wish, words: &[Vec<u8>]) -> Option<(Options, &[Vec<u8>])> {
    let pushes = match wish {
        Wish::Push => true,
        Wish::Pull => false,
    };
    let mut options = Options {
        paced: false,
        from_zero: false,
        seconds: None,
    };
    let mut rest = words;
    for _ in 0..words.len() {
        match rest {
            [word, more @ ..] if pushes && is(word, "--pace") => {
                options.paced = true;
                rest = more;
            }
            [word, more @ ..] if !pushes && is(word, "--from-zero") => {
                options.from_zero = true;
                rest = more;
            }
            [word, count, more @ ..] if !pushes && is(word, "--for") => {
                options.seconds = Some(seconds_in(count)?);
                rest = more;
            }
            _ => return Some((options, rest)),
        }
    }
    Some((options, rest))
}

// Returns the first line of the text.
fn first_line(text: &[u8]) -> &[u8] {
    let end = text
        .iter()
        .position(|byte| *byte == b'\n' || *byte == b'\r');
    text.get(..end.unwrap_or(text.len())).unwrap_or(text)
}

// Reads the key of the file.
fn key_in<R: Files<File = File>>(rt: &R, alloc: Global, path: &str) -> Result<Vec<u8>, Unfit> {
    let mut room = [0u8; MOST_KEY];
    let mut have = 0usize;
    let unfit = Unfit::Variable {
        name: KEY_FILE,
        wanted: "a file that can be read",
    };
    let mut file = File::open(rt, path).map_err(|_| unfit)?;
    for _ in 0..MOST_KEY {
        let Some(free) = room.get_mut(have..) else {
            break;
        };
        if free.is_empty() {
            break;
        }
        let count = file.read(free).map_err(|_| unfit)?;
        if count == 0 {
            break;
        }
        have = have.saturating_add(count);
    }
    bytes(alloc, first_line(room.get(..have).unwrap_or(&[])))
}

fn bytes(alloc: Global, text: &[u8]) -> Result<Vec<u8>, Unfit> {
    let mut bytes = Vec::new(alloc);
    for byte in text {
        bytes.push(*byte).map_err(|_| Unfit::OutOfMemory)?;
    }
    Ok(bytes)
}

// Returns the key of the variables, if one is set.
fn key<R: Files<File = File>>(host: &HostRuntime, rt: &R) -> Result<Option<Vec<u8>>, Unfit> {
    if let Some(key) = variable(host, KEY)? {
        return Ok(Some(key.into_bytes()));
    }
    match variable(host, KEY_FILE)? {
        Some(path) => Ok(Some(key_in(rt, host.alloc(), path.as_str())?)),
        None => Ok(None),
    }
}

// Returns the name with the key of the variables behind it. A name that has a key keeps it.
fn with_key<R: Files<File = File>>(
    host: &HostRuntime,
    rt: &R,
    name: &[u8],
) -> Result<Vec<u8>, Unfit> {
    let mut whole = bytes(host.alloc(), name)?;
    if name.iter().any(|byte| *byte == b'?') {
        return Ok(whole);
    }
    let Some(key) = key(host, rt)? else {
        return Ok(whole);
    };
    whole.push(b'?').map_err(|_| Unfit::OutOfMemory)?;
    for byte in &key {
        whole.push(*byte).map_err(|_| Unfit::OutOfMemory)?;
    }
    if has_length(whole.as_slice()) {
        return Ok(whole);
    }
    Err(Unfit::Variable {
        name: KEY,
        wanted: "a key that has at most 255 bytes with its name",
    })
}

/// Returns the words of the command with the stream in three words, and the key of the variables behind its
/// name. `command` has the words before them.
pub fn spelled<R: Files<File = File>>(
    host: &HostRuntime,
    rt: &R,
    command: &[Vec<u8>],
    named: Named<'_>,
) -> Result<Vec<Vec<u8>>, Unfit> {
    let alloc = host.alloc();
    let mut words = Vec::new(alloc);
    for word in command {
        words
            .push(bytes(alloc, word.as_slice())?)
            .map_err(|_| Unfit::OutOfMemory)?;
    }
    for word in [
        bytes(alloc, named.address)?,
        bytes(alloc, named.app)?,
        with_key(host, rt, named.name)?,
    ] {
        words.push(word).map_err(|_| Unfit::OutOfMemory)?;
    }
    Ok(words)
}
