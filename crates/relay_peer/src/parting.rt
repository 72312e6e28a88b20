//! The end of a connection over which all was sent.

use std::alloc::Global;
use std::io;

/// The most bytes in which a last word is looked for.
const MOST: usize = 4096;

/// The start of the property of a status that says that it is an error (AMF0).
const LEVEL: &[u8] = b"\x00\x05level\x02\x00\x05error";

/// The start of the property of a status that has its code, without the code's length.
const CODE: &[u8] = b"\x00\x04code\x02";

/// The start of the property of a status that describes it, without the description's length.
const DESCRIPTION: &[u8] = b"\x00\x0bdescription\x02";

/// How a server parted once it was sent everything.
#[derive(Drop)]
pub enum Parting {
    /// It closed the connection, or is silent.
    Quiet,
    /// The connection failed.
    Failed(io::Error),
    /// It sent a status of level `error`, with this code and description. They are empty if it has none.
    Refused { code: Vec<u8>, description: Vec<u8> },
}

/// The bytes that a server sends before it parts.
#[derive(Drop)]
pub struct LastWords {
    bytes: Vec<u8>,
}

// Returns the bytes behind the first place where the needle is.
fn behind<'a>(bytes: &'a [u8], needle: &[u8]) -> Option<&'a [u8]> {
    let mut rest = bytes;
    for _ in 0..bytes.len() {
        if let Some(more) = rest.strip_prefix(needle) {
            return Some(more);
        }
        rest = rest.get(1..)?;
    }
    None
}

impl LastWords {
    pub(crate) fn new(bytes: Vec<u8>) -> LastWords {
        LastWords { bytes }
    }

    /// Takes bytes that came.
    pub(crate) fn hear(&mut self, bytes: &[u8]) {
        for byte in bytes {
            if self.bytes.len() < MOST {
                let _ = self.bytes.push(*byte);
            }
        }
    }

    // Returns the text of the property of the status that has this start, if there is one.
    fn text(&self, start: &[u8]) -> Option<&[u8]> {
        let [high, low, text @ ..] = behind(self.bytes.as_slice(), start)? else {
            return None;
        };
        text.get(..usize::from(u16::from_be_bytes([*high, *low])))
    }

    // Copies that text. It is empty if there is none.
    fn words(&self, alloc: Global, start: &[u8]) -> Vec<u8> {
        let mut words = Vec::new(alloc);
        for byte in self.text(start).unwrap_or(b"") {
            let _ = words.push(*byte);
        }
        words
    }

    /// Returns how the server parted.
    pub(crate) fn parting(self, alloc: Global) -> Parting {
        if behind(self.bytes.as_slice(), LEVEL).is_none() {
            return Parting::Quiet;
        }
        Parting::Refused {
            code: self.words(alloc, CODE),
            description: self.words(alloc, DESCRIPTION),
        }
    }
}
