//! Texts of others on standard error.

use crate::hidden::is_hidden;
use crate::journal::is_ready;
use std::fmt::{Display, Formatter};
use std::io::Eprint;
use std::{fmt, str};

/// The most bytes of a peer's text that are shown.
const MOST: usize = 64;

/// How long a line waits for room on standard error at most, in milliseconds.
const PATIENCE: i32 = 1000;

/// A text with `?` in place of each control character (also U+0080 to U+009F), each format character and each
/// separator of lines. It therefore stays on one line, in its own order, and commands no terminal.
#[derive(Clone, Copy)]
pub struct Shown<'a> {
    pub text: &'a str,
}

impl Display for Shown<'_> {
    fn fmt<W: fmt::Write>(&self, f: &mut Formatter<W>) -> fmt::Result {
        for c in self.text.chars() {
            f.write_char(if is_hidden(c) { '?' } else { c })?;
        }
        Ok(())
    }
}

/// The first 64 bytes of a peer's text, with no character cut. `?` stands in place of the characters that
/// [`Shown`] replaces. If the bytes aren't UTF-8, it also stands in place of each byte that isn't ASCII.
#[derive(Clone, Copy)]
pub struct Written<'a> {
    pub bytes: &'a [u8],
}

// Returns the first bytes as text, or a few fewer if the last character is cut.
fn text_of(bytes: &[u8]) -> Option<&str> {
    let most = bytes.len().min(MOST);
    for less in 0..4usize {
        if let Some(head) = bytes.get(..most.saturating_sub(less)) {
            if let Ok(text) = str::from_utf8(head) {
                return Some(text);
            }
        }
    }
    None
}

impl Display for Written<'_> {
    fn fmt<W: fmt::Write>(&self, f: &mut Formatter<W>) -> fmt::Result {
        if let Some(text) = text_of(self.bytes) {
            return write!(f, "{}", Shown { text });
        }
        for byte in self.bytes.iter().take(MOST) {
            let plain = byte.is_ascii_graphic() || *byte == b' ';
            f.write_char(if plain { char::from(*byte) } else { '?' })?;
        }
        Ok(())
    }
}

/// A line with a name and a message about it.
#[derive(Drop)]
pub struct Named<'a, D> {
    pub name: &'a [u8],
    pub what: &'a D,
}

impl<D: Display> Display for Named<'_, D> {
    fn fmt<W: fmt::Write>(&self, f: &mut Formatter<W>) -> fmt::Result {
        let what = self.what;
        match str::from_utf8(self.name) {
            Ok(text) => write!(f, "relay: {}: {what}", Shown { text }),
            Err(_) => write!(f, "relay: a name that isn't UTF-8: {what}"),
        }
    }
}

/// Writes a message about a name on one line of standard error, for a command without a server. If there is
/// no room for a second, it writes nothing.
pub fn say<R: Eprint, D: Display>(rt: &R, name: &[u8], what: &D) {
    if is_ready(PATIENCE) {
        let _ = eprintln!(rt; "{}", Named { name, what });
    }
}
