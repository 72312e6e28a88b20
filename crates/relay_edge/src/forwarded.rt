//! For whom an HTTP proxy asks: the field `X-Forwarded-For` in the head of its request.
ghost use Rattle.std.specs.Prelude.{◌≡◌};
ghost use Rattle.relay_edge.specs.Forwarding.{who_asks, IsWordOf};

use crate::proxies::Proxies;
use std::alloc::Global;
use std::net::IpAddr;

/// The most bytes of a head, as for a request.
const MOST: usize = 4096;

/// The field, in which each proxy adds the address of its peer behind those before it.
const FIELD: &[u8] = b"x-forwarded-for";

/// A word of the field.
#[derive(Clone, Copy)]
pub enum Word {
    /// The address of a proxy in front of this server.
    Proxy(IpAddr),
    /// Another address.
    Other(IpAddr),
    NoAddress,
}

/// The head of a request, as far as it has come and says for whom a proxy asks.
#[derive(Drop)]
pub struct Head {
    // The line that has begun, and the values of the field in the lines before it, each behind a comma.
    line: Vec<u8>,
    words: Vec<u8>,
    // The bytes of the head so far, and whether a line of it has come and whether all have.
    count: usize,
    begun: bool,
    whole: bool,
}

// Returns the value of the field, if the line has it.
fn value_in(line: &[u8]) -> Option<&[u8]> {
    let (name, rest) = line.split_at_checked(FIELD.len())?;
    let value = rest.strip_prefix(b":")?;
    name.eq_ignore_ascii_case(FIELD).then_some(value)
}

// Returns what a word is.
fn word_of(text: &[u8], proxies: &Proxies) -> Word
    ensures { IsWordOf text.now result }
{
    match IpAddr::parse_ascii(text) {
        Ok(address) if proxies.has(address) => Word::Proxy(address),
        Ok(address) => Word::Other(address),
        Err(_) => Word::NoAddress,
    }
}

// Returns who asks by these words, the last of the field first.
fn who_asks(words: &[Word]) -> Option<IpAddr>
    ensures { result ≡ who_asks words.now }
{
    let mut proxy = None;
    let mut left = words;
    while let [word, rest @ ..] = left {
        match *word {
            Word::Proxy(address) => proxy = Some(address),
            Word::Other(address) => return Some(address),
            Word::NoAddress => return None,
        }
        left = rest;
    }
    proxy
}

impl Head {
    /// Creates a head of which nothing has come.
    pub fn new(alloc: Global) -> Head {
        Head {
            line: Vec::new(alloc),
            words: Vec::new(alloc),
            count: 0,
            begun: false,
            whole: false,
        }
    }

    // Keeps a byte. Without memory for it, the head is as one that is too long.
    fn keep(&mut self, byte: u8) {
        if self.line.push(byte).is_err() {
            self.count = usize::MAX;
        }
    }

    // Ends a line. An empty one ends the head, unless it is before all others.
    fn end_line(&mut self) {
        let line = self.line.as_slice().trim_ascii_end();
        if line.is_empty() {
            self.whole = self.begun;
        } else {
            self.begun = true;
            if let Some(value) = value_in(line) {
                let kept = self.words.push(b',').is_ok();
                if !kept || self.words.extend_from_slice(value).is_err() {
                    self.count = usize::MAX;
                }
            }
        }
        self.line.clear();
    }

    /// Reads on. Returns whether the head is over, or is too long.
    pub fn read(&mut self, bytes: &[u8]) -> bool {
        for byte in bytes {
            self.count = self.count.saturating_add(1);
            if self.whole || self.count > MOST {
                return true;
            }
            match *byte {
                b'\n' => self.end_line(),
                other => self.keep(other),
            }
        }
        self.whole || self.count > MOST
    }

    /// Returns who asks: the last address of the field that is none of the proxies, or the first if each is. Returns
    /// `None` if a word behind it is no address, or the head isn't over.
    pub fn client(&self, alloc: Global, proxies: &Proxies) -> Option<IpAddr> {
        if !self.whole {
            return None;
        }
        let mut words = Vec::new(alloc);
        for word in self.words.as_slice().rsplit(|byte| *byte == b',') {
            let word = word.trim_ascii();
            if !word.is_empty() && words.push(word_of(word, proxies)).is_err() {
                return None;
            }
        }
        who_asks(words.as_slice())
    }
}
