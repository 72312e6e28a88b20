ghost use Rattle.std.specs.Prelude.{◌≡◌, ◌-◌, [], ◌∷◌, ◌++◌, None, Some, OnOk, OnErr, true, false};
ghost use Rattle.std.specs.Option.{option_map};
ghost use Rattle.relay_outside.specs.MemLinks.{mem_told, MemHears, MemSays, room_for};
ghost use Rattle.relay_outside.specs.MemLinkLaws.{mem_hears_mean, mem_says_mean};

use crate::pieces::Pieces;
use crate::tally::Tally;
use crate::{Heard, Link, News, Said};
use past::Flow;
use std::alloc::{AllocError, Global};
use std::cell::Cell;
use std::marker::Model;

/// A link in memory. It tells its bytes.
///
/// A recv that doesn't fail gives as much of the first nonempty piece left as the slice holds. A send that
/// doesn't fail takes as many bytes as there is room for, or answers that it is out of memory and changes
/// nothing. It tells all bytes that it took, also those that it has handed over.
#[derive(Drop)]
pub struct MemLink {
    alloc: Global,
    queue: Pieces,
    closed: bool,
    given: Flow<u8>,
    handed: Flow<u8>,
    output: Vec<u8>,
    space: Option<u64>,
    recv_due: bool,
    send_due: bool,
    tally: Tally,
    told: Cell<Vec<u8>>,
}

impl Model for MemLink {
    ghost use Rattle.relay_outside.specs.MemLinks.{MemLinkState};

    ghost Value = { MemLinkState };

    ghost view = { λ l. record {
      pieces = l.queue;
      ended = l.closed;
      gave = l.given;
      handed = l.handed;
      sent = l.output.items;
      room = l.space;
      recv_fails = l.recv_due;
      send_fails = l.send_due;
      counts = l.tally;
    } };
}

// Returns the number of bytes, of `len`, that there is room for.
fn fitting(space: Option<u64>, len: usize) -> usize
    ensures { result ≡ room_for space len }
{
    match space {
        None => len,
        Some(room) => (len as u64).min(room) as usize,
    }
}

// Returns the room that is left after `count` bytes.
fn lessened(space: Option<u64>, count: usize) -> Option<u64>
    ensures { result ≡ option_map (λ room. room - count) space }
{
    match space {
        None => None,
        Some(room) => Some(room.saturating_sub(count as u64)),
    }
}

// Adds a line for a piece of news.
fn add_line(
    alloc: Global,
    lines: &mut Vec<u8>,
    news: News,
    app: &[u8],
    name: &[u8],
) -> Result<(), AllocError> {
    let words = format!(in alloc; "{news:?} ")?;
    lines.extend_from_slice(words.as_bytes())?;
    lines.extend_from_slice(app)?;
    lines.push(b'/')?;
    lines.extend_from_slice(name)?;
    lines.extend_from_slice(b"\n")
}

impl MemLink {
    /// Makes a link without input that has room for any number of bytes.
    pub fn new(alloc: Global) -> MemLink
        ensures { result ≡ record {
          pieces = [];
          ended = false;
          gave = [];
          handed = [];
          sent = [];
          room = None;
          recv_fails = false;
          send_fails = false;
          counts = record { faults = 0; waits = 0; ends = 0 };
        } }
    {
        MemLink {
            alloc,
            queue: Pieces::new(Vec::new(alloc)),
            closed: false,
            given: Flow::new(),
            handed: Flow::new(),
            output: Vec::new(alloc),
            space: None,
            recv_due: false,
            send_due: false,
            tally: Tally::new(),
            told: Cell::new(Vec::new(alloc)),
        }
    }

    /// Adds a piece of input. If memory is refused, the piece is dropped and nothing changes.
    pub fn give(&mut self, piece: Vec<u8>) -> Result<(), AllocError>
        ensures ok { OnOk result (self.new ≡ record self.old { pieces = self.old.pieces ++ piece.items ∷ [] }) }
        ensures err { OnErr result (self.new ≡ self.old) }
    {
        self.queue.add(piece)
    }

    /// Ends the input after its pieces.
    pub fn end(&mut self)
        ensures { self.new ≡ record self.old { ended = true } }
    {
        self.closed = true;
    }

    /// Sets the number of bytes that it takes from now on; `None` means any number.
    pub fn room(&mut self, bytes: Option<u64>)
        ensures { self.new ≡ record self.old { room = bytes } }
    {
        self.space = bytes;
    }

    /// Lets the next recv fail, and no other.
    pub fn fail_recv(&mut self)
        ensures { self.new ≡ record self.old { recv_fails = true } }
    {
        self.recv_due = true;
    }

    /// Lets the next send fail, and no other.
    pub fn fail_send(&mut self)
        ensures { self.new ≡ record self.old { send_fails = true } }
    {
        self.send_due = true;
    }

    /// Returns the bytes that it took and hasn't handed over.
    pub fn sent(&self) -> &[u8]
        ensures { result.now ≡ self.now.sent }
    {
        &self.output
    }

    /// Hands over the bytes that it took, and keeps none of them.
    pub fn take_sent(&mut self) -> Vec<u8>
        ensures handed { result.items ≡ self.old.sent }
        ensures left { self.new ≡ record self.old { handed = self.old.handed ++ self.old.sent; sent = [] } }
    {
        self.handed.add_all(&self.output);
        std::mem::replace(&mut self.output, Vec::new(self.alloc))
    }

    /// Hands over the lines of the news that it received, `NEWS APP/NAME` each, and keeps none. A line is
    /// missing if memory was refused for it.
    pub fn take_told(&self) -> Vec<u8> {
        self.told.replace(Vec::new(self.alloc))
    }
}

impl Link for MemLink {
    ghost counts = { λ l. l.counts };

    ghost told = { λ l. Some (mem_told l) };

    ghost hears = { MemHears };

    ghost says = { MemSays };

    ghost ready = { λ l answer. answer ≡ true };

    fn is_ready(&self) -> bool {
        true
    }

    fn recv(&mut self, into: &mut [u8]) -> Heard {
        if std::mem::replace(&mut self.recv_due, false) {
            self.tally.add_fault();
            return Heard::Failed;
        }
        match self.queue.give(into) {
            Some(count) => {
                self.given.add_all(&into[..count]);
                Heard::Bytes(count)
            }
            None if self.closed => {
                self.tally.add_end();
                Heard::End
            }
            None => {
                self.tally.add_wait();
                Heard::NotYet
            }
        }
    }

    fn send(&mut self, piece: &[u8]) -> Said {
        if std::mem::replace(&mut self.send_due, false) {
            self.tally.add_fault();
            return Said::Failed;
        }
        let count = fitting(self.space, piece.len());
        if count == 0 {
            self.tally.add_wait();
            return Said::NotYet;
        }
        match self.output.extend_from_slice(&piece[..count]) {
            Ok(()) => {
                self.space = lessened(self.space, count);
                Said::Took(count)
            }
            Err(_) => Said::OutOfMemory,
        }
    }

    fn tell(&self, news: News, app: &[u8], name: &[u8]) {
        let mut lines = self.told.replace(Vec::new(self.alloc));
        let _ = add_line(self.alloc, &mut lines, news, app, name);
        self.told.set(lines);
    }

    ghost hears_mean = { mem_hears_mean };

    ghost says_mean = { mem_says_mean };
}
