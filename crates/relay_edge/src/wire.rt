//! Sockets, with the bytes on their way.
ghost use Rattle.std.specs.Io.{ReadsAtMost};

use crate::cell::Cell;
use crate::cells::{CALM, CLOSING, READABLE, WRITABLE};
use crate::inbox::Inbox;
use crate::outbox::Outbox;
use crate::post::Post;
use mio::net::TcpStream;
use std::alloc::Global;
use std::io;
use std::io::{ErrorKind, Read, Write};
use std::net::Shutdown;
use std::sync::Arc;

/// How long a peer that was sent all has to close too, in milliseconds. Its server stops, or it was answered
/// why it isn't served.
pub const FAREWELL: u64 = 3_000;

/// How often kept bytes are tried again if the system takes none of them, in milliseconds.
const TRY: u64 = 1_000;

/// The most pieces that are read and dropped at a time during a farewell.
const LAST_PIECES: u32 = 16;

/// The result of handing kept bytes to the system.
#[derive(Clone, Copy)]
pub(crate) enum Flushed {
    All,
    // Not all yet.
    Some,
    Failed,
}

/// A socket with its cell, the bytes to send to it and the bytes received from it. When it is dropped, the
/// kept bytes are handed to the system once more.
pub(crate) struct Wire {
    stream: TcpStream,
    pub cell: Cell,
    pub outbox: Outbox,
    inbox: Inbox,
    // The last recv filled the room that there was.
    filled: bool,
    // It took a piece since the last recv.
    fresh: bool,
    // How long kept bytes wait for more, in milliseconds, and since when the first of them is kept, by the clock.
    gather: u64,
    kept: u64,
    // It took nothing of the last piece.
    pub refused: bool,
    // Bytes that were taken couldn't be sent.
    pub broken: bool,
    // Why a call of the system failed.
    pub cause: Option<io::Error>,
    // Since when the system takes none of the kept bytes, by the clock, or 0, and when it was tried last.
    stuck: u64,
    tried: u64,
    // When the socket was shut down for writing, by the clock, or 0.
    pub shut: u64,
}

impl Drop for Wire {
    fn drop(self) {
        let Wire {
            mut stream,
            cell,
            outbox,
            inbox,
            filled: _,
            fresh: _,
            gather: _,
            kept: _,
            refused: _,
            broken: _,
            cause: _,
            stuck: _,
            tried: _,
            shut: _,
        } = self;
        if !outbox.is_empty() {
            let _ = stream.write(outbox.left());
        }
        drop(inbox);
        drop(outbox);
        drop(stream);
        drop(cell);
    }
}

impl Wire {
    /// Creates the state of a socket without any bytes so far.
    pub fn new(stream: TcpStream, post: Arc<Post, Global>, token: usize) -> Wire {
        let alloc = post.alloc;
        Wire {
            stream,
            cell: Cell::new(post, token),
            outbox: Outbox::new(alloc),
            inbox: Inbox::new(alloc),
            filled: false,
            fresh: false,
            gather: 0,
            kept: 0,
            refused: false,
            broken: false,
            cause: None,
            stuck: 0,
            tried: 0,
            shut: 0,
        }
    }

    /// Hands the kept bytes to the system, by one call.
    pub fn flush(&mut self) -> Flushed {
        if self.outbox.is_empty() {
            return Flushed::All;
        }
        let error = match self.stream.write(self.outbox.left()) {
            Ok(count) if count > 0 => {
                self.sent(count);
                if self.outbox.is_empty() {
                    return Flushed::All;
                }
                self.cell.remove(WRITABLE);
                return Flushed::Some;
            }
            Ok(_) => io::Error::from(ErrorKind::WriteZero),
            Err(error) => error,
        };
        match error.kind() {
            ErrorKind::WouldBlock => {
                self.cell.remove(WRITABLE);
                if self.stuck == 0 {
                    self.stuck = self.cell.post.now();
                }
                Flushed::Some
            }
            ErrorKind::Interrupted => Flushed::Some,
            _ => {
                self.cause = Some(error);
                self.broken = true;
                self.outbox.forget();
                Flushed::Failed
            }
        }
    }

    // Records that the system took `count` of the kept bytes.
    fn sent(&mut self, count: usize) {
        self.outbox.take(count);
        self.stuck = if self.outbox.is_empty() {
            0
        } else {
            self.cell.post.now()
        };
        if let Some(seat) = self.cell.seat() {
            seat.send(count);
        }
    }

    /// Counts the kept bytes as sent, because the link ends: they are handed to the system when it is dropped.
    pub fn count_kept(&self) {
        if let Some(seat) = self.cell.seat() {
            seat.send(self.outbox.left().len());
        }
    }

    /// Records that its link gave `count` bytes.
    pub fn received(&self, count: usize) {
        if let Some(seat) = self.cell.seat() {
            seat.receive(count);
        }
    }

    /// Records that the link has been sent all that there is, if the turn before was `quiet` and no bytes are
    /// kept.
    pub fn level(&self, quiet: bool) {
        if quiet && self.outbox.is_empty() {
            if let Some(seat) = self.cell.seat() {
                seat.level();
            }
        }
    }

    /// Records that there is more to send.
    pub fn lag(&self) {
        if let Some(seat) = self.cell.seat() {
            seat.lag(self.cell.post.now());
        }
    }

    /// Sets how long kept bytes wait for more, in milliseconds; 0 sends them at once.
    pub fn gather(&mut self, milliseconds: u64) {
        self.gather = milliseconds;
    }

    // Returns whether bytes are kept that don't wait for more, because they have waited.
    fn is_due(&self) -> bool {
        !self.outbox.is_empty() && self.cell.post.now().saturating_sub(self.kept) >= self.gather
    }

    // Has the worker wait no longer than the bytes that wait for more.
    fn wait_for_more(&self) {
        if !self.outbox.is_empty() && self.cell.has(WRITABLE) {
            let due = self.kept.saturating_add(self.gather);
            self.cell.post.cells.wait_until(due);
        }
    }

    /// Returns whether a turn may receive or send something, or find that it is over.
    pub fn is_ready(&self) -> bool {
        let due = self.is_due();
        if !due {
            self.wait_for_more();
        }
        let writable = (self.refused || due) && self.cell.has(WRITABLE);
        let readable = self.inbox.has_more() || self.cell.has(READABLE);
        writable || readable || self.broken || self.shut > 0
    }

    /// Returns whether the system has taken none of the kept bytes for `milliseconds`, and takes none now. It
    /// is tried once a second, since the poll reports room only once much of the socket's buffer is free.
    /// Bytes that are taken late begin the time anew.
    pub fn is_stuck(&mut self, milliseconds: u64) -> bool {
        let now = self.cell.post.now();
        if self.stuck == 0
            || now.saturating_sub(self.stuck.max(self.tried)) < milliseconds.min(TRY)
        {
            return false;
        }
        self.tried = now;
        let before = self.stuck;
        if self.flush() == Flushed::All {
            self.cell.add(WRITABLE);
        }
        self.stuck == before && now.saturating_sub(before) >= milliseconds
    }

    /// Returns whether bytes came that the poll hasn't reported: a wait that ended by a stop of the process
    /// reports nothing.
    pub fn has_bytes(&self) -> bool {
        let mut room = [0u8; 1];
        let came = self.stream.peek(&mut room).is_ok();
        if came {
            self.cell.add(READABLE);
        }
        came
    }

    /// Shuts the socket down for writing, then reads and drops further bytes. A connection that is closed
    /// with bytes unread is reset, and the peer may lose the last bytes sent to it. Returns whether the peer
    /// has closed too, or had its time to.
    pub fn is_shut(&mut self) -> bool {
        let now = self.cell.post.now();
        if self.shut == 0 {
            let _ = self.stream.shutdown(Shutdown::Write);
            self.shut = now;
        }
        if now.saturating_sub(self.shut) >= FAREWELL {
            return true;
        }
        if !self.cell.has(READABLE) {
            return false;
        }
        let mut room = [0u8; 4096];
        for _ in 0..LAST_PIECES {
            match self.stream.read(&mut room) {
                Ok(0) => return true,
                Ok(_) => {}
                Err(error) if error.kind() == ErrorKind::WouldBlock => {
                    self.cell.remove(READABLE);
                    return false;
                }
                Err(error) => return error.kind() != ErrorKind::Interrupted,
            }
        }
        false
    }

    /// Sends the kept bytes, and sees the peer off. Returns whether that is over.
    pub fn is_seen_off(&mut self) -> bool {
        let flushed = self.flush();
        self.tell_kept();
        self.cell.add(CALM);
        match flushed {
            Flushed::All => self.is_shut(),
            Flushed::Some => self.is_stuck(FAREWELL),
            Flushed::Failed => true,
        }
    }

    /// Sets in the cell whether the worker must go on for the kept bytes.
    pub fn tell_kept(&mut self) {
        let due = self.is_due();
        if !due {
            self.wait_for_more();
        }
        self.cell.keep(due && self.cell.has(WRITABLE));
    }

    /// Takes the whole piece or nothing of it.
    pub fn take(&mut self, piece: &[u8]) -> Flushed {
        if self.outbox.is_empty() {
            self.kept = self.cell.post.now();
        }
        if !self.outbox.keep(piece) {
            match self.flush() {
                Flushed::All => {}
                other => return other,
            }
            if !self.outbox.keep(piece) {
                return Flushed::Some;
            }
        }
        self.fresh = true;
        if self.outbox.is_full() {
            match self.flush() {
                Flushed::Failed => return Flushed::Failed,
                _ => {}
            }
        }
        Flushed::All
    }

    /// Hands on the kept bytes, if the turn before this one had no more to send and they don't wait for more.
    pub fn settle(&mut self) -> Flushed {
        if self.fresh || !self.is_due() || !self.cell.has(WRITABLE) {
            self.fresh = false;
            return Flushed::Some;
        }
        self.flush()
    }

    // Receives bytes from the socket.
    fn receive(&mut self, into: &mut [u8]) -> io::Result<usize>
        ensures { ReadsAtMost result into.new }
    {
        if !self.filled && !self.inbox.is_open() {
            let count = self.stream.read(into)?;
            self.filled = count >= into.len();
            self.note(self.filled);
            return Ok(count);
        }
        if !self.inbox.is_open() {
            self.inbox.open();
        }
        if !self.inbox.is_open() {
            let count = self.stream.read(into)?;
            self.note(count >= into.len());
            return Ok(count);
        }
        let count = self.stream.read(self.inbox.room())?;
        self.filled = self.inbox.receive(count, into.len());
        self.note(self.filled);
        Ok(self.inbox.give(into))
    }

    // Marks that nothing is left to read, if a read didn't fill its room.
    fn note(&self, filled: bool) {
        if !filled && !self.cell.has(CLOSING) {
            self.cell.remove(READABLE);
        }
    }

    /// Gives bytes that were received before, or receives some.
    pub fn give(&mut self, into: &mut [u8]) -> io::Result<usize>
        ensures { ReadsAtMost result into.new }
    {
        let count = if self.inbox.has_more() {
            self.inbox.give(into)
        } else if self.cell.has(READABLE) {
            self.receive(into)?
        } else {
            return Err(io::Error::from(ErrorKind::WouldBlock));
        };
        let more = self.inbox.has_more() || (self.filled && !self.inbox.is_open());
        self.cell.receive(more);
        Ok(count)
    }
}
