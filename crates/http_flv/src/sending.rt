ghost use Rattle.std.specs.Prelude.{◌≡◌, ◌≤◌, [], length, drop};
ghost use Rattle.relay_session.specs.Turns.{is_nil};
ghost use Rattle.http_flv.specs.Sending.{size_of};

use av_unit::Bytes;
use std::alloc::Global;
use std::marker::Model;

/// Bytes that are to be sent, of which the first were sent already.
#[derive(Drop)]
pub struct Outbox {
    bytes: Bytes,
    from: usize,
}

impl Model for Outbox {
    ghost use Rattle.http_flv.specs.Sending.{IsSending, Sending, sending};

    ghost Value = { Sending };

    ghost view = { λ o. sending o.bytes o.from };

    ghost invariant = { λ o. IsSending o.bytes o.from };
}

impl Outbox {
    /// Makes an outbox of these bytes.
    pub fn of(bytes: Bytes) -> Outbox
        ensures { result ≡ record { left = bytes; spent = 0 } }
    {
        Outbox { bytes, from: 0 }
    }

    /// Returns the bytes that are left.
    pub fn left(&self) -> &[u8]
        ensures { result.now ≡ self.now.left }
    {
        &self.bytes.as_slice()[self.from..]
    }

    /// Returns whether none are left.
    pub fn is_empty(&self) -> bool
        ensures { result ≡ is_nil self.now.left }
    {
        matches!(self.left(), [])
    }

    /// Returns the number of bytes that it keeps, those among them that were sent.
    pub fn size(&self) -> usize
        ensures { result ≡ size_of self.now }
    {
        self.bytes.len()
    }

    /// Notes that the first `count` bytes were sent. If all were, none are kept.
    pub fn sent(&mut self, alloc: Global, count: usize)
        requires { count ≤ length self.old.left }
        ensures left { self.new.left ≡ drop count self.old.left }
        ensures size { size_of self.new ≤ size_of self.old }
    {
        if count < self.bytes.len() - self.from {
            self.from += count;
        } else {
            self.bytes = Bytes::new(alloc);
            self.from = 0;
        }
    }
}
