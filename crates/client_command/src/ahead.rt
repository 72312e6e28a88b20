ghost use Rattle.std.specs.Prelude.{◌≡◌, ◌≤◌, [], length, drop, OnOk, OnErr};
ghost use Rattle.rtmp_client.specs.Turns.{is_nil};
ghost use Rattle.client_command.specs.Film.{most_ahead};

use av_unit::{Bytes, OutOfMemory};
use std::alloc::Global;
use std::marker::Model;

/// The bytes of a film that came and weren't read yet, at most 16,384. Contracts see their list. If all were
/// read none are kept.
#[derive(Drop)]
pub struct Ahead {
    bytes: Bytes,
    offset: usize,
}

impl Model for Ahead {
    ghost use Rattle.std.specs.Prelude.{◌≡◌, ◌≤◌, List, ℕ, length, drop};
    ghost use Rattle.client_command.specs.Film.{most_ahead};

    ghost Value = { List ℕ };

    ghost view = { λ a. drop a.offset a.bytes };

    ghost invariant = { λ a. (a.offset ≤ length a.bytes) × (length a.bytes ≤ most_ahead) × (a.offset ≡ length a.bytes → a.offset ≡ 0) };
}

impl Ahead {
    /// Nothing came.
    pub fn new(alloc: Global) -> Ahead
        ensures { result ≡ [] }
    {
        Ahead {
            bytes: Bytes::new(alloc),
            offset: 0,
        }
    }

    /// Receives bytes, if none were left.
    pub fn receive(&mut self, alloc: Global, bytes: &[u8]) -> Result<(), OutOfMemory>
        requires { length bytes.now ≤ most_ahead }
        ensures ok { OnOk result (self.new ≡ bytes.now) }
        ensures err { OnErr result (self.new ≡ self.old) }
    {
        let mut list = Bytes::new(alloc);
        list.append(bytes)?;
        self.bytes = list;
        self.offset = 0;
        Ok(())
    }

    /// Whether none are left.
    pub fn is_empty(&self) -> bool
        ensures { result ≡ is_nil self.now }
    {
        match self.left() {
            [] => true,
            [_, ..] => false,
        }
    }

    /// The bytes that are left.
    pub fn left(&self) -> &[u8]
        ensures value { result.now ≡ self.now }
        ensures few { length self.now ≤ most_ahead }
    {
        &self.bytes.as_slice()[self.offset..]
    }

    /// Drops the first `count` bytes, which were read. If none are left nothing is kept.
    pub fn used(&mut self, alloc: Global, count: usize)
        requires { count ≤ length self.old }
        ensures { self.new ≡ drop count self.old }
    {
        if count < self.bytes.len() - self.offset {
            self.offset += count;
        } else {
            self.bytes = Bytes::new(alloc);
            self.offset = 0;
        }
    }
}
