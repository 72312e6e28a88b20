ghost use Rattle.std.specs.Prelude.{◌≡◌, ◌≤◌, ◌<◌, [], length, drop, OnOk};
ghost use Rattle.rtmp_client.specs.Turns.{is_nil};

use av_unit::{Bytes, OutOfMemory};
use std::alloc::Global;
use std::marker::Model;

/// The bytes that were received and not fed yet, at most 4,096. Contracts see their list. If all were fed
/// none are kept.
#[derive(Drop)]
pub(crate) struct Input {
    bytes: Bytes,
    offset: usize,
}

impl Model for Input {
    ghost use Rattle.std.specs.Prelude.{◌≡◌, ◌≤◌, List, ℕ, length, drop};

    ghost Value = { List ℕ };

    ghost view = { λ i. drop i.offset i.bytes };

    ghost invariant = { λ i. (i.offset ≤ length i.bytes) × (length i.bytes ≤ 4096) × (i.offset ≡ length i.bytes → i.offset ≡ 0) };
}

impl Input {
    /// Makes an input without bytes.
    pub(crate) fn new(alloc: Global) -> Input
        ensures { result ≡ [] }
    {
        Input {
            bytes: Bytes::new(alloc),
            offset: 0,
        }
    }

    /// Receives bytes, if none are left.
    pub(crate) fn receive(&mut self, alloc: Global, bytes: &[u8]) -> Result<(), OutOfMemory>
        requires { length bytes.now ≤ 4096 }
        ensures { OnOk result (self.new ≡ bytes.now) }
    {
        let mut list = Bytes::new(alloc);
        list.append(bytes)?;
        self.bytes = list;
        self.offset = 0;
        Ok(())
    }

    /// Returns the bytes that are left.
    pub(crate) fn left(&self) -> &[u8]
        ensures value { result.now ≡ self.now }
        ensures short { length self.now ≤ 4096 }
    {
        &self.bytes.as_slice()[self.offset..]
    }

    /// Drops all bytes that are left.
    pub(crate) fn clear(&mut self, alloc: Global)
        ensures { self.new ≡ [] }
    {
        self.bytes = Bytes::new(alloc);
        self.offset = 0;
    }

    /// Removes the first `count` bytes, which were fed. If none are left no memory is kept.
    pub(crate) fn used(&mut self, alloc: Global, count: usize)
        requires { count ≤ length self.old }
        ensures { self.new ≡ drop count self.old }
    {
        if count < self.bytes.len() - self.offset {
            self.offset += count;
        } else {
            self.clear(alloc);
        }
    }
}

/// Returns whether there are no bytes.
pub(crate) fn is_empty(bytes: &[u8]) -> bool
    ensures { result ≡ is_nil bytes.now }
{
    match bytes {
        [] => true,
        [_, ..] => false,
    }
}
