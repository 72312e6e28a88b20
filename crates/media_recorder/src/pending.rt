ghost use Rattle.std.specs.Prelude.{◌≡◌, ◌≤◌, length, drop, OnOk, OnErr};
ghost use Rattle.media_recorder.specs.Mediums.{Adds};

use crate::medium::Medium;
use av_unit::{Bytes, Item, OutOfMemory};
use std::alloc::Global;
use std::marker::Model;

/// Bytes that the sink has not yet taken.
#[derive(Drop)]
pub(crate) struct Pending {
    bytes: Bytes,
    from: usize,
}

impl Model for Pending {
    ghost use Rattle.std.specs.Prelude.{◌≡◌, List, ℕ, ◌≤◌, length, drop};

    ghost Value = { List ℕ };

    ghost view = { λ p. drop p.from p.bytes };

    ghost invariant = { λ p. (p.from ≤ length p.bytes) × (p.from ≡ length p.bytes → p.from ≡ 0) };
}

impl Pending {
    /// Makes the bytes of a `Bytes` pending.
    pub(crate) fn of(bytes: Bytes) -> Pending
        ensures { result ≡ bytes }
    {
        Pending { bytes, from: 0 }
    }

    /// Returns the number of pending bytes.
    pub(crate) fn len(&self) -> usize
        ensures { result ≡ length self.now }
    {
        self.bytes.len() - self.from
    }

    /// Returns the pending bytes.
    pub(crate) fn as_slice(&self) -> &[u8]
        ensures { result.now ≡ self.now }
    {
        let from = self.from;
        &self.bytes.as_slice()[from..]
    }

    /// Removes the first `count` bytes, which the sink took. If it took all, their memory is used again for
    /// the bytes that come next.
    pub(crate) fn took(&mut self, count: usize)
        requires { count ≤ length self.old }
        ensures { self.new ≡ drop count self.old }
    {
        let len = self.bytes.len();
        self.from += count;
        if self.from == len {
            self.bytes.truncate(0);
            self.from = 0;
        }
    }

    /// Appends an item by its medium. A refusal appends nothing.
    pub(crate) fn write<M: Medium>(
        &mut self,
        medium: &mut M,
        item: &Item,
    ) -> Result<(), OutOfMemory>
        ensures ok { OnOk result (Adds M.text (M.written medium.old) item.now (M.written medium.new) self.old self.new (M.kept medium.new)) }
        ensures err { OnErr result ((M.written medium.new ≡ M.written medium.old) × (self.new ≡ self.old) × (M.kept medium.new ≤ M.kept medium.old)) }
    {
        medium.write(item, &mut self.bytes)
    }
}
