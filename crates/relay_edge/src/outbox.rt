//! The bytes that a link took and the system hasn't taken yet.

use std::alloc::Global;

/// The most bytes that are kept.
const MOST: usize = 65_536;

/// The number of bytes from which on they are handed on at once, so that another piece has room after them.
const FULL: usize = 49_152;

/// The number of times in a row with few bytes, after which their memory is given back.
const FEW_TIMES: u32 = 64;

/// The most bytes that count as few. If there was never more memory than for these, it is given back each
/// time.
const FEW: usize = 8_192;

/// The bytes of pieces that a link took, in order, that the system didn't take yet.
#[derive(Drop)]
pub(crate) struct Outbox {
    alloc: Global,
    bytes: Vec<u8>,
    // The number of bytes, from the front, that the system took.
    gone: usize,
    // The number of times in a row that there were few bytes.
    few: u32,
}

impl Outbox {
    /// Creates an outbox without bytes.
    pub(crate) fn new(alloc: Global) -> Outbox {
        Outbox {
            alloc,
            bytes: Vec::new(alloc),
            gone: 0,
            few: 0,
        }
    }

    pub(crate) fn is_empty(&self) -> bool {
        self.bytes.is_empty()
    }

    /// Returns whether the bytes must be handed on before more come.
    pub(crate) fn is_full(&self) -> bool {
        self.bytes.len() >= FULL
    }

    /// Keeps the whole piece, or nothing of it if there is no room or no memory. Returns whether it was kept.
    pub(crate) fn keep(&mut self, piece: &[u8]) -> bool {
        if self.bytes.len().saturating_add(piece.len()) > MOST {
            return false;
        }
        self.bytes.extend_from_slice(piece).is_ok()
    }

    /// Returns the bytes that the system didn't take.
    pub(crate) fn left(&self) -> &[u8] {
        match self.bytes.get(self.gone..) {
            Some(left) => left,
            None => &[],
        }
    }

    /// Records that the system took `count` of them.
    pub(crate) fn take(&mut self, count: usize) {
        self.gone = self.gone.saturating_add(count);
        if self.gone >= self.bytes.len() {
            self.forget();
        }
    }

    /// Forgets all bytes.
    pub(crate) fn forget(&mut self) {
        self.few = if self.bytes.len() <= FEW {
            self.few.saturating_add(1)
        } else {
            0
        };
        self.gone = 0;
        if self.few >= FEW_TIMES || self.bytes.capacity() <= FEW {
            self.bytes = Vec::new(self.alloc);
            self.few = 0;
        } else {
            self.bytes.clear();
        }
    }
}
