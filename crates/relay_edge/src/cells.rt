//! The state that a rest shares with the door and the links of its worker.

use std::alloc::{AllocError, Global};
use std::sync::atomic::{AtomicBool, AtomicU64, Ordering};

/// The poll has reported it readable, and it hasn't blocked since.
pub const READABLE: u64 = 1;

/// The poll has reported it writable, and it hasn't blocked since.
pub const WRITABLE: u64 = 2;

/// The poll has reported that the peer sends no more, or an error.
pub const CLOSING: u64 = 4;

/// A link has this cell.
pub const TAKEN: u64 = 8;

/// The door left its connections to another worker.
pub const LEFT: u64 = 16;

/// Its link said that there is nothing to do, and wasn't used since.
pub const CALM: u64 = 32;

/// The token of the door.
pub const DOOR: usize = 0;

/// The most links of a worker that serves RTMP.
pub const MOST_LINKS: usize = 64;

/// The most links of the worker that serves HTTP players.
pub const MOST_HTTP_LINKS: usize = 1024;

/// The most peers that are seen off at a time.
pub const MOST_FAREWELLS: usize = 64;

/// Returns the last token of a worker of at most `links` links: each link has one, and each peer that is seen
/// off.
pub fn last_token(links: usize) -> usize {
    DOOR.saturating_add(links).saturating_add(MOST_FAREWELLS)
}

/// A cell of bits for the door and one for each link of a worker, by their tokens. The door, the links and the rest of
/// a worker are never used at the same time.
#[derive(Drop)]
pub struct Cells {
    list: Vec<AtomicU64>,
    // The last token that a link has had.
    last: AtomicU64,
    // The number of links that received bytes and weren't asked for more since. Until then, the effects of
    // these bytes may be complete in each turn.
    fed: AtomicU64,
    // One was asked for more.
    asked: AtomicBool,
    // Links received bytes, and more are at hand.
    begun: AtomicBool,
    // Links that keep bytes that can be sent.
    holding: AtomicU64,
    // When the first of the bytes are due that wait for more, by the clock, or 0.
    due: AtomicU64,
}

impl Cells {
    /// Creates the cells of a worker of at most `links` links.
    pub fn new(alloc: Global, links: usize) -> Result<Cells, AllocError> {
        let mut list = Vec::new(alloc);
        for _ in 0..=last_token(links) {
            if list.push(AtomicU64::new(0)).is_err() {
                return Err(AllocError);
            }
        }
        Ok(Cells {
            list,
            last: AtomicU64::new(0),
            fed: AtomicU64::new(0),
            asked: AtomicBool::new(false),
            begun: AtomicBool::new(false),
            holding: AtomicU64::new(0),
            due: AtomicU64::new(0),
        })
    }

    pub fn has(&self, token: usize, bit: u64) -> bool {
        match self.list.get(token) {
            Some(cell) => cell.load(Ordering::SeqCst) & bit != 0,
            None => false,
        }
    }

    /// Gives the cell of a token to a new link.
    pub fn take(&self, token: usize) {
        if let Some(cell) = self.list.get(token) {
            cell.store(TAKEN | READABLE | WRITABLE, Ordering::SeqCst);
            self.last.fetch_max(token as u64, Ordering::SeqCst);
        }
    }

    /// Frees the cell of a token.
    pub fn clear(&self, token: usize) {
        if let Some(cell) = self.list.get(token) {
            cell.store(0, Ordering::SeqCst);
        }
    }

    pub fn add(&self, token: usize, bits: u64) {
        if let Some(cell) = self.list.get(token) {
            let old = cell.load(Ordering::SeqCst);
            if old | bits != old {
                cell.store(old | bits, Ordering::SeqCst);
            }
        }
    }

    pub fn remove(&self, token: usize, bits: u64) {
        if let Some(cell) = self.list.get(token) {
            let old = cell.load(Ordering::SeqCst);
            if old & bits != 0 {
                cell.store(old & !bits, Ordering::SeqCst);
            }
        }
    }

    /// Returns the least token that no link has.
    pub fn free(&self) -> Option<usize> {
        for token in DOOR + 1..self.list.len() {
            if !self.has(token, TAKEN) {
                return Some(token);
            }
        }
        None
    }

    /// Records that a link received bytes, and no more are at hand.
    pub fn feed(&self) {
        self.fed.fetch_add(1, Ordering::SeqCst);
    }

    /// Records that such a link is asked for more bytes, or is gone. The effects of its bytes are complete,
    /// the last of them in this turn.
    pub fn ask(&self) {
        self.fed.fetch_sub(1, Ordering::SeqCst);
        self.asked.store(true, Ordering::SeqCst);
    }

    /// Records that a link received bytes, and more are at hand. The message that they belong to is mostly
    /// incomplete.
    pub fn begin(&self) {
        self.begun.store(true, Ordering::SeqCst);
    }

    /// Returns whether a turn that moved something may have completed the effects of received bytes, since
    /// the last call. If more bytes are at hand, the effects count only with `at_once`.
    pub fn take_done(&self, at_once: bool) -> bool {
        let done = self.fed.load(Ordering::SeqCst) > 0
            || self.asked.load(Ordering::SeqCst)
            || at_once && self.begun.load(Ordering::SeqCst);
        if done {
            self.asked.store(false, Ordering::SeqCst);
            self.begun.store(false, Ordering::SeqCst);
        }
        done
    }

    /// Clears the record of these effects, once all of them are passed on.
    pub fn take_begun(&self) {
        self.asked.store(false, Ordering::SeqCst);
        self.begun.store(false, Ordering::SeqCst);
    }

    /// Returns whether each link has said since the last call that it has nothing to do, and wasn't used
    /// afterwards.
    pub fn take_calm(&self) -> bool {
        let mut calm = true;
        for token in DOOR + 1..=self.last.load(Ordering::SeqCst) as usize {
            calm = calm && (!self.has(token, TAKEN) || self.has(token, CALM));
            self.remove(token, CALM);
        }
        calm
    }

    /// Records that a link keeps bytes that are due then, by the clock.
    pub fn wait_until(&self, then: u64) {
        let due = self.due.load(Ordering::SeqCst);
        if due == 0 || then < due {
            self.due.store(then, Ordering::SeqCst);
        }
    }

    /// Returns when the first of the bytes are due that links were said to keep since the last call, if any are.
    pub fn take_due(&self) -> Option<u64> {
        match self.due.swap(0, Ordering::SeqCst) {
            0 => None,
            due => Some(due),
        }
    }

    /// Counts one more link that keeps bytes that can be sent.
    pub fn hold(&self) {
        self.holding.fetch_add(1, Ordering::SeqCst);
    }

    /// Counts one such link fewer.
    pub fn release(&self) {
        self.holding.fetch_sub(1, Ordering::SeqCst);
    }

    /// Returns whether any link keeps bytes that can be sent.
    pub fn is_holding(&self) -> bool {
        self.holding.load(Ordering::SeqCst) > 0
    }
}
