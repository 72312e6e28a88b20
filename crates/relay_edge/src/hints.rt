//! How often something was pushed to each stream, and which workers play it.

use std::alloc::{AllocError, Global};
use std::sync::atomic::{AtomicU64, Ordering};

/// The number of counts. Streams whose numbers have the same remainder share a count.
const SLOTS: usize = 4096;

#[derive(Drop)]
struct Slot {
    pushes: AtomicU64,
    // The workers that play one of its streams, a bit for each.
    players: AtomicU64,
}

/// The hints of a server's workers.
#[derive(Drop)]
pub struct Hints {
    slots: Vec<Slot>,
}

// Returns the bit of a worker.
fn bit(worker: usize) -> u64 {
    if worker < 64 { 1u64 << worker } else { 0 }
}

impl Hints {
    pub fn new(alloc: Global) -> Result<Hints, AllocError> {
        let mut slots = Vec::new(alloc);
        for _ in 0..SLOTS {
            let slot = Slot {
                pushes: AtomicU64::new(0),
                players: AtomicU64::new(0),
            };
            if slots.push(slot).is_err() {
                return Err(AllocError);
            }
        }
        Ok(Hints { slots })
    }

    fn slot(&self, stream: u32) -> Option<&Slot> {
        self.slots.get(stream as usize % SLOTS)
    }

    /// Counts a push to the stream, and returns the workers that play it, a bit for each. The count comes
    /// first, so that a worker that plays the stream from now on finds the push.
    pub fn push(&self, stream: u32) -> u64 {
        let Some(slot) = self.slot(stream) else {
            return 0;
        };
        slot.pushes.fetch_add(1, Ordering::SeqCst);
        slot.players.load(Ordering::SeqCst)
    }

    /// Returns the number of pushes to the stream, for a worker that plays it.
    pub fn pushes(&self, stream: u32, worker: usize) -> u64 {
        self.play(stream, worker);
        match self.slot(stream) {
            Some(slot) => slot.pushes.load(Ordering::SeqCst),
            None => 0,
        }
    }

    /// Records that the worker plays the stream.
    pub fn play(&self, stream: u32, worker: usize) {
        let Some(slot) = self.slot(stream) else {
            return;
        };
        let bit = bit(worker);
        if slot.players.load(Ordering::SeqCst) & bit == 0 {
            slot.players.fetch_or(bit, Ordering::SeqCst);
        }
    }

    /// Records that the worker plays no stream, until its next call of `play`.
    pub fn forget(&self, worker: usize) {
        let bit = bit(worker);
        for slot in self.slots.as_slice() {
            if slot.players.load(Ordering::SeqCst) & bit != 0 {
                slot.players.fetch_and(!bit, Ordering::SeqCst);
            }
        }
    }
}
