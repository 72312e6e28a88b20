//! The state that the workers of a server share: which of them wait, how each is woken, and how many links it
//! has.

use crate::hints::Hints;
use crate::watch::MOST_WORKERS;
use mio::Waker;
use std::alloc::{AllocError, Global};
use std::sync::OnceLock;
use std::sync::atomic::{AtomicBool, AtomicU64, Ordering};

/// How many links more than another worker a worker may have before it leaves new ones to the other.
const SLACK: u64 = 1;

#[derive(Drop)]
struct Peer {
    waker: OnceLock<Waker>,
    // It takes links.
    open: AtomicBool,
    // Which of the addresses its door listens at.
    address: AtomicU64,
    // It had no place for a link in its last round.
    full: AtomicBool,
    // It has looked at its door since a connection was left to it.
    looked: AtomicBool,
    links: AtomicU64,
    // Peers that it sees off.
    farewells: AtomicU64,
    // It waits, or is about to.
    asleep: AtomicBool,
    // Something came since its last wait.
    due: AtomicBool,
}

impl Peer {
    fn new() -> Peer {
        Peer {
            waker: OnceLock::new(),
            open: AtomicBool::new(false),
            address: AtomicU64::new(0),
            full: AtomicBool::new(false),
            looked: AtomicBool::new(false),
            links: AtomicU64::new(0),
            farewells: AtomicU64::new(0),
            asleep: AtomicBool::new(false),
            due: AtomicBool::new(false),
        }
    }

    // Ends its wait, or keeps it from the next one. No system call is made for a worker that is awake.
    fn wake(&self) {
        self.due.store(true, Ordering::SeqCst);
        if self.asleep.swap(false, Ordering::SeqCst) {
            if let Some(waker) = self.waker.get() {
                let _ = waker.wake();
            }
        }
    }
}

// Returns whether the doors of two workers listen at one address.
fn listen_alike(one: &Peer, other: &Peer) -> bool {
    one.address.load(Ordering::SeqCst) == other.address.load(Ordering::SeqCst)
}

// Stores a value that isn't there.
fn set(flag: &AtomicBool, value: bool) {
    if flag.load(Ordering::SeqCst) != value {
        flag.store(value, Ordering::SeqCst);
    }
}

/// The workers of a server, by their numbers.
#[derive(Drop)]
pub struct Board {
    peers: Vec<Peer>,
    /// Counts the pushes to each stream, and keeps the workers that play it.
    pub hints: Hints,
    // Links that were given, or are about to be.
    claimed: AtomicU64,
    given: AtomicU64,
    // Workers that don't wait.
    awake: AtomicU64,
    // How often one has ceased to wait.
    starts: AtomicU64,
    // Doors that were given, and those that have closed.
    doors: AtomicU64,
    closed: AtomicU64,
}

impl Board {
    pub fn new(alloc: Global) -> Result<Board, AllocError> {
        let mut peers = Vec::new(alloc);
        for _ in 0..MOST_WORKERS {
            if peers.push(Peer::new()).is_err() {
                return Err(AllocError);
            }
        }
        Ok(Board {
            peers,
            hints: Hints::new(alloc)?,
            claimed: AtomicU64::new(0),
            given: AtomicU64::new(0),
            awake: AtomicU64::new(0),
            starts: AtomicU64::new(0),
            doors: AtomicU64::new(0),
            closed: AtomicU64::new(0),
        })
    }

    /// Sets how the worker is woken, and counts it as awake.
    pub fn join(&self, worker: usize, waker: Waker) {
        if let Some(peer) = self.peers.get(worker) {
            let _ = peer.waker.try_set(waker);
            self.awake.fetch_add(1, Ordering::SeqCst);
        }
    }

    /// Sets the address of its door, by number, and counts the door.
    pub fn listen(&self, worker: usize, address: u64) {
        if let Some(peer) = self.peers.get(worker) {
            peer.address.store(address, Ordering::SeqCst);
            self.doors.fetch_add(1, Ordering::SeqCst);
        }
    }

    /// Sets whether the worker has no place for a link.
    pub fn fill(&self, worker: usize, full: bool) {
        if let Some(peer) = self.peers.get(worker) {
            set(&peer.full, full);
        }
    }

    /// Returns whether all workers whose doors listen at this worker's address have no place for a link.
    pub fn is_full(&self, worker: usize) -> bool {
        let Some(mine) = self.peers.get(worker) else {
            return false;
        };
        for peer in self.peers.as_slice() {
            if peer.waker.get().is_some()
                && listen_alike(mine, peer)
                && !peer.full.load(Ordering::SeqCst)
            {
                return false;
            }
        }
        true
    }

    /// Returns the number of its links.
    pub fn links(&self, worker: usize) -> u64 {
        match self.peers.get(worker) {
            Some(peer) => peer.links.load(Ordering::SeqCst),
            None => 0,
        }
    }

    /// Wakes all workers but this one.
    pub fn wake_others(&self, worker: usize) {
        let mut number = 0usize;
        for peer in self.peers.as_slice() {
            if number != worker {
                peer.wake();
            }
            number = number.saturating_add(1);
        }
    }

    /// Wakes those of these workers, a bit for each, that aren't this one.
    pub fn wake_those(&self, workers: u64, worker: usize) {
        let mut left = workers;
        let mut number = 0usize;
        for peer in self.peers.as_slice() {
            if left == 0 {
                return;
            }
            if left & 1 == 1 && number != worker {
                peer.wake();
            }
            left = left >> 1;
            number = number.saturating_add(1);
        }
    }

    /// Begins the worker's wait. Returns whether it must look at once, since something came.
    pub fn begin_wait(&self, worker: usize) -> bool {
        self.awake.fetch_sub(1, Ordering::SeqCst);
        match self.peers.get(worker) {
            Some(peer) => {
                peer.asleep.store(true, Ordering::SeqCst);
                peer.due.swap(false, Ordering::SeqCst)
            }
            None => false,
        }
    }

    /// Ends the worker's wait; the worker then looks at all that came. Returns whether another worker woke
    /// it.
    pub fn end_wait(&self, worker: usize) -> bool {
        self.awake.fetch_add(1, Ordering::SeqCst);
        self.starts.fetch_add(1, Ordering::SeqCst);
        match self.peers.get(worker) {
            Some(peer) => {
                peer.asleep.store(false, Ordering::SeqCst);
                peer.due.swap(false, Ordering::SeqCst)
            }
            None => false,
        }
    }

    /// Returns a number for a worker that doesn't wait, or `None` if another worker is awake. The number
    /// stays the same while all others wait. If it is the same twice, no other worker made a call in between.
    pub fn stillness(&self) -> Option<u64> {
        let starts = self.starts.load(Ordering::SeqCst);
        if self.awake.load(Ordering::SeqCst) > 1 {
            return None;
        }
        Some(starts)
    }

    /// Records that the worker takes links, and looks at its door.
    pub fn look(&self, worker: usize) {
        if let Some(peer) = self.peers.get(worker) {
            set(&peer.open, true);
            set(&peer.looked, true);
        }
    }

    /// Records that the worker takes no more links.
    pub fn close(&self, worker: usize) {
        if let Some(peer) = self.peers.get(worker) {
            set(&peer.open, false);
            self.closed.fetch_add(1, Ordering::SeqCst);
        }
    }

    /// Returns whether doors were given and all of them have closed.
    pub fn is_deserted(&self) -> bool {
        let doors = self.doors.load(Ordering::SeqCst);
        doors > 0 && self.closed.load(Ordering::SeqCst) >= doors
    }

    /// Adds a link to the worker.
    pub fn add_link(&self, worker: usize) {
        if let Some(peer) = self.peers.get(worker) {
            peer.links.fetch_add(1, Ordering::SeqCst);
        }
        self.given.fetch_add(1, Ordering::SeqCst);
    }

    /// Removes a link from the worker.
    pub fn remove_link(&self, worker: usize) {
        if let Some(peer) = self.peers.get(worker) {
            peer.links.fetch_sub(1, Ordering::SeqCst);
        }
    }

    /// Adds a peer that the worker sees off.
    pub fn add_farewell(&self, worker: usize) {
        if let Some(peer) = self.peers.get(worker) {
            peer.farewells.fetch_add(1, Ordering::SeqCst);
        }
    }

    /// Removes a peer that the worker sees off.
    pub fn remove_farewell(&self, worker: usize) {
        if let Some(peer) = self.peers.get(worker) {
            peer.farewells.fetch_sub(1, Ordering::SeqCst);
        }
    }

    /// Makes the worker look at once, before it waits again.
    pub fn hurry(&self, worker: usize) {
        if let Some(peer) = self.peers.get(worker) {
            peer.due.store(true, Ordering::SeqCst);
        }
    }

    /// Returns whether the doors of two workers listen at one address.
    pub fn listens_alike(&self, worker: usize, other: usize) -> bool {
        match (self.peers.get(worker), self.peers.get(other)) {
            (Some(mine), Some(peer)) => listen_alike(mine, peer),
            _ => false,
        }
    }

    /// Returns whether the other worker takes links at the same address and has clearly fewer than this one.
    pub fn is_lighter(&self, worker: usize, other: usize) -> bool {
        match (self.peers.get(worker), self.peers.get(other)) {
            (Some(mine), Some(peer)) => {
                let links = peer.links.load(Ordering::SeqCst).saturating_add(SLACK);
                links < mine.links.load(Ordering::SeqCst)
                    && peer.open.load(Ordering::SeqCst)
                    && listen_alike(mine, peer)
            }
            _ => false,
        }
    }

    /// Returns whether the worker has looked at its door since a connection was left to it.
    pub fn has_looked(&self, worker: usize) -> bool {
        match self.peers.get(worker) {
            Some(peer) => peer.looked.load(Ordering::SeqCst),
            None => false,
        }
    }

    /// Leaves a connection to a worker that has clearly fewer links, wakes it, and returns its number. A
    /// worker that hasn't looked at its door since the last connection was left to it is skipped.
    pub fn leave(&self, worker: usize) -> Option<usize> {
        for other in 0..self.peers.len() {
            if self.is_lighter(worker, other) && self.has_looked(other) {
                if let Some(peer) = self.peers.get(other) {
                    peer.looked.store(false, Ordering::SeqCst);
                    peer.wake();
                }
                return Some(other);
            }
        }
        None
    }

    /// Returns whether at least `most` links were given and all links are gone. It is never so if `most` is
    /// 0, which sets no limit.
    pub fn is_over(&self, most: u32) -> bool {
        most != 0 && self.given.load(Ordering::SeqCst) >= most as u64 && self.is_empty()
    }

    /// Returns whether no worker has a link, or sees a peer off.
    pub fn is_empty(&self) -> bool {
        for peer in self.peers.as_slice() {
            if peer.links.load(Ordering::SeqCst) > 0 || peer.farewells.load(Ordering::SeqCst) > 0 {
                return false;
            }
        }
        true
    }

    /// Claims a link, if one more may be given. Returns whether it may.
    pub fn claim(&self, most: u32) -> bool {
        if self.claimed.fetch_add(1, Ordering::SeqCst) < most as u64 || most == 0 {
            return true;
        }
        self.unclaim();
        false
    }

    /// Takes back the claim of a link that isn't given.
    pub fn unclaim(&self) {
        self.claimed.fetch_sub(1, Ordering::SeqCst);
    }
}
