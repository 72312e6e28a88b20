//! The state that the rest of a worker shares with one of its links.

use crate::cells::CALM;
use crate::post::Post;
use crate::seats::Seat;
use std::alloc::Global;
use std::sync::Arc;

/// The cell of a link. It is free again when the link is dropped.
pub(crate) struct Cell {
    pub post: Arc<Post, Global>,
    pub token: usize,
    // The link keeps bytes that can be sent, so the worker must go on.
    keeps: bool,
    // Its link received bytes, and wasn't asked for more since.
    fed: bool,
    // Its link is gone, and its peer is seen off.
    leaves: bool,
}

impl Drop for Cell {
    fn drop(self) {
        let Cell {
            post,
            token,
            keeps,
            fed,
            leaves,
        } = self;
        if keeps {
            post.cells.release();
        }
        if fed {
            post.cells.ask();
        }
        post.cells.clear(token);
        if leaves {
            post.end_farewell();
            return;
        }
        if let Some(seat) = post.seat(token) {
            seat.leave();
        }
        post.remove_link();
    }
}

impl Cell {
    /// Creates the cell of a new link.
    pub fn new(post: Arc<Post, Global>, token: usize) -> Cell {
        Cell {
            post,
            token,
            keeps: false,
            fed: false,
            leaves: false,
        }
    }

    /// Returns the seat of its link.
    pub fn seat(&self) -> Option<&Seat> {
        self.post.seat(self.token)
    }

    /// Records that its link is gone and no longer counts. The peer is seen off.
    pub fn part(&mut self) {
        self.ask();
        if let Some(seat) = self.seat() {
            seat.leave();
        }
        self.post.begin_farewell();
        self.leaves = true;
    }

    pub fn has(&self, bit: u64) -> bool {
        self.post.cells.has(self.token, bit)
    }

    pub fn remove(&self, bit: u64) {
        self.post.cells.remove(self.token, bit);
    }

    pub fn add(&self, bit: u64) {
        self.post.cells.add(self.token, bit);
    }

    /// Records that its link received bytes, and whether more are at hand.
    pub fn receive(&mut self, more: bool) {
        if more {
            self.post.cells.begin();
            return;
        }
        if !self.fed {
            self.post.cells.feed();
        }
        self.fed = true;
    }

    /// Records that its link is asked for bytes.
    pub fn ask(&mut self) {
        self.remove(CALM);
        if self.fed {
            self.post.cells.ask();
        }
        self.fed = false;
    }

    /// Sets whether its link keeps bytes that can be sent, for which the worker must go on.
    pub fn keep(&mut self, keeps: bool) {
        if keeps && !self.keeps {
            self.post.cells.hold();
        }
        if !keeps && self.keeps {
            self.post.cells.release();
        }
        self.keeps = keeps;
    }
}
