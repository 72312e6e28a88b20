//! Tracks whether the stream that a link plays has a publisher.

use crate::post::Post;

/// The time between two looks for a publisher, in milliseconds.
const LOOK: u64 = 1_000;

/// What a player has seen of the broadcasts under its name. Times are in milliseconds of the clock.
#[derive(Clone, Copy)]
pub struct Audience {
    // When it looked last, or 0.
    looked: u64,
    // When it first saw the broadcast that it saw last, or 0.
    live: u64,
    // Since when it has seen no publisher, or 0.
    idle: u64,
}

impl Audience {
    /// Returns the state of a player that has seen nothing.
    pub fn new() -> Audience {
        Audience {
            looked: 0,
            live: 0,
            idle: 0,
        }
    }

    /// Looks for a publisher, if a second has passed since the last look. The link has played since `since`.
    pub fn look(&mut self, post: &Post, token: usize, since: u64) {
        let now = post.now();
        if self.looked > 0 && now.saturating_sub(self.looked) < LOOK {
            return;
        }
        let seen = if self.looked == 0 { since } else { now };
        self.looked = now;
        if post.is_played_live(token) {
            if self.live == 0 || self.idle > 0 {
                self.live = seen;
            }
            self.idle = 0;
        } else if self.idle == 0 {
            self.idle = seen;
        }
    }

    /// Returns how long it has waited in milliseconds, or 0 if the stream has a publisher.
    pub fn waited(&self, now: u64) -> u64 {
        if self.idle == 0 {
            return 0;
        }
        now.saturating_sub(self.idle)
    }

    /// Returns whether it saw a broadcast that is over, and took bytes of it.
    pub fn is_left(&self, took: u64) -> bool {
        self.idle > 0 && self.live > 0 && took >= self.live
    }
}
