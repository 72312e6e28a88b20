//! Rests over a poll.

use crate::clock::milliseconds;
use mio::{Events, Poll};
use relay_outside::Rest;
use std::time::Duration;

/// How long a pause is at most, in milliseconds.
const LONGEST: u64 = 1000;

/// Waits until there is something to do for a link to a server.
#[derive(Drop)]
pub struct PeerRest {
    pub(crate) poll: Option<Poll>,
    pub(crate) events: Events,
    // When the link ends by itself.
    pub(crate) until: Option<u64>,
}

impl PeerRest {
    /// Waits for an event at most `milliseconds`.
    pub(crate) fn wait(&mut self, milliseconds: u64) {
        if let Some(poll) = &mut self.poll {
            let _ = poll.poll(&mut self.events, Some(Duration::from_millis(milliseconds)));
        }
    }
}

impl Rest for PeerRest {
    fn pause(&mut self) {
        let most = match self.until {
            Some(until) => until.saturating_sub(milliseconds()).min(LONGEST),
            None => LONGEST,
        };
        self.wait(most);
    }

    fn moved(&mut self) {}

    fn pushed(&mut self, _stream: u32) {}

    fn plays(&mut self, _stream: u32) {}

    fn pushes(&self, _stream: u32) -> u64 {
        0
    }
}
