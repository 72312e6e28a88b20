//! The pace of a film that is sent.

use crate::clock::milliseconds;

/// A jump of the film's time by more than this, in milliseconds, is the new origin of its clock.
const JUMP: u32 = 10_000;

/// A film of less than this, in milliseconds, is never called fast.
const SHORT: u64 = 10_000;

/// A film is fast if it is sent more than this number of times as fast as it plays.
const FAST: u64 = 10;

/// The clock of a film: a time of the film, and the moment at which a tag of that time is sent.
#[derive(Clone, Copy)]
struct Origin {
    pub time: u32,
    pub at: u64,
}

/// When the tags of a film are due, and how fast they were sent.
#[derive(Clone, Copy)]
pub struct Pace {
    origin: Option<Origin>,
    last: u32,
    // When the first tag came.
    began: u64,
    // How long the film plays up to the last tag, in milliseconds. Jumps don't count.
    played: u64,
}

/// A film that was sent much faster than it plays, in seconds.
#[derive(Clone, Copy)]
pub struct Haste {
    pub played: u64,
    pub took: u64,
}

impl Pace {
    /// The pace of a film of which nothing was sent.
    pub fn new() -> Pace {
        Pace {
            origin: None,
            last: 0,
            began: 0,
            played: 0,
        }
    }

    // Returns the origin for a tag of this time, which came now.
    fn origin_for(&mut self, time: u32, now: u64) -> Origin {
        match self.origin {
            Some(origin) if self.last.abs_diff(time) <= JUMP => {
                self.played = self
                    .played
                    .saturating_add(u64::from(time.saturating_sub(self.last)));
                origin
            }
            _ => {
                if self.origin.is_none() {
                    self.began = now;
                }
                Origin { time, at: now }
            }
        }
    }

    /// Returns the moment at which a tag of this time is due. The tag is the film's next.
    pub(crate) fn due(&mut self, time: u32) -> u64 {
        let origin = self.origin_for(time, milliseconds());
        self.origin = Some(origin);
        self.last = time;
        origin
            .at
            .saturating_add(u64::from(time.saturating_sub(origin.time)))
    }

    /// Returns how fast the film was sent, if it was more than ten times as fast as it plays.
    pub fn haste(&self) -> Option<Haste> {
        let took = milliseconds().saturating_sub(self.began);
        (self.played > SHORT && self.played / FAST > took).then_some(Haste {
            played: self.played / 1000,
            took: took / 1000,
        })
    }
}
