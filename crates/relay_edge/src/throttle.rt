//! Limits the lines of one kind in the log.

use crate::cause::Cause;
use log::Level;
use relay_outside::{Denied, Ending, News};
use std::alloc::{AllocError, Global};
use std::fmt;
use std::fmt::{Display, Formatter};
use std::sync::atomic::{AtomicBool, AtomicU64, Ordering};

/// The most lines of one kind that are logged in a second.
const MOST: u64 = 20;

/// Each kind of line, by its number.
const KINDS: [(Level, &str); 21] = [
    (Level::Debug, "connected"),
    (Level::Info, "publishes"),
    (Level::Info, "plays"),
    (Level::Info, "left"),
    (Level::Warn, "refused: no such stream"),
    (Level::Warn, "refused: wrong key"),
    (Level::Warn, "refused: somebody publishes"),
    (Level::Warn, "refused: no place is left"),
    (Level::Info, "ended: the peer closed the link"),
    (Level::Warn, "ended: the link failed"),
    (Level::Warn, "ended: silent"),
    (Level::Info, "ended: the relay stops"),
    (Level::Warn, "ended: its place was given to one that waited"),
    (Level::Warn, "ended: nobody published"),
    (Level::Warn, "ended: refused too often"),
    (Level::Info, "ended: the broadcast is over"),
    (Level::Info, "ended: answered"),
    (Level::Warn, "ended: sent what is no RTMP"),
    (Level::Warn, "ended: no more calls can be counted"),
    (Level::Error, "ended: out of memory"),
    (Level::Warn, "turned away"),
];

/// The number of the last kind: a connection was turned away.
const TURNED_AWAY: usize = 20;

/// The kind of a line.
#[derive(Clone, Copy)]
pub struct Kind {
    number: usize,
}

// Returns the number of the kind for the end of a link that failed or closed.
fn number_of_cause(cause: Cause, closed: bool) -> usize {
    match cause {
        Cause::Peer if closed => 8,
        Cause::Peer => 9,
        Cause::Silent { .. } => 10,
        Cause::Stopped => 11,
        Cause::GaveWay => 12,
        Cause::Waited { .. } => 13,
        Cause::Barred => 14,
        Cause::Left => 15,
    }
}

fn number_of_end(ending: Ending, cause: Cause) -> usize {
    match ending {
        Ending::PeerClosed => number_of_cause(cause, true),
        Ending::LinkFault => number_of_cause(cause, false),
        Ending::Quit => 11,
        Ending::Answered(_) => 16,
        Ending::BadVersion
        | Ending::BadChunk
        | Ending::BadControl
        | Ending::BadCommand
        | Ending::TooManyStreams => 17,
        Ending::Worn => 18,
        Ending::OutOfMemory => 19,
    }
}

impl Kind {
    /// Returns the kind of the line for this news of a link. The cause counts if the link failed or closed.
    pub fn of(news: News, cause: Cause) -> Kind {
        let number = match news {
            News::Connected
            | News::HeldBack
            | News::Resumed
            | News::Skipped(_)
            | News::LeftOut(_) => 0,
            News::Publishes => 1,
            News::Plays => 2,
            News::Left => 3,
            News::Denied(Denied::NoName) => 4,
            News::Denied(Denied::WrongKey) => 5,
            News::Denied(Denied::InUse) => 6,
            News::Denied(Denied::Full) => 7,
            News::Ended { ending, at: _ } => number_of_end(ending, cause),
        };
        Kind { number }
    }

    /// Returns the kind of the line for a connection that was turned away.
    pub fn turned_away() -> Kind {
        Kind {
            number: TURNED_AWAY,
        }
    }

    /// Its level.
    pub fn level(self) -> Level {
        match KINDS.get(self.number) {
            Some((level, _)) => *level,
            None => Level::Warn,
        }
    }
}

impl Display for Kind {
    fn fmt<W: fmt::Write>(&self, f: &mut Formatter<W>) -> fmt::Result {
        match KINDS.get(self.number) {
            Some((_, text)) => f.write_str(*text),
            None => Ok(()),
        }
    }
}

/// A number with a comma before each three of its last digits.
#[derive(Clone, Copy)]
pub struct Grouped {
    pub number: u64,
}

// Writes the last three digits, behind a comma.
fn write_three<W: fmt::Write>(f: &mut Formatter<W>, number: u64) -> fmt::Result {
    let (hundreds, tens, ones) = (number / 100 % 10, number / 10 % 10, number % 10);
    write!(f, ",{hundreds}{tens}{ones}")
}

impl Display for Grouped {
    fn fmt<W: fmt::Write>(&self, f: &mut Formatter<W>) -> fmt::Result {
        let (thousands, millions) = (self.number / 1_000, self.number / 1_000_000);
        if thousands == 0 {
            return write!(f, "{}", self.number);
        }
        if millions == 0 {
            write!(f, "{thousands}")?;
        } else {
            write!(f, "{millions}")?;
            write_three(f, thousands)?;
        }
        write_three(f, self.number)
    }
}

// The lines of one kind in one second.
#[derive(Drop)]
struct Tally {
    // Which second, by the clock, from 1 on.
    second: AtomicU64,
    count: AtomicU64,
    // The lines that were left out and aren't reported yet.
    more: AtomicU64,
}

impl Tally {
    fn new() -> Tally {
        Tally {
            second: AtomicU64::new(0),
            count: AtomicU64::new(0),
            more: AtomicU64::new(0),
        }
    }
}

// Returns the second of a time in milliseconds, from 1 on.
fn second(now: u64) -> u64 {
    (now / 1000).saturating_add(1)
}

/// Counts the lines of each kind, and those that are left out.
#[derive(Drop)]
pub struct Throttle {
    tallies: Vec<Tally>,
    // Lines were left out and aren't reported yet.
    due: AtomicBool,
}

impl Throttle {
    /// Creates the counts, before any line.
    pub fn new(alloc: Global) -> Result<Throttle, AllocError> {
        let mut tallies = Vec::new(alloc);
        for _ in 0..KINDS.len() {
            if tallies.push(Tally::new()).is_err() {
                return Err(AllocError);
            }
        }
        Ok(Throttle {
            tallies,
            due: AtomicBool::new(false),
        })
    }

    /// Returns whether one more line of that kind is logged, which then counts. Otherwise it is left out.
    pub fn admits(&self, kind: Kind, now: u64) -> bool {
        let Some(tally) = self.tallies.get(kind.number) else {
            return true;
        };
        let second = second(now);
        if tally.second.load(Ordering::SeqCst) < second {
            tally.second.store(second, Ordering::SeqCst);
            tally.count.store(0, Ordering::SeqCst);
        }
        if tally.count.fetch_add(1, Ordering::SeqCst) < MOST {
            return true;
        }
        tally.more.fetch_add(1, Ordering::SeqCst);
        self.due.store(true, Ordering::SeqCst);
        false
    }

    /// Returns a kind with lines left out in a second that is over, and their number, which then counts as
    /// reported.
    pub fn left_out(&self, now: u64) -> Option<(Kind, Grouped)> {
        if !self.due.load(Ordering::SeqCst) {
            return None;
        }
        let second = second(now);
        let mut waits = false;
        for number in 0..self.tallies.len() {
            if let Some(tally) = self.tallies.get(number) {
                if tally.more.load(Ordering::SeqCst) > 0 {
                    if tally.second.load(Ordering::SeqCst) < second {
                        let more = tally.more.swap(0, Ordering::SeqCst);
                        return Some((Kind { number }, Grouped { number: more }));
                    }
                    waits = true;
                }
            }
        }
        if !waits {
            self.due.store(false, Ordering::SeqCst);
        }
        None
    }
}
