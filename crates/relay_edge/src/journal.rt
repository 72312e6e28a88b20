//! The log's lines, on standard error.

use crate::date::Moment;
use libc::STDERR_FILENO;
use libc::net::{POLLOUT, poll};
use libc::types::pollfd;
use log::kv::Source;
use log::span::Spans;
use log::{Log, Metadata, Record};
use std::fmt::{Display, Write};
use std::sync::atomic::{AtomicBool, AtomicU64, Ordering};
use std::{fmt, str};

/// The most bytes of a line, with the note of lines that were lost: fewer than a pipe takes at once.
const MOST: usize = 1024;

/// The most times that a thread checks whether another has written its line, and lets others run.
const LOOKS: u32 = 300;

/// How long the last words of a server wait for room on standard error at most, in milliseconds.
const LAST_WAIT: i32 = 1000;

/// Returns whether standard error has room for the last words of a server within a second. A pipe without a
/// reader has none.
pub fn is_heard() -> bool {
    is_ready(LAST_WAIT)
}

/// Returns whether standard error has room for a line, within `milliseconds`. A pipe that has lost its reader
/// has none.
pub fn is_ready(milliseconds: i32) -> bool {
    let mut asked = [pollfd {
        fd: STDERR_FILENO,
        events: POLLOUT,
        revents: 0,
    }];
    poll(&mut asked, milliseconds) == 1 && asked[0].revents == POLLOUT
}

// A line of text, cut if it is too long.
#[derive(Drop)]
struct Line {
    bytes: [u8; MOST],
    len: usize,
}

impl Line {
    fn new() -> Line {
        Line {
            bytes: [0; MOST],
            len: 0,
        }
    }

    // Adds a byte if there is room.
    fn add(&mut self, byte: u8) {
        if let Some(free) = self.bytes.get_mut(self.len) {
            *free = byte;
            self.len = self.len.saturating_add(1);
        }
    }

    // Ends the line. If the line is full, the end replaces its last byte.
    fn end(&mut self) {
        self.len = self.len.min(MOST - 1);
        self.add(b'\n');
    }

    fn text(&self) -> &[u8] {
        match self.bytes.get(..self.len) {
            Some(text) => text,
            None => &[],
        }
    }
}

impl Write for Line {
    fn write_str(&mut self, s: &str) -> fmt::Result {
        for byte in s.as_bytes() {
            self.add(*byte);
        }
        Ok(())
    }
}

/// Writes each record's message to standard error, as a line by one call. If there is no room for a line, it
/// is lost and counted: no thread waits for a reader of the log. The next line that is written gives the
/// number of lost lines.
#[derive(Drop)]
pub struct Journal {
    // Whether a line begins with the date and the time.
    times: bool,
    busy: AtomicBool,
    missed: AtomicU64,
}

impl Journal {
    /// Creates a log whose lines begin with the date and the time if `times` is true.
    pub fn new(times: bool) -> Journal {
        Journal {
            times,
            busy: AtomicBool::new(false),
            missed: AtomicU64::new(0),
        }
    }

    /// Returns the number of lost lines that aren't reported yet.
    pub fn missed(&self) -> u64 {
        self.missed.load(Ordering::SeqCst)
    }

    // Returns whether no other thread writes. Then this one does.
    fn begin(&self) -> bool {
        for _ in 0..LOOKS {
            if !self.busy.swap(true, Ordering::SeqCst) {
                return true;
            }
            libc::sched_yield();
        }
        false
    }

    /// Writes a line, whatever the level of the log is.
    pub fn say<D: Display>(&self, message: &D) {
        if self.begin() {
            let written = self.put(message);
            self.busy.store(false, Ordering::SeqCst);
            if written {
                return;
            }
        }
        self.missed.fetch_add(1, Ordering::SeqCst);
    }

    // Begins a line.
    fn date(&self, line: &mut Line) {
        if self.times {
            let _ = write!(line, "{} ", Moment::now());
        }
    }

    // Writes a line, after how many were lost before.
    fn put<D: Display>(&self, message: &D) -> bool {
        if !is_ready(0) {
            return false;
        }
        let missed = self.missed();
        let mut line = Line::new();
        if missed > 0 {
            self.date(&mut line);
            let _ = write!(line, "relay: lost {missed} lines of the log");
            line.end();
        }
        self.date(&mut line);
        let _ = write!(line, "{message}");
        line.end();
        if libc::write(STDERR_FILENO, line.text()) < 0 {
            return false;
        }
        self.missed.fetch_sub(missed, Ordering::SeqCst);
        true
    }
}

impl Log for Journal {
    fn enabled(&self, _metadata: &Metadata<'_>) -> bool {
        true
    }

    fn log<D: Display, K: Source, S: Spans>(&self, record: &Record<'_, D, K, S>) {
        self.say(record.args());
    }

    fn flush(&self) {}

    fn target(&self) -> &str {
        ""
    }
}
