//! What `push` and `pull` write on standard error about the film that passes.

use relay_peer::{Place, Watch, milliseconds};
use std::fmt;
use std::fmt::{Display, Formatter};

/// The milliseconds between two lines of the log.
const LOGGED: u64 = 10_000;

/// The milliseconds between two changes of the line on a terminal.
const SHOWN: u64 = 1000;

/// Where a film's progress is written.
#[derive(Clone, Copy, PartialEq, Eq)]
pub enum Progress {
    Nowhere,
    /// In lines of the log.
    Log,
    /// In one line that changes.
    Terminal,
}

/// Writes how much of a film has passed.
#[derive(Drop)]
pub struct Meter<'a> {
    host: &'a HostRuntime,
    progress: Progress,
    // The log has lines of level `info`.
    informs: bool,
    begun: &'static str,
    done: &'static str,
    started: bool,
    next: u64,
    shown: bool,
}

/// How much of a film has passed.
#[derive(Clone, Copy)]
struct Passed<'a>(pub &'static str, pub &'a Place);

impl Display for Passed<'_> {
    fn fmt<W: fmt::Write>(&self, f: &mut Formatter<W>) -> fmt::Result {
        let time = u64::from(self.1.time());
        write!(
            f,
            "relay: {} {} kB, {} tags, up to {}:{:02}:{:02}",
            self.0,
            self.1.bytes() / 1000,
            self.1.tags(),
            time / 3_600_000,
            (time / 60_000) % 60,
            (time / 1000) % 60
        )
    }
}

impl<'a> Meter<'a> {
    /// Creates a meter. `begun` is the line at the first bytes, and `done` the verb of the others.
    pub fn new(
        host: &'a HostRuntime,
        progress: Progress,
        informs: bool,
        begun: &'static str,
        done: &'static str,
    ) -> Meter<'a> {
        Meter {
            host,
            progress,
            informs,
            begun,
            done,
            started: false,
            next: 0,
            shown: false,
        }
    }

    /// Ends the line on a terminal, if there is one.
    pub fn end(&mut self) {
        if self.shown {
            let _ = eprintln!(self.host; "");
        }
        self.shown = false;
    }
}

impl Watch for Meter<'_> {
    fn passed(&mut self, place: &Place) {
        if self.progress == Progress::Nowhere {
            return;
        }
        let now = milliseconds();
        if !self.started {
            self.started = true;
            self.next = now.saturating_add(LOGGED);
            if self.informs {
                let _ = eprintln!(self.host; "relay: {}", self.begun);
            }
            if self.progress == Progress::Terminal {
                self.next = now;
            }
        }
        if now < self.next {
            return;
        }
        let passed = Passed(self.done, place);
        if self.progress == Progress::Terminal {
            let _ = eprint!(self.host; "\r{passed} ");
            self.shown = true;
            self.next = now.saturating_add(SHOWN);
        } else {
            let _ = eprintln!(self.host; "{passed}");
            self.next = now.saturating_add(LOGGED);
        }
    }
}
