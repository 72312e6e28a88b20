//! The lines of a script as they are read, for the message about a refused line.

use relay_program::Command;
use relay_script::{drill_line, replay_line};
use std::alloc::Global;
use std::io;
use std::io::Read;

/// More bytes than a line may have with the bytes that are read at once after it.
const MOST: usize = 1 << 20;

/// A reader that remembers the last lines that it gave, if `remembers` is true.
#[derive(Drop)]
pub struct Script<R: Read + Drop> {
    alloc: Global,
    inner: R,
    remembers: bool,
    // The number of lines that were given before the kept ones.
    before: u64,
    kept: Vec<u8>,
}

impl<R: Read + Drop> Script<R> {
    pub fn new(alloc: Global, inner: R, remembers: bool) -> Script<R> {
        Script {
            alloc,
            inner,
            remembers,
            before: 0,
            kept: Vec::new(alloc),
        }
    }

    // Forgets the lines that are whole, and keeps some more bytes.
    fn keep(&mut self, piece: &[u8]) {
        let mut rest: &[u8] = self.kept.as_slice();
        let mut whole = 0u64;
        for line in self.kept.as_slice().split(|byte| *byte == b'\n') {
            rest = line;
            whole = whole.saturating_add(1);
        }
        self.before = self.before.saturating_add(whole.saturating_sub(1));
        let mut kept = Vec::new(self.alloc);
        let fits = rest.len().saturating_add(piece.len()) <= MOST;
        self.remembers = fits
            && kept.extend_from_slice(rest).is_ok()
            && kept.extend_from_slice(piece).is_ok();
        self.kept = kept;
    }

    // Returns the line of that number, from 1, if it is one of the last.
    fn line(&self, number: u64) -> Option<&[u8]> {
        if !self.remembers || number <= self.before {
            return None;
        }
        let index = number.saturating_sub(self.before).saturating_sub(1);
        self.kept
            .as_slice()
            .split(|byte| *byte == b'\n')
            .nth(index as usize)
    }

    /// Returns the fault of the line of that number, from 1, which the command refused.
    pub fn fault(&self, command: Option<Command>, number: u64) -> &'static str {
        let Some(line) = self.line(number) else {
            return "is not a line of a script";
        };
        let stands = match command {
            Some(Command::Drill) => drill_line(self.alloc, line).is_ok(),
            Some(Command::Replay) => replay_line(self.alloc, line).is_ok(),
            _ => false,
        };
        if stands {
            "is not allowed there"
        } else if line.ends_with(b"\r") {
            "ends with a carriage return: use a line feed alone"
        } else {
            "is not a line of a script"
        }
    }
}

impl<R: Read + Drop> Read for Script<R> {
    fn read(&mut self, into: &mut [u8]) -> io::Result<usize> {
        let count = self.inner.read(into)?;
        if self.remembers {
            if let Some(piece) = into.get(..count) {
                self.keep(piece);
            }
        }
        Ok(count)
    }
}
