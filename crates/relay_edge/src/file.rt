//! Files as sinks.
ghost use Rattle.std.specs.Prelude.{◌≡◌, ◌≤◌, ◌↔◌, None, IfOk, length};
ghost use Rattle.std.specs.Io.{WritesAtMost};
ghost use Rattle.relay_outside.specs.Put.{PutStep};

use crate::recordings::Entry;
use crate::shown::say;
use libc::net::{POLLOUT, poll};
use libc::types::{pollfd, rlimit};
use relay_outside::{Put, Sink, SinkNews};
use std::fs::File;
use std::io;
use std::io::{Eprint, Write};
use std::marker::Model;
use std::os::fd::AsRawFd;

// The resource whose limit is the length of a file, and the error of a write beyond it.
const RLIMIT_FSIZE: i32 = 1;

const EFBIG: i32 = 27;

// The bytes that a pipe takes at once if it has room.
const PIPE_PIECE: u64 = 4096;

// How long a pipe may have no room, in milliseconds.
const PATIENCE: i32 = 1000;

// The most times that a wait for room is begun anew after a signal ended it.
const SIGNALS: u32 = 100;

/// The kind of a file.
#[derive(Clone, Copy, PartialEq, Eq)]
pub enum Kind {
    Regular,
    /// A pipe or a character device.
    Pipe,
}

// Returns the length in bytes that the system lets a file have. A write beyond that would end the process.
fn longest() -> u64 {
    let mut limit = rlimit {
        rlim_cur: u64::MAX,
        rlim_max: u64::MAX,
    };
    if libc::getrlimit(RLIMIT_FSIZE, &mut limit) != 0 {
        return u64::MAX;
    }
    limit.rlim_cur
}

/// A file that is written from its beginning. It reports its first error on standard error, and keeps its
/// last one. No worker waits for a reader of standard error. Contracts see how often the file has failed.
#[derive(Drop)]
pub struct RealFile<'a, R> {
    rt: &'a R,
    // The entry of a server's recording, which takes the first error and the counts of bytes.
    entry: Option<Entry>,
    name: Vec<u8>,
    file: File,
    kind: Kind,
    // The further bytes that the system lets it have.
    room: u64,
    failed: u64,
    last: Option<io::Error>,
}

impl<'a, R> Model for RealFile<'a, R> {
    ghost use Rattle.std.specs.Prelude.{ℕ, ◌≡◌, ◌↔◌, None};

    ghost Value = { ℕ };

    ghost view = { λ f. f.failed };

    ghost invariant = { λ f. (f.last ≡ None) ↔ (f.failed ≡ 0) };
}

impl<'a, R> RealFile<'a, R> {
    /// Creates the sink of an empty file with its name. A server's file reports its error as the log writes
    /// its lines.
    pub(crate) fn new(
        rt: &'a R,
        entry: Option<Entry>,
        name: Vec<u8>,
        file: File,
        kind: Kind,
    ) -> RealFile<'a, R>
        ensures { result ≡ 0 }
    {
        RealFile {
            rt,
            entry,
            name,
            file,
            kind,
            room: match kind {
                Kind::Regular => longest(),
                Kind::Pipe => u64::MAX,
            },
            failed: 0,
            last: None,
        }
    }

    /// Returns the error of the last write that failed, or `None` exactly if none has.
    pub fn error(&self) -> Option<io::Error>
        ensures { (result ≡ None) ↔ (self.now ≡ 0) }
    {
        self.last
    }

    /// Has the system write the file's data to the disk. This may find that bytes are lost.
    pub(crate) fn sync(&self) -> io::Result<()> {
        match self.kind {
            Kind::Regular => self.file.sync_all(),
            Kind::Pipe => Ok(()),
        }
    }

    // Returns the most bytes of the next write. Waits for a pipe until it has room.
    fn next_room(&self) -> io::Result<u64> {
        match self.kind {
            Kind::Regular => Ok(self.room),
            Kind::Pipe if has_room(&self.file) => Ok(PIPE_PIECE),
            Kind::Pipe => Err(io::Error::from(io::ErrorKind::TimedOut)),
        }
    }
}

// Waits until a pipe has room, and returns whether it has in time.
fn has_room(file: &File) -> bool {
    for _ in 0..SIGNALS {
        let mut asked = [pollfd {
            fd: file.as_raw_fd(),
            events: POLLOUT,
            revents: 0,
        }];
        match poll(&mut asked, PATIENCE) {
            0 => return false,
            ready if ready > 0 => return true,
            _ => {}
        }
    }
    false
}

impl<'a, R: Eprint> RealFile<'a, R> {
    // Reports why a write failed.
    fn say(&self, error: &io::Error) {
        let name = self.name.as_slice();
        match &self.entry {
            Some(entry) => entry.fail(name, error),
            None => say(self.rt, name, error),
        }
    }
}

// Writes bytes from the front of the piece. A write that was interrupted is made again.
fn write(file: &mut File, piece: &[u8]) -> io::Result<usize>
    ensures { WritesAtMost result piece.now }
{
    for _ in 0..u64::MAX {
        match file.write(piece) {
            Err(error) if error.kind() == io::ErrorKind::Interrupted => {}
            answer => return answer,
        }
    }
    Err(io::Error::from(io::ErrorKind::Interrupted))
}

// Returns the front of the piece that there is room for, or an error if there is no room at all.
fn within(piece: &[u8], room: u64) -> io::Result<&[u8]>
    ensures { IfOk result (λ part. length part.now ≤ length piece.now) }
{
    if room == 0 {
        return Err(io::Error::from_raw_os_error(EFBIG));
    }
    if room < piece.len() as u64 {
        return Ok(&piece[..room as usize]);
    }
    Ok(piece)
}

impl<R: Eprint> Sink for RealFile<'_, R> {
    ghost holds = { λ _. None };

    ghost faults = { λ f. f };

    ghost takes = { λ f piece answer g. PutStep piece None None f g answer };

    fn put(&mut self, piece: &[u8]) -> Put {
        let written = match self.next_room() {
            Ok(room) => match within(piece, room) {
                Ok(part) => write(&mut self.file, part),
                Err(error) => Err(error),
            },
            Err(error) => Err(error),
        };
        let error = match written {
            Ok(count) if count > 0 => {
                self.room = self.room.saturating_sub(count as u64);
                if let Some(entry) = &self.entry {
                    entry.write(count);
                }
                return Put::Took(count);
            }
            Ok(_) => io::Error::from(io::ErrorKind::WriteZero),
            Err(error) => error,
        };
        if self.last.is_none() {
            self.say(&error);
        }
        self.last = Some(error);
        self.failed = self.failed.saturating_add(1);
        Put::Failed
    }

    fn tell(&self, news: SinkNews) {
        if let Some(entry) = &self.entry {
            entry.tell(self.name.as_slice(), news);
        }
    }

    ghost takes_mean = { λ f piece answer g some step. step };
}
