//! A client of the control socket of a server.
ghost use Rattle.std.specs.Io.{ReadsAtMost};

use crate::clock::milliseconds;
use libc::net::{POLLIN, poll};
use libc::types::pollfd;
use mio::net::UnixStream;
use std::io;
use std::io::{ErrorKind, Read, Write};
use std::net::Net;
use std::os::fd::AsRawFd;

/// How long a client tries to connect, and how long it waits for each piece of the answer, in milliseconds.
const PATIENCE: u64 = 10_000;

/// How long a client waits before it tries again to connect to a socket that is full, in milliseconds.
const AGAIN: i32 = 50;

/// The most tries to connect. [`PATIENCE`] is over before that.
const TRIES: u32 = 100_000;

/// A connection to the control socket of a server, to ask for its state or to tell it to stop. If the server
/// doesn't answer, a call waits at most 10 seconds, unless [`Asking::wait`] was called.
#[derive(Drop)]
pub struct Asking {
    stream: UnixStream,
    // It may take any time.
    patient: bool,
}

// Connects to the socket, and tries again while the server has no room for the connection.
fn connect<R: Net>(rt: &R, path: &str) -> io::Result<UnixStream> {
    let since = milliseconds();
    for _ in 0..TRIES {
        match UnixStream::connect(rt, path) {
            Err(error) if error.kind() == ErrorKind::WouldBlock => {}
            answer => return answer,
        }
        if milliseconds().saturating_sub(since) >= PATIENCE {
            break;
        }
        poll(&mut [], AGAIN);
    }
    Err(io::Error::from(ErrorKind::TimedOut))
}

impl Asking {
    /// Asks the server whose socket is at the path.
    pub fn begin<R: Net>(rt: &R, path: &str, question: &[u8]) -> io::Result<Asking> {
        let mut stream = connect(rt, path)?;
        stream.write_all(question)?;
        Ok(Asking {
            stream,
            patient: false,
        })
    }

    /// Lets the server take any time from now on.
    pub fn wait(&mut self) {
        self.patient = true;
    }

    // Waits until the server has answered or closed. Fails with `TimedOut` if the server did neither in time.
    fn pause(&self, since: u64) -> io::Result<()> {
        let gone = milliseconds().saturating_sub(since);
        if !self.patient && gone >= PATIENCE {
            return Err(io::Error::from(ErrorKind::TimedOut));
        }
        let left = if self.patient {
            PATIENCE
        } else {
            PATIENCE.saturating_sub(gone)
        };
        let mut asked = [pollfd {
            fd: self.stream.as_raw_fd(),
            events: POLLIN,
            revents: 0,
        }];
        poll(&mut asked, i32::try_from(left).unwrap_or(AGAIN));
        Ok(())
    }

    /// Reads the next bytes of the answer, and returns 0 at its end.
    pub fn read(&mut self, into: &mut [u8]) -> io::Result<usize>
        ensures { ReadsAtMost result into.new }
    {
        let since = milliseconds();
        for _ in 0..u64::MAX {
            match self.stream.read(into) {
                Err(error) if error.kind() == ErrorKind::WouldBlock => self.pause(since)?,
                Err(error) if error.kind() == ErrorKind::Interrupted => {}
                answer => return answer,
            }
        }
        Err(io::Error::from(ErrorKind::TimedOut))
    }
}
