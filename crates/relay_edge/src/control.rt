//! The control socket, by which a client asks for a server's state or tells it to stop.

use crate::names::Refusal;
use crate::stats::Stats;
use crate::watch::Watch;
use mio::net::{UnixListener, UnixStream};
use mio::{Interest, Registry, Token};
use std::alloc::Global;
use std::fs::{File, Files};
use std::io;
use std::io::{ErrorKind, Read, Write};
use std::net::Net;
use std::os::fd::{AsFd, AsRawFd};
use std::os::unix::fs::FileTypeExt;
use std::os::unix::net;
use std::os::unix::net::SocketAddr;

/// The token of the socket.
pub const CONTROL: usize = usize::MAX - 1;

/// The base of the clients' tokens, which come after it.
const ASKERS: usize = 1 << 32;

/// The most clients at a time.
const MOST: usize = 16;

/// The most bytes in a question.
const LONGEST: usize = 64;

/// How long a client has to ask and to take its answer, in milliseconds.
const PATIENCE: u64 = 5_000;

/// The answer to the word to stop, before the server ends.
const STOPS: &[u8; 6] = b"stops\n";

/// The mode of the socket: only its owner may use it.
const OWNER: u32 = 0o600;

/// The backlog of the socket.
const BACKLOG: i32 = 16;

// Opens the socket at the path. Its file has its mode from the beginning.
fn bind<R: Net + Files>(rt: &R, address: &SocketAddr) -> io::Result<net::UnixListener> {
    let socket = rt.unix_socket()?;
    libc::fchmod(socket.as_raw_fd(), OWNER);
    rt.bind_unix(socket.as_fd(), address)?;
    if libc::net::listen(socket.as_raw_fd(), BACKLOG) != 0 {
        return Err(io::Error::from(ErrorKind::Other));
    }
    let listener = net::UnixListener::from(socket);
    listener.set_nonblocking(true)?;
    Ok(listener)
}

// Returns whether a server that is gone left a socket at the path.
fn is_left<R: Net + Files<File = File>>(rt: &R, path: &str) -> bool {
    let is_socket = match rt.symlink_metadata(path) {
        Ok(there) => there.file_type().is_socket(),
        Err(_) => false,
    };
    if !is_socket {
        return false;
    }
    match net::UnixStream::connect(rt, path) {
        Err(error) => error.kind() == ErrorKind::ConnectionRefused,
        Ok(_) => false,
    }
}

/// Listens at the path, in place of a socket that a server left there which is gone.
pub fn listen<R: Net + Files<File = File>>(
    rt: &R,
    path: &str,
) -> Result<net::UnixListener, Refusal> {
    let address = SocketAddr::from_pathname(path)?;
    match bind(rt, &address) {
        Err(error) if error.kind() == ErrorKind::AddrInUse && is_left(rt, path) => {
            rt.remove_file(path)?;
            Ok(bind(rt, &address)?)
        }
        answer => Ok(answer?),
    }
}

// A client of the socket.
#[derive(Drop)]
struct Asker {
    stream: UnixStream,
    token: usize,
    since: u64,
    asked: Vec<u8>,
    answer: Vec<u8>,
    // Whether the answer is written, and how many bytes of it are sent.
    answered: bool,
    sent: usize,
}

// The state of a client after its turn.
#[derive(Clone, Copy)]
enum State {
    Waits,
    Stops,
    Gone,
}

impl Asker {
    // Reads its question. Returns true once the question is complete.
    fn listen(&mut self) -> io::Result<bool> {
        let mut room = [0u8; LONGEST];
        for _ in 0..LONGEST {
            let count = self.stream.read(&mut room)?;
            let Some(read) = room.get(..count) else {
                return Ok(true);
            };
            self.asked.extend_from_slice(read)?;
            if count == 0 || self.asked.contains(&b'\n') || self.asked.len() > LONGEST {
                return Ok(true);
            }
        }
        Ok(true)
    }

    // Sends the remaining bytes of its answer.
    fn say(&mut self) -> io::Result<()> {
        for _ in 0..=self.answer.len() {
            let Some(left) = self.answer.get(self.sent..) else {
                return Ok(());
            };
            if left.is_empty() {
                return Ok(());
            }
            let count = self.stream.write(left)?;
            if count == 0 {
                return Ok(());
            }
            self.sent = self.sent.saturating_add(count);
        }
        Ok(())
    }

    // Takes the question, or sends more of the answer.
    fn go_on(&mut self, alloc: Global, watch: &Watch, now: u64) -> io::Result<State> {
        if !self.answered {
            self.listen()?;
            let text = match self.asked.as_slice() {
                b"stop\n" => return Ok(State::Stops),
                b"stats\n" => Stats::of(alloc, watch, now)?.table(alloc)?,
                b"stats --json\n" => Stats::of(alloc, watch, now)?.json(alloc)?,
                _ => return Ok(State::Gone),
            };
            self.answer = text.into_bytes();
            self.answered = true;
        }
        self.say()?;
        Ok(State::Gone)
    }

    fn state(&mut self, alloc: Global, watch: &Watch, now: u64) -> State {
        match self.go_on(alloc, watch, now) {
            Ok(state) => state,
            Err(error) if error.kind() == ErrorKind::WouldBlock => State::Waits,
            Err(_) => State::Gone,
        }
    }
}

/// The socket of a server, with its clients. It never waits for a client.
#[derive(Drop)]
pub struct Control {
    alloc: Global,
    listener: UnixListener,
    askers: Vec<Asker>,
    last: usize,
    // A client may wait that wasn't accepted, because there were many or the system had no descriptor.
    more: bool,
}

impl Control {
    /// Creates the socket, registered with the poll.
    pub fn new(
        alloc: Global,
        listener: net::UnixListener,
        registry: &Registry,
    ) -> io::Result<Control> {
        let mut listener = UnixListener::from_std(listener);
        registry.register(&mut listener, Token(CONTROL), Interest::READABLE)?;
        Ok(Control {
            alloc,
            listener,
            askers: Vec::new(alloc),
            last: ASKERS,
            more: false,
        })
    }

    // Accepts the next client, if one waits.
    fn accept(&mut self, registry: &Registry, now: u64) -> io::Result<()> {
        let (mut stream, _) = self.listener.accept()?;
        if self.askers.len() >= MOST {
            return Ok(());
        }
        self.last = self.last.wrapping_add(1).max(ASKERS);
        let both = Interest::READABLE | Interest::WRITABLE;
        registry.register(&mut stream, Token(self.last), both)?;
        self.askers.push(Asker {
            stream,
            token: self.last,
            since: now,
            asked: Vec::new(self.alloc),
            answer: Vec::new(self.alloc),
            answered: false,
            sent: 0,
        })?;
        Ok(())
    }

    /// Goes on with all clients. Returns whether one of them told the server to stop.
    pub fn go_on(&mut self, registry: &Registry, watch: &Watch, now: u64) -> bool {
        self.more = true;
        for _ in 0..MOST {
            if let Err(error) = self.accept(registry, now) {
                self.more = error.kind() != ErrorKind::WouldBlock;
                watch.lack(&error);
                break;
            }
        }
        let mut stops = false;
        let mut waiting = Vec::new(self.alloc);
        for _ in 0..self.askers.len() {
            let Some(mut asker) = self.askers.pop() else {
                break;
            };
            match asker.state(self.alloc, watch, now) {
                State::Waits if now.saturating_sub(asker.since) < PATIENCE => {
                    let _ = waiting.push(asker);
                }
                State::Stops => {
                    let _ = asker.stream.write(STOPS);
                    watch.stop(asker.stream, now);
                    stops = true;
                }
                _ => {}
            }
        }
        self.askers = waiting;
        stops
    }

    /// Returns whether the token is that of the socket or of a client.
    pub fn has(token: usize) -> bool {
        token > ASKERS && token <= CONTROL
    }

    /// Returns whether a client asks, or may wait to be accepted.
    pub fn is_asked(&self) -> bool {
        self.more || !self.askers.is_empty()
    }
}
