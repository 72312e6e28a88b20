//! HTTP players that find no place.

use mio::net::{TcpListener, TcpStream};
use std::alloc::Global;
use std::io;
use std::io::{Read, Write};
use std::net::{Shutdown, SocketAddr};

/// The answer to each of them.
const FULL: &[u8; 74] =
    b"HTTP/1.1 503 Service Unavailable\r\nContent-Length: 0\r\nConnection: close\r\n\r\n";

/// The most players that are seen off at a time.
const MOST: usize = 64;

/// The longest time to see off a player, in milliseconds.
const PATIENCE: u64 = 3_000;

/// The most pieces of a player's bytes that are read and dropped at a time.
const PIECES: usize = 16;

// A player that was answered. It reads the answer, and its bytes are read and dropped: a connection that is
// closed with bytes unread is reset.
#[derive(Drop)]
struct Leaving {
    stream: TcpStream,
    since: u64,
}

impl Leaving {
    // Returns whether it has closed too.
    fn has_closed(&mut self) -> bool {
        let mut room = [0u8; 4096];
        for _ in 0..PIECES {
            match self.stream.read(&mut room) {
                Ok(0) => return true,
                Ok(_) => {}
                Err(error) => return error.kind() != io::ErrorKind::WouldBlock,
            }
        }
        false
    }
}

/// Answers the players that wait at a door that no place is left, and sees them off.
#[derive(Drop)]
pub struct Turnstile {
    listener: TcpListener,
    leaving: Vec<Leaving>,
}

impl Turnstile {
    /// Creates the turnstile of a door, over a handle of its socket.
    pub fn new(alloc: Global, listener: TcpListener) -> Turnstile {
        Turnstile {
            listener,
            leaving: Vec::new(alloc),
        }
    }

    /// Turns away the next player, if one waits, and returns its address.
    pub fn turn_away(&mut self, now: u64) -> Option<SocketAddr> {
        let Ok((mut stream, address)) = self.listener.accept() else {
            return None;
        };
        let _ = stream.write(FULL);
        let _ = stream.shutdown(Shutdown::Write);
        if self.leaving.len() >= MOST {
            drop(self.leaving.remove(0));
        }
        let _ = self.leaving.push(Leaving { stream, since: now });
        Some(address)
    }

    /// Goes on with the players that were turned away.
    pub fn see_off(&mut self, now: u64) {
        self.leaving.retain_mut(|one| {
            !one.has_closed() && now.saturating_sub(one.since) < PATIENCE
        });
    }
}
