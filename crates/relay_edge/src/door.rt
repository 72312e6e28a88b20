//! Doors over a listening socket.
ghost use Rattle.std.specs.Prelude.{◌≡◌, None, false};

use crate::cells::{DOOR, MOST_FAREWELLS, READABLE};
use crate::link::{Guest, RealLink};
use crate::options::{bound_buffer, keep_alive};
use crate::post::Post;
use crate::throttle::Kind;
use crate::watch::is_shortage;
use crate::wire::Wire;
use mio::net::{TcpListener, TcpStream};
use mio::{Interest, Registry, Token};
use relay_outside::{Door, Knock};
use std::alloc::{AllocError, Global};
use std::io;
use std::io::ErrorKind;
use std::marker::Model;
use std::net::SocketAddr;
use std::sync::Arc;

/// The most connections that are turned away at a time.
const AT_ONCE: usize = 64;

/// A worker's door. The doors at one address share one listening socket. A worker that has clearly more links
/// than another leaves new ones to that worker, as long as that worker looks at its door. All doors together
/// give a set number of links, and close when all of these are gone. Once the server stops they give none,
/// and close when all links that were given are gone.
///
/// The peer of a link that comes back is seen off if it was answered why it isn't served. It is told that no
/// more comes, and its further bytes are read and dropped, until it has closed too or for three seconds. A
/// connection that is closed with bytes unread is reset, and the peer may lose the answer. Such a peer counts
/// as no link. If there are 64 of them, the oldest is closed for the next.
#[derive(Drop)]
pub struct RealDoor {
    listener: TcpListener,
    registry: Registry,
    post: Arc<Post, Global>,
    // Those that are seen off.
    leaving: Vec<Wire>,
    accept: u32,
    count: u64,
    failed: u64,
    over: bool,
}

impl Model for RealDoor {
    ghost use Rattle.std.specs.Prelude.{None};
    ghost use Rattle.relay_outside.specs.Doors.{DoorTold};

    ghost Value = { DoorTold };

    ghost view = { λ d. record { given = d.count; faults = d.failed; closed = d.over; back = None } };
}

impl RealDoor {
    /// Creates a door whose listener is registered.
    pub(crate) fn new(
        listener: TcpListener,
        registry: Registry,
        post: Arc<Post, Global>,
        accept: u32,
    ) -> RealDoor
        ensures { result ≡ record { given = 0; faults = 0; closed = false; back = None } }
    {
        let leaving = Vec::new(post.alloc);
        RealDoor {
            listener,
            registry,
            post,
            leaving,
            accept,
            count: 0,
            failed: 0,
            over: false,
        }
    }

    // Goes on with the farewells, and closes each socket whose farewell is over.
    fn see_off(&mut self)
        ensures { self.new ≡ self.old }
    {
        self.leaving.retain_mut(|wire| !wire.is_seen_off());
    }

    // Returns whether there may be a connection for this worker.
    fn is_asked(&self) -> bool {
        self.post.look();
        self.post.cells.has(DOOR, READABLE) && !self.post.leaves()
    }

    // Sets the options of an accepted connection, and registers it under the token.
    fn prepare(
        &self,
        mut stream: TcpStream,
        address: SocketAddr,
        token: usize,
    ) -> io::Result<Guest> {
        stream.set_nodelay(true)?;
        keep_alive(&stream);
        bound_buffer(&stream, self.post.watch.bounds.send_buffer);
        let both = Interest::READABLE | Interest::WRITABLE;
        self.registry.register(&mut stream, Token(token), both)?;
        Ok(Guest { stream, address })
    }

    // Prepares an accepted connection as the link of the token. Returns `None` if its address already has as
    // many links as it may.
    fn welcome(
        &self,
        stream: TcpStream,
        address: SocketAddr,
        token: usize,
    ) -> io::Result<Option<Guest>> {
        if !self.post.admits(token, address) {
            drop(stream);
            self.post.warn_of(
                Kind::turned_away(),
                address,
                "its address has as many links as it may",
            );
            return Ok(None);
        }
        match self.prepare(stream, address, token) {
            Ok(guest) => Ok(Some(guest)),
            Err(error) => {
                self.post.dismiss(token);
                Err(error)
            }
        }
    }

    // Accepts the next connection, if there is one, and registers it under the token. A connection whose
    // address already has as many links as it may is closed.
    fn accept(&self, token: usize) -> io::Result<Option<Guest>> {
        for _ in 0..AT_ONCE {
            match self.listener.accept() {
                Ok((stream, address)) => {
                    self.post.watch.supply();
                    if let Some(guest) = self.welcome(stream, address, token)? {
                        return Ok(Some(guest));
                    }
                }
                Err(error) if error.kind() == ErrorKind::WouldBlock || is_shortage(&error) => {
                    self.post.cells.remove(DOOR, READABLE);
                    self.post.watch.lack(&error);
                    return Ok(None);
                }
                // The socket no longer listens.
                Err(_) if self.post.watch.is_stopped() => return Ok(None),
                Err(error) => return Err(error),
            }
        }
        self.post.hurry();
        Ok(None)
    }

    // Claims a link and accepts its connection, if one more link may be given.
    fn accept_claimed(&self, token: usize) -> io::Result<Option<Guest>> {
        if !self.post.claim(self.accept) {
            return Ok(None);
        }
        let accepted = self.accept(token);
        if !matches!(accepted, Ok(Some(_))) {
            self.post.unclaim();
        }
        accepted
    }

    // Returns the next connection with its token and the post, if there is one for this worker.
    fn knock(&self) -> io::Result<Option<(Guest, usize, Arc<Post, Global>)>> {
        if !self.is_asked() || self.post.watch.is_stopped() {
            return Ok(None);
        }
        let Some(token) = self.post.cells.free() else {
            return Ok(None);
        };
        let post = Arc::try_clone(&self.post)?;
        match self.accept_claimed(token)? {
            Some(guest) => Ok(Some((guest, token, post))),
            None => Ok(None),
        }
    }
}

impl Door for RealDoor {
    type Link = RealLink;

    ghost told = { λ d. d };

    fn next(&mut self) -> Knock<RealLink> {
        if self.over {
            return Knock::Closed;
        }
        self.see_off();
        if self.post.is_done(self.accept) {
            self.over = true;
            return Knock::Closed;
        }
        match self.knock() {
            Ok(Some((guest, token, post))) => {
                self.count += 1;
                Knock::Link(RealLink::new(guest, post, token))
            }
            Ok(None) => Knock::NotYet,
            Err(_) => {
                self.failed = self.failed.saturating_add(1);
                Knock::Failed
            }
        }
    }

    fn back(&mut self, link: RealLink) -> Result<(), AllocError> {
        let _ = &self.over;
        if let Some(wire) = link.leave() {
            if self.leaving.len() >= MOST_FAREWELLS {
                drop(self.leaving.remove(0));
            }
            let _ = self.leaving.push(wire);
            self.see_off();
        }
        Ok(())
    }
}
