//! A house over sockets and files.
ghost use Rattle.std.specs.Prelude.{◌≡◌, None, IfOk, false};

use crate::board::Board;
use crate::cells::{DOOR, MOST_HTTP_LINKS, MOST_LINKS, READABLE};
use crate::control::listen;
use crate::door::RealDoor;
use crate::file::RealFile;
use crate::names::{Names, Refusal, text};
use crate::origin::OriginLink;
use crate::post::Post;
use crate::rest::{RealRest, WAKER};
use crate::turnstile::Turnstile;
use crate::watch::{EDGE, Watch, Watching};
use mio::net::TcpListener;
use mio::{Events, Interest, Poll, Registry, Token, Waker};
use relay_outside::House;
use std::alloc::{AllocError, Global};
use std::fmt::Display;
use std::fs::{File, Files};
use std::io::Eprint;
use std::marker::Model;
use std::net::{Net, SocketAddr};
use std::os::fd::AsRawFd;
use std::sync::Arc;
use std::{io, net};

/// How many events a poll takes at once.
const EVENTS: usize = 128;

// Returns the address that the bytes name.
fn address(listen: &[u8]) -> Result<SocketAddr, Refusal> {
    match text(listen)?.parse::<SocketAddr>() {
        Ok(address) => Ok(address),
        Err(_) => Err(Refusal::NoAddress),
    }
}

// The parts of a worker that the house keeps until its door and its rest are asked for.
#[derive(Drop)]
struct Hand {
    worker: u32,
    post: Arc<Post, Global>,
    registry: Option<Registry>,
    poll: Option<Poll>,
    turnstile: Option<Turnstile>,
}

impl Hand {
    fn new<R: Net>(
        rt: &R,
        alloc: Global,
        board: Arc<Board, Global>,
        watch: Arc<Watch, Global>,
        worker: u32,
        links: usize,
    ) -> io::Result<Hand> {
        let poll = Poll::new(rt)?;
        board.join(worker as usize, Waker::new(poll.registry(), Token(WAKER))?);
        Ok(Hand {
            worker,
            post: Post::new(alloc, board, watch, worker as usize, links)?,
            registry: Some(poll.registry().try_clone()?),
            poll: Some(poll),
            turnstile: None,
        })
    }

    // Makes its links those of HTTP players. Its rest then turns away players that find no place.
    fn serve_http(&mut self, alloc: Global, socket: &net::TcpListener) -> io::Result<()> {
        let listener = TcpListener::from_std(socket.try_clone()?);
        self.turnstile = Some(Turnstile::new(alloc, listener));
        self.post.serve_http();
        Ok(())
    }

    // Returns its door, once.
    fn door(&mut self, socket: net::TcpListener, accept: u32) -> io::Result<RealDoor>
        ensures { IfOk result (λ d. d ≡ record { given = 0; faults = 0; closed = false; back = None }) }
    {
        let Some(registry) = self.registry.take() else {
            return Err(io::Error::from(io::ErrorKind::AlreadyExists));
        };
        let mut listener = TcpListener::from_std(socket);
        registry.register(&mut listener, Token(DOOR), Interest::READABLE)?;
        self.post.cells.add(DOOR, READABLE);
        self.post.set_door(listener.as_raw_fd());
        let post = Arc::try_clone(&self.post)?;
        Ok(RealDoor::new(listener, registry, post, accept))
    }

    // Returns the link to an origin at that address, once, for a worker without a door.
    fn reach<R: Net>(&mut self, rt: &R, address: SocketAddr) -> io::Result<OriginLink>
        ensures { IfOk result (λ l. l ≡ record { faults = 0; waits = 0; ends = 0 }) }
    {
        let Some(registry) = self.registry.take() else {
            return Err(io::Error::from(io::ErrorKind::AlreadyExists));
        };
        let post = Arc::try_clone(&self.post)?;
        Ok(OriginLink::reach(rt, &registry, address, post))
    }

    // Returns its rest, once.
    fn rest(&mut self, alloc: Global) -> io::Result<RealRest> {
        let Some(poll) = self.poll.take() else {
            return Err(io::Error::from(io::ErrorKind::AlreadyExists));
        };
        let events = Events::with_capacity(alloc, EVENTS)?;
        let post = Arc::try_clone(&self.post)?;
        Ok(RealRest::new(poll, events, post, self.turnstile.take()))
    }
}

// The sockets of a house.
#[derive(Drop)]
struct Sockets {
    alloc: Global,
    board: Arc<Board, Global>,
    watch: Arc<Watch, Global>,
    // The listening sockets, each with its address as it was asked for.
    listening: Vec<(Vec<u8>, net::TcpListener)>,
    hands: Vec<Hand>,
    // The path of the control socket, and whether the server answers there.
    control: Option<String>,
    answers: bool,
}

impl Sockets {
    // Returns a handle of the socket that listens at that address, and the number of the address. The socket
    // has the longest backlog that the system allows.
    fn listener<R: Net>(
        &mut self,
        rt: &R,
        listen: &[u8],
    ) -> Result<(net::TcpListener, u64), Refusal> {
        let mut number = 0u64;
        for (asked, socket) in self.listening.as_slice() {
            if asked.as_slice() == listen {
                return Ok((socket.try_clone()?, number));
            }
            number = number.saturating_add(1);
        }
        let socket = net::TcpListener::from(TcpListener::bind(rt, address(listen)?)?);
        let at = socket.local_addr()?;
        self.watch.listeners().add(at, socket.try_clone()?)?;
        let other = socket.try_clone()?;
        let address = listen.to_vec(self.alloc)?;
        if self.listening.push((address, other)).is_err() {
            return Err(Refusal::from(AllocError));
        }
        Ok((socket, number))
    }

    // Opens the control socket if the settings have a path for it. The first worker that runs answers there.
    fn answer<R: Net + Files<File = File>>(&mut self, rt: &R) -> Result<(), Refusal> {
        if self.answers {
            return Ok(());
        }
        let Some(path) = &self.control else {
            return Ok(());
        };
        self.watch.set_control(listen(rt, path.as_str())?);
        self.answers = true;
        Ok(())
    }

    // Returns the worker's hand. If there is none, it is made for at most `links` links.
    fn hand<R: Net>(&mut self, rt: &R, worker: u32, links: usize) -> io::Result<&mut Hand> {
        let mut at = 0usize;
        for hand in self.hands.as_slice() {
            if hand.worker == worker {
                break;
            }
            at = at.saturating_add(1);
        }
        if at >= self.hands.len() {
            let board = Arc::try_clone(&self.board)?;
            let watch = Arc::try_clone(&self.watch)?;
            let hand = Hand::new(rt, self.alloc, board, watch, worker, links)?;
            self.hands.push(hand)?;
        }
        match self.hands.get_mut(at) {
            Some(hand) => Ok(hand),
            None => Err(io::Error::from(io::ErrorKind::NotFound)),
        }
    }

    fn door<R: Net>(
        &mut self,
        rt: &R,
        worker: u32,
        listen: &[u8],
        accept: u32,
    ) -> Result<RealDoor, Refusal>
        ensures { IfOk result (λ d. d ≡ record { given = 0; faults = 0; closed = false; back = None }) }
    {
        let (socket, number) = self.listener(rt, listen)?;
        self.board.listen(worker as usize, number);
        let alloc = self.alloc;
        let is_http = number > 0;
        let links = if is_http { MOST_HTTP_LINKS } else { MOST_LINKS };
        let hand = self.hand(rt, worker, links)?;
        if is_http {
            hand.serve_http(alloc, &socket)?;
        }
        Ok(hand.door(socket, accept)?)
    }

    fn rest<R: Net>(&mut self, rt: &R, worker: u32) -> io::Result<RealRest> {
        let alloc = self.alloc;
        self.hand(rt, worker, MOST_LINKS)?.rest(alloc)
    }
}

/// A house over sockets and files: doors that share the listening socket of their address, rests that wake
/// each other, and files. Once the first worker runs, it writes on standard error the addresses at which it
/// listens. It also reports there why a door, a rest or a file couldn't be had. If one couldn't, all files
/// are again as they were before it gave any.
#[derive(Drop)]
pub struct RealHouse<'a, R> {
    rt: &'a R,
    sockets: Sockets,
    names: Names,
    failed: u64,
    spoilt: u64,
}

impl<'a, R> Model for RealHouse<'a, R> {
    ghost use Rattle.std.specs.Prelude.{None};
    ghost use Rattle.relay_outside.specs.Houses.{HouseTold};

    ghost Value = { HouseTold };

    ghost view = { λ h. record { faults = h.failed; spoiled = h.spoilt; kept = None; shut = None } };
}

impl<'a, R: Eprint> RealHouse<'a, R> {
    /// Creates a house that has given nothing, without a log or a control socket.
    pub fn new(rt: &'a R, alloc: Global) -> Result<RealHouse<'a, R>, AllocError>
        ensures { IfOk result (λ h. h ≡ record { faults = 0; spoiled = 0; kept = None; shut = None }) }
    {
        RealHouse::watched(rt, alloc, Watching::nothing())
    }

    /// Writes a line on standard error, as the log does: no thread waits for its reader.
    pub fn say<D: Display>(&self, line: &D) {
        self.sockets.watch.say(line);
    }

    /// Creates a house that has given nothing, and is watched by these settings.
    pub fn watched(
        rt: &'a R,
        alloc: Global,
        mut watching: Watching,
    ) -> Result<RealHouse<'a, R>, AllocError>
        ensures { IfOk result (λ h. h ≡ record { faults = 0; spoiled = 0; kept = None; shut = None }) }
    {
        let board = Board::new(alloc)?;
        let watch = Watch::new(alloc, &mut watching)?;
        let names = Names::new(alloc, Arc::try_clone(&watch)?);
        Ok(RealHouse {
            rt,
            sockets: Sockets {
                alloc,
                board: Arc::new(alloc, board)?,
                watch,
                listening: Vec::new(alloc),
                hands: Vec::new(alloc),
                control: watching.control,
                answers: false,
            },
            names,
            failed: 0,
            spoilt: 0,
        })
    }
}

impl<'a, R: Files<File = File>> RealHouse<'a, R> {
    /// Keeps the file of this name, if it exists, from being given.
    pub fn spare(&mut self, name: &str)
        ensures { self.new ≡ self.old }
    {
        self.names.spare(self.rt, name);
    }

    /// Removes the file of the control socket if the house made one. It also leaves all files as they were if
    /// no worker has run. A client that told the server to stop still waits until the house is dropped.
    pub fn clear(&mut self)
        ensures { self.new ≡ self.old }
    {
        if let (Some(path), true) = (&self.sockets.control, self.sockets.answers) {
            let _ = self.rt.remove_file(path.as_str());
        }
        self.sockets.answers = false;
        if !self.sockets.watch.has_run() {
            self.names.undo(self.rt);
        }
    }
}

impl<'a, R: Net> RealHouse<'a, R> {
    /// Returns a link to the server at that address, and a rest for the session that pulls a stream from it
    /// and publishes it here. It doesn't wait for the connection. Both are given once.
    pub fn reach(&mut self, address: SocketAddr) -> io::Result<(OriginLink, RealRest)>
        ensures same { self.new ≡ self.old }
        ensures new { IfOk result (λ both. both.0 ≡ record { faults = 0; waits = 0; ends = 0 }) }
    {
        let hand = self.sockets.hand(self.rt, EDGE, MOST_LINKS)?;
        let link = hand.reach(self.rt, address)?;
        let rest = self.sockets.rest(self.rt, EDGE)?;
        Ok((link, rest))
    }
}

impl<'a, R: Net + Files<File = File> + Eprint> RealHouse<'a, R> {
    // Returns whether the control socket is open, or the settings have no path for it. Otherwise it reports
    // why not.
    fn answers(&mut self) -> bool
        ensures { self.new ≡ self.old }
    {
        let Err(refusal) = self.sockets.answer(self.rt) else {
            return true;
        };
        let path = match &self.sockets.control {
            Some(path) => path.as_bytes(),
            None => b"",
        };
        self.sockets.watch.say_of(path, &refusal);
        false
    }
}

impl<'a, R: Net + Files<File = File> + Eprint + Sync> House for RealHouse<'a, R> {
    type Door = RealDoor;

    type Rest = RealRest;

    type File = RealFile<'a, R>;

    ghost told = { λ h. h };

    ghost asked = { λ _. None };

    ghost named = { λ _. None };

    fn door(&mut self, worker: u32, listen: &[u8], accept: u32) -> Option<RealDoor> {
        if !self.answers() {
            self.names.undo(self.rt);
            self.failed = self.failed.saturating_add(1);
            return None;
        }
        match self.sockets.door(self.rt, worker, listen, accept) {
            Ok(door) => Some(door),
            Err(refusal) => {
                self.sockets.watch.say_of(listen, &refusal);
                self.names.undo(self.rt);
                self.failed = self.failed.saturating_add(1);
                None
            }
        }
    }

    fn rest(&mut self, worker: u32) -> Option<RealRest> {
        match self.sockets.rest(self.rt, worker) {
            Ok(rest) => Some(rest),
            Err(error) => {
                self.sockets.watch.say_of(b"a worker's poll", &error);
                self.names.undo(self.rt);
                self.failed = self.failed.saturating_add(1);
                None
            }
        }
    }

    fn file(&mut self, name: &[u8]) -> Option<RealFile<'a, R>> {
        match self.names.give(self.rt, name) {
            Ok(file) => Some(file),
            Err(refusal) => {
                self.sockets.watch.say_of(name, &refusal);
                self.names.undo(self.rt);
                self.failed = self.failed.saturating_add(1);
                None
            }
        }
    }

    fn keep(&mut self, name: &[u8], file: RealFile<'a, R>) -> Result<(), AllocError> {
        let synced = file.sync();
        if file.error().is_some() {
            self.spoilt = self.spoilt.saturating_add(1);
        } else if let Err(error) = synced {
            self.sockets.watch.say_of(name, &error);
        }
        Ok(())
    }

    fn shut(&mut self, _worker: u32, door: RealDoor) -> Result<(), AllocError> {
        let _ = &self.names;
        drop(door);
        Ok(())
    }
}
