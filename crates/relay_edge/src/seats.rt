//! The state and the activity of a worker's links, as `relay stats` shows them.

use crate::cells::last_token;
use crate::client::Client;
use std::alloc::{AllocError, Global};
use std::fmt;
use std::fmt::{Display, Formatter};
use std::net::{IpAddr, SocketAddr};
use std::sync::atomic::{AtomicBool, AtomicU64, Ordering};
use std::sync::{Mutex, MutexGuard};

/// The most times that a thread checks whether another has let go of a lock, and lets others run.
const LOOKS: u32 = 300;

/// Lends the content of a lock, or returns `None` if another thread holds it for long.
pub fn held<T>(lock: &Mutex<T>) -> Option<MutexGuard<'_, T>> {
    for _ in 0..LOOKS {
        if let Some(guard) = lock.try_lock() {
            return Some(guard);
        }
        libc::sched_yield();
    }
    None
}

/// A time that is later than any.
const EVEN: u64 = u64::MAX;

/// The activity of a link.
#[derive(Clone, Copy)]
pub enum Doing {
    Nothing,
    Connected,
    Publishes,
    Plays,
    /// It is to an origin, whose stream is published here.
    Pulled,
}

/// The last news of a link, and who is at its other end.
#[derive(Drop)]
pub struct Told {
    pub client: Option<Client>,
    pub doing: Doing,
    /// It plays, and had not connected to an application: so it speaks HTTP.
    pub http: bool,
    pub app: Vec<u8>,
    pub name: Vec<u8>,
}

impl Told {
    fn nothing(alloc: Global, client: Option<Client>) -> Told {
        Told {
            client,
            doing: Doing::Nothing,
            http: false,
            app: Vec::new(alloc),
            name: Vec::new(alloc),
        }
    }
}

/// An application and a name.
#[derive(Drop)]
pub struct Names {
    pub app: Vec<u8>,
    pub name: Vec<u8>,
}

/// The seat of a link. Times are in milliseconds of the clock.
#[derive(Drop)]
pub struct Seat {
    taken: AtomicBool,
    told: Mutex<Told>,
    // It publishes, or the stream that it pulls is live.
    publishes: AtomicBool,
    // It is a link to an origin. The stream that it pulls has another name here.
    pulled: AtomicBool,
    // It neither publishes nor plays, and since when its activity hasn't changed.
    idle: AtomicBool,
    changed: AtomicU64,
    // Another client asks for its place, or for the name that it publishes.
    asked: AtomicBool,
    begun: AtomicU64,
    received: AtomicU64,
    sent: AtomicU64,
    // When it had last been sent all that there was, or `EVEN` if it has been sent all that there is.
    even: AtomicU64,
}

/// The state of a seat at some moment. `even` is when the link had last been sent all that there was, or a
/// later time if it has been now.
#[derive(Drop)]
pub struct Sight {
    pub client: Client,
    pub doing: Doing,
    pub http: bool,
    pub app: Vec<u8>,
    pub name: Vec<u8>,
    pub begun: u64,
    pub received: u64,
    pub sent: u64,
    pub even: u64,
}

/// How long a link was there, the bytes that it gave and those that it took.
#[derive(Clone, Copy)]
pub struct Tally {
    milliseconds: u64,
    received: u64,
    sent: u64,
}

impl Display for Tally {
    fn fmt<W: fmt::Write>(&self, f: &mut Formatter<W>) -> fmt::Result {
        let Tally {
            milliseconds,
            received,
            sent,
        } = *self;
        let (seconds, tenths) = (milliseconds / 1000, milliseconds % 1000 / 100);
        write!(
            f,
            "{seconds}.{tenths} s, {received} bytes in, {sent} bytes out"
        )
    }
}

impl Seat {
    fn new(alloc: Global) -> Seat {
        Seat {
            taken: AtomicBool::new(false),
            told: Mutex::new(Told::nothing(alloc, None)),
            publishes: AtomicBool::new(false),
            pulled: AtomicBool::new(false),
            idle: AtomicBool::new(false),
            changed: AtomicU64::new(0),
            asked: AtomicBool::new(false),
            begun: AtomicU64::new(0),
            received: AtomicU64::new(0),
            sent: AtomicU64::new(0),
            even: AtomicU64::new(0),
        }
    }

    /// Gives the seat to a new link.
    pub fn take(&self, alloc: Global, address: SocketAddr, now: u64) {
        if let Some(mut told) = held(&self.told) {
            *told = Told::nothing(alloc, Some(Client::Peer(address)));
        }
        self.change(Doing::Nothing, now);
        self.begun.store(now, Ordering::SeqCst);
        self.even.store(now, Ordering::SeqCst);
        self.received.store(0, Ordering::SeqCst);
        self.sent.store(0, Ordering::SeqCst);
        self.taken.store(true, Ordering::SeqCst);
    }

    /// Frees the seat.
    pub fn leave(&self) {
        self.taken.store(false, Ordering::SeqCst);
    }

    /// Sets who is at the other end of its link.
    pub fn name(&self, client: Client) {
        if let Some(mut told) = held(&self.told) {
            let told = &mut *told;
            told.client = Some(client);
        }
    }

    fn change(&self, doing: Doing, now: u64) {
        let idle = doing == Doing::Nothing || doing == Doing::Connected;
        self.publishes
            .store(doing == Doing::Publishes, Ordering::SeqCst);
        self.pulled.store(doing == Doing::Pulled, Ordering::SeqCst);
        self.idle.store(idle, Ordering::SeqCst);
        self.changed.store(now, Ordering::SeqCst);
        self.asked.store(false, Ordering::SeqCst);
    }

    /// Records a change of its activity.
    pub fn tell(&self, alloc: Global, doing: Doing, app: &[u8], name: &[u8], now: u64) {
        self.change(doing, now);
        if let Some(mut told) = held(&self.told) {
            let told = &mut *told;
            told.http = told.http || (doing == Doing::Plays && told.doing == Doing::Nothing);
            told.doing = doing;
            told.app = app.to_vec(alloc).unwrap_or(Vec::new(alloc));
            told.name = name.to_vec(alloc).unwrap_or(Vec::new(alloc));
        }
    }

    /// Records that its link gave `count` bytes. A request for the name that it publishes is then dropped.
    pub fn receive(&self, count: usize) {
        self.received.fetch_add(count as u64, Ordering::SeqCst);
        if self.publishes.load(Ordering::SeqCst) && self.is_asked() {
            self.asked.store(false, Ordering::SeqCst);
        }
    }

    /// Returns whether another client asks for its place, or for the name that it publishes.
    pub fn is_asked(&self) -> bool {
        self.asked.load(Ordering::SeqCst)
    }

    /// Asks for its place, or for the name that it publishes.
    pub fn ask(&self) {
        self.asked.store(true, Ordering::SeqCst);
    }

    /// Returns whether a link is there that publishes or plays.
    pub fn is_busy(&self) -> bool {
        self.taken.load(Ordering::SeqCst) && !self.idle.load(Ordering::SeqCst)
    }

    /// Returns whether the last news of its link had these names. Returns `None` if another thread is just
    /// changing them.
    pub fn has_names(&self, app: &[u8], name: &[u8]) -> Option<bool> {
        let told = held(&self.told)?;
        Some(told.app.as_slice() == app && told.name.as_slice() == name)
    }

    /// Sets whether the stream that it pulls is live.
    pub fn air(&self, live: bool) {
        self.publishes.store(live, Ordering::SeqCst);
    }

    /// Returns whether it has a link that publishes under that name. Returns `None` if that isn't known: the
    /// name is just being changed, or the link is to an origin.
    pub fn publishes_as(&self, app: &[u8], name: &[u8]) -> Option<bool> {
        if !self.taken.load(Ordering::SeqCst) || !self.publishes.load(Ordering::SeqCst) {
            return Some(false);
        }
        if self.pulled.load(Ordering::SeqCst) {
            return None;
        }
        self.has_names(app, name)
    }

    /// Returns whether a link is there whose peer has that address.
    pub fn is_of(&self, address: IpAddr) -> bool {
        if !self.taken.load(Ordering::SeqCst) {
            return false;
        }
        match held(&self.told) {
            Some(told) => told
                .client
                .is_some_and(|client| client.peer().ip() == address),
            None => false,
        }
    }

    /// Returns the names in the last news of its link, or `None` if another thread is just changing them.
    pub fn names(&self, alloc: Global) -> Result<Option<Names>, AllocError> {
        let Some(told) = held(&self.told) else {
            return Ok(None);
        };
        Ok(Some(Names {
            app: told.app.as_slice().to_vec(alloc)?,
            name: told.name.as_slice().to_vec(alloc)?,
        }))
    }

    /// Returns since when it has a link that neither publishes nor plays.
    pub fn idle_since(&self) -> Option<u64> {
        let idle = self.taken.load(Ordering::SeqCst) && self.idle.load(Ordering::SeqCst);
        idle.then_some(self.changed.load(Ordering::SeqCst))
    }

    pub fn send(&self, count: usize) {
        self.sent.fetch_add(count as u64, Ordering::SeqCst);
    }

    /// Records that the link has been sent all that there is.
    pub fn level(&self) {
        if self.even.load(Ordering::SeqCst) != EVEN {
            self.even.store(EVEN, Ordering::SeqCst);
        }
    }

    /// Records that there is more to send from now on.
    pub fn lag(&self, now: u64) {
        if self.even.load(Ordering::SeqCst) == EVEN {
            self.even.store(now, Ordering::SeqCst);
        }
    }

    /// Returns the duration of its link, and its bytes.
    pub fn tally(&self, now: u64) -> Tally {
        Tally {
            milliseconds: now.saturating_sub(self.begun.load(Ordering::SeqCst)),
            received: self.received.load(Ordering::SeqCst),
            sent: self.sent.load(Ordering::SeqCst),
        }
    }

    // Returns its state, if it has a link.
    fn sight(&self, alloc: Global) -> Result<Option<Sight>, AllocError> {
        if !self.taken.load(Ordering::SeqCst) {
            return Ok(None);
        }
        let Some(told) = held(&self.told) else {
            return Ok(None);
        };
        let Some(client) = told.client else {
            return Ok(None);
        };
        Ok(Some(Sight {
            client,
            doing: told.doing,
            http: told.http,
            app: told.app.as_slice().to_vec(alloc)?,
            name: told.name.as_slice().to_vec(alloc)?,
            begun: self.begun.load(Ordering::SeqCst),
            received: self.received.load(Ordering::SeqCst),
            sent: self.sent.load(Ordering::SeqCst),
            even: self.even.load(Ordering::SeqCst),
        }))
    }
}

/// The seats of a worker, by the tokens of its links.
#[derive(Drop)]
pub struct Seats {
    list: Vec<Seat>,
}

impl Seats {
    /// Creates the seats of a worker of at most `links` links.
    pub fn new(alloc: Global, links: usize) -> Result<Seats, AllocError> {
        let mut list = Vec::new(alloc);
        for _ in 0..=last_token(links) {
            if list.push(Seat::new(alloc)).is_err() {
                return Err(AllocError);
            }
        }
        Ok(Seats { list })
    }

    pub fn get(&self, token: usize) -> Option<&Seat> {
        self.list.get(token)
    }

    pub fn as_slice(&self) -> &[Seat] {
        self.list.as_slice()
    }

    /// Returns the seat of the link that neither publishes nor plays for the longest time, and since when.
    pub fn idlest(&self) -> Option<(u64, &Seat)> {
        let mut idlest: Option<(u64, &Seat)> = None;
        for seat in self.list.as_slice() {
            if let Some(since) = seat.idle_since() {
                if idlest.is_none_or(|(other, _)| since < other) {
                    idlest = Some((since, seat));
                }
            }
        }
        idlest
    }

    /// Adds the states of all seats that are taken.
    pub fn see(&self, alloc: Global, sights: &mut Vec<Sight>) -> Result<(), AllocError> {
        for seat in self.list.as_slice() {
            if let Some(sight) = seat.sight(alloc)? {
                if sights.push(sight).is_err() {
                    return Err(AllocError);
                }
            }
        }
        Ok(())
    }
}
