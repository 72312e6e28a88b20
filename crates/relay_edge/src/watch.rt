//! The state of a server that all its workers share: its log, its counts, and the command to stop.

use crate::bounds::Bounds;
use crate::clock::milliseconds;
use crate::journal::Journal;
use crate::listeners::Listeners;
use crate::missed::Missed;
use crate::proxies::Proxies;
use crate::recordings::Recordings;
use crate::seats::{Seats, Sight, held};
use crate::shown::Named;
use crate::throttle::Throttle;
use log::{LevelFilter, Logged, warn};
use mio::net::UnixStream;
use std::alloc::{AllocError, Global};
use std::fmt::Display;
use std::io;
use std::net::IpAddr;
use std::os::unix::net::UnixListener;
use std::sync::atomic::{AtomicBool, AtomicU64, Ordering};
use std::sync::{Arc, Mutex, OnceLock};

/// The most workers: sixteen, one for HTTP, and an edge.
pub const MOST_WORKERS: usize = 18;

/// The number of the edge.
pub const EDGE: u32 = 17;

/// The milliseconds after the first worker runs, by which each of the others has a thread if it can have one.
const STARTING: u64 = 2000;

/// The most names whose broadcasts are counted.
const MOST_NAMES: usize = 1024;

// The errors of the system if there is no descriptor or no memory for a socket: ENOMEM, ENFILE, EMFILE and
// ENOBUFS.
const SHORTAGES: [i32; 4] = [12, 23, 24, 105];

/// Returns whether the error is that the system has no room for a socket, so that the call is made again
/// later.
pub fn is_shortage(error: &io::Error) -> bool {
    match error.raw_os_error() {
        Some(number) => SHORTAGES.contains(&number),
        None => false,
    }
}

/// How a server is watched.
#[derive(Drop)]
pub struct Watching {
    /// Which lines its log has.
    pub level: LevelFilter,
    /// The seconds after which a link that gives nothing ends; 0 sets no limit.
    pub silence: u64,
    /// Whether each line of its log begins with the date and the time.
    pub times: bool,
    /// The other limits of its links.
    pub bounds: Bounds,
    /// The HTTP proxies in front of it, if there are any.
    pub proxies: Option<Proxies>,
    /// The path of its control socket, if it has one.
    pub control: Option<String>,
}

impl Watching {
    /// Returns settings without a log, a proxy or a control socket, by which a link may be silent for ever.
    pub fn nothing() -> Watching {
        Watching {
            level: LevelFilter::Off,
            silence: 0,
            times: false,
            bounds: Bounds::none(),
            proxies: None,
            control: None,
        }
    }
}

/// The number of broadcasts that have begun under a name, and the items that its players have missed.
#[derive(Drop)]
pub struct Broadcasts {
    pub app: Vec<u8>,
    pub name: Vec<u8>,
    pub count: u64,
    /// When the last of them began, by the clock in milliseconds. Before the first, it is when the name was
    /// added.
    pub begun: u64,
    pub missed: Missed,
}

impl Broadcasts {
    /// Returns the counts of a name that had no broadcast yet and whose players have missed nothing.
    pub fn none(
        alloc: Global,
        app: &[u8],
        name: &[u8],
        now: u64,
    ) -> Result<Broadcasts, AllocError> {
        Ok(Broadcasts {
            app: app.to_vec(alloc)?,
            name: name.to_vec(alloc)?,
            count: 0,
            begun: now,
            missed: Missed::nothing(),
        })
    }

    /// Returns whether they are those of that name.
    pub fn are_of(&self, app: &[u8], name: &[u8]) -> bool {
        self.app.as_slice() == app && self.name.as_slice() == name
    }

    fn copied(&self, alloc: Global) -> Result<Broadcasts, AllocError> {
        Ok(Broadcasts {
            app: self.app.as_slice().to_vec(alloc)?,
            name: self.name.as_slice().to_vec(alloc)?,
            count: self.count,
            begun: self.begun,
            missed: self.missed,
        })
    }
}

/// The state that all workers of a server share, for its log, its statistics and its control socket.
#[derive(Drop)]
pub struct Watch {
    pub log: Logged<(), Journal>,
    /// The milliseconds that a link may be silent; 0 sets no limit.
    pub silence: u64,
    pub bounds: Bounds,
    /// The HTTP proxies in front of the server, if there are any.
    pub proxies: Option<Proxies>,
    /// When the server began, by the clock.
    pub begun: u64,
    pub seats: Vec<OnceLock<Arc<Seats, Global>>>,
    broadcasts: Mutex<Vec<Broadcasts>>,
    // Links that publish.
    publishing: AtomicU64,
    // Held while the links of an address are counted and a seat is taken for one more.
    pub admitting: Mutex<()>,
    /// Limits the lines of one kind in the log.
    pub throttle: Throttle,
    // When it was told to stop, by the clock, or 0.
    stopped: AtomicU64,
    // The clients that told it to stop, and wait for its end.
    waiting: Mutex<Vec<UnixStream>>,
    recordings: Recordings,
    // The sockets at which it listens for connections. `control` holds its control socket until a worker
    // takes it.
    listeners: Listeners,
    // It has reported its addresses.
    told: AtomicBool,
    control: Mutex<Option<UnixListener>>,
    // The log has a line that all links are taken, and none is gone since.
    crowded: AtomicBool,
    // The log has a line that the system has no descriptor or memory for a connection, and none came since.
    short: AtomicBool,
    // The number of workers that run, and since when, by the clock, or 0.
    running: AtomicU64,
    ran: AtomicU64,
    // Whether the workers that don't run were counted.
    counted: AtomicBool,
}

// Adds an item to a list.
fn add<T: Drop>(list: &mut Vec<T>, item: T) -> Result<(), AllocError> {
    match list.push(item) {
        Ok(()) => Ok(()),
        Err(_) => Err(AllocError),
    }
}

impl Watch {
    /// Creates the state of a server that begins. Its proxies are taken out of the settings.
    pub fn new(alloc: Global, watching: &mut Watching) -> Result<Arc<Watch, Global>, AllocError> {
        let mut seats = Vec::new(alloc);
        for _ in 0..MOST_WORKERS {
            add(&mut seats, OnceLock::new())?;
        }
        let watch = Watch {
            log: Logged::new((), watching.level, Journal::new(watching.times)),
            silence: watching.silence.saturating_mul(1000),
            bounds: watching.bounds,
            proxies: watching.proxies.take(),
            begun: milliseconds(),
            seats,
            broadcasts: Mutex::new(Vec::new(alloc)),
            publishing: AtomicU64::new(0),
            admitting: Mutex::new(()),
            throttle: Throttle::new(alloc)?,
            stopped: AtomicU64::new(0),
            waiting: Mutex::new(Vec::new(alloc)),
            recordings: Recordings::new(alloc),
            listeners: Listeners::new(alloc),
            told: AtomicBool::new(false),
            control: Mutex::new(None),
            crowded: AtomicBool::new(false),
            short: AtomicBool::new(false),
            running: AtomicU64::new(0),
            ran: AtomicU64::new(0),
            counted: AtomicBool::new(false),
        };
        Ok(Arc::new(alloc, watch)?)
    }

    /// Returns whether the address is that of an HTTP proxy in front of the server.
    pub fn is_proxy(&self, address: IpAddr) -> bool {
        match &self.proxies {
            Some(proxies) => proxies.has(address),
            None => false,
        }
    }

    /// Returns how many milliseconds a publisher may give nothing; 0 sets no limit.
    pub fn publisher_silence(&self) -> u64 {
        self.bounds.publisher_silence.saturating_mul(1000)
    }

    /// Adds the seats of a worker.
    pub fn join(&self, worker: usize, seats: Arc<Seats, Global>) {
        if let Some(place) = self.seats.get(worker) {
            let _ = place.try_set(seats);
        }
    }

    /// Records that a worker runs.
    pub fn run(&self, now: u64) {
        if self.running.fetch_add(1, Ordering::SeqCst) == 0 {
            self.ran.store(now, Ordering::SeqCst);
        }
    }

    /// Returns whether a worker has run.
    pub fn has_run(&self) -> bool {
        self.running.load(Ordering::SeqCst) > 0
    }

    /// Writes a line on standard error, whatever the level of the log is. No thread waits for its reader: if
    /// there is no room, the line is lost and counted.
    pub fn say<D: Display>(&self, line: &D) {
        self.log.sink().say(line);
    }

    /// Writes a line with a name and a message about it, likewise.
    pub fn say_of<D: Display>(&self, name: &[u8], what: &D) {
        self.say(&Named { name, what });
    }

    /// Returns its recordings.
    pub fn recordings(&self) -> &Recordings {
        &self.recordings
    }

    /// Returns its listening sockets.
    pub fn listeners(&self) -> &Listeners {
        &self.listeners
    }

    /// Writes the addresses at which it listens, once.
    pub fn say_addresses(&self, alloc: Global) {
        if self.told.swap(true, Ordering::SeqCst) {
            return;
        }
        if let Ok(addresses) = self.listeners.addresses(alloc) {
            for at in addresses.as_slice() {
                self.say(&format_args!("relay: listens on {at}"));
            }
        }
    }

    /// Sets the control socket, which the first worker that runs takes.
    pub fn set_control(&self, socket: UnixListener) {
        if let Some(mut place) = held(&self.control) {
            *place = Some(socket);
        }
    }

    /// Returns the control socket, once.
    pub fn take_control(&self) -> Option<UnixListener> {
        let mut place = held(&self.control)?;
        let place = &mut *place;
        place.take()
    }

    /// Returns the number of workers that don't run, once, some time after the first one does. The system
    /// gave them no thread, so each of them runs when another has ended.
    pub fn waiting(&self, now: u64) -> Option<usize> {
        let ran = self.ran.load(Ordering::SeqCst);
        if ran == 0
            || now.saturating_sub(ran) < STARTING
            || self.counted.swap(true, Ordering::SeqCst)
        {
            return None;
        }
        let all = self
            .seats
            .as_slice()
            .iter()
            .filter(|place| place.get().is_some())
            .count();
        let running = self.running.load(Ordering::SeqCst) as usize;
        Some(all.saturating_sub(running)).filter(|waiting| *waiting > 0)
    }

    /// Returns the states of all links.
    pub fn see(&self, alloc: Global) -> Result<Vec<Sight>, AllocError> {
        let mut sights = Vec::new(alloc);
        for place in self.seats.as_slice() {
            if let Some(seats) = place.get() {
                seats.see(alloc, &mut sights)?;
            }
        }
        Ok(sights)
    }

    /// Counts a broadcast that begins.
    pub fn begin(&self, alloc: Global, app: &[u8], name: &[u8], now: u64) {
        self.publishing.fetch_add(1, Ordering::SeqCst);
        if let Some(mut list) = held(&self.broadcasts) {
            let list = &mut *list;
            for one in list.iter_mut() {
                if one.are_of(app, name) {
                    one.count = one.count.saturating_add(1);
                    one.begun = now;
                    return;
                }
            }
            if let Ok(mut first) = Broadcasts::none(alloc, app, name, now) {
                first.count = 1;
                let _ = self.add_name(list, first);
            }
        }
    }

    /// Counts the items that a player of that name has missed. The name needs no broadcast: at an edge, the
    /// origin's broadcasts may have another. Returns false if nothing was counted, because there was no
    /// memory for the name or another thread holds the counts for long.
    pub fn miss(&self, alloc: Global, app: &[u8], name: &[u8], missed: Missed, now: u64) -> bool {
        let Some(mut list) = held(&self.broadcasts) else {
            return false;
        };
        let list = &mut *list;
        for one in list.iter_mut() {
            if one.are_of(app, name) {
                one.missed = one.missed.and(missed);
                return true;
            }
        }
        match Broadcasts::none(alloc, app, name, now) {
            Ok(mut first) => {
                first.missed = missed;
                self.add_name(list, first).is_ok()
            }
            Err(_) => false,
        }
    }

    // Adds a name with its counts. If the list is full, the name replaces the unused one whose last broadcast
    // began the longest time ago. A name is unused if no link publishes or plays it.
    fn add_name(&self, list: &mut Vec<Broadcasts>, first: Broadcasts) -> Result<(), AllocError> {
        if list.len() < MOST_NAMES {
            return add(list, first);
        }
        if let Some(place) = self.oldest_unused(list.as_slice()) {
            if let Some(old) = list.get_mut(place) {
                *old = first;
            }
        }
        Ok(())
    }

    fn oldest_unused(&self, list: &[Broadcasts]) -> Option<usize> {
        let mut oldest: Option<(usize, u64)> = None;
        let mut place = 0usize;
        for one in list {
            let older = oldest.is_none_or(|(_, begun)| one.begun < begun);
            if older && !self.is_used(one.app.as_slice(), one.name.as_slice()) {
                oldest = Some((place, one.begun));
            }
            place = place.saturating_add(1);
        }
        oldest.map(|(place, _)| place)
    }

    /// Records that a broadcast ends.
    pub fn end(&self) {
        self.publishing.fetch_sub(1, Ordering::SeqCst);
    }

    /// Returns whether any link publishes.
    pub fn is_published(&self) -> bool {
        self.publishing.load(Ordering::SeqCst) > 0
    }

    /// Returns the broadcasts of each name.
    pub fn broadcasts(&self, alloc: Global) -> Result<Vec<Broadcasts>, AllocError> {
        let mut copies = Vec::new(alloc);
        if let Some(list) = held(&self.broadcasts) {
            for one in list.as_slice() {
                add(&mut copies, one.copied(alloc)?)?;
            }
        }
        Ok(copies)
    }

    /// Tells the server to stop, so that it no longer listens. The client's connection is closed only at its
    /// very end.
    pub fn stop(&self, who: UnixStream, now: u64) {
        if let Some(mut waiting) = held(&self.waiting) {
            let _ = add(&mut *waiting, who);
        }
        if !self.is_stopped() {
            self.stopped.store(now, Ordering::SeqCst);
        }
        self.listeners.close();
    }

    /// Returns whether it was told to stop.
    pub fn is_stopped(&self) -> bool {
        self.stopped.load(Ordering::SeqCst) > 0
    }

    /// Returns how many milliseconds it has been stopping.
    pub fn stopping(&self, now: u64) -> u64 {
        now.saturating_sub(self.stopped.load(Ordering::SeqCst))
    }

    /// Records that all links are taken and a connection waits. Returns whether that is new.
    pub fn crowd(&self) -> bool {
        !self.crowded.swap(true, Ordering::SeqCst)
    }

    /// Handles the error of an accept. If the system had no descriptor or no memory for the connection, and
    /// that is new, it is logged.
    pub fn lack(&self, error: &io::Error) {
        if is_shortage(error) && !self.short.swap(true, Ordering::SeqCst) {
            warn!(self.log; "relay: a connection waits, since the system refuses it: {error}");
        }
    }

    /// Records that a connection was accepted, so the shortage is over.
    pub fn supply(&self) {
        if self.short.load(Ordering::SeqCst) {
            self.short.store(false, Ordering::SeqCst);
        }
    }

    /// Records that a link is gone.
    pub fn thin(&self) {
        if self.crowded.load(Ordering::SeqCst) {
            self.crowded.store(false, Ordering::SeqCst);
        }
    }
}
