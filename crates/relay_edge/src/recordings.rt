//! The recordings of a server, as `relay stats` shows them.

use crate::seats::held;
use crate::shown::Named;
use crate::watch::Watch;
use log::warn;
use relay_outside::SinkNews;
use std::alloc::{AllocError, Global};
use std::fmt::{Display, Formatter};
use std::sync::atomic::{AtomicBool, AtomicU64, Ordering};
use std::sync::{Arc, Mutex, OnceLock};
use std::{fmt, io};

/// A recording, with the counts of its bytes, broadcasts and skipped messages.
#[derive(Drop)]
pub struct Recording {
    name: Vec<u8>,
    bytes: AtomicU64,
    broadcasts: AtomicU64,
    skipped: AtomicU64,
    failed: AtomicBool,
    fault: OnceLock<String>,
}

/// The counts of a recording at some moment. `fault` is the error of its first write that failed, in the
/// system's words, if one has.
#[derive(Drop)]
pub struct Recorded {
    pub name: Vec<u8>,
    pub bytes: u64,
    pub broadcasts: u64,
    /// How many messages the stream let go of before they were recorded.
    pub skipped: u64,
    pub fault: Option<String>,
}

impl Recording {
    /// Records that its file took `count` bytes.
    pub fn write(&self, count: usize) {
        self.bytes.fetch_add(count as u64, Ordering::SeqCst);
    }

    /// Counts a broadcast that begins.
    pub fn begin(&self) {
        self.broadcasts.fetch_add(1, Ordering::SeqCst);
    }

    /// Records that `items` messages aren't recorded.
    pub fn skip(&self, items: u64) {
        self.skipped.fetch_add(items, Ordering::SeqCst);
    }

    /// Keeps the error of the first write that failed.
    pub fn fail(&self, alloc: Global, error: &io::Error) {
        if !self.failed.swap(true, Ordering::SeqCst) {
            if let Ok(words) = format!(in alloc; "{error}") {
                let _ = self.fault.try_set(words);
            }
        }
    }

    fn fault(&self, alloc: Global) -> Result<Option<String>, AllocError> {
        match self.fault.get() {
            Some(words) => Ok(Some(format!(in alloc; "{words}")?)),
            None if self.failed.load(Ordering::SeqCst) => Ok(Some(format!(in alloc; "failed")?)),
            None => Ok(None),
        }
    }

    fn see(&self, alloc: Global) -> Result<Recorded, AllocError> {
        Ok(Recorded {
            name: self.name.as_slice().to_vec(alloc)?,
            bytes: self.bytes.load(Ordering::SeqCst),
            broadcasts: self.broadcasts.load(Ordering::SeqCst),
            skipped: self.skipped.load(Ordering::SeqCst),
            fault: self.fault(alloc)?,
        })
    }
}

/// The recordings of a server.
#[derive(Drop)]
pub struct Recordings {
    list: Mutex<Vec<Arc<Recording, Global>>>,
}

impl Recordings {
    pub fn new(alloc: Global) -> Recordings {
        Recordings {
            list: Mutex::new(Vec::new(alloc)),
        }
    }

    /// Adds a recording to the file of that name.
    pub fn add(&self, alloc: Global, name: &[u8]) -> Result<Arc<Recording, Global>, AllocError> {
        let recording = Recording {
            name: name.to_vec(alloc)?,
            bytes: AtomicU64::new(0),
            broadcasts: AtomicU64::new(0),
            skipped: AtomicU64::new(0),
            failed: AtomicBool::new(false),
            fault: OnceLock::new(),
        };
        let recording = Arc::new(alloc, recording)?;
        let Some(mut list) = held(&self.list) else {
            return Err(AllocError);
        };
        match list.push(Arc::try_clone(&recording)?) {
            Ok(()) => Ok(recording),
            Err(_) => Err(AllocError),
        }
    }

    /// Returns the counts of all recordings.
    pub fn see(&self, alloc: Global) -> Result<Vec<Recorded>, AllocError> {
        let mut seen = Vec::new(alloc);
        if let Some(list) = held(&self.list) {
            for recording in list.as_slice() {
                if seen.push(recording.see(alloc)?).is_err() {
                    return Err(AllocError);
                }
            }
        }
        Ok(seen)
    }
}

// Messages that aren't recorded.
#[derive(Clone, Copy)]
struct Passed {
    items: u64,
}

impl Display for Passed {
    fn fmt<W: fmt::Write>(&self, f: &mut Formatter<W>) -> fmt::Result {
        let items = self.items;
        write!(
            f,
            "{items} messages aren't recorded, since the stream's window had passed them"
        )
    }
}

/// A recording with its server.
#[derive(Drop)]
pub struct Entry {
    alloc: Global,
    watch: Arc<Watch, Global>,
    recording: Arc<Recording, Global>,
}

impl Entry {
    /// Adds a recording to the file of that name, and returns its entry.
    pub fn new(alloc: Global, watch: Arc<Watch, Global>, name: &[u8]) -> Result<Entry, AllocError> {
        let recording = watch.recordings().add(alloc, name)?;
        Ok(Entry {
            alloc,
            watch,
            recording,
        })
    }

    /// Records that its file took `count` bytes.
    pub fn write(&self, count: usize) {
        self.recording.write(count);
    }

    /// Reports and keeps the error of the first write that failed.
    pub fn fail(&self, name: &[u8], error: &io::Error) {
        self.recording.fail(self.alloc, error);
        self.watch.say_of(name, error);
    }

    /// Takes news of the recording, and logs a skip.
    pub fn tell(&self, name: &[u8], news: SinkNews) {
        match news {
            SinkNews::Begins => self.recording.begin(),
            SinkNews::Ends => {}
            SinkNews::Skipped(items) => {
                self.recording.skip(items);
                let what = Passed { items };
                warn!(self.watch.log; "{}", Named { name, what: &what });
            }
        }
    }
}
