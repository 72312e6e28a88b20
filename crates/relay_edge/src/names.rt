//! The files that a house gives, by their names.
ghost use Rattle.std.specs.Prelude.{◌≡◌, IfOk};

use crate::aside::numbered;
use crate::file::{Kind, RealFile};
use crate::recordings::Entry;
use crate::shown::Shown;
use crate::watch::Watch;
use std::alloc::{AllocError, Global};
use std::fmt::{Display, Formatter};
use std::fs::{File, Files, Metadata, OpenOptions, TryLockError};
use std::io::{Read, Write};
use std::os::unix::fs::{FileTypeExt, MetadataExt};
use std::sync::Arc;
use std::{fmt, io, str};

/// The most files of one name that are kept aside.
const MOST_ASIDE: u32 = 1_000_000;

/// The header of FLV, which is the whole of a recording without a broadcast.
const HEADER: &[u8; 13] = b"FLV\x01\x05\0\0\0\x09\0\0\0\0";

/// The files that the server itself writes if they are regular files, and why none of them can be a
/// recording.
const STANDARD: [(&str, &str); 2] = [
    (
        "/dev/stdout",
        "it is standard output, where the report is written",
    ),
    (
        "/dev/stderr",
        "it is standard error, where the log is written",
    ),
];

/// Why an address or a file can't be had.
#[derive(Drop)]
pub enum Refusal {
    System(io::Error),
    /// It is a folder, a socket or a block device.
    NoFile,
    /// It is a file of the server itself, as the words say.
    Standard { words: &'static str },
    Locked,
    NoAddress,
    /// Another name of it was given before.
    Given { name: Vec<u8> },
}

impl From<io::Error> for Refusal {
    fn from(error: io::Error) -> Refusal {
        Refusal::System(error)
    }
}

impl From<AllocError> for Refusal {
    fn from(error: AllocError) -> Refusal {
        Refusal::System(io::Error::from(error))
    }
}

impl Display for Refusal {
    fn fmt<W: fmt::Write>(&self, f: &mut Formatter<W>) -> fmt::Result {
        match self {
            Refusal::System(error) => write!(f, "{error}"),
            Refusal::NoFile => f.write_str("it is no file, pipe or character device"),
            Refusal::Standard { words } => f.write_str(words),
            Refusal::Locked => f.write_str("another program records to it"),
            Refusal::NoAddress => {
                f.write_str("an IP address and a port are wanted, as 127.0.0.1:1935")
            }
            Refusal::Given { name } => match str::from_utf8(name.as_slice()) {
                Ok(text) => write!(f, "it is the same file as {}", Shown { text }),
                Err(_) => f.write_str("it is the same file as another"),
            },
        }
    }
}

/// Returns the bytes as text, or `InvalidInput` if they aren't UTF-8.
pub fn text(bytes: &[u8]) -> io::Result<&str> {
    match str::from_utf8(bytes) {
        Ok(text) => Ok(text),
        Err(_) => Err(io::Error::from(io::ErrorKind::InvalidInput)),
    }
}

// The identity of a file, independent of its name.
#[derive(Clone, Copy, PartialEq, Eq)]
struct Identity {
    dev: u64,
    ino: u64,
}

impl Identity {
    fn of(metadata: &Metadata) -> Identity {
        Identity {
            dev: metadata.dev(),
            ino: metadata.ino(),
        }
    }
}

#[derive(Drop)]
struct Named {
    name: Vec<u8>,
    identity: Identity,
}

// The change that made an empty file available at a path.
#[derive(Drop)]
enum Deed {
    Made { path: String },
    SetAside { path: String, aside: String },
    // It had the first `len` bytes of the header of FLV.
    Emptied { path: String, len: usize },
}

fn take_back<R: Files<File = File>>(rt: &R, deed: &Deed) -> io::Result<()> {
    match deed {
        Deed::Made { path } => rt.remove_file(path.as_str()),
        Deed::SetAside { path, aside } => rt.rename(aside.as_str(), path.as_str()),
        Deed::Emptied { path, len } => {
            let mut how = OpenOptions::new();
            how.write(true);
            let mut file = how.open(rt, path.as_str())?;
            file.write_all(HEADER.get(..*len).unwrap_or(&[]))
        }
    }
}

// Returns whether the file at the path holds a first part of the header of FLV and nothing else.
fn is_header<R: Files<File = File>>(rt: &R, path: &str) -> io::Result<bool> {
    let mut room = [0u8; 14];
    let count = File::open(rt, path)?.read(&mut room)?;
    let part = HEADER.get(..count);
    Ok(part.is_some() && part == room.get(..count))
}

// Returns why the server itself writes that file, if it does.
fn standard<R: Files<File = File>>(rt: &R, there: &Metadata) -> Option<&'static str> {
    for (path, words) in STANDARD {
        if let Ok(own) = rt.metadata(path) {
            if Identity::of(&own) == Identity::of(there) {
                return Some(words);
            }
        }
    }
    None
}

/// The files of a house: those that it gave, and the changes that it made for them.
#[derive(Drop)]
pub struct Names {
    alloc: Global,
    watch: Arc<Watch, Global>,
    named: Vec<Named>,
    deeds: Vec<Deed>,
}

// Adds an item to a list.
fn add<T: Drop>(list: &mut Vec<T>, item: T) -> Result<(), AllocError> {
    match list.push(item) {
        Ok(()) => Ok(()),
        Err(_) => Err(AllocError),
    }
}

// Opens a file to write, and makes it if there is none. Locks it against others that do the same.
fn open<R: Files<File = File>>(rt: &R, path: &str, fresh: bool) -> Result<File, Refusal> {
    let mut how = OpenOptions::new();
    how.write(true).create(true).create_new(fresh);
    let file = how.open(rt, path)?;
    match file.try_lock() {
        Err(TryLockError::WouldBlock) => Err(Refusal::Locked),
        // A file system without locks has none to respect.
        Err(TryLockError::Error(_)) | Ok(()) => Ok(file),
    }
}

impl Names {
    pub fn new(alloc: Global, watch: Arc<Watch, Global>) -> Names {
        Names {
            alloc,
            watch,
            named: Vec::new(alloc),
            deeds: Vec::new(alloc),
        }
    }

    // Notes a file, which may not have been noted before.
    fn note(&mut self, name: &[u8], metadata: &Metadata) -> Result<(), Refusal> {
        let identity = Identity::of(metadata);
        for named in self.named.as_slice() {
            if named.identity == identity {
                return Err(Refusal::Given {
                    name: named.name.clone()?,
                });
            }
        }
        let name = name.to_vec(self.alloc)?;
        Ok(add(&mut self.named, Named { name, identity })?)
    }

    /// Keeps the file of that name, if it exists, from being given.
    pub fn spare<R: Files<File = File>>(&mut self, rt: &R, name: &str) {
        if let Ok(metadata) = rt.metadata(name) {
            let _ = self.note(name.as_bytes(), &metadata);
        }
    }

    // Returns the first free name for a file that is kept aside.
    fn free_name<R: Files<File = File>>(&self, rt: &R, path: &str) -> Result<String, Refusal> {
        for number in 1..=MOST_ASIDE {
            let free = numbered(self.alloc, path, number)?;
            match rt.symlink_metadata(free.as_str()) {
                Err(error) if error.kind() == io::ErrorKind::NotFound => return Ok(free),
                Err(error) => return Err(Refusal::System(error)),
                Ok(_) => {}
            }
        }
        Err(Refusal::System(io::Error::from(io::ErrorKind::AlreadyExists)))
    }

    // Renames the file that is there, and makes an empty file in its place.
    fn set_aside<R: Files<File = File>>(&mut self, rt: &R, path: String) -> Result<File, Refusal> {
        let aside = self.free_name(rt, path.as_str())?;
        self.deeds.reserve(1)?;
        rt.rename(path.as_str(), aside.as_str())?;
        let file = open(rt, path.as_str(), true);
        add(&mut self.deeds, Deed::SetAside { path, aside })?;
        file
    }

    /// Returns an empty file of that name, or the pipe or character device that is there. A file with content
    /// is set aside first.
    pub fn give<'a, R: Files<File = File>>(
        &mut self,
        rt: &'a R,
        name: &[u8],
    ) -> Result<RealFile<'a, R>, Refusal>
        ensures { IfOk result (λ f. f ≡ 0) }
    {
        let entry = Entry::new(self.alloc, Arc::try_clone(&self.watch)?, name)?;
        let (file, kind) = self.open(rt, name)?;
        let name = name.to_vec(self.alloc)?;
        Ok(RealFile::new(rt, Some(entry), name, file, kind))
    }

    // Opens it, and returns its kind too.
    fn open<R: Files<File = File>>(
        &mut self,
        rt: &R,
        name: &[u8],
    ) -> Result<(File, Kind), Refusal> {
        let path = text(name)?;
        match rt.metadata(path) {
            Ok(there) if there.is_file() => Ok((self.empty(rt, name, &there)?, Kind::Regular)),
            Ok(there) => Ok((self.open_pipe(rt, name, &there)?, Kind::Pipe)),
            Err(error) if error.kind() == io::ErrorKind::NotFound => {
                Ok((self.make(rt, name)?, Kind::Regular))
            }
            Err(error) => Err(Refusal::System(error)),
        }
    }

    // Makes a file at a path without one.
    fn make<R: Files<File = File>>(&mut self, rt: &R, name: &[u8]) -> Result<File, Refusal> {
        let path = text(name)?;
        self.deeds.reserve(1)?;
        let is_link = rt.symlink_metadata(path).is_ok();
        let file = open(rt, path, false)?;
        match rt.canonicalize(self.alloc, path) {
            Ok(real) => {
                let path = real.into_string();
                add(&mut self.deeds, Deed::Made { path })?;
            }
            Err(error) => {
                if !is_link {
                    let _ = rt.remove_file(path);
                }
                return Err(Refusal::System(error));
            }
        }
        self.note(name, &file.metadata()?)?;
        Ok(file)
    }

    // Returns an empty file in place of the file that is there. A file with only a first part of FLV's header
    // counts as empty.
    fn empty<R: Files<File = File>>(
        &mut self,
        rt: &R,
        name: &[u8],
        there: &Metadata,
    ) -> Result<File, Refusal> {
        if let Some(words) = standard(rt, there) {
            return Err(Refusal::Standard { words });
        }
        self.note(name, there)?;
        self.deeds.reserve(1)?;
        let path = text(name)?;
        let file = open(rt, path, false)?;
        let real = rt.canonicalize(self.alloc, path)?.into_string();
        let len = file.metadata()?.len();
        if len == 0 {
            return Ok(file);
        }
        if is_header(rt, path).unwrap_or(false) {
            let len = len as usize;
            add(&mut self.deeds, Deed::Emptied { path: real, len })?;
            file.set_len(0)?;
            return Ok(file);
        }
        let file = self.set_aside(rt, real)?;
        self.note(name, &file.metadata()?)?;
        Ok(file)
    }

    // Opens a pipe or a character device, which is written as it is. A pipe is opened to be read too, since a
    // pipe without a reader would keep the server waiting.
    fn open_pipe<R: Files<File = File>>(
        &mut self,
        rt: &R,
        name: &[u8],
        there: &Metadata,
    ) -> Result<File, Refusal> {
        let kind = there.file_type();
        if !kind.is_fifo() && !kind.is_char_device() {
            return Err(Refusal::NoFile);
        }
        self.note(name, there)?;
        let mut how = OpenOptions::new();
        how.write(true).read(kind.is_fifo());
        Ok(how.open(rt, text(name)?)?)
    }

    /// Leaves all files as they were before the first was given.
    pub fn undo<R: Files<File = File>>(&mut self, rt: &R) {
        for _ in 0..self.deeds.len() {
            if let Some(deed) = self.deeds.pop() {
                let _ = take_back(rt, &deed);
            }
        }
    }
}
