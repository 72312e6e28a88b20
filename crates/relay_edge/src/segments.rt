//! A house for the files of segments.
ghost use Rattle.std.specs.Prelude.{◌≡◌, None, IfOk};

use crate::door::RealDoor;
use crate::file::{Kind, RealFile};
use crate::names::text;
use crate::rest::RealRest;
use crate::shown::say;
use relay_outside::House;
use std::alloc::{AllocError, Global};
use std::fs::{File, Files};
use std::io;
use std::io::Eprint;
use std::marker::Model;

/// The suffix of a file's name until the file is whole.
const UNFINISHED: &[u8; 5] = b".part";

// Returns the name that a file has until it is whole.
fn unfinished(alloc: Global, name: &[u8]) -> io::Result<Vec<u8>> {
    let mut part = name.to_vec(alloc)?;
    part.extend_from_slice(UNFINISHED)?;
    Ok(part)
}

/// A house of files alone. A file is written under its name with `.part` behind it, and gets its name once it
/// is kept without faults. The name therefore always has the whole file or its former content. A file with
/// faults is removed, and a file that isn't kept is removed by [`SegmentHouse::clear`]. The house reports on
/// standard error why a file couldn't be had or kept.
///
/// A name that is a directory can't be had. If a whole file can't be given its name for another cause,
/// keeping it is refused. Then [`SegmentHouse::is_short`] is true, since a house has no other way to report
/// it.
#[derive(Drop)]
pub struct SegmentHouse<'a, R> {
    rt: &'a R,
    alloc: Global,
    failed: u64,
    spoilt: u64,
    short: bool,
    // The name of a file that was made and isn't whole.
    part: Option<Vec<u8>>,
}

impl<'a, R> Model for SegmentHouse<'a, R> {
    ghost use Rattle.std.specs.Prelude.{None};
    ghost use Rattle.relay_outside.specs.Houses.{HouseTold};

    ghost Value = { HouseTold };

    ghost view = { λ h. record { faults = h.failed; spoiled = h.spoilt; kept = None; shut = None } };
}

impl<'a, R: Files<File = File> + Eprint> SegmentHouse<'a, R> {
    /// Creates a house that has given nothing.
    pub fn new(rt: &'a R, alloc: Global) -> SegmentHouse<'a, R>
        ensures { result ≡ record { faults = 0; spoiled = 0; kept = None; shut = None } }
    {
        SegmentHouse {
            rt,
            alloc,
            failed: 0,
            spoilt: 0,
            short: false,
            part: None,
        }
    }

    /// Returns whether a whole file couldn't be given its name.
    pub fn is_short(&self) -> bool {
        self.short
    }

    // Makes a file that is empty, under its name until it is whole.
    fn make(&mut self, name: &[u8]) -> io::Result<RealFile<'a, R>>
        ensures new { IfOk result (λ f. f ≡ 0) }
        ensures same { self.new ≡ self.old }
    {
        if let Ok(there) = self.rt.metadata(text(name)?) {
            if there.is_dir() {
                return Err(io::Error::from(io::ErrorKind::IsADirectory));
            }
        }
        let part = unfinished(self.alloc, name)?;
        let name = name.to_vec(self.alloc)?;
        let file = File::create(self.rt, text(part.as_slice())?)?;
        self.part = Some(part);
        Ok(RealFile::new(self.rt, None, name, file, Kind::Regular))
    }

    // Gives a whole file its name, in place of any former file, once its bytes are on the disk.
    fn finish(&self, name: &[u8], file: RealFile<'a, R>) -> io::Result<()> {
        file.sync()?;
        drop(file);
        let part = unfinished(self.alloc, name)?;
        self.rt.rename(text(part.as_slice())?, text(name)?)
    }

    /// Removes the file that was given and not kept, if there is one.
    pub fn clear(&mut self)
        ensures { self.new ≡ self.old }
    {
        if let Some(part) = self.part.take() {
            if let Ok(part) = text(part.as_slice()) {
                let _ = self.rt.remove_file(part);
            }
        }
    }
}

impl<'a, R: Files<File = File> + Eprint + Sync> House for SegmentHouse<'a, R> {
    type Door = RealDoor;

    type Rest = RealRest;

    type File = RealFile<'a, R>;

    ghost told = { λ h. h };

    ghost asked = { λ _. None };

    ghost named = { λ _. None };

    fn door(&mut self, _worker: u32, _listen: &[u8], _accept: u32) -> Option<RealDoor> {
        self.failed = self.failed.saturating_add(1);
        None
    }

    fn rest(&mut self, _worker: u32) -> Option<RealRest> {
        self.failed = self.failed.saturating_add(1);
        None
    }

    fn file(&mut self, name: &[u8]) -> Option<RealFile<'a, R>> {
        match self.make(name) {
            Ok(file) => Some(file),
            Err(error) => {
                say(self.rt, name, &error);
                self.failed = self.failed.saturating_add(1);
                None
            }
        }
    }

    fn keep(&mut self, name: &[u8], file: RealFile<'a, R>) -> Result<(), AllocError> {
        if file.error().is_some() {
            self.clear();
            self.spoilt = self.spoilt.saturating_add(1);
            return Ok(());
        }
        match self.finish(name, file) {
            Ok(()) => {
                self.part = None;
                Ok(())
            }
            Err(error) => {
                say(self.rt, name, &error);
                self.clear();
                self.short = true;
                Err(AllocError)
            }
        }
    }

    fn shut(&mut self, _worker: u32, door: RealDoor) -> Result<(), AllocError> {
        let _ = &self.alloc;
        drop(door);
        Ok(())
    }
}
