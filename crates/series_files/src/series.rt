//! A series of files in a folder, with its listing.
ghost use Rattle.std.specs.Prelude.{◌≡◌, None, IfOk};
ghost use Rattle.relay_outside.specs.Counts.{Rose};
ghost use Rattle.file_series.specs.declared.series.SeriesFail.TheVariants.{Failed};

use file_series::{FileSeries, SeriesFail};
use std::alloc::{AllocError, Global};
use std::fs::{File, Files};
use std::io::{Eprint, Write};
use std::marker::Model;
use std::{io, str};

/// A series of the files `NAME-0.ts`, `NAME-1.ts` and so on, with the listing `NAME.m3u8`. Former files of these names are replaced.
///
/// A file or a listing is written under its name with `.part` behind it, and gets its name once it is whole and on the disk. A
/// reader therefore never sees a part of one. A file that was made here is removed once it has left the listing, and as many
/// further files have ended as the listing names, and one more. If all files stay listed, none is removed.
///
/// The series reports on standard error why a file or a listing couldn't be written.
#[derive(Drop)]
pub struct RealSeries<'a, R> {
    rt: &'a R,
    alloc: Global,
    name: Vec<u8>,
    // The number of files that a listing names at most, or `None` for all.
    listed: Option<u64>,
    // The number of files that have ended.
    count: u64,
    last: Option<File>,
    failed: u64,
}

impl<'a, R> Model for RealSeries<'a, R> {
    ghost use Rattle.std.specs.Prelude.{ℕ};

    ghost Value = { ℕ };

    ghost view = { λ s. s.failed };
}

// Returns a name as text.
fn text(name: &[u8]) -> io::Result<&str> {
    match str::from_utf8(name) {
        Ok(text) => Ok(text),
        Err(_) => Err(io::Error::from(io::ErrorKind::InvalidInput)),
    }
}

// Returns the name of the file with a number.
fn file_name(alloc: Global, name: &[u8], number: u64) -> io::Result<String> {
    let name = text(name)?;
    Ok(format!(in alloc; "{name}-{number}.ts")?)
}

// Returns the name that a file has until it is whole.
fn unfinished(alloc: Global, name: &str) -> io::Result<String> {
    Ok(format!(in alloc; "{name}.part")?)
}

impl<'a, R: Files<File = File> + Eprint> RealSeries<'a, R> {
    /// Creates a series of that name without files. A listing names the last `listed` files that have ended, or all of them if
    /// that is `None`.
    pub fn new(
        rt: &'a R,
        alloc: Global,
        name: &[u8],
        listed: Option<u64>,
    ) -> Result<RealSeries<'a, R>, AllocError>
        ensures { IfOk result (λ s. s ≡ 0) }
    {
        Ok(RealSeries {
            rt,
            alloc,
            name: name.to_vec(alloc)?,
            listed,
            count: 0,
            last: None,
            failed: 0,
        })
    }

    // Makes the next file, which is empty.
    fn make(&self) -> io::Result<File> {
        let name = file_name(self.alloc, self.name.as_slice(), self.count)?;
        if let Ok(there) = self.rt.metadata(name.as_str()) {
            if there.is_dir() {
                return Err(io::Error::from(io::ErrorKind::IsADirectory));
            }
        }
        let part = unfinished(self.alloc, name.as_str())?;
        File::create(self.rt, part.as_str())
    }

    // Gives the open file its name, once its bytes are on the disk.
    fn finish(&self, file: File) -> io::Result<()> {
        file.sync_all()?;
        drop(file);
        let name = file_name(self.alloc, self.name.as_slice(), self.count)?;
        let part = unfinished(self.alloc, name.as_str())?;
        self.rt.rename(part.as_str(), name.as_str())
    }

    // Replaces the listing.
    fn list(&self, listing: &[u8]) -> io::Result<()> {
        let name = text(self.name.as_slice())?;
        let name = format!(in self.alloc; "{name}.m3u8")?;
        let part = unfinished(self.alloc, name.as_str())?;
        let mut file = File::create(self.rt, part.as_str())?;
        file.write_all(listing)?;
        file.sync_all()?;
        drop(file);
        self.rt.rename(part.as_str(), name.as_str())
    }

    // Removes the file that has left the listing for long enough, if there is one.
    fn forget(&self) {
        let Some(listed) = self.listed else {
            return;
        };
        let kept = listed.saturating_mul(2).saturating_add(1);
        if self.count <= kept {
            return;
        }
        if let Ok(name) = file_name(self.alloc, self.name.as_slice(), self.count - 1 - kept) {
            let _ = self.rt.remove_file(name.as_str());
        }
    }

    /// Removes the file that was begun and hasn't ended, if there is one.
    pub fn clear(&mut self)
        ensures { self.new ≡ self.old }
    {
        if self.last.take().is_some() {
            if let Ok(name) = file_name(self.alloc, self.name.as_slice(), self.count) {
                if let Ok(part) = unfinished(self.alloc, name.as_str()) {
                    let _ = self.rt.remove_file(part.as_str());
                }
            }
        }
    }

    // Reports an error, and counts it.
    fn fail(&mut self, error: &io::Error) -> SeriesFail
        ensures is { result ≡ Failed }
        ensures rose { Rose self.old self.new }
    {
        if let Ok(name) = text(self.name.as_slice()) {
            let _ = eprintln!(self.rt; "relay: {name}: {error}");
        }
        self.failed = self.failed.saturating_add(1);
        SeriesFail::Failed
    }
}

impl<R: Files<File = File> + Eprint> FileSeries for RealSeries<'_, R> {
    ghost told = { λ _. None };

    ghost faults = { λ s. s };

    fn put(&mut self, piece: &[u8]) -> Result<(), SeriesFail> {
        if self.last.is_none() {
            match self.make() {
                Ok(file) => self.last = Some(file),
                Err(error) => return Err(self.fail(&error)),
            }
        }
        let written = match &mut self.last {
            Some(file) => file.write_all(piece),
            None => Ok(()),
        };
        match written {
            Ok(()) => Ok(()),
            Err(error) => Err(self.fail(&error)),
        }
    }

    fn next(&mut self, listing: Option<&[u8]>) -> Result<(), SeriesFail> {
        let Some(file) = self.last.take() else {
            return Ok(());
        };
        if let Err(error) = self.finish(file) {
            return Err(self.fail(&error));
        }
        self.count = self.count.saturating_add(1);
        if let Some(listing) = listing {
            if let Err(error) = self.list(listing) {
                return Err(self.fail(&error));
            }
        }
        self.forget();
        Ok(())
    }
}
