ghost use Rattle.std.specs.Prelude.{◌≡◌, ◌++◌, Some, None, IfErr, IfOk, OnErr, OnOk, length, option_and_then, option_copied, option_map, slice_get};
ghost use Rattle.file_series.specs.Series.{ended_with, last_bytes, none_yet};
ghost use Rattle.file_series.specs.declared.series.SeriesFail.TheVariants.{OutOfMemory};

use crate::calls::Calls;
use crate::{FileSeries, SeriesFail};
use std::alloc::{AllocFailed, Global};
use std::marker::Model;

// A file that has ended, with its listing.
#[derive(Drop)]
struct MemEnded {
    bytes: Vec<u8>,
    listing: Option<Vec<u8>>,
}

impl Model for MemEnded {
    ghost use Rattle.std.specs.Prelude.{option_map};
    ghost use Rattle.file_series.specs.Series.{Ended};

    ghost Value = { Ended };

    ghost view = { λ e. record { bytes = e.bytes.items; listing = option_map (λ l. l.items) e.listing } };
}

/// A series in memory. It tells its files.
///
/// A call that doesn't fail does all that it is asked for, or answers that it is out of memory and changes nothing but its count.
#[derive(Drop)]
pub struct MemSeries {
    alloc: Global,
    ended: Vec<MemEnded>,
    last: Option<Vec<u8>>,
    made: Calls,
}

impl Model for MemSeries {
    ghost use Rattle.std.specs.Prelude.{option_map};
    ghost use Rattle.file_series.specs.Memory.{MemSeriesState};

    ghost Value = { MemSeriesState };

    ghost view = { λ s. record {
      files = record { ended = s.ended.items; last = option_map (λ l. l.items) s.last };
      count = s.made;
    } };
}

// A copy of a listing.
fn copied(alloc: Global, listing: Option<&[u8]>) -> Result<Option<Vec<u8>>, SeriesFail>
    ensures copy { IfOk result (λ copy. option_map (λ l. l.items) copy ≡ option_copied listing.entry) }
    ensures cause { IfErr result (λ fail. fail ≡ OutOfMemory) }
{
    match listing {
        Some(text) => match text.to_vec(alloc) {
            Ok(copy) => Ok(Some(copy)),
            Err(_) => Err(SeriesFail::OutOfMemory),
        },
        None => Ok(None),
    }
}

impl MemSeries {
    /// Makes a series without files. `fails` has the numbers, from 0, of the calls that fail.
    pub fn new(alloc: Global, fails: Vec<u64>) -> MemSeries
        ensures { result ≡ record { files = none_yet; count = record { fails = fails.items; calls = 0; faults = 0 } } }
    {
        MemSeries {
            alloc,
            ended: Vec::new(alloc),
            last: None,
            made: Calls::new(fails),
        }
    }

    /// Returns the number of files that have ended.
    pub fn len(&self) -> usize
        ensures { result ≡ length self.now.files.ended }
    {
        self.ended.len()
    }

    /// Returns the bytes of the ended file at this place, from 0. `None` exactly if there is none.
    pub fn file(&self, place: usize) -> Option<&[u8]>
        ensures { option_copied result ≡ option_map (λ e. e.bytes) (slice_get self.now.files.ended place) }
    {
        match self.ended.get(place) {
            Some(file) => Some(file.bytes.as_slice()),
            None => None,
        }
    }

    /// Returns the listing that was given as the file at this place ended. `None` exactly if there is no such file, or none was
    /// given.
    pub fn listing(&self, place: usize) -> Option<&[u8]>
        ensures { option_copied result ≡ option_and_then (λ e. e.listing) (slice_get self.now.files.ended place) }
    {
        match self.ended.get(place) {
            Some(file) => match &file.listing {
                Some(text) => Some(text.as_slice()),
                None => None,
            },
            None => None,
        }
    }

    /// Returns the number of its calls that have failed. The count stands still at the last value of a u64.
    pub fn faults(&self) -> u64
        ensures { result ≡ self.now.count.faults }
    {
        self.made.failed()
    }
}

// Adds the bytes to the open file, or opens one with them.
fn put_bytes(alloc: Global, last: &mut Option<Vec<u8>>, piece: &[u8]) -> Result<(), SeriesFail>
    ensures all { OnOk result (option_map (λ l. l.items) last.new ≡ Some (last_bytes (option_map (λ l. l.items) last.old) ++ piece.now)) }
    ensures none { OnErr result (option_map (λ l. l.items) last.new ≡ option_map (λ l. l.items) last.old) }
    ensures cause { IfErr result (λ fail. fail ≡ OutOfMemory) }
{
    match last {
        Some(bytes) => match bytes.extend_from_slice(piece) {
            Ok(()) => Ok(()),
            Err(_) => Err(SeriesFail::OutOfMemory),
        },
        None => match piece.to_vec(alloc) {
            Ok(bytes) => {
                *last = Some(bytes);
                Ok(())
            }
            Err(_) => Err(SeriesFail::OutOfMemory),
        },
    }
}

// Ends the open file with a listing, if there is one.
fn end_last(
    ended: &mut Vec<MemEnded>,
    last: &mut Option<Vec<u8>>,
    listing: Option<Vec<u8>>,
) -> Result<(), SeriesFail>
    ensures all { OnOk result (ended.new.items ≡ ended_with (option_map (λ l. l.items) listing) ended.old.items (option_map (λ l. l.items) last.old)) }
    ensures gone { OnOk result (option_map (λ l. l.items) last.new ≡ None) }
    ensures none { OnErr result ((ended.new.items ≡ ended.old.items) × (option_map (λ l. l.items) last.new ≡ option_map (λ l. l.items) last.old)) }
    ensures cause { IfErr result (λ fail. fail ≡ OutOfMemory) }
{
    match last.take() {
        Some(bytes) => match ended.push(MemEnded { bytes, listing }) {
            Ok(()) => Ok(()),
            Err(refused) => {
                let AllocFailed { value } = refused;
                let MemEnded { bytes, listing } = value;
                *last = Some(bytes);
                drop(listing);
                Err(SeriesFail::OutOfMemory)
            }
        },
        None => Ok(()),
    }
}

impl FileSeries for MemSeries {
    ghost told = { λ s. Some s.files };

    ghost faults = { λ s. s.count.faults };

    fn put(&mut self, piece: &[u8]) -> Result<(), SeriesFail> {
        if self.made.fails_next() {
            return Err(SeriesFail::Failed);
        }
        put_bytes(self.alloc, &mut self.last, piece)
    }

    fn next(&mut self, listing: Option<&[u8]>) -> Result<(), SeriesFail> {
        if self.made.fails_next() {
            return Err(SeriesFail::Failed);
        }
        let listing = copied(self.alloc, listing)?;
        end_last(&mut self.ended, &mut self.last, listing)
    }
}
