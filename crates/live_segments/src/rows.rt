//! The segments that have ended.
ghost use Rattle.std.specs.Prelude.{◌≡◌, [], true, IfErr, OnOk, OnErr};
ghost use Rattle.live_segments.specs.declared.cut.CutFail.TheVariants.{TooMany};
ghost use Rattle.live_segments.specs.Steps.{first_mark, is_full, kept_of, kept_with, mark_of, most_with, pushed, IsWithin};

use crate::CutFail;
use crate::cutter::{Row, rounded, seconds_of};
use std::alloc::Global;
use std::marker::Model;

const MOST: u64 = 1 << 63;

/// The last rows, the number of rows that ended before them, the number of marked ones of those, and the target duration.
#[derive(Drop)]
pub(crate) struct Rows {
    last: Vec<Row>,
    first: u64,
    gone: u64,
    most: u64,
}

impl Model for Rows {
    ghost use Rattle.live_segments.specs.Steps.{IsWithin, Kept};

    ghost Value = { Kept };

    ghost view = { λ r. record { last = r.last.items; first = r.first; gone = r.gone; most = r.most } };

    ghost invariant = { λ r. IsWithin r.first };
}

fn mark_of(marked: bool) -> u64
    ensures { result ≡ mark_of marked }
{
    if marked { 1 } else { 0 }
}

fn first_mark(rows: &[Row]) -> u64
    ensures { result ≡ first_mark rows.now }
{
    match rows {
        [row, ..] => mark_of(row.marked),
        [] => 0,
    }
}

impl Rows {
    /// Creates one without rows.
    pub(crate) fn new(alloc: Global, target: u32, keep: usize) -> Rows
        ensures { result ≡ kept_of target keep [] }
    {
        Rows {
            last: Vec::new(alloc),
            first: 0,
            gone: 0,
            most: seconds_of(target),
        }
    }

    /// Takes one more row, and lets go of the oldest if there are more than `keep`.
    pub(crate) fn push(&mut self, keep: usize, row: Row) -> Result<(), CutFail>
        ensures ok { OnOk result (self.new ≡ pushed keep row self.old) }
        ensures full { IfErr result (λ e. e ≡ TooMany → is_full self.old ≡ true) }
        ensures same { OnErr result (self.new ≡ self.old) }
    {
        if self.first >= MOST || self.gone >= MOST {
            return Err(CutFail::TooMany);
        }
        let most = self.most.max(rounded(row.span));
        match self.last.push(row) {
            Ok(()) => {}
            Err(_) => return Err(CutFail::OutOfMemory),
        }
        if self.last.len() > keep {
            self.gone += first_mark(&self.last);
            self.first += 1;
            self.last.remove(0);
        }
        self.most = most;
        Ok(())
    }

    /// Takes the row of a segment, if one ended.
    pub(crate) fn take(&mut self, keep: usize, row: Option<Row>) -> Result<(), CutFail>
        ensures ok { OnOk result (self.new ≡ kept_with keep row self.old) }
        ensures full { IfErr result (λ e. e ≡ TooMany → is_full self.old ≡ true) }
        ensures same { OnErr result (self.new ≡ self.old) }
    {
        match row {
            Some(row) => self.push(keep, row),
            None => Ok(()),
        }
    }

    pub(crate) fn last(&self) -> &[Row]
        ensures { result.now ≡ self.now.last }
    {
        &self.last
    }

    pub(crate) fn first(&self) -> u64
        ensures is { result ≡ self.now.first }
        ensures within { IsWithin result }
    {
        self.first
    }

    pub(crate) fn gone(&self) -> u64
        ensures { result ≡ self.now.gone }
    {
        self.gone
    }

    /// Returns the target duration in seconds.
    pub(crate) fn most(&self) -> u64
        ensures { result ≡ self.now.most }
    {
        self.most
    }

    /// Returns the target duration with one more row, if there is one.
    pub(crate) fn most_with(&self, more: Option<Row>) -> u64
        ensures { result ≡ most_with self.now.most more }
    {
        match more {
            Some(row) => self.most.max(rounded(row.span)),
            None => self.most,
        }
    }
}
