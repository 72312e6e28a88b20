//! The times of segments.
ghost use Rattle.std.specs.Prelude.{◌≡◌, true, false, IfOk, IfErr, OnOk, OnErr, option_to_list};
ghost use Rattle.hls_segments.specs.declared.cut.Cut.TheVariants.{Next};
ghost use Rattle.hls_segments.specs.declared.cut.CutFail.TheVariants.{TooMany};
ghost use Rattle.hls_segments.specs.Cuts.{is_long, last_span, since};
ghost use Rattle.hls_segments.specs.Times.{cut_at, is_full, last_of, no_times, ticked};

use crate::{Cut, CutFail};
use std::alloc::Global;
use std::marker::Model;

/// The largest number of segments.
const MOST_SEGMENTS: usize = 100_000;

/// The times of the first and the last unit of a segment.
#[derive(Clone, Copy, Drop)]
pub(crate) struct Ends {
    first: u32,
    last: u32,
}

// Gives the difference between two times, modulo 2^32.
fn since(earlier: u32, later: u32) -> u32
    ensures { result ≡ since earlier later }
{
    later.wrapping_sub(earlier)
}

// Tells whether a difference is at least `least` and below 2^31, so no step back.
fn is_long(least: u32, long: u32) -> bool
    ensures { result ≡ is_long least long }
{
    least <= long && long < 1 << 31
}

impl Ends {
    // Gives the times of a segment of one unit.
    fn at(time: u32) -> Ends
        ensures { result ≡ record { first = time; last = time } }
    {
        Ends {
            first: time,
            last: time,
        }
    }

    // Gives the span of the last segment.
    fn last_span(self) -> u32
        ensures { result ≡ last_span self.first self.last }
    {
        let span = since(self.first, self.last);
        if span < 1 << 31 { span } else { 0 }
    }
}

/// The spans of the segments that another follows, and the times of the one that is being written.
#[derive(Drop)]
pub(crate) struct Times {
    spans: Vec<u32>,
    at: Option<Ends>,
}

impl Model for Times {
    ghost use Rattle.hls_segments.specs.Times.{Timed};

    ghost Value = { Timed };

    ghost view = { λ t. record { closed = t.spans.items; current = t.at } };
}

impl Times {
    /// Gives the times of no segment.
    pub(crate) fn new(alloc: Global) -> Times
        ensures { result ≡ no_times }
    {
        Times {
            spans: Vec::new(alloc),
            at: None,
        }
    }

    /// Takes the time of a unit, at which a segment may begin or not.
    pub(crate) fn tick(&mut self, least: u32, may: bool, time: u32) -> Result<Cut, CutFail>
        ensures cut { IfOk result (λ c. c ≡ cut_at least may time self.old) }
        ensures ticked { OnOk result (self.new ≡ ticked least may time self.old) }
        ensures room { IfOk result (λ c. c ≡ Next → is_full self.old ≡ false) }
        ensures full { IfErr result (λ e. e ≡ TooMany → (cut_at least may time self.old ≡ Next) × (is_full self.old ≡ true)) }
        ensures same { OnErr result (self.new ≡ self.old) }
    {
        let Some(ends) = self.at else {
            self.at = Some(Ends::at(time));
            return Ok(Cut::First);
        };
        let span = since(ends.first, time);
        if !(may && is_long(least, span)) {
            self.at = Some(Ends {
                first: ends.first,
                last: time,
            });
            return Ok(Cut::Same);
        }
        if self.spans.len() + 1 >= MOST_SEGMENTS {
            return Err(CutFail::TooMany);
        }
        match self.spans.push(span) {
            Ok(()) => {
                self.at = Some(Ends::at(time));
                Ok(Cut::Next)
            }
            Err(_) => Err(CutFail::OutOfMemory),
        }
    }

    /// Gives the spans of the segments that another follows, the oldest first.
    pub(crate) fn closed(&self) -> &[u32]
        ensures { result.now ≡ self.now.closed }
    {
        &self.spans
    }

    /// Gives the span of the segment that is being written.
    pub(crate) fn last_span(&self) -> Option<u32>
        ensures { option_to_list result ≡ last_of self.now.current }
    {
        match self.at {
            Some(ends) => Some(ends.last_span()),
            None => None,
        }
    }
}
