//! What is written into the series.
ghost use Rattle.std.specs.Prelude.{◌≡◌, ◌⊎◌, Some, MatchResult, option_map, true, false};
ghost use Rattle.file_series.specs.Series.{Cause, NextFails, PutsPart, after_next, took};
ghost use Rattle.hls_command.specs.Written.{CutPart, listing, with_cut};
ghost use Rattle.hls_command.specs.Parts.{asked_by};

use av_unit::Bytes;
use file_series::{FileSeries, SeriesFail};
use live_segments::{Cut, LiveSegmenter};
use std::alloc::Global;

/// Ends the open file, and writes the listing.
pub(crate) fn turn<F: FileSeries>(
    alloc: Global,
    name: &[u8],
    segmenter: &LiveSegmenter,
    ended: bool,
    series: &mut F,
) -> Result<(), SeriesFail>
    ensures told { MatchResult result
        (λ _. F.told series.new ≡ option_map (after_next (Some (listing (asked_by name.now segmenter.now) segmenter.now.past ended))) (F.told series.old))
        (λ _. NextFails (F.told series.old) (F.told series.new)) }
    ensures faults { MatchResult result (λ _. F.faults series.new ≡ F.faults series.old) (λ fail. Cause fail (F.faults series.old) (F.faults series.new)) }
{
    let mut list = Bytes::new(alloc);
    match segmenter.listing(alloc, name, ended, &mut list) {
        Ok(()) => series.next(Some(list.as_slice())),
        Err(_) => Err(SeriesFail::OutOfMemory),
    }
}

// Ends the open file, and begins the next with the bytes.
fn put_next<F: FileSeries>(
    alloc: Global,
    name: &[u8],
    segmenter: &LiveSegmenter,
    text: &[u8],
    series: &mut F,
) -> Result<(), SeriesFail>
    ensures told { MatchResult result
        (λ _. F.told series.new ≡ option_map (took text.now)
        (option_map (after_next (Some (listing (asked_by name.now segmenter.now) segmenter.now.past false))) (F.told series.old)))
        (λ _. NextFails (F.told series.old) (F.told series.new)
        ⊎ PutsPart text.now (option_map (after_next (Some (listing (asked_by name.now segmenter.now) segmenter.now.past false))) (F.told series.old))
        (F.told series.new)) }
    ensures faults { MatchResult result (λ _. F.faults series.new ≡ F.faults series.old) (λ fail. Cause fail (F.faults series.old) (F.faults series.new)) }
{
    turn(alloc, name, segmenter, false, series)?;
    series.put(text)
}

/// Writes the bytes of an item, by what it does to the segments.
pub(crate) fn write<F: FileSeries>(
    alloc: Global,
    name: &[u8],
    segmenter: &LiveSegmenter,
    cut: Cut,
    text: &[u8],
    series: &mut F,
) -> Result<(), SeriesFail>
    ensures told { MatchResult result
        (λ _. F.told series.new ≡ option_map (with_cut cut text.now (listing (asked_by name.now segmenter.now) segmenter.now.past false)) (F.told series.old))
        (λ _. CutPart cut text.now (listing (asked_by name.now segmenter.now) segmenter.now.past false) (F.told series.old) (F.told series.new)) }
    ensures faults { MatchResult result (λ _. F.faults series.new ≡ F.faults series.old) (λ fail. Cause fail (F.faults series.old) (F.faults series.new)) }
{
    match cut {
        Cut::First => series.put(text),
        Cut::Next => put_next(alloc, name, segmenter, text, series),
        Cut::Marked => put_next(alloc, name, segmenter, text, series),
        Cut::Same => series.put(text),
        Cut::Nothing => Ok(()),
    }
}
