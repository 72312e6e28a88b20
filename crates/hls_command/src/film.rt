//! A film that is being cut.
ghost use Rattle.std.specs.Prelude.{◌≡◌, ◌≤◌, ◌<◌, ◌+◌, ◌++◌, ◌^◌, None, length, take, reverse, MatchResult, OnErr, OnOk, IfOk};
ghost use Rattle.file_commands.specs.Remux.{items_of};
ghost use Rattle.live_segments.specs.Known.{given};
ghost use Rattle.hls_command.specs.Parts.{Breaks, Fits, IsEndedBy, IsReadSo, ItemBreaks, SeriesSeen, Stands, StepEnds, Stops, TagBreaks, asked_by, series_seen};

use crate::stop::Stop;
use crate::write::write;
use av_unit::{Bytes, Item, UnitArc, unit_of};
use file_series::{FileSeries, SeriesFail};
use flv_tags::{Tag, TagFed, TagReader};
use live_segments::LiveSegmenter;
use std::alloc::Global;

/// A film: what was read of it, and how it is cut.
#[derive(Drop)]
pub(crate) struct Film {
    pub(crate) reader: TagReader,
    pub(crate) segmenter: LiveSegmenter,
}

// Cuts an item, and writes its bytes. A segmenter that has 2^63 segments behind it counts as one without memory: 2^36 bytes of
// film don't have as many.
fn cut_item<F: FileSeries>(
    alloc: Global,
    name: &[u8],
    segmenter: &mut LiveSegmenter,
    series: &mut F,
    item: &Item,
) -> Result<(), SeriesFail>
    requires lives { segmenter.old.failed ≡ None }
    ensures known { OnOk result (segmenter.new ≡ given segmenter.old item.now) }
    ensures same { asked_by name.now segmenter.new ≡ asked_by name.now segmenter.old }
    ensures part { OnErr result (ItemBreaks segmenter.old segmenter.new item.now) }
    ensures goes { (start : SeriesSeen) → Stands name.now segmenter.old start (series_seen (F.told series.old) (F.faults series.old))
        → MatchResult result (λ _. Stands name.now segmenter.new start (series_seen (F.told series.new) (F.faults series.new)))
        (Breaks name.now segmenter.new start (series_seen (F.told series.new) (F.faults series.new))) }
{
    let mut text = Bytes::new(alloc);
    match segmenter.item(item, &mut text) {
        Ok(cut) => write(alloc, name, &*segmenter, cut, text.as_slice(), series),
        Err(_) => Err(SeriesFail::OutOfMemory),
    }
}

// Cuts the unit of a tag, if it has a class.
fn cut_tag<F: FileSeries>(
    alloc: Global,
    name: &[u8],
    segmenter: &mut LiveSegmenter,
    series: &mut F,
    tag: Tag,
) -> Result<(), SeriesFail>
    requires lives { segmenter.old.failed ≡ None }
    requires fits { length tag.body ≤ 4194304 }
    ensures past { OnOk result (segmenter.new.past ≡ reverse (items_of tag) ++ segmenter.old.past) }
    ensures lives { OnOk result (segmenter.new.failed ≡ None) }
    ensures same { asked_by name.now segmenter.new ≡ asked_by name.now segmenter.old }
    ensures part { OnErr result (TagBreaks segmenter.old segmenter.new tag) }
    ensures goes { (start : SeriesSeen) → Stands name.now segmenter.old start (series_seen (F.told series.old) (F.faults series.old))
        → MatchResult result (λ _. Stands name.now segmenter.new start (series_seen (F.told series.new) (F.faults series.new)))
        (Breaks name.now segmenter.new start (series_seen (F.told series.new) (F.faults series.new))) }
{
    let Tag { kind, time, body } = tag;
    match unit_of(kind, time, body, 0) {
        Some(unit) => match UnitArc::new(alloc, unit) {
            Ok(unit) => cut_item(alloc, name, segmenter, series, &Item::Unit(unit)),
            Err(_) => Err(SeriesFail::OutOfMemory),
        },
        None => Ok(()),
    }
}

/// Takes bytes of a piece up to the end of a tag, and cuts the tag.
pub(crate) fn step<F: FileSeries>(
    alloc: Global,
    name: &[u8],
    film: &mut Film,
    series: &mut F,
    piece: &[u8],
) -> Result<usize, Stop>
    requires fits { Fits film.old.reader film.old.segmenter }
    requires some { 0 < length piece.now }
    requires near { length film.old.reader.fed + length piece.now ≤ 2 ^ 36 }
    ensures fits { OnOk result (Fits film.new.reader film.new.segmenter) }
    ensures same { asked_by name.now film.new.segmenter ≡ asked_by name.now film.old.segmenter }
    ensures fed { IfOk result (λ used. (0 < used) × (used ≤ length piece.now) × (film.new.reader.fed ≡ film.old.reader.fed ++ take used piece.now)) }
    ensures goes { (start : SeriesSeen) → Stands name.now film.old.segmenter start (series_seen (F.told series.old) (F.faults series.old))
        → MatchResult result (λ _. Stands name.now film.new.segmenter start (series_seen (F.told series.new) (F.faults series.new)))
        (Stops (IsEndedBy StepEnds (film.old.reader.fed ++ piece.now) film.new.segmenter.past)
        (IsReadSo (film.old.reader.fed ++ piece.now) film.new.segmenter.past)
        (Stands name.now film.new.segmenter start (series_seen (F.told series.new) (F.faults series.new)))
        (Breaks name.now film.new.segmenter start (series_seen (F.told series.new) (F.faults series.new)))) }
{
    match film.reader.feed(alloc, piece) {
        Ok(TagFed { used, tag: None }) => Ok(used),
        Ok(
            TagFed {
                used,
                tag: Some(tag),
            },
        ) => {
            cut_tag(alloc, name, &mut film.segmenter, series, tag)?;
            Ok(used)
        }
        Err(fail) => Err(Stop::from(fail)),
    }
}
