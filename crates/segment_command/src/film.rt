//! A film that is being cut.
ghost use Rattle.std.specs.Prelude.{◌≡◌, ◌≤◌, ◌<◌, ◌+◌, ◌++◌, ◌^◌, ℕ, List, length, take, reverse, MatchResult, OnOk, IfOk};
ghost use Rattle.std.specs.Option.{option_map};
ghost use Rattle.relay_outside.specs.Houses.{HouseTold};
ghost use Rattle.file_commands.specs.Remux.{items_of};
ghost use Rattle.hls_segments.specs.Known.{given};
ghost use Rattle.segment_command.specs.Shelves.{StandsBy, file_seen};
ghost use Rattle.segment_command.specs.Parts.{Fits, GoesOn, IsEndedBy, IsReadSo, ItemBreaks, ItemEnds, StepEnds, Stops, TagBreaks, TagEnds, list_of};

use crate::shelf::{Pending, begin, put_some, turn};
use crate::stop::Stop;
use av_unit::{Item, UnitArc, unit_of};
use flv_tags::{Tag, TagFed, TagReader};
use hls_segments::{Cut, Segmenter};
use relay_outside::House;
use std::alloc::Global;

/// A film: the part that was read of it, the cut, and the pending bytes.
#[derive(Drop)]
pub(crate) struct Film {
    pub(crate) reader: TagReader,
    pub(crate) segmenter: Segmenter,
    pub(crate) pending: Pending,
}

// Cuts an item, whose bytes are pending then.
fn cut_item<H: House>(
    alloc: Global,
    name: &[u8],
    segmenter: &mut Segmenter,
    pending: &mut Pending,
    house: &mut H,
    file: &mut Option<H::File>,
    item: &Item,
) -> Result<(), Stop>
    requires cuts { GoesOn segmenter.old }
    ensures known { OnOk result (segmenter.new ≡ given segmenter.old item.now) }
    ensures same { segmenter.new.least ≡ segmenter.old.least }
    ensures cuts { OnOk result (GoesOn segmenter.new) }
    ensures goes { (start : HouseTold) → StandsBy name.now (list_of segmenter.old) pending.old
        (option_map (λ f. file_seen (H.File.holds f) (H.File.faults f)) file.old) start (H.told house.old)
        → MatchResult result (λ _. StandsBy name.now (list_of segmenter.new) pending.new
        (option_map (λ f. file_seen (H.File.holds f) (H.File.faults f)) file.new) start (H.told house.new))
        (λ stop. Stops (ItemEnds segmenter.old segmenter.new item.now) (ItemBreaks segmenter.old segmenter.new item.now) stop name.now segmenter.new pending.new
        (option_map (λ f. file_seen (H.File.holds f) (H.File.faults f)) file.new) start (H.told house.new)) }
{
    let before = pending.text.len();
    match segmenter.item(item, &mut pending.text) {
        Ok(Cut::First) => {
            begin(alloc, name, pending, house, file)?;
            Ok(())
        }
        Ok(Cut::Next) => {
            turn(alloc, name, pending, house, file, before)?;
            Ok(())
        }
        Ok(Cut::Same) => {
            put_some(pending, file)?;
            Ok(())
        }
        Ok(Cut::Nothing) => Ok(()),
        Err(fail) => Err(Stop::from(fail)),
    }
}

// Cuts the unit of a tag, if it has a class.
fn cut_tag<H: House>(
    alloc: Global,
    name: &[u8],
    segmenter: &mut Segmenter,
    pending: &mut Pending,
    house: &mut H,
    file: &mut Option<H::File>,
    tag: Tag,
) -> Result<(), Stop>
    requires cuts { GoesOn segmenter.old }
    requires fits { length tag.body ≤ 4194304 }
    ensures past { OnOk result (segmenter.new.past ≡ reverse (items_of tag) ++ segmenter.old.past) }
    ensures same { segmenter.new.least ≡ segmenter.old.least }
    ensures cuts { OnOk result (GoesOn segmenter.new) }
    ensures goes { (start : HouseTold) → StandsBy name.now (list_of segmenter.old) pending.old
        (option_map (λ f. file_seen (H.File.holds f) (H.File.faults f)) file.old) start (H.told house.old)
        → MatchResult result (λ _. StandsBy name.now (list_of segmenter.new) pending.new
        (option_map (λ f. file_seen (H.File.holds f) (H.File.faults f)) file.new) start (H.told house.new))
        (λ stop. Stops (TagEnds segmenter.old segmenter.new tag) (TagBreaks segmenter.old segmenter.new tag) stop name.now segmenter.new pending.new
        (option_map (λ f. file_seen (H.File.holds f) (H.File.faults f)) file.new) start (H.told house.new)) }
{
    let Tag { kind, time, body } = tag;
    match unit_of(kind, time, body, 0) {
        Some(unit) => {
            let item = Item::Unit(UnitArc::new(alloc, unit)?);
            cut_item(alloc, name, segmenter, pending, house, file, &item)
        }
        None => Ok(()),
    }
}

/// Takes bytes of a piece up to the end of a tag, and cuts the tag.
pub(crate) fn step<H: House>(
    alloc: Global,
    name: &[u8],
    film: &mut Film,
    house: &mut H,
    file: &mut Option<H::File>,
    piece: &[u8],
) -> Result<usize, Stop>
    requires fits { Fits film.old.reader film.old.segmenter }
    requires some { 0 < length piece.now }
    requires near { length film.old.reader.fed + length piece.now ≤ 2 ^ 36 }
    ensures fits { OnOk result (Fits film.new.reader film.new.segmenter) }
    ensures same { film.new.segmenter.least ≡ film.old.segmenter.least }
    ensures fed { IfOk result (λ used. (0 < used) × (used ≤ length piece.now) × (film.new.reader.fed ≡ film.old.reader.fed ++ take used piece.now)) }
    ensures goes { (start : HouseTold) → StandsBy name.now (list_of film.old.segmenter) film.old.pending
        (option_map (λ f. file_seen (H.File.holds f) (H.File.faults f)) file.old) start (H.told house.old)
        → MatchResult result (λ _. StandsBy name.now (list_of film.new.segmenter) film.new.pending
        (option_map (λ f. file_seen (H.File.holds f) (H.File.faults f)) file.new) start (H.told house.new))
        (λ stop. Stops (IsEndedBy (StepEnds film.new.segmenter.least) (film.old.reader.fed ++ piece.now) film.new.segmenter.past)
        (IsReadSo (film.old.reader.fed ++ piece.now) film.new.segmenter.past) stop name.now film.new.segmenter film.new.pending
        (option_map (λ f. file_seen (H.File.holds f) (H.File.faults f)) file.new) start (H.told house.new)) }
{
    match film.reader.feed(alloc, piece) {
        Ok(TagFed { used, tag: None }) => Ok(used),
        Ok(
            TagFed {
                used,
                tag: Some(tag),
            },
        ) => {
            cut_tag(
                alloc,
                name,
                &mut film.segmenter,
                &mut film.pending,
                house,
                file,
                tag,
            )?;
            Ok(used)
        }
        Err(fail) => Err(Stop::from(fail)),
    }
}
