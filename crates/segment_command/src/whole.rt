//! Reading a film to its end.
ghost use Rattle.std.specs.Prelude.{◌≡◌, ◌≤◌, ◌<◌, ◌+◌, ◌++◌, ◌^◌, ℕ, List, [], length, MatchResult, OnOk};
ghost use Rattle.std.specs.Option.{option_map};
ghost use Rattle.relay_outside.specs.Houses.{HouseTold};
ghost use Rattle.segment_command.specs.declared.stop.End.TheVariants.{Whole};
ghost use Rattle.segment_command.specs.Shelves.{AreKept, Breaks, StandsBy, file_seen};
ghost use Rattle.segment_command.specs.Parts.{CutSource, FileEnds, Fits, IsEndedBy, IsEndedSo, IsPartRead, IsReadSo, StepEnds, Stops, TakeEnds, list_of};

use crate::film::{Film, step};
use crate::shelf::end_last;
use crate::stop::{End, Fault, Stop, ended};
use relay_outside::{Got, House, Source};
use std::alloc::Global;

/// How many bytes of a film are read at most.
const MOST_BYTES: u64 = 1 << 36;

/// How many bytes are asked of a source at a time.
const PIECE: usize = 65_536;

// Cuts a piece.
fn take_piece<H: House>(
    alloc: Global,
    name: &[u8],
    film: &mut Film,
    house: &mut H,
    file: &mut Option<H::File>,
    piece: &[u8],
) -> Result<(), Stop>
    requires fits { Fits film.old.reader film.old.segmenter }
    requires near { length film.old.reader.fed + length piece.now ≤ 2 ^ 36 }
    ensures fits { OnOk result (Fits film.new.reader film.new.segmenter) }
    ensures same { film.new.segmenter.least ≡ film.old.segmenter.least }
    ensures fed { OnOk result (film.new.reader.fed ≡ film.old.reader.fed ++ piece.now) }
    ensures goes { (start : HouseTold) → StandsBy name.now (list_of film.old.segmenter) film.old.pending
        (option_map (λ f. file_seen (H.File.holds f) (H.File.faults f)) file.old) start (H.told house.old)
        → MatchResult result (λ _. StandsBy name.now (list_of film.new.segmenter) film.new.pending
        (option_map (λ f. file_seen (H.File.holds f) (H.File.faults f)) file.new) start (H.told house.new))
        (λ stop. Stops (IsEndedBy (StepEnds film.new.segmenter.least) (film.old.reader.fed ++ piece.now) film.new.segmenter.past)
        (IsReadSo (film.old.reader.fed ++ piece.now) film.new.segmenter.past) stop name.now film.new.segmenter film.new.pending
        (option_map (λ f. file_seen (H.File.holds f) (H.File.faults f)) file.new) start (H.told house.new)) }
{
    let mut left = piece;
    while !left.is_empty() {
        let used = step(alloc, name, film, house, file, left)?;
        left = &left[used..];
    }
    Ok(())
}

// Cuts the part of a piece that may be read, by the number of the film's bytes before it.
fn take_within<H: House>(
    alloc: Global,
    name: &[u8],
    film: &mut Film,
    house: &mut H,
    file: &mut Option<H::File>,
    place: u64,
    piece: &[u8],
) -> Result<(), Stop>
    requires fits { Fits film.old.reader film.old.segmenter }
    requires place { place ≡ length film.old.reader.fed }
    requires near { place ≤ 2 ^ 36 }
    ensures fits { OnOk result (Fits film.new.reader film.new.segmenter) }
    ensures same { film.new.segmenter.least ≡ film.old.segmenter.least }
    ensures near { OnOk result (place + length piece.now ≤ 2 ^ 36) }
    ensures fed { OnOk result (film.new.reader.fed ≡ film.old.reader.fed ++ piece.now) }
    ensures goes { (start : HouseTold) → StandsBy name.now (list_of film.old.segmenter) film.old.pending
        (option_map (λ f. file_seen (H.File.holds f) (H.File.faults f)) file.old) start (H.told house.old)
        → MatchResult result (λ _. StandsBy name.now (list_of film.new.segmenter) film.new.pending
        (option_map (λ f. file_seen (H.File.holds f) (H.File.faults f)) file.new) start (H.told house.new))
        (λ stop. Stops (IsEndedBy (TakeEnds film.new.segmenter.least) (film.old.reader.fed ++ piece.now) film.new.segmenter.past)
        (IsReadSo (film.old.reader.fed ++ piece.now) film.new.segmenter.past) stop name.now film.new.segmenter film.new.pending
        (option_map (λ f. file_seen (H.File.holds f) (H.File.faults f)) file.new) start (H.told house.new)) }
{
    let room = MOST_BYTES - place;
    if piece.len() as u64 <= room {
        return take_piece(alloc, name, film, house, file, piece);
    }
    take_piece(alloc, name, film, house, file, &piece[..room as usize])?;
    Err(Stop::Ended(End::Refused { at: MOST_BYTES }))
}

// Ends a film that was read.
fn end(film: &Film) -> Result<(), Stop>
    requires fits { Fits film.now.reader film.now.segmenter }
    ensures { FileEnds result film.now.reader.fed film.now.reader.given }
{
    match film.reader.finish() {
        Ok(()) => Ok(()),
        Err(fail) => Err(Stop::from(fail)),
    }
}

// Reads a film to its end, with that piece at a time.
fn read_all<S: Source, H: House>(
    alloc: Global,
    name: &[u8],
    film: &mut Film,
    piece: &mut [u8],
    input: &mut S,
    house: &mut H,
    file: &mut Option<H::File>,
) -> Result<(), Stop>
    requires fits { Fits film.old.reader film.old.segmenter }
    requires fresh { film.old.reader.fed ≡ [] }
    requires room { 0 < length piece.old }
    ensures same { film.new.segmenter.least ≡ film.old.segmenter.least }
    ensures ends { (start : HouseTold) → StandsBy name.now (list_of film.old.segmenter) film.old.pending
        (option_map (λ f. file_seen (H.File.holds f) (H.File.faults f)) file.old) start (H.told house.old)
        → MatchResult result (λ _. IsEndedSo film.new.segmenter.least (S.left input.old) (S.left input.new) (S.faults input.old) (S.faults input.new) film.new.segmenter.past Whole
        × StandsBy name.now (list_of film.new.segmenter) film.new.pending
        (option_map (λ f. file_seen (H.File.holds f) (H.File.faults f)) file.new) start (H.told house.new))
        (λ stop. Stops (IsEndedSo film.new.segmenter.least (S.left input.old) (S.left input.new) (S.faults input.old) (S.faults input.new) film.new.segmenter.past)
        (IsPartRead (S.left input.old) (S.left input.new) film.new.segmenter.past × (S.faults input.new ≡ S.faults input.old)) stop name.now film.new.segmenter film.new.pending
        (option_map (λ f. file_seen (H.File.holds f) (H.File.faults f)) file.new) start (H.told house.new)) }
{
    let mut place = 0u64;
    loop {
        match input.get(piece) {
            Got::Bytes(count) => {
                take_within(alloc, name, film, house, file, place, &piece[..count])?;
                place += count as u64;
            }
            Got::End => return end(film),
            Got::Failed => return Err(Stop::Ended(End::SourceFault)),
        }
    }
}

// Reads a film to its end.
fn read_film<S: Source, H: House>(
    alloc: Global,
    name: &[u8],
    film: &mut Film,
    input: &mut S,
    house: &mut H,
    file: &mut Option<H::File>,
) -> Result<End, Fault>
    requires fits { Fits film.old.reader film.old.segmenter }
    requires fresh { film.old.reader.fed ≡ [] }
    ensures same { film.new.segmenter.least ≡ film.old.segmenter.least }
    ensures ends { (start : HouseTold) → StandsBy name.now (list_of film.old.segmenter) film.old.pending
        (option_map (λ f. file_seen (H.File.holds f) (H.File.faults f)) file.old) start (H.told house.old)
        → MatchResult result (λ end. IsEndedSo film.new.segmenter.least (S.left input.old) (S.left input.new) (S.faults input.old) (S.faults input.new) film.new.segmenter.past end
        × StandsBy name.now (list_of film.new.segmenter) film.new.pending
        (option_map (λ f. file_seen (H.File.holds f) (H.File.faults f)) file.new) start (H.told house.new))
        (λ fault. (IsPartRead (S.left input.old) (S.left input.new) film.new.segmenter.past × (S.faults input.new ≡ S.faults input.old))
        × Breaks fault name.now (list_of film.new.segmenter) film.new.pending.title
        (option_map (λ f. file_seen (H.File.holds f) (H.File.faults f)) file.new) start (H.told house.new)) }
{
    let Ok(mut piece) = vec![in alloc; 0u8; PIECE] else {
        return Err(Fault::Memory);
    };
    ended(read_all(alloc, name, film, &mut piece, input, house, file))
}

/// Cuts a film to its end, and ends its last file.
pub(crate) fn cut_film<S: Source, H: House>(
    alloc: Global,
    name: &[u8],
    film: &mut Film,
    input: &mut S,
    house: &mut H,
    file: &mut Option<H::File>,
) -> Result<End, Fault>
    requires fits { Fits film.old.reader film.old.segmenter }
    requires fresh { film.old.reader.fed ≡ [] }
    ensures same { film.new.segmenter.least ≡ film.old.segmenter.least }
    ensures ends { (start : HouseTold) → StandsBy name.now (list_of film.old.segmenter) film.old.pending
        (option_map (λ f. file_seen (H.File.holds f) (H.File.faults f)) file.old) start (H.told house.old)
        → MatchResult result (λ end. IsEndedSo film.new.segmenter.least (S.left input.old) (S.left input.new) (S.faults input.old) (S.faults input.new) film.new.segmenter.past end
        × AreKept name.now (list_of film.new.segmenter) start (H.told house.new))
        (λ fault. IsPartRead (S.left input.old) (S.left input.new) film.new.segmenter.past × CutSource fault (S.faults input.old) (S.faults input.new)
        × Breaks fault name.now (list_of film.new.segmenter) film.new.pending.title
        (option_map (λ f. file_seen (H.File.holds f) (H.File.faults f)) file.new) start (H.told house.new)) }
{
    let end = read_film(alloc, name, film, input, house, file)?;
    end_last(
        house,
        film.pending.title.as_slice(),
        file,
        film.pending.text.as_slice(),
    )?;
    Ok(end)
}
