//! Reading a film to its end.
ghost use Rattle.std.specs.Prelude.{◌≡◌, ◌≤◌, ◌<◌, ◌+◌, ◌++◌, ◌^◌, [], length, MatchResult, OnOk};
ghost use Rattle.hls_command.specs.declared.stop.End.TheVariants.{Whole};
ghost use Rattle.hls_command.specs.Parts.{Breaks, FileEnds, Finishes, Fits, IsEndedBy, IsEndedSo, IsPartRead, IsReadSo, SeriesSeen, Stands, StepEnds, Stops, TakeEnds, asked_by, series_seen};

use crate::film::{Film, step};
use crate::stop::{End, Stop, ended};
use crate::write::turn;
use file_series::{FileSeries, SeriesFail};
use relay_outside::{Got, Source};
use std::alloc::Global;

/// The number of bytes of a film that are read at most.
const MOST_BYTES: u64 = 1 << 36;

/// The number of bytes that are asked of a source at a time.
const PIECE: usize = 65_536;

// Cuts a piece.
fn take_piece<F: FileSeries>(
    alloc: Global,
    name: &[u8],
    film: &mut Film,
    series: &mut F,
    piece: &[u8],
) -> Result<(), Stop>
    requires fits { Fits film.old.reader film.old.segmenter }
    requires near { length film.old.reader.fed + length piece.now ≤ 2 ^ 36 }
    ensures fits { OnOk result (Fits film.new.reader film.new.segmenter) }
    ensures same { asked_by name.now film.new.segmenter ≡ asked_by name.now film.old.segmenter }
    ensures fed { OnOk result (film.new.reader.fed ≡ film.old.reader.fed ++ piece.now) }
    ensures goes { (start : SeriesSeen) → Stands name.now film.old.segmenter start (series_seen (F.told series.old) (F.faults series.old))
        → MatchResult result (λ _. Stands name.now film.new.segmenter start (series_seen (F.told series.new) (F.faults series.new)))
        (Stops (IsEndedBy StepEnds (film.old.reader.fed ++ piece.now) film.new.segmenter.past)
        (IsReadSo (film.old.reader.fed ++ piece.now) film.new.segmenter.past)
        (Stands name.now film.new.segmenter start (series_seen (F.told series.new) (F.faults series.new)))
        (Breaks name.now film.new.segmenter start (series_seen (F.told series.new) (F.faults series.new)))) }
{
    let mut left = piece;
    while !left.is_empty() {
        let used = step(alloc, name, film, series, left)?;
        left = &left[used..];
    }
    Ok(())
}

// Cuts a piece, or the part of it that is read, if that number of bytes stands before it.
fn take_within<F: FileSeries>(
    alloc: Global,
    name: &[u8],
    film: &mut Film,
    series: &mut F,
    place: u64,
    piece: &[u8],
) -> Result<(), Stop>
    requires fits { Fits film.old.reader film.old.segmenter }
    requires place { place ≡ length film.old.reader.fed }
    requires near { place ≤ 2 ^ 36 }
    ensures fits { OnOk result (Fits film.new.reader film.new.segmenter) }
    ensures same { asked_by name.now film.new.segmenter ≡ asked_by name.now film.old.segmenter }
    ensures near { OnOk result (place + length piece.now ≤ 2 ^ 36) }
    ensures fed { OnOk result (film.new.reader.fed ≡ film.old.reader.fed ++ piece.now) }
    ensures goes { (start : SeriesSeen) → Stands name.now film.old.segmenter start (series_seen (F.told series.old) (F.faults series.old))
        → MatchResult result (λ _. Stands name.now film.new.segmenter start (series_seen (F.told series.new) (F.faults series.new)))
        (Stops (IsEndedBy TakeEnds (film.old.reader.fed ++ piece.now) film.new.segmenter.past)
        (IsReadSo (film.old.reader.fed ++ piece.now) film.new.segmenter.past)
        (Stands name.now film.new.segmenter start (series_seen (F.told series.new) (F.faults series.new)))
        (Breaks name.now film.new.segmenter start (series_seen (F.told series.new) (F.faults series.new)))) }
{
    let room = MOST_BYTES - place;
    if piece.len() as u64 <= room {
        return take_piece(alloc, name, film, series, piece);
    }
    take_piece(alloc, name, film, series, &piece[..room as usize])?;
    Err(Stop::Ended(End::Refused { at: MOST_BYTES }))
}

// Ends a film that was read.
fn end(film: &Film) -> Result<(), Stop>
    requires fits { Fits film.now.reader film.now.segmenter }
    ensures { FileEnds result film.now.reader.fed film.now.reader.given }
{
    match film.reader.finish() {
        Ok(()) => Ok(()),
        Err(fail) => Err(Stop::from(fail)),
    }
}

// Reads a film to its end, with that piece at a time.
fn read_all<S: Source, F: FileSeries>(
    alloc: Global,
    name: &[u8],
    film: &mut Film,
    piece: &mut [u8],
    input: &mut S,
    series: &mut F,
) -> Result<(), Stop>
    requires fits { Fits film.old.reader film.old.segmenter }
    requires fresh { film.old.reader.fed ≡ [] }
    requires room { 0 < length piece.old }
    ensures same { asked_by name.now film.new.segmenter ≡ asked_by name.now film.old.segmenter }
    ensures ends { (start : SeriesSeen) → Stands name.now film.old.segmenter start (series_seen (F.told series.old) (F.faults series.old))
        → MatchResult result (λ _. IsEndedSo (S.left input.old) (S.left input.new) (S.faults input.old) (S.faults input.new) film.new.segmenter.past Whole
        × Stands name.now film.new.segmenter start (series_seen (F.told series.new) (F.faults series.new)))
        (Stops (IsEndedSo (S.left input.old) (S.left input.new) (S.faults input.old) (S.faults input.new) film.new.segmenter.past)
        (IsPartRead (S.left input.old) (S.left input.new) film.new.segmenter.past)
        (Stands name.now film.new.segmenter start (series_seen (F.told series.new) (F.faults series.new)))
        (Breaks name.now film.new.segmenter start (series_seen (F.told series.new) (F.faults series.new)))) }
{
    let mut place = 0u64;
    loop {
        match input.get(piece) {
            Got::Bytes(count) => {
                take_within(alloc, name, film, series, place, &piece[..count])?;
                place += count as u64;
            }
            Got::End => return end(film),
            Got::Failed => return Err(Stop::Ended(End::SourceFault)),
        }
    }
}

// Reads a film to where it ends.
fn read_film<S: Source, F: FileSeries>(
    alloc: Global,
    name: &[u8],
    film: &mut Film,
    input: &mut S,
    series: &mut F,
) -> Result<End, SeriesFail>
    requires fits { Fits film.old.reader film.old.segmenter }
    requires fresh { film.old.reader.fed ≡ [] }
    ensures same { asked_by name.now film.new.segmenter ≡ asked_by name.now film.old.segmenter }
    ensures ends { (start : SeriesSeen) → Stands name.now film.old.segmenter start (series_seen (F.told series.old) (F.faults series.old))
        → MatchResult result (λ end. IsEndedSo (S.left input.old) (S.left input.new) (S.faults input.old) (S.faults input.new) film.new.segmenter.past end
        × Stands name.now film.new.segmenter start (series_seen (F.told series.new) (F.faults series.new)))
        (λ fail. IsPartRead (S.left input.old) (S.left input.new) film.new.segmenter.past
        × Breaks name.now film.new.segmenter start (series_seen (F.told series.new) (F.faults series.new)) fail) }
{
    let Ok(mut piece) = vec![in alloc; 0u8; PIECE] else {
        return Err(SeriesFail::OutOfMemory);
    };
    ended(read_all(alloc, name, film, &mut piece, input, series))
}

/// Cuts a film to where it ends, and ends its last file.
pub(crate) fn cut_film<S: Source, F: FileSeries>(
    alloc: Global,
    name: &[u8],
    film: &mut Film,
    input: &mut S,
    series: &mut F,
) -> Result<End, SeriesFail>
    requires fits { Fits film.old.reader film.old.segmenter }
    requires fresh { film.old.reader.fed ≡ [] }
    ensures same { asked_by name.now film.new.segmenter ≡ asked_by name.now film.old.segmenter }
    ensures ends { (start : SeriesSeen) → Stands name.now film.old.segmenter start (series_seen (F.told series.old) (F.faults series.old))
        → MatchResult result (λ end. IsEndedSo (S.left input.old) (S.left input.new) (S.faults input.old) (S.faults input.new) film.new.segmenter.past end
        × Finishes name.now film.new.segmenter start (series_seen (F.told series.new) (F.faults series.new)))
        (λ fail. IsPartRead (S.left input.old) (S.left input.new) film.new.segmenter.past
        × Breaks name.now film.new.segmenter start (series_seen (F.told series.new) (F.faults series.new)) fail) }
{
    let end = read_film(alloc, name, film, input, series)?;
    turn(alloc, name, &film.segmenter, true, series)?;
    Ok(end)
}
