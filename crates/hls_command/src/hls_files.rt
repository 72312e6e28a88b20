ghost use Rattle.std.specs.Prelude.{◌≡◌, ◌↔◌, [], None, Some, map, IfOk, MatchResult};
ghost use Rattle.live_segments.specs.Known.{Known};
ghost use Rattle.hls_command.specs.Outcome.{Outcome, past_of, seen};
ghost use Rattle.hls_command.specs.Parts.{Fits, IsCut, IsPartCut, asked_by, fail_status, status_of};
ghost use Rattle.hls_command.specs.Words.{Asked, asked, asked_of};

use crate::film::Film;
use crate::stop::End;
use crate::whole::cut_film;
use crate::words::asked_of;
use av_unit::{Bytes, Item};
use file_series::{FileSeries, SeriesFail};
use flv_tags::TagReader;
use live_segments::{CutFail, LiveSegmenter};
use relay_base::Status;
use relay_outside::Source;
use std::alloc::Global;

// A film of which nothing was read. A broadcast begins.
fn begin_film(alloc: Global, target: u32, keep: usize) -> Result<Film, CutFail>
    ensures fits { IfOk result (λ f. Fits f.reader f.segmenter) }
    ensures fresh { IfOk result (λ f. f.reader.fed ≡ []) }
    ensures asked { IfOk result (λ f. (f.segmenter.target ≡ target) × (f.segmenter.keep ≡ keep)) }
    ensures none { IfOk result (λ f. f.segmenter.past ≡ past_of []) }
{
    let mut text = Bytes::new(alloc);
    let mut segmenter = LiveSegmenter::new(alloc, target, keep);
    segmenter.item(&Item::Begin, &mut text)?;
    Ok(Film {
        reader: TagReader::new(alloc),
        segmenter,
    })
}

fn status_of(end: End, some_out: bool) -> Status
    ensures { result ≡ status_of end some_out }
{
    match end {
        End::Whole => Status {
            code: if some_out { 8 } else { 0 },
            place: 0,
        },
        End::Refused { at } => Status { code: 4, place: at },
        End::SourceFault => Status { code: 3, place: 0 },
    }
}

fn fail_status(fail: SeriesFail) -> Status
    ensures { result ≡ fail_status fail }
{
    match fail {
        SeriesFail::Failed => Status { code: 5, place: 0 },
        SeriesFail::OutOfMemory => Status { code: 6, place: 0 },
    }
}

// Cuts a film.
fn cut<S: Source, F: FileSeries>(
    alloc: Global,
    name: &[u8],
    film: &mut Film,
    input: &mut S,
    series: &mut F,
) -> Result<Status, SeriesFail>
    requires fits { Fits film.old.reader film.old.segmenter }
    requires fresh { film.old.reader.fed ≡ [] }
    requires none { film.old.segmenter.past ≡ past_of [] }
    ensures { MatchResult result
        (λ status. IsCut (asked_by name.now film.old.segmenter) status
        (seen (S.left input.old) (F.told series.old) (S.faults input.old) (F.faults series.old))
        (seen (S.left input.new) (F.told series.new) (S.faults input.new) (F.faults series.new)))
        (λ fail. IsPartCut (asked_by name.now film.old.segmenter) fail
        (seen (S.left input.old) (F.told series.old) (S.faults input.old) (F.faults series.old))
        (seen (S.left input.new) (F.told series.new) (S.faults input.new) (F.faults series.new))) }
{
    match cut_film(alloc, name, film, input, series) {
        Ok(end) => Ok(status_of(end, film.segmenter.left_out())),
        Err(fail) => Err(fail),
    }
}

// Cuts a film into files of that name.
fn cut_named<S: Source, F: FileSeries>(
    alloc: Global,
    name: &[u8],
    target: u32,
    keep: usize,
    input: &mut S,
    series: &mut F,
) -> Status
    ensures { Outcome (asked name.now target keep)
        (seen (S.left input.old) (F.told series.old) (S.faults input.old) (F.faults series.old))
        (seen (S.left input.new) (F.told series.new) (S.faults input.new) (F.faults series.new)) result }
{
    let Ok(mut film) = begin_film(alloc, target, keep) else {
        return fail_status(SeriesFail::OutOfMemory);
    };
    match cut(alloc, name, &mut film, input, series) {
        Ok(status) => status,
        Err(fail) => fail_status(fail),
    }
}

/// Cuts a film of FLV into segments of a transport stream (ISO/IEC 13818-1): a file of the series for each. As each file ends, the
/// listing of the series is replaced by the playlist of those that have ended (RFC 8216).
///
/// The words are `hls NAME MS LAST`. NAME has 1 to 64 letters, digits, `.`, `_` or `-`, and the playlist names the files `NAME-0.ts`,
/// `NAME-1.ts` and so on. MS is the target of a segment's span, a number of milliseconds from 1 to 3,600,000. The playlist lists the
/// last LAST segments that have ended, from 1 to 1,000, or all if LAST is 0. At the end the last file ends too, and the playlist
/// says that no more come. [`live_segments::LiveSegmenter`] says where the film is cut, and what follows a step back in time. The
/// answer's code tells how it ended:
///
/// | Code | Comes | Written |
/// |---|---|---|
/// | 0 | the film was read to its end, and no unit was left out | all files, and a playlist as each of them ended |
/// | 2 | exactly if the words are others; nothing is read | nothing |
/// | 3 | only if the source's faults rose | the files and the playlists of the tags that were read |
/// | 4 | the film is refused at `place`: at that of [`flv_tags::FlvFail`], or at 2^36 if it has more bytes | the files and the playlists of the tags before |
/// | 5 | only if the series' faults rose | a part of what tags give that were read |
/// | 6 | for want of memory | the same |
/// | 8 | as 0, but a unit of audio or video was left out | all files, and a playlist as each of them ended |
///
/// `place` is 0 but for code 4. A film in which no segment begins makes no file and no playlist.
pub fn hls<S: Source, F: FileSeries>(
    alloc: Global,
    words: &[Vec<u8>],
    input: &mut S,
    series: &mut F,
) -> Status
    ensures words { (result.code ≡ 2) ↔ (asked_of (map (λ w. w.items) words.now) ≡ None) }
    ensures untouched { result.code ≡ 2 → (input.new ≡ input.old) × (series.new ≡ series.old) }
    ensures outcome { (a : Asked) → asked_of (map (λ w. w.items) words.now) ≡ Some a → Outcome a
        (seen (S.left input.old) (F.told series.old) (S.faults input.old) (F.faults series.old))
        (seen (S.left input.new) (F.told series.new) (S.faults input.new) (F.faults series.new)) result }
{
    let Some((name, target, keep)) = asked_of(words) else {
        return Status { code: 2, place: 0 };
    };
    cut_named(alloc, name, target, keep, input, series)
}
