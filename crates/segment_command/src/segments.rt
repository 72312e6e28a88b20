ghost use Rattle.std.specs.Prelude.{◌≡◌, ◌↔◌, ℕ, List, [], None, Some, map, IfErr, IfOk, OnOk, MatchResult};
ghost use Rattle.std.specs.Option.{option_map};
ghost use Rattle.std.specs.Io.KnownBytes.{append_known};
ghost use Rattle.file_commands.specs.Outcome.{seen};
ghost use Rattle.put_text.specs.Written.{WritesPart};
ghost use Rattle.hls_segments.specs.Cuts.{segments};
ghost use Rattle.hls_segments.specs.Playlist.{playlist};
ghost use Rattle.segment_command.specs.Outcome.{Outcome, past_of};
ghost use Rattle.segment_command.specs.Shelves.{PutCause};
ghost use Rattle.segment_command.specs.Parts.{Fits, IsCut, IsPartCut, fault_status, status_of};
ghost use Rattle.segment_command.specs.Words.{Asked, asked, asked_of};

use crate::film::Film;
use crate::put::put_all;
use crate::shelf::{Pending, hand_over};
use crate::stop::{End, Fault};
use crate::whole::cut_film;
use crate::words::asked_of;
use av_unit::{Bytes, Item};
use flv_tags::TagReader;
use hls_segments::{CutFail, Segmenter};
use relay_base::Status;
use relay_outside::{House, Sink, Source};
use std::alloc::Global;

// A film of which nothing was read. A broadcast begins.
fn begin_film(alloc: Global, least: u32) -> Result<Film, CutFail>
    ensures fits { IfOk result (λ f. Fits f.reader f.segmenter) }
    ensures fresh { IfOk result (λ f. (f.reader.fed ≡ []) × (f.segmenter.least ≡ least)) }
    ensures none { IfOk result (λ f. (f.pending.text ≡ []) × (f.pending.count ≡ 0) × (f.segmenter.past ≡ past_of [])) }
{
    let mut text = Bytes::new(alloc);
    let mut segmenter = Segmenter::new(alloc, least);
    segmenter.item(&Item::Begin, &mut text)?;
    Ok(Film {
        reader: TagReader::new(alloc),
        segmenter,
        pending: Pending {
            text,
            title: Bytes::new(alloc),
            count: 0,
        },
    })
}

// Writes the playlist.
fn write_list<K: Sink>(
    alloc: Global,
    name: &[u8],
    segmenter: &Segmenter,
    out: &mut K,
) -> Result<(), Fault>
    ensures list { MatchResult result
        (λ _. K.holds out.new ≡ append_known (K.holds out.old) (playlist name.now (segments segmenter.now.least segmenter.now.past)))
        (λ _. WritesPart (playlist name.now (segments segmenter.now.least segmenter.now.past)) (K.holds out.old) (K.holds out.new)) }
    ensures faults { MatchResult result (λ _. K.faults out.new ≡ K.faults out.old) (λ fault. PutCause fault (K.faults out.old) (K.faults out.new)) }
{
    let mut list = Bytes::new(alloc);
    segmenter.playlist(alloc, name, &mut list)?;
    put_all(out, list.as_slice())
}

fn status_of(end: End, some_out: bool) -> Status
    ensures { result ≡ status_of end some_out }
{
    match end {
        End::Whole => Status {
            code: if some_out { 8 } else { 0 },
            place: 0,
        },
        End::Refused { at } => Status { code: 4, place: at },
        End::TooMany => Status { code: 9, place: 0 },
        End::SourceFault => Status { code: 3, place: 0 },
    }
}

fn fault_status(fault: Fault) -> Status
    ensures { result ≡ fault_status fault }
{
    match fault {
        Fault::Sink => Status { code: 5, place: 0 },
        Fault::House => Status { code: 7, place: 0 },
        Fault::Memory => Status { code: 6, place: 0 },
    }
}

// Cuts a film, and writes its playlist.
fn cut<S: Source, H: House, K: Sink>(
    alloc: Global,
    name: &[u8],
    film: &mut Film,
    input: &mut S,
    house: &mut H,
    out: &mut K,
) -> Result<Status, Fault>
    requires fits { Fits film.old.reader film.old.segmenter }
    requires fresh { film.old.reader.fed ≡ [] }
    requires none { (film.old.pending.text ≡ []) × (film.old.pending.count ≡ 0) × (film.old.segmenter.past ≡ past_of []) }
    ensures { MatchResult result
        (λ status. IsCut (asked name.now film.old.segmenter.least) status
        (seen (S.left input.old) (K.holds out.old) (S.faults input.old) (K.faults out.old))
        (seen (S.left input.new) (K.holds out.new) (S.faults input.new) (K.faults out.new)) (H.told house.old) (H.told house.new))
        (λ fault. IsPartCut (asked name.now film.old.segmenter.least) fault
        (seen (S.left input.old) (K.holds out.old) (S.faults input.old) (K.faults out.old))
        (seen (S.left input.new) (K.holds out.new) (S.faults input.new) (K.faults out.new)) (H.told house.old) (H.told house.new)) }
{
    let mut file = None;
    match cut_film(alloc, name, film, input, house, &mut file) {
        Ok(end) => {
            write_list(alloc, name, &film.segmenter, out)?;
            Ok(status_of(end, film.segmenter.left_out()))
        }
        Err(fault) => Err(hand_over(house, film.pending.title.as_slice(), file, fault)),
    }
}

// Cuts a film into files of that name.
fn cut_named<S: Source, H: House, K: Sink>(
    alloc: Global,
    name: &[u8],
    least: u32,
    input: &mut S,
    house: &mut H,
    out: &mut K,
) -> Status
    ensures { Outcome (asked name.now least)
        (seen (S.left input.old) (K.holds out.old) (S.faults input.old) (K.faults out.old))
        (seen (S.left input.new) (K.holds out.new) (S.faults input.new) (K.faults out.new)) (H.told house.old) (H.told house.new) result }
{
    let Ok(mut film) = begin_film(alloc, least) else {
        return fault_status(Fault::Memory);
    };
    match cut(alloc, name, &mut film, input, house, out) {
        Ok(status) => status,
        Err(fault) => fault_status(fault),
    }
}

/// Cuts a film of FLV into segments of a transport stream (ISO/IEC 13818-1): a file of the house for each,
/// and their playlist (RFC 8216).
///
/// The words are `segment NAME T`. NAME has 1 to 64 letters, digits, `.`, `_` or `-`, and the files are
/// `NAME-0.ts`, `NAME-1.ts` and on from there. T is a number from 1 to 3,600,000: each segment but the last
/// spans at least T milliseconds. The text of all files is that of `remux`. The answer's code tells how it
/// ended:
///
/// | Code | Comes | Written |
/// |---|---|---|
/// | 0 | the film was read to its end, and no unit was left out | all files and the playlist |
/// | 2 | exactly if the words are others; nothing is read | nothing |
/// | 3 | only if the source's faults rose | the files and the playlist of the tags that were read |
/// | 4 | the film is refused at `place`: at that of [`flv_tags::FlvFail`], or at 2^36 if it has more bytes | the files and the playlist of the tags before |
/// | 5 | only if the sink's faults or the number of spoiled files rose | a first part of the text of the tags that were read |
/// | 6 | for want of memory | the same |
/// | 7 | only if the house's faults rose | the same, and nothing of the playlist |
/// | 8 | as 0, but a unit of audio or video was left out | all files and the playlist |
/// | 9 | exactly if a unit would begin a 100,001st segment | the files and the playlist of the tags before |
///
/// `place` is 0 but for code 4. A file that isn't whole is handed to the house if it has faults, and else
/// to nobody. A first part is the first of the files. It may have one file more, with faults, that has
/// first bytes of the next. Of the playlist it has nothing, or first bytes if all files are whole.
pub fn segment<S: Source, H: House, K: Sink>(
    alloc: Global,
    words: &[Vec<u8>],
    input: &mut S,
    house: &mut H,
    out: &mut K,
) -> Status
    ensures words { (result.code ≡ 2) ↔ (asked_of (map (λ w. w.items) words.now) ≡ None) }
    ensures untouched { result.code ≡ 2 → (input.new ≡ input.old) × (house.new ≡ house.old) × (out.new ≡ out.old) }
    ensures outcome { (a : Asked) → asked_of (map (λ w. w.items) words.now) ≡ Some a → Outcome a
        (seen (S.left input.old) (K.holds out.old) (S.faults input.old) (K.faults out.old))
        (seen (S.left input.new) (K.holds out.new) (S.faults input.new) (K.faults out.new)) (H.told house.old) (H.told house.new) result }
{
    let Some((name, least)) = asked_of(words) else {
        return Status { code: 2, place: 0 };
    };
    cut_named(alloc, name, least, input, house, out)
}
