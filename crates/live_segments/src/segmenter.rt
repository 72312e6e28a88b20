//! Cutting a live stream.
ghost use Rattle.std.specs.Prelude.{◌≡◌, ◌||◌, ◌++◌, List, ℕ, true, false, None, Some, Ok, Err, IfOk, IfErr, OnOk, OnErr, length};
ghost use Rattle.live_segments.specs.declared.cut.CutFail.{CutFail as AFail};
ghost use Rattle.live_segments.specs.declared.cut.CutFail.TheVariants.{TooMany};
ghost use Rattle.ts_writer.specs.Known.{given as writer_given};
ghost use Rattle.ts_writer.specs.Text.{item_text, wrote_of};
ghost use Rattle.hls_segments.specs.Opens.{has_tables, is_read, opens, pictures_after, pictures_by};
ghost use Rattle.live_segments.specs.Ways.{is_sound};
ghost use Rattle.live_segments.specs.Live.{cut_of, is_lost, item_bytes, kept_text, live, some_lost};
ghost use Rattle.live_segments.specs.Known.{fresh, given, refused};
ghost use Rattle.live_segments.specs.Listing.{playlist};
ghost use Rattle.live_segments.specs.Full.{is_too_many};
ghost use Rattle.live_segments.specs.Steps.{is_full, item_cut, item_moved, item_row, kept_listing, kept_with, open_if, renewed};

use crate::cutter::{Cutter, Row};
use crate::listing::put_list;
use crate::rows::Rows;
use crate::{Cut, CutFail};
use av_unit::{Bytes, Item, Kind, OutOfMemory};
use past::History;
use std::alloc::Global;
use std::marker::Model;
use ts_writer::{TsWriter, Wrote};

// Whether a text begins with the packet of an association table (ISO/IEC 13818-1, 2.4.3.2). The byte behind the first has the
// start bit and the highest bits of the PID.
fn has_tables(text: &[u8]) -> bool
    ensures { result ≡ has_tables text.now }
{
    match text {
        [_, second, ..] => *second == 0x40,
        _ => false,
    }
}

// Whether a segment may begin at a unit of that kind with that text.
fn opens(kind: Kind, pictures: bool, text: &[u8]) -> bool
    ensures { result ≡ opens kind pictures text.now }
{
    match kind {
        Kind::Key => true,
        Kind::Audio => !pictures && has_tables(text),
        Kind::Meta | Kind::VConfig | Kind::AConfig | Kind::Inter | Kind::Spare | Kind::Data =>
            false,
    }
}

fn is_sound(kind: Kind) -> bool
    ensures { result ≡ is_sound kind }
{
    match kind {
        Kind::Audio => true,
        Kind::Meta
        | Kind::VConfig
        | Kind::AConfig
        | Kind::Key
        | Kind::Inter
        | Kind::Spare
        | Kind::Data => false,
    }
}

fn is_read(wrote: Wrote) -> bool
    ensures { result ≡ is_read wrote }
{
    match wrote {
        Wrote::Nothing => true,
        Wrote::Unit | Wrote::LeftOut(_) => false,
    }
}

fn pictures_by(kind: Kind, before: bool, wrote: Wrote) -> bool
    ensures { result ≡ pictures_by kind before wrote }
{
    match kind {
        Kind::VConfig => is_read(wrote),
        Kind::Meta
        | Kind::AConfig
        | Kind::Key
        | Kind::Inter
        | Kind::Spare
        | Kind::Audio
        | Kind::Data => before,
    }
}

// Whether the tables list video after an item.
fn pictures_after(before: bool, item: &Item, wrote: Wrote) -> bool
    ensures { result ≡ pictures_after before item.now wrote }
{
    match item {
        Item::Begin => false,
        Item::Unit(shared) => pictures_by(shared.unit().kind, before, wrote),
        Item::End => before,
    }
}

// What an item does to the open segment, the answer, and the row of the segment that ends with it.
fn step(
    cutter: Cutter,
    target: u32,
    pictures: bool,
    item: &Item,
    wrote: Wrote,
    text: &[u8],
) -> (Cutter, Cut, Option<Row>)
    ensures moved { result.0 ≡ item_moved target pictures item.now wrote text.now cutter }
    ensures cut { result.1 ≡ item_cut target pictures item.now wrote text.now cutter }
    ensures row { result.2 ≡ item_row target pictures item.now wrote text.now cutter }
{
    match (item, wrote) {
        (Item::Begin, _) => (cutter.broke(), Cut::Nothing, None),
        (Item::Unit(shared), Wrote::Unit) => {
            let unit = shared.unit();
            let sound = is_sound(unit.kind);
            let may = opens(unit.kind, pictures, text);
            let way = cutter.way(target, may, sound, unit.time);
            (
                cutter.moved(way, may, sound, unit.time),
                cutter.cut(way),
                cutter.row(way, unit.time),
            )
        }
        _ => (cutter, Cut::Nothing, None),
    }
}

// Whether a unit is left out.
fn is_lost(wrote: Wrote, cut: Cut) -> bool
    ensures { result ≡ is_lost wrote cut }
{
    match (wrote, cut) {
        (Wrote::Unit, Cut::Nothing) | (Wrote::LeftOut(_), _) => true,
        (Wrote::Unit, Cut::First | Cut::Next | Cut::Marked | Cut::Same) | (Wrote::Nothing, _) =>
            false,
    }
}

// Leaves out the text behind a length, if it isn't kept.
fn keep_text(cut: Cut, before: usize, out: &mut Bytes)
    ensures { (front text : List ℕ) → length front ≡ before → out.old ≡ front ++ text → out.new ≡ front ++ kept_text cut text }
{
    match cut {
        Cut::Nothing => out.truncate(before),
        Cut::First | Cut::Next | Cut::Marked | Cut::Same => {}
    }
}

// A broadcast has a writer of its own.
fn renew(alloc: Global, item: &Item, writer: &mut TsWriter)
    ensures { writer.new ≡ renewed item.now writer.old }
{
    match item {
        Item::Begin => *writer = TsWriter::new(alloc),
        Item::Unit(_) | Item::End => {}
    }
}

// Writes an item, and takes its time.
fn write(
    alloc: Global,
    writer: &mut TsWriter,
    cutter: &mut Cutter,
    rows: &mut Rows,
    target: u32,
    keep: usize,
    pictures: &mut bool,
    lost: &mut bool,
    item: &Item,
    out: &mut Bytes,
) -> Result<Cut, CutFail>
    ensures text { IfOk result (λ c. out.new ≡ out.old ++ kept_text c (item_text (renewed item.now writer.old).past item.now)) }
    ensures given { OnOk result (writer.new ≡ writer_given (renewed item.now writer.old) item.now) }
    ensures listed { OnOk result (pictures.new ≡ pictures_after pictures.old item.now (wrote_of (renewed item.now writer.old).past item.now)) }
    ensures cut { IfOk result (λ c. c ≡ item_cut target pictures.old item.now (wrote_of (renewed item.now writer.old).past item.now)
        (item_text (renewed item.now writer.old).past item.now) cutter.old) }
    ensures moved { OnOk result (cutter.new ≡ item_moved target pictures.old item.now (wrote_of (renewed item.now writer.old).past item.now)
        (item_text (renewed item.now writer.old).past item.now) cutter.old) }
    ensures rows { OnOk result (rows.new ≡ kept_with keep (item_row target pictures.old item.now (wrote_of (renewed item.now writer.old).past item.now)
        (item_text (renewed item.now writer.old).past item.now) cutter.old) rows.old) }
    ensures lost { IfOk result (λ c. lost.new ≡ (is_lost (wrote_of (renewed item.now writer.old).past item.now) c || lost.old)) }
    ensures full { IfErr result (λ e. e ≡ TooMany → is_full rows.old ≡ true) }
    ensures same { OnErr result ((cutter.new ≡ cutter.old) × (rows.new ≡ rows.old) × (lost.new ≡ lost.old)) }
    ensures front { OnErr result ((more : List ℕ) × (out.new ≡ out.old ++ more)) }
{
    renew(alloc, item, writer);
    let before = out.len();
    let wrote = writer.item(item, out)?;
    let (moved, cut, row) = step(
        *cutter,
        target,
        *pictures,
        item,
        wrote,
        &out.as_slice()[before..],
    );
    rows.take(keep, row)?;
    *cutter = moved;
    *pictures = pictures_after(*pictures, item, wrote);
    *lost = is_lost(wrote, cut) || *lost;
    keep_text(cut, before, out);
    Ok(cut)
}

/// Cuts the transport stream of a live stream's items (ISO/IEC 13818-1) into segments, and tells their sliding playlist
/// (RFC 8216).
///
/// A segment may begin at a keyframe, or at an audio frame that follows tables without a video stream. Within a broadcast, such a
/// frame begins the next segment if the open one is long enough: it spans at least `target` milliseconds, or with one more
/// interval like its last one it would span more whole seconds than `target`. So an encoder with a keyframe at least every
/// `target` milliseconds and a constant interval keeps the target duration constant.
///
/// When a broadcast begins, or when a unit's time is a step back from that of the last unit of its track, no unit is kept until a
/// frame comes at which a segment may begin. The segment that it begins is marked, unless it is the first one. Times are
/// milliseconds modulo 2^32.
///
/// The transport stream of each broadcast begins anew, with its counters, as a mark allows (RFC 8216, 3).
///
/// It keeps the spans of the last `keep` segments that have ended, and no others. Contracts see it as its target, `keep`,
/// the items that it was given, the newest first, and whether it has failed.
#[derive(Drop)]
pub struct LiveSegmenter {
    alloc: Global,
    target: u32,
    keep: usize,
    writer: TsWriter,
    cutter: Cutter,
    rows: Rows,
    pictures: bool,
    lost: bool,
    end: Option<CutFail>,
    items: History<Item>,
}

impl Model for LiveSegmenter {
    ghost use Rattle.live_segments.specs.Known.{Known};
    ghost use Rattle.live_segments.specs.Steps.{IsSound};

    ghost Value = { Known };

    ghost view = { λ s. record { target = s.target; keep = s.keep; past = s.items; failed = s.end } };

    ghost invariant = { λ s. IsSound s.target s.keep s.writer s.pictures s.lost s.cutter s.rows s.end s.items };
}

impl LiveSegmenter {
    /// Creates one that was given no item. The target is in milliseconds, and `keep` is the number of segments that are listed.
    pub fn new(alloc: Global, target: u32, keep: usize) -> LiveSegmenter
        ensures { result ≡ fresh target keep }
    {
        LiveSegmenter {
            alloc,
            target,
            keep,
            writer: TsWriter::new(alloc),
            cutter: Cutter::new(),
            rows: Rows::new(alloc, target, keep),
            pictures: false,
            lost: false,
            end: None,
            items: History::new(),
        }
    }

    /// Appends the bytes of an item that are kept, and says which segment they belong to.
    ///
    /// After a refusal it answers the same, and nothing is appended then.
    pub fn item(&mut self, item: &Item, out: &mut Bytes) -> Result<Cut, CutFail>
        ensures known { OnOk result (self.new ≡ given self.old item.now) }
        ensures bytes { OnOk result (out.new ≡ out.old ++ item_bytes self.old.target self.old.past item.now) }
        ensures cut { IfOk result (λ c. c ≡ cut_of self.old.target self.old.past item.now) }
        ensures refused { IfErr result (λ e. (self.new ≡ refused self.old e) × (out.new ≡ out.old)) }
        ensures too_many { self.old.failed ≡ None → result ≡ Err TooMany → is_too_many self.old.target self.old.keep self.old.past ≡ true }
        ensures again { (e : AFail) → self.old.failed ≡ Some e → result ≡ Err e }
    {
        if let Some(fail) = self.end {
            return Err(fail);
        }
        let before = out.len();
        match write(
            self.alloc,
            &mut self.writer,
            &mut self.cutter,
            &mut self.rows,
            self.target,
            self.keep,
            &mut self.pictures,
            &mut self.lost,
            item,
            out,
        ) {
            Ok(cut) => {
                self.items.add(item);
                Ok(cut)
            }
            Err(fail) => {
                out.truncate(before);
                self.end = Some(fail);
                Err(fail)
            }
        }
    }

    /// Returns whether a unit was left out: it can't be written, or came after a break and before a unit that may begin a segment.
    pub fn left_out(&self) -> bool
        ensures { result ≡ some_lost self.now.target self.now.past }
    {
        self.lost
    }

    /// Appends the playlist of the segments (RFC 8216, 4), whose files are `NAME-0.ts`, `NAME-1.ts` and so on: the last that have
    /// ended, and the open one too if all has ended. A refusal appends nothing.
    pub fn listing(
        &self,
        alloc: Global,
        name: &[u8],
        ended: bool,
        out: &mut Bytes,
    ) -> Result<(), OutOfMemory>
        ensures ok { OnOk result (out.new ≡ out.old ++ playlist name.now self.now.target self.now.keep
            (live self.now.target self.now.past).segments ended) }
        ensures err { OnErr result (out.new ≡ out.old) }
    {
        let text = text_of(alloc, name, &self.rows, self.cutter, ended)?;
        out.append(text.as_slice())
    }
}

fn open_if(ended: bool, cutter: Cutter) -> Option<Row>
    ensures { result ≡ open_if ended cutter }
{
    if ended { cutter.open() } else { None }
}

// The playlist of rows, and of the open segment if all has ended.
fn text_of(
    alloc: Global,
    name: &[u8],
    rows: &Rows,
    cutter: Cutter,
    ended: bool,
) -> Result<Bytes, OutOfMemory>
    ensures { IfOk result (λ b. b ≡ kept_listing name.now ended rows.now cutter) }
{
    let open = open_if(ended, cutter);
    let mut text = Bytes::new(alloc);
    put_list(
        alloc,
        name,
        rows.most_with(open),
        rows.first(),
        rows.gone(),
        rows.last(),
        open,
        ended,
        &mut text,
    )?;
    Ok(text)
}
