//! Cutting a stream.
ghost use Rattle.std.specs.Prelude.{◌≡◌, ◌++◌, ◌||◌, List, ℕ, true, false, None, Some, Ok, Err, IfOk, IfErr, OnOk, OnErr};
ghost use Rattle.hls_segments.specs.declared.cut.CutFail.{CutFail as AFail};
ghost use Rattle.hls_segments.specs.declared.cut.Cut.TheVariants.{Next};
ghost use Rattle.hls_segments.specs.declared.cut.CutFail.TheVariants.{TooMany};
ghost use Rattle.ts_writer.specs.Known.{given as writer_given};
ghost use Rattle.ts_writer.specs.Text.{item_text, wrote_of};
ghost use Rattle.hls_segments.specs.Cuts.{cut_of, is_left_out, is_too_many, segments, some_left_out};
ghost use Rattle.hls_segments.specs.Known.{fresh, given, refused};
ghost use Rattle.hls_segments.specs.Playlist.{playlist};
ghost use Rattle.hls_segments.specs.Opens.{has_tables, is_read, opens, pictures_after, pictures_by};
ghost use Rattle.hls_segments.specs.Times.{is_full, item_cut, item_ticked};

use crate::playlist::text_of;
use crate::times::Times;
use crate::{Cut, CutFail};
use av_unit::{Bytes, Item, Kind, OutOfMemory};
use past::History;
use std::alloc::Global;
use std::marker::Model;
use ts_writer::{TsWriter, Wrote};

// Tells whether a text begins with the packet of an association table (ISO/IEC 13818-1, 2.4.3.2). The byte
// after the first has the start bit and the highest bits of the PID.
fn has_tables(text: &[u8]) -> bool
    ensures { result ≡ has_tables text.now }
{
    match text {
        [_, second, ..] => *second == 0x40,
        _ => false,
    }
}

// Tells whether a segment may begin at a unit of that kind with that text.
fn opens(kind: Kind, pictures: bool, text: &[u8]) -> bool
    ensures { result ≡ opens kind pictures text.now }
{
    match kind {
        Kind::Key => true,
        Kind::Audio => !pictures && has_tables(text),
        Kind::Meta | Kind::VConfig | Kind::AConfig | Kind::Inter | Kind::Spare | Kind::Data =>
            false,
    }
}

fn is_read(wrote: Wrote) -> bool
    ensures { result ≡ is_read wrote }
{
    match wrote {
        Wrote::Nothing => true,
        Wrote::Unit | Wrote::LeftOut(_) => false,
    }
}

fn is_left_out(wrote: Wrote) -> bool
    ensures { result ≡ is_left_out wrote }
{
    match wrote {
        Wrote::LeftOut(_) => true,
        Wrote::Unit | Wrote::Nothing => false,
    }
}

fn pictures_by(kind: Kind, before: bool, wrote: Wrote) -> bool
    ensures { result ≡ pictures_by kind before wrote }
{
    match kind {
        Kind::VConfig => is_read(wrote),
        Kind::Meta
        | Kind::AConfig
        | Kind::Key
        | Kind::Inter
        | Kind::Spare
        | Kind::Audio
        | Kind::Data => before,
    }
}

// Tells whether video is listed after an item.
fn pictures_after(before: bool, item: &Item, wrote: Wrote) -> bool
    ensures { result ≡ pictures_after before item.now wrote }
{
    match item {
        Item::Begin => false,
        Item::Unit(shared) => pictures_by(shared.unit().kind, before, wrote),
        Item::End => before,
    }
}

// Takes the time of an item whose bytes are the text.
fn tick(
    times: &mut Times,
    least: u32,
    pictures: bool,
    item: &Item,
    wrote: Wrote,
    text: &[u8],
) -> Result<Cut, CutFail>
    ensures cut { IfOk result (λ c. c ≡ item_cut least pictures item.now wrote text.now times.old) }
    ensures ticked { OnOk result (times.new ≡ item_ticked least pictures item.now wrote text.now times.old) }
    ensures room { IfOk result (λ c. c ≡ Next → is_full times.old ≡ false) }
    ensures full { IfErr result (λ e. e ≡ TooMany
        → (item_cut least pictures item.now wrote text.now times.old ≡ Next) × (is_full times.old ≡ true)) }
    ensures same { OnErr result (times.new ≡ times.old) }
{
    match (item, wrote) {
        (Item::Unit(shared), Wrote::Unit) => {
            let unit = shared.unit();
            times.tick(least, opens(unit.kind, pictures, text), unit.time)
        }
        _ => Ok(Cut::Nothing),
    }
}

// Writes an item, and takes its time.
fn write(
    writer: &mut TsWriter,
    times: &mut Times,
    least: u32,
    pictures: &mut bool,
    left_out: &mut bool,
    item: &Item,
    out: &mut Bytes,
) -> Result<Cut, CutFail>
    ensures text { OnOk result (out.new ≡ out.old ++ item_text writer.old.past item.now) }
    ensures given { OnOk result (writer.new ≡ writer_given writer.old item.now) }
    ensures listed { OnOk result (pictures.new ≡ pictures_after pictures.old item.now (wrote_of writer.old.past item.now)) }
    ensures left_out { OnOk result (left_out.new ≡ (is_left_out (wrote_of writer.old.past item.now) || left_out.old)) }
    ensures kept { OnErr result (left_out.new ≡ left_out.old) }
    ensures cut { IfOk result (λ c. c ≡ item_cut least pictures.old item.now (wrote_of writer.old.past item.now)
        (item_text writer.old.past item.now) times.old) }
    ensures ticked { OnOk result (times.new ≡ item_ticked least pictures.old item.now (wrote_of writer.old.past item.now)
        (item_text writer.old.past item.now) times.old) }
    ensures room { IfOk result (λ c. c ≡ Next → is_full times.old ≡ false) }
    ensures full { IfErr result (λ e. e ≡ TooMany → (item_cut least pictures.old item.now (wrote_of writer.old.past item.now)
        (item_text writer.old.past item.now) times.old ≡ Next) × (is_full times.old ≡ true)) }
    ensures same { OnErr result (times.new ≡ times.old) }
    ensures front { OnErr result ((more : List ℕ) × (out.new ≡ out.old ++ more)) }
{
    let before = out.len();
    let wrote = writer.item(item, out)?;
    let cut = tick(
        times,
        least,
        *pictures,
        item,
        wrote,
        &out.as_slice()[before..],
    )?;
    *pictures = pictures_after(*pictures, item, wrote);
    *left_out = is_left_out(wrote) || *left_out;
    Ok(cut)
}

/// Cuts the transport stream of items (ISO/IEC 13818-1) into segments for a playlist (RFC 8216).
///
/// The first unit that is written begins the first segment. A later unit begins the next segment under two
/// conditions. It is a keyframe, or audio directly after tables that list no video. And its time is at least
/// the least span, and less than 2^31 milliseconds, after that of the segment's first unit. Times are
/// milliseconds modulo 2^32. A segment has the tables before its first unit, and all bytes up to the tables
/// before the next segment's.
///
/// It keeps the spans of the segments, of which there are at most 100,000. Contracts see it as the least
/// span, the items that it was given, the newest first, and whether it has failed.
#[derive(Drop)]
pub struct Segmenter {
    span: u32,
    writer: TsWriter,
    times: Times,
    pictures: bool,
    omits: bool,
    end: Option<CutFail>,
    items: History<Item>,
}

impl Model for Segmenter {
    ghost use Rattle.hls_segments.specs.Known.{Known};
    ghost use Rattle.hls_segments.specs.Times.{IsSound};

    ghost Value = { Known };

    ghost view = { λ s. record { least = s.span; past = s.items; failed = s.end } };

    ghost invariant = { λ s. IsSound s.span s.writer s.pictures s.omits s.times s.end s.items };
}

impl Segmenter {
    /// Makes a segmenter that was given no item. Each segment but the last spans at least `span` milliseconds.
    pub fn new(alloc: Global, span: u32) -> Segmenter
        ensures { result ≡ fresh span }
    {
        Segmenter {
            span,
            writer: TsWriter::new(alloc),
            times: Times::new(alloc),
            pictures: false,
            omits: false,
            end: None,
            items: History::new(),
        }
    }

    /// Appends the bytes of an item, and gives the segment that they belong to.
    ///
    /// `TooMany` comes exactly when a 100,001st segment would begin. After a refusal it gives the same answer
    /// again, and appends nothing.
    pub fn item(&mut self, item: &Item, out: &mut Bytes) -> Result<Cut, CutFail>
        ensures known { OnOk result (self.new ≡ given self.old item.now) }
        ensures bytes { OnOk result (out.new ≡ out.old ++ item_text self.old.past item.now) }
        ensures cut { IfOk result (λ c. c ≡ cut_of self.old.least self.old.past item.now) }
        ensures room { OnOk result (is_too_many self.old.least self.old.past item.now ≡ false) }
        ensures refused { IfErr result (λ e. (self.new ≡ refused self.old e) × (out.new ≡ out.old)) }
        ensures too_many { self.old.failed ≡ None → result ≡ Err TooMany → is_too_many self.old.least self.old.past item.now ≡ true }
        ensures again { (e : AFail) → self.old.failed ≡ Some e → result ≡ Err e }
    {
        if let Some(fail) = self.end {
            return Err(fail);
        }
        let before = out.len();
        match write(
            &mut self.writer,
            &mut self.times,
            self.span,
            &mut self.pictures,
            &mut self.omits,
            item,
            out,
        ) {
            Ok(cut) => {
                self.items.add(item);
                Ok(cut)
            }
            Err(fail) => {
                out.truncate(before);
                self.end = Some(fail);
                Err(fail)
            }
        }
    }

    /// Tells whether an item was left out: one of other codecs, one that can't be read, or one without a
    /// configuration.
    pub fn left_out(&self) -> bool
        ensures { result ≡ some_left_out self.now.past }
    {
        self.omits
    }

    /// Appends the playlist of the segments (RFC 8216, 4). Their files are `NAME-0.ts`, `NAME-1.ts` and so
    /// on; NAME is the given name. A refusal appends nothing.
    pub fn playlist(&self, alloc: Global, name: &[u8], out: &mut Bytes) -> Result<(), OutOfMemory>
        ensures ok { OnOk result (out.new ≡ out.old ++ playlist name.now (segments self.now.least self.now.past)) }
        ensures err { OnErr result (out.new ≡ out.old) }
    {
        let text = text_of(alloc, name, &self.times)?;
        out.append(text.as_slice())
    }
}
