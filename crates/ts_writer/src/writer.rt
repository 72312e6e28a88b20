ghost use Rattle.std.specs.Prelude.{◌≡◌, ◌≤◌, ◌+◌, ℕ, List, length, ◌++◌, true, false, IfOk, IfSome, IsErr, OnOk, OnErr};
ghost use Rattle.av_unit.specs.declared.item.Item.TheVariants.{Unit as AUnit};
ghost use Rattle.ts_writer.specs.Frames.{Gives, UnlessMemory, IsFramed, video_config, audio_config};
ghost use Rattle.ts_writer.specs.Parts.{text_behind, with_parts};
ghost use Rattle.ts_writer.specs.Text.{none_in_force, in_force, in_force_after, listed as listed_of, read_or_none, nothing_of, made_of, reading_of, reading, wrote_by, wrote_of, added, item_text};
ghost use Rattle.ts_writer.specs.Known.{fresh, given};
ghost use Rattle.ts_writer.specs.Held.{lengths, held_of, IsSmall, most_added};

use crate::Wrote;
use crate::framed::Framed;
use crate::in_force::InForce;
use crate::multiplex::Multiplex;
use crate::part::Streams;
use crate::stop::Stop;
use crate::units::{make_picture, make_sound, read_audio, read_video};
use av_unit::{Bytes, Item, Kind, OutOfMemory, Unit};
use avc_annexb::NalList;
use past::History;
use std::alloc::Global;
use std::marker::Model;

impl InForce {
    /// Gives no configurations.
    fn none() -> InForce
        ensures { result ≡ none_in_force }
    {
        InForce {
            video: None,
            audio: None,
        }
    }

    /// Gives the streams that they list.
    fn listed(&self) -> Streams
        ensures { result ≡ listed_of self.now }
    {
        Streams {
            video: self.video.is_some(),
            audio: self.audio.is_some(),
        }
    }

    /// Takes a video configuration, or leaves none if it can't be read.
    fn set_video(&mut self, alloc: Global, body: &[u8]) -> Result<Option<Framed>, Stop>
        ensures made { Gives result (made_of (nothing_of (video_config body.now))) }
        ensures set { UnlessMemory result (self.new ≡ record { video = read_or_none (video_config body.now); audio = self.old.audio }) }
        ensures fits { IfOk result (λ o. IfSome o IsFramed) }
        ensures small { length body.now ≤ 65536 → IsSmall self.new }
    {
        self.video = None;
        self.video = Some(read_video(alloc, body)?);
        Ok(None)
    }

    /// Takes an audio configuration, or leaves none if it can't be read.
    fn set_audio(&mut self, body: &[u8]) -> Result<Option<Framed>, Stop>
        ensures made { Gives result (made_of (nothing_of (audio_config body.now))) }
        ensures set { UnlessMemory result (self.new ≡ record { video = self.old.video; audio = read_or_none (audio_config body.now) }) }
        ensures fits { IfOk result (λ o. IfSome o IsFramed) }
        ensures small { IsSmall self.old → IsSmall self.new }
    {
        self.audio = None;
        self.audio = Some(read_audio(body)?);
        Ok(None)
    }

    /// Makes a PES packet of a unit. If the unit is a configuration, it is in force from then on.
    fn read(&mut self, alloc: Global, unit: &Unit) -> Result<Option<Framed>, Stop>
        ensures made { Gives result (made_of (reading_of self.old unit.now.kind unit.now.time unit.now.body)) }
        ensures set { UnlessMemory result (self.new ≡ in_force_after self.old (AUnit unit.now)) }
        ensures fits { IfOk result (λ o. IfSome o IsFramed) }
        ensures small { IsSmall self.old → IsSmall self.new }
    {
        let time = unit.time;
        let body = unit.body.as_slice();
        match unit.kind {
            Kind::Meta | Kind::Data => Ok(None),
            Kind::VConfig => self.set_video(alloc, body),
            Kind::AConfig => self.set_audio(body),
            Kind::Key => Ok(Some(make_picture(alloc, &self.video, true, time, body)?)),
            Kind::Inter | Kind::Spare => Ok(Some(make_picture(
                alloc,
                &self.video,
                false,
                time,
                body,
            )?)),
            Kind::Audio => Ok(Some(make_sound(alloc, &self.audio, time, body)?)),
        }
    }
}

/// Appends an item to the text so far.
fn write(
    alloc: Global,
    in_force: &mut InForce,
    text: &mut Multiplex,
    item: &Item,
    out: &mut Bytes,
) -> Result<Wrote, OutOfMemory>
    ensures in_force { OnOk result (in_force.new ≡ in_force_after in_force.old item.now) }
    ensures parts { OnOk result (text.new ≡ with_parts text.old (added in_force.old item.now text.old)) }
    ensures bytes { OnOk result (out.new ≡ out.old ++ text_behind text.old (added in_force.old item.now text.old)) }
    ensures wrote { IfOk result (λ w. w ≡ wrote_by (reading in_force.old item.now)) }
    ensures left { OnErr result ((more : List ℕ) × (out.new ≡ out.old ++ more)) }
    ensures small { IsSmall in_force.old → IsSmall in_force.new }
{
    match item {
        Item::Begin => {
            *in_force = InForce::none();
            text.start();
            Ok(Wrote::Nothing)
        }
        Item::Unit(shared) => write_unit(alloc, in_force, text, shared.unit(), out),
        Item::End => Ok(Wrote::Nothing),
    }
}

/// Appends a unit to the text so far.
fn write_unit(
    alloc: Global,
    in_force: &mut InForce,
    text: &mut Multiplex,
    unit: &Unit,
    out: &mut Bytes,
) -> Result<Wrote, OutOfMemory>
    ensures in_force { OnOk result (in_force.new ≡ in_force_after in_force.old (AUnit unit.now)) }
    ensures parts { OnOk result (text.new ≡ with_parts text.old (added in_force.old (AUnit unit.now) text.old)) }
    ensures bytes { OnOk result (out.new ≡ out.old ++ text_behind text.old (added in_force.old (AUnit unit.now) text.old)) }
    ensures wrote { IfOk result (λ w. w ≡ wrote_by (reading in_force.old (AUnit unit.now))) }
    ensures left { OnErr result ((more : List ℕ) × (out.new ≡ out.old ++ more)) }
    ensures small { IsSmall in_force.old → IsSmall in_force.new }
{
    let streams = in_force.listed();
    match in_force.read(alloc, unit) {
        Ok(None) => Ok(Wrote::Nothing),
        Ok(Some(framed)) => {
            text.put(streams, framed, out)?;
            Ok(Wrote::Unit)
        }
        Err(Stop::Out(left)) => Ok(Wrote::LeftOut(left)),
        Err(Stop::Memory) => Err(OutOfMemory),
    }
}

/// Writes the items of a stream as a transport stream (ISO/IEC 13818-1): AVC as access units, and AAC in ADTS frames.
///
/// It keeps the configurations in force, the next counter of each PID, and the contents of the last tables.
/// Contracts see it as the items that it was given, the newest first, and whether memory was ever refused.
#[derive(Drop)]
pub struct TsWriter {
    alloc: Global,
    in_force: InForce,
    text: Multiplex,
    broken: bool,
    past: History<Item>,
}

impl Model for TsWriter {
    ghost use Rattle.ts_writer.specs.Known.{TsKnown};
    ghost use Rattle.ts_writer.specs.Sound.{IsSound};

    ghost Value = { TsKnown };

    ghost view = { λ w. record { past = w.past; broken = w.broken } };

    ghost invariant = { λ w. IsSound w.broken w.in_force w.text w.past };
}

impl TsWriter {
    /// Makes a writer that was given no item.
    pub fn new(alloc: Global) -> TsWriter
        ensures { result ≡ fresh }
    {
        TsWriter {
            alloc,
            in_force: InForce::none(),
            text: Multiplex::new(alloc),
            broken: false,
            past: History::new(),
        }
    }

    /// Appends the bytes that an item adds to the text of those before it: a unit in packets, and before it
    /// both tables if they are due. Units of other codecs, units that can't be read and units without a
    /// configuration are left out. A unit adds at most four times its bytes plus 131,072.
    ///
    /// Tables stand before the first unit, before a unit if the list of streams has changed, before each
    /// keyframe, and without video before each 33rd audio unit. A writer that was refused memory answers
    /// `OutOfMemory` from then on. `out` always keeps its earlier bytes as its beginning.
    #[tactic(auto, unfolding(crate::specs::Text::item_text))]
    pub fn item(&mut self, item: &Item, out: &mut Bytes) -> Result<Wrote, OutOfMemory>
        ensures known { OnOk result (self.new ≡ given self.old item.now) }
        ensures bytes { OnOk result (out.new ≡ out.old ++ item_text self.old.past item.now) }
        ensures wrote { IfOk result (λ w. w ≡ wrote_of self.old.past item.now) }
        ensures most { OnOk result (length out.new ≤ length out.old + most_added item.now) }
        ensures err { OnErr result ((self.new.broken ≡ true) × (self.new.past ≡ self.old.past) × ((more : List ℕ) × (out.new ≡ out.old ++ more))) }
        ensures again { self.old.broken ≡ true → IsErr result × (out.new ≡ out.old) }
    {
        if self.broken {
            return Err(OutOfMemory);
        }
        match write(self.alloc, &mut self.in_force, &mut self.text, item, out) {
            Ok(wrote) => {
                self.past.add(item);
                Ok(wrote)
            }
            Err(e) => {
                self.broken = true;
                Err(e)
            }
        }
    }

    /// Gives the number of bytes it keeps: those of the parameter sets in force, at most 65,536.
    pub fn held(&self) -> u64
        ensures sum { self.now.broken ≡ false → result ≡ held_of (in_force self.now.past) }
        ensures most { result ≤ 65536 }
    {
        match &self.in_force.video {
            Some(config) => length_of(&config.sps) + length_of(&config.pps),
            None => 0,
        }
    }
}

/// Gives the number of bytes of all NAL units together.
fn length_of(list: &NalList) -> u64
    requires { lengths list.now ≤ 65536 }
    ensures { result ≡ lengths list.now }
{
    let mut sum = 0;
    let mut left = list.as_slice();
    while let [unit, rest @ ..] = left {
        sum += unit.len() as u64;
        left = rest;
    }
    sum
}
