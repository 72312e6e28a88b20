//! A file of FLV that becomes a transport stream.
ghost use Rattle.std.specs.Prelude.{◌≡◌, ◌≤◌, ◌++◌, ◌∷◌, [], length, OnOk, IfOk, refl};
ghost use Rattle.av_unit.specs.declared.item.Item.TheVariants.{Unit as AUnit};
ghost use Rattle.file_commands.specs.Remux.{RemuxGives, RemuxStops, RemuxCut, RemuxTold, RemuxWhole, is_enhanced, items_of, remux_text};
ghost use Rattle.file_commands.specs.Fits.{TagsFit, Writes, tags_refusal};

use crate::convert::Convert;
use crate::fail::Fail;
use crate::left_out::LeftOut;
use av_unit::{Bytes, Item, OutOfMemory, Unit, UnitArc, unit_of};
use flv_tags::{FlvFail, Tag, TagFed, TagReader};
use std::alloc::Global;
use ts_writer::TsWriter;

/// The type of a video tag.
const VIDEO: u8 = 9;

/// The tags of a file, and the transport stream of their units: the units left out of it, and whether a video
/// tag of Enhanced RTMP is among them.
#[derive(Drop)]
pub(crate) struct Tags {
    reader: TagReader,
    writer: TsWriter,
    pub(crate) left_out: LeftOut,
    pub(crate) enhanced: bool,
}

// Returns whether it is a video tag of Enhanced RTMP (IsExHeader).
#[tactic(auto, using(std::proofs::lemmas::Bool::Decides::nat_tests))]
fn is_enhanced(tag: &Tag) -> bool
    ensures { result ≡ is_enhanced tag.now }
{
    match tag.body.as_slice() {
        [first, ..] => *first >= 128 && tag.kind == VIDEO,
        [] => false,
    }
}

fn refusal(fail: FlvFail) -> Fail
    ensures { result ≡ tags_refusal fail }
{
    match fail {
        FlvFail::BadHeader { at } => Fail::Refused { at },
        FlvFail::BadTag { at } => Fail::Refused { at },
        FlvFail::BadBack {
            at,
            stored: _,
            real: _,
        } => Fail::Refused { at },
        FlvFail::OutOfMemory => Fail::OutOfMemory,
    }
}

// Writes a unit.
fn write_unit(
    alloc: Global,
    writer: &mut TsWriter,
    left_out: &mut LeftOut,
    unit: Unit,
    out: &mut Bytes,
) -> Result<(), OutOfMemory>
    ensures { OnOk result (Writes (AUnit unit ∷ []) writer.old.past writer.new.past left_out.old left_out.new out.old out.new) }
{
    let item = Item::Unit(UnitArc::new(alloc, unit)?);
    left_out.note(writer.item(&item, out)?);
    Ok(())
}

// Writes the unit of a tag, if it has a class. No video is classed as disposable: it makes no difference to
// the text.
fn write_tag(
    alloc: Global,
    writer: &mut TsWriter,
    left_out: &mut LeftOut,
    tag: Tag,
    out: &mut Bytes,
) -> Result<(), OutOfMemory>
    requires { length tag.body ≤ 4194304 }
    ensures { OnOk result (Writes (items_of tag) writer.old.past writer.new.past left_out.old left_out.new out.old out.new) }
{
    let Tag { kind, time, body } = tag;
    match unit_of(kind, time, body, 0) {
        Some(unit) => write_unit(alloc, writer, left_out, unit, out),
        None => Ok(()),
    }
}

impl Tags {
    /// Makes the state of a file of which nothing was read. A broadcast begins, which writes nothing.
    #[tactic(auto, unfolding(ts_writer::specs::Text::item_text))]
    pub(crate) fn new(alloc: Global, out: &mut Bytes) -> Result<Tags, OutOfMemory>
        ensures fits { IfOk result (λ t. TagsFit t.reader t.writer t.left_out t.enhanced) }
        ensures fresh { IfOk result (λ t. t.reader.fed ≡ []) }
        ensures text { IfOk result (λ t. out.new ≡ out.old ++ remux_text t.reader.given) }
        ensures none { OnOk result (out.new ≡ out.old) }
    {
        let mut writer = TsWriter::new(alloc);
        writer.item(&Item::Begin, out)?;
        Ok(Tags {
            reader: TagReader::new(alloc),
            writer,
            left_out: LeftOut::none(),
            enhanced: false,
        })
    }
}

impl Convert for Tags {
    ghost use Rattle.std.specs.Prelude.{refl};
    ghost use Rattle.file_commands.specs.Remux.{RemuxGives, RemuxStops, RemuxCut, RemuxTold, RemuxWhole, remux_text};
    ghost use Rattle.file_commands.specs.Fits.{TagsFit};

    ghost fed = { λ t. t.reader.fed };

    ghost given = { λ t. remux_text t.reader.given };

    ghost fits = { λ t. TagsFit t.reader t.writer t.left_out t.enhanced };

    ghost gives = { RemuxGives };

    ghost stops = { RemuxStops };

    ghost cut = { RemuxCut };

    ghost whole = { RemuxWhole };

    ghost told = { λ t bytes. RemuxTold t.left_out t.enhanced bytes };

    fn step(&mut self, alloc: Global, piece: &[u8], out: &mut Bytes) -> Result<usize, Fail> {
        match self.reader.feed(alloc, piece) {
            Ok(TagFed { used, tag: None }) => Ok(used),
            Ok(
                TagFed {
                    used,
                    tag: Some(tag),
                },
            ) => {
                self.enhanced |= is_enhanced(&tag);
                write_tag(alloc, &mut self.writer, &mut self.left_out, tag, out)?;
                Ok(used)
            }
            Err(fail) => Err(refusal(fail)),
        }
    }

    fn finish(&mut self, _alloc: Global, out: &mut Bytes) -> Result<bool, Fail> {
        let _ = &out;
        match self.reader.finish() {
            Ok(()) => Ok(self.left_out.first.is_some()),
            Err(fail) => Err(refusal(fail)),
        }
    }

    ghost reads = { λ t fit. record { tags = t.reader.given; rest = fit.stands.0; reads = fit.stands.1; text_is = refl } };
}
