//! Files of FLV (Adobe FLV 10.1, annex E).
ghost use Rattle.std.specs.Prelude.{◌≡◌, ◌≢◌, ◌++◌, [], ℕ, List, Some, IfOk, OnErr, OnOk};
ghost use Rattle.turn_gate.specs.Histories.{Begins};
ghost use Rattle.file_series.specs.Series.{none_yet};
ghost use Rattle.media_recorder.specs.Taken.{taken};
ghost use Rattle.series_medium.specs.Broadcasts.{broadcasts, files_of, flv_file};
ghost use Rattle.series_medium.specs.FlvFiles.{flv_more, head_if, opens};
ghost use Rattle.series_medium.specs.Parts.{IsPartOf};
ghost use Rattle.series_medium.specs.Reading.{files_read};
ghost use Rattle.series_medium.specs.Text.{flv_series_text};

use crate::laws::files_law;
use crate::medium::SeriesMedium;
use crate::writer::FileWriter;
use av_unit::{Bytes, Item, OutOfMemory};
use flv_tags::{write_header, write_item};
use media_recorder::{RecEnd, Recorder};
use past::Flow;
use std::alloc::Global;
use std::marker::Model;
use stream_registry::StreamPort;

/// A recorder that writes a file of FLV for each broadcast.
pub type FlvSeriesRecorder<P> = Recorder<P, FlvSeriesMedium>;

/// Files of FLV as a medium: each has a header before its first tag, and a tag for each unit of its broadcast.
pub type FlvSeriesMedium = SeriesMedium<FlvFile>;

/// Writes a file of FLV. It keeps no bytes.
#[derive(Drop)]
pub struct FlvFile {
    items: Flow<Item>,
    is_open: bool,
}

impl Model for FlvFile {
    ghost use Rattle.std.specs.Prelude.{◌≡◌, List, is_some};
    ghost use Rattle.av_unit.specs.declared.item.Item.{Item};
    ghost use Rattle.series_medium.specs.Broadcasts.{flv_file};

    ghost Value = { List Item };

    ghost view = { λ f. f.items };

    ghost invariant = { λ f. f.is_open ≡ is_some (flv_file f.items) };
}

// Appends the header of a file that isn't open.
fn open(is_open: bool, out: &mut Bytes) -> Result<(), OutOfMemory>
    ensures ok { OnOk result (out.new ≡ out.old ++ head_if is_open) }
    ensures err { OnErr result (out.new ≡ out.old) }
{
    if is_open {
        return Ok(());
    }
    write_header(out)
}

// Appends what an item adds to a file, and tells whether it is open then.
fn write_more(is_open: bool, item: &Item, out: &mut Bytes) -> Result<bool, OutOfMemory>
    ensures more { OnOk result (out.new ≡ out.old ++ flv_more is_open item.now) }
    ensures open { IfOk result (λ open_now. open_now ≡ opens is_open item.now) }
    ensures err { OnErr result ((more : List ℕ) × (out.new ≡ out.old ++ more)) }
{
    match item {
        Item::Begin => Ok(is_open),
        Item::Unit(_) => {
            open(is_open, out)?;
            write_item(item, out)?;
            Ok(true)
        }
        Item::End => Ok(is_open),
    }
}

impl FileWriter for FlvFile {
    ghost use Rattle.series_medium.specs.Broadcasts.{flv_file};

    ghost file = { flv_file };

    ghost given = { λ f. f };

    ghost kept = { λ _. 0 };

    fn new(_alloc: Global) -> FlvFile {
        FlvFile {
            items: Flow::new(),
            is_open: false,
        }
    }

    fn add(mut self, item: &Item, out: &mut Bytes) -> Result<FlvFile, OutOfMemory> {
        self.is_open = write_more(self.is_open, item, out)?;
        self.items.add(item);
        Ok(self)
    }

    fn is_open(&self) -> bool {
        let _ = &self.items;
        self.is_open
    }

    fn held(&self) -> u64 {
        0
    }
}

/// Shows that the bytes that a recorder's sink took, followed by the pending bytes, are the text of the items that its Takes were
/// sent. If memory was refused, they are a beginning of it. So the files of the bytes that the sink took are a first part of the
/// files of their broadcasts, and these once nothing is pending.
pub fn flv_series_law<P: StreamPort>(recorder: &FlvSeriesRecorder<P>)
    ensures whole { recorder.now.end ≢ Some RecEnd.OutOfMemory
        → recorder.now.tape.sent ++ recorder.now.tape.pending ≡ flv_series_text (taken recorder.now.seat.calls) }
    ensures prefix { Begins (recorder.now.tape.sent ++ recorder.now.tape.pending) (flv_series_text (taken recorder.now.seat.calls)) }
    ensures part { IsPartOf (files_read recorder.now.tape.sent none_yet) (files_of flv_file (broadcasts (taken recorder.now.seat.calls))) }
    ensures files { recorder.now.end ≢ Some RecEnd.OutOfMemory → recorder.now.tape.pending ≡ []
        → files_read recorder.now.tape.sent none_yet ≡ files_of flv_file (broadcasts (taken recorder.now.seat.calls)) }
{
    recorder.law();
    files_law();
}
