//! Files of a transport stream (ISO/IEC 13818-1).
ghost use Rattle.std.specs.Prelude.{◌≡◌, ◌≢◌, ◌++◌, [], Some, nat_lt};
ghost use Rattle.turn_gate.specs.Histories.{Begins};
ghost use Rattle.file_series.specs.Series.{none_yet};
ghost use Rattle.media_recorder.specs.Taken.{taken};
ghost use Rattle.series_medium.specs.Broadcasts.{broadcasts, files_of, ts_file};
ghost use Rattle.series_medium.specs.Parts.{IsPartOf};
ghost use Rattle.series_medium.specs.Reading.{files_read};
ghost use Rattle.series_medium.specs.Text.{ts_series_text};
ghost use Rattle.series_medium.specs.TsFiles.{is_any};

use crate::laws::files_law;
use crate::medium::SeriesMedium;
use crate::writer::FileWriter;
use av_unit::{Bytes, Item, OutOfMemory};
use media_recorder::{RecEnd, Recorder};
use std::alloc::Global;
use std::marker::Model;
use stream_registry::StreamPort;
use ts_writer::{TsWriter, Wrote};

/// A recorder that writes a file of a transport stream for each broadcast.
pub type TsSeriesRecorder<P> = Recorder<P, TsSeriesMedium>;

/// Files of a transport stream as a medium: each begins with tables. It keeps the parameter sets in force.
pub type TsSeriesMedium = SeriesMedium<TsFile>;

/// Writes a file of a transport stream. It keeps the parameter sets in force.
#[derive(Drop)]
pub struct TsFile {
    writer: TsWriter,
    is_open: bool,
}

impl Model for TsFile {
    ghost use Rattle.std.specs.Prelude.{List, reverse};
    ghost use Rattle.av_unit.specs.declared.item.Item.{Item};
    ghost use Rattle.series_medium.specs.TsFiles.{IsTsFile};

    ghost Value = { List Item };

    ghost view = { λ f. reverse f.writer.past };

    ghost invariant = { λ f. IsTsFile f.writer f.is_open };
}

// Tells whether something is written, where so many bytes were there before an item and so many behind it.
fn is_any(is_open: bool, before: usize, now: usize) -> bool
    ensures { result ≡ is_any is_open (nat_lt before now) }
{
    is_open || before < now
}

impl FileWriter for TsFile {
    ghost use Rattle.std.specs.Prelude.{reverse};
    ghost use Rattle.ts_writer.specs.Held.{held_of};
    ghost use Rattle.ts_writer.specs.Text.{in_force};
    ghost use Rattle.series_medium.specs.Broadcasts.{ts_file};

    ghost file = { ts_file };

    ghost given = { λ f. f };

    ghost kept = { λ f. held_of (in_force (reverse f)) };

    fn new(alloc: Global) -> TsFile {
        TsFile {
            writer: TsWriter::new(alloc),
            is_open: false,
        }
    }

    fn add(mut self, item: &Item, out: &mut Bytes) -> Result<TsFile, OutOfMemory> {
        let before = out.len();
        self.writer.item(item, out)?;
        let _most = self.writer.held();
        self.is_open = is_any(self.is_open, before, out.len());
        Ok(self)
    }

    fn is_open(&self) -> bool {
        let _ = &self.writer;
        self.is_open
    }

    fn held(&self) -> u64 {
        self.writer.held()
    }
}

/// Shows that the bytes that a recorder's sink took, followed by the pending bytes, are the text of the items that its Takes were
/// sent. If memory was refused, they are a beginning of it. So the files of the bytes that the sink took are a first part of the
/// files of their broadcasts, and these once nothing is pending.
pub fn ts_series_law<P: StreamPort>(recorder: &TsSeriesRecorder<P>)
    ensures whole { recorder.now.end ≢ Some RecEnd.OutOfMemory
        → recorder.now.tape.sent ++ recorder.now.tape.pending ≡ ts_series_text (taken recorder.now.seat.calls) }
    ensures prefix { Begins (recorder.now.tape.sent ++ recorder.now.tape.pending) (ts_series_text (taken recorder.now.seat.calls)) }
    ensures part { IsPartOf (files_read recorder.now.tape.sent none_yet) (files_of ts_file (broadcasts (taken recorder.now.seat.calls))) }
    ensures files { recorder.now.end ≢ Some RecEnd.OutOfMemory → recorder.now.tape.pending ≡ []
        → files_read recorder.now.tape.sent none_yet ≡ files_of ts_file (broadcasts (taken recorder.now.seat.calls)) }
{
    recorder.law();
    files_law();
}
