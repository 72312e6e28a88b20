//! Transport streams as a medium (ISO/IEC 13818-1).
ghost use Rattle.std.specs.Prelude.{◌≡◌, ◌≢◌, ◌≤◌, ◌++◌, Some};
ghost use Rattle.turn_gate.specs.Histories.{Begins};
ghost use Rattle.stream_model.specs.Held.{body_of};
ghost use Rattle.media_recorder.specs.Taken.{taken};
ghost use Rattle.media_recorder.specs.Transport.{counts, left_out, recorded_text};

use crate::medium::Medium;
use crate::recorder::Recorder;
use crate::turn::RecEnd;
use av_unit::{Bytes, Item, OutOfMemory};
use past::Flow;
use std::alloc::Global;
use std::marker::Model;
use stream_registry::StreamPort;
use ts_writer::{TsWriter, Wrote};

/// A recorder that writes a transport stream.
pub type TsRecorder<P> = Recorder<P, TsMedium>;

/// A transport stream as a medium. It keeps the parameter sets in force.
///
/// Once memory was refused it keeps nothing, and writes no more.
#[derive(Drop)]
pub struct TsMedium {
    writer: Option<TsWriter>,
    items: Flow<Item>,
    count: u64,
}

impl Model for TsMedium {
    ghost use Rattle.std.specs.Prelude.{is_some};
    ghost use Rattle.media_recorder.specs.Transport.{TsState};
    ghost use Rattle.media_recorder.specs.TsMediums.{IsTsMedium};

    ghost Value = { TsState };

    ghost view = { λ m. record { items = m.items; writes = is_some m.writer } };

    ghost invariant = { λ m. IsTsMedium m.items m.writer m.count };
}

// A body has at most as many bytes as any unit's.
fn known(item: &Item)
    ensures { body_of item.now ≤ 4194304 }
{
    match item {
        Item::Unit(shared) => {
            let _fits = shared.unit();
        }
        Item::Begin => {}
        Item::End => {}
    }
}

fn count_of(wrote: Wrote) -> u64
    ensures { result ≡ counts wrote }
{
    match wrote {
        Wrote::LeftOut(_) => 1,
        Wrote::Unit => 0,
        Wrote::Nothing => 0,
    }
}

impl TsMedium {
    /// Returns the number of the items written that are left out of the text. The count stops at the last
    /// value of a u64.
    pub fn left_out(&self) -> u64
        ensures { result ≡ left_out self.now.items }
    {
        let _ = &self.items;
        self.count
    }
}

impl Medium for TsMedium {
    ghost use Rattle.std.specs.Prelude.{◌≡◌, IfOk, OnErr, true};
    ghost use Rattle.media_recorder.specs.Mediums.{Begun};
    ghost use Rattle.media_recorder.specs.Transport.{kept_of, recorded_text, ts_goes_on};

    ghost text = { recorded_text };

    ghost written = { λ m. m.items };

    ghost kept = { kept_of };

    /// As the trait says. The medium writes until memory is refused.
    fn begin(alloc: Global, out: &mut Bytes) -> Result<TsMedium, OutOfMemory>
        ensures ok { IfOk result (λ m. Begun recorded_text out.old out.new m.items (kept_of m)) }
        ensures err { OnErr result (out.new ≡ out.old) }
        ensures writes { IfOk result (λ m. m.writes ≡ true) }
    {
        let _ = &out;
        Ok(TsMedium {
            writer: Some(TsWriter::new(alloc)),
            items: Flow::new(),
            count: 0,
        })
    }

    fn write(&mut self, item: &Item, out: &mut Bytes) -> Result<(), OutOfMemory> {
        known(item);
        let before = out.len();
        let Some(writer) = &mut self.writer else {
            return Err(OutOfMemory);
        };
        match writer.item(item, out) {
            Ok(wrote) => {
                let _most = writer.held();
                self.count = self.count.saturating_add(count_of(wrote));
                self.items.add(item);
                Ok(())
            }
            Err(fail) => {
                self.writer = None;
                out.truncate(before);
                Err(fail)
            }
        }
    }

    fn held(&self) -> u64 {
        match &self.writer {
            Some(writer) => writer.held(),
            None => 0,
        }
    }

    ghost goes_on = { ts_goes_on };
}

impl<P: StreamPort> Recorder<P, TsMedium> {
    /// Shows that the bytes that the sink took, followed by the pending bytes, are the transport stream of
    /// the items that the recorder's Takes were sent. If memory was refused, they are a beginning of it.
    pub fn ts_law(&self)
        ensures whole { self.now.end ≢ Some RecEnd.OutOfMemory → self.now.tape.sent ++ self.now.tape.pending ≡ recorded_text (taken self.now.seat.calls) }
        ensures prefix { Begins (self.now.tape.sent ++ self.now.tape.pending) (recorded_text (taken self.now.seat.calls)) }
    {
        self.law();
    }

    /// Returns the number of items sent to its Takes that are left out of the text. If memory was refused,
    /// items that weren't written aren't counted. The count stops at the last value of a u64.
    pub fn left_out(&self) -> u64
        ensures written { result ≡ left_out self.now.tape.items }
        ensures whole { self.now.end ≢ Some RecEnd.OutOfMemory → result ≡ left_out (taken self.now.seat.calls) }
    {
        self.medium().left_out()
    }
}
