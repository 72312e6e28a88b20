//! FLV as a medium (Adobe FLV 10.1, annex E).
ghost use Rattle.std.specs.Prelude.{◌≡◌, ◌≢◌, ◌≤◌, ◌++◌, Some};
ghost use Rattle.flv_tags.specs.Text.{flv_text};
ghost use Rattle.turn_gate.specs.Histories.{Begins};
ghost use Rattle.media_recorder.specs.Taken.{taken};
ghost use Rattle.stream_model.specs.Held.{body_of};

use crate::medium::Medium;
use crate::recorder::Recorder;
use crate::turn::RecEnd;
use av_unit::{Bytes, Item, OutOfMemory};
use flv_tags::{write_header, write_item};
use past::Flow;
use std::alloc::Global;
use std::marker::Model;
use stream_registry::StreamPort;

/// A recorder that writes FLV.
pub type FlvRecorder<P> = Recorder<P, FlvMedium>;

/// FLV as a medium: a header, and a tag for each unit. It keeps no bytes.
#[derive(Drop)]
pub struct FlvMedium {
    items: Flow<Item>,
}

impl Model for FlvMedium {
    ghost use Rattle.std.specs.Prelude.{List};
    ghost use Rattle.av_unit.specs.declared.item.Item.{Item};

    ghost Value = { List Item };

    ghost view = { λ m. m.items };
}

// A body has at most as many bytes as any unit's.
fn known(item: &Item)
    ensures { body_of item.now ≤ 4194304 }
{
    match item {
        Item::Unit(shared) => {
            let _fits = shared.unit();
        }
        Item::Begin => {}
        Item::End => {}
    }
}

impl Medium for FlvMedium {
    ghost use Rattle.flv_tags.specs.Text.{flv_text};
    ghost use Rattle.media_recorder.specs.Flv.{flv_goes_on};

    ghost text = { flv_text };

    ghost written = { λ m. m };

    ghost kept = { λ _. 0 };

    fn begin(_alloc: Global, out: &mut Bytes) -> Result<FlvMedium, OutOfMemory> {
        write_header(out)?;
        Ok(FlvMedium { items: Flow::new() })
    }

    fn write(&mut self, item: &Item, out: &mut Bytes) -> Result<(), OutOfMemory> {
        known(item);
        write_item(item, out)?;
        self.items.add(item);
        Ok(())
    }

    fn held(&self) -> u64 {
        0
    }

    ghost goes_on = { flv_goes_on };
}

impl<P: StreamPort> Recorder<P, FlvMedium> {
    /// Shows that the bytes that the sink took, followed by the pending bytes, are the FLV text of the items
    /// that the recorder's Takes were sent. If memory was refused, they are a beginning of that text.
    pub fn flv_law(&self)
        ensures whole { self.now.end ≢ Some RecEnd.OutOfMemory → self.now.tape.sent ++ self.now.tape.pending ≡ flv_text (taken self.now.seat.calls) }
        ensures prefix { Begins (self.now.tape.sent ++ self.now.tape.pending) (flv_text (taken self.now.seat.calls)) }
    {
        self.law();
    }
}
