ghost use Rattle.std.specs.Prelude.{◌≡◌, [], true, false};

use relay_outside::{Put, Sink, SinkNews};
use std::alloc::Global;
use std::marker::Model;

/// A file in memory. It takes each piece whole, but for the puts that are to fail.
#[derive(Drop)]
pub(crate) struct File {
    list: Vec<u8>,
    put_due: bool,
    faults: u64,
}

impl File {
    // An empty file.
    pub(crate) fn new(alloc: Global) -> File
        ensures { result ≡ record { bytes = []; put_fails = false; faults = 0 } }
    {
        File {
            list: Vec::new(alloc),
            put_due: false,
            faults: 0,
        }
    }

    /// Lets the next put fail, and no other.
    pub(crate) fn fail_put(&mut self)
        ensures { self.new ≡ record self.old { put_fails = true } }
    {
        self.put_due = true;
    }

    pub(crate) fn bytes(&self) -> &[u8]
        ensures { result.now ≡ self.now.bytes }
    {
        &self.list
    }
}

impl Model for File {
    ghost use Rattle.relay_replay.specs.Files.{FileState};

    ghost Value = { FileState };

    ghost view = { λ f. record { bytes = f.list.items; put_fails = f.put_due; faults = f.faults } };
}

impl Sink for File {
    ghost use Rattle.std.specs.Prelude.{Some};
    ghost use Rattle.relay_replay.specs.Files.{FileTakes, file_takes_mean};

    ghost holds = { λ f. Some f.bytes };

    ghost faults = { λ f. f.faults };

    ghost takes = { FileTakes };

    fn put(&mut self, piece: &[u8]) -> Put {
        if std::mem::replace(&mut self.put_due, false) {
            self.faults = self.faults.saturating_add(1);
            return Put::Failed;
        }
        match self.list.extend_from_slice(piece) {
            Ok(()) => Put::Took(piece.len()),
            Err(_) => Put::OutOfMemory,
        }
    }

    fn tell(&self, _news: SinkNews) {}

    ghost takes_mean = { file_takes_mean };
}
