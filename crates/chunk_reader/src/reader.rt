ghost use Rattle.std.specs.Prelude.{◌≡◌, ◌≤◌, ◌<◌, [], ◌++◌, length, take, true, false, is_some, IfOk, IfErr, IfSome, Some, None, Err};
ghost use Rattle.chunk_reader.specs.Feeds.{IsFedTo, IsHeld, IsRefused, IsTakenTo};
ghost use Rattle.chunk_reader.specs.Reads.{ended, part_limit};

use crate::fail::{ReadCause, ReadFail};
use crate::fields::Core;
use crate::take::take_some;
use chunk_wire::Message;
use past::{Flow, Pair};
use std::alloc::Global;
use std::marker::Model;
use std::snapshot::Snapshot;

/// The result of a feed: the number of bytes that it used of its piece, and the message that ends there.
#[derive(Drop)]
pub struct Fed {
    pub used: usize,
    pub message: Option<Message>,
}

/// A reader of chunks.
#[derive(Drop)]
pub struct Reader {
    core: Core,
    count: u64,
    failed: Option<ReadFail>,
    fed: Flow<u8>,
    given: Flow<Pair<u64, Message>>,
}

impl Model for Reader {
    ghost use Rattle.chunk_reader.specs.ReaderKnown.{ReaderKnown};
    ghost use Rattle.chunk_reader.specs.Sound.{IsSound};

    ghost Value = { ReaderKnown };

    ghost view = { λ r. record { max = r.core.max; fed = r.fed; given = r.given; failed = r.failed } };

    ghost invariant = { λ r. IsSound r.core r.count r.failed r.fed r.given };
}

// Makes the fields of a fresh reader.
fn fresh(alloc: Global, max_message: u32) -> Core
    ensures max { result.max ≡ max_message }
    ensures size { result.size ≡ 128 }
    ensures slots { result.slots.items ≡ [] }
    ensures head { result.head.items ≡ [] }
    ensures need { result.need ≡ 0 }
    ensures held { result.held ≡ 0 }
{
    Core {
        max: max_message,
        size: 128,
        slots: Vec::new(alloc),
        head: Vec::new(alloc),
        place: 0,
        need: 0,
        held: 0,
    }
}

// Notes a message that ends after `end` bytes.
fn note(given: &mut Flow<Pair<u64, Message>>, end: u64, message: &Option<Message>)
    ensures { given.new ≡ given.old ++ ended end message.now }
{
    match message {
        None => {}
        Some(whole) => given.add(&Pair::of(Snapshot::of(&end), whole)),
    }
}

impl Reader {
    /// Makes a reader that takes messages of at most `max_message` bytes, and holds at most 65,536 bytes more
    /// of messages in progress.
    pub fn new(alloc: Global, max_message: u32) -> Reader
        ensures { result ≡ record { max = max_message; fed = []; given = []; failed = None } }
    {
        Reader {
            core: fresh(alloc, max_message),
            count: 0,
            failed: None,
            fed: Flow::new(),
            given: Flow::new(),
        }
    }

    // Takes some bytes of a piece.
    fn advance(&mut self, alloc: Global, piece: &[u8]) -> Result<Fed, ReadFail>
        requires lives { self.old.failed ≡ None }
        requires some { 0 < length piece.now }
        ensures ok { IfOk result (λ f. IsTakenTo self.old piece.now f.used f.message self.new) }
        ensures err { IfErr result (λ e. IsRefused self.old piece.now e self.new) }
    {
        match take_some(&mut self.core, alloc, piece, self.count) {
            Ok(taken) => {
                let used = taken.used;
                let message = taken.message;
                self.count += used as u64;
                self.fed.add_all(&piece[..used]);
                note(&mut self.given, self.count, &message);
                Ok(Fed { used, message })
            }
            Err(refusal) => {
                let at = self.count + refusal.after as u64;
                let fail = ReadFail {
                    cause: refusal.cause,
                    at,
                };
                self.count = at;
                self.fed.add_all(&piece[..refusal.after]);
                self.core = fresh(alloc, self.core.max);
                self.failed = Some(fail);
                Err(fail)
            }
        }
    }

    /// Takes a piece up to its end, or to the end of the message that it completes. There Set Chunk Size and
    /// Abort apply. A reader that refused a byte answers the same again.
    pub fn feed(&mut self, alloc: Global, piece: &[u8]) -> Result<Fed, ReadFail>
        ensures again { IfSome self.old.failed (λ e. (result ≡ Err e) × (self.new ≡ self.old)) }
        ensures ok { self.old.failed ≡ None → IfOk result (λ f. IsFedTo self.old piece.now f.used f.message self.new) }
        ensures err { self.old.failed ≡ None → IfErr result (λ e. IsRefused self.old piece.now e self.new) }
    {
        if let Some(fail) = self.failed {
            return Err(fail);
        }
        let mut used = 0;
        while used < piece.len() {
            match self.advance(alloc, &piece[used..]) {
                Err(fail) => return Err(fail),
                Ok(
                    Fed {
                        used: more,
                        message,
                    },
                ) => {
                    used += more;
                    if message.is_some() {
                        return Ok(Fed { used, message });
                    }
                }
            }
        }
        Ok(Fed {
            used,
            message: None,
        })
    }

    /// Returns the number of bytes held of messages in progress: at most 65,536 more than the longest message
    /// has, and none once the reader has failed.
    pub fn held(&self) -> u64
        ensures lives { is_some self.now.failed ≡ false → IsHeld self.now result }
        ensures most { result ≤ part_limit self.now.max }
        ensures failed { is_some self.now.failed ≡ true → result ≡ 0 }
    {
        self.core.held
    }
}
