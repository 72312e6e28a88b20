ghost use Rattle.std.specs.Prelude.{◌≡◌, ◌≤◌, ◌<◌, ◌+◌, ◌*◌, ◌^◌, ◌∷◌, ◌++◌, [], length, min, drop, OnErr, OnOk};
ghost use Rattle.chunk_wire.specs.declared.message.Message.{Message};
ghost use Rattle.rtmp_client.specs.Owing.{Apart, IsSayable, Says, Shows, cost_of, nothing};

use av_unit::{Bytes, OutOfMemory};
use chunk_wire::Message;
use chunk_writer::Writer;
use std::alloc::Global;
use std::marker::Model;

// The largest number of sent bytes that are kept, unless more are pending.
const KEPT_MOST: usize = 16_384;

/// The bytes that a client is to send, encoded: the rest of a tag, and the bytes that stand after it.
///
/// Contracts see the bytes, the writer after them, and the number of the last bytes that are of no tag.
#[derive(Drop)]
pub struct Outgoing {
    writer: Writer,
    bytes: Bytes,
    offset: usize,
    tag: usize,
}

impl Model for Outgoing {
    ghost use Rattle.rtmp_client.specs.Owing.{IsOwing, Owing, owing};

    ghost Value = { Owing };

    ghost view = { λ o. owing o.bytes o.offset o.tag o.writer };

    ghost invariant = { λ o. IsOwing o.bytes o.offset o.tag o.writer };
}

impl Outgoing {
    /// Makes an empty one: nothing is to be sent.
    pub fn new(alloc: Global) -> Outgoing
        ensures { result ≡ nothing }
    {
        Outgoing {
            writer: Writer::new(alloc),
            bytes: Bytes::new(alloc),
            offset: 0,
            tag: 0,
        }
    }

    /// Appends bytes that no writer writes: those of the handshake.
    pub fn append(&mut self, bytes: &[u8]) -> Result<(), OutOfMemory>
        ensures bytes { OnOk result (self.new.pending ≡ self.old.pending ++ bytes.now) }
        ensures others { OnOk result (self.new.others ≡ self.old.others + length bytes.now) }
        ensures writer { self.new.writer ≡ self.old.writer }
        ensures apart { Apart self.old self.new }
        ensures err { OnErr result (self.new ≡ self.old) }
    {
        self.bytes.append(bytes)
    }

    /// Appends a message that is no tag.
    pub fn say(&mut self, message: &Message) -> Result<(), OutOfMemory>
        requires { IsSayable message.now }
        ensures said { OnOk result (Says self.old (message.now ∷ []) self.new) }
        ensures light { 16 * self.new.others ≤ 16 * self.old.others + cost_of message.now }
        ensures apart { Apart self.old self.new }
        ensures err { OnErr result (self.new ≡ self.old) }
    {
        self.writer.put_message(message, &mut self.bytes)
    }

    /// Appends the message of a tag, if nothing is pending.
    pub fn show(&mut self, message: &Message) -> Result<(), OutOfMemory>
        requires nothing { self.old.pending ≡ [] }
        requires sayable { IsSayable message.now }
        ensures shown { OnOk result (Shows self.old message.now self.new) }
        ensures most { self.old.writer.size ≡ 4096 → OnOk result (512 * length self.new.pending ≤ 9216 + 513 * length message.now.body) }
        ensures range { message.now.time < 2 ^ 32 }
        ensures err { OnErr result (self.new ≡ self.old) }
    {
        self.writer.put_message(message, &mut self.bytes)?;
        self.tag = self.bytes.len();
        Ok(())
    }

    /// Returns the pending bytes.
    pub fn pending(&self) -> &[u8]
        ensures { result.now ≡ self.now.pending }
    {
        &self.bytes.as_slice()[self.offset..]
    }

    /// Returns the number of the last bytes pending that are of no tag.
    pub fn others(&self) -> usize
        ensures { result ≡ self.now.others }
    {
        self.bytes.len() - self.offset.max(self.tag)
    }

    /// Notes that the first `count` bytes were sent. Sent bytes are dropped if they are at least 16,384 and
    /// at least as many as the bytes still to be sent.
    pub fn sent(&mut self, alloc: Global, count: usize)
        requires { count ≤ length self.old.pending }
        ensures pending { self.new.pending ≡ drop count self.old.pending }
        ensures writer { self.new.writer ≡ self.old.writer }
        ensures others { self.new.others ≡ min self.old.others (length self.new.pending) }
    {
        let left = self.bytes.len() - self.offset;
        if count >= left {
            self.bytes = Bytes::new(alloc);
            self.offset = 0;
            self.tag = 0;
            return;
        }
        let offset = self.offset + count;
        if offset < KEPT_MOST || offset < self.bytes.len() - offset {
            self.offset = offset;
        } else {
            let bytes = std::mem::replace(&mut self.bytes, Bytes::new(alloc));
            self.bytes = bytes.without_front(offset);
            self.offset = 0;
            self.tag = self.tag.saturating_sub(offset);
        }
    }
}
