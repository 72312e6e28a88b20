ghost use Rattle.std.specs.Prelude.{◌≡◌, ◌≤◌, ◌<◌, ◌+◌, ◌*◌, ◌^◌, ◌⊎◌, ◌∷◌, ◌++◌, [], length, min, drop, OnErr, OnOk};
ghost use Rattle.chunk_wire.specs.declared.message.Message.{Message};
ghost use Rattle.chunk_writer.specs.Written.{after_all, written};
ghost use Rattle.command_dialog.specs.Dialog.{unit_message};
ghost use Rattle.session_owed.specs.Chunks.{rest_by};
ghost use Rattle.relay_session.specs.Holding.{unit_bytes};
ghost use Rattle.relay_session.specs.Owing.{AreWritable, IsSayable, IsSized, IsUnfinished, Says, Shows, cost_of, costs_of, nothing, pending};

use crate::unit_in_hand::UnitInHand;
use av_unit::{Bytes, OutOfMemory, UnitArc};
use chunk_wire::Message;
use chunk_writer::Writer;
use std::alloc::Global;
use std::marker::Model;

/// The largest number of bytes that are sent at once.
pub(crate) const AT_ONCE: usize = 16_384;

// The largest number of bytes of a unit that are encoded at the same time: those that are sent at once, and a
// chunk.
const READY_MOST: usize = 20_498;

/// The bytes that a session is to send: those that are encoded, the rest of a unit that is encoded as it is
/// sent, and those that stand after it.
///
/// Contracts see the bytes that are encoded, those that stand after them, the writer after all, and the
/// number of the last bytes that are of no item taken. They also see the unit in hand, and the bytes that
/// were encoded since that was begun.
#[derive(Drop)]
pub struct Outgoing {
    writer: Writer,
    first: Bytes,
    offset: usize,
    item: usize,
    hand: Option<UnitInHand>,
    later: Bytes,
}

impl Model for Outgoing {
    ghost use Rattle.relay_session.specs.Owing.{IsOwing, Owing, owing};

    ghost Value = { Owing };

    ghost view = { λ o. owing o.first o.offset o.item o.hand o.later o.writer };

    ghost invariant = { λ o. IsOwing o.first o.offset o.item o.hand o.later o.writer };
}

// Writes messages in turn.
fn write_all(writer: &mut Writer, messages: &[Message], out: &mut Bytes) -> Result<(), OutOfMemory>
    requires { AreWritable messages.now }
    ensures writer { OnOk result (writer.new ≡ after_all writer.old messages.now) }
    ensures bytes { OnOk result (out.new ≡ out.old ++ written writer.old messages.now) }
    ensures grows { length out.old ≤ length out.new }
    ensures light { IsSized writer.old.size → 16 * length out.new ≤ 16 * length out.old + costs_of messages.now }
    ensures sized { IsSized writer.old.size → IsSized writer.new.size }
{
    let mut left = messages;
    while let [message, rest @ ..] = left {
        writer.put_message(message, out)?;
        left = rest;
    }
    Ok(())
}

// Returns the number of bytes left of the unit in hand, if there is one.
fn hand_len(hand: &Option<UnitInHand>) -> usize
    ensures value { result ≡ length (rest_by hand.now) }
    ensures most { result < 2 ^ 29 }
{
    match hand {
        None => 0,
        Some(hand) => hand.left_len(),
    }
}

impl Outgoing {
    /// Makes an empty one: nothing is to be sent.
    pub fn new(alloc: Global) -> Outgoing
        ensures { result ≡ nothing }
    {
        Outgoing {
            writer: Writer::new(alloc),
            first: Bytes::new(alloc),
            offset: 0,
            item: 0,
            hand: None,
            later: Bytes::new(alloc),
        }
    }

    /// Appends bytes that no writer writes: those of the handshake.
    pub fn append(&mut self, bytes: &[u8]) -> Result<(), OutOfMemory>
        ensures bytes { OnOk result (pending self.new ≡ pending self.old ++ bytes.now) }
        ensures writer { OnOk result (self.new.writer ≡ self.old.writer) }
        ensures others { OnOk result (self.new.others ≡ self.old.others + length bytes.now) }
        ensures unit { unit_bytes self.new.hand ≤ unit_bytes self.old.hand }
        ensures err { OnErr result (self.new ≡ self.old) }
    {
        match self.hand {
            None => self.first.append(bytes),
            Some(_) => self.later.append(bytes),
        }
    }

    /// Appends a message.
    pub fn say(&mut self, message: &Message) -> Result<(), OutOfMemory>
        requires { IsSayable message.now }
        ensures said { OnOk result (Says self.old (message.now ∷ []) self.new) }
        ensures light { 16 * self.new.others ≤ 16 * self.old.others + cost_of message.now }
        ensures unit { unit_bytes self.new.hand ≤ unit_bytes self.old.hand }
    {
        match self.hand {
            None => self.writer.put_message(message, &mut self.first),
            Some(_) => self.writer.put_message(message, &mut self.later),
        }
    }

    /// Appends messages in turn.
    pub fn say_all(&mut self, messages: &[Message]) -> Result<(), OutOfMemory>
        requires { AreWritable messages.now }
        ensures said { OnOk result (Says self.old messages.now self.new) }
        ensures light { 16 * self.new.others ≤ 16 * self.old.others + costs_of messages.now }
        ensures unit { unit_bytes self.new.hand ≤ unit_bytes self.old.hand }
    {
        match self.hand {
            None => write_all(&mut self.writer, messages, &mut self.first),
            Some(_) => write_all(&mut self.writer, messages, &mut self.later),
        }
    }

    /// Appends the few messages of a marker, if nothing is pending.
    pub fn show_all(&mut self, alloc: Global, messages: &[Message]) -> Result<(), OutOfMemory>
        requires nothing { pending self.old ≡ [] }
        requires writable { AreWritable messages.now }
        requires few { costs_of messages.now ≤ 8000 }
        ensures shown { OnOk result (Shows self.old messages.now self.new) }
        ensures light { self.new.others ≤ self.old.others }
        ensures unit { unit_bytes self.new.hand ≤ unit_bytes self.old.hand }
    {
        let mut first = Bytes::new(alloc);
        write_all(&mut self.writer, messages, &mut first)?;
        self.offset = 0;
        self.item = first.len();
        self.first = first;
        self.hand = None;
        self.later = Bytes::new(alloc);
        Ok(())
    }

    /// Appends the message of a unit on a message stream, if nothing is pending. The unit stays shared, and
    /// is encoded as it is sent. A unit of more than `longest` bytes is refused as out of memory.
    pub fn show_unit(
        &mut self,
        alloc: Global,
        stream: u32,
        longest: u32,
        unit: UnitArc,
    ) -> Result<(), OutOfMemory>
        requires { pending self.old ≡ [] }
        ensures shown { OnOk result (Shows self.old (unit_message stream unit ∷ []) self.new) }
        ensures light { self.new.others ≤ self.old.others }
        ensures unit { unit_bytes self.old.hand ≤ longest → unit_bytes self.new.hand ≤ longest }
    {
        if unit.unit().body.len() > longest as usize {
            return Err(OutOfMemory);
        }
        let hand = UnitInHand::begin(&mut self.writer, stream, unit)?;
        self.first.truncate(0);
        self.offset = 0;
        self.item = 0;
        let _ = self.first.reserve(hand.left_len().min(READY_MOST));
        self.hand = Some(hand);
        self.later = Bytes::new(alloc);
        Ok(())
    }

    /// Encodes more, until all bytes are encoded or as many as are sent at once. The pending bytes stay the
    /// same. A unit that was encoded whole is dropped.
    pub fn fill(&mut self, alloc: Global) -> Result<(), OutOfMemory>
        ensures bytes { OnOk result (pending self.new ≡ pending self.old) }
        ensures writer { OnOk result (self.new.writer ≡ self.old.writer) }
        ensures others { OnOk result (self.new.others ≡ self.old.others) }
        ensures filled { OnOk result ((16384 ≤ length self.new.ready) ⊎ (self.new.rest ≡ [])) }
        ensures let_go { OnOk result (IsUnfinished self.new.hand) }
        ensures light { self.new.others ≤ self.old.others }
        ensures unit { unit_bytes self.new.hand ≤ unit_bytes self.old.hand }
    {
        let left = match &mut self.hand {
            None => return Ok(()),
            Some(hand) => {
                hand.fill(&mut self.first, self.offset, AT_ONCE)?;
                hand.left_len()
            }
        };
        if left == 0 {
            self.item = self.first.len();
            let later = std::mem::replace(&mut self.later, Bytes::new(alloc));
            self.first.append(later.as_slice())?;
            self.hand = None;
        }
        Ok(())
    }

    /// Returns the number of the last bytes pending that are of no item taken.
    pub fn others(&self) -> usize
        ensures { result ≡ self.now.others }
    {
        match self.hand {
            None => self.first.len() - self.offset.max(self.item),
            Some(_) => self.later.len(),
        }
    }

    /// Returns the number of bytes of the unit that is being sent, or 0.
    pub fn unit_len(&self) -> usize
        ensures value { result ≡ unit_bytes self.now.hand }
        ensures most { result ≤ 4194304 }
    {
        match &self.hand {
            None => 0,
            Some(hand) => hand.body_len(),
        }
    }

    /// Returns the bytes that were encoded since the unit that is being sent was begun.
    pub fn later(&self) -> &[u8]
        ensures { result.now ≡ self.now.later }
    {
        self.later.as_slice()
    }

    /// Returns the bytes that are encoded. Of an item these are at most those that are sent at once, and a
    /// chunk.
    pub fn ready(&self) -> &[u8]
        ensures value { result.now ≡ self.now.ready }
        ensures most { length self.now.ready + length self.now.later ≤ self.now.others + 20498 }
    {
        &self.first.as_slice()[self.offset..]
    }

    /// Returns the number of pending bytes. Those of the unit that is being sent are counted without encoding
    /// it.
    pub fn pending_len(&self) -> usize
        requires { self.now.others < 2 ^ 32 }
        ensures { result ≡ length (pending self.now) }
    {
        let unit = hand_len(&self.hand);
        let later = self.later().len();
        let ready = self.ready().len();
        ready + unit + later
    }

    /// Notes that the first `count` encoded bytes were sent. Fewer sent bytes are kept than are sent at once,
    /// and none if all were sent.
    pub fn sent(&mut self, alloc: Global, count: usize)
        requires { count ≤ length self.old.ready }
        ensures ready { self.new.ready ≡ drop count self.old.ready }
        ensures rest { self.new.rest ≡ self.old.rest }
        ensures writer { self.new.writer ≡ self.old.writer }
        ensures others { self.new.others ≡ min self.old.others (length (pending self.new)) }
        ensures unit { unit_bytes self.new.hand ≤ unit_bytes self.old.hand }
    {
        if count >= self.first.len() - self.offset {
            self.first.truncate(0);
            self.offset = 0;
            self.item = 0;
            return;
        }
        let offset = self.offset + count;
        if offset < AT_ONCE {
            self.offset = offset;
        } else {
            let first = std::mem::replace(&mut self.first, Bytes::new(alloc));
            self.first = first.without_front(offset);
            self.offset = 0;
            self.item = self.item.saturating_sub(offset);
        }
    }
}
