ghost use Rattle.std.specs.Prelude.{◌≡◌, ◌≤◌, ◌<◌, ◌^◌, ◌++◌, List, ℕ, length, true, IfOk, OnOk, OnErr};
ghost use Rattle.chunk_writer.specs.WriterKnown.{fresh, sized};
ghost use Rattle.chunk_writer.specs.Rule.{begun_on, is_written};
ghost use Rattle.chunk_writer.specs.Written.{IsHeading, IsWritable, after, after_heading, bytes_of, heading_with, message_bytes, message_with, next};
ghost use Rattle.chunk_writer.specs.InHand.{in_hand};

use crate::chunks::write_message;
use crate::lasts::{Found, find, keep};
use crate::rule::{begin, chunk_stream};
use crate::{Begun, Heading, Sending};
use av_unit::{Bytes, OutOfMemory};
use chunk_wire::Message;
use past::History;
use relay_base::be32;
use std::alloc::Global;
use std::marker::Model;

// The type of a Set Chunk Size message (5.4.1).
const SET_CHUNK_SIZE: u8 = 1;

/// A writer of chunks. It keeps its chunk size and the beginning of the last message on each chunk stream. By
/// `put` there are at most five of these.
#[derive(Drop)]
pub struct Writer {
    size: u32,
    lasts: Vec<Begun>,
    said: History<Begun>,
}

impl Model for Writer {
    ghost use Rattle.chunk_writer.specs.WriterKnown.{WriterKnown};
    ghost use Rattle.chunk_writer.specs.Sound.{IsSound};

    ghost Value = { WriterKnown };

    ghost view = { λ w. record { size = w.size; said = w.said } };

    ghost invariant = { λ w. IsSound w.size w.lasts.items w.said };
}

impl Writer {
    /// Makes a writer that has written nothing. Its chunks have at most 128 bytes of payload (5.4.1).
    pub fn new(alloc: Global) -> Writer
        ensures { result ≡ fresh }
    {
        Writer {
            size: 128,
            lasts: Vec::new(alloc),
            said: History::new(),
        }
    }

    /// Sets the chunk size, in bytes of payload (5.4.1). It holds for the messages from the next on: call it directly
    /// after the Set Chunk Size message that tells the peer.
    pub fn set_size(&mut self, size: u32)
        requires some { 1 ≤ size }
        requires most { size < 2 ^ 31 }
        ensures { self.new ≡ sized size self.old }
    {
        self.size = size;
    }

    // Appends a message and keeps its beginning.
    fn write(&mut self, heading: &Heading, body: &[u8], out: &mut Bytes) -> Result<(), OutOfMemory>
        requires heading { IsHeading heading.now }
        requires length { length body.now ≡ heading.now.length }
        ensures writer { OnOk result (self.new ≡ after_heading self.old heading.now) }
        ensures bytes { OnOk result (out.new ≡ out.old ++ message_bytes self.old.size (begun_on self.old.said heading.now) body.now) }
        ensures err { OnErr result ((self.new ≡ self.old) × ((rest : List ℕ) × (out.new ≡ out.old ++ rest))) }
    {
        let Found { place, last } = find(&self.lasts, heading.id);
        let begun = begin(last, heading);
        write_message(self.size as usize, &begun, body, out)?;
        keep(&mut self.lasts, place, begun)?;
        self.said.add(&begun);
        Ok(())
    }

    /// Appends a message of this type, message stream, time in milliseconds and body as chunks (5.3.1).
    ///
    /// Its chunk stream is that of `chunk_stream`. It begins with format 0 if it is the first there, if its
    /// message stream isn't that of the message before there, or if its time is less. Else it begins with
    /// format 1 if its length or type is another. Else it begins with format 3 if the one before didn't begin
    /// with format 0 and came after the same delta, below 0xFFFFFF. Else it begins with format 2.
    ///
    /// Further chunks have format 3. If memory is refused, neither the writer nor `out` changes.
    #[tactic(auto, unfolding(crate::specs::Written::bytes_of))]
    pub fn put(
        &mut self,
        kind: u8,
        stream: u32,
        time: u32,
        body: &[u8],
        out: &mut Bytes,
    ) -> Result<(), OutOfMemory>
        requires kind { is_written kind ≡ true }
        requires length { length body.now < 2 ^ 24 }
        ensures writer { OnOk result (self.new ≡ after self.old (message_with kind stream time body.now)) }
        ensures bytes { OnOk result (out.new ≡ out.old ++ bytes_of self.old (message_with kind stream time body.now)) }
        ensures err { OnErr result ((self.new ≡ self.old) × (out.new ≡ out.old)) }
    {
        let heading = Heading {
            id: chunk_stream(kind),
            kind,
            stream,
            time,
            length: body.len() as u32,
        };
        let before = out.len();
        match self.write(&heading, body, out) {
            Ok(()) => Ok(()),
            Err(e) => {
                out.truncate(before);
                Err(e)
            }
        }
    }

    /// Appends a message. If it is a Set Chunk Size message, the messages after it are written in chunks of
    /// its size (5.4.1). If memory is refused, neither the writer nor `out` changes.
    #[tactic(auto, using(std::proofs::lemmas::Bool::Decides::nat_tests), unfolding(crate::specs::Written::resized_by))]
    pub fn put_message(&mut self, message: &Message, out: &mut Bytes) -> Result<(), OutOfMemory>
        requires { IsWritable message.now }
        ensures writer { OnOk result (self.new ≡ next self.old message.now) }
        ensures bytes { OnOk result (out.new ≡ out.old ++ bytes_of self.old message.now) }
        ensures err { OnErr result ((self.new ≡ self.old) × (out.new ≡ out.old)) }
        ensures range { (message.now.stream < 2 ^ 32) × (message.now.time < 2 ^ 32) }
    {
        let Message {
            kind,
            stream,
            time,
            ref body,
        } = *message;
        let body = body.as_slice();
        self.put(kind, stream, time, body, out)?;
        if kind == SET_CHUNK_SIZE && body.len() >= 4 {
            self.set_size(be32(body));
        }
        Ok(())
    }

    /// Begins a message whose chunks are written one by one, on a chunk stream from 2 to 65,599. Its header
    /// has its type, its message stream, its time in milliseconds, and the length of its body in bytes. It
    /// begins as by `put`, and its chunks have the present chunk size. If memory is refused, nothing changes.
    pub fn begin(
        &mut self,
        id: u32,
        kind: u8,
        stream: u32,
        time: u32,
        length: u32,
    ) -> Result<Sending, OutOfMemory>
        requires id_low { 2 ≤ id }
        requires id_high { id ≤ 65599 }
        requires length { length < 2 ^ 24 }
        ensures writer { OnOk result (self.new ≡ after_heading self.old (heading_with id kind stream time length)) }
        ensures sending { IfOk result (λ s. s ≡ in_hand self.old.size (begun_on self.old.said (heading_with id kind stream time length))) }
        ensures err { OnErr result (self.new ≡ self.old) }
    {
        let heading = Heading {
            id,
            kind,
            stream,
            time,
            length,
        };
        let Found { place, last } = find(&self.lasts, id);
        let begun = begin(last, &heading);
        keep(&mut self.lasts, place, begun)?;
        self.said.add(&begun);
        Ok(Sending::new(self.size, begun))
    }
}
