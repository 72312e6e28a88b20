ghost use Rattle.std.specs.Prelude.{◌≡◌, ◌≤◌, ◌<◌, ◌^◌, ◌+◌, ◌++◌, [], false, if◌then◌else◌, length, IfOk, OnErr};
ghost use Rattle.chunk_writer.specs.Written.{IsBegun};
ghost use Rattle.chunk_writer.specs.InHand.{after_chunk, chunk_of, format_of, has_more, in_hand, left_of, payload_of};

use crate::Begun;
use crate::chunks::write_chunk;
use crate::lengths::{header_len, message_len, spread_len};
use av_unit::{Bytes, OutOfMemory};
use std::marker::Model;

/// A message that is begun, and whose chunks are written one by one. It doesn't hold the message's body.
#[derive(Drop)]
pub struct Sending {
    begun: Begun,
    size: u32,
    sent: u32,
    fresh: bool,
}

impl Model for Sending {
    ghost use Rattle.chunk_writer.specs.InHand.{InHand};
    ghost use Rattle.chunk_writer.specs.Sound.{IsSending};

    ghost Value = { InHand };

    ghost view = { λ s. record { begun = s.begun; size = s.size; sent = s.sent; fresh = s.fresh } };

    ghost invariant = { λ s. IsSending s.begun s.size s.sent s.fresh };
}

impl Sending {
    /// Makes a message of which nothing is written yet.
    pub(crate) fn new(size: u32, begun: Begun) -> Sending
        requires some { 1 ≤ size }
        requires begun { IsBegun begun }
        ensures { result ≡ in_hand size begun }
    {
        Sending {
            begun,
            size,
            sent: 0,
            fresh: true,
        }
    }

    // Tells whether a further chunk is to be written.
    #[tactic(auto, using(std::proofs::lemmas::Bool::Decides::nat_tests))]
    fn has_chunk(&self, body: &[u8]) -> bool
        ensures { result ≡ has_more self.now body.now }
    {
        self.fresh || (self.sent as usize) < body.len()
    }

    // Returns the format of the next chunk.
    fn format(&self) -> u8
        ensures value { result ≡ format_of self.now }
        ensures low { result < 4 }
    {
        if self.fresh { self.begun.format } else { 3 }
    }

    // Returns the bytes of the body that the next chunk has.
    fn payload<'a>(&self, body: &'a [u8]) -> &'a [u8]
        requires { length body.now ≡ self.now.begun.terms.length }
        ensures value { result.now ≡ payload_of self.now body.now }
        ensures within { self.now.sent + length result.now ≤ self.now.begun.terms.length }
    {
        let left = &body[self.sent as usize..];
        &left[..left.len().min(self.size as usize)]
    }

    /// Returns the number of bytes that are left of the message with this body: those of the chunks still to
    /// be written.
    pub fn left_len(&self, body: &[u8]) -> usize
        requires { length body.now ≡ self.now.begun.terms.length }
        ensures value { result ≡ length (left_of self.now body.now) }
        ensures most { result < 2 ^ 29 }
    {
        let size = self.size as usize;
        if self.fresh {
            return message_len(&self.begun, size, body.len());
        }
        let left = body.len() - self.sent as usize;
        spread_len(header_len(3, &self.begun), size, 0, left)
    }

    /// Appends the next chunk of the message with this body, and returns whether there was one. All together
    /// the chunks are the bytes that `put` writes. If memory is refused, neither the message nor `out`
    /// changes.
    #[tactic(auto, using(crate::proofs::Chunked::written_more, crate::proofs::Chunked::none_left))]
    pub fn next_chunk(&mut self, body: &[u8], out: &mut Bytes) -> Result<bool, OutOfMemory>
        requires { length body.now ≡ self.old.begun.terms.length }
        ensures more { IfOk result (λ more. more ≡ has_more self.old body.now) }
        ensures chunk { IfOk result (λ more. out.new ≡ out.old ++ (if more then chunk_of self.old body.now else [])) }
        ensures sending { IfOk result (λ more. self.new ≡ (if more then after_chunk self.old body.now else self.old)) }

        // The bytes written, followed by those left, are the same before and after.
        ensures left { IfOk result (λ _. out.new ++ left_of self.new body.now ≡ out.old ++ left_of self.old body.now) }
        ensures none { IfOk result (λ more. more ≡ false → left_of self.new body.now ≡ []) }
        ensures err { OnErr result ((self.new ≡ self.old) × (out.new ≡ out.old)) }
    {
        if !self.has_chunk(body) {
            return Ok(false);
        }
        let payload = self.payload(body);
        write_chunk(self.format(), &self.begun, payload, out)?;
        self.sent += payload.len() as u32;
        self.fresh = false;
        Ok(true)
    }
}
