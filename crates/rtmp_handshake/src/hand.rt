ghost use Rattle.std.specs.Prelude.{◌≡◌, ◌+◌, ◌≤◌, ◌<◌, ◌↔◌, [], ◌++◌, length, IsTrue, IsOk, IfOk, IfErr, Some, None, Err};
ghost use Rattle.rtmp_handshake.specs.declared.fail.HandFail.{HandFail};
ghost use Rattle.rtmp_handshake.specs.Answer.{bad_version, answered};
ghost use Rattle.rtmp_handshake.specs.Handshake.{held_of, refused_version};
ghost use Rattle.rtmp_handshake.specs.Feeds.{used_of, read_of, out_of};
ghost use Rattle.rtmp_handshake.specs.Echo.{answer_by, kept_of};

use crate::HandFail;
use crate::answer::answer;
use crate::echo::keep;
use crate::slices::first;
use av_unit::{Bytes, OutOfMemory};
use past::Flow;
use std::alloc::Global;
use std::marker::Model;

// The number of bytes of C0 and C1, and of C0, C1 and C2.
const TO_C1: usize = 1_537;

const TO_C2: usize = 3_073;

/// The result of a feed: the number of bytes used of its piece, the bytes to send to the client, and whether
/// the handshake is done.
#[derive(Drop)]
pub struct HandFed {
    pub used: usize,
    pub out: Bytes,
    pub done: bool,
}

/// The server's side of one handshake.
///
/// It holds at most the 1,532 bytes of C1 that S2 gives back, and none after it has answered.
#[derive(Drop)]
pub struct Hand {
    count: usize,
    kept: Bytes,
    failed: Option<HandFail>,
    fed: Flow<u8>,
}

impl Model for Hand {
    ghost use Rattle.rtmp_handshake.specs.Handshake.{Handshake};
    ghost use Rattle.rtmp_handshake.specs.Sound.{IsSound};

    ghost Value = { Handshake };

    ghost view = { λ h. record { fed = h.fed; failed = h.failed } };

    ghost invariant = { λ h. IsSound h.count h.kept h.failed h.fed };
}

/// Gives the version that a piece begins with, if it is the client's first piece and the version isn't 3.
fn other_version(before: usize, piece: &[u8]) -> Option<u8>
    ensures first { before ≡ 0 → result ≡ bad_version piece.now }
    ensures later { 0 < before → result ≡ None }
{
    match piece {
        [byte, ..] if before == 0 && *byte != 3 => Some(*byte),
        _ => None,
    }
}

/// Reads a piece, and gives the bytes to send with it.
fn read(alloc: Global, kept: &mut Bytes, before: usize, piece: &[u8]) -> Result<Bytes, OutOfMemory>
    ensures answered { 1537 ≤ before → IsOk result }
    ensures late { 1537 ≤ before → IfOk result (λ out. out ≡ []) }
    ensures early { before + length piece.now < 1537 → IfOk result (λ out. (out ≡ []) × (kept.new ≡ kept.old ++ kept_of before piece.now)) }
    ensures still { 1537 ≤ before → kept.new ≡ kept.old }
    ensures let_go { before < 1537 → 1537 ≤ before + length piece.now → IfOk result (λ _. kept.new ≡ []) }
    ensures now { before < 1537 → 1537 ≤ before + length piece.now → IfOk result (λ out. out ≡ answer_by (kept.old ++ kept_of before piece.now)) }
{
    if before >= TO_C1 {
        return Ok(Bytes::new(alloc));
    }
    keep(kept, before, piece)?;
    if before + piece.len() < TO_C1 {
        return Ok(Bytes::new(alloc));
    }
    let whole = std::mem::replace(kept, Bytes::new(alloc));
    answer(alloc, whole.as_slice())
}

impl Hand {
    /// Makes a handshake that has read no bytes.
    pub fn new(alloc: Global) -> Hand
        ensures { result ≡ record { fed = []; failed = None } }
    {
        Hand {
            count: 0,
            kept: Bytes::new(alloc),
            failed: None,
            fed: Flow::new(),
        }
    }

    /// Reads a piece of the client's bytes, up to its end or to the end of C2.
    ///
    /// If the piece completes C1, at the 1,537th byte, `out` is the whole answer of 3,073 bytes, else it is
    /// empty. `done` means that all 3,073 bytes of the client were read; the rest of the piece is then for
    /// the chunk reader. A handshake that is done uses no further bytes.
    ///
    /// It fails with `BadVersion` exactly if the client's first byte isn't 3. A failed handshake read no byte
    /// of the piece, and gives the same answer to each later one. A handshake that has answered takes no
    /// memory.
    pub fn feed(&mut self, alloc: Global, piece: &[u8]) -> Result<HandFed, HandFail>
        // A failed handshake gives the same answer again.
        ensures again { (e : HandFail) → self.old.failed ≡ Some e → result ≡ Err e }

        // If it hasn't failed, the version is refused exactly if the client's first byte isn't 3.
        ensures version { self.old.failed ≡ None → refused_version result ≡ bad_version (self.old.fed ++ piece.now) }

        // Once it has answered it takes no memory.
        ensures memory { self.old.failed ≡ None → 1537 ≤ length self.old.fed → IsOk result }

        // A feed that fails reads nothing.
        ensures err { IfErr result (λ e. self.new ≡ record { fed = self.old.fed; failed = Some e }) }
        ensures ok { IfOk result (λ f. self.new ≡ record { fed = self.old.fed ++ read_of self.old.fed piece.now; failed = None }) }
        ensures used { IfOk result (λ f. f.used ≡ used_of self.old.fed piece.now) }
        ensures out { IfOk result (λ f. f.out ≡ out_of self.old.fed piece.now) }

        // The bytes put out so far are those that the bytes read so far call for.
        ensures sum { IfOk result (λ f. answered self.old.fed ++ f.out ≡ answered self.new.fed) }
        ensures done { IfOk result (λ f. IsTrue f.done ↔ (length self.new.fed ≡ 3073)) }
        ensures most { length self.new.fed ≤ 3073 }
    {
        if let Some(fail) = self.failed {
            return Err(fail);
        }
        if let Some(byte) = other_version(self.count, piece) {
            let fail = HandFail::BadVersion { byte };
            self.failed = Some(fail);
            return Err(fail);
        }
        let taken = first(piece, TO_C2 - self.count);
        let Ok(out) = read(alloc, &mut self.kept, self.count, taken) else {
            self.kept = Bytes::new(alloc);
            self.failed = Some(HandFail::OutOfMemory);
            return Err(HandFail::OutOfMemory);
        };
        let used = taken.len();
        self.count += used;
        self.fed.add_all(taken);
        let done = self.count == TO_C2;
        Ok(HandFed { used, out, done })
    }

    /// Gives the number of bytes it keeps: those of C1's time and random bytes that it has read, until it has
    /// answered or failed.
    pub fn held(&self) -> usize
        ensures value { result ≡ held_of self.now }
        ensures most { result ≤ 1532 }
    {
        self.kept.len()
    }
}
