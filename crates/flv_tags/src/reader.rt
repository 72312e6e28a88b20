ghost use Rattle.std.specs.Prelude.{◌≡◌, ◌≢◌, ◌≤◌, ◌<◌, ◌+◌, ◌-◌, ◌^◌, ◌⊎◌, [], ◌++◌, ℕ, List, length, slice_index, true, false, option_to_list};
ghost use Rattle.std.specs.Prelude.{IfOk, IfErr, IfSome, OnOk, Some, None, Err};
ghost use Rattle.flv_tags.specs.declared.fail.FlvFail.TheVariants.{OutOfMemory};
ghost use Rattle.flv_tags.specs.Written.{header};
ghost use Rattle.flv_tags.specs.Reads.{IsFile};
ghost use Rattle.flv_tags.specs.Stops.{Ends, RefusesTag};
ghost use Rattle.flv_tags.specs.Feeds.{IsFedTo, IsRefused, IsTakenTo};
ghost use Rattle.flv_tags.specs.Sound.{IsPart, part_bytes};
ghost use Rattle.flv_tags.specs.Steps.{IsStopped, IsTaken, TakeFails};

use crate::part::{Cause, Part, Taken, len, nothing, step};
use crate::writing::HEADER;
use crate::{FlvFail, Tag};
use past::Flow;
use std::alloc::Global;
use std::marker::Model;

// The bytes of the header that are compared, and those before the first tag.
const COMPARED: u64 = 9;

const BEFORE_TAGS: u64 = 13;

// The place of the header's flags.
const FLAGS: u64 = 4;

/// The result of a feed: the number of bytes used of its piece, and the tag that ends there.
#[derive(Drop)]
pub struct TagFed {
    pub used: usize,
    pub tag: Option<Tag>,
}

/// A reader of an FLV file. It holds one tag at most.
#[derive(Drop)]
pub struct TagReader {
    part: Part,
    count: u64,
    failed: Option<FlvFail>,
    fed: Flow<u8>,
    given: Flow<Tag>,
}

impl Model for TagReader {
    ghost use Rattle.flv_tags.specs.Known.{Known};
    ghost use Rattle.flv_tags.specs.Sound.{IsSound};

    ghost Value = { Known };

    ghost view = { λ r. record { fed = r.fed; given = r.given; failed = r.failed } };

    ghost invariant = { λ r. IsSound r.part r.count r.failed r.fed r.given };
}

// Tells whether the byte after the first `count` is refused in the header.
fn is_refused(count: u64, byte: u8) -> bool
    requires { count < 13 }
    ensures refused { result ≡ true → (count < 9) × (count ≢ 4) × (byte ≢ slice_index header count) }
    ensures fits { result ≡ false → count < 9 → count ≢ 4 → byte ≡ slice_index header count }
{
    count < COMPARED && count != FLAGS && byte != HEADER[count as usize]
}

// Gives the refusal of a byte of a tag, after `count` bytes, of which the last `begun` are of the tag.
fn placed(cause: Cause, count: u64, begun: u64) -> FlvFail
    requires begun { begun ≤ count }
    requires late { 13 ≤ count }
    ensures { (r : List ℕ) → length r ≡ begun + 1 → IsStopped r cause → (result ≡ OutOfMemory) ⊎ RefusesTag (count - begun) r result }
{
    match cause {
        Cause::NoTag => FlvFail::BadTag { at: count - begun },
        Cause::Back { stored, real } => FlvFail::BadBack {
            at: count - 3,
            stored,
            real,
        },
        Cause::Memory => FlvFail::OutOfMemory,
    }
}

// Takes the next bytes of a piece; `count` bytes of the file stand before it.
fn take_some(part: &mut Part, alloc: Global, piece: &[u8], count: u64) -> Result<Taken, FlvFail>
    requires part { IsPart part.old }
    requires some { 0 < length piece.now }
    requires there { length (part_bytes part.old) ≤ count }
    requires near { count < 2 ^ 63 }
    ensures ok { IfOk result (λ t. IsTaken count part.old piece.now t.used t.tag part.new) }
    ensures err { IfErr result (λ e. TakeFails count part.old piece.now e) }
{
    if count < BEFORE_TAGS {
        if is_refused(count, piece[0]) {
            return Err(FlvFail::BadHeader { at: count });
        }
        return Ok(Taken { used: 1, tag: None });
    }
    let begun = len(part);
    match step(part, alloc, piece) {
        Ok(taken) => Ok(taken),
        Err(cause) => Err(placed(cause, count, begun)),
    }
}

// Notes a tag that was read.
fn note(given: &mut Flow<Tag>, tag: &Option<Tag>)
    ensures { given.new ≡ given.old ++ option_to_list tag.now }
{
    match tag {
        None => {}
        Some(whole) => given.add(whole),
    }
}

impl TagReader {
    /// Makes a reader that was fed no bytes.
    pub fn new(alloc: Global) -> TagReader
        ensures { result ≡ record { fed = []; given = []; failed = None } }
    {
        TagReader {
            part: nothing(alloc),
            count: 0,
            failed: None,
            fed: Flow::new(),
            given: Flow::new(),
        }
    }

    // Takes some bytes of a piece.
    fn advance(&mut self, alloc: Global, piece: &[u8]) -> Result<TagFed, FlvFail>
        requires lives { self.old.failed ≡ None }
        requires some { 0 < length piece.now }
        requires near { length self.old.fed + length piece.now < 2 ^ 63 }
        ensures ok { IfOk result (λ f. IsTakenTo self.old piece.now f.used f.tag self.new) }
        ensures err { IfErr result (λ e. IsRefused self.old piece.now e self.new) }
    {
        match take_some(&mut self.part, alloc, piece, self.count) {
            Ok(taken) => {
                let Taken { used, tag } = taken;
                self.count += used as u64;
                self.fed.add_all(&piece[..used]);
                note(&mut self.given, &tag);
                Ok(TagFed { used, tag })
            }
            Err(fail) => {
                self.part = nothing(alloc);
                self.failed = Some(fail);
                Err(fail)
            }
        }
    }

    /// Takes a piece up to its end, or to the end of the tag that it completes. That is the end of the four
    /// bytes after the tag (E.3).
    ///
    /// It refuses the first byte after which the bytes fed can't be a file (see `FlvFail`). A reader that
    /// refused gives the same answer again.
    pub fn feed(&mut self, alloc: Global, piece: &[u8]) -> Result<TagFed, FlvFail>
        requires near { length self.old.fed + length piece.now < 2 ^ 63 }
        ensures again { IfSome self.old.failed (λ e. (result ≡ Err e) × (self.new ≡ self.old)) }
        ensures ok { self.old.failed ≡ None → IfOk result (λ f. IsFedTo self.old piece.now f.used f.tag self.new) }
        ensures err { self.old.failed ≡ None → IfErr result (λ e. IsRefused self.old piece.now e self.new) }
    {
        if let Some(fail) = self.failed {
            return Err(fail);
        }
        let mut used = 0;
        while used < piece.len() {
            match self.advance(alloc, &piece[used..]) {
                Err(fail) => return Err(fail),
                Ok(TagFed { used: more, tag }) => {
                    used += more;
                    if tag.is_some() {
                        return Ok(TagFed { used, tag });
                    }
                }
            }
        }
        Ok(TagFed { used, tag: None })
    }

    /// Tells whether the bytes fed are a whole file. `BadHeader` means that the first nine bytes of the
    /// header aren't whole, `BadTag` that the four bytes after these or a tag isn't. A reader that refused a
    /// byte gives that answer again.
    pub fn finish(&self) -> Result<(), FlvFail>
        ensures again { IfSome self.now.failed (λ e. result ≡ Err e) }
        ensures ok { self.now.failed ≡ None → OnOk result (IsFile self.now.fed self.now.given) }
        ensures err { self.now.failed ≡ None → IfErr result (λ e. Ends self.now.fed self.now.given e) }
    {
        if let Some(fail) = self.failed {
            return Err(fail);
        }
        if self.count < COMPARED {
            return Err(FlvFail::BadHeader { at: self.count });
        }
        if self.count < BEFORE_TAGS {
            return Err(FlvFail::BadTag { at: COMPARED });
        }
        let begun = len(&self.part);
        if begun > 0 {
            return Err(FlvFail::BadTag {
                at: self.count - begun,
            });
        }
        Ok(())
    }
}
