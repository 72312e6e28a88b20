//! The tag that is being read.
ghost use Rattle.std.specs.Prelude.{◌≡◌, ◌≤◌, ◌<◌, ◌+◌, ◌^◌, ◌⊎◌, ◌++◌, ◌∷◌, [], length, take, true, false, OnOk, IfOk, IfErr};
ghost use Rattle.flv_tags.specs.Layout.{is_kind, kind_in, most_bytes, size_in, time_in};
ghost use Rattle.flv_tags.specs.Stops.{BadKind, TooLong};
ghost use Rattle.flv_tags.specs.Sound.{IsPart, part_bytes};
ghost use Rattle.flv_tags.specs.Steps.{Grows, IsStepped, IsStopped, Passes};

use crate::Tag;
use av_unit::{Bytes, OutOfMemory};
use relay_base::{be24, be32};
use std::alloc::Global;
use std::mem;

// The bytes of a tag's header, and of the number that follows a tag.
const HEAD: usize = 11;

const BACK: usize = 4;

/// The longest body that is read or written, in bytes.
const MOST_BYTES: u32 = 4_194_304;

/// The bytes so far of a tag that isn't whole: of its header, of its body, and of the number that counts
/// both.
#[derive(Drop)]
pub(crate) struct Part {
    pub head: Vec<u8>,
    pub body: Bytes,
    pub back: Vec<u8>,
}

/// Why a byte of a tag is refused.
#[derive(Clone, Copy)]
pub(crate) enum Cause {
    /// No tag begins with this byte.
    NoTag,
    /// The number after the tag isn't its length.
    Back { stored: u32, real: u32 },
    Memory,
}

/// The number of bytes taken of a piece, and the tag that they complete.
#[derive(Drop)]
pub(crate) struct Taken {
    pub used: usize,
    pub tag: Option<Tag>,
}

/// Tells whether tags of this type are read.
pub(crate) fn is_read(kind: u8) -> bool
    ensures { result ≡ is_kind kind }
{
    kind == 8 || kind == 9 || kind == 18
}

// Gives the length of the body by a tag's header, in bytes.
#[tactic(auto, unfolding(crate::specs::Layout::size_in))]
fn size_of(head: &[u8]) -> u32
    requires { 4 ≤ length head.now }
    ensures value { result ≡ size_in head.now }
    ensures range { result < 2 ^ 24 }
{
    be24(&head[1..])
}

// Gives the time by the header.
#[tactic(auto, unfolding(crate::specs::Layout::time_in))]
fn time_of(head: &[u8]) -> u32
    requires { 8 ≤ length head.now }
    ensures { result ≡ time_in head.now }
{
    head[7] as u32 * 16_777_216 + be24(&head[4..])
}

/// Gives the state before a tag.
pub(crate) fn nothing(alloc: Global) -> Part
    ensures part { IsPart result }
    ensures none { part_bytes result ≡ [] }
{
    Part {
        head: Vec::new(alloc),
        body: Bytes::new(alloc),
        back: Vec::new(alloc),
    }
}

/// Gives the number of bytes so far.
pub(crate) fn len(part: &Part) -> u64
    requires { length (part_bytes part.now) < 2 ^ 64 }
    ensures { result ≡ length (part_bytes part.now) }
{
    part.head.len() as u64 + part.body.len() as u64 + part.back.len() as u64
}

// Tells whether the last of these bytes of a header is refused.
#[tactic(auto, using(std::proofs::lemmas::Bool::Decides::nat_tests))]
fn is_refused(head: &[u8]) -> bool
    requires kind { 1 < length head.now → is_kind (kind_in head.now) ≡ true }
    ensures refused { result ≡ true → BadKind head.now ⊎ TooLong head.now }
    ensures kind { result ≡ false → length head.now ≡ 1 → is_kind (kind_in head.now) ≡ true }
    ensures fits { result ≡ false → length head.now ≡ 4 → size_in head.now ≤ most_bytes }
{
    if head.len() == 1 {
        return !is_read(head[0]);
    }
    if head.len() == 4 {
        return size_of(head) > MOST_BYTES;
    }
    false
}

// Takes a byte of the header.
fn head_byte(part: &mut Part, byte: u8) -> Result<(), Cause>
    requires part { IsPart part.old }
    requires early { length part.old.head.items < 11 }
    ensures ok { OnOk result (Grows part.old (byte ∷ []) part.new) }
    ensures err { IfErr result (λ c. IsStopped (part_bytes part.old ++ byte ∷ []) c) }
{
    if part.head.push(byte).is_err() {
        return Err(Cause::Memory);
    }
    if is_refused(&part.head) {
        return Err(Cause::NoTag);
    }
    Ok(())
}

// Takes memory for a body that begins.
fn make_room(body: &mut Bytes, size: usize) -> Result<(), OutOfMemory>
    ensures { body.new ≡ body.old }
{
    if body.is_empty() {
        return body.reserve(size);
    }
    Ok(())
}

// Takes bytes of the body, at most those that are missing.
fn body_run(part: &mut Part, size: usize, run: &[u8]) -> Result<(), OutOfMemory>
    requires part { IsPart part.old }
    requires late { length part.old.head.items ≡ 11 }
    requires size { size ≡ size_in part.old.head.items }
    requires within { length part.old.body + length run.now ≤ size }
    requires some { 0 < length run.now }
    ensures { OnOk result (Grows part.old run.now part.new) }
{
    make_room(&mut part.body, size)?;
    part.body.append(run)?;
    Ok(())
}

// Takes out the tag, whose header is whole, and leaves the state before a tag.
fn take_tag(part: &mut Part, alloc: Global) -> Tag
    requires { length part.old.head.items ≡ 11 }
    ensures tag { result ≡ record { kind = kind_in part.old.head.items; time = time_in part.old.head.items; body = part.old.body } }
    ensures part { IsPart part.new }
    ensures none { part_bytes part.new ≡ [] }
{
    let kind = part.head[0];
    let time = time_of(&part.head);
    let body = mem::replace(&mut part.body, Bytes::new(alloc));
    part.head.clear();
    part.back.clear();
    Tag { kind, time, body }
}

// Takes a byte of the number that counts the tag.
fn back_byte(part: &mut Part, alloc: Global, size: u32, byte: u8) -> Result<Option<Tag>, Cause>
    requires part { IsPart part.old }
    requires late { length part.old.head.items ≡ 11 }
    requires size { size ≡ size_in part.old.head.items }
    requires whole { length part.old.body ≡ size }
    ensures ok { IfOk result (λ t. Passes part.old (byte ∷ []) t part.new) }
    ensures err { IfErr result (λ c. IsStopped (part_bytes part.old ++ byte ∷ []) c) }
{
    if part.back.push(byte).is_err() {
        return Err(Cause::Memory);
    }
    if part.back.len() < BACK {
        return Ok(None);
    }
    let stored = be32(&part.back);
    let real = size + HEAD as u32;
    if stored != real {
        return Err(Cause::Back { stored, real });
    }
    Ok(Some(take_tag(part, alloc)))
}

/// Takes the next bytes of a piece.
pub(crate) fn step(part: &mut Part, alloc: Global, piece: &[u8]) -> Result<Taken, Cause>
    requires part { IsPart part.old }
    requires some { 0 < length piece.now }
    ensures ok { IfOk result (λ t. IsStepped part.old piece.now t.used t.tag part.new) }
    ensures err { IfErr result (λ c. IsStopped (part_bytes part.old ++ take 1 piece.now) c) }
{
    if part.head.len() < HEAD {
        head_byte(part, piece[0])?;
        return Ok(Taken { used: 1, tag: None });
    }
    let size = size_of(&part.head);
    let missing = size as usize - part.body.len();
    if missing == 0 {
        let tag = back_byte(part, alloc, size, piece[0])?;
        return Ok(Taken { used: 1, tag });
    }
    let used = missing.min(piece.len());
    match body_run(part, size as usize, &piece[..used]) {
        Ok(()) => Ok(Taken { used, tag: None }),
        Err(_) => Err(Cause::Memory),
    }
}
