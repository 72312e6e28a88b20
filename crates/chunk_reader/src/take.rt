ghost use Rattle.std.specs.Prelude.{◌≡◌, ◌≤◌, ◌<◌, ◌+◌, ◌^◌, ◌++◌, ◌∷◌, [], length, vec_len, OnOk, IfOk, IfErr};
ghost use Rattle.chunk_wire.specs.State.{part_bytes};
ghost use Rattle.chunk_reader.specs.Core.{the_state};
ghost use Rattle.chunk_reader.specs.Reads.{part_limit};
ghost use Rattle.chunk_reader.specs.Steps.{HeadFails, HeadTaken, IsFed, IsTaken, IsTakenNear, PayloadFails, PayloadTaken, StepFails, TakeFails};

use crate::fail::ReadCause;
use crate::fields::Core;
use crate::finish::pass;
use crate::header::header;
use crate::open::open;
use av_unit::OutOfMemory;
use chunk_wire::Message;
use std::alloc::Global;

// The number of bytes that parts may have above the longest message.
const SPARE: u64 = 65_536;

// The cause for which a piece is refused, and the number of its bytes before the byte that decides it.
#[derive(Clone, Copy)]
pub struct Refusal {
    pub cause: ReadCause,
    pub after: usize,
}

// Takes a byte of a header.
pub fn head_byte(core: &mut Core, alloc: Global, byte: u8) -> Result<Option<Message>, ReadCause>
    requires { core.old.held ≡ part_bytes core.old.slots.items }
    ensures ok { IfOk result (λ m. HeadTaken core.old (core.old.head.items ++ byte ∷ []) m core.new) }
    ensures err { IfErr result (λ e. HeadFails core.old.max core.old.held (the_state core.old) (core.old.head.items ++ byte ∷ []) e) }
    ensures max { core.new.max ≡ core.old.max }
{
    match core.head.push(byte) {
        Ok(()) => {}
        Err(_) => return Err(ReadCause::OutOfMemory),
    }
    match header(core)? {
        None => Ok(None),
        Some(opening) => {
            match open(core, alloc, opening) {
                Ok(()) => {}
                Err(_) => return Err(ReadCause::OutOfMemory),
            }
            pass(core, alloc)
        }
    }
}

// Appends payload to the slot of the chunk in progress.
fn append(core: &mut Core, piece: &[u8]) -> Result<(), OutOfMemory>
    requires place { core.old.place < vec_len core.old.slots }
    requires counted { core.old.held ≡ part_bytes core.old.slots.items }
    requires need { length piece.now ≤ core.old.need }
    requires held { core.old.held + length piece.now < 2 ^ 62 }
    ensures fed { OnOk result (IsFed core.old piece.now core.new) }
    ensures max { core.new.max ≡ core.old.max }
{
    let slot = &mut core.slots[core.place];
    slot.part.append_within(piece, slot.terms.length as usize)?;
    core.need -= piece.len() as u32;
    core.held += piece.len() as u64;
    Ok(())
}

// Takes payload of the chunk in progress.
pub fn payload(core: &mut Core, alloc: Global, piece: &[u8]) -> Result<Option<Message>, Refusal>
    requires place { core.old.place < vec_len core.old.slots }
    requires counted { core.old.held ≡ part_bytes core.old.slots.items }
    requires some { 0 < length piece.now }
    requires need { length piece.now ≤ core.old.need }
    requires held { core.old.held ≤ part_limit core.old.max }
    ensures ok { IfOk result (λ m. PayloadTaken core.old piece.now m core.new) }
    ensures err { IfErr result (λ e. PayloadFails core.old piece.now e.cause e.after) }
    ensures after { IfErr result (λ e. e.after < length piece.now) }
    ensures max { core.new.max ≡ core.old.max }
{
    let room = core.max as u64 + SPARE - core.held;
    if piece.len() as u64 > room {
        return Err(Refusal {
            cause: ReadCause::TooMuch,
            after: room as usize,
        });
    }
    match append(core, piece) {
        Ok(()) => {}
        Err(_) => return Err(Refusal {
            cause: ReadCause::OutOfMemory,
            after: 0,
        }),
    }
    match pass(core, alloc) {
        Ok(message) => Ok(message),
        Err(cause) => Err(Refusal {
            cause,
            after: piece.len() - 1,
        }),
    }
}

// A byte after this number of bytes is refused.
const FAR: u64 = 1 << 62;

// The number of bytes of a piece that were taken, and the message that they complete.
#[derive(Drop)]
pub struct Taken {
    pub used: usize,
    pub message: Option<Message>,
}

// Takes a byte of a header, or at most `most` bytes of payload.
fn step(core: &mut Core, alloc: Global, piece: &[u8], most: usize) -> Result<Taken, Refusal>
    requires some { 0 < most }
    requires most { most ≤ length piece.now }
    requires counted { core.old.held ≡ part_bytes core.old.slots.items }
    requires place { 0 < core.old.need → core.old.place < length core.old.slots.items }
    requires held { core.old.held ≤ part_limit core.old.max }
    ensures ok { IfOk result (λ t. IsTaken core.old piece.now most t.used t.message core.new) }
    ensures err { IfErr result (λ e. StepFails core.old piece.now most e.cause e.after) }
    ensures after { IfErr result (λ e. e.after < most) }
    ensures max { core.new.max ≡ core.old.max }
{
    if core.need == 0 {
        return match head_byte(core, alloc, piece[0]) {
            Ok(message) => Ok(Taken { used: 1, message }),
            Err(cause) => Err(Refusal { cause, after: 0 }),
        };
    }
    let used = most.min(core.need as usize);
    match payload(core, alloc, &piece[..used]) {
        Ok(message) => Ok(Taken { used, message }),
        Err(refusal) => Err(refusal),
    }
}

// Takes bytes of a piece that comes after `count` bytes.
pub fn take_some(core: &mut Core, alloc: Global, piece: &[u8], count: u64) -> Result<Taken, Refusal>
    requires some { 0 < length piece.now }
    requires counted { core.old.held ≡ part_bytes core.old.slots.items }
    requires place { 0 < core.old.need → core.old.place < length core.old.slots.items }
    requires held { core.old.held ≤ part_limit core.old.max }
    requires near { count ≤ 2 ^ 62 }
    ensures ok { IfOk result (λ t. IsTakenNear core.old piece.now count t.used t.message core.new) }
    ensures err { IfErr result (λ e. TakeFails core.old piece.now count e.cause e.after) }
    ensures after { IfErr result (λ e. (e.after < length piece.now) × (count + e.after ≤ 2 ^ 62)) }
    ensures max { core.new.max ≡ core.old.max }
{
    if count == FAR {
        match step(core, alloc, piece, 1) {
            Ok(_) => return Err(Refusal {
                cause: ReadCause::TooFar,
                after: 0,
            }),
            Err(refusal) => return Err(refusal),
        }
    }
    let room = FAR - count;
    let most = if (piece.len() as u64) < room {
        piece.len()
    } else {
        room as usize
    };
    step(core, alloc, piece, most)
}
