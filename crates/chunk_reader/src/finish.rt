ghost use Rattle.std.specs.Prelude.{◌≡◌, ◌≤◌, ◌<◌, vec_len, OnOk, IfOk, IfErr, Some, None, if◌then◌else◌, []};
ghost use Rattle.chunk_wire.specs.Chunk.{with_part};
ghost use Rattle.chunk_wire.specs.State.{part_bytes};
ghost use Rattle.chunk_reader.specs.Control.{by_message, dropped, refused_size};
ghost use Rattle.chunk_reader.specs.Core.{the_state};
ghost use Rattle.chunk_reader.specs.Steps.{ended_state, IsBadSize, IsFinished, IsPassed, Keeps, slot_at, slot_done, slot_message};

use crate::fail::ReadCause;
use crate::fields::Core;
use crate::header::slot_of;
use av_unit::Bytes;
use chunk_wire::{ChunkStream, Message, Terms};
use relay_base::be32;
use std::alloc::Global;
use std::mem;

// Takes the message out of a slot's part, if it is whole.
#[tactic(auto, using(std::proofs::lemmas::Bool::Decides::nat_tests))]
fn take_whole(slot: &mut ChunkStream, alloc: Global) -> Option<Message>
    ensures message { result ≡ slot_message slot.old }
    ensures slot { slot.new ≡ with_part slot.old (if slot_done slot.old then [] else slot.old.part) }
{
    if slot.part.len() != slot.terms.length as usize {
        return None;
    }
    let Terms {
        time,
        kind,
        stream,
        ..
    } = slot.terms;
    let body = mem::replace(&mut slot.part, Bytes::new(alloc));
    Some(Message {
        kind,
        stream,
        time,
        body,
    })
}

// Takes the message of the chunk in progress, which has ended.
fn take_message(core: &mut Core, alloc: Global) -> Option<Message>
    requires place { core.old.place < vec_len core.old.slots }
    requires counted { core.old.held ≡ part_bytes core.old.slots.items }
    ensures message { result ≡ slot_message (slot_at core.old) }
    ensures state { the_state core.new ≡ ended_state core.old }
    ensures keeps { Keeps core.old core.new }
{
    let message = take_whole(&mut core.slots[core.place], alloc);
    match &message {
        None => {}
        Some(whole) => core.held -= whole.body.len() as u64,
    }
    message
}

// Drops the part of an id.
fn drop_part(slots: &mut Vec<ChunkStream>, held: &mut u64, alloc: Global, id: u32)
    requires counted { held.old ≡ part_bytes slots.old.items }
    ensures slots { slots.new.items ≡ dropped id slots.old.items }
    ensures counted { held.new ≡ part_bytes slots.new.items }
    ensures less { held.new ≤ held.old }
{
    match slot_of(slots, id) {
        None => {}
        Some(i) => {
            *held -= slots[i].part.len() as u64;
            slots[i].part = Bytes::new(alloc);
        }
    }
}

// Applies a Set Chunk Size or an Abort to the reader.
#[tactic(auto, using(std::proofs::lemmas::Bool::Decides::nat_tests), unfolding(crate::specs::Control::by_message, crate::specs::Control::refused_size))]
fn control(core: &mut Core, alloc: Global, message: &Message) -> Result<(), ReadCause>
    requires counted { core.old.held ≡ part_bytes core.old.slots.items }
    ensures state { OnOk result (the_state core.new ≡ by_message message.now (the_state core.old)) }
    ensures sized { OnOk result (refused_size message.now ≡ None) }
    ensures keeps { OnOk result (Keeps core.old core.new) }
    ensures err { IfErr result (λ e. IsBadSize (Some message.now) e) }
    ensures max { core.new.max ≡ core.old.max }
{
    let body = message.body.as_slice();
    if body.len() < 4 {
        return Ok(());
    }
    let number = be32(body);
    if message.kind == 1 {
        if number == 0 || number >= 0x8000_0000 {
            return Err(ReadCause::BadChunkSize { value: number });
        }
        core.size = number;
        return Ok(());
    }
    if message.kind == 2 {
        drop_part(&mut core.slots, &mut core.held, alloc, number);
    }
    Ok(())
}

// Ends the chunk in progress: returns its message if that is whole, and applies it to the reader.
fn finish(core: &mut Core, alloc: Global) -> Result<Option<Message>, ReadCause>
    requires place { core.old.place < vec_len core.old.slots }
    requires counted { core.old.held ≡ part_bytes core.old.slots.items }
    ensures ok { IfOk result (λ m. IsFinished core.old m core.new) }
    ensures err { IfErr result (λ e. IsBadSize (slot_message (slot_at core.old)) e) }
    ensures max { core.new.max ≡ core.old.max }
{
    match take_message(core, alloc) {
        None => Ok(None),
        Some(message) => {
            control(core, alloc, &message)?;
            Ok(Some(message))
        }
    }
}

// Ends the chunk in progress if it needs no more bytes.
pub fn pass(core: &mut Core, alloc: Global) -> Result<Option<Message>, ReadCause>
    requires place { core.old.place < vec_len core.old.slots }
    requires counted { core.old.held ≡ part_bytes core.old.slots.items }
    ensures ok { IfOk result (λ m. IsPassed core.old m core.new) }
    ensures err { IfErr result (λ e. (core.old.need ≡ 0) × IsBadSize (slot_message (slot_at core.old)) e) }
    ensures max { core.new.max ≡ core.old.max }
{
    if core.need > 0 {
        return Ok(None);
    }
    finish(core, alloc)
}
