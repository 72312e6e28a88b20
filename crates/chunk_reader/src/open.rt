ghost use Rattle.std.specs.Prelude.{◌≡◌, ◌≤◌, ◌<◌, ◌+◌, ◌-◌, length, min, OnOk, IfOk, IfSome, if◌then◌else◌, [], Some};
ghost use Rattle.chunk_wire.specs.State.{part_bytes};
ghost use Rattle.chunk_reader.specs.Core.{the_state};
ghost use Rattle.chunk_reader.specs.Steps.{IsOpened, IsOpening, IsPutAt, with_opening};

use crate::fields::Core;
use crate::header::Opening;
use av_unit::{Bytes, OutOfMemory};
use chunk_wire::ChunkStream;
use std::alloc::Global;

// Puts the result of a header into a slot.
fn reopen(slot: &mut ChunkStream, held: &mut u64, alloc: Global, o: Opening)
    requires { length slot.old.part ≤ held.old }
    ensures slot { slot.new ≡ record { id = o.id; terms = o.terms; part = if o.drops then [] else slot.old.part } }
    ensures held { held.new + length slot.old.part ≡ held.old + length slot.new.part }
    ensures less { held.new ≤ held.old }
{
    slot.id = o.id;
    slot.terms = o.terms;
    if o.drops {
        *held -= slot.part.len() as u64;
        slot.part = Bytes::new(alloc);
    }
}

// Puts the result of a header into the slot of its id, or into a new one, and returns the slot's place.
fn put_slot(
    slots: &mut Vec<ChunkStream>,
    held: &mut u64,
    alloc: Global,
    o: Opening,
) -> Result<usize, OutOfMemory>
    requires within { IfSome o.place (λ i. i < length slots.old.items) }
    requires counted { held.old ≡ part_bytes slots.old.items }
    ensures slots { IfOk result (λ i. slots.new.items ≡ with_opening o slots.old.items) }
    ensures place { IfOk result (λ i. IsPutAt o.place (length slots.old.items) i) }
    ensures counted { OnOk result (held.new ≡ part_bytes slots.new.items) }
    ensures less { held.new ≤ held.old }
{
    match o.place {
        Some(i) => {
            reopen(&mut slots[i], held, alloc, o);
            Ok(i)
        }
        None => {
            let i = slots.len();
            slots.push(ChunkStream {
                id: o.id,
                terms: o.terms,
                part: Bytes::new(alloc),
            })?;
            Ok(i)
        }
    }
}

// Returns the number of payload bytes of the chunk with this slot.
fn payload(size: u32, slot: &ChunkStream) -> u32
    ensures { result ≡ min size (slot.now.terms.length - length slot.now.part) }
{
    let part = slot.part.len();
    let length = slot.terms.length;
    if part >= length as usize {
        return 0;
    }
    size.min(length - part as u32)
}

// Begins the chunk of a whole header.
pub fn open(core: &mut Core, alloc: Global, o: Opening) -> Result<(), OutOfMemory>
    requires opening { IsOpening core.old.max (the_state core.old) core.old.head.items o }
    requires counted { core.old.held ≡ part_bytes core.old.slots.items }
    ensures opened { OnOk result (IsOpened core.old.max (the_state core.old) core.old.head.items core.new) }
    ensures less { core.new.held ≤ core.old.held }
    ensures max { core.new.max ≡ core.old.max }
{
    core.place = put_slot(&mut core.slots, &mut core.held, alloc, o)?;
    core.head.clear();
    core.need = payload(core.size, &core.slots[core.place]);
    Ok(())
}
