ghost use Rattle.std.specs.Prelude.{◌≡◌, ◌≤◌, ◌<◌, ◌+◌, ◌||◌, ◌&&◌, ◌^◌, if◌then◌else◌, true, is_some, length, nat_lt};
ghost use Rattle.std.specs.Prelude.{IsTrue, IfSome, MatchResult};
ghost use Rattle.chunk_wire.specs.Layout.{basic_in, basic_size, head_size, format_in, id_in, IsBasicAt};
ghost use Rattle.chunk_wire.specs.State.{kept_of, index_of};
ghost use Rattle.chunk_wire.specs.Chunk.{head_fields, is_extended, kept_before, terms_by, value_in};
ghost use Rattle.chunk_reader.specs.Core.{the_state};
ghost use Rattle.chunk_reader.specs.Reads.{has_room};
ghost use Rattle.chunk_reader.specs.Steps.{AdmitFails, HeaderGives};

use crate::fail::ReadCause;
use crate::fields::Core;
use chunk_wire::{Basic, ChunkStream, Head, Terms, read_basic, read_head};
use relay_base::be32;

// The result of a whole header: the id, its slot if it has one, and the terms that the slot keeps from now
// on. `drops` tells whether the part of a message in progress is dropped.
#[derive(Clone, Copy)]
pub struct Opening {
    pub id: u32,
    pub place: Option<usize>,
    pub terms: Terms,
    pub drops: bool,
}

// The state of an id: its slot, the terms of its last header and the length of its part.
#[derive(Clone, Copy)]
struct Found {
    place: Option<usize>,
    terms: Terms,
    part: usize,
}

// Finds the slot of an id.
#[tactic(auto, unfolding(chunk_wire::specs::State::index_of))]
pub fn slot_of(slots: &[ChunkStream], id: u32) -> Option<usize>
    ensures place { result ≡ index_of id slots.now }
    ensures within { IfSome result (λ i. i < length slots.now) }
{
    slots.iter().position(|k| k.id == id)
}

fn find(slots: &[ChunkStream], id: u32) -> Found
    ensures place { result.place ≡ index_of id slots.now }
    ensures within { IfSome result.place (λ i. i < length slots.now) }
    ensures terms { result.terms ≡ (kept_of id slots.now).terms }
    ensures part { result.part ≡ length (kept_of id slots.now).part }
{
    match slot_of(slots, id) {
        Some(i) => {
            let slot = &slots[i];
            Found {
                place: Some(i),
                terms: slot.terms,
                part: slot.part.len(),
            }
        }
        None => Found {
            place: None,
            terms: Terms {
                time: 0,
                delta: 0,
                length: 0,
                kind: 0,
                stream: 0,
                extended: false,
            },
            part: 0,
        },
    }
}

// Tests whether a chunk with this basic header is taken.
#[tactic(auto, using(std::proofs::lemmas::Bool::Decides::nat_tests))]
fn admit(basic: Basic, place: Option<usize>, ids: usize) -> Result<(), ReadCause>
    ensures { MatchResult result (λ _. (is_some place || (nat_lt basic.format 2 && nat_lt ids 64)) ≡ true) (λ e. AdmitFails basic place ids e) }
{
    match place {
        Some(_) => return Ok(()),
        None => {}
    }
    if basic.format >= 2 {
        return Err(ReadCause::NoHead { id: basic.id });
    }
    if ids >= 64 {
        return Err(ReadCause::TooManyIds);
    }
    Ok(())
}

// Returns the terms that a slot keeps after a header.
#[tactic(auto, using(std::proofs::lemmas::Bool::Decides::nat_tests), unfolding(chunk_wire::specs::Chunk::terms_by))]
fn terms_after(terms: Terms, part: usize, head: Head, value: u32, extended: bool) -> Terms
    ensures { result ≡ terms_by terms part head value extended }
{
    if head.format == 0 {
        return Terms {
            time: value,
            delta: value,
            length: head.length,
            kind: head.kind,
            stream: head.stream,
            extended,
        };
    }
    if head.format == 1 {
        return Terms {
            time: terms.time.wrapping_add(value),
            delta: value,
            length: head.length,
            kind: head.kind,
            stream: terms.stream,
            extended,
        };
    }
    if head.format == 2 {
        return Terms {
            time: terms.time.wrapping_add(value),
            delta: value,
            length: terms.length,
            kind: terms.kind,
            stream: terms.stream,
            extended,
        };
    }
    if part == 0 {
        return Terms {
            time: terms.time.wrapping_add(terms.delta),
            delta: terms.delta,
            length: terms.length,
            kind: terms.kind,
            stream: terms.stream,
            extended: terms.extended,
        };
    }
    terms
}

// Tells whether four bytes of extended time follow.
#[tactic(auto, using(std::proofs::lemmas::Bool::Decides::nat_tests), unfolding(chunk_wire::specs::Chunk::is_extended))]
fn extends(core: &Core, format: u8, head: Head, terms: Terms) -> bool
    requires format { format ≡ format_in core.now.head.items }
    requires head { head ≡ head_fields core.now.head.items }
    requires terms { terms ≡ (kept_before (the_state core.now) core.now.head.items).terms }
    ensures { result ≡ is_extended (the_state core.now) core.now.head.items }
{
    if format < 3 {
        return head.field == 0xFFFFFF;
    }
    terms.extended
}

// Returns the time or delta of a whole header.
#[tactic(auto, unfolding(chunk_wire::specs::Chunk::value_in))]
fn value(core: &Core, at: usize, head: Head, extended: bool) -> u32
    requires head { head ≡ head_fields core.now.head.items }
    requires at { at ≡ basic_size core.now.head.items + head_size (format_in core.now.head.items) }
    requires extended { extended ≡ is_extended (the_state core.now) core.now.head.items }
    requires there { IsTrue extended → at + 4 ≤ length core.now.head.items }
    ensures { result ≡ value_in (the_state core.now) core.now.head.items }
{
    if extended {
        return be32(&core.head[at..]);
    }
    head.field
}

// Returns the number of bytes of a header, with extended time or without.
fn whole_size(at: usize, extended: bool) -> usize
    requires { at < 2 ^ 32 }
    ensures { result ≡ at + (if extended then 4 else 0) }
{
    if extended { at + 4 } else { at }
}

// Reads the rest of a header whose message header ends at `at`.
fn after_head(
    core: &Core,
    basic: Basic,
    at: usize,
    before: Found,
    head: Head,
) -> Result<Option<Opening>, ReadCause>
    requires basic { basic ≡ basic_in core.now.head.items }
    requires at { at ≡ basic_size core.now.head.items + head_size (format_in core.now.head.items) }
    requires low { at < 2 ^ 32 }
    requires place { before.place ≡ index_of (id_in core.now.head.items) core.now.slots.items }
    requires within { IfSome before.place (λ i. i < length core.now.slots.items) }
    requires terms { before.terms ≡ (kept_before (the_state core.now) core.now.head.items).terms }
    requires part { before.part ≡ length (kept_before (the_state core.now) core.now.head.items).part }
    requires head { head ≡ head_fields core.now.head.items }
    requires room { has_room (the_state core.now) core.now.head.items ≡ true }
    ensures { HeaderGives core.now.max (the_state core.now) core.now.head.items result }
{
    let extended = extends(core, basic.format, head, before.terms);
    if core.head.len() < whole_size(at, extended) {
        return Ok(None);
    }
    let value = value(core, at, head, extended);
    let terms = terms_after(before.terms, before.part, head, value, extended);
    if terms.length > core.max {
        return Err(ReadCause::TooLong {
            length: terms.length,
        });
    }
    Ok(Some(Opening {
        id: basic.id,
        place: before.place,
        terms,
        drops: basic.format < 3,
    }))
}

// Reads the rest of a header whose basic header is whole.
fn after_basic(core: &Core, basic: Basic, size: usize) -> Result<Option<Opening>, ReadCause>
    requires { IsBasicAt core.now.head.items basic size }
    ensures { HeaderGives core.now.max (the_state core.now) core.now.head.items result }
{
    let before = find(&core.slots, basic.id);
    admit(basic, before.place, core.slots.len())?;
    match read_head(basic, &core.head[size..]) {
        None => Ok(None),
        Some((head, more)) => after_head(core, basic, size + more, before, head),
    }
}

// Reads the header in progress, once it is whole.
pub fn header(core: &Core) -> Result<Option<Opening>, ReadCause>
    ensures { HeaderGives core.now.max (the_state core.now) core.now.head.items result }
{
    match read_basic(&core.head) {
        None => Ok(None),
        Some((basic, size)) => after_basic(core, basic, size),
    }
}
