// A slot of a pool.
ghost use Rattle.std.specs.Prelude.{◌≡◌, ℕ, ◌<◌, ◌≤◌, ◌+◌, ◌*◌, ◌^◌, ◌⊎◌, true, List, length, Some, IfOk, OnErr};
ghost use Rattle.stream_model.specs.Answer.{reply, IsSent};
ghost use Rattle.stream_model.specs.History.{items_of};
ghost use Rattle.stream_model.specs.Held.{held};
ghost use Rattle.stream_model.specs.Pool.{new_slot, has_name, is_idle, is_published_by, is_played_by, taking, name_asked, ready, noted, name_length, slot_held, asks_begin, asks_join};

use crate::stream::{Stream, twice};
use av_unit::{Bytes, OutOfMemory};
use std::alloc::Global;
use std::marker::Model;
use std::snapshot::Snapshot;
use stream_model::{Call, Entry, Reply, ShortName, StreamLimits};

/// A stream, and the name that it took last.
#[derive(Drop)]
pub struct Slot {
    name: Option<ShortName>,
    stream: Stream,
    alloc: Global,
}

impl Model for Slot {
    ghost use Rattle.stream_model.specs.Pool.{PoolSlot};

    ghost Value = { PoolSlot };

    ghost view = { λ s. record { name = s.name; stream = s.stream } };
}

impl Slot {
    /// Makes a slot without a name. It takes all memory that its stream takes.
    pub fn new(alloc: Global, limits: StreamLimits) -> Result<Slot, OutOfMemory>
        ensures { IfOk result (λ s. s ≡ new_slot limits) }
    {
        Ok(Slot {
            name: None,
            stream: Stream::new(alloc, limits)?,
            alloc,
        })
    }

    pub fn has_name(&self, name: &[u8]) -> bool
        ensures { result ≡ has_name name.now self.now }
    {
        match &self.name {
            None => false,
            Some(other) => other.as_slice() == name,
        }
    }

    pub fn is_idle(&self) -> bool
        ensures { result ≡ is_idle self.now }
    {
        self.stream.is_free()
    }

    pub fn is_published_by(&self, who: u64) -> bool
        ensures { result ≡ is_published_by who self.now }
    {
        self.stream.is_published_by(who)
    }

    pub fn is_played_by(&self, who: u64, player: u32) -> bool
        ensures { result ≡ is_played_by who player self.now }
    {
        self.stream.is_played_by(who, player)
    }

    /// Gives the number of bytes that the stream holds, plus the length of the name.
    pub fn held(&self) -> u64
        ensures sum { result ≡ slot_held self.now }
        ensures most { result ≤ self.now.stream.limits.bytes + 196672 }
        ensures fits { result < 2 ^ 56 }
    {
        self.stream.held() + self.name_len()
    }

    fn name_len(&self) -> u64
        ensures sum { result ≡ name_length self.now.name }
        ensures few { result ≤ 64 }
    {
        match &self.name {
            None => 0,
            Some(name) => name.as_slice().len() as u64,
        }
    }

    // Takes the name, if the slot doesn't have it. The name is moved, so that this takes no memory.
    fn take_name(&mut self, name: ShortName)
        requires open { (has_name name self.old ≡ true) ⊎ (is_idle self.old ≡ true) }
        requires few { length (items_of self.old.stream.past) + 2 < 3 * 2 ^ 62 }
        ensures { self.new ≡ taking (has_name name self.old) name self.old }
    {
        if self.has_name(name.as_slice()) {
            return;
        }
        self.stream.clear();
        self.name = Some(name);
    }

    /// Answers a call that has this slot.
    pub fn answer(
        &mut self,
        seen: Snapshot<Entry>,
        who: u64,
        call: Call,
    ) -> Result<Reply, OutOfMemory>
        requires call { (seen.value.who ≡ who) × (seen.value.call ≡ call) }
        requires open { (name : List ℕ) → name_asked call ≡ Some name → (has_name name self.old ≡ true) ⊎ (is_idle self.old ≡ true) }
        requires few { length (items_of self.old.stream.past) + 2 < 3 * 2 ^ 62 }
        ensures ok { IfOk result (λ r. (r ≡ reply (ready (name_asked call) self.old).stream.limits (ready (name_asked call) self.old).stream.past seen.value)
            × (self.new ≡ noted seen.value r (ready (name_asked call) self.old))) }
        ensures err { OnErr result (self.new ≡ self.old) }
        ensures memory { OnErr result (IsSent (reply (ready (name_asked call) self.old).stream.limits (ready (name_asked call) self.old).stream.past seen.value)) }
    {
        match call {
            Call::Begin => {
                let name = ShortName::new(Bytes::new(self.alloc));
                Ok(self.begin(seen, who, name))
            }
            Call::BeginAs(name) => Ok(self.begin(seen, who, name)),
            Call::Join => {
                let name = ShortName::new(Bytes::new(self.alloc));
                Ok(self.join(seen, who, name))
            }
            Call::JoinAs(name) => Ok(self.join(seen, who, name)),
            Call::Push(unit) => Ok(self.stream.push(seen, who, unit)),
            Call::End => Ok(self.stream.end(seen, who)),
            Call::Take { player, want } => self.stream.take(seen, who, player, want),
            Call::Leave { player } => Ok(self.stream.leave(seen, who, player)),
            Call::Count => Ok(self.stream.count(seen)),
        }
    }

    /// Answers in the same way, and gives the reply twice.
    pub fn answer_twice(
        &mut self,
        seen: Snapshot<Entry>,
        who: u64,
        call: Call,
    ) -> Result<(Reply, Reply), OutOfMemory>
        requires call { (seen.value.who ≡ who) × (seen.value.call ≡ call) }
        requires open { (name : List ℕ) → name_asked call ≡ Some name → (has_name name self.old ≡ true) ⊎ (is_idle self.old ≡ true) }
        requires few { length (items_of self.old.stream.past) + 2 < 3 * 2 ^ 62 }
        ensures ok { IfOk result (λ r. (r.0 ≡ reply (ready (name_asked call) self.old).stream.limits (ready (name_asked call) self.old).stream.past seen.value)
            × (self.new ≡ noted seen.value r.0 (ready (name_asked call) self.old)) × (r.1 ≡ r.0)) }
        ensures err { OnErr result (self.new ≡ self.old) }
        ensures memory { OnErr result (IsSent (reply (ready (name_asked call) self.old).stream.limits (ready (name_asked call) self.old).stream.past seen.value)) }
    {
        match call {
            Call::Begin => {
                let name = ShortName::new(Bytes::new(self.alloc));
                Ok(twice(self.begin(seen, who, name)))
            }
            Call::BeginAs(name) => Ok(twice(self.begin(seen, who, name))),
            Call::Join => {
                let name = ShortName::new(Bytes::new(self.alloc));
                Ok(twice(self.join(seen, who, name)))
            }
            Call::JoinAs(name) => Ok(twice(self.join(seen, who, name))),
            Call::Push(unit) => Ok(twice(self.stream.push(seen, who, unit))),
            Call::End => Ok(twice(self.stream.end(seen, who))),
            Call::Take { player, want } => self.stream.take_twice(seen, who, player, want),
            Call::Leave { player } => Ok(twice(self.stream.leave(seen, who, player))),
            Call::Count => Ok(twice(self.stream.count(seen))),
        }
    }

    fn begin(&mut self, seen: Snapshot<Entry>, who: u64, name: ShortName) -> Reply
        requires call { (seen.value.who ≡ who) × (asks_begin seen.value.call ≡ true) }
        requires open { (has_name name self.old ≡ true) ⊎ (is_idle self.old ≡ true) }
        requires few { length (items_of self.old.stream.past) + 2 < 3 * 2 ^ 62 }
        ensures { (result ≡ reply (ready (Some name) self.old).stream.limits (ready (Some name) self.old).stream.past seen.value)
            × (self.new ≡ noted seen.value result (ready (Some name) self.old)) }
    {
        self.take_name(name);
        self.stream.begin(seen, who)
    }

    fn join(&mut self, seen: Snapshot<Entry>, who: u64, name: ShortName) -> Reply
        requires call { (seen.value.who ≡ who) × (asks_join seen.value.call ≡ true) }
        requires open { (has_name name self.old ≡ true) ⊎ (is_idle self.old ≡ true) }
        requires few { length (items_of self.old.stream.past) + 2 < 3 * 2 ^ 62 }
        ensures { (result ≡ reply (ready (Some name) self.old).stream.limits (ready (Some name) self.old).stream.past seen.value)
            × (self.new ≡ noted seen.value result (ready (Some name) self.old)) }
    {
        self.take_name(name);
        self.stream.join(seen, who)
    }
}
