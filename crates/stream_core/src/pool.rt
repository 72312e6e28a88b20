ghost use Rattle.std.specs.Prelude.{◌≡◌, ℕ, ◌<◌, ◌≤◌, ◌+◌, ◌*◌, ◌^◌, ◌⊎◌, true, List, [], ◌++◌, length, vec_len, None, Some, IfOk, OnErr};
ghost use Rattle.std.specs.Option.{IfSome};
ghost use Rattle.stream_model.specs.Answer.{first_or, IsSent};
ghost use Rattle.stream_model.specs.Pool.{new_slots, has_name, is_idle, is_published_by, is_played_by, least_slot, slot_named, slot_for, slot_at, reply_nowhere, pool_reply, pool_answered, pool_held, held_in, IsPoolLawful};
ghost use Rattle.stream_model.specs.Shape.{pool_shape, IsLegalAt};
ghost use Rattle.stream_core.specs.Alone.{DependsOnItsOwnSlot};
ghost use Rattle.stream_core.specs.IsPoolPast.{HaveLimits, for_each};
ghost use Rattle.stream_core.specs.Itemless.{Itemless};
ghost use Rattle.stream_core.specs.Tally.{tally_after, IsTally};
ghost use Rattle.stream_model.specs.declared.calls.Entry.{Entry};
ghost use Rattle.stream_model.specs.declared.replies.Reply.{Reply};

use crate::slot::Slot;
use crate::stream::{noted, twice};
use crate::tally::Tally;
use av_unit::OutOfMemory;
use past::{History, Pair};
use std::alloc::Global;
use std::marker::Model;
use std::snapshot::Snapshot;
use stream_law::{tables_law, takes_alone_at_pools};
use stream_model::{Call, Entry, Reply, StreamLimits};

/// Some streams, which take the names that callers give. Each is a slot with a ring and players' places of its
/// own, all of them taken when the pool is made.
#[derive(Drop)]
pub struct Pool {
    slots: Vec<Slot>,
    limits: StreamLimits,
    tally: Tally,
    past: History<Pair<Entry, Reply>>,
}

impl Model for Pool {
    ghost use Rattle.stream_model.specs.Pool.{PoolKnown};
    ghost use Rattle.stream_core.specs.IsPoolPast.{IsPoolPast};
    ghost use Rattle.std.specs.Prelude.{length};

    ghost Value = { PoolKnown };

    ghost view = { λ p. record { limits = p.limits; slots = length p.slots.items; past = p.past } };

    ghost invariant = { λ p. IsPoolPast p.limits p.slots.items p.tally p.past };
}

impl Pool {
    /// Makes a pool of `slots` slots, which have no name and have had no call. It takes all memory that its
    /// slots take.
    pub fn new(alloc: Global, slots: u32, limits: StreamLimits) -> Result<Pool, OutOfMemory>
        requires { slots ≤ 64 }
        ensures { IfOk result (λ pool. pool ≡ record { limits = limits; slots = slots; past = [] }) }
    {
        Ok(Pool {
            slots: new_slots(alloc, slots, limits)?,
            limits,
            tally: Tally::new(),
            past: History::new(),
        })
    }

    /// Answers the call by the rules of a pool. It requires that fewer than 2^62 calls were made. Memory can
    /// be refused only at a Take that the rules answer with an item; a call refused for memory changes
    /// nothing. Whatever the calls so far, the items that each player was sent at a slot since its Join keep
    /// the viewer's law. The answer to a Take depends on the slot's items and that player's own answers
    /// alone.
    pub fn apply(&mut self, entry: Entry) -> Result<Reply, OutOfMemory>
        requires { length self.old.past < 2 ^ 62 }
        ensures ok { IfOk result (λ r. (r ≡ pool_reply self.old entry) × (self.new ≡ pool_answered self.old entry r)) }
        ensures err { OnErr result (self.new ≡ self.old) }
        ensures memory { OnErr result (IsSent (pool_reply self.old entry)) }
        ensures viewers { (slot player : ℕ) → IsLegalAt (pool_shape self.new.limits self.new.slots) self.new.past slot player }
        ensures alone { IfOk result (λ r. DependsOnItsOwnSlot self.old entry r) }
    {
        self.history_law();
        takes_alone_at_pools();
        let reply = self.answer(entry);
        self.history_law();
        reply
    }

    /// Answers as `apply` does, and gives the reply twice, for a port that keeps a journal. Both shares of a
    /// unit are taken first, and a call refused for memory changes nothing.
    pub fn apply_twice(&mut self, entry: Entry) -> Result<(Reply, Reply), OutOfMemory>
        requires { length self.old.past < 2 ^ 62 }
        ensures ok { IfOk result (λ r. (r.0 ≡ pool_reply self.old entry) × (self.new ≡ pool_answered self.old entry r.0) × (r.1 ≡ r.0)) }
        ensures err { OnErr result (self.new ≡ self.old) }
        ensures memory { OnErr result (IsSent (pool_reply self.old entry)) }
        ensures viewers { (slot player : ℕ) → IsLegalAt (pool_shape self.new.limits self.new.slots) self.new.past slot player }
    {
        let replies = self.answer_twice(entry);
        self.history_law();
        replies
    }

    /// Gives the sum of the bytes that the slots hold and the lengths of their names. It is at most the sum
    /// of the slots' bounds, after any calls.
    pub fn held(&self) -> u64
        ensures sum { result ≡ pool_held self.now }
        ensures most { result ≤ self.now.slots * (self.now.limits.bytes + 196672) }
    {
        let _ = &self.tally;
        held_in(&self.slots, &self.limits)
    }

    /// Each call so far was answered by the rules of a pool, and the items that each player was sent at a
    /// slot keep the viewer's law.
    pub fn history_law(&self)
        ensures rules { IsPoolLawful self.now.limits self.now.slots self.now.past }
        ensures viewers { (slot player : ℕ) → IsLegalAt (pool_shape self.now.limits self.now.slots) self.now.past slot player }
    {
        let _ = &self.tally;
        tables_law();
    }

    fn answer(&mut self, entry: Entry) -> Result<Reply, OutOfMemory>
        requires { length self.old.past < 2 ^ 62 }
        ensures ok { IfOk result (λ r. (r ≡ pool_reply self.old entry) × (self.new ≡ pool_answered self.old entry r)) }
        ensures err { OnErr result (self.new ≡ self.old) }
        ensures memory { OnErr result (IsSent (pool_reply self.old entry)) }
    {
        let _ = &self.tally;
        let seen = Snapshot::of(&entry);
        let again = Snapshot::of(&entry);
        let Entry { who, at: _, call } = entry;
        match slot_for(&self.slots, who, &call) {
            None => {
                let reply = reply_nowhere(self.slots.len() as u32, &self.tally, &call);
                Ok(noted(&mut self.past, &mut self.tally, seen, reply))
            }
            Some(i) => {
                let reply = self.slots[i].answer(again, who, call)?;
                Ok(noted(&mut self.past, &mut self.tally, seen, reply))
            }
        }
    }

    fn answer_twice(&mut self, entry: Entry) -> Result<(Reply, Reply), OutOfMemory>
        requires { length self.old.past < 2 ^ 62 }
        ensures ok { IfOk result (λ r. (r.0 ≡ pool_reply self.old entry) × (self.new ≡ pool_answered self.old entry r.0) × (r.1 ≡ r.0)) }
        ensures err { OnErr result (self.new ≡ self.old) }
        ensures memory { OnErr result (IsSent (pool_reply self.old entry)) }
    {
        let _ = &self.tally;
        let seen = Snapshot::of(&entry);
        let again = Snapshot::of(&entry);
        let Entry { who, at: _, call } = entry;
        match slot_for(&self.slots, who, &call) {
            None => {
                let reply = reply_nowhere(self.slots.len() as u32, &self.tally, &call);
                Ok(twice(noted(&mut self.past, &mut self.tally, seen, reply)))
            }
            Some(i) => {
                let (reply, other) = self.slots[i].answer_twice(again, who, call)?;
                Ok((noted(&mut self.past, &mut self.tally, seen, reply), other))
            }
        }
    }
}

// Gives the sum of the bytes that the slots hold, each of which has these limits.
fn held_in(slots: &[Slot], limits: &StreamLimits) -> u64
    requires few { length slots.now ≤ 64 }
    requires limits { HaveLimits limits.now slots.now }
    ensures sum { result ≡ held_in slots.now }
    ensures most { result ≤ for_each (limits.now.bytes + 196672) slots.now }
{
    let mut sum = 0;
    let mut left = slots;
    while let [slot, rest @ ..] = left {
        sum += slot.held();
        left = rest;
    }
    sum
}

fn new_slots(alloc: Global, count: u32, limits: StreamLimits) -> Result<Vec<Slot>, OutOfMemory>
    ensures { IfOk result (λ slots. slots.items ≡ new_slots limits count) }
{
    let mut slots = Vec::new(alloc);
    for _ in 0..count {
        let slot = Slot::new(alloc, limits)?;
        slots.push(slot)?;
    }
    Ok(slots)
}

// Finds the least slot that has the name.
fn with_name(slots: &[Slot], name: &[u8]) -> Option<usize>
    ensures slot { result ≡ least_slot (has_name name.now) slots.now }
    ensures within { IfSome result (λ i. i < length slots.now) }
{
    let mut found = None;
    for (i, slot) in slots.iter().enumerate() {
        if found.is_none() && slot.has_name(name) {
            found = Some(i);
        }
    }
    found
}

// Finds the least idle slot.
fn idle(slots: &[Slot]) -> Option<usize>
    ensures slot { result ≡ least_slot is_idle slots.now }
    ensures within { IfSome result (λ i. i < length slots.now) }
{
    let mut found = None;
    for (i, slot) in slots.iter().enumerate() {
        if found.is_none() && slot.is_idle() {
            found = Some(i);
        }
    }
    found
}

// Finds the least slot at which that caller publishes.
fn published_by(slots: &[Slot], who: u64) -> Option<usize>
    ensures slot { result ≡ least_slot (is_published_by who) slots.now }
    ensures within { IfSome result (λ i. i < length slots.now) }
{
    let mut found = None;
    for (i, slot) in slots.iter().enumerate() {
        if found.is_none() && slot.is_published_by(who) {
            found = Some(i);
        }
    }
    found
}

// Finds the least slot at which that caller holds the place.
fn played_by(slots: &[Slot], who: u64, player: u32) -> Option<usize>
    ensures slot { result ≡ least_slot (is_played_by who player) slots.now }
    ensures within { IfSome result (λ i. i < length slots.now) }
{
    let mut found = None;
    for (i, slot) in slots.iter().enumerate() {
        if found.is_none() && slot.is_played_by(who, player) {
            found = Some(i);
        }
    }
    found
}

fn slot_named(slots: &[Slot], name: &[u8]) -> Option<usize>
    ensures slot { result ≡ slot_named slots.now name.now }
    ensures within { IfSome result (λ i. i < length slots.now) }
{
    match with_name(slots, name) {
        Some(i) => Some(i),
        None => idle(slots),
    }
}

// Finds the slot of a call, if it has one.
fn slot_for(slots: &[Slot], who: u64, call: &Call) -> Option<usize>
    ensures slot { result ≡ slot_for slots.now who call.now }
    ensures within { IfSome result (λ i. i < length slots.now) }
{
    match call {
        Call::Begin => slot_named(slots, &[]),
        Call::BeginAs(name) => slot_named(slots, name.as_slice()),
        Call::Join => slot_named(slots, &[]),
        Call::JoinAs(name) => slot_named(slots, name.as_slice()),
        Call::Push(_) => published_by(slots, who),
        Call::End => published_by(slots, who),
        Call::Take { player, want: _ } => played_by(slots, who, *player),
        Call::Leave { player } => played_by(slots, who, *player),
        Call::Count => None,
    }
}

// Gives the reply to a call that has no slot.
fn reply_nowhere(slots: u32, tally: &Tally, call: &Call) -> Reply
    ensures reply { (past : List (Entry × Reply)) → IsTally tally.now past → result ≡ reply_nowhere slots past call.now }
    ensures no_item { Itemless result }
{
    match call {
        Call::Begin => Reply::NoSlot { slots },
        Call::BeginAs(_) => Reply::NoSlot { slots },
        Call::Join => Reply::NoSlot { slots },
        Call::JoinAs(_) => Reply::NoSlot { slots },
        Call::Push(_) => Reply::NotPublisher { live: None },
        Call::End => Reply::NotPublisher { live: None },
        Call::Take { player: _, want: _ } => Reply::NotPlayer,
        Call::Leave { player: _ } => Reply::NotPlayer,
        Call::Count => tally.reply(),
    }
}
