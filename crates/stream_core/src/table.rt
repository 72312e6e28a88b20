ghost use Rattle.std.specs.Prelude.{◌≡◌, ℕ, ◌<◌, ◌≤◌, ◌^◌, length, IfOk, OnErr};
ghost use Rattle.stream_model.specs.Answer.{IsSent};
ghost use Rattle.stream_model.specs.Shape.{shape_reply, shape_held, most_held, new_table, table_answered, AreFewSlots, IsShapeLawful, IsLegalAt};
ghost use Rattle.stream_core.specs.Table.{known};

use crate::pool::Pool;
use crate::stream::Stream;
use av_unit::OutOfMemory;
use std::alloc::Global;
use stream_model::{Entry, Reply, Shape};

/// The machine of a place: a stream, or a pool of slots that take the names that callers give.
#[derive(Drop)]
pub enum Table {
    Stream(Stream),
    Pool(Pool),
}

impl Table {
    /// Makes a stream or a pool of that shape, which has had no call.
    #[tactic(auto, using(crate::proofs::Tables::shape_none, crate::proofs::Tables::shape_some))]
    pub fn new(alloc: Global, shape: Shape) -> Result<Table, OutOfMemory>
        requires { AreFewSlots shape.slots }
        ensures { IfOk result (λ table. known table ≡ new_table shape) }
    {
        match shape.slots {
            None => Ok(Table::Stream(Stream::new(alloc, shape.limits)?)),
            Some(slots) => Ok(Table::Pool(Pool::new(alloc, slots, shape.limits)?)),
        }
    }

    /// Answers the call by the rules of a stream or of a pool. It requires that fewer than 2^62 calls were
    /// made. Memory can be refused only at a Take that the rules answer with an item; a call refused for
    /// memory changes nothing. The items that each player was sent at a slot since its Join keep the viewer's
    /// law.
    pub fn apply(&mut self, entry: Entry) -> Result<Reply, OutOfMemory>
        requires { length (known self.old).past < 2 ^ 62 }
        ensures ok { IfOk result (λ r. (r ≡ shape_reply (known self.old).shape (known self.old).past entry) × (known self.new ≡ table_answered (known self.old) entry r)) }
        ensures err { OnErr result (self.new ≡ self.old) }
        ensures memory { OnErr result (IsSent (shape_reply (known self.old).shape (known self.old).past entry)) }
        ensures viewers { (slot player : ℕ) → IsLegalAt (known self.new).shape (known self.new).past slot player }
    {
        match self {
            Table::Stream(stream) => {
                stream.few_items();
                stream.apply(entry)
            }
            Table::Pool(pool) => pool.apply(entry),
        }
    }

    /// Answers as `apply` does, and gives the reply twice, for a port that keeps a journal. Both shares of a
    /// unit are taken first, and a call refused for memory changes nothing.
    pub fn apply_twice(&mut self, entry: Entry) -> Result<(Reply, Reply), OutOfMemory>
        requires { length (known self.old).past < 2 ^ 62 }
        ensures ok { IfOk result (λ r. (r.0 ≡ shape_reply (known self.old).shape (known self.old).past entry) × (known self.new ≡ table_answered (known self.old) entry r.0) × (r.1 ≡ r.0)) }
        ensures err { OnErr result (self.new ≡ self.old) }
        ensures memory { OnErr result (IsSent (shape_reply (known self.old).shape (known self.old).past entry)) }
        ensures viewers { (slot player : ℕ) → IsLegalAt (known self.new).shape (known self.new).past slot player }
    {
        match self {
            Table::Stream(stream) => {
                stream.few_items();
                stream.apply_twice(entry)
            }
            Table::Pool(pool) => pool.apply_twice(entry),
        }
    }

    /// Gives the number of bytes it holds. For a stream these are the bodies of the items in its window and
    /// of the configurations in effect at its base. For a pool they are the same of each slot and the lengths
    /// of the slots' names.
    pub fn held(&self) -> u64
        ensures sum { result ≡ shape_held (known self.now).shape (known self.now).past }
        ensures most { result ≤ most_held (known self.now).shape }
    {
        match self {
            Table::Stream(stream) => stream.held(),
            Table::Pool(pool) => pool.held(),
        }
    }

    /// Each call so far was answered by the rules, and the items that each player was sent at a slot keep the
    /// viewer's law.
    pub fn history_law(&self)
        ensures rules { IsShapeLawful (known self.now).shape (known self.now).past }
        ensures viewers { (slot player : ℕ) → IsLegalAt (known self.now).shape (known self.now).past slot player }
    {
        match self {
            Table::Stream(stream) => stream.history_law(),
            Table::Pool(pool) => pool.history_law(),
        }
    }
}
