ghost use Rattle.std.specs.Prelude.{◌≡◌, ◌≤◌, ◌+◌, ◌++◌, ℕ, [], length, IfOk, OnOk, OnErr};
ghost use Rattle.media_recorder.specs.Mediums.{AreWithin, most_held};
ghost use Rattle.stream_model.specs.Held.{body_of};
ghost use Rattle.media_recorder.specs.Turns.{is_empty, sent_more, Writes, Unwritten};

use crate::medium::Medium;
use crate::pending::Pending;
use av_unit::{Bytes, Item, OutOfMemory};
use past::Flow;
use std::alloc::Global;
use std::marker::Model;

/// Items on their way to a sink: the bytes that a medium makes of them, of which the sink took the first.
/// None of them is a unit of more than `longest` bytes.
#[derive(Drop)]
pub struct Tape<M: Medium> {
    medium: M,
    pending: Pending,
    sent: Flow<u8>,
    longest: u32,
}

impl<M: Medium> Model for Tape<M> {
    ghost use Rattle.media_recorder.specs.Tapes.{TapeState, IsTape};

    ghost Value = { TapeState };

    ghost view = { λ t. record { items = M.written t.medium; sent = t.sent; pending = t.pending; kept = M.kept t.medium; longest = t.longest } };

    ghost invariant = { λ t. IsTape M.text (M.written t.medium) t.sent t.pending (M.kept t.medium) t.longest };
}

// Returns the number of bytes of an item's unit, or 0 for a marker.
fn body_len(item: &Item) -> usize
    ensures { result ≡ body_of item.now }
{
    match item {
        Item::Unit(shared) => shared.unit().body.len(),
        Item::Begin => 0,
        Item::End => 0,
    }
}

impl<M: Medium> Tape<M> {
    /// Makes the text of no items, of which nothing was sent.
    pub(crate) fn new(alloc: Global, longest: u32) -> Result<Tape<M>, OutOfMemory>
        ensures begun { IfOk result (λ t. (t.items ≡ []) × (t.sent ≡ []) × (t.pending ≡ M.text [])) }
        ensures longest { IfOk result (λ t. t.longest ≡ longest) }
    {
        let mut bytes = Bytes::new(alloc);
        let medium = M::begin(alloc, &mut bytes)?;
        Ok(Tape {
            medium,
            pending: Pending::of(bytes),
            sent: Flow::new(),
            longest,
        })
    }

    /// Shows the properties that it keeps.
    pub(crate) fn law(&self)
        ensures text { self.now.sent ++ self.now.pending ≡ M.text self.now.items }
        ensures room { (m : ℕ) → AreWithin m self.now.items → length self.now.pending + self.now.kept ≤ most_held m }
    {
        let _ = &self.pending;
    }

    /// Returns the medium, which has written the items.
    pub(crate) fn medium(&self) -> &M
        ensures { M.written result.now ≡ self.now.items }
    {
        &self.medium
    }

    /// Returns the bytes that the sink has not yet taken.
    pub(crate) fn pending(&self) -> &[u8]
        ensures { result.now ≡ self.now.pending }
    {
        self.pending.as_slice()
    }

    /// Returns whether the sink took all bytes.
    pub(crate) fn is_drained(&self) -> bool
        ensures { result ≡ is_empty self.now.pending }
    {
        matches!(self.pending.as_slice(), [])
    }

    /// Notes that the sink took `count` bytes.
    pub(crate) fn took(&mut self, count: usize)
        requires { count ≤ length self.old.pending }
        ensures { self.new ≡ sent_more self.old count }
    {
        self.sent.add_all(&self.pending.as_slice()[..count]);
        self.pending.took(count);
    }

    /// Writes an item, if nothing is pending. A unit of more than `longest` bytes is refused as out of
    /// memory.
    #[tactic(auto, using(crate::proofs::Texts::within_more))]
    pub(crate) fn write(&mut self, item: &Item) -> Result<(), OutOfMemory>
        requires { self.old.pending ≡ [] }
        ensures ok { OnOk result (Writes self.old item.now self.new) }
        ensures err { OnErr result (Unwritten self.old self.new) }
    {
        if body_len(item) > self.longest as usize {
            return Err(OutOfMemory);
        }
        self.pending.write(&mut self.medium, item)
    }

    /// Returns the number of bytes that are pending or kept by the medium.
    pub(crate) fn held(&self) -> u64
        ensures sum { result ≡ length self.now.pending + self.now.kept }
        ensures most { (m : ℕ) → AreWithin m self.now.items → result ≤ most_held m }
        ensures longest { result ≤ most_held self.now.longest }
    {
        self.pending.len() as u64 + self.medium.held()
    }
}
