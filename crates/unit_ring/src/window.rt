// The slots of a ring: the items from its base on.
ghost use Rattle.std.specs.Prelude.{◌≡◌, ◌+◌, ◌*◌, ◌<◌, ◌≤◌, ◌⊎◌, ◌^◌, ◌-◌, ◌↔◌, [], ◌∷◌, ◌++◌, length, true, false, Some, IfOk, MatchOption};
ghost use Rattle.std.specs.List.{slice_get};
ghost use Rattle.unit_ring.specs.Kept.{kept_sum};
ghost use Rattle.unit_ring.specs.Marks.{marks_at, is_unit};
ghost use Rattle.stream_model.specs.declared.calls.StreamLimits.{StreamLimits};
ghost use Rattle.std.specs.VecDeque.{deque_len};
ghost use Rattle.unit_ring.specs.IsWindow.{IsWindow, HasRoom, IsTight, IsLeast};

use crate::kept::KeptConfigs;
use crate::marks::Marks;
use av_unit::{Item, OutOfMemory, UnitArc, cost};
use past::Flow;
use std::alloc::Global;
use std::collections::VecDeque;
use stream_model::StreamLimits;

/// An item in its slot, with the numbers of the configurations in effect before it.
#[derive(Drop)]
pub struct Slotted {
    pub item: Item,
    pub before: Marks,
}

/// The items from the base on.
#[derive(Drop)]
pub struct Window {
    pub slots: VecDeque<Slotted>,
    /// The number of the first item in the slots.
    pub base: u64,
    /// The sum of the costs of the items in the slots.
    pub cost: u64,
    pub kept: KeptConfigs,
    /// All items that were pushed, as data of contracts that takes no memory.
    pub items: Flow<Item>,
}

impl Window {
    /// Makes a window without items, and takes all its slots.
    pub fn new(alloc: Global, limits: StreamLimits) -> Result<Window, OutOfMemory>
        ensures window { IfOk result (λ w. IsWindow limits w) }
        ensures least { IfOk result (λ w. IsLeast limits w) }
        ensures items { IfOk result (λ w. w.items ≡ []) }
    {
        Ok(Window {
            slots: VecDeque::with_capacity(alloc, limits.items as usize)?,
            base: 0,
            cost: 0,
            kept: KeptConfigs::none(),
            items: Flow::new(),
        })
    }

    // Tells whether there is room for one more item of that cost.
    fn has_room(&self, limits: &StreamLimits, more: u64) -> bool
        requires { self.now.cost ≤ limits.now.bytes }
        ensures room { (result ≡ true) ↔ HasRoom limits.now more self.now }
        ensures small { result ≡ true → self.now.cost + more < 2 ^ 64 }
    {
        self.slots.len() < limits.items as usize && more <= limits.bytes - self.cost
    }

    // Drops the first item. A configuration is kept.
    fn drop_first(&mut self, limits: &StreamLimits)
        requires window { IsWindow limits.now self.old }
        requires some { 0 < deque_len self.old.slots }
        requires few { length self.old.items < 3 * 2 ^ 62 }
        ensures window { IsWindow limits.now self.new }
        ensures items { self.new.items ≡ self.old.items }
        ensures base { self.new.base ≡ self.old.base + 1 }
        ensures shorter { deque_len self.new.slots + 1 ≡ deque_len self.old.slots }
    {
        if let Some(first) = self.slots.pop_front() {
            self.cost -= cost(&first.item);
            self.kept.pass(self.base, first.item);
            self.base += 1;
        }
    }

    // Drops items until there is room for one more of that cost, or no item is left.
    fn make_room(&mut self, limits: &StreamLimits, more: u64)
        requires window { IsWindow limits.now self.old }
        requires few { length self.old.items < 3 * 2 ^ 62 }
        ensures window { IsWindow limits.now self.new }
        ensures items { self.new.items ≡ self.old.items }
        ensures room { HasRoom limits.now more self.new ⊎ (deque_len self.new.slots ≡ 0) }
        ensures tight { (self.new.base ≡ self.old.base) ⊎ IsTight limits.now more self.new }
    {
        while !self.slots.is_empty() && !self.has_room(limits, more) {
            self.drop_first(limits);
        }
    }

    /// Adds an item at the end, before which these configurations are in effect, and drops the items below
    /// the base.
    pub fn push(&mut self, limits: &StreamLimits, item: Item, before: Marks)
        requires window { IsWindow limits.now self.old }
        requires least { IsLeast limits.now self.old }
        requires marks { before ≡ marks_at self.old.items (length self.old.items) }
        requires few { length self.old.items < 3 * 2 ^ 62 }
        ensures window { IsWindow limits.now self.new }
        ensures least { IsLeast limits.now self.new }
        ensures items { self.new.items ≡ self.old.items ++ item ∷ [] }
    {
        let more = cost(&item);
        self.make_room(limits, more);
        self.items.add(&item);
        if self.has_room(limits, more) {
            self.slots.push_back_reserved(Slotted { item, before });
            self.cost += more;
        } else {
            self.kept.pass(self.base, item);
            self.base += 1;
        }
    }

    /// Gives item `n`, which lies in the slots.
    pub fn item(&self, n: u64) -> &Item
        requires { (self.now.base ≤ n) × (n < self.now.base + deque_len self.now.slots) }
        ensures { (limits : StreamLimits) → IsWindow limits self.now → slice_get self.now.items n ≡ Some result.now }
    {
        &self.slots[(n - self.base) as usize].item
    }

    /// Gives the numbers of the configurations in effect at `n`, before which there is a slot.
    pub fn marks(&self, n: u64) -> Marks
        requires { (self.now.base ≤ n) × (n < self.now.base + deque_len self.now.slots) }
        ensures { (limits : StreamLimits) → IsWindow limits self.now → result ≡ marks_at self.now.items n }
    {
        self.slots[(n - self.base) as usize].before
    }

    /// Gives the sum of the lengths of all bodies.
    pub fn held(&self) -> u64
        requires { (64 * deque_len self.now.slots ≤ self.now.cost) × (self.now.cost < 2 ^ 63) }
        ensures { result ≡ self.now.cost - 64 * deque_len self.now.slots + kept_sum self.now.kept }
    {
        self.cost - 64 * self.slots.len() as u64 + self.kept.bytes()
    }
}

/// Gives the unit of an item, if it is one.
pub fn unit_of(item: &Item) -> Option<&UnitArc>
    ensures { MatchOption result (is_unit item.now ≡ false) (λ u. item.now ≡ Item.Unit u.now) }
{
    match item {
        Item::Unit(unit) => Some(unit),
        Item::Begin | Item::End => None,
    }
}
