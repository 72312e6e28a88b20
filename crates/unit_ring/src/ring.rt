ghost use Rattle.std.specs.Prelude.{◌≡◌, ◌+◌, ◌*◌, ◌<◌, ◌≤◌, ◌^◌, [], ◌∷◌, ◌++◌, length, Some, IfOk, option_map};
ghost use Rattle.std.specs.Option.{IfSome};
ghost use Rattle.std.specs.List.{slice_get};
ghost use Rattle.stream_model.specs.Items.{config_at, last_where};
ghost use Rattle.stream_model.specs.Window.{base, join, lags, newest_key, number_or};
ghost use Rattle.stream_model.specs.Slots.{slot_kind, is_video};
ghost use Rattle.stream_model.specs.Held.{held};

use crate::newest::Newest;
use crate::window::{Window, unit_of};
use av_unit::{Item, OutOfMemory, Slot, UnitArc};
use std::alloc::Global;
use std::marker::Model;
use stream_model::StreamLimits;

/// All items that were pushed, of which those in the window are kept.
#[derive(Drop)]
pub struct Ring {
    limits: StreamLimits,
    window: Window,
    newest: Newest,
}

impl Model for Ring {
    ghost use Rattle.std.specs.Prelude.{◌≤◌, ◌*◌, ◌^◌, length};
    ghost use Rattle.unit_ring.specs.RingKnown.{RingKnown};
    ghost use Rattle.unit_ring.specs.IsWindow.{IsWindow, IsLeast};
    ghost use Rattle.unit_ring.specs.Marks.{IsNewest};

    ghost Value = { RingKnown };

    ghost view = { λ r. record { limits = r.limits; items = r.window.items } };

    ghost invariant = { λ r. IsWindow r.limits r.window × IsLeast r.limits r.window × IsNewest r.window.items r.newest };
}

impl Ring {
    /// Makes a ring with these limits and no item. It takes all its slots.
    pub fn new(alloc: Global, limits: StreamLimits) -> Result<Ring, OutOfMemory>
        ensures { IfOk result (λ ring. ring ≡ record { limits = limits; items = [] }) }
    {
        Ok(Ring {
            limits,
            window: Window::new(alloc, limits)?,
            newest: Newest::none(),
        })
    }

    /// Adds an item at the end, and drops the items below the base. It requires that fewer than 3 × 2^62
    /// items were pushed. It takes no memory.
    pub fn push(&mut self, item: Item)
        requires { length self.old.items < 3 * 2 ^ 62 }
        ensures { self.new ≡ record self.old { items = self.old.items ++ item ∷ [] } }
    {
        let before = self.newest.marks;
        self.newest.add(&item);
        self.window.push(&self.limits, item, before);
    }

    /// Gives the base: the least number such that the items from it on fit the limits.
    pub fn base(&self) -> u64
        ensures { result ≡ base self.now.limits self.now.items }
    {
        self.window.base
    }

    /// Gives the number of items that were pushed.
    pub fn end(&self) -> u64
        ensures { result ≡ length self.now.items }
    {
        self.newest.end
    }

    /// Gives the sum of the lengths of the bodies, in bytes: those of the items from the base on and of the
    /// configurations in effect there.
    pub fn held(&self) -> u64
        ensures sum { result ≡ held self.now.limits self.now.items }
        ensures most { result ≤ self.now.limits.bytes + 196608 }
        ensures fits { result < 2 ^ 55 }
    {
        self.window.held()
    }

    /// Gives item `n`, which must lie in the window.
    pub fn get(&self, n: u64) -> &Item
        requires { (base self.now.limits self.now.items ≤ n) × (n < length self.now.items) }
        ensures { slice_get self.now.items n ≡ Some result.now }
    {
        self.window.item(n)
    }

    /// Gives the configuration in effect at `n`, with its number. It requires that `n` isn't below the base
    /// or above the number of items. None exactly if no configuration of that kind is in effect there.
    pub fn config_at(&self, n: u64, slot: Slot) -> Option<(u64, &UnitArc)>
        requires { (base self.now.limits self.now.items ≤ n) × (n ≤ length self.now.items) }
        ensures number { option_map (λ c. c.0) result ≡ config_at (slot_kind slot) self.now.items n }
        ensures unit { IfSome result (λ c. slice_get self.now.items c.0 ≡ Some (Item.Unit c.1.now)) }
    {
        let number = self.mark_at(n, slot)?;
        if number < self.window.base {
            let kept = self.window.kept.of(slot)?;
            Some((kept.number, &kept.unit))
        } else {
            Some((number, unit_of(self.window.item(number))?))
        }
    }

    // Gives the number of the configuration in effect at `n`.
    fn mark_at(&self, n: u64, slot: Slot) -> Option<u64>
        requires { (base self.now.limits self.now.items ≤ n) × (n ≤ length self.now.items) }
        ensures { result ≡ config_at (slot_kind slot) self.now.items n }
    {
        if n < self.newest.end {
            self.window.marks(n).of(slot)
        } else {
            self.newest.marks.of(slot)
        }
    }

    /// Tells whether a player at number `n` lags: the number of items from `n` on is more than half of the
    /// window's limit of items, rounded down.
    #[tactic(auto, using(std::proofs::lemmas::Bool::Decides::nat_tests))]
    pub fn lags(&self, n: u64) -> bool
        ensures { result ≡ lags self.now.limits self.now.items n }
    {
        let half = (self.limits.items / 2) as u64;
        half < self.newest.end.saturating_sub(n)
    }

    /// Gives the keyframe at which a player joins, if there is one. It is the newest that lies in the window
    /// and after the last Begin, if the broadcast hasn't ended.
    pub fn newest_key(&self) -> Option<u64>
        ensures key { result ≡ newest_key self.now.limits self.now.items }
        ensures join { join self.now.limits self.now.items ≡ number_or (length self.now.items) result }
    {
        self.key_in_window()
    }

    fn key_in_window(&self) -> Option<u64>
        ensures { result ≡ newest_key self.now.limits self.now.items }
    {
        if !self.newest.live {
            return None;
        }
        let key = self.newest.key?;
        if key < self.window.base {
            return None;
        }
        Some(key)
    }

    /// Gives the number of the last frame or Begin that was ever pushed.
    pub fn last_video(&self) -> Option<u64>
        ensures { result ≡ last_where is_video self.now.items }
    {
        self.newest.video
    }
}
