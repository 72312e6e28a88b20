ghost use Rattle.std.specs.Prelude.{◌≡◌, ◌≤◌, ℕ, List, ◌++◌, IfOk, OnOk, OnErr};
ghost use Rattle.av_unit.specs.declared.item.Item.{Item};
ghost use Rattle.turn_gate.specs.Histories.{Begins};
ghost use Rattle.media_recorder.specs.Mediums.{Adds, Begun};

use av_unit::{Bytes, Item, OutOfMemory};
use std::alloc::Global;

/// The format of a recording: the text of items, and the state that is kept from one item to the next.
pub trait Medium: Drop {
    // THE TEXT of items that were taken in this order.
    ghost text: { List Item → List ℕ };

    // The items that it has written.
    ghost written: { Self → List Item };

    // The number of bytes that it keeps, besides those that it appended.
    ghost kept: { Self → ℕ };

    /// Appends the text of no items. A refusal appends nothing.
    fn begin(alloc: Global, out: &mut Bytes) -> Result<Self, OutOfMemory>
        ensures ok { IfOk result (λ m. Begun text out.old out.new (written m) (kept m)) }
        ensures err { OnErr result (out.new ≡ out.old) };

    /// Appends the bytes that this item adds to the text. A refusal appends nothing.
    fn write(&mut self, item: &Item, out: &mut Bytes) -> Result<(), OutOfMemory>
        ensures ok { OnOk result (Adds text (written self.old) item.now (written self.new) out.old out.new (kept self.new)) }
        ensures err { OnErr result ((written self.new ≡ written self.old) × (out.new ≡ out.old) × (kept self.new ≤ kept self.old)) };

    /// Returns the number of bytes that it keeps.
    fn held(&self) -> u64
        ensures { result ≡ kept self.now };

    // The text of more items begins with that of the first of them.
    ghost goes_on: { (items more : List Item) → Begins (text items) (text (items ++ more)) };
}
