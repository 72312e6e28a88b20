ghost use Rattle.std.specs.Prelude.{◌≡◌, ◌++◌, ℕ, List, [], Option, is_some, IfOk, OnErr};
ghost use Rattle.av_unit.specs.declared.item.Item.{Item};
ghost use Rattle.series_medium.specs.Writers.{FileGrows};

use av_unit::{Bytes, Item, OutOfMemory};
use std::alloc::Global;

/// Writes the file of one broadcast. If memory is refused, the writer is gone.
pub trait FileWriter: Drop {
    // THE FILE of the items of a broadcast, if something is written of them.
    ghost file: { List Item → Option (List ℕ) };

    // The items that it was given.
    ghost given: { Self → List Item };

    // The number of bytes that it keeps, besides those that it appended.
    ghost kept: { Self → ℕ };

    /// Makes a writer that was given no item.
    fn new(alloc: Global) -> Self
        ensures given { given result ≡ [] }
        ensures kept { kept result ≡ 0 };

    /// Appends what an item adds to the file: its first bytes too, if nothing was written before. `out` keeps its earlier bytes.
    fn add(self, item: &Item, out: &mut Bytes) -> Result<Self, OutOfMemory>
        ensures ok { IfOk result (λ w. FileGrows file (given self) item.now (given w) out.old out.new (kept w)) }
        ensures err { OnErr result ((more : List ℕ) × (out.new ≡ out.old ++ more)) };

    /// Tells whether something is written.
    fn is_open(&self) -> bool
        ensures { result ≡ is_some (file (given self.now)) };

    /// Returns the number of bytes that it keeps.
    fn held(&self) -> u64
        ensures { result ≡ kept self.now };
}
