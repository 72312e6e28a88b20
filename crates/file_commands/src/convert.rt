ghost use Rattle.std.specs.Prelude.{◌≤◌, ◌<◌, ◌+◌, ◌^◌, ◌++◌, ℕ, Bool, List, length, IfOk, IfErr, OnOk};
ghost use Rattle.file_commands.specs.Parts.{Steps, StepFails, Finishes};

use crate::fail::Fail;
use av_unit::Bytes;
use std::alloc::Global;

/// The state of a conversion: a file is read as its bytes come, and becomes a text.
pub(crate) trait Convert: Drop {
    // The bytes that it was fed, and the text that they gave.
    ghost fed: { Self → List ℕ };

    ghost given: { Self → List ℕ };

    // The property that it keeps as long as no bytes are refused.
    ghost fits: { Self → Type 0 };

    // The text that bytes give, whatever follows.
    ghost gives: { List ℕ → List ℕ → Type 0 };

    // The place where bytes are refused, and the text of what stands before.
    ghost stops: { List ℕ → ℕ → List ℕ → Type 0 };

    // The same of bytes that may not end here.
    ghost cut: { List ℕ → ℕ → List ℕ → Type 0 };

    // The text that a whole file becomes, and whether a part of it is left out.
    ghost whole: { List ℕ → Bool → List ℕ → Type 0 };

    // The facts known of it once a whole file has ended.
    ghost told: { Self → List ℕ → Type 0 };

    /// Takes bytes of the piece, and appends the text that they give.
    fn step(&mut self, alloc: Global, piece: &[u8], out: &mut Bytes) -> Result<usize, Fail>
        requires fits { fits self.old }
        requires some { 0 < length piece.now }
        requires near { length (fed self.old) + length piece.now ≤ 2 ^ 36 }
        ensures fits { OnOk result (fits self.new) }
        ensures ok { IfOk result (λ used. Steps (fed self.old) (given self.old) piece.now used out.old (fed self.new) (given self.new) out.new) }
        ensures err { IfErr result (λ e. StepFails stops e (fed self.old ++ piece.now) (given self.old) out.old out.new) };

    /// Ends the file, and appends the text that remains. It returns whether a part of the file was left out.
    fn finish(&mut self, alloc: Global, out: &mut Bytes) -> Result<bool, Fail>
        requires fits { fits self.old }
        requires near { length (fed self.old) ≤ 2 ^ 36 }
        ensures ok { IfOk result (λ some_out. Finishes whole (fed self.old) (given self.old) some_out out.old out.new) }
        ensures told { OnOk result (told self.new (fed self.old)) }
        ensures err { IfErr result (λ e. StepFails cut e (fed self.old) (given self.old) out.old out.new) };

    // The bytes that it was fed give its text.
    ghost reads: { (c : Self) → fits c → gives (fed c) (given c) };
}
