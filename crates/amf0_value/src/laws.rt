//! Laws over all bytes and values. Each stands on a function that does nothing.

ghost use Rattle.std.specs.Prelude.{[], Ok, Err, true, ◌≡◌, ◌<◌, ◌≤◌, ◌^◌, ◌∷◌, ◌++◌, codes, List, ℕ, length, take, IfOk};
ghost use Rattle.amf0_value.specs.Tree.{Tree, Items, boolean, text, object, null, ecma, no_members, member};
ghost use Rattle.amf0_value.specs.Spelling.{Spells, Spelled, ItemsSpelled, Fits, AllFit, items_depth};
ghost use Rattle.amf0_value.specs.Encoding.{spelling, HasNumbers};
ghost use Rattle.amf0_value.specs.Refusal.{Refuses, RefusesAll};
ghost use Rattle.amf0_value.specs.Reader.{values_in};
ghost use Rattle.amf0_value.specs.Laws.{offset_of, IsLasting, nested};
ghost use Rattle.amf0_value.specs.Pattern.{IsPattern, pattern};
ghost use Rattle.amf0_value.specs.declared.fail.AmfFail.{AmfFail};
ghost use Rattle.amf0_value.specs.declared.fail.AmfFail.TheVariants.{Truncated, BadMarker, TooDeep, BadEnd};

/// The bytes that `encode` appends are a spelling of the value, and so are read as it, whatever follows.
pub fn encoded_is_read()
    ensures front { (v : Tree) (rest : List ℕ) → Fits v → HasNumbers v → Spells v (take (length (spelling v)) (spelling v ++ rest)) }
    ensures rest { (v : Tree) (rest : List ℕ) → Fits v → HasNumbers v → Spelled v (spelling v ++ rest) rest }
{}

/// No two values have one spelling, and no spelling begins another.
pub fn one_reading()
    ensures { (v w : Tree) (bytes rest other : List ℕ) → Fits v → Fits w → Spelled v bytes rest → Spelled w bytes other → (v ≡ w) × (rest ≡ other) }
{}

/// A refusal's place is at most the input's length.
pub fn refusals_are_inside()
    ensures one { (bytes : List ℕ) (f : AmfFail) → Refuses bytes f → offset_of f ≤ length bytes }
    ensures all { (bytes : List ℕ) (f : AmfFail) → RefusesAll bytes f → offset_of f ≤ length bytes }
{}

/// A refusal other than `Truncated` stays the same whatever follows.
pub fn refusals_stay()
    ensures one { (bytes more : List ℕ) (f : AmfFail) → IsLasting f → Refuses bytes f → Refuses (bytes ++ more) f }
    ensures all { (bytes more : List ℕ) (f : AmfFail) → IsLasting f → RefusesAll bytes f → RefusesAll (bytes ++ more) f }
{}

/// Bytes have one reading, and `values_in` gives it: the values that fill them, or the refusal that stands in
/// them.
pub fn one_answer()
    ensures values { (vs : Items) (bytes : List ℕ) → ItemsSpelled vs bytes [] → AllFit vs → values_in bytes ≡ Ok vs }
    ensures refusal { (bytes : List ℕ) (f : AmfFail) → RefusesAll bytes f → values_in bytes ≡ Err f }
{}

/// The pattern of a whole number is its 64 bits in binary64.
pub fn patterns()
    ensures { (n : ℕ) → n < 2 ^ 53 → IsPattern n (pattern n) }
{}

/// Some values beside their bytes, and some bytes beside their refusals.
pub fn worked_examples()
    ensures number { (pattern 0 ≡ 0) × (pattern 31 ≡ 4629418941960159232) }
    ensures boolean { Spells (boolean true) (1 ∷ 5 ∷ []) × (spelling (boolean true) ≡ 1 ∷ 1 ∷ []) }
    ensures text { Spells (text (codes "live")) (2 ∷ 0 ∷ 4 ∷ codes "live") }
    ensures object { Spells (object (member (codes "a") null no_members)) (3 ∷ 0 ∷ 1 ∷ 97 ∷ 5 ∷ 0 ∷ 0 ∷ 9 ∷ []) }
    ensures ecma { Spells (ecma 7 no_members) (8 ∷ 0 ∷ 0 ∷ 0 ∷ 7 ∷ 0 ∷ 0 ∷ 9 ∷ []) }
    ensures bad_end { values_in (3 ∷ 0 ∷ 0 ∷ 8 ∷ []) ≡ Err (BadEnd 3) }
    ensures cut { values_in (2 ∷ 0 ∷ 5 ∷ 97 ∷ []) ≡ Err (Truncated 4) }
    ensures count { values_in (10 ∷ 0 ∷ 0 ∷ 0 ∷ 2 ∷ 4 ∷ []) ≡ Err (Truncated 6) }
    ensures marker { values_in (5 ∷ 17 ∷ []) ≡ Err (BadMarker 1 17) }
    ensures deep { values_in (nested 33) ≡ Err (TooDeep 160) }
    ensures not_too_deep { IfOk (values_in (nested 32)) (λ vs. items_depth vs ≡ 32) }
{}
