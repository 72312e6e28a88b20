ghost use Rattle.std.specs.Prelude.{◌≡◌, ◌↔◌, ◌<◌, ◌≤◌, ◌^◌, ℕ, List, length, Some};
ghost use Rattle.std.specs.Fmt.{decimal};
ghost use Rattle.relay_script.specs.Lines.{number, kind_of};
ghost use Rattle.relay_script.specs.Texts.{kind_text};
ghost use Rattle.relay_script.specs.Script.{lines};
ghost use Rattle.relay_script.specs.Laws.{AreLines, EndFrom};

use av_unit::Kind;

/// A word is a number below a bound exactly if it is the text that `{}` writes of that number: decimal
/// digits without a sign or a leading zero.
#[tactic(auto, using(crate::proofs::NumberLaw::number_law))]
pub fn number_law()
    ensures { (bound n : ℕ) (word : List ℕ) → bound ≤ 2 ^ 64 → (number bound word ≡ Some n) ↔ ((n < bound) × (word ≡ decimal n)) }
{}

/// A word of a script is a kind exactly if it is the name that a reply line has for that kind.
#[tactic(auto, using(crate::proofs::KindLaw::kind_law))]
pub fn kind_law()
    ensures { (k : Kind) (word : List ℕ) → (kind_of word ≡ Some k) ↔ (word ≡ kind_text k) }
{}

/// No line of a script has an LF in it. The lines with an LF after each are the script, but the LF may lack
/// after a last line that isn't empty. A line's end is the number of the script's bytes up to it, its LF
/// included.
#[tactic(auto, using(crate::proofs::LinesLaw::lines_law, crate::proofs::LinesLaw::ends_law))]
pub fn lines_law()
    ensures joined { (script : List ℕ) → AreLines script (lines script) }
    ensures ends { (script : List ℕ) → EndFrom (length script) 0 (lines script) }
{}
