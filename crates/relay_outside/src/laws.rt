//! Laws of links and counts. Each stands on a function that does nothing.
ghost use Rattle.std.specs.Prelude.{◌≡◌, ◌≢◌, ◌≤◌, ℕ, List, Some, ◌++◌};
ghost use Rattle.relay_outside.specs.declared.link.Said.{Said};
ghost use Rattle.relay_outside.specs.Told.{LinkTold};
ghost use Rattle.relay_outside.specs.Heard.{Came, CameTold};
ghost use Rattle.relay_outside.specs.Said.{SaidTold};
ghost use Rattle.relay_outside.specs.declared.link.Said.TheVariants.{OutOfMemory};
ghost use Rattle.relay_outside.specs.Counts.{Rose};
ghost use Rattle.relay_outside.specs.MemLinkAnswers.{Same, one_heard, one_said};
ghost use Rattle.relay_outside.specs.RoseLaws.{rose_then, rose_after};
ghost use Rattle.relay_outside.specs.MemLinks.{MemLinkState, MemHears, MemSays, IsFaultless};

/// The bytes that a link gave, followed by those that are left, stay the same with each answer. The bytes that
/// it took change only by a send.
pub fn input_law()
    ensures recv { (t u : LinkTold) (answer : Came) → CameTold (Some t) (Some u) answer
        → (u.gave ++ u.left ≡ t.gave ++ t.left) × (u.took ≡ t.took) }
    ensures send { (t u : LinkTold) (piece : List ℕ) (answer : Said) → SaidTold (Some t) (Some u) piece answer
        → (u.gave ≡ t.gave) × (u.left ≡ t.left) }
{}

/// A link in memory has no faults if no call was told to fail, and its calls keep that so.
pub fn faultless_law()
    ensures recv { (l m : MemLinkState) (room : ℕ) (answer : Came) → MemHears l room answer m → IsFaultless l → IsFaultless m }
    ensures send { (l m : MemLinkState) (piece : List ℕ) (answer : Said) → MemSays l piece answer m → IsFaultless l → IsFaultless m }
{}

/// A step of a link in memory has one answer and leaves the link one way. A send may instead answer that it
/// is out of memory.
#[tactic(auto, using(crate::specs::MemLinkAnswers::one_heard, crate::specs::MemLinkAnswers::one_said))]
pub fn one_answer_law()
    ensures recv { (l m n : MemLinkState) (room : ℕ) (a b : Came) → MemHears l room a m → MemHears l room b n → Same a b m n }
    ensures send { (l m n : MemLinkState) (piece : List ℕ) (a b : Said) → MemSays l piece a m → MemSays l piece b n
        → a ≢ OutOfMemory → b ≢ OutOfMemory → Same a b m n }
{}

/// A count that rose and didn't fall before or after has risen over all.
#[tactic(auto, using(crate::specs::RoseLaws::rose_then, crate::specs::RoseLaws::rose_after))]
pub fn rose_law()
    ensures then { (a b c : ℕ) → Rose a b → b ≤ c → Rose a c }
    ensures after { (a b c : ℕ) → a ≤ b → Rose b c → Rose a c }
{}
