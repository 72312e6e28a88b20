//! The callers of a place's calls. Each is a law: the contract of a function that does nothing.
ghost use Rattle.std.specs.Prelude.{◌≡◌, ◌<◌, ℕ, List, [], ◌++◌};
ghost use Rattle.turn_gate.specs.declared.view.Branch.{Branch};
ghost use Rattle.turn_gate.specs.Branches.{trunk, offshoot, IsWhole, Kindred};
ghost use Rattle.stream_registry.specs.declared.place_table.Site.{Site};
ghost use Rattle.stream_registry.specs.declared.port.PortFail.{PortFail};
ghost use Rattle.stream_registry.specs.Callers.{Caller, all_made, EachBears, AreTheirs, AreNamedApart, AllBornAreIts};
ghost use Rattle.stream_registry.specs.Gates.{told_at, made_at};
ghost use Rattle.stream_registry.specs.Pasts.{Attempt};
ghost use Rattle.stream_registry.specs.Roots.{Root, kin_at, OwnsAllAt};
ghost use Rattle.stream_registry.specs.SharedState.{Streams, AreSplit, all_kin};
ghost use Rattle.stream_registry.specs.Splits.{Kin, SplitsOff, TakesIn, TakesAll, CallSplits};
ghost use Rattle.stream_registry.specs.Told.{Step};
ghost use Rattle.stream_model.specs.declared.replies.Reply.{Reply};
ghost use Rattle.std.specs.declared.result.Result.{Result};

/// NO OTHER CALLER CALLED. Suppose that the root at a place has taken in every other pass, and its own calls
/// are those of these callers, each under its name. Then each call of the history is one of theirs. If their
/// names are distinct, the calls that bear a name are all of its bearer's.
pub fn callers_law()
    ensures theirs { (roots : List (Root Site Attempt)) (q : ℕ) (callers : List Caller) → IsWhole (kin_at roots q) → OwnsAllAt roots q
        → made_at roots q ≡ all_made callers → EachBears (told_at roots q) callers → AreTheirs (told_at roots q) callers }
    ensures fresh { (roots : List (Root Site Attempt)) (q : ℕ) → told_at roots q ≡ [] → made_at roots q ≡ [] }
    ensures its { (h : List Step) (callers : List Caller) → AreNamedApart callers → AreTheirs h callers → AllBornAreIts h callers }
{}

/// NO PASS IS LOST. The changes that each step of a port makes to the branches of its roots and passes keep
/// them kindred. Kindred is passed on. And the branches that come of the first pass of a gate are all of it.
pub fn kindred_law()
    ensures whole { (kin : List Branch) → Kindred trunk kin → IsWhole kin }
    ensures ports { (n : ℕ) (ports : List Streams) → AreSplit n ports → (q : ℕ) → q < n → Kindred trunk (all_kin ports q) }
    ensures next { (a b c : List Branch) → Kindred a b → Kindred b c → Kindred a c }
    ensures both { (a b c d : List Branch) → Kindred a b → Kindred c d → Kindred (a ++ c) (b ++ d) }
    ensures swap { (a b : List Branch) → Kindred (a ++ b) (b ++ a) }
    ensures attached { (kin kin' : Kin) (place : ℕ) (pass : List Branch) → SplitsOff kin kin' place → pass ≡ offshoot (kin place) → Kindred (kin place) (kin' place ++ pass) }
    ensures called { (kin kin' : Kin) (place : ℕ) (pass pass' : List Branch) (result : Result Reply PortFail) → CallSplits kin pass result kin' pass' place
        → Kindred (kin place ++ pass) (kin' place ++ pass') }
    ensures detached { (kin kin' : Kin) (place : ℕ) (pass : List Branch) → TakesIn kin pass kin' place → Kindred (kin place ++ pass) (kin' place) }
    ensures gathered { (kin other kin' : Kin) → TakesAll kin other kin' → (q : ℕ) → Kindred (kin q ++ other q) (kin' q) }
{}
