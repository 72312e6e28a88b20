//! A handle to streams and pools.
ghost use Rattle.std.specs.Prelude.{◌≡◌, ◌≢◌, ◌<◌, ◌≤◌, ◌^◌, ℕ, List, [], ◌++◌, length, IfOk, IfErr};
ghost use Rattle.stream_model.specs.declared.calls.Shape.{Shape};
ghost use Rattle.turn_gate.specs.declared.view.Branch.{Branch};
ghost use Rattle.turn_gate.specs.Branches.{offshoot, IsWhole};
ghost use Rattle.turn_gate.specs.Histories.{Begins, longer};
ghost use Rattle.stream_registry.specs.Names.{PortRules, IsPlaceOf, places};
ghost use Rattle.stream_registry.specs.Told.{Step, Histories, Keeps};
ghost use Rattle.stream_registry.specs.Placed.{Placed, Failed, TriedOnce, answered};
ghost use Rattle.stream_registry.specs.Splits.{Kin, Owns, SplitsOff, TakesIn, CallSplits, HasAll};
ghost use Rattle.stream_registry.specs.Wants.{IsWanted};
ghost use Rattle.stream_model.specs.declared.calls.Entry.{Entry};

use crate::names::NotFound;
use stream_core::{Entry, Reply};
use thiserror::Error;

/// Why a call wasn't made. The entry comes back.
#[derive(Debug, Drop, Error)]
pub enum PortFail {
    /// Another pass held the turn.
    #[error("another call was under way")]
    Busy(Entry),
    /// The history is full.
    #[error("the history is full")]
    Worn(Entry),
    /// There was no memory for the call, which changed nothing.
    #[error("out of memory")]
    OutOfMemory(Entry),
}

/// A handle to the streams and pools at some places. The history that it has seen of each is its root there.
pub trait StreamPort: Drop {
    /// The right to make calls at one place. It has seen a beginning of that place's history.
    type Pass: Drop;

    // The number of calls that were answered Busy; it never falls.
    ghost busies: { Self → ℕ };

    // Its constants: the names of its streams and open tables, and the machine of each place with its limits.
    ghost rules: { Self → PortRules };

    // The history that the root has seen at each place.
    ghost root: { Self → Histories };

    // The pass was attached at this place, to this port or to one made with it.
    ghost fits: { Self → ℕ → Self.Pass → Type 0 };

    // The machine of its place, and its limits.
    ghost limits: { Self.Pass → Shape };

    ghost seen: { Self.Pass → List Step };

    // The numbers of its own calls in the history that it has seen.
    ghost mine: { Self.Pass → List ℕ };

    // Which passes were split off from which: the branches of the root at each place, and of a pass.
    ghost kin: { Self → Kin };

    ghost branches: { Self.Pass → List Branch };

    // The numbers of the calls that the root at each place owns: those of all passes that it took in.
    ghost owns: { Self → Owns };

    // The calls that the roots own after the one at a place has taken in a pass with calls of these numbers.
    // It says nothing for a port of one thread.
    ghost gains: { Owns → List ℕ → Owns → ℕ → Type 0 };

    // The calls that are added to the history of their place, by the history before and the one after. It
    // says nothing for a port that shares its places.
    ghost adds: { List Step → List Step → List Step → Type 0 };

    // The number of calls it has seen, with those that were refused for memory.
    ghost count: { Self.Pass → ℕ };

    // Whether memory may be refused for this call.
    ghost wants: { Entry → Type 0 };

    /// Finds the first place that has a stream of that name, else the first open table of that application,
    /// if a caller may give the name. `NotFound` comes exactly if no stream has the pair, and no open table
    /// has the application or the name isn't such a name.
    fn find(&self, app: &[u8], name: &[u8]) -> Result<u32, NotFound>
        ensures place { IsPlaceOf (rules self.now).names (rules self.now).opens app.now name.now result }
        ensures there { IfOk result (λ place. place < places (rules self.now)) }
        ensures few { IfOk result (λ _. length name.now ≤ 64) };

    /// Gives the number of calls that were answered Busy.
    fn busies(&self) -> u64
        ensures { result ≡ busies self.now };

    /// Makes a pass that has made no call, and has seen the same calls as the root.
    fn attach(&mut self, place: u32) -> Self::Pass
        requires { place < places (rules self.old) }
        ensures pass { fits self.new place result × (limits result ≡ (rules self.old).limits place) }
        ensures seen { (seen result ≡ root self.old place) × (mine result ≡ []) }
        ensures fixed { (rules self.new ≡ rules self.old) × (busies self.new ≡ busies self.old) }
        ensures root { (q : ℕ) → root self.new q ≡ root self.old q }
        ensures owns { (q : ℕ) → owns self.new q ≡ owns self.old q }
        ensures split { SplitsOff (kin self.old) (kin self.new) place × (branches result ≡ offshoot (kin self.old place)) }
        ensures fits { (q : ℕ) (p : Self.Pass) → fits self.old q p → fits self.new q p };

    /// Takes in a pass. The root has then seen the longer of the two histories that it and the pass had seen.
    fn detach(&mut self, place: u32, pass: Self::Pass)
        requires { fits self.old place pass }
        ensures here { root self.new place ≡ longer (root self.old place) (seen pass) }
        ensures taken { TakesIn (kin self.old) (branches pass) (kin self.new) place }
        ensures gains { gains (owns self.old) (mine pass) (owns self.new) place }
        // if the root has then taken in every other pass, no other caller called
        ensures all { IsWhole (kin self.new place) → HasAll (owns self.new place) (length (root self.new place)) }
        ensures adds { adds (root self.old place) [] (root self.new place) }
        ensures both { Begins (root self.old place) (root self.new place) × Begins (seen pass) (root self.new place) }
        ensures others { (q : ℕ) → q ≢ place → root self.new q ≡ root self.old q }
        ensures fixed { (rules self.new ≡ rules self.old) × (busies self.new ≡ busies self.old) }
        ensures fits { (q : ℕ) (p : Self.Pass) → fits self.old q p → fits self.new q p };

    /// Makes one call, answered after all calls before it. It tries the place once, and never waits.
    fn call(&mut self, place: u32, pass: &mut Self::Pass, entry: Entry) -> Result<Reply, PortFail>
        requires { fits self.old place pass.old }
        ensures pass { fits self.new place pass.new × (limits pass.new ≡ limits pass.old) × Begins (seen pass.old) (seen pass.new) }
        ensures reply { IfOk result (λ r.
            Placed (limits pass.old) (root self.old place) (seen pass.old) (mine pass.old) (entry, r) (seen pass.new) (mine pass.new)) }
        ensures laws { IfOk result (λ _. Keeps (limits pass.new) (seen pass.new)) }
        ensures room { IfOk result (λ _. count pass.new ≤ 2 ^ 62) }
        ensures fails { IfErr result (λ e. Failed entry (busies self.old) (busies self.new) (count pass.new) e) }
        ensures memory { IfErr result (IsWanted (wants entry)) }
        ensures unmade { IfErr result (λ _. (mine pass.new ≡ mine pass.old) × ((q : ℕ) → root self.new q ≡ root self.old q)) }
        ensures once { TriedOnce (busies self.old) (busies self.new) result }
        ensures busies { busies self.old ≤ busies self.new }
        ensures here { Begins (root self.old place) (root self.new place) }
        ensures owns { (q : ℕ) → owns self.new q ≡ owns self.old q }
        ensures split { CallSplits (kin self.old) (branches pass.old) result (kin self.new) (branches pass.new) place }
        ensures adds { adds (root self.old place) (answered entry result) (root self.new place) }
        ensures others { (q : ℕ) → q ≢ place → root self.new q ≡ root self.old q }
        ensures fixed { rules self.new ≡ rules self.old }
        ensures fits { (q : ℕ) (p : Self.Pass) → fits self.old q p → fits self.new q p };

    // Zero calls add nothing, and the additions of two runs of calls are together those of both.
    ghost adds_none: { (h : List Step) → adds h [] h };

    ghost adds_both: { (h i j xs ys : List Step) → adds h xs i → adds i ys j → adds h (xs ++ ys) j };

    // A pass that fits has the limits of its place.
    ghost ruled: { (x : Self) (q : ℕ) (p : Self.Pass) → fits x q p → limits p ≡ (rules x).limits q };
}
