//! One thread's handles to the gates at all places.
ghost use Rattle.std.specs.Prelude.{◌≡◌, ◌≢◌, ℕ, ◌<◌, Some, [], ◌++◌, ◌∷◌, length, IfOk, IfErr, OnOk, OnErr, slice_get};
ghost use Rattle.turn_gate.specs.Histories.{Begins, longer, AreOwn};
ghost use Rattle.turn_gate.specs.Branches.{cut_off, offshoot};
ghost use Rattle.turn_gate.specs.Known.{newcomer, RepliedAfter, Failed, SplitOnce};
ghost use Rattle.stream_registry.specs.Roots.{Remembers, Grown, Unlearned, gates, seen_at, kin_at, mine_at, OwnsAllAt, AreOwnAll, Later};
ghost use Rattle.stream_registry.specs.Splits.{SplitsOff, TakesIn, TakesAll, Forks, OwnsMore, OwnsBoth};

use crate::place::Place;
use std::alloc::{AllocError, Global};
use std::marker::Model;
use turn_gate::{CallFail, Machine, Pass};

/// Contracts see the history that its root has seen at each place, and its position among the passes there.
#[derive(Drop)]
pub struct Ways<T: Machine + Drop> {
    places: Vec<Place<T>>,
}

impl<T: Machine + Drop> Model for Ways<T> {
    ghost use Rattle.std.specs.Prelude.{List};
    ghost use Rattle.stream_registry.specs.Roots.{Root};

    ghost Value = { List (Root T.About (T.Call × T.Reply)) };

    ghost view = { λ s. s.places.items };
}

impl<T: Machine + Drop> Ways<T> {
    /// Makes handles to no place.
    pub fn new(alloc: Global) -> Ways<T>
        ensures { result ≡ [] }
    {
        Ways {
            places: Vec::new(alloc),
        }
    }

    /// Adds one place more.
    pub fn add(&mut self, place: Place<T>) -> Result<(), AllocError>
        ensures ok { OnOk result (self.new ≡ self.old ++ place ∷ []) }
        ensures err { OnErr result (self.new ≡ self.old) }
    {
        match self.places.push(place) {
            Ok(()) => Ok(()),
            Err(_) => Err(AllocError),
        }
    }

    /// Makes another thread's handles to the same places.
    pub fn fork(&mut self, alloc: Global) -> Result<Ways<T>, AllocError>
        ensures fork { IfOk result (λ s. Unlearned self.old s × Forks (kin_at self.old) (kin_at self.new) (kin_at s)) }
        ensures same { Unlearned self.old self.new }
    {
        let places = fork_all(alloc, self.places.as_mut_slice())?;
        Ok(Ways { places })
    }

    /// Takes in other roots. The history that each had seen begins the one that this root has then seen.
    pub fn gather(&mut self, other: Ways<T>)
        requires { gates other ≡ gates self.old }
        ensures grown { Grown self.old self.new }
        ensures later { Grown other self.new }
        ensures longest { (q : ℕ) → seen_at self.new q ≡ longer (seen_at self.old q) (seen_at other q) }
        ensures kin { TakesAll (kin_at self.old) (kin_at other) (kin_at self.new) }
        ensures mine { OwnsBoth (mine_at self.old) (mine_at other) (mine_at self.new) }
        ensures own { AreOwnAll self.old × AreOwnAll other }
        ensures whole { (q : ℕ) → OwnsAllAt self.new q }
    {
        let Ways { places } = other;
        gather_all(self.places.as_mut_slice(), places);
    }

    /// Makes a pass that has made no call, and has seen the same calls as the root at that place.
    pub fn attach(&mut self, place: usize) -> Pass<T>
        requires { place < length self.old }
        ensures gate { Some result.gate ≡ slice_get (gates self.old) place }
        ensures new { result ≡ newcomer result.gate (offshoot (kin_at self.old place)) (seen_at self.old place) }
        ensures same { Unlearned self.old self.new }
        ensures kin { SplitsOff (kin_at self.old) (kin_at self.new) place }
        ensures mine { (q : ℕ) → mine_at self.new q ≡ mine_at self.old q }
    {
        self.places[place].attach()
    }

    /// Takes in a pass. The root has then seen the longer of the two histories seen at that place; both begin
    /// it.
    pub fn detach(&mut self, place: usize, pass: Pass<T>)
        requires { slice_get (gates self.old) place ≡ Some pass.gate }
        ensures grown { Grown self.old self.new }
        ensures seen { Begins pass.seen (seen_at self.new place) }
        ensures longer { seen_at self.new place ≡ longer (seen_at self.old place) pass.seen }
        ensures others { (q : ℕ) → q ≢ place → seen_at self.new q ≡ seen_at self.old q }
        ensures kin { TakesIn (kin_at self.old) pass.kin (kin_at self.new) place }
        ensures mine { OwnsMore (mine_at self.old) pass.mine (mine_at self.new) place }
        ensures own { AreOwn (mine_at self.old place) (length (seen_at self.old place)) × AreOwn pass.mine (length pass.seen) }
        ensures whole { OwnsAllAt self.new place }
    {
        self.places[place].detach(pass);
    }

    /// Tries once. The calls before begin with all calls that the root and the pass had seen at that place.
    pub fn call(
        &mut self,
        place: usize,
        pass: &mut Pass<T>,
        call: T::Call,
    ) -> Result<T::Reply, CallFail<T::Call>>
        requires { slice_get (gates self.old) place ≡ Some pass.old.gate }
        ensures port { Unlearned self.old self.new }
        ensures kin { SplitOnce (kin_at self.old place) pass.old.kin result (kin_at self.new place) pass.new.kin }
        ensures others { (q : ℕ) → q ≢ place → kin_at self.new q ≡ kin_at self.old q }
        ensures mine { (q : ℕ) → mine_at self.new q ≡ mine_at self.old q }
        ensures pass { Remembers pass.old pass.new }
        ensures reply { IfOk result (λ r. RepliedAfter (T.lawful pass.old.gate.about) (seen_at self.old place) pass.old (call, r) pass.new) }
        ensures fails { IfErr result (λ e. Failed (T.lawful pass.old.gate.about) pass.old call e pass.new) }
    {
        self.places[place].call(pass, call)
    }
}

fn fork_all<T: Machine + Drop>(
    alloc: Global,
    places: &mut [Place<T>],
) -> Result<Vec<Place<T>>, AllocError>
    ensures fork { IfOk result (λ s. Unlearned places.old s.items × Forks (kin_at places.old) (kin_at places.new) (kin_at s.items)) }
    ensures same { Unlearned places.old places.new }
{
    let mut list = Vec::new(alloc);
    for i in 0..places.len() {
        let place = places[i].fork()?;
        if list.push(place).is_err() {
            return Err(AllocError);
        }
    }
    Ok(list)
}

fn gather_all<T: Machine + Drop>(places: &mut [Place<T>], mut others: Vec<Place<T>>)
    requires { gates others.items ≡ gates places.old }
    ensures grown { Grown places.old places.new }
    ensures later { Later (seen_at others.items) (seen_at places.new) }
    ensures longest { (q : ℕ) → seen_at places.new q ≡ longer (seen_at places.old q) (seen_at others.items q) }
    ensures kin { TakesAll (kin_at places.old) (kin_at others.items) (kin_at places.new) }
    ensures mine { OwnsBoth (mine_at places.old) (mine_at others.items) (mine_at places.new) }
    ensures own { AreOwnAll places.old × AreOwnAll others.items }
    ensures whole { (q : ℕ) → OwnsAllAt places.new q }
{
    while let Some(other) = others.pop() {
        places[others.len()].gather(other);
    }
}
