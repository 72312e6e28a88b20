//! The port of one thread to streams and pools that many serve.
ghost use Rattle.std.specs.Prelude.{◌≡◌, ◌≤◌, ◌+◌, ℕ, [], length, IfOk, All};
ghost use Rattle.turn_gate.specs.Branches.{trunk, cut_off};
ghost use Rattle.turn_gate.specs.Histories.{longer};
ghost use Rattle.stream_registry.specs.Roots.{Later, AreTrunks, kin_at, mine_at, OwnsAllAt, gates};
ghost use Rattle.stream_registry.specs.Splits.{TakesAll, OwnsBoth, cut_times};
ghost use Rattle.stream_registry.specs.Gates.{told_at, made_at};
ghost use Rattle.stream_registry.specs.SharedState.{HasKin, IsFork, IsAsBefore, IsNewPort, AreNewPorts, shared_rules};
ghost use Rattle.stream_registry.specs.Names.{AreFew, AreTables, shapes_of};
ghost use Rattle.stream_registry.specs.Sites.{AreNewRoots, AreSites, site};
ghost use Rattle.stream_model.specs.Shape.{AreFewSlots};

use crate::again::TakeNumbers;
use crate::names::{NameList, NotFound, OpenList, place_of};
use crate::place::Place;
use crate::place_table::{PlaceTable, Site};
use crate::port::{PortFail, StreamPort};
use crate::shapes::place_shapes;
use crate::ways::Ways;
use av_unit::OutOfMemory;
use std::alloc::Global;
use std::marker::Model;
use std::sync::Arc;
use stream_core::{Entry, Reply, Shape, StreamLimits, Table};
use stream_law::{tables_law, takes_alone, takes_alone_at_pools};
use turn_gate::{CallFail, Machine, Pass};

/// A gate for each place, and the calls seen there. The machine behind a gate is a [`PlaceTable`], a stream
/// or a pool. The type is generic in it, so that the checker sees that it may cross threads.
#[derive(Drop)]
pub struct Shared<T: Machine + Drop> {
    ways: Ways<T>,
    names: Arc<NameList, Global>,
    opens: Arc<OpenList, Global>,
    busies: u64,
}

impl<T: Machine + Drop> Model for Shared<T> {
    ghost use Rattle.std.specs.Prelude.{◌≡◌, ◌≤◌, ◌+◌, length};
    ghost use Rattle.std.specs.Arc.{arc_value};
    ghost use Rattle.stream_registry.specs.SharedState.{SharedState};

    ghost Value = { SharedState T.About (T.Call × T.Reply) };

    ghost view = { λ s. record { names = arc_value s.names; opens = arc_value s.opens; roots = s.ways; busies = s.busies } };

    ghost invariant = { λ s. (length s.ways ≡ length (arc_value s.names) + length (arc_value s.opens))
        × (length (arc_value s.names) + length (arc_value s.opens) ≤ 64) };
}

/// Makes ports for a number of threads to streams with these names and to these open tables. Each stream and
/// each slot has these limits. At each place all ports have the same gate, and no two places have the same
/// gate. Each but the last was split off from the last.
pub fn shared_ports(
    alloc: Global,
    names: NameList,
    opens: OpenList,
    limits: StreamLimits,
    ports: usize,
) -> Result<Vec<Shared<PlaceTable>>, OutOfMemory>
    requires { AreFew names opens }
    ensures { IfOk result (λ list. AreNewPorts names opens limits ports list.items) }
{
    let mut first = Shared::new(alloc, names, opens, limits)?;
    if ports == 0 {
        return Ok(Vec::new(alloc));
    }
    let mut list = fork_ports(alloc, &mut first, ports - 1)?;
    list.push(first)?;
    Ok(list)
}

// Makes `ports` ports to the gates of the first.
fn fork_ports(
    alloc: Global,
    first: &mut Shared<PlaceTable>,
    ports: usize,
) -> Result<Vec<Shared<PlaceTable>>, OutOfMemory>
    ensures forks { IfOk result (λ list. (length list.items ≡ ports) × All (IsFork first.old) list.items) }
    ensures kin { IfOk result (λ _. (q : ℕ) → kin_at first.new.roots q ≡ cut_times ports (kin_at first.old.roots q)) }
    ensures same { IsAsBefore first.old first.new }
{
    let mut list = Vec::new(alloc);
    for _ in 0..ports {
        let port = first.fork(alloc)?;
        list.push(port)?;
    }
    Ok(list)
}

// Makes handles to a new gate for each place, which has the machine of one of these shapes.
fn new_ways(alloc: Global, shapes: &[Shape]) -> Result<Ways<PlaceTable>, OutOfMemory>
    requires { AreTables shapes.now }
    ensures { IfOk result (λ w. (length w ≡ length shapes.now) × AreNewRoots shapes.now w × AreTrunks w) }
{
    let mut ways = Ways::new(alloc);
    for place in 0..shapes.len() {
        let way = new_way(alloc, place as u32, shapes[place])?;
        ways.add(way)?;
    }
    Ok(ways)
}

// Makes a new gate at that place, which has a machine of that shape.
#[tactic(auto, using(crate::proofs::Wanting::stands_first))]
fn new_way(alloc: Global, place: u32, limits: Shape) -> Result<Place<PlaceTable>, OutOfMemory>
    requires { AreFewSlots limits.slots }
    ensures { IfOk result (λ p. (p.seen ≡ []) × (p.kin ≡ trunk) × (p.gate.about ≡ site place limits)) }
{
    let table = Table::new(alloc, limits)?;
    let way = Place::new(alloc, PlaceTable { place, table }, &Site { place, limits })?;
    Ok(way)
}

impl Shared<PlaceTable> {
    fn new(
        alloc: Global,
        names: NameList,
        opens: OpenList,
        limits: StreamLimits,
    ) -> Result<Shared<PlaceTable>, OutOfMemory>
        requires { AreFew names opens }
        ensures new { IfOk result (λ s. IsNewPort names opens (gates s.roots) s) }
        ensures gates { IfOk result (λ s. AreSites (shapes_of limits names opens) (gates s.roots)
            × (length (gates s.roots) ≡ length names + length opens)) }
        ensures kin { IfOk result (λ s. HasKin (length (gates s.roots)) trunk s) }
    {
        let shapes = place_shapes(alloc, &names, &opens, limits)?;
        let ways = new_ways(alloc, &shapes)?;
        let Ok(names) = Arc::new(alloc, names) else {
            return Err(OutOfMemory);
        };
        let Ok(opens) = Arc::new(alloc, opens) else {
            return Err(OutOfMemory);
        };
        Ok(Shared {
            ways,
            names,
            opens,
            busies: 0,
        })
    }

    // Makes a port for another thread, to the same gates.
    pub(crate) fn fork(&mut self, alloc: Global) -> Result<Shared<PlaceTable>, OutOfMemory>
        ensures fork { IfOk result (IsFork self.old) }
        ensures kin { IfOk result (λ _. (q : ℕ) → kin_at self.new.roots q ≡ cut_off (kin_at self.old.roots q)) }
        ensures same { IsAsBefore self.old self.new }
    {
        let Ok(names) = Arc::try_clone(&self.names) else {
            return Err(OutOfMemory);
        };
        let Ok(opens) = Arc::try_clone(&self.opens) else {
            return Err(OutOfMemory);
        };
        let ways = self.ways.fork(alloc)?;
        Ok(Shared {
            ways,
            names,
            opens,
            busies: 0,
        })
    }

    /// Takes in another port. The history that the other's root had seen is a beginning of the one that this
    /// root has then seen, at each place. Both come from one call of `shared_ports`.
    pub fn gather(&mut self, other: Shared<PlaceTable>)
        requires { shared_rules other ≡ shared_rules self.old }
        ensures same { (shared_rules self.new ≡ shared_rules self.old) × (self.new.busies ≡ self.old.busies) }
        ensures grown { Later (told_at self.old.roots) (told_at self.new.roots) }
        ensures later { Later (told_at other.roots) (told_at self.new.roots) }
        ensures longest { (q : ℕ) → told_at self.new.roots q ≡ longer (told_at self.old.roots q) (told_at other.roots q) }
        ensures kin { TakesAll (kin_at self.old.roots) (kin_at other.roots) (kin_at self.new.roots) }
        ensures mine { OwnsBoth (mine_at self.old.roots) (mine_at other.roots) (mine_at self.new.roots) }
        ensures made { OwnsBoth (made_at self.old.roots) (made_at other.roots) (made_at self.new.roots) }
        // at each place whose root has then taken in every other pass, no other caller called
        ensures whole { (q : ℕ) → OwnsAllAt self.new.roots q }
    {
        let Shared {
            ways,
            names: _,
            opens: _,
            busies: _,
        } = other;
        self.ways.gather(ways);
    }
}

impl StreamPort for Shared<PlaceTable> {
    type Pass = Pass<PlaceTable>;

    ghost use Rattle.std.specs.Prelude.{◌≡◌, ◌≢◌, ◌<◌, ◌≤◌, ◌^◌, ℕ, [], Some, length, slice_get, IfOk, IfErr};
    ghost use Rattle.turn_gate.specs.Histories.{Begins, longer};
    ghost use Rattle.turn_gate.specs.Known.{PassKnown};
    ghost use Rattle.stream_registry.specs.declared.place_table.Site.{Site};
    ghost use Rattle.stream_registry.specs.Pasts.{Attempt};
    ghost use Rattle.stream_registry.specs.Names.{places};
    ghost use Rattle.stream_registry.specs.Told.{Keeps};
    ghost use Rattle.stream_registry.specs.Placed.{Placed, Failed, TriedOnce};
    ghost use Rattle.stream_registry.specs.Refusals.{IsRefused};
    ghost use Rattle.stream_registry.specs.Gates.{told, told_at, numbers, made_at};
    ghost use Rattle.turn_gate.specs.Branches.{offshoot, IsWhole};
    ghost use Rattle.stream_registry.specs.Roots.{Unlearned, gates, seen_at, kin_at, mine_at, OwnsAllAt};
    ghost use Rattle.stream_registry.specs.Splits.{SplitsOff, TakesIn, OwnsMore, CallSplits, HasAll};
    ghost use Rattle.stream_registry.specs.SharedState.{shared_rules, limits_at};
    ghost use Rattle.stream_registry.specs.Wants.{IsTake, IsWanted};

    ghost busies = { λ s. s.busies };

    ghost rules = { shared_rules };

    ghost root = { λ s. told_at s.roots };

    ghost fits = { λ s place p. slice_get (gates s.roots) place ≡ Some p.gate };

    ghost limits = { λ p. p.gate.about.limits };

    ghost seen = { λ p. told p.seen };

    ghost mine = { λ p. numbers p.seen p.mine };

    ghost kin = { λ s. kin_at s.roots };

    ghost branches = { λ p. p.kin };

    ghost owns = { λ s. made_at s.roots };

    ghost gains = { OwnsMore };

    ghost adds = { λ h xs i. Unit {0} };

    ghost count = { λ p. length p.seen };

    ghost wants = { λ e. IsTake e.call };

    fn find(&self, app: &[u8], name: &[u8]) -> Result<u32, NotFound> {
        let names: &NameList = &self.names;
        let opens: &OpenList = &self.opens;
        place_of(names, opens, app, name)
    }

    fn busies(&self) -> u64 {
        self.busies
    }

    /// As the trait says. The calls that memory refused are among those that the pass has seen.
    fn attach(&mut self, place: u32) -> Pass<PlaceTable>
        requires { place < places (shared_rules self.old) }
        ensures pass { (slice_get (gates self.new.roots) place ≡ Some result.gate)
            × (result.gate.about.limits ≡ (shared_rules self.old).limits place) }
        ensures seen { (told result.seen ≡ told_at self.old.roots place) × (numbers result.seen result.mine ≡ []) }
        ensures fixed { (shared_rules self.new ≡ shared_rules self.old) × (self.new.busies ≡ self.old.busies) }
        ensures root { (q : ℕ) → told_at self.new.roots q ≡ told_at self.old.roots q }
        ensures fits { (q : ℕ) (p : PassKnown Site Attempt) → slice_get (gates self.old.roots) q ≡ Some p.gate
            → slice_get (gates self.new.roots) q ≡ Some p.gate }
        ensures split { SplitsOff (kin_at self.old.roots) (kin_at self.new.roots) place × (result.kin ≡ offshoot (kin_at self.old.roots place)) }
        ensures roots { Unlearned self.old.roots self.new.roots }
        ensures attempts { result.seen ≡ seen_at self.old.roots place }
        ensures mine { (result.mine ≡ []) × ((q : ℕ) → mine_at self.new.roots q ≡ mine_at self.old.roots q) }
        ensures owns { (q : ℕ) → made_at self.new.roots q ≡ made_at self.old.roots q }
    {
        let _ = &self.names;
        self.ways.attach(place as usize)
    }

    /// As the trait says. The calls that memory refused are among those that the root has then seen.
    fn detach(&mut self, place: u32, pass: Pass<PlaceTable>)
        requires { slice_get (gates self.old.roots) place ≡ Some pass.gate }
        ensures here { told_at self.new.roots place ≡ longer (told_at self.old.roots place) (told pass.seen) }
        ensures both { Begins (told_at self.old.roots place) (told_at self.new.roots place)
            × Begins (told pass.seen) (told_at self.new.roots place) }
        ensures others { (q : ℕ) → q ≢ place → told_at self.new.roots q ≡ told_at self.old.roots q }
        ensures fixed { (shared_rules self.new ≡ shared_rules self.old) × (self.new.busies ≡ self.old.busies) }
        ensures fits { (q : ℕ) (p : PassKnown Site Attempt) → slice_get (gates self.old.roots) q ≡ Some p.gate
            → slice_get (gates self.new.roots) q ≡ Some p.gate }
        ensures taken { TakesIn (kin_at self.old.roots) pass.kin (kin_at self.new.roots) place }
        ensures adds { Unit {0} }
        ensures attempts { seen_at self.new.roots place ≡ longer (seen_at self.old.roots place) pass.seen }
        ensures apart { (q : ℕ) → q ≢ place → seen_at self.new.roots q ≡ seen_at self.old.roots q }
        ensures mine { OwnsMore (mine_at self.old.roots) pass.mine (mine_at self.new.roots) place }
        ensures gains { OwnsMore (made_at self.old.roots) (numbers pass.seen pass.mine) (made_at self.new.roots) place }
        ensures all { IsWhole (kin_at self.new.roots place) → HasAll (made_at self.new.roots place) (length (told_at self.new.roots place)) }
        // if the root has then taken in every other pass, no other caller called
        ensures whole { OwnsAllAt self.new.roots place }
    {
        self.ways.detach(place as usize, pass);
    }

    /// As the trait says. The root learns nothing by it. By the pass's knowledge of the gate after it, `Busy`
    /// comes exactly if its swap found the turn held.
    fn call(
        &mut self,
        place: u32,
        pass: &mut Pass<PlaceTable>,
        entry: Entry,
    ) -> Result<Reply, PortFail>
        requires { slice_get (gates self.old.roots) place ≡ Some pass.old.gate }
        ensures pass { (slice_get (gates self.new.roots) place ≡ Some pass.new.gate)
            × (pass.new.gate.about.limits ≡ pass.old.gate.about.limits) × Begins (told pass.old.seen) (told pass.new.seen) }
        ensures reply { IfOk result (λ r.
            Placed pass.old.gate.about.limits (told_at self.old.roots place) (told pass.old.seen) (numbers pass.old.seen pass.old.mine)
            (entry, r) (told pass.new.seen) (numbers pass.new.seen pass.new.mine)) }
        ensures laws { IfOk result (λ _. Keeps pass.new.gate.about.limits (told pass.new.seen)) }
        ensures room { IfOk result (λ _. length pass.new.seen ≤ 2 ^ 62) }
        ensures fails { IfErr result (λ e. Failed entry self.old.busies self.new.busies (length pass.new.seen) e) }
        ensures memory { IfErr result (IsWanted (IsTake entry.call)) }
        ensures unmade { IfErr result (λ _. (numbers pass.new.seen pass.new.mine ≡ numbers pass.old.seen pass.old.mine)
            × ((q : ℕ) → told_at self.new.roots q ≡ told_at self.old.roots q)) }
        ensures once { TriedOnce self.old.busies self.new.busies result }
        ensures busies { self.old.busies ≤ self.new.busies }
        ensures here { Begins (told_at self.old.roots place) (told_at self.new.roots place) }
        ensures others { (q : ℕ) → q ≢ place → told_at self.new.roots q ≡ told_at self.old.roots q }
        ensures fixed { shared_rules self.new ≡ shared_rules self.old }
        ensures fits { (q : ℕ) (p : PassKnown Site Attempt) → slice_get (gates self.old.roots) q ≡ Some p.gate
            → slice_get (gates self.new.roots) q ≡ Some p.gate }
        ensures split { CallSplits (kin_at self.old.roots) pass.old.kin result (kin_at self.new.roots) pass.new.kin place }
        ensures adds { Unit {0} }
        ensures roots { Unlearned self.old.roots self.new.roots }
        ensures attempts { Begins pass.old.seen pass.new.seen }
        ensures mine { (q : ℕ) → mine_at self.new.roots q ≡ mine_at self.old.roots q }
        ensures owns { (q : ℕ) → made_at self.new.roots q ≡ made_at self.old.roots q }
        ensures free { IfOk result (λ _. pass.new.met ≡ pass.old.met) }
        ensures refused { IfErr result (λ e. IsRefused pass.old entry e pass.new) }
    {
        let _ = pass.seen();
        let numbers = TakeNumbers::of(&entry);
        match self.ways.call(place as usize, pass, entry) {
            Ok(Ok(reply)) => {
                tables_law();
                takes_alone();
                takes_alone_at_pools();
                Ok(reply)
            }
            Ok(Err(OutOfMemory)) => Err(PortFail::OutOfMemory(numbers.unwrap().entry())),
            Err(CallFail::Busy(entry)) => {
                self.busies = self.busies.saturating_add(1);
                Err(PortFail::Busy(entry))
            }
            Err(CallFail::Worn(entry)) => Err(PortFail::Worn(entry)),
        }
    }

    ghost adds_none = { λ h. tt };

    ghost adds_both = { λ h i j xs ys a b. tt };

    ghost ruled = { λ x q p f. limits_at (slice_get (gates x.roots) q) p.gate f };
}
