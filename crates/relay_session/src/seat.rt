ghost use Rattle.stream_registry.specs.Names.{places};
ghost use Rattle.std.specs.Prelude.{◌≡◌, ◌≢◌, ◌<◌, ◌≤◌, ℕ, [], length, None, Some};
ghost use Rattle.relay_session.specs.declared.seat_answers.Active.TheVariants.{Nothing};
ghost use Rattle.relay_session.specs.SeatVisits.{calls_of};
ghost use Rattle.relay_session.specs.SeatState.{CanCome, GoOn, HasFit, IsElsewhere, SeatState, StandsAt, active_at, known, left_at, place_of, stays};
ghost use Rattle.relay_session.specs.SeatState.{Calls, Fails, FinishFails, Finishes, IsNoted, LeaveFails, LeaveTries, LeavesFrom, Makes, Once, OnceIf, Tries, numbers_at};
ghost use Rattle.relay_session.specs.SeatState.{active_after, active_then, is_over, last_of};
ghost use Rattle.relay_session.specs.Alone.{AddsNone, Comes, GivesBack, GrowsAs, GrowsBy, GrowsFrom, LeaveSplits, LeavesSplit};
ghost use Rattle.relay_session.specs.Alone.{Splits, SplitsSo, answer_of, branches_at, made_step};
ghost use Rattle.stream_registry.specs.Splits.{CallSplits};

use crate::{Active, Leaving, Made, Met};
use past::{History, Pair};
use std::cell::Cell;
use std::marker::Model;
use std::snapshot::Snapshot;
use stream_model::{Call, Entry, Reply};
use stream_registry::{PortFail, StreamPort};

/// The position of a session at the streams: it has a pass at one place at a time. Its calls at all places
/// are known, and take no bytes.
#[derive(Drop)]
pub struct Seat<P: StreamPort> {
    spot: Option<(u32, P::Pass)>,
    active: Active,
    met: Cell<Met>,
    visits: History<Pair<u32, Pair<Entry, Reply>>>,
}

impl<P: StreamPort> Model for Seat<P> {
    ghost use Rattle.relay_session.specs.SeatState.{SeatState};

    ghost Value = { SeatState P.Pass };

    ghost view = { λ s. record { spot = s.spot; active = s.active; visits = s.visits } };
}

// Returns the role that is granted after a reply.
fn active_by(reply: &Reply, active: Active) -> Active
    ensures { result ≡ active_after reply.now active }
{
    match reply {
        Reply::Began { .. } => Active::Publishes,
        Reply::Joined { player, .. } => Active::Plays { player: *player },
        Reply::InUse { .. }
        | Reply::Full
        | Reply::NoSlot { .. }
        | Reply::Ended { .. }
        | Reply::Left { .. } => Active::Nothing,
        Reply::Pushed { .. }
        | Reply::NotPublisher { .. }
        | Reply::NotPlayer
        | Reply::Sent { .. }
        | Reply::Skip { .. }
        | Reply::NotYet { .. }
        | Reply::Counts { .. } => active,
    }
}

// Returns whether there is nothing more to do after a reply.
fn over(reply: &Reply) -> bool
    ensures { result ≡ is_over reply.now }
{
    match reply {
        Reply::InUse { .. }
        | Reply::Full
        | Reply::NoSlot { .. }
        | Reply::Ended { .. }
        | Reply::Left { .. } => true,
        Reply::Began { .. }
        | Reply::Joined { .. }
        | Reply::Pushed { .. }
        | Reply::NotPublisher { .. }
        | Reply::NotPlayer
        | Reply::Sent { .. }
        | Reply::Skip { .. }
        | Reply::NotYet { .. }
        | Reply::Counts { .. } => false,
    }
}

// Returns the call that ends the role that was granted.
fn last(active: Active) -> Option<Call>
    ensures { result ≡ last_of active }
{
    match active {
        Active::Nothing => None,
        Active::Publishes => Some(Call::End),
        Active::Plays { player } => Some(Call::Leave { player }),
    }
}

impl<P: StreamPort> Seat<P> {
    /// Makes a seat that is nowhere, and has made no call.
    pub fn new() -> Seat<P>
        ensures { result ≡ record { spot = None; active = Nothing; visits = [] } }
    {
        Seat {
            spot: None,
            active: Active::Nothing,
            met: Cell::new(Met::new()),
            visits: History::new(),
        }
    }

    /// Returns the place at which it has a pass.
    pub fn place(&self) -> Option<u32>
        ensures { result ≡ place_of self.now.spot }
    {
        match &self.spot {
            None => None,
            Some((place, _)) => Some(*place),
        }
    }

    /// Returns the role that it was granted there.
    pub fn active(&self) -> Active
        ensures { result ≡ self.now.active }
    {
        self.active
    }

    /// Returns the answers that it has had to its calls, in numbers. No clause states them: they are for the
    /// log and for `stats`.
    pub fn met(&self) -> Met {
        self.met.get()
    }

    // Leaves its place.
    fn rise(&mut self, port: &mut P)
        requires { HasFit (P.fits port.old) self.old.spot }
        ensures spot { self.new.spot ≡ None }
        ensures active { self.new.active ≡ Nothing }
        ensures visits { self.new.visits ≡ self.old.visits }
        ensures knows { GoOn (known P.root P.seen port.old self.old) (known P.root P.seen port.new self.new) }
        ensures stands { StandsAt P.rules P.root P.seen port.old self.old → StandsAt P.rules P.root P.seen port.new self.new }
        ensures roots { GoOn (P.root port.old) (P.root port.new) }
        ensures others { (q : ℕ) → IsElsewhere self.old.spot q → P.root port.new q ≡ P.root port.old q }
        ensures fixed { (P.rules port.new ≡ P.rules port.old) × (P.busies port.new ≡ P.busies port.old) }
        ensures passes { (q : ℕ) (p : P.Pass) → P.fits port.old q p → P.fits port.new q p }
        ensures adds { AddsNone P.adds (P.root port.old) (P.root port.new) }
        ensures gives { GivesBack P.branches (P.kin port.old) self.old.spot (P.kin port.new) }
    {
        self.active = Active::Nothing;
        match self.spot.take() {
            None => {
                return;
            }
            Some((place, pass)) => {
                port.detach(place, pass);
                return;
            }
        }
    }

    /// Moves to a place, from the one at which it is.
    fn enter(&mut self, port: &mut P, place: u32)
        requires fit { HasFit (P.fits port.old) self.old.spot }
        requires place { CanCome self.old.spot (places (P.rules port.old)) place }
        ensures fit { HasFit (P.fits port.new) self.new.spot }
        ensures spot { place_of self.new.spot ≡ Some place }
        ensures active { self.new.active ≡ active_at self.old.spot self.old.active place }
        ensures visits { self.new.visits ≡ self.old.visits }
        ensures same { known P.root P.seen port.new self.new place ≡ known P.root P.seen port.old self.old place }
        ensures numbers { numbers_at P.mine self.new.spot place ≡ numbers_at P.mine self.old.spot place }
        ensures root { P.root port.new place ≡ P.root port.old place }
        ensures knows { GoOn (known P.root P.seen port.old self.old) (known P.root P.seen port.new self.new) }
        ensures stands { StandsAt P.rules P.root P.seen port.old self.old → StandsAt P.rules P.root P.seen port.new self.new }
        ensures roots { GoOn (P.root port.old) (P.root port.new) }
        ensures others { (q : ℕ) → IsElsewhere self.old.spot q → P.root port.new q ≡ P.root port.old q }
        ensures fixed { (P.rules port.new ≡ P.rules port.old) × (P.busies port.new ≡ P.busies port.old) }
        ensures passes { (q : ℕ) (p : P.Pass) → P.fits port.old q p → P.fits port.new q p }
        ensures adds { AddsNone P.adds (P.root port.old) (P.root port.new) }
        ensures comes { Comes P.branches (P.kin port.old) self.old.spot place (branches_at P.branches self.new.spot) (P.kin port.new) }
    {
        if self.place() == Some(place) {
            return;
        }
        self.rise(port);
        self.spot = Some((place, port.attach(place)));
    }

    // Makes one call at the place at which it is.
    fn ask(&mut self, port: &mut P, place: u32, entry: Entry) -> Made
        requires fit { HasFit (P.fits port.old) self.old.spot }
        requires spot { place_of self.old.spot ≡ Some place }
        ensures fit { HasFit (P.fits port.new) self.new.spot }
        ensures spot { place_of self.new.spot ≡ Some place }
        ensures active { self.new.active ≡ active_then result self.old.active }
        ensures makes { Makes place entry result self.old.visits self.new.visits }
        ensures once { Once result (numbers_at P.mine self.old.spot place) (numbers_at P.mine self.new.spot place) }
        ensures noted { IsNoted ((P.rules port.old).limits place) (P.root port.old place) (known P.root P.seen port.old self.old place)
            entry result (known P.root P.seen port.new self.new place) }
        ensures fails { Fails P.count (P.wants entry) (P.busies port.old) (P.busies port.new) result self.new.spot }
        ensures tries { Tries (P.busies port.old) (P.busies port.new) result }
        ensures knows { GoOn (known P.root P.seen port.old self.old) (known P.root P.seen port.new self.new) }
        ensures stands { StandsAt P.rules P.root P.seen port.old self.old → StandsAt P.rules P.root P.seen port.new self.new }
        ensures roots { GoOn (P.root port.old) (P.root port.new) }
        ensures others { (q : ℕ) → q ≢ place → P.root port.new q ≡ P.root port.old q }
        ensures fixed { P.rules port.new ≡ P.rules port.old }
        ensures busies { P.busies port.old ≤ P.busies port.new }
        ensures passes { (q : ℕ) (p : P.Pass) → P.fits port.old q p → P.fits port.new q p }
        ensures adds { GrowsBy P.adds (P.root port.old) place (made_step entry result) (P.root port.new) }
        ensures splits { CallSplits (P.kin port.old) (branches_at P.branches self.old.spot) (answer_of result)
            (P.kin port.new) (branches_at P.branches self.new.spot) place }
    {
        match &mut self.spot {
            None => unreachable!(),
            Some((_, pass)) => {
                let asked = Snapshot::of(&entry);
                match port.call(place, pass, entry) {
                    Ok(reply) => {
                        self.active = active_by(&reply, self.active);
                        let step = Pair::of(asked, &reply);
                        self.visits.add(&Pair::of(Snapshot::of(&place), &step));
                        Made::Answer(reply)
                    }
                    Err(PortFail::Busy(entry)) => Made::Busy(entry),
                    Err(PortFail::Worn(entry)) => Made::Worn(entry),
                    Err(PortFail::OutOfMemory(entry)) => Made::OutOfMemory(entry),
                }
            }
        }
    }

    // Makes one call, and leaves the place if there is nothing more to do.
    fn call(&mut self, port: &mut P, place: u32, entry: Entry) -> Made
        requires fit { HasFit (P.fits port.old) self.old.spot }
        requires spot { place_of self.old.spot ≡ Some place }
        ensures fit { HasFit (P.fits port.new) self.new.spot }
        ensures spot { place_of self.new.spot ≡ stays place result }
        ensures active { self.new.active ≡ active_then result self.old.active }
        ensures makes { Makes place entry result self.old.visits self.new.visits }
        ensures once { OnceIf result P.mine place (numbers_at P.mine self.old.spot place) self.new.spot }
        ensures noted { IsNoted ((P.rules port.old).limits place) (P.root port.old place) (known P.root P.seen port.old self.old place)
            entry result (known P.root P.seen port.new self.new place) }
        ensures fails { Fails P.count (P.wants entry) (P.busies port.old) (P.busies port.new) result self.new.spot }
        ensures tries { Tries (P.busies port.old) (P.busies port.new) result }
        ensures knows { GoOn (known P.root P.seen port.old self.old) (known P.root P.seen port.new self.new) }
        ensures stands { StandsAt P.rules P.root P.seen port.old self.old → StandsAt P.rules P.root P.seen port.new self.new }
        ensures roots { GoOn (P.root port.old) (P.root port.new) }
        ensures others { (q : ℕ) → q ≢ place → P.root port.new q ≡ P.root port.old q }
        ensures fixed { P.rules port.new ≡ P.rules port.old }
        ensures busies { P.busies port.old ≤ P.busies port.new }
        ensures passes { (q : ℕ) (p : P.Pass) → P.fits port.old q p → P.fits port.new q p }
        ensures adds { GrowsBy P.adds (P.root port.old) place (made_step entry result) (P.root port.new) }
        ensures splits { Splits (P.kin port.old) place (branches_at P.branches self.old.spot) result (P.kin port.new) (branches_at P.branches self.new.spot) }
    {
        match self.ask(port, place, entry) {
            Made::Answer(reply) => {
                if over(&reply) {
                    self.rise(port);
                    return Made::Answer(reply);
                }
                Made::Answer(reply)
            }
            Made::Busy(entry) => Made::Busy(entry),
            Made::Worn(entry) => Made::Worn(entry),
            Made::OutOfMemory(entry) => Made::OutOfMemory(entry),
        }
    }

    /// Makes one call at a place. It moves to that place first, and leaves it if the reply is InUse, Full,
    /// NoSlot, Ended or Left. A call that isn't made comes back, and the seat stays there: for another try,
    /// or for none.
    pub fn make(&mut self, port: &mut P, place: u32, entry: Entry) -> Made
        requires fit { HasFit (P.fits port.old) self.old.spot }
        requires place { CanCome self.old.spot (places (P.rules port.old)) place }
        ensures fit { HasFit (P.fits port.new) self.new.spot }
        ensures spot { place_of self.new.spot ≡ stays place result }
        ensures active { self.new.active ≡ active_then result (active_at self.old.spot self.old.active place) }
        ensures makes { Makes place entry result self.old.visits self.new.visits }
        ensures once { OnceIf result P.mine place (numbers_at P.mine self.old.spot place) self.new.spot }
        ensures calls { Calls entry result (calls_of self.old.visits) (calls_of self.new.visits) }
        ensures noted { IsNoted ((P.rules port.old).limits place) (P.root port.old place) (known P.root P.seen port.old self.old place)
            entry result (known P.root P.seen port.new self.new place) }
        ensures fails { Fails P.count (P.wants entry) (P.busies port.old) (P.busies port.new) result self.new.spot }
        ensures tries { Tries (P.busies port.old) (P.busies port.new) result }
        ensures knows { GoOn (known P.root P.seen port.old self.old) (known P.root P.seen port.new self.new) }
        ensures stands { StandsAt P.rules P.root P.seen port.old self.old → StandsAt P.rules P.root P.seen port.new self.new }
        ensures roots { GoOn (P.root port.old) (P.root port.new) }
        ensures others { (q : ℕ) → q ≢ place → IsElsewhere self.old.spot q → P.root port.new q ≡ P.root port.old q }
        ensures fixed { P.rules port.new ≡ P.rules port.old }
        ensures busies { P.busies port.old ≤ P.busies port.new }
        ensures passes { (q : ℕ) (p : P.Pass) → P.fits port.old q p → P.fits port.new q p }
        ensures adds { GrowsBy P.adds (P.root port.old) place (made_step entry result) (P.root port.new) }
        ensures splits { SplitsSo P.branches (P.kin port.old) self.old.spot place result (P.kin port.new) self.new.spot }
    {
        self.enter(port, place);
        let made = self.call(port, place, entry);
        self.met.set(self.met.get().after(&made));
        made
    }

    // Makes the call that ends the role granted, if there is one, and leaves.
    fn finish(&mut self, port: &mut P, place: u32, who: u64, fed: u64) -> Leaving
        requires fit { HasFit (P.fits port.old) self.old.spot }
        requires spot { place_of self.old.spot ≡ Some place }
        ensures fit { HasFit (P.fits port.new) self.new.spot }
        ensures spot { place_of self.new.spot ≡ left_at result (place_of self.old.spot) }
        ensures leaves { Finishes place who fed (last_of self.old.active) self.old.active self.old.visits result self.new.active self.new.visits }
        ensures fails { FinishFails (P.fits port.new) P.count P.wants place who fed (P.busies port.old) (P.busies port.new) result }
        ensures tries { LeaveTries (P.busies port.old) (P.busies port.new) result }
        ensures knows { GoOn (known P.root P.seen port.old self.old) (known P.root P.seen port.new self.new) }
        ensures stands { StandsAt P.rules P.root P.seen port.old self.old → StandsAt P.rules P.root P.seen port.new self.new }
        ensures roots { GoOn (P.root port.old) (P.root port.new) }
        ensures others { (q : ℕ) → IsElsewhere self.old.spot q → P.root port.new q ≡ P.root port.old q }
        ensures fixed { P.rules port.new ≡ P.rules port.old }
        ensures busies { P.busies port.old ≤ P.busies port.new }
        ensures passes { (q : ℕ) (p : P.Pass) → P.fits port.old q p → P.fits port.new q p }
        ensures adds { GrowsAs P.adds ((P.rules port.old).limits place) (P.root port.old) (known P.root P.seen port.old self.old place) place
            self.old.visits self.new.visits (P.root port.new) (known P.root P.seen port.new self.new place) }
        ensures splits { LeaveSplits P.branches (P.kin port.old) self.old.spot place self.old.visits self.new.visits (P.kin port.new) self.new.spot }
    {
        let Some(call) = last(self.active) else {
            self.rise(port);
            return Leaving::Done;
        };
        match self.call(port, place, Entry { who, at: fed, call }) {
            Made::Answer(_) => {
                self.rise(port);
                Leaving::Done
            }
            Made::Busy(_) => Leaving::Busy,
            Made::OutOfMemory(_) => Leaving::OutOfMemory,
            Made::Worn(_) => {
                self.rise(port);
                Leaving::Worn
            }
        }
    }

    /// Makes the kept call, if there is one, and then the End or Leave of the role granted, named `who` at
    /// `fed` bytes of input. Then it leaves.
    ///
    /// If the port is busy or has no memory it is still there, and the kept call is kept unless it was made.
    /// If the stream has had the largest number of calls that it can count, no further call is made, and it
    /// leaves.
    pub fn leave(&mut self, port: &mut P, who: u64, fed: u64, kept: &mut Option<Entry>) -> Leaving
        requires { HasFit (P.fits port.old) self.old.spot }
        ensures fit { HasFit (P.fits port.new) self.new.spot }
        ensures spot { place_of self.new.spot ≡ left_at result (place_of self.old.spot) }
        ensures leaves { LeavesFrom (place_of self.old.spot) who fed kept.old self.old.active self.old.visits result kept.new self.new.active self.new.visits }
        ensures fails { LeaveFails (P.fits port.new) P.count P.wants (place_of self.old.spot) who fed kept.old (P.busies port.old) (P.busies port.new) result }
        ensures tries { LeaveTries (P.busies port.old) (P.busies port.new) result }
        ensures knows { GoOn (known P.root P.seen port.old self.old) (known P.root P.seen port.new self.new) }
        ensures stands { StandsAt P.rules P.root P.seen port.old self.old → StandsAt P.rules P.root P.seen port.new self.new }
        ensures roots { GoOn (P.root port.old) (P.root port.new) }
        ensures others { (q : ℕ) → IsElsewhere self.old.spot q → P.root port.new q ≡ P.root port.old q }
        ensures fixed { P.rules port.new ≡ P.rules port.old }
        ensures busies { P.busies port.old ≤ P.busies port.new }
        ensures passes { (q : ℕ) (p : P.Pass) → P.fits port.old q p → P.fits port.new q p }
        ensures adds { GrowsFrom P.adds (P.rules port.old).limits (P.root port.old) (known P.root P.seen port.old self.old) (place_of self.old.spot)
            self.old.visits self.new.visits (P.root port.new) (known P.root P.seen port.new self.new) }
        ensures splits { LeavesSplit (place_of self.old.spot) P.branches (P.kin port.old) self.old.spot self.old.visits self.new.visits
            (P.kin port.new) self.new.spot }
    {
        let Some(place) = self.place() else {
            return Leaving::Done;
        };
        match kept.take() {
            None => self.finish(port, place, who, fed),
            Some(entry) => match self.call(port, place, entry) {
                Made::Answer(_) => match self.place() {
                    None => Leaving::Done,
                    Some(_) => self.finish(port, place, who, fed),
                },
                Made::Busy(entry) => {
                    *kept = Some(entry);
                    Leaving::Busy
                }
                Made::OutOfMemory(entry) => {
                    *kept = Some(entry);
                    Leaving::OutOfMemory
                }
                Made::Worn(entry) => {
                    *kept = Some(entry);
                    self.rise(port);
                    Leaving::Worn
                }
            },
        }
    }

    /// Shows that a seat stands as it stood after others have made calls at the same port, and that its pass
    /// fits.
    pub fn others_law()
        ensures stands { (x y : P) (s : SeatState P.Pass) → P.rules y ≡ P.rules x → GoOn (P.root x) (P.root y) → StandsAt P.rules P.root P.seen x s
            → StandsAt P.rules P.root P.seen y s }
        ensures fit { (x y : P) (s : SeatState P.Pass) → ((q : ℕ) (p : P.Pass) → P.fits x q p → P.fits y q p) → HasFit (P.fits x) s.spot
            → HasFit (P.fits y) s.spot }
    {}
}
