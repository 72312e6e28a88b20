ghost use Rattle.std.specs.Prelude.{◌≡◌, ◌<◌, ℕ, [], length, None};
ghost use Rattle.media_recorder.specs.Ports.{Serves, FitsIf, seen_of, mine_of};
ghost use Rattle.media_recorder.specs.Seats.{StandIf, Asks};
ghost use Rattle.media_recorder.specs.Leaves.{Parts};
ghost use Rattle.media_recorder.specs.Alone.{AsksAlone, Enters, GivesBack};

use past::{Flow, Pair};
use std::marker::Model;
use std::snapshot::Snapshot;
use stream_core::{Call, Entry, Reply};
use stream_registry::{PortFail, StreamPort};

/// A caller at one place. Its pass is attached before its first call.
#[derive(Drop)]
pub struct Seat<P: StreamPort> {
    who: u64,
    place: u32,
    pass: Option<P::Pass>,
    calls: Flow<Pair<Entry, Reply>>,
}

impl<P: StreamPort> Model for Seat<P> {
    ghost use Rattle.media_recorder.specs.Seats.{SeatState, StandIf};

    ghost Value = { SeatState P.Pass };

    ghost view = { λ s. record { who = s.who; place = s.place; pass = s.pass; calls = s.calls } };

    ghost invariant = { λ s. StandIf P.limits P.seen P.mine s.who s.pass s.calls };
}

// Returns the given pass, or a new one of the port if there is none.
fn entered<P: StreamPort>(port: &mut P, place: u32, pass: Option<P::Pass>) -> P::Pass
    requires place { place < length (P.rules port.old).names }
    requires fits { FitsIf (P.fits port.old place) pass }
    ensures fits { P.fits port.new place result × (P.limits result ≡ (P.rules port.old).limits place) }
    ensures seen { P.seen result ≡ seen_of P.seen (P.root port.old place) pass }
    ensures mine { P.mine result ≡ mine_of P.mine pass }
    ensures roots { (q : ℕ) → P.root port.new q ≡ P.root port.old q }
    ensures splits { Enters P.branches (P.kin port.old) place pass (P.branches result) (P.kin port.new) }
    ensures fixed { (P.rules port.new ≡ P.rules port.old) × (P.busies port.new ≡ P.busies port.old) }
    ensures others { (q : ℕ) (p : P.Pass) → P.fits port.old q p → P.fits port.new q p }
{
    match pass {
        Some(pass) => pass,
        None => port.attach(place),
    }
}

impl<P: StreamPort> Seat<P> {
    /// Makes a caller that has made no call.
    pub(crate) fn new(place: u32, who: u64) -> Seat<P>
        ensures { result ≡ record { who = who; place = place; pass = None; calls = [] } }
    {
        Seat {
            who,
            place,
            pass: None,
            calls: Flow::new(),
        }
    }

    /// Returns its place.
    pub(crate) fn place(&self) -> u32
        ensures { result ≡ self.now.place }
    {
        self.place
    }

    /// Shows that its calls stand in the history that its pass has seen.
    pub(crate) fn law(&self)
        ensures { StandIf P.limits P.seen P.mine self.now.who self.now.pass self.now.calls }
    {
        let _ = &self.pass;
    }

    /// Makes a call.
    pub(crate) fn call(&mut self, port: &mut P, call: Call) -> Result<Reply, PortFail>
        requires place { self.old.place < length (P.rules port.old).names }
        requires fits { FitsIf (P.fits port.old self.old.place) self.old.pass }
        ensures fits { FitsIf (P.fits port.new self.new.place) self.new.pass }
        ensures port { Serves P.rules P.root P.busies P.fits self.old.place port.old port.new }
        ensures asks { Asks P.seen P.mine P.count ((P.rules port.old).limits self.old.place) (P.root port.old self.old.place)
            (P.busies port.old) (P.busies port.new) self.old call result self.new }
        ensures alone { AsksAlone P.rules P.adds P.root P.seen P.kin P.branches port.old port.new self.old call result self.new }
    {
        let entry = Entry {
            who: self.who,
            at: 0,
            call,
        };
        let made = Snapshot::of(&entry);
        let mut pass = entered(port, self.place, self.pass.take());
        match port.call(self.place, &mut pass, entry) {
            Ok(reply) => {
                self.calls.add(&Pair::of(made, &reply));
                self.pass = Some(pass);
                return Ok(reply);
            }
            Err(fail) => {
                self.pass = Some(pass);
                return Err(fail);
            }
        }
    }

    /// Detaches its pass, if it has one.
    pub(crate) fn part(self, port: &mut P)
        requires fits { FitsIf (P.fits port.old self.place) self.pass }
        ensures port { Serves P.rules P.root P.busies P.fits self.place port.old port.new }
        ensures busies { P.busies port.new ≡ P.busies port.old }
        ensures parts { Parts P.rules P.root P.seen P.mine port.old port.new self }
        ensures gives { GivesBack P.rules P.adds P.root P.seen P.kin P.branches port.old port.new self.place self.pass }
    {
        let Seat {
            who: _,
            place,
            pass,
            calls: _,
        } = self;
        match pass {
            Some(pass) => port.detach(place, pass),
            None => {}
        }
    }
}
