ghost use Rattle.stream_registry.specs.Names.{places};
ghost use Rattle.std.specs.Prelude.{◌≡◌, ◌≤◌, ℕ, [], length, None, Some};
ghost use Rattle.command_dialog.specs.declared.types.Ask.{Ask};
ghost use Rattle.command_dialog.specs.declared.types.Grant.{Grant};
ghost use Rattle.relay_session.specs.Alone.{GrowsFrom, LeavesSplit};
ghost use Rattle.relay_session.specs.Onward.{GoesOn};
ghost use Rattle.relay_session.specs.Places.{AskedAlone, IsOffered};
ghost use Rattle.relay_session.specs.SeatState.{GoOn, HasFit, IsElsewhere, LeaveFails, LeaveTries, LeavesFrom, StandsAt, known, left_at, place_of};
ghost use Rattle.http_flv.specs.Causes.{Did, MayBe};
ghost use Rattle.http_flv.specs.Keeping.{IsAt};
ghost use Rattle.http_flv.specs.PlayerState.{OwesBy, PlayerState, StandsFor, end_or_closed, ended_by, held_of, lasting_of, life_at, most_held};
ghost use Rattle.http_flv.specs.Turns.{EndedBy};
ghost use Rattle.http_flv.specs.declared.stage.Stage.TheVariants.{Reading};

use crate::body::Body;
use crate::steps::new_core;
use crate::turns::kept_on;
use crate::{HttpEnd, HttpTurn, Stage};
use relay_base::Limits;
use relay_outside::Link;
use relay_session::{Desk, Leaving, Met, Seat};
use std::alloc::Global;
use std::marker::Model;
use stream_registry::StreamPort;

/// One player that speaks HTTP.
#[derive(Drop)]
pub struct HttpPlayer<P: StreamPort> {
    body: Body<P>,
    ended: Option<HttpEnd>,
}

impl<P: StreamPort> Model for HttpPlayer<P> {
    ghost use Rattle.http_flv.specs.PlayerState.{IsLiving, PlayerState};

    ghost Value = { PlayerState P.Pass };

    ghost view = { λ s. record { parts = s.body.core; seat = s.body.seat; ended = s.ended } };

    ghost invariant = { λ s. IsLiving s.ended s.body.core };
}

// Returns why a turn ended the player, if it did.
fn end_in(answer: HttpTurn) -> Option<HttpEnd>
    ensures { result ≡ ended_by answer }
{
    match answer {
        HttpTurn::Moved => None,
        HttpTurn::Idle => None,
        HttpTurn::Ended(end) => Some(end),
    }
}

// Returns why a player that is closed has ended.
fn end_or_closed(ended: Option<HttpEnd>) -> HttpEnd
    ensures { result ≡ end_or_closed ended }
{
    match ended {
        None => HttpEnd::Closed,
        Some(end) => end,
    }
}

impl<P: StreamPort> HttpPlayer<P> {
    /// Makes a player of this name that has received nothing and is at no stream. It sends units of at most
    /// `max_message` bytes: a longer one is refused as out of memory. It takes no memory.
    pub fn new(alloc: Global, who: u64, limits: Limits) -> HttpPlayer<P>
        requires { limits.max_message ≤ 4194304 }
        ensures stands { (desk : Ask → Grant) → StandsFor desk result }
        ensures fixed { (result.parts.who ≡ who) × (result.parts.longest ≡ limits.max_message) }
        ensures empty { (result.parts.x ≡ []) × (result.parts.later ≡ []) × (result.parts.calls ≡ []) × (result.parts.sent ≡ []) × (result.parts.out.left ≡ []) }
        ensures stage { (result.parts.stage ≡ Reading) × (result.parts.kept ≡ None) }
        ensures lives { result.ended ≡ None }
        ensures at { (result.seat.spot ≡ None) × (result.seat.visits ≡ []) }
    {
        HttpPlayer {
            body: Body {
                core: new_core(alloc, who, limits.max_message),
                seat: Seat::new(),
            },
            ended: None,
        }
    }

    /// Takes one turn. Each desk that is handed in is to be the same.
    pub fn turn<D: Desk, L: Link>(
        &mut self,
        alloc: Global,
        port: &mut P,
        link: &mut L,
        desk: &D,
    ) -> HttpTurn
        requires at { IsAt (P.fits port.old) (places (P.rules port.old)) self.old.parts self.old.seat }
        requires offered { IsOffered (D.grants desk.now) (places (P.rules port.old)) }
        ensures at { IsAt (P.fits port.new) (places (P.rules port.new)) self.new.parts self.new.seat }
        ensures turn { EndedBy (AskedAlone P.fits P.rules P.root P.seen P.count P.wants P.busies P.adds P.kin P.branches) (D.grants desk.now)
            L.hears L.says self.old.ended (life_at self.old port.old) link.old result (life_at self.new port.new) link.new }
        ensures ended { self.new.ended ≡ ended_by result }
        ensures lasts { lasting_of self.new.parts ≡ lasting_of self.old.parts }
        ensures goes_on { GoesOn P.fits P.rules P.root P.seen P.busies port.old self.old.seat port.new self.new.seat }
        ensures did { Did result (life_at self.old port.old) (life_at self.new port.new) }
        ensures may_be { MayBe result (P.busies port.old) (P.busies port.new) (L.counts link.old) (L.counts link.new) }
        ensures stands { StandsFor (D.grants desk.now) self.old → StandsFor (D.grants desk.now) self.new }
    {
        match self.ended {
            Some(end) => HttpTurn::Ended(end),
            None => {
                let answer = kept_on(&mut self.body, port, link, desk, alloc);
                self.ended = end_in(answer);
                answer
            }
        }
    }

    /// Makes the Join that waits, if there is one, and the Leave of the play granted, and leaves its stream.
    /// It has then ended, with `Closed` if it lived.
    ///
    /// If the port was busy or had no memory it is still there, and is to be closed again; the Join that
    /// waits is kept unless it was made. All else that it keeps stays.
    pub fn close(&mut self, port: &mut P) -> Leaving
        requires { HasFit (P.fits port.old) self.old.seat.spot }
        ensures fit { HasFit (P.fits port.new) self.new.seat.spot }
        ensures spot { place_of self.new.seat.spot ≡ left_at result (place_of self.old.seat.spot) }
        ensures leaves { LeavesFrom (place_of self.old.seat.spot) self.old.parts.who self.old.parts.fed self.old.parts.kept
            self.old.seat.active self.old.seat.visits result self.new.parts.kept self.new.seat.active self.new.seat.visits }
        ensures fails { LeaveFails (P.fits port.new) P.count P.wants (place_of self.old.seat.spot) self.old.parts.who self.old.parts.fed
            self.old.parts.kept (P.busies port.old) (P.busies port.new) result }
        ensures tries { LeaveTries (P.busies port.old) (P.busies port.new) result }
        ensures stands { StandsAt P.rules P.root P.seen port.old self.old.seat → StandsAt P.rules P.root P.seen port.new self.new.seat }
        ensures roots { GoOn (P.root port.old) (P.root port.new) }
        ensures fixed { P.rules port.new ≡ P.rules port.old }
        ensures busies { P.busies port.old ≤ P.busies port.new }
        ensures others { (q : ℕ) → IsElsewhere self.old.seat.spot q → P.root port.new q ≡ P.root port.old q }
        ensures passes { (q : ℕ) (p : P.Pass) → P.fits port.old q p → P.fits port.new q p }
        ensures adds { GrowsFrom P.adds (P.rules port.old).limits (P.root port.old) (known P.root P.seen port.old self.old.seat) (place_of self.old.seat.spot)
            self.old.seat.visits self.new.seat.visits (P.root port.new) (known P.root P.seen port.new self.new.seat) }
        ensures splits { LeavesSplit (place_of self.old.seat.spot) P.branches (P.kin port.old) self.old.seat.spot self.old.seat.visits
            self.new.seat.visits (P.kin port.new) self.new.seat.spot }
        ensures ended { self.new.ended ≡ Some (end_or_closed self.old.ended) }
        ensures parts { self.new.parts ≡ record self.old.parts { kept = self.new.parts.kept } }
    {
        let who = self.body.core.who;
        let fed = self.body.core.fed;
        self.ended = Some(end_or_closed(self.ended));
        self.body
            .seat
            .leave(port, who, fed, &mut self.body.core.kept)
    }

    /// Returns its stage.
    pub fn stage(&self) -> Stage
        ensures { result ≡ self.now.parts.stage }
    {
        self.body.core.stage
    }

    /// Returns the answers that its calls have had, in numbers.
    pub fn met(&self) -> Met {
        self.body.seat.met()
    }

    /// Returns the number of bytes that it holds: of a head that isn't whole, and of the text or the item
    /// that is being sent, which counts whole.
    pub fn held(&self) -> u64
        ensures holds { result ≡ held_of self.now.parts }
        ensures most { result ≤ most_held self.now.parts.longest }
    {
        let head = self.body.core.head.len() as u64;
        let out = self.body.core.out.size() as u64;
        head + out
    }

    /// Shows that the bytes sent, followed by the pending bytes, are those that it is owed, before each desk
    /// for which it stands. If it has ended, the bytes sent begin those that it is owed.
    pub fn owed_law(&self)
        ensures { (desk : Ask → Grant) → StandsFor desk self.now → OwesBy self.now.ended desk self.now.parts }
    {
        let _ = &self.ended;
    }

    /// Shows that a player belongs to its port as before, after others have made calls at the same port.
    pub fn others_law()
        ensures { (x y : P) (s : PlayerState P.Pass) → P.rules y ≡ P.rules x → ((q : ℕ) (p : P.Pass) → P.fits x q p → P.fits y q p)
            → IsAt (P.fits x) (places (P.rules x)) s.parts s.seat → IsAt (P.fits y) (places (P.rules y)) s.parts s.seat }
    {}
}
