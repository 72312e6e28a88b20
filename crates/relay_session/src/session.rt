ghost use Rattle.stream_registry.specs.Names.{places};
ghost use Rattle.std.specs.Prelude.{◌≡◌, ◌≢◌, ◌≤◌, ℕ, [], length, true, false, Some, None, is_some};
ghost use Rattle.std.specs.Option.{option_copied};
ghost use Rattle.ack_window.specs.Outbound.{new_out};
ghost use Rattle.command_dialog.specs.declared.types.Ask.{Ask};
ghost use Rattle.command_dialog.specs.declared.types.Grant.{Grant};
ghost use Rattle.session_owed.specs.Standing.{new_past};
ghost use Rattle.relay_session.specs.Acting.{Acting, ActsBy};
ghost use Rattle.relay_session.specs.Alone.{GrowsFrom, LeavesSplit};
ghost use Rattle.relay_session.specs.Causes.{Did, MayBe};
ghost use Rattle.relay_session.specs.Coming.{HasCome};
ghost use Rattle.relay_session.specs.Holding.{IsHolding, most_held};
ghost use Rattle.relay_session.specs.Keeping.{past_of};
ghost use Rattle.relay_session.specs.Owing.{nothing};
ghost use Rattle.relay_session.specs.Onward.{GoesOn};
ghost use Rattle.relay_session.specs.Places.{AskedAlone, IsAt, IsOffered};
ghost use Rattle.relay_session.specs.SeatState.{GoOn, HasFit, IsElsewhere, LeaveFails, LeaveTries, LeavesFrom, StandsAt, known, left_at, place_of};
ghost use Rattle.relay_session.specs.SessionState.{BeginsOwed, IsUnsent, IsWhole, Publishes, Rises, StandsFor};
ghost use Rattle.relay_session.specs.SessionState.{end_or_quit, ended_by, lasting_of, life_at, pending_by};
ghost use Rattle.relay_session.specs.Turns.{EndedBy, is_held_back};
ghost use Rattle.relay_session.specs.declared.seat_answers.Leaving.TheVariants as left;

use crate::body::Body;
use crate::held::{held_in, pending_in};
use crate::input::Input;
use crate::six_steps::{held_back, kept_on};
use crate::steps::new_core;
use crate::{Active, Desk, End, Leaving, Met, Seat, Turn};
use command_dialog::App;
use relay_base::Limits;
use relay_outside::Link;
use std::alloc::Global;
use std::marker::Model;
use stream_registry::StreamPort;

/// One connection of the relay.
#[derive(Drop)]
pub struct Session<P: StreamPort> {
    body: Body<P>,
    quit: bool,
    ended: Option<End>,
}

impl<P: StreamPort> Model for Session<P> {
    ghost use Rattle.relay_session.specs.SessionState.{IsLiving, SessionState};

    ghost Value = { SessionState P.Pass };

    ghost view = { λ s. record { parts = s.body.core; input = s.body.input; seat = s.body.seat; quit = s.quit; ended = s.ended } };

    ghost invariant = { λ s. IsLiving s.ended s.body.core };
}

// Returns why a turn ended the session, if it did.
fn end_in(answer: Turn) -> Option<End>
    ensures { result ≡ ended_by answer }
{
    match answer {
        Turn::Moved => None,
        Turn::Idle => None,
        Turn::Ended(end) => Some(end),
    }
}

// Returns why a session that is closed has ended.
fn end_or_quit(ended: Option<End>) -> End
    ensures { result ≡ end_or_quit ended }
{
    match ended {
        None => End::Quit,
        Some(end) => end,
    }
}

impl<P: StreamPort> Session<P> {
    /// Makes a session of this name that was fed nothing and is at no stream. It tells its peer the window of
    /// the limits, in bytes, and takes messages of at most `max_message` bytes. It takes no memory.
    pub fn new(alloc: Global, who: u64, limits: Limits) -> Session<P>
        requires { limits.max_message ≤ 4194304 }
        ensures stands { (desk : Ask → Grant) → StandsFor desk result }
        ensures past { past_of result.parts ≡ new_past }
        ensures fed { result.parts.fed ≡ 0 }
        ensures fixed { (result.parts.who ≡ who) × (result.parts.window ≡ limits.window) × (result.parts.reader.max ≡ limits.max_message) }
        ensures outbound { result.parts.outbound ≡ new_out limits.window }
        ensures outgoing { result.parts.outgoing ≡ nothing }
        ensures input { result.input ≡ [] }
        ensures lives { (result.quit ≡ false) × (result.ended ≡ None) }
        ensures waits { HasCome result.parts result.seat }
        ensures acts { ActsBy result.ended result.parts result.seat }
        ensures at { (result.parts.place ≡ None) × (result.seat.spot ≡ None) × (result.seat.visits ≡ []) }
    {
        Session {
            body: Body {
                core: new_core(alloc, who, limits.window, limits.max_message),
                input: Input::new(alloc),
                seat: Seat::new(),
            },
            quit: false,
            ended: None,
        }
    }

    /// Takes one turn, by its six steps. Each desk that is handed in is to be the same.
    pub fn turn<D: Desk, L: Link>(
        &mut self,
        alloc: Global,
        port: &mut P,
        link: &mut L,
        desk: &D,
    ) -> Turn
        requires at { IsAt (P.fits port.old) (places (P.rules port.old)) self.old.parts self.old.seat }
        requires offered { IsOffered (D.grants desk.now) (places (P.rules port.old)) }
        ensures at { IsAt (P.fits port.new) (places (P.rules port.new)) self.new.parts self.new.seat }
        ensures turn { EndedBy (AskedAlone P.fits P.rules P.root P.seen P.count P.wants P.busies P.adds P.kin P.branches) (D.grants desk.now)
            L.hears L.says self.old.ended self.old.quit (life_at self.old port.old) link.old result (life_at self.new port.new) link.new }
        ensures goes_on { GoesOn P.fits P.rules P.root P.seen P.busies port.old self.old.seat port.new self.new.seat }
        ensures ended { self.new.ended ≡ ended_by result }
        ensures quit { self.new.quit ≡ self.old.quit }
        ensures lasts { lasting_of self.new.parts ≡ lasting_of self.old.parts }
        ensures stands { StandsFor (D.grants desk.now) self.old → StandsFor (D.grants desk.now) self.new }
        ensures did { Did result (life_at self.old port.old) (life_at self.new port.new) }
        ensures may_be { MayBe result (P.busies port.old) (P.busies port.new) (L.counts link.old) (L.counts link.new) }
        ensures units { StandsFor (D.grants desk.now) self.old → Publishes (D.grants desk.now) self.new.parts }
        ensures rises { StandsFor (D.grants desk.now) self.old → Rises (D.grants desk.now) self.new.parts }
        ensures waits { HasCome self.old.parts self.old.seat → HasCome self.new.parts self.new.seat }
        ensures acts { StandsFor (D.grants desk.now) self.old → ActsBy self.old.ended self.old.parts self.old.seat
            → ActsBy self.new.ended self.new.parts self.new.seat }
    {
        match self.ended {
            Some(end) => Turn::Ended(end),
            None => {
                let answer = kept_on(&mut self.body, port, link, desk, alloc, self.quit);
                self.ended = end_in(answer);
                answer
            }
        }
    }

    /// Tells the session to end.
    pub fn quit(&mut self)
        ensures { self.new ≡ record self.old { quit = true } }
    {
        self.quit = true;
    }

    /// Makes the call that waits, if there is one, and the End or Leave of the role granted, and leaves its
    /// stream. It has then ended, with `Quit` if it lived.
    ///
    /// If the port was busy or had no memory it is still there, and is to be closed again; the call that
    /// waits is kept unless it was made. All else that it keeps stays.
    pub fn close(&mut self, port: &mut P) -> Leaving
        requires { HasFit (P.fits port.old) self.old.seat.spot }
        ensures fit { HasFit (P.fits port.new) self.new.seat.spot }
        ensures spot { place_of self.new.seat.spot ≡ left_at result (place_of self.old.seat.spot) }
        ensures leaves { LeavesFrom (place_of self.old.seat.spot) self.old.parts.who self.old.parts.fed self.old.parts.kept
            self.old.seat.active self.old.seat.visits result self.new.parts.kept self.new.seat.active self.new.seat.visits }
        ensures fails { LeaveFails (P.fits port.new) P.count P.wants (place_of self.old.seat.spot) self.old.parts.who self.old.parts.fed
            self.old.parts.kept (P.busies port.old) (P.busies port.new) result }
        ensures tries { LeaveTries (P.busies port.old) (P.busies port.new) result }
        ensures made { HasCome self.old.parts self.old.seat → result ≡ left.Done → self.new.parts.kept ≡ None }
        ensures waits { HasCome self.old.parts self.old.seat → result ≢ left.Worn → HasCome self.new.parts self.new.seat }
        ensures acts { Acting self.old.parts self.old.seat → Acting self.new.parts self.new.seat }
        ensures stands { StandsAt P.rules P.root P.seen port.old self.old.seat → StandsAt P.rules P.root P.seen port.new self.new.seat }
        ensures roots { GoOn (P.root port.old) (P.root port.new) }
        ensures fixed { P.rules port.new ≡ P.rules port.old }
        ensures busies { P.busies port.old ≤ P.busies port.new }
        ensures others { (q : ℕ) → IsElsewhere self.old.seat.spot q → P.root port.new q ≡ P.root port.old q }
        ensures passes { (q : ℕ) (p : P.Pass) → P.fits port.old q p → P.fits port.new q p }
        ensures adds { GrowsFrom P.adds (P.rules port.old).limits (P.root port.old) (known P.root P.seen port.old self.old.seat) (place_of self.old.seat.spot)
            self.old.seat.visits self.new.seat.visits (P.root port.new) (known P.root P.seen port.new self.new.seat) }
        ensures splits { LeavesSplit (place_of self.old.seat.spot) P.branches (P.kin port.old) self.old.seat.spot self.old.seat.visits
            self.new.seat.visits (P.kin port.new) self.new.seat.spot }
        ensures ended { self.new.ended ≡ Some (end_or_quit self.old.ended) }
        ensures parts { self.new.parts ≡ record self.old.parts { kept = self.new.parts.kept } }
        ensures untouched { (self.new.quit ≡ self.old.quit) × (self.new.input ≡ self.old.input) }
    {
        let who = self.body.core.who;
        let fed = self.body.core.fed;
        self.ended = Some(end_or_quit(self.ended));
        self.body
            .seat
            .leave(port, who, fed, &mut self.body.core.kept)
    }

    /// Returns the number of bytes that it holds. These are the bytes of the input that it wasn't fed, of
    /// messages in progress, and of messages encoded and not sent. They also are those of the unit that is
    /// being sent, which counts whole, and of the call that waits: its unit and the name that it asks for.
    /// Its dialogue's app and the handshake in progress count too.
    pub fn held(&self) -> u64
        ensures holds { IsHolding self.now.parts self.now.input result }
        ensures most { result ≤ most_held self.now.parts.reader.max self.now.parts.reader.max }
    {
        held_in(&self.body.core, &self.body.input)
    }

    /// Returns the number of bytes that it owes and hasn't sent. A session that has ended owes nothing more.
    pub fn pending(&self) -> u64
        ensures value { result ≡ pending_by self.now.ended self.now.parts }
        ensures owed { (desk : Ask → Grant) → StandsFor desk self.now → IsUnsent self.now.ended desk self.now.parts result }
    {
        match self.ended {
            None => pending_in(&self.body.core),
            Some(_) => 0,
        }
    }

    /// Shows that the bytes that it sent begin those that it owes, before each desk for which it stands. Its
    /// pushes are the units that its messages publish.
    pub fn owed_law(&self)
        ensures owed { (desk : Ask → Grant) → StandsFor desk self.now → BeginsOwed desk self.now.parts }
        ensures whole { (desk : Ask → Grant) → StandsFor desk self.now → IsWhole desk self.now.parts }
    {
        let _ = &self.ended;
    }

    /// Returns the role that it was granted at its stream.
    pub fn active(&self) -> Active
        ensures { result ≡ self.now.seat.active }
    {
        self.body.seat.active()
    }

    /// Returns the answers that its calls have had, in numbers.
    pub fn met(&self) -> Met {
        self.body.seat.met()
    }

    /// Returns whether a call of its own waits for the stream to be free.
    pub fn waits(&self) -> bool
        ensures { result ≡ is_some self.now.parts.kept }
    {
        self.body.core.kept.is_some()
    }

    /// Returns whether the bytes that it owes wait for an acknowledgement: its peer ever sent one, and at
    /// least a window of bytes isn't acknowledged.
    pub fn is_held_back(&self) -> bool
        ensures { result ≡ is_held_back self.now.parts.outbound }
    {
        held_back(&self.body.core.outbound)
    }

    /// Returns the application to which its peer has connected, if it has and if that is kept.
    pub fn app(&self) -> Option<&App>
        ensures { option_copied result ≡ self.now.parts.dialog.app }
    {
        self.body.core.dialog.app()
    }

    /// Returns the number of its peer's bytes that it was fed. If a byte ended the session, it is the number
    /// of those before it.
    pub fn fed(&self) -> u64
        ensures { result ≡ length self.now.parts.x }
    {
        self.body.core.fed
    }
}
