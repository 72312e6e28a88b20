ghost use Rattle.std.specs.Prelude.{◌≡◌, ◌≤◌, ℕ, IfOk, OnOk, Some, None};
ghost use Rattle.config_desk.specs.Grants.{granted_from};
ghost use Rattle.relay_session.specs.Places.{IsAt, IsOffered};
ghost use Rattle.relay_session.specs.SeatState.{HasFit};
ghost use Rattle.stream_registry.specs.Books.{FitsSole, SeenState, sole_rules};
ghost use Rattle.stream_registry.specs.Names.{places};
ghost use Rattle.relay_replay.specs.Cast.{AfterTurn, AnsweredBy, IsClosed, told_turn};
ghost use Rattle.relay_replay.specs.Prints.{Holds};
ghost use Rattle.relay_replay.specs.Plays.{IsNewSession, quits, told_link, told_of};
ghost use Rattle.relay_replay.specs.Scenes.{Ready, ReadyBy};

use crate::guest::Answered;
use av_unit::OutOfMemory;
use config_desk::PlaceDesk;
use relay_base::Limits;
use relay_outside::MemLink;
use relay_script::ReplayLine;
use relay_session::{End, Leaving, Session, Turn};
use std::alloc::Global;
use std::marker::Model;
use stream_registry::Sole;

/// A session with its link.
#[derive(Drop)]
pub struct Connection {
    session: Session<Sole>,
    link: MemLink,
    ended: Option<End>,
}

impl Model for Connection {
    ghost use Rattle.relay_replay.specs.Guests.{ConnState};

    ghost Value = { ConnState };

    ghost view = { λ c. record { session = c.session; link = c.link; ended = c.ended } };
}

// Whether a line tells a session to quit.
fn quits(line: &ReplayLine) -> bool
    ensures { result ≡ quits line.now }
{
    match line {
        ReplayLine::Quit(_) => true,
        _ => false,
    }
}

// Does the action of a line at a link.
pub(crate) fn tell(link: &mut MemLink, line: ReplayLine) -> Result<(), OutOfMemory>
    ensures { OnOk result (link.new ≡ told_link line link.old) }
{
    match line {
        ReplayLine::Piece { session: _, bytes } => {
            let Ok(()) = link.give(bytes.into_vec()) else {
                return Err(OutOfMemory);
            };
        }
        ReplayLine::Eof(_) => link.end(),
        ReplayLine::Room { session: _, left } => link.room(left),
        ReplayLine::FailRecv(_) => link.fail_recv(),
        ReplayLine::FailSend(_) => link.fail_send(),
        _ => {}
    }
    Ok(())
}

fn told_turn(answer: Turn) -> Answered
    ensures { result ≡ told_turn answer }
{
    match answer {
        Turn::Moved => Answered::Moved,
        Turn::Idle => Answered::Idle,
        Turn::Ended(_) => Answered::Ended,
    }
}

impl Connection {
    // A session of that name, with room for all.
    pub(crate) fn new(alloc: Global, who: u64, limits: Limits) -> Connection
        requires { limits.max_message ≤ 4194304 }
        ensures { IsNewSession limits who result }
    {
        let session = Session::new(alloc, who, limits);
        session.owed_law();
        Connection {
            session,
            link: MemLink::new(alloc),
            ended: None,
        }
    }

    pub(crate) fn sent(&self) -> &[u8]
        ensures { result.now ≡ self.now.link.sent }
    {
        self.link.sent()
    }

    pub(crate) fn ended(&self) -> Option<End>
        ensures { result ≡ self.now.ended }
    {
        self.ended
    }

    // The number of bytes that it holds: 0 if it has ended.
    pub(crate) fn held(&self) -> u64
        ensures { Holds self.now result }
    {
        match self.ended {
            None => self.session.held(),
            Some(_) => 0,
        }
    }

    // Does the action of a line at the session.
    pub(crate) fn take(&mut self, line: ReplayLine) -> Result<(), OutOfMemory>
        ensures { OnOk result (self.new ≡ told_of line self.old) }
    {
        let quitting = quits(&line);
        tell(&mut self.link, line)?;
        if quitting {
            self.session.quit();
        }
        Ok(())
    }

    // Takes one turn, and returns the turn's answer. A session that has ended takes none. A session that
    // ends is closed at once.
    pub(crate) fn turn(
        &mut self,
        alloc: Global,
        port: &mut Sole,
        desk: &PlaceDesk<'_>,
    ) -> Result<Answered, OutOfMemory>
        requires ready { Ready port.old self.old }
        requires offered { IsOffered (granted_from 0 desk.now.list.now desk.now.opens.now) (places (sole_rules port.old.rules)) }
        ensures turn { IfOk result (λ a. AnsweredBy a self.old.ended (granted_from 0 desk.now.list.now desk.now.opens.now)
            port.old self.old port.new self.new) }
        ensures ready { OnOk result (Ready port.new self.new) }
        ensures fixed { sole_rules port.new.rules ≡ sole_rules port.old.rules }
        ensures fits { (q : ℕ) (p : SeenState) → FitsSole port.old q p → FitsSole port.new q p }
    {
        if self.ended.is_some() {
            return Ok(Answered::Nothing);
        }
        let answer = self.session.turn(alloc, port, &mut self.link, desk);
        self.session.owed_law();
        after(&mut self.session, &mut self.ended, port, answer)?;
        Ok(told_turn(answer))
    }
}

// Takes the step that follows a turn's answer.
fn after(
    session: &mut Session<Sole>,
    ended: &mut Option<End>,
    port: &mut Sole,
    answer: Turn,
) -> Result<(), OutOfMemory>
    requires at { IsAt (FitsSole port.old) (places (sole_rules port.old.rules)) session.old.parts session.old.seat }
    requires live { ended.old ≡ None }
    ensures leads { OnOk result (AfterTurn answer session.old port.old session.new ended.new port.new) }
    ensures ready { OnOk result (ReadyBy ended.new port.new session.new) }
    ensures fixed { sole_rules port.new.rules ≡ sole_rules port.old.rules }
    ensures fits { (q : ℕ) (p : SeenState) → FitsSole port.old q p → FitsSole port.new q p }
{
    match answer {
        Turn::Moved => Ok(()),
        Turn::Idle => Ok(()),
        Turn::Ended(End::OutOfMemory) => Err(OutOfMemory),
        Turn::Ended(end) => close(session, ended, port, end),
    }
}

// Closes a session that has ended with this ending. If the streams don't let it leave there was no memory
// for its calls.
fn close(
    session: &mut Session<Sole>,
    ended: &mut Option<End>,
    port: &mut Sole,
    end: End,
) -> Result<(), OutOfMemory>
    requires { HasFit (FitsSole port.old) session.old.seat.spot }
    ensures closed { OnOk result (IsClosed port.old session.old port.new session.new) }
    ensures ended { ended.new ≡ Some end }
    ensures fixed { sole_rules port.new.rules ≡ sole_rules port.old.rules }
    ensures fits { (q : ℕ) (p : SeenState) → FitsSole port.old q p → FitsSole port.new q p }
{
    *ended = Some(end);
    match session.close(port) {
        Leaving::Done => Ok(()),
        Leaving::Worn => Ok(()),
        Leaving::Busy => Err(OutOfMemory),
        Leaving::OutOfMemory => Err(OutOfMemory),
    }
}
