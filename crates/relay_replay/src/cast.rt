ghost use Rattle.std.specs.Prelude.{◌≡◌, ◌<◌, ◌≤◌, [], length, IfOk, OnOk};
ghost use Rattle.config_desk.specs.Grants.{granted_from};
ghost use Rattle.relay_replay.specs.Cast.{AnsweredTurn, Each, Round, RecTurnOf, SettledBy, Times, TurnOf, is_moved};
ghost use Rattle.relay_replay.specs.Plays.{Opens, OpensEdge, OpensHttp, PutFails, Told};
ghost use Rattle.relay_replay.specs.Scenes.{AreShort, Sits};

use crate::connection::Connection;
use crate::guest::{Answered, Guest};
use crate::playing::Playing;
use crate::pulling::Pulling;
use crate::recording::Recording;
use av_unit::{Bytes, OutOfMemory};
use config_desk::PlaceDesk;
use relay_base::Limits;
use relay_script::ReplayLine;
use std::alloc::Global;
use std::marker::Model;
use stream_registry::Sole;

// Whether a turn moved something.
fn is_moved(answer: Answered) -> bool
    ensures { result ≡ is_moved answer }
{
    match answer {
        Answered::Nothing => false,
        Answered::Moved => true,
        Answered::Idle => false,
        Answered::Ended => false,
    }
}

/// All that runs in a replay.
#[derive(Drop)]
pub(crate) struct Cast {
    alloc: Global,
    port: Sole,
    sessions: Vec<Guest>,
    recorders: Vec<Recording>,
}

impl Model for Cast {
    ghost use Rattle.relay_replay.specs.Cast.{CastState};

    ghost Value = { CastState };

    ghost view = { λ c. record { port = c.port; sessions = c.sessions.items; recorders = c.recorders.items } };
}

impl Cast {
    // These streams and recorders, and no session.
    pub(crate) fn new(alloc: Global, port: Sole, recorders: Vec<Recording>) -> Cast
        ensures { result ≡ record { port = port; sessions = []; recorders = recorders.items } }
    {
        Cast {
            alloc,
            port,
            sessions: Vec::new(alloc),
            recorders,
        }
    }

    // Nothing of it runs any longer.
    pub(crate) fn end(self) {}

    pub(crate) fn sessions(&self) -> &[Guest]
        ensures { result.now ≡ self.now.sessions }
    {
        &self.sessions
    }

    pub(crate) fn recorders(&self) -> &[Recording]
        ensures { result.now ≡ self.now.recorders }
    {
        &self.recorders
    }

    pub(crate) fn port(&self) -> &Sole
        ensures { result.now ≡ self.now.port }
    {
        &self.port
    }

    // Opens a session, named by its number.
    pub(crate) fn open(&mut self, limits: Limits) -> Result<(), OutOfMemory>
        requires { limits.max_message ≤ 4194304 }
        ensures { OnOk result (Opens limits self.old self.new) }
    {
        let who = self.sessions.len() as u64;
        let new = Connection::new(self.alloc, who, limits);
        self.sessions.push(Guest::Session(new))?;
        Ok(())
    }

    // Opens a player over HTTP, named by its number.
    pub(crate) fn open_http(&mut self, limits: Limits) -> Result<(), OutOfMemory>
        requires { limits.max_message ≤ 4194304 }
        ensures { OnOk result (OpensHttp limits self.old self.new) }
    {
        let who = self.sessions.len() as u64;
        let new = Playing::new(self.alloc, who, limits);
        self.sessions.push(Guest::Player(new))?;
        Ok(())
    }

    // Opens an edge at a stream, named by its number.
    pub(crate) fn open_edge(
        &mut self,
        limits: Limits,
        stream: u32,
        app: Bytes,
        name: Bytes,
    ) -> Result<(), OutOfMemory>
        requires message { limits.max_message ≤ 4194304 }
        requires short { AreShort app name }
        ensures { OnOk result (OpensEdge limits stream app name self.old self.new) }
    {
        let who = self.sessions.len() as u64;
        let new = Pulling::new(self.alloc, who, stream, app, name, limits)?;
        self.sessions.push(Guest::Edge(new))?;
        Ok(())
    }

    // Does the action of a line at a session.
    pub(crate) fn tell(&mut self, n: u32, line: ReplayLine) -> Result<(), OutOfMemory>
        requires { n < length self.old.sessions }
        ensures { OnOk result (Told line n self.old self.new) }
    {
        self.sessions[n as usize].take(line)
    }

    // Lets the next put of a recorder fail.
    pub(crate) fn fail_put(&mut self, n: u32)
        requires { n < length self.old.recorders }
        ensures { PutFails n self.old self.new }
    {
        self.recorders[n as usize].fail_put();
    }

    // Takes one turn of a session, and returns the turn's answer. A session that has ended takes none.
    fn turn(&mut self, n: usize, desk: &PlaceDesk<'_>) -> Result<Answered, OutOfMemory>
        requires there { n < length self.old.sessions }
        requires sits { Sits desk.now.list.now desk.now.opens.now (length self.old.recorders) self.old }
        ensures turn { IfOk result (λ a. AnsweredTurn (granted_from 0 desk.now.list.now desk.now.opens.now) n a self.old self.new) }
        ensures sits { OnOk result (Sits desk.now.list.now desk.now.opens.now (length self.old.recorders) self.new) }
        ensures count { OnOk result (length self.new.sessions ≡ length self.old.sessions) }
    {
        self.sessions[n].turn(self.alloc, &mut self.port, desk)
    }

    // Takes turns of a session until it is idle or has ended. False if `most` turns all moved something.
    pub(crate) fn settle(
        &mut self,
        n: u32,
        most: u32,
        desk: &PlaceDesk<'_>,
    ) -> Result<bool, OutOfMemory>
        requires there { n < length self.old.sessions }
        requires sits { Sits desk.now.list.now desk.now.opens.now (length self.old.recorders) self.old }
        ensures settled { IfOk result (λ done. SettledBy done most (granted_from 0 desk.now.list.now desk.now.opens.now) n self.old self.new) }
        ensures sits { OnOk result (Sits desk.now.list.now desk.now.opens.now (length self.old.recorders) self.new) }
        ensures count { OnOk result (length self.new.sessions ≡ length self.old.sessions) }
    {
        for _ in 0..most {
            let answer = self.turn(n as usize, desk)?;
            if !is_moved(answer) {
                return Ok(true);
            }
        }
        Ok(false)
    }

    // One turn of a recorder.
    fn rec(&mut self, n: usize, desk: &PlaceDesk<'_>) -> Result<(), OutOfMemory>
        requires there { n < length self.old.recorders }
        requires sits { Sits desk.now.list.now desk.now.opens.now (length self.old.recorders) self.old }
        ensures turn { OnOk result (RecTurnOf n self.old self.new) }
        ensures sits { OnOk result (Sits desk.now.list.now desk.now.opens.now (length self.old.recorders) self.new) }
        ensures count { OnOk result (length self.new.sessions ≡ length self.old.sessions) }
    {
        let _ = desk;
        self.recorders[n].turn(&mut self.port)
    }

    // Takes the given number of turns of a session.
    pub(crate) fn turns(
        &mut self,
        n: u32,
        count: u32,
        desk: &PlaceDesk<'_>,
    ) -> Result<(), OutOfMemory>
        requires there { n < length self.old.sessions }
        requires sits { Sits desk.now.list.now desk.now.opens.now (length self.old.recorders) self.old }
        ensures turns { OnOk result (Times count (TurnOf (granted_from 0 desk.now.list.now desk.now.opens.now) n) self.old self.new) }
        ensures sits { OnOk result (Sits desk.now.list.now desk.now.opens.now (length self.old.recorders) self.new) }
        ensures count { OnOk result (length self.new.sessions ≡ length self.old.sessions) }
    {
        for _ in 0..count {
            self.turn(n as usize, desk)?;
        }
        Ok(())
    }

    // Takes the given number of turns of a recorder at the desk's streams.
    pub(crate) fn recs(
        &mut self,
        n: u32,
        count: u32,
        desk: &PlaceDesk<'_>,
    ) -> Result<(), OutOfMemory>
        requires there { n < length self.old.recorders }
        requires sits { Sits desk.now.list.now desk.now.opens.now (length self.old.recorders) self.old }
        ensures turns { OnOk result (Times count (RecTurnOf n) self.old self.new) }
        ensures sits { OnOk result (Sits desk.now.list.now desk.now.opens.now (length self.old.recorders) self.new) }
        ensures count { OnOk result (length self.new.sessions ≡ length self.old.sessions) }
    {
        for _ in 0..count {
            self.rec(n as usize, desk)?;
        }
        Ok(())
    }

    // A turn of each session.
    fn each_session(&mut self, desk: &PlaceDesk<'_>) -> Result<(), OutOfMemory>
        requires sits { Sits desk.now.list.now desk.now.opens.now (length self.old.recorders) self.old }
        ensures turns { OnOk result (Each (length self.old.sessions) (TurnOf (granted_from 0 desk.now.list.now desk.now.opens.now)) self.old self.new) }
        ensures sits { OnOk result (Sits desk.now.list.now desk.now.opens.now (length self.old.recorders) self.new) }
        ensures count { OnOk result (length self.new.sessions ≡ length self.old.sessions) }
    {
        for n in 0..self.sessions.len() {
            self.turn(n, desk)?;
        }
        Ok(())
    }

    // A turn of each recorder.
    fn each_recorder(&mut self, desk: &PlaceDesk<'_>) -> Result<(), OutOfMemory>
        requires sits { Sits desk.now.list.now desk.now.opens.now (length self.old.recorders) self.old }
        ensures turns { OnOk result (Each (length self.old.recorders) RecTurnOf self.old self.new) }
        ensures sits { OnOk result (Sits desk.now.list.now desk.now.opens.now (length self.old.recorders) self.new) }
        ensures count { OnOk result (length self.new.sessions ≡ length self.old.sessions) }
    {
        for n in 0..self.recorders.len() {
            self.rec(n, desk)?;
        }
        Ok(())
    }

    // A round: a turn of each session, then one of each recorder.
    fn round(&mut self, desk: &PlaceDesk<'_>) -> Result<(), OutOfMemory>
        requires sits { Sits desk.now.list.now desk.now.opens.now (length self.old.recorders) self.old }
        ensures round { OnOk result (Round (granted_from 0 desk.now.list.now desk.now.opens.now) self.old self.new) }
        ensures sits { OnOk result (Sits desk.now.list.now desk.now.opens.now (length self.old.recorders) self.new) }
        ensures count { OnOk result (length self.new.sessions ≡ length self.old.sessions) }
    {
        self.each_session(desk)?;
        self.each_recorder(desk)
    }

    // Makes the given number of rounds.
    pub(crate) fn rounds(&mut self, count: u32, desk: &PlaceDesk<'_>) -> Result<(), OutOfMemory>
        requires sits { Sits desk.now.list.now desk.now.opens.now (length self.old.recorders) self.old }
        ensures rounds { OnOk result (Times count (Round (granted_from 0 desk.now.list.now desk.now.opens.now)) self.old self.new) }
        ensures sits { OnOk result (Sits desk.now.list.now desk.now.opens.now (length self.old.recorders) self.new) }
        ensures count { OnOk result (length self.new.sessions ≡ length self.old.sessions) }
    {
        for _ in 0..count {
            self.round(desk)?;
        }
        Ok(())
    }
}
