ghost use Rattle.std.specs.Prelude.{◌≡◌, ◌≤◌, ℕ, IfOk, OnOk, Some, None};
ghost use Rattle.config_desk.specs.Grants.{granted_from};
ghost use Rattle.relay_session.specs.Places.{IsOffered};
ghost use Rattle.relay_session.specs.SeatState.{HasFit};
ghost use Rattle.http_flv.specs.Keeping.{IsAt};
ghost use Rattle.stream_registry.specs.Books.{FitsSole, SeenState, sole_rules};
ghost use Rattle.stream_registry.specs.Names.{places};
ghost use Rattle.relay_replay.specs.Cast.{PlayerAnsweredBy, told_http};
ghost use Rattle.relay_replay.specs.Plays.{IsNewPlayer, told_link};
ghost use Rattle.relay_replay.specs.Prints.{PlayerHolds};
ghost use Rattle.relay_replay.specs.Scenes.{PlayerReady};
ghost use Rattle.relay_replay.specs.Turning.{AfterHttpTurn, PlayerClosed};

use crate::connection::tell;
use crate::guest::Answered;
use av_unit::OutOfMemory;
use config_desk::PlaceDesk;
use http_flv::{HttpEnd, HttpPlayer, HttpTurn};
use relay_base::Limits;
use relay_outside::MemLink;
use relay_script::ReplayLine;
use relay_session::Leaving;
use std::alloc::Global;
use std::marker::Model;
use stream_registry::Sole;

/// A player over HTTP with its link.
#[derive(Drop)]
pub struct Playing {
    player: HttpPlayer<Sole>,
    link: MemLink,
    ended: Option<HttpEnd>,
}

impl Model for Playing {
    ghost use Rattle.relay_replay.specs.Guests.{PlayState};

    ghost Value = { PlayState };

    ghost view = { λ p. record { player = p.player; link = p.link; ended = p.ended } };
}

fn told_http(answer: HttpTurn) -> Answered
    ensures { result ≡ told_http answer }
{
    match answer {
        HttpTurn::Moved => Answered::Moved,
        HttpTurn::Idle => Answered::Idle,
        HttpTurn::Ended(_) => Answered::Ended,
    }
}

impl Playing {
    // A player of that name, with room for all.
    pub(crate) fn new(alloc: Global, who: u64, limits: Limits) -> Playing
        requires { limits.max_message ≤ 4194304 }
        ensures { IsNewPlayer limits who result }
    {
        let player = HttpPlayer::new(alloc, who, limits);
        player.owed_law();
        Playing {
            player,
            link: MemLink::new(alloc),
            ended: None,
        }
    }

    pub(crate) fn sent(&self) -> &[u8]
        ensures { result.now ≡ self.now.link.sent }
    {
        self.link.sent()
    }

    pub(crate) fn ended(&self) -> Option<HttpEnd>
        ensures { result ≡ self.now.ended }
    {
        self.ended
    }

    // The number of bytes that it holds: 0 if it has ended.
    pub(crate) fn held(&self) -> u64
        ensures { PlayerHolds self.now.ended self.now result }
    {
        match self.ended {
            None => self.player.held(),
            Some(_) => 0,
        }
    }

    // Does the action of a line at it.
    pub(crate) fn take(&mut self, line: ReplayLine) -> Result<(), OutOfMemory>
        ensures { OnOk result (self.new ≡ record self.old { link = told_link line self.old.link }) }
    {
        tell(&mut self.link, line)
    }

    // Takes one turn, and returns the turn's answer. A player that has ended takes none. A player that ends
    // is closed at once.
    pub(crate) fn turn(
        &mut self,
        alloc: Global,
        port: &mut Sole,
        desk: &PlaceDesk<'_>,
    ) -> Result<Answered, OutOfMemory>
        requires ready { PlayerReady self.old.ended port.old self.old.player }
        requires offered { IsOffered (granted_from 0 desk.now.list.now desk.now.opens.now) (places (sole_rules port.old.rules)) }
        ensures turn { IfOk result (λ a. PlayerAnsweredBy a self.old.ended (granted_from 0 desk.now.list.now desk.now.opens.now)
            port.old self.old port.new self.new) }
        ensures ready { OnOk result (PlayerReady self.new.ended port.new self.new.player) }
        ensures fixed { sole_rules port.new.rules ≡ sole_rules port.old.rules }
        ensures fits { (q : ℕ) (p : SeenState) → FitsSole port.old q p → FitsSole port.new q p }
    {
        if self.ended.is_some() {
            return Ok(Answered::Nothing);
        }
        let answer = self.player.turn(alloc, port, &mut self.link, desk);
        self.player.owed_law();
        after(&mut self.player, &mut self.ended, port, answer)?;
        Ok(told_http(answer))
    }
}

// Takes the step that follows a turn's answer.
fn after(
    player: &mut HttpPlayer<Sole>,
    ended: &mut Option<HttpEnd>,
    port: &mut Sole,
    answer: HttpTurn,
) -> Result<(), OutOfMemory>
    requires at { IsAt (FitsSole port.old) (places (sole_rules port.old.rules)) player.old.parts player.old.seat }
    requires live { ended.old ≡ None }
    ensures leads { OnOk result (AfterHttpTurn answer player.old port.old player.new ended.new port.new) }
    ensures ready { OnOk result (PlayerReady ended.new port.new player.new) }
    ensures fixed { sole_rules port.new.rules ≡ sole_rules port.old.rules }
    ensures fits { (q : ℕ) (p : SeenState) → FitsSole port.old q p → FitsSole port.new q p }
{
    match answer {
        HttpTurn::Moved => Ok(()),
        HttpTurn::Idle => Ok(()),
        HttpTurn::Ended(HttpEnd::OutOfMemory) => Err(OutOfMemory),
        HttpTurn::Ended(end) => close(player, ended, port, end),
    }
}

// Closes a player that has ended with this ending. If the streams don't let it leave there was no memory
// for its calls.
fn close(
    player: &mut HttpPlayer<Sole>,
    ended: &mut Option<HttpEnd>,
    port: &mut Sole,
    end: HttpEnd,
) -> Result<(), OutOfMemory>
    requires { HasFit (FitsSole port.old) player.old.seat.spot }
    ensures closed { OnOk result (PlayerClosed port.old player.old port.new player.new) }
    ensures ended { ended.new ≡ Some end }
    ensures fixed { sole_rules port.new.rules ≡ sole_rules port.old.rules }
    ensures fits { (q : ℕ) (p : SeenState) → FitsSole port.old q p → FitsSole port.new q p }
{
    *ended = Some(end);
    match player.close(port) {
        Leaving::Done => Ok(()),
        Leaving::Worn => Ok(()),
        Leaving::Busy => Err(OutOfMemory),
        Leaving::OutOfMemory => Err(OutOfMemory),
    }
}
