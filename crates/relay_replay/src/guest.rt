ghost use Rattle.std.specs.Prelude.{◌≡◌, ℕ, IfOk, OnOk};
ghost use Rattle.config_desk.specs.Grants.{granted_from};
ghost use Rattle.relay_session.specs.Places.{IsOffered};
ghost use Rattle.stream_registry.specs.Books.{FitsSole, SeenState, sole_rules};
ghost use Rattle.stream_registry.specs.Names.{places};
ghost use Rattle.relay_replay.specs.Cast.{GuestTurn};
ghost use Rattle.relay_replay.specs.Plays.{link_of, told_guest};
ghost use Rattle.relay_replay.specs.Prints.{GuestHolds};
ghost use Rattle.relay_replay.specs.Scenes.{ReadyGuest};

use crate::connection::Connection;
use crate::playing::Playing;
use crate::pulling::Pulling;
use av_unit::OutOfMemory;
use config_desk::PlaceDesk;
use relay_script::ReplayLine;
use std::alloc::Global;
use stream_registry::Sole;

/// The answer of a turn; nothing, if the guest has ended before.
#[derive(Clone, Copy)]
pub enum Answered {
    Nothing,
    Moved,
    Idle,
    Ended,
}

/// The guest that was opened, with its link.
#[derive(Drop)]
pub enum Guest {
    Session(Connection),
    Player(Playing),
    Edge(Pulling),
}

impl Guest {
    pub(crate) fn sent(&self) -> &[u8]
        ensures { result.now ≡ (link_of self.now).sent }
    {
        match self {
            Guest::Session(session) => session.sent(),
            Guest::Player(player) => player.sent(),
            Guest::Edge(edge) => edge.sent(),
        }
    }

    // The number of bytes that it holds: 0 if it has ended.
    pub(crate) fn held(&self) -> u64
        ensures { GuestHolds self.now result }
    {
        match self {
            Guest::Session(session) => session.held(),
            Guest::Player(player) => player.held(),
            Guest::Edge(edge) => edge.held(),
        }
    }

    // Does the action of a line at it.
    pub(crate) fn take(&mut self, line: ReplayLine) -> Result<(), OutOfMemory>
        ensures { OnOk result (self.new ≡ told_guest line self.old) }
    {
        match self {
            Guest::Session(session) => session.take(line),
            Guest::Player(player) => player.take(line),
            Guest::Edge(edge) => edge.take(line),
        }
    }

    // Takes one turn, and returns the turn's answer. A guest that has ended takes none. A guest that ends
    // is closed at once.
    pub(crate) fn turn(
        &mut self,
        alloc: Global,
        port: &mut Sole,
        desk: &PlaceDesk<'_>,
    ) -> Result<Answered, OutOfMemory>
        requires ready { ReadyGuest port.old self.old }
        requires offered { IsOffered (granted_from 0 desk.now.list.now desk.now.opens.now) (places (sole_rules port.old.rules)) }
        ensures turn { IfOk result (λ a. GuestTurn a (granted_from 0 desk.now.list.now desk.now.opens.now) port.old self.old port.new self.new) }
        ensures ready { OnOk result (ReadyGuest port.new self.new) }
        ensures fixed { sole_rules port.new.rules ≡ sole_rules port.old.rules }
        ensures fits { (q : ℕ) (p : SeenState) → FitsSole port.old q p → FitsSole port.new q p }
    {
        match self {
            Guest::Session(session) => session.turn(alloc, port, desk),
            Guest::Player(player) => player.turn(alloc, port, desk),
            Guest::Edge(edge) => edge.turn(alloc, port),
        }
    }
}
