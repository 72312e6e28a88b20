//! The bytes that the sessions of a run have sent, when a client has ended.
ghost use Rattle.std.specs.Prelude.{◌≡◌};
ghost use Rattle.client_law.specs.Room.{HaveRoom};
ghost use Rattle.loop_command.specs.Desk.{granted, rules};
ghost use Rattle.relay_session.specs.SessionState.{IsWhole, StandsFor};
ghost use Rattle.stream_registry.specs.Books.{journal_at, sole_rules};

use crate::ending::have_room;
use crate::rounds::Run;

/// The bytes that each session sent begin the bytes that it owes, and each item of the stream has room in a
/// message. It goes through the stream's history.
pub(crate) fn talk_law(run: &Run)
    requires { sole_rules run.now.port.rules ≡ rules }
    ensures plays { StandsFor granted run.now.pull.session → IsWhole granted run.now.pull.session.parts }
    ensures publishes { StandsFor granted run.now.push.session → IsWhole granted run.now.push.session.parts }
    ensures room { HaveRoom 4194304 (journal_at run.now.port.books 0) }
{
    run.pull.session.owed_law();
    run.push.session.owed_law();
    have_room(run.port.journal(0));
}
