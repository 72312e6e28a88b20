//! Laws of the remains of a worker.
ghost use Rattle.std.specs.Prelude.{◌≡◌, ℕ, Bool, None, Some};
ghost use Rattle.command_dialog.specs.declared.types.Ask.{Ask};
ghost use Rattle.command_dialog.specs.declared.types.Grant.{Grant};
ghost use Rattle.relay_outside.specs.Doors.{DoorTold};
ghost use Rattle.relay_session.specs.SeatState.{GoOn};
ghost use Rattle.relay_session.specs.SeatVisits.{calls_of};
ghost use Rattle.relay_session.specs.Session.{session};
ghost use Rattle.relay_worker.specs.Books.{Account, Accounted, Settled};
ghost use Rattle.relay_worker.specs.Rounds.{AlwaysReady, IsTurned, TurnsAt};
ghost use Rattle.relay_worker.specs.declared.bench.Bench.{Bench};
ghost use Rattle.relay_worker.specs.declared.bench.Seated.{Seated};
ghost use Rattle.relay_worker.specs.declared.bench.Terms.{Terms};
ghost use Rattle.relay_worker.specs.Sessions.{TakesTurn};
ghost use Rattle.relay_session.specs.Onward.{GoesOn};
ghost use Rattle.relay_session.specs.Places.{AskedAlone};
ghost use Rattle.slab.specs.Slab.{get};
ghost use Rattle.session_owed.specs.Published.{published, pushed_by};
ghost use Rattle.stream_model.specs.declared.calls.Shape.{Shape};
ghost use Rattle.stream_registry.specs.Told.{Histories};
ghost use Rattle.turn_gate.specs.Histories.{Begins};

use relay_outside::Door;
use stream_registry::StreamPort;

/// Over links that are always ready, as those in memory are, each session that lives takes a turn in each round.
pub fn ready_law<P: StreamPort, D: Door>()
    ensures { AlwaysReady D.Link.ready → (desk : Ask → Grant) (key : ℕ) (s : Seated P D.Link P.Pass) (b b' : Bench P D P.Pass D.Link)
        → get b.sessions key ≡ Some s → s.session.ended ≡ None
        → TurnsAt (TakesTurn (AskedAlone P.fits P.rules P.root P.seen P.count P.wants P.busies P.adds P.kin P.branches)
        (GoesOn P.fits P.rules P.root P.seen P.busies) desk D.Link.hears D.Link.says) P.busies D.Link.ready key b b'
        → IsTurned (TakesTurn (AskedAlone P.fits P.rules P.root P.seen P.count P.wants P.busies P.adds P.kin P.branches)
        (GoesOn P.fits P.rules P.root P.seen P.busies) desk D.Link.hears D.Link.says) P.busies key s b b' }
{}

/// The remaining books of a worker still hold once the streams' histories have gone on.
pub fn settled_law()
    ensures { (desk : Ask → Grant) (terms : Terms) (limits : ℕ → Shape) (histories later : Histories) (door : DoorTold) (refused worn : Bool)
        → GoOn histories later → Settled desk terms limits histories door refused worn → Settled desk terms limits later door refused worn }
{}

/// The units that a session of an account pushed are the first of those that its messages publish: it
/// pushed no other, and none twice.
pub fn published_law()
    ensures { (desk : Ask → Grant) (terms : Terms) (limits : ℕ → Shape) (histories : Histories) (a : Account)
        → (w : Accounted desk terms limits histories a)
        → Begins (pushed_by (calls_of w.visits)) (published (session a.who terms.limits.window desk) w.ms w.calls) }
{}
