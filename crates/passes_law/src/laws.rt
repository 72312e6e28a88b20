//! The laws. Each is the contract of a function that does nothing.
ghost use Rattle.std.specs.Prelude.{◌≡◌, ◌++◌, ℕ, Bool, None, Option};
ghost use Rattle.command_dialog.specs.declared.types.Ask.{Ask};
ghost use Rattle.command_dialog.specs.declared.types.Grant.{Grant};
ghost use Rattle.http_flv.specs.Turns.{EndedBy as HttpEndedBy, Life as HttpLife};
ghost use Rattle.http_flv.specs.declared.end.HttpEnd.{HttpEnd};
ghost use Rattle.http_flv.specs.declared.turn.HttpTurn.{HttpTurn};
ghost use Rattle.http_worker.specs.Benches.{WorkerState as HttpWorkerState};
ghost use Rattle.http_worker.specs.Coming.{ByRounds as HttpByRounds};
ghost use Rattle.media_recorder.specs.Alone.{OneAtMost};
ghost use Rattle.media_recorder.specs.Seats.{SeatState as RecorderSeat};
ghost use Rattle.origin_pull.specs.Turns.{ClientTurns, EndedBy as EdgeEndedBy, Life as EdgeLife};
ghost use Rattle.origin_pull.specs.declared.end.EdgeEnd.{EdgeEnd};
ghost use Rattle.origin_pull.specs.declared.turn.EdgeTurn.{EdgeTurn};
ghost use Rattle.passes_law.specs.HttpWorkers.{KeepsAll as KeepsPlayers};
ghost use Rattle.passes_law.specs.Passes.{KeepsPasses, spot_of};
ghost use Rattle.passes_law.specs.Workers.{KeepsAll, of_recorders};
ghost use Rattle.relay_session.specs.Alone.{LeavesSplit};
ghost use Rattle.relay_session.specs.Places.{AskedAlone};
ghost use Rattle.relay_session.specs.SeatState.{SeatState, left_at, place_of};
ghost use Rattle.relay_session.specs.Turns.{EndedBy, Life};
ghost use Rattle.relay_session.specs.declared.end.End.{End};
ghost use Rattle.relay_session.specs.declared.seat_answers.Leaving.{Leaving};
ghost use Rattle.relay_session.specs.declared.turn.Turn.{Turn};
ghost use Rattle.relay_worker.specs.Benches.{WorkerState};
ghost use Rattle.relay_worker.specs.Coming.{ByRounds};
ghost use Rattle.slab.specs.Slab.{slab_len};
ghost use Rattle.turn_gate.specs.Branches.{Kindred};

use relay_outside::{Door, Link, Sink};
use stream_registry::StreamPort;

/// Shows that a turn of a session, and its close, lose no pass and bring none from elsewhere. At each place
/// the passes of the root and of the session are then those from before, after splits and joins among them.
pub fn sessions_law<P: StreamPort, L: Link>()
    ensures turn { (desk : Ask → Grant) (ended : Option End) (quit : Bool) (v w : Life P (SeatState P.Pass)) (l m : L) (a : Turn)
        → EndedBy (AskedAlone P.fits P.rules P.root P.seen P.count P.wants P.busies P.adds P.kin P.branches) desk L.hears L.says ended quit v l a w m
        → KeepsPasses P.kin P.branches v.port v.seat.spot w.port w.seat.spot }
    ensures close { (x y : P) (s t : SeatState P.Pass) (r : Leaving) → place_of t.spot ≡ left_at r (place_of s.spot)
        → LeavesSplit (place_of s.spot) P.branches (P.kin x) s.spot s.visits t.visits (P.kin y) t.spot
        → KeepsPasses P.kin P.branches x s.spot y t.spot }
{}

/// Shows the same of a turn of a recorder.
pub fn recorders_law<P: StreamPort>()
    ensures { (x y : P) (s t : RecorderSeat P.Pass) → t.place ≡ s.place → OneAtMost P.rules P.adds P.root P.seen P.kin P.branches x y s t
        → KeepsPasses P.kin P.branches x (spot_of s.place s.pass) y (spot_of t.place t.pass) }
{}

/// Shows the same of the rounds of a worker: of its port, its sessions and its recorders together. Where no
/// session is left, the passes are those of its port and its recorders.
pub fn workers_law<P: StreamPort, D: Door, K: Sink>()
    ensures rounds { (desk : Ask → Grant) (w v : WorkerState P D K P.Pass D.Link)
        → ByRounds P.fits P.rules P.root P.seen P.mine P.count P.wants P.busies P.adds P.kin P.branches
        D.Link.told D.Link.counts D.Link.hears D.Link.says D.Link.ready D.told K.takes K.holds desk w v
        → KeepsAll P.kin P.branches w v }
    ensures gone { (w v : WorkerState P D K P.Pass D.Link) → slab_len w.bench.sessions ≡ 0 → slab_len v.bench.sessions ≡ 0
        → KeepsAll P.kin P.branches w v → (q : ℕ)
        → Kindred (P.kin w.bench.port q ++ of_recorders P.branches w.recorders q) (P.kin v.bench.port q ++ of_recorders P.branches v.recorders q) }
{}

/// Shows that a turn of a player over HTTP loses no pass and brings none from elsewhere. It closes as a session
/// does.
pub fn players_law<P: StreamPort, L: Link>()
    ensures { (desk : Ask → Grant) (ended : Option HttpEnd) (v w : HttpLife P (SeatState P.Pass)) (l m : L) (a : HttpTurn)
        → HttpEndedBy (AskedAlone P.fits P.rules P.root P.seen P.count P.wants P.busies P.adds P.kin P.branches) desk L.hears L.says ended v l a w m
        → KeepsPasses P.kin P.branches v.port v.seat.spot w.port w.seat.spot }
{}

/// Shows the same of a turn of an edge.
pub fn edges_law<P: StreamPort, L: Link>()
    ensures { (ended : Option EdgeEnd) (v w : EdgeLife P (SeatState P.Pass)) (l m : L) (a : EdgeTurn)
        → EdgeEndedBy (AskedAlone P.fits P.rules P.root P.seen P.count P.wants P.busies P.adds P.kin P.branches) (ClientTurns L.hears L.says) ended v l a w m
        → KeepsPasses P.kin P.branches v.port v.seat.spot w.port w.seat.spot }
{}

/// Shows the same of the rounds of a worker of HTTP players: of its port and its players together. Where no
/// player is left, the passes are those of its port.
pub fn http_workers_law<P: StreamPort, D: Door>()
    ensures rounds { (desk : Ask → Grant) (w v : HttpWorkerState P D P.Pass D.Link)
        → HttpByRounds P.fits P.rules P.root P.seen P.count P.wants P.busies P.adds P.kin P.branches
        D.Link.told D.Link.counts D.Link.hears D.Link.says D.Link.ready D.told desk w v
        → KeepsPlayers P.kin P.branches w v }
    ensures gone { (w v : HttpWorkerState P D P.Pass D.Link) → slab_len w.bench.players ≡ 0 → slab_len v.bench.players ≡ 0
        → KeepsPlayers P.kin P.branches w v → (q : ℕ) → Kindred (P.kin w.bench.port q) (P.kin v.bench.port q) }
{}
