//! Laws of the remains of a worker.
ghost use Rattle.std.specs.Prelude.{◌≢◌, ◌<◌, ◌≤◌, ◌^◌, ℕ, Bool};
ghost use Rattle.command_dialog.specs.declared.types.Ask.{Ask};
ghost use Rattle.command_dialog.specs.declared.types.Grant.{Grant};
ghost use Rattle.relay_outside.specs.Doors.{DoorTold};
ghost use Rattle.relay_session.specs.SeatState.{GoOn};
ghost use Rattle.relay_worker.specs.Benches.{IsNamed as IsNamedSession};
ghost use Rattle.http_worker.specs.Benches.{IsNamed};
ghost use Rattle.http_worker.specs.Books.{Settled};
ghost use Rattle.http_worker.specs.declared.bench.Terms.{Terms};
ghost use Rattle.stream_model.specs.declared.calls.Shape.{Shape};
ghost use Rattle.stream_registry.specs.Told.{Histories};

/// The remaining books of a worker still hold once the streams' histories have gone on.
pub fn settled_law()
    ensures { (desk : Ask → Grant) (terms : Terms) (limits : ℕ → Shape) (histories later : Histories) (door : DoorTold) (refused worn : Bool)
        → GoOn histories later → Settled desk terms limits histories door refused worn → Settled desk terms limits later door refused worn }
{}

/// No player has the name of a session of a worker of any number.
pub fn apart_law()
    ensures { (number had who others other : ℕ) → number < 2 ^ 20 → had ≤ 2 ^ 60 → IsNamedSession number had who → IsNamed others other → who ≢ other }
{}
