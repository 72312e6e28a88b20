ghost use Rattle.std.specs.Prelude.{◌≡◌, ◌∷◌, ◌++◌, ℕ, None};
ghost use Rattle.stream_model.specs.declared.calls.Shape.{Shape};
ghost use Rattle.stream_model.specs.declared.calls.Entry.{Entry};
ghost use Rattle.stream_model.specs.declared.calls.Call.TheVariants as Call;
ghost use Rattle.stream_model.specs.declared.replies.Reply.TheVariants as Reply;
ghost use Rattle.stream_model.specs.History.{History};
ghost use Rattle.stream_model.specs.Shape.{IsShapeLawful};
ghost use Rattle.stream_model.specs.Spell.{spell};
ghost use Rattle.media_recorder.specs.Taken.{taken};
ghost use Rattle.media_recorder.specs.Viewer.{items_sent, calls_of, TakesOnly};
ghost use Rattle.media_recorder.specs.Ports.{FitsIf};
ghost use Rattle.media_recorder.specs.Turns.{RecorderState};

use stream_registry::StreamPort;

/// Shows that a recorder that fits a port still fits it after other calls at the port, since passes that
/// fitted still do.
pub fn still_fits_law<P: StreamPort>()
    ensures { (port later : P) (r : RecorderState P.Pass) → ((q : ℕ) (p : P.Pass) → P.fits port q p → P.fits later q p)
        → FitsIf (P.fits port r.seat.place) r.seat.pass → FitsIf (P.fits later r.seat.place) r.seat.pass }
{}

/// Shows that a recorder's Takes, from its Join on, were sent the items that the player of its place was
/// sent. The condition is that each call at the stream that bears the recorder's name is a Take of its own.
/// So these items keep the viewer's law of that place.
pub fn viewer_law()
    ensures { (shape : Shape) (place who from : ℕ) (entry : Entry) (newer before : History) → shape.slots ≡ None → entry.who ≡ who
        → entry.call ≡ Call.Join → IsShapeLawful shape (newer ++ (entry, Reply.Joined place from) ∷ before) → TakesOnly who place newer
        → items_sent (spell (newer ++ (entry, Reply.Joined place from) ∷ before) place).answers ≡ taken (calls_of who newer) }
{}
