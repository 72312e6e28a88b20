ghost use Rattle.std.specs.Prelude.{◌≡◌, ℕ, true, List, All};
ghost use Rattle.stream_model.specs.declared.calls.Shape.{Shape};
ghost use Rattle.stream_model.specs.History.{History};
ghost use Rattle.stream_model.specs.Shape.{IsShapeLawful};
ghost use Rattle.stream_registry.specs.Told.{Histories, Step};
ghost use Rattle.relay_session.specs.SeatOwn.{Acts, AreAnswered, BringsSo, Fares, IsPlayer, IsPublisher, own};
ghost use Rattle.relay_session.specs.SeatState.{plays, publishes};
ghost use Rattle.relay_session.specs.SeatVisits.{AllStand, Visit, calls_of};

/// Shows the answers of a session's calls at a stream or a pool if nobody else uses its name, whatever the
/// others do. Its calls are then those of its name.
///
/// From its Begin answered Began to its End it is the publisher, at a pool of one of the slots; each of its
/// Pushes is answered Pushed and its End Ended. From its Join answered Joined to its Leave it holds that
/// player's place, and none of its Takes is answered NotPlayer. BeginAs and JoinAs count as Begin and Join.
pub fn own_calls_law()
    ensures publisher { (s : Shape) (past : History) (who : ℕ) → IsShapeLawful s past → publishes (own who past) ≡ true → IsPublisher s past who }
    ensures player { (s : Shape) (past : History) (who player : ℕ) → IsShapeLawful s past → plays player (own who past) ≡ true
        → IsPlayer s past who player }
    ensures fares { (s : Shape) (past : History) (who : ℕ) → IsShapeLawful s past → Fares (own who past) }
{}

/// Shows the answers of a caller that makes all calls of a name at a stream or a pool. If it publishes only a
/// broadcast that it began, and takes only as a player whose place it was given, each of its Pushes is
/// answered Pushed and each End Ended. None of its Takes and Leaves is answered NotPlayer.
pub fn alone_law()
    ensures { (s : Shape) (past : History) (who : ℕ) (calls : List Step) → IsShapeLawful s past → own who past ≡ calls → Acts calls → AreAnswered calls }
{}

/// Shows that of the calls of a session, which stand in the histories of their places, a Take alone was sent
/// an item.
pub fn items_law()
    ensures takes { (limits : ℕ → Shape) (histories : Histories) (visits : List Visit) → AllStand limits histories visits
        → All BringsSo (calls_of visits) }
{}
