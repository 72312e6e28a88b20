ghost use Rattle.std.specs.Prelude.{ℕ};
ghost use Rattle.client_owed.specs.declared.types.Asked.{Asked};
ghost use Rattle.client_owed.specs.declared.types.Given.{Given};
ghost use Rattle.relay_outside.specs.MemLinks.{MemHears, MemLinkState, MemSays};
ghost use Rattle.rtmp_client.specs.ClientState.{ClientState, TurnMade};
ghost use Rattle.rtmp_client.specs.Turns.{EndedBy};
ghost use Rattle.rtmp_client.specs.declared.end.ClientTurn.{ClientTurn};
ghost use Rattle.client_turn_law.specs.Twins.{AreAlike, HasMemory, IsBegun, SameTurn, TellTheSame, WasGiven, gift_taken};

/// Shows that two turns of clients are answered the same, if the clients are alike and their links in memory
/// the same. They leave clients alike and the same link, unless one of both ended because memory was refused.
pub fn a_turn_of_a_client_is_a_function()
    ensures { (s s' t t' : ClientState) (l m m' : MemLinkState) (a a' : ClientTurn) → AreAlike s s'
        → TurnMade (EndedBy MemHears MemSays) s l a t m → TurnMade (EndedBy MemHears MemSays) s' l a' t' m' → HasMemory t → HasMemory t'
        → SameTurn a t m a' t' m' }
{}

/// Shows that two new clients that ask the same and take messages of the same length are alike.
pub fn two_new_clients_are_alike()
    ensures { (k : Asked) (max : ℕ) (s t : ClientState) → IsBegun k max s → IsBegun k max t → AreAlike s t }
{}

/// Shows that clients that are alike and are given the same stay alike.
pub fn clients_that_are_given_the_same_stay_alike()
    ensures { (g : Given) (s s' t t' : ClientState) → AreAlike s s' → WasGiven g s t → WasGiven g s' t' → AreAlike t t' }
{}

/// Shows that clients that are alike stay so when their gifts are taken.
pub fn clients_whose_gifts_are_taken_stay_alike()
    ensures { (s t : ClientState) → AreAlike s t → AreAlike (gift_taken s) (gift_taken t) }
{}

/// Shows that clients that are alike tell the same.
pub fn alike_clients_tell_the_same()
    ensures { (s t : ClientState) → AreAlike s t → TellTheSame s t }
{}
