ghost use Rattle.std.specs.Prelude.{◌≡◌, ◌<◌, ◌≤◌, ℕ, ◌+◌, false, List, ◌++◌, length, None, Some};
ghost use Rattle.std.specs.declared.option.Option.{Option};
ghost use Rattle.chunk_wire.specs.declared.message.Message.{Message};
ghost use Rattle.ack_window.specs.Inbound.{room_of};
ghost use Rattle.session_owed.specs.Talk.{hand_bytes};
ghost use Rattle.client_owed.specs.declared.types.Asked.{Asked};
ghost use Rattle.client_owed.specs.declared.types.Gave.{Gave};
ghost use Rattle.client_owed.specs.declared.types.Gift.{Gift};
ghost use Rattle.client_owed.specs.Client.{does};
ghost use Rattle.client_owed.specs.Owed.{MayGive};
ghost use Rattle.client_owed.specs.Pulled.{gift_for};
ghost use Rattle.client_owed.specs.Standing.{HasStarted, Keeps, Past, Stands, fed_more, gave_more, gift_now, greeted, listed};
ghost use Rattle.client_owed.specs.Standing.{new_keeps, new_past, pending_now, sent_more, stepped, took, with_given, with_message, with_taken};

/// Shows that a new client stands for the empty past.
pub fn new_step()
    ensures { (k : Asked) (max : ℕ) → Stands k max new_past new_keeps }
{}

/// Shows that a client still stands for its past after the first pending bytes were sent.
pub fn send_step()
    ensures { (k : Asked) (max : ℕ) (p : Past) (q : Keeps) (b rest : List ℕ) → Stands k max p q → q.pending ≡ b ++ rest
        → Stands k max (sent_more p b) (pending_now q rest) }
{}

/// Shows that a client still stands for its past after bytes of the handshake were fed that don't end it.
pub fn hand_step()
    ensures { (k : Asked) (max : ℕ) (p : Past) (q : Keeps) (b : List ℕ) → length (p.y ++ b) < hand_bytes → Stands k max p q → Stands k max (fed_more p b) q }
{}

/// Shows that a client still stands for its past after bytes of the handshake were fed that end it.
pub fn greet_step()
    ensures { (k : Asked) (max : ℕ) (p : Past) (q : Keeps) (b : List ℕ) → length p.y < hand_bytes → length (p.y ++ b) ≡ hand_bytes → Stands k max p q
        → Stands k max (fed_more p b) (greeted k (p.y ++ b) q) }
{}

/// Shows that a client still stands for its past after bytes of chunks were fed that end no message, at most
/// up to the next place of an acknowledgement.
pub fn bytes_step()
    ensures { (k : Asked) (max : ℕ) (p : Past) (q : Keeps) (b : List ℕ) → hand_bytes ≤ length p.y → length b ≤ room_of q.window → Stands k max p q
        → Stands k max (fed_more p b) (took q (length b)) }
{}

/// Shows that a client still stands for its past after bytes of chunks were fed that end a message. The
/// messages that it says stand after the acknowledgement of its last byte, and the gift that it tells waits.
pub fn message_step()
    ensures { (k : Asked) (max : ℕ) (p : Past) (q : Keeps) (b : List ℕ) (m : Message) (g : Option Gift)
        → hand_bytes ≤ length p.y → 0 < length b → length b ≤ room_of q.window → q.gift ≡ None → listed g ≡ gift_for k.wish q.phase m → Stands k max p q
        → Stands k max (with_message p b m) (stepped (took q (length b)) m (does k q.phase m) g) }
{}

/// Shows that a client still stands for its past after a tag or a finish is given to a client that has
/// started and isn't finished.
pub fn give_step()
    ensures { (k : Asked) (max : ℕ) (p : Past) (q : Keeps) (g : Gave)
        → HasStarted q.phase → q.finished ≡ false → g.at ≡ length p.y → MayGive k.wish max g.given → Stands k max p q
        → Stands k max (with_given p g) (gave_more q g.given) }
{}

/// Shows that a client still stands for its past after the gift that waits is taken.
pub fn take_step()
    ensures { (k : Asked) (max : ℕ) (p : Past) (q : Keeps) (g : Gift) → q.gift ≡ Some g → Stands k max p q
        → Stands k max (with_taken p g) (gift_now q None) }
{}
