ghost use Rattle.std.specs.Prelude.{◌≡◌, ◌<◌, ◌≤◌, ℕ, ◌+◌, true, List, ◌++◌, length, Some, None};
ghost use Rattle.chunk_wire.specs.declared.message.Message.{Message};
ghost use Rattle.ack_window.specs.Inbound.{room_of};
ghost use Rattle.rtmp_handshake.specs.Answer.{answered};
ghost use Rattle.stream_model.specs.declared.calls.Entry.{Entry};
ghost use Rattle.stream_model.specs.declared.replies.Reply.{Reply};
ghost use Rattle.session_owed.specs.Dialogue.{Dialogue};
ghost use Rattle.session_owed.specs.Owed.{count_of};
ghost use Rattle.session_owed.specs.Standing.{Keeps, Past, Stands, fed_more, new_past, sent_more, with_call, with_message};
ghost use Rattle.session_owed.specs.Standing.{answered_so, new_keeps, pending_now, says_more, stepped, took};
ghost use Rattle.session_owed.specs.Talk.{hand_bytes, is_take, item_of};
ghost use Rattle.session_owed.specs.Talks.{NeverTakes, kept_by};

/// Shows that a new session stands for the empty past.
pub fn new_step<S>()
    ensures { (d : Dialogue S) → Stands d new_past (new_keeps d) }
{}

/// Shows that a session still stands for its past after the first pending bytes were sent.
pub fn send_step<S>()
    ensures { (d : Dialogue S) (p : Past) (k : Keeps S) (b rest : List ℕ) → Stands d p k → k.pending ≡ b ++ rest
        → Stands d (sent_more p b) (pending_now k rest) }
{}

/// Shows that a session still stands for its past after bytes of the handshake were fed. `more` are the bytes
/// by which its answer grew.
pub fn hand_step<S>()
    ensures { (d : Dialogue S) (p : Past) (k : Keeps S) (q more : List ℕ)
        → length p.x < hand_bytes → length (p.x ++ q) ≤ hand_bytes → answered p.x ++ more ≡ answered (p.x ++ q) → Stands d p k
        → Stands d (fed_more p q) (pending_now k (k.pending ++ more)) }
{}

/// Shows that a session still stands for its past after bytes of chunks were fed that end no message, at most
/// up to the next place of an acknowledgement.
pub fn bytes_step<S>()
    ensures { (d : Dialogue S) (p : Past) (k : Keeps S) (q : List ℕ)
        → hand_bytes ≤ length p.x → p.kept ≡ None → length q ≤ room_of k.window → Stands d p k
        → Stands d (fed_more p q) (took k (length q)) }
{}

/// Shows that a session still stands for its past after bytes of chunks were fed that end a message. The
/// messages that it says at once stand after the acknowledgement of its last byte, and the call that it makes
/// waits for its reply.
pub fn message_step<S>()
    ensures { (d : Dialogue S) (p : Past) (k : Keeps S) (q : List ℕ) (m : Message)
        → NeverTakes d → hand_bytes ≤ length p.x → p.kept ≡ None → 0 < length q → length q ≤ room_of k.window → Stands d p k
        → Stands d (with_message p q (count_of d (p.x ++ q)) m (kept_by d (count_of d (p.x ++ q)) (d.does k.state m).makes))
        (stepped (took k (length q)) m (d.does k.state m)) }
{}

/// Shows that a session still stands for its past after the call that waits is answered.
pub fn reply_step<S>()
    ensures { (d : Dialogue S) (p : Past) (k : Keeps S) (e : Entry) (r : Reply)
        → hand_bytes ≤ length p.x → p.kept ≡ Some e → Stands d p k
        → Stands d (with_call p e r) (answered_so k (d.told k.state r)) }
{}

/// Shows that a session still stands for its past after a Take is answered, if a play is granted.
pub fn item_step<S>()
    ensures { (d : Dialogue S) (p : Past) (k : Keeps S) (e : Entry) (r : Reply)
        → hand_bytes ≤ length p.x → p.kept ≡ None → e.at ≡ length p.x → is_take e.call ≡ true → d.plays k.state ≡ true → Stands d p k
        → Stands d (with_call p e r) (says_more k (item_of d k.state (e, r))) }
{}
