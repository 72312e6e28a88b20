ghost use Rattle.std.specs.Prelude.{◌≡◌, ◌<◌, ◌≤◌, ℕ, ◌+◌, List, [], ◌∷◌, ◌++◌, drop, false, Option, Some, None};
ghost use Rattle.chunk_reader.specs.Reads.{Reads};
ghost use Rattle.chunk_wire.specs.State.{State};
ghost use Rattle.chunk_wire.specs.declared.message.Message.{Message};
ghost use Rattle.ack_window.specs.Inbound.{ack_of, room_of};
ghost use Rattle.stream_model.specs.declared.calls.Entry.{Entry};
ghost use Rattle.stream_model.specs.declared.replies.Reply.{Reply};
ghost use Rattle.session_owed.specs.Acks.{ack_messages, inbound};
ghost use Rattle.session_owed.specs.Dialogue.{Dialogue};
ghost use Rattle.session_owed.specs.Owed.{out, owed};
ghost use Rattle.session_owed.specs.Published.{published, pushed_by, pushed_in};
ghost use Rattle.session_owed.specs.Talk.{Own, hand_bytes, is_take, item_of, talk};
ghost use Rattle.session_owed.specs.Talks.{Talks, step_of};

/// Shows that the messages owed grow by those that each step says, for any dialogue. `inbound` is the window
/// in effect at the next byte.
pub fn growth_law<S>()
    // Bytes that end no message owe the acknowledgement that the window answers, and nothing else.
    ensures bytes { (d : Dialogue S) (n k : ℕ) (ms : List (ℕ × Message)) (C : List Own) (kept : Option Entry)
        → Talks d n ms C kept → k ≤ room_of (inbound d.window n ms)
        → owed d (n + k) ms C ≡ owed d n ms C ++ ack_messages (ack_of (inbound d.window n ms) k) }

    // A message that ends owes the acknowledgement of its last byte, and then the messages that it says at
    // once.
    ensures message { (d : Dialogue S) (n k : ℕ) (ms : List (ℕ × Message)) (C : List Own) (m : Message)
        → Talks d n ms C None → 0 < k → k ≤ room_of (inbound d.window n ms)
        → owed d (n + k) (ms ++ (n + k, m) ∷ []) C
        ≡ owed d n ms C ++ (ack_messages (ack_of (inbound d.window n ms) k) ++ (step_of d C ms m).says) }

    // The reply to the call that it makes owes the messages that report it.
    ensures reply { (d : Dialogue S) (n : ℕ) (ms : List (ℕ × Message)) (C : List Own) (e : Entry) (r : Reply)
        → Talks d n ms C (Some e)
        → owed d n ms (C ++ (e, r) ∷ []) ≡ owed d n ms C ++ (d.told (talk d C ms).state r).says }

    // A Take owes its item, in the state of the dialogue at it.
    ensures item { (d : Dialogue S) (n : ℕ) (ms : List (ℕ × Message)) (C : List Own) (c : Own)
        → Talks d n ms C None → c.0.at ≡ hand_bytes + n
        → owed d n ms (C ++ c ∷ []) ≡ owed d n ms C ++ item_of d (talk d C ms).state c }

    // A call that is no Take, if none waits, owes nothing: an End or a Leave as the session closes.
    ensures call { (d : Dialogue S) (n : ℕ) (ms : List (ℕ × Message)) (C : List Own) (c : Own)
        → Talks d n ms C None → is_take c.0.call ≡ false → owed d n ms (C ++ c ∷ []) ≡ owed d n ms C }
{}

/// Shows that the bytes owed depend on the bytes fed and on the calls alone: however the input was cut, they
/// are the same.
pub fn cutting_law<S>()
    ensures { (d : Dialogue S) (max : ℕ) (x : List ℕ) (ms ns : List (ℕ × Message)) (s t : State) (q r : List ℕ) (C : List Own)
        → Reads max (drop hand_bytes x) ms s q → Reads max (drop hand_bytes x) ns t r → out d x ms C ≡ out d x ns C }
{}

/// Shows that the units of a session's own calls, with that of the call that waits, are the units published.
pub fn published_law<S>()
    ensures { (d : Dialogue S) (n : ℕ) (ms : List (ℕ × Message)) (C : List Own) (kept : Option Entry)
        → Talks d n ms C kept → pushed_by C ++ pushed_in kept ≡ published d ms C }
{}
