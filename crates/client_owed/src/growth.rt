ghost use Rattle.std.specs.Prelude.{◌≡◌, ◌<◌, ◌≤◌, ◌⊎◌, ℕ, ◌+◌, List, [], ◌∷◌, ◌++◌, codes, length};
ghost use Rattle.chunk_wire.specs.declared.message.Message.{Message};
ghost use Rattle.ack_window.specs.Inbound.{ack_of, room_of};
ghost use Rattle.session_owed.specs.Acks.{ack_messages, inbound};
ghost use Rattle.session_owed.specs.Talk.{hand_bytes};
ghost use Rattle.client_owed.specs.declared.types.Asked.{Asked};
ghost use Rattle.client_owed.specs.declared.types.Gave.{Gave};
ghost use Rattle.client_owed.specs.Client.{connect, does};
ghost use Rattle.client_owed.specs.Growth.{Reaches};
ghost use Rattle.client_owed.specs.Owed.{first_window, id_of, owed, phase_of, sent_on};
ghost use Rattle.client_owed.specs.Pulled.{gift_for, pulled};

/// Shows that the messages owed grow by those that each step says. `inbound` is the window in effect at the
/// next byte.
pub fn growth_law()
    // Bytes that end no message owe the acknowledgement that the window answers, and nothing else.
    ensures bytes { (k : Asked) (n j : ℕ) (ms : List (ℕ × Message)) (T : List Gave)
        → Reaches n ms T → j ≤ room_of (inbound (first_window) n ms)
        → owed k (n + j) ms T ≡ owed k n ms T ++ ack_messages (ack_of (inbound (first_window) n ms) j) }

    // A message that ends owes the acknowledgement of its last byte, and then its answers.
    ensures message { (k : Asked) (n j : ℕ) (ms : List (ℕ × Message)) (T : List Gave) (m : Message)
        → Reaches n ms T → 0 < j → j ≤ room_of (inbound (first_window) n ms) → (T ≡ []) ⊎ (id_of (phase_of k (ms ++ (n + j, m) ∷ [])) ≡ id_of (phase_of k ms))
        → owed k (n + j) (ms ++ (n + j, m) ∷ []) T
        ≡ owed k n ms T ++ (ack_messages (ack_of (inbound (first_window) n ms) j) ++ (does k (phase_of k ms) m).says) }

    // A tag or a finish that is given owes its message.
    ensures gave { (k : Asked) (n : ℕ) (ms : List (ℕ × Message)) (T : List Gave) (g : Gave)
        → Reaches n ms T → g.at ≡ hand_bytes + n
        → owed k n ms (T ++ g ∷ []) ≡ owed k n ms T ++ sent_on (id_of (phase_of k ms)) g.given ∷ [] }
{}

/// Shows that one more message tells the gifts that it tells in the phase which the messages before it left.
pub fn gift_law()
    ensures { (k : Asked) (ms : List (ℕ × Message)) (m : ℕ × Message) → pulled k (ms ++ m ∷ []) ≡ pulled k ms ++ gift_for k.wish (phase_of k ms) m.1 }
{}

/// Shows the first message with the app `live` at a server.
#[tactic(auto, unfolding(amf0_value::specs::Pattern::pattern))]
pub fn worked_examples()
    ensures connect { (k : Asked) → k.address ≡ codes "127.0.0.1:1935" → k.app ≡ codes "live" → (connect k).body ≡
        0x02 ∷ 0x00 ∷ 0x07 ∷ 0x63 ∷ 0x6F ∷ 0x6E ∷ 0x6E ∷ 0x65 ∷ 0x63 ∷ 0x74 ∷ 0x00 ∷ 0x3F ∷ 0xF0 ∷ 0x00 ∷ 0x00 ∷ 0x00 ∷ 0x00
        ∷ 0x00 ∷ 0x00 ∷ 0x03 ∷ 0x00 ∷ 0x03 ∷ 0x61 ∷ 0x70 ∷ 0x70 ∷ 0x02 ∷ 0x00 ∷ 0x04 ∷ 0x6C ∷ 0x69 ∷ 0x76 ∷ 0x65 ∷ 0x00 ∷ 0x08
        ∷ 0x66 ∷ 0x6C ∷ 0x61 ∷ 0x73 ∷ 0x68 ∷ 0x56 ∷ 0x65 ∷ 0x72 ∷ 0x02 ∷ 0x00 ∷ 0x1C ∷ 0x46 ∷ 0x4D ∷ 0x4C ∷ 0x45 ∷ 0x2F ∷ 0x33
        ∷ 0x2E ∷ 0x30 ∷ 0x20 ∷ 0x28 ∷ 0x63 ∷ 0x6F ∷ 0x6D ∷ 0x70 ∷ 0x61 ∷ 0x74 ∷ 0x69 ∷ 0x62 ∷ 0x6C ∷ 0x65 ∷ 0x3B ∷ 0x20 ∷ 0x72
        ∷ 0x65 ∷ 0x6C ∷ 0x61 ∷ 0x79 ∷ 0x29 ∷ 0x00 ∷ 0x05 ∷ 0x74 ∷ 0x63 ∷ 0x55 ∷ 0x72 ∷ 0x6C ∷ 0x02 ∷ 0x00 ∷ 0x1A ∷ 0x72 ∷ 0x74
        ∷ 0x6D ∷ 0x70 ∷ 0x3A ∷ 0x2F ∷ 0x2F ∷ 0x31 ∷ 0x32 ∷ 0x37 ∷ 0x2E ∷ 0x30 ∷ 0x2E ∷ 0x30 ∷ 0x2E ∷ 0x31 ∷ 0x3A ∷ 0x31 ∷ 0x39
        ∷ 0x33 ∷ 0x35 ∷ 0x2F ∷ 0x6C ∷ 0x69 ∷ 0x76 ∷ 0x65 ∷ 0x00 ∷ 0x00 ∷ 0x09 ∷ [] }
{}
