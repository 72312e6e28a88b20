ghost use Rattle.std.specs.Prelude.{◌≡◌, ℕ, ◌+◌, ◌%◌, ◌≤◌, ◌<◌, [], List, ◌++◌, length, take};
ghost use Rattle.std.specs.List.{concat, slice_index};
ghost use Rattle.rtmp_handshake.specs.Answer.{answer_of, answered};
ghost use Rattle.rtmp_handshake.specs.Feeds.{all_out, all_read};

/// The answer has 3,073 bytes, and depends on the client's first 1,537 bytes alone. S0 is 3. S1 is eight
/// zeros and 1,528 bytes, of which byte i is i modulo 251. S2 is the time of C1, four zeros, and the bytes of
/// C1 from its ninth on.
pub fn answer_law()
    ensures length { (client : List ℕ) → 1537 ≤ length client → length (answer_of client) ≡ 3073 }
    ensures alone { (client later : List ℕ) → 1537 ≤ length client → answer_of (client ++ later) ≡ answer_of client }
    ensures version { (client : List ℕ) → slice_index (answer_of client) 0 ≡ 3 }
    ensures zeros { (client : List ℕ) (i : ℕ) → i < 8 → slice_index (answer_of client) (1 + i) ≡ 0 }
    ensures random { (client : List ℕ) (i : ℕ) → i < 1528 → slice_index (answer_of client) (9 + i) ≡ i % 251 }
    ensures time { (client : List ℕ) (i : ℕ) → 1537 ≤ length client → i < 4
        → slice_index (answer_of client) (1537 + i) ≡ slice_index client (1 + i) }
    ensures when_read { (client : List ℕ) (i : ℕ) → 1537 ≤ length client → 4 ≤ i → i < 8
        → slice_index (answer_of client) (1537 + i) ≡ 0 }
    ensures echo { (client : List ℕ) (i : ℕ) → 1537 ≤ length client → 8 ≤ i → i < 1536
        → slice_index (answer_of client) (1537 + i) ≡ slice_index client (1 + i) }
{}

/// However a client's bytes are cut into pieces, the feeds of these pieces read the first 3,073 bytes. In all
/// they put out the answer if there are 1,537 bytes or more, else nothing.
pub fn cutting_law()
    ensures read { (pieces : List (List ℕ)) → all_read [] pieces ≡ take 3073 (concat pieces) }
    ensures out { (pieces : List (List ℕ)) → all_out [] pieces ≡ answered (concat pieces) }
{}
