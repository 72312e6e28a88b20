ghost use Rattle.std.specs.Prelude.{◌≡◌, ◌≤◌, ℕ, true, false, [], ◌∷◌, ◌++◌, List};
ghost use Rattle.chunk_wire.specs.declared.message.Message.{Message};
ghost use Rattle.chunk_writer.specs.WriterKnown.{WriterKnown};
ghost use Rattle.chunk_writer.specs.Rule.{begun_in};
ghost use Rattle.chunk_writer.specs.Written.{after_all, bytes_of, next, written};
ghost use Rattle.chunk_writer.specs.InHand.{InHand, after_chunk, chunk_of, has_more, in_hand, left_of};

/// The bytes of further messages stand after those of the messages before them.
pub fn writing_goes_on()
    ensures joined { (w : WriterKnown) (a b : List Message) → written w (a ++ b) ≡ written w a ++ written (after_all w a) b }
    ensures after_joined { (w : WriterKnown) (a b : List Message) → after_all w (a ++ b) ≡ after_all (after_all w a) b }
    ensures bytes { (w : WriterKnown) (ms : List Message) (m : Message) → written w (ms ++ m ∷ []) ≡ written w ms ++ bytes_of (after_all w ms) m }
    ensures after { (w : WriterKnown) (ms : List Message) (m : Message) → after_all w (ms ++ m ∷ []) ≡ next (after_all w ms) m }
{}

/// The chunks of a message that is begun on the chunk stream of its type are the bytes that `put` writes.
pub fn chunks_are_those_of_put()
    // Before the first chunk all chunks are left.
    ensures all { (w : WriterKnown) (m : Message) → left_of (in_hand w.size (begun_in w.said m)) m.body ≡ bytes_of w m }

    // A chunk stands before the chunks that are left after it.
    ensures more { (h : InHand) (body : List ℕ) → 1 ≤ h.size → (h.fresh ≡ true → h.sent ≡ 0) → has_more h body ≡ true
        → chunk_of h body ++ left_of (after_chunk h body) body ≡ left_of h body }

    // In the end nothing is left.
    ensures none { (h : InHand) (body : List ℕ) → has_more h body ≡ false → left_of h body ≡ [] }
{}
