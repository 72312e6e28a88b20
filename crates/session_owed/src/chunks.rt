ghost use Rattle.std.specs.Prelude.{◌≡◌, ◌≤◌, ℕ, true, false, List, ◌++◌, Option, Some};
ghost use Rattle.chunk_wire.specs.declared.message.Message.{Message};
ghost use Rattle.chunk_writer.specs.WriterKnown.{WriterKnown};
ghost use Rattle.chunk_writer.specs.InHand.{has_more};
ghost use Rattle.chunk_writer.specs.Written.{bytes_of};
ghost use Rattle.session_owed.specs.Chunks.{Hand, Pending, all_first, begin, next_chunk, pending_bytes, say_bytes};

/// Shows that pending messages may be encoded as late as they are sent, a chunk at a time: they stand for the
/// same bytes.
pub fn chunks_law()
    // A message that is begun adds its bytes.
    ensures begins { (w : WriterKnown) (m : Message) (first : List ℕ)
        → pending_bytes (begin w m first) ≡ pending_bytes (all_first first) ++ bytes_of w m }

    // The next chunk of it, and its end, change nothing.
    ensures goes_on { (first later : List ℕ) (h : Hand) → 1 ≤ h.sending.size → (h.sending.fresh ≡ true → h.sending.sent ≡ 0)
        → has_more h.sending h.body ≡ true
        → pending_bytes (next_chunk first h later) ≡ pending_bytes (record { first = first; hand = Some h; later = later }) }
    ensures ends { (first later : List ℕ) (h : Hand) → has_more h.sending h.body ≡ false
        → pending_bytes (all_first (first ++ later)) ≡ pending_bytes (record { first = first; hand = Some h; later = later }) }

    // Bytes that are said meanwhile stand after all of it.
    ensures says { (p : Pending) (b : List ℕ) → pending_bytes (say_bytes p b) ≡ pending_bytes p ++ b }

    // The first bytes are sent.
    ensures sends { (b rest later : List ℕ) (hand : Option Hand)
        → pending_bytes (record { first = b ++ rest; hand = hand; later = later })
        ≡ b ++ pending_bytes (record { first = rest; hand = hand; later = later }) }
{}
