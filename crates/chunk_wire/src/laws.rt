ghost use Rattle.std.specs.Prelude.{◌≡◌, ◌∷◌, ◌++◌, [], ℕ, List, replicate, Some, None};
ghost use Rattle.chunk_wire.specs.declared.headers.Head.{Head};
ghost use Rattle.chunk_wire.specs.Chunk.{after_chunk, chunk_size, header_size, message_of, opened};
ghost use Rattle.chunk_wire.specs.Examples.{basic, far_first, far_second, head, message, ping_response};
ghost use Rattle.chunk_wire.specs.Layout.{basic_of, head_of};
ghost use Rattle.chunk_wire.specs.ReadBack.{IsHead, IsShortest, ReadsBack};
ghost use Rattle.chunk_wire.specs.State.{fresh_state};

/// The bytes that `write_head` writes are read back by `read_basic` and `read_head`, whatever follows them.
pub fn heads_are_read_back()
    ensures { (h : Head) (rest : List ℕ) → IsHead h → ReadsBack h rest }
{}

/// `write_head` writes an id in the shortest form that holds it.
pub fn ids_are_written_shortest()
    ensures { (format id : ℕ) → IsShortest format id }
{}

/// Worked basic headers and message headers (5.3.1.1, 5.3.1.2).
#[tactic(auto, unfolding(crate::specs::Layout::basic_size, crate::specs::Layout::id_in, crate::specs::Layout::head_size, crate::specs::Layout::head_in))]
pub fn headers_are_read_so()
    ensures one { basic_of (0xC4 ∷ []) ≡ Some (basic 3 4, 1) }
    ensures two { basic_of (0 ∷ 0 ∷ []) ≡ Some (basic 0 64, 2) }
    ensures three { basic_of (1 ∷ 0 ∷ 0 ∷ []) ≡ Some (basic 0 64, 3) }
    ensures low_first { basic_of (1 ∷ 0 ∷ 1 ∷ []) ≡ Some (basic 0 320, 3) }
    ensures highest { basic_of (1 ∷ 0xFF ∷ 0xFF ∷ []) ≡ Some (basic 0 65599, 3) }
    ensures short { basic_of (1 ∷ 0xFF ∷ []) ≡ None }
    ensures fields { head_of (basic 0 4) (0 ∷ 0 ∷ 40 ∷ 0 ∷ 0 ∷ 200 ∷ 9 ∷ 1 ∷ 0 ∷ 0 ∷ 0 ∷ []) ≡ Some (head 0 4 40 200 9 1, 11) }
    ensures no_stream { head_of (basic 1 4) (0 ∷ 0 ∷ 40 ∷ 0 ∷ 0 ∷ 200 ∷ 9 ∷ []) ≡ Some (head 1 4 40 200 9 0, 7) }
    ensures no_length { head_of (basic 2 4) (0 ∷ 0 ∷ 40 ∷ []) ≡ Some (head 2 4 40 0 0 0, 3) }
{}

/// Worked chunks: a message whole in one chunk of format 1 on a fresh id, and one of two chunks with extended time
/// (5.3.1.3).
pub fn chunks_are_read_so()
    ensures whole { message_of fresh_state ping_response ≡ Some (message 4 0 0 (0 ∷ 7 ∷ 0 ∷ 0 ∷ 0 ∷ 5 ∷ [])) }
    ensures header { header_size fresh_state far_first ≡ 16 }
    ensures time { (opened fresh_state far_first).terms.time ≡ 16777216 }
    ensures size { chunk_size fresh_state far_first ≡ 144 }
    ensures extended { header_size (after_chunk fresh_state (far_first ++ replicate 128 0)) far_second ≡ 5 }
    ensures rest { chunk_size (after_chunk fresh_state (far_first ++ replicate 128 0)) far_second ≡ 77 }
{}
