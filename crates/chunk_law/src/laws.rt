ghost use Rattle.std.specs.Prelude.{◌≤◌, ◌^◌, ℕ, List, length};
ghost use Rattle.chunk_wire.specs.declared.message.Message.{Message};
ghost use Rattle.chunk_law.specs.ReadBack.{AreReadable, IsReadBack};
ghost use Rattle.chunk_writer.specs.WriterKnown.{fresh};
ghost use Rattle.chunk_writer.specs.Written.{written};

/// From the fresh state of a reader, the bytes that a fresh writer writes for messages read as exactly these
/// messages. The chunk size must be set directly after each Set Chunk Size message, and at no other point.
pub fn what_is_written_is_read()
    ensures { (max : ℕ) (ms : List Message) → AreReadable max ms → length (written fresh ms) ≤ 2 ^ 62 → IsReadBack max ms }
{}
