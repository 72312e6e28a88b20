ghost use Rattle.std.specs.Prelude.{ℕ, ◌+◌, ◌-◌, ◌<◌, List, [], ◌∷◌, ◌++◌, length, take};
ghost use Rattle.chunk_wire.specs.declared.message.Message.{Message};
ghost use Rattle.chunk_wire.specs.State.{State};
ghost use Rattle.chunk_reader.specs.Laws.{AreShort, IsReadOrRefused, ReadsPart, SameReading, SameStop};
ghost use Rattle.chunk_reader.specs.Reads.{Reads};
ghost use Rattle.chunk_reader.specs.Sound.{IsRead};
ghost use Rattle.chunk_reader.specs.Stops.{Stops};
ghost use Rattle.chunk_reader.specs.declared.fail.ReadCause.{ReadCause};

/// Two readings of the same bytes are one, so the cutting into pieces can't matter.
pub fn one_reading()
    ensures { (max : ℕ) (b : List ℕ) (ms ns : List (ℕ × Message)) (s t : State) (q r : List ℕ)
        → Reads max b ms s q → Reads max b ns t r → SameReading ms ns s t q r }
{}

/// A beginning of bytes that are read is read too, as the first of their messages.
pub fn beginnings_are_read()
    ensures { (max : ℕ) (b : List ℕ) (n : ℕ) (ms : List (ℕ × Message)) (s : State) (r : List ℕ) → Reads max b ms s r → ReadsPart max b n ms }
{}

/// If further bytes end a message, all bytes but the last read as the messages before it.
pub fn a_message_ends_with_its_last_byte()
    ensures { (max : ℕ) (a c : List ℕ) (ms : List (ℕ × Message)) (m : Message) (s t : State) (q r : List ℕ) → 0 < length c
        → Reads max a ms s q → Reads max (a ++ c) (ms ++ (length (a ++ c), m) ∷ []) t r
        → IsRead max (take (length (a ++ c) - 1) (a ++ c)) ms }
{}

/// If a byte is refused, no list that begins with the bytes up to it and with it is read.
pub fn refused_bytes_are_not_read()
    ensures { (max : ℕ) (b more : List ℕ) (cause : ReadCause) (place : ℕ) (ms : List (ℕ × Message)) (s : State) (r : List ℕ)
        → Stops max b cause place → Reads max (take (place + 1) b ++ more) ms s r → ⊥ }
{}

/// A list of bytes is refused at one place and for one cause.
pub fn one_refusal()
    ensures { (max : ℕ) (b : List ℕ) (c d : ReadCause) (p q : ℕ) → Stops max b c p → Stops max b d q → SameStop c d p q }
{}

/// Each list of bytes is read, or refused at a place in it.
pub fn each_is_read_or_refused()
    ensures { (max : ℕ) (b : List ℕ) → IsReadOrRefused max b }
{}

/// A refused list stays refused, for the same cause and at the same place, whatever follows it.
pub fn refused_bytes_stay_refused()
    ensures stays { (max : ℕ) (b more : List ℕ) (cause : ReadCause) (place : ℕ) → Stops max b cause place → Stops max (b ++ more) cause place }
    ensures inside { (max : ℕ) (b : List ℕ) (cause : ReadCause) (place : ℕ) → Stops max b cause place → place < length b }
{}

/// No message that is read is longer than the longest that the reader takes.
pub fn messages_are_short()
    ensures { (max : ℕ) (b : List ℕ) (ms : List (ℕ × Message)) (s : State) (r : List ℕ) → Reads max b ms s r → AreShort max ms }
{}
