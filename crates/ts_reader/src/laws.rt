ghost use Rattle.std.specs.Prelude.{◌≡◌, ◌<◌, ℕ, ◌+◌, Bool, true, List, ◌++◌, take, Option, Some, Ok};
ghost use Rattle.avc_annexb.specs.Nal.{AreNals};
ghost use Rattle.avc_annexb.specs.AnnexB.{annexb};
ghost use Rattle.avc_annexb.specs.Split.{split_of};
ghost use Rattle.pes_packets.specs.Packet.{section_text};
ghost use Rattle.pes_packets.specs.Tables.{pat, pat_pid, pmt, pmt_pid};
ghost use Rattle.ts_reader.specs.declared.unit.TsUnit.{TsUnit};
ghost use Rattle.ts_reader.specs.declared.fail.TsFail.{TsFail};
ghost use Rattle.ts_reader.specs.Mux.{Mux};
ghost use Rattle.ts_reader.specs.Payloads.{is_stream};
ghost use Rattle.ts_reader.specs.Sections.{is_pat, listed_in};
ghost use Rattle.ts_reader.specs.Reads.{EndFails, Ends, Reads, Stops};
ghost use Rattle.ts_reader.specs.Laws.{ReadsPart, SameEnd, SameReading, SameStop, StreamOf, these};

/// Two readings of the same bytes are one, so the cutting into pieces can't matter.
pub fn one_reading()
    ensures { (b : List ℕ) (us vs : List TsUnit) (m n : Mux) (q r : List ℕ) → Reads b us m q → Reads b vs n r → SameReading us vs m n q r }
{}

/// If bytes are read, their first bytes are read too, as the first of the units.
pub fn beginnings_are_read()
    ensures { (b : List ℕ) (n : ℕ) (us : List TsUnit) (m : Mux) (r : List ℕ) → Reads b us m r → ReadsPart b n us }
{}

/// If a byte is refused, no list that begins with the bytes up to and including it is read.
pub fn refused_bytes_are_not_read()
    ensures { (b more : List ℕ) (e : TsFail) (n : ℕ) (us vs : List TsUnit) (m : Mux) (r : List ℕ) → Stops b n us e → Reads (take (n + 1) b ++ more) vs m r → ⊥ }
{}

/// A list of bytes is refused at one byte and in one way.
pub fn one_refusal()
    ensures { (b : List ℕ) (c d : TsFail) (m n : ℕ) (us vs : List TsUnit) → Stops b m us c → Stops b n vs d → SameStop c d m n us vs }
{}

/// Bytes after a refused packet change nothing.
pub fn refused_bytes_stay_refused()
    ensures { (b more : List ℕ) (e : TsFail) (n : ℕ) (us : List TsUnit) → Stops b n us e → Stops (b ++ more) n us e }
{}

/// Bytes give one unit at their end, or none, or are refused there.
pub fn one_end()
    ensures given { (b : List ℕ) (us vs : List TsUnit) (u v : Option TsUnit) → Ends b us u → Ends b vs v → SameEnd us vs u v }
    ensures refused { (b : List ℕ) (us vs : List TsUnit) (u : Option TsUnit) (e : TsFail) → Ends b us u → EndFails b vs e → ⊥ }
{}

/// Bytes taken for a byte stream are NAL units, each after a zero byte and a start code (ISO/IEC 14496-10,
/// annex B). Each such byte stream is taken: it is one that `split_annexb` reads.
pub fn a_byte_stream_is_nal_units()
    ensures read { (b : List ℕ) → is_stream b ≡ true → StreamOf b }
    ensures written { (units : List (List ℕ)) → AreNals units → is_stream (annexb units) ≡ true }
    ensures split { (b : List ℕ) → is_stream b ≡ true → (units : List (List ℕ)) × (split_of b ≡ Ok units) }
    ensures only { (b : List ℕ) (units : List (List ℕ)) → AreNals units → split_of b ≡ Ok units → is_stream b ≡ true }
{}

/// The packets of tables that are written are read, with any counter, and with any version and streams of a map.
pub fn written_tables_are_read()
    ensures association { (c : ℕ) → c < 16 → is_pat (section_text pat_pid c pat) ≡ true }
    ensures map { (video audio : Bool) (version c : ℕ) → version < 32 → c < 16
        → listed_in (section_text pmt_pid c (pmt video audio version)) ≡ Some (these video audio) }
{}
