ghost use Rattle.std.specs.Prelude.{◌≡◌, ◌<◌, ◌+◌, ◌^◌, ℕ, Bool, true, false, List, ◌++◌, Option, option_to_list};
ghost use Rattle.av_unit.specs.declared.item.Item.{Item};
ghost use Rattle.pes_packets.specs.declared.flags.PesFlags.{PesFlags};
ghost use Rattle.pes_packets.specs.Header.{header};
ghost use Rattle.pes_packets.specs.Packet.{IsTime};
ghost use Rattle.ts_writer.specs.Examples.{sound_items};
ghost use Rattle.ts_writer.specs.Frames.{Frame, clock, shown};
ghost use Rattle.ts_writer.specs.Text.{ts_text};
ghost use Rattle.ts_reader.specs.declared.unit.TsUnit.{TsUnit};
ghost use Rattle.ts_reader.specs.declared.fail.TsFail.{TsFail};
ghost use Rattle.ts_reader.specs.Mux.{Mux};
ghost use Rattle.ts_reader.specs.Reads.{EndFails, Ends, Stops};
ghost use Rattle.ts_law.specs.Packets.{IsRead, MayCarry};
ghost use Rattle.ts_law.specs.Leads.{AreDue, AreTables};
ghost use Rattle.ts_law.specs.Pes.{ArePackets, IsFrame, IsHeader, MayFollow};
ghost use Rattle.ts_law.specs.Bridge.{IsReadBack, bridge};
ghost use Rattle.ts_law.specs.Examples.{sound_units};

/// A transport packet that is written (ISO/IEC 13818-1, 2.4.3.2 to 2.4.3.5) is read with its PID, counter and payload.
pub fn a_packet_is_read()
    ensures { (pid counter : ℕ) (start : Bool) (flags : PesFlags) (b : List ℕ) → MayCarry pid counter flags b → IsRead pid counter start flags b }
{}

/// The header of a PES packet that is written (2.4.3.6) is read with its times and its length.
pub fn a_header_is_read()
    ensures sound { (time len : ℕ) → IsTime time → len < 2 ^ 16 → IsHeader false (header 0xC0 time time len) time time len 14 }
    ensures picture { (time : ℕ) → IsTime time → IsHeader true (header 0xE0 time time 0) time time 0 14 }
    ensures two_times { (pts dts : ℕ) → IsTime pts → IsTime dts → (pts ≡ dts → ⊥) → IsHeader true (header 0xE0 pts dts 0) pts dts 0 19 }
{}

/// Both tables (2.4.4), with the next counters of their PIDs, are read, and end the PES packet before them.
pub fn tables_are_read()
    ensures { (n version : ℕ) (m : Mux) (v a : Bool) (u : Option TsUnit) → AreDue m version u → AreTables n m v a version u }
{}

/// The packets of a PES packet that is written are read as that PES packet, which the next one ends.
pub fn a_pes_packet_is_read()
    ensures { (n : ℕ) (m : Mux) (f : Frame) (flags : PesFlags) (u : Option TsUnit) → IsFrame f → MayFollow m f flags u → ArePackets n m f flags u }
{}

/// The text that a writer makes of items is read, and its units are the bridged units, the last of them given
/// at the end. These are all video frames and audio frames that aren't left out, in order, with their bytes,
/// and their times in units of 1/90,000 second modulo 2^33 (2.4.3.7). The text has one reading only, and no
/// byte of it is refused.
pub fn what_is_written_is_read()
    ensures read { (items : List Item) → IsReadBack items }
    ensures only { (items : List Item) (us : List TsUnit) (u : Option TsUnit) → Ends (ts_text items) us u → us ++ option_to_list u ≡ bridge items }
    ensures not_refused { (items : List Item) (us : List TsUnit) (n : ℕ) (e : TsFail) → Stops (ts_text items) n us e → ⊥ }
    ensures not_at_end { (items : List Item) (us : List TsUnit) (e : TsFail) → EndFails (ts_text items) us e → ⊥ }
{}

/// If the milliseconds of units wrap at 2^32, the times of a transport stream go on: 90 times 2^32 is 45
/// times 2^33.
pub fn times_go_on()
    ensures decoded { (time : ℕ) → clock (time + 2 ^ 32) ≡ clock time }
    ensures presented { (time composition : ℕ) → shown (time + 2 ^ 32) composition ≡ shown time composition }
{}

/// A worked example of the definition: an AAC configuration and an audio frame give one bridged unit, with
/// the 16 bytes of its ADTS frame.
pub fn a_frame_of_sound_is_bridged()
    ensures { bridge sound_items ≡ sound_units }
{}
