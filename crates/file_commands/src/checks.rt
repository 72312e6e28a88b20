ghost use Rattle.std.specs.Prelude.{◌≡◌, map};
ghost use Rattle.file_commands.specs.Outcome.{Outcome, seen};
ghost use Rattle.file_commands.specs.Words.{is_check};
ghost use Rattle.file_commands.specs.Check.{CheckGives, CheckStops, CheckCut, CheckWhole};

use crate::units::Units;
use crate::whole::convert;
use crate::words::only_word_is;
use av_unit::Bytes;
use relay_base::Status;
use relay_outside::{Sink, Source};
use std::alloc::Global;

/// Prints the units of a transport stream (ISO/IEC 13818-1) of the form that `remux` writes: a line for each,
/// and their number.
///
/// The one word is `check`. A line is `video PTS DTS LEN` or `audio PTS LEN`, with times in 1/90,000 second
/// and LEN the number of bytes of the payload. The last line is `units N`. The code of the answer says how
/// the command ended:
///
/// | Code | Condition | Written |
/// |---|---|---|
/// | 0 | the stream was read to its end | the lines of its units, and their number |
/// | 2 | exactly if the words aren't `check` alone; nothing is read | nothing |
/// | 3 | only if the source's faults rose | the lines of the units read, except for at most 65,535 last bytes |
/// | 4 | the stream is refused at `place` | the lines of the units before |
/// | 5 | only if the sink's faults rose | a first part of the lines of the units read, and of their number |
/// | 6 | memory was refused | the same |
///
/// For code 4, `place` is that of [`ts_reader::TsFail`], or 2^36 if the stream has more bytes. Else it is 0.
pub fn check<S: Source, K: Sink>(
    alloc: Global,
    words: &[Vec<u8>],
    input: &mut S,
    out: &mut K,
) -> Status
    ensures outcome { Outcome CheckGives CheckStops CheckCut CheckWhole (is_check (map (λ w. w.items) words.now))
        (seen (S.left input.old) (K.holds out.old) (S.faults input.old) (K.faults out.old))
        (seen (S.left input.new) (K.holds out.new) (S.faults input.new) (K.faults out.new)) result }
    ensures never { result.code ≡ 8 → ⊥ }
    ensures untouched { result.code ≡ 2 → (input.new ≡ input.old) × (out.new ≡ out.old) }
{
    if !only_word_is(words, b"check".as_slice()) {
        return Status { code: 2, place: 0 };
    }
    let mut file = Units::new(alloc);
    convert(alloc, &mut file, Bytes::new(alloc), input, out)
}
