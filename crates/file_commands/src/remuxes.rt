ghost use Rattle.std.specs.Prelude.{◌≡◌, ℕ, List, Some, map};
ghost use Rattle.file_commands.specs.Outcome.{Outcome, seen};
ghost use Rattle.file_commands.specs.Words.{is_remux};
ghost use Rattle.file_commands.specs.Remux.{IsWholeCode, RemuxGives, RemuxStops, RemuxCut, RemuxTold, RemuxWhole, TellsNothing};

use crate::left_out::LeftOut;
use crate::tags::Tags;
use crate::whole::convert;
use crate::words::only_word_is;
use av_unit::Bytes;
use relay_base::Status;
use relay_outside::{Sink, Source};
use std::alloc::Global;

/// The result of making a file a transport stream, and the parts of a whole file that aren't in it.
#[derive(Clone, Copy, Drop)]
pub struct Remuxed {
    pub status: Status,
    /// The number of units left out of a file that was read to its end, and why the first of these was.
    pub left_out: LeftOut,
    /// Whether a file that was read to its end has a video tag of Enhanced RTMP. Such a tag has no class, so
    /// it isn't counted.
    pub enhanced: bool,
}

// Returns the report of a file that wasn't read to its end.
fn nothing_told(status: Status) -> Remuxed
    ensures status { result.status ≡ status }
    ensures nothing { TellsNothing result }
{
    Remuxed {
        status,
        left_out: LeftOut::none(),
        enhanced: false,
    }
}

// Returns the report of a file whose reading ended with this status.
fn told(status: Status, file: &Tags) -> Remuxed
    ensures status { result.status ≡ status }
    ensures left { IsWholeCode status.code → result.left_out ≡ file.now.left_out }
    ensures enhanced { IsWholeCode status.code → result.enhanced ≡ file.now.enhanced }
    ensures nothing { (IsWholeCode status.code → ⊥) → TellsNothing result }
{
    match status.code {
        0 | 8 => Remuxed {
            status,
            left_out: file.left_out,
            enhanced: file.enhanced,
        },
        _ => nothing_told(status),
    }
}

/// Makes a transport stream (ISO/IEC 13818-1) of a file of FLV: that of a Begin and of the units of its tags.
///
/// The one word is `remux`. A tag is a unit by `class_of`. A tag without a class writes nothing and isn't
/// counted as left out. `TsWriter` documents the units that are left out, and the tables and packets of the
/// others. The code of the answer says how the command ended:
///
/// | Code | Condition | Written |
/// |---|---|---|
/// | 0 | the file was read to its end, and no unit was left out | the text of its tags |
/// | 2 | exactly if the words aren't `remux` alone; nothing is read | nothing |
/// | 3 | only if the source's faults rose | the text of the tags read, except for at most 65,535 last bytes |
/// | 4 | the file is refused at `place` | the text of the tags before |
/// | 5 | only if the sink's faults rose | a first part of the text of the tags read |
/// | 6 | memory was refused | a first part of the text of the tags read |
/// | 8 | the file was read to its end, and a unit of audio or video was left out | the text of its tags |
///
/// For code 4, `place` is that of [`flv_tags::FlvFail`], or 2^36 if the file has more bytes. Else it is 0.
pub fn remux<S: Source, K: Sink>(
    alloc: Global,
    words: &[Vec<u8>],
    input: &mut S,
    out: &mut K,
) -> Status
    ensures outcome { Outcome RemuxGives RemuxStops RemuxCut RemuxWhole (is_remux (map (λ w. w.items) words.now))
        (seen (S.left input.old) (K.holds out.old) (S.faults input.old) (K.faults out.old))
        (seen (S.left input.new) (K.holds out.new) (S.faults input.new) (K.faults out.new)) result }
    ensures untouched { result.code ≡ 2 → (input.new ≡ input.old) × (out.new ≡ out.old) }
{
    remux_and_tell(alloc, words, input, out).status
}

/// Does the same as [`remux`], and reports the parts of a file read to its end that aren't in its transport
/// stream.
pub fn remux_and_tell<S: Source, K: Sink>(
    alloc: Global,
    words: &[Vec<u8>],
    input: &mut S,
    out: &mut K,
) -> Remuxed
    ensures outcome { Outcome RemuxGives RemuxStops RemuxCut RemuxWhole (is_remux (map (λ w. w.items) words.now))
        (seen (S.left input.old) (K.holds out.old) (S.faults input.old) (K.faults out.old))
        (seen (S.left input.new) (K.holds out.new) (S.faults input.new) (K.faults out.new)) result.status }
    ensures untouched { result.status.code ≡ 2 → (input.new ≡ input.old) × (out.new ≡ out.old) }
    ensures told { IsWholeCode result.status.code → (bytes : List ℕ) → S.left input.old ≡ Some bytes → RemuxTold result.left_out result.enhanced bytes }
    ensures nothing { (IsWholeCode result.status.code → ⊥) → TellsNothing result }
{
    if !only_word_is(words, b"remux".as_slice()) {
        return nothing_told(Status { code: 2, place: 0 });
    }
    let mut text = Bytes::new(alloc);
    match Tags::new(alloc, &mut text) {
        Ok(mut file) => {
            let status = convert(alloc, &mut file, text, input, out);
            told(status, &file)
        }
        Err(_) => nothing_told(Status { code: 6, place: 0 }),
    }
}
