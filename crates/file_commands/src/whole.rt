//! Reading a file to its end.
ghost use Rattle.std.specs.Prelude.{◌≡◌, ◌≤◌, ◌<◌, ◌+◌, ◌^◌, ◌++◌, ℕ, List, [], length, Option, Some, MatchResult, OnOk, true};
ghost use Rattle.put_text.specs.Written.{Writes};
ghost use Rattle.file_commands.specs.Outcome.{Outcome, WritesAll, most_pending, seen};
ghost use Rattle.file_commands.specs.Remux.{IsWholeCode};
ghost use Rattle.file_commands.specs.Parts.{PutFails, PieceFails, TakeFails, EndFails, IsRead, FileFails, SinkCause, SinkFaults, SourceFaults, Settles, SettlesFaults, WasTold, status_of, whole_status};

use crate::convert::Convert;
use crate::fail::Fail;
use crate::put::put_all;
use av_unit::Bytes;
use relay_base::Status;
use relay_outside::{Got, Sink, Source};
use std::alloc::Global;

/// The largest number of bytes of a file that are read.
const MOST_BYTES: u64 = 1 << 36;

/// The number of bytes asked of a source at a time, and the number of written bytes from which on they are
/// put.
const PIECE: usize = 65_536;

// Puts the text if it has grown enough.
fn put_some<K: Sink>(out: &mut K, text: &mut Bytes) -> Result<(), Fail>
    ensures goes { (given : List ℕ) (before : Option (List ℕ)) → Writes given text.old before (K.holds out.old)
        → MatchResult result (λ _. Writes given text.new before (K.holds out.new)) (λ fail. PutFails fail given before (K.holds out.new)) }
    ensures short { OnOk result (length text.new < most_pending) }
    ensures faults { MatchResult result (λ _. K.faults out.new ≡ K.faults out.old) (λ fail. SinkCause fail (K.faults out.old) (K.faults out.new)) }
{
    if text.len() < PIECE {
        return Ok(());
    }
    put_all(out, text.as_slice())?;
    text.truncate(0);
    Ok(())
}

// Takes a piece.
fn take_piece<C: Convert, K: Sink>(
    alloc: Global,
    file: &mut C,
    text: &mut Bytes,
    piece: &[u8],
    out: &mut K,
) -> Result<(), Fail>
    requires fits { C.fits file.old }
    requires near { length (C.fed file.old) + length piece.now ≤ 2 ^ 36 }
    ensures fits { OnOk result (C.fits file.new) }
    ensures fed { OnOk result (C.fed file.new ≡ C.fed file.old ++ piece.now) }
    ensures goes { (before : Option (List ℕ)) → Writes (C.given file.old) text.old before (K.holds out.old)
        → MatchResult result (λ _. Writes (C.given file.new) text.new before (K.holds out.new))
        (λ fail. PieceFails C.gives C.stops fail (C.fed file.old ++ piece.now) text.new before (K.holds out.new)) }
    ensures short { length text.old < most_pending → OnOk result (length text.new < most_pending) }
    ensures faults { MatchResult result (λ _. K.faults out.new ≡ K.faults out.old) (λ fail. SinkCause fail (K.faults out.old) (K.faults out.new)) }
{
    let mut left = piece;
    while !left.is_empty() {
        let used = file.step(alloc, left, text)?;
        put_some(out, text)?;
        left = &left[used..];
    }
    Ok(())
}

// Takes a piece, or the part of it that is read. `place` is the number of bytes before the piece.
fn take_within<C: Convert, K: Sink>(
    alloc: Global,
    file: &mut C,
    text: &mut Bytes,
    place: u64,
    piece: &[u8],
    out: &mut K,
) -> Result<(), Fail>
    requires fits { C.fits file.old }
    requires place { place ≡ length (C.fed file.old) }
    requires near { place ≤ 2 ^ 36 }
    ensures fits { OnOk result (C.fits file.new) }
    ensures near { OnOk result (place + length piece.now ≤ 2 ^ 36) }
    ensures fed { OnOk result (C.fed file.new ≡ C.fed file.old ++ piece.now) }
    ensures goes { (before : Option (List ℕ)) → Writes (C.given file.old) text.old before (K.holds out.old)
        → MatchResult result (λ _. Writes (C.given file.new) text.new before (K.holds out.new))
        (λ fail. TakeFails C.gives C.stops fail (C.fed file.old ++ piece.now) text.new before (K.holds out.new)) }
    ensures short { length text.old < most_pending → OnOk result (length text.new < most_pending) }
    ensures faults { MatchResult result (λ _. K.faults out.new ≡ K.faults out.old) (λ fail. SinkCause fail (K.faults out.old) (K.faults out.new)) }
{
    let room = MOST_BYTES - place;
    if piece.len() as u64 <= room {
        return take_piece(alloc, file, text, piece, out);
    }
    take_piece(alloc, file, text, &piece[..room as usize], out)?;
    Err(Fail::Refused { at: MOST_BYTES })
}

// Ends the file.
fn end<C: Convert, K: Sink>(
    alloc: Global,
    file: &mut C,
    text: &mut Bytes,
    out: &mut K,
) -> Result<bool, Fail>
    requires fits { C.fits file.old }
    requires near { length (C.fed file.old) ≤ 2 ^ 36 }
    ensures ends { (before : Option (List ℕ)) → Writes (C.given file.old) text.old before (K.holds out.old)
        → MatchResult result (λ some_out. WritesAll C.whole (C.fed file.old) some_out before (K.holds out.new))
        (λ fail. EndFails C.gives C.cut C.whole fail (C.fed file.old) text.new before (K.holds out.new)) }
    ensures told { OnOk result (C.told file.new (C.fed file.old)) }
    ensures faults { MatchResult result (λ _. K.faults out.new ≡ K.faults out.old) (λ fail. SinkCause fail (K.faults out.old) (K.faults out.new)) }
{
    let some_out = file.finish(alloc, text)?;
    put_all(out, text.as_slice())?;
    Ok(some_out)
}

// Reads a file to its end, with this piece at a time.
fn read_all<C: Convert, S: Source, K: Sink>(
    alloc: Global,
    file: &mut C,
    text: &mut Bytes,
    piece: &mut [u8],
    input: &mut S,
    out: &mut K,
) -> Result<bool, Fail>
    requires fits { C.fits file.old }
    requires fresh { C.fed file.old ≡ [] }
    requires text { text.old ≡ C.given file.old }
    requires short { length text.old < most_pending }
    requires room { 0 < length piece.old }
    ensures ends { MatchResult result
        (λ some_out. IsRead C.gives C.stops C.cut C.whole some_out (S.left input.old) (S.left input.new) (K.holds out.old) (K.holds out.new))
        (λ fail. FileFails C.gives C.stops C.cut C.whole fail (S.left input.old) (S.left input.new) text.new (K.holds out.old) (K.holds out.new)) }
    ensures told { OnOk result (WasTold C.told file.new (S.left input.old) (S.left input.new)) }
    ensures source { MatchResult result (λ _. S.faults input.new ≡ S.faults input.old)
        (λ fail. SourceFaults fail (S.faults input.old) (S.faults input.new)) }
    ensures sink { MatchResult result (λ _. K.faults out.new ≡ K.faults out.old) (λ fail. SinkFaults fail (K.faults out.old) (K.faults out.new)) }
{
    let mut place = 0u64;
    loop {
        match input.get(piece) {
            Got::Bytes(count) => {
                take_within(alloc, file, text, place, &piece[..count], out)?;
                place += count as u64;
            }
            Got::End => return end(alloc, file, text, out),
            Got::Failed => return Err(Fail::SourceFault),
        }
    }
}

// Reads a file to its end.
fn read_file<C: Convert, S: Source, K: Sink>(
    alloc: Global,
    file: &mut C,
    text: &mut Bytes,
    input: &mut S,
    out: &mut K,
) -> Result<bool, Fail>
    requires fits { C.fits file.old }
    requires fresh { C.fed file.old ≡ [] }
    requires text { text.old ≡ C.given file.old }
    requires short { length text.old < most_pending }
    ensures ends { MatchResult result
        (λ some_out. IsRead C.gives C.stops C.cut C.whole some_out (S.left input.old) (S.left input.new) (K.holds out.old) (K.holds out.new))
        (λ fail. FileFails C.gives C.stops C.cut C.whole fail (S.left input.old) (S.left input.new) text.new (K.holds out.old) (K.holds out.new)) }
    ensures told { OnOk result (WasTold C.told file.new (S.left input.old) (S.left input.new)) }
    ensures source { MatchResult result (λ _. S.faults input.new ≡ S.faults input.old)
        (λ fail. SourceFaults fail (S.faults input.old) (S.faults input.new)) }
    ensures sink { MatchResult result (λ _. K.faults out.new ≡ K.faults out.old) (λ fail. SinkFaults fail (K.faults out.old) (K.faults out.new)) }
{
    let Ok(mut piece) = vec![in alloc; 0u8; PIECE] else {
        return Err(Fail::OutOfMemory);
    };
    read_all(alloc, file, text, &mut piece, input, out)
}

// Returns the failure in the end. If the file is refused, the pending text is put first.
fn settle<K: Sink>(fail: Fail, text: &[u8], out: &mut K) -> Fail
    ensures settles { Settles fail result text.now (K.holds out.old) (K.holds out.new) }
    ensures faults { SettlesFaults fail result (K.faults out.old) (K.faults out.new) }
{
    let Fail::Refused { at: _ } = fail else {
        return fail;
    };
    match put_all(out, text) {
        Ok(()) => fail,
        Err(last) => last,
    }
}

fn status_of(fail: Fail) -> Status
    ensures { result ≡ status_of fail }
{
    match fail {
        Fail::Refused { at } => Status { code: 4, place: at },
        Fail::SourceFault => Status { code: 3, place: 0 },
        Fail::SinkFault => Status { code: 5, place: 0 },
        Fail::OutOfMemory => Status { code: 6, place: 0 },
    }
}

fn whole_status(some_out: bool) -> Status
    ensures { result ≡ whole_status some_out }
{
    let code = if some_out { 8 } else { 0 };
    Status { code, place: 0 }
}

/// Reads a file to its end, and writes its text.
pub(crate) fn convert<C: Convert, S: Source, K: Sink>(
    alloc: Global,
    file: &mut C,
    mut text: Bytes,
    input: &mut S,
    out: &mut K,
) -> Status
    requires fits { C.fits file.old }
    requires fresh { C.fed file.old ≡ [] }
    requires text { text ≡ C.given file.old }
    requires short { length text < most_pending }
    ensures outcome { Outcome C.gives C.stops C.cut C.whole true
        (seen (S.left input.old) (K.holds out.old) (S.faults input.old) (K.faults out.old))
        (seen (S.left input.new) (K.holds out.new) (S.faults input.new) (K.faults out.new)) result }
    ensures left_out { result.code ≡ 8 → (read : List ℕ) × (text : List ℕ) × C.whole read true text }
    ensures told { IsWholeCode result.code → (bytes : List ℕ) → S.left input.old ≡ Some bytes → C.told file.new bytes }
{
    match read_file(alloc, file, &mut text, input, out) {
        Ok(some_out) => whole_status(some_out),
        Err(fail) => status_of(settle(fail, text.as_slice(), out)),
    }
}
