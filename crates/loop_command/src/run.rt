//! `loop`: a film through the relay and back.
ghost use Rattle.std.specs.Prelude.{◌≡◌, ◌↔◌, ◌≤◌, ◌^◌, ℕ, List, map, true, false, IfErr, OnOk, MatchResult};
ghost use Rattle.std.specs.declared.option.Option.{Option};
ghost use Rattle.file_commands.specs.Outcome.{seen};
ghost use Rattle.flv_tags.specs.declared.tag.Tag.{Tag as ATag};
ghost use Rattle.loop_command.specs.Course.{rounds_of};
ghost use Rattle.loop_command.specs.Outcome.{Ends, Outcome, status_of};
ghost use Rattle.loop_command.specs.Rounds.{AreWritable, EndsFilm, EndsWith, IsRun, IsSettled, IsSound, PartBy, RunsBy, SinkCause, how_of};
ghost use Rattle.loop_command.specs.Words.{is_loop};

use crate::ending::{finish, is_settled, settled_law};
use crate::film::{Reading, read_film};
use crate::rounds::{Run, new_run, round};
use crate::stop::Stop;
use crate::words::is_loop;
use relay_base::Status;
use relay_outside::{Sink, Source};
use std::alloc::Global;

/// The rounds of a film without bytes.
const FIRST_ROUNDS: u64 = 4_096;

// The number of rounds of a film with that number of bytes.
fn rounds_of(bytes: u64) -> u64
    requires { bytes ≤ 2 ^ 28 }
    ensures { result ≡ rounds_of bytes }
{
    FIRST_ROUNDS + 2 * bytes
}

// Rounds until the run is settled.
fn run_all<K: Sink>(alloc: Global, run: &mut Run, rounds: u64, out: &mut K) -> Result<(), Stop>
    requires sound { IsSound run.old }
    ensures sound { OnOk result (IsSound run.new) }
    ensures settled { OnOk result (IsSettled run.new) }
    ensures goes { (file : List ATag) (held : Option (List ℕ)) → IsRun file run.old held (K.holds out.old)
        → RunsBy result file run.old run.new rounds held (K.holds out.new) }
    ensures part { (file : List ATag) (held : Option (List ℕ)) → IsRun file run.old held (K.holds out.old)
        → IfErr result (λ stop. PartBy stop run.old rounds held (K.holds out.new)) }
    ensures faults { MatchResult result (λ _. K.faults out.new ≡ K.faults out.old) (λ stop. SinkCause stop (K.faults out.old) (K.faults out.new)) }
{
    let mut left = rounds;
    while left > 0 {
        left -= 1;
        round(alloc, run, out)?;
        if is_settled(run) {
            settled_law(run);
            return Ok(());
        }
    }
    Err(Stop::Unfinished)
}

// A run until it is settled, and its ending.
fn run_whole<K: Sink>(alloc: Global, run: &mut Run, rounds: u64, out: &mut K) -> Result<(), Stop>
    requires sound { IsSound run.old }
    ensures { (held : Option (List ℕ)) → EndsWith result run.old rounds held (K.holds out.old) (K.holds out.new) (K.faults out.old) (K.faults out.new) }
{
    match run_all(alloc, run, rounds, out) {
        Ok(()) => finish(alloc, run),
        Err(stop) => Err(stop),
    }
}

// A film that was read goes through the relay.
fn run_film<K: Sink>(alloc: Global, film: Reading, out: &mut K) -> Result<(), Stop>
    requires short { film.bytes ≤ 2 ^ 28 }
    requires writable { AreWritable film.tags.items }
    ensures { EndsFilm result film (K.holds out.old) (K.holds out.new) (K.faults out.old) (K.faults out.new) }
{
    let Reading { tags, bytes } = film;
    let rounds = rounds_of(bytes);
    match new_run(alloc, tags) {
        Ok(mut run) => {
            let how = run_whole(alloc, &mut run, rounds, out);
            drop(run);
            how
        }
        Err(stop) => Err(stop),
    }
}

// The film goes through the relay.
fn loop_film<S: Source, K: Sink>(alloc: Global, input: &mut S, out: &mut K) -> Result<(), Stop>
    ensures { Ends (how_of result)
        (seen (S.left input.old) (K.holds out.old) (S.faults input.old) (K.faults out.old))
        (seen (S.left input.new) (K.holds out.new) (S.faults input.new) (K.faults out.new)) }
{
    match read_film(alloc, input) {
        Ok(film) => run_film(alloc, film, out),
        Err(stop) => Err(stop),
    }
}

fn status_of(run: Result<(), Stop>) -> Status
    ensures { result ≡ status_of (how_of run) }
{
    match run {
        Ok(()) => Status { code: 0, place: 0 },
        Err(Stop::Source) => Status { code: 3, place: 0 },
        Err(Stop::Refused { at }) => Status { code: 4, place: at },
        Err(Stop::Sink) => Status { code: 5, place: 0 },
        Err(Stop::Memory) => Status { code: 6, place: 0 },
        Err(Stop::Unfinished) => Status { code: 9, place: 0 },
    }
}

/// Sends a film of FLV (annex E of Adobe's FLV 10.1) through the relay, and writes the film that comes
/// back, as FLV.
///
/// The word is `loop`. The film has at most 2^28 bytes, and is read first. Then one client publishes it at
/// a session of the relay, and another plays it at a second session, over one stream; they take turns on
/// this thread until the stream is over. The output is written as it comes. The answer's code tells how it
/// ended:
///
/// | Code | Comes | Written |
/// |---|---|---|
/// | 0 | the film came back: its units were pushed, and the player missed none up to the stream's end | the header, and the tags that the player was sent |
/// | 2 | exactly if the words are others; nothing is read | nothing |
/// | 3 | only if the source's faults rose | nothing |
/// | 4 | the film is refused at `place`: at that of [`flv_tags::FlvFail`], or at 2^28 if it has more bytes | nothing |
/// | 5 | only if the sink's faults rose | a first part of the header and the tags that had come |
/// | 6 | for want of memory | the same |
/// | 9 | the run hasn't come to its end within 4,096 rounds and two for each byte of the film, or the player missed units | the tags that came |
///
/// `place` is 0 but for code 4.
pub fn loop_run<S: Source, K: Sink>(
    alloc: Global,
    words: &[Vec<u8>],
    input: &mut S,
    out: &mut K,
) -> Status
    ensures words { (result.code ≡ 2) ↔ (is_loop (map (λ w. w.items) words.now) ≡ false) }
    ensures untouched { result.code ≡ 2 → (input.new ≡ input.old) × (out.new ≡ out.old) }
    ensures outcome { is_loop (map (λ w. w.items) words.now) ≡ true → Outcome
        (seen (S.left input.old) (K.holds out.old) (S.faults input.old) (K.faults out.old))
        (seen (S.left input.new) (K.holds out.new) (S.faults input.new) (K.faults out.new)) result }
{
    if !is_loop(words) {
        return Status { code: 2, place: 0 };
    }
    status_of(loop_film(alloc, input, out))
}
