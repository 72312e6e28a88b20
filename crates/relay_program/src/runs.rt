ghost use Rattle.std.specs.Prelude.{◌≡◌, None, Some, map, true};
ghost use Rattle.file_commands.specs.Check.{CheckGives, CheckStops, CheckCut, CheckWhole};
ghost use Rattle.file_commands.specs.Outcome.{Outcome as FileOutcome, seen};
ghost use Rattle.file_commands.specs.Remux.{RemuxGives, RemuxStops, RemuxCut, RemuxWhole};
ghost use Rattle.relay_program.specs.declared.runs.Command.TheVariants.{Drill, Replay, Soak, Remux, Check};
ghost use Rattle.relay_program.specs.Commands.{command_of};
ghost use Rattle.relay_program.specs.Drill.{drill_text, outside_line};
ghost use Rattle.relay_program.specs.Outcome.{in_out, Outcome};
ghost use Rattle.relay_program.specs.Replayed.{Replayed};
ghost use Rattle.relay_program.specs.Soaked.{Soaked, units_asked};

use crate::drills::{drill, only_word_is};
use crate::replays::replay;
use crate::soaks::{soak, units_asked};
use file_commands::{check, remux};
use key_guard::Guards;
use relay_base::Status;
use relay_outside::{Sink, Source};
use std::alloc::Global;

/// A command.
#[derive(Clone, Copy)]
pub enum Command {
    /// [`drill`]
    Drill,
    /// [`replay`]
    Replay,
    /// [`soak`]
    Soak,
    /// [`remux`]
    Remux,
    /// [`check`]
    Check,
}

/// The command that the words after the program's name ask for.
pub fn command_of(words: &[Vec<u8>]) -> Option<Command>
    ensures { result ≡ command_of (map (λ w. w.items) words.now) }
{
    if only_word_is(words, b"drill".as_slice()) {
        return Some(Command::Drill);
    }
    if only_word_is(words, b"replay".as_slice()) {
        return Some(Command::Replay);
    }
    if units_asked(words).is_some() {
        return Some(Command::Soak);
    }
    if only_word_is(words, b"remux".as_slice()) {
        return Some(Command::Remux);
    }
    if only_word_is(words, b"check".as_slice()) {
        return Some(Command::Check);
    }
    None
}

/// Runs the command that the words name, which are those after the program's name. Its output by each code
/// is told at [`drill`], [`replay`], [`soak`], [`remux`] and [`check`]. A soak reads nothing. The guards
/// judge keys. The code is
///
/// - 0 if the input was read to its end, or the soak was made;
/// - 2 exactly if the words aren't those of a command: nothing is read or written;
/// - 3 only if the input's faults rose;
/// - 4 if the input is refused at `place`: that of the first line outside a script's grammar, counted from
///   1, or that of the first byte of a file that is refused, counted from 0;
/// - 5 only if the output's faults rose;
/// - 6 for want of memory, or if a session of a soak isn't idle after 1,000,000 turns;
/// - 8 for `remux` alone, if the input was read to its end and a unit of audio or video was left out.
///
/// `place` is 0 but for code 4.
pub fn run<S: Source, K: Sink>(
    alloc: Global,
    words: &[Vec<u8>],
    guards: &Guards,
    input: &mut S,
    out: &mut K,
) -> Status
    ensures drill { command_of (map (λ w. w.items) words.now) ≡ Some Drill → Outcome drill_text outside_line true
        (in_out (S.left input.old) (K.holds out.old) (S.faults input.old) (K.faults out.old))
        (in_out (S.left input.new) (K.holds out.new) (S.faults input.new) (K.faults out.new)) result }
    ensures replay { command_of (map (λ w. w.items) words.now) ≡ Some Replay → Replayed true
        (in_out (S.left input.old) (K.holds out.old) (S.faults input.old) (K.faults out.old))
        (in_out (S.left input.new) (K.holds out.new) (S.faults input.new) (K.faults out.new)) result }
    ensures soak { command_of (map (λ w. w.items) words.now) ≡ Some Soak → Soaked (units_asked (map (λ w. w.items) words.now))
        (K.holds out.old) (K.holds out.new) (K.faults out.old) (K.faults out.new) result }
    ensures soak_input { command_of (map (λ w. w.items) words.now) ≡ Some Soak → input.new ≡ input.old }
    ensures remux { command_of (map (λ w. w.items) words.now) ≡ Some Remux → FileOutcome RemuxGives RemuxStops RemuxCut RemuxWhole true
        (seen (S.left input.old) (K.holds out.old) (S.faults input.old) (K.faults out.old))
        (seen (S.left input.new) (K.holds out.new) (S.faults input.new) (K.faults out.new)) result }
    ensures check { command_of (map (λ w. w.items) words.now) ≡ Some Check → FileOutcome CheckGives CheckStops CheckCut CheckWhole true
        (seen (S.left input.old) (K.holds out.old) (S.faults input.old) (K.faults out.old))
        (seen (S.left input.new) (K.holds out.new) (S.faults input.new) (K.faults out.new)) result }
    ensures check_codes { command_of (map (λ w. w.items) words.now) ≡ Some Check → result.code ≡ 8 → ⊥ }
    ensures none { command_of (map (λ w. w.items) words.now) ≡ None → result.code ≡ 2 }
    ensures words { result.code ≡ 2 → command_of (map (λ w. w.items) words.now) ≡ None }
    ensures place { (result.code ≡ 4 → ⊥) → result.place ≡ 0 }
    ensures untouched { result.code ≡ 2 → (input.new ≡ input.old) × (out.new ≡ out.old) }
{
    match command_of(words) {
        Some(Command::Drill) => drill(alloc, words, input, out),
        Some(Command::Replay) => replay(alloc, words, guards, input, out),
        Some(Command::Soak) => soak(alloc, words, guards, out),
        Some(Command::Remux) => remux(alloc, words, input, out),
        Some(Command::Check) => check(alloc, words, input, out),
        None => Status { code: 2, place: 0 },
    }
}
