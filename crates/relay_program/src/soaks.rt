ghost use Rattle.std.specs.Prelude.{◌≡◌, ◌≤◌, map};
ghost use Rattle.std.specs.Option.{IfSome};
ghost use Rattle.relay_program.specs.Soaked.{Soaked, asked_by, units_asked};

use crate::drills::{put_all, status_of};
use key_guard::Guards;
use relay_base::Status;
use relay_outside::Sink;
use relay_script::count_of;
use relay_soak::soak_text;
use std::alloc::Global;

/// One more than the most units of a soak.
const BOUND: u64 = 100_001;

// How many units these two words ask for.
#[tactic(auto, using(crate::proofs::SoakEnds::some_below))]
fn asked_by(word: &Vec<u8>, number: &Vec<u8>) -> Option<u32>
    ensures value { result ≡ asked_by word.now.items number.now.items }
    ensures most { IfSome result (λ n. n ≤ 100000) }
{
    if word.as_slice() == b"soak".as_slice() {
        count_of(number.as_slice(), BOUND)
    } else {
        None
    }
}

// How many units the words ask for.
pub(crate) fn units_asked(words: &[Vec<u8>]) -> Option<u32>
    ensures value { result ≡ units_asked (map (λ w. w.items) words.now) }
    ensures most { IfSome result (λ n. n ≤ 100000) }
{
    match words {
        [word, number] => asked_by(word, number),
        _ => None,
    }
}

/// Runs one session that publishes and three that play over links in memory, and prints the outcome of the
/// run. It has the number of units that were published, and the number that the stream took. Of each player
/// it has the number of items it was sent, the number of its skips and the number of bytes it was sent. It
/// also has the number of bytes that all hold at the end, beside the most that they may.
///
/// The words are `soak N`, with N from 1 to 100,000 the number of units. The code of the answer tells how
/// the soak ended:
///
/// | Code | Comes | Written |
/// |---|---|---|
/// | 0 | the run was made | all |
/// | 2 | exactly if the words aren't `soak N` | nothing |
/// | 5 | only if the sink's faults rose | a first part |
/// | 6 | for want of memory, or if a session isn't idle after 1,000,000 turns | nothing, or a first part |
#[tactic(auto, using(crate::proofs::SoakEnds::soak_refused, crate::proofs::SoakEnds::soak_stopped, crate::proofs::SoakEnds::soak_finished, crate::proofs::SoakEnds::soak_unwritten))]
pub fn soak<K: Sink>(alloc: Global, words: &[Vec<u8>], guards: &Guards, out: &mut K) -> Status
    ensures outcome { Soaked (units_asked (map (λ w. w.items) words.now)) (K.holds out.old) (K.holds out.new) (K.faults out.old) (K.faults out.new) result }
    ensures untouched { result.code ≡ 2 → out.new ≡ out.old }
{
    let Some(n) = units_asked(words) else {
        return Status { code: 2, place: 0 };
    };
    let text = match soak_text(alloc, guards, n) {
        Ok(text) => text,
        Err(_) => return Status { code: 6, place: 0 },
    };
    match put_all(out, text.as_slice()) {
        Ok(()) => Status { code: 0, place: 0 },
        Err(fail) => status_of(fail),
    }
}
