//! The beginning of a message.
ghost use Rattle.std.specs.Prelude.{◌≡◌, ◌<◌, ◌≤◌, false};
ghost use Rattle.chunk_writer.specs.Rule.{begun_after, begun_with, delta_after, format_after, id_for, is_alike, repeats, starts_anew};
ghost use Rattle.chunk_writer.specs.Written.{IsBegun, IsHeading};

use crate::begun::EXTENDED;
use crate::{Begun, Heading};
use chunk_wire::Terms;

// Types of message: the last type of the control messages, and the others with a chunk stream apart from that
// of video.
const LAST_CONTROL: u8 = 6;

const AUDIO: u8 = 8;

const DATA: u8 = 18;

const COMMAND: u8 = 20;

/// Returns the chunk stream on which the messages of a type are written. It is 2 for control messages (types
/// 1 to 6), 3 for commands (20) and 5 for data (18). It is 6 for audio (8), and 7 for video (9) and any other.
#[tactic(auto, using(std::proofs::lemmas::Bool::Decides::nat_tests), unfolding(crate::specs::Rule::id_for))]
pub fn chunk_stream(kind: u8) -> u32
    ensures value { result ≡ id_for kind }
    ensures low { 2 ≤ result }
    ensures high { result ≤ 65599 }
{
    if kind <= LAST_CONTROL {
        return 2;
    }
    match kind {
        COMMAND => 3,
        DATA => 5,
        AUDIO => 6,
        _ => 7,
    }
}

// Tells whether a message has another message stream than the one before, or goes back in time.
#[tactic(auto, using(std::proofs::lemmas::Bool::Decides::nat_tests), unfolding(crate::specs::Rule::starts_anew))]
fn begins_anew(last: &Terms, heading: &Heading) -> bool
    ensures value { result ≡ starts_anew last.now heading.now }
    ensures forward { result ≡ false → last.now.time ≤ heading.now.time }
{
    heading.stream != last.stream || heading.time < last.time
}

// Tells whether a message has the length and type of the one before.
#[tactic(auto, using(std::proofs::lemmas::Bool::Decides::nat_tests), unfolding(crate::specs::Rule::is_alike))]
fn has_same_header(last: &Terms, heading: &Heading) -> bool
    ensures { result ≡ is_alike last.now heading.now }
{
    heading.length == last.length && heading.kind == last.kind
}

// Tells whether a message that comes after this delta may begin as the one before did.
#[tactic(auto, using(std::proofs::lemmas::Bool::Decides::nat_tests), unfolding(crate::specs::Rule::repeats))]
fn repeats_delta(last: &Begun, delta: u32) -> bool
    ensures { result ≡ repeats last.now delta }
{
    last.format > 0 && delta == last.terms.delta && delta < EXTENDED
}

// Makes the beginning of a message in this format.
fn begun_in_format(format: u8, delta: u32, heading: &Heading) -> Begun
    requires format { format < 4 }
    requires heading { IsHeading heading.now }
    ensures value { result ≡ begun_with format delta heading.now }
    ensures begun { IsBegun result }
{
    Begun {
        id: heading.id,
        format,
        terms: Terms {
            time: heading.time,
            delta,
            length: heading.length,
            kind: heading.kind,
            stream: heading.stream,
            extended: delta >= EXTENDED,
        },
    }
}

/// Makes the beginning of a message on its chunk stream, after the last one there.
#[tactic(auto, unfolding(crate::specs::Rule::format_after, crate::specs::Rule::delta_after))]
pub(crate) fn begin(last: Option<Begun>, heading: &Heading) -> Begun
    requires heading { IsHeading heading.now }
    ensures value { result ≡ begun_after last heading.now }
    ensures begun { IsBegun result }
{
    let Some(last) = last else {
        return begun_in_format(0, heading.time, heading);
    };
    if begins_anew(&last.terms, heading) {
        return begun_in_format(0, heading.time, heading);
    }
    let delta = heading.time - last.terms.time;
    if !has_same_header(&last.terms, heading) {
        return begun_in_format(1, delta, heading);
    }
    if repeats_delta(&last, delta) {
        return begun_in_format(3, delta, heading);
    }
    begun_in_format(2, delta, heading)
}
