//! The last call at each place, and the report.
ghost use Rattle.std.specs.Prelude.{◌≡◌, ◌≢◌, ◌<◌, ◌≤◌, ◌+◌, ◌++◌, ℕ, true, None, Contains, length, string_bytes, vec_len, map, IfOk, OnOk};
ghost use Rattle.std.specs.Fmt.{decimal};
ghost use Rattle.turn_gate.specs.Histories.{Begins};
ghost use Rattle.stream_registry.specs.Names.{places};
ghost use Rattle.stream_registry.specs.Gates.{told_at};
ghost use Rattle.stream_registry.specs.Roots.{Later, seen_at};
ghost use Rattle.stream_registry.specs.SharedState.{shared_rules};
ghost use Rattle.relay_serve.specs.Texts.{counts_line, told_line, place_line, lines_from};
ghost use Rattle.relay_serve.specs.Counts.{counted_if, report_lines};
ghost use Rattle.relay_serve.specs.Lasts.{AllEnd, EndsIf, IsWorn};

use av_unit::OutOfMemory;
use std::alloc::Global;
use std::sync::Wait;
use stream_core::{Call, Entry, Reply};
use stream_registry::{PlaceTable, PortFail, Shared, StreamPort};

/// The name with which the server counts.
const COUNTER: u64 = 1 << 62;

/// How many calls of a stream or an open table were answered so.
#[derive(Clone, Copy)]
pub(crate) struct Counts {
    pub began: u64,
    pub pushed: u64,
    pub ended: u64,
    pub joined: u64,
    pub skips: u64,
}

// The Count of a place. There is none if the answer was that the history is full.
fn count_one<W: Wait>(
    rt: &W,
    port: &mut Shared<PlaceTable>,
    place: u32,
) -> Result<Option<Counts>, OutOfMemory>
    requires { place < places (shared_rules port.old) }
    ensures rules { shared_rules port.new ≡ shared_rules port.old }
    ensures last { IfOk result (λ counts. EndsIf ((shared_rules port.old).limits place) counts (seen_at port.new.roots place)) }
    ensures grown { Begins (told_at port.old.roots place) (told_at port.new.roots place) }
    ensures others { (q : ℕ) → q ≢ place → seen_at port.new.roots q ≡ seen_at port.old.roots q }
{
    let mut pass = port.attach(place);
    for _ in rt.forever() {
        let entry = Entry {
            who: COUNTER,
            at: 0,
            call: Call::Count,
        };
        match port.call(place, &mut pass, entry) {
            Ok(
                Reply::Counts {
                    began,
                    pushed,
                    ended,
                    joined,
                    skips,
                },
            ) => {
                port.detach(place, pass);
                return Ok(Some(Counts {
                    began,
                    pushed,
                    ended,
                    joined,
                    skips,
                }));
            }
            Ok(_) => return Err(OutOfMemory),
            Err(PortFail::Busy(_)) => {}
            Err(PortFail::Worn(_)) => {
                port.detach(place, pass);
                return Ok(None);
            }
            Err(PortFail::OutOfMemory(_)) => return Err(OutOfMemory),
        }
    }
    unreachable!()
}

// The same. If a recorder has found the history full, no Count is taken for an answer: a history doesn't
// shrink.
fn count_as_found<W: Wait>(
    rt: &W,
    port: &mut Shared<PlaceTable>,
    place: u32,
    full: &[u32],
) -> Result<Option<Counts>, OutOfMemory>
    requires { place < places (shared_rules port.old) }
    ensures rules { shared_rules port.new ≡ shared_rules port.old }
    ensures last { IfOk result (λ counts. EndsIf ((shared_rules port.old).limits place) counts (seen_at port.new.roots place)) }
    ensures worn { Contains full.now place → IfOk result (λ counts. counts ≡ None) }
    ensures grown { Begins (told_at port.old.roots place) (told_at port.new.roots place) }
    ensures others { (q : ℕ) → q ≢ place → seen_at port.new.roots q ≡ seen_at port.old.roots q }
{
    match count_one(rt, port, place)? {
        Some(_) if full.contains(&place) => Err(OutOfMemory),
        counts => Ok(counts),
    }
}

/// The Count of each of the first places, its last call. A place whose history is full has none, and the
/// places in `full` are such.
pub(crate) fn count_all<W: Wait>(
    rt: &W,
    alloc: Global,
    port: &mut Shared<PlaceTable>,
    count: u32,
    full: &[u32],
) -> Result<Vec<Option<Counts>>, OutOfMemory>
    requires { count ≤ places (shared_rules port.old) }
    ensures rules { shared_rules port.new ≡ shared_rules port.old }
    ensures each { IfOk result (λ list. vec_len list ≡ count) }
    ensures last { IfOk result (λ list. AllEnd (shared_rules port.old).limits list.items (seen_at port.new.roots)) }
    ensures worn { IfOk result (λ list. (place : ℕ) → place < count → Contains full.now place → IsWorn list.items place) }
    ensures grown { Later (told_at port.old.roots) (told_at port.new.roots) }
{
    let mut list = Vec::new(alloc);
    for place in 0..count {
        let counts = count_as_found(rt, port, place, full)?;
        if list.push(counts).is_err() {
            return Err(OutOfMemory);
        }
    }
    Ok(list)
}

/// Whether the history of a place is full.
pub(crate) fn has_worn(list: &[Option<Counts>]) -> bool
    ensures { result ≡ true → (place : ℕ) × IsWorn list.now place }
{
    for place in 0..list.len() {
        if list[place].is_none() {
            return true;
        }
    }
    false
}

// Adds a label and a number.
fn append_number(alloc: Global, text: &mut Vec<u8>, label: &[u8], n: u64) -> Result<(), OutOfMemory>
    ensures { OnOk result (text.new.items ≡ text.old.items ++ (label.now ++ decimal n)) }
{
    text.extend_from_slice(label)?;
    text.extend_from_slice(number(alloc, n)?.as_bytes())?;
    Ok(())
}

fn number(alloc: Global, n: u64) -> Result<String, OutOfMemory>
    ensures { IfOk result (λ text. string_bytes text ≡ decimal n) }
{
    Ok(format!(in alloc; "{n}")?)
}

// Adds the counts of a place.
fn append_counts(alloc: Global, text: &mut Vec<u8>, c: Counts) -> Result<(), OutOfMemory>
    ensures { OnOk result (text.new.items ≡ text.old.items ++ counts_line c.began c.pushed c.ended c.joined c.skips) }
{
    append_number(alloc, text, b" began ", c.began)?;
    append_number(alloc, text, b" pushed ", c.pushed)?;
    append_number(alloc, text, b" ended ", c.ended)?;
    append_number(alloc, text, b" joined ", c.joined)?;
    append_number(alloc, text, b" skips ", c.skips)?;
    text.push(b'\n')?;
    Ok(())
}

// Adds the report's text about a place.
fn append_told(alloc: Global, text: &mut Vec<u8>, counts: Option<Counts>) -> Result<(), OutOfMemory>
    ensures { OnOk result (text.new.items ≡ text.old.items ++ told_line (counted_if counts)) }
{
    match counts {
        Some(counts) => append_counts(alloc, text, counts),
        None => Ok(text.extend_from_slice(b" worn\n")?),
    }
}

// Adds the line of a stream or of an open table.
fn append_line(
    alloc: Global,
    text: &mut Vec<u8>,
    word: &[u8],
    n: u64,
    counts: Option<Counts>,
) -> Result<(), OutOfMemory>
    ensures { OnOk result (text.new.items ≡ text.old.items ++ place_line word.now n (counted_if counts)) }
{
    append_number(alloc, text, word, n)?;
    append_told(alloc, text, counts)
}

// Adds a line for each of these, numbered from 0.
fn append_lines(
    alloc: Global,
    text: &mut Vec<u8>,
    word: &[u8],
    list: &[Option<Counts>],
) -> Result<(), OutOfMemory>
    ensures { OnOk result (text.new.items ≡ text.old.items ++ lines_from word.now 0 (map counted_if list.now)) }
{
    for n in 0..list.len() {
        append_line(alloc, text, word, n as u64, list[n])?;
    }
    Ok(())
}

/// The report: a line for each of the `streams` streams, and then one for each open table, by their places.
pub(crate) fn report_of(
    alloc: Global,
    list: &[Option<Counts>],
    streams: usize,
) -> Result<Vec<u8>, OutOfMemory>
    requires { streams ≤ length list.now }
    ensures { IfOk result (λ text. text.items ≡ report_lines streams list.now) }
{
    let mut text = Vec::new(alloc);
    append_lines(alloc, &mut text, b"stream ", &list[..streams])?;
    append_lines(alloc, &mut text, b"open ", &list[streams..])?;
    Ok(text)
}
