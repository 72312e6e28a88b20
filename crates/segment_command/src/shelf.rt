//! The files of segments, in the house and in hand.
ghost use Rattle.std.specs.Prelude.{◌≡◌, ◌⊎◌, ◌≤◌, ◌<◌, ◌^◌, ◌∷◌, ℕ, List, None, length, take, drop, MatchResult, OnOk, IfOk, IfErr};
ghost use Rattle.std.specs.Option.{option_map};
ghost use Rattle.relay_outside.specs.Houses.{HouseTold, IsNewFile};
ghost use Rattle.hls_segments.specs.Playlist.{file_name};
ghost use Rattle.segment_command.specs.Shelves.{AreKept, Breaks, IsOfFile, KeepsLast, OpenFails, PutsAll, PutsPart, Settles, Stands, StandsBy, file_seen};
ghost use Rattle.segment_command.specs.declared.stop.Fault.TheVariants.{Memory};

use crate::put::put_all;
use crate::stop::Fault;
use av_unit::Bytes;
use hls_segments::file_name;
use relay_outside::{House, Sink};
use std::alloc::Global;

/// The number of pending bytes from which on they are put.
const PIECE: usize = 65_536;

/// The pending bytes of the last segment, the name of its file, and the number of segments.
#[derive(Drop)]
pub(crate) struct Pending {
    pub(crate) text: Bytes,
    pub(crate) title: Bytes,
    pub(crate) count: u64,
}

// Puts a text to the file in hand, if there is one.
fn put_last<F: Sink>(file: &mut Option<F>, text: &[u8]) -> Result<(), Fault>
    ensures { MatchResult result
        (λ _. PutsAll text.now (option_map (λ f. file_seen (F.holds f) (F.faults f)) file.old) (option_map (λ f. file_seen (F.holds f) (F.faults f)) file.new))
        (λ fault. PutsPart fault text.now (option_map (λ f. file_seen (F.holds f) (F.faults f)) file.old)
        (option_map (λ f. file_seen (F.holds f) (F.faults f)) file.new)) }
{
    match file {
        Some(last) => put_all(last, text),
        None => Ok(()),
    }
}

// Hands over the file in hand, if there is one.
fn keep_last<H: House>(house: &mut H, title: &[u8], file: &mut Option<H::File>) -> Result<(), Fault>
    ensures gone { file.new ≡ None }
    ensures kept { MatchResult result
        (λ _. KeepsLast title.now (option_map (λ f. file_seen (H.File.holds f) (H.File.faults f)) file.old) (H.told house.old) (H.told house.new))
        (λ fault. (fault ≡ Memory) × (H.told house.new ≡ H.told house.old)) }
{
    match file.take() {
        Some(last) => match house.keep(title, last) {
            Ok(()) => Ok(()),
            Err(_) => Err(Fault::Memory),
        },
        None => Ok(()),
    }
}

/// Ends the file in hand with that text.
pub(crate) fn end_last<H: House>(
    house: &mut H,
    title: &[u8],
    file: &mut Option<H::File>,
    text: &[u8],
) -> Result<(), Fault>
    ensures gone { OnOk result (file.new ≡ None) }
    ensures cause { IfErr result IsOfFile }
    ensures goes { (name : List ℕ) (list : List (List ℕ)) (count : ℕ) (start : HouseTold)
        → Stands name list text.now title.now count (option_map (λ f. file_seen (H.File.holds f) (H.File.faults f)) file.old) start (H.told house.old)
        → MatchResult result (λ _. AreKept name list start (H.told house.new))
        (λ fault. Breaks fault name list title.now (option_map (λ f. file_seen (H.File.holds f) (H.File.faults f)) file.new) start (H.told house.new)) }
{
    put_last(file, text)?;
    keep_last(house, title, file)
}

/// Hands over a file that isn't whole for its own faults, and drops one that has none. The house thus never
/// has a file without faults that isn't whole. Returns the fault in the end.
pub(crate) fn hand_over<H: House>(
    house: &mut H,
    title: &[u8],
    file: Option<H::File>,
    fault: Fault,
) -> Fault
    ensures either { (result ≡ fault) ⊎ (result ≡ Memory) }
    ensures settles { (name : List ℕ) (list : List (List ℕ)) (start : HouseTold)
        → Breaks fault name list title.now (option_map (λ f. file_seen (H.File.holds f) (H.File.faults f)) file) start (H.told house.old)
        → Settles result name list start (H.told house.new) }
{
    let Some(last) = file else {
        return fault;
    };
    match fault {
        Fault::Sink => match house.keep(title, last) {
            Ok(()) => fault,
            Err(_) => Fault::Memory,
        },
        Fault::House => fault,
        Fault::Memory => fault,
    }
}

// Opens the file of a segment.
fn open<H: House>(
    alloc: Global,
    name: &[u8],
    number: u64,
    house: &mut H,
) -> Result<(Bytes, H::File), Fault>
    ensures new { IfOk result (λ x. IsNewFile (H.File.holds x.1) (H.File.faults x.1)) }
    ensures title { IfOk result (λ x. x.0 ≡ file_name name.now number) }
    ensures house { OnOk result (H.told house.new ≡ H.told house.old) }
    ensures err { IfErr result (λ fault. OpenFails fault (H.told house.old) (H.told house.new)) }
{
    let title = file_name(alloc, name, number)?;
    match house.file(title.as_slice()) {
        Some(file) => Ok((title, file)),
        None => Err(Fault::House),
    }
}

/// Begins a segment with the pending bytes.
pub(crate) fn begin<H: House>(
    alloc: Global,
    name: &[u8],
    pending: &mut Pending,
    house: &mut H,
    file: &mut Option<H::File>,
) -> Result<(), Fault>
    ensures goes { (list : List (List ℕ)) (start : HouseTold) → AreKept name.now list start (H.told house.old) → file.old ≡ None
        → pending.old.count ≡ length list → length list < 2 ^ 63
        → MatchResult result (λ _. StandsBy name.now (pending.old.text ∷ list) pending.new
        (option_map (λ f. file_seen (H.File.holds f) (H.File.faults f)) file.new) start (H.told house.new))
        (λ fault. Breaks fault name.now (pending.old.text ∷ list) pending.new.title
        (option_map (λ f. file_seen (H.File.holds f) (H.File.faults f)) file.new) start (H.told house.new)) }
{
    let (title, new) = open(alloc, name, pending.count, house)?;
    *file = Some(new);
    pending.title = title;
    pending.count = pending.count.saturating_add(1);
    Ok(())
}

/// Puts the pending bytes if they are enough.
pub(crate) fn put_some<F: Sink>(pending: &mut Pending, file: &mut Option<F>) -> Result<(), Fault>
    ensures goes { (name : List ℕ) (list : List (List ℕ)) (start now : HouseTold)
        → StandsBy name list pending.old (option_map (λ f. file_seen (F.holds f) (F.faults f)) file.old) start now
        → MatchResult result (λ _. StandsBy name list pending.new (option_map (λ f. file_seen (F.holds f) (F.faults f)) file.new) start now)
        (λ fault. Breaks fault name list pending.new.title (option_map (λ f. file_seen (F.holds f) (F.faults f)) file.new) start now) }
{
    if pending.text.len() < PIECE {
        return Ok(());
    }
    put_last(file, pending.text.as_slice())?;
    pending.text.truncate(0);
    Ok(())
}

/// Ends a segment's file with the first bytes that are pending, and begins the next with the others.
pub(crate) fn turn<H: House>(
    alloc: Global,
    name: &[u8],
    pending: &mut Pending,
    house: &mut H,
    file: &mut Option<H::File>,
    before: usize,
) -> Result<(), Fault>
    requires within { before ≤ length pending.old.text }
    ensures goes { (list : List (List ℕ)) (start : HouseTold) → pending.old.count ≡ length list → length list < 2 ^ 63
        → Stands name.now list (take before pending.old.text) pending.old.title pending.old.count
        (option_map (λ f. file_seen (H.File.holds f) (H.File.faults f)) file.old) start (H.told house.old)
        → MatchResult result (λ _. StandsBy name.now (drop before pending.old.text ∷ list) pending.new
        (option_map (λ f. file_seen (H.File.holds f) (H.File.faults f)) file.new) start (H.told house.new))
        (λ fault. Breaks fault name.now (drop before pending.old.text ∷ list) pending.new.title
        (option_map (λ f. file_seen (H.File.holds f) (H.File.faults f)) file.new) start (H.told house.new)) }
{
    end_last(
        house,
        pending.title.as_slice(),
        file,
        &pending.text.as_slice()[..before],
    )?;
    let text = std::mem::replace(&mut pending.text, Bytes::new(alloc));
    pending.text = text.without_front(before);
    begin(alloc, name, pending, house, file)
}
