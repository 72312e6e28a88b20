//! The steps after the workers: ports are gathered, recorders take the remaining items and leave, files are
//! kept and doors shut.
ghost use Rattle.std.specs.Prelude.{◌≡◌, ◌+◌, ◌≤◌, ℕ, Bool, List, [], ◌∷◌, true, false, All, Contains, None, Some, map, vec_len, IfOk, option_map};
ghost use Rattle.std.specs.List.{range_with_len};
ghost use Rattle.relay_outside.specs.Doors.{with_one};
ghost use Rattle.relay_outside.specs.Houses.{kept_file, shut_door};
ghost use Rattle.relay_serve.specs.Recorded.{HasLeft, IsRecorded, IsSettled, Records, starved, worn_out};
ghost use Rattle.relay_serve.specs.Recordings.{file_name, recordings_of, recordings_upto};
ghost use Rattle.relay_serve.specs.Settling.{IsBalanced, IsLeft, IsServing, IsShut, TellsMore};
ghost use Rattle.relay_serve.specs.Starts.{HasRules, HasTally, IsFiledBy};
ghost use Rattle.relay_worker.specs.Filed.{sink_of, state_of};
ghost use Rattle.relay_worker.specs.Running.{EachAt, HasRun, label_of};
ghost use Rattle.stream_registry.specs.Gates.{numbers, told_at};
ghost use Rattle.stream_registry.specs.Roots.{Later};
ghost use Rattle.stream_registry.specs.SharedState.{shared_rules};

use crate::starting::{ServeRecorder, ServeWorker};
use av_unit::OutOfMemory;
use media_recorder::{RecEnd, RecTurn};
use relay_config::{Config, PlaceRule};
use relay_outside::{Door, House, Rest, Sink};
use relay_worker::{Parted, RecordingForm};
use std::alloc::Global;
use std::sync::Wait;
use stream_registry::{PlaceTable, Shared};

/// The remains of a worker.
#[derive(Drop)]
pub(crate) struct Left<D: Door, K: Sink> {
    pub number: u32,
    pub door: D,
    pub recorders: Vec<ServeRecorder<K>>,
}

/// The remains of all workers, whether one of them lacked memory, and whether a session found the history
/// of its stream full.
#[derive(Drop)]
pub(crate) struct AllLeft<D: Door, K: Sink> {
    pub list: Vec<Left<D, K>>,
    pub refused: bool,
    pub worn: bool,
}

// Takes a worker apart, whose port is gathered into the first. Whether it lacked memory, and whether a
// session found the history of its stream full.
fn take_apart<D: Door, R: Rest, K: Sink>(
    config: &Config,
    first: &mut Shared<PlaceTable>,
    worker: ServeWorker<D, R, K>,
    number: u32,
) -> (Left<D, K>, bool, bool)
    requires run { HasRun D.told worker }
    requires rules { HasRules (shared_rules first.old) worker.bench.port }
    requires serving { IsServing config.now D.Link.told D.Link.counts D.told K.holds K.faults number worker }
    ensures rules { shared_rules first.new ≡ shared_rules first.old }
    ensures grown { Later (told_at first.old.roots) (told_at first.new.roots) }
    ensures number { result.0.number ≡ number }
    ensures left { IsLeft config.now K.holds K.faults (shared_rules first.old) number (D.told result.0.door) result.0.recorders.items }
    ensures balanced { result.1 ≡ false
        → IsBalanced config.now (shared_rules first.old).limits (told_at first.new.roots) result.2 number (D.told result.0.door) }
{
    let _ = config;
    let finished = worker.finish();
    first.gather(finished.port);
    let left = Left {
        number,
        door: finished.door,
        recorders: finished.recorders,
    };
    (left, finished.refused, finished.worn)
}

/// Takes all workers apart, the last first. Their ports are gathered into the first.
pub(crate) fn take_all_apart<D: Door, R: Rest, K: Sink>(
    alloc: Global,
    config: &Config,
    first: &mut Shared<PlaceTable>,
    mut workers: Vec<ServeWorker<D, R, K>>,
) -> Result<AllLeft<D, K>, OutOfMemory>
    requires few { vec_len workers ≤ 16 }
    requires run { All (λ x. HasRun D.told x) workers.items }
    requires rules { All (λ x. HasRules (shared_rules first.old) x.bench.port) workers.items }
    requires serving { EachAt (IsServing config.now D.Link.told D.Link.counts D.told K.holds K.faults) workers.items }
    ensures rules { shared_rules first.new ≡ shared_rules first.old }
    ensures grown { Later (told_at first.old.roots) (told_at first.new.roots) }
    ensures each { IfOk result (λ all. vec_len all.list ≡ vec_len workers) }
    ensures numbered { IfOk result (λ all. EachAt (λ i l. l.number + i + 1 ≡ vec_len workers) all.list.items) }
    ensures left { IfOk result (λ all.
        All (λ l. IsLeft config.now K.holds K.faults (shared_rules first.old) l.number (D.told l.door) l.recorders.items) all.list.items) }
    ensures balanced { IfOk result (λ all. all.refused ≡ false
        → All (λ l. IsBalanced config.now (shared_rules first.old).limits (told_at first.new.roots) all.worn l.number (D.told l.door)) all.list.items) }
{
    let mut list = Vec::new(alloc);
    let mut refused = false;
    let mut worn = false;
    while let Some(worker) = workers.pop() {
        let number = workers.len() as u32;
        let (left, lacked, found) = take_apart(config, first, worker, number);
        refused |= lacked;
        worn |= found;
        if list.push(left).is_err() {
            return Err(OutOfMemory);
        }
    }
    Ok(AllLeft {
        list,
        refused,
        worn,
    })
}

// Turns the recorder until its stream has nothing more for it, or it has ended. Why it has.
fn settle<W: Wait, K: Sink>(
    rt: &W,
    port: &mut Shared<PlaceTable>,
    recorder: &mut ServeRecorder<K>,
) -> Option<RecEnd>
    requires filed { IsFiledBy (shared_rules port.old) recorder.old }
    requires tally { HasTally K.holds K.faults recorder.old }
    ensures filed { IsFiledBy (shared_rules port.old) recorder.new }
    ensures tally { HasTally K.holds K.faults recorder.new }
    ensures label { label_of recorder.new ≡ label_of recorder.old }
    ensures rules { shared_rules port.new ≡ shared_rules port.old }
    ensures grown { Later (told_at port.old.roots) (told_at port.new.roots) }
    ensures settled { IsSettled (λ p. numbers p.seen p.mine) (told_at port.old.roots (state_of recorder.old).seat.place) result (state_of recorder.new) }
{
    for _ in rt.forever() {
        match recorder.turn(port) {
            RecTurn::Moved => {}
            RecTurn::Busy => {}
            RecTurn::Idle => return None,
            RecTurn::Ended(end) => return Some(end),
        }
    }
    unreachable!()
}

// Whether a recorder has ended for want of memory.
fn is_starved(end: Option<RecEnd>) -> bool
    ensures { result ≡ starved end }
{
    match end {
        Some(RecEnd::OutOfMemory) => true,
        Some(RecEnd::SinkFault) => false,
        Some(RecEnd::Full) => false,
        Some(RecEnd::Worn) => false,
        None => false,
    }
}

// Whether a recorder has ended as the history of its stream was full.
fn is_worn(end: Option<RecEnd>) -> bool
    ensures { result ≡ worn_out end }
{
    match end {
        Some(RecEnd::Worn) => true,
        Some(RecEnd::SinkFault) => false,
        Some(RecEnd::Full) => false,
        Some(RecEnd::OutOfMemory) => false,
        None => false,
    }
}

// Whether a recorder that hasn't ended joined before its stream had an item.
fn is_first(end: Option<RecEnd>, from: Option<u64>) -> bool
    ensures { result ≡ true → end ≡ None → from ≡ Some 0 }
{
    match (end, from) {
        (None, Some(from)) => from == 0,
        (None, None) => false,
        (Some(_), _) => true,
    }
}

// The recorder leaves its stream, and gives its file. Whether it has left: nobody else has a pass then, so
// that it isn't busy, but there may be no memory for the call.
fn part<K: Sink>(port: &mut Shared<PlaceTable>, recorder: ServeRecorder<K>) -> (K, bool)
    requires { IsFiledBy (shared_rules port.old) recorder }
    ensures rules { shared_rules port.new ≡ shared_rules port.old }
    ensures grown { Later (told_at port.old.roots) (told_at port.new.roots) }
    ensures file { result.0 ≡ sink_of recorder }
    ensures left { result.1 ≡ true → HasLeft (λ p. numbers p.seen p.mine) ((shared_rules port.old).limits (state_of recorder).seat.place)
        (told_at port.new.roots (state_of recorder).seat.place) (state_of recorder) }
{
    match recorder.leave(port) {
        Parted::Done(file) => (file, true),
        Parted::Busy(recorder) => (recorder.into_file(), false),
        Parted::OutOfMemory(recorder) => (recorder.into_file(), false),
    }
}

// The outcome of a recorder: its file, whether there was memory for all of it and it was there from the
// first item on, and whether the history of its stream was full.
#[derive(Drop)]
struct Outcome<K: Sink> {
    file: K,
    whole: bool,
    worn: bool,
}

// Lets the recorder take the remaining items of its stream, and leave.
fn finish<W: Wait, K: Sink>(
    rt: &W,
    port: &mut Shared<PlaceTable>,
    mut recorder: ServeRecorder<K>,
) -> Outcome<K>
    requires filed { IsFiledBy (shared_rules port.old) recorder }
    requires tally { HasTally K.holds K.faults recorder }
    ensures rules { shared_rules port.new ≡ shared_rules port.old }
    ensures grown { Later (told_at port.old.roots) (told_at port.new.roots) }
    ensures records { result.whole ≡ true → (bytes : List ℕ) → K.holds result.file ≡ Some bytes
        → Records (shared_rules port.old).limits (told_at port.old.roots) (told_at port.new.roots) (λ _. result.worn ≡ true) (label_of recorder) bytes
        (K.faults result.file) }
{
    let end = settle(rt, port, &mut recorder);
    recorder.law();
    let first = is_first(end, recorder.joined_from());
    let (file, left) = part(port, recorder);
    let spared = !is_starved(end);
    Outcome {
        file,
        whole: left & spared & first,
        worn: is_worn(end),
    }
}

// The name of the file of the stream at a place.
fn file_name(places: &[PlaceRule], place: u32, form: RecordingForm) -> Option<&[u8]>
    ensures { option_map (λ name. name.now) result ≡ file_name places.now place form }
{
    let rule = places.get(place as usize)?;
    let name = match form {
        RecordingForm::Flv => rule.flv.as_ref(),
        RecordingForm::Ts => rule.ts.as_ref(),
    };
    Some(name?.as_slice())
}

// Hands a file to the house, under the name of its recording. Whether there was memory for it.
fn keep<H: House>(
    house: &mut H,
    places: &[PlaceRule],
    place: u32,
    form: RecordingForm,
    file: H::File,
) -> bool
    ensures faults { (H.told house.new).faults ≡ (H.told house.old).faults }
    ensures asked { H.asked house.new ≡ H.asked house.old }
    ensures named { H.named house.new ≡ H.named house.old }
    ensures shut { (H.told house.new).shut ≡ (H.told house.old).shut }
    ensures kept { result ≡ true → (name : List ℕ) × (file_name places.now place form ≡ Some name)
        × ((H.told house.new).kept ≡ with_one (H.told house.old).kept (kept_file name (H.File.holds file) (H.File.faults file))) }
{
    let Some(name) = file_name(places, place, form) else {
        return false;
    };
    house.keep(name, file).is_ok()
}

// Notes that the history of the stream at a place is full, if it is. Returns whether there was memory for
// that.
fn note(full: &mut Vec<u32>, place: u32, worn: bool) -> bool
    ensures kept { (q : ℕ) → Contains full.old.items q → Contains full.new.items q }
    ensures noted { result ≡ true → worn ≡ true → Contains full.new.items place }
{
    if !worn {
        return true;
    }
    full.push(place).is_ok()
}

// Takes the recorder's last turns, after which its file is kept. Returns whether there was memory for all
// of it. If its stream's history was full, that is noted.
fn end_recorder<W: Wait, H: House>(
    rt: &W,
    port: &mut Shared<PlaceTable>,
    house: &mut H,
    full: &mut Vec<u32>,
    places: &[PlaceRule],
    recorder: ServeRecorder<H::File>,
) -> bool
    requires filed { IsFiledBy (shared_rules port.old) recorder }
    requires tally { HasTally H.File.holds H.File.faults recorder }
    ensures rules { shared_rules port.new ≡ shared_rules port.old }
    ensures grown { Later (told_at port.old.roots) (told_at port.new.roots) }
    ensures faults { (H.told house.new).faults ≡ (H.told house.old).faults }
    ensures asked { H.asked house.new ≡ H.asked house.old }
    ensures named { H.named house.new ≡ H.named house.old }
    ensures shut { (H.told house.new).shut ≡ (H.told house.old).shut }
    ensures noted { (q : ℕ) → Contains full.old.items q → Contains full.new.items q }
    ensures kept { result ≡ true → TellsMore
        (IsRecorded (shared_rules port.old).limits (told_at port.old.roots) (told_at port.new.roots) (Contains full.new.items) places.now)
        (label_of recorder ∷ []) (H.told house.old).kept (H.told house.new).kept }
{
    let place = recorder.place();
    let form = recorder.form();
    let end = finish(rt, port, recorder);
    let kept = keep(house, places, place, form, end.file);
    let noted = note(full, place, end.worn);
    kept & end.whole & noted
}

// The same of each, the first of them first.
fn end_recorders<W: Wait, H: House>(
    rt: &W,
    port: &mut Shared<PlaceTable>,
    house: &mut H,
    full: &mut Vec<u32>,
    places: &[PlaceRule],
    mut recorders: Vec<ServeRecorder<H::File>>,
) -> bool
    requires filed { All (IsFiledBy (shared_rules port.old)) recorders.items }
    requires tallies { All (HasTally H.File.holds H.File.faults) recorders.items }
    ensures rules { shared_rules port.new ≡ shared_rules port.old }
    ensures grown { Later (told_at port.old.roots) (told_at port.new.roots) }
    ensures faults { (H.told house.new).faults ≡ (H.told house.old).faults }
    ensures asked { H.asked house.new ≡ H.asked house.old }
    ensures named { H.named house.new ≡ H.named house.old }
    ensures shut { (H.told house.new).shut ≡ (H.told house.old).shut }
    ensures noted { (q : ℕ) → Contains full.old.items q → Contains full.new.items q }
    ensures kept { result ≡ true → TellsMore
        (IsRecorded (shared_rules port.old).limits (told_at port.old.roots) (told_at port.new.roots) (Contains full.new.items) places.now)
        (map label_of recorders.items) (H.told house.old).kept (H.told house.new).kept }
{
    recorders.reverse();
    let mut whole = true;
    while let Some(recorder) = recorders.pop() {
        whole &= end_recorder(rt, port, house, full, places, recorder);
    }
    whole
}

// Ends the remains of a worker. Returns whether there was memory for all of it.
fn end_left<W: Wait, H: House>(
    rt: &W,
    port: &mut Shared<PlaceTable>,
    house: &mut H,
    full: &mut Vec<u32>,
    config: &Config,
    left: Left<H::Door, H::File>,
) -> bool
    requires left { IsLeft config.now H.File.holds H.File.faults (shared_rules port.old) left.number (H.Door.told left.door) left.recorders.items }
    ensures rules { shared_rules port.new ≡ shared_rules port.old }
    ensures grown { Later (told_at port.old.roots) (told_at port.new.roots) }
    ensures faults { (H.told house.new).faults ≡ (H.told house.old).faults }
    ensures asked { H.asked house.new ≡ H.asked house.old }
    ensures named { H.named house.new ≡ H.named house.old }
    ensures noted { (q : ℕ) → Contains full.old.items q → Contains full.new.items q }
    ensures kept { result ≡ true → TellsMore
        (IsRecorded (shared_rules port.old).limits (told_at port.old.roots) (told_at port.new.roots) (Contains full.new.items) config.now.places)
        (recordings_of config.now left.number) (H.told house.old).kept (H.told house.new).kept }
    ensures shut { result ≡ true → (H.told house.new).shut ≡ with_one (H.told house.old).shut (shut_door left.number (H.Door.told left.door)) }
{
    let Left {
        number,
        door,
        recorders,
    } = left;
    let recorded = end_recorders(rt, port, house, full, config.places.as_slice(), recorders);
    let shut = house.shut(number, door).is_ok();
    recorded & shut
}

/// Ends the remains of all workers, the last first. Returns whether there was memory for all of it. The
/// places of streams whose history a recorder found full come to `full`.
pub(crate) fn end_all<W: Wait, H: House>(
    rt: &W,
    port: &mut Shared<PlaceTable>,
    house: &mut H,
    full: &mut Vec<u32>,
    config: &Config,
    mut list: Vec<Left<H::Door, H::File>>,
) -> bool
    requires numbered { EachAt (λ i l. l.number + i + 1 ≡ vec_len list) list.items }
    requires left { All (λ l. IsLeft config.now H.File.holds H.File.faults (shared_rules port.old) l.number (H.Door.told l.door) l.recorders.items)
        list.items }
    ensures rules { shared_rules port.new ≡ shared_rules port.old }
    ensures grown { Later (told_at port.old.roots) (told_at port.new.roots) }
    ensures faults { (H.told house.new).faults ≡ (H.told house.old).faults }
    ensures asked { H.asked house.new ≡ H.asked house.old }
    ensures named { H.named house.new ≡ H.named house.old }
    ensures noted { (q : ℕ) → Contains full.old.items q → Contains full.new.items q }
    ensures kept { result ≡ true → TellsMore
        (IsRecorded (shared_rules port.old).limits (told_at port.old.roots) (told_at port.new.roots) (Contains full.new.items) config.now.places)
        (recordings_upto config.now (vec_len list)) (H.told house.old).kept (H.told house.new).kept }
    ensures shut { result ≡ true → (worn : Bool)
        → All (λ l. IsBalanced config.now (shared_rules port.old).limits (told_at port.old.roots) worn l.number (H.Door.told l.door)) list.items
        → TellsMore (IsShut config.now (shared_rules port.old).limits (told_at port.old.roots) worn) (range_with_len 0 (vec_len list))
        (H.told house.old).shut (H.told house.new).shut }
{
    let mut whole = true;
    while let Some(left) = list.pop() {
        whole &= end_left(rt, port, house, full, config, left);
    }
    whole
}
