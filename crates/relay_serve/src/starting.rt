//! The requests to the house before the first worker runs, and the workers with their recorders.
ghost use Rattle.std.specs.Prelude.{◌≡◌, ◌<◌, ◌≤◌, All, None, length, map, vec_len, if◌then◌else◌, ◌%◌, ◌==◌, [], ◌∷◌, IfOk, MatchResult, OnOk};
ghost use Rattle.relay_config.specs.Accepts.{Lawful};
ghost use Rattle.relay_outside.specs.Doors.{with_one};
ghost use Rattle.relay_outside.specs.Houses.{IsNewFile, asked_door};
ghost use Rattle.std.specs.List.{range_with_len};
ghost use Rattle.relay_serve.specs.Ends.{HouseCause};
ghost use Rattle.relay_serve.specs.Places.{name_of, open_of};
ghost use Rattle.relay_serve.specs.Recordings.{names_at, names_if, names_of, names_upto, with_names};
ghost use Rattle.relay_serve.specs.Recordings.{recorder_name, recording, recording_if, recordings_at, recordings_of};
ghost use Rattle.relay_serve.specs.Settling.{AsksFor, Enlists, IsServing, TellsMore};
ghost use Rattle.relay_serve.specs.Starts.{HasRules, HasTally};
ghost use Rattle.relay_worker.specs.Filed.{state_of};
ghost use Rattle.relay_worker.specs.Running.{EachAt, label_of};
ghost use Rattle.stream_registry.specs.SharedState.{shared_rules};

use av_unit::{Bytes, OutOfMemory};
use media_recorder::{FlvRecorder, TsRecorder};
use relay_config::{Config, OpenRule, PlaceRule};
use relay_outside::{Door, House, Rest, Sink};
use relay_worker::{Recorder, RecordingForm, Worker};
use std::alloc::Global;
use stream_core::ShortName;
use stream_registry::{Name, NameList, OpenList, OpenName, PlaceTable, Shared};

/// A worker of the server.
pub type ServeWorker<D, R, K> = Worker<Shared<PlaceTable>, D, R, K>;

/// A recorder of the server.
pub(crate) type ServeRecorder<K> = Recorder<Shared<PlaceTable>, K>;

/// The name of the first recorder.
const RECORDERS: u64 = 1 << 60;

/// Why nobody can be served.
#[derive(Clone, Copy)]
pub enum OpenFail {
    HouseFault,
    OutOfMemory,
}

fn copy_of(alloc: Global, bytes: &Bytes) -> Result<Bytes, OutOfMemory>
    ensures { IfOk result (λ copy. copy ≡ bytes.now) }
{
    Ok(Bytes::from_vec(bytes.as_slice().to_vec(alloc)?))
}

// The name of the stream at a place.
fn name_of(alloc: Global, place: &PlaceRule) -> Result<Name, OutOfMemory>
    requires { length place.now.name ≤ 64 }
    ensures { IfOk result (λ n. n ≡ name_of place.now) }
{
    Ok(Name {
        app: copy_of(alloc, &place.app)?,
        name: ShortName::new(copy_of(alloc, &place.name)?),
    })
}

// An open table.
fn open_of(alloc: Global, rule: &OpenRule) -> Result<OpenName, OutOfMemory>
    ensures { IfOk result (λ o. o ≡ open_of rule.now) }
{
    Ok(OpenName {
        app: copy_of(alloc, &rule.app)?,
        slots: rule.names,
    })
}

/// The names of the streams, by their places.
pub(crate) fn names_of(alloc: Global, places: &[PlaceRule]) -> Result<NameList, OutOfMemory>
    requires { All (λ p. length p.name ≤ 64) places.now }
    ensures { IfOk result (λ names. names ≡ map name_of places.now) }
{
    let mut names = NameList::new(alloc);
    for place in places {
        names.push(name_of(alloc, place)?)?;
    }
    Ok(names)
}

/// The open tables, by their places.
pub(crate) fn opens_of(alloc: Global, rules: &[OpenRule]) -> Result<OpenList, OutOfMemory>
    ensures { IfOk result (λ opens. opens ≡ map open_of rules.now) }
{
    let mut opens = OpenList::new(alloc);
    for rule in rules {
        opens.push(open_of(alloc, rule)?)?;
    }
    Ok(opens)
}

// The name of the recorder of the stream at a place.
fn recorder_name(place: u32, form: RecordingForm) -> u64
    ensures { result ≡ recorder_name place form }
{
    let first = RECORDERS + 2 * place as u64;
    match form {
        RecordingForm::Flv => first,
        RecordingForm::Ts => first + 1,
    }
}

// The recorder of the stream at a place, which writes to a new file.
fn new_recorder<K: Sink>(
    alloc: Global,
    place: u32,
    form: RecordingForm,
    longest: u32,
    file: K,
) -> Result<ServeRecorder<K>, OutOfMemory>
    requires { IsNewFile (K.holds file) (K.faults file) }
    ensures label { IfOk result (λ r. label_of r ≡ recording longest place form) }
    ensures nowhere { IfOk result (λ r. (state_of r).seat.pass ≡ None) }
    ensures tally { IfOk result (λ r. HasTally K.holds K.faults r) }
{
    let who = recorder_name(place, form);
    match form {
        RecordingForm::Flv => Ok(Recorder::Flv(
            FlvRecorder::new(alloc, place, who, longest)?,
            file,
        )),
        RecordingForm::Ts => Ok(Recorder::Ts(TsRecorder::new(alloc, place, who, longest)?, file)),
    }
}

// Opens the file of a recording, and enlists its recorder.
fn open_recording<H: House>(
    alloc: Global,
    house: &mut H,
    worker: &mut ServeWorker<H::Door, H::Rest, H::File>,
    place: u32,
    form: RecordingForm,
    longest: u32,
    name: &[u8],
) -> Result<(), OpenFail>
    requires { place < length (shared_rules worker.old.bench.port).names }
    ensures enlists { OnOk result (Enlists H.File.holds H.File.faults (recording longest place form ∷ []) worker.old worker.new) }
    ensures named { OnOk result (H.named house.new ≡ with_names (H.named house.old) (name.now ∷ [])) }
    ensures house { MatchResult result (λ _. H.told house.new ≡ H.told house.old) (λ fail. HouseCause fail (H.told house.old) (H.told house.new)) }
    ensures asked { H.asked house.new ≡ H.asked house.old }
{
    let Some(file) = house.file(name) else {
        return Err(OpenFail::HouseFault);
    };
    let Ok(recorder) = new_recorder(alloc, place, form, longest, file) else {
        return Err(OpenFail::OutOfMemory);
    };
    let Ok(()) = worker.enlist(recorder) else {
        return Err(OpenFail::OutOfMemory);
    };
    Ok(())
}

// The same if the recording has a file.
fn open_if<H: House>(
    alloc: Global,
    house: &mut H,
    worker: &mut ServeWorker<H::Door, H::Rest, H::File>,
    place: u32,
    form: RecordingForm,
    longest: u32,
    name: &Option<Bytes>,
) -> Result<(), OpenFail>
    requires { place < length (shared_rules worker.old.bench.port).names }
    ensures enlists { OnOk result (Enlists H.File.holds H.File.faults (recording_if name.now (recording longest place form)) worker.old worker.new) }
    ensures named { OnOk result (H.named house.new ≡ with_names (H.named house.old) (names_if name.now)) }
    ensures house { MatchResult result (λ _. H.told house.new ≡ H.told house.old) (λ fail. HouseCause fail (H.told house.old) (H.told house.new)) }
    ensures asked { H.asked house.new ≡ H.asked house.old }
{
    match name {
        Some(name) => open_recording(alloc, house, worker, place, form, longest, name.as_slice()),
        None => Ok(()),
    }
}

// The recordings of a place.
fn open_place<H: House>(
    alloc: Global,
    house: &mut H,
    worker: &mut ServeWorker<H::Door, H::Rest, H::File>,
    place: u32,
    longest: u32,
    rule: &PlaceRule,
) -> Result<(), OpenFail>
    requires { place < length (shared_rules worker.old.bench.port).names }
    ensures enlists { OnOk result (Enlists H.File.holds H.File.faults (recordings_at longest place rule.now) worker.old worker.new) }
    ensures named { OnOk result (H.named house.new ≡ with_names (H.named house.old) (names_at rule.now)) }
    ensures house { MatchResult result (λ _. H.told house.new ≡ H.told house.old) (λ fail. HouseCause fail (H.told house.old) (H.told house.new)) }
    ensures asked { H.asked house.new ≡ H.asked house.old }
{
    open_if(
        alloc,
        house,
        worker,
        place,
        RecordingForm::Flv,
        longest,
        &rule.flv,
    )?;
    open_if(
        alloc,
        house,
        worker,
        place,
        RecordingForm::Ts,
        longest,
        &rule.ts,
    )?;
    Ok(())
}

// The same if the place is among those of the worker with that number.
fn open_own_place<H: House>(
    alloc: Global,
    house: &mut H,
    worker: &mut ServeWorker<H::Door, H::Rest, H::File>,
    number: u32,
    workers: u32,
    place: u32,
    longest: u32,
    rule: &PlaceRule,
) -> Result<(), OpenFail>
    requires some { 0 < workers }
    requires place { place < length (shared_rules worker.old.bench.port).names }
    ensures enlists { OnOk result (Enlists H.File.holds H.File.faults (if place % workers == number then recordings_at longest place rule.now else [])
        worker.old worker.new) }
    ensures named { OnOk result (H.named house.new ≡ with_names (H.named house.old) (if place % workers == number then names_at rule.now else [])) }
    ensures house { MatchResult result (λ _. H.told house.new ≡ H.told house.old) (λ fail. HouseCause fail (H.told house.old) (H.told house.new)) }
    ensures asked { H.asked house.new ≡ H.asked house.old }
{
    if place % workers != number {
        return Ok(());
    }
    open_place(alloc, house, worker, place, longest, rule)
}

// The recordings of the worker with that number.
fn open_own<H: House>(
    alloc: Global,
    house: &mut H,
    worker: &mut ServeWorker<H::Door, H::Rest, H::File>,
    config: &Config,
    number: u32,
) -> Result<(), OpenFail>
    requires lawful { Lawful config.now }
    requires places { length config.now.places ≡ length (shared_rules worker.old.bench.port).names }
    ensures enlists { OnOk result (Enlists H.File.holds H.File.faults (recordings_of config.now number) worker.old worker.new) }
    ensures named { OnOk result (H.named house.new ≡ with_names (H.named house.old) (names_of config.now number)) }
    ensures house { MatchResult result (λ _. H.told house.new ≡ H.told house.old) (λ fail. HouseCause fail (H.told house.old) (H.told house.new)) }
    ensures asked { H.asked house.new ≡ H.asked house.old }
{
    let mut place = 0;
    let mut left = config.places.as_slice();
    while let [rule, rest @ ..] = left {
        open_own_place(
            alloc,
            house,
            worker,
            number,
            config.workers,
            place,
            config.limits.max_message,
            rule,
        )?;
        place += 1;
        left = rest;
    }
    Ok(())
}

// The worker of that number, with its recorders.
fn open_worker<H: House>(
    alloc: Global,
    house: &mut H,
    config: &Config,
    number: u32,
    port: Shared<PlaceTable>,
) -> Result<ServeWorker<H::Door, H::Rest, H::File>, OpenFail>
    requires number { number < 16 }
    requires lawful { Lawful config.now }
    requires places { length config.now.places ≡ length (shared_rules port).names }
    ensures house { MatchResult result (λ _. H.told house.new ≡ H.told house.old) (λ fail. HouseCause fail (H.told house.old) (H.told house.new)) }
    ensures asked { IfOk result (λ _. H.asked house.new ≡ with_one (H.asked house.old) (asked_door number config.now.listen config.now.accept)) }
    ensures named { IfOk result (λ _. H.named house.new ≡ with_names (H.named house.old) (names_of config.now number)) }
    ensures port { IfOk result (λ x. x.bench.port ≡ port) }
    ensures serving { IfOk result (λ x. IsServing config.now H.Door.Link.told H.Door.Link.counts H.Door.told H.File.holds H.File.faults number x) }
{
    let Some(door) = house.door(number, config.listen.as_slice(), config.accept) else {
        return Err(OpenFail::HouseFault);
    };
    let Some(rest) = house.rest(number) else {
        return Err(OpenFail::HouseFault);
    };
    let Ok(mut worker) = Worker::new(alloc, number, config.links, config.limits, port, door, rest)
    else {
        return Err(OpenFail::OutOfMemory);
    };
    open_own(alloc, house, &mut worker, config, number)?;
    Ok(worker)
}

/// A worker for each port, numbered from 0, with a door and a rest of the house and its recorders.
pub(crate) fn open_workers<H: House>(
    alloc: Global,
    house: &mut H,
    config: &Config,
    first: &Shared<PlaceTable>,
    mut ports: Vec<Shared<PlaceTable>>,
) -> Result<Vec<ServeWorker<H::Door, H::Rest, H::File>>, OpenFail>
    requires lawful { Lawful config.now }
    requires few { vec_len ports ≤ 16 }
    requires places { length config.now.places ≡ length (shared_rules first.now).names }
    requires rules { All (HasRules (shared_rules first.now)) ports.items }
    ensures house { MatchResult result (λ _. H.told house.new ≡ H.told house.old) (λ fail. HouseCause fail (H.told house.old) (H.told house.new)) }
    ensures asked { IfOk result (λ workers. TellsMore (AsksFor config.now) (range_with_len 0 (vec_len workers)) (H.asked house.old) (H.asked house.new)) }
    ensures named { IfOk result (λ workers. H.named house.new ≡ with_names (H.named house.old) (names_upto config.now (vec_len workers))) }
    ensures rules { IfOk result (λ workers. All (λ x. HasRules (shared_rules first.now) x.bench.port) workers.items) }
    ensures each { IfOk result (λ workers. vec_len workers ≡ vec_len ports) }
    ensures serving { IfOk result (λ workers.
        EachAt (IsServing config.now H.Door.Link.told H.Door.Link.counts H.Door.told H.File.holds H.File.faults) workers.items) }
{
    let _ = first;
    let mut workers = Vec::new(alloc);
    while let Some(port) = ports.pop() {
        let number = workers.len() as u32;
        let worker = open_worker(alloc, house, config, number, port)?;
        if workers.push(worker).is_err() {
            return Err(OpenFail::OutOfMemory);
        }
    }
    Ok(workers)
}
