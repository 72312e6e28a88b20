//! `relay serve`.
ghost use Rattle.std.specs.Prelude.{◌≡◌, ◌≢◌, ◌<◌, ◌≤◌, ℕ, is_some, map, vec_len, All, Contains, IfOk, IfSome, MatchResult, List, Option};
ghost use Rattle.relay_config.specs.Accepts.{Lawful};
ghost use Rattle.relay_serve.specs.Ends.{EndsAs, HouseCause, RefusesAs, RunsAs, Serves, code_of, outer, seen, unopened_as};
ghost use Rattle.relay_serve.specs.Places.{AreShaped, HasPlaces, limits_in, places_in};
ghost use Rattle.relay_serve.specs.Recordings.{names_upto, with_names};
ghost use Rattle.relay_outside.specs.Houses.{Asked};
ghost use Rattle.relay_serve.specs.Http.{AsksAll, IsServingHttp};
ghost use Rattle.relay_serve.specs.Settling.{IsServing};
ghost use Rattle.relay_serve.specs.Starts.{AreReady, HasRules};
ghost use Rattle.relay_serve.specs.Words.{is_serve};
ghost use Rattle.http_worker.specs.Running.{HasRun as HasRunHttp};
ghost use Rattle.relay_worker.specs.Running.{EachAt, HasRun};
ghost use Rattle.stream_registry.specs.Pasts.{Attempt};
ghost use Rattle.stream_registry.specs.Gates.{told_at};
ghost use Rattle.stream_registry.specs.Refusals.{IsFull};
ghost use Rattle.stream_registry.specs.Roots.{Later, seen_at};
ghost use Rattle.stream_registry.specs.SharedState.{shared_rules};

use crate::beside::run_beside;
use crate::counting::{count_all, has_worn, report_of};
use crate::ending::{end_all, take_all_apart};
use crate::http::{
    ServeHttp, open_http, own_port, shut_http, spare_port, spare_ports, take_http_apart,
};
use crate::reading::{ReadFail, read_text};
use crate::starting::{OpenFail, ServeWorker, names_of, open_workers, opens_of};
use config_desk::PlaceDesk;
use key_guard::Guards;
use put_text::{PutFail, put_all};
use relay_base::Status;
use relay_config::{Config, ConfigFail, http_workers, read_config, report};
use relay_outside::{Door, House, Rest, Sink, Source};
use std::alloc::Global;
use std::sync::Wait;
use std::thread::Threads;
use stream_core::StreamLimits;
use stream_registry::{PlaceTable, Shared, places_law, shared_ports};

/// How `serve` ends.
#[derive(Clone, Copy, Debug, PartialEq, Eq)]
pub enum Ending {
    /// The workers have run, and the report is written.
    Served,
    /// The words aren't those of `serve`.
    BadWords,
    /// The configuration couldn't be read.
    SourceFault,
    /// The configuration is refused.
    Refused,
    /// The report couldn't be written.
    SinkFault,
    /// There was too little memory.
    OutOfMemory,
    /// The house had no door, no rest or no file, and nobody was served.
    HouseFault,
}

/// The exit code of each.
pub fn code_of(ending: Ending) -> u8
    ensures { result ≡ code_of ending }
{
    match ending {
        Ending::Served => 0,
        Ending::BadWords => 2,
        Ending::SourceFault => 3,
        Ending::Refused => 4,
        Ending::SinkFault => 5,
        Ending::OutOfMemory => 6,
        Ending::HouseFault => 7,
    }
}

// Whether the words are `serve` and one more.
fn is_serve(words: &[Vec<u8>]) -> bool
    ensures { result ≡ is_serve (map (λ w. w.items) words.now) }
{
    match words {
        [word, _] => word.as_slice() == b"serve".as_slice(),
        _ => false,
    }
}

// The limits of each stream and of each slot.
fn stream_limits(config: &Config) -> StreamLimits
    ensures { result ≡ limits_in config.now }
{
    StreamLimits {
        bytes: config.limits.ring_bytes,
        items: config.limits.ring_items,
        players: config.limits.players,
    }
}

/// The ending of a server if nobody could be served.
pub fn unopened(fail: OpenFail) -> Ending
    ensures { result ≡ unopened_as fail }
{
    match fail {
        OpenFail::HouseFault => Ending::HouseFault,
        OpenFail::OutOfMemory => Ending::OutOfMemory,
    }
}

/// The state before the first worker runs: a port of the server's own, the workers, and one port more if
/// that was asked for.
#[derive(Drop)]
pub struct Ready<D: Door, R: Rest, K: Sink> {
    pub port: Shared<PlaceTable>,
    pub workers: Vec<ServeWorker<D, R, K>>,
    pub http: Option<ServeHttp<D, R>>,
    pub spare: Option<Shared<PlaceTable>>,
}

/// Asks the house for all doors, rests and files, and makes the workers, and one port more if that is
/// wanted.
pub fn make_ready<H: House>(
    alloc: Global,
    config: &Config,
    house: &mut H,
    spare: bool,
) -> Result<Ready<H::Door, H::Rest, H::File>, OpenFail>
    requires lawful { Lawful config.now }
    ensures house { MatchResult result (λ _. H.told house.new ≡ H.told house.old) (λ fail. HouseCause fail (H.told house.old) (H.told house.new)) }
    ensures asked { IfOk result (λ ready. AsksAll config.now (vec_len ready.workers) (H.asked house.old) (H.asked house.new)) }
    ensures named { IfOk result (λ ready. H.named house.new ≡ with_names (H.named house.old) (names_upto config.now (vec_len ready.workers))) }
    ensures few { IfOk result (λ ready. vec_len ready.workers ≤ 16) }
    ensures places { IfOk result (λ ready. HasPlaces config.now (shared_rules ready.port)) }
    ensures shaped { IfOk result (λ ready. AreShaped config.now (shared_rules ready.port).limits) }
    ensures rules { IfOk result (λ ready. All (λ x. HasRules (shared_rules ready.port) x.bench.port) ready.workers.items) }
    ensures each { IfOk result (λ ready. vec_len ready.workers ≡ config.now.workers) }
    ensures serving { IfOk result (λ ready.
        EachAt (IsServing config.now H.Door.Link.told H.Door.Link.counts H.Door.told H.File.holds H.File.faults) ready.workers.items) }
    ensures http_there { IfOk result (λ ready. is_some ready.http ≡ is_some config.now.http) }
    ensures http_rules { IfOk result (λ ready. IfSome ready.http (λ w. HasRules (shared_rules ready.port) w.bench.port)) }
    ensures http_serving { IfOk result (λ ready. IfSome ready.http (IsServingHttp config.now H.Door.Link.told H.Door.Link.counts H.Door.told)) }
    ensures spare_there { IfOk result (λ ready. is_some ready.spare ≡ spare) }
    ensures spare_rules { IfOk result (λ ready. IfSome ready.spare (HasRules (shared_rules ready.port))) }
{
    places_law();
    let Ok(names) = names_of(alloc, config.places.as_slice()) else {
        return Err(OpenFail::OutOfMemory);
    };
    let Ok(opens) = opens_of(alloc, config.opens.as_slice()) else {
        return Err(OpenFail::OutOfMemory);
    };
    let count = config.workers as usize + http_workers(config) as usize + spare_ports(spare) + 1;
    let Ok(mut ports) = shared_ports(alloc, names, opens, stream_limits(config), count) else {
        return Err(OpenFail::OutOfMemory);
    };
    let Some(port) = ports.pop() else {
        return Err(OpenFail::OutOfMemory);
    };
    let spare = spare_port(spare, &port, &mut ports);
    let own = own_port(config, &port, &mut ports);
    let workers = open_workers(alloc, house, config, &port, ports)?;
    let http = open_http(alloc, house, config, &port, own)?;
    Ok(Ready {
        port,
        workers,
        http,
        spare,
    })
}

/// Takes the steps after the workers, the report last. The places that are known to have a full history are
/// handed in: the report says of each that it is full.
pub fn conclude<W: Wait, H: House, K: Sink>(
    rt: &W,
    alloc: Global,
    config: &Config,
    house: &mut H,
    out: &mut K,
    port: &mut Shared<PlaceTable>,
    workers: Vec<ServeWorker<H::Door, H::Rest, H::File>>,
    http: Option<ServeHttp<H::Door, H::Rest>>,
    mut full: Vec<u32>,
) -> Ending
    requires total { places_in config.now ≤ 64 }
    requires places { HasPlaces config.now (shared_rules port.old) }
    requires shaped { AreShaped config.now (shared_rules port.old).limits }
    requires few { vec_len workers ≤ 16 }
    requires run { All (λ x. HasRun H.Door.told x) workers.items }
    requires rules { All (λ x. HasRules (shared_rules port.old) x.bench.port) workers.items }
    requires each { vec_len workers ≡ config.now.workers }
    requires serving { EachAt (IsServing config.now H.Door.Link.told H.Door.Link.counts H.Door.told H.File.holds H.File.faults) workers.items }
    requires http_there { is_some http ≡ is_some config.now.http }
    requires http_run { IfSome http (HasRunHttp H.Door.told) }
    requires http_rules { IfSome http (λ w. HasRules (shared_rules port.old) w.bench.port) }
    requires http_serving { IfSome http (IsServingHttp config.now H.Door.Link.told H.Door.Link.counts H.Door.told) }
    ensures runs { (before : Option (List Asked)) → AsksAll config.now config.now.workers before (H.asked house.old)
        → (names : Option (List (List ℕ))) → H.named house.old ≡ with_names names (names_upto config.now config.now.workers)
        → RunsAs config.now (seen_at port.new.roots) (seen (K.holds out.old) (K.faults out.old) (H.told house.old) before names)
        (seen (K.holds out.new) (K.faults out.new) (H.told house.new) (H.asked house.new) (H.named house.new)) result }
    ensures opened { result ≢ Ending.HouseFault }
    ensures grown { result ≡ Ending.Served → Later (told_at port.old.roots) (told_at port.new.roots) }
    ensures full { result ≡ Ending.Served → (place : ℕ) → place < places_in config.now → Contains full.items place
        → IsFull ((shared_rules port.old).limits place) (seen_at port.new.roots place) }
{
    let Ok(left) = take_all_apart(alloc, config, port, workers) else {
        return Ending::OutOfMemory;
    };
    let players = take_http_apart(config, port, http);
    let ended = end_all(rt, port, house, &mut full, config, left.list);
    let whole = ended & shut_http(house, config, players.door);
    let streams = config.places.len();
    let count = (streams + config.opens.len()) as u32;
    let Ok(counts) = count_all(rt, alloc, port, count, full.as_slice()) else {
        return Ending::OutOfMemory;
    };
    let Ok(text) = report_of(alloc, counts.as_slice(), streams) else {
        return Ending::OutOfMemory;
    };
    let agreed = has_worn(counts.as_slice()) | !(left.worn | players.worn);
    let refused = left.refused | players.refused;
    match put_all(out, text.as_slice()) {
        Ok(()) if whole && !refused && agreed => Ending::Served,
        Ok(()) => Ending::OutOfMemory,
        Err(PutFail::SinkFault) => Ending::SinkFault,
        Err(PutFail::OutOfMemory) => Ending::OutOfMemory,
    }
}

// All recorders join their streams, before a session can publish to one.
fn ready_all<W: Wait, D: Door, R: Rest, K: Sink>(
    rt: &W,
    workers: &mut [ServeWorker<D, R, K>],
    port: &Shared<PlaceTable>,
    config: &Config,
)
    requires rules { All (λ x. HasRules (shared_rules port.now) x.bench.port) workers.old }
    requires serving { EachAt (IsServing config.now D.Link.told D.Link.counts D.told K.holds K.faults) workers.old }
    ensures rules { All (λ x. HasRules (shared_rules port.now) x.bench.port) workers.new }
    ensures serving { EachAt (IsServing config.now D.Link.told D.Link.counts D.told K.holds K.faults) workers.new }
    ensures ready { All AreReady workers.new }
{
    let _ = port;
    let _ = config;
    for worker in workers.iter_mut() {
        worker.ready(rt);
    }
}

/// All recorders join their streams, before a session can publish to one.
pub fn ready_workers<W: Wait, D: Door, R: Rest, K: Sink>(
    rt: &W,
    mut workers: Vec<ServeWorker<D, R, K>>,
    port: &Shared<PlaceTable>,
    config: &Config,
) -> Vec<ServeWorker<D, R, K>>
    requires rules { All (λ x. HasRules (shared_rules port.now) x.bench.port) workers.items }
    requires serving { EachAt (IsServing config.now D.Link.told D.Link.counts D.told K.holds K.faults) workers.items }
    ensures rules { All (λ x. HasRules (shared_rules port.now) x.bench.port) result.items }
    ensures each { vec_len result ≡ vec_len workers }
    ensures serving { EachAt (IsServing config.now D.Link.told D.Link.counts D.told K.holds K.faults) result.items }
    ensures ready { All AreReady result.items }
{
    ready_all(rt, workers.as_mut_slice(), port, config);
    workers
}

/// All workers run, each in a thread of its own, with the desk of the configuration's streams and open tables.
pub fn run_workers<T: Threads + Wait + Sync, D: Door + Send, R: Rest + Send, K: Sink + Send>(
    rt: &T,
    workers: Vec<ServeWorker<D, R, K>>,
    http: Option<ServeHttp<D, R>>,
    port: &Shared<PlaceTable>,
    guards: &Guards,
    config: &Config,
) -> (Vec<ServeWorker<D, R, K>>, Option<ServeHttp<D, R>>)
where
    D::Link: Send,
    requires total { places_in config.now ≤ 64 }
    requires places { HasPlaces config.now (shared_rules port.now) }
    requires rules { All (λ x. HasRules (shared_rules port.now) x.bench.port) workers.items }
    requires serving { EachAt (IsServing config.now D.Link.told D.Link.counts D.told K.holds K.faults) workers.items }
    requires ready { All AreReady workers.items }
    requires http_rules { IfSome http (λ w. HasRules (shared_rules port.now) w.bench.port) }
    requires http_serving { IfSome http (IsServingHttp config.now D.Link.told D.Link.counts D.told) }
    ensures run { All (λ x. HasRun D.told x) result.0.items }
    ensures rules { All (λ x. HasRules (shared_rules port.now) x.bench.port) result.0.items }
    ensures each { vec_len result.0 ≡ vec_len workers }
    ensures serving { EachAt (IsServing config.now D.Link.told D.Link.counts D.told K.holds K.faults) result.0.items }
    ensures http_there { is_some result.1 ≡ is_some http }
    ensures http_run { IfSome result.1 (HasRunHttp D.told) }
    ensures http_rules { IfSome result.1 (λ w. HasRules (shared_rules port.now) w.bench.port) }
    ensures http_serving { IfSome result.1 (IsServingHttp config.now D.Link.told D.Link.counts D.told) }
{
    let _ = port;
    let desk = PlaceDesk::new(guards, &config.places, &config.opens);
    let (workers, http) = run_beside(rt, &desk, workers, http);
    let PlaceDesk {
        guards: _,
        list: _,
        opens: _,
    } = desk;
    (workers, http)
}

// Serves a configuration that was accepted.
fn run<T: Threads + Wait + Sync, H: House, K: Sink>(
    rt: &T,
    alloc: Global,
    config: &Config,
    guards: &Guards,
    house: &mut H,
    out: &mut K,
) -> Ending
    requires lawful { Lawful config.now }
    ensures { (attempts : ℕ → List Attempt) × RunsAs config.now attempts
        (seen (K.holds out.old) (K.faults out.old) (H.told house.old) (H.asked house.old) (H.named house.old))
        (seen (K.holds out.new) (K.faults out.new) (H.told house.new) (H.asked house.new) (H.named house.new)) result }
{
    match make_ready(alloc, config, house, false) {
        Ok(
            Ready {
                mut port,
                workers,
                http,
                spare: _,
            },
        ) => {
            let workers = ready_workers(rt, workers, &port, config);
            let (workers, http) = run_workers(rt, workers, http, &port, guards, config);
            conclude(
                rt,
                alloc,
                config,
                house,
                out,
                &mut port,
                workers,
                http,
                Vec::new(alloc),
            )
        }
        Err(fail) => unopened(fail),
    }
}

/// Reports why a configuration is refused.
pub fn refuse<K: Sink>(alloc: Global, fail: &ConfigFail, out: &mut K) -> Ending
    ensures { RefusesAs fail.now (K.holds out.old) (K.faults out.old) (K.holds out.new) (K.faults out.new) result }
{
    if matches!(fail, ConfigFail::OutOfMemory) {
        return Ending::OutOfMemory;
    }
    let Ok(line) = report(alloc, fail) else {
        return Ending::OutOfMemory;
    };
    match put_all(out, line.as_slice()) {
        Ok(()) => Ending::Refused,
        Err(PutFail::SinkFault) => Ending::Refused,
        Err(PutFail::OutOfMemory) => Ending::OutOfMemory,
    }
}

fn end<T: Threads + Wait + Sync, H: House, S: Source, K: Sink>(
    rt: &T,
    alloc: Global,
    words: &[Vec<u8>],
    guards: &Guards,
    config: &mut S,
    house: &mut H,
    out: &mut K,
) -> Ending
    ensures ends { EndsAs (is_serve (map (λ w. w.items) words.now))
        (outer (S.left config.old) (S.faults config.old)
        (seen (K.holds out.old) (K.faults out.old) (H.told house.old) (H.asked house.old) (H.named house.old)))
        (outer (S.left config.new) (S.faults config.new)
        (seen (K.holds out.new) (K.faults out.new) (H.told house.new) (H.asked house.new) (H.named house.new))) result }
    ensures untouched { result ≡ Ending.BadWords → (config.new ≡ config.old) × (house.new ≡ house.old) × (out.new ≡ out.old) }
{
    if !is_serve(words) {
        return Ending::BadWords;
    }
    let text = match read_text(alloc, config) {
        Ok(text) => text,
        Err(ReadFail::SourceFault) => return Ending::SourceFault,
        Err(ReadFail::OutOfMemory) => return Ending::OutOfMemory,
    };
    match read_config(alloc, text.as_slice()) {
        Ok(accepted) => run(rt, alloc, &accepted, guards, house, out),
        Err(fail) => refuse(alloc, &fail, out),
    }
}

/// Serves by a configuration, until each door has closed and neither a session nor a player lives. It
/// serves sessions over the house's links, players that speak HTTP if the configuration has an address for
/// them, and recorders to its files. It may wait.
///
/// The words are `serve` and the name of the file that `config` reads. The guards judge the keys of all
/// sessions and players. Each worker has a thread, a port to the shared streams, and a door and a rest of
/// the house. That of the HTTP players is one more, behind the others in number. The report then has a line
/// for each stream, and then one for each open table: how many of its calls were answered so, or that its
/// history is full.
///
/// The code is
///
/// - 0 if all were served and the report is written;
/// - 2 exactly if the words are others: nothing is read or written, and the house isn't asked;
/// - 3 if the file couldn't be read, only if its faults rose;
/// - 4 exactly if [`read_config`] refuses it, for another cause than memory: the report has the line of the
///   refusal, or a beginning of it if the report's faults rose;
/// - 5 if the report couldn't be written, only if its faults rose;
/// - 6 if there was too little memory, also for a session, a player or a recorder;
/// - 7 if the house had no door, no rest or no file, only if its faults rose: no worker has run.
///
/// `place` is 0.
pub fn serve<T: Threads + Wait + Sync, H: House, S: Source, K: Sink>(
    rt: &T,
    alloc: Global,
    words: &[Vec<u8>],
    guards: &Guards,
    config: &mut S,
    house: &mut H,
    report: &mut K,
) -> Status
    ensures serves { Serves (is_serve (map (λ w. w.items) words.now))
        (outer (S.left config.old) (S.faults config.old)
        (seen (K.holds report.old) (K.faults report.old) (H.told house.old) (H.asked house.old) (H.named house.old)))
        (outer (S.left config.new) (S.faults config.new)
        (seen (K.holds report.new) (K.faults report.new) (H.told house.new) (H.asked house.new) (H.named house.new))) result }
    ensures untouched { result.code ≡ 2 → (config.new ≡ config.old) × (house.new ≡ house.old) × (report.new ≡ report.old) }
{
    let ending = end(rt, alloc, words, guards, config, house, report);
    Status {
        code: code_of(ending),
        place: 0,
    }
}
