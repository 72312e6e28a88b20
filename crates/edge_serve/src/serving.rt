//! `relay edge`.
ghost use Rattle.std.specs.Prelude.{◌≡◌, ◌⊎◌, ℕ, List, Contains, map};
ghost use Rattle.relay_config.specs.Accepts.{Lawful};
ghost use Rattle.relay_serve.specs.Ends.{outer, seen};
ghost use Rattle.stream_registry.specs.Pasts.{Attempt};
ghost use Rattle.stream_registry.specs.Gates.{told_at};
ghost use Rattle.stream_registry.specs.SharedState.{shared_rules};
ghost use Rattle.client_command.specs.Words.{AreShort};
ghost use Rattle.edge_serve.specs.Beside.{CanRun, HaveRun};
ghost use Rattle.edge_serve.specs.Driving.{CanPull, IsPulled};
ghost use Rattle.edge_serve.specs.Ends.{BothEndAs, LinesAs, RunsBoth, ServesBoth, TellsAs};
ghost use Rattle.edge_serve.specs.Pulls.{edge_place, origin};
ghost use Rattle.edge_serve.specs.Words.{asked_of, pull_of};

use crate::pulling::{PLACE, Pulled, Stream, pull};
use crate::words::edge_target;
use client_command::Target;
use key_guard::Guards;
use origin_pull::EdgeEnd;
use put_text::{PutFail, put_all};
use relay_base::Status;
use relay_config::{Config, read_config};
use relay_outside::{Door, House, Link, Rest, Sink, Source};
use relay_serve::{
    Ending, ReadFail, Ready, ServeHttp, ServeWorker, code_of, conclude, make_ready, read_text,
    ready_workers, refuse, run_workers, unopened,
};
use std::alloc::Global;
use std::sync::Wait;
use std::thread::{Threads, join};
use stream_registry::{PlaceTable, Shared};

/// The outcome of `edge`: its status, and the link to the origin.
#[derive(Drop)]
pub struct Edged<L: Link> {
    pub status: Status,
    pub link: L,
}

// All workers run.
fn run_server<T: Threads + Wait + Sync, D: Door + Send, R: Rest + Send, K: Sink + Send>(
    rt: &T,
    config: &Config,
    guards: &Guards,
    port: &Shared<PlaceTable>,
    workers: Vec<ServeWorker<D, R, K>>,
    http: Option<ServeHttp<D, R>>,
) -> (Vec<ServeWorker<D, R, K>>, Option<ServeHttp<D, R>>)
where
    D::Link: Send,
    requires { CanRun config.now D.Link.told D.Link.counts D.told K.holds K.faults (shared_rules port.now) workers.items http }
    ensures { HaveRun config.now D.Link.told D.Link.counts D.told K.holds K.faults (shared_rules port.now) workers.items result.0.items http result.1 }
{
    run_workers(rt, workers, http, port, guards, config)
}

// The edge pulls in a thread of its own, with a port of its own, and beside it all workers run, each in one of its own.
fn run_both<
    T: Threads + Wait + Sync,
    D: Door + Send,
    R: Rest + Send,
    K: Sink + Send,
    L: Link + Send,
    Q: Rest + Send,
>(
    rt: &T,
    alloc: Global,
    config: &Config,
    guards: &Guards,
    port: &Shared<PlaceTable>,
    workers: Vec<ServeWorker<D, R, K>>,
    http: Option<ServeHttp<D, R>>,
    own: Shared<PlaceTable>,
    stream: Stream<'_>,
    link: L,
    rest: Q,
) -> (
    Pulled<L>,
    (Vec<ServeWorker<D, R, K>>, Option<ServeHttp<D, R>>),
)
where
    D::Link: Send,
    requires pulls { CanPull stream.address.now stream.app.now stream.name.now stream.longest (shared_rules own) }
    requires runs { CanRun config.now D.Link.told D.Link.counts D.told K.holds K.faults (shared_rules port.now) workers.items http }
    ensures pulls { IsPulled (pull_of stream.entry.address.now stream.entry.app.now stream.entry.name.now) stream.entry.longest (shared_rules own) (shared_rules result.0.port)
        (told_at result.0.port.roots) result.0.end result.0.line.items (origin (L.told link) (L.counts link))
        (origin (L.told result.0.link) (L.counts result.0.link)) }
    ensures runs { HaveRun config.now D.Link.told D.Link.counts D.told K.holds K.faults (shared_rules port.now) workers.items result.1.0.items http result.1.1 }
{
    join(
        rt,
        move || -> Pulled<L>
            requires { CanPull stream.address.now stream.app.now stream.name.now stream.longest (shared_rules own) }
            ensures { IsPulled (pull_of stream.entry.address.now stream.entry.app.now stream.entry.name.now) stream.entry.longest (shared_rules own) (shared_rules result.port)
                (told_at result.port.roots) result.end result.line.items (origin (L.told link) (L.counts link))
                (origin (L.told result.link) (L.counts result.link)) }
        { pull(rt, alloc, own, stream, link, rest) },
        move || -> (Vec<ServeWorker<D, R, K>>, Option<ServeHttp<D, R>>)
            requires { CanRun config.now D.Link.told D.Link.counts D.told K.holds K.faults (shared_rules port.now) workers.items http }
            ensures { HaveRun config.entry.now D.Link.told D.Link.counts D.told K.holds K.faults (shared_rules port.entry.now)
                workers.items result.0.items http result.1 }
        { run_server(rt, config, guards, port, workers, http) },
    )
}

// Returns the place of the edge, if the history there is full. If that couldn't be noted the edge has ended
// for want of memory.
fn full_places(alloc: Global, end: EdgeEnd) -> (Vec<u32>, EdgeEnd)
    ensures end { (result.1 ≡ end) ⊎ (result.1 ≡ EdgeEnd.OutOfMemory) }
    ensures full { result.1 ≡ EdgeEnd.Worn → Contains result.0.items edge_place }
{
    let mut full = Vec::new(alloc);
    if end != EdgeEnd::Worn {
        return (full, end);
    }
    match full.push(PLACE) {
        Ok(()) => (full, end),
        Err(_) => (Vec::new(alloc), EdgeEnd::OutOfMemory),
    }
}

// Writes the line of an edge that has ended with `end`. An edge that had no memory has none.
fn put_line<K: Sink>(end: EdgeEnd, line: &[u8], out: &mut K) -> Ending
    ensures { LinesAs end line.now (K.holds out.old) (K.faults out.old) (K.holds out.new) (K.faults out.new) result }
{
    if end == EdgeEnd::OutOfMemory {
        return Ending::OutOfMemory;
    }
    match put_all(out, line) {
        Ok(()) => Ending::Served,
        Err(PutFail::SinkFault) => Ending::SinkFault,
        Err(PutFail::OutOfMemory) => Ending::OutOfMemory,
    }
}

// The same behind a report that is whole.
fn tell_line<K: Sink>(before: Ending, end: EdgeEnd, line: &[u8], out: &mut K) -> Ending
    ensures { TellsAs before end line.now (K.holds out.old) (K.faults out.old) (K.holds out.new) (K.faults out.new) result }
{
    match before {
        Ending::Served => put_line(end, line, out),
        Ending::BadWords => before,
        Ending::SourceFault => before,
        Ending::Refused => before,
        Ending::SinkFault => before,
        Ending::OutOfMemory => before,
        Ending::HouseFault => before,
    }
}

// Serves a configuration that was accepted, beside an edge.
fn run<T: Threads + Wait + Sync, H: House, L: Link + Send, Q: Rest + Send, K: Sink>(
    rt: &T,
    alloc: Global,
    config: &Config,
    guards: &Guards,
    target: Target<'_>,
    house: &mut H,
    link: L,
    rest: Q,
    out: &mut K,
) -> (Ending, L)
    requires lawful { Lawful config.now }
    requires short { AreShort target.address.now target.app.now target.name.now }
    ensures { (attempts : ℕ → List Attempt) × RunsBoth (pull_of target.entry.address.now target.entry.app.now target.entry.name.now) config.now attempts
        (seen (K.holds out.old) (K.faults out.old) (H.told house.old) (H.asked house.old) (H.named house.old))
        (seen (K.holds out.new) (K.faults out.new) (H.told house.new) (H.asked house.new) (H.named house.new))
        (origin (L.told link) (L.counts link)) (origin (L.told result.1) (L.counts result.1)) result.0 }
{
    let Ready {
        mut port,
        workers,
        http,
        spare,
    } = match make_ready(alloc, config, house, true) {
        Ok(ready) => ready,
        Err(fail) => return (unopened(fail), link),
    };
    let Some(own) = spare else { unreachable!() };
    let workers = ready_workers(rt, workers, &port, config);
    let stream = Stream {
        address: target.address,
        app: target.app,
        name: target.name,
        longest: config.limits.max_message,
    };
    let (pulled, (workers, http)) = run_both(
        rt, alloc, config, guards, &port, workers, http, own, stream, link, rest,
    );
    let Pulled {
        port: own,
        link,
        end,
        line,
    } = pulled;
    port.gather(own);
    let (full, end) = full_places(alloc, end);
    let ending = conclude(
        rt, alloc, config, house, out, &mut port, workers, http, full,
    );
    (tell_line(ending, end, line.as_slice(), out), link)
}

fn end<T: Threads + Wait + Sync, H: House, L: Link + Send, Q: Rest + Send, S: Source, K: Sink>(
    rt: &T,
    alloc: Global,
    words: &[Vec<u8>],
    guards: &Guards,
    config: &mut S,
    house: &mut H,
    link: L,
    rest: Q,
    out: &mut K,
) -> (Ending, L)
    ensures ends { BothEndAs (asked_of (map (λ w. w.items) words.now))
        (outer (S.left config.old) (S.faults config.old)
        (seen (K.holds out.old) (K.faults out.old) (H.told house.old) (H.asked house.old) (H.named house.old)))
        (outer (S.left config.new) (S.faults config.new)
        (seen (K.holds out.new) (K.faults out.new) (H.told house.new) (H.asked house.new) (H.named house.new)))
        (origin (L.told link) (L.counts link)) (origin (L.told result.1) (L.counts result.1)) result.0 }
    ensures untouched { result.0 ≡ Ending.BadWords → (config.new ≡ config.old) × (house.new ≡ house.old) × (out.new ≡ out.old) × (result.1 ≡ link) }
{
    let Some(target) = edge_target(words) else {
        return (Ending::BadWords, link);
    };
    let text = match read_text(alloc, config) {
        Ok(text) => text,
        Err(ReadFail::SourceFault) => return (Ending::SourceFault, link),
        Err(ReadFail::OutOfMemory) => return (Ending::OutOfMemory, link),
    };
    match read_config(alloc, text.as_slice()) {
        Ok(accepted) => run(rt, alloc, &accepted, guards, target, house, link, rest, out),
        Err(fail) => (refuse(alloc, &fail, out), link),
    }
}

/// Serves by a configuration as [`relay_serve::serve`] does, and beside its workers pulls a stream of
/// another relay, its origin, over a link to that. It publishes the stream at the configuration's first
/// place: its first stream, or its first open table if it has no stream. It may wait.
///
/// The words are `edge FILE ADDRESS APP NAME`. ADDRESS, APP and NAME have 1 to 255 bytes, and a key may stand
/// in NAME behind `?`. The address is told to the origin; to connect to it, and the file, are the caller's
/// affair. The edge is
/// 2^61 + 2^60 by its name, takes messages as long as the configuration allows, and runs in a thread of its
/// own. It is turned until it has ended, with a pause after each turn in which nothing moved, and is then
/// closed. So the broadcast that is live ends here when its origin is lost. The server goes on then, and
/// ends as by `serve`. The link is told when the stream is played, and the reason why the edge has ended.
///
/// The code is that of `serve`. With 0 the report has one more line, `edge E`: E is why the edge has ended,
/// in the words of a replay. An edge that has ended for want of memory has no line, and the code is 6.
///
/// An edge holds at most the bytes that the configuration counts for a session. So all together hold at most
/// the configured sum and that number.
pub fn edge<T: Threads + Wait + Sync, H: House, L: Link + Send, Q: Rest + Send, S: Source, K: Sink>(
    rt: &T,
    alloc: Global,
    words: &[Vec<u8>],
    guards: &Guards,
    config: &mut S,
    house: &mut H,
    link: L,
    rest: Q,
    report: &mut K,
) -> Edged<L>
    ensures serves { ServesBoth (asked_of (map (λ w. w.items) words.now))
        (outer (S.left config.old) (S.faults config.old)
        (seen (K.holds report.old) (K.faults report.old) (H.told house.old) (H.asked house.old) (H.named house.old)))
        (outer (S.left config.new) (S.faults config.new)
        (seen (K.holds report.new) (K.faults report.new) (H.told house.new) (H.asked house.new) (H.named house.new)))
        (origin (L.told link) (L.counts link)) (origin (L.told result.link) (L.counts result.link)) result.status }
    ensures untouched { result.status.code ≡ 2 → (config.new ≡ config.old) × (house.new ≡ house.old) × (report.new ≡ report.old) × (result.link ≡ link) }
{
    let (ending, link) = end(rt, alloc, words, guards, config, house, link, rest, report);
    Edged {
        status: Status {
            code: code_of(ending),
            place: 0,
        },
        link,
    }
}
