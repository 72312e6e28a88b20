//! All workers at the same time: those of sessions, and beside them that of the HTTP players.
ghost use Rattle.std.specs.Prelude.{IfSome};
ghost use Rattle.relay_serve.specs.Beside.{HttpRun, RunsIf, SessionsRun};
ghost use Rattle.relay_session.specs.Places.{IsOffered};
ghost use Rattle.relay_worker.specs.Running.{Each};
ghost use Rattle.stream_registry.specs.Names.{places};

use http_worker::HttpWorker;
use relay_outside::{Door, Rest, Sink};
use relay_session::Desk;
use relay_worker::{Worker, run_all};
use std::sync::Wait;
use std::thread::{Threads, join};
use stream_registry::StreamPort;

/// Runs each worker of sessions in a thread of its own, and the worker of HTTP players, if there is one, in
/// one more. Each runs until its door has closed and none of its sessions or players lives. The desk grants
/// places of each port.
pub(crate) fn run_beside<
    T: Threads + Wait + Sync,
    P: StreamPort + Send,
    D: Door + Send,
    R: Rest + Send,
    K: Sink + Send,
    G: Desk + Sync,
>(
    rt: &T,
    desk: &G,
    workers: Vec<Worker<P, D, R, K>>,
    http: Option<HttpWorker<P, D, R>>,
) -> (Vec<Worker<P, D, R, K>>, Option<HttpWorker<P, D, R>>)
where
    P::Pass: Send,
    D::Link: Send,
    requires offered { Each (λ w. IsOffered (G.grants desk.now) (places (P.rules w.bench.port))) workers.items }
    requires http_offered { IfSome http (λ w. IsOffered (G.grants desk.now) (places (P.rules w.bench.port))) }
    ensures sessions { SessionsRun P.fits P.rules P.root P.seen D.Link.told D.Link.counts D.told (G.grants desk.now)
        P.count K.holds K.faults workers.items result.0.items }
    ensures http { RunsIf P.fits P.rules P.root P.seen D.Link.told D.Link.counts D.told (G.grants desk.now) http result.1 }
{
    let Some(http) = http else {
        return (run_sessions(rt, desk, workers), None);
    };
    let (http, workers) = run_both(rt, desk, http, workers);
    (workers, Some(http))
}

// Runs the worker of HTTP players in a thread of its own, or last if none can be made, and the others.
fn run_both<
    T: Threads + Wait + Sync,
    P: StreamPort + Send,
    D: Door + Send,
    R: Rest + Send,
    K: Sink + Send,
    G: Desk + Sync,
>(
    rt: &T,
    desk: &G,
    http: HttpWorker<P, D, R>,
    workers: Vec<Worker<P, D, R, K>>,
) -> (HttpWorker<P, D, R>, Vec<Worker<P, D, R, K>>)
where
    P::Pass: Send,
    D::Link: Send,
    requires http_offered { IsOffered (G.grants desk.now) (places (P.rules http.bench.port)) }
    requires offered { Each (λ w. IsOffered (G.grants desk.now) (places (P.rules w.bench.port))) workers.items }
    ensures http { HttpRun P.fits P.rules P.root P.seen D.Link.told D.Link.counts D.told (G.grants desk.now) http result.0 }
    ensures sessions { SessionsRun P.fits P.rules P.root P.seen D.Link.told D.Link.counts D.told (G.grants desk.now)
        P.count K.holds K.faults workers.items result.1.items }
{
    join(
        rt,
        move || -> HttpWorker<P, D, R>
            requires { IsOffered (G.grants desk.now) (places (P.rules http.bench.port)) }
            ensures { HttpRun P.fits P.rules P.root P.seen D.Link.told D.Link.counts D.told (G.grants desk.entry.now) http result }
        { run_players(rt, desk, http) },
        move || -> Vec<Worker<P, D, R, K>>
            requires { Each (λ w. IsOffered (G.grants desk.now) (places (P.rules w.bench.port))) workers.items }
            ensures { SessionsRun P.fits P.rules P.root P.seen D.Link.told D.Link.counts D.told (G.grants desk.entry.now)
                P.count K.holds K.faults workers.items result.items }
        { run_sessions(rt, desk, workers) },
    )
}

// The worker of HTTP players, which is handed on.
fn run_players<W: Wait, P: StreamPort, D: Door, R: Rest, G: Desk>(
    rt: &W,
    desk: &G,
    mut http: HttpWorker<P, D, R>,
) -> HttpWorker<P, D, R>
    requires { IsOffered (G.grants desk.now) (places (P.rules http.bench.port)) }
    ensures { HttpRun P.fits P.rules P.root P.seen D.Link.told D.Link.counts D.told (G.grants desk.now) http result }
{
    http.run(rt, desk);
    http
}

// The workers of sessions, which are handed on.
fn run_sessions<
    T: Threads + Wait + Sync,
    P: StreamPort + Send,
    D: Door + Send,
    R: Rest + Send,
    K: Sink + Send,
    G: Desk + Sync,
>(rt: &T, desk: &G, mut workers: Vec<Worker<P, D, R, K>>) -> Vec<Worker<P, D, R, K>>
where
    P::Pass: Send,
    D::Link: Send,
    requires { Each (λ w. IsOffered (G.grants desk.now) (places (P.rules w.bench.port))) workers.items }
    ensures { SessionsRun P.fits P.rules P.root P.seen D.Link.told D.Link.counts D.told (G.grants desk.now)
        P.count K.holds K.faults workers.items result.items }
{
    run_all(rt, workers.as_mut_slice(), desk);
    workers
}
