//! All workers at the same time.
ghost use Rattle.std.specs.Prelude.{◌<◌, ℕ, All, length, slice_index_or};
ghost use Rattle.stream_registry.specs.Names.{places};
ghost use Rattle.relay_session.specs.Places.{IsOffered};
ghost use Rattle.relay_worker.specs.Books.{HasBooks};
ghost use Rattle.relay_worker.specs.Coming.{ByRounds};
ghost use Rattle.relay_worker.specs.Filed.{Tallies};
ghost use Rattle.relay_worker.specs.Running.{Each, HasRun, KeepsOn};

use crate::worker::Worker;
use relay_outside::{Door, Rest, Sink};
use relay_session::Desk;
use std::sync::Wait;
use std::thread;
use std::thread::Threads;
use stream_registry::StreamPort;

/// Each worker runs in a thread of its own until its door has closed and none of its sessions lives. It
/// comes there by rounds, and does nothing between them. The desk grants places of each port, and it is
/// lent to all of them.
pub fn run_all<
    T: Threads + Wait + Sync,
    P: StreamPort + Send,
    D: Door + Send,
    R: Rest + Send,
    K: Sink + Send,
    G: Desk + Sync,
>(rt: &T, workers: &mut [Worker<P, D, R, K>], desk: &G)
where
    P::Pass: Send,
    D::Link: Send,
    requires offered { Each (λ w. IsOffered (G.grants desk.now) (places (P.rules w.bench.port))) workers.old }
    ensures run { All (λ w. HasRun D.told w) workers.new }
    ensures rounds { (i : ℕ) (d : _) → i < length workers.old
        → ByRounds P.fits P.rules P.root P.seen P.mine P.count P.wants P.busies P.adds P.kin P.branches
        D.Link.told D.Link.counts D.Link.hears D.Link.says D.Link.ready D.told K.takes K.holds (G.grants desk.now)
        (slice_index_or workers.old i d) (slice_index_or workers.new i d) }
    ensures keeps { (i : ℕ) (d : _) → i < length workers.old
        → KeepsOn P.fits P.rules P.root (slice_index_or workers.old i d) (slice_index_or workers.new i d) }
    ensures tallies { (i : ℕ) (d : _) → i < length workers.old → All (Tallies P.count K.holds K.faults) (slice_index_or workers.old i d).recorders
        → All (Tallies P.count K.holds K.faults) (slice_index_or workers.new i d).recorders }
    ensures books { (i : ℕ) (d : _) → i < length workers.old
        → HasBooks P.rules P.root P.seen D.Link.told D.Link.counts D.told (G.grants desk.now) (slice_index_or workers.old i d)
        → HasBooks P.rules P.root P.seen D.Link.told D.Link.counts D.told (G.grants desk.now) (slice_index_or workers.new i d) }
{
    let count = workers.len().max(1);
    thread::for_each_mut(
        rt,
        workers,
        count,
        &|_, worker: &mut Worker<P, D, R, K>|
            requires { IsOffered (G.grants desk.now) (places (P.rules worker.old.bench.port)) }
            ensures { HasRun D.told worker.new × KeepsOn P.fits P.rules P.root worker.old worker.new
                × (All (Tallies P.count K.holds K.faults) worker.old.recorders → All (Tallies P.count K.holds K.faults) worker.new.recorders)
                × (HasBooks P.rules P.root P.seen D.Link.told D.Link.counts D.told (G.grants desk.entry.now) worker.old
                → HasBooks P.rules P.root P.seen D.Link.told D.Link.counts D.told (G.grants desk.entry.now) worker.new)
                × ByRounds P.fits P.rules P.root P.seen P.mine P.count P.wants P.busies P.adds P.kin P.branches
                D.Link.told D.Link.counts D.Link.hears D.Link.says D.Link.ready D.told K.takes K.holds (G.grants desk.entry.now)
                worker.old worker.new }
        { worker.run(rt, desk) },
    );
}
