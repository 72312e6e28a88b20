//! The needs of a configuration that the system must meet: descriptors, and a thread for each worker.

use crate::check_config::{all_links, read_anew};
use crate::{HOUSE_FAULT, status};
use relay_base::Status;
use relay_config::{Config, http_workers, read_config};
use relay_edge::{RealHouse, most_descriptors};
use std::alloc::Global;
use std::fs::{File, Files};
use std::io::Eprint;
use std::sync::Arc;
use std::sync::atomic::{AtomicBool, Ordering};
use std::thread;
use std::thread::Threads;

/// The longest time that a tried thread goes on, in milliseconds.
const LONGEST: u32 = 60_000;

/// How many descriptors a worker has: its poll, a handle of that, its waker, and a handle of the socket at which
/// it listens.
const OF_WORKER: u64 = 4;

/// The further descriptors of a server: the standard streams, two listening sockets with two handles of each,
/// the control socket and its 16 clients. Some are the C library's.
const OF_SERVER: u64 = 32;

/// The needs of a server.
#[derive(Clone, Copy)]
struct Needs {
    /// Descriptors, when all links are taken.
    pub descriptors: u64,
    /// Workers, with that of HTTP players and that of an edge. Each needs a thread of its own, and the first
    /// has the program's.
    pub workers: u32,
}

// Returns the number of files that the configuration records to.
fn recordings(config: &Config) -> u64 {
    let mut count = 0u64;
    for rule in config.places.as_slice() {
        count = count.saturating_add(u64::from(rule.flv.is_some()));
        count = count.saturating_add(u64::from(rule.ts.is_some()));
    }
    count
}

// Returns the needs of the configuration in the file of that name, with `edges` origins. Returns `None` if it
// is refused, or can't be read anew.
fn needs_of<R: Files<File = File>>(rt: &R, alloc: Global, name: &str, edges: u32) -> Option<Needs> {
    let text = read_anew(rt, alloc, name)?;
    let config = read_config(alloc, text.as_slice()).ok()?;
    let workers = config
        .workers
        .saturating_add(http_workers(&config))
        .saturating_add(edges);
    let polls = u64::from(workers).saturating_mul(OF_WORKER);
    let links = u64::from(all_links(&config)).saturating_add(u64::from(edges));
    Some(Needs {
        descriptors: polls
            .saturating_add(links)
            .saturating_add(recordings(&config))
            .saturating_add(OF_SERVER),
        workers,
    })
}

// Goes on until `over` is set.
fn go_on(over: &AtomicBool) {
    for _ in 0..LONGEST {
        if over.load(Ordering::SeqCst) {
            return;
        }
        libc::net::poll(&mut [], 1);
    }
}

// Returns how many threads the system gives at once besides this one, up to `most`.
fn threads<R: Threads>(rt: &R, alloc: Global, most: u32) -> u32 {
    let Ok(over) = Arc::new(alloc, AtomicBool::new(false)) else {
        return 0;
    };
    let mut running = Vec::new(alloc);
    let mut count = 0u32;
    for _ in 0..most {
        let Ok(theirs) = Arc::try_clone(&over) else {
            break;
        };
        let Ok(thread) = thread::spawn(rt, move || go_on(&theirs)) else {
            break;
        };
        count = count.saturating_add(1);
        let _ = running.push(thread);
    }
    over.store(true, Ordering::SeqCst);
    for thread in running {
        thread.join(rt);
    }
    count
}

/// Writes a message if the system gives fewer descriptors than the configuration in the file of that name
/// needs. If it gives fewer threads than there are workers, the server can't start: that is written too, and
/// the exit status is returned. A file that can't be read anew is checked only when it is served.
pub fn prepare<R: Threads + Eprint + Files<File = File>>(
    rt: &R,
    alloc: Global,
    house: &RealHouse<'_, R>,
    name: &str,
    edges: u32,
) -> Option<Status> {
    let needs = needs_of(rt, alloc, name, edges)?;
    let given = most_descriptors();
    if given < needs.descriptors {
        house.say(&format_args!(
            "relay: all links together need {} descriptors, and the system gives {given}",
            needs.descriptors
        ));
    }
    let beside = needs.workers.saturating_sub(1);
    let given = threads(rt, alloc, beside).saturating_add(1);
    if given >= needs.workers {
        return None;
    }
    house.say(&format_args!(
        "relay: the system gives threads to {given} of {} workers, and each needs one",
        needs.workers
    ));
    Some(status(HOUSE_FAULT))
}
