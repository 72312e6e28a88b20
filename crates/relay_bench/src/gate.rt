//! Calls a second at a gate, beside a mutex of std.
ghost use Rattle.std.specs.Prelude.{◌≡◌};
ghost use Rattle.std.specs.Arc.{arc_value};

use std::alloc::{AllocError, Global};
use std::sync::{Arc, Mutex, Wait};
use std::thread::Threads;
use std::time::{Clock, Instant};
use std::{hint, io, thread};
use turn_gate::{Gate, Machine, Pass};

// How many calls each thread makes.
const CALLS: u64 = 1_000_000;

/// The sum of all calls, modulo 2^64.
#[derive(Drop)]
struct Counter {
    sum: u64,
}

impl Counter {
    fn add(&mut self, number: u64) -> u64 {
        self.sum = self.sum.wrapping_add(number);
        self.sum
    }
}

impl Machine for Counter {
    type Call = u64;

    type Reply = u64;

    type About = ();

    ghost about = { λ _. tt };

    ghost any = { tt };

    ghost stands = { λ _ _. Unit {0} };

    ghost lawful = { λ _ _. Unit {0} };

    fn apply(&mut self, call: u64) -> u64 {
        self.add(call)
    }

    ghost legal = { λ _ _ _. tt };
}

/// A thread at the gate.
#[derive(Drop)]
struct AtGate<T: Machine + Drop> {
    gate: Arc<Gate<T>, Global>,
    pass: Pass<T>,
    busy: u64,
    ghost fits: { pass.gate ≡ arc_value gate },
}

impl AtGate<Counter> {
    fn is_answered(&mut self) -> bool {
        self.gate.call(&mut self.pass, 1).is_ok()
    }

    /// Calls until the call is made.
    fn make(&mut self) {
        for _ in 0..u64::MAX {
            if self.is_answered() {
                return;
            }
            self.busy = self.busy.saturating_add(1);
            hint::spin_loop();
        }
    }

    fn run(&mut self) {
        for _ in 0..CALLS {
            self.make();
        }
    }
}

/// A thread at the mutex.
#[derive(Drop)]
struct AtMutex {
    mutex: Arc<Mutex<Counter>, Global>,
}

impl AtMutex {
    fn run<R: Wait>(&mut self, rt: &R) {
        for _ in 0..CALLS {
            self.mutex.lock(rt).add(1);
        }
    }
}

fn at_gate(alloc: Global, threads: u64) -> Result<Vec<AtGate<Counter>>, AllocError> {
    let (gate, mut root) = Gate::new(alloc, Counter { sum: 0 }, &())?;
    let gate = Arc::new(alloc, gate)?;
    let mut callers = Vec::new(alloc);
    for _ in 0..threads {
        let pass = gate.split(&mut root);
        callers.push(AtGate {
            gate: Arc::try_clone(&gate)?,
            pass,
            busy: 0,
        })?;
    }
    Ok(callers)
}

fn at_mutex(alloc: Global, threads: u64) -> Result<Vec<AtMutex>, AllocError> {
    let mutex = Arc::new(alloc, Mutex::new(Counter { sum: 0 }))?;
    let mut callers = Vec::new(alloc);
    for _ in 0..threads {
        callers.push(AtMutex {
            mutex: Arc::try_clone(&mutex)?,
        })?;
    }
    Ok(callers)
}

/// Calls a second of all threads together.
fn rate(threads: u64, micros: u128) -> u128 {
    u128::from(threads.saturating_mul(CALLS))
        .saturating_mul(1_000_000)
        .checked_div(micros)
        .unwrap_or(0)
}

fn measure_gate<R: Threads + Clock + Print + Sync>(
    rt: &R,
    alloc: Global,
    threads: u64,
) -> io::Result<()> {
    let mut callers = at_gate(alloc, threads)?;
    let start = Instant::now(rt)?;
    thread::for_each_mut(rt, callers.as_mut_slice(), 4, &|_, caller| caller.run());
    let rate = rate(threads, start.elapsed(rt)?.as_micros());
    let mut busy = 0u64;
    for caller in callers.as_slice() {
        busy = busy.saturating_add(caller.busy);
    }
    println!(rt; "gate: {threads} threads, {rate} calls a second, {busy} times busy")
}

fn measure_mutex<R: Threads + Wait + Clock + Print + Sync>(
    rt: &R,
    alloc: Global,
    threads: u64,
) -> io::Result<()> {
    let mut callers = at_mutex(alloc, threads)?;
    let start = Instant::now(rt)?;
    thread::for_each_mut(rt, callers.as_mut_slice(), 4, &|_, caller| caller.run(rt));
    let rate = rate(threads, start.elapsed(rt)?.as_micros());
    println!(rt; "mutex: {threads} threads, {rate} calls a second")
}

/// Prints the calls a second by 1, 2 and 4 threads, at a gate and at a mutex.
pub fn measure<R: Threads + Wait + Clock + Print + Sync>(rt: &R, alloc: Global) -> io::Result<()> {
    for threads in [1, 2, 4] {
        measure_gate(rt, alloc, threads)?;
        measure_mutex(rt, alloc, threads)?;
    }
    Ok(())
}
