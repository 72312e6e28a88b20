//! Calls a second through ports, beside streams under a mutex of std.
ghost use Rattle.std.specs.Prelude.{◌≡◌, ◌≤◌, length, IfOk};

use crate::stream::Busy;
use av_unit::{Bytes, OutOfMemory};
use std::alloc::{AllocError, Global};
use std::sync::{Arc, Mutex, Wait};
use std::thread::Threads;
use std::time::{Clock, Instant};
use std::{hint, io, thread};
use stream_core::{Call, Entry, ShortName, StreamLimits};
use stream_registry::{
    Name, NameList, OpenList, PlaceTable, Shared, Sole, StreamPort, shared_ports,
};

// How many calls each thread makes.
const CALLS: u64 = 200_000;

const LIMITS: StreamLimits = StreamLimits {
    bytes: 1_000_000,
    items: 64,
    players: 16,
};

// The names of the streams, a byte each.
const NAMES: [u8; 4] = [b'a', b'b', b'c', b'd'];

const COUNT: Entry = Entry {
    who: 1,
    at: 0,
    call: Call::Count,
};

fn bytes(alloc: Global, text: &[u8]) -> Result<Bytes, OutOfMemory>
    ensures { IfOk result (λ b. b ≡ text.now) }
{
    let mut bytes = Bytes::new(alloc);
    bytes.append(text)?;
    Ok(bytes)
}

// The stream of this name in the application `live`.
fn name(alloc: Global, text: &[u8]) -> Result<Name, OutOfMemory>
    requires { length text.now ≤ 64 }
{
    Ok(Name {
        app: bytes(alloc, b"live")?,
        name: ShortName::new(bytes(alloc, text)?),
    })
}

fn names(alloc: Global) -> Result<NameList, OutOfMemory>
    ensures { IfOk result (λ n. length n ≤ 64) }
{
    let mut names = NameList::new(alloc);
    names.push(name(alloc, b"a")?)?;
    names.push(name(alloc, b"b")?)?;
    names.push(name(alloc, b"c")?)?;
    names.push(name(alloc, b"d")?)?;
    Ok(names)
}

/// Calls until the call is made, and answers how often it was busy.
fn make<P: StreamPort>(port: &mut P, place: u32, pass: &mut P::Pass) -> u64
    requires { P.fits port.old place pass.old }
    ensures { P.fits port.new place pass.new }
{
    let mut busy = 0u64;
    for _ in 0..u64::MAX {
        if port.call(place, pass, COUNT).is_ok() {
            return busy;
        }
        busy = busy.saturating_add(1);
        hint::spin_loop();
    }
    busy
}

/// Makes all calls of a thread at the stream of that name, and answers how often one was busy.
fn make_all<P: StreamPort>(port: &mut P, name: u8) -> u64 {
    let Ok(place) = port.find(b"live", &[name]) else {
        return 0;
    };
    let mut pass = port.attach(place);
    let mut busy = 0u64;
    for _ in 0..CALLS {
        busy = busy.saturating_add(make(port, place, &mut pass));
    }
    port.detach(place, pass);
    busy
}

/// A thread at one place of a port.
#[derive(Drop)]
struct AtPort<P: StreamPort> {
    port: P,
    name: u8,
    busy: u64,
}

impl<P: StreamPort> AtPort<P> {
    fn run(&mut self) {
        self.busy = make_all(&mut self.port, self.name);
    }
}

/// A value under a mutex, which is called there.
trait Called {
    fn call_once(&mut self);
}

impl Called for Busy {
    fn call_once(&mut self) {
        let _ = self.call(1, Call::Count);
    }
}

/// A thread at a mutex.
#[derive(Drop)]
struct AtMutex<T: Drop> {
    mutex: Arc<Mutex<T>, Global>,
}

impl<T: Called + Drop> AtMutex<T> {
    fn run<R: Wait>(&mut self, rt: &R) {
        for _ in 0..CALLS {
            self.mutex.lock(rt).call_once();
        }
    }
}

fn run_mutexes<R: Threads + Wait + Sync, T: Called + Drop + Send>(
    rt: &R,
    callers: &mut [AtMutex<T>],
) {
    thread::for_each_mut(rt, callers, 4, &|_, caller| caller.run(rt));
}

/// The name of the place of the thread with this number.
fn name_of(thread: usize, spread: bool) -> u8 {
    if spread { NAMES[thread % 4] } else { b'a' }
}

fn at_ports(
    alloc: Global,
    threads: usize,
    spread: bool,
) -> Result<Vec<AtPort<Shared<PlaceTable>>>, OutOfMemory> {
    let mut ports = shared_ports(alloc, names(alloc)?, OpenList::new(alloc), LIMITS, threads)?;
    let mut callers = Vec::new(alloc);
    for thread in 0..threads {
        if let Some(port) = ports.pop() {
            let name = name_of(thread, spread);
            callers.push(AtPort {
                port,
                name,
                busy: 0,
            })?;
        }
    }
    Ok(callers)
}

fn new_mutex(alloc: Global) -> Result<Arc<Mutex<Busy>, Global>, OutOfMemory> {
    let stream = Busy::new(alloc, LIMITS)?;
    let mutex = Arc::new(alloc, Mutex::new(stream))?;
    Ok(mutex)
}

fn at_mutexes(
    alloc: Global,
    threads: usize,
    spread: bool,
) -> Result<Vec<AtMutex<Busy>>, OutOfMemory> {
    let first = new_mutex(alloc)?;
    let mut callers = Vec::new(alloc);
    for _ in 0..threads {
        let mutex = if spread {
            new_mutex(alloc)?
        } else {
            Arc::try_clone(&first)?
        };
        callers.push(AtMutex { mutex })?;
    }
    Ok(callers)
}

/// Calls a second of all threads together.
fn rate(threads: usize, micros: u128) -> u128 {
    (threads as u128)
        .saturating_mul(u128::from(CALLS))
        .saturating_mul(1_000_000)
        .checked_div(micros)
        .unwrap_or(0)
}

/// How many of 100 tries were busy.
fn busy_tries(threads: usize, busy: u64) -> u64 {
    let made = CALLS.saturating_mul(threads as u64);
    busy.saturating_mul(100)
        .checked_div(busy.saturating_add(made))
        .unwrap_or(0)
}

fn place_word(spread: bool) -> &'static str {
    if spread { "a place each" } else { "one place" }
}

fn run_all<R: Threads + Sync, P: StreamPort + Send>(rt: &R, callers: &mut [AtPort<P>])
where
    P::Pass: Send,
{
    thread::for_each_mut(rt, callers, 4, &|_, caller| caller.run());
}

fn measure_sole<R: Clock + Print>(rt: &R, alloc: Global) -> io::Result<()> {
    let Ok(names) = names(alloc) else {
        return Err(AllocError.into());
    };
    let Ok(mut sole) = Sole::new(alloc, names, OpenList::new(alloc), LIMITS) else {
        return Err(AllocError.into());
    };
    let start = Instant::now(rt)?;
    make_all(&mut sole, b'a');
    let rate = rate(1, start.elapsed(rt)?.as_micros());
    println!(rt; "sole: {rate} calls a second")
}

fn measure_shared<R: Threads + Clock + Print + Sync>(
    rt: &R,
    alloc: Global,
    threads: usize,
    spread: bool,
) -> io::Result<()> {
    let Ok(mut callers) = at_ports(alloc, threads, spread) else {
        return Err(AllocError.into());
    };
    let start = Instant::now(rt)?;
    run_all(rt, callers.as_mut_slice());
    let rate = rate(threads, start.elapsed(rt)?.as_micros());
    let mut busy = 0u64;
    for caller in callers.as_slice() {
        busy = busy.saturating_add(caller.busy);
    }
    let busy = busy_tries(threads, busy);
    let places = place_word(spread);
    println!(rt;
        "shared: {threads} threads, {places}, {rate} calls a second, {busy} of 100 tries busy"
    )
}

fn measure_mutex<R: Threads + Wait + Clock + Print + Sync>(
    rt: &R,
    alloc: Global,
    threads: usize,
    spread: bool,
) -> io::Result<()> {
    let Ok(mut callers) = at_mutexes(alloc, threads, spread) else {
        return Err(AllocError.into());
    };
    let start = Instant::now(rt)?;
    run_mutexes(rt, callers.as_mut_slice());
    let rate = rate(threads, start.elapsed(rt)?.as_micros());
    let places = place_word(spread);
    println!(rt; "mutex: {threads} threads, {places}, {rate} calls a second")
}

/// Prints the calls a second through a port of one thread, and by 1, 2 and 4 threads through shared ports
/// and under mutexes of std: all at one place, and each at a place of its own.
pub fn measure<R: Threads + Wait + Clock + Print + Sync>(rt: &R, alloc: Global) -> io::Result<()> {
    measure_sole(rt, alloc)?;
    for spread in [false, true] {
        for threads in [1, 2, 4] {
            measure_shared(rt, alloc, threads, spread)?;
            measure_mutex(rt, alloc, threads, spread)?;
        }
    }
    Ok(())
}
