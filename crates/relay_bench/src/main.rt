//! Measurements. Each word names a measurement, which is run; without words nothing is done.
//!
//! Read `measure` first: it maps each word to its module.
#![tactic(auto)]

mod chunks;
mod flv;
mod gate;
mod ports;
mod rates;
mod stream;
mod ts;
mod writing;

use std::alloc::Global;
use std::sync::Wait;
use std::thread::Threads;
use std::time::Clock;
use std::{env, io};

fn measure<R: Threads + Wait + Clock + Print + Sync>(
    rt: &R,
    alloc: Global,
    word: &str,
) -> io::Result<()> {
    match word {
        "gate" => gate::measure(rt, alloc),
        "chunks" => chunks::measure(rt, alloc),
        "writer" => writing::measure(rt, alloc),
        "flv" => flv::measure(rt, alloc),
        "ports" => ports::measure(rt, alloc),
        "stream" => stream::measure(rt, alloc),
        "ts" => ts::measure(rt, alloc),
        _ => Ok(()),
    }
}

fn main(rt: HostRuntime) -> io::Result<()> {
    for word in env::args(&rt)?.skip(1) {
        measure(&rt, rt.alloc(), word.as_str())?;
    }
    Ok(())
}
