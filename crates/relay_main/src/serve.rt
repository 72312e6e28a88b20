//! `relay serve`: the file of the configuration, the house over sockets and files, and the messages on
//! standard error.

use crate::adapters::{ConfigFile, Reading, Writing};
use crate::check_config::explain;
use crate::clients::unfit;
use crate::starting::prepare;
use crate::watching::watching;
use crate::{BAD_INPUT, NO_MEMORY, READ_FAULT, WRITE_FAULT, status, tell_fault};
use key_guard::Guards;
use relay_base::Status;
use relay_edge::{RealHouse, is_heard};
use relay_serve::serve;
use std::fs::{File, Files};
use std::io::Eprint;
use std::net::Net;
use std::sync::Wait;
use std::thread::Threads;
use std::{io, net, str};

/// Returns the name of the configuration's file.
pub fn file_name(words: &[Vec<u8>]) -> &str {
    match words {
        [_, name] => str::from_utf8(name.as_slice()).unwrap_or(""),
        _ => "",
    }
}

/// Writes why a server ended. `file` and `output` are the faults of the configuration's file, which has this
/// name, and of standard output.
pub fn tell_end<R: Eprint + Files<File = File>>(
    host: &HostRuntime,
    rt: &R,
    name: &str,
    ended: Status,
    file: Option<io::Error>,
    output: Option<io::Error>,
) {
    if ended.code == 0 || !is_heard() {
        return;
    }
    match ended.code {
        READ_FAULT => tell_fault(host, name, file),
        BAD_INPUT => explain(rt, host.alloc(), name),
        WRITE_FAULT => tell_fault(host, "standard output", output),
        NO_MEMORY => {
            let _ = eprintln!(host; "relay: out of memory");
        }
        _ => {}
    }
}

/// Serves by the configuration in the file that the words name. Writes the cause if it couldn't.
pub fn command<
    T: Threads
        + Wait
        + Sync
        + Eprint
        + Files<File = File>
        + Net<Listener = net::TcpListener, Stream = net::TcpStream>,
>(host: &HostRuntime, rt: &T, words: &[Vec<u8>], guards: &Guards) -> Status {
    let alloc = host.alloc();
    let name = file_name(words);
    let watching = match watching(host) {
        Ok(watching) => watching,
        Err(error) => return status(unfit(host, error)),
    };
    let mut config = Reading::new(ConfigFile::open(rt, name));
    let mut report = Writing::new(io::writer(host));
    let Ok(mut house) = RealHouse::watched(rt, alloc, watching) else {
        return status(NO_MEMORY);
    };
    house.spare(name);
    if let Some(refused) = prepare(rt, alloc, &house, name, 0) {
        return refused;
    }
    let ended = serve(
        rt,
        alloc,
        words,
        guards,
        &mut config,
        &mut house,
        &mut report,
    );
    house.clear();
    tell_end(host, rt, name, ended, config.error(), report.error());
    ended
}
