//! `relay edge`: a server as `serve` makes it, the link to its origin, and the messages on standard error.

use crate::adapters::{ConfigFile, Reading, Writing};
use crate::check_config::is_open;
use crate::clients::{addresses, unfit};
use crate::request::{read_named, spelled};
use crate::serve::{file_name, tell_end};
use crate::starting::prepare;
use crate::watching::watching;
use crate::{BAD_WORDS, HOUSE_FAULT, LINK_FAULT, NO_MEMORY, status, tell_fault};
use edge_serve::{Edged, edge};
use key_guard::Guards;
use relay_base::Status;
use relay_edge::{RealHouse, Shown};
use std::fs::{File, Files};
use std::io::Eprint;
use std::net::Net;
use std::sync::Wait;
use std::thread::Threads;
use std::{io, net};

/// Serves by the configuration in the file that the words name, and publishes there the stream that they name
/// at the origin. Writes the cause if it couldn't.
pub fn command<
    T: Threads
        + Wait
        + Sync
        + Eprint
        + Files<File = File>
        + Net<Listener = net::TcpListener, Stream = net::TcpStream>,
>(host: &HostRuntime, rt: &T, words: &[Vec<u8>], guards: &Guards) -> Status {
    let alloc = host.alloc();
    let Some((command, more)) = words.split_at_checked(2) else {
        return status(BAD_WORDS);
    };
    let Some(named) = read_named(more) else {
        return status(BAD_WORDS);
    };
    let addresses = match addresses(host, rt, named.address) {
        Ok(addresses) => addresses,
        Err(code) => return status(code),
    };
    let Some(address) = addresses.first().copied() else {
        return status(LINK_FAULT);
    };
    let words = match spelled(host, rt, command, named) {
        Ok(words) => words,
        Err(error) => return status(unfit(host, error)),
    };
    let words = words.as_slice();
    let name = file_name(words.get(..2).unwrap_or(words));
    let watching = match watching(host) {
        Ok(watching) => watching,
        Err(error) => return status(unfit(host, error)),
    };
    let mut config = Reading::new(ConfigFile::open(rt, name));
    let mut report = Writing::new(io::writer(host));
    let Ok(mut house) = RealHouse::watched(rt, alloc, watching) else {
        return status(NO_MEMORY);
    };
    house.spare(name);
    if is_open(rt, alloc, name) {
        house.say(&format_args!(
            "relay: {}: it lists no stream, so nobody can ask for what the origin sends",
            Shown { text: name }
        ));
    }
    if let Some(refused) = prepare(rt, alloc, &house, name, 1) {
        return refused;
    }
    let (link, rest) = match house.reach(address) {
        Ok(both) => both,
        Err(error) => {
            tell_fault(host, "the edge's poll", Some(error));
            return status(HOUSE_FAULT);
        }
    };
    let Edged {
        status: ended,
        link,
    } = edge(
        rt,
        alloc,
        words,
        guards,
        &mut config,
        &mut house,
        link,
        rest,
        &mut report,
    );
    drop(link);
    house.clear();
    tell_end(host, rt, name, ended, config.error(), report.error());
    ended
}
