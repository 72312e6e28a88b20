//! `relay push` and `relay pull`: the link to a server, and the messages on standard error.

use crate::meter::{Meter, Progress};
use crate::request::{Options, read_named, read_options, spelled};
use crate::watching::{Unfit, Watched, read_watched, tell_unfit};
use crate::{
    BAD_INPUT, BAD_WORDS, LINK_FAULT, NO_MEMORY, READ_FAULT, WRITE_FAULT, status, tell_fault,
};
use client_command::{Ended, Refusal, pull, push};
use client_owed::Wish;
use relay_base::Status;
use relay_edge::Shown;
use relay_peer::{
    Bounds, FilmFault, Flow, Parting, PeerFilm, PeerLink, PeerOutput, PeerRest, Unknown, connect,
    look_up,
};
use std::alloc::Global;
use std::fs::{File, Files};
use std::net::{Net, SocketAddr};
use std::sync::{Arc, Wait};
use std::{io, net, str};

/// The exit code of a connection that the server closed.
const CLOSED: u8 = 10;

/// The exit code of a server that sent invalid RTMP.
const NO_RTMP: u8 = 12;

/// The exit code of a server that refused the publish or the play.
const REFUSED: u8 = 13;

/// The most bytes of a server's code or description that are shown.
const MOST_TOLD: usize = 255;

/// The milliseconds of a second.
const SECOND: u64 = 1000;

/// What a client is asked to do.
#[derive(Drop)]
struct Request {
    // The command, the address, the app and the name.
    words: Vec<Vec<u8>>,
    options: Options,
    watched: Watched,
    addresses: Vec<SocketAddr>,
}

// Returns the bytes as they are shown.
fn shown(word: &[u8]) -> Shown<'_> {
    Shown {
        text: str::from_utf8(word).unwrap_or(""),
    }
}

// Returns the server's address, as the words have it.
fn address_of(words: &[Vec<u8>]) -> Shown<'_> {
    shown(match words {
        [_, address, ..] => address.as_slice(),
        _ => b"",
    })
}

/// Returns the addresses of the server of that name. Writes the reason if there are none, and returns the exit
/// code.
pub fn addresses<R: Net>(host: &HostRuntime, rt: &R, server: &[u8]) -> Result<Vec<SocketAddr>, u8> {
    match look_up(rt, host.alloc(), server) {
        Ok(addresses) => Ok(addresses),
        Err(Unknown::OutOfMemory) => Err(NO_MEMORY),
        Err(Unknown::NoServer) => {
            let _ = eprintln!(host;
                "relay: {}: an address is wanted, as 127.0.0.1:1935 or media.example.org",
                shown(server)
            );
            Err(BAD_WORDS)
        }
        Err(Unknown::NotFound(error)) => {
            let _ = eprintln!(host; "relay: {}: {error}", shown(server));
            Err(LINK_FAULT)
        }
    }
}

/// Writes which variable is unfit, unless that was done, and returns the exit code.
pub fn unfit(host: &HostRuntime, unfit: Unfit) -> u8 {
    match unfit {
        Unfit::OutOfMemory => NO_MEMORY,
        Unfit::Told => BAD_WORDS,
        Unfit::Variable { name, wanted } => {
            tell_unfit(host, name, wanted);
            BAD_WORDS
        }
    }
}

// Returns what the words ask for. If they aren't those of the command, or the server isn't known, it returns the
// exit code.
fn read_request<T: Net<Stream = net::TcpStream> + Files<File = File>>(
    host: &HostRuntime,
    rt: &T,
    wish: Wish,
    words: &[Vec<u8>],
) -> Result<Request, u8> {
    let Some((command, more)) = words.split_at_checked(1) else {
        return Err(BAD_WORDS);
    };
    let Some((options, more)) = read_options(wish, more) else {
        return Err(BAD_WORDS);
    };
    let Some(named) = read_named(more) else {
        return Err(BAD_WORDS);
    };
    let watched = read_watched(host).map_err(|error| unfit(host, error))?;
    let addresses = addresses(host, rt, named.address)?;
    let words = spelled(host, rt, command, named).map_err(|error| unfit(host, error))?;
    Ok(Request {
        words,
        options,
        watched,
        addresses,
    })
}

// Connects to the server. Returns `None` if there is no memory.
fn link<T: Net<Stream = net::TcpStream>>(
    host: &HostRuntime,
    rt: &T,
    request: &Request,
    flow: &Arc<Flow, Global>,
) -> Option<(PeerLink, PeerRest)> {
    let bounds = Bounds {
        silence: request.watched.silence.saturating_mul(SECOND),
        most: request
            .options
            .seconds
            .map(|seconds| seconds.saturating_mul(SECOND)),
    };
    let flow = Arc::try_clone(flow).ok()?;
    let both = connect(rt, host.alloc(), request.addresses.as_slice(), bounds, flow).ok()?;
    if request.watched.informs && both.0.is_open() {
        let _ = eprintln!(host;
            "relay: {}: connected",
            address_of(request.words.as_slice())
        );
    }
    Some(both)
}

// Returns a meter for the film of a client.
fn meter<'a>(
    host: &'a HostRuntime,
    watched: &Watched,
    begun: &'static str,
    done: &'static str,
) -> Meter<'a> {
    let progress = if watched.is_off {
        Progress::Nowhere
    } else if libc::isatty(libc::STDERR_FILENO) == 1 {
        Progress::Terminal
    } else if watched.informs {
        Progress::Log
    } else {
        Progress::Nowhere
    };
    Meter::new(host, progress, watched.informs, begun, done)
}

// Returns a server's words as they are shown: the first bytes, with no character cut, or none if they aren't UTF-8.
fn told(words: &[u8]) -> Shown<'_> {
    let most = words.len().min(MOST_TOLD);
    for less in 0..4usize {
        if let Some(head) = words.get(..most.saturating_sub(less)) {
            if let Ok(text) = str::from_utf8(head) {
                return Shown { text };
            }
        }
    }
    Shown { text: "" }
}

// Writes that the server refused, with its code and its description.
fn tell_refusal(host: &HostRuntime, code: &[u8], description: &[u8]) {
    let code = told(code);
    let description = told(description);
    let _ = if code.text.is_empty() && description.text.is_empty() {
        eprintln!(host; "relay: the server refused")
    } else if description.text.is_empty() {
        eprintln!(host; "relay: the server refused: {code}")
    } else if code.text.is_empty() {
        eprintln!(host; "relay: the server refused: {description}")
    } else {
        eprintln!(host; "relay: the server refused: {code}: {description}")
    };
}

// Says why a command ended that has a link to a server.
fn tell_end(host: &HostRuntime, request: &Request, link: &PeerLink, ended: &Ended) {
    let address = address_of(request.words.as_slice());
    let place = ended.status.place;
    let _ = match ended.status.code {
        NO_MEMORY => eprintln!(host; "relay: out of memory"),
        CLOSED => eprintln!(host; "relay: {address}: the server closed the connection"),
        LINK_FAULT if link.is_silent() => eprintln!(host;
            "relay: {address}: the server was silent for {} s",
            request.watched.silence
        ),
        LINK_FAULT => match link.error() {
            Some(error) => eprintln!(host; "relay: {address}: {error}"),
            None => Ok(()),
        },
        NO_RTMP => eprintln!(host;
            "relay: {address}: the server sent invalid RTMP at byte {place}"
        ),
        REFUSED => {
            let Refusal { code, description } = &ended.refusal;
            tell_refusal(host, code.as_slice(), description.as_slice());
            Ok(())
        }
        _ => Ok(()),
    };
}

// Writes why the film is refused at that byte.
fn tell_input(host: &HostRuntime, fault: FilmFault, place: u64) {
    let _ = match fault {
        FilmFault::NoFilm => eprintln!(host;
            "relay: standard input is not FLV from byte {place} on"
        ),
        FilmFault::BreaksOff => eprintln!(host;
            "relay: standard input breaks off in the tag at byte {place}"
        ),
        FilmFault::TooLong => eprintln!(host;
            "relay: standard input has a tag of more than 4194304 bytes at byte {place}"
        ),
    };
}

// Closes a link over which all was sent, and returns the exit code by what the server did last.
fn close(host: &HostRuntime, request: &Request, link: PeerLink, rest: &mut PeerRest) -> u8 {
    match link.close(host.alloc(), rest) {
        Parting::Quiet => 0,
        Parting::Failed(error) => {
            let address = address_of(request.words.as_slice());
            let _ = eprintln!(host; "relay: {address}: {error}");
            LINK_FAULT
        }
        Parting::Refused { code, description } => {
            tell_refusal(host, code.as_slice(), description.as_slice());
            REFUSED
        }
    }
}

/// Publishes standard input at a server, and says why it didn't do all of it. It connects when the first byte
/// has come.
pub fn push_command<T: Wait + Net<Stream = net::TcpStream> + Files<File = File>>(
    host: &HostRuntime,
    rt: &T,
    words: &[Vec<u8>],
) -> Status {
    let request = match read_request(host, rt, Wish::Push, words) {
        Ok(request) => request,
        Err(code) => return status(code),
    };
    let Ok(flow) = Arc::new(host.alloc(), Flow::new()) else {
        return status(NO_MEMORY);
    };
    let Ok(shared) = Arc::try_clone(&flow) else {
        return status(NO_MEMORY);
    };
    let meter = meter(
        host,
        &request.watched,
        "the server takes the stream",
        "sent",
    );
    let mut film = PeerFilm::new(host.reader(), shared, meter, request.options.paced);
    match film.begins() {
        Some(true) => {}
        Some(false) => {
            tell_input(host, FilmFault::NoFilm, 0);
            return status(BAD_INPUT);
        }
        None => {
            tell_fault(host, "standard input", film.error());
            return status(READ_FAULT);
        }
    }
    let Some((mut link, mut rest)) = link(host, rt, &request, &flow) else {
        return status(NO_MEMORY);
    };
    let ended = push(
        rt,
        host.alloc(),
        request.words.as_slice(),
        &mut film,
        &mut link,
        &mut rest,
    );
    film.watch().end();
    let Status { code, place } = ended.status;
    match code {
        0 => {
            let haste = film.haste();
            let code = close(host, &request, link, &mut rest);
            if let Some(haste) = haste {
                let _ = eprintln!(host;
                    "relay: {} s of film were sent in {} s: players and recordings may miss a part of it (see relay push --help on --pace)",
                    haste.played, haste.took
                );
            }
            return status(code);
        }
        READ_FAULT => tell_fault(host, "standard input", film.error()),
        BAD_INPUT => tell_input(host, film.fault(), place),
        _ => tell_end(host, &request, &link, &ended),
    }
    Status { code, place }
}

/// Plays a stream of a server to standard output, and says why it didn't do all of it.
pub fn pull_command<T: Wait + Net<Stream = net::TcpStream> + Files<File = File>>(
    host: &HostRuntime,
    rt: &T,
    words: &[Vec<u8>],
) -> Status {
    let request = match read_request(host, rt, Wish::Pull, words) {
        Ok(request) => request,
        Err(code) => return status(code),
    };
    let Ok(flow) = Arc::new(host.alloc(), Flow::new()) else {
        return status(NO_MEMORY);
    };
    let Some((mut link, mut rest)) = link(host, rt, &request, &flow) else {
        return status(NO_MEMORY);
    };
    let meter = meter(host, &request.watched, "the stream begins", "received");
    let mut out = PeerOutput::new(io::writer(host), flow, meter, request.options.from_zero);
    let ended = pull(
        rt,
        host.alloc(),
        request.words.as_slice(),
        &mut link,
        &mut rest,
        &mut out,
    );
    out.watch().end();
    let over = ended.status.code == 0 || (ended.status.code == CLOSED && link.is_over());
    if over {
        if out.tags() == 0 {
            let _ = eprintln!(host; "relay: nothing of the stream came");
        }
        return status(0);
    }
    if ended.status.code == WRITE_FAULT {
        tell_fault(host, "standard output", out.error());
    } else {
        tell_end(host, &request, &link, &ended);
    }
    ended.status
}
