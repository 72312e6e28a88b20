//! Connections to servers.
ghost use Rattle.std.specs.Prelude.{◌≡◌, IfOk};

use crate::clock::milliseconds;
use crate::flow::Flow;
use crate::keeping::keep_alive;
use crate::{PeerLink, PeerRest};
use mio::net::TcpStream;
use mio::{Events, Interest, Poll, Token};
use std::alloc::Global;
use std::net::{Net, SocketAddr};
use std::sync::Arc;
use std::time::Duration;
use std::{io, net};

/// The bounds in time of a connection, in milliseconds.
#[derive(Clone, Copy)]
pub struct Bounds {
    /// How long a server that must send something may be silent, and how long a server may take nothing. 0 is
    /// for ever.
    pub silence: u64,
    /// After which time the connection ends, if it ends by itself.
    pub most: Option<u64>,
}

// Opens a socket to the first of the addresses that answers.
fn reach<R: Net<Stream = net::TcpStream>>(
    rt: &R,
    addresses: &[SocketAddr],
    silence: u64,
) -> io::Result<net::TcpStream> {
    let mut last = io::Error::from(io::ErrorKind::NotFound);
    for address in addresses {
        let opened = if silence == 0 {
            net::TcpStream::connect(rt, *address)
        } else {
            net::TcpStream::connect_timeout(rt, address, Duration::from_millis(silence))
        };
        match opened {
            Ok(stream) => return Ok(stream),
            Err(error) => last = error,
        }
    }
    Err(last)
}

// Opens a connection whose calls don't wait, with the poll that reports when there is something to do.
fn open<R: Net<Stream = net::TcpStream>>(
    rt: &R,
    addresses: &[SocketAddr],
    silence: u64,
) -> io::Result<(TcpStream, Poll)> {
    let stream = reach(rt, addresses, silence)?;
    stream.set_nonblocking(true)?;
    stream.set_nodelay(true)?;
    let mut stream = TcpStream::from_std(stream);
    keep_alive(&stream);
    let poll = Poll::new(rt)?;
    poll.registry().register(
        &mut stream,
        Token(0),
        Interest::READABLE | Interest::WRITABLE,
    )?;
    Ok((stream, poll))
}

/// Connects to a server, at the first of its addresses that answers. If that fails, each call of the link fails
/// too, and its error says why.
pub fn connect<R: Net<Stream = net::TcpStream>>(
    rt: &R,
    alloc: Global,
    addresses: &[SocketAddr],
    bounds: Bounds,
    flow: Arc<Flow, Global>,
) -> io::Result<(PeerLink, PeerRest)>
    ensures { IfOk result (λ both. both.0 ≡ record { faults = 0; waits = 0; ends = 0 }) }
{
    let events = Events::with_capacity(alloc, 8)?;
    let until = bounds.most.map(|most| milliseconds().saturating_add(most));
    Ok(match open(rt, addresses, bounds.silence) {
        Ok((stream, poll)) => (
            PeerLink::new(Some(stream), None, bounds.silence, until, flow),
            PeerRest {
                poll: Some(poll),
                events,
                until,
            },
        ),
        Err(error) => (
            PeerLink::new(None, Some(error), bounds.silence, until, flow),
            PeerRest {
                poll: None,
                events,
                until,
            },
        ),
    })
}
