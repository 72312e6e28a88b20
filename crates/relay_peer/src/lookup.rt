//! The addresses of a server.

use std::alloc::Global;
use std::net::{IpAddr, Net, SocketAddr, ToSocketAddrs};
use std::{io, str};

/// The port of a server whose address has none: that of RTMP.
const PORT: u16 = 1935;

/// The most bytes of a server's name with its port, which is told to the server.
const MOST: usize = 255;

/// Why a server has no address.
#[derive(Drop)]
pub enum Unknown {
    /// The text is no `HOST[:PORT]`, or has more than 255 bytes.
    NoServer,
    /// The system doesn't know the name.
    NotFound(io::Error),
    OutOfMemory,
}

// Returns whether the text may be the name of a host.
fn is_host(name: &str) -> bool {
    !name.is_empty()
        && name.as_bytes().iter().all(|byte| byte.is_ascii_alphanumeric()
            || *byte == b'-'
            || *byte == b'.'
            || *byte == b'_')
}

// Returns the host and the port of the text, which has no IP address and port.
fn parts(text: &str) -> Option<(&str, u16)> {
    if let Some(inner) = text.strip_prefix('[') {
        return Some((inner.strip_suffix(']')?, PORT));
    }
    if text.parse::<IpAddr>().is_ok() {
        return Some((text, PORT));
    }
    let (host, port) = match text.rsplit_once(':') {
        Some((host, port)) => (host, port.parse::<u16>().ok()?),
        None => (text, PORT),
    };
    is_host(host).then_some((host, port))
}

/// Returns the addresses of the server that the bytes name, as `HOST[:PORT]`: an IP address, or a name that the
/// system looks up. Without a port it is 1935.
pub fn look_up<R: Net>(rt: &R, alloc: Global, server: &[u8]) -> Result<Vec<SocketAddr>, Unknown> {
    if server.len() > MOST {
        return Err(Unknown::NoServer);
    }
    let text = str::from_utf8(server).map_err(|_| Unknown::NoServer)?;
    let mut found = Vec::new(alloc);
    if let Ok(address) = text.parse::<SocketAddr>() {
        found.push(address).map_err(|_| Unknown::OutOfMemory)?;
        return Ok(found);
    }
    let both = parts(text).ok_or(Unknown::NoServer)?;
    for address in both.to_socket_addrs(rt).map_err(Unknown::NotFound)? {
        found.push(address).map_err(|_| Unknown::OutOfMemory)?;
    }
    if found.is_empty() {
        return Err(Unknown::NotFound(io::Error::from(io::ErrorKind::NotFound)));
    }
    Ok(found)
}
