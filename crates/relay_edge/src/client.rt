//! Who is at the other end of a link.

use std::fmt;
use std::fmt::{Display, Formatter};
use std::net::{IpAddr, SocketAddr};

/// Who is at the other end of a link, as the log and the statistics show it.
#[derive(Clone, Copy)]
pub enum Client {
    /// Its peer.
    Peer(SocketAddr),
    /// Who asks by its peer, which is an HTTP proxy.
    Forwarded { address: IpAddr, proxy: SocketAddr },
}

impl Client {
    /// Returns the peer of the link.
    pub fn peer(self) -> SocketAddr {
        match self {
            Client::Peer(peer) => peer,
            Client::Forwarded { address: _, proxy } => proxy,
        }
    }
}

impl Display for Client {
    fn fmt<W: fmt::Write>(&self, f: &mut Formatter<W>) -> fmt::Result {
        match self {
            Client::Peer(peer) => write!(f, "{peer}"),
            Client::Forwarded { address, proxy: _ } => write!(f, "{address}"),
        }
    }
}
