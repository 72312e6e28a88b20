//! The sockets at which a server listens for connections.

use crate::seats::held;
use libc::net::{SHUT_RD, shutdown};
use std::alloc::{AllocError, Global};
use std::net::{SocketAddr, TcpListener};
use std::os::fd::AsRawFd;
use std::sync::Mutex;

// A listening socket and its address.
#[derive(Drop)]
struct Listener {
    address: SocketAddr,
    socket: TcpListener,
}

/// The listening sockets of a server, which all its doors share.
#[derive(Drop)]
pub struct Listeners {
    list: Mutex<Vec<Listener>>,
}

impl Listeners {
    pub fn new(alloc: Global) -> Listeners {
        Listeners {
            list: Mutex::new(Vec::new(alloc)),
        }
    }

    /// Adds a listening socket.
    pub fn add(&self, address: SocketAddr, socket: TcpListener) -> Result<(), AllocError> {
        let Some(mut list) = held(&self.list) else {
            return Err(AllocError);
        };
        let list = &mut *list;
        match list.push(Listener { address, socket }) {
            Ok(()) => Ok(()),
            Err(_) => Err(AllocError),
        }
    }

    /// Returns the address of each, in the order in which they were added.
    pub fn addresses(&self, alloc: Global) -> Result<Vec<SocketAddr>, AllocError> {
        let mut addresses = Vec::new(alloc);
        if let Some(list) = held(&self.list) {
            for one in list.as_slice() {
                if addresses.push(one.address).is_err() {
                    return Err(AllocError);
                }
            }
        }
        Ok(addresses)
    }

    /// Stops listening at all of them: a connection that waits is reset, and one that comes is refused. That
    /// holds for each handle of a socket, so also for the handle of a door.
    pub fn close(&self) {
        if let Some(mut list) = held(&self.list) {
            let list = &mut *list;
            for one in list.as_slice() {
                shutdown(one.socket.as_raw_fd(), SHUT_RD);
            }
            list.clear();
        }
    }
}
