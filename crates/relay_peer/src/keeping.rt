//! Whether the server's machine is still there.

use libc::net::{
    IPPROTO_TCP, SO_KEEPALIVE, SOL_SOCKET, TCP_KEEPCNT, TCP_KEEPIDLE, TCP_KEEPINTVL, setsockopt,
};
use mio::net::TcpStream;
use std::os::fd::AsRawFd;

/// The seconds of silence after which the system probes whether a server is still there.
const IDLE: i32 = 60;

/// The seconds between two probes.
const AGAIN: i32 = 15;

/// The number of probes without an answer after which the connection fails.
const TIMES: i32 = 4;

// Returns an option's value, as the system reads it.
fn value(number: i32) -> [u8; 16] {
    let mut bytes = [0u8; 16];
    bytes[..4].copy_from_slice(&number.to_ne_bytes());
    bytes
}

/// Has the system probe a silent server, so that a machine that is gone is found. If the option can't be set,
/// the socket stays as it was.
pub fn keep_alive(stream: &TcpStream) {
    let fd = stream.as_raw_fd();
    unsafe { setsockopt(fd, SOL_SOCKET, SO_KEEPALIVE, &value(1), 4) };
    unsafe { setsockopt(fd, IPPROTO_TCP, TCP_KEEPIDLE, &value(IDLE), 4) };
    unsafe { setsockopt(fd, IPPROTO_TCP, TCP_KEEPINTVL, &value(AGAIN), 4) };
    unsafe { setsockopt(fd, IPPROTO_TCP, TCP_KEEPCNT, &value(TIMES), 4) };
}
