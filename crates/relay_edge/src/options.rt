//! The options that are set on a socket.

use libc::net::{
    IPPROTO_TCP, SO_KEEPALIVE, SO_SNDBUF, SOL_SOCKET, TCP_KEEPCNT, TCP_KEEPIDLE, TCP_KEEPINTVL,
    setsockopt,
};
use mio::net::TcpStream;
use std::os::fd::AsRawFd;

/// The seconds of silence after which the system probes whether a peer is still there.
const IDLE: i32 = 60;

/// The seconds between two probes.
const AGAIN: i32 = 15;

/// The number of probes without an answer after which the connection fails.
const TIMES: i32 = 4;

// Returns an option's value, as the system reads it.
fn value(number: i32) -> [u8; 16] {
    let mut bytes = [0u8; 16];
    bytes[..4].copy_from_slice(&number.to_ne_bytes());
    bytes
}

/// Has the system probe a silent peer, so that a machine that is gone is found. If the option can't be set,
/// the socket stays as it was.
pub fn keep_alive(stream: &TcpStream) {
    let fd = stream.as_raw_fd();
    unsafe { setsockopt(fd, SOL_SOCKET, SO_KEEPALIVE, &value(1), 4) };
    unsafe { setsockopt(fd, IPPROTO_TCP, TCP_KEEPIDLE, &value(IDLE), 4) };
    unsafe { setsockopt(fd, IPPROTO_TCP, TCP_KEEPINTVL, &value(AGAIN), 4) };
    unsafe { setsockopt(fd, IPPROTO_TCP, TCP_KEEPCNT, &value(TIMES), 4) };
}

/// Has the system keep about `bytes` bytes that the peer hasn't acknowledged; 0 leaves the number to the
/// system.
pub fn bound_buffer(stream: &TcpStream, bytes: u32) {
    if bytes > 0 {
        let most = i32::try_from(bytes).unwrap_or(i32::MAX);
        unsafe { setsockopt(stream.as_raw_fd(), SOL_SOCKET, SO_SNDBUF, &value(most), 4) };
    }
}
