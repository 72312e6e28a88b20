//! The clock of a client, in milliseconds.

use libc::types::timespec;

/// The longest single wait, in milliseconds.
const LONGEST: u64 = 1000;

/// Returns the milliseconds since some moment. The number never falls, and is above 0.
pub fn milliseconds() -> u64 {
    let mut time = timespec {
        tv_sec: 0,
        tv_nsec: 0,
    };
    if libc::clock_gettime(libc::CLOCK_MONOTONIC, &mut time) != 0 {
        return 1;
    }
    let seconds = u64::try_from(time.tv_sec).unwrap_or(0);
    let nanos = u64::try_from(time.tv_nsec).unwrap_or(0);
    seconds
        .saturating_mul(1000)
        .saturating_add(nanos / 1_000_000)
        .max(1)
}

/// Waits until the clock shows that number of milliseconds.
pub(crate) fn wait_until(due: u64) {
    for _ in 0..u64::MAX {
        let left = due.saturating_sub(milliseconds());
        if left == 0 {
            return;
        }
        let wait = i32::try_from(left.min(LONGEST)).unwrap_or(0);
        libc::net::poll(&mut [], wait);
    }
}
