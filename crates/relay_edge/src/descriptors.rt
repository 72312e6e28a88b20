//! How many descriptors the system lets a program have.

use libc::types::rlimit;

// The resource whose limit is the number of descriptors.
const RLIMIT_NOFILE: i32 = 7;

/// Returns the number of descriptors that the system lets this program have.
pub fn most_descriptors() -> u64 {
    let mut limit = rlimit {
        rlim_cur: u64::MAX,
        rlim_max: u64::MAX,
    };
    if libc::getrlimit(RLIMIT_NOFILE, &mut limit) != 0 {
        return u64::MAX;
    }
    limit.rlim_cur
}
