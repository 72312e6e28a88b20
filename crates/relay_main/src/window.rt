//! The length of a stream's window, in seconds.

use relay_base::Limits;
use std::fmt;
use std::fmt::{Display, Formatter};

/// The bytes a second of the stream for which it is given: 4 Mbit/s and 70 items a second, about 30 video
/// frames and 43 audio frames. Each item counts 64 bytes more.
const BYTES: u64 = 500_000 + ITEMS * 64;

const ITEMS: u64 = 70;

/// The seconds of such a stream that the window of these limits holds, and the seconds after which a player
/// lags.
#[derive(Clone, Copy)]
pub struct Window<'a> {
    pub limits: &'a Limits,
}

// Returns the quotient, rounded.
fn rounded(count: u64, a_second: u64) -> u64 {
    count
        .saturating_add(a_second / 2)
        .checked_div(a_second)
        .unwrap_or(0)
}

impl Display for Window<'_> {
    fn fmt<W: fmt::Write>(&self, f: &mut Formatter<W>) -> fmt::Result {
        let items = u64::from(self.limits.ring_items);
        write!(
            f,
            "at 4 Mbit/s and 70 items a second: {} s by bytes, {} s by items; a player lags after {} s",
            rounded(self.limits.ring_bytes, BYTES),
            rounded(items, ITEMS),
            rounded(items / 2, ITEMS)
        )
    }
}
