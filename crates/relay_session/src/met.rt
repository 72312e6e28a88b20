//! The answers that a seat has had, in numbers, for the log and for `stats`.

use crate::Made;
use relay_outside::Denied;
use stream_model::Reply;

/// The answers that a seat has had to its calls. Each number stays at the last value of a u64 once it is reached.
#[derive(Clone, Copy)]
pub struct Met {
    /// The number of items that it jumped over, because the ring had dropped them.
    pub skipped: u64,
    /// The number of items between those that it was sent that were left out: disposable frames of a player that lags,
    /// frames whose reference is missing, and kinds that its switches exclude.
    pub left_out: u64,
    /// The reason why its last publish or play was refused, until one is granted.
    pub denied: Option<Denied>,
}

impl Met {
    pub(crate) fn new() -> Met {
        Met {
            skipped: 0,
            left_out: 0,
            denied: None,
        }
    }

    // Returns the numbers after one more call.
    pub(crate) fn after(self, made: &Made) -> Met {
        let Made::Answer(reply) = made else {
            return self;
        };
        let mut met = self;
        match reply {
            Reply::Skip { from, to } => {
                met.skipped = met.skipped.saturating_add(to.saturating_sub(*from));
            }
            Reply::Sent { from, n, item: _ } => {
                met.left_out = met.left_out.saturating_add(n.saturating_sub(*from));
            }
            Reply::Began { .. } | Reply::Joined { .. } => met.denied = None,
            Reply::InUse { .. } => met.denied = Some(Denied::InUse),
            Reply::Full | Reply::NoSlot { .. } => met.denied = Some(Denied::Full),
            Reply::Pushed { .. }
            | Reply::NotPublisher { .. }
            | Reply::Ended { .. }
            | Reply::NotPlayer
            | Reply::NotYet { .. }
            | Reply::Left { .. }
            | Reply::Counts { .. } => {}
        }
        met
    }
}
