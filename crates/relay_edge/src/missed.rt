//! The items that the players of a stream have missed.

use relay_outside::News;

/// The items that players have missed. A number that is reached stays at the last value of a u64.
#[derive(Clone, Copy)]
pub struct Missed {
    /// The number of times that a player jumped, because the ring had dropped its next item.
    pub jumps: u64,
    /// The number of items that were jumped over.
    pub skipped: u64,
    /// The number of items that were left out: the player lagged, their reference was missing, or it had
    /// switched their kind off.
    pub left_out: u64,
}

impl Missed {
    /// Returns that nothing was missed.
    pub fn nothing() -> Missed {
        Missed {
            jumps: 0,
            skipped: 0,
            left_out: 0,
        }
    }

    /// Returns the items that a player has missed by this news of it.
    pub fn by(news: News) -> Missed {
        let mut missed = Missed::nothing();
        match news {
            News::Skipped(items) => {
                missed.jumps = 1;
                missed.skipped = items;
            }
            News::LeftOut(items) => missed.left_out = items,
            _ => {}
        }
        missed
    }

    /// Returns whether nothing was missed.
    pub fn is_nothing(self) -> bool {
        self.jumps == 0 && self.skipped == 0 && self.left_out == 0
    }

    /// Returns the sums of both.
    pub fn and(self, more: Missed) -> Missed {
        Missed {
            jumps: self.jumps.saturating_add(more.jumps),
            skipped: self.skipped.saturating_add(more.skipped),
            left_out: self.left_out.saturating_add(more.left_out),
        }
    }
}
