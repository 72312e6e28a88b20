//! Links that give way to others, which ask for their name or their place.

use crate::board::Board;
use crate::seats::{Seat, held};
use crate::watch::{EDGE, Watch};
use std::alloc::Global;
use std::net::{IpAddr, SocketAddr};

/// Whether a link gives its place to a connection that waits.
#[derive(Clone, Copy)]
pub enum Way {
    /// A link does so now.
    Given,
    /// A link does so within a second.
    Soon,
    /// No link does.
    Closed,
}

/// How long a link that neither publishes nor plays keeps its place even if a connection waits for it, in
/// milliseconds.
const GRACE: u64 = 1_000;

impl Watch {
    /// Returns whether a link publishes under that name, or may do so.
    pub fn is_published_as(&self, app: &[u8], name: &[u8]) -> bool {
        for place in self.seats.as_slice() {
            if let Some(seats) = place.get() {
                for seat in seats.as_slice() {
                    if seat.publishes_as(app, name) != Some(false) {
                        return true;
                    }
                }
            }
        }
        false
    }

    /// Returns whether a link publishes or plays under that name, or may do so.
    pub fn is_used(&self, app: &[u8], name: &[u8]) -> bool {
        for place in self.seats.as_slice() {
            if let Some(seats) = place.get() {
                for seat in seats.as_slice() {
                    if seat.is_busy() && seat.has_names(app, name) != Some(false) {
                        return true;
                    }
                }
            }
        }
        false
    }

    /// Asks the link that publishes under a name to give way. Returns whether there is such a link.
    pub fn ask_for_name(&self, app: &[u8], name: &[u8]) -> bool {
        for place in self.seats.as_slice() {
            if let Some(seats) = place.get() {
                for seat in seats.as_slice() {
                    if seat.publishes_as(app, name) == Some(true) {
                        seat.ask();
                        return true;
                    }
                }
            }
        }
        false
    }

    /// Asks a link to give up its place to a connection that waits at the worker's door. Of the links at all
    /// doors of the same address, it is the link that neither publishes nor plays for the longest time.
    pub fn ask_for_place(&self, board: &Board, worker: usize, now: u64) -> Way {
        let mut idlest: Option<(u64, &Seat)> = None;
        let mut number = 0usize;
        for place in self.seats.as_slice() {
            if number != EDGE as usize && board.listens_alike(worker, number) {
                idlest = earlier(idlest, place.get().and_then(|seats| seats.idlest()));
            }
            number = number.saturating_add(1);
        }
        match idlest {
            Some((since, seat)) if now.saturating_sub(since) >= GRACE => {
                seat.ask();
                Way::Given
            }
            Some(_) => Way::Soon,
            None => Way::Closed,
        }
    }

    // Returns the number of links whose peers have that address.
    fn links_of(&self, address: IpAddr) -> u64 {
        let mut count = 0u64;
        let mut number = 0usize;
        for place in self.seats.as_slice() {
            if let Some(seats) = place.get() {
                if number != EDGE as usize {
                    for seat in seats.as_slice() {
                        if seat.is_of(address) {
                            count = count.saturating_add(1);
                        }
                    }
                }
            }
            number = number.saturating_add(1);
        }
        count
    }

    /// Gives the seat to a link that comes from that address, if the address may have one more link. Returns
    /// whether it may.
    pub fn admit(&self, alloc: Global, seat: &Seat, address: SocketAddr, now: u64) -> bool {
        let most = self.bounds.address_links;
        if most == 0 {
            return true;
        }
        // One thread at a time counts links and takes a seat, unless another holds the lock for long.
        let _alone = held(&self.admitting);
        if self.links_of(address.ip()) >= most {
            return false;
        }
        seat.take(alloc, address, now);
        true
    }
}

// Returns the pair with the smaller number.
fn earlier<'a>(
    one: Option<(u64, &'a Seat)>,
    other: Option<(u64, &'a Seat)>,
) -> Option<(u64, &'a Seat)> {
    match (one, other) {
        (Some((first, _)), Some((second, seat))) if second < first => Some((second, seat)),
        (None, other) => other,
        (one, _) => one,
    }
}
