//! The knowledge of seats, and the content of the slot.

use std::collections::LinkedList;

/// The place of a pass among those of its gate. `depth` is the number of splits between the first pass and
/// it, and `cut` the number of passes that were split off from it. No value of this type is made.
pub struct Branch {
    pub depth: u64,
    pub cut: u64,
}

/// The knowledge of a seat. No value of this type is made.
///
/// `holds`: it holds the turn, and then it has the `whole` history. `met`: the number of its tries that found
/// the turn held. `kin`: its own branch, and those of the seats that it took in; it has none once it was
/// taken in. `of`: the part of the machine that never changes. `seen`: the calls that it has seen. `mine`:
/// the places of its own calls among them. `noted`: the calls that it took in from another.
pub struct View<C, R, A> {
    pub holds: bool,
    pub met: u64,
    pub kin: LinkedList<Branch>,
    pub of: Option<A>,
    pub whole: LinkedList<(C, R)>,
    pub noted: LinkedList<(C, R)>,
    pub seen: LinkedList<(C, R)>,
    pub mine: LinkedList<u64>,
}

/// The machine, and the number of calls in its history.
#[derive(Drop)]
pub struct Counted<T> {
    pub machine: T,
    pub calls: u64,
}
