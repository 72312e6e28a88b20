//! One connection of the relay: from the bytes of a peer to the bytes that it is owed.
//!
//! The section numbers are those of Adobe's RTMP 1.0.
//!
//! Read `Session::turn` first. Its steps are `specs/Turns.antt`, its ends with their causes
//! `specs/Causes.antt`, and the bytes that it holds `specs/Holding.antt`. It knows no other session: they
//! meet at a port.
#![tactic(auto)]

mod answers;
mod body;
mod calls;
mod core_fields;
mod desk;
mod end;
mod end_law;
mod held;
mod input;
mod met;
mod outgoing;
mod refill;
mod seat;
mod seat_answers;
mod seat_law;
mod session;
mod six_steps;
mod steps;
mod take_input;
mod turn;
mod unit_in_hand;

pub use core_fields::Core;
pub use desk::Desk;
pub use end::End;
pub use end_law::decided_law;
pub use met::Met;
pub use outgoing::Outgoing;
pub use seat::Seat;
pub use seat_answers::{Active, Leaving, Made};
pub use seat_law::{alone_law, items_law, own_calls_law};
pub use session::Session;
pub use steps::{Part, chunk_piece, hand_piece, hear_item, hear_reply, new_core, note_sent};
pub use turn::Turn;
