//! A player that speaks HTTP: from the bytes of a request to a live stream in its answer.
//!
//! A player joins the stream that the target of its request names, and is sent an FLV of the items that it
//! takes. If it may not, it is refused and ends.
//!
//! Read `HttpPlayer::turn` first. `specs/Out.antt` defines the bytes that it owes, `specs/Deciding.antt` the
//! decision on its request. It publishes nothing.
#![tactic(auto)]

mod body;
mod calls;
mod core_fields;
mod decision;
mod end;
mod player;
mod sending;
mod stage;
mod steps;
mod texts;
mod turn;
mod turns;

pub use core_fields::Core;
pub use decision::Decision;
pub use end::HttpEnd;
pub use player::HttpPlayer;
pub use sending::Outbox;
pub use stage::Stage;
pub use turn::HttpTurn;
