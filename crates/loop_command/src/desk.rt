//! The one stream of a loop.
ghost use Rattle.std.specs.Prelude.{◌≡◌};
ghost use Rattle.loop_command.specs.Desk.{granted};

use command_dialog::{Ask, Grant};
use relay_base::Limits;
use relay_session::Desk;

/// The address that the clients tell.
pub(crate) const ADDRESS: &[u8] = b"loop";

/// The application of the stream.
pub(crate) const APP: &[u8] = b"live";

/// Its name.
pub(crate) const NAME: &[u8] = b"cam";

/// The limits of a relay that is told none.
pub(crate) const LIMITS: Limits = Limits {
    max_message: 4_194_304,
    ring_bytes: 33_554_432,
    ring_items: 16_384,
    players: 256,
    window: 2_500_000,
};

/// Grants the one stream to everybody, and nothing else.
pub(crate) struct OneStream;

impl Desk for OneStream {
    ghost grants = { λ _ ask. granted ask };

    fn grant(&self, ask: &Ask) -> Grant {
        if ask.app.as_slice() == APP && ask.name.as_slice() == NAME {
            Grant::Place(0)
        } else {
            Grant::NoName
        }
    }
}
