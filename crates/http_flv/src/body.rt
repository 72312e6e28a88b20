use crate::Core;
use relay_session::Seat;
use stream_registry::StreamPort;

/// A player that lives: its state, and its seat at the streams.
#[derive(Drop)]
pub(crate) struct Body<P: StreamPort> {
    pub(crate) core: Core,
    pub(crate) seat: Seat<P>,
}
