use crate::Core;
use relay_session::Seat;
use rtmp_client::Client;
use stream_registry::StreamPort;

/// An edge that lives: its state, its seat at the streams, and its client.
#[derive(Drop)]
pub(crate) struct Body<P: StreamPort> {
    pub(crate) core: Core,
    pub(crate) seat: Seat<P>,
    pub(crate) client: Client,
}
