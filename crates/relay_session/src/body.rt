use crate::input::Input;
use crate::{Core, Seat};
use stream_registry::StreamPort;

/// A session that lives: its state, the bytes received and not fed, and its seat at the streams.
#[derive(Drop)]
pub(crate) struct Body<P: StreamPort> {
    pub(crate) core: Core,
    pub(crate) input: Input,
    pub(crate) seat: Seat<P>,
}
