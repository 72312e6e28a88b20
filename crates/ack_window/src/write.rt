ghost use Rattle.std.specs.Prelude.{◌≡◌, IfOk};
ghost use Rattle.ack_window.specs.Controls.{InRange, message_of};

use crate::Control;
use crate::control::{
    ABORT, ACKNOWLEDGEMENT, PEER_BANDWIDTH, SET_CHUNK_SIZE, USER_CONTROL, WINDOW_SIZE,
};
use av_unit::{Bytes, OutOfMemory};
use chunk_wire::Message;
use std::alloc::Global;

/// Gives the message that carries a control: on message stream 0, at time 0, with exactly the bytes of its
/// fields.
pub fn control_message(alloc: Global, control: Control) -> Result<Message, OutOfMemory>
    ensures message { IfOk result (λ m. m ≡ message_of control) }
    ensures range { InRange control }
{
    match control {
        Control::ChunkSize(size) => message(alloc, SET_CHUNK_SIZE, &size.to_be_bytes()),
        Control::Abort(id) => message(alloc, ABORT, &id.to_be_bytes()),
        Control::Acknowledgement(count) => message(alloc, ACKNOWLEDGEMENT, &count.to_be_bytes()),
        Control::User { event, value } => {
            let [a, b] = event.to_be_bytes();
            let [c, d, e, f] = value.to_be_bytes();
            message(alloc, USER_CONTROL, &[a, b, c, d, e, f])
        }
        Control::Window(size) => message(alloc, WINDOW_SIZE, &size.to_be_bytes()),
        Control::Bandwidth { size, limit } => {
            let [a, b, c, d] = size.to_be_bytes();
            message(alloc, PEER_BANDWIDTH, &[a, b, c, d, limit])
        }
    }
}

// Gives a message on stream 0 at time 0.
fn message(alloc: Global, kind: u8, body: &[u8]) -> Result<Message, OutOfMemory>
    ensures { IfOk result (λ m. m ≡ record { kind = kind; stream = 0; time = 0; body = body.now }) }
{
    let list = Vec::from_slice(alloc, body)?;
    Ok(Message {
        kind,
        stream: 0,
        time: 0,
        body: Bytes::from_vec(list),
    })
}
