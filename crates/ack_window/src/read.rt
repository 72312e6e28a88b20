ghost use Rattle.std.specs.Prelude.{◌≡◌, ◌<◌, ◌↔◌, length, slice_index, IsErr, IfErr, Ok, None};
ghost use Rattle.relay_base.specs.Numbers.{be32_of};
ghost use Rattle.ack_window.specs.Controls.{control_in, least_of, least_user, IsOther, event_in, value_in, refusal as refusal_of, unless_short};

use crate::control::{
    ABORT, ACKNOWLEDGEMENT, PEER_BANDWIDTH, PING_REQUEST, SET_CHUNK_SIZE, USER_CONTROL, WINDOW_SIZE,
};
use crate::{BadControl, Control};
use chunk_wire::Message;
use relay_base::{be16, be32};

/// Reads the control that a message carries. `None` exactly for a message of another type than 1 to 6.
///
/// It is refused exactly if its body is shorter than its type requires: 4 bytes for types 1, 2, 3 and 5, and
/// 5 bytes for type 6. Type 4 requires the 2 bytes of the event, but 6 bytes for event 6. Further bytes of a
/// longer body aren't read. The number of a Set Chunk Size is given as it stands, even if it isn't a valid
/// size.
#[tactic(auto, using(std::proofs::lemmas::Bool::Decides::nat_tests), unfolding(crate::specs::Controls::control_in, crate::specs::Controls::least_of))]
pub fn control_of(message: &Message) -> Result<Option<Control>, BadControl>
    ensures value { result ≡ control_in message.now }
    ensures other { (result ≡ Ok None) ↔ IsOther message.now.kind }
    ensures short { IsErr result ↔ (length message.now.body < least_of message.now) }
    ensures refusal { IfErr result (λ e. e ≡ refusal_of message.now) }
{
    match message.kind {
        SET_CHUNK_SIZE => Ok(Some(Control::ChunkSize(number(message)?))),
        ABORT => Ok(Some(Control::Abort(number(message)?))),
        ACKNOWLEDGEMENT => Ok(Some(Control::Acknowledgement(number(message)?))),
        USER_CONTROL => Ok(Some(user(message)?)),
        WINDOW_SIZE => Ok(Some(Control::Window(number(message)?))),
        PEER_BANDWIDTH => Ok(Some(bandwidth(message)?)),
        _ => Ok(None),
    }
}

// Gives the refusal of a message.
fn refusal(message: &Message) -> BadControl
    ensures { result ≡ refusal_of message.now }
{
    BadControl {
        kind: message.kind,
        length: message.body.len(),
    }
}

// Reads the number in the first four bytes.
fn number(message: &Message) -> Result<u32, BadControl>
    ensures { result ≡ unless_short message.now 4 (be32_of message.now.body) }
{
    let body = message.body.as_slice();
    if body.len() < 4 {
        return Err(refusal(message));
    }
    Ok(be32(body))
}

// Reads an event with its value.
fn user(message: &Message) -> Result<Control, BadControl>
    ensures { result ≡ unless_short message.now (least_user message.now.body) (Control.User (event_in message.now.body) (value_in message.now.body)) }
{
    let body = message.body.as_slice();
    if body.len() < 2 {
        return Err(refusal(message));
    }
    let event = be16(body);
    if body.len() >= 6 {
        let value = be32(&body[2..]);
        return Ok(Control::User { event, value });
    }
    if event == PING_REQUEST {
        return Err(refusal(message));
    }
    Ok(Control::User { event, value: 0 })
}

// Reads a window and its limit.
fn bandwidth(message: &Message) -> Result<Control, BadControl>
    ensures { result ≡ unless_short message.now 5 (Control.Bandwidth (be32_of message.now.body) (slice_index message.now.body 4)) }
{
    let body = message.body.as_slice();
    if body.len() < 5 {
        return Err(refusal(message));
    }
    let size = be32(body);
    let limit = body[4];
    Ok(Control::Bandwidth { size, limit })
}
