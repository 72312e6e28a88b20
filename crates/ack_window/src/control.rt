ghost use Rattle.std.specs.Prelude.{◌≡◌};
ghost use Rattle.ack_window.specs.Controls.{ping_answer_of};

use std::error::Error;
use std::fmt;

// Message types (5.4, 6.2).
pub(crate) const SET_CHUNK_SIZE: u8 = 1;

pub(crate) const ABORT: u8 = 2;

pub(crate) const ACKNOWLEDGEMENT: u8 = 3;

pub(crate) const USER_CONTROL: u8 = 4;

pub(crate) const WINDOW_SIZE: u8 = 5;

pub(crate) const PEER_BANDWIDTH: u8 = 6;

// Events of user control messages (7.1.7).
pub(crate) const PING_REQUEST: u16 = 6;

const PING_RESPONSE: u16 = 7;

/// The content of a control message.
#[derive(Clone, Copy)]
pub enum Control {
    /// Set Chunk Size (5.4.1): the number of all 32 bits, whether or not it is a size.
    ChunkSize(u32),
    /// Abort Message (5.4.2): a chunk stream id.
    Abort(u32),
    /// Acknowledgement (5.4.3): the number of bytes received, modulo 2^32.
    Acknowledgement(u32),
    /// User Control Message (6.2, 7.1.7): an event, and the four bytes after it, or 0.
    User { event: u16, value: u32 },
    /// Window Acknowledgement Size (5.4.4), in bytes.
    Window(u32),
    /// Set Peer Bandwidth (5.4.5): a window in bytes, and the type of its limit.
    Bandwidth { size: u32, limit: u8 },
}

/// A control message whose body is too short: its type, and the length of its body in bytes.
#[derive(Clone, Copy, Debug)]
pub struct BadControl {
    pub kind: u8,
    pub length: usize,
}

impl fmt::Display for BadControl {
    fn fmt<W: fmt::Write>(&self, f: &mut fmt::Formatter<W>) -> fmt::Result {
        let BadControl { kind, length } = *self;
        write!(
            f,
            "a control message of type {kind} whose body has {length} bytes, which are too few"
        )
    }
}

impl Error for BadControl {}

/// Gives the answer to a ping request, event 6: a ping response, event 7, with the same value (7.1.7). `None`
/// for any other control.
pub fn ping_answer(control: &Control) -> Option<Control>
    ensures { result ≡ ping_answer_of control.now }
{
    match *control {
        Control::User {
            event: PING_REQUEST,
            value,
        } => {
            let event = PING_RESPONSE;
            Some(Control::User { event, value })
        }
        _ => None,
    }
}
