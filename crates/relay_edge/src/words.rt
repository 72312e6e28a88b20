//! The words of the log for the news of a link.

use relay_outside::{Denied, Ending, News};
use std::fmt;
use std::fmt::{Display, Formatter};

/// Why a publish or a play was refused, in words.
#[derive(Clone, Copy)]
pub struct Why(pub Denied);

/// Why a link ended, in words.
#[derive(Clone, Copy)]
pub struct Cause(pub Ending);

/// The news of a link, in words.
#[derive(Clone, Copy)]
pub struct Words(pub News);

impl Display for Why {
    fn fmt<W: fmt::Write>(&self, f: &mut Formatter<W>) -> fmt::Result {
        f.write_str(match self.0 {
            Denied::NoName => "no such stream,",
            Denied::WrongKey => "wrong key for",
            Denied::InUse => "somebody publishes",
            Denied::Full => "no place is left at",
        })
    }
}

impl Display for Cause {
    fn fmt<W: fmt::Write>(&self, f: &mut Formatter<W>) -> fmt::Result {
        f.write_str(match self.0 {
            Ending::PeerClosed => "the peer closed the link",
            Ending::LinkFault => "the link failed",
            Ending::BadVersion => "asked for another version of RTMP",
            Ending::BadChunk => "sent a chunk that is no chunk",
            Ending::BadControl => "sent a control message that is too short",
            Ending::BadCommand => "sent a command that is no command",
            Ending::TooManyStreams => "asked for too many message streams",
            Ending::Quit => "the relay stops",
            Ending::Worn => "its stream has had as many calls as can be counted",
            Ending::OutOfMemory => "out of memory",
            Ending::Answered(status) => return write!(f, "answered {status}"),
        })
    }
}

impl Display for Words {
    fn fmt<W: fmt::Write>(&self, f: &mut Formatter<W>) -> fmt::Result {
        match self.0 {
            News::Connected => f.write_str("connected to"),
            News::Publishes => f.write_str("publishes"),
            News::Plays => f.write_str("plays"),
            News::Left => f.write_str("left"),
            News::HeldBack => f.write_str("has to acknowledge what it was sent:"),
            News::Resumed => f.write_str("has acknowledged what it was sent:"),
            News::Skipped(items) => write!(f, "jumped over {items} items of"),
            News::LeftOut(items) => write!(f, "was not sent {items} items of"),
            News::Denied(why) => write!(f, "refused: {}", Why(why)),
            News::Ended { ending, at: None } => write!(f, "ended: {}", Cause(ending)),
            News::Ended {
                ending,
                at: Some(at),
            } => write!(f, "ended: {}, at byte {at}", Cause(ending)),
        }
    }
}
