ghost use Rattle.std.specs.Prelude.{◌≡◌};
ghost use Rattle.command_dialog.specs.declared.types.DialogFail.TheVariants.{OutOfMemory as NoMemory};

use crate::lists::{App, MessageList};
use av_unit::{Bytes, OutOfMemory, Unit, Want};
use std::alloc::AllocFailed;
use thiserror::Error;

/// The use that a peer makes of one of its message streams.
#[derive(Clone, Copy)]
pub enum Role {
    Publish,
    Play,
}

/// A publish or play that needs a grant: the app of the connect, and of its text the name before the first
/// `?` and the key after it.
#[derive(Drop)]
pub struct Ask {
    pub role: Role,
    pub app: Bytes,
    pub name: Bytes,
    pub key: Bytes,
}

/// The grant of a publish or play: a place, or why there is none.
#[derive(Clone, Copy)]
pub enum Grant {
    /// No place has that app and name.
    NoName,
    /// The guard of the place refuses the key.
    Refused,
    /// It is allowed at this place.
    Place(u32),
}

/// A call to make at a stream: at the place of a Begin or Join, and from then on at that same place. These
/// two have the requested name.
#[derive(Drop)]
pub enum Act {
    Begin { place: u32, name: Bytes },
    Join { place: u32, name: Bytes },
    Push(Unit),
    End,
    /// The place of the player in that stream is given back.
    Leave(u32),
}

/// The effects of a message: messages to the peer, and after them at most one call at a stream.
#[derive(Drop)]
pub struct Acts {
    pub says: MessageList,
    pub makes: Option<Act>,
}

/// A granted play: the player's place in its stream, its message stream, its switches, and whether
/// it is paused.
#[derive(Clone, Copy)]
pub struct Playing {
    pub player: u32,
    pub id: u32,
    pub want: Want,
    pub paused: bool,
}

/// The role of a peer: none, one whose call at the stream has had no reply yet, or a granted one. The ids are
/// those of message streams. `size` is the number of bytes of a NAL unit's length, by the last video
/// configuration that was pushed since the publish began. It is 0 if there was none, or it gives no such
/// number.
#[derive(Clone, Copy)]
pub enum Phase {
    Idle,
    Asked { role: Role, id: u32 },
    Publishes { id: u32, size: u8 },
    Plays(Playing),
}

/// The switches of a player.
#[derive(Clone, Copy)]
pub enum Switch {
    Audio,
    Video,
    Pause,
}

/// The meaning of a message in the present state of the dialogue.
#[derive(Drop)]
pub enum Meant {
    /// It is ignored.
    Passed,
    /// The first connect, with the pattern of its transaction and its app.
    Connects { transaction: u64, app: App },
    /// A createStream, with the pattern of its transaction and the id that it gets.
    Creates { transaction: u64, id: u32 },
    /// A publish or play on an open id while a role is active.
    Busy { role: Role, id: u32 },
    /// A publish or play on an open id that needs a grant.
    Asks { ask: Ask, id: u32 },
    /// A deleteStream of an open id.
    Closes { id: u32 },
    /// The granted play, as it is after receiveAudio, receiveVideo or pause.
    Turns(Playing),
    /// A message of audio, video or data on the message stream of the publish.
    Media,
}

/// Why a message ends the dialogue.
#[derive(Clone, Copy, Debug, Error)]
pub enum DialogFail {
    /// The body of a command message that isn't a command, and the place of the fault in it.
    #[error("a command message that is no command, at byte {at} of it")]
    BadCommand { at: usize },
    /// A createStream while 16 message streams are open.
    #[error("too many message streams")]
    TooManyStreams,
    #[error("out of memory")]
    OutOfMemory,
}

impl From<OutOfMemory> for DialogFail {
    ghost from_gives = { λ _ e. e ≡ NoMemory };

    fn from(_: OutOfMemory) -> DialogFail {
        DialogFail::OutOfMemory
    }
}

impl<T: Drop> From<AllocFailed<T>> for DialogFail {
    ghost from_gives = { λ _ e. e ≡ NoMemory };

    fn from(_: AllocFailed<T>) -> DialogFail {
        DialogFail::OutOfMemory
    }
}
