//! Why a link ended that failed or answered at its end.

use crate::seats::Tally;
use crate::words;
use crate::words::Words;
use relay_outside::{Ending, News};
use std::fmt::Formatter;
use std::{fmt, io};

/// Why a link answered that it failed, or at its end.
#[derive(Clone, Copy, PartialEq, Eq)]
pub enum Cause {
    Peer,
    Silent { seconds: u64 },
    Stopped,
    /// It neither published nor played, and a connection waited for its place.
    GaveWay,
    /// The stream that it played had no publisher for this time.
    Waited { seconds: u64 },
    /// It was refused too often.
    Barred,
    /// The broadcast is over, and it was sent a part of it.
    Left,
}

impl Cause {
    /// Writes how a link ended by this news, with its duration and its bytes. `error` is the error of the
    /// system call that failed, if one did.
    pub fn write_end<W: fmt::Write>(
        self,
        f: &mut Formatter<W>,
        news: News,
        error: &Option<io::Error>,
        tally: Option<Tally>,
    ) -> fmt::Result {
        match news {
            News::Ended {
                ending: Ending::LinkFault | Ending::PeerClosed,
                at: _,
            } => self.write(f, news, error)?,
            _ => write!(f, "{}", Words(news))?,
        }
        match tally {
            Some(tally) => write!(f, "; {tally}"),
            None => Ok(()),
        }
    }

    // Writes why a link ended that failed or closed.
    fn write<W: fmt::Write>(
        self,
        f: &mut Formatter<W>,
        news: News,
        error: &Option<io::Error>,
    ) -> fmt::Result {
        match (self, error) {
            (Cause::Silent { seconds }, _) => write!(f, "ended: silent for {seconds} s"),
            (Cause::Stopped, _) => write!(f, "ended: {}", words::Cause(Ending::Quit)),
            (Cause::GaveWay, _) => f.write_str("ended: its place was given to one that waited"),
            (Cause::Waited { seconds }, _) => write!(f, "ended: nobody published for {seconds} s"),
            (Cause::Barred, _) => f.write_str("ended: refused too often"),
            (Cause::Left, _) => f.write_str("ended: the broadcast is over"),
            (Cause::Peer, Some(error)) => write!(f, "{}: {error}", Words(news)),
            (Cause::Peer, None) => write!(f, "{}", Words(news)),
        }
    }
}
