//! The lines of the log on links to an origin.

use crate::cause::Cause;
use crate::quoted::QuotedName;
use crate::seats::Tally;
use crate::words::Words;
use log::Level;
use relay_outside::{Denied, Ending, News};
use std::fmt::{Display, Formatter};
use std::net::SocketAddr;
use std::{fmt, io};

/// A line of the log on a link to an origin. `error` is why a call of the system failed.
#[derive(Drop)]
pub struct OriginLine<'a> {
    pub address: SocketAddr,
    pub news: News,
    pub app: &'a [u8],
    pub name: &'a [u8],
    pub cause: Cause,
    pub error: Option<io::Error>,
    pub tally: Option<Tally>,
}

impl OriginLine<'_> {
    /// Its level.
    pub fn level(&self) -> Level {
        match self.news {
            News::Plays => Level::Info,
            News::Ended {
                ending: Ending::OutOfMemory,
                at: _,
            } => Level::Error,
            News::Ended { .. } if self.cause == Cause::Stopped => Level::Info,
            _ => Level::Warn,
        }
    }

    // Writes why the stream isn't pulled: the origin refused it, or there is no place for it here.
    fn write_denied<W: fmt::Write>(&self, f: &mut Formatter<W>, why: Denied) -> fmt::Result {
        let (app, name) = (self.app, self.name);
        match why {
            Denied::InUse => f.write_str("isn't pulled: somebody publishes here"),
            Denied::Full => f.write_str("isn't pulled: no place is left here"),
            Denied::NoName | Denied::WrongKey => write!(
                f,
                "refused {}: it has no such stream, or wants another key",
                QuotedName { app, name }
            ),
        }
    }
}

impl Display for OriginLine<'_> {
    fn fmt<W: fmt::Write>(&self, f: &mut Formatter<W>) -> fmt::Result {
        let (app, name) = (self.app, self.name);
        write!(f, "origin {} ", self.address)?;
        match self.news {
            News::Plays => write!(f, "plays {}", QuotedName { app, name }),
            News::Denied(why) => self.write_denied(f, why),
            News::Ended { .. } => self.cause.write_end(f, self.news, &self.error, self.tally),
            _ => write!(f, "{}", Words(self.news)),
        }
    }
}
